ghost use Rattle.std.specs.Prelude.{◌≡◌, IfOk};
ghost use Rattle.pt_written.specs.Written.{own_name};
ghost use Rattle.pt_written.specs.WrittenParts.{renamed};

use pt_ast::{Columns, Expr, Factors, Terms};
use pt_place::same;
use pt_plain::Held;
use pt_value::{Bin, Ident};
use std::alloc::{AllocError, Global};

/// The expression, with each column named as the list of columns names it.
pub(crate) fn renamed(alloc: Global, columns: &Columns, expr: &Expr) -> Result<Expr, AllocError>
    ensures { IfOk result (λ made. made ≡ renamed columns.now expr.now) }
{
    match expr {
        Expr::Number(n) => Ok(Expr::Number(*n)),
        Expr::Text(bytes) => Ok(Expr::Text(Bin::from_slice(alloc, bytes.items())?)),
        Expr::Hex(bytes) => Ok(Expr::Hex(Bin::from_slice(alloc, bytes.items())?)),
        Expr::Date(day) => Ok(Expr::Date(*day)),
        Expr::Null => Ok(Expr::Null),
        Expr::Column(name) => Ok(Expr::Column(own_name(columns, name))),
        Expr::Neg(part) => {
            let part = renamed(alloc, columns, part.get())?;
            Ok(Expr::Neg(Held::new(alloc, part)?))
        }
        Expr::Sum(parts) => {
            let mut made = Terms::new(alloc);
            for (minus, part) in parts.items() {
                made.push((*minus, renamed(alloc, columns, part)?))?;
            }
            Ok(Expr::Sum(made))
        }
        Expr::Product(first, parts) => {
            let first = Held::new(alloc, renamed(alloc, columns, first.get())?)?;
            let mut made = Factors::new(alloc);
            for (op, part) in parts.items() {
                made.push((*op, renamed(alloc, columns, part)?))?;
            }
            Ok(Expr::Product(first, made))
        }
        Expr::Call(func, part) => {
            let part = renamed(alloc, columns, part.get())?;
            Ok(Expr::Call(*func, Held::new(alloc, part)?))
        }
    }
}

/// A column's name as the list of columns writes it.
pub fn own_name(columns: &Columns, name: &Ident) -> Ident
    ensures { result ≡ own_name columns.now name.now }
{
    for column in columns.items() {
        if same(&column.name, name) {
            return column.name;
        }
    }
    *name
}
