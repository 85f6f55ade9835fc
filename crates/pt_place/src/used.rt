ghost use Rattle.std.specs.Prelude.{◌≡◌};
ghost use Rattle.std.specs.List.{list_all};
ghost use Rattle.pt_place.specs.Checks.{has_column, is_some_name};
ghost use Rattle.pt_place.specs.Lacking.{has_place};
ghost use Rattle.pt_place.specs.Names.{column_of, columns_in, columns_used, names_in};

use crate::fitting::has_column;
use crate::names::same;
use pt_ast::{Columns, Expr, KeyDef, PartBy};
use pt_value::Ident;

/// Whether an expression names a column.
pub fn names_column(expr: &Expr) -> bool
    ensures { result ≡ is_some_name (names_in expr.now) }
{
    match expr {
        Expr::Column(_) => true,
        Expr::Neg(part) => names_column(part.get()),
        Expr::Sum(parts) => {
            for (_, part) in parts.items() {
                if names_column(part) {
                    return true;
                }
            }
            false
        }
        Expr::Product(first, parts) => {
            if names_column(first.get()) {
                return true;
            }
            for (_, part) in parts.items() {
                if names_column(part) {
                    return true;
                }
            }
            false
        }
        Expr::Call(_, part) => names_column(part.get()),
        Expr::Number(_) | Expr::Text(_) | Expr::Hex(_) | Expr::Date(_) | Expr::Null => false,
    }
}

/// Whether a key has every column that a partitioning uses.
pub(crate) fn uses(key: &KeyDef, columns: &Columns, by: &PartBy) -> bool
    ensures { result ≡ list_all (has_column key.now) (columns_used columns.now by.now) }
{
    match by {
        PartBy::Whole => true,
        PartBy::Range(expr) => has_named(key, columns, expr),
        PartBy::List(expr) => has_named(key, columns, expr),
        PartBy::Hash(_, expr) => has_named(key, columns, expr),
        PartBy::RangeColumns(numbers) => has_all(key, numbers.items()),
        PartBy::ListColumns(numbers) => has_all(key, numbers.items()),
        PartBy::Key(_, numbers) => has_all(key, numbers.items()),
    }
}

fn has_all(key: &KeyDef, numbers: &[u32]) -> bool
    ensures { result ≡ list_all (has_column key.now) numbers.now }
{
    for number in numbers {
        if !has_column(key, *number as usize) {
            return false;
        }
    }
    true
}

/// Whether a key has every column that an expression names.
fn has_named(key: &KeyDef, columns: &Columns, expr: &Expr) -> bool
    ensures { result ≡ list_all (has_column key.now) (columns_in columns.now expr.now) }
{
    match expr {
        Expr::Column(name) => has_name(key, columns, name),
        Expr::Neg(part) => has_named(key, columns, part.get()),
        Expr::Sum(parts) => {
            for (_, part) in parts.items() {
                if !has_named(key, columns, part) {
                    return false;
                }
            }
            true
        }
        Expr::Product(first, parts) => {
            if !has_named(key, columns, first.get()) {
                return false;
            }
            for (_, part) in parts.items() {
                if !has_named(key, columns, part) {
                    return false;
                }
            }
            true
        }
        Expr::Call(_, part) => has_named(key, columns, part.get()),
        Expr::Number(_) | Expr::Text(_) | Expr::Hex(_) | Expr::Date(_) | Expr::Null => true,
    }
}

/// Whether a key has the first column of a name, if there is one.
fn has_name(key: &KeyDef, columns: &Columns, name: &Ident) -> bool
    ensures { result ≡ has_place key.now (column_of columns.now name.now) }
{
    match column_of(columns, name) {
        Some(number) => has_column(key, number),
        None => true,
    }
}

/// The position of the first column of a name.
pub fn column_of(columns: &Columns, name: &Ident) -> Option<usize>
    ensures { result ≡ column_of columns.now name.now }
{
    columns
        .items()
        .iter()
        .position(|column| same(&column.name, name))
}
