//! Writing the expressions of a definition, each behind what is there.
ghost use Rattle.std.specs.Prelude.{◌≡◌, ◌++◌, OnOk};
ghost use Rattle.pt_bytes.specs.Numbers.{le_bytes};
ghost use Rattle.pt_defs.specs.Spelling.{column_place, date_text, expr_text, factors_text, func_code, i128_text, op_code, terms_text};

use crate::named::NamedColumns;
use crate::put_item::{put_count, put_day, put_string};
use pt_ast::{Columns, Expr, Factors, Func, Op, Terms};
use pt_bytes::{put_bytes, put_u8};
use pt_value::Ident;
use std::alloc::{AllocError, Global};

/// An expression over these columns. Each node takes about as long however many columns there are.
pub(crate) fn put_over(
    alloc: Global,
    out: &mut Vec<u8>,
    columns: &Columns,
    expr: &Expr,
) -> Result<(), AllocError>
    ensures { OnOk result (out.new.items ≡ out.old.items ++ expr_text columns.now expr.now) }
{
    let named = NamedColumns::of(alloc, columns.items())?;
    put_expr(out, &named, expr)
}

/// An expression.
#[tactic(auto, using(crate::proofs::Texts::behind_byte))]
#[cycle(put_expr)]
fn put_expr(out: &mut Vec<u8>, columns: &NamedColumns<'_>, expr: &Expr) -> Result<(), AllocError>
    ensures { OnOk result (out.new.items ≡ out.old.items ++ expr_text columns.now expr.now) }
{
    match expr {
        Expr::Number(n) => {
            put_u8(out, 1)?;
            put_number(out, *n)
        }
        Expr::Date(day) => {
            put_u8(out, 2)?;
            put_date(out, *day)
        }
        Expr::Null => put_u8(out, 3),
        Expr::Column(name) => {
            put_u8(out, 4)?;
            put_place(out, columns, name)
        }
        Expr::Neg(part) => {
            put_u8(out, 5)?;
            put_expr(out, columns, part.get())
        }
        Expr::Sum(parts) => {
            put_u8(out, 6)?;
            put_terms(out, columns, parts)
        }
        Expr::Product(first, parts) => {
            put_u8(out, 7)?;
            put_expr(out, columns, first.get())?;
            put_factors(out, columns, parts)
        }
        Expr::Call(func, part) => {
            put_u8(out, func_code(*func))?;
            put_expr(out, columns, part.get())
        }
        Expr::Text(bytes) => {
            put_u8(out, 17)?;
            put_string(out, bytes.items())
        }
        Expr::Hex(bytes) => {
            put_u8(out, 18)?;
            put_string(out, bytes.items())
        }
    }
}

/// The parts of a sum.
#[cycle(put_expr)]
fn put_terms(out: &mut Vec<u8>, columns: &NamedColumns<'_>, parts: &Terms) -> Result<(), AllocError>
    ensures { OnOk result (out.new.items ≡ out.old.items ++ terms_text columns.now parts.now) }
{
    let items = parts.items();
    put_count(out, items.len())?;
    for (minus, part) in items {
        put_u8(out, u8::from(*minus))?;
        put_expr(out, columns, part)?;
    }
    Ok(())
}

/// The later parts of a product.
#[cycle(put_expr)]
fn put_factors(
    out: &mut Vec<u8>,
    columns: &NamedColumns<'_>,
    parts: &Factors,
) -> Result<(), AllocError>
    ensures { OnOk result (out.new.items ≡ out.old.items ++ factors_text columns.now parts.now) }
{
    let items = parts.items();
    put_count(out, items.len())?;
    for (op, part) in items {
        put_u8(out, op_code(*op))?;
        put_expr(out, columns, part)?;
    }
    Ok(())
}

/// A number.
fn put_number(out: &mut Vec<u8>, n: i128) -> Result<(), AllocError>
    ensures { OnOk result (out.new.items ≡ out.old.items ++ i128_text n) }
{
    put_bytes(out, &n.cast_unsigned().to_le_bytes())
}

/// A date: one of a definition has a day.
fn put_date(out: &mut Vec<u8>, day: Option<i32>) -> Result<(), AllocError>
    ensures { OnOk result (out.new.items ≡ out.old.items ++ date_text day) }
{
    match day {
        Some(day) => put_day(out, day),
        None => Ok(()),
    }
}

/// The position of the first column of a name.
fn put_place(out: &mut Vec<u8>, columns: &NamedColumns<'_>, name: &Ident) -> Result<(), AllocError>
    ensures { OnOk result (out.new.items ≡ out.old.items ++ le_bytes 4 (column_place name.now columns.now)) }
{
    put_count(out, columns.place_of(name))
}

fn op_code(op: Op) -> u8
    ensures { result ≡ op_code op }
{
    match op {
        Op::Times => 1,
        Op::Div => 2,
        Op::Mod => 3,
    }
}

fn func_code(func: Func) -> u8
    ensures { result ≡ func_code func }
{
    match func {
        Func::Abs => 8,
        Func::Year => 9,
        Func::Month => 10,
        Func::DayOfMonth => 11,
        Func::DayOfYear => 12,
        Func::DayOfWeek => 13,
        Func::Weekday => 14,
        Func::Quarter => 15,
        Func::ToDays => 16,
    }
}
