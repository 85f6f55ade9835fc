//! The text of expressions, each behind what is there.
ghost use Rattle.std.specs.Prelude.{◌≡◌, ◌++◌, OnOk};
ghost use Rattle.pt_value.specs.Fits.{fits_date};
ghost use Rattle.pt_value.specs.Text.{bytes_text};
ghost use Rattle.std.specs.Fmt.{signed_decimal};
ghost use Rattle.pt_show.specs.Show.{call_shown, constant, day_shown, factors_shown, func_shown, literal_day, op_shown, operand, parts_of, quoted, shown_expr, sign_shown, sum_shown, term_at};

use pt_ast::{Expr, Factors, Func, Op, Terms};
use pt_bytes::put_bytes;
use pt_value::{Bin, Ident, Value};
use std::alloc::{AllocError, Global};

/// A name in backquotes.
#[tactic(auto, unfolding(crate::specs::Show::quoted))]
pub(crate) fn show_name(out: &mut Vec<u8>, name: &[u8]) -> Result<(), AllocError>
    ensures { OnOk result (out.new.items ≡ out.old.items ++ quoted name.now) }
{
    put_bytes(out, b"`")?;
    put_bytes(out, name)?;
    put_bytes(out, b"`")
}

/// A day, where it fits DATE.
#[tactic(auto, unfolding(crate::specs::Show::day_shown))]
fn show_day(alloc: Global, out: &mut Vec<u8>, day: i32) -> Result<(), AllocError>
    ensures { OnOk result (out.new.items ≡ out.old.items ++ day_shown day) }
{
    if !fits_date(day) {
        return Ok(());
    }
    let text = Value::Day(day).show(alloc)?;
    put_bytes(out, text.items())
}

/// A number.
pub(crate) fn show_number(alloc: Global, out: &mut Vec<u8>, n: i128) -> Result<(), AllocError>
    ensures { OnOk result (out.new.items ≡ out.old.items ++ signed_decimal n) }
{
    let text = format!(in alloc; "{n}")?;
    put_bytes(out, text.as_bytes())
}

/// A value, a date in quotes.
#[tactic(auto, unfolding(crate::specs::Show::constant))]
pub(crate) fn show_constant(
    alloc: Global,
    out: &mut Vec<u8>,
    cell: &Value,
) -> Result<(), AllocError>
    ensures { OnOk result (out.new.items ≡ out.old.items ++ constant cell.now) }
{
    match cell {
        Value::Null => put_bytes(out, b"NULL"),
        Value::Int(n) => show_number(alloc, out, i128::from(*n)),
        Value::Day(day) => {
            put_bytes(out, b"'")?;
            show_day(alloc, out, *day)?;
            put_bytes(out, b"'")
        }
        Value::Bytes(_) => {
            let text = cell.show(alloc)?;
            put_bytes(out, text.items())
        }
    }
}

/// A byte string.
fn show_string(alloc: Global, out: &mut Vec<u8>, bytes: &Bin) -> Result<(), AllocError>
    ensures { OnOk result (out.new.items ≡ out.old.items ++ bytes_text bytes.now) }
{
    let value = Value::Bytes(Bin::from_slice(alloc, bytes.items())?);
    let text = value.show(alloc)?;
    put_bytes(out, text.items())
}

/// A date within an expression.
fn show_date(alloc: Global, out: &mut Vec<u8>, day: Option<i32>) -> Result<(), AllocError>
    ensures { OnOk result (out.new.items ≡ out.old.items ++ literal_day day) }
{
    match day {
        Some(day) => show_day(alloc, out, day),
        None => Ok(()),
    }
}

/// An expression.
#[cycle(show_expr)]
pub(crate) fn show_expr(alloc: Global, out: &mut Vec<u8>, expr: &Expr) -> Result<(), AllocError>
    ensures { OnOk result (out.new.items ≡ out.old.items ++ (shown_expr expr.now).1) }
{
    match expr {
        Expr::Number(n) => show_number(alloc, out, *n),
        Expr::Text(bytes) => show_string(alloc, out, bytes),
        Expr::Hex(bytes) => show_string(alloc, out, bytes),
        Expr::Date(day) => {
            put_bytes(out, b"DATE '")?;
            show_date(alloc, out, *day)?;
            put_bytes(out, b"'")
        }
        Expr::Null => put_bytes(out, b"NULL"),
        Expr::Column(name) => show_name(out, name.bytes()),
        Expr::Neg(part) => {
            put_bytes(out, b"-")?;
            show_operand(alloc, out, part.get())
        }
        Expr::Sum(parts) => show_sum(alloc, out, parts),
        Expr::Product(first, parts) => {
            show_operand(alloc, out, first.get())?;
            show_factors(alloc, out, parts)
        }
        Expr::Call(func, part) => show_call(alloc, out, *func, part.get()),
    }
}

/// A function of an expression.
#[tactic(auto, unfolding(crate::specs::Show::call_shown))]
#[cycle(show_expr)]
fn show_call(alloc: Global, out: &mut Vec<u8>, func: Func, part: &Expr) -> Result<(), AllocError>
    ensures { OnOk result (out.new.items ≡ out.old.items ++ call_shown func (shown_expr part.now).1) }
{
    show_func(out, func)?;
    put_bytes(out, b"(")?;
    show_expr(alloc, out, part)?;
    put_bytes(out, b")")
}

/// A node within a product, a negation or the later parts of a sum.
#[tactic(auto, unfolding(crate::specs::Show::operand))]
#[cycle(show_expr)]
fn show_operand(alloc: Global, out: &mut Vec<u8>, expr: &Expr) -> Result<(), AllocError>
    ensures { OnOk result (out.new.items ≡ out.old.items ++ operand (shown_expr expr.now)) }
{
    if !is_operation(expr) {
        return show_expr(alloc, out, expr);
    }
    put_bytes(out, b"(")?;
    show_expr(alloc, out, expr)?;
    put_bytes(out, b")")
}

/// Whether a node is a sum, a product or a negation.
fn is_operation(expr: &Expr) -> bool
    ensures { result ≡ (shown_expr expr.now).0 }
{
    match expr {
        Expr::Neg(_) | Expr::Sum(_) | Expr::Product(_, _) => true,
        Expr::Number(_) | Expr::Text(_) | Expr::Hex(_) | Expr::Date(_) => false,
        Expr::Null | Expr::Column(_) | Expr::Call(_, _) => false,
    }
}

/// A sum: its first part, and the others behind their signs.
#[cycle(show_expr)]
fn show_sum(alloc: Global, out: &mut Vec<u8>, parts: &Terms) -> Result<(), AllocError>
    ensures { OnOk result (out.new.items ≡ out.old.items ++ sum_shown (parts_of parts.now)) }
{
    let items = parts.items();
    for (i, (minus, part)) in items.iter().enumerate() {
        show_term(alloc, out, i, *minus, part)?;
    }
    Ok(())
}

/// The part of a sum at a place.
#[tactic(auto, unfolding(crate::specs::Show::term_at))]
#[cycle(show_expr)]
fn show_term(
    alloc: Global,
    out: &mut Vec<u8>,
    i: usize,
    minus: bool,
    part: &Expr,
) -> Result<(), AllocError>
    ensures { OnOk result (out.new.items ≡ out.old.items ++ term_at i (minus, shown_expr part.now)) }
{
    if i == 0 {
        return show_expr(alloc, out, part);
    }
    put_bytes(out, sign(minus))?;
    show_operand(alloc, out, part)
}

/// The later parts of a product, each behind its operator.
#[tactic(auto, unfolding(crate::specs::Show::factors_shown))]
#[cycle(show_expr)]
fn show_factors(alloc: Global, out: &mut Vec<u8>, parts: &Factors) -> Result<(), AllocError>
    ensures { OnOk result (out.new.items ≡ out.old.items ++ factors_shown (parts_of parts.now)) }
{
    let items = parts.items();
    for (op, part) in items {
        put_bytes(out, operator(*op))?;
        show_operand(alloc, out, part)?;
    }
    Ok(())
}

fn sign(minus: bool) -> &'static [u8]
    ensures { result.now ≡ sign_shown minus }
{
    if minus { b" - " } else { b" + " }
}

fn operator(op: Op) -> &'static [u8]
    ensures { result.now ≡ op_shown op }
{
    match op {
        Op::Times => b" * ",
        Op::Div => b" DIV ",
        Op::Mod => b" MOD ",
    }
}

/// The name of a function.
fn show_func(out: &mut Vec<u8>, func: Func) -> Result<(), AllocError>
    ensures { OnOk result (out.new.items ≡ out.old.items ++ func_shown func) }
{
    match func {
        Func::Abs => put_bytes(out, b"ABS"),
        Func::Year => put_bytes(out, b"YEAR"),
        Func::Month => put_bytes(out, b"MONTH"),
        Func::DayOfMonth => put_bytes(out, b"DAYOFMONTH"),
        Func::DayOfYear => put_bytes(out, b"DAYOFYEAR"),
        Func::DayOfWeek => put_bytes(out, b"DAYOFWEEK"),
        Func::Weekday => put_bytes(out, b"WEEKDAY"),
        Func::Quarter => put_bytes(out, b"QUARTER"),
        Func::ToDays => put_bytes(out, b"TO_DAYS"),
    }
}

fn fits_date(day: i32) -> bool
    ensures { result ≡ fits_date day }
{
    -354_285 <= day && day <= 2_932_896
}
