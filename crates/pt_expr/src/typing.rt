ghost use Rattle.std.specs.Prelude.{◌≡◌, unsigned_abs, Ok, Err};
ghost use Rattle.pt_expr.specs.Found.{after, call_finding, checked, column_finding, column_found, date_finding, day_part, finding, negation, number_finding, text_shape, absolute};
ghost use Rattle.pt_value.specs.Fits.{fits_date};
ghost use Rattle.pt_expr.specs.Columns.{column_named};
ghost use Rattle.pt_value.specs.Text.{day_of};

use crate::columns::column_named;
use crate::found::{Found, Shape};
use crate::running::{Running, narrow};
use crate::{CheckFault, ExprKind};
use pt_ast::{Columns, Expr, Func};
use pt_value::{Ident, Kind, day_of_text};

/// The kind of an expression over these columns, or its first fault from left to right. `date` says that a text which is the
/// whole expression stands for a date. It takes no memory.
pub fn check(columns: &Columns, expr: &Expr, date: bool) -> Result<ExprKind, CheckFault>
    ensures { result ≡ checked columns.now expr.now date }
{
    let found = finding(columns, expr)?;
    found.shape.kind(date)
}

/// What an expression is found to be.
pub(crate) fn finding(columns: &Columns, expr: &Expr) -> Result<Found, CheckFault>
    ensures { result ≡ finding columns.now expr.now }
{
    match expr {
        Expr::Number(n) => number(*n),
        Expr::Text(bytes) => Ok(Found::other(text_shape(bytes.items()))),
        Expr::Hex(_) => Ok(Found::other(Shape::Bytes)),
        Expr::Date(day) => date(*day),
        Expr::Null => Ok(Found::other(Shape::Null)),
        Expr::Column(name) => column(columns, name),
        Expr::Neg(part) => negation(finding(columns, part.get())?),
        Expr::Sum(parts) => {
            let mut sum = Running::of(Found::wide(0));
            for (_, part) in parts.items() {
                sum = sum.plus(finding(columns, part)?);
            }
            sum.end()
        }
        Expr::Product(first, parts) => {
            let mut product = Running::of(finding(columns, first.get())?);
            for (op, part) in parts.items() {
                product = product.times(*op, finding(columns, part)?);
            }
            product.end()
        }
        Expr::Call(func, part) => call(*func, finding(columns, part.get())?),
    }
}

fn number(n: i128) -> Result<Found, CheckFault>
    ensures { result ≡ number_finding n }
{
    match narrow(n.unsigned_abs()) {
        Some(bound) => Ok(Found {
            shape: Shape::Number,
            bound,
        }),
        None => Err(CheckFault::TooWide),
    }
}

fn text_shape(bytes: &[u8]) -> Shape
    ensures { result ≡ text_shape (day_of bytes.now) }
{
    match day_of_text(bytes) {
        Some(_) => Shape::DayText,
        None => Shape::OtherText,
    }
}

fn date(day: Option<i32>) -> Result<Found, CheckFault>
    ensures { result ≡ date_finding day }
{
    match day {
        Some(day) if fits_date(day) => Ok(Found::other(Shape::Day)),
        _ => Err(CheckFault::BadDate),
    }
}

/// Whether a day is one from 1000-01-01 to 9999-12-31.
fn fits_date(day: i32) -> bool
    ensures { result ≡ fits_date day }
{
    -354_285 <= day && day <= 2_932_896
}

fn column(columns: &Columns, name: &Ident) -> Result<Found, CheckFault>
    ensures { result ≡ column_finding name.now (column_named name.now columns.now) }
{
    match column_named(columns, name) {
        Some(column) => Ok(column_found(column.kind)),
        None => Err(CheckFault::NoColumn(*name)),
    }
}

fn column_found(kind: Kind) -> Found
    ensures { result ≡ column_found kind }
{
    match kind {
        Kind::Int => Found::wide(1 << 31),
        Kind::BigInt => Found::wide(1 << 63),
        Kind::Date => Found::other(Shape::Day),
        Kind::Binary(_) => Found::other(Shape::Bytes),
    }
}

fn negation(part: Found) -> Result<Found, CheckFault>
    ensures { result ≡ negation part }
{
    if !part.shape.may_be_wide() {
        return Err(CheckFault::Mismatch);
    }
    Ok(Found {
        shape: part.shape.signed(),
        bound: part.bound,
    })
}

fn call(func: Func, part: Found) -> Result<Found, CheckFault>
    ensures { result ≡ call_finding func part }
{
    match func {
        Func::Abs => absolute(part),
        Func::Year => day_part(9_999, part.shape),
        Func::Month => day_part(12, part.shape),
        Func::DayOfMonth => day_part(31, part.shape),
        Func::DayOfYear => day_part(366, part.shape),
        Func::DayOfWeek => day_part(7, part.shape),
        Func::Weekday => day_part(6, part.shape),
        Func::Quarter => day_part(4, part.shape),
        Func::ToDays => day_part(3_652_424, part.shape),
    }
}

fn absolute(part: Found) -> Result<Found, CheckFault>
    ensures { result ≡ absolute part }
{
    if part.shape.may_be_wide() {
        Ok(Found::wide(part.bound))
    } else {
        Err(CheckFault::Mismatch)
    }
}

/// A part of a day, which isn't above the bound.
fn day_part(bound: u128, shape: Shape) -> Result<Found, CheckFault>
    ensures { result ≡ day_part bound shape }
{
    match shape {
        Shape::OtherText => Err(CheckFault::BadDate),
        Shape::Null | Shape::Day | Shape::DayText => Ok(Found::wide(bound)),
        Shape::Number | Shape::Signed | Shape::Wide | Shape::Bytes => Err(CheckFault::Mismatch),
    }
}
