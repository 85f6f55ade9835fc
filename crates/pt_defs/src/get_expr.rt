//! Reading the expressions of a definition.
ghost use Rattle.std.specs.Prelude.{◌≡◌};
ghost use Rattle.pt_value.specs.Fits.{fits_date};
ghost use Rattle.pt_defs.specs.Given.{Gives, with_front};
ghost use Rattle.pt_defs.specs.Reading.{call_at, date_at, expr_at, factors_at, first_named, flag_at, func_of, many, named_at, node_behind, op_at, op_of, pair_at, plus_at, product_at, terms_at, whole_at};

use crate::fault::Stop;
use crate::get_item::{Front, byte_at, count_at, day_at, flag_at, string_at, u32_at, u64_at};
use crate::named::NamedColumns;
use pt_ast::{Columns, Expr, Factors, Func, Op, Terms};
use pt_plain::Held;
use pt_value::Ident;
use std::alloc::Global;

/// A number that isn't negative, in sixteen bytes.
#[tactic(auto, unfolding(crate::specs::Reading::whole_at))]
fn whole_at(bytes: &[u8]) -> Front<'_, i128>
    ensures { Gives (λ x. (x.0, x.1.now)) result (whole_at bytes.now) }
{
    if bytes.len() < 16 {
        return Err(Stop::Left(bytes.len()));
    }
    let (low, rest) = u64_at(bytes)?;
    let (high, rest) = u64_at(rest)?;
    if high >= 9_223_372_036_854_775_808 {
        return Err(Stop::Left(bytes.len()));
    }
    Ok((
        i128::from(high) * 18_446_744_073_709_551_616 + i128::from(low),
        rest,
    ))
}

/// A day that fits DATE.
#[tactic(auto, unfolding(crate::specs::Reading::date_at))]
fn date_at(bytes: &[u8]) -> Front<'_, Option<i32>>
    ensures { Gives (λ x. (x.0, x.1.now)) result (date_at bytes.now) }
{
    let (day, rest) = day_at(bytes)?;
    if !fits_date(day) {
        return Err(Stop::Left(bytes.len()));
    }
    Ok((Some(day), rest))
}

pub(crate) fn fits_date(day: i32) -> bool
    ensures { result ≡ fits_date day }
{
    -354_285 <= day && day <= 2_932_896
}

/// The name of the column at a position, the first of this name.
#[tactic(auto, unfolding(crate::specs::Reading::named_at))]
fn named_at<'a>(columns: &NamedColumns<'_>, bytes: &'a [u8]) -> Front<'a, Ident>
    ensures { Gives (λ x. (x.0, x.1.now)) result (named_at columns.now bytes.now) }
{
    let (position, rest) = u32_at(bytes)?;
    match first_named(columns, position) {
        Some(name) => Ok((name, rest)),
        None => Err(Stop::Left(bytes.len())),
    }
}

#[tactic(auto, unfolding(crate::specs::Reading::first_named))]
fn first_named(columns: &NamedColumns<'_>, position: u32) -> Option<Ident>
    ensures { result ≡ first_named columns.now position }
{
    let column = columns.items().get(position as usize)?;
    if columns.place_of(&column.name) != position as usize {
        return None;
    }
    Some(column.name)
}

/// An operator of a product.
#[tactic(auto, unfolding(crate::specs::Reading::op_at))]
fn op_at(bytes: &[u8]) -> Front<'_, Op>
    ensures { Gives (λ x. (x.0, x.1.now)) result (op_at bytes.now) }
{
    let (code, rest) = byte_at(bytes)?;
    match op_of(code) {
        Some(op) => Ok((op, rest)),
        None => Err(Stop::Left(bytes.len())),
    }
}

fn op_of(code: u8) -> Option<Op>
    ensures { result ≡ op_of code }
{
    match code {
        1 => Some(Op::Times),
        2 => Some(Op::Div),
        3 => Some(Op::Mod),
        _ => None,
    }
}

fn func_of(code: u8) -> Option<Func>
    ensures { result ≡ func_of code }
{
    match code {
        8 => Some(Func::Abs),
        9 => Some(Func::Year),
        10 => Some(Func::Month),
        11 => Some(Func::DayOfMonth),
        12 => Some(Func::DayOfYear),
        13 => Some(Func::DayOfWeek),
        14 => Some(Func::Weekday),
        15 => Some(Func::Quarter),
        16 => Some(Func::ToDays),
        _ => None,
    }
}

/// The sign of the first part of a sum: plus.
#[tactic(auto, unfolding(crate::specs::Reading::plus_at))]
fn plus_at(bytes: &[u8]) -> Front<'_, bool>
    ensures { Gives (λ x. (x.0, x.1.now)) result (plus_at bytes.now) }
{
    let (flag, rest) = byte_at(bytes)?;
    if flag != 0 {
        return Err(Stop::Left(bytes.len()));
    }
    Ok((false, rest))
}

/// An expression over these columns that nests so deep at most. Each node takes about as long however many columns there are.
pub(crate) fn expr_over<'a>(
    alloc: Global,
    columns: &Columns,
    room: u32,
    bytes: &'a [u8],
) -> Front<'a, Expr>
    ensures { Gives (λ x. (x.0, x.1.now)) result (expr_at columns.now room bytes.now) }
{
    let named = NamedColumns::of(alloc, columns.items())?;
    expr_at(alloc, &named, room, bytes)
}

/// An expression that nests so deep at most.
#[tactic(auto, unfolding(crate::specs::Reading::expr_at))]
#[cycle(expr_at)]
fn expr_at<'a>(
    alloc: Global,
    columns: &NamedColumns<'_>,
    room: u32,
    bytes: &'a [u8],
) -> Front<'a, Expr>
    ensures { Gives (λ x. (x.0, x.1.now)) result (expr_at columns.now room bytes.now) }
{
    if room == 0 {
        return Err(Stop::Left(bytes.len()));
    }
    let (node, rest) = byte_at(bytes)?;
    node_behind(alloc, columns, room - 1, bytes, node, rest)
}

/// A node, behind its number; those below it nest so deep at most.
#[tactic(auto, unfolding(crate::specs::Reading::node_behind))]
#[cycle(expr_at)]
fn node_behind<'a>(
    alloc: Global,
    columns: &NamedColumns<'_>,
    room: u32,
    start: &[u8],
    node: u8,
    rest: &'a [u8],
) -> Front<'a, Expr>
    ensures { Gives (λ x. (x.0, x.1.now)) result (node_behind columns.now (expr_at columns.now room) start.now node rest.now) }
{
    match node {
        1 => {
            let (n, rest) = whole_at(rest)?;
            Ok((Expr::Number(n), rest))
        }
        2 => {
            let (day, rest) = date_at(rest)?;
            Ok((Expr::Date(day), rest))
        }
        3 => Ok((Expr::Null, rest)),
        4 => {
            let (name, rest) = front!(named_at(columns, rest));
            Ok((Expr::Column(name), rest))
        }
        5 => {
            let (part, rest) = front!(expr_at(alloc, columns, room, rest));
            Ok((Expr::Neg(Held::new(alloc, part)?), rest))
        }
        6 => {
            let (parts, rest) = front!(terms_at(alloc, columns, room, rest));
            Ok((Expr::Sum(parts), rest))
        }
        7 => product_at(alloc, columns, room, rest),
        17 => {
            let (bytes, rest) = string_at(alloc, rest)?;
            Ok((Expr::Text(bytes), rest))
        }
        18 => {
            let (bytes, rest) = string_at(alloc, rest)?;
            Ok((Expr::Hex(bytes), rest))
        }
        _ => call_at(alloc, columns, room, start, func_of(node), rest),
    }
}

/// A function of an expression.
#[tactic(auto, unfolding(crate::specs::Reading::call_at))]
#[cycle(expr_at)]
fn call_at<'a>(
    alloc: Global,
    columns: &NamedColumns<'_>,
    room: u32,
    start: &[u8],
    func: Option<Func>,
    rest: &'a [u8],
) -> Front<'a, Expr>
    ensures { Gives (λ x. (x.0, x.1.now)) result (call_at (expr_at columns.now room) start.now func rest.now) }
{
    match func {
        None => Err(Stop::Left(start.len())),
        Some(func) => {
            let (part, rest) = front!(expr_at(alloc, columns, room, rest));
            Ok((Expr::Call(func, Held::new(alloc, part)?), rest))
        }
    }
}

/// A product.
#[tactic(auto, unfolding(crate::specs::Reading::product_at))]
#[cycle(expr_at)]
fn product_at<'a>(
    alloc: Global,
    columns: &NamedColumns<'_>,
    room: u32,
    bytes: &'a [u8],
) -> Front<'a, Expr>
    ensures { Gives (λ x. (x.0, x.1.now)) result (product_at (expr_at columns.now room) bytes.now) }
{
    let (first, rest) = front!(expr_at(alloc, columns, room, bytes));
    let first = Held::new(alloc, first)?;
    let (parts, rest) = front!(factors_at(alloc, columns, room, rest));
    Ok((Expr::Product(first, parts), rest))
}

/// The later parts of a product.
#[tactic(auto, unfolding(crate::specs::Reading::factors_at, crate::specs::Reading::list_at))]
#[cycle(expr_at)]
fn factors_at<'a>(
    alloc: Global,
    columns: &NamedColumns<'_>,
    room: u32,
    bytes: &'a [u8],
) -> Front<'a, Factors>
    ensures { Gives (λ x. (x.0, x.1.now)) result (factors_at (expr_at columns.now room) bytes.now) }
{
    let (count, rest) = count_at(bytes, 1, 4_294_967_296)?;
    so_many_factors(alloc, columns, room, count, rest)
}

#[cycle(expr_at)]
fn so_many_factors<'a>(
    alloc: Global,
    columns: &NamedColumns<'_>,
    room: u32,
    count: u32,
    bytes: &'a [u8],
) -> Front<'a, Factors>
    ensures { Gives (λ x. (x.0, x.1.now)) result (many (pair_at op_at (expr_at columns.now room)) count bytes.now) }
{
    let mut items = Factors::new(alloc);
    let mut rest = bytes;
    for _ in 0..count {
        let (item, after) = front!(factor_at(alloc, columns, room, rest));
        items.push(item)?;
        rest = after;
    }
    Ok((items, rest))
}

#[tactic(auto, unfolding(crate::specs::Reading::pair_at))]
#[cycle(expr_at)]
fn factor_at<'a>(
    alloc: Global,
    columns: &NamedColumns<'_>,
    room: u32,
    bytes: &'a [u8],
) -> Front<'a, (Op, Expr)>
    ensures { Gives (λ x. (x.0, x.1.now)) result (pair_at op_at (expr_at columns.now room) bytes.now) }
{
    let (op, rest) = op_at(bytes)?;
    let (part, rest) = front!(expr_at(alloc, columns, room, rest));
    Ok(((op, part), rest))
}

/// The parts of a sum.
#[tactic(auto, unfolding(crate::specs::Reading::terms_at, crate::specs::Reading::pair_at))]
#[cycle(expr_at)]
fn terms_at<'a>(
    alloc: Global,
    columns: &NamedColumns<'_>,
    room: u32,
    bytes: &'a [u8],
) -> Front<'a, Terms>
    ensures { Gives (λ x. (x.0, x.1.now)) result (terms_at (expr_at columns.now room) bytes.now) }
{
    let (count, rest) = count_at(bytes, 2, 4_294_967_296)?;
    let (plus, rest) = plus_at(rest)?;
    let (first, rest) = front!(expr_at(alloc, columns, room, rest));
    let mut items = Terms::new(alloc);
    items.push((plus, first))?;
    more_terms(alloc, columns, room, items, count.saturating_sub(1), rest)
}

/// So many parts more.
#[cycle(expr_at)]
fn more_terms<'a>(
    alloc: Global,
    columns: &NamedColumns<'_>,
    room: u32,
    first: Terms,
    count: u32,
    bytes: &'a [u8],
) -> Front<'a, Terms>
    ensures { Gives (λ x. (x.0, x.1.now)) result (with_front first (many (pair_at flag_at (expr_at columns.now room)) count bytes.now)) }
{
    let mut items = first;
    let mut rest = bytes;
    for _ in 0..count {
        let (item, after) = front!(term_at(alloc, columns, room, rest));
        items.push(item)?;
        rest = after;
    }
    Ok((items, rest))
}

#[tactic(auto, unfolding(crate::specs::Reading::pair_at))]
#[cycle(expr_at)]
fn term_at<'a>(
    alloc: Global,
    columns: &NamedColumns<'_>,
    room: u32,
    bytes: &'a [u8],
) -> Front<'a, (bool, Expr)>
    ensures { Gives (λ x. (x.0, x.1.now)) result (pair_at flag_at (expr_at columns.now room) bytes.now) }
{
    let (minus, rest) = flag_at(bytes)?;
    let (part, rest) = front!(expr_at(alloc, columns, room, rest));
    Ok(((minus, part), rest))
}
