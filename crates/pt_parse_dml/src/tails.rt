ghost use Rattle.std.specs.Prelude.{◌≡◌, ◌+◌, ◌≤◌, length, drop, Some, IfOk};
ghost use Rattle.pt_parse_expr.specs.Placing.{Reaches, Reads, ReachesSome, ReadsSome};
ghost use Rattle.pt_parse_ddl.specs.Steps as steps;
ghost use Rattle.pt_parse_dml.specs.TailReader as spec;

use crate::targets::{Target, read_target};
use pt_ast::{Cond, Orders, Tail};
use pt_parse_ddl::{Rule, name, number, optional, several};
use pt_parse_expr::{Mark, Reading, Reserved, Symbol, beside, peek, read_cond};
use pt_plain::List;
use pt_value::Ident;
use std::alloc::{AllocError, Global};

/// The rows that a statement takes from a table.
#[derive(Drop)]
pub(crate) struct Source {
    pub(crate) target: Target,
    pub(crate) tail: Tail,
}

/// A condition.
#[tactic(auto, unfolding(crate::specs::TailReader::whole_cond))]
fn condition(alloc: Global, symbols: &[Symbol], at: usize) -> Reading<Cond>
    requires { at ≤ length symbols.now }
    ensures reads { Reads symbols.now result (spec.whole_cond (drop at symbols.now)) }
    ensures place { Reaches (at + 1) symbols.now result }
{
    read_cond(alloc, symbols, at)
}

/// WHERE, and the condition behind it.
struct WhereRule;

impl Rule<Cond> for WhereRule {
    ghost reading = { spec.condition spec.whole_cond };

    #[tactic(auto, unfolding(crate::specs::TailReader::condition))]
    fn read(alloc: Global, symbols: &[Symbol], at: usize) -> Reading<Cond> {
        match peek(symbols, at) {
            Some(Symbol::Fixed(Mark::Other(Reserved::Where))) => condition(alloc, symbols, at + 1),
            _ => Ok(None),
        }
    }
}

/// Whether DESC stands there, and the place behind ASC or DESC.
#[tactic(auto, unfolding(crate::specs::TailReader::direction))]
fn direction(symbols: &[Symbol], at: usize) -> (bool, usize)
    requires { at ≤ length symbols.now }
    ensures reads { spec.direction (drop at symbols.now) ≡ (result.0, drop result.1 symbols.now) }
    ensures place { (at ≤ result.1) × (result.1 ≤ length symbols.now) }
{
    match peek(symbols, at) {
        Some(Symbol::Fixed(Mark::Other(Reserved::Asc))) => (false, at + 1),
        Some(Symbol::Fixed(Mark::Other(Reserved::Desc))) => (true, at + 1),
        _ => (false, at),
    }
}

/// A column to order by.
#[tactic(auto, unfolding(crate::specs::TailReader::column_order))]
fn column_order(symbols: &[Symbol], at: usize) -> Option<((Ident, bool), usize)>
    requires { at ≤ length symbols.now }
    ensures reads { ReadsSome symbols.now result (spec.column_order (drop at symbols.now)) }
    ensures place { ReachesSome (at + 1) symbols.now result }
{
    let (column, next) = name(symbols, at)?;
    let (falls, next) = direction(symbols, next);
    Some(((column, falls), next))
}

/// A column to order by.
struct OrderRule;

impl Rule<(Ident, bool)> for OrderRule {
    ghost reading = { spec.column_order };

    fn read(_alloc: Global, symbols: &[Symbol], at: usize) -> Reading<(Ident, bool)> {
        Ok(column_order(symbols, at))
    }
}

/// What stands behind ORDER.
#[tactic(auto, unfolding(crate::specs::TailReader::orders_by))]
fn orders_by(alloc: Global, symbols: &[Symbol], at: usize) -> Reading<Orders>
    requires { at ≤ length symbols.now }
    ensures reads { Reads symbols.now result (spec.orders_by (drop at symbols.now)) }
    ensures place { Reaches (at + 1) symbols.now result }
{
    match peek(symbols, at) {
        Some(Symbol::Fixed(Mark::Other(Reserved::By))) => {
            several::<(Ident, bool), OrderRule>(alloc, symbols, at + 1)
        }
        _ => Ok(None),
    }
}

/// ORDER BY, and the columns behind it.
struct OrdersRule;

impl Rule<Orders> for OrdersRule {
    ghost reading = { spec.orders };

    #[tactic(auto, unfolding(crate::specs::TailReader::orders))]
    fn read(alloc: Global, symbols: &[Symbol], at: usize) -> Reading<Orders> {
        match peek(symbols, at) {
            Some(Symbol::Fixed(Mark::Other(Reserved::Order))) => orders_by(alloc, symbols, at + 1),
            _ => Ok(None),
        }
    }
}

/// The columns to order by; none where ORDER BY isn't there.
fn orders(alloc: Global, symbols: &[Symbol], at: usize) -> Result<(Orders, usize), AllocError>
    requires { at ≤ length symbols.now }
    ensures reads { IfOk result (λ p. spec.all_orders (steps.optional spec.orders (drop at symbols.now)) ≡ (p.0, drop p.1 symbols.now)) }
    ensures place { IfOk result (λ p. (at ≤ p.1) × (p.1 ≤ length symbols.now)) }
{
    let (columns, next) = optional::<Orders, OrdersRule>(alloc, symbols, at)?;
    match columns {
        None => Ok((List::new(alloc), next)),
        Some(columns) => Ok((columns, next)),
    }
}

/// LIMIT, and the number behind it.
struct LimitRule;

impl Rule<i128> for LimitRule {
    ghost reading = { spec.limited };

    #[tactic(auto, unfolding(crate::specs::TailReader::limited))]
    fn read(_alloc: Global, symbols: &[Symbol], at: usize) -> Reading<i128> {
        match peek(symbols, at) {
            Some(Symbol::Fixed(Mark::Other(Reserved::Limit))) => Ok(number(symbols, at + 1)),
            _ => Ok(None),
        }
    }
}

/// Which rows, in which order, and how many at most.
#[tactic(auto, unfolding(crate::specs::TailReader::tail_of))]
pub(crate) fn tail(
    alloc: Global,
    symbols: &[Symbol],
    at: usize,
) -> Result<(Tail, usize), AllocError>
    requires { at ≤ length symbols.now }
    ensures reads { IfOk result (λ p. spec.tail_of spec.whole_cond (drop at symbols.now) ≡ (p.0, drop p.1 symbols.now)) }
    ensures place { IfOk result (λ p. (at ≤ p.1) × (p.1 ≤ length symbols.now)) }
{
    let (cond, next) = optional::<Cond, WhereRule>(alloc, symbols, at)?;
    let (cond, (order, next)) = beside(cond, orders(alloc, symbols, next))?;
    let ((cond, order), (limit, next)) = beside(
        (cond, order),
        optional::<i128, LimitRule>(alloc, symbols, next),
    )?;
    Ok((Tail { cond, order, limit }, next))
}

/// A table, and which rows of it.
#[tactic(auto, unfolding(crate::specs::TailReader::taken_from))]
fn taken_from(alloc: Global, symbols: &[Symbol], at: usize) -> Reading<Source>
    requires { at ≤ length symbols.now }
    ensures reads { Reads symbols.now result (spec.taken_from spec.whole_cond (drop at symbols.now)) }
    ensures place { Reaches (at + 1) symbols.now result }
{
    let Some((target, next)) = read_target(alloc, symbols, at)? else {
        return Ok(None);
    };
    let (target, (tail, next)) = beside(target, tail(alloc, symbols, next))?;
    Ok(Some((Source { target, tail }, next)))
}

/// FROM, a table, and which rows of it.
#[tactic(auto, unfolding(crate::specs::TailReader::source))]
pub(crate) fn read_source(alloc: Global, symbols: &[Symbol], at: usize) -> Reading<Source>
    requires { at ≤ length symbols.now }
    ensures reads { Reads symbols.now result (spec.source spec.whole_cond (drop at symbols.now)) }
    ensures place { Reaches (at + 1) symbols.now result }
{
    match peek(symbols, at) {
        Some(Symbol::Fixed(Mark::Other(Reserved::From))) => taken_from(alloc, symbols, at + 1),
        _ => Ok(None),
    }
}
