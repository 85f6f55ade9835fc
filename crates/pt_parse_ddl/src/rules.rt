//! Parts that are optional, in parentheses, or lists, of any production.

ghost use Rattle.std.specs.Prelude.{◌≡◌, ◌+◌, ◌≤◌, [], ◌∷◌, length, drop, Some, IfOk};
ghost use Rattle.pt_parse_expr.specs.Placing.{Reaches, Reads};
ghost use Rattle.pt_parse_expr.specs.Reader.{Reader, many};
ghost use Rattle.pt_parse_ddl.specs.Steps as spec;
ghost use Rattle.pt_parse_ddl.specs.Steps.{Passes, PassesTo};

use pt_parse_expr::{Mark, Reading, Symbol, closed, peek};
use pt_plain::List;
use std::alloc::{AllocError, Global};

/// A production.
pub trait Rule<T> {
    /// What is read of some symbols, and what comes after it.
    ghost reading: { Reader T };

    /// What is read from a place on, with the place after it, or `None`.
    fn read(alloc: Global, symbols: &[Symbol], at: usize) -> Reading<T>
        requires { at ≤ length symbols.now }
        ensures reads { Reads symbols.now result (reading (drop at symbols.now)) }
        ensures place { Reaches (at + 1) symbols.now result };
}

/// A production that has no part in a tree.
pub(crate) trait Skip {
    /// Whether it can be read, and what comes after it.
    ghost skipping: { Reader (Unit {0}) };

    /// The place behind it, or `None`.
    fn skip(symbols: &[Symbol], at: usize) -> Option<usize>
        requires { at ≤ length symbols.now }
        ensures passes { Passes symbols.now result (skipping (drop at symbols.now)) }
        ensures place { PassesTo (at + 1) symbols.now result };
}

/// A part that may be absent.
#[tactic(auto, unfolding(crate::specs::Steps::optional))]
pub fn optional<T: Drop, R: Rule<T>>(
    alloc: Global,
    symbols: &[Symbol],
    at: usize,
) -> Result<(Option<T>, usize), AllocError>
    requires { at ≤ length symbols.now }
    ensures reads { IfOk result (λ p. spec.optional R.reading (drop at symbols.now) ≡ (p.0, drop p.1 symbols.now)) }
    ensures place { IfOk result (λ p. (at ≤ p.1) × (p.1 ≤ length symbols.now)) }
{
    match R::read(alloc, symbols, at)? {
        None => Ok((None, at)),
        Some((x, next)) => Ok((Some(x), next)),
    }
}

/// A part in parentheses.
#[tactic(auto, unfolding(crate::specs::Steps::in_parens))]
pub(crate) fn in_parens<T: Drop, R: Rule<T>>(
    alloc: Global,
    symbols: &[Symbol],
    at: usize,
) -> Reading<T>
    requires { at ≤ length symbols.now }
    ensures reads { Reads symbols.now result (spec.in_parens R.reading (drop at symbols.now)) }
    ensures place { Reaches (at + 1) symbols.now result }
{
    let Some(Symbol::Fixed(Mark::Open)) = peek(symbols, at) else {
        return Ok(None);
    };
    match R::read(alloc, symbols, at + 1)? {
        None => Ok(None),
        Some((x, next)) => Ok(closed(symbols, x, next)),
    }
}

/// A comma, and the part behind it.
#[tactic(auto, unfolding(crate::specs::Steps::next_item))]
fn next_item<T: Drop, R: Rule<T>>(alloc: Global, symbols: &[Symbol], at: usize) -> Reading<T>
    requires { at ≤ length symbols.now }
    ensures reads { Reads symbols.now result (spec.next_item R.reading (drop at symbols.now)) }
    ensures place { Reaches (at + 1) symbols.now result }
{
    match peek(symbols, at) {
        Some(Symbol::Fixed(Mark::Comma)) => R::read(alloc, symbols, at + 1),
        _ => Ok(None),
    }
}

/// The first part of a list, and as many more as there are.
fn more_items<T: Drop, R: Rule<T>>(
    alloc: Global,
    symbols: &[Symbol],
    first: T,
    at: usize,
) -> Result<(List<T>, usize), AllocError>
    requires { at ≤ length symbols.now }
    ensures reads { IfOk result (λ p. spec.more_items R.reading first (drop at symbols.now) ≡ Some (p.0, drop p.1 symbols.now)) }
    ensures place { IfOk result (λ p. (at ≤ p.1) × (p.1 ≤ length symbols.now)) }
{
    let mut items = List::new(alloc);
    items.push(first)?;
    let mut next = at;
    while let Some((item, behind)) = next_item::<T, R>(alloc, symbols, next)? {
        items.push(item)?;
        next = behind;
    }
    Ok((items, next))
}

/// Parts with commas between them, one at least.
#[tactic(auto, unfolding(crate::specs::Steps::several))]
pub fn several<T: Drop, R: Rule<T>>(
    alloc: Global,
    symbols: &[Symbol],
    at: usize,
) -> Reading<List<T>>
    requires { at ≤ length symbols.now }
    ensures reads { Reads symbols.now result (spec.several R.reading (drop at symbols.now)) }
    ensures place { Reaches (at + 1) symbols.now result }
{
    let Some((first, next)) = R::read(alloc, symbols, at)? else {
        return Ok(None);
    };
    Ok(Some(more_items::<T, R>(alloc, symbols, first, next)?))
}

/// Such a list in parentheses.
#[tactic(auto, unfolding(crate::specs::Steps::in_parens))]
pub fn listed<T: Drop, R: Rule<T>>(alloc: Global, symbols: &[Symbol], at: usize) -> Reading<List<T>>
    requires { at ≤ length symbols.now }
    ensures reads { Reads symbols.now result (spec.tuple R.reading (drop at symbols.now)) }
    ensures place { Reaches (at + 1) symbols.now result }
{
    let Some(Symbol::Fixed(Mark::Open)) = peek(symbols, at) else {
        return Ok(None);
    };
    match several::<T, R>(alloc, symbols, at + 1)? {
        None => Ok(None),
        Some((items, next)) => Ok(closed(symbols, items, next)),
    }
}

/// The place behind as many of these as there are.
pub(crate) fn skipped<S: Skip>(symbols: &[Symbol], at: usize) -> usize
    requires { at ≤ length symbols.now }
    ensures skips { (many S.skipping (drop at symbols.now)).1 ≡ drop result symbols.now }
    ensures place { (at ≤ result) × (result ≤ length symbols.now) }
{
    let mut next = at;
    while let Some(behind) = S::skip(symbols, next) {
        next = behind;
    }
    next
}
