//! Whether some tuple, a value of each set, lies between two bounds.
ghost use Rattle.std.specs.Prelude.{◌≡◌, ◌&&◌, ◌<◌, [], drop, length, IfOk, None, Some};
ghost use Rattle.std.specs.Option.{option_copied};
ghost use Rattle.pt_reach.specs.Domains.{passes};
ghost use Rattle.pt_followed.specs.Steps.{HasBetween, HasCase, IsDecided, behind, is_below, is_from};

use crate::sides::{before, past, tied};
use pt_ast::Bound;
use pt_reach::{Domain, Side};
use std::alloc::{AllocError, Global};

/// Whether some tuple of these sets isn't below one bound, and is below another, where these are given. The first item decides, or is
/// equal to that of a bound, and then the others do.
#[cycle(tuples)]
pub(crate) fn has_between(
    alloc: Global,
    sets: &[Domain],
    low: Option<&[Bound]>,
    high: Option<&[Bound]>,
) -> Result<bool, AllocError>
    ensures { IfOk result (λ some. IsDecided some (HasBetween sets.now (option_copied low.entry) (option_copied high.entry))) }
{
    if sets.is_empty() {
        return Ok(is_free(low, high));
    }
    if has_case(alloc, sets, past(low), before(high), None, None)? {
        return Ok(true);
    }
    if has_case(alloc, sets, tied(low), before(high), behind(low), None)? {
        return Ok(true);
    }
    if has_case(alloc, sets, past(low), tied(high), None, behind(high))? {
        return Ok(true);
    }
    let some = has_case(
        alloc,
        sets,
        tied(low),
        tied(high),
        behind(low),
        behind(high),
    )?;
    Ok(some)
}

/// Whether some tuple has a first item that passes both tests, and its others lie between two bounds.
#[cycle(tuples)]
fn has_case(
    alloc: Global,
    sets: &[Domain],
    first: Side,
    second: Side,
    low: Option<&[Bound]>,
    high: Option<&[Bound]>,
) -> Result<bool, AllocError>
    requires { 0 < length sets.now }
    ensures { IfOk result (λ some. IsDecided some (HasCase sets.now (passes (Some first.entry)) (passes (Some second.entry)) (option_copied low.entry) (option_copied high.entry))) }
{
    if !sets[0].has_some(alloc, Some(first), Some(second))? {
        return Ok(false);
    }
    let some = has_between(alloc, &sets[1..], low, high)?;
    Ok(some)
}

/// Whether the empty tuple lies between two bounds.
fn is_free(low: Option<&[Bound]>, high: Option<&[Bound]>) -> bool
    ensures { result ≡ (is_from (option_copied low.entry) [] && is_below (option_copied high.entry) []) }
{
    is_free_from(low) && is_free_below(high)
}

fn is_free_from(low: Option<&[Bound]>) -> bool
    ensures { result ≡ is_from (option_copied low.entry) [] }
{
    let Some(bounds) = low else {
        return true;
    };
    match bounds {
        [_, ..] => false,
        [] => true,
    }
}

fn is_free_below(high: Option<&[Bound]>) -> bool
    ensures { result ≡ is_below (option_copied high.entry) [] }
{
    let Some(bounds) = high else {
        return true;
    };
    match bounds {
        [_, ..] => true,
        [] => false,
    }
}

/// The bound on all items but the first.
fn behind(bounds: Option<&[Bound]>) -> Option<&[Bound]>
    ensures { option_copied result ≡ behind (option_copied bounds.entry) }
{
    match bounds {
        Some(bounds) => Some(rest_of(bounds)),
        None => None,
    }
}

fn rest_of(bounds: &[Bound]) -> &[Bound]
    ensures { result.now ≡ drop 1 bounds.now }
{
    if bounds.is_empty() {
        return bounds;
    }
    &bounds[1..]
}
