ghost use Rattle.std.specs.Prelude.{◌≡◌, true, None, Some, IfOk};
ghost use Rattle.std.specs.Option.{option_copied};
ghost use Rattle.pt_interval.specs.Line.{at_most, is_past};
ghost use Rattle.pt_interval.specs.Spans.{is_within};
ghost use Rattle.pt_interval.specs.Steps.{and_span, ends_by, later};

use crate::Line;
use std::alloc::{AllocError, Global};

/// The values from one on, and below another, or all that are above.
#[derive(Drop)]
pub struct Span<T> {
    /// The first value.
    pub from: T,
    /// The first value behind it, if there is one.
    pub to: Option<T>,
}

/// Whether a value is in the span.
pub(crate) fn is_within<T: Line>(span: &Span<T>, value: &T) -> bool
    ensures { result ≡ is_within T.cmp span.now value.now }
{
    at_most(&span.from, value) && !is_past(value, span.to.as_ref())
}

/// Whether a value is at or above this end.
pub(crate) fn is_past<T: Line>(value: &T, end: Option<&T>) -> bool
    ensures { result ≡ is_past T.cmp value.now (option_copied end.entry) }
{
    match end {
        Some(end) => at_most(end, value),
        None => false,
    }
}

/// Whether the first span ends at or before the end of the second.
pub(crate) fn ends_by<T: Line>(first: &Span<T>, second: &Span<T>) -> bool
    ensures { result ≡ ends_by T.cmp first.now.to second.now.to }
{
    match (&first.to, &second.to) {
        (_, None) => true,
        (None, Some(_)) => false,
        (Some(a), Some(b)) => at_most(a, b),
    }
}

fn at_most<T: Line>(a: &T, b: &T) -> bool
    ensures { result ≡ at_most T.cmp a.now b.now }
{
    a.cmp(b).is_le()
}

/// Adds what two spans share, if they share anything; the first of them ends first.
pub(crate) fn push_shared<T: Line>(
    alloc: Global,
    spans: &mut Vec<Span<T>>,
    first: &Span<T>,
    second: &Span<T>,
) -> Result<(), AllocError>
    ensures { IfOk result (λ _. spans.new.items ≡ and_span T.cmp spans.old.items (record { from = later T.cmp first.now.from second.now.from; to = first.now.to })) }
{
    let from = later(&first.from, &second.from);
    push_between(alloc, spans, from, first.to.as_ref())?;
    Ok(())
}

/// Adds the values from one on and below an end, if there are any.
pub(crate) fn push_between<T: Line>(
    alloc: Global,
    spans: &mut Vec<Span<T>>,
    from: &T,
    to: Option<&T>,
) -> Result<(), AllocError>
    ensures { IfOk result (λ _. spans.new.items ≡ and_span T.cmp spans.old.items (record { from = from.now; to = option_copied to.entry })) }
{
    if is_past(from, to) {
        return Ok(());
    }
    let span = copied(alloc, from, to)?;
    spans.push(span)?;
    Ok(())
}

fn copied<T: Line>(alloc: Global, from: &T, to: Option<&T>) -> Result<Span<T>, AllocError>
    ensures { IfOk result (λ span. span ≡ record { from = from.now; to = option_copied to.entry }) }
{
    let end = copied_end(alloc, to)?;
    let from = from.copy(alloc)?;
    Ok(Span { from, to: end })
}

fn copied_end<T: Line>(alloc: Global, end: Option<&T>) -> Result<Option<T>, AllocError>
    ensures { IfOk result (λ copied. copied ≡ option_copied end.entry) }
{
    match end {
        Some(end) => Ok(Some(end.copy(alloc)?)),
        None => Ok(None),
    }
}

/// The later of two beginnings.
fn later<'a, T: Line>(a: &'a T, b: &'a T) -> &'a T
    ensures { result.now ≡ later T.cmp a.now b.now }
{
    if at_most(a, b) { b } else { a }
}
