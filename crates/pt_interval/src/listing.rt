ghost use Rattle.std.specs.Prelude.{◌≡◌, true, ◌++◌, Some, IfOk};
ghost use Rattle.pt_interval.specs.Counting.{AreUpTo, IsCount};
ghost use Rattle.pt_interval.specs.Spans.{IsRisingFrom, has};
ghost use Rattle.pt_interval.specs.Walk.{walk};

use crate::Line;
use crate::span::{Span, is_past, is_within};
use std::alloc::{AllocError, Global};

/// Whether a value is in one of the spans.
pub(crate) fn has<T: Line>(spans: &[Span<T>], value: &T) -> bool
    ensures { result ≡ has T.cmp spans.now value.now }
{
    for span in spans {
        if is_within(span, value) {
            return true;
        }
    }
    false
}

/// How many values are in the spans, at most `limit`.
pub(crate) fn count<T: Line>(spans: &[Span<T>], limit: u32) -> u32
    requires { IsRisingFrom T.cmp T.is_value (Some T.least) spans.now }
    ensures { IsCount T.cmp T.is_value (has T.cmp spans.now) limit result }
{
    let mut count = 0;
    for span in spans {
        count += T::gap(Some(&span.from), span.to.as_ref(), limit - count);
    }
    count
}

/// Up to `limit` of the values in the spans, in rising order.
pub(crate) fn values<T: Line>(
    alloc: Global,
    spans: &[Span<T>],
    limit: u32,
) -> Result<Vec<T>, AllocError>
    requires { IsRisingFrom T.cmp T.is_value (Some T.least) spans.now }
    ensures { IfOk result (λ values. AreUpTo T.cmp T.is_value (has T.cmp spans.now) limit values.items) }
{
    let mut values = Vec::new(alloc);
    for span in spans {
        let most = limit - values.as_slice().len() as u32;
        walk_into(alloc, &mut values, span, most)?;
    }
    Ok(values)
}

/// Adds the first values of a span, at most so many.
fn walk_into<T: Line>(
    alloc: Global,
    values: &mut Vec<T>,
    span: &Span<T>,
    most: u32,
) -> Result<(), AllocError>
    requires { T.is_value span.now.from ≡ true }
    ensures { IfOk result (λ _. values.new.items ≡ values.old.items ++ walk T.cmp T.next T.is_greatest most span.now.from span.now.to) }
{
    let mut at = span.from.copy(alloc)?;
    let mut left = most;
    while left > 0 {
        if is_past(&at, span.to.as_ref()) {
            return Ok(());
        }
        if at.is_greatest() {
            values.push(at)?;
            return Ok(());
        }
        let next = at.next(alloc)?;
        values.push(at)?;
        at = next;
        left -= 1;
    }
    Ok(())
}
