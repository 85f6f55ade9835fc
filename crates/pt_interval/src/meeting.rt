ghost use Rattle.std.specs.Prelude.{◌≡◌, ◌&&◌, ◌<◌, ◌≤◌, true, drop, length, take, Some, IfOk};
ghost use Rattle.pt_interval.specs.Spans.{IsRisingFrom, has};
ghost use Rattle.pt_interval.specs.Steps.{are_done};

use crate::Line;
use crate::span::{Span, ends_by, is_past, push_shared};
use std::alloc::{AllocError, Global};

/// What two lists of spans share. It begins with the first of `a` that isn't wholly before `b`, which it finds by halves, goes over both
/// at once, and on behind the span that ends first.
pub(crate) fn shared<T: Line>(
    alloc: Global,
    a: &[Span<T>],
    b: &[Span<T>],
) -> Result<Vec<Span<T>>, AllocError>
    requires a_rises { IsRisingFrom T.cmp T.is_value (Some T.least) a.now }
    requires b_rises { IsRisingFrom T.cmp T.is_value (Some T.least) b.now }
    ensures sets { IfOk result (λ spans. (v : T) → has T.cmp spans.items v ≡ (has T.cmp a.now v && has T.cmp b.now v)) }
    ensures rises { IfOk result (λ spans. IsRisingFrom T.cmp T.is_value (Some T.least) spans.items) }
{
    let mut spans = Vec::new(alloc);
    let mut i = first_met(a, b);
    let mut j = 0;
    while i < a.len() && j < b.len() {
        let p = &a[i];
        let q = &b[j];
        if ends_by(p, q) {
            push_shared(alloc, &mut spans, p, q)?;
            i += 1;
        } else {
            push_shared(alloc, &mut spans, q, p)?;
            j += 1;
        }
    }
    Ok(spans)
}

/// How many spans of `a` are passed over, since they end before `b` begins.
fn first_met<T: Line>(a: &[Span<T>], b: &[Span<T>]) -> usize
    requires a_rises { IsRisingFrom T.cmp T.is_value (Some T.least) a.now }
    requires b_rises { IsRisingFrom T.cmp T.is_value (Some T.least) b.now }
    ensures sets { (v : T) → (has T.cmp (drop result a.now) v && has T.cmp b.now v) ≡ (has T.cmp a.now v && has T.cmp b.now v) }
    ensures rises { IsRisingFrom T.cmp T.is_value (Some T.least) (drop result a.now) }
{
    if b.is_empty() {
        return 0;
    }
    let first = &b[0];
    first_past(a, &first.from, 0, a.len())
}

/// A place before which all spans end at or before a value, and it lies between two places.
fn first_past<T: Line>(spans: &[Span<T>], value: &T, low: usize, high: usize) -> usize
    requires rises { IsRisingFrom T.cmp T.is_value (Some T.least) spans.now }
    requires high { high ≤ length spans.now }
    requires done { are_done T.cmp value.now (take low spans.now) ≡ true }
    ensures { are_done T.cmp value.now (take result spans.now) ≡ true }
{
    if low >= high {
        return low;
    }
    let middle = middle_of(low, high);
    let span = &spans[middle];
    if is_past(value, span.to.as_ref()) {
        return first_past(spans, value, middle + 1, high);
    }
    first_past(spans, value, low, middle)
}

fn middle_of(low: usize, high: usize) -> usize
    requires { low < high }
    ensures from { low ≤ result }
    ensures before { result < high }
{
    low + (high - low) / 2
}
