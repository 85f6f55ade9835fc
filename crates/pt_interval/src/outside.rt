ghost use Rattle.std.specs.Prelude.{◌≡◌, true, not, Some, IfOk};
ghost use Rattle.pt_interval.specs.Spans.{IsRisingFrom, IsSet, has};

use crate::Line;
use crate::span::{Span, push_between};
use std::alloc::{AllocError, Global};

/// The gaps between spans, with what is before the first and behind the last.
pub(crate) fn gaps<T: Line>(alloc: Global, spans: &[Span<T>]) -> Result<Vec<Span<T>>, AllocError>
    requires { IsRisingFrom T.cmp T.is_value (Some T.least) spans.now }
    ensures sets { IfOk result (λ gaps. IsSet T.cmp T.is_value gaps.items (λ v. not (has T.cmp spans.now v))) }
    ensures rises { IfOk result (λ gaps. IsRisingFrom T.cmp T.is_value (Some T.least) gaps.items) }
{
    let mut gaps = Vec::new(alloc);
    let mut low = T::least(alloc)?;
    for span in spans {
        push_between(alloc, &mut gaps, &low, Some(&span.from))?;
        match &span.to {
            Some(to) => low = to.copy(alloc)?,
            None => return Ok(gaps),
        }
    }
    gaps.push(Span {
        from: low,
        to: None,
    })?;
    Ok(gaps)
}
