ghost use Rattle.std.specs.Prelude.{◌≡◌, true, false, IfOk};
ghost use Rattle.pt_reach.specs.Reaching.{IsReach};

use crate::Scale;
use pt_interval::{Line, Spans};
use std::alloc::{AllocError, Global};

/// A set of the values of a column: whether NULL is one, and which others are.
#[derive(Drop)]
pub struct Reach<T: Line> {
    pub null: bool,
    pub spans: Spans<T>,
}

/// Every value.
pub(crate) fn everywhere<T: Scale>(alloc: Global) -> Result<Reach<T>, AllocError>
    ensures { IfOk result (λ reach. IsReach T.cmp T.is_value T.value reach (λ v. true)) }
{
    let spans = Spans::all(alloc)?;
    Ok(Reach { null: true, spans })
}

/// No value.
pub(crate) fn nowhere<T: Scale>(alloc: Global) -> Reach<T>
    ensures { IsReach T.cmp T.is_value T.value result (λ v. false) }
{
    Reach {
        null: false,
        spans: Spans::none(alloc),
    }
}
