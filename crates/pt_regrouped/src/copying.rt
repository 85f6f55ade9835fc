ghost use Rattle.std.specs.Prelude.{◌≡◌, IfOk};

use pt_ast::{Bound, BoundTuple, Tuples};
use std::alloc::{AllocError, Global};

/// Equal bounds.
pub(crate) fn tuples_copied(alloc: Global, tuples: &Tuples) -> Result<Tuples, AllocError>
    ensures { IfOk result (λ copied. copied ≡ tuples.now) }
{
    let mut copied = Tuples::new(alloc);
    for tuple in tuples.items() {
        copied.push(tuple_copied(alloc, tuple)?)?;
    }
    Ok(copied)
}

fn tuple_copied(alloc: Global, tuple: &BoundTuple) -> Result<BoundTuple, AllocError>
    ensures { IfOk result (λ copied. copied ≡ tuple.now) }
{
    let mut copied = BoundTuple::new(alloc);
    for bound in tuple.items() {
        copied.push(bound_copied(alloc, bound)?)?;
    }
    Ok(copied)
}

fn bound_copied(alloc: Global, bound: &Bound) -> Result<Bound, AllocError>
    ensures { IfOk result (λ copied. copied ≡ bound.now) }
{
    match bound {
        Bound::Val(value) => Ok(Bound::Val(value.copy(alloc)?)),
        Bound::Max => Ok(Bound::Max),
    }
}
