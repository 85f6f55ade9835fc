//! The values of a set, where they are few.
ghost use Rattle.std.specs.Prelude.{◌≡◌, ◌+◌, ◌-◌, ◌<◌, ◌^◌, ◌++◌, true, map, IfOk, if◌then◌else◌};
ghost use Rattle.std.specs.Option.{option_map};
ghost use Rattle.pt_interval.specs.Counting.{AreAll};
ghost use Rattle.pt_interval.specs.Spans.{has};
ghost use Rattle.pt_reach.specs.Reaching.{AreFew, nulls};

use crate::Scale;
use crate::reach::Reach;
use pt_value::Value;
use std::alloc::{AllocError, Global};

/// The values of a set in rising order, NULL first; `None` exactly where they are more than `limit`.
pub(crate) fn values<T: Scale>(
    alloc: Global,
    reach: &Reach<T>,
    limit: u32,
) -> Result<Option<Vec<Value>>, AllocError>
    requires narrow { (v : T) → T.is_value v ≡ true → has T.cmp reach.now.spans v ≡ true → T.is_narrow v ≡ true }
    requires some { 0 < limit }
    requires few { limit + 1 < 2 ^ 32 }
    ensures { IfOk result (λ found. AreFew T.cmp T.is_value T.value reach.now limit (option_map (λ values. values.items) found)) }
{
    let own = left_of(reach.null, limit);
    let Some(found) = reach.spans.values(alloc, own)? else {
        return Ok(None);
    };
    let values = with_values(alloc, reach.null, found.as_slice())?;
    Ok(Some(values))
}

/// How many may be left beside NULL, where that is one.
fn left_of(null: bool, limit: u32) -> u32
    requires { 0 < limit }
    ensures { result ≡ (if null then limit - 1 else limit) }
{
    if null { limit - 1 } else { limit }
}

/// These values, behind NULL where that is one.
fn with_values<T: Scale>(alloc: Global, null: bool, own: &[T]) -> Result<Vec<Value>, AllocError>
    requires { AreAll (λ v. T.is_narrow v ≡ true) own.now }
    ensures { IfOk result (λ values. values.items ≡ nulls null ++ map T.value own.now) }
{
    let mut values = nulls(alloc, null)?;
    for value in own {
        let held = value.to_value(alloc)?;
        values.push(held)?;
    }
    Ok(values)
}

/// NULL, if it is one.
fn nulls(alloc: Global, null: bool) -> Result<Vec<Value>, AllocError>
    ensures { IfOk result (λ values. values.items ≡ nulls null) }
{
    let mut values = Vec::new(alloc);
    if !null {
        return Ok(values);
    }
    values.push(Value::Null)?;
    Ok(values)
}
