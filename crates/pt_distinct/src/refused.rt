ghost use Rattle.std.specs.Prelude.{◌≡◌, IfOk};
ghost use Rattle.pt_place.specs.Checks.{bad_bounds};

use crate::lists::value_twice;
use crate::ranges::bad_ranges;
use pt_ast::{PartBy, PartDef, Refusal};
use std::alloc::{AllocError, Global};

/// The first partition with a bound or a list value that may not stand there. The time is linear in the number of ranges, and by
/// a logarithm more in that of the values of lists, which are seen in a tree.
pub fn bounds_refusal(
    alloc: Global,
    by: &PartBy,
    parts: &[PartDef],
) -> Result<Option<Refusal>, AllocError>
    ensures { IfOk result (λ r. r ≡ bad_bounds by.now parts.now) }
{
    match by {
        PartBy::Range(_) => Ok(bad_ranges(parts)),
        PartBy::RangeColumns(_) => Ok(bad_ranges(parts)),
        PartBy::List(_) => value_twice(alloc, parts),
        PartBy::ListColumns(_) => value_twice(alloc, parts),
        PartBy::Whole => Ok(None),
        PartBy::Hash(_, _) => Ok(None),
        PartBy::Key(_, _) => Ok(None),
    }
}
