ghost use Rattle.std.specs.Prelude.{◌≡◌, All, IfOk, map};
ghost use Rattle.pt_complete.specs.Making.{IsPartSound, bare_in};
ghost use Rattle.pt_place.specs.Checks.{bad_bounds};
ghost use Rattle.pt_place.specs.Fitting.{kinds_of};

use crate::items_made::bounds_of;
use pt_ast::{Columns, Idents, PartBy, PartDef, PartItem, Parts, Refusal};
use pt_distinct::bounds_refusal;
use std::alloc::{AllocError, Global};

/// The first partition with a bound or a value that may not stand there. The names of subpartitions play no part in it.
pub fn bad_parts_bounds(
    alloc: Global,
    columns: &Columns,
    by: &PartBy,
    items: &[PartItem],
) -> Result<Option<Refusal>, AllocError>
    requires { All (λ part. IsPartSound columns.now by.now part) items.now }
    ensures { IfOk result (λ refusal. refusal ≡ bad_bounds by.now (map (bare_in (kinds_of columns.now by.now) by.now) items.now)) }
{
    let parts = bare_parts(alloc, columns, by, items)?;
    bounds_refusal(alloc, by, parts.items())
}

/// The partitions without their subpartitions.
fn bare_parts(
    alloc: Global,
    columns: &Columns,
    by: &PartBy,
    items: &[PartItem],
) -> Result<Parts, AllocError>
    requires { All (λ part. IsPartSound columns.now by.now part) items.now }
    ensures { IfOk result (λ parts. parts ≡ map (bare_in (kinds_of columns.now by.now) by.now) items.now) }
{
    let mut parts = Parts::new(alloc);
    for item in items {
        parts.push(PartDef {
            name: item.name,
            bounds: bounds_of(alloc, columns, by, &item.values)?,
            subs: Idents::new(alloc),
        })?;
    }
    Ok(parts)
}
