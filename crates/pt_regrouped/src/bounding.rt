ghost use Rattle.std.specs.Prelude.{◌≡◌, ◌++◌, All, IfOk, map};
ghost use Rattle.pt_complete.specs.Making.{IsPartSound};
ghost use Rattle.pt_place.specs.Checks.{bad_bounds};
ghost use Rattle.pt_regrouped.specs.NewParts.{new_part, parts_among};
ghost use Rattle.pt_regrouped.specs.Steps.{bare};

use crate::copying::tuples_copied;
use pt_ast::{Idents, PartDef, PartItem, Parts, Refusal, TableDef};
use pt_complete::bounds_of;
use pt_distinct::bounds_refusal;
use std::alloc::{AllocError, Global};

/// The first partition with a bound or a value that may not stand there. The names of subpartitions play no part in it.
pub(crate) fn bad_new_bounds(
    alloc: Global,
    def: &TableDef,
    front: &[PartDef],
    items: &[PartItem],
    behind: &[PartDef],
) -> Result<Option<Refusal>, AllocError>
    requires { All (λ item. IsPartSound def.now.columns def.now.by item) items.now }
    ensures { IfOk result (λ refusal. refusal ≡ bad_bounds def.now.by (parts_among def.now front.now items.now behind.now)) }
{
    let parts = bare_among(alloc, def, front, items, behind)?;
    bounds_refusal(alloc, &def.by, parts.items())
}

/// The partitions without their subpartitions.
fn bare_among(
    alloc: Global,
    def: &TableDef,
    front: &[PartDef],
    items: &[PartItem],
    behind: &[PartDef],
) -> Result<Parts, AllocError>
    requires { All (λ item. IsPartSound def.now.columns def.now.by item) items.now }
    ensures { IfOk result (λ parts. parts ≡ map bare (parts_among def.now front.now items.now behind.now)) }
{
    let mut parts = Parts::new(alloc);
    put_old(alloc, &mut parts, front)?;
    put_new(alloc, &mut parts, def, items)?;
    put_old(alloc, &mut parts, behind)?;
    Ok(parts)
}

/// Partitions of the table, added behind those before.
fn put_old(alloc: Global, parts: &mut Parts, old: &[PartDef]) -> Result<(), AllocError>
    ensures { IfOk result (λ _. parts.new ≡ parts.old ++ map bare old.now) }
{
    for part in old {
        parts.push(PartDef {
            name: part.name,
            bounds: tuples_copied(alloc, &part.bounds)?,
            subs: Idents::new(alloc),
        })?;
    }
    Ok(())
}

/// New partitions, added behind those before.
fn put_new(
    alloc: Global,
    parts: &mut Parts,
    def: &TableDef,
    items: &[PartItem],
) -> Result<(), AllocError>
    requires { All (λ item. IsPartSound def.now.columns def.now.by item) items.now }
    ensures { IfOk result (λ _. parts.new ≡ parts.old ++ map bare (map (new_part def.now) items.now)) }
{
    for item in items {
        parts.push(PartDef {
            name: item.name,
            bounds: bounds_of(alloc, &def.columns, &def.by, &item.values)?,
            subs: Idents::new(alloc),
        })?;
    }
    Ok(())
}
