ghost use Rattle.std.specs.Prelude.{◌≡◌, ◌≤◌, All, IfOk, map};
ghost use Rattle.std.specs.List.{range_with_len};
ghost use Rattle.pt_complete.specs.Making.{ArePartsSound, IsPartSound};
ghost use Rattle.pt_place.specs.Fitting.{kinds_of};
ghost use Rattle.pt_written.specs.Complete.{bad_names, refused_or};
ghost use Rattle.pt_written.specs.WrittenParts.{part_count, part_in, part_made, parts_of, sub_count};

use crate::items_made::bounds_of;
use crate::made_names::part_name;
use crate::subpartitions::subs_named;
use pt_ast::{Columns, PartBy, PartDef, PartItem, PartSpec, Parts, Refusal, SubSpec, Tuples};
use pt_distinct::Names;
use pt_written::{part_count, sub_count};
use std::alloc::{AllocError, Global};

/// The partitions, with all names and bounds; or the first name that is too long or stands before.
pub(crate) fn parts_of(
    alloc: Global,
    columns: &Columns,
    by: &PartBy,
    spec: &PartSpec,
) -> Result<Result<Parts, Refusal>, AllocError>
    requires parts { part_count spec.now ≤ 8192 }
    requires subs { sub_count spec.now ≤ 8192 }
    requires sound { ArePartsSound columns.now by.now spec.now }
    ensures { IfOk result (λ made. made ≡ refused_or (bad_names (parts_of (kinds_of columns.now by.now) by.now spec.now)) (parts_of (kinds_of columns.now by.now) by.now spec.now)) }
{
    let count = sub_count(spec) as u32;
    match &spec.parts {
        Some(parts) => parts_in(alloc, columns, by, &spec.sub, count, parts.items()),
        None => parts_made(alloc, &spec.sub, count, part_count(spec) as u32),
    }
}

/// Partitions that are written.
fn parts_in(
    alloc: Global,
    columns: &Columns,
    by: &PartBy,
    sub: &Option<SubSpec>,
    count: u32,
    items: &[PartItem],
) -> Result<Result<Parts, Refusal>, AllocError>
    requires { All (λ part. IsPartSound columns.now by.now part) items.now }
    ensures { IfOk result (λ made. made ≡ refused_or (bad_names (map (part_in (kinds_of columns.now by.now) by.now sub.now count) items.now)) (map (part_in (kinds_of columns.now by.now) by.now sub.now count) items.now)) }
{
    let mut names = Names::new(alloc);
    let mut parts = Parts::new(alloc);
    for item in items {
        let bounds = bounds_of(alloc, columns, by, &item.values)?;
        let subs = match subs_named(alloc, &mut names, sub, count, &item.name, &item.subs)? {
            Ok(subs) => subs,
            Err(refusal) => return Ok(Err(refusal)),
        };
        parts.push(PartDef {
            name: item.name,
            bounds,
            subs,
        })?;
    }
    Ok(Ok(parts))
}

/// Partitions of which the number alone is written.
fn parts_made(
    alloc: Global,
    sub: &Option<SubSpec>,
    count: u32,
    parts_count: u32,
) -> Result<Result<Parts, Refusal>, AllocError>
    requires { parts_count ≤ 8192 }
    ensures { IfOk result (λ made. made ≡ refused_or (bad_names (map (part_made sub.now count) (range_with_len 0 parts_count))) (map (part_made sub.now count) (range_with_len 0 parts_count))) }
{
    let mut names = Names::new(alloc);
    let mut parts = Parts::new(alloc);
    for number in 0..parts_count {
        let name = part_name(alloc, number)?;
        let subs = match subs_named(alloc, &mut names, sub, count, &name, &None)? {
            Ok(subs) => subs,
            Err(refusal) => return Ok(Err(refusal)),
        };
        parts.push(PartDef {
            name,
            bounds: Tuples::new(alloc),
            subs,
        })?;
    }
    Ok(Ok(parts))
}
