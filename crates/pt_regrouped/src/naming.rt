ghost use Rattle.std.specs.Prelude.{◌≡◌, ◌≤◌, ◌++◌, ◌∷◌, [], All, Some, IfOk, IfNone, is_none, map};
ghost use Rattle.pt_complete.specs.Making.{IsPartSound, bad_names_beside};
ghost use Rattle.pt_place.specs.Checks.{is_whole, part_names};
ghost use Rattle.pt_place.specs.Valid.{first_subs};
ghost use Rattle.pt_regrouped.specs.NewParts.{new_part, new_subs, parts_among};
ghost use Rattle.pt_regrouped.specs.Steps.{bad_names_behind};
ghost use Rattle.pt_written.specs.Complete.{bad_names, refused_or};

use crate::copying::tuples_copied;
use crate::counting::{first_subs, is_whole};
use pt_ast::{HashSpec, Idents, PartBy, PartDef, PartItem, Parts, Refusal, SubSpec, TableDef};
use pt_complete::{bounds_of, subs_named};
use pt_distinct::Names;
use std::alloc::{AllocError, Global};

/// The partitions with all names; or the first name that is too long or stands before.
pub(crate) fn parts_named(
    alloc: Global,
    def: &TableDef,
    front: &[PartDef],
    items: &[PartItem],
    behind: &[PartDef],
) -> Result<Result<Parts, Refusal>, AllocError>
    requires few { first_subs def.now.parts ≤ 8192 }
    requires sound { All (λ item. IsPartSound def.now.columns def.now.by item) items.now }
    ensures { IfOk result (λ made. made ≡ refused_or (bad_names (parts_among def.now front.now items.now behind.now)) (parts_among def.now front.now items.now behind.now)) }
{
    let mut names = Names::new(alloc);
    let mut parts = Parts::new(alloc);
    if let Some(refusal) = put_old(alloc, &mut names, &mut parts, front)? {
        return Ok(Err(refusal));
    }
    if let Some(refusal) = put_new(alloc, &mut names, &mut parts, def, items)? {
        return Ok(Err(refusal));
    }
    if let Some(refusal) = put_old(alloc, &mut names, &mut parts, behind)? {
        return Ok(Err(refusal));
    }
    Ok(Ok(parts))
}

/// Partitions of the table, added behind those before; or the first name that stands before.
fn put_old(
    alloc: Global,
    names: &mut Names,
    parts: &mut Parts,
    old: &[PartDef],
) -> Result<Option<Refusal>, AllocError>
    requires { names.old ≡ part_names parts.old }
    ensures refusal { IfOk result (λ refusal. refusal ≡ bad_names_behind parts.old old.now) }
    ensures parts { IfOk result (λ refusal. IfNone refusal (parts.new ≡ parts.old ++ old.now)) }
    ensures names { IfOk result (λ refusal. IfNone refusal (names.new ≡ part_names parts.new)) }
{
    for part in old {
        if let Some(refusal) = put_old_part(alloc, names, parts, part)? {
            return Ok(Some(refusal));
        }
    }
    Ok(None)
}

/// New partitions, added behind those before; or the first name that is too long or stands before.
fn put_new(
    alloc: Global,
    names: &mut Names,
    parts: &mut Parts,
    def: &TableDef,
    items: &[PartItem],
) -> Result<Option<Refusal>, AllocError>
    requires few { first_subs def.now.parts ≤ 8192 }
    requires names { names.old ≡ part_names parts.old }
    requires sound { All (λ item. IsPartSound def.now.columns def.now.by item) items.now }
    ensures refusal { IfOk result (λ refusal. refusal ≡ bad_names_behind parts.old (map (new_part def.now) items.now)) }
    ensures parts { IfOk result (λ refusal. IfNone refusal (parts.new ≡ parts.old ++ map (new_part def.now) items.now)) }
    ensures names { IfOk result (λ refusal. IfNone refusal (names.new ≡ part_names parts.new)) }
{
    for item in items {
        if let Some(refusal) = put_new_part(alloc, names, parts, def, item)? {
            return Ok(Some(refusal));
        }
    }
    Ok(None)
}

/// A partition of the table, with the names that it has.
fn put_old_part(
    alloc: Global,
    names: &mut Names,
    parts: &mut Parts,
    part: &PartDef,
) -> Result<Option<Refusal>, AllocError>
    requires { names.old ≡ part_names parts.old }
    ensures refusal { IfOk result (λ refusal. refusal ≡ bad_names_behind parts.old (part.now ∷ [])) }
    ensures parts { IfOk result (λ refusal. IfNone refusal (parts.new ≡ parts.old ++ part.now ∷ [])) }
    ensures names { IfOk result (λ refusal. IfNone refusal (names.new ≡ part_names parts.new)) }
{
    let bounds = tuples_copied(alloc, &part.bounds)?;
    match old_subs_named(alloc, names, part)? {
        Ok(subs) => {
            parts.push(PartDef {
                name: part.name,
                bounds,
                subs,
            })?;
            Ok(None)
        }
        Err(refusal) => Ok(Some(refusal)),
    }
}

/// A new partition, with names that are written or made.
fn put_new_part(
    alloc: Global,
    names: &mut Names,
    parts: &mut Parts,
    def: &TableDef,
    item: &PartItem,
) -> Result<Option<Refusal>, AllocError>
    requires few { first_subs def.now.parts ≤ 8192 }
    requires names { names.old ≡ part_names parts.old }
    requires sound { IsPartSound def.now.columns def.now.by item.now }
    ensures refusal { IfOk result (λ refusal. refusal ≡ bad_names_behind parts.old (new_part def.now item.now ∷ [])) }
    ensures parts { IfOk result (λ refusal. IfNone refusal (parts.new ≡ parts.old ++ new_part def.now item.now ∷ [])) }
    ensures names { IfOk result (λ refusal. IfNone refusal (names.new ≡ part_names parts.new)) }
{
    let bounds = bounds_of(alloc, &def.columns, &def.by, &item.values)?;
    match new_subs_named(alloc, names, def, item)? {
        Ok(subs) => {
            parts.push(PartDef {
                name: item.name,
                bounds,
                subs,
            })?;
            Ok(None)
        }
        Err(refusal) => Ok(Some(refusal)),
    }
}

/// The names of the subpartitions of a partition of the table, which are added to those before, behind that of the partition; or the
/// first that stands before.
fn old_subs_named(
    alloc: Global,
    names: &mut Names,
    part: &PartDef,
) -> Result<Result<Idents, Refusal>, AllocError>
    ensures made { IfOk result (λ made. made ≡ refused_or (bad_names_beside names.old part.now.name (part.now.name ∷ part.now.subs)) part.now.subs) }
    ensures names { IfOk result (λ made. IfOk made (λ _. names.new ≡ names.old ++ part.now.name ∷ part.now.subs)) }
{
    let written = subs_written(alloc, part)?;
    let like = Some(some_sub(alloc));
    let made = subs_named(alloc, names, &like, 0, &part.name, &written);
    drop(like);
    made
}

/// The names of the subpartitions of a new partition, in the same way.
fn new_subs_named(
    alloc: Global,
    names: &mut Names,
    def: &TableDef,
    item: &PartItem,
) -> Result<Result<Idents, Refusal>, AllocError>
    requires { first_subs def.now.parts ≤ 8192 }
    ensures made { IfOk result (λ made. made ≡ refused_or (bad_names_beside names.old item.now.name (item.now.name ∷ new_subs def.now item.now)) (new_subs def.now item.now)) }
    ensures names { IfOk result (λ made. IfOk made (λ _. names.new ≡ names.old ++ item.now.name ∷ new_subs def.now item.now)) }
{
    let count = first_subs(def.parts.items()) as u32;
    let like = sub_like(alloc, &def.sub);
    let made = subs_named(alloc, names, &like, count, &item.name, &item.subs);
    drop(like);
    made
}

/// The names of a partition's subpartitions, as if they were written.
fn subs_written(alloc: Global, part: &PartDef) -> Result<Option<Idents>, AllocError>
    ensures { IfOk result (λ written. written ≡ Some part.now.subs) }
{
    Ok(Some(Idents::from_slice(alloc, part.subs.items())?))
}

/// Whether there are subpartitions, as a text says it: by what they are partitioned plays no part where they are named.
fn sub_like(alloc: Global, sub: &PartBy) -> Option<SubSpec>
    ensures { is_none result ≡ is_whole sub.now }
{
    if is_whole(sub) {
        return None;
    }
    Some(some_sub(alloc))
}

fn some_sub(alloc: Global) -> SubSpec {
    SubSpec {
        hash: HashSpec::Key(false, Idents::new(alloc)),
        count: None,
    }
}
