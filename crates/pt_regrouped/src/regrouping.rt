ghost use Rattle.std.specs.Prelude.{◌≡◌, ◌+◌, ◌≤◌, Ok, Err, IfOk, IfErr, drop, length, map, take};
ghost use Rattle.pt_ast.specs.StorableDef.{IsStorableDef};
ghost use Rattle.pt_ast.specs.StorableSpec.{AreStorableParts};
ghost use Rattle.pt_complete.specs.Fault.{IfRefused};
ghost use Rattle.pt_place.specs.Valid.{IsValid, first_subs};
ghost use Rattle.pt_regrouped.specs.NewParts.{parts_among};
ghost use Rattle.pt_regrouped.specs.Regrouped.{behind_of, front_of, regrouped_of};
ghost use Rattle.pt_regrouped.specs.Steps.{bad_replacing};
ghost use Rattle.pt_written.specs.Complete.{refused_or};

use crate::comparing::range_changed;
use crate::counting::bad_kind;
use crate::grouping::{has_named, missing_part, names_listed, split_front, split_group};
use crate::listing::{parts_listed, table_with};
use pt_ast::{Idents, PartDef, PartItem, PartItems, Parts, Refusal, TableDef};
use pt_complete::DefFault;
use pt_distinct::Names;
use pt_value::Ident;
use std::alloc::{AllocError, Global};

/// The definition of a table of this name in which new partitions stand in the place of those that are named; the others keep their
/// names and bounds. The names may stand in any order, and repeat. `Refused` has the first check that fails, in the order of REORGANIZE
/// PARTITION. A definition that is given is storable and valid.
pub fn regrouped(
    alloc: Global,
    table: &Ident,
    names: &Idents,
    items: &PartItems,
    def: &TableDef,
) -> Result<TableDef, DefFault>
    requires items { AreStorableParts items.now }
    requires storable { IsStorableDef def.now }
    requires valid { IsValid def.now }
    ensures made { IfOk result (λ made. regrouped_of table.now names.now items.now def.now ≡ Ok made) }
    ensures storable { IfOk result (λ made. IsStorableDef made) }
    ensures valid { IfOk result (λ made. IsValid made) }
    ensures refused { IfErr result (λ fault. IfRefused fault (λ refusal. regrouped_of table.now names.now items.now def.now ≡ Err refusal)) }
{
    match table_regrouped(alloc, table, names, items, def) {
        Ok(Ok(made)) => Ok(made),
        Ok(Err(refusal)) => Err(DefFault::Refused(refusal)),
        Err(_) => Err(DefFault::NoMemory),
    }
}

fn table_regrouped(
    alloc: Global,
    table: &Ident,
    names: &Idents,
    items: &PartItems,
    def: &TableDef,
) -> Result<Result<TableDef, Refusal>, AllocError>
    requires storable { IsStorableDef def.now }
    requires valid { IsValid def.now }
    ensures { IfOk result (λ made. made ≡ regrouped_of table.now names.now items.now def.now) }
{
    if let Some(refusal) = bad_kind(table, &def.by) {
        return Ok(Err(refusal));
    }
    if let Some(refusal) = missing_part(alloc, def.parts.items(), names.items())? {
        return Ok(Err(refusal));
    }
    let named = names_listed(alloc, names.items())?;
    match parts_replaced(alloc, table, &named, items.items(), def)? {
        Ok(parts) => Ok(Ok(table_with(alloc, def, parts)?)),
        Err(refusal) => Ok(Err(refusal)),
    }
}

/// The partitions, with new ones in the place of those that are named, all of which are there; or the first check that fails.
fn parts_replaced(
    alloc: Global,
    table: &Ident,
    named: &Names,
    items: &[PartItem],
    def: &TableDef,
) -> Result<Result<Parts, Refusal>, AllocError>
    requires { first_subs def.now.parts ≤ 8192 }
    ensures { IfOk result (λ made. made ≡ refused_or (bad_replacing table.now named.now items.now def.now) (parts_among def.now (front_of named.now def.now.parts) items.now (behind_of named.now def.now.parts))) }
{
    let (front, rest) = split_front(named, def.parts.items());
    let (group, behind) = split_group(named, rest);
    if has_named(named, behind) {
        return Ok(Err(Refusal::NotAdjacent(*table)));
    }
    let parts = match parts_listed(alloc, table, def, front, items, behind)? {
        Ok(parts) => parts,
        Err(refusal) => return Ok(Err(refusal)),
    };
    let new = slice_of(parts.items(), front.len(), items.len());
    if let Some(refusal) = range_changed(table, &def.by, group, new, behind) {
        return Ok(Err(refusal));
    }
    Ok(Ok(parts))
}

/// So many of the partitions, behind the first ones.
fn slice_of(parts: &[PartDef], skipped: usize, count: usize) -> &[PartDef]
    requires { skipped + count ≤ length parts.now }
    ensures { result.now ≡ take count (drop skipped parts.now) }
{
    let (_, rest) = parts.split_at(skipped);
    let (own, _) = rest.split_at(count);
    own
}
