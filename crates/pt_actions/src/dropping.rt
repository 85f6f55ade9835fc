ghost use Rattle.std.specs.Prelude.{◌≡◌, IfOk};
ghost use Rattle.std.specs.List.{list_all};
ghost use Rattle.pt_actions.specs.Dropped.{bad_dropped, bad_truncated, dropped_of, is_named_in, parts_left, unknown_part};
ghost use Rattle.pt_actions.specs.Named.{with_parts};
ghost use Rattle.pt_ast.specs.StorableDef.{IsStorableDef};
ghost use Rattle.pt_place.specs.Valid.{IsValid};

use crate::naming::{is_by_number, is_whole, names_among, unknown_part};
use crate::remaking::{apart, paired, with_parts};
use pt_ast::{Idents, PartDef, Parts, Refusal, TableDef};
use pt_distinct::Names;
use pt_value::Ident;
use std::alloc::{AllocError, Global};

/// DROP PARTITION of these names from a table of this name and definition: the definition without them, or the first check that
/// fails. A name that stands twice counts once. What is made of a storable and valid definition is storable and valid.
pub fn dropped(
    alloc: Global,
    table: &Ident,
    names: &[Ident],
    def: &TableDef,
) -> Result<Result<TableDef, Refusal>, AllocError>
    requires storable { IsStorableDef def.now }
    requires valid { IsValid def.now }
    ensures made { IfOk result (λ made. made ≡ dropped_of table.now names.now def.now) }
    ensures storable { IfOk result (λ made. IfOk made (λ changed. IsStorableDef changed)) }
    ensures valid { IfOk result (λ made. IfOk made (λ changed. IsValid changed)) }
{
    let made = dropped_checked(alloc, table, names, def)?;
    Ok(made)
}

/// The checks, and then the definition.
fn dropped_checked(
    alloc: Global,
    table: &Ident,
    names: &[Ident],
    def: &TableDef,
) -> Result<Result<TableDef, Refusal>, AllocError>
    ensures { IfOk result (λ made. made ≡ dropped_of table.now names.now def.now) }
{
    let named = names_among(alloc, names)?;
    if let Some(refusal) = bad_dropped(alloc, table, names, &named, def)? {
        return Ok(Err(refusal));
    }
    Ok(Ok(without(alloc, &named, def)?))
}

/// What is refused, where the names are looked up.
fn bad_dropped(
    alloc: Global,
    table: &Ident,
    names: &[Ident],
    named: &Names,
    def: &TableDef,
) -> Result<Option<Refusal>, AllocError>
    requires { named.now ≡ names.now }
    ensures { IfOk result (λ refusal. refusal ≡ bad_dropped table.now names.now def.now) }
{
    if is_whole(&def.by) {
        return Ok(Some(Refusal::NotPartitioned(*table)));
    }
    if is_by_number(&def.by) {
        return Ok(Some(Refusal::OnlyRangeList(*table)));
    }
    if let Some(refusal) = unknown_part(alloc, names, def.parts.items())? {
        return Ok(Some(refusal));
    }
    if are_all_named(named, def.parts.items()) {
        return Ok(Some(Refusal::DropAll(*table)));
    }
    Ok(None)
}

/// Whether each partition is named.
fn are_all_named(named: &Names, parts: &[PartDef]) -> bool
    ensures { result ≡ list_all (is_named_in named.now) parts.now }
{
    for part in parts {
        if !named.has(&part.name) {
            return false;
        }
    }
    true
}

/// The definition without the partitions that are named.
fn without(alloc: Global, named: &Names, def: &TableDef) -> Result<TableDef, AllocError>
    ensures { IfOk result (λ made. made ≡ with_parts def.now (parts_left named.now def.now.parts)) }
{
    let (rest, parts) = apart(alloc, def.copy(alloc)?);
    let left = parts_left(alloc, named, parts);
    let (rest, left) = paired(rest, left)?;
    Ok(with_parts(rest, left))
}

/// The partitions that aren't named, in their order.
fn parts_left(alloc: Global, named: &Names, parts: Parts) -> Result<Parts, AllocError>
    ensures { IfOk result (λ left. left ≡ parts_left named.now parts) }
{
    let mut left = Parts::new(alloc);
    for part in parts.into_vec() {
        if !named.has(&part.name) {
            left.push(part)?;
        }
    }
    Ok(left)
}

/// What is refused of TRUNCATE PARTITION of these names, of all where there are none, on a table of this name and definition. It
/// leaves the definition as it is.
pub fn bad_truncated(
    alloc: Global,
    table: &Ident,
    names: &Option<Idents>,
    def: &TableDef,
) -> Result<Option<Refusal>, AllocError>
    ensures { IfOk result (λ refusal. refusal ≡ bad_truncated table.now names.now def.now) }
{
    if is_whole(&def.by) {
        return Ok(Some(Refusal::NotPartitioned(*table)));
    }
    match names {
        Some(names) => unknown_part(alloc, names.items(), def.parts.items()),
        None => Ok(None),
    }
}
