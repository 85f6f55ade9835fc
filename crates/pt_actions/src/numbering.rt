ghost use Rattle.std.specs.Prelude.{◌≡◌, ◌+◌, ◌≤◌, ◌∷◌, ◌++◌, [], length, map, List, Result, Ok, IfOk, OnOk};
ghost use Rattle.pt_ast.specs.declared.refusal.Refusal.{Refusal as Refused};
ghost use Rattle.pt_ast.specs.declared.table.PartDef.{PartDef as Part};
ghost use Rattle.std.specs.List.{range_with_len};
ghost use Rattle.pt_place.specs.Checks.{name_twice, part_names, too_many};
ghost use Rattle.pt_place.specs.First.{in_turn_from};
ghost use Rattle.pt_written.specs.Complete.{refused_or};
ghost use Rattle.pt_actions.specs.Counted.{bad_count, number_name, parts_more, with_more_of};
ghost use Rattle.pt_actions.specs.Making.{with_given, with_numbered_of};
ghost use Rattle.pt_ast.specs.StorableDef.{IsStorableDef};
ghost use Rattle.pt_place.specs.Valid.{IsValid};

use crate::naming::{is_by_values, is_whole};
use crate::remaking::{apart, with_parts};
use pt_ast::{Idents, PartDef, Parts, Refusal, TableDef, Tuples};
use pt_complete::part_name;
use pt_distinct::Names;
use pt_place::too_many;
use pt_value::Ident;
use std::alloc::{AllocError, Global};

/// ADD PARTITION PARTITIONS of so many on a table of this name and definition: the definition with so many more at its end, or the
/// first check that fails. What is made of a storable and valid definition is storable and valid.
pub fn with_more(
    alloc: Global,
    table: &Ident,
    more: u128,
    def: &TableDef,
) -> Result<Result<TableDef, Refusal>, AllocError>
    requires storable { IsStorableDef def.now }
    requires valid { IsValid def.now }
    ensures made { IfOk result (λ made. made ≡ with_more_of table.now more def.now) }
    ensures storable { IfOk result (λ made. IfOk made (λ changed. IsStorableDef changed)) }
    ensures valid { IfOk result (λ made. IfOk made (λ changed. IsValid changed)) }
{
    let made = with_more_checked(alloc, table, more, def)?;
    Ok(made)
}

/// The checks, and then the definition.
fn with_more_checked(
    alloc: Global,
    table: &Ident,
    more: u128,
    def: &TableDef,
) -> Result<Result<TableDef, Refusal>, AllocError>
    requires valid { IsValid def.now }
    ensures { IfOk result (λ made. made ≡ with_more_of table.now more def.now) }
{
    if let Some(refusal) = bad_count(table, more, def) {
        return Ok(Err(refusal));
    }
    with_numbered(alloc, more as u32, def)
}

/// What is refused of the number.
fn bad_count(table: &Ident, more: u128, def: &TableDef) -> Option<Refusal>
    ensures { result ≡ bad_count table.now more def.now }
{
    if is_whole(&def.by) {
        return Some(Refusal::NotPartitioned(*table));
    }
    if is_by_values(&def.by) {
        return Some(Refusal::OnlyHashKey(*table));
    }
    if more == 0 {
        return Some(Refusal::NoPartitions(*table));
    }
    too_many_with(def.parts.items().len(), more)
}

/// More partitions than there may be, with so many more.
fn too_many_with(parts: usize, more: u128) -> Option<Refusal>
    ensures { result ≡ too_many (parts + more) }
{
    let count = (parts as u128).saturating_add(more);
    too_many(count.min(u128::from(u64::MAX)) as u64)
}

/// The definition with so many more, or the first of their names that stands before.
fn with_numbered(
    alloc: Global,
    more: u32,
    def: &TableDef,
) -> Result<Result<TableDef, Refusal>, AllocError>
    requires { length def.now.parts + more ≤ 8192 }
    ensures { IfOk result (λ made. made ≡ with_numbered_of more def.now) }
{
    let names = known_names(alloc, def.parts.items())?;
    let (rest, parts) = apart(alloc, def.copy(alloc)?);
    remade(rest, numbered(alloc, def.parts.items(), names, parts, more))
}

/// The definition with these partitions, where nothing was refused of them.
fn remade(
    rest: TableDef,
    answer: Result<Result<Parts, Refusal>, AllocError>,
) -> Result<Result<TableDef, Refusal>, AllocError>
    ensures { IfOk result (λ made. (given : Result (List Part) Refused) × (answer ≡ Ok given) × (made ≡ with_given rest given)) }
{
    match answer {
        Ok(Ok(parts)) => Ok(Ok(with_parts(rest, parts))),
        Ok(Err(refusal)) => Ok(Err(refusal)),
        Err(error) => Err(error),
    }
}

/// The names of partitions and of their subpartitions.
fn known_names(alloc: Global, parts: &[PartDef]) -> Result<Names, AllocError>
    ensures { IfOk result (λ names. names ≡ part_names parts.now) }
{
    let mut names = Names::new(alloc);
    for part in parts {
        add_names(&mut names, part)?;
    }
    Ok(names)
}

/// The names of a partition, behind those before it.
fn add_names(names: &mut Names, part: &PartDef) -> Result<(), AllocError>
    ensures { OnOk result (names.new ≡ names.old ++ part.now.name ∷ part.now.subs) }
{
    names.add(&part.name)?;
    for sub in part.subs.items() {
        names.add(sub)?;
    }
    Ok(())
}

/// So many partitions more, whose names are asked beside these.
fn numbered(
    alloc: Global,
    before: &[PartDef],
    names: Names,
    parts: Parts,
    more: u32,
) -> Result<Result<Parts, Refusal>, AllocError>
    requires parts { parts ≡ before.now }
    requires names { names ≡ part_names before.now }
    requires few { length before.now + more ≤ 8192 }
    ensures { IfOk result (λ made. made ≡ refused_or (in_turn_from name_twice (part_names before.now) (map number_name (range_with_len (length before.now) more))) (parts_more more before.now)) }
{
    let first = before.len() as u32;
    let mut known = names;
    let mut all = parts;
    for i in 0..more {
        let name = part_name(alloc, first + i)?;
        if known.has(&name) {
            return Ok(Err(Refusal::DuplicatePartition(name)));
        }
        known.add(&name)?;
        all.push(bare_part(alloc, name))?;
    }
    Ok(Ok(all))
}

/// A partition of this name, without bounds and subpartitions.
fn bare_part(alloc: Global, name: Ident) -> PartDef
    ensures { result ≡ record { name = name; bounds = []; subs = [] } }
{
    PartDef {
        name,
        bounds: Tuples::new(alloc),
        subs: Idents::new(alloc),
    }
}
