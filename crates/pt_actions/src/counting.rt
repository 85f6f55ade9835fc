ghost use Rattle.std.specs.Prelude.{◌≡◌, take, IfOk};
ghost use Rattle.pt_actions.specs.Counted.{bad_fewer, coalesced_of};
ghost use Rattle.pt_actions.specs.Named.{with_parts};
ghost use Rattle.pt_ast.specs.StorableDef.{IsStorableDef};
ghost use Rattle.pt_place.specs.Valid.{IsValid};

use crate::naming::{is_by_values, is_whole};
use crate::remaking::{apart, with_parts};
use pt_ast::{Parts, Refusal, TableDef};
use pt_value::Ident;
use std::alloc::{AllocError, Global};

/// COALESCE PARTITION of so many on a table of this name and definition: the definition without the last ones, or the first check
/// that fails. What is made of a storable and valid definition is storable and valid.
pub fn coalesced(
    alloc: Global,
    table: &Ident,
    fewer: u128,
    def: &TableDef,
) -> Result<Result<TableDef, Refusal>, AllocError>
    requires storable { IsStorableDef def.now }
    requires valid { IsValid def.now }
    ensures made { IfOk result (λ made. made ≡ coalesced_of table.now fewer def.now) }
    ensures storable { IfOk result (λ made. IfOk made (λ changed. IsStorableDef changed)) }
    ensures valid { IfOk result (λ made. IfOk made (λ changed. IsValid changed)) }
{
    let made = coalesced_checked(alloc, table, fewer, def)?;
    Ok(made)
}

/// The checks, and then the definition.
fn coalesced_checked(
    alloc: Global,
    table: &Ident,
    fewer: u128,
    def: &TableDef,
) -> Result<Result<TableDef, Refusal>, AllocError>
    ensures { IfOk result (λ made. made ≡ coalesced_of table.now fewer def.now) }
{
    if let Some(refusal) = bad_fewer(table, fewer, def) {
        return Ok(Err(refusal));
    }
    let left = (def.parts.items().len() as u128).saturating_sub(fewer);
    Ok(Ok(with_first(alloc, left as usize, def)?))
}

fn bad_fewer(table: &Ident, fewer: u128, def: &TableDef) -> Option<Refusal>
    ensures { result ≡ bad_fewer table.now fewer def.now }
{
    if is_whole(&def.by) {
        return Some(Refusal::NotPartitioned(*table));
    }
    if is_by_values(&def.by) {
        return Some(Refusal::OnlyHashKey(*table));
    }
    if fewer == 0 {
        return Some(Refusal::CoalesceZero(*table));
    }
    if def.parts.items().len() as u128 <= fewer {
        return Some(Refusal::DropAll(*table));
    }
    None
}

/// The definition with its first partitions alone.
fn with_first(alloc: Global, count: usize, def: &TableDef) -> Result<TableDef, AllocError>
    ensures { IfOk result (λ made. made ≡ with_parts def.now (take count def.now.parts)) }
{
    let (rest, parts) = apart(alloc, def.copy(alloc)?);
    Ok(with_parts(rest, first_parts(count, parts)))
}

fn first_parts(count: usize, parts: Parts) -> Parts
    ensures { result ≡ take count parts }
{
    let mut first = parts.into_vec();
    first.truncate(count);
    Parts::of(first)
}
