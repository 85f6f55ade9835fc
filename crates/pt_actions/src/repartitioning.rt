ghost use Rattle.std.specs.Prelude.{◌≡◌, IfOk};
ghost use Rattle.pt_actions.specs.Repartitioned.{repartitioned_of, unpartitioned_of};
ghost use Rattle.pt_ast.specs.StorableDef.{IsStorableDef};
ghost use Rattle.pt_ast.specs.StorableSpec.{IsStorablePartSpec};
ghost use Rattle.pt_place.specs.Valid.{IsValid};
ghost use Rattle.pt_written.specs.Complete.{partitioned};

use crate::naming::is_whole;
use crate::remaking::columns_and_keys;
use pt_ast::{PartBy, PartSpec, Parts, Refusal, TableDef};
use pt_complete::partitioned;
use pt_value::Ident;
use std::alloc::{AllocError, Global};

/// REMOVE PARTITIONING of a table of this name and definition: its columns and keys alone, or that it has no partitions. What is
/// made of a storable and valid definition is storable and valid.
pub fn unpartitioned(
    alloc: Global,
    table: &Ident,
    def: &TableDef,
) -> Result<Result<TableDef, Refusal>, AllocError>
    requires storable { IsStorableDef def.now }
    requires valid { IsValid def.now }
    ensures made { IfOk result (λ made. made ≡ unpartitioned_of table.now def.now) }
    ensures storable { IfOk result (λ made. IfOk made (λ changed. IsStorableDef changed)) }
    ensures valid { IfOk result (λ made. IfOk made (λ changed. IsValid changed)) }
{
    let made = unpartitioned_checked(alloc, table, def)?;
    Ok(made)
}

fn unpartitioned_checked(
    alloc: Global,
    table: &Ident,
    def: &TableDef,
) -> Result<Result<TableDef, Refusal>, AllocError>
    ensures { IfOk result (λ made. made ≡ unpartitioned_of table.now def.now) }
{
    if is_whole(&def.by) {
        return Ok(Err(Refusal::NotPartitioned(*table)));
    }
    let copied = def.copy(alloc)?;
    Ok(Ok(bare(alloc, copied)))
}

/// The columns and keys of a definition, unpartitioned.
fn bare(alloc: Global, def: TableDef) -> TableDef
    ensures { result ≡ partitioned def.columns def.keys None }
{
    TableDef {
        columns: def.columns,
        keys: def.keys,
        by: PartBy::Whole,
        sub: PartBy::Whole,
        parts: Parts::new(alloc),
    }
}

/// PARTITION BY on a table of this name and definition: its columns and keys, partitioned as the text says; or the first check of
/// the partitioning that fails, in the order of CREATE TABLE. What is made of a storable and valid definition is storable and valid.
pub fn repartitioned(
    alloc: Global,
    table: &Ident,
    spec: &PartSpec,
    def: &TableDef,
) -> Result<Result<TableDef, Refusal>, AllocError>
    requires spec { IsStorablePartSpec spec.now }
    requires storable { IsStorableDef def.now }
    requires valid { IsValid def.now }
    ensures made { IfOk result (λ made. made ≡ repartitioned_of table.now spec.now def.now) }
    ensures storable { IfOk result (λ made. IfOk made (λ changed. IsStorableDef changed)) }
    ensures valid { IfOk result (λ made. IfOk made (λ changed. IsValid changed)) }
{
    let (columns, keys) = columns_and_keys(def.copy(alloc)?);
    let made = partitioned(alloc, table, columns, keys, spec)?;
    Ok(made)
}
