ghost use Rattle.std.specs.Prelude.{◌≡◌, ◌≤◌, Some, None, Ok, Err, IfOk, IfErr, length};
ghost use Rattle.pt_ast.specs.Storable.{IsCounted};
ghost use Rattle.pt_ast.specs.StorableDef.{IsStorableDef};
ghost use Rattle.pt_ast.specs.StorableSpec.{IsStorableSpec};
ghost use Rattle.pt_complete.specs.Fault.{IfRefused};
ghost use Rattle.pt_complete.specs.Making.{ArePartsSound, IsBeside, bad_bounds_or_names};
ghost use Rattle.pt_place.specs.Fitting.{kinds_of};
ghost use Rattle.pt_place.specs.Valid.{refusal_of};
ghost use Rattle.pt_written.specs.Complete.{bad_spec, complete_of, partitioned, refused_or};
ghost use Rattle.pt_written.specs.WrittenParts.{by_of, part_count, parts_of, sub_count, sub_of};

use crate::columns_made::columns_of;
use crate::fault::DefFault;
use crate::keys_made::keys_of;
use crate::parts_bounded::bad_parts_bounds;
use crate::parts_named::parts_of;
use pt_ast::{Columns, KeyDefs, PartBy, PartSpec, Parts, Refusal, TableDef, TableSpec};
use pt_value::Ident;
use pt_written::{
    all_bad_written_values, bad_keys, bad_written_counts, bad_written_kinds, by_of, defined, sub_of,
};
use std::alloc::{AllocError, Global};

/// The complete definition of a table of this name and text: all names, numbers and constants are worked out. `Refused` has the
/// first check that the text fails, in the order of CREATE TABLE. A definition that is given is storable and valid: no check refuses
/// it. Memory is wanting from 2^32 keys on.
pub fn complete(alloc: Global, table: &Ident, spec: &TableSpec) -> Result<TableDef, DefFault>
    requires { IsStorableSpec spec.now }
    ensures made { IfOk result (λ def. complete_of table.now spec.now ≡ Ok def) }
    ensures storable { IfOk result (λ def. IsStorableDef def) }
    ensures valid { IfOk result (λ def. refusal_of table.now def ≡ None) }
    ensures refused { IfErr result (λ fault. IfRefused fault (λ refusal. complete_of table.now spec.now ≡ Err refusal)) }
{
    match completed(alloc, table, spec) {
        Ok(Ok(def)) => Ok(def),
        Ok(Err(refusal)) => Err(DefFault::Refused(refusal)),
        Err(_) => Err(DefFault::NoMemory),
    }
}

/// Columns and keys, and then the partitioning.
fn completed(
    alloc: Global,
    table: &Ident,
    spec: &TableSpec,
) -> Result<Result<TableDef, Refusal>, AllocError>
    requires { IsStorableSpec spec.now }
    ensures made { IfOk result (λ made. made ≡ complete_of table.now spec.now) }
    ensures few { IfOk result (λ made. IfOk made (λ def. IsCounted def.keys)) }
{
    let items = spec.items.items();
    let columns = match columns_of(alloc, items)? {
        Ok(columns) => columns,
        Err(refusal) => return Ok(Err(refusal)),
    };
    if let Some(refusal) = bad_keys(&columns, items) {
        return Ok(Err(refusal));
    }
    let keys = keys_of(alloc, &columns, items)?;
    match &spec.by {
        Some(by) => partitioned(alloc, table, columns, keys, by),
        None => Ok(Ok(TableDef {
            columns,
            keys,
            by: PartBy::Whole,
            sub: PartBy::Whole,
            parts: Parts::new(alloc),
        })),
    }
}

/// A table of these columns and keys that is partitioned so, or what is refused of the partitioning.
pub fn partitioned(
    alloc: Global,
    table: &Ident,
    columns: Columns,
    keys: KeyDefs,
    spec: &PartSpec,
) -> Result<Result<TableDef, Refusal>, AllocError>
    requires { length columns ≤ 1_000_000 }
    ensures { IfOk result (λ made. made ≡ refused_or (bad_spec table.now columns keys spec.now) (partitioned columns keys (Some spec.now))) }
{
    let (by, sub) = kinds_of(alloc, &columns, &keys, spec)?;
    let def = TableDef {
        columns,
        keys,
        by,
        sub,
        parts: Parts::new(alloc),
    };
    let parts = checked_parts(alloc, table, &def, spec);
    match beside(def, parts)? {
        Ok((def, parts)) => Ok(Ok(with_parts(def, parts))),
        Err(refusal) => Ok(Err(refusal)),
    }
}

/// What the table and its partitions are partitioned by.
fn kinds_of(
    alloc: Global,
    columns: &Columns,
    keys: &KeyDefs,
    spec: &PartSpec,
) -> Result<(PartBy, PartBy), AllocError>
    requires { length columns.now ≤ 1_000_000 }
    ensures { IfOk result (λ kinds. kinds ≡ (by_of columns.now keys.now spec.now.main, sub_of columns.now spec.now.sub)) }
{
    let by = by_of(alloc, columns, keys, &spec.main)?;
    paired(by, sub_of(alloc, columns, &spec.sub))
}

/// The partitions of a table that is partitioned so far; or the first check that the partitioning fails.
fn checked_parts(
    alloc: Global,
    table: &Ident,
    def: &TableDef,
    spec: &PartSpec,
) -> Result<Result<Parts, Refusal>, AllocError>
    requires by { def.now.by ≡ by_of def.now.columns def.now.keys spec.now.main }
    requires sub { def.now.sub ≡ sub_of def.now.columns spec.now.sub }
    ensures { IfOk result (λ made. made ≡ refused_or (bad_spec table.now def.now.columns def.now.keys spec.now) (parts_of (kinds_of def.now.columns def.now.by) def.now.by spec.now)) }
{
    if let Some(refusal) = bad_written_kinds(table, def, spec) {
        return Ok(Err(refusal));
    }
    if let Some(refusal) = bad_written_counts(table, spec) {
        return Ok(Err(refusal));
    }
    let items = defined(spec);
    if let Some(refusal) = all_bad_written_values(alloc, table, &def.columns, &def.by, items) {
        return Ok(Err(refusal));
    }
    bounded_parts(alloc, def, spec)
}

/// The partitions, of which the numbers and VALUES have been asked; or the first bound that may not stand there, and then the first
/// name.
fn bounded_parts(
    alloc: Global,
    def: &TableDef,
    spec: &PartSpec,
) -> Result<Result<Parts, Refusal>, AllocError>
    requires parts { part_count spec.now ≤ 8192 }
    requires subs { sub_count spec.now ≤ 8192 }
    requires sound { ArePartsSound def.now.columns def.now.by spec.now }
    ensures { IfOk result (λ made. made ≡ refused_or (bad_bounds_or_names def.now spec.now) (parts_of (kinds_of def.now.columns def.now.by) def.now.by spec.now)) }
{
    if let Some(refusal) = bad_parts_bounds(alloc, &def.columns, &def.by, defined(spec))? {
        return Ok(Err(refusal));
    }
    let made = parts_of(alloc, &def.columns, &def.by, spec)?;
    Ok(made)
}

/// A value beside the answer of a call that may fail.
fn paired<T: Drop, U: Drop>(value: T, answer: Result<U, AllocError>) -> Result<(T, U), AllocError>
    ensures { IfOk result (λ both. (both.0 ≡ value) × (answer ≡ Ok both.1)) }
{
    match answer {
        Ok(other) => Ok((value, other)),
        Err(error) => Err(error),
    }
}

/// A value beside the answer of a call that may fail or refuse.
fn beside<T: Drop, U: Drop>(
    value: T,
    answer: Result<Result<U, Refusal>, AllocError>,
) -> Result<Result<(T, U), Refusal>, AllocError>
    ensures { IfOk result (λ made. IsBeside value answer made) }
{
    match answer {
        Ok(Ok(other)) => Ok(Ok((value, other))),
        Ok(Err(refusal)) => Ok(Err(refusal)),
        Err(error) => Err(error),
    }
}

fn with_parts(def: TableDef, parts: Parts) -> TableDef
    ensures { result ≡ record { columns = def.columns; keys = def.keys; by = def.by; sub = def.sub; parts = parts } }
{
    TableDef {
        columns: def.columns,
        keys: def.keys,
        by: def.by,
        sub: def.sub,
        parts,
    }
}
