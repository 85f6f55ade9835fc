ghost use Rattle.std.specs.Prelude.{◌≡◌, ◌<◌, ◌∷◌, All, length, IfOk};
ghost use Rattle.std.specs.List.{filter_map, range_with_len};
ghost use Rattle.pt_place.specs.Checks.{part_names, twice};
ghost use Rattle.pt_place.specs.First.{first_in, in_turn};
ghost use Rattle.pt_place.specs.Names.{column_of, is_among};
ghost use Rattle.pt_checks.specs.Named.{bad_columns, bad_list, bad_part_list, bad_parts, no_column, no_part, targets};

use pt_ast::{Arg, Columns, Idents, PartBy, PartDef, Refusal, TableDef};
use pt_place::{column_of, is_among, same};
use pt_plain::List;
use pt_value::Ident;
use std::alloc::{AllocError, Global};

/// The positions of the columns that the values of a row are for, from 0.
pub type Targets = List<usize>;

/// What is refused of the PARTITION list of a statement on this table, if one is written: the table isn't partitioned, or the first name
/// that is neither a partition's nor a subpartition's. It takes no memory.
pub fn bad_parts(def: &TableDef, table: &Ident, parts: &Option<Idents>) -> Option<Refusal>
    ensures { result ≡ bad_parts def.now table.now parts.now }
{
    match parts {
        Some(names) => bad_part_list(def, table, names.items()),
        None => None,
    }
}

fn bad_part_list(def: &TableDef, table: &Ident, names: &[Ident]) -> Option<Refusal>
    ensures { result ≡ bad_part_list def.now table.now names.now }
{
    if matches!(def.by, PartBy::Whole) {
        return Some(Refusal::NotPartitioned(*table));
    }
    missing_part(def, names)
}

/// The first name that is no partition's and no subpartition's.
fn missing_part(def: &TableDef, names: &[Ident]) -> Option<Refusal>
    ensures { result ≡ first_in (no_part def.now) names.now }
{
    for name in names {
        if !is_part_name(name, def.parts.items()) {
            return Some(Refusal::UnknownPartition(*name));
        }
    }
    None
}

/// Whether a name is that of one of these partitions, or of a subpartition.
fn is_part_name(name: &Ident, parts: &[PartDef]) -> bool
    ensures { result ≡ is_among name.now (part_names parts.now) }
{
    for part in parts {
        if is_own_name(name, part) {
            return true;
        }
    }
    false
}

fn is_own_name(name: &Ident, part: &PartDef) -> bool
    ensures { result ≡ is_among name.now (part.now.name ∷ part.now.subs) }
{
    same(name, &part.name) || is_among(name, part.subs.items())
}

/// What is refused of the list of columns of INSERT, if one is written: the first name that is no column's, and then the first one that
/// stands twice. It takes no memory.
pub fn bad_columns(def: &TableDef, columns: &Option<Idents>) -> Option<Refusal>
    ensures { result ≡ bad_columns def.now columns.now }
{
    match columns {
        Some(names) => bad_list(&def.columns, names.items()),
        None => None,
    }
}

fn bad_list(columns: &Columns, names: &[Ident]) -> Option<Refusal>
    ensures { result ≡ bad_list columns.now names.now }
{
    if let Some(refusal) = missing_column(columns, names) {
        return Some(refusal);
    }
    repeated(names)
}

/// The first name that is no column's.
fn missing_column(columns: &Columns, names: &[Ident]) -> Option<Refusal>
    ensures { result ≡ first_in (no_column columns.now) names.now }
{
    for name in names {
        if let Some(refusal) = no_column(columns, name) {
            return Some(refusal);
        }
    }
    None
}

/// A name that is no column's.
pub(crate) fn no_column(columns: &Columns, name: &Ident) -> Option<Refusal>
    ensures { result ≡ no_column columns.now name.now }
{
    if column_of(columns, name).is_none() {
        return Some(Refusal::NoSuchColumn(*name));
    }
    None
}

/// The first name that stands before.
fn repeated(names: &[Ident]) -> Option<Refusal>
    ensures { result ≡ in_turn twice names.now }
{
    for (at, name) in names.iter().enumerate() {
        if is_among(name, &names[..at]) {
            return Some(Refusal::DuplicateColumn(Arg::Name(*name)));
        }
    }
    None
}

/// The positions of the columns that the values of a row are for: those listed, and without a list all columns. Each is one of the
/// table's.
pub fn targets(
    alloc: Global,
    def: &TableDef,
    columns: &Option<Idents>,
) -> Result<Targets, AllocError>
    ensures value { IfOk result (λ found. found ≡ targets def.now columns.now) }
    ensures below { IfOk result (λ found. All (λ at. at < length def.now.columns) found) }
{
    match columns {
        Some(names) => listed(alloc, &def.columns, names.items()),
        None => all(alloc, def.columns.items().len()),
    }
}

/// The positions of the columns of these names.
fn listed(alloc: Global, columns: &Columns, names: &[Ident]) -> Result<Targets, AllocError>
    ensures { IfOk result (λ found. found ≡ filter_map (column_of columns.now) names.now) }
{
    let mut found = Targets::new(alloc);
    for name in names {
        if let Some(at) = column_of(columns, name) {
            found.push(at)?;
        }
    }
    Ok(found)
}

/// The positions below a number.
fn all(alloc: Global, count: usize) -> Result<Targets, AllocError>
    ensures { IfOk result (λ found. found ≡ range_with_len 0 count) }
{
    let mut found = Targets::new(alloc);
    for at in 0..count {
        found.push(at)?;
    }
    Ok(found)
}
