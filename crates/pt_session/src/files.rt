//! The names of the files of a table's rows.
ghost use Rattle.std.specs.Prelude.{◌≡◌, ◌++◌, map, IfOk, OnOk};
ghost use Rattle.pt_db.specs.Spots as spots;
ghost use Rattle.pt_db.specs.Spots.{spots_in, spots_of};
ghost use Rattle.pt_holds.specs.Holds.{spot_file};
ghost use Rattle.pt_place.specs.Checks as checks;
ghost use Rattle.pt_place.specs.Place.{subs_at};

use pt_ast::{PartBy, Spot, TableDef};
use pt_host::Name;
use pt_names::row_name;
use pt_place::leaf;
use pt_plain::List;
use pt_value::Ident;
use std::alloc::{AllocError, Global};

/// The names of a table's row files, spot by spot in order of definition. No memory has room for 2^32 partitions.
pub(crate) fn files_of(
    alloc: Global,
    name: &Ident,
    def: &TableDef,
) -> Result<List<Name>, AllocError>
    ensures { IfOk result (λ names. names ≡ map (spot_file name.now def.now) (spots_of def.now)) }
{
    let mut names = List::new(alloc);
    for part in 0..part_count(def)? {
        add_files(&mut names, name, def, part)?;
    }
    Ok(names)
}

/// Adds the names of the row files of a partition.
fn add_files(
    names: &mut List<Name>,
    name: &Ident,
    def: &TableDef,
    part: u32,
) -> Result<(), AllocError>
    ensures { OnOk result (names.new ≡ names.old ++ map (spot_file name.now def.now) (spots_in def.now part)) }
{
    for sub in 0..sub_count(def, part)? {
        names.push(file_of(name, def, Spot { part, sub }))?;
    }
    Ok(())
}

/// The name of the file of a spot's rows.
fn file_of(name: &Ident, def: &TableDef, spot: Spot) -> Name
    ensures { result ≡ spot_file name.now def.now spot }
{
    match leaf(def, spot) {
        None => row_name(name, None),
        Some(leaf) => row_name(name, Some(&leaf)),
    }
}

/// How many partitions there are: an unpartitioned table is one.
fn part_count(def: &TableDef) -> Result<u32, AllocError>
    ensures { IfOk result (λ count. count ≡ spots.part_count def.now) }
{
    if is_whole(&def.by) {
        return Ok(1);
    }
    counted(def.parts.items().len())
}

/// How many subpartitions the partition has: without subpartitioning it is one.
fn sub_count(def: &TableDef, part: u32) -> Result<u32, AllocError>
    ensures { IfOk result (λ count. count ≡ spots.sub_count def.now part) }
{
    if is_whole(&def.sub) {
        return Ok(1);
    }
    counted(subs_at(def, part as usize).len())
}

/// The names of the subpartitions of the partition at a position.
fn subs_at(def: &TableDef, part: usize) -> &[Ident]
    ensures { result.now ≡ subs_at def.now.parts part }
{
    match def.parts.items().get(part) {
        Some(own) => own.subs.items(),
        None => &[],
    }
}

/// Whether it is no partitioning.
fn is_whole(by: &PartBy) -> bool
    ensures { result ≡ checks.is_whole by.now }
{
    matches!(by, PartBy::Whole)
}

/// A number of items as the number of a spot.
fn counted(count: usize) -> Result<u32, AllocError>
    ensures { IfOk result (λ small. small ≡ count) }
{
    match u32::try_from(count) {
        Ok(small) => Ok(small),
        Err(_) => Err(AllocError),
    }
}
