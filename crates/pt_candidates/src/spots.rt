//! The spots whose rows are read.
ghost use Rattle.std.specs.Prelude.{◌≡◌, ◌<◌, ◌++◌, filter, IfOk, OnOk};
ghost use Rattle.pt_place.specs.Checks.{is_whole};
ghost use Rattle.pt_place.specs.Valid.{IsValid};
ghost use Rattle.pt_checks.specs.Wanted.{is_named_spot};
ghost use Rattle.pt_db.specs.Spots.{part_count, spots_in, sub_count};
ghost use Rattle.pt_candidates.specs.Read.{spots_read};

use pt_ast::{Idents, PartBy, Spot, TableDef};
use pt_place::in_set;
use pt_plain::List;
use std::alloc::{AllocError, Global};

/// Spots of a table.
pub(crate) type Spots = List<Spot>;

/// The spots whose rows are read, in the order of the definition: those that a PARTITION list names, and all without one.
pub(crate) fn spots_read(
    alloc: Global,
    def: &TableDef,
    parts: &Option<Idents>,
) -> Result<Spots, AllocError>
    requires valid { IsValid def.now }
    ensures { IfOk result (λ found. found ≡ spots_read def.now parts.now) }
{
    let mut found = Spots::new(alloc);
    for part in 0..part_count(def) {
        add_spots(def, parts, part, &mut found)?;
    }
    Ok(found)
}

/// Adds those spots of a partition that are read.
fn add_spots(
    def: &TableDef,
    parts: &Option<Idents>,
    part: u32,
    found: &mut Spots,
) -> Result<(), AllocError>
    requires valid { IsValid def.now }
    ensures { OnOk result (found.new ≡ found.old ++ filter (is_named_spot def.now parts.now) (spots_in def.now part)) }
{
    for sub in 0..sub_count(def, part) {
        let spot = Spot { part, sub };
        if is_named_spot(def, parts, spot) {
            found.push(spot)?;
        }
    }
    Ok(())
}

/// Whether a spot is one of those that a PARTITION list names, if there is one.
fn is_named_spot(def: &TableDef, parts: &Option<Idents>, spot: Spot) -> bool
    ensures { result ≡ is_named_spot def.now parts.now spot }
{
    match parts {
        Some(names) => in_set(def, names.items(), spot),
        None => in_set(def, &[], spot),
    }
}

/// How many partitions there are.
fn part_count(def: &TableDef) -> u32
    requires valid { IsValid def.now }
    ensures { result ≡ part_count def.now }
{
    if is_whole(&def.by) {
        return 1;
    }
    def.parts.items().len() as u32
}

/// How many subpartitions a partition has.
fn sub_count(def: &TableDef, part: u32) -> u32
    requires valid { IsValid def.now }
    ensures { result ≡ sub_count def.now part }
{
    if is_whole(&def.sub) {
        return 1;
    }
    match def.parts.items().get(part as usize) {
        Some(own) => own.subs.items().len() as u32,
        None => 0,
    }
}

fn is_whole(by: &PartBy) -> bool
    ensures { result ≡ is_whole by.now }
{
    matches!(by, PartBy::Whole)
}
