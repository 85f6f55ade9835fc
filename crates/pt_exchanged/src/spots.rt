ghost use Rattle.std.specs.Prelude.{◌≡◌, find};
ghost use Rattle.pt_place.specs.Checks.{is_whole};
ghost use Rattle.pt_place.specs.Valid.{IsValid};
ghost use Rattle.pt_db.specs.Spots.{part_count, spots_in, sub_count};
ghost use Rattle.pt_exchanged.specs.Exchanged.{is_called, spot_called};

use pt_ast::{PartBy, Spot, TableDef};
use pt_place::{leaf, same};
use pt_value::Ident;

/// The spot of this name: a subpartition, or a partition that has none.
pub(crate) fn spot_called(def: &TableDef, name: &Ident) -> Option<Spot>
    requires valid { IsValid def.now }
    ensures { result ≡ spot_called def.now name.now }
{
    for part in 0..part_count(def) {
        if let Some(spot) = spot_in_part(def, name, part) {
            return Some(spot);
        }
    }
    None
}

/// The spot of this name in a partition.
fn spot_in_part(def: &TableDef, name: &Ident, part: u32) -> Option<Spot>
    requires valid { IsValid def.now }
    ensures { result ≡ find (is_called def.now name.now) (spots_in def.now part) }
{
    for sub in 0..sub_count(def, part) {
        let spot = Spot { part, sub };
        if is_called(def, name, spot) {
            return Some(spot);
        }
    }
    None
}

/// Whether the spot's own name is this.
fn is_called(def: &TableDef, name: &Ident, spot: Spot) -> bool
    ensures { result ≡ is_called def.now name.now spot }
{
    match leaf(def, spot) {
        Some(own) => same(name, &own),
        None => false,
    }
}

/// How many partitions there are.
fn part_count(def: &TableDef) -> u32
    requires valid { IsValid def.now }
    ensures { result ≡ part_count def.now }
{
    if is_whole(&def.by) {
        return 1;
    }
    def.parts.items().len() as u32
}

/// How many subpartitions a partition has.
fn sub_count(def: &TableDef, part: u32) -> u32
    requires valid { IsValid def.now }
    ensures { result ≡ sub_count def.now part }
{
    if is_whole(&def.sub) {
        return 1;
    }
    match def.parts.items().get(part as usize) {
        Some(own) => own.subs.items().len() as u32,
        None => 0,
    }
}

/// Whether rows aren't partitioned by it.
pub(crate) fn is_whole(by: &PartBy) -> bool
    ensures { result ≡ is_whole by.now }
{
    matches!(by, PartBy::Whole)
}
