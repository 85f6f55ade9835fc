//! How many spots there are, and where each stands among them.
ghost use Rattle.std.specs.Prelude.{◌≡◌, ◌<◌};
ghost use Rattle.pt_place.specs.Checks.{is_whole};
ghost use Rattle.pt_place.specs.Valid.{IsValid};
ghost use Rattle.pt_db.specs.Spots.{IsSpotOf, part_count, sub_count};
ghost use Rattle.pt_spread.specs.Spread.{number_of};

use pt_ast::{PartBy, Spot, TableDef};

/// How many partitions there are.
pub(crate) fn part_count(def: &TableDef) -> u32
    requires valid { IsValid def.now }
    ensures { result ≡ part_count def.now }
{
    if is_whole(&def.by) {
        return 1;
    }
    def.parts.items().len() as u32
}

/// How many subpartitions a partition has.
pub(crate) fn sub_count(def: &TableDef, part: u32) -> u32
    requires valid { IsValid def.now }
    ensures { result ≡ sub_count def.now part }
{
    if is_whole(&def.sub) {
        return 1;
    }
    match def.parts.items().get(part as usize) {
        Some(own) => own.subs.items().len() as u32,
        None => 0,
    }
}

/// The number of a spot among those of its definition, from 0.
pub(crate) fn number_of(def: &TableDef, spot: Spot) -> usize
    requires valid { IsValid def.now }
    requires of { IsSpotOf def.now spot }
    ensures { result ≡ number_of def.now spot }
{
    spot.part as usize * sub_count(def, spot.part) as usize + spot.sub as usize
}

fn is_whole(by: &PartBy) -> bool
    ensures { result ≡ is_whole by.now }
{
    matches!(by, PartBy::Whole)
}
