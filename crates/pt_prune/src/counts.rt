//! How many parts there are.
ghost use Rattle.std.specs.Prelude.{◌≡◌};
ghost use Rattle.pt_db.specs.Spots.{part_count, sub_count};
ghost use Rattle.pt_place.specs.Checks.{is_whole};
ghost use Rattle.pt_place.specs.Valid.{IsValid};

use pt_ast::{PartBy, TableDef};

/// How many partitions there are.
pub(crate) fn part_count(def: &TableDef) -> u32
    requires valid { IsValid def.now }
    ensures { result ≡ part_count def.now }
{
    if is_whole(&def.by) {
        return 1;
    }
    def.parts.items().len() as u32
}

/// How many subpartitions a partition has.
pub(crate) fn sub_count(def: &TableDef, part: u32) -> u32
    requires valid { IsValid def.now }
    ensures { result ≡ sub_count def.now part }
{
    if is_whole(&def.sub) {
        return 1;
    }
    match def.parts.items().get(part as usize) {
        Some(own) => own.subs.items().len() as u32,
        None => 0,
    }
}

fn is_whole(by: &PartBy) -> bool
    ensures { result ≡ is_whole by.now }
{
    matches!(by, PartBy::Whole)
}
