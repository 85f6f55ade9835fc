ghost use Rattle.std.specs.Prelude.{◌≡◌, ◌*◌, ◌<◌, ◌^◌, length};
ghost use Rattle.pt_place.specs.Checks.{bad_bounds, told, too_many};
ghost use Rattle.pt_place.specs.First.{first_in};
ghost use Rattle.pt_place.specs.Valid.{bad_parts, bad_values, first_subs, is_without_parts, leaf_count, other_subs};
ghost use Rattle.pt_place.specs.Fitting.{kinds_of};

use crate::bounds::bad_bounds;
use crate::kinds::is_whole;
use crate::part_names::repeated_name;
use crate::values::bad_values;
use pt_ast::{PartBy, PartDef, Refusal, TableDef};
use pt_value::Ident;

/// How many partitions there are, then each one's VALUES, then bounds and names position by position.
pub(crate) fn bad_parts(table: &Ident, def: &TableDef) -> Option<Refusal>
    ensures { result ≡ bad_parts table.now def.now }
{
    if is_without_parts(&def.by, &def.sub, def.parts.items()) {
        return Some(Refusal::NoPartitions(*table));
    }
    if let Some(refusal) = too_many(leaf_count(&def.sub, def.parts.items())) {
        return Some(refusal);
    }
    if let Some(refusal) = other_subs(def.parts.items()) {
        return Some(refusal);
    }
    if let Some(refusal) = all_bad_values(def, def.parts.items()) {
        return Some(refusal);
    }
    if let Some(refusal) = bad_bounds(def) {
        return Some(refusal);
    }
    repeated_name(def.parts.items())
}

/// A partitioned table has partitions, and a subpartitioned one subpartitions.
fn is_without_parts(by: &PartBy, sub: &PartBy, parts: &[PartDef]) -> bool
    ensures { result ≡ is_without_parts by.now sub.now parts.now }
{
    !is_whole(by) && parts.is_empty() || !is_whole(sub) && first_subs(parts) == 0
}

/// How many subpartitions the first partition has.
fn first_subs(parts: &[PartDef]) -> usize
    ensures { result ≡ first_subs parts.now }
{
    match parts {
        [part, ..] => part.subs.items().len(),
        [] => 0,
    }
}

/// How many leaves the partitions have, cut at the greatest number.
fn leaf_count(sub: &PartBy, parts: &[PartDef]) -> u64
    ensures { result ≡ told (leaf_count sub.now parts.now) }
{
    let count = parts.len() as u64;
    if is_whole(sub) {
        return count;
    }
    count.saturating_mul(first_subs(parts) as u64)
}

/// More than 8192.
pub fn too_many(count: u64) -> Option<Refusal>
    ensures { result ≡ too_many count }
{
    if count > 8192 {
        return Some(Refusal::TooManyPartitions(count));
    }
    None
}

/// A partition that has another number of subpartitions than the first.
fn other_subs(parts: &[PartDef]) -> Option<Refusal>
    ensures { result ≡ first_in (other_subs parts.now) parts.now }
{
    let first = first_subs(parts);
    for part in parts {
        if part.subs.items().len() != first {
            return Some(Refusal::SubpartitionsDiffer(part.name));
        }
    }
    None
}

/// VALUES, partition by partition.
fn all_bad_values(def: &TableDef, parts: &[PartDef]) -> Option<Refusal>
    ensures { result ≡ first_in (bad_values (kinds_of def.now.columns def.now.by) def.now.by) parts.now }
{
    for part in parts {
        if let Some(refusal) = bad_values(def, part) {
            return Some(refusal);
        }
    }
    None
}
