ghost use Rattle.std.specs.Prelude.{◌≡◌, ◌*◌};
ghost use Rattle.std.specs.Option.{option_map_or};
ghost use Rattle.pt_ast.specs.declared.written.PartItem.{PartItem as Item};
ghost use Rattle.pt_place.specs.Checks.{is_whole, told};
ghost use Rattle.pt_place.specs.First.{first_in};
ghost use Rattle.pt_place.specs.Valid.{first_subs};
ghost use Rattle.pt_regrouped.specs.NewParts.{bad_kind, is_other_number, leaves_each, other_new_subs};
ghost use Rattle.pt_regrouped.specs.Steps.{bad_new_counts};
ghost use Rattle.pt_written.specs.WrittenParts.{first_defined, subs_defined};

use pt_ast::{PartBy, PartDef, PartItem, Refusal, TableDef};
use pt_place::too_many;
use pt_value::Ident;

/// Partitions are defined one by one only under RANGE and LIST.
pub(crate) fn bad_kind(table: &Ident, by: &PartBy) -> Option<Refusal>
    ensures { result ≡ bad_kind table.now by.now }
{
    match by {
        PartBy::Whole => Some(Refusal::NotPartitioned(*table)),
        PartBy::Hash(_, _) => Some(Refusal::OnlyRangeList(*table)),
        PartBy::Key(_, _) => Some(Refusal::OnlyRangeList(*table)),
        PartBy::Range(_) => None,
        PartBy::List(_) => None,
        PartBy::RangeColumns(_) => None,
        PartBy::ListColumns(_) => None,
    }
}

/// How many partitions and subpartitions there would be, and whether each new one defines as many as it should.
pub(crate) fn bad_new_counts(
    def: &TableDef,
    front: &[PartDef],
    items: &[PartItem],
    behind: &[PartDef],
) -> Option<Refusal>
    ensures { result ≡ bad_new_counts def.now front.now items.now behind.now }
{
    let count = front.len() as u128 + items.len() as u128 + behind.len() as u128;
    if let Some(refusal) = too_many(leaf_count(def, count)) {
        return Some(refusal);
    }
    all_other_new_subs(def, items)
}

/// How many leaves so many partitions have, cut at the greatest number of 64 bits.
fn leaf_count(def: &TableDef, count: u128) -> u64
    ensures { result ≡ told (count * leaves_each def.now) }
{
    told(count.saturating_mul(leaves_each(def)))
}

fn told(count: u128) -> u64
    ensures { result ≡ told count }
{
    count.min(18_446_744_073_709_551_615) as u64
}

/// How many leaves each partition of the table has.
fn leaves_each(def: &TableDef) -> u128
    ensures { result ≡ leaves_each def.now }
{
    if is_whole(&def.sub) {
        return 1;
    }
    first_subs(def.parts.items()) as u128
}

pub(crate) fn is_whole(by: &PartBy) -> bool
    ensures { result ≡ is_whole by.now }
{
    matches!(by, PartBy::Whole)
}

/// How many subpartitions the first partition has.
pub(crate) fn first_subs(parts: &[PartDef]) -> usize
    ensures { result ≡ first_subs parts.now }
{
    match parts {
        [part, ..] => part.subs.items().len(),
        [] => 0,
    }
}

/// A new partition that defines another number of subpartitions than it should.
fn all_other_new_subs(def: &TableDef, items: &[PartItem]) -> Option<Refusal>
    ensures { result ≡ first_in (other_new_subs def.now items.now) items.now }
{
    for item in items {
        if is_other_number(def, first_defined(items), subs_defined(item)) {
            return Some(Refusal::SubpartitionsDiffer(item.name));
        }
    }
    None
}

fn is_other_number(def: &TableDef, first: usize, count: usize) -> bool
    ensures { result ≡ is_other_number def.now first count }
{
    if is_whole(&def.sub) {
        return count != 0;
    }
    count != first || count != 0 && count != first_subs(def.parts.items())
}

/// How many subpartitions the first new partition defines.
fn first_defined(items: &[PartItem]) -> usize
    ensures { result ≡ first_defined (Some items.now) }
{
    match items {
        [item, ..] => subs_defined(item),
        [] => 0,
    }
}

fn subs_defined(item: &PartItem) -> usize
    ensures { result ≡ subs_defined item.now }
{
    match &item.subs {
        Some(names) => names.items().len(),
        None => 0,
    }
}
