ghost use Rattle.std.specs.Prelude.{◌≡◌, ◌*◌, unsigned_abs};
ghost use Rattle.std.specs.Option.{option_map_or};
ghost use Rattle.pt_place.specs.Checks.{told};
ghost use Rattle.pt_written.specs.Complete.{defined, is_other_count, is_other_subs, is_without_written, needs_parts, other_written_subs};
ghost use Rattle.pt_place.specs.First.{first_in};
ghost use Rattle.pt_written.specs.Reading.{bad_written_counts};
ghost use Rattle.pt_written.specs.WrittenParts.{first_defined, one_at_least, part_count, sub_count, subs_defined, subs_stated};

use pt_ast::{MainSpec, PartItem, PartItems, PartSpec, Refusal, SubSpec};
use pt_place::too_many;
use pt_value::Ident;

/// How many partitions and subpartitions there would be, and whether each defines as many as it should. It takes no memory.
pub fn bad_written_counts(table: &Ident, spec: &PartSpec) -> Option<Refusal>
    ensures { result ≡ bad_written_counts table.now spec.now }
{
    if is_without_written(spec) {
        return Some(Refusal::NoPartitions(*table));
    }
    if let Some(refusal) = too_many(leaf_count(spec)) {
        return Some(refusal);
    }
    other_subs(spec, defined(spec))
}

/// The partitions that are written: none are where their names are made. It takes no memory.
pub fn defined(spec: &PartSpec) -> &[PartItem]
    ensures { result.now ≡ defined spec.now }
{
    match &spec.parts {
        Some(parts) => parts.items(),
        None => &[],
    }
}

/// A number of 0, no definitions where they are needed, or another number than theirs.
fn is_without_written(spec: &PartSpec) -> bool
    ensures { result ≡ is_without_written spec.now }
{
    part_count(spec) == 0
        || sub_count(spec) == 0
        || needs_parts(&spec.main) && spec.parts.is_none()
        || is_other_count(spec.count, &spec.parts)
}

/// How many partitions: those that are defined, else the number after PARTITIONS, else one. It takes no
/// memory.
pub fn part_count(spec: &PartSpec) -> u128
    ensures { result ≡ part_count spec.now }
{
    match &spec.parts {
        Some(parts) => parts.items().len() as u128,
        None => stated(spec.count),
    }
}

fn stated(count: Option<i128>) -> u128
    ensures { result ≡ option_map_or unsigned_abs count 1 }
{
    match count {
        Some(count) => count.unsigned_abs(),
        None => 1,
    }
}

/// How many subpartitions each partition has: the number after SUBPARTITIONS, else as many as the first one defines, else one.
/// It takes no memory.
pub fn sub_count(spec: &PartSpec) -> u128
    ensures { result ≡ sub_count spec.now }
{
    match subs_stated(&spec.sub) {
        Some(count) => count,
        None => one_at_least(first_defined(&spec.parts) as u128),
    }
}

fn subs_stated(sub: &Option<SubSpec>) -> Option<u128>
    ensures { result ≡ subs_stated sub.now }
{
    match sub {
        Some(own) => match own.count {
            Some(count) => Some(count.unsigned_abs()),
            None => None,
        },
        None => None,
    }
}

fn one_at_least(count: u128) -> u128
    ensures { result ≡ one_at_least count }
{
    if count == 0 {
        return 1;
    }
    count
}

/// How many subpartitions the first partition defines.
fn first_defined(parts: &Option<PartItems>) -> usize
    ensures { result ≡ first_defined parts.now }
{
    match parts {
        Some(parts) => match parts.items() {
            [part, ..] => subs_defined(part),
            [] => 0,
        },
        None => 0,
    }
}

fn subs_defined(part: &PartItem) -> usize
    ensures { result ≡ subs_defined part.now }
{
    match &part.subs {
        Some(names) => names.items().len(),
        None => 0,
    }
}

/// RANGE and LIST need definitions.
fn needs_parts(main: &MainSpec) -> bool
    ensures { result ≡ needs_parts main.now }
{
    match main {
        MainSpec::Hash(_) => false,
        _ => true,
    }
}

/// Whether the number after PARTITIONS isn't that of the definitions.
fn is_other_count(count: Option<i128>, parts: &Option<PartItems>) -> bool
    ensures { result ≡ is_other_count count parts.now }
{
    match (count, parts) {
        (Some(count), Some(parts)) => count.unsigned_abs() != parts.items().len() as u128,
        _ => false,
    }
}

/// How many leaves the partitions have, cut at the greatest number of 64 bits.
fn leaf_count(spec: &PartSpec) -> u64
    ensures { result ≡ told (part_count spec.now * sub_count spec.now) }
{
    told(part_count(spec).saturating_mul(sub_count(spec)))
}

fn told(count: u128) -> u64
    ensures { result ≡ told count }
{
    count.min(18_446_744_073_709_551_615) as u64
}

/// A partition that defines another number of subpartitions than it should.
fn other_subs(spec: &PartSpec, parts: &[PartItem]) -> Option<Refusal>
    ensures { result ≡ first_in (other_written_subs spec.now) parts.now }
{
    for part in parts {
        if is_other_subs(spec, subs_defined(part)) {
            return Some(Refusal::SubpartitionsDiffer(part.name));
        }
    }
    None
}

fn is_other_subs(spec: &PartSpec, count: usize) -> bool
    ensures { result ≡ is_other_subs spec.now.sub (first_defined spec.now.parts) (sub_count spec.now) count }
{
    match &spec.sub {
        Some(_) => {
            count != first_defined(&spec.parts) || count != 0 && count as u128 != sub_count(spec)
        }
        None => count != 0,
    }
}
