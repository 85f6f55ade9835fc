ghost use Rattle.std.specs.Prelude.{◌≡◌, ◌≤◌, drop, length, take, IfOk};
ghost use Rattle.std.specs.List.{list_any, position_or_len, prefix_len};
ghost use Rattle.pt_place.specs.First.{first_in};
ghost use Rattle.pt_regrouped.specs.Regrouped.{front_of, is_named, no_part, own_names, rest_of};

use pt_ast::{PartDef, Refusal};
use pt_distinct::Names;
use pt_value::Ident;
use std::alloc::{AllocError, Global};

/// The first name that is no partition's.
pub(crate) fn missing_part(
    alloc: Global,
    parts: &[PartDef],
    names: &[Ident],
) -> Result<Option<Refusal>, AllocError>
    ensures { IfOk result (λ refusal. refusal ≡ first_in (no_part (own_names parts.now)) names.now) }
{
    let known = own_names(alloc, parts)?;
    Ok(first_unknown(&known, names))
}

/// The names of partitions, without those of subpartitions.
fn own_names(alloc: Global, parts: &[PartDef]) -> Result<Names, AllocError>
    ensures { IfOk result (λ names. names ≡ own_names parts.now) }
{
    let mut names = Names::new(alloc);
    for part in parts {
        names.add(&part.name)?;
    }
    Ok(names)
}

fn first_unknown(known: &Names, names: &[Ident]) -> Option<Refusal>
    ensures { result ≡ first_in (no_part known.now) names.now }
{
    for name in names {
        if !known.has(name) {
            return Some(Refusal::UnknownPartition(*name));
        }
    }
    None
}

/// The names of a list, to be looked up.
pub(crate) fn names_listed(alloc: Global, listed: &[Ident]) -> Result<Names, AllocError>
    ensures { IfOk result (λ names. names ≡ listed.now) }
{
    let mut names = Names::new(alloc);
    for name in listed {
        names.add(name)?;
    }
    Ok(names)
}

/// The partitions before the first that is named, and those from it on.
pub(crate) fn split_front<'a>(names: &Names, parts: &'a [PartDef]) -> (&'a [PartDef], &'a [PartDef])
    ensures front { result.0.now ≡ front_of names.now parts.now }
    ensures rest { result.1.now ≡ rest_of names.now parts.now }
{
    parts.split_at(first_named(names, parts))
}

/// Those in a row that are named, and those behind them.
pub(crate) fn split_group<'a>(names: &Names, rest: &'a [PartDef]) -> (&'a [PartDef], &'a [PartDef])
    ensures group { result.0.now ≡ take (prefix_len (is_named names.now) rest.now) rest.now }
    ensures behind { result.1.now ≡ drop (prefix_len (is_named names.now) rest.now) rest.now }
{
    rest.split_at(first_unnamed(names, rest))
}

/// The position of the first partition that is named, and past the last one where there is none.
fn first_named(names: &Names, parts: &[PartDef]) -> usize
    ensures within { result ≤ length parts.now }
    ensures first { result ≡ position_or_len (is_named names.now) parts.now }
{
    for (at, part) in parts.iter().enumerate() {
        if names.has(&part.name) {
            return at;
        }
    }
    parts.len()
}

/// How many partitions are named before one that isn't.
fn first_unnamed(names: &Names, parts: &[PartDef]) -> usize
    ensures within { result ≤ length parts.now }
    ensures first { result ≡ prefix_len (is_named names.now) parts.now }
{
    for (at, part) in parts.iter().enumerate() {
        if !names.has(&part.name) {
            return at;
        }
    }
    parts.len()
}

/// Whether some partition is named.
pub(crate) fn has_named(names: &Names, parts: &[PartDef]) -> bool
    ensures { result ≡ list_any (is_named names.now) parts.now }
{
    for part in parts {
        if names.has(&part.name) {
            return true;
        }
    }
    false
}
