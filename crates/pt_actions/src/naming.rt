ghost use Rattle.std.specs.Prelude.{◌≡◌, IfOk};
ghost use Rattle.pt_actions.specs.Named.{is_by_values, main_names, no_part};
ghost use Rattle.pt_place.specs.Checks.{is_by_number, is_whole};
ghost use Rattle.pt_place.specs.First.{first_in};

use pt_ast::{PartBy, PartDef, Refusal};
use pt_distinct::Names;
use pt_value::Ident;
use std::alloc::{AllocError, Global};

/// Whether there are no partitions.
pub(crate) fn is_whole(by: &PartBy) -> bool
    ensures { result ≡ is_whole by.now }
{
    matches!(by, PartBy::Whole)
}

/// Whether rows are partitioned by HASH or KEY.
pub(crate) fn is_by_number(by: &PartBy) -> bool
    ensures { result ≡ is_by_number by.now }
{
    matches!(by, PartBy::Hash(_, _) | PartBy::Key(_, _))
}

/// Whether rows are partitioned by RANGE or LIST, with or without COLUMNS.
pub(crate) fn is_by_values(by: &PartBy) -> bool
    ensures { result ≡ is_by_values by.now }
{
    match by {
        PartBy::Range(_) => true,
        PartBy::List(_) => true,
        PartBy::RangeColumns(_) => true,
        PartBy::ListColumns(_) => true,
        PartBy::Whole => false,
        PartBy::Hash(_, _) => false,
        PartBy::Key(_, _) => false,
    }
}

/// The first of these names that no partition has.
pub(crate) fn unknown_part(
    alloc: Global,
    names: &[Ident],
    parts: &[PartDef],
) -> Result<Option<Refusal>, AllocError>
    ensures { IfOk result (λ refusal. refusal ≡ first_in (no_part parts.now) names.now) }
{
    let known = main_names(alloc, parts)?;
    for name in names {
        if !known.has(name) {
            return Ok(Some(Refusal::UnknownPartition(*name)));
        }
    }
    Ok(None)
}

/// The names of partitions, without their subpartitions'.
fn main_names(alloc: Global, parts: &[PartDef]) -> Result<Names, AllocError>
    ensures { IfOk result (λ names. names ≡ main_names parts.now) }
{
    let mut names = Names::new(alloc);
    for part in parts {
        names.add(&part.name)?;
    }
    Ok(names)
}

/// These names, looked up without the case of their letters.
pub(crate) fn names_among(alloc: Global, listed: &[Ident]) -> Result<Names, AllocError>
    ensures { IfOk result (λ names. names ≡ listed.now) }
{
    let mut names = Names::new(alloc);
    for name in listed {
        names.add(name)?;
    }
    Ok(names)
}
