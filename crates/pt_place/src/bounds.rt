ghost use Rattle.std.specs.Prelude.{◌≡◌, ◌<◌, length};
ghost use Rattle.pt_ast.specs.Lists.{list_fault};
ghost use Rattle.pt_ast.specs.Ranges.{range_fault};
ghost use Rattle.pt_place.specs.Checks.{bad_bounds, of_list_fault, of_range_fault, part_name_at};

use pt_ast::{PartBy, Parts, Refusal, TableDef};
use pt_bounds::{Lists, Ranges};
use pt_value::Ident;

/// The first position with a bound or a list value that may not stand there.
pub(crate) fn bad_bounds(def: &TableDef) -> Option<Refusal>
    ensures { result ≡ bad_bounds def.now.by def.now.parts }
{
    match &def.by {
        PartBy::Range(_) => bad_ranges(&def.parts),
        PartBy::RangeColumns(_) => bad_ranges(&def.parts),
        PartBy::List(_) => bad_lists(&def.parts),
        PartBy::ListColumns(_) => bad_lists(&def.parts),
        PartBy::Whole => None,
        PartBy::Hash(_, _) => None,
        PartBy::Key(_, _) => None,
    }
}

fn bad_ranges(parts: &Parts) -> Option<Refusal>
    ensures { result ≡ of_range_fault parts.now (range_fault parts.now) }
{
    match Ranges::of(parts).check() {
        Some(fault) => Some(of_fault(parts, fault)),
        None => None,
    }
}

/// A position and its code, 31 or 30.
fn of_fault(parts: &Parts, fault: (usize, u8)) -> Refusal
    requires { fault.0 < length parts.now }
    ensures { Some result ≡ of_range_fault parts.now (Some fault) }
{
    let name = part_name(parts, fault.0);
    if fault.1 == 31 {
        Refusal::MaxvalueNotLast(name)
    } else {
        Refusal::NotIncreasing(name)
    }
}

fn bad_lists(parts: &Parts) -> Option<Refusal>
    ensures { result ≡ of_list_fault parts.now (list_fault parts.now) }
{
    match Lists::of(parts).check() {
        Some(at) => Some(Refusal::ValueTwice(part_name(parts, at))),
        None => None,
    }
}

fn part_name(parts: &Parts, at: usize) -> Ident
    requires { at < length parts.now }
    ensures { result ≡ part_name_at parts.now at }
{
    parts.items()[at].name
}
