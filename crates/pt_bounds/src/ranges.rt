ghost use Rattle.std.specs.Prelude.{◌≡◌, ◌<◌, length, map};
ghost use Rattle.std.specs.List.{list_all, position};
ghost use Rattle.pt_ast.specs.Bounds.{is_max};
ghost use Rattle.pt_ast.specs.Ranges.{bound_of, is_above, is_early_max, is_low, range_fault, range_part};
ghost use Rattle.pt_bounds.specs.Found.{range_found};
ghost use Rattle.pt_bounds.specs.Sought.{items_of};

use crate::Probe;
use crate::compare::{Sought, tuple_cmp};
use pt_ast::{Bound, PartDef, Parts};
use std::marker::Model;

/// The partitions of a table by RANGE or RANGE COLUMNS. Contracts see the list of them.
#[derive(Drop)]
pub struct Ranges<'a> {
    parts: &'a [PartDef],
}

impl<'a> Model for Ranges<'a> {
    ghost use Rattle.std.specs.Prelude.{List as Listed};
    ghost use Rattle.std.specs.Coded.{coded_list};
    ghost use Rattle.pt_ast.specs.declared.table.PartDef.{PartDef as Part};
    ghost use Rattle.pt_ast.specs.contracts.table.PartDef as part;

    ghost Value = { Listed Part };

    ghost coded = { coded_list part.the_row.coded };

    ghost view = { λ ranges. ranges.parts.now };
}

impl<'a> Ranges<'a> {
    /// These partitions, each with one bound.
    pub fn of(parts: &'a Parts) -> Ranges<'a>
        ensures { result ≡ parts.now }
    {
        Ranges {
            parts: parts.items(),
        }
    }

    /// The first position with a fault, and its code: 31 where MAXVALUE stands in all columns and isn't the last, and 30 where the
    /// bound isn't above the one before.
    pub fn check(&self) -> Option<(usize, u8)>
        ensures { result ≡ range_fault self.now }
    {
        first_fault(self.parts)
    }

    /// The position of the partition that the probe belongs to. It searches by halves.
    pub fn find_range(&self, probe: &Probe) -> Option<usize>
        requires { range_fault self.now ≡ None }
        ensures { result ≡ range_found self.now probe.now }
    {
        match *probe {
            Probe::Value(None) => first(self.parts),
            _ => first_above(self.parts, Sought::of(probe)),
        }
    }
}

fn first(parts: &[PartDef]) -> Option<usize>
    ensures { result ≡ range_part parts.now None }
{
    if parts.is_empty() { None } else { Some(0) }
}

/// By halves, since the bounds rise.
fn first_above(parts: &[PartDef], sought: Sought) -> Option<usize>
    requires { range_fault parts.now ≡ None }
    ensures { result ≡ position (is_above (items_of sought.entry)) parts.now }
{
    let at = parts.partition_point(|part| !tuple_cmp(bound_of(part), sought).is_gt());
    if at < parts.len() { Some(at) } else { None }
}

fn first_fault(parts: &[PartDef]) -> Option<(usize, u8)>
    ensures { result ≡ range_fault parts.now }
{
    for at in 0..parts.len() {
        if is_early_max(parts, at) {
            return Some((at, 31));
        }
        if is_low(parts, at) {
            return Some((at, 30));
        }
    }
    None
}

/// Whether MAXVALUE stands in all columns, and not last.
fn is_early_max(parts: &[PartDef], at: usize) -> bool
    requires { at < length parts.now }
    ensures { result ≡ is_early_max (map bound_of parts.now) at }
{
    is_all_max(bound_of(&parts[at])) && at + 1 < parts.len()
}

/// Whether the bound isn't above the one before.
fn is_low(parts: &[PartDef], at: usize) -> bool
    requires { at < length parts.now }
    ensures { result ≡ is_low (map bound_of parts.now) at }
{
    if at == 0 {
        return false;
    }
    let last = Sought::Tuple(bound_of(&parts[at - 1]));
    !tuple_cmp(bound_of(&parts[at]), last).is_gt()
}

/// The bound of a range: it has this one tuple.
fn bound_of(part: &PartDef) -> &[Bound]
    ensures { result.now ≡ bound_of part.now }
{
    match part.bounds.items() {
        [tuple, ..] => tuple.items(),
        [] => &[],
    }
}

fn is_all_max(tuple: &[Bound]) -> bool
    ensures { result ≡ list_all is_max tuple.now }
{
    tuple.iter().all(|bound| matches!(bound, Bound::Max))
}
