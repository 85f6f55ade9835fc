ghost use Rattle.std.specs.Prelude.{◌≡◌, ◌++◌};
ghost use Rattle.std.specs.List.{list_any, position};
ghost use Rattle.pt_ast.specs.Lists.{entries, has_tuple, list_fault, repeats, stands_among};
ghost use Rattle.pt_bounds.specs.Found.{list_found};
ghost use Rattle.pt_bounds.specs.Sought.{items_of};

use crate::Probe;
use crate::compare::{Sought, tuple_cmp};
use pt_ast::{BoundTuple, PartDef, Parts};
use std::marker::Model;

/// The partitions of a table by LIST or LIST COLUMNS. Contracts see the list of them.
#[derive(Drop)]
pub struct Lists<'a> {
    parts: &'a [PartDef],
}

impl<'a> Model for Lists<'a> {
    ghost use Rattle.std.specs.Prelude.{List as Listed};
    ghost use Rattle.std.specs.Coded.{coded_list};
    ghost use Rattle.pt_ast.specs.declared.table.PartDef.{PartDef as Part};
    ghost use Rattle.pt_ast.specs.contracts.table.PartDef as part;

    ghost Value = { Listed Part };

    ghost coded = { coded_list part.the_row.coded };

    ghost view = { λ lists. lists.parts.now };
}

impl<'a> Lists<'a> {
    /// These partitions.
    pub fn of(parts: &'a Parts) -> Lists<'a>
        ensures { result ≡ parts.now }
    {
        Lists {
            parts: parts.items(),
        }
    }

    /// The first position with a value that stands already, in an earlier list or earlier in its own.
    pub fn check(&self) -> Option<usize>
        ensures { result ≡ list_fault self.now }
    {
        first_fault(self.parts)
    }

    /// The position of the first partition whose list has the probe.
    pub fn find_list(&self, probe: &Probe) -> Option<usize>
        ensures { result ≡ list_found self.now probe.now }
    {
        first_with(self.parts, Sought::of(probe))
    }
}

fn first_with(parts: &[PartDef], sought: Sought) -> Option<usize>
    ensures { result ≡ position (has_tuple (items_of sought.entry)) parts.now }
{
    parts
        .iter()
        .position(|part| stands_among(part.bounds.items(), sought))
}

fn first_fault(parts: &[PartDef]) -> Option<usize>
    ensures { result ≡ list_fault parts.now }
{
    for at in 0..parts.len() {
        if repeats(&parts[..at], parts[at].bounds.items()) {
            return Some(at);
        }
    }
    None
}

/// Whether some tuple of a list stands before it, in the earlier partitions or in the list itself.
fn repeats(earlier: &[PartDef], tuples: &[BoundTuple]) -> bool
    ensures { result ≡ repeats (entries earlier.now) tuples.now }
{
    for (at, tuple) in tuples.iter().enumerate() {
        if stands_before(earlier, &tuples[..at], Sought::Tuple(tuple.items())) {
            return true;
        }
    }
    false
}

fn stands_before(earlier: &[PartDef], own: &[BoundTuple], sought: Sought) -> bool
    ensures { result ≡ stands_among (entries earlier.now ++ own.now) (items_of sought.entry) }
{
    stands_in(earlier, sought) || stands_among(own, sought)
}

fn stands_in(parts: &[PartDef], sought: Sought) -> bool
    ensures { result ≡ list_any (has_tuple (items_of sought.entry)) parts.now }
{
    parts
        .iter()
        .any(|part| stands_among(part.bounds.items(), sought))
}

fn stands_among(tuples: &[BoundTuple], sought: Sought) -> bool
    ensures { result ≡ stands_among tuples.now (items_of sought.entry) }
{
    tuples
        .iter()
        .any(|tuple| tuple_cmp(tuple.items(), sought).is_eq())
}
