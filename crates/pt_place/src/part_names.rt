ghost use Rattle.std.specs.Prelude.{◌≡◌, ◌∷◌, ◌++◌, []};
ghost use Rattle.pt_place.specs.Checks.{name_twice, part_names};
ghost use Rattle.pt_place.specs.First.{in_turn, in_turn_from};
ghost use Rattle.pt_place.specs.Names.{is_among};

use crate::names::{is_among, same};
use pt_ast::{PartDef, Refusal};
use pt_value::Ident;

/// The first name of a partition or a subpartition that stands before.
pub(crate) fn repeated_name(parts: &[PartDef]) -> Option<Refusal>
    ensures { result ≡ in_turn name_twice (part_names parts.now) }
{
    for (at, part) in parts.iter().enumerate() {
        if let Some(refusal) = repeated_in(&parts[..at], part) {
            return Some(refusal);
        }
    }
    None
}

/// The first name of a partition that stands before: in earlier partitions, or in it.
fn repeated_in(earlier: &[PartDef], part: &PartDef) -> Option<Refusal>
    ensures { result ≡ in_turn_from name_twice (part_names earlier.now) (part.now.name ∷ part.now.subs) }
{
    if is_part_name(&part.name, earlier) {
        return Some(Refusal::DuplicatePartition(part.name));
    }
    repeated_sub(earlier, &part.name, part.subs.items())
}

/// The first name of a subpartition that stands before.
fn repeated_sub(earlier: &[PartDef], own: &Ident, subs: &[Ident]) -> Option<Refusal>
    ensures { result ≡ in_turn_from name_twice (part_names earlier.now ++ own.now ∷ []) subs.now }
{
    for (at, sub) in subs.iter().enumerate() {
        if is_taken(sub, earlier, own, &subs[..at]) {
            return Some(Refusal::DuplicatePartition(*sub));
        }
    }
    None
}

fn is_taken(name: &Ident, earlier: &[PartDef], own: &Ident, subs: &[Ident]) -> bool
    ensures { result ≡ is_among name.now (part_names earlier.now ++ own.now ∷ [] ++ subs.now) }
{
    is_part_name(name, earlier) || same(name, own) || is_among(name, subs)
}

/// Whether a name is that of one of these partitions, or of a subpartition.
fn is_part_name(name: &Ident, parts: &[PartDef]) -> bool
    ensures { result ≡ is_among name.now (part_names parts.now) }
{
    for part in parts {
        if is_own_name(name, part) {
            return true;
        }
    }
    false
}

fn is_own_name(name: &Ident, part: &PartDef) -> bool
    ensures { result ≡ is_among name.now (part.now.name ∷ part.now.subs) }
{
    same(name, &part.name) || is_among(name, part.subs.items())
}
