ghost use Rattle.std.specs.Prelude.{◌≡◌};
ghost use Rattle.std.specs.List.{list_any};
ghost use Rattle.std.specs.Option.{option_to_list};
ghost use Rattle.pt_place.specs.Names.{is_among};
ghost use Rattle.pt_place.specs.Place.{is_in_set, leaf_of, part_name, sub_name, subs_at};

use crate::kinds::is_whole;
use crate::names::is_among;
use pt_ast::{Spot, TableDef};
use pt_value::Ident;

/// The name of the subpartition, else of the partition, and `None` for an unpartitioned table and a spot that isn't one of the
/// definition's. It takes no memory.
pub fn leaf(def: &TableDef, spot: Spot) -> Option<Ident>
    ensures { result ≡ leaf_of def.now spot }
{
    if is_whole(&def.sub) {
        part_name(def, spot)
    } else {
        sub_name(def, spot)
    }
}

/// Whether the spot's partition or subpartition is among those named, ignoring case; where none is named every spot is. It takes no
/// memory.
pub fn in_set(def: &TableDef, names: &[Ident], spot: Spot) -> bool
    ensures { result ≡ is_in_set def.now names.now spot }
{
    names.is_empty()
        || is_some_among(part_name(def, spot), names)
        || is_some_among(leaf(def, spot), names)
}

fn part_name(def: &TableDef, spot: Spot) -> Option<Ident>
    ensures { result ≡ part_name def.now spot }
{
    def.parts
        .items()
        .get(spot.part as usize)
        .map(|part| part.name)
}

fn sub_name(def: &TableDef, spot: Spot) -> Option<Ident>
    ensures { result ≡ sub_name def.now spot }
{
    subs_at(def, spot.part as usize)
        .get(spot.sub as usize)
        .copied()
}

/// The names of the subpartitions of the partition at a position.
pub(crate) fn subs_at(def: &TableDef, part: usize) -> &[Ident]
    ensures { result.now ≡ subs_at def.now.parts part }
{
    match def.parts.items().get(part) {
        Some(own) => own.subs.items(),
        None => &[],
    }
}

/// Whether a name, if there is one, is one of these.
fn is_some_among(name: Option<Ident>, names: &[Ident]) -> bool
    ensures { result ≡ list_any (λ own. is_among own names.now) (option_to_list name) }
{
    match name {
        Some(name) => is_among(&name, names),
        None => false,
    }
}
