//! The spots of partitions that lose their rows.
ghost use Rattle.std.specs.Prelude.{◌≡◌, filter, IfOk};
ghost use Rattle.pt_checks.specs.Wanted.{is_named_spot};
ghost use Rattle.pt_place.specs.Valid.{IsValid};
ghost use Rattle.pt_alter_parts.specs.Emptied.{emptied};

use pt_ast::{Idents, Rows, Spot, TableDef};
use pt_place::in_set;
use pt_spread::{SpotRows, spread};
use std::alloc::{AllocError, Global};

/// The spots of the partitions that are named, of all where none are, each without rows.
pub(crate) fn emptied(
    alloc: Global,
    def: &TableDef,
    parts: &Option<Idents>,
) -> Result<SpotRows, AllocError>
    requires valid { IsValid def.now }
    ensures { IfOk result (λ fresh. fresh ≡ emptied def.now parts.now) }
{
    match spread(alloc, def, Rows::new(alloc)) {
        Ok(spots) => named_of(alloc, def, parts, spots),
        Err(_) => Err(AllocError),
    }
}

/// Those of the spots that are named.
fn named_of(
    alloc: Global,
    def: &TableDef,
    parts: &Option<Idents>,
    spots: SpotRows,
) -> Result<SpotRows, AllocError>
    ensures { IfOk result (λ found. found ≡ filter (λ given. is_named_spot def.now parts.now given.0) spots) }
{
    let mut found = SpotRows::new(alloc);
    for own in spots.into_vec() {
        if is_named_spot(def, parts, own.0) {
            found.push(own)?;
        }
    }
    Ok(found)
}

/// Whether a spot is one of those that the names stand for, of all where there are none.
fn is_named_spot(def: &TableDef, parts: &Option<Idents>, spot: Spot) -> bool
    ensures { result ≡ is_named_spot def.now parts.now spot }
{
    match parts {
        Some(names) => in_set(def, names.items(), spot),
        None => in_set(def, &[], spot),
    }
}
