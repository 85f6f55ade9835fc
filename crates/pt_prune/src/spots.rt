//! The spots that both levels keep and a PARTITION list names.
ghost use Rattle.std.specs.Prelude.{◌≡◌, ◌++◌, [], false, filter, slice_index_or, unwrap_or, IfOk, IfSome, IsOk, OnOk};
ghost use Rattle.pt_ast.specs.StorableDef.{IsStorableDef};
ghost use Rattle.pt_db.specs.Spots.{spots_in, spots_of};
ghost use Rattle.pt_expr.specs.FoundCond.{checked_cond};
ghost use Rattle.pt_place.specs.Valid.{IsValid};
ghost use Rattle.pt_reach.specs.Kept.{AreKept};
ghost use Rattle.pt_prune.specs.Marks.{keeps};

use crate::counts::{part_count, sub_count};
use crate::levels::{part_marks, sub_marks};
use pt_ast::{Cond, Idents, Spot, TableDef};
use pt_place::in_set;
use pt_value::Ident;
use std::alloc::{AllocError, Global};

/// The spots, in the order of the definition, that a PARTITION list names, if there is one, and where a row may stand that meets the
/// condition: exactly those where both levels keep their part. An unpartitioned table has its one spot.
pub fn kept(
    alloc: Global,
    def: &TableDef,
    names: &Option<Idents>,
    cond: &Option<Cond>,
) -> Result<Vec<Spot>, AllocError>
    requires storable { IsStorableDef def.now }
    requires valid { IsValid def.now }
    requires checked { IfSome cond.now (λ own. IsOk (checked_cond def.now.columns own)) }
    ensures { IfOk result (λ spots. AreKept def.now (unwrap_or names.now []) cond.now spots.items) }
{
    let parts = part_marks(alloc, def, cond)?;
    let subs = sub_marks(alloc, def, cond)?;
    let own = listed(names);
    let spots = marked_spots(alloc, def, own, parts.as_slice(), subs.as_slice())?;
    Ok(spots)
}

/// The names of a PARTITION list, none where there is no list.
fn listed(names: &Option<Idents>) -> &[Ident]
    ensures { result.now ≡ unwrap_or names.now [] }
{
    match names {
        Some(own) => own.items(),
        None => &[],
    }
}

/// The spots whose two marks are true, of those named.
fn marked_spots(
    alloc: Global,
    def: &TableDef,
    names: &[Ident],
    parts: &[bool],
    subs: &[bool],
) -> Result<Vec<Spot>, AllocError>
    requires valid { IsValid def.now }
    ensures { IfOk result (λ found. found.items ≡ filter (keeps def.now names.now parts.now subs.now) (spots_of def.now)) }
{
    let mut found = Vec::new(alloc);
    for part in 0..part_count(def) {
        add_spots(def, names, parts, subs, part, &mut found)?;
    }
    Ok(found)
}

/// Adds those of a partition.
fn add_spots(
    def: &TableDef,
    names: &[Ident],
    parts: &[bool],
    subs: &[bool],
    part: u32,
    found: &mut Vec<Spot>,
) -> Result<(), AllocError>
    requires valid { IsValid def.now }
    ensures { OnOk result (found.new.items ≡ found.old.items ++ filter (keeps def.now names.now parts.now subs.now) (spots_in def.now part)) }
{
    for sub in 0..sub_count(def, part) {
        let spot = Spot { part, sub };
        if is_kept(def, names, parts, subs, spot) {
            found.push(spot)?;
        }
    }
    Ok(())
}

/// Whether both marks of a spot are true, and it is named.
fn is_kept(def: &TableDef, names: &[Ident], parts: &[bool], subs: &[bool], spot: Spot) -> bool
    ensures { result ≡ keeps def.now names.now parts.now subs.now spot }
{
    is_marked(parts, spot.part) && is_marked(subs, spot.sub) && in_set(def, names, spot)
}

fn is_marked(marks: &[bool], at: u32) -> bool
    ensures { result ≡ slice_index_or marks.now at false }
{
    match marks.get(at as usize) {
        Some(mark) => *mark,
        None => false,
    }
}
