//! The parts of each level that a condition keeps.
ghost use Rattle.std.specs.Prelude.{◌≡◌, ℕ, ◌<◌, false, length, IfOk, IfSome, IsOk, Some};
ghost use Rattle.pt_ast.specs.StorableDef.{IsStorableDef};
ghost use Rattle.pt_db.specs.Spots.{part_count, sub_count};
ghost use Rattle.pt_expr.specs.FoundCond.{checked_cond};
ghost use Rattle.pt_place.specs.Place.{part_of};
ghost use Rattle.pt_place.specs.Valid.{IsValid};
ghost use Rattle.pt_reach.specs.Kept.{IsKeptPart, follows_all, level_column, sub_in};
ghost use Rattle.pt_followed.specs.Marks.{AreMarked};
ghost use Rattle.pt_prune.specs.Marks.{placed};
ghost use Rattle.pt_prune.specs.Placing.{CanPlace};

use crate::columns::level_column;
use crate::counts::{part_count, sub_count};
use crate::few::few_values;
use crate::follows::follows_all;
use crate::marks::{all_marked, marked};
use crate::placing::places;
use pt_ast::{Columns, Cond, PartBy, Parts, TableDef};
use pt_followed::reached_parts;
use std::alloc::{AllocError, Global};

/// A mark for each partition, true exactly where the partitioning keeps it.
pub(crate) fn part_marks(
    alloc: Global,
    def: &TableDef,
    cond: &Option<Cond>,
) -> Result<Vec<bool>, AllocError>
    requires storable { IsStorableDef def.now }
    requires valid { IsValid def.now }
    requires checked { IfSome cond.now (λ own. IsOk (checked_cond def.now.columns own)) }
    ensures { IfOk result (λ marks. AreMarked (part_count def.now) (IsKeptPart def.now.columns cond.now def.now.by (part_of def.now.columns def.now.by def.now.parts)) marks.items) }
{
    let count = part_count(def);
    let Some(at) = level_column(&def.columns, &def.by) else {
        let marks = all_marked(alloc, count as usize)?;
        return Ok(marks);
    };
    if follows_all(&def.by) {
        let marks = reached_parts(alloc, def, at, cond)?;
        return Ok(marks);
    }
    let marks = placed_marks(alloc, &def.columns, &def.by, &def.parts, count, at, cond)?;
    Ok(marks)
}

/// A mark for each subpartition number, true exactly where the subpartitioning keeps it, within each partition alike.
pub(crate) fn sub_marks(
    alloc: Global,
    def: &TableDef,
    cond: &Option<Cond>,
) -> Result<Vec<bool>, AllocError>
    requires storable { IsStorableDef def.now }
    requires valid { IsValid def.now }
    requires checked { IfSome cond.now (λ own. IsOk (checked_cond def.now.columns own)) }
    ensures { IfOk result (λ marks. (part : ℕ) → part < part_count def.now → AreMarked (sub_count def.now part) (IsKeptPart def.now.columns cond.now def.now.sub (sub_in def.now part)) marks.items) }
{
    let count = sub_count(def, 0);
    let Some(at) = level_column(&def.columns, &def.sub) else {
        let marks = all_marked(alloc, count as usize)?;
        return Ok(marks);
    };
    let marks = placed_marks(alloc, &def.columns, &def.sub, &def.parts, count, at, cond)?;
    Ok(marks)
}

/// The marks of a level that isn't followed through all values: where the values that are left are few, the parts where they are placed,
/// else all.
fn placed_marks(
    alloc: Global,
    columns: &Columns,
    by: &PartBy,
    parts: &Parts,
    count: u32,
    at: usize,
    cond: &Option<Cond>,
) -> Result<Vec<bool>, AllocError>
    requires can { CanPlace columns.now by.now parts.now count }
    requires column { level_column columns.now by.now ≡ Some at }
    requires within { at < length columns.now }
    requires other { follows_all by.now ≡ false }
    requires checked { IfSome cond.now (λ own. IsOk (checked_cond columns.now own)) }
    ensures { IfOk result (λ marks. AreMarked count (IsKeptPart columns.now cond.now by.now (placed columns.now by.now parts.now count)) marks.items) }
{
    let Some(values) = few_values(alloc, columns, at, cond)? else {
        let marks = all_marked(alloc, count as usize)?;
        return Ok(marks);
    };
    let places = places(alloc, columns, by, parts, count, at, values)?;
    let marks = marked(alloc, count as usize, places.as_slice())?;
    Ok(marks)
}
