//! What is refused of an INSERT or a REPLACE, and of each of its rows by itself.
ghost use Rattle.std.specs.Prelude.{◌≡◌, ◌<◌, None, All, length, IfOk};
ghost use Rattle.pt_place.specs.Valid.{IsValid};
ghost use Rattle.pt_checks.specs.Given.{Gives};
ghost use Rattle.pt_checks.specs.Named.{targets as targets_of};
ghost use Rattle.pt_dml.specs.Parts.{IsPlacedRow, checked, placed_row, skipped_by};

use pt_ast::{Cells, NewRows, Refusal, Spot, TableDef, ValueSpecs};
use pt_books::is_named_spot;
use pt_checks::{CellsFault, Targets, bad_columns, bad_parts, new_cells, targets};
use pt_flat::InsertMode;
use pt_place::place;
use std::alloc::Global;

/// The positions of the columns that the values of a row are for, where the PARTITION list and the list of columns are right.
pub(crate) fn checked(alloc: Global, def: &TableDef, new: &NewRows) -> Result<Targets, CellsFault>
    ensures gives { Gives (checked def.now new.now) result }
    ensures value { IfOk result (λ found. found ≡ targets_of def.now new.now.columns) }
    ensures below { IfOk result (λ found. All (λ at. at < length def.now.columns) found) }
{
    if let Some(refusal) = bad_parts(def, &new.table, &new.parts) {
        return Err(CellsFault::Refused(refusal));
    }
    if let Some(refusal) = bad_columns(def, &new.columns) {
        return Err(CellsFault::Refused(refusal));
    }
    let found = targets(alloc, def, &new.columns)?;
    Ok(found)
}

/// The spot and the cells of the row of this number, or why it has none. `None` where it is passed over.
pub(crate) fn placed_row(
    alloc: Global,
    mode: InsertMode,
    def: &TableDef,
    new: &NewRows,
    targets: &Targets,
    number: u64,
    values: &ValueSpecs,
) -> Result<Option<(Spot, Cells)>, CellsFault>
    requires valid { IsValid def.now }
    requires targets { targets.now ≡ targets_of def.now new.now.columns }
    requires below { All (λ at. at < length def.now.columns) targets.now }
    ensures gives { Gives (placed_row mode def.now new.now number values.now) result }
    ensures placed { IfOk result (IsPlacedRow def.now) }
{
    let cells = new_cells(alloc, def, targets, number, values)?;
    let Some(spot) = place(def, &cells) else {
        return skipped_by(mode, Refusal::NoPartition(number));
    };
    if !is_named_spot(def, &new.parts, spot) {
        return skipped_by(mode, Refusal::NotInGivenSet(number));
    }
    Ok(Some((spot, cells)))
}

/// IGNORE passes over a row that is refused so.
fn skipped_by(mode: InsertMode, refusal: Refusal) -> Result<Option<(Spot, Cells)>, CellsFault>
    ensures gives { Gives (skipped_by mode refusal) result }
    ensures none { IfOk result (λ row. row ≡ None) }
{
    match mode {
        InsertMode::Skip => Ok(None),
        InsertMode::Refuse => Err(CellsFault::Refused(refusal)),
        InsertMode::Replace => Err(CellsFault::Refused(refusal)),
    }
}
