//! What is refused of a row of UPDATE by itself, and where rows stand.
ghost use Rattle.std.specs.Prelude.{◌≡◌, ℕ, Some, IfOk, IfSome, IsSome};
ghost use Rattle.pt_expr.specs.Columns.{AreFitting};
ghost use Rattle.pt_place.specs.Place.{place_of};
ghost use Rattle.pt_place.specs.Valid.{IsValid};
ghost use Rattle.pt_checks.specs.Assigned.{AreAssignable, set_targets};
ghost use Rattle.pt_checks.specs.Given.{Gives};
ghost use Rattle.pt_db.specs.Sound.{IsSoundRow};
ghost use Rattle.pt_update.specs.Changes.{spot_of};
ghost use Rattle.pt_update.specs.Parts.{IsPlacedIn, moved_row, placed_cells};

use pt_ast::{Assigns, Cells, Idents, Refusal, Row, Spot, TableDef};
use pt_books::is_named_spot;
use pt_checks::{CellsFault, Targets, are_same, updated_cells};
use pt_place::place;
use std::alloc::Global;

/// The spot of a row that has one.
pub(crate) fn spot_of(def: &TableDef, row: &Row) -> Spot
    requires valid { IsValid def.now }
    requires fitting { AreFitting def.now.columns row.now.cells }
    requires placed { IsSome (place_of def.now row.now.cells) }
    ensures { result ≡ spot_of def.now row.now.cells }
{
    match place(def, &row.cells) {
        Some(spot) => spot,
        None => unreachable!(),
    }
}

/// The new cells of the row of this number with their spot, or why they are refused by themselves. `None` exactly where each value is as
/// it was.
pub(crate) fn moved_row(
    alloc: Global,
    def: &TableDef,
    parts: &Option<Idents>,
    assigns: &Assigns,
    targets: &Targets,
    number: u64,
    row: &Row,
) -> Result<Option<(Spot, Cells)>, CellsFault>
    requires valid { IsValid def.now }
    requires targets { targets.now ≡ set_targets def.now.columns assigns.now }
    requires assignable { AreAssignable def.now.columns assigns.now }
    requires sound { (next : ℕ) × IsSoundRow next def.now row.now }
    ensures gives { Gives (moved_row def.now parts.now assigns.now number row.now.cells) result }
    ensures placed { IfOk result (λ moved. IfSome moved (λ new. IsPlacedIn def.now new.0 new.1)) }
{
    let cells = updated_cells(alloc, def, targets, assigns, number, &row.cells)?;
    if are_same(&row.cells, &cells) {
        return Ok(None);
    }
    placed_cells(def, parts, number, cells)
}

/// These cells with their spot, or why they have none.
fn placed_cells(
    def: &TableDef,
    parts: &Option<Idents>,
    number: u64,
    cells: Cells,
) -> Result<Option<(Spot, Cells)>, CellsFault>
    requires valid { IsValid def.now }
    requires fitting { AreFitting def.now.columns cells }
    ensures gives { Gives (placed_cells def.now parts.now number cells) result }
    ensures placed { IfOk result (λ moved. IfSome moved (λ new. (new.1 ≡ cells) × (place_of def.now cells ≡ Some new.0))) }
{
    let Some(spot) = place(def, &cells) else {
        return Err(CellsFault::Refused(Refusal::NoPartition(number)));
    };
    if !is_named_spot(def, parts, spot) {
        return Err(CellsFault::Refused(Refusal::NotInGivenSet(number)));
    }
    Ok(Some((spot, cells)))
}
