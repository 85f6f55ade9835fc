//! The rows that a spot's file leaves: whether they fit, and where one was put that doesn't.
ghost use Rattle.std.specs.Prelude.{◌≡◌, ◌↔◌, [], ◌∷◌, IfOk, IsTrue};
ghost use Rattle.pt_expr.specs.Columns.{AreFitting};
ghost use Rattle.pt_ast.specs.Keys.{is_null};
ghost use Rattle.pt_place.specs.Valid.{IsValid};
ghost use Rattle.pt_rowfile.specs.Rows.{IsBadAt, SpellsRows};
ghost use Rattle.pt_store.specs.Stops.{ByStop, IfBad};
ghost use Rattle.pt_db.specs.Rows.{is_at};
ghost use Rattle.pt_holds.specs.Bad.{AreBadRows};
ghost use Rattle.pt_holds.specs.Fit.{FitsSpot};
ghost use Rattle.pt_session.specs.Looking.{AreSeen, AreTaken, LeavesRow, Takes, earlier};
ghost use Rattle.pt_session.specs.Session.{AreSpotRows};

use pt_ast::{Cells, Column, Columns, Row, Rows, Spot, TableDef};
use pt_host::Name;
use pt_place::place;
use pt_rowfile::{RowFault, put_place, rows_of};
use pt_store::Stop;
use pt_value::Value;
use std::alloc::Global;

/// The rows that the bytes of a spot's file leave. `Bad`, of this file, where a record isn't proper, or else a row that is left
/// doesn't fit: at the place of the first such record. It is linear in the bytes, and once more for each row that doesn't fit.
pub(crate) fn fitting_rows(
    alloc: Global,
    file: &Name,
    bytes: &[u8],
    next: u64,
    def: &TableDef,
    spot: Spot,
) -> Result<Rows, Stop>
    requires valid { IsValid def.now }
    ensures rows { IfOk result (SpellsRows bytes.now) }
    ensures fit { IfOk result (AreSpotRows next def.now spot) }
    ensures bad { IfBad result (λ name place. (name ≡ file.now) × AreBadRows next def.now spot bytes.now place) }
    ensures no_fault { ByStop result (Unit {0}) (Unit {0}) ⊥ }
{
    let rows = proper_rows(alloc, file, bytes)?;
    match first_unfit(next, def, spot, bytes, rows.items()) {
        None => Ok(rows),
        Some(place) => Err(Stop::Bad { name: *file, place }),
    }
}

/// The rows that the bytes of a file leave. `Bad` where a record isn't proper.
fn proper_rows(alloc: Global, file: &Name, bytes: &[u8]) -> Result<Rows, Stop>
    ensures rows { IfOk result (SpellsRows bytes.now) }
    ensures bad { IfBad result (λ name place. (name ≡ file.now) × IsBadAt bytes.now place) }
    ensures no_fault { ByStop result (Unit {0}) (Unit {0}) ⊥ }
{
    match rows_of(alloc, bytes) {
        Ok(rows) => Ok(rows),
        Err(RowFault::Bad { place }) => Err(Stop::Bad { name: *file, place }),
        Err(RowFault::NoMemory) => Err(Stop::NoMemory),
    }
}

/// The least place at which one of these rows was put that doesn't fit.
fn first_unfit(next: u64, def: &TableDef, spot: Spot, bytes: &[u8], rows: &[Row]) -> Option<u64>
    requires valid { IsValid def.now }
    requires spells { SpellsRows bytes.now rows.now }
    ensures { AreSeen next def.now spot bytes.now rows.now result }
{
    let mut first = None;
    for row in rows {
        first = earlier(first, unfit_place(next, def, spot, bytes, row));
    }
    first
}

/// The lesser of two places, where there are two.
fn earlier(a: Option<u64>, b: Option<u64>) -> Option<u64>
    ensures { result ≡ earlier a b }
{
    match (a, b) {
        (Some(a), Some(b)) => Some(a.min(b)),
        (Some(a), None) => Some(a),
        (None, b) => b,
    }
}

/// The place at which a row was put that doesn't fit.
fn unfit_place(next: u64, def: &TableDef, spot: Spot, bytes: &[u8], row: &Row) -> Option<u64>
    requires valid { IsValid def.now }
    requires left { LeavesRow bytes.now row.now }
    ensures { AreSeen next def.now spot bytes.now (row.now ∷ []) result }
{
    if fits_spot(next, def, spot, row) {
        return None;
    }
    put_place(bytes, row.serial)
}

/// Whether a row fits the columns, is placed in this spot, and has a serial below the next one.
fn fits_spot(next: u64, def: &TableDef, spot: Spot, row: &Row) -> bool
    requires { IsValid def.now }
    ensures { IsTrue result ↔ FitsSpot next def.now spot row.now }
{
    if row.serial >= next {
        return false;
    }
    if !are_taken(&def.columns, &row.cells) {
        return false;
    }
    is_at(def, spot, row)
}

/// Whether the row is placed in this spot.
fn is_at(def: &TableDef, spot: Spot, row: &Row) -> bool
    requires valid { IsValid def.now }
    requires fitting { AreFitting def.now.columns row.now.cells }
    ensures { result ≡ is_at def.now spot row.now }
{
    match place(def, &row.cells) {
        Some(at) => spot.part == at.part && spot.sub == at.sub,
        None => false,
    }
}

/// Whether there is a cell for each column, which takes it.
fn are_taken(columns: &Columns, cells: &Cells) -> bool
    ensures { IsTrue result ↔ AreTaken columns.now cells.now }
{
    if columns.items().len() != cells.items().len() {
        return false;
    }
    for (at, column) in columns.items().iter().enumerate() {
        if !takes(column, &cells.items()[at]) {
            return false;
        }
    }
    true
}

/// Whether a cell fits the column's kind, and is no NULL where none may be.
fn takes(column: &Column, cell: &Value) -> bool
    ensures { IsTrue result ↔ Takes column.now cell.now }
{
    cell.fits(column.kind) && !(column.not_null && is_null(cell))
}

fn is_null(cell: &Value) -> bool
    ensures { result ≡ is_null cell.now }
{
    matches!(cell, Value::Null)
}
