ghost use Rattle.std.specs.Prelude.{◌≡◌, ◌∷◌, ◌++◌, List, All, IfOk, OnOk};
ghost use Rattle.pt_ast.specs.declared.database.Row.{Row as Record};
ghost use Rattle.pt_expr.specs.Columns.{AreFitting};
ghost use Rattle.pt_place.specs.Valid.{IsValid};
ghost use Rattle.pt_db.specs.Rows.{is_at, spot_rows, with_row};
ghost use Rattle.pt_exchanged.specs.Exchanged.{left, misplaced_from, rows_elsewhere, with_all};

use pt_ast::{Refusal, Row, Rows, Spot, TableDef};
use pt_place::place;
use std::alloc::{AllocError, Global};
use std::mem::{drop, replace};

/// The rows that are placed in the spot.
pub(crate) fn spot_rows(
    alloc: Global,
    def: &TableDef,
    spot: Spot,
    rows: &[Row],
) -> Result<Rows, AllocError>
    requires valid { IsValid def.now }
    requires fitting { All (λ (row : Record). AreFitting def.now.columns row.cells) rows.now }
    ensures { IfOk result (λ kept. kept ≡ spot_rows def.now spot rows.now) }
{
    let mut kept = Rows::new(alloc);
    for row in rows {
        if is_at(def, spot, row) {
            kept.push(row.copy(alloc)?)?;
        }
    }
    Ok(kept)
}

/// The rows that are placed elsewhere.
pub(crate) fn rows_elsewhere(
    alloc: Global,
    def: &TableDef,
    spot: Spot,
    rows: &[Row],
) -> Result<Rows, AllocError>
    requires valid { IsValid def.now }
    requires fitting { All (λ (row : Record). AreFitting def.now.columns row.cells) rows.now }
    ensures { IfOk result (λ kept. kept ≡ rows_elsewhere def.now spot rows.now) }
{
    let mut kept = Rows::new(alloc);
    for row in rows {
        if !is_at(def, spot, row) {
            kept.push(row.copy(alloc)?)?;
        }
    }
    Ok(kept)
}

/// Whether the row is placed in the spot.
fn is_at(def: &TableDef, spot: Spot, row: &Row) -> bool
    requires valid { IsValid def.now }
    requires fitting { AreFitting def.now.columns row.now.cells }
    ensures { result ≡ is_at def.now spot row.now }
{
    match place(def, &row.cells) {
        Some(own) => spot.part == own.part && spot.sub == own.sub,
        None => false,
    }
}

/// The refusal of the first of these rows, counted from 1, that isn't placed in the spot.
pub(crate) fn misplaced(def: &TableDef, spot: Spot, rows: &[Row]) -> Option<Refusal>
    requires valid { IsValid def.now }
    requires fitting { All (λ (row : Record). AreFitting def.now.columns row.cells) rows.now }
    ensures { result ≡ misplaced_from 1 def.now spot rows.now }
{
    for (i, row) in rows.iter().enumerate() {
        if !is_at(def, spot, row) {
            return Some(Refusal::RowNotInPartition(i as u64 + 1));
        }
    }
    None
}

/// Puts copies of these rows among those, each in its place by rising serial.
pub(crate) fn put_all(alloc: Global, comes: &[Row], rows: &mut Rows) -> Result<(), AllocError>
    ensures { OnOk result (rows.new ≡ with_all comes.now rows.old) }
{
    for row in comes {
        let made = with_row(alloc, row, rows.items())?;
        drop(replace(rows, made));
    }
    Ok(())
}

/// Copies of these rows with a copy of this one in its place by rising serial.
fn with_row(alloc: Global, row: &Row, rows: &[Row]) -> Result<Rows, AllocError>
    ensures { IfOk result (λ made. made ≡ with_row row.now rows.now) }
{
    let mut made = Rows::new(alloc);
    let mut waits = true;
    for other in rows {
        waits = pushed(alloc, &mut made, waits, row, other)?;
    }
    if !waits {
        return Ok(made);
    }
    made.push(row.copy(alloc)?)?;
    Ok(made)
}

/// Puts a copy of the other row behind those made, the waiting one before it where it belongs there, and tells whether that still waits.
fn pushed(
    alloc: Global,
    made: &mut Rows,
    waits: bool,
    row: &Row,
    other: &Row,
) -> Result<bool, AllocError>
    ensures { IfOk result (λ still. (rest : List Record) → made.new ++ left still row.now rest ≡ made.old ++ left waits row.now (other.now ∷ rest)) }
{
    if !waits {
        made.push(other.copy(alloc)?)?;
        return Ok(false);
    }
    if other.serial < row.serial {
        made.push(other.copy(alloc)?)?;
        return Ok(true);
    }
    made.push(row.copy(alloc)?)?;
    if other.serial == row.serial {
        return Ok(false);
    }
    made.push(other.copy(alloc)?)?;
    Ok(false)
}
