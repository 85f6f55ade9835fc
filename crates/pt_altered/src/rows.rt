ghost use Rattle.std.specs.Prelude.{◌≡◌, All, Some, IfOk};
ghost use Rattle.pt_ast.specs.declared.database.Row.{Row as Record};
ghost use Rattle.pt_expr.specs.Columns.{AreFitting};
ghost use Rattle.pt_place.specs.Valid.{IsValid};
ghost use Rattle.pt_checks.specs.Wanted.{is_in_parts};
ghost use Rattle.pt_altered.specs.Altered.{rows_in, rows_out, unplaced_from};

use pt_ast::{Refusal, Row, Rows, TableDef};
use pt_place::{in_set, place};
use pt_value::Ident;
use std::alloc::{AllocError, Global};

/// The same rows.
pub(crate) fn all_rows(alloc: Global, rows: &[Row]) -> Result<Rows, AllocError>
    ensures { IfOk result (λ copied. copied ≡ rows.now) }
{
    let mut copied = Rows::new(alloc);
    for row in rows {
        copied.push(row.copy(alloc)?)?;
    }
    Ok(copied)
}

/// The rows in these partitions, in all where none are named.
pub(crate) fn rows_in(
    alloc: Global,
    names: &[Ident],
    def: &TableDef,
    rows: &[Row],
) -> Result<Rows, AllocError>
    requires valid { IsValid def.now }
    requires fitting { All (λ (row : Record). AreFitting def.now.columns row.cells) rows.now }
    ensures { IfOk result (λ kept. kept ≡ rows_in (Some names.now) def.now rows.now) }
{
    let mut kept = Rows::new(alloc);
    for row in rows {
        if is_in_parts(def, names, row) {
            kept.push(row.copy(alloc)?)?;
        }
    }
    Ok(kept)
}

/// The rows that are in none of these partitions.
pub(crate) fn rows_out(
    alloc: Global,
    names: &[Ident],
    def: &TableDef,
    rows: &[Row],
) -> Result<Rows, AllocError>
    requires valid { IsValid def.now }
    requires fitting { All (λ (row : Record). AreFitting def.now.columns row.cells) rows.now }
    ensures { IfOk result (λ kept. kept ≡ rows_out (Some names.now) def.now rows.now) }
{
    let mut kept = Rows::new(alloc);
    for row in rows {
        if !is_in_parts(def, names, row) {
            kept.push(row.copy(alloc)?)?;
        }
    }
    Ok(kept)
}

/// Whether the row is in one of these partitions, or has a place at all where none are named.
fn is_in_parts(def: &TableDef, names: &[Ident], row: &Row) -> bool
    requires valid { IsValid def.now }
    requires fitting { AreFitting def.now.columns row.now.cells }
    ensures { result ≡ is_in_parts def.now (Some names.now) row.now.cells }
{
    match place(def, &row.cells) {
        Some(spot) => in_set(def, names, spot),
        None => false,
    }
}

/// The refusal of the first of these rows, counted from 1, that has no place.
pub(crate) fn unplaced(def: &TableDef, rows: &[Row]) -> Option<Refusal>
    requires valid { IsValid def.now }
    requires fitting { All (λ (row : Record). AreFitting def.now.columns row.cells) rows.now }
    ensures { result ≡ unplaced_from 1 def.now rows.now }
{
    for (i, row) in rows.iter().enumerate() {
        if place(def, &row.cells).is_none() {
            return Some(Refusal::NoPartition(i as u64 + 1));
        }
    }
    None
}
