//! The rows of each spot, as they come.
ghost use Rattle.std.specs.Prelude.{◌≡◌, ◌<◌, [], ◌∷◌, ◌++◌, All, List, length, map, slice_index_or, slice_set, OnOk, IfOk, Some, None};
ghost use Rattle.pt_ast.specs.declared.database.Row.{Row};
ghost use Rattle.pt_ast.specs.declared.database.Spot.{Spot};
ghost use Rattle.pt_expr.specs.Columns.{AreFitting};
ghost use Rattle.pt_place.specs.Place.{place_of};
ghost use Rattle.pt_place.specs.Valid.{IsValid};
ghost use Rattle.pt_db.specs.Spots.{spots_in, spots_of};
ghost use Rattle.pt_spread.specs.Spread.{beside_none, rows_by_spot, with_last};

use crate::counts::{number_of, part_count, sub_count};
use pt_ast::{Row, Rows, Spot, TableDef};
use pt_place::place;
use std::alloc::{AllocError, Global};
use std::mem::drop;

/// The rows of each spot, in the order of the definition.
pub(crate) fn in_spots(
    alloc: Global,
    def: &TableDef,
    rows: Vec<Row>,
) -> Result<Vec<(Spot, Rows)>, AllocError>
    requires valid { IsValid def.now }
    requires fitting { All (λ row. AreFitting def.now.columns row.cells) rows.items }
    ensures { IfOk result (λ found. found.items ≡ rows_by_spot def.now rows.items) }
{
    let mut found = empty_spots(alloc, def)?;
    add_rows(def, rows, &mut found)?;
    Ok(found)
}

/// The spots of a definition in their order, each without rows.
fn empty_spots(alloc: Global, def: &TableDef) -> Result<Vec<(Spot, Rows)>, AllocError>
    requires valid { IsValid def.now }
    ensures { IfOk result (λ found. found.items ≡ rows_by_spot def.now []) }
{
    let mut found = Vec::new(alloc);
    for part in 0..part_count(def) {
        add_spots(alloc, def, part, &mut found)?;
    }
    Ok(found)
}

/// Adds those of a partition.
fn add_spots(
    alloc: Global,
    def: &TableDef,
    part: u32,
    found: &mut Vec<(Spot, Rows)>,
) -> Result<(), AllocError>
    requires valid { IsValid def.now }
    ensures { OnOk result (found.new.items ≡ found.old.items ++ map beside_none (spots_in def.now part)) }
{
    for sub in 0..sub_count(def, part) {
        found.push((Spot { part, sub }, Rows::new(alloc)))?;
    }
    Ok(())
}

/// Adds rows to those of their spots, of which there are none.
fn add_rows(def: &TableDef, rows: Vec<Row>, found: &mut Vec<(Spot, Rows)>) -> Result<(), AllocError>
    requires valid { IsValid def.now }
    requires fitting { All (λ row. AreFitting def.now.columns row.cells) rows.items }
    requires none { found.old.items ≡ rows_by_spot def.now [] }
    ensures { OnOk result (found.new.items ≡ rows_by_spot def.now rows.items) }
{
    for row in rows {
        add_row(def, row, found)?;
    }
    Ok(())
}

/// Adds a row to those of its spot, if it has one.
fn add_row(def: &TableDef, row: Row, found: &mut Vec<(Spot, Rows)>) -> Result<(), AllocError>
    requires valid { IsValid def.now }
    requires fitting { AreFitting def.now.columns row.cells }
    requires spots { length found.old.items ≡ length (spots_of def.now) }
    ensures { (before : List Row) → found.old.items ≡ rows_by_spot def.now before → OnOk result (found.new.items ≡ rows_by_spot def.now (before ++ row ∷ [])) }
{
    let Some(spot) = place(def, &row.cells) else {
        drop(row);
        return Ok(());
    };
    push_at(found, number_of(def, spot), row)
}

/// Adds a row to those of the spot at a number.
fn push_at(found: &mut Vec<(Spot, Rows)>, at: usize, row: Row) -> Result<(), AllocError>
    requires { at < length found.old.items }
    ensures { (none : Spot × List Row) → OnOk result (found.new.items ≡ slice_set found.old.items at (with_last row (slice_index_or found.old.items at none))) }
{
    let own = &mut found[at];
    own.1.push(row)
}
