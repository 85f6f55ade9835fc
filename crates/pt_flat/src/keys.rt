ghost use Rattle.std.specs.Prelude.{◌≡◌, ◌&&◌, not, slice_index_or};
ghost use Rattle.std.specs.List.{list_any};
ghost use Rattle.pt_ast.specs.Keys.{agree, agrees, is_alike, is_taken, is_unique};
ghost use Rattle.pt_db.specs.Rows.{is_numbered, others};

use pt_ast::{Cells, ColumnNos, KeyDef, Rank, Row, TableDef};
use pt_value::Value;

/// Whether one of these rows agrees with these cells on a unique key.
pub(crate) fn is_taken(def: &TableDef, cells: &Cells, rows: &[Row]) -> bool
    ensures { result ≡ is_taken def.now cells.now rows.now }
{
    for row in rows {
        if agrees(def, cells, &row.cells) {
            return true;
        }
    }
    false
}

/// Whether one of these rows, but for the one of this serial, agrees with these cells on a unique key.
#[tactic(auto, using(crate::proofs::Agreeing::any_other))]
pub(crate) fn is_taken_beside(def: &TableDef, serial: u64, cells: &Cells, rows: &[Row]) -> bool
    ensures { result ≡ is_taken def.now cells.now (others serial rows.now) }
{
    another_agrees(def, serial, cells, rows)
}

fn another_agrees(def: &TableDef, serial: u64, cells: &Cells, rows: &[Row]) -> bool
    ensures { result ≡ list_any (λ row. not (is_numbered serial row) && agrees def.now cells.now row.cells) rows.now }
{
    for row in rows {
        if row.serial != serial && agrees(def, cells, &row.cells) {
            return true;
        }
    }
    false
}

/// Whether the cells agree on a unique key.
#[tactic(auto, using(crate::proofs::Agreeing::any_unique))]
pub(crate) fn agrees(def: &TableDef, a: &Cells, b: &Cells) -> bool
    ensures { result ≡ agrees def.now a.now b.now }
{
    agree_on_some(def.keys.items(), a, b)
}

/// Whether the cells agree on a unique key among these.
fn agree_on_some(keys: &[KeyDef], a: &Cells, b: &Cells) -> bool
    ensures { result ≡ list_any (λ key. is_unique key.rank && agree a.now b.now key.columns) keys.now }
{
    for key in keys {
        if is_unique(key) && agree(a, b, &key.columns) {
            return true;
        }
    }
    false
}

fn is_unique(key: &KeyDef) -> bool
    ensures { result ≡ is_unique key.now.rank }
{
    match key.rank {
        Rank::Primary | Rank::Unique => true,
        Rank::Plain => false,
    }
}

/// Whether the cells of these columns are equal, and none of them NULL.
fn agree(a: &Cells, b: &Cells, columns: &ColumnNos) -> bool
    ensures { result ≡ agree a.now b.now columns.now }
{
    for column in columns.items() {
        if !is_alike_at(a, b, *column) {
            return false;
        }
    }
    true
}

fn is_alike_at(a: &Cells, b: &Cells, column: u32) -> bool
    ensures { result ≡ is_alike (slice_index_or a.now column Value.Null) (slice_index_or b.now column Value.Null) }
{
    let null = Value::Null;
    let a = a.items().get(column as usize).unwrap_or(&null);
    let b = b.items().get(column as usize).unwrap_or(&null);
    is_alike(a, b)
}

fn is_alike(a: &Value, b: &Value) -> bool
    ensures { result ≡ is_alike a.now b.now }
{
    !matches!(a, Value::Null) && *a == *b
}
