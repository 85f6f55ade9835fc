ghost use Rattle.std.specs.Prelude.{◌↔◌, All, IsTrue};
ghost use Rattle.pt_rowfile.specs.Written.{IsShortCell, IsShortRow};

use pt_ast::Row;
use pt_value::Value;

/// Every serial is below it.
const SERIALS_END: u64 = 1 << 62;

/// The row can be written.
pub fn is_short_row(row: &Row) -> bool
    ensures { IsTrue result → IsShortRow row.now }
{
    let cells = row.cells.items();
    0 < row.serial && row.serial < SERIALS_END && cells.len() <= 1_000_000 && are_short(cells)
}

fn are_short(cells: &[Value]) -> bool
    ensures { IsTrue result ↔ All IsShortCell cells.now }
{
    cells.iter().all(|cell| is_short(cell))
}

fn is_short(cell: &Value) -> bool
    ensures { IsTrue result ↔ IsShortCell cell.now }
{
    match cell {
        Value::Bytes(bytes) => bytes.items().len() <= 4096,
        Value::Null | Value::Int(_) | Value::Day(_) => true,
    }
}
