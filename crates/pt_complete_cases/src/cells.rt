ghost use Rattle.std.specs.Prelude.{◌↔◌, IsTrue};
ghost use Rattle.pt_expr.specs.Columns.{AreFitting};

use crate::answers::bytes_of;
use pt_ast::{Cells, Columns};
use pt_value::{Bin, Value};
use std::alloc::{AllocError, Global};

/// The values of cells with commas between.
pub(crate) fn cells_of(alloc: Global, text: &str) -> Result<Cells, AllocError> {
    let mut cells = Cells::new(alloc);
    for cell in text.split(',') {
        cells.push(value_of(alloc, cell)?)?;
    }
    Ok(cells)
}

/// The value that a cell is written as; NULL where it isn't written so.
fn value_of(alloc: Global, text: &str) -> Result<Value, AllocError> {
    if let Some(bytes) = text.strip_prefix("x") {
        return Ok(Value::Bytes(Bin::of(bytes_of(alloc, bytes)?)));
    }
    Ok(number_value(text).unwrap_or(Value::Null))
}

fn number_value(text: &str) -> Option<Value> {
    if let Some(number) = text.strip_prefix("i") {
        return Some(Value::Int(number.parse::<i64>().ok()?));
    }
    let day = text.strip_prefix("d")?;
    Some(Value::Day(day.parse::<i32>().ok()?))
}

/// Whether there is a cell for each column that fits its kind.
pub(crate) fn are_fitting(columns: &Columns, cells: &Cells) -> bool
    ensures { IsTrue result ↔ AreFitting columns.now cells.now }
{
    if columns.items().len() != cells.items().len() {
        return false;
    }
    for (at, column) in columns.items().iter().enumerate() {
        if !cells.items()[at].fits(column.kind) {
            return false;
        }
    }
    true
}
