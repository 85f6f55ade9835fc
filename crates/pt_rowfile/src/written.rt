ghost use Rattle.std.specs.Prelude.{◌≡◌, ◌+◌, ◌≤◌, ◌++◌, All, IfSome, OnOk, length};
ghost use Rattle.std.specs.List.{flat_map};
ghost use Rattle.pt_value.specs.declared.value.Value.TheVariants.{Bytes, Day, Int};
ghost use Rattle.pt_rowfile.specs.declared.record.Record.TheVariants.{Delete, Put};
ghost use Rattle.pt_rowfile.specs.Cells.{IsCell, cell_bytes};
ghost use Rattle.pt_rowfile.specs.Records.{IsRecord, cells_bytes, record_bytes};
ghost use Rattle.pt_rowfile.specs.Written.{AreFewCells, IsShortCell, IsShortRow};

use pt_ast::Row;
use pt_bytes::{put_u8, put_u32, put_u64};
use pt_value::Value;
use std::alloc::AllocError;

/// Appends the record that puts this row. Want of memory may leave a part of it.
pub fn put_bytes(out: &mut Vec<u8>, row: &Row) -> Result<(), AllocError>
    requires { IsShortRow row.now }
    ensures written { OnOk result (out.new.items ≡ out.old.items ++ record_bytes (Put row.now)) }
    ensures record { OnOk result (IsRecord (Put row.now)) }
{
    let cells = row.cells.items();
    put_u32(out, 13 + cells_size(cells))?;
    put_u8(out, 1)?;
    put_u64(out, row.serial)?;
    put_u32(out, cells.len() as u32)?;
    put_cells(out, cells)?;
    Ok(())
}

/// Appends the record that deletes the row of this serial. Want of memory may leave a part of it.
pub fn delete_bytes(out: &mut Vec<u8>, serial: u64) -> Result<(), AllocError>
    ensures written { OnOk result (out.new.items ≡ out.old.items ++ record_bytes (Delete serial)) }
    ensures record { OnOk result (IsRecord (Delete serial)) }
{
    put_u32(out, 9)?;
    put_u8(out, 2)?;
    put_u64(out, serial)?;
    Ok(())
}

/// How many bytes the cells take.
fn cells_size(cells: &[Value]) -> u32
    requires few { AreFewCells cells.now }
    requires short { All IsShortCell cells.now }
    ensures size { result ≡ length (flat_map cell_bytes cells.now) }
    ensures most { result ≤ 4_099_000_000 }
{
    let mut size = 0u32;
    for cell in cells {
        size += cell_size(cell);
    }
    size
}

fn cell_size(cell: &Value) -> u32
    requires { IsShortCell cell.now }
    ensures size { result ≡ length (cell_bytes cell.now) }
    ensures most { result ≤ 4099 }
{
    match cell {
        Value::Null => 1,
        Value::Int(_) => 9,
        Value::Day(_) => 5,
        Value::Bytes(bytes) => 3 + bytes.items().len() as u32,
    }
}

fn put_cells(out: &mut Vec<u8>, cells: &[Value]) -> Result<(), AllocError>
    requires { All IsShortCell cells.now }
    ensures written { OnOk result (out.new.items ≡ out.old.items ++ flat_map cell_bytes cells.now) }
    ensures cells { OnOk result (All IsCell cells.now) }
{
    for cell in cells {
        put_cell(out, cell)?;
    }
    Ok(())
}

fn put_cell(out: &mut Vec<u8>, cell: &Value) -> Result<(), AllocError>
    requires { IsShortCell cell.now }
    ensures written { OnOk result (out.new.items ≡ out.old.items ++ cell_bytes cell.now) }
    ensures cell { OnOk result (IsCell cell.now) }
{
    match cell {
        Value::Null => put_u8(out, 0),
        Value::Int(n) => put_int(out, *n),
        Value::Day(day) => put_day(out, *day),
        Value::Bytes(bytes) => put_text(out, bytes.items()),
    }
}

fn put_int(out: &mut Vec<u8>, n: i64) -> Result<(), AllocError>
    ensures written { OnOk result (out.new.items ≡ out.old.items ++ cell_bytes (Int n)) }
    ensures cell { OnOk result (IsCell (Int n)) }
{
    put_u8(out, 1)?;
    put_u64(out, n.cast_unsigned())
}

fn put_day(out: &mut Vec<u8>, day: i32) -> Result<(), AllocError>
    ensures written { OnOk result (out.new.items ≡ out.old.items ++ cell_bytes (Day day)) }
    ensures cell { OnOk result (IsCell (Day day)) }
{
    put_u8(out, 2)?;
    put_u32(out, day.cast_unsigned())
}

fn put_text(out: &mut Vec<u8>, bytes: &[u8]) -> Result<(), AllocError>
    requires { length bytes.now ≤ 4096 }
    ensures written { OnOk result (out.new.items ≡ out.old.items ++ cell_bytes (Bytes bytes.now)) }
    ensures cell { OnOk result (IsCell (Bytes bytes.now)) }
{
    put_u8(out, 3)?;
    put_u8(out, (bytes.len() % 256) as u8)?;
    put_u8(out, (bytes.len() / 256) as u8)?;
    pt_bytes::put_bytes(out, bytes)?;
    Ok(())
}
