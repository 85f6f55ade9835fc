use pt_ast::{Cells, Row};
use pt_value::{Bin, Cell, Value};
use std::alloc::{AllocError, Global};

/// The bytes that hexadecimal digits spell. Other characters are passed over.
pub fn bytes_of(alloc: Global, text: &str) -> Result<Vec<u8>, AllocError> {
    let mut bytes = Vec::new(alloc);
    let mut high = None;
    for b in text.as_bytes() {
        let Some(digit) = digit_of(*b) else {
            continue;
        };
        match high {
            None => high = Some(digit),
            Some(first) => {
                bytes.push((first << 4) | digit)?;
                high = None;
            }
        }
    }
    Ok(bytes)
}

fn digit_of(b: u8) -> Option<u8> {
    match b {
        b'0'..=b'9' => Some(b - b'0'),
        b'a'..=b'f' => Some(b - b'a' + 10),
        _ => None,
    }
}

/// Writes bytes with two digits each.
pub fn put_hex(out: &mut String, bytes: &[u8]) -> Result<(), AllocError> {
    for b in bytes {
        write!(out, "{b:02x}")?;
    }
    Ok(())
}

fn value_of(alloc: Global, text: &str) -> Result<Value, AllocError> {
    if let Some(bytes) = text.strip_prefix("x") {
        return Ok(Value::Bytes(Bin::of(bytes_of(alloc, bytes)?)));
    }
    Ok(number_value(text).unwrap_or(Value::Null))
}

fn number_value(text: &str) -> Option<Value> {
    if let Some(number) = text.strip_prefix("i") {
        return Some(Value::Int(number.parse::<i64>().ok()?));
    }
    let day = text.strip_prefix("d")?;
    Some(Value::Day(day.parse::<i32>().ok()?))
}

/// The values of cells with commas between.
pub fn cells_of(alloc: Global, text: &str) -> Result<Cells, AllocError> {
    let mut cells = Cells::new(alloc);
    for cell in text.split(',') {
        cells.push(value_of(alloc, cell)?)?;
    }
    Ok(cells)
}

/// A row of this serial.
pub fn row_of(alloc: Global, serial: u64, cells: &str) -> Result<Row, AllocError> {
    Ok(Row {
        serial,
        cells: cells_of(alloc, cells)?,
    })
}

fn put_value(out: &mut String, value: &Value) -> Result<(), AllocError> {
    match value.cell() {
        Cell::Null => out.push('N'),
        Cell::Wide(number) => write!(out, "i{number}"),
        Cell::Day(day) => write!(out, "d{day}"),
        Cell::Bytes(bytes) => {
            out.push('x')?;
            put_hex(out, bytes)
        }
    }
}

/// Writes a row.
pub fn put_row(out: &mut String, row: &Row) -> Result<(), AllocError> {
    let serial = row.serial;
    write!(out, "{serial}:")?;
    for (at, value) in row.cells.items().iter().enumerate() {
        if at > 0 {
            out.push(',')?;
        }
        put_value(out, value)?;
    }
    Ok(())
}
