use crate::answers::split;
use crate::cells::{bytes_of, put_hex, put_row, row_of};
use crate::short::is_short_row;
use pt_ast::{Cells, Row, Rows};
use pt_rowfile::{RowFault, counter_of, delete_bytes, put_bytes, put_place, rows_of};
use pt_value::Value;
use std::alloc::{AllocError, Global};

/// Writes the rows that bytes leave.
pub fn put_rows(alloc: Global, out: &mut String, text: &str) -> Result<(), AllocError> {
    let bytes = bytes_of(alloc, text)?;
    match rows_of(alloc, &bytes) {
        Ok(rows) => put_all(out, &rows),
        Err(fault) => put_fault(out, fault),
    }
}

fn put_all(out: &mut String, rows: &Rows) -> Result<(), AllocError> {
    for (at, row) in rows.items().iter().enumerate() {
        if at > 0 {
            out.push(' ')?;
        }
        put_row(out, row)?;
    }
    Ok(())
}

fn put_fault(out: &mut String, fault: RowFault) -> Result<(), AllocError> {
    match fault {
        RowFault::Bad { place } => write!(out, "bad {place}"),
        RowFault::NoMemory => out.push_str("no memory"),
    }
}

/// Writes the record that puts a row.
pub fn put_put(alloc: Global, out: &mut String, text: &str) -> Result<(), AllocError> {
    let (serial, cells) = split(text);
    let Ok(serial) = serial.parse::<u64>() else {
        return out.push('?');
    };
    let mut bytes = Vec::new(alloc);
    append(&mut bytes, &row_of(alloc, serial, cells)?)?;
    if bytes.is_empty() {
        return out.push('?');
    }
    put_hex(out, &bytes)
}

/// Appends a record, where the row can be written.
fn append(bytes: &mut Vec<u8>, row: &Row) -> Result<(), AllocError> {
    if !is_short_row(row) {
        return Ok(());
    }
    put_bytes(bytes, row)
}

/// Writes the record that deletes a row.
pub fn put_deleted(alloc: Global, out: &mut String, text: &str) -> Result<(), AllocError> {
    let Ok(serial) = text.parse::<u64>() else {
        return out.push('?');
    };
    let mut bytes = Vec::new(alloc);
    delete_bytes(&mut bytes, serial)?;
    put_hex(out, &bytes)
}

/// Writes where the row of a serial was put.
pub fn put_placed(alloc: Global, out: &mut String, text: &str) -> Result<(), AllocError> {
    let (serial, spelled) = split(text);
    let Ok(serial) = serial.parse::<u64>() else {
        return out.push('?');
    };
    let bytes = bytes_of(alloc, spelled)?;
    match place_in(alloc, &bytes, serial) {
        Ok(Some(place)) => write!(out, "{place}"),
        Ok(None) => out.push_str("none"),
        Err(fault) => put_fault(out, fault),
    }
}

/// The place of a row, where the bytes leave rows.
fn place_in(alloc: Global, bytes: &[u8], serial: u64) -> Result<Option<u64>, RowFault> {
    rows_of(alloc, bytes)?;
    Ok(put_place(bytes, serial))
}

/// Writes the next serial.
pub fn put_counter(alloc: Global, out: &mut String, text: &str) -> Result<(), AllocError> {
    let bytes = bytes_of(alloc, text)?;
    match counter_of(&bytes) {
        Ok(next) => write!(out, "next {next}"),
        Err(place) => write!(out, "bad {place}"),
    }
}

/// Writes what is left of many rows.
pub fn put_many(alloc: Global, out: &mut String, text: &str) -> Result<(), AllocError> {
    let Ok(count) = text.parse::<u64>() else {
        return out.push('?');
    };
    let bytes = many_of(alloc, count)?;
    match rows_of(alloc, &bytes) {
        Ok(rows) => put_ends(out, rows.items()),
        Err(fault) => put_fault(out, fault),
    }
}

fn many_of(alloc: Global, count: u64) -> Result<Vec<u8>, AllocError> {
    let mut bytes = Vec::new(alloc);
    for serial in 1..=count {
        append(&mut bytes, &sample(alloc, serial)?)?;
    }
    for serial in 1..=count {
        if serial % 2 == 0 {
            delete_bytes(&mut bytes, serial)?;
        }
    }
    Ok(bytes)
}

fn sample(alloc: Global, serial: u64) -> Result<Row, AllocError> {
    let mut cells = Cells::new(alloc);
    cells.push(Value::Int(7))?;
    Ok(Row { serial, cells })
}

fn put_ends(out: &mut String, rows: &[Row]) -> Result<(), AllocError> {
    let count = rows.len();
    write!(out, "{count}")?;
    if let (Some(first), Some(last)) = (rows.first(), rows.last()) {
        let low = first.serial;
        let high = last.serial;
        write!(out, " {low} {high}")?;
    }
    Ok(())
}
