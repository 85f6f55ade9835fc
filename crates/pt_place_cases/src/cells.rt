use crate::text::bytes_of;
use pt_ast::{Cells, ColumnNos};
use pt_value::{Bin, Kind, Value};
use std::alloc::{AllocError, Global};

/// The value that a cell is written as; NULL where it isn't written so.
pub fn value_of(alloc: Global, text: &str) -> Result<Value, AllocError> {
    if let Some(bytes) = text.strip_prefix("x") {
        return Ok(Value::Bytes(Bin::of(bytes_of(alloc, bytes)?)));
    }
    Ok(number_value(text).unwrap_or(Value::Null))
}

fn number_value(text: &str) -> Option<Value> {
    if let Some(number) = text.strip_prefix("i") {
        return Some(Value::Int(number.parse::<i64>().ok()?));
    }
    let day = text.strip_prefix("d")?;
    Some(Value::Day(day.parse::<i32>().ok()?))
}

/// The values of cells with commas between.
pub fn cells_of(alloc: Global, text: &str) -> Result<Cells, AllocError> {
    let mut cells = Cells::new(alloc);
    for cell in text.split(',') {
        cells.push(value_of(alloc, cell)?)?;
    }
    Ok(cells)
}

/// The kind of a column.
pub fn kind_of(text: &str) -> Option<Kind> {
    match text {
        "int" => Some(Kind::Int),
        "bigint" => Some(Kind::BigInt),
        "date" => Some(Kind::Date),
        _ => {
            let most = text.strip_prefix("binary")?;
            Some(Kind::Binary(most.parse::<u16>().ok()?))
        }
    }
}

/// The positions of columns with commas between.
pub fn columns_of(alloc: Global, text: &str) -> Result<ColumnNos, AllocError> {
    let mut columns = ColumnNos::new(alloc);
    for number in text.split(',') {
        if let Ok(number) = number.parse::<u32>() {
            columns.push(number)?;
        }
    }
    Ok(columns)
}

/// The value of an expression: digits, or `N`.
pub fn number_of(text: &str) -> Option<Option<i128>> {
    if text == "N" {
        return Some(None);
    }
    Some(Some(text.parse::<i128>().ok()?))
}
