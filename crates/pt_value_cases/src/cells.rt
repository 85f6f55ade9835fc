use crate::answers::split;
use crate::days::{FIRST_DAY, LAST_DAY};
use crate::text::{bytes_of, put_plain, put_word};
use pt_ast::Cells;
use pt_value::{Bin, Cell, Kind, Truth, Value};
use std::alloc::{AllocError, Global};
use std::cmp::Ordering;

/// The value that a cell is written as; NULL where it isn't written so.
pub fn value_of(alloc: Global, text: &str) -> Result<Value, AllocError> {
    if let Some(bytes) = text.strip_prefix("x") {
        return Ok(Value::Bytes(Bin::of(bytes_of(alloc, bytes)?)));
    }
    Ok(number_value(text).unwrap_or(Value::Null))
}

fn number_value(text: &str) -> Option<Value> {
    if let Some(number) = text.strip_prefix("i") {
        return Some(Value::Int(number.parse::<i64>().ok()?));
    }
    let day = text.strip_prefix("d")?;
    Some(Value::Day(day.parse::<i32>().ok()?))
}

/// Writes a value as a cell.
pub fn put_value(out: &mut String, value: &Value) -> Result<(), AllocError> {
    match value.cell() {
        Cell::Null => out.push('N'),
        Cell::Wide(number) => write!(out, "i{number}"),
        Cell::Day(day) => write!(out, "d{day}"),
        Cell::Bytes(bytes) => {
            out.push('x')?;
            put_word(out, bytes)
        }
    }
}

/// The values of cells with commas between.
pub fn cells_of(alloc: Global, text: &str) -> Result<Cells, AllocError> {
    let mut cells = Cells::new(alloc);
    for cell in text.split(',') {
        cells.push(value_of(alloc, cell)?)?;
    }
    Ok(cells)
}

/// Writes values as cells with commas between.
pub fn put_cells(out: &mut String, cells: &Cells) -> Result<(), AllocError> {
    for (at, value) in cells.items().iter().enumerate() {
        if at > 0 {
            out.push(',')?;
        }
        put_value(out, value)?;
    }
    Ok(())
}

/// Writes the printed text of a value.
pub fn put_shown(alloc: Global, out: &mut String, text: &str) -> Result<(), AllocError> {
    let value = value_of(alloc, text)?;
    match value {
        Value::Day(day) if day < FIRST_DAY || LAST_DAY < day => out.push('?'),
        _ => put_plain(out, value.show(alloc)?.items()),
    }
}

/// Writes how two values compare.
pub fn put_comparison(alloc: Global, out: &mut String, text: &str) -> Result<(), AllocError> {
    let (one, other) = split(text);
    let order = value_of(alloc, one)?.cmp(&value_of(alloc, other)?);
    write!(out, "{order:?}")
}

/// Writes a sign for each of other values that a value is compared with.
pub fn put_signs(alloc: Global, out: &mut String, text: &str) -> Result<(), AllocError> {
    let (one, others) = split(text);
    let one = value_of(alloc, one)?;
    let others = cells_of(alloc, others)?;
    put_signs_of(out, &one, &others)
}

fn put_signs_of(out: &mut String, one: &Value, others: &Cells) -> Result<(), AllocError> {
    for other in others.items() {
        out.push(sign_of(one, other))?;
    }
    Ok(())
}

/// How a value compares with another; `!` where they don't tie exactly where they are equal.
fn sign_of(one: &Value, other: &Value) -> char {
    match (one.cmp(other), one == other) {
        (Ordering::Less, false) => '<',
        (Ordering::Equal, true) => '=',
        (Ordering::Greater, false) => '>',
        _ => '!',
    }
}

/// Writes whether a column takes a value.
pub fn put_fit(alloc: Global, out: &mut String, text: &str) -> Result<(), AllocError> {
    let (cell, kind) = split(text);
    match kind_of(kind) {
        Some(kind) => {
            let fits = value_of(alloc, cell)?.fits(kind);
            write!(out, "{fits}")
        }
        None => out.push('?'),
    }
}

/// The kind of a column.
pub fn kind_of(text: &str) -> Option<Kind> {
    match text {
        "int" => Some(Kind::Int),
        "bigint" => Some(Kind::BigInt),
        "date" => Some(Kind::Date),
        _ => {
            let most = text.strip_prefix("binary")?;
            Some(Kind::Binary(most.parse::<u16>().ok()?))
        }
    }
}

/// Writes a kind.
pub fn put_kind(out: &mut String, kind: Kind) -> Result<(), AllocError> {
    match kind {
        Kind::Int => out.push_str("int"),
        Kind::BigInt => out.push_str("bigint"),
        Kind::Date => out.push_str("date"),
        Kind::Binary(most) => write!(out, "binary{most}"),
    }
}

/// Writes NOT of a truth, or AND or OR of two.
pub fn put_truth(out: &mut String, word: &str, text: &str) -> Result<(), AllocError> {
    let (one, other) = split(text);
    let (one, other) = (truth_of(one), truth_of(other));
    let told = match word {
        "and" => one.and(other),
        "or" => one.or(other),
        _ => one.not(),
    };
    write!(out, "{told:?}")
}

/// The truth of a name.
fn truth_of(text: &str) -> Truth {
    match text {
        "False" => Truth::False,
        "True" => Truth::True,
        _ => Truth::Unknown,
    }
}
