use crate::answers::split;
use crate::cells::row_of;
use pt_ast::{ColumnNos, Columns, KeyDef, KeyDefs, PartBy, Parts, Rank, TableDef};
use pt_unique::{KeyBook, KeyFault};
use pt_value::Ident;
use std::alloc::{AllocError, Global};

/// Writes what the steps on a book answer.
pub fn put_book(alloc: Global, out: &mut String, text: &str) -> Result<(), AllocError> {
    let (keys, steps) = split(text);
    let mut book = book_of(alloc, keys)?;
    for (at, step) in steps.split('/').enumerate() {
        if at > 0 {
            out.push(' ')?;
        }
        put_step(alloc, out, &mut book, step)?;
    }
    Ok(())
}

fn book_of(alloc: Global, keys: &str) -> Result<KeyBook, AllocError> {
    let keys = keys_of(alloc, keys)?;
    KeyBook::new(
        alloc,
        &TableDef {
            columns: Columns::new(alloc),
            keys,
            by: PartBy::Whole,
            sub: PartBy::Whole,
            parts: Parts::new(alloc),
        },
    )
}

fn keys_of(alloc: Global, text: &str) -> Result<KeyDefs, AllocError> {
    let mut keys = KeyDefs::new(alloc);
    for key in text.split(';') {
        let (rank, columns) = ranked(key);
        if let Ok(name) = Ident::of(b"k") {
            let columns = columns_of(alloc, columns)?;
            keys.push(KeyDef {
                rank,
                name,
                columns,
            })?;
        }
    }
    Ok(keys)
}

/// What a key is, and its columns.
fn ranked(key: &str) -> (Rank, &str) {
    if let Some(columns) = key.strip_prefix("p") {
        return (Rank::Primary, columns);
    }
    if let Some(columns) = key.strip_prefix("u") {
        return (Rank::Unique, columns);
    }
    (Rank::Plain, key.strip_prefix("k").unwrap_or(key))
}

fn columns_of(alloc: Global, text: &str) -> Result<ColumnNos, AllocError> {
    let mut columns = ColumnNos::new(alloc);
    for number in text.split(',') {
        if let Ok(number) = number.parse::<u32>() {
            columns.push(number)?;
        }
    }
    Ok(columns)
}

fn put_step(
    alloc: Global,
    out: &mut String,
    book: &mut KeyBook,
    step: &str,
) -> Result<(), AllocError> {
    if let Some(row) = step.strip_prefix("+") {
        return put_entered(alloc, out, book, row);
    }
    put_left(alloc, out, book, step.strip_prefix("-").unwrap_or(step))
}

fn put_entered(
    alloc: Global,
    out: &mut String,
    book: &mut KeyBook,
    text: &str,
) -> Result<(), AllocError> {
    let (serial, cells) = text.split_once(':').unwrap_or((text, ""));
    let Ok(serial) = serial.parse::<u64>() else {
        return out.push('?');
    };
    let entered = book.enter(&row_of(alloc, serial, cells)?);
    match entered {
        Ok(()) => out.push_str("ok"),
        Err(KeyFault::Taken { serial }) => write!(out, "taken {serial}"),
        Err(KeyFault::NoMemory) => out.push_str("no memory"),
    }
}

fn put_left(
    alloc: Global,
    out: &mut String,
    book: &mut KeyBook,
    text: &str,
) -> Result<(), AllocError> {
    let (serial, cells) = text.split_once(':').unwrap_or((text, ""));
    let Ok(serial) = serial.parse::<u64>() else {
        return out.push('?');
    };
    book.leave(&row_of(alloc, serial, cells)?);
    out.push_str("left")
}
