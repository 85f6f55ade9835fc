use crate::answers::split;
use crate::cells::{cells_of, put_cells};
use crate::text::{bytes_of, put_line, put_word};
use crate::trees::{expr_of, put_expr};
use pt_ast::{Reply, Row, Table, Tables};
use pt_value::Bin;
use std::alloc::{AllocError, Global};

/// Writes a copy of values.
pub fn put_cells_copy(alloc: Global, out: &mut String, text: &str) -> Result<(), AllocError> {
    let copied = cells_of(alloc, text)?.copy(alloc)?;
    put_cells(out, &copied)
}

/// Writes a copy of a row.
pub fn put_row_copy(alloc: Global, out: &mut String, text: &str) -> Result<(), AllocError> {
    let (serial, cells) = split(text);
    match serial.parse::<u64>() {
        Ok(serial) => {
            let row = Row {
                serial,
                cells: cells_of(alloc, cells)?,
            };
            put_row(out, &row.copy(alloc)?)
        }
        Err(_) => out.push('?'),
    }
}

fn put_row(out: &mut String, row: &Row) -> Result<(), AllocError> {
    let serial = row.serial;
    write!(out, "{serial} ")?;
    put_cells(out, &row.cells)
}

/// Writes a copy of an expression.
pub fn put_expr_copy(alloc: Global, out: &mut String, text: &str) -> Result<(), AllocError> {
    let copied = expr_of(alloc, text)?.copy(alloc)?;
    put_expr(out, &copied)
}

/// Writes the code and the bytes of a reply.
pub fn put_reply(alloc: Global, out: &mut String, text: &str) -> Result<(), AllocError> {
    let (code, text) = split(text);
    match code.parse::<u8>() {
        Ok(code) => {
            let reply = Reply {
                code,
                text: Bin::of(bytes_of(alloc, text)?),
            };
            put_answer(out, &reply)
        }
        Err(_) => out.push('?'),
    }
}

fn put_answer(out: &mut String, reply: &Reply) -> Result<(), AllocError> {
    let code = reply.code();
    write!(out, "{code} ")?;
    put_line(out, reply.bytes())
}

/// Writes how many tables a set of none has, lent and given back.
pub fn put_tables(alloc: Global, out: &mut String) -> Result<(), AllocError> {
    let none: Vec<Table> = Vec::new(alloc);
    let tables = Tables::of(none);
    let lent = tables.items().len();
    let given = tables.into_vec().len();
    write!(out, "{lent} {given}")
}
