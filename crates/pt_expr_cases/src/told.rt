use crate::reading::ReadFault;
use crate::rows::are_fitting;
use pt_ast::{Cells, Columns, Cond, Expr};
use pt_expr::{CheckFault, check, check_cond, eval, truth};
use pt_value::Cell;
use std::alloc::AllocError;

/// Writes the kind of an expression, or its first fault.
pub fn put_expr_check(
    out: &mut String,
    columns: &Columns,
    expr: &Expr,
    date: bool,
) -> Result<(), AllocError> {
    match check(columns, expr, date) {
        Ok(kind) => write!(out, "{kind:?}"),
        Err(fault) => put_check_fault(out, fault),
    }
}

/// Writes `ok` for a condition that is well typed, or its first fault.
pub fn put_cond_check(out: &mut String, columns: &Columns, cond: &Cond) -> Result<(), AllocError> {
    match check_cond(columns, cond) {
        Ok(()) => out.push_str("ok"),
        Err(fault) => put_check_fault(out, fault),
    }
}

/// Writes what an expression comes to on cells, or its first fault.
pub fn put_value(
    out: &mut String,
    columns: &Columns,
    expr: &Expr,
    date: bool,
    cells: &Cells,
) -> Result<(), AllocError> {
    if !are_fitting(columns, cells) {
        return out.push('?');
    }
    match check(columns, expr, date) {
        Ok(_) => put_cell(out, eval(columns, expr, date, cells)),
        Err(fault) => put_check_fault(out, fault),
    }
}

/// Writes what a condition is of cells, or its first fault.
pub fn put_truth(
    out: &mut String,
    columns: &Columns,
    cond: &Cond,
    cells: &Cells,
) -> Result<(), AllocError> {
    if !are_fitting(columns, cells) {
        return out.push('?');
    }
    match check_cond(columns, cond) {
        Ok(()) => {
            let told = truth(columns, cond, cells);
            write!(out, "{told:?}")
        }
        Err(fault) => put_check_fault(out, fault),
    }
}

/// Writes why a text isn't read.
pub fn put_fault(out: &mut String, fault: ReadFault) -> Result<(), AllocError> {
    match fault {
        ReadFault::TooLong => out.push_str("TooLong"),
        ReadFault::Tokens(fault) => write!(out, "{fault:?}"),
        ReadFault::Grammar(fault) => write!(out, "{fault:?}"),
    }
}

fn put_check_fault(out: &mut String, fault: CheckFault) -> Result<(), AllocError> {
    match fault {
        CheckFault::NoColumn(name) => {
            out.push_str("NoColumn ")?;
            put_name(out, name.bytes())
        }
        _ => write!(out, "{fault:?}"),
    }
}

fn put_name(out: &mut String, name: &[u8]) -> Result<(), AllocError> {
    for b in name {
        out.push(char::from(*b))?;
    }
    Ok(())
}

fn put_cell(out: &mut String, cell: Cell<'_>) -> Result<(), AllocError> {
    match cell {
        Cell::Null => out.push('N'),
        Cell::Wide(number) => write!(out, "i{number}"),
        Cell::Day(day) => write!(out, "d{day}"),
        Cell::Bytes(bytes) => put_bytes(out, bytes),
    }
}

fn put_bytes(out: &mut String, bytes: &[u8]) -> Result<(), AllocError> {
    out.push('x')?;
    for b in bytes {
        write!(out, "{b:02X}")?;
    }
    Ok(())
}
