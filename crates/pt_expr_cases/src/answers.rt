use crate::reading::{read_cond, read_expr};
use crate::rows::{bytes_of, cells_of};
use crate::told::{put_cond_check, put_expr_check, put_fault, put_truth, put_value};
use pt_ast::Columns;
use std::alloc::{AllocError, Global};

/// Writes the answer of a line.
pub fn answer(
    alloc: Global,
    out: &mut String,
    columns: &Columns,
    line: &str,
) -> Result<(), AllocError> {
    if line.is_empty() || line.starts_with('#') {
        return out.push_str(line);
    }
    let (word, rest) = split(line);
    match word {
        "check" => answer_check(alloc, out, columns, rest, false),
        "checkdate" => answer_check(alloc, out, columns, rest, true),
        "checkcond" => answer_check_cond(alloc, out, columns, rest),
        "eval" => answer_eval(alloc, out, columns, rest, false),
        "evaldate" => answer_eval(alloc, out, columns, rest, true),
        "truth" => answer_truth(alloc, out, columns, rest),
        _ => out.push('?'),
    }
}

/// What stands before the first space, and what behind it.
fn split(text: &str) -> (&str, &str) {
    match text.split_once(' ') {
        Some(parts) => parts,
        None => (text, ""),
    }
}

fn answer_check(
    alloc: Global,
    out: &mut String,
    columns: &Columns,
    text: &str,
    date: bool,
) -> Result<(), AllocError> {
    match read_expr(alloc, &bytes_of(alloc, text)?) {
        Err(fault) => put_fault(out, fault),
        Ok((expr, _)) => put_expr_check(out, columns, &expr, date),
    }
}

fn answer_check_cond(
    alloc: Global,
    out: &mut String,
    columns: &Columns,
    text: &str,
) -> Result<(), AllocError> {
    match read_cond(alloc, &bytes_of(alloc, text)?) {
        Err(fault) => put_fault(out, fault),
        Ok((cond, _)) => put_cond_check(out, columns, &cond),
    }
}

fn answer_eval(
    alloc: Global,
    out: &mut String,
    columns: &Columns,
    rest: &str,
    date: bool,
) -> Result<(), AllocError> {
    let (cells, text) = split(rest);
    let cells = cells_of(alloc, cells)?;
    match read_expr(alloc, &bytes_of(alloc, text)?) {
        Err(fault) => put_fault(out, fault),
        Ok((expr, _)) => put_value(out, columns, &expr, date, &cells),
    }
}

fn answer_truth(
    alloc: Global,
    out: &mut String,
    columns: &Columns,
    rest: &str,
) -> Result<(), AllocError> {
    let (cells, text) = split(rest);
    let cells = cells_of(alloc, cells)?;
    match read_cond(alloc, &bytes_of(alloc, text)?) {
        Err(fault) => put_fault(out, fault),
        Ok((cond, _)) => put_truth(out, columns, &cond, &cells),
    }
}
