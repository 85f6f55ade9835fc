use crate::answers::split;
use crate::cells::{cells_of, columns_of, number_of, value_of};
use pt_ast::{Bound, BoundTuple, Idents, PartDef, Parts, Tuples};
use pt_bounds::{Lists, Probe, Ranges};
use pt_value::{Ident, Value};
use std::alloc::{AllocError, Global};

/// Writes where a number is under RANGE.
pub fn put_range(alloc: Global, out: &mut String, text: &str) -> Result<(), AllocError> {
    let (bounds, value) = split(text);
    match number_of(value) {
        Some(value) => put_found(out, &parts_of(alloc, bounds)?, &Probe::Value(value)),
        None => out.push('?'),
    }
}

/// Writes where columns are under RANGE COLUMNS.
pub fn put_range_columns(alloc: Global, out: &mut String, text: &str) -> Result<(), AllocError> {
    let (bounds, rest) = split(text);
    let (cells, numbers) = split(rest);
    let cells = cells_of(alloc, cells)?;
    let columns = columns_of(alloc, numbers)?;
    put_found(
        out,
        &parts_of(alloc, bounds)?,
        &Probe::Columns(&cells, &columns),
    )
}

/// Writes where a number is under RANGE with rising bounds.
pub fn put_step(alloc: Global, out: &mut String, text: &str) -> Result<(), AllocError> {
    let (count, value) = split(text);
    match (count.parse::<u16>(), number_of(value)) {
        (Ok(n), Some(value)) => put_found(out, &steps_of(alloc, n)?, &Probe::Value(value)),
        _ => out.push('?'),
    }
}

/// Writes the first fault of bounds, or where a probe is.
fn put_found(out: &mut String, parts: &Parts, probe: &Probe) -> Result<(), AllocError> {
    let ranges = Ranges::of(parts);
    match ranges.check() {
        Some((at, code)) => write!(out, "{code} at {at}"),
        None => put_position(out, ranges.find_range(probe), "none"),
    }
}

/// Writes where a number is under LIST.
pub fn put_list(alloc: Global, out: &mut String, text: &str) -> Result<(), AllocError> {
    let (lists, value) = split(text);
    match number_of(value) {
        Some(value) => put_listed(out, &parts_of(alloc, lists)?, &Probe::Value(value)),
        None => out.push('?'),
    }
}

/// Writes where columns are under LIST COLUMNS.
pub fn put_list_columns(alloc: Global, out: &mut String, text: &str) -> Result<(), AllocError> {
    let (lists, rest) = split(text);
    let (cells, numbers) = split(rest);
    let cells = cells_of(alloc, cells)?;
    let columns = columns_of(alloc, numbers)?;
    put_listed(
        out,
        &parts_of(alloc, lists)?,
        &Probe::Columns(&cells, &columns),
    )
}

/// Writes where a probe is, and where a value stands twice.
fn put_listed(out: &mut String, parts: &Parts, probe: &Probe) -> Result<(), AllocError> {
    let lists = Lists::of(parts);
    put_position(out, lists.find_list(probe), "none")?;
    out.push(' ')?;
    put_position(out, lists.check(), "once")
}

fn put_position(out: &mut String, at: Option<usize>, none: &str) -> Result<(), AllocError> {
    match at {
        Some(at) => write!(out, "{at}"),
        None => out.push_str(none),
    }
}

/// Partitions with `/` between.
fn parts_of(alloc: Global, text: &str) -> Result<Parts, AllocError> {
    let mut parts = Parts::new(alloc);
    for part in text.split('/') {
        add_part(alloc, &mut parts, tuples_of(alloc, part)?)?;
    }
    Ok(parts)
}

/// Partitions below 10, 20, 30, ..
fn steps_of(alloc: Global, n: u16) -> Result<Parts, AllocError> {
    let mut parts = Parts::new(alloc);
    for step in 0..n {
        add_part(alloc, &mut parts, one_bound(alloc, 10 * (step as i64 + 1))?)?;
    }
    Ok(parts)
}

fn one_bound(alloc: Global, number: i64) -> Result<Tuples, AllocError> {
    let mut tuple = BoundTuple::new(alloc);
    tuple.push(Bound::Val(Value::Int(number)))?;
    let mut tuples = Tuples::new(alloc);
    tuples.push(tuple)?;
    Ok(tuples)
}

fn add_part(alloc: Global, parts: &mut Parts, bounds: Tuples) -> Result<(), AllocError> {
    match Ident::of(b"p") {
        Ok(name) => parts.push(PartDef {
            name,
            bounds,
            subs: Idents::new(alloc),
        }),
        Err(_) => Ok(()),
    }
}

/// Tuples with `;` between.
fn tuples_of(alloc: Global, text: &str) -> Result<Tuples, AllocError> {
    let mut tuples = Tuples::new(alloc);
    for tuple in text.split(';') {
        tuples.push(tuple_of(alloc, tuple)?)?;
    }
    Ok(tuples)
}

fn tuple_of(alloc: Global, text: &str) -> Result<BoundTuple, AllocError> {
    let mut tuple = BoundTuple::new(alloc);
    for item in text.split(',') {
        tuple.push(bound_of(alloc, item)?)?;
    }
    Ok(tuple)
}

fn bound_of(alloc: Global, text: &str) -> Result<Bound, AllocError> {
    match text {
        "max" => Ok(Bound::Max),
        _ => value_of(alloc, text).map(Bound::Val),
    }
}
