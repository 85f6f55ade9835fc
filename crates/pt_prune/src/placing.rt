//! Where a value of a level's column is placed.
ghost use Rattle.std.specs.Prelude.{◌≡◌, ◌<◌, false, map, length, Some, IfOk, IsOk};
ghost use Rattle.pt_value.specs.Fits.{Fits};
ghost use Rattle.pt_expr.specs.Columns.{AreFitting};
ghost use Rattle.pt_expr.specs.Found.{checked};
ghost use Rattle.pt_place.specs.Fitting.{kind_at};
ghost use Rattle.pt_place.specs.Place.{hashed, number_of};
ghost use Rattle.pt_reach.specs.Kept.{level_column};
ghost use Rattle.pt_prune.specs.Marks.{placed, row_with};
ghost use Rattle.pt_prune.specs.Placing.{CanPlace};

use crate::few::row_with;
use pt_ast::{Cells, Columns, Expr, PartBy, Parts};
use pt_bounds::{Lists, Probe, Ranges};
use pt_expr::eval;
use pt_hash::{hash_part, key_part, key_step, linear_part};
use pt_value::{Cell, Kind, Value};
use std::alloc::{AllocError, Global};

/// Where each of these values of the level's column is placed.
pub(crate) fn places(
    alloc: Global,
    columns: &Columns,
    by: &PartBy,
    parts: &Parts,
    count: u32,
    at: usize,
    values: Vec<Value>,
) -> Result<Vec<Option<usize>>, AllocError>
    requires can { CanPlace columns.now by.now parts.now count }
    requires column { level_column columns.now by.now ≡ Some at }
    requires within { at < length columns.now }
    ensures { IfOk result (λ places. places.items ≡ map (λ v. placed columns.now by.now parts.now count (row_with columns.now at v)) values.items) }
{
    let mut places = Vec::new(alloc);
    for value in values {
        let place = place(alloc, columns, by, parts, count, at, value)?;
        places.push(place)?;
    }
    Ok(places)
}

/// Where one value is placed.
fn place(
    alloc: Global,
    columns: &Columns,
    by: &PartBy,
    parts: &Parts,
    count: u32,
    at: usize,
    value: Value,
) -> Result<Option<usize>, AllocError>
    requires can { CanPlace columns.now by.now parts.now count }
    requires column { level_column columns.now by.now ≡ Some at }
    requires within { at < length columns.now }
    ensures { IfOk result (λ place. place ≡ placed columns.now by.now parts.now count (row_with columns.now at value)) }
{
    match by {
        PartBy::Range(expr) => {
            let number = number_at(alloc, columns, expr, at, value)?;
            Ok(Ranges::of(parts).find_range(&Probe::Value(number)))
        }
        PartBy::List(expr) => {
            let number = number_at(alloc, columns, expr, at, value)?;
            Ok(Lists::of(parts).find_list(&Probe::Value(number)))
        }
        PartBy::Hash(linear, expr) => {
            let number = number_at(alloc, columns, expr, at, value)?;
            Ok(Some(hashed(*linear, number, count) as usize))
        }
        PartBy::Key(linear, _) => {
            let key = key_step(1, 0, &value);
            Ok(Some(key_part(key, count, *linear) as usize))
        }
        PartBy::Whole => Ok(Some(0)),
        PartBy::RangeColumns(_) => Ok(Some(0)),
        PartBy::ListColumns(_) => Ok(Some(0)),
    }
}

/// One of `count` under HASH and LINEAR HASH.
fn hashed(linear: bool, number: Option<i128>, count: u32) -> u32
    requires { 0 < count }
    ensures { result ≡ hashed linear number count }
{
    if linear {
        linear_part(number, count)
    } else {
        hash_part(number, count)
    }
}

/// What an expression comes to where its column has this value, `None` for NULL.
fn number_at(
    alloc: Global,
    columns: &Columns,
    expr: &Expr,
    at: usize,
    value: Value,
) -> Result<Option<i128>, AllocError>
    requires checked { IsOk (checked columns.now expr.now false) }
    requires within { at < length columns.now }
    ensures { IfOk result (λ number. number ≡ number_of columns.now expr.now (row_with columns.now at value)) }
{
    if !value.fits(kind_at(columns, at)) {
        return Err(AllocError);
    }
    let row = row_with(alloc, columns, at, value)?;
    Ok(number_of(columns, expr, &row))
}

fn kind_at(columns: &Columns, at: usize) -> Kind
    requires { at < length columns.now }
    ensures { result ≡ kind_at columns.now at }
{
    columns.items()[at].kind
}

/// What an expression comes to, `None` for NULL.
fn number_of(columns: &Columns, expr: &Expr, cells: &Cells) -> Option<i128>
    requires checked { IsOk (checked columns.now expr.now false) }
    requires fitting { AreFitting columns.now cells.now }
    ensures { result ≡ number_of columns.now expr.now cells.now }
{
    match eval(columns, expr, false, cells) {
        Cell::Wide(number) => Some(number),
        Cell::Null | Cell::Day(_) | Cell::Bytes(_) => None,
    }
}
