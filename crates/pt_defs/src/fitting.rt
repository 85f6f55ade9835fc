//! What the types of a definition say of its numbers, names and bytes, as a fact for contracts. Each call only looks: it changes
//! nothing, and takes no memory.
ghost use Rattle.std.specs.Prelude.{All, IfSome};
ghost use Rattle.pt_value.specs.Ident.{IsIdent};
ghost use Rattle.pt_bytes.specs.Numbers.{AreBytes};
ghost use Rattle.pt_defs.specs.Fitting.{FitsBound, FitsBy, FitsCell, FitsColumn, FitsDef, FitsExpr, FitsPart};

use pt_ast::{Bound, BoundTuple, Column, Expr, Factors, KeyDef, PartBy, PartDef, TableDef, Terms};
use pt_value::{Ident, Kind, Value};

/// The numbers and names of every definition in memory fit their types.
pub fn def_fits(def: &TableDef)
    ensures { FitsDef def.now }
{
    columns_fit(def.columns.items());
    keys_fit(def.keys.items());
    by_fits(&def.by);
    by_fits(&def.sub);
    parts_fit(def.parts.items());
}

fn columns_fit(columns: &[Column])
    ensures { All FitsColumn columns.now }
{
    for column in columns {
        column_fits(column);
    }
}

fn column_fits(column: &Column)
    ensures { FitsColumn column.now }
{
    name_fits(&column.name);
    default_fits(&column.default);
    if let Kind::Binary(most) = column.kind {
        let _most: u16 = most;
    }
}

fn default_fits(default: &Option<Value>)
    ensures { IfSome default.now FitsCell }
{
    match default {
        None => {}
        Some(cell) => cell_fits(cell),
    }
}

fn cell_fits(cell: &Value)
    ensures { FitsCell cell.now }
{
    match cell {
        Value::Null => {}
        Value::Int(n) => {
            let _n: i64 = *n;
        }
        Value::Day(day) => {
            let _day: i32 = *day;
        }
        Value::Bytes(bytes) => bytes_fit(bytes.items()),
    }
}

fn bytes_fit(bytes: &[u8])
    ensures { AreBytes bytes.now }
{
    let _bytes = bytes;
}

fn keys_fit(keys: &[KeyDef])
    ensures { All (λ key. IsIdent key.name) keys.now }
{
    for key in keys {
        name_fits(&key.name);
    }
}

fn by_fits(by: &PartBy)
    ensures { FitsBy by.now }
{
    match by {
        PartBy::Range(expr) | PartBy::List(expr) | PartBy::Hash(_, expr) => expr_fits(expr),
        PartBy::Whole | PartBy::RangeColumns(_) | PartBy::ListColumns(_) | PartBy::Key(_, _) => {}
    }
}

#[cycle(expr_fits)]
fn expr_fits(expr: &Expr)
    ensures { FitsExpr expr.now }
{
    match expr {
        Expr::Number(n) => {
            let _n: i128 = *n;
        }
        Expr::Text(bytes) => bytes_fit(bytes.items()),
        Expr::Hex(bytes) => bytes_fit(bytes.items()),
        Expr::Date(_) => {}
        Expr::Null => {}
        Expr::Column(_) => {}
        Expr::Neg(part) => expr_fits(part.get()),
        Expr::Sum(parts) => terms_fit(parts),
        Expr::Product(first, parts) => {
            expr_fits(first.get());
            factors_fit(parts);
        }
        Expr::Call(_, part) => expr_fits(part.get()),
    }
}

#[cycle(expr_fits)]
fn terms_fit(parts: &Terms)
    ensures { All (λ part. FitsExpr part.1) parts.now }
{
    for (_, part) in parts.items() {
        expr_fits(part);
    }
}

#[cycle(expr_fits)]
fn factors_fit(parts: &Factors)
    ensures { All (λ part. FitsExpr part.1) parts.now }
{
    for (_, part) in parts.items() {
        expr_fits(part);
    }
}

/// The bounds and names of partitions in memory fit their types.
pub fn parts_fit(parts: &[PartDef])
    ensures { All FitsPart parts.now }
{
    for part in parts {
        part_fits(part);
    }
}

fn part_fits(part: &PartDef)
    ensures { FitsPart part.now }
{
    name_fits(&part.name);
    tuples_fit(part.bounds.items());
    names_fit(part.subs.items());
}

fn tuples_fit(tuples: &[BoundTuple])
    ensures { All (λ tuple. All FitsBound tuple) tuples.now }
{
    for tuple in tuples {
        tuple_fits(tuple.items());
    }
}

fn tuple_fits(bounds: &[Bound])
    ensures { All FitsBound bounds.now }
{
    for bound in bounds {
        bound_fits(bound);
    }
}

fn bound_fits(bound: &Bound)
    ensures { FitsBound bound.now }
{
    match bound {
        Bound::Val(cell) => cell_fits(cell),
        Bound::Max => {}
    }
}

fn names_fit(names: &[Ident])
    ensures { All IsIdent names.now }
{
    for name in names {
        name_fits(name);
    }
}

/// Every name in memory is an identifier.
pub fn name_fits(name: &Ident)
    ensures { IsIdent name.now }
{
    name.bytes();
}
