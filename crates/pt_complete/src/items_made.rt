ghost use Rattle.std.specs.Prelude.{◌≡◌, ◌∷◌, [], Some, All, IfOk, map};
ghost use Rattle.pt_value.specs.Cell.{lent};
ghost use Rattle.pt_complete.specs.Making.{AreConstants, AreSoundValues, CanKeep, IsConstant, IsConstantExpr};
ghost use Rattle.pt_place.specs.Fitting.{kinds_of};
ghost use Rattle.pt_written.specs.ReadingValues.{tuples_written};
ghost use Rattle.pt_written.specs.WrittenParts.{bound_of, bounds_of, entry_items, is_date, tuple_of, worth};

use pt_ast::{
    Bound, BoundSpec, BoundTuple, Cells, Columns, Entry, Expr, PartBy, Tuples, ValuesSpec,
};
use pt_expr::eval;
use pt_place::kind_of;
use pt_value::{Bin, Cell, Kind, Value};
use std::alloc::{AllocError, Global};

/// The bounds of a partition.
pub fn bounds_of(
    alloc: Global,
    columns: &Columns,
    by: &PartBy,
    values: &Option<ValuesSpec>,
) -> Result<Tuples, AllocError>
    requires { AreSoundValues columns.now by.now values.now }
    ensures { IfOk result (λ bounds. bounds ≡ bounds_of (kinds_of columns.now by.now) by.now values.now) }
{
    tuples_of(alloc, columns, by, values)
}

fn tuples_of(
    alloc: Global,
    columns: &Columns,
    by: &PartBy,
    values: &Option<ValuesSpec>,
) -> Result<Tuples, AllocError>
    requires { All (AreConstants (kinds_of columns.now by.now)) (tuples_written values.now) }
    ensures { IfOk result (λ tuples. tuples ≡ map (tuple_of (kinds_of columns.now by.now)) (tuples_written values.now)) }
{
    match values {
        Some(values) => values_of(alloc, columns, by, values),
        None => Ok(Tuples::new(alloc)),
    }
}

fn values_of(
    alloc: Global,
    columns: &Columns,
    by: &PartBy,
    values: &ValuesSpec,
) -> Result<Tuples, AllocError>
    requires { All (AreConstants (kinds_of columns.now by.now)) (tuples_written (Some values.now)) }
    ensures { IfOk result (λ tuples. tuples ≡ map (tuple_of (kinds_of columns.now by.now)) (tuples_written (Some values.now))) }
{
    match values {
        ValuesSpec::LessMax => alone(alloc, max_tuple(alloc, columns, by)?),
        ValuesSpec::Less(items) => alone(alloc, tuple_of(alloc, columns, by, items.items())?),
        ValuesSpec::Among(entries) => entries_of(alloc, columns, by, entries.items()),
    }
}

/// The list of one tuple.
fn alone(alloc: Global, tuple: BoundTuple) -> Result<Tuples, AllocError>
    ensures { IfOk result (λ tuples. tuples ≡ tuple ∷ []) }
{
    let mut tuples = Tuples::new(alloc);
    tuples.push(tuple)?;
    Ok(tuples)
}

fn entries_of(
    alloc: Global,
    columns: &Columns,
    by: &PartBy,
    entries: &[Entry],
) -> Result<Tuples, AllocError>
    requires { All (λ entry. AreConstants (kinds_of columns.now by.now) (entry_items entry)) entries.now }
    ensures { IfOk result (λ tuples. tuples ≡ map (tuple_of (kinds_of columns.now by.now)) (map entry_items entries.now)) }
{
    let mut tuples = Tuples::new(alloc);
    for entry in entries {
        tuples.push(entry_of(alloc, columns, by, entry)?)?;
    }
    Ok(tuples)
}

fn entry_of(
    alloc: Global,
    columns: &Columns,
    by: &PartBy,
    entry: &Entry,
) -> Result<BoundTuple, AllocError>
    requires { AreConstants (kinds_of columns.now by.now) (entry_items entry.now) }
    ensures { IfOk result (λ tuple. tuple ≡ tuple_of (kinds_of columns.now by.now) (entry_items entry.now)) }
{
    match entry {
        Entry::One(item) => one_of(alloc, columns, by, item),
        Entry::Many(items) => tuple_of(alloc, columns, by, items.items()),
    }
}

/// The tuple of one item.
fn one_of(
    alloc: Global,
    columns: &Columns,
    by: &PartBy,
    item: &BoundSpec,
) -> Result<BoundTuple, AllocError>
    requires { AreConstants (kinds_of columns.now by.now) (item.now ∷ []) }
    ensures { IfOk result (λ tuple. tuple ≡ tuple_of (kinds_of columns.now by.now) (item.now ∷ [])) }
{
    let mut tuple = BoundTuple::new(alloc);
    let Some(kind) = kind_of(columns, by, 0) else {
        return Ok(tuple);
    };
    tuple.push(bound_of(alloc, kind, item)?)?;
    Ok(tuple)
}

/// The tuple of MAXVALUE alone.
fn max_tuple(alloc: Global, columns: &Columns, by: &PartBy) -> Result<BoundTuple, AllocError>
    ensures { IfOk result (λ tuple. tuple ≡ tuple_of (kinds_of columns.now by.now) (BoundSpec.Max ∷ [])) }
{
    let mut tuple = BoundTuple::new(alloc);
    let Some(_) = kind_of(columns, by, 0) else {
        return Ok(tuple);
    };
    tuple.push(Bound::Max)?;
    Ok(tuple)
}

fn tuple_of(
    alloc: Global,
    columns: &Columns,
    by: &PartBy,
    items: &[BoundSpec],
) -> Result<BoundTuple, AllocError>
    requires { AreConstants (kinds_of columns.now by.now) items.now }
    ensures { IfOk result (λ tuple. tuple ≡ tuple_of (kinds_of columns.now by.now) items.now) }
{
    let mut tuple = BoundTuple::new(alloc);
    for (at, item) in items.iter().enumerate() {
        let Some(kind) = kind_of(columns, by, at) else {
            return Ok(tuple);
        };
        tuple.push(bound_of(alloc, kind, item)?)?;
    }
    Ok(tuple)
}

/// A bound or a value of a list.
fn bound_of(alloc: Global, kind: Kind, item: &BoundSpec) -> Result<Bound, AllocError>
    requires { IsConstant kind item.now }
    ensures { IfOk result (λ bound. bound ≡ bound_of kind item.now) }
{
    match item {
        BoundSpec::Max => Ok(Bound::Max),
        BoundSpec::Value(expr) => Ok(Bound::Val(worth(alloc, kind, expr)?)),
    }
}

/// What a constant comes to: no column is there to be named.
fn worth(alloc: Global, kind: Kind, expr: &Expr) -> Result<Value, AllocError>
    requires { IsConstantExpr kind expr.now }
    ensures { IfOk result (λ value. value ≡ worth kind expr.now) }
{
    let columns = Columns::new(alloc);
    let cells = Cells::new(alloc);
    kept(alloc, worth_in(&columns, &cells, kind, expr))
}

fn worth_in<'a>(columns: &Columns, cells: &'a Cells, kind: Kind, expr: &'a Expr) -> Cell<'a>
    requires columns { columns.now ≡ [] }
    requires cells { cells.now ≡ [] }
    requires constant { IsConstantExpr kind expr.now }
    ensures worth { lent result ≡ worth kind expr.now }
    ensures keep { CanKeep (lent result) }
{
    eval(columns, expr, is_date(kind), cells)
}

/// The value that a cell lends.
fn kept(alloc: Global, cell: Cell<'_>) -> Result<Value, AllocError>
    requires { CanKeep (lent cell) }
    ensures { IfOk result (λ value. value ≡ lent cell.entry) }
{
    match cell {
        Cell::Null => Ok(Value::Null),
        Cell::Wide(n) => Ok(Value::Int(n as i64)),
        Cell::Day(day) => Ok(Value::Day(day)),
        Cell::Bytes(bytes) => Ok(Value::Bytes(Bin::from_slice(alloc, bytes)?)),
    }
}

fn is_date(kind: Kind) -> bool
    ensures { result ≡ is_date kind }
{
    matches!(kind, Kind::Date)
}
