ghost use Rattle.std.specs.Prelude.{◌≡◌, ◌<◌, ◌&&◌, All, false, length, map, zip, IfNone, IfOk, OnOk};
ghost use Rattle.pt_expr.specs.Columns.{AreFitting};
ghost use Rattle.pt_place.specs.Checks.{is_null};
ghost use Rattle.pt_place.specs.First.{first_in};
ghost use Rattle.pt_place.specs.Valid.{IsValid};
ghost use Rattle.pt_checks.specs.Cells.{bad_given, cells_of, default_of, lacks_value, row_of, with_value};
ghost use Rattle.pt_checks.specs.Given.{AreGiven, Gives, IsGiven};

use crate::faults::CellsFault;
use crate::named::Targets;
use crate::values::{bad_expr, kind_at, value_of};
use pt_ast::{Cells, Column, Columns, Refusal, TableDef, ValueSpec, ValueSpecs};
use pt_value::Value;
use std::alloc::{AllocError, Global};

/// The cells of the row of VALUES of this number, from 1, that gives values to the columns at these positions, or why it is refused: by how
/// many values there are, then by each value in its order, then by NULL in a NOT NULL column. The cells fit the columns. It is linear in the
/// columns and the values.
pub fn new_cells(
    alloc: Global,
    def: &TableDef,
    targets: &Targets,
    number: u64,
    specs: &ValueSpecs,
) -> Result<Cells, CellsFault>
    requires valid { IsValid def.now }
    requires below { All (λ at. at < length def.now.columns) targets.now }
    ensures cells { Gives (cells_of def.now targets.now number specs.now) result }
    ensures fitting { IfOk result (AreFitting def.now.columns) }
    ensures filled { IfOk result (λ cells. lacks_value def.now.columns cells ≡ false) }
{
    if specs.items().len() != targets.items().len() {
        return Err(CellsFault::Refused(Refusal::WrongCount(number)));
    }
    if let Some(refusal) = bad_values(alloc, &def.columns, number, targets.items(), specs.items()) {
        return Err(CellsFault::Refused(refusal));
    }
    let cells = row_of(alloc, &def.columns, targets.items(), specs.items())?;
    if lacks_value(def.columns.items(), cells.as_slice()) {
        return Err(CellsFault::Refused(Refusal::NullNotAllowed(number)));
    }
    Ok(Cells::of(cells))
}

/// The first value that is refused.
fn bad_values(
    alloc: Global,
    columns: &Columns,
    number: u64,
    targets: &[usize],
    specs: &[ValueSpec],
) -> Option<Refusal>
    requires { length specs.now ≡ length targets.now }
    ensures refusal { result ≡ first_in (bad_given columns.now number) (zip targets.now specs.now) }
    ensures passed { IfNone result (AreGiven columns.now targets.now specs.now (length specs.now)) }
{
    for (at, spec) in specs.iter().enumerate() {
        if let Some(refusal) = bad_given(alloc, columns, number, targets[at], spec) {
            return Some(refusal);
        }
    }
    None
}

/// What is refused of a value for the column at a position.
fn bad_given(
    alloc: Global,
    columns: &Columns,
    number: u64,
    at: usize,
    spec: &ValueSpec,
) -> Option<Refusal>
    ensures refusal { result ≡ bad_given columns.now number (at, spec.now) }
    ensures passed { IfNone result (IsGiven columns.now at spec.now) }
{
    match spec {
        ValueSpec::Default => None,
        ValueSpec::Value(expr) => bad_expr(alloc, number, kind_at(columns, at), expr),
    }
}

/// The defaults of all columns, with each value in the place of its column.
fn row_of(
    alloc: Global,
    columns: &Columns,
    targets: &[usize],
    specs: &[ValueSpec],
) -> Result<Vec<Value>, AllocError>
    requires alike { length specs.now ≡ length targets.now }
    requires below { All (λ at. at < length columns.now) targets.now }
    requires given { AreGiven columns.now targets.now specs.now (length specs.now) }
    requires defaults { AreFitting columns.now (map default_of columns.now) }
    ensures cells { IfOk result (λ cells. cells.items ≡ row_of columns.now (zip targets.now specs.now)) }
    ensures fitting { IfOk result (λ cells. AreFitting columns.now cells.items) }
{
    let mut cells = defaults(alloc, columns.items())?;
    for (at, spec) in specs.iter().enumerate() {
        put_value(alloc, columns, targets[at], spec, &mut cells)?;
    }
    Ok(cells)
}

/// Puts a value in the place of the column at a position; DEFAULT leaves the default.
fn put_value(
    alloc: Global,
    columns: &Columns,
    at: usize,
    spec: &ValueSpec,
    cells: &mut Vec<Value>,
) -> Result<(), AllocError>
    requires fitting { AreFitting columns.now cells.old.items }
    requires below { at < length columns.now }
    requires given { IsGiven columns.now at spec.now }
    ensures cells { OnOk result (cells.new.items ≡ with_value columns.now cells.old.items (at, spec.now)) }
    ensures fitting { OnOk result (AreFitting columns.now cells.new.items) }
{
    match spec {
        ValueSpec::Default => Ok(()),
        ValueSpec::Value(expr) => {
            let value = value_of(alloc, kind_at(columns, at), expr)?;
            cells[at] = value;
            Ok(())
        }
    }
}

fn defaults(alloc: Global, columns: &[Column]) -> Result<Vec<Value>, AllocError>
    ensures { IfOk result (λ cells. cells.items ≡ map default_of columns.now) }
{
    let mut cells = Vec::new(alloc);
    for column in columns {
        cells.push(default_of(alloc, column)?)?;
    }
    Ok(cells)
}

/// The default of a column, NULL where there is none.
pub(crate) fn default_of(alloc: Global, column: &Column) -> Result<Value, AllocError>
    ensures { IfOk result (λ value. value ≡ default_of column.now) }
{
    match &column.default {
        Some(value) => value.copy(alloc),
        None => Ok(Value::Null),
    }
}

/// Whether a NOT NULL column has NULL.
fn lacks_value(columns: &[Column], cells: &[Value]) -> bool
    requires { length columns.now ≡ length cells.now }
    ensures { result ≡ lacks_value columns.now cells.now }
{
    for (at, column) in columns.iter().enumerate() {
        if is_lacking(column, &cells[at]) {
            return true;
        }
    }
    false
}

pub(crate) fn is_lacking(column: &Column, value: &Value) -> bool
    ensures { result ≡ (column.now.not_null && is_null value.now) }
{
    column.not_null && is_null(value)
}

fn is_null(value: &Value) -> bool
    ensures { result ≡ is_null value.now }
{
    matches!(value, Value::Null)
}
