ghost use Rattle.std.specs.Prelude.{◌≡◌, ◌<◌, false, true, length, map, slice_set, IfOk};
ghost use Rattle.pt_expr.specs.Columns.{AreFitting};
ghost use Rattle.pt_place.specs.Fitting.{is_of_kind, kind_at};
ghost use Rattle.pt_place.specs.Valid.{IsValid};
ghost use Rattle.pt_value.specs.Cell.{lent};
ghost use Rattle.pt_value.specs.Fits.{Fits};
ghost use Rattle.pt_checks.specs.Assigned.{AreAssignable, IsSource, are_same, default_at, is_wrong_null, set_targets, source_value, updated_cells};
ghost use Rattle.pt_checks.specs.Assigning.{IsKept, assign, assign_all, roomy, with_assigned};
ghost use Rattle.pt_checks.specs.Cells.{default_of, lacks_value};
ghost use Rattle.pt_checks.specs.Given.{Gives};

use crate::faults::CellsFault;
use crate::named::Targets;
use crate::new_row::{default_of, is_lacking};
use crate::values::{is_date, is_in_range, kept, kind_at};
use pt_ast::{Arg, Assigns, Cells, Columns, Refusal, TableDef, ValueSpec};
use pt_expr::eval;
use pt_value::{Cell, Ident, Kind, Value};
use std::alloc::{AllocError, Global};

/// The cells of a row while assignments are made, and whether a NOT NULL column was given NULL.
#[derive(Drop)]
pub(crate) struct Assigning {
    cells: Cells,
    wrong: bool,
}

/// The cells of the row of this number, from 1, once the assignments are made, or why it is refused: a value that its column has no room
/// for, and then NULL for a NOT NULL column; each value counts, also where a later assignment sets the same column. The cells fit the
/// columns. It copies the cells once for each assignment.
pub fn updated_cells(
    alloc: Global,
    def: &TableDef,
    targets: &Targets,
    assigns: &Assigns,
    number: u64,
    cells: &Cells,
) -> Result<Cells, CellsFault>
    requires valid { IsValid def.now }
    requires targets { targets.now ≡ set_targets def.now.columns assigns.now }
    requires assignable { AreAssignable def.now.columns assigns.now }
    requires fitting { AreFitting def.now.columns cells.now }
    requires whole { lacks_value def.now.columns cells.now ≡ false }
    ensures cells { Gives (updated_cells def.now assigns.now number cells.now) result }
    ensures fitting { IfOk result (AreFitting def.now.columns) }
    ensures filled { IfOk result (λ cells. lacks_value def.now.columns cells ≡ false) }
{
    let start = Assigning {
        cells: cells.copy(alloc)?,
        wrong: false,
    };
    let assigned = assign_all(
        alloc,
        &def.columns,
        number,
        targets.items(),
        assigns.items(),
        start,
    )?;
    if assigned.wrong {
        return Err(CellsFault::Refused(Refusal::NullNotAllowed(number)));
    }
    Ok(assigned.cells)
}

/// Makes these assignments, one after the other.
fn assign_all(
    alloc: Global,
    columns: &Columns,
    number: u64,
    targets: &[usize],
    assigns: &[(Ident, ValueSpec)],
    start: Assigning,
) -> Result<Assigning, CellsFault>
    requires targets { targets.now ≡ set_targets columns.now assigns.now }
    requires assignable { AreAssignable columns.now assigns.now }
    requires defaults { AreFitting columns.now (map default_of columns.now) }
    requires fitting { AreFitting columns.now start.cells }
    requires kept { IsKept columns.now start }
    ensures value { Gives (assign_all columns.now number start assigns.now) result }
    ensures fitting { IfOk result (λ now. AreFitting columns.now now.cells) }
    ensures kept { IfOk result (IsKept columns.now) }
{
    let mut made = start;
    for (at, (_, spec)) in assigns.iter().enumerate() {
        made = assign(alloc, columns, number, targets[at], spec, &made)?;
    }
    Ok(made)
}

/// Makes an assignment to the column at a position.
fn assign(
    alloc: Global,
    columns: &Columns,
    number: u64,
    at: usize,
    spec: &ValueSpec,
    before: &Assigning,
) -> Result<Assigning, CellsFault>
    requires below { at < length columns.now }
    requires source { IsSource columns.now at spec.now }
    requires defaults { AreFitting columns.now (map default_of columns.now) }
    requires fitting { AreFitting columns.now before.now.cells }
    requires kept { IsKept columns.now before.now }
    ensures value { Gives (assign columns.now number before.now at spec.now) result }
    ensures fitting { IfOk result (λ later. AreFitting columns.now later.cells) }
    ensures kept { IfOk result (IsKept columns.now) }
{
    let value = source_value(alloc, columns, number, at, spec, &before.cells)?;
    Ok(with_assigned(alloc, columns, before, at, value)?)
}

/// With this value in the column at a position.
fn with_assigned(
    alloc: Global,
    columns: &Columns,
    before: &Assigning,
    at: usize,
    value: Value,
) -> Result<Assigning, AllocError>
    requires { at < length before.now.cells }
    ensures { IfOk result (λ later. later ≡ with_assigned columns.now before.now at value) }
{
    let wrong = is_wrong_null(columns, at, &value);
    let cells = with_cell(alloc, before.cells.items(), at, value)?;
    Ok(Assigning {
        cells,
        wrong: before.wrong || wrong,
    })
}

/// Whether the value is NULL, and the column at a position NOT NULL.
fn is_wrong_null(columns: &Columns, at: usize, value: &Value) -> bool
    ensures { result ≡ is_wrong_null columns.now (at, value.now) }
{
    match columns.items().get(at) {
        Some(column) => is_lacking(column, value),
        None => false,
    }
}

/// The value for the column at a position, over these cells, where the column has room for it.
fn source_value(
    alloc: Global,
    columns: &Columns,
    number: u64,
    at: usize,
    spec: &ValueSpec,
    cells: &Cells,
) -> Result<Value, CellsFault>
    requires below { at < length columns.now }
    requires source { IsSource columns.now at spec.now }
    requires defaults { AreFitting columns.now (map default_of columns.now) }
    requires fitting { AreFitting columns.now cells.now }
    ensures value { Gives (roomy (kind_at columns.now at) number (source_value columns.now cells.now at spec.now)) result }
    ensures fits { IfOk result (Fits (kind_at columns.now at)) }
{
    match spec {
        ValueSpec::Default => Ok(default_at(alloc, columns, at)?),
        ValueSpec::Value(expr) => {
            let kind = kind_at(columns, at);
            roomy(
                alloc,
                number,
                kind,
                eval(columns, expr, is_date(kind), cells),
            )
        }
    }
}

/// The default of the column at a position.
fn default_at(alloc: Global, columns: &Columns, at: usize) -> Result<Value, AllocError>
    ensures { IfOk result (λ value. value ≡ default_at columns.now at) }
{
    match columns.items().get(at) {
        Some(column) => default_of(alloc, column),
        None => Ok(Value::Null),
    }
}

/// A value of a calculation that a column of this kind has room for.
fn roomy(alloc: Global, number: u64, kind: Kind, cell: Cell) -> Result<Value, CellsFault>
    requires { is_of_kind kind (lent cell) ≡ true }
    ensures value { Gives (roomy kind number (lent cell.entry)) result }
    ensures fits { IfOk result (Fits kind) }
{
    if !is_in_range(kind, cell) {
        return Err(CellsFault::Refused(Refusal::OutOfRange(Arg::Number(number))));
    }
    Ok(kept(alloc, kind, cell)?)
}

/// Equal cells, but for this value in the place at `at`.
fn with_cell(alloc: Global, cells: &[Value], at: usize, value: Value) -> Result<Cells, AllocError>
    requires { at < length cells.now }
    ensures { IfOk result (λ set. set ≡ slice_set cells.now at value) }
{
    let mut values = copied(alloc, cells)?;
    values[at] = value;
    Ok(Cells::of(values))
}

fn copied(alloc: Global, cells: &[Value]) -> Result<Vec<Value>, AllocError>
    ensures { IfOk result (λ values. values.items ≡ cells.now) }
{
    let mut values = Vec::new(alloc);
    for value in cells {
        values.push(value.copy(alloc)?)?;
    }
    Ok(values)
}

/// Whether each value is as it was; NULL is the same as NULL. It takes no memory.
pub fn are_same(a: &Cells, b: &Cells) -> bool
    ensures { result ≡ are_same a.now b.now }
{
    a.items() == b.items()
}
