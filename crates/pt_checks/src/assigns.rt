ghost use Rattle.std.specs.Prelude.{◌≡◌, ◌<◌, All, length, IfNone, IfOk};
ghost use Rattle.pt_ast.specs.declared.refusal.Arg.TheVariants.{Name};
ghost use Rattle.pt_expr.specs.Found.{checked};
ghost use Rattle.pt_place.specs.First.{first_in};
ghost use Rattle.pt_checks.specs.Assigned.{AreAssignable, bad_assign, bad_assigns, bad_source, bad_target, bad_update, set_targets, target_of};
ghost use Rattle.pt_checks.specs.Cells.{bad_kind, is_date};
ghost use Rattle.pt_checks.specs.Queries.{IsCheckedCond};

use crate::faults::of_fault;
use crate::named::{Targets, no_column};
use crate::queries::bad_tail;
use crate::values::{has_kind, is_date, kind_at};
use pt_ast::{Arg, Assigns, Columns, Expr, Refusal, TableDef, Tail, ValueSpec};
use pt_expr::check;
use pt_place::column_of;
use pt_value::{Ident, Kind};
use std::alloc::{AllocError, Global};

/// What is refused of an UPDATE of this table: the first column that is set and isn't there, then the values from left to right, then
/// WHERE, then ORDER BY. What isn't refused is well typed. It takes no memory.
pub fn bad_update(def: &TableDef, table: &Ident, assigns: &Assigns, tail: &Tail) -> Option<Refusal>
    ensures refusal { result ≡ bad_update def.now table.now assigns.now tail.now }
    ensures assignable { IfNone result (AreAssignable def.now.columns assigns.now) }
    ensures checked { IfNone result (IsCheckedCond def.now.columns tail.now.cond) }
{
    refused_of(def, table, assigns, tail)
}

fn refused_of(def: &TableDef, table: &Ident, assigns: &Assigns, tail: &Tail) -> Option<Refusal>
    ensures { result ≡ bad_update def.now table.now assigns.now tail.now }
{
    if let Some(refusal) = bad_assigns(table, &def.columns, assigns) {
        return Some(refusal);
    }
    bad_tail(def, table, tail)
}

fn bad_assigns(table: &Ident, columns: &Columns, assigns: &Assigns) -> Option<Refusal>
    ensures { result ≡ bad_assigns table.now columns.now assigns.now }
{
    if let Some(refusal) = missing_target(columns, assigns) {
        return Some(refusal);
    }
    bad_values(table, columns, assigns)
}

/// The first column that is set and isn't there.
fn missing_target(columns: &Columns, assigns: &Assigns) -> Option<Refusal>
    ensures { result ≡ first_in (bad_target columns.now) assigns.now }
{
    for (name, _) in assigns.items() {
        if let Some(refusal) = no_column(columns, name) {
            return Some(refusal);
        }
    }
    None
}

/// The first value that is refused.
fn bad_values(table: &Ident, columns: &Columns, assigns: &Assigns) -> Option<Refusal>
    ensures { result ≡ first_in (bad_assign table.now columns.now) assigns.now }
{
    for assign in assigns.items() {
        if let Some(refusal) = bad_assign(table, columns, assign) {
            return Some(refusal);
        }
    }
    None
}

fn bad_assign(table: &Ident, columns: &Columns, assign: &(Ident, ValueSpec)) -> Option<Refusal>
    ensures { result ≡ bad_assign table.now columns.now assign.now }
{
    let (name, spec) = assign;
    bad_source(table, columns, target_of(columns, name), spec)
}

/// What is refused of a value for the column at a position.
fn bad_source(table: &Ident, columns: &Columns, at: usize, spec: &ValueSpec) -> Option<Refusal>
    ensures { result ≡ bad_source table.now columns.now at spec.now }
{
    match spec {
        ValueSpec::Default => None,
        ValueSpec::Value(expr) => bad_kind(table, columns, kind_at(columns, at), expr),
    }
}

/// What is refused of an expression for a column of this kind: its first fault, then another kind.
fn bad_kind(table: &Ident, columns: &Columns, kind: Kind, expr: &Expr) -> Option<Refusal>
    ensures { result ≡ bad_kind (Name table.now) kind (checked columns.now expr.now (is_date kind)) }
{
    let table = Arg::Name(*table);
    let own = match check(columns, expr, is_date(kind)) {
        Err(fault) => return Some(of_fault(table, fault)),
        Ok(own) => own,
    };
    if !has_kind(kind, own) {
        return Some(Refusal::TypeMismatch(table));
    }
    None
}

/// The position of the column of this name, 0 where there is none.
fn target_of(columns: &Columns, name: &Ident) -> usize
    ensures { result ≡ target_of columns.now name.now }
{
    column_of(columns, name).unwrap_or(0)
}

/// The positions of the columns that assignments set, in their order.
pub fn set_targets(alloc: Global, def: &TableDef, assigns: &Assigns) -> Result<Targets, AllocError>
    ensures { IfOk result (λ found. found ≡ set_targets def.now.columns assigns.now) }
{
    let mut found = Targets::new(alloc);
    for (name, _) in assigns.items() {
        found.push(target_of(&def.columns, name))?;
    }
    Ok(found)
}
