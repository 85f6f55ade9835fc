ghost use Rattle.std.specs.Prelude.{◌≡◌, ◌+◌, ◌≤◌, length, drop, Some, IfOk};
ghost use Rattle.pt_ast.specs.declared.statement.Stmt.TheVariants as stmt;
ghost use Rattle.pt_parse_expr.specs.Placing.{Reaches, Reads};
ghost use Rattle.pt_parse_ddl.specs.Steps as steps;
ghost use Rattle.pt_parse_dml.specs.Reader as reader;
ghost use Rattle.pt_parse_dml.specs.RowReader as spec;
ghost use Rattle.pt_parse_dml.specs.TailReader.{whole_cond};

use crate::rows::read_value;
use crate::tails::tail;
use crate::targets::{Target, read_target};
use pt_ast::{Assigns, Cmp, Stmt, Tail, ValueSpec};
use pt_parse_ddl::{Rule, name, several};
use pt_parse_expr::{Mark, Reading, Reserved, Symbol, beside, peek};
use pt_value::Ident;
use std::alloc::{AllocError, Global};

/// A column and its value, behind `=`.
fn assigned(
    alloc: Global,
    symbols: &[Symbol],
    at: usize,
    column: &Ident,
) -> Reading<(Ident, ValueSpec)>
    requires { at ≤ length symbols.now }
    ensures reads { Reads symbols.now result (spec.assigned steps.whole column.now (drop at symbols.now)) }
    ensures place { Reaches (at + 1) symbols.now result }
{
    match read_value(alloc, symbols, at)? {
        None => Ok(None),
        Some((value, next)) => Ok(Some(((*column, value), next))),
    }
}

/// A column and its value, behind the name of the column.
#[tactic(auto, unfolding(crate::specs::RowReader::assigned_to))]
fn assigned_to(
    alloc: Global,
    symbols: &[Symbol],
    at: usize,
    column: &Ident,
) -> Reading<(Ident, ValueSpec)>
    requires { at ≤ length symbols.now }
    ensures reads { Reads symbols.now result (spec.assigned_to steps.whole column.now (drop at symbols.now)) }
    ensures place { Reaches (at + 1) symbols.now result }
{
    match peek(symbols, at) {
        Some(Symbol::Fixed(Mark::Compare(Cmp::Eq))) => assigned(alloc, symbols, at + 1, column),
        _ => Ok(None),
    }
}

/// A column and the value that it is assigned.
struct AssignRule;

impl Rule<(Ident, ValueSpec)> for AssignRule {
    ghost reading = { spec.assign steps.whole };

    #[tactic(auto, unfolding(crate::specs::RowReader::assign))]
    fn read(alloc: Global, symbols: &[Symbol], at: usize) -> Reading<(Ident, ValueSpec)> {
        let Some((column, next)) = name(symbols, at) else {
            return Ok(None);
        };
        assigned_to(alloc, symbols, next, &column)
    }
}

/// SET, and the columns behind it, each with the value that it is assigned.
#[tactic(auto, unfolding(crate::specs::RowReader::assigns))]
fn assigns(alloc: Global, symbols: &[Symbol], at: usize) -> Reading<Assigns>
    requires { at ≤ length symbols.now }
    ensures reads { Reads symbols.now result (spec.assigns steps.whole (drop at symbols.now)) }
    ensures place { Reaches (at + 1) symbols.now result }
{
    match peek(symbols, at) {
        Some(Symbol::Fixed(Mark::Other(Reserved::Set))) => {
            several::<(Ident, ValueSpec), AssignRule>(alloc, symbols, at + 1)
        }
        _ => Ok(None),
    }
}

/// The statement that assigns these values to those rows of a table.
fn updated(on: Target, assigns: Assigns, tail: Tail) -> Stmt
    ensures { result ≡ stmt.Update on.table on.parts assigns tail }
{
    Stmt::Update(on.table, on.parts, assigns, tail)
}

/// Which rows are updated, behind what is assigned.
fn with_assigns(
    alloc: Global,
    symbols: &[Symbol],
    at: usize,
    on: Target,
    assigns: Assigns,
) -> Result<(Stmt, usize), AllocError>
    requires { at ≤ length symbols.now }
    ensures reads { IfOk result (λ p. reader.with_assigns steps.whole whole_cond on assigns (drop at symbols.now) ≡ Some (p.0, drop p.1 symbols.now)) }
    ensures place { IfOk result (λ p. (at ≤ p.1) × (p.1 ≤ length symbols.now)) }
{
    let ((on, assigns), (tail, next)) = beside((on, assigns), tail(alloc, symbols, at))?;
    Ok((updated(on, assigns, tail), next))
}

/// An update, behind the table that it speaks of.
fn with_target(alloc: Global, symbols: &[Symbol], at: usize, on: Target) -> Reading<Stmt>
    requires { at ≤ length symbols.now }
    ensures reads { Reads symbols.now result (reader.with_target steps.whole whole_cond on (drop at symbols.now)) }
    ensures place { Reaches (at + 1) symbols.now result }
{
    let (on, read) = beside(on, assigns(alloc, symbols, at))?;
    match read {
        None => Ok(None),
        Some((assigns, next)) => Ok(Some(with_assigns(alloc, symbols, next, on, assigns)?)),
    }
}

/// Rows that are updated, behind UPDATE.
#[tactic(auto, unfolding(crate::specs::Reader::update))]
pub(crate) fn update(alloc: Global, symbols: &[Symbol], at: usize) -> Reading<Stmt>
    requires { at ≤ length symbols.now }
    ensures reads { Reads symbols.now result (reader.update steps.whole whole_cond (drop at symbols.now)) }
    ensures place { Reaches (at + 1) symbols.now result }
{
    match read_target(alloc, symbols, at)? {
        None => Ok(None),
        Some((on, next)) => with_target(alloc, symbols, next, on),
    }
}
