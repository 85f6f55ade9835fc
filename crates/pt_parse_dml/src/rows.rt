ghost use Rattle.std.specs.Prelude.{◌≡◌, ◌+◌, ◌≤◌, length, drop};
ghost use Rattle.pt_parse_expr.specs.Placing.{Reaches, Reads};
ghost use Rattle.pt_parse_ddl.specs.Steps as steps;
ghost use Rattle.pt_parse_dml.specs.RowReader as spec;

use crate::targets::{Target, read_target};
use pt_ast::{Idents, NewRows, ValueRows, ValueSpec, ValueSpecs};
use pt_parse_ddl::{Rule, column_names, listed, optional, several};
use pt_parse_expr::{Mark, Reading, Reserved, Symbol, beside, peek, read_expr};
use std::alloc::Global;

/// An expression as a value.
#[tactic(auto, unfolding(pt_parse_ddl::specs::Steps::whole))]
fn expression(alloc: Global, symbols: &[Symbol], at: usize) -> Reading<ValueSpec>
    requires { at ≤ length symbols.now }
    ensures reads { Reads symbols.now result (spec.expression steps.whole (drop at symbols.now)) }
    ensures place { Reaches (at + 1) symbols.now result }
{
    match read_expr(alloc, symbols, at)? {
        None => Ok(None),
        Some((x, next)) => Ok(Some((ValueSpec::Value(x), next))),
    }
}

/// A value: DEFAULT by itself, or an expression.
#[tactic(auto, unfolding(crate::specs::RowReader::value_spec))]
pub(crate) fn read_value(alloc: Global, symbols: &[Symbol], at: usize) -> Reading<ValueSpec>
    requires { at ≤ length symbols.now }
    ensures reads { Reads symbols.now result (spec.value_spec steps.whole (drop at symbols.now)) }
    ensures place { Reaches (at + 1) symbols.now result }
{
    match peek(symbols, at) {
        Some(Symbol::Fixed(Mark::Other(Reserved::Default))) => {
            Ok(Some((ValueSpec::Default, at + 1)))
        }
        _ => expression(alloc, symbols, at),
    }
}

/// A value.
struct ValueRule;

impl Rule<ValueSpec> for ValueRule {
    ghost reading = { spec.value_spec steps.whole };

    fn read(alloc: Global, symbols: &[Symbol], at: usize) -> Reading<ValueSpec> {
        read_value(alloc, symbols, at)
    }
}

/// The values of a row in parentheses.
struct RowRule;

impl Rule<ValueSpecs> for RowRule {
    ghost reading = { steps.tuple (spec.value_spec steps.whole) };

    fn read(alloc: Global, symbols: &[Symbol], at: usize) -> Reading<ValueSpecs> {
        listed::<ValueSpec, ValueRule>(alloc, symbols, at)
    }
}

/// VALUES, and the rows behind it.
#[tactic(auto, unfolding(crate::specs::RowReader::value_rows))]
fn value_rows(alloc: Global, symbols: &[Symbol], at: usize) -> Reading<ValueRows>
    requires { at ≤ length symbols.now }
    ensures reads { Reads symbols.now result (spec.value_rows steps.whole (drop at symbols.now)) }
    ensures place { Reaches (at + 1) symbols.now result }
{
    match peek(symbols, at) {
        Some(Symbol::Fixed(Mark::Other(Reserved::Values))) => {
            several::<ValueSpecs, RowRule>(alloc, symbols, at + 1)
        }
        _ => Ok(None),
    }
}

/// Columns in parentheses.
struct ColumnsRule;

impl Rule<Idents> for ColumnsRule {
    ghost reading = { steps.tuple steps.named };

    fn read(alloc: Global, symbols: &[Symbol], at: usize) -> Reading<Idents> {
        column_names(alloc, symbols, at)
    }
}

/// The place behind INTO, where it stands.
#[tactic(auto, unfolding(crate::specs::RowReader::past_into))]
fn behind_into(symbols: &[Symbol], at: usize) -> usize
    requires { at ≤ length symbols.now }
    ensures behind { spec.past_into (drop at symbols.now) ≡ drop result symbols.now }
    ensures place { (at ≤ result) × (result ≤ length symbols.now) }
{
    match peek(symbols, at) {
        Some(Symbol::Fixed(Mark::Other(Reserved::Into))) => at + 1,
        _ => at,
    }
}

/// Rows for a table, behind its name and its partitions.
fn with_rows(alloc: Global, symbols: &[Symbol], at: usize, on: Target) -> Reading<NewRows>
    requires { at ≤ length symbols.now }
    ensures reads { Reads symbols.now result (spec.with_rows steps.whole on (drop at symbols.now)) }
    ensures place { Reaches (at + 1) symbols.now result }
{
    let Target { table, parts } = on;
    let (parts, (columns, next)) = beside(
        parts,
        optional::<Idents, ColumnsRule>(alloc, symbols, at),
    )?;
    let ((parts, columns), read) = beside((parts, columns), value_rows(alloc, symbols, next))?;
    match read {
        None => Ok(None),
        Some((rows, next)) => {
            let new = NewRows {
                table,
                parts,
                columns,
                rows,
            };
            Ok(Some((new, next)))
        }
    }
}

/// What stands behind INSERT [IGNORE], and behind REPLACE.
#[tactic(auto, unfolding(crate::specs::RowReader::new_rows))]
pub(crate) fn new_rows(alloc: Global, symbols: &[Symbol], at: usize) -> Reading<NewRows>
    requires { at ≤ length symbols.now }
    ensures reads { Reads symbols.now result (spec.new_rows steps.whole (drop at symbols.now)) }
    ensures place { Reaches (at + 1) symbols.now result }
{
    match read_target(alloc, symbols, behind_into(symbols, at))? {
        None => Ok(None),
        Some((on, next)) => with_rows(alloc, symbols, next, on),
    }
}
