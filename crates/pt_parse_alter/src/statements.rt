ghost use Rattle.std.specs.Prelude.{◌≡◌, ◌+◌, ◌≤◌, length, drop};
ghost use Rattle.pt_parse_expr.specs.Placing.{Reaches, Reads};
ghost use Rattle.pt_parse_ddl.specs.Steps as steps;
ghost use Rattle.pt_parse_alter.specs.Reader as spec;

use crate::actions::{added, by_word, dropped};
use pt_ast::Stmt;
use pt_parse_ddl::name;
use pt_parse_expr::{Mark, Reading, Reserved, Symbol, peek};
use pt_value::Ident;
use std::alloc::Global;

/// What is done to a table.
#[tactic(auto, unfolding(crate::specs::Reader::action))]
fn action(alloc: Global, symbols: &[Symbol], at: usize, table: &Ident) -> Reading<Stmt>
    requires { at ≤ length symbols.now }
    ensures reads { Reads symbols.now result (spec.action steps.whole table.now (drop at symbols.now)) }
    ensures place { Reaches (at + 1) symbols.now result }
{
    match peek(symbols, at) {
        Some(Symbol::Fixed(Mark::Other(Reserved::Add))) => added(alloc, symbols, at + 1, table),
        Some(Symbol::Fixed(Mark::Other(Reserved::Drop))) => dropped(alloc, symbols, at + 1, table),
        _ => by_word(alloc, symbols, at, table),
    }
}

/// What stands behind ALTER.
#[tactic(auto, unfolding(crate::specs::Reader::altered))]
fn altered(alloc: Global, symbols: &[Symbol], at: usize) -> Reading<Stmt>
    requires { at ≤ length symbols.now }
    ensures reads { Reads symbols.now result (spec.altered steps.whole (drop at symbols.now)) }
    ensures place { Reaches (at + 1) symbols.now result }
{
    let Some(Symbol::Fixed(Mark::Other(Reserved::Table))) = peek(symbols, at) else {
        return Ok(None);
    };
    match name(symbols, at + 1) {
        None => Ok(None),
        Some((table, next)) => action(alloc, symbols, next, &table),
    }
}

/// A statement.
#[tactic(auto, unfolding(crate::specs::Reader::statement))]
pub(crate) fn statement(alloc: Global, symbols: &[Symbol], at: usize) -> Reading<Stmt>
    requires { at ≤ length symbols.now }
    ensures reads { Reads symbols.now result (spec.statement steps.whole (drop at symbols.now)) }
    ensures place { Reaches (at + 1) symbols.now result }
{
    match peek(symbols, at) {
        Some(Symbol::Fixed(Mark::Other(Reserved::Alter))) => altered(alloc, symbols, at + 1),
        _ => Ok(None),
    }
}
