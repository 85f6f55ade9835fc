ghost use Rattle.std.specs.Prelude.{◌≡◌, ◌+◌, ◌≤◌, length, drop};
ghost use Rattle.pt_parse_expr.specs.Placing.{Reaches, Reads};
ghost use Rattle.pt_parse_ddl.specs.Steps as steps;
ghost use Rattle.pt_parse_dml.specs.Reader as spec;
ghost use Rattle.pt_parse_dml.specs.Statements as grammar;
ghost use Rattle.pt_parse_dml.specs.TailReader.{whole_cond};

use crate::queries::{query, whole_query};
use crate::rows::new_rows;
use crate::tails::{Source, read_source};
use crate::updates::update;
use pt_ast::Stmt;
use pt_parse_expr::{Mark, Reading, Reserved, Symbol, peek};
use std::alloc::Global;

/// Whether IGNORE stands there, and the place behind it.
#[tactic(auto, unfolding(crate::specs::Reader::ignoring))]
fn ignoring(symbols: &[Symbol], at: usize) -> (bool, usize)
    requires { at ≤ length symbols.now }
    ensures reads { spec.ignoring (drop at symbols.now) ≡ (result.0, drop result.1 symbols.now) }
    ensures place { (at ≤ result.1) × (result.1 ≤ length symbols.now) }
{
    match peek(symbols, at) {
        Some(Symbol::Fixed(Mark::Other(Reserved::Ignore))) => (true, at + 1),
        _ => (false, at),
    }
}

/// Rows that are inserted, behind INSERT.
fn insert(alloc: Global, symbols: &[Symbol], at: usize) -> Reading<Stmt>
    requires { at ≤ length symbols.now }
    ensures reads { Reads symbols.now result (spec.insert steps.whole whole_cond (spec.ignoring (drop at symbols.now))) }
    ensures place { Reaches (at + 1) symbols.now result }
{
    let (ignores, next) = ignoring(symbols, at);
    match new_rows(alloc, symbols, next)? {
        None => Ok(None),
        Some((new, next)) => Ok(Some((Stmt::Insert(ignores, new), next))),
    }
}

/// Rows that replace others, behind REPLACE.
fn replace(alloc: Global, symbols: &[Symbol], at: usize) -> Reading<Stmt>
    requires { at ≤ length symbols.now }
    ensures reads { Reads symbols.now result (spec.replace steps.whole whole_cond (drop at symbols.now)) }
    ensures place { Reaches (at + 1) symbols.now result }
{
    match new_rows(alloc, symbols, at)? {
        None => Ok(None),
        Some((new, next)) => Ok(Some((Stmt::Replace(new), next))),
    }
}

/// The statement that takes these rows away.
fn deleted(from: Source) -> Stmt
    ensures { result ≡ spec.deleted from }
{
    Stmt::Delete(from.target.table, from.target.parts, from.tail)
}

/// Rows that are deleted, behind DELETE.
fn delete(alloc: Global, symbols: &[Symbol], at: usize) -> Reading<Stmt>
    requires { at ≤ length symbols.now }
    ensures reads { Reads symbols.now result (spec.delete steps.whole whole_cond (drop at symbols.now)) }
    ensures place { Reaches (at + 1) symbols.now result }
{
    match read_source(alloc, symbols, at)? {
        None => Ok(None),
        Some((from, next)) => Ok(Some((deleted(from), next))),
    }
}

/// Rows that are selected, behind SELECT.
fn select(alloc: Global, symbols: &[Symbol], at: usize) -> Reading<Stmt>
    requires { at ≤ length symbols.now }
    ensures reads { Reads symbols.now result (spec.select steps.whole whole_cond (drop at symbols.now)) }
    ensures place { Reaches (at + 1) symbols.now result }
{
    match query(alloc, symbols, at)? {
        None => Ok(None),
        Some((query, next)) => Ok(Some((Stmt::Select(query), next))),
    }
}

/// Whether a name is PARTITIONS, in any case of its letters.
fn is_partitions(name: &[u8]) -> bool
    ensures { result ≡ grammar.is_partitions name.now }
{
    name.eq_ignore_ascii_case(b"PARTITIONS")
}

/// The place behind PARTITIONS, where it stands.
#[tactic(auto, unfolding(crate::specs::Reader::past_partitions))]
fn behind_partitions(symbols: &[Symbol], at: usize) -> usize
    requires { at ≤ length symbols.now }
    ensures behind { spec.past_partitions (drop at symbols.now) ≡ drop result symbols.now }
    ensures place { (at ≤ result) × (result ≤ length symbols.now) }
{
    match peek(symbols, at) {
        Some(Symbol::Word(name)) if is_partitions(name.bytes()) => at + 1,
        _ => at,
    }
}

/// A query whose partitions are asked for, behind EXPLAIN.
fn explain(alloc: Global, symbols: &[Symbol], at: usize) -> Reading<Stmt>
    requires { at ≤ length symbols.now }
    ensures reads { Reads symbols.now result (spec.explain steps.whole whole_cond (drop at symbols.now)) }
    ensures place { Reaches (at + 1) symbols.now result }
{
    match whole_query(alloc, symbols, behind_partitions(symbols, at))? {
        None => Ok(None),
        Some((query, next)) => Ok(Some((Stmt::Explain(query), next))),
    }
}

/// A statement.
#[tactic(auto, unfolding(crate::specs::Reader::statement))]
pub(crate) fn statement(alloc: Global, symbols: &[Symbol], at: usize) -> Reading<Stmt>
    requires { at ≤ length symbols.now }
    ensures reads { Reads symbols.now result (spec.statement steps.whole whole_cond (drop at symbols.now)) }
    ensures place { Reaches (at + 1) symbols.now result }
{
    match peek(symbols, at) {
        Some(Symbol::Fixed(Mark::Other(Reserved::Insert))) => insert(alloc, symbols, at + 1),
        Some(Symbol::Fixed(Mark::Other(Reserved::Replace))) => replace(alloc, symbols, at + 1),
        Some(Symbol::Fixed(Mark::Other(Reserved::Update))) => update(alloc, symbols, at + 1),
        Some(Symbol::Fixed(Mark::Other(Reserved::Delete))) => delete(alloc, symbols, at + 1),
        Some(Symbol::Fixed(Mark::Other(Reserved::Select))) => select(alloc, symbols, at + 1),
        Some(Symbol::Fixed(Mark::Other(Reserved::Explain))) => explain(alloc, symbols, at + 1),
        _ => Ok(None),
    }
}
