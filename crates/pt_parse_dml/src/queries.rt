ghost use Rattle.std.specs.Prelude.{◌≡◌, ◌+◌, ◌≤◌, length, drop};
ghost use Rattle.pt_parse_expr.specs.Placing.{Reaches, Reads};
ghost use Rattle.pt_parse_ddl.specs.Steps as steps;
ghost use Rattle.pt_parse_dml.specs.Reader as spec;
ghost use Rattle.pt_parse_dml.specs.TailReader.{whole_cond};

use crate::tails::{Source, read_source};
use pt_ast::{Expr, Exprs, Query};
use pt_parse_ddl::{Rule, several};
use pt_parse_expr::{Mark, Reading, Reserved, Symbol, beside, peek, read_expr};
use std::alloc::Global;

/// An expression.
struct ExprRule;

impl Rule<Expr> for ExprRule {
    ghost reading = { steps.whole };

    #[tactic(auto, unfolding(pt_parse_ddl::specs::Steps::whole))]
    fn read(alloc: Global, symbols: &[Symbol], at: usize) -> Reading<Expr> {
        read_expr(alloc, symbols, at)
    }
}

/// Expressions that are selected.
fn some_items(alloc: Global, symbols: &[Symbol], at: usize) -> Reading<Option<Exprs>>
    requires { at ≤ length symbols.now }
    ensures reads { Reads symbols.now result (spec.some_items steps.whole whole_cond (drop at symbols.now)) }
    ensures place { Reaches (at + 1) symbols.now result }
{
    match several::<Expr, ExprRule>(alloc, symbols, at)? {
        None => Ok(None),
        Some((exprs, next)) => Ok(Some((Some(exprs), next))),
    }
}

/// What is selected: `None` for `*`.
#[tactic(auto, unfolding(crate::specs::Reader::items))]
fn items(alloc: Global, symbols: &[Symbol], at: usize) -> Reading<Option<Exprs>>
    requires { at ≤ length symbols.now }
    ensures reads { Reads symbols.now result (spec.items steps.whole whole_cond (drop at symbols.now)) }
    ensures place { Reaches (at + 1) symbols.now result }
{
    match peek(symbols, at) {
        Some(Symbol::Fixed(Mark::Star)) => Ok(Some((None, at + 1))),
        _ => some_items(alloc, symbols, at),
    }
}

/// The query that selects these expressions of those rows.
fn selected(items: Option<Exprs>, from: Source) -> Query
    ensures { result ≡ spec.selected items from }
{
    Query {
        items,
        table: from.target.table,
        parts: from.target.parts,
        tail: from.tail,
    }
}

/// A query, behind what is selected.
fn with_items(alloc: Global, symbols: &[Symbol], at: usize, items: Option<Exprs>) -> Reading<Query>
    requires { at ≤ length symbols.now }
    ensures reads { Reads symbols.now result (spec.with_items steps.whole whole_cond items (drop at symbols.now)) }
    ensures place { Reaches (at + 1) symbols.now result }
{
    let (items, read) = beside(items, read_source(alloc, symbols, at))?;
    match read {
        None => Ok(None),
        Some((from, next)) => Ok(Some((selected(items, from), next))),
    }
}

/// What stands behind SELECT.
#[tactic(auto, unfolding(crate::specs::Reader::query))]
pub(crate) fn query(alloc: Global, symbols: &[Symbol], at: usize) -> Reading<Query>
    requires { at ≤ length symbols.now }
    ensures reads { Reads symbols.now result (spec.query steps.whole whole_cond (drop at symbols.now)) }
    ensures place { Reaches (at + 1) symbols.now result }
{
    match items(alloc, symbols, at)? {
        None => Ok(None),
        Some((items, next)) => with_items(alloc, symbols, next, items),
    }
}

/// A query with its SELECT.
#[tactic(auto, unfolding(crate::specs::Reader::whole_query))]
pub(crate) fn whole_query(alloc: Global, symbols: &[Symbol], at: usize) -> Reading<Query>
    requires { at ≤ length symbols.now }
    ensures reads { Reads symbols.now result (spec.whole_query steps.whole whole_cond (drop at symbols.now)) }
    ensures place { Reaches (at + 1) symbols.now result }
{
    match peek(symbols, at) {
        Some(Symbol::Fixed(Mark::Other(Reserved::Select))) => query(alloc, symbols, at + 1),
        _ => Ok(None),
    }
}
