ghost use Rattle.std.specs.Prelude.{◌≡◌, IfNone};
ghost use Rattle.pt_place.specs.First.{first_in};
ghost use Rattle.pt_checks.specs.Queries.{AreChecked, IsChecked, IsCheckedCond, bad_cond, bad_item, bad_items, bad_order, bad_query, bad_tail};

use crate::faults::of_fault;
use crate::named::no_column;
use pt_ast::{Arg, Columns, Cond, Expr, Exprs, Orders, Query, Refusal, TableDef, Tail};
use pt_expr::{check, check_cond};
use pt_value::Ident;

/// What is refused of a query over a table of this definition: its expressions from left to right, then WHERE, then ORDER BY. What isn't
/// refused is well typed. It takes no memory.
pub fn bad_query(def: &TableDef, query: &Query) -> Option<Refusal>
    ensures refusal { result ≡ bad_query def.now query.now }
    ensures checked { IfNone result (IsChecked def.now query.now) }
{
    refused_of(def, query)
}

fn refused_of(def: &TableDef, query: &Query) -> Option<Refusal>
    ensures { result ≡ bad_query def.now query.now }
{
    if let Some(refusal) = bad_items(&query.table, &def.columns, &query.items) {
        return Some(refusal);
    }
    refused_of_tail(def, &query.table, &query.tail)
}

/// What is refused of the WHERE, and then of the ORDER BY of a statement on this table. It takes no memory.
pub fn bad_tail(def: &TableDef, table: &Ident, tail: &Tail) -> Option<Refusal>
    ensures refusal { result ≡ bad_tail def.now table.now tail.now }
    ensures checked { IfNone result (IsCheckedCond def.now.columns tail.now.cond) }
{
    refused_of_tail(def, table, tail)
}

fn refused_of_tail(def: &TableDef, table: &Ident, tail: &Tail) -> Option<Refusal>
    ensures { result ≡ bad_tail def.now table.now tail.now }
{
    if let Some(refusal) = bad_cond(table, &def.columns, &tail.cond) {
        return Some(refusal);
    }
    bad_order(&def.columns, &tail.order)
}

fn bad_items(table: &Ident, columns: &Columns, items: &Option<Exprs>) -> Option<Refusal>
    ensures { result ≡ bad_items table.now columns.now items.now }
{
    match items {
        Some(exprs) => bad_exprs(table, columns, exprs.items()),
        None => None,
    }
}

fn bad_exprs(table: &Ident, columns: &Columns, exprs: &[Expr]) -> Option<Refusal>
    ensures { result ≡ first_in (bad_item table.now columns.now) exprs.now }
{
    for expr in exprs {
        if let Some(refusal) = bad_item(table, columns, expr) {
            return Some(refusal);
        }
    }
    None
}

fn bad_item(table: &Ident, columns: &Columns, expr: &Expr) -> Option<Refusal>
    ensures { result ≡ bad_item table.now columns.now expr.now }
{
    match check(columns, expr, false) {
        Ok(_) => None,
        Err(fault) => Some(of_fault(Arg::Name(*table), fault)),
    }
}

fn bad_cond(table: &Ident, columns: &Columns, cond: &Option<Cond>) -> Option<Refusal>
    ensures { result ≡ bad_cond table.now columns.now cond.now }
{
    match cond {
        Some(cond) => bad_where(table, columns, cond),
        None => None,
    }
}

fn bad_where(table: &Ident, columns: &Columns, cond: &Cond) -> Option<Refusal>
    ensures { result ≡ bad_cond table.now columns.now (Some cond.now) }
{
    match check_cond(columns, cond) {
        Ok(()) => None,
        Err(fault) => Some(of_fault(Arg::Name(*table), fault)),
    }
}

fn bad_order(columns: &Columns, order: &Orders) -> Option<Refusal>
    ensures { result ≡ bad_order columns.now order.now }
{
    for (name, _) in order.items() {
        if let Some(refusal) = no_column(columns, name) {
            return Some(refusal);
        }
    }
    None
}
