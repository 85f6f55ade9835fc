ghost use Rattle.std.specs.Prelude.{◌≡◌, ◌+◌, ◌≤◌, length, drop, Some, IfOk};
ghost use Rattle.pt_parse_expr.specs.Placing.{Reaches, Reads, ReachesSome, ReadsSome};
ghost use Rattle.pt_parse_ddl.specs.Reader as spec;
ghost use Rattle.pt_parse_ddl.specs.Steps as steps;

use crate::keys::ItemRule;
use crate::options::TableOption;
use crate::partitionings::PartByRule;
use crate::rules::{listed, optional, skipped};
use crate::words::name;
use pt_ast::{Item, Items, PartSpec, Stmt, TableSpec};
use pt_parse_expr::{Mark, Reading, Reserved, Symbol, beside, peek};
use pt_value::Ident;
use std::alloc::{AllocError, Global};

/// EXISTS.
#[tactic(auto, unfolding(crate::specs::Reader::exists))]
fn exists(symbols: &[Symbol], at: usize) -> Option<(bool, usize)>
    requires { at ≤ length symbols.now }
    ensures reads { ReadsSome symbols.now result (spec.exists (drop at symbols.now)) }
    ensures place { ReachesSome (at + 1) symbols.now result }
{
    match peek(symbols, at) {
        Some(Symbol::Fixed(Mark::Other(Reserved::Exists))) => Some((true, at + 1)),
        _ => None,
    }
}

/// NOT EXISTS.
#[tactic(auto, unfolding(crate::specs::Reader::not_exists))]
fn not_exists(symbols: &[Symbol], at: usize) -> Option<(bool, usize)>
    requires { at ≤ length symbols.now }
    ensures reads { ReadsSome symbols.now result (spec.not_exists (drop at symbols.now)) }
    ensures place { ReachesSome (at + 1) symbols.now result }
{
    match peek(symbols, at) {
        Some(Symbol::Fixed(Mark::Not)) => exists(symbols, at + 1),
        _ => None,
    }
}

/// IF EXISTS, where it stands.
#[tactic(auto, unfolding(crate::specs::Reader::if_exists))]
fn if_exists(symbols: &[Symbol], at: usize) -> Option<(bool, usize)>
    requires { at ≤ length symbols.now }
    ensures reads { ReadsSome symbols.now result (spec.if_exists (drop at symbols.now)) }
    ensures place { ReachesSome at symbols.now result }
{
    match peek(symbols, at) {
        Some(Symbol::Fixed(Mark::Other(Reserved::If))) => exists(symbols, at + 1),
        _ => Some((false, at)),
    }
}

/// IF NOT EXISTS, where it stands.
#[tactic(auto, unfolding(crate::specs::Reader::if_not_exists))]
fn if_not_exists(symbols: &[Symbol], at: usize) -> Option<(bool, usize)>
    requires { at ≤ length symbols.now }
    ensures reads { ReadsSome symbols.now result (spec.if_not_exists (drop at symbols.now)) }
    ensures place { ReachesSome at symbols.now result }
{
    match peek(symbols, at) {
        Some(Symbol::Fixed(Mark::Other(Reserved::If))) => not_exists(symbols, at + 1),
        _ => Some((false, at)),
    }
}

/// What stands behind CREATE TABLE, the name and LIKE.
fn like(symbols: &[Symbol], at: usize, only_new: bool, table: &Ident) -> Option<(Stmt, usize)>
    requires { at ≤ length symbols.now }
    ensures reads { ReadsSome symbols.now result (spec.like only_new table.now (drop at symbols.now)) }
    ensures place { ReachesSome (at + 1) symbols.now result }
{
    let (other, next) = name(symbols, at)?;
    Some((Stmt::Like(only_new, *table, other), next))
}

/// What stands behind the items of a table.
fn behind_items(
    alloc: Global,
    symbols: &[Symbol],
    at: usize,
    items: Items,
) -> Result<(TableSpec, usize), AllocError>
    requires { at ≤ length symbols.now }
    ensures reads { IfOk result (λ p. spec.behind_items steps.whole items (drop at symbols.now) ≡ Some (p.0, drop p.1 symbols.now)) }
    ensures place { IfOk result (λ p. (at ≤ p.1) × (p.1 ≤ length symbols.now)) }
{
    let next = skipped::<TableOption>(symbols, at);
    let (items, (by, next)) = beside(
        items,
        optional::<PartSpec, PartByRule>(alloc, symbols, next),
    )?;
    Ok((TableSpec { items, by }, next))
}

/// What stands behind the name of a new table.
#[tactic(auto, unfolding(crate::specs::Reader::new_spec))]
fn new_spec(alloc: Global, symbols: &[Symbol], at: usize) -> Reading<TableSpec>
    requires { at ≤ length symbols.now }
    ensures reads { Reads symbols.now result (spec.new_spec steps.whole (drop at symbols.now)) }
    ensures place { Reaches (at + 1) symbols.now result }
{
    let Some((items, next)) = listed::<Item, ItemRule>(alloc, symbols, at)? else {
        return Ok(None);
    };
    Ok(Some(behind_items(alloc, symbols, next, items)?))
}

/// A new table, behind its name.
fn created(
    alloc: Global,
    symbols: &[Symbol],
    at: usize,
    only_new: bool,
    table: &Ident,
) -> Reading<Stmt>
    requires { at ≤ length symbols.now }
    ensures reads { Reads symbols.now result (spec.created steps.whole only_new table.now (drop at symbols.now)) }
    ensures place { Reaches (at + 1) symbols.now result }
{
    match new_spec(alloc, symbols, at)? {
        None => Ok(None),
        Some((spec, next)) => Ok(Some((Stmt::Create(only_new, *table, spec), next))),
    }
}

/// What stands behind CREATE TABLE and the name.
#[tactic(auto, unfolding(crate::specs::Reader::create_or_like))]
fn create_or_like(
    alloc: Global,
    symbols: &[Symbol],
    at: usize,
    only_new: bool,
    table: &Ident,
) -> Reading<Stmt>
    requires { at ≤ length symbols.now }
    ensures reads { Reads symbols.now result (spec.create_or_like steps.whole only_new table.now (drop at symbols.now)) }
    ensures place { Reaches (at + 1) symbols.now result }
{
    match peek(symbols, at) {
        Some(Symbol::Fixed(Mark::Other(Reserved::Like))) => {
            Ok(like(symbols, at + 1, only_new, table))
        }
        _ => created(alloc, symbols, at, only_new, table),
    }
}

/// What stands behind CREATE.
#[tactic(auto, unfolding(crate::specs::Reader::new_table))]
fn new_table(alloc: Global, symbols: &[Symbol], at: usize) -> Reading<Stmt>
    requires { at ≤ length symbols.now }
    ensures reads { Reads symbols.now result (spec.new_table steps.whole (drop at symbols.now)) }
    ensures place { Reaches (at + 1) symbols.now result }
{
    let Some(Symbol::Fixed(Mark::Other(Reserved::Table))) = peek(symbols, at) else {
        return Ok(None);
    };
    let Some((only_new, next)) = if_not_exists(symbols, at + 1) else {
        return Ok(None);
    };
    let Some((table, next)) = name(symbols, next) else {
        return Ok(None);
    };
    create_or_like(alloc, symbols, next, only_new, &table)
}

/// What stands behind DROP.
#[tactic(auto, unfolding(crate::specs::Reader::dropped))]
fn dropped(symbols: &[Symbol], at: usize) -> Option<(Stmt, usize)>
    requires { at ≤ length symbols.now }
    ensures reads { ReadsSome symbols.now result (spec.dropped (drop at symbols.now)) }
    ensures place { ReachesSome (at + 1) symbols.now result }
{
    let Some(Symbol::Fixed(Mark::Other(Reserved::Table))) = peek(symbols, at) else {
        return None;
    };
    let (if_there, next) = if_exists(symbols, at + 1)?;
    let (table, next) = name(symbols, next)?;
    Some((Stmt::Drop(if_there, table), next))
}

/// What stands behind SHOW CREATE.
#[tactic(auto, unfolding(crate::specs::Reader::shown_table))]
fn shown_table(symbols: &[Symbol], at: usize) -> Option<(Stmt, usize)>
    requires { at ≤ length symbols.now }
    ensures reads { ReadsSome symbols.now result (spec.shown_table (drop at symbols.now)) }
    ensures place { ReachesSome (at + 1) symbols.now result }
{
    let Some(Symbol::Fixed(Mark::Other(Reserved::Table))) = peek(symbols, at) else {
        return None;
    };
    let (table, next) = name(symbols, at + 1)?;
    Some((Stmt::Show(table), next))
}

/// What stands behind SHOW.
#[tactic(auto, unfolding(crate::specs::Reader::shown))]
fn shown(symbols: &[Symbol], at: usize) -> Option<(Stmt, usize)>
    requires { at ≤ length symbols.now }
    ensures reads { ReadsSome symbols.now result (spec.shown (drop at symbols.now)) }
    ensures place { ReachesSome (at + 1) symbols.now result }
{
    match peek(symbols, at) {
        Some(Symbol::Fixed(Mark::Other(Reserved::Create))) => shown_table(symbols, at + 1),
        _ => None,
    }
}

/// A statement.
#[tactic(auto, unfolding(crate::specs::Reader::statement))]
pub(crate) fn statement(alloc: Global, symbols: &[Symbol], at: usize) -> Reading<Stmt>
    requires { at ≤ length symbols.now }
    ensures reads { Reads symbols.now result (spec.statement steps.whole (drop at symbols.now)) }
    ensures place { Reaches (at + 1) symbols.now result }
{
    match peek(symbols, at) {
        Some(Symbol::Fixed(Mark::Other(Reserved::Create))) => new_table(alloc, symbols, at + 1),
        Some(Symbol::Fixed(Mark::Other(Reserved::Drop))) => Ok(dropped(symbols, at + 1)),
        Some(Symbol::Fixed(Mark::Other(Reserved::Show))) => Ok(shown(symbols, at + 1)),
        _ => Ok(None),
    }
}
