ghost use Rattle.std.specs.Prelude.{◌≡◌, ◌+◌, ◌≤◌, length, drop};
ghost use Rattle.pt_parse_expr.specs.Placing.{Reaches, Reads};
ghost use Rattle.pt_parse_ddl.specs.KeyReader as spec;
ghost use Rattle.pt_parse_ddl.specs.Steps as steps;
ghost use Rattle.pt_parse_ddl.specs.Steps.{Passes, PassesTo};

use crate::columns::{col_options, key, kind};
use crate::rules::{Rule, listed, optional};
use crate::words::{NameRule, name};
use pt_ast::{Idents, Item, Rank};
use pt_parse_expr::{Mark, Reading, Reserved, Symbol, peek};
use pt_value::Ident;
use std::alloc::Global;

/// Columns in parentheses.
pub fn columns(alloc: Global, symbols: &[Symbol], at: usize) -> Reading<Idents>
    requires { at ≤ length symbols.now }
    ensures reads { Reads symbols.now result (steps.tuple steps.named (drop at symbols.now)) }
    ensures place { Reaches (at + 1) symbols.now result }
{
    listed::<Ident, NameRule>(alloc, symbols, at)
}

/// The place behind KEY or INDEX.
#[tactic(auto, unfolding(crate::specs::KeyReader::past_index))]
fn index(symbols: &[Symbol], at: usize) -> Option<usize>
    requires { at ≤ length symbols.now }
    ensures passes { Passes symbols.now result (spec.past_index (drop at symbols.now)) }
    ensures place { PassesTo (at + 1) symbols.now result }
{
    match peek(symbols, at) {
        Some(Symbol::Fixed(Mark::Other(Reserved::Key))) => Some(at + 1),
        Some(Symbol::Fixed(Mark::Other(Reserved::Index))) => Some(at + 1),
        _ => None,
    }
}

/// The place behind KEY or INDEX, where one of them stands.
#[tactic(auto, unfolding(crate::specs::Steps::optional))]
fn behind_index(symbols: &[Symbol], at: usize) -> usize
    requires { at ≤ length symbols.now }
    ensures behind { (steps.optional spec.past_index (drop at symbols.now)).1 ≡ drop result symbols.now }
    ensures place { (at ≤ result) × (result ≤ length symbols.now) }
{
    match index(symbols, at) {
        Some(next) => next,
        None => at,
    }
}

/// A key of this rank: its name, where one is written, and its columns.
#[tactic(auto, unfolding(crate::specs::KeyReader::keyed))]
fn keyed(alloc: Global, symbols: &[Symbol], at: usize, rank: Rank) -> Reading<Item>
    requires { at ≤ length symbols.now }
    ensures reads { Reads symbols.now result (spec.keyed rank (drop at symbols.now)) }
    ensures place { Reaches (at + 1) symbols.now result }
{
    let (name, next) = optional::<Ident, NameRule>(alloc, symbols, at)?;
    match columns(alloc, symbols, next)? {
        None => Ok(None),
        Some((columns, next)) => Ok(Some((Item::Key(rank, name, columns), next))),
    }
}

/// A unique key, behind UNIQUE.
fn unique(alloc: Global, symbols: &[Symbol], at: usize) -> Reading<Item>
    requires { at ≤ length symbols.now }
    ensures reads { Reads symbols.now result (spec.unique (drop at symbols.now)) }
    ensures place { Reaches (at + 1) symbols.now result }
{
    keyed(alloc, symbols, behind_index(symbols, at), Rank::Unique)
}

/// A primary key, behind PRIMARY.
#[tactic(auto, unfolding(crate::specs::KeyReader::primary_key))]
fn primary_key(alloc: Global, symbols: &[Symbol], at: usize) -> Reading<Item>
    requires { at ≤ length symbols.now }
    ensures reads { Reads symbols.now result (spec.primary_key (drop at symbols.now)) }
    ensures place { Reaches (at + 1) symbols.now result }
{
    let Some(next) = key(symbols, at) else {
        return Ok(None);
    };
    match columns(alloc, symbols, next)? {
        None => Ok(None),
        Some((columns, next)) => Ok(Some((Item::Key(Rank::Primary, None, columns), next))),
    }
}

/// A column: its name, its type and its options.
#[tactic(auto, unfolding(crate::specs::KeyReader::column))]
fn column(alloc: Global, symbols: &[Symbol], at: usize) -> Reading<Item>
    requires { at ≤ length symbols.now }
    ensures reads { Reads symbols.now result (spec.column (drop at symbols.now)) }
    ensures place { Reaches (at + 1) symbols.now result }
{
    let Some((name, next)) = name(symbols, at) else {
        return Ok(None);
    };
    let Some((kind, next)) = kind(alloc, symbols, next)? else {
        return Ok(None);
    };
    let (options, next) = col_options(alloc, symbols, next)?;
    Ok(Some((Item::Column(name, kind, options), next)))
}

/// A column or a key.
#[tactic(auto, unfolding(crate::specs::KeyReader::table_item))]
fn table_item(alloc: Global, symbols: &[Symbol], at: usize) -> Reading<Item>
    requires { at ≤ length symbols.now }
    ensures reads { Reads symbols.now result (spec.table_item (drop at symbols.now)) }
    ensures place { Reaches (at + 1) symbols.now result }
{
    match peek(symbols, at) {
        Some(Symbol::Fixed(Mark::Other(Reserved::Primary))) => primary_key(alloc, symbols, at + 1),
        Some(Symbol::Fixed(Mark::Other(Reserved::Unique))) => unique(alloc, symbols, at + 1),
        Some(Symbol::Fixed(Mark::Other(Reserved::Key))) => {
            keyed(alloc, symbols, at + 1, Rank::Plain)
        }
        Some(Symbol::Fixed(Mark::Other(Reserved::Index))) => {
            keyed(alloc, symbols, at + 1, Rank::Plain)
        }
        _ => column(alloc, symbols, at),
    }
}

/// A column or a key.
pub(crate) struct ItemRule;

impl Rule<Item> for ItemRule {
    ghost reading = { spec.table_item };

    fn read(alloc: Global, symbols: &[Symbol], at: usize) -> Reading<Item> {
        table_item(alloc, symbols, at)
    }
}
