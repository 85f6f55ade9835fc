//! What is done to a table: what stands behind each word of ALTER TABLE.

ghost use Rattle.std.specs.Prelude.{◌≡◌, ◌+◌, ◌≤◌, length, drop};
ghost use Rattle.pt_parse_expr.specs.Placing.{Reaches, Reads, ReachesSome, ReadsSome};
ghost use Rattle.pt_parse_ddl.specs.Steps as steps;
ghost use Rattle.pt_parse_ddl.specs.Steps.{Passes, PassesTo};
ghost use Rattle.pt_parse_alter.specs.Reader as spec;

use pt_ast::{Idents, Stmt};
use pt_parse_ddl::{
    Keyword, NameRule, PartByRule, PartsRule, Rule, counted, name, number, several, word,
};
use pt_parse_expr::{Mark, Reading, Reserved, Symbol, beside, peek};
use pt_value::Ident;
use std::alloc::Global;

/// The place behind PARTITION.
#[tactic(auto, unfolding(crate::specs::Reader::past_partition))]
fn partition(symbols: &[Symbol], at: usize) -> Option<usize>
    requires { at ≤ length symbols.now }
    ensures passes { Passes symbols.now result (spec.past_partition (drop at symbols.now)) }
    ensures place { PassesTo (at + 1) symbols.now result }
{
    match peek(symbols, at) {
        Some(Symbol::Fixed(Mark::Other(Reserved::Partition))) => Some(at + 1),
        _ => None,
    }
}

/// The place behind a word that isn't reserved, and PARTITION.
#[tactic(auto, unfolding(crate::specs::Reader::verb))]
fn verb(symbols: &[Symbol], at: usize, keyword: Keyword) -> Option<usize>
    requires { at ≤ length symbols.now }
    ensures passes { Passes symbols.now result (spec.verb keyword (drop at symbols.now)) }
    ensures place { PassesTo (at + 1) symbols.now result }
{
    let next = word(symbols, at, keyword)?;
    partition(symbols, next)
}

/// The place behind TABLE.
#[tactic(auto, unfolding(crate::specs::Reader::past_table))]
fn behind_table(symbols: &[Symbol], at: usize) -> Option<usize>
    requires { at ≤ length symbols.now }
    ensures passes { Passes symbols.now result (spec.past_table (drop at symbols.now)) }
    ensures place { PassesTo (at + 1) symbols.now result }
{
    match peek(symbols, at) {
        Some(Symbol::Fixed(Mark::Other(Reserved::Table))) => Some(at + 1),
        _ => None,
    }
}

/// The place behind WITH TABLE.
#[tactic(auto, unfolding(crate::specs::Reader::with_table))]
fn with_table(symbols: &[Symbol], at: usize) -> Option<usize>
    requires { at ≤ length symbols.now }
    ensures passes { Passes symbols.now result (spec.with_table (drop at symbols.now)) }
    ensures place { PassesTo (at + 1) symbols.now result }
{
    match peek(symbols, at) {
        Some(Symbol::Fixed(Mark::Other(Reserved::With))) => behind_table(symbols, at + 1),
        _ => None,
    }
}

/// The place behind WITH VALIDATION.
#[tactic(auto, unfolding(crate::specs::Reader::validation))]
fn validation(symbols: &[Symbol], at: usize) -> Option<usize>
    requires { at ≤ length symbols.now }
    ensures passes { Passes symbols.now result (spec.validation (drop at symbols.now)) }
    ensures place { PassesTo (at + 1) symbols.now result }
{
    match peek(symbols, at) {
        Some(Symbol::Fixed(Mark::Other(Reserved::With))) => {
            word(symbols, at + 1, Keyword::Validation)
        }
        _ => None,
    }
}

/// The place behind WITH VALIDATION, where it stands.
#[tactic(auto, unfolding(pt_parse_ddl::specs::Steps::optional))]
fn behind_validation(symbols: &[Symbol], at: usize) -> usize
    requires { at ≤ length symbols.now }
    ensures behind { spec.past_validation (drop at symbols.now) ≡ drop result symbols.now }
    ensures place { (at ≤ result) × (result ≤ length symbols.now) }
{
    match validation(symbols, at) {
        Some(next) => next,
        None => at,
    }
}

/// Names with commas between them.
fn names(alloc: Global, symbols: &[Symbol], at: usize) -> Reading<Idents>
    requires { at ≤ length symbols.now }
    ensures reads { Reads symbols.now result (steps.several steps.named (drop at symbols.now)) }
    ensures place { Reaches (at + 1) symbols.now result }
{
    several::<Ident, NameRule>(alloc, symbols, at)
}

/// New partitions, behind ADD PARTITION: definitions, or how many.
fn added_some(alloc: Global, symbols: &[Symbol], at: usize, table: &Ident) -> Reading<Stmt>
    requires { at ≤ length symbols.now }
    ensures reads { Reads symbols.now result (spec.added_some steps.whole table.now (drop at symbols.now)) }
    ensures place { Reaches (at + 1) symbols.now result }
{
    if let Some((count, next)) = counted(symbols, at, Keyword::Partitions) {
        return Ok(Some((Stmt::AddCount(*table, count), next)));
    }
    match PartsRule::read(alloc, symbols, at)? {
        None => Ok(None),
        Some((parts, next)) => Ok(Some((Stmt::AddParts(*table, parts), next))),
    }
}

/// What stands behind ADD.
#[tactic(auto, unfolding(crate::specs::Reader::added))]
pub(crate) fn added(alloc: Global, symbols: &[Symbol], at: usize, table: &Ident) -> Reading<Stmt>
    requires { at ≤ length symbols.now }
    ensures reads { Reads symbols.now result (spec.added steps.whole table.now (drop at symbols.now)) }
    ensures place { Reaches (at + 1) symbols.now result }
{
    match peek(symbols, at) {
        Some(Symbol::Fixed(Mark::Other(Reserved::Partition))) => {
            added_some(alloc, symbols, at + 1, table)
        }
        _ => Ok(None),
    }
}

/// Partitions that go, behind DROP PARTITION.
fn dropped_names(alloc: Global, symbols: &[Symbol], at: usize, table: &Ident) -> Reading<Stmt>
    requires { at ≤ length symbols.now }
    ensures reads { Reads symbols.now result (spec.dropped_names table.now (drop at symbols.now)) }
    ensures place { Reaches (at + 1) symbols.now result }
{
    match names(alloc, symbols, at)? {
        None => Ok(None),
        Some((names, next)) => Ok(Some((Stmt::DropParts(*table, names), next))),
    }
}

/// What stands behind DROP.
#[tactic(auto, unfolding(crate::specs::Reader::dropped))]
pub(crate) fn dropped(alloc: Global, symbols: &[Symbol], at: usize, table: &Ident) -> Reading<Stmt>
    requires { at ≤ length symbols.now }
    ensures reads { Reads symbols.now result (spec.dropped table.now (drop at symbols.now)) }
    ensures place { Reaches (at + 1) symbols.now result }
{
    match peek(symbols, at) {
        Some(Symbol::Fixed(Mark::Other(Reserved::Partition))) => {
            dropped_names(alloc, symbols, at + 1, table)
        }
        _ => Ok(None),
    }
}

/// Partitions that lose their rows, by their names.
fn truncated_names(alloc: Global, symbols: &[Symbol], at: usize, table: &Ident) -> Reading<Stmt>
    requires { at ≤ length symbols.now }
    ensures reads { Reads symbols.now result (spec.truncated_names table.now (drop at symbols.now)) }
    ensures place { Reaches (at + 1) symbols.now result }
{
    match names(alloc, symbols, at)? {
        None => Ok(None),
        Some((names, next)) => Ok(Some((Stmt::Truncate(*table, Some(names)), next))),
    }
}

/// What stands behind TRUNCATE PARTITION.
#[tactic(auto, unfolding(crate::specs::Reader::truncated))]
fn truncated(alloc: Global, symbols: &[Symbol], at: usize, table: &Ident) -> Reading<Stmt>
    requires { at ≤ length symbols.now }
    ensures reads { Reads symbols.now result (spec.truncated table.now (drop at symbols.now)) }
    ensures place { Reaches (at + 1) symbols.now result }
{
    match peek(symbols, at) {
        Some(Symbol::Fixed(Mark::Other(Reserved::All))) => {
            Ok(Some((Stmt::Truncate(*table, None), at + 1)))
        }
        _ => truncated_names(alloc, symbols, at, table),
    }
}

/// What stands behind COALESCE PARTITION.
fn coalesced(symbols: &[Symbol], at: usize, table: &Ident) -> Option<(Stmt, usize)>
    requires { at ≤ length symbols.now }
    ensures reads { ReadsSome symbols.now result (spec.coalesced table.now (drop at symbols.now)) }
    ensures place { ReachesSome (at + 1) symbols.now result }
{
    let (count, next) = number(symbols, at)?;
    Some((Stmt::Coalesce(*table, count), next))
}

/// The partitions that these names become, behind INTO.
#[tactic(auto, unfolding(crate::specs::Reader::reorganized_into))]
fn reorganized_into(
    alloc: Global,
    symbols: &[Symbol],
    at: usize,
    table: &Ident,
    names: Idents,
) -> Reading<Stmt>
    requires { at ≤ length symbols.now }
    ensures reads { Reads symbols.now result (spec.reorganized_into steps.whole table.now names (drop at symbols.now)) }
    ensures place { Reaches (at + 1) symbols.now result }
{
    let Some(Symbol::Fixed(Mark::Other(Reserved::Into))) = peek(symbols, at) else {
        return Ok(None);
    };
    let (names, read) = beside(names, PartsRule::read(alloc, symbols, at + 1))?;
    match read {
        None => Ok(None),
        Some((parts, next)) => Ok(Some((Stmt::Reorganize(*table, names, parts), next))),
    }
}

/// What stands behind REORGANIZE PARTITION.
#[tactic(auto, unfolding(crate::specs::Reader::reorganized))]
fn reorganized(alloc: Global, symbols: &[Symbol], at: usize, table: &Ident) -> Reading<Stmt>
    requires { at ≤ length symbols.now }
    ensures reads { Reads symbols.now result (spec.reorganized steps.whole table.now (drop at symbols.now)) }
    ensures place { Reaches (at + 1) symbols.now result }
{
    match names(alloc, symbols, at)? {
        None => Ok(None),
        Some((names, next)) => reorganized_into(alloc, symbols, next, table, names),
    }
}

/// What stands behind EXCHANGE PARTITION.
#[tactic(auto, unfolding(crate::specs::Reader::exchanged))]
fn exchanged(symbols: &[Symbol], at: usize, table: &Ident) -> Option<(Stmt, usize)>
    requires { at ≤ length symbols.now }
    ensures reads { ReadsSome symbols.now result (spec.exchanged table.now (drop at symbols.now)) }
    ensures place { ReachesSome (at + 1) symbols.now result }
{
    let (part, next) = name(symbols, at)?;
    let next = with_table(symbols, next)?;
    let (other, next) = name(symbols, next)?;
    Some((
        Stmt::Exchange(*table, part, other),
        behind_validation(symbols, next),
    ))
}

/// What stands behind REMOVE.
fn removed(symbols: &[Symbol], at: usize, table: &Ident) -> Option<(Stmt, usize)>
    requires { at ≤ length symbols.now }
    ensures reads { ReadsSome symbols.now result (spec.removed table.now (drop at symbols.now)) }
    ensures place { ReachesSome (at + 1) symbols.now result }
{
    let next = word(symbols, at, Keyword::Partitioning)?;
    Some((Stmt::RemoveParts(*table), next))
}

/// Another partitioning.
fn partitioned(alloc: Global, symbols: &[Symbol], at: usize, table: &Ident) -> Reading<Stmt>
    requires { at ≤ length symbols.now }
    ensures reads { Reads symbols.now result (spec.partitioned steps.whole table.now (drop at symbols.now)) }
    ensures place { Reaches (at + 1) symbols.now result }
{
    match PartByRule::read(alloc, symbols, at)? {
        None => Ok(None),
        Some((spec, next)) => Ok(Some((Stmt::PartitionBy(*table, spec), next))),
    }
}

/// An action that begins with a word that isn't reserved, or with PARTITION.
#[tactic(auto, unfolding(crate::specs::Reader::by_word))]
pub(crate) fn by_word(alloc: Global, symbols: &[Symbol], at: usize, table: &Ident) -> Reading<Stmt>
    requires { at ≤ length symbols.now }
    ensures reads { Reads symbols.now result (spec.by_word steps.whole table.now (drop at symbols.now)) }
    ensures place { Reaches (at + 1) symbols.now result }
{
    if let Some(next) = verb(symbols, at, Keyword::Truncate) {
        return truncated(alloc, symbols, next, table);
    }
    if let Some(next) = verb(symbols, at, Keyword::Coalesce) {
        return Ok(coalesced(symbols, next, table));
    }
    if let Some(next) = verb(symbols, at, Keyword::Reorganize) {
        return reorganized(alloc, symbols, next, table);
    }
    if let Some(next) = verb(symbols, at, Keyword::Exchange) {
        return Ok(exchanged(symbols, next, table));
    }
    if let Some(next) = word(symbols, at, Keyword::Remove) {
        return Ok(removed(symbols, next, table));
    }
    partitioned(alloc, symbols, at, table)
}
