ghost use Rattle.std.specs.Prelude.{◌≡◌, ◌+◌, ◌≤◌, length, drop, Some, None, IfOk};
ghost use Rattle.pt_parse_expr.specs.Placing.{Reaches, Reads, ReachesSome, ReadsSome};
ghost use Rattle.pt_parse_ddl.specs.PartReader as spec;
ghost use Rattle.pt_parse_ddl.specs.Steps as steps;
ghost use Rattle.pt_parse_ddl.specs.Steps.{Passes, PassesTo};

use crate::options::PartOption;
use crate::partitionings::ValueRule;
use crate::rules::{Rule, listed, optional, skipped};
use crate::words::{Keyword, name, word};
use pt_ast::{BoundSpec, BoundSpecs, Entry, Idents, PartItem, ValuesSpec};
use pt_parse_expr::{Mark, Reading, Reserved, Symbol, beside, peek};
use pt_plain::List;
use pt_value::Ident;
use std::alloc::{AllocError, Global};

/// A bound.
#[tactic(auto, unfolding(crate::specs::PartReader::bound_of))]
fn bound(alloc: Global, symbols: &[Symbol], at: usize) -> Reading<BoundSpec>
    requires { at ≤ length symbols.now }
    ensures reads { Reads symbols.now result (spec.bound_of steps.whole (drop at symbols.now)) }
    ensures place { Reaches (at + 1) symbols.now result }
{
    match peek(symbols, at) {
        Some(Symbol::Fixed(Mark::Other(Reserved::MaxValue))) => Ok(Some((BoundSpec::Max, at + 1))),
        _ => value_bound(alloc, symbols, at),
    }
}

/// An expression as a bound.
fn value_bound(alloc: Global, symbols: &[Symbol], at: usize) -> Reading<BoundSpec>
    requires { at ≤ length symbols.now }
    ensures reads { Reads symbols.now result (spec.value_bound steps.whole (drop at symbols.now)) }
    ensures place { Reaches (at + 1) symbols.now result }
{
    match ValueRule::read(alloc, symbols, at)? {
        None => Ok(None),
        Some((expr, next)) => Ok(Some((BoundSpec::Value(expr), next))),
    }
}

/// A bound.
struct BoundRule;

impl Rule<BoundSpec> for BoundRule {
    ghost reading = { spec.bound_of steps.whole };

    fn read(alloc: Global, symbols: &[Symbol], at: usize) -> Reading<BoundSpec> {
        bound(alloc, symbols, at)
    }
}

/// Bounds in parentheses.
fn bounds(alloc: Global, symbols: &[Symbol], at: usize) -> Reading<BoundSpecs>
    requires { at ≤ length symbols.now }
    ensures reads { Reads symbols.now result (steps.tuple (spec.bound_of steps.whole) (drop at symbols.now)) }
    ensures place { Reaches (at + 1) symbols.now result }
{
    listed::<BoundSpec, BoundRule>(alloc, symbols, at)
}

/// A list that has two parts at least.
fn two_or_more<T: Drop>(items: List<T>, at: usize) -> Option<(List<T>, usize)>
    ensures { result ≡ spec.two_or_more_at items at }
{
    if items.items().len() < 2 {
        return None;
    }
    Some((items, at))
}

/// Two bounds and more in parentheses.
#[tactic(auto, unfolding(crate::specs::PartReader::pair))]
fn pair(alloc: Global, symbols: &[Symbol], at: usize) -> Reading<BoundSpecs>
    requires { at ≤ length symbols.now }
    ensures reads { Reads symbols.now result (spec.pair steps.whole (drop at symbols.now)) }
    ensures place { Reaches (at + 1) symbols.now result }
{
    match bounds(alloc, symbols, at)? {
        None => Ok(None),
        Some((bounds, next)) => Ok(two_or_more(bounds, next)),
    }
}

/// An entry of a list. Bounds in parentheses are read first; where there is one alone, it is an expression in parentheses, which
/// may go on.
#[tactic(auto, unfolding(crate::specs::PartReader::entry_of))]
fn entry(alloc: Global, symbols: &[Symbol], at: usize) -> Reading<Entry>
    requires { at ≤ length symbols.now }
    ensures reads { Reads symbols.now result (spec.entry_of steps.whole (drop at symbols.now)) }
    ensures place { Reaches (at + 1) symbols.now result }
{
    if let Some((bounds, next)) = pair(alloc, symbols, at)? {
        return Ok(Some((Entry::Many(bounds), next)));
    }
    match bound(alloc, symbols, at)? {
        None => Ok(None),
        Some((bound, next)) => Ok(Some((Entry::One(bound), next))),
    }
}

/// An entry of a list.
struct EntryRule;

impl Rule<Entry> for EntryRule {
    ghost reading = { spec.entry_of steps.whole };

    fn read(alloc: Global, symbols: &[Symbol], at: usize) -> Reading<Entry> {
        entry(alloc, symbols, at)
    }
}

/// The place behind LESS THAN.
#[tactic(auto, unfolding(crate::specs::PartReader::less_than))]
fn less_than(symbols: &[Symbol], at: usize) -> Option<usize>
    requires { at ≤ length symbols.now }
    ensures passes { Passes symbols.now result (spec.less_than (drop at symbols.now)) }
    ensures place { PassesTo (at + 1) symbols.now result }
{
    let next = word(symbols, at, Keyword::Less)?;
    word(symbols, next, Keyword::Than)
}

/// What stands behind LESS THAN.
#[tactic(auto, unfolding(crate::specs::PartReader::less))]
fn less(alloc: Global, symbols: &[Symbol], at: usize) -> Reading<ValuesSpec>
    requires { at ≤ length symbols.now }
    ensures reads { Reads symbols.now result (spec.less steps.whole (drop at symbols.now)) }
    ensures place { Reaches (at + 1) symbols.now result }
{
    match peek(symbols, at) {
        Some(Symbol::Fixed(Mark::Other(Reserved::MaxValue))) => {
            Ok(Some((ValuesSpec::LessMax, at + 1)))
        }
        _ => less_bounds(alloc, symbols, at),
    }
}

/// The bounds behind LESS THAN.
fn less_bounds(alloc: Global, symbols: &[Symbol], at: usize) -> Reading<ValuesSpec>
    requires { at ≤ length symbols.now }
    ensures reads { Reads symbols.now result (spec.less_bounds steps.whole (drop at symbols.now)) }
    ensures place { Reaches (at + 1) symbols.now result }
{
    match bounds(alloc, symbols, at)? {
        None => Ok(None),
        Some((bounds, next)) => Ok(Some((ValuesSpec::Less(bounds), next))),
    }
}

/// The entries behind IN.
fn entries(alloc: Global, symbols: &[Symbol], at: usize) -> Reading<ValuesSpec>
    requires { at ≤ length symbols.now }
    ensures reads { Reads symbols.now result (spec.entries steps.whole (drop at symbols.now)) }
    ensures place { Reaches (at + 1) symbols.now result }
{
    match listed::<Entry, EntryRule>(alloc, symbols, at)? {
        None => Ok(None),
        Some((entries, next)) => Ok(Some((ValuesSpec::Among(entries), next))),
    }
}

/// LESS THAN and what stands behind it.
fn below(alloc: Global, symbols: &[Symbol], at: usize) -> Reading<ValuesSpec>
    requires { at ≤ length symbols.now }
    ensures reads { Reads symbols.now result (spec.below steps.whole (drop at symbols.now)) }
    ensures place { Reaches (at + 1) symbols.now result }
{
    match less_than(symbols, at) {
        None => Ok(None),
        Some(next) => less(alloc, symbols, next),
    }
}

/// What stands behind VALUES.
#[tactic(auto, unfolding(crate::specs::PartReader::values_behind))]
fn values_behind(alloc: Global, symbols: &[Symbol], at: usize) -> Reading<ValuesSpec>
    requires { at ≤ length symbols.now }
    ensures reads { Reads symbols.now result (spec.values_behind steps.whole (drop at symbols.now)) }
    ensures place { Reaches (at + 1) symbols.now result }
{
    match peek(symbols, at) {
        Some(Symbol::Fixed(Mark::In)) => entries(alloc, symbols, at + 1),
        _ => below(alloc, symbols, at),
    }
}

/// Which rows a partition takes.
struct ValuesRule;

impl Rule<ValuesSpec> for ValuesRule {
    ghost reading = { spec.valued steps.whole };

    #[tactic(auto, unfolding(crate::specs::PartReader::valued))]
    fn read(alloc: Global, symbols: &[Symbol], at: usize) -> Reading<ValuesSpec> {
        match peek(symbols, at) {
            Some(Symbol::Fixed(Mark::Other(Reserved::Values))) => {
                values_behind(alloc, symbols, at + 1)
            }
            _ => Ok(None),
        }
    }
}

/// The definition of a subpartition.
#[tactic(auto, unfolding(crate::specs::PartReader::subpart))]
fn subpart(symbols: &[Symbol], at: usize) -> Option<(Ident, usize)>
    requires { at ≤ length symbols.now }
    ensures reads { ReadsSome symbols.now result (spec.subpart (drop at symbols.now)) }
    ensures place { ReachesSome (at + 1) symbols.now result }
{
    let next = word(symbols, at, Keyword::Subpartition)?;
    let (name, next) = name(symbols, next)?;
    Some((name, skipped::<PartOption>(symbols, next)))
}

/// The definition of a subpartition.
struct SubpartRule;

impl Rule<Ident> for SubpartRule {
    ghost reading = { spec.subpart };

    fn read(_alloc: Global, symbols: &[Symbol], at: usize) -> Reading<Ident> {
        Ok(subpart(symbols, at))
    }
}

/// The definitions of subpartitions in parentheses.
struct SubpartsRule;

impl Rule<Idents> for SubpartsRule {
    ghost reading = { spec.subparts };

    fn read(alloc: Global, symbols: &[Symbol], at: usize) -> Reading<Idents> {
        listed::<Ident, SubpartRule>(alloc, symbols, at)
    }
}

/// What stands behind the name of a partition.
fn with_values(
    alloc: Global,
    symbols: &[Symbol],
    at: usize,
    name: Ident,
) -> Result<(PartItem, usize), AllocError>
    requires { at ≤ length symbols.now }
    ensures reads { IfOk result (λ p. spec.with_values name (steps.optional (spec.valued steps.whole) (drop at symbols.now)) ≡ Some (p.0, drop p.1 symbols.now)) }
    ensures place { IfOk result (λ p. (at ≤ p.1) × (p.1 ≤ length symbols.now)) }
{
    let (values, next) = optional::<ValuesSpec, ValuesRule>(alloc, symbols, at)?;
    let next = skipped::<PartOption>(symbols, next);
    let (values, (subs, next)) = beside(
        values,
        optional::<Idents, SubpartsRule>(alloc, symbols, next),
    )?;
    Ok((PartItem { name, values, subs }, next))
}

/// What stands behind PARTITION where a partition is defined.
#[tactic(auto, unfolding(crate::specs::PartReader::part_behind))]
fn part_behind(alloc: Global, symbols: &[Symbol], at: usize) -> Reading<PartItem>
    requires { at ≤ length symbols.now }
    ensures reads { Reads symbols.now result (spec.part_behind steps.whole (drop at symbols.now)) }
    ensures place { Reaches (at + 1) symbols.now result }
{
    let Some((name, next)) = name(symbols, at) else {
        return Ok(None);
    };
    Ok(Some(with_values(alloc, symbols, next, name)?))
}

/// The definition of a partition.
pub(crate) struct PartRule;

impl Rule<PartItem> for PartRule {
    ghost reading = { spec.part_of steps.whole };

    #[tactic(auto, unfolding(crate::specs::PartReader::part_of))]
    fn read(alloc: Global, symbols: &[Symbol], at: usize) -> Reading<PartItem> {
        match peek(symbols, at) {
            Some(Symbol::Fixed(Mark::Other(Reserved::Partition))) => {
                part_behind(alloc, symbols, at + 1)
            }
            _ => Ok(None),
        }
    }
}
