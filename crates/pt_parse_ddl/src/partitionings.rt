ghost use Rattle.std.specs.Prelude.{◌≡◌, ◌+◌, ◌≤◌, length, drop, Some, IfOk};
ghost use Rattle.pt_parse_expr.specs.Placing.{Reaches, Reads, ReachesSome, ReadsSome};
ghost use Rattle.pt_parse_ddl.specs.PartReader as spec;
ghost use Rattle.pt_parse_ddl.specs.Steps as steps;
ghost use Rattle.pt_parse_ddl.specs.Steps.{Passes, PassesTo};

use crate::keys::columns;
use crate::partitions::PartRule;
use crate::rules::{Rule, in_parens, listed, optional};
use crate::words::{Keyword, number, word};
use pt_ast::{Expr, HashSpec, Idents, MainSpec, PartItem, PartItems, PartSpec, SubSpec};
use pt_parse_expr::{Mark, Reading, Reserved, Symbol, beside, closed, peek, read_expr};
use std::alloc::{AllocError, Global};

/// An expression.
pub(crate) struct ValueRule;

impl Rule<Expr> for ValueRule {
    ghost reading = { steps.whole };

    #[tactic(auto, unfolding(crate::specs::Steps::whole))]
    fn read(alloc: Global, symbols: &[Symbol], at: usize) -> Reading<Expr> {
        read_expr(alloc, symbols, at)
    }
}

/// An expression in parentheses.
fn enclosed(alloc: Global, symbols: &[Symbol], at: usize) -> Reading<Expr>
    requires { at ≤ length symbols.now }
    ensures reads { Reads symbols.now result (steps.in_parens steps.whole (drop at symbols.now)) }
    ensures place { Reaches (at + 1) symbols.now result }
{
    in_parens::<Expr, ValueRule>(alloc, symbols, at)
}

/// The place behind LINEAR.
#[tactic(auto, unfolding(crate::specs::PartReader::past_linear))]
fn linear(symbols: &[Symbol], at: usize) -> Option<usize>
    requires { at ≤ length symbols.now }
    ensures passes { Passes symbols.now result (spec.past_linear (drop at symbols.now)) }
    ensures place { PassesTo (at + 1) symbols.now result }
{
    match peek(symbols, at) {
        Some(Symbol::Fixed(Mark::Other(Reserved::Linear))) => Some(at + 1),
        _ => None,
    }
}

/// No columns in parentheses.
#[tactic(auto, unfolding(crate::specs::PartReader::no_columns))]
fn no_columns(alloc: Global, symbols: &[Symbol], at: usize) -> Option<(Idents, usize)>
    requires { at ≤ length symbols.now }
    ensures reads { ReadsSome symbols.now result (spec.no_columns (drop at symbols.now)) }
    ensures place { ReachesSome (at + 1) symbols.now result }
{
    let Some(Symbol::Fixed(Mark::Open)) = peek(symbols, at) else {
        return None;
    };
    closed(symbols, Idents::new(alloc), at + 1)
}

/// The columns of KEY, which may be none.
#[tactic(auto, unfolding(crate::specs::PartReader::key_columns))]
fn key_columns(alloc: Global, symbols: &[Symbol], at: usize) -> Reading<Idents>
    requires { at ≤ length symbols.now }
    ensures reads { Reads symbols.now result (spec.key_columns (drop at symbols.now)) }
    ensures place { Reaches (at + 1) symbols.now result }
{
    match no_columns(alloc, symbols, at) {
        Some(read) => Ok(Some(read)),
        None => columns(alloc, symbols, at),
    }
}

/// What stands behind KEY.
fn by_key(alloc: Global, symbols: &[Symbol], at: usize, is_linear: bool) -> Reading<HashSpec>
    requires { at ≤ length symbols.now }
    ensures reads { Reads symbols.now result (spec.by_key is_linear (drop at symbols.now)) }
    ensures place { Reaches (at + 1) symbols.now result }
{
    match key_columns(alloc, symbols, at)? {
        None => Ok(None),
        Some((columns, next)) => Ok(Some((HashSpec::Key(is_linear, columns), next))),
    }
}

/// HASH and its expression.
fn by_hash(alloc: Global, symbols: &[Symbol], at: usize, is_linear: bool) -> Reading<HashSpec>
    requires { at ≤ length symbols.now }
    ensures reads { Reads symbols.now result (spec.by_hash steps.whole is_linear (drop at symbols.now)) }
    ensures place { Reaches (at + 1) symbols.now result }
{
    let Some(next) = word(symbols, at, Keyword::Hash) else {
        return Ok(None);
    };
    match enclosed(alloc, symbols, next)? {
        None => Ok(None),
        Some((expr, next)) => Ok(Some((HashSpec::Hash(is_linear, expr), next))),
    }
}

/// A partitioning by a number, behind LINEAR where it stands.
#[tactic(auto, unfolding(crate::specs::PartReader::hash_of))]
fn hash_of(alloc: Global, symbols: &[Symbol], at: usize, is_linear: bool) -> Reading<HashSpec>
    requires { at ≤ length symbols.now }
    ensures reads { Reads symbols.now result (spec.hash_of steps.whole is_linear (drop at symbols.now)) }
    ensures place { Reaches (at + 1) symbols.now result }
{
    match peek(symbols, at) {
        Some(Symbol::Fixed(Mark::Other(Reserved::Key))) => {
            by_key(alloc, symbols, at + 1, is_linear)
        }
        _ => by_hash(alloc, symbols, at, is_linear),
    }
}

/// A partitioning by a number.
#[tactic(auto, unfolding(crate::specs::PartReader::hashed))]
fn hashed(alloc: Global, symbols: &[Symbol], at: usize) -> Reading<HashSpec>
    requires { at ≤ length symbols.now }
    ensures reads { Reads symbols.now result (spec.hashed steps.whole (drop at symbols.now)) }
    ensures place { Reaches (at + 1) symbols.now result }
{
    match linear(symbols, at) {
        Some(next) => hash_of(alloc, symbols, next, true),
        None => hash_of(alloc, symbols, at, false),
    }
}

/// What stands behind RANGE.
#[tactic(auto, unfolding(crate::specs::PartReader::ranged))]
fn ranged(alloc: Global, symbols: &[Symbol], at: usize) -> Reading<MainSpec>
    requires { at ≤ length symbols.now }
    ensures reads { Reads symbols.now result (spec.ranged steps.whole (drop at symbols.now)) }
    ensures place { Reaches (at + 1) symbols.now result }
{
    if let Some(next) = word(symbols, at, Keyword::Columns) {
        return match columns(alloc, symbols, next)? {
            None => Ok(None),
            Some((columns, next)) => Ok(Some((MainSpec::RangeColumns(columns), next))),
        };
    }
    match enclosed(alloc, symbols, at)? {
        None => Ok(None),
        Some((expr, next)) => Ok(Some((MainSpec::Range(expr), next))),
    }
}

/// What stands behind LIST.
#[tactic(auto, unfolding(crate::specs::PartReader::among))]
fn among(alloc: Global, symbols: &[Symbol], at: usize) -> Reading<MainSpec>
    requires { at ≤ length symbols.now }
    ensures reads { Reads symbols.now result (spec.among steps.whole (drop at symbols.now)) }
    ensures place { Reaches (at + 1) symbols.now result }
{
    if let Some(next) = word(symbols, at, Keyword::Columns) {
        return match columns(alloc, symbols, next)? {
            None => Ok(None),
            Some((columns, next)) => Ok(Some((MainSpec::ListColumns(columns), next))),
        };
    }
    match enclosed(alloc, symbols, at)? {
        None => Ok(None),
        Some((expr, next)) => Ok(Some((MainSpec::List(expr), next))),
    }
}

/// A partitioning by a list or by a number.
fn among_or_hashed(alloc: Global, symbols: &[Symbol], at: usize) -> Reading<MainSpec>
    requires { at ≤ length symbols.now }
    ensures reads { Reads symbols.now result (spec.among_or_hashed steps.whole (drop at symbols.now)) }
    ensures place { Reaches (at + 1) symbols.now result }
{
    if let Some(next) = word(symbols, at, Keyword::List) {
        return among(alloc, symbols, next);
    }
    match hashed(alloc, symbols, at)? {
        None => Ok(None),
        Some((hash, next)) => Ok(Some((MainSpec::Hash(hash), next))),
    }
}

/// What a table is partitioned by.
#[tactic(auto, unfolding(crate::specs::PartReader::main_of))]
fn main_of(alloc: Global, symbols: &[Symbol], at: usize) -> Reading<MainSpec>
    requires { at ≤ length symbols.now }
    ensures reads { Reads symbols.now result (spec.main_of steps.whole (drop at symbols.now)) }
    ensures place { Reaches (at + 1) symbols.now result }
{
    match peek(symbols, at) {
        Some(Symbol::Fixed(Mark::Other(Reserved::Range))) => ranged(alloc, symbols, at + 1),
        _ => among_or_hashed(alloc, symbols, at),
    }
}

/// A word, and the number behind it.
#[tactic(auto, unfolding(crate::specs::PartReader::counted))]
pub fn counted(symbols: &[Symbol], at: usize, keyword: Keyword) -> Option<(i128, usize)>
    requires { at ≤ length symbols.now }
    ensures reads { ReadsSome symbols.now result (spec.counted keyword (drop at symbols.now)) }
    ensures place { ReachesSome (at + 1) symbols.now result }
{
    let next = word(symbols, at, keyword)?;
    number(symbols, next)
}

/// The number of partitions.
struct CountRule;

impl Rule<i128> for CountRule {
    ghost reading = { spec.count };

    fn read(_alloc: Global, symbols: &[Symbol], at: usize) -> Reading<i128> {
        Ok(counted(symbols, at, Keyword::Partitions))
    }
}

/// The number of subpartitions.
struct SubCountRule;

impl Rule<i128> for SubCountRule {
    ghost reading = { spec.sub_count };

    fn read(_alloc: Global, symbols: &[Symbol], at: usize) -> Reading<i128> {
        Ok(counted(symbols, at, Keyword::Subpartitions))
    }
}

/// What stands behind SUBPARTITION.
#[tactic(auto, unfolding(crate::specs::PartReader::sub_behind))]
fn sub_behind(alloc: Global, symbols: &[Symbol], at: usize) -> Reading<SubSpec>
    requires { at ≤ length symbols.now }
    ensures reads { Reads symbols.now result (spec.sub_behind steps.whole (drop at symbols.now)) }
    ensures place { Reaches (at + 1) symbols.now result }
{
    let Some(Symbol::Fixed(Mark::Other(Reserved::By))) = peek(symbols, at) else {
        return Ok(None);
    };
    match hashed(alloc, symbols, at + 1)? {
        None => Ok(None),
        Some((hash, next)) => {
            let (hash, (count, next)) = beside(
                hash,
                optional::<i128, SubCountRule>(alloc, symbols, next),
            )?;
            Ok(Some((SubSpec { hash, count }, next)))
        }
    }
}

/// What the partitions are partitioned by.
struct SubRule;

impl Rule<SubSpec> for SubRule {
    ghost reading = { spec.sub_by steps.whole };

    #[tactic(auto, unfolding(crate::specs::PartReader::sub_by))]
    fn read(alloc: Global, symbols: &[Symbol], at: usize) -> Reading<SubSpec> {
        match word(symbols, at, Keyword::Subpartition) {
            None => Ok(None),
            Some(next) => sub_behind(alloc, symbols, next),
        }
    }
}

/// Definitions of partitions in parentheses.
pub struct PartsRule;

impl Rule<PartItems> for PartsRule {
    ghost reading = { spec.parts_of steps.whole };

    fn read(alloc: Global, symbols: &[Symbol], at: usize) -> Reading<PartItems> {
        listed::<PartItem, PartRule>(alloc, symbols, at)
    }
}

/// What stands behind the main partitioning.
fn with_count(
    alloc: Global,
    symbols: &[Symbol],
    at: usize,
    main: MainSpec,
) -> Result<(PartSpec, usize), AllocError>
    requires { at ≤ length symbols.now }
    ensures reads { IfOk result (λ p. spec.with_count steps.whole main (steps.optional spec.count (drop at symbols.now)) ≡ Some (p.0, drop p.1 symbols.now)) }
    ensures place { IfOk result (λ p. (at ≤ p.1) × (p.1 ≤ length symbols.now)) }
{
    let (main, (count, next)) = beside(main, optional::<i128, CountRule>(alloc, symbols, at))?;
    let (main, (sub, next)) = beside(main, optional::<SubSpec, SubRule>(alloc, symbols, next))?;
    let (before, (parts, next)) = beside(
        (main, sub),
        optional::<PartItems, PartsRule>(alloc, symbols, next),
    )?;
    let (main, sub) = before;
    Ok((
        PartSpec {
            main,
            count,
            sub,
            parts,
        },
        next,
    ))
}

/// What stands behind PARTITION.
#[tactic(auto, unfolding(crate::specs::PartReader::part_behind_by))]
fn part_behind_by(alloc: Global, symbols: &[Symbol], at: usize) -> Reading<PartSpec>
    requires { at ≤ length symbols.now }
    ensures reads { Reads symbols.now result (spec.part_behind_by steps.whole (drop at symbols.now)) }
    ensures place { Reaches (at + 1) symbols.now result }
{
    let Some(Symbol::Fixed(Mark::Other(Reserved::By))) = peek(symbols, at) else {
        return Ok(None);
    };
    let Some((main, next)) = main_of(alloc, symbols, at + 1)? else {
        return Ok(None);
    };
    Ok(Some(with_count(alloc, symbols, next, main)?))
}

/// A partitioning.
pub struct PartByRule;

impl Rule<PartSpec> for PartByRule {
    ghost reading = { spec.part_by steps.whole };

    #[tactic(auto, unfolding(crate::specs::PartReader::part_by))]
    fn read(alloc: Global, symbols: &[Symbol], at: usize) -> Reading<PartSpec> {
        match peek(symbols, at) {
            Some(Symbol::Fixed(Mark::Other(Reserved::Partition))) => {
                part_behind_by(alloc, symbols, at + 1)
            }
            _ => Ok(None),
        }
    }
}
