//! What has no part in a tree: engines, character sets and comments.

ghost use Rattle.std.specs.Prelude.{◌≡◌, ◌+◌, ◌≤◌, length, drop};
ghost use Rattle.pt_parse_ddl.specs.ColumnReader as spec;
ghost use Rattle.pt_parse_ddl.specs.Steps.{Passes, PassesTo};

use crate::columns::text;
use crate::rules::Skip;
use crate::words::{Keyword, name, word};
use pt_ast::Cmp;
use pt_parse_expr::{Mark, Reserved, Symbol, peek};

/// The place behind SET.
#[tactic(auto, unfolding(crate::specs::ColumnReader::past_set))]
fn set(symbols: &[Symbol], at: usize) -> Option<usize>
    requires { at ≤ length symbols.now }
    ensures passes { Passes symbols.now result (spec.past_set (drop at symbols.now)) }
    ensures place { PassesTo (at + 1) symbols.now result }
{
    match peek(symbols, at) {
        Some(Symbol::Fixed(Mark::Other(Reserved::Set))) => Some(at + 1),
        _ => None,
    }
}

/// The place behind CHARACTER SET or CHARSET.
#[tactic(auto, unfolding(crate::specs::ColumnReader::charset))]
pub(crate) fn charset(symbols: &[Symbol], at: usize) -> Option<usize>
    requires { at ≤ length symbols.now }
    ensures passes { Passes symbols.now result (spec.charset (drop at symbols.now)) }
    ensures place { PassesTo (at + 1) symbols.now result }
{
    match peek(symbols, at) {
        Some(Symbol::Fixed(Mark::Other(Reserved::Character))) => set(symbols, at + 1),
        _ => word(symbols, at, Keyword::Charset),
    }
}

/// The place behind an equals sign, where one stands.
#[tactic(auto, unfolding(crate::specs::Steps::optional, crate::specs::ColumnReader::equals))]
fn behind_equals(symbols: &[Symbol], at: usize) -> usize
    requires { at ≤ length symbols.now }
    ensures behind { spec.past_equals (drop at symbols.now) ≡ drop result symbols.now }
    ensures place { (at ≤ result) × (result ≤ length symbols.now) }
{
    match peek(symbols, at) {
        Some(Symbol::Fixed(Mark::Compare(Cmp::Eq))) => at + 1,
        _ => at,
    }
}

/// The place behind a name, and behind an equals sign before it.
#[tactic(auto, unfolding(crate::specs::ColumnReader::equals_name))]
fn equals_name(symbols: &[Symbol], at: usize) -> Option<usize>
    requires { at ≤ length symbols.now }
    ensures passes { Passes symbols.now result (spec.equals_name (drop at symbols.now)) }
    ensures place { PassesTo (at + 1) symbols.now result }
{
    let (_, next) = name(symbols, behind_equals(symbols, at))?;
    Some(next)
}

/// The place behind an engine.
#[tactic(auto, unfolding(crate::specs::ColumnReader::engine))]
fn engine(symbols: &[Symbol], at: usize) -> Option<usize>
    requires { at ≤ length symbols.now }
    ensures passes { Passes symbols.now result (spec.engine (drop at symbols.now)) }
    ensures place { PassesTo (at + 1) symbols.now result }
{
    let next = word(symbols, at, Keyword::Engine)?;
    equals_name(symbols, next)
}

/// The place behind a comment.
#[tactic(auto, unfolding(crate::specs::ColumnReader::comment))]
fn comment(symbols: &[Symbol], at: usize) -> Option<usize>
    requires { at ≤ length symbols.now }
    ensures passes { Passes symbols.now result (spec.comment (drop at symbols.now)) }
    ensures place { PassesTo (at + 1) symbols.now result }
{
    let next = word(symbols, at, Keyword::Comment)?;
    text(symbols, behind_equals(symbols, next))
}

/// The place behind the character set of a table.
#[tactic(auto, unfolding(crate::specs::ColumnReader::table_charset))]
fn table_charset(symbols: &[Symbol], at: usize) -> Option<usize>
    requires { at ≤ length symbols.now }
    ensures passes { Passes symbols.now result (spec.table_charset (drop at symbols.now)) }
    ensures place { PassesTo (at + 1) symbols.now result }
{
    let next = charset(symbols, at)?;
    equals_name(symbols, next)
}

/// The place behind an option of a partition.
#[tactic(auto, unfolding(crate::specs::ColumnReader::part_option))]
fn part_option(symbols: &[Symbol], at: usize) -> Option<usize>
    requires { at ≤ length symbols.now }
    ensures passes { Passes symbols.now result (spec.part_option (drop at symbols.now)) }
    ensures place { PassesTo (at + 1) symbols.now result }
{
    if let Some(next) = engine(symbols, at) {
        return Some(next);
    }
    comment(symbols, at)
}

/// The place behind an option of a table that DEFAULT doesn't begin.
fn undefaulted(symbols: &[Symbol], at: usize) -> Option<usize>
    requires { at ≤ length symbols.now }
    ensures passes { Passes symbols.now result (spec.undefaulted (drop at symbols.now)) }
    ensures place { PassesTo (at + 1) symbols.now result }
{
    if let Some(next) = part_option(symbols, at) {
        return Some(next);
    }
    table_charset(symbols, at)
}

/// The options of a partition.
pub(crate) struct PartOption;

impl Skip for PartOption {
    ghost skipping = { spec.part_option };

    fn skip(symbols: &[Symbol], at: usize) -> Option<usize> {
        part_option(symbols, at)
    }
}

/// The options of a table.
pub(crate) struct TableOption;

impl Skip for TableOption {
    ghost skipping = { spec.table_option };

    #[tactic(auto, unfolding(crate::specs::ColumnReader::table_option))]
    fn skip(symbols: &[Symbol], at: usize) -> Option<usize> {
        match peek(symbols, at) {
            Some(Symbol::Fixed(Mark::Other(Reserved::Default))) => table_charset(symbols, at + 1),
            _ => undefaulted(symbols, at),
        }
    }
}
