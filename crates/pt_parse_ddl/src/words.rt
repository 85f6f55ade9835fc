ghost use Rattle.std.specs.Prelude.{◌≡◌, ◌+◌, ◌≤◌, length, drop};
ghost use Rattle.std.specs.Str.{str_eq_ignore_ascii_case};
ghost use Rattle.pt_parse_expr.specs.Placing.{ReachesSome, ReadsSome};
ghost use Rattle.pt_parse_ddl.specs.Steps as spec;
ghost use Rattle.pt_parse_ddl.specs.Steps.{Passes, PassesTo};
ghost use Rattle.pt_parse_ddl.specs.Words as grammar;

use crate::rules::Rule;
use pt_parse_expr::{Reading, Symbol, peek};
use pt_value::Ident;
use std::alloc::Global;

/// A word of definitions, and of changes of tables, that is reserved nowhere: it may be a name as well.
#[derive(Clone, Copy)]
pub enum Keyword {
    Binary,
    Charset,
    Coalesce,
    Columns,
    Comment,
    Date,
    Engine,
    Exchange,
    Hash,
    Less,
    List,
    Partitioning,
    Partitions,
    Remove,
    Reorganize,
    Subpartition,
    Subpartitions,
    Than,
    Truncate,
    Validation,
}

impl Keyword {
    /// How the word is spelled, in capital letters.
    fn spelling(self) -> &'static [u8]
        ensures { result.now ≡ grammar.spelling self }
    {
        match self {
            Keyword::Binary => b"BINARY",
            Keyword::Charset => b"CHARSET",
            Keyword::Coalesce => b"COALESCE",
            Keyword::Columns => b"COLUMNS",
            Keyword::Comment => b"COMMENT",
            Keyword::Date => b"DATE",
            Keyword::Engine => b"ENGINE",
            Keyword::Exchange => b"EXCHANGE",
            Keyword::Hash => b"HASH",
            Keyword::Less => b"LESS",
            Keyword::List => b"LIST",
            Keyword::Partitioning => b"PARTITIONING",
            Keyword::Partitions => b"PARTITIONS",
            Keyword::Remove => b"REMOVE",
            Keyword::Reorganize => b"REORGANIZE",
            Keyword::Subpartition => b"SUBPARTITION",
            Keyword::Subpartitions => b"SUBPARTITIONS",
            Keyword::Than => b"THAN",
            Keyword::Truncate => b"TRUNCATE",
            Keyword::Validation => b"VALIDATION",
        }
    }

    /// Whether a name is the word, in any case of its letters.
    fn is(self, name: &[u8]) -> bool
        ensures { result ≡ grammar.is_word self name.now }
    {
        name.eq_ignore_ascii_case(self.spelling())
    }
}

/// The place behind a word that is reserved nowhere, where it stands.
#[tactic(auto, unfolding(crate::specs::Steps::worded))]
pub fn word(symbols: &[Symbol], at: usize, keyword: Keyword) -> Option<usize>
    requires { at ≤ length symbols.now }
    ensures passes { Passes symbols.now result (spec.worded keyword (drop at symbols.now)) }
    ensures place { PassesTo (at + 1) symbols.now result }
{
    match peek(symbols, at) {
        Some(Symbol::Word(name)) if keyword.is(name.bytes()) => Some(at + 1),
        _ => None,
    }
}

/// A name.
#[tactic(auto, unfolding(crate::specs::Steps::named))]
pub fn name(symbols: &[Symbol], at: usize) -> Option<(Ident, usize)>
    requires { at ≤ length symbols.now }
    ensures reads { ReadsSome symbols.now result (spec.named (drop at symbols.now)) }
    ensures place { ReachesSome (at + 1) symbols.now result }
{
    match peek(symbols, at) {
        Some(Symbol::Word(name)) => Some((*name, at + 1)),
        Some(Symbol::Quoted(name)) => Some((*name, at + 1)),
        _ => None,
    }
}

/// A number.
#[tactic(auto, unfolding(crate::specs::Steps::numbered))]
pub fn number(symbols: &[Symbol], at: usize) -> Option<(i128, usize)>
    requires { at ≤ length symbols.now }
    ensures reads { ReadsSome symbols.now result (spec.numbered (drop at symbols.now)) }
    ensures place { ReachesSome (at + 1) symbols.now result }
{
    match peek(symbols, at) {
        Some(Symbol::Number(n)) => Some((*n, at + 1)),
        _ => None,
    }
}

/// A number.
pub(crate) struct NumberRule;

impl Rule<i128> for NumberRule {
    ghost reading = { spec.numbered };

    fn read(_alloc: Global, symbols: &[Symbol], at: usize) -> Reading<i128> {
        Ok(number(symbols, at))
    }
}

/// A name.
pub struct NameRule;

impl Rule<Ident> for NameRule {
    ghost reading = { spec.named };

    fn read(_alloc: Global, symbols: &[Symbol], at: usize) -> Reading<Ident> {
        Ok(name(symbols, at))
    }
}
