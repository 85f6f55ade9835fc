ghost use Rattle.std.specs.Prelude.{◌≡◌, ◌+◌, ◌++◌, ◌≤◌, [], ◌∷◌, length, drop, Some, IfOk, OnOk};
ghost use Rattle.pt_parse_expr.specs.Placing.{Reaches, Reads, ReachesSome, ReadsSome};
ghost use Rattle.pt_parse_ddl.specs.ColumnReader as spec;
ghost use Rattle.pt_parse_ddl.specs.Columns.{kept};
ghost use Rattle.pt_parse_ddl.specs.Steps as steps;
ghost use Rattle.pt_parse_ddl.specs.Steps.{Passes, PassesTo};

use crate::options::charset;
use crate::rules::{Rule, in_parens, optional};
use crate::words::{Keyword, NumberRule, number, word};
use pt_ast::{ColOption, ColOptions, KindSpec, Literal};
use pt_parse_expr::{Mark, Reading, Reserved, Symbol, peek};
use pt_plain::List;
use pt_value::{Bin, day_of_text};
use std::alloc::{AllocError, Global};

/// The type of a column.
#[tactic(auto, unfolding(crate::specs::ColumnReader::kinded))]
pub(crate) fn kind(alloc: Global, symbols: &[Symbol], at: usize) -> Reading<KindSpec>
    requires { at ≤ length symbols.now }
    ensures reads { Reads symbols.now result (spec.kinded (drop at symbols.now)) }
    ensures place { Reaches (at + 1) symbols.now result }
{
    match peek(symbols, at) {
        Some(Symbol::Fixed(Mark::Other(Reserved::Int))) => {
            widened(alloc, symbols, at + 1, KindSpec::Int)
        }
        Some(Symbol::Fixed(Mark::Other(Reserved::Integer))) => {
            widened(alloc, symbols, at + 1, KindSpec::Int)
        }
        Some(Symbol::Fixed(Mark::Other(Reserved::BigInt))) => {
            widened(alloc, symbols, at + 1, KindSpec::BigInt)
        }
        Some(Symbol::Fixed(Mark::Other(Reserved::VarBinary))) => binary(alloc, symbols, at + 1),
        Some(Symbol::Fixed(Mark::Other(Reserved::VarChar))) => chars(alloc, symbols, at + 1),
        _ => Ok(date(symbols, at)),
    }
}

/// The type DATE.
fn date(symbols: &[Symbol], at: usize) -> Option<(KindSpec, usize)>
    requires { at ≤ length symbols.now }
    ensures reads { ReadsSome symbols.now result (spec.date_kind (drop at symbols.now)) }
    ensures place { ReachesSome (at + 1) symbols.now result }
{
    let next = word(symbols, at, Keyword::Date)?;
    Some((KindSpec::Date, next))
}

/// A type of numbers, with a display width or without.
fn widened(alloc: Global, symbols: &[Symbol], at: usize, kind: KindSpec) -> Reading<KindSpec>
    requires { at ≤ length symbols.now }
    ensures reads { Reads symbols.now result (spec.widened kind (drop at symbols.now)) }
    ensures place { Reaches at symbols.now result }
{
    let (_, next) = optional::<i128, Width>(alloc, symbols, at)?;
    Ok(Some((kind, next)))
}

/// What stands behind VARBINARY.
fn binary(alloc: Global, symbols: &[Symbol], at: usize) -> Reading<KindSpec>
    requires { at ≤ length symbols.now }
    ensures reads { Reads symbols.now result (spec.binary (drop at symbols.now)) }
    ensures place { Reaches (at + 1) symbols.now result }
{
    match in_parens::<i128, NumberRule>(alloc, symbols, at)? {
        None => Ok(None),
        Some((most, next)) => Ok(Some((KindSpec::Binary(most), next))),
    }
}

/// What stands behind VARCHAR.
fn chars(alloc: Global, symbols: &[Symbol], at: usize) -> Reading<KindSpec>
    requires { at ≤ length symbols.now }
    ensures reads { Reads symbols.now result (spec.chars (drop at symbols.now)) }
    ensures place { Reaches (at + 1) symbols.now result }
{
    match in_parens::<i128, NumberRule>(alloc, symbols, at)? {
        None => Ok(None),
        Some((most, next)) => Ok(binary_chars(symbols, next, most)),
    }
}

/// What stands behind VARCHAR and its length.
#[tactic(auto, unfolding(crate::specs::ColumnReader::binary_chars))]
fn binary_chars(symbols: &[Symbol], at: usize, most: i128) -> Option<(KindSpec, usize)>
    requires { at ≤ length symbols.now }
    ensures reads { ReadsSome symbols.now result (spec.binary_chars most (drop at symbols.now)) }
    ensures place { ReachesSome (at + 1) symbols.now result }
{
    let next = charset(symbols, at)?;
    let next = word(symbols, next, Keyword::Binary)?;
    Some((KindSpec::Binary(most), next))
}

/// A number in parentheses.
struct Width;

impl Rule<i128> for Width {
    ghost reading = { steps.in_parens steps.numbered };

    fn read(alloc: Global, symbols: &[Symbol], at: usize) -> Reading<i128> {
        in_parens::<i128, NumberRule>(alloc, symbols, at)
    }
}

/// A constant.
#[tactic(auto, unfolding(crate::specs::ColumnReader::constant))]
fn constant(alloc: Global, symbols: &[Symbol], at: usize) -> Reading<Literal>
    requires { at ≤ length symbols.now }
    ensures reads { Reads symbols.now result (spec.constant (drop at symbols.now)) }
    ensures place { Reaches (at + 1) symbols.now result }
{
    match peek(symbols, at) {
        Some(Symbol::Number(n)) => Ok(Some((Literal::Number(false, *n), at + 1))),
        Some(Symbol::Fixed(Mark::Plus)) => Ok(signed(symbols, at + 1, false)),
        Some(Symbol::Fixed(Mark::Minus)) => Ok(signed(symbols, at + 1, true)),
        Some(Symbol::Text(bytes)) => Ok(Some((Literal::Text(copied(alloc, bytes)?), at + 1))),
        Some(Symbol::Hex(bytes)) => Ok(Some((Literal::Hex(copied(alloc, bytes)?), at + 1))),
        Some(Symbol::Fixed(Mark::Null)) => Ok(Some((Literal::Null, at + 1))),
        _ => Ok(day(symbols, at)),
    }
}

/// The number behind a sign.
fn signed(symbols: &[Symbol], at: usize, is_minus: bool) -> Option<(Literal, usize)>
    requires { at ≤ length symbols.now }
    ensures reads { ReadsSome symbols.now result (spec.signed is_minus (drop at symbols.now)) }
    ensures place { ReachesSome (at + 1) symbols.now result }
{
    let (n, next) = number(symbols, at)?;
    Some((Literal::Number(is_minus, n), next))
}

/// DATE and a text.
fn day(symbols: &[Symbol], at: usize) -> Option<(Literal, usize)>
    requires { at ≤ length symbols.now }
    ensures reads { ReadsSome symbols.now result (spec.day (drop at symbols.now)) }
    ensures place { ReachesSome (at + 1) symbols.now result }
{
    let next = word(symbols, at, Keyword::Date)?;
    dated(symbols, next)
}

/// The text of a date.
#[tactic(auto, unfolding(crate::specs::ColumnReader::dated))]
fn dated(symbols: &[Symbol], at: usize) -> Option<(Literal, usize)>
    requires { at ≤ length symbols.now }
    ensures reads { ReadsSome symbols.now result (spec.dated (drop at symbols.now)) }
    ensures place { ReachesSome (at + 1) symbols.now result }
{
    match peek(symbols, at) {
        Some(Symbol::Text(bytes)) => Some((Literal::Date(day_of_text(bytes.items())), at + 1)),
        _ => None,
    }
}

/// An equal text.
fn copied(alloc: Global, bytes: &Bin) -> Result<Bin, AllocError>
    ensures { IfOk result (λ copied. copied ≡ bytes.now) }
{
    Bin::from_slice(alloc, bytes.items())
}

/// An option of a column; a comment is none.
#[tactic(auto, unfolding(crate::specs::ColumnReader::col_option))]
fn col_option(alloc: Global, symbols: &[Symbol], at: usize) -> Reading<Option<ColOption>>
    requires { at ≤ length symbols.now }
    ensures reads { Reads symbols.now result (spec.col_option (drop at symbols.now)) }
    ensures place { Reaches (at + 1) symbols.now result }
{
    match peek(symbols, at) {
        Some(Symbol::Fixed(Mark::Not)) => Ok(not_null(symbols, at + 1)),
        Some(Symbol::Fixed(Mark::Null)) => Ok(Some((Some(ColOption::Null), at + 1))),
        Some(Symbol::Fixed(Mark::Other(Reserved::Default))) => default(alloc, symbols, at + 1),
        Some(Symbol::Fixed(Mark::Other(Reserved::Primary))) => Ok(primary(symbols, at + 1)),
        Some(Symbol::Fixed(Mark::Other(Reserved::Unique))) => {
            Ok(Some((Some(ColOption::Unique), behind_key(symbols, at + 1))))
        }
        _ => Ok(remark(symbols, at)),
    }
}

/// The option NOT NULL, behind NOT.
#[tactic(auto, unfolding(crate::specs::ColumnReader::past_null))]
fn not_null(symbols: &[Symbol], at: usize) -> Option<(Option<ColOption>, usize)>
    requires { at ≤ length symbols.now }
    ensures reads { ReadsSome symbols.now result (spec.not_null (drop at symbols.now)) }
    ensures place { ReachesSome (at + 1) symbols.now result }
{
    match peek(symbols, at) {
        Some(Symbol::Fixed(Mark::Null)) => Some((Some(ColOption::NotNull), at + 1)),
        _ => None,
    }
}

/// The option DEFAULT, behind the word.
fn default(alloc: Global, symbols: &[Symbol], at: usize) -> Reading<Option<ColOption>>
    requires { at ≤ length symbols.now }
    ensures reads { Reads symbols.now result (spec.default (drop at symbols.now)) }
    ensures place { Reaches (at + 1) symbols.now result }
{
    match constant(alloc, symbols, at)? {
        None => Ok(None),
        Some((literal, next)) => Ok(Some((Some(ColOption::Default(literal)), next))),
    }
}

/// The option PRIMARY KEY, behind PRIMARY.
fn primary(symbols: &[Symbol], at: usize) -> Option<(Option<ColOption>, usize)>
    requires { at ≤ length symbols.now }
    ensures reads { ReadsSome symbols.now result (spec.primary (drop at symbols.now)) }
    ensures place { ReachesSome (at + 1) symbols.now result }
{
    let next = key(symbols, at)?;
    Some((Some(ColOption::Primary), next))
}

/// A comment on a column.
fn remark(symbols: &[Symbol], at: usize) -> Option<(Option<ColOption>, usize)>
    requires { at ≤ length symbols.now }
    ensures reads { ReadsSome symbols.now result (spec.remark (drop at symbols.now)) }
    ensures place { ReachesSome (at + 1) symbols.now result }
{
    let next = word(symbols, at, Keyword::Comment)?;
    let next = text(symbols, next)?;
    Some((None, next))
}

/// The place behind a text.
#[tactic(auto, unfolding(crate::specs::ColumnReader::past_text))]
pub(crate) fn text(symbols: &[Symbol], at: usize) -> Option<usize>
    requires { at ≤ length symbols.now }
    ensures passes { Passes symbols.now result (spec.past_text (drop at symbols.now)) }
    ensures place { PassesTo (at + 1) symbols.now result }
{
    match peek(symbols, at) {
        Some(Symbol::Text(_)) => Some(at + 1),
        _ => None,
    }
}

/// The place behind KEY.
#[tactic(auto, unfolding(crate::specs::ColumnReader::past_key))]
pub(crate) fn key(symbols: &[Symbol], at: usize) -> Option<usize>
    requires { at ≤ length symbols.now }
    ensures passes { Passes symbols.now result (spec.past_key (drop at symbols.now)) }
    ensures place { PassesTo (at + 1) symbols.now result }
{
    match peek(symbols, at) {
        Some(Symbol::Fixed(Mark::Other(Reserved::Key))) => Some(at + 1),
        _ => None,
    }
}

/// The place behind KEY, where it stands.
#[tactic(auto, unfolding(crate::specs::Steps::optional))]
fn behind_key(symbols: &[Symbol], at: usize) -> usize
    requires { at ≤ length symbols.now }
    ensures behind { (steps.optional spec.past_key (drop at symbols.now)).1 ≡ drop result symbols.now }
    ensures place { (at ≤ result) × (result ≤ length symbols.now) }
{
    match key(symbols, at) {
        Some(next) => next,
        None => at,
    }
}

/// As many options of a column as there are, without comments.
pub(crate) fn col_options(
    alloc: Global,
    symbols: &[Symbol],
    at: usize,
) -> Result<(ColOptions, usize), AllocError>
    requires { at ≤ length symbols.now }
    ensures reads { IfOk result (λ p. spec.col_options (drop at symbols.now) ≡ (p.0, drop p.1 symbols.now)) }
    ensures place { IfOk result (λ p. (at ≤ p.1) × (p.1 ≤ length symbols.now)) }
{
    let mut options = ColOptions::new(alloc);
    let mut next = at;
    while let Some((option, behind)) = col_option(alloc, symbols, next)? {
        keep(&mut options, option)?;
        next = behind;
    }
    Ok((options, next))
}

/// Adds what is there.
fn keep<T: Drop>(items: &mut List<T>, item: Option<T>) -> Result<(), AllocError>
    ensures { OnOk result (items.new ≡ items.old ++ kept (item ∷ [])) }
{
    match item {
        None => Ok(()),
        Some(item) => items.push(item),
    }
}
