ghost use Rattle.std.specs.Prelude.{◌≡◌, true, fold};
ghost use Rattle.std.specs.List.{list_all};
ghost use Rattle.std.specs.Option.{option_map};
ghost use Rattle.pt_written.specs.Reading.{are_bytes_out, big_room, cut, cut_step, digit_step, has_room, int_room, is_beyond, is_binary, is_date_out, is_day, is_integer, is_out, is_text_out, is_text_wrong, is_wrong, sized};
ghost use Rattle.pt_written.specs.Written.{is_digit, kind_of, natural_in};
ghost use Rattle.pt_written.specs.WrittenParts.{is_date};

use pt_ast::{KindSpec, Literal};
use pt_value::day_of_text;

/// A constant that is a date text of no date, or too large for a column.
pub(crate) fn is_out(kind: KindSpec, literal: &Literal) -> bool
    ensures { result ≡ is_out kind literal.now }
{
    match literal {
        Literal::Number(minus, n) => !has_room(kind, *minus, *n),
        Literal::Text(bytes) => is_text_out(kind, bytes.items()),
        Literal::Hex(bytes) => are_bytes_out(kind, bytes.items()),
        Literal::Date(day) => !is_day(*day),
        Literal::Null => false,
    }
}

/// A constant of another kind than a column, or NULL in a NOT NULL column.
pub(crate) fn is_wrong(kind: KindSpec, not_null: bool, literal: &Literal) -> bool
    ensures { result ≡ is_wrong kind not_null literal.now }
{
    match literal {
        Literal::Number(_, _) => !is_integer(kind),
        Literal::Text(bytes) => is_text_wrong(kind, bytes.items()),
        Literal::Hex(_) => !is_binary(kind),
        Literal::Date(day) => is_day(*day) && !is_date(kind),
        Literal::Null => not_null,
    }
}

/// Whether a column has room for a number with this sign; a column of another kind has.
fn has_room(kind: KindSpec, minus: bool, n: i128) -> bool
    ensures { result ≡ has_room (kind_of kind) minus n }
{
    match kind {
        KindSpec::Int => is_int(minus, n),
        KindSpec::BigInt => is_big_int(minus, n),
        KindSpec::Date => true,
        KindSpec::Binary(_) => true,
    }
}

fn is_int(minus: bool, n: i128) -> bool
    ensures { result ≡ int_room minus n }
{
    if minus {
        return n <= 2_147_483_648 && -2_147_483_647 <= n;
    }
    -2_147_483_648 <= n && n <= 2_147_483_647
}

fn is_big_int(minus: bool, n: i128) -> bool
    ensures { result ≡ big_room minus n }
{
    if minus {
        return n <= 9_223_372_036_854_775_808 && -9_223_372_036_854_775_807 <= n;
    }
    -9_223_372_036_854_775_808 <= n && n <= 9_223_372_036_854_775_807
}

fn is_text_out(kind: KindSpec, bytes: &[u8]) -> bool
    ensures { result ≡ is_text_out kind bytes.now }
{
    match kind {
        KindSpec::Int => is_digits_out(kind, bytes),
        KindSpec::BigInt => is_digits_out(kind, bytes),
        KindSpec::Date => is_date_out(bytes),
        KindSpec::Binary(_) => are_bytes_out(kind, bytes),
    }
}

/// A text of a number that an integer column has no room for.
fn is_digits_out(kind: KindSpec, bytes: &[u8]) -> bool
    requires { is_integer kind ≡ true }
    ensures { result ≡ is_text_out kind bytes.now }
{
    is_beyond(kind, integer_in(bytes))
}

/// A number that the column has no room for, where there is a number.
fn is_beyond(kind: KindSpec, number: Option<(bool, i128)>) -> bool
    ensures { result ≡ is_beyond kind number }
{
    match number {
        Some((minus, n)) => !has_room(kind, minus, n),
        None => false,
    }
}

fn is_text_wrong(kind: KindSpec, bytes: &[u8]) -> bool
    ensures { result ≡ is_text_wrong kind bytes.now }
{
    is_integer(kind) && integer_in(bytes).is_none()
}

fn is_date_out(bytes: &[u8]) -> bool
    ensures { result ≡ is_date_out bytes.now }
{
    !is_day(day_of_text(bytes))
}

/// More bytes than the column has room for; a column of another kind has.
fn are_bytes_out(kind: KindSpec, bytes: &[u8]) -> bool
    ensures { result ≡ are_bytes_out kind bytes.now }
{
    match kind {
        KindSpec::Binary(most) => bytes.len() as u128 > most.unsigned_abs(),
        KindSpec::Int => false,
        KindSpec::BigInt => false,
        KindSpec::Date => false,
    }
}

/// A day that a date column has room for.
fn is_day(day: Option<i32>) -> bool
    ensures { result ≡ is_day day }
{
    match day {
        Some(day) => -354_285 <= day && day <= 2_932_896,
        None => false,
    }
}

fn is_integer(kind: KindSpec) -> bool
    ensures { result ≡ is_integer kind }
{
    matches!(kind, KindSpec::Int | KindSpec::BigInt)
}

fn is_date(kind: KindSpec) -> bool
    ensures { result ≡ is_date (kind_of kind) }
{
    matches!(kind, KindSpec::Date)
}

fn is_binary(kind: KindSpec) -> bool
    ensures { result ≡ is_binary kind }
{
    matches!(kind, KindSpec::Binary(_))
}

/// The integer that digits with an optional minus write: whether there is a minus, and the number without it, cut at 2^64 - 1. It takes
/// no memory.
pub fn integer_in(bytes: &[u8]) -> Option<(bool, i128)>
    ensures { result ≡ sized bytes.now }
{
    match bytes {
        [b'-', rest @ ..] => Some((true, natural_in(rest)? as i128)),
        _ => Some((false, natural_in(bytes)? as i128)),
    }
}

/// The number that one or more digits write, cut at 2^64 - 1.
fn natural_in(bytes: &[u8]) -> Option<u64>
    ensures { result ≡ option_map cut (natural_in bytes.now) }
{
    if bytes.is_empty() || !are_digits(bytes) {
        return None;
    }
    Some(digits_value(bytes))
}

fn are_digits(bytes: &[u8]) -> bool
    ensures { result ≡ list_all is_digit bytes.now }
{
    for byte in bytes {
        if !(48 <= *byte && *byte <= 57) {
            return false;
        }
    }
    true
}

/// What digits come to, cut at 2^64 - 1.
fn digits_value(bytes: &[u8]) -> u64
    ensures { result ≡ cut (fold digit_step 0 bytes.now) }
{
    digits_cut(bytes)
}

fn digits_cut(bytes: &[u8]) -> u64
    ensures { result ≡ fold cut_step 0 bytes.now }
{
    let mut n = 0;
    for byte in bytes {
        n = cut_step(n, *byte);
    }
    n
}

fn cut_step(n: u64, byte: u8) -> u64
    ensures { result ≡ cut_step n byte }
{
    n.saturating_mul(10)
        .saturating_add(byte.saturating_sub(48) as u64)
}
