ghost use Rattle.std.specs.Prelude.{◌≡◌, ◌==◌};
ghost use Rattle.std.specs.List.{list_any};
ghost use Rattle.pt_place.specs.Checks.{has_column, is_null, is_primary_rank, is_unique_rank};
ghost use Rattle.pt_place.specs.Fitting.{is_in_range, is_of_kind};

use pt_ast::{KeyDef, Rank};
use pt_value::{Kind, Value};

/// Whether a value is of a kind, however large.
pub(crate) fn is_of_kind(kind: Kind, value: &Value) -> bool
    ensures { result ≡ is_of_kind kind value.now }
{
    match (kind, value) {
        (_, Value::Null) => true,
        (Kind::Int, Value::Int(_)) => true,
        (Kind::BigInt, Value::Int(_)) => true,
        (Kind::Date, Value::Day(_)) => true,
        (Kind::Binary(_), Value::Bytes(_)) => true,
        _ => false,
    }
}

/// Whether a value of a kind isn't too large for it; a value of another kind is none of its.
pub(crate) fn is_in_range(kind: Kind, value: &Value) -> bool
    ensures { result ≡ is_in_range kind value.now }
{
    match value {
        Value::Null => true,
        Value::Int(n) => int_in_range(kind, *n),
        Value::Day(day) => day_in_range(kind, *day),
        Value::Bytes(bytes) => bytes_in_range(kind, bytes.items()),
    }
}

fn int_in_range(kind: Kind, n: i64) -> bool
    ensures { result ≡ is_in_range kind (Value.Int n) }
{
    match kind {
        Kind::Int => -2_147_483_648 <= n && n <= 2_147_483_647,
        Kind::BigInt => true,
        Kind::Date => true,
        Kind::Binary(_) => true,
    }
}

/// The same of a number of any size.
pub fn wide_in_range(kind: Kind, n: i128) -> bool
    ensures { result ≡ is_in_range kind (Value.Int n) }
{
    match kind {
        Kind::Int => -2_147_483_648 <= n && n <= 2_147_483_647,
        Kind::BigInt => -9_223_372_036_854_775_808 <= n && n <= 9_223_372_036_854_775_807,
        Kind::Date => true,
        Kind::Binary(_) => true,
    }
}

/// Whether a column of this kind has room for this day, counted from 1970-01-01, or is of another kind. It takes no memory.
pub fn day_in_range(kind: Kind, day: i32) -> bool
    ensures { result ≡ is_in_range kind (Value.Day day) }
{
    match kind {
        Kind::Date => -354_285 <= day && day <= 2_932_896,
        Kind::Int => true,
        Kind::BigInt => true,
        Kind::Binary(_) => true,
    }
}

/// Whether a column of this kind has room for these bytes, or is of another kind. It takes no memory.
pub fn bytes_in_range(kind: Kind, bytes: &[u8]) -> bool
    ensures { result ≡ is_in_range kind (Value.Bytes bytes.now) }
{
    match kind {
        Kind::Binary(most) => bytes.len() <= most as usize,
        Kind::Int => true,
        Kind::BigInt => true,
        Kind::Date => true,
    }
}

pub(crate) fn is_null(value: &Value) -> bool
    ensures { result ≡ is_null value.now }
{
    matches!(value, Value::Null)
}

/// Whether a key of this rank is the primary one. It takes no memory.
pub fn is_primary(rank: Rank) -> bool
    ensures { result ≡ is_primary_rank rank }
{
    matches!(rank, Rank::Primary)
}

/// Whether a key of this rank is unique, but not the primary one. It takes no memory.
pub fn is_unique(rank: Rank) -> bool
    ensures { result ≡ is_unique_rank rank }
{
    matches!(rank, Rank::Unique)
}

/// Whether a key has the column at this position.
pub(crate) fn has_column(key: &KeyDef, number: usize) -> bool
    ensures { result ≡ has_column key.now number }
{
    is_listed(key.columns.items(), number)
}

fn is_listed(numbers: &[u32], number: usize) -> bool
    ensures { result ≡ list_any (λ own. own == number) numbers.now }
{
    numbers.iter().any(|own| *own as usize == number)
}
