ghost use Rattle.std.specs.Prelude.{◌≡◌, ◌&&◌, All, map, length};
ghost use Rattle.std.specs.List.{list_any};
ghost use Rattle.pt_place.specs.Checks.{has_column, is_default_out, is_default_wrong, is_primary_rank, is_too_long, second_primary};
ghost use Rattle.pt_place.specs.First.{in_turn};
ghost use Rattle.pt_place.specs.Valid.{AreBelow, bad_column, bad_key, is_nullable_primary};

use crate::fitting::{has_column, is_in_range, is_null, is_of_kind, is_primary};
use crate::names::{is_column, repeated};
use pt_ast::{Arg, Column, Columns, KeyDef, Rank, Refusal};
use pt_value::{Kind, Value};

/// Columns, in their order.
pub(crate) fn bad_columns(keys: &[KeyDef], columns: &[Column]) -> Option<Refusal>
    ensures { result ≡ in_turn (bad_column keys.now) columns.now }
{
    for (at, column) in columns.iter().enumerate() {
        if let Some(refusal) = bad_column(keys, &columns[..at], column) {
            return Some(refusal);
        }
    }
    None
}

/// A column beside those before it.
fn bad_column(keys: &[KeyDef], before: &[Column], column: &Column) -> Option<Refusal>
    ensures { result ≡ bad_column keys.now before.now column.now }
{
    let name = Arg::Name(column.name);
    if is_column(&column.name, before) {
        return Some(Refusal::DuplicateColumn(name));
    }
    if is_too_long(column.kind) || is_default_out(column.kind, &column.default) {
        return Some(Refusal::OutOfRange(name));
    }
    if is_default_wrong(column.kind, column.not_null, &column.default)
        || is_nullable_primary(keys, before.len(), column)
    {
        return Some(Refusal::TypeMismatch(name));
    }
    None
}

/// A VARBINARY of more than 4096 bytes.
fn is_too_long(kind: Kind) -> bool
    ensures { result ≡ is_too_long kind }
{
    match kind {
        Kind::Binary(most) => most > 4096,
        Kind::Int | Kind::BigInt | Kind::Date => false,
    }
}

/// A default that the column has no room for.
fn is_default_out(kind: Kind, default: &Option<Value>) -> bool
    ensures { result ≡ is_default_out kind default.now }
{
    match default {
        Some(value) => !is_in_range(kind, value),
        None => false,
    }
}

/// A default of another kind, or NULL in a NOT NULL column.
fn is_default_wrong(kind: Kind, not_null: bool, default: &Option<Value>) -> bool
    ensures { result ≡ is_default_wrong kind not_null default.now }
{
    match default {
        Some(value) => !is_of_kind(kind, value) || not_null && is_null(value),
        None => false,
    }
}

/// A column of the primary key that isn't NOT NULL.
fn is_nullable_primary(keys: &[KeyDef], number: usize, column: &Column) -> bool
    ensures { result ≡ is_nullable_primary keys.now number column.now }
{
    !column.not_null && is_in_primary(keys, number)
}

fn is_in_primary(keys: &[KeyDef], number: usize) -> bool
    ensures { result ≡ list_any (λ key. is_primary_rank key.rank && has_column key number) keys.now }
{
    for key in keys {
        if is_primary(key.rank) && has_column(key, number) {
            return true;
        }
    }
    false
}

/// Keys, in their order.
pub(crate) fn bad_keys(columns: &Columns, keys: &[KeyDef]) -> Option<Refusal>
    requires { All (λ key. AreBelow columns.now key.columns) keys.now }
    ensures { result ≡ in_turn (bad_key columns.now) keys.now }
{
    for (at, key) in keys.iter().enumerate() {
        if let Some(refusal) = bad_key(columns, &keys[..at], key) {
            return Some(refusal);
        }
    }
    None
}

/// A key beside those before it.
fn bad_key(columns: &Columns, before: &[KeyDef], key: &KeyDef) -> Option<Refusal>
    requires { AreBelow columns.now key.now.columns }
    ensures { result ≡ bad_key columns.now before.now key.now }
{
    if let Some(refusal) = repeated(columns, key.columns.items()) {
        return Some(refusal);
    }
    second_primary(before, key.rank)
}

/// A primary key after another one.
fn second_primary(before: &[KeyDef], rank: Rank) -> Option<Refusal>
    ensures { result ≡ second_primary (map (λ other. other.rank) before.now) rank }
{
    if is_primary(rank) && has_primary(before) {
        return Some(Refusal::DuplicateColumn(Arg::Primary));
    }
    None
}

fn has_primary(keys: &[KeyDef]) -> bool
    ensures { result ≡ list_any is_primary_rank (map (λ other. other.rank) keys.now) }
{
    for key in keys {
        if is_primary(key.rank) {
            return true;
        }
    }
    false
}
