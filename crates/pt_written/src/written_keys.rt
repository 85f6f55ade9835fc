ghost use Rattle.std.specs.Prelude.{◌≡◌, ◌≤◌, IfOk, find, length, option_copied};
ghost use Rattle.std.specs.List.{list_all, position_or_len};
ghost use Rattle.pt_expr.specs.Columns.{is_named};
ghost use Rattle.pt_written.specs.Complete.{bad_list, no_column};
ghost use Rattle.pt_place.specs.First.{first_in, in_turn};
ghost use Rattle.pt_place.specs.Checks.{is_primary_rank, twice};
ghost use Rattle.pt_written.specs.Written.{columns_for_rows, is_full_unique, is_not_null_at, places_of};

use pt_ast::{Arg, ColumnNos, Columns, KeyDef, Refusal};
use pt_place::{column_of, is_among, is_primary, is_unique, same};
use pt_value::Ident;
use std::alloc::{AllocError, Global};

/// A list of columns: first each name has to be there, and then each only once.
pub(crate) fn bad_list(columns: &Columns, names: &[Ident]) -> Option<Refusal>
    ensures { result ≡ bad_list columns.now names.now }
{
    if let Some(refusal) = first_missing(columns, names) {
        return Some(refusal);
    }
    first_twice(names)
}

fn first_missing(columns: &Columns, names: &[Ident]) -> Option<Refusal>
    ensures { result ≡ first_in (no_column columns.now) names.now }
{
    for name in names {
        if column_of(columns, name).is_none() {
            return Some(Refusal::NoSuchColumn(*name));
        }
    }
    None
}

/// The first name that stands before.
fn first_twice(names: &[Ident]) -> Option<Refusal>
    ensures { result ≡ in_turn twice names.now }
{
    for (at, name) in names.iter().enumerate() {
        if is_among(name, &names[..at]) {
            return Some(Refusal::DuplicateColumn(Arg::Name(*name)));
        }
    }
    None
}

/// The positions of named columns, and past the last one for a name that is none.
pub fn places_of(alloc: Global, columns: &Columns, names: &[Ident]) -> Result<ColumnNos, AllocError>
    requires { length columns.now ≤ 1_000_000 }
    ensures { IfOk result (λ places. places ≡ places_of columns.now names.now) }
{
    let mut places = ColumnNos::new(alloc);
    for name in names {
        places.push(place_of(columns, name))?;
    }
    Ok(places)
}

/// The position of the first column of a name, and past the last one where there is none.
fn place_of(columns: &Columns, name: &Ident) -> u32
    requires { length columns.now ≤ 1_000_000 }
    ensures { result ≡ position_or_len (is_named name.now) columns.now }
{
    let mut place: u32 = 0;
    for column in columns.items() {
        if same(&column.name, name) {
            return place;
        }
        place += 1;
    }
    place
}

/// The columns of the primary key, else of the first unique key whose columns are all NOT NULL, or none.
pub(crate) fn columns_for_rows<'a>(columns: &Columns, keys: &'a [KeyDef]) -> &'a [u32]
    ensures { result.now ≡ columns_for_rows columns.now keys.now }
{
    if let Some(key) = primary_key(keys) {
        return key.columns.items();
    }
    match full_unique(columns, keys) {
        Some(key) => key.columns.items(),
        None => &[],
    }
}

fn primary_key(keys: &[KeyDef]) -> Option<&KeyDef>
    ensures { option_copied result ≡ find (λ key. is_primary_rank key.rank) keys.now }
{
    for key in keys {
        if is_primary(key.rank) {
            return Some(key);
        }
    }
    None
}

/// The first unique key whose columns are all NOT NULL.
fn full_unique<'a>(columns: &Columns, keys: &'a [KeyDef]) -> Option<&'a KeyDef>
    ensures { option_copied result ≡ find (is_full_unique columns.now) keys.now }
{
    for key in keys {
        if is_full_unique(columns, key) {
            return Some(key);
        }
    }
    None
}

fn is_full_unique(columns: &Columns, key: &KeyDef) -> bool
    ensures { result ≡ is_full_unique columns.now key.now }
{
    is_unique(key.rank) && are_not_null(columns, key.columns.items())
}

fn are_not_null(columns: &Columns, numbers: &[u32]) -> bool
    ensures { result ≡ list_all (is_not_null_at columns.now) numbers.now }
{
    for number in numbers {
        if !is_not_null_at(columns, *number) {
            return false;
        }
    }
    true
}

fn is_not_null_at(columns: &Columns, number: u32) -> bool
    ensures { result ≡ is_not_null_at columns.now number }
{
    match columns.items().get(number as usize) {
        Some(column) => column.not_null,
        None => false,
    }
}
