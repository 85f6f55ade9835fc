ghost use Rattle.std.specs.Prelude.{◌≡◌, length, map, slice_get};
ghost use Rattle.std.specs.List.{list_any};
ghost use Rattle.pt_place.specs.Checks.{is_range};
ghost use Rattle.pt_place.specs.Fitting.{kind_at, kinds_of};
ghost use Rattle.pt_place.specs.Valid.{bad_values, has_bound, is_bound_out, is_tuple_count, is_wrong_bound, is_wrong_tuple};

use crate::fitting::{is_in_range, is_null, is_of_kind};
use crate::kinds::is_range;
use pt_ast::{Arg, Bound, BoundTuple, Columns, PartBy, PartDef, Refusal, TableDef};
use pt_value::Kind;

/// VALUES of the wrong form or with a wrong item, and then a value that is too large.
pub(crate) fn bad_values(def: &TableDef, part: &PartDef) -> Option<Refusal>
    ensures { result ≡ bad_values (kinds_of def.now.columns def.now.by) def.now.by part.now }
{
    let tuples = part.bounds.items();
    if !is_tuple_count(&def.by, tuples.len()) || has_wrong_tuple(def, tuples) {
        return Some(Refusal::WrongValues(part.name));
    }
    if has_tuple_out(def, tuples) {
        return Some(Refusal::OutOfRange(Arg::Name(part.name)));
    }
    None
}

/// One tuple of a range, one and more of a list, none else.
fn is_tuple_count(by: &PartBy, count: usize) -> bool
    ensures { result ≡ is_tuple_count by.now count }
{
    match by {
        PartBy::Range(_) | PartBy::RangeColumns(_) => count == 1,
        PartBy::List(_) | PartBy::ListColumns(_) => count != 0,
        PartBy::Whole | PartBy::Hash(_, _) | PartBy::Key(_, _) => count == 0,
    }
}

fn has_wrong_tuple(def: &TableDef, tuples: &[BoundTuple]) -> bool
    ensures { result ≡ list_any (is_wrong_tuple (is_range def.now.by) (kinds_of def.now.columns def.now.by)) tuples.now }
{
    for tuple in tuples {
        if is_wrong_tuple(def, tuple.items()) {
            return true;
        }
    }
    false
}

fn has_tuple_out(def: &TableDef, tuples: &[BoundTuple]) -> bool
    ensures { result ≡ list_any (has_bound is_bound_out (kinds_of def.now.columns def.now.by)) tuples.now }
{
    for tuple in tuples {
        if has_bound_out(def, tuple.items()) {
            return true;
        }
    }
    false
}

/// Whether an item is wrong, or there aren't as many as there are kinds.
fn is_wrong_tuple(def: &TableDef, tuple: &[Bound]) -> bool
    ensures { result ≡ is_wrong_tuple (is_range def.now.by) (kinds_of def.now.columns def.now.by) tuple.now }
{
    tuple.len() != width(&def.columns, &def.by) || has_wrong_bound(def, tuple)
}

fn has_wrong_bound(def: &TableDef, tuple: &[Bound]) -> bool
    ensures { result ≡ has_bound (is_wrong_bound (is_range def.now.by)) (kinds_of def.now.columns def.now.by) tuple.now }
{
    let less = is_range(&def.by);
    for (at, bound) in tuple.iter().enumerate() {
        let Some(kind) = kind_of(&def.columns, &def.by, at) else {
            return false;
        };
        if is_wrong_bound(less, kind, bound) {
            return true;
        }
    }
    false
}

fn has_bound_out(def: &TableDef, tuple: &[Bound]) -> bool
    ensures { result ≡ has_bound is_bound_out (kinds_of def.now.columns def.now.by) tuple.now }
{
    for (at, bound) in tuple.iter().enumerate() {
        let Some(kind) = kind_of(&def.columns, &def.by, at) else {
            return false;
        };
        if is_bound_out(kind, bound) {
            return true;
        }
    }
    false
}

/// LESS THAN allows MAXVALUE and no NULL, IN allows NULL and no MAXVALUE.
fn is_wrong_bound(less: bool, kind: Kind, bound: &Bound) -> bool
    ensures { result ≡ is_wrong_bound less kind bound.now }
{
    match bound {
        Bound::Val(value) => !is_of_kind(kind, value) || less && is_null(value),
        Bound::Max => !less,
    }
}

fn is_bound_out(kind: Kind, bound: &Bound) -> bool
    ensures { result ≡ is_bound_out kind bound.now }
{
    match bound {
        Bound::Val(value) => !is_in_range(kind, value),
        Bound::Max => false,
    }
}

/// How many items a tuple has.
pub fn width(columns: &Columns, by: &PartBy) -> usize
    ensures { result ≡ length (kinds_of columns.now by.now) }
{
    match by {
        PartBy::Range(_) | PartBy::List(_) => 1,
        PartBy::RangeColumns(numbers) => numbers.items().len(),
        PartBy::ListColumns(numbers) => numbers.items().len(),
        PartBy::Whole | PartBy::Hash(_, _) | PartBy::Key(_, _) => 0,
    }
}

/// The kind of the item at a place, if there are so many.
pub fn kind_of(columns: &Columns, by: &PartBy, at: usize) -> Option<Kind>
    ensures { result ≡ slice_get (kinds_of columns.now by.now) at }
{
    match by {
        PartBy::Range(_) | PartBy::List(_) => {
            if at == 0 {
                return Some(Kind::BigInt);
            }
            None
        }
        PartBy::RangeColumns(numbers) => kind_in(columns, numbers.items(), at),
        PartBy::ListColumns(numbers) => kind_in(columns, numbers.items(), at),
        PartBy::Whole | PartBy::Hash(_, _) | PartBy::Key(_, _) => None,
    }
}

/// The kind of the column at a place of a list.
fn kind_in(columns: &Columns, numbers: &[u32], at: usize) -> Option<Kind>
    ensures { result ≡ slice_get (map (kind_at columns.now) numbers.now) at }
{
    match numbers.get(at) {
        Some(number) => Some(kind_at(columns, *number)),
        None => None,
    }
}

fn kind_at(columns: &Columns, number: u32) -> Kind
    ensures { result ≡ kind_at columns.now number }
{
    match columns.items().get(number as usize) {
        Some(column) => column.kind,
        None => Kind::BigInt,
    }
}
