ghost use Rattle.std.specs.Prelude.{◌≡◌, Some, map};
ghost use Rattle.std.specs.List.{list_any};
ghost use Rattle.pt_written.specs.Complete.{bad_written_values, has_item, is_out_item, is_wide_item, is_wrong_written};
ghost use Rattle.pt_place.specs.First.{first_in};
ghost use Rattle.pt_place.specs.Fitting.{kinds_of};
ghost use Rattle.pt_written.specs.ReadingValues.{is_among_form, is_form, is_less_form, is_no_form, tuples_written, values_refusal};
ghost use Rattle.pt_written.specs.WrittenParts.{entry_items};

use crate::written_tuples::{
    has_out_item, has_wide_item, is_out_one, is_wide_one, is_wrong_max, is_wrong_one,
    is_wrong_written,
};
use pt_ast::{Arg, Columns, Entry, PartBy, PartItem, Refusal, ValuesSpec};
use pt_place::is_range;
use pt_value::Ident;
use std::alloc::Global;

/// What is refused of VALUES as written, partition by partition. It takes no memory.
pub fn all_bad_written_values(
    alloc: Global,
    table: &Ident,
    columns: &Columns,
    by: &PartBy,
    parts: &[PartItem],
) -> Option<Refusal>
    ensures { result ≡ first_in (bad_written_values table.now (kinds_of columns.now by.now) by.now) parts.now }
{
    for part in parts {
        if let Some(refusal) = bad_written_values(alloc, table, columns, by, part) {
            return Some(refusal);
        }
    }
    None
}

/// VALUES of the wrong form or with a wrong item, then a number that is too wide, then a value that is too large.
fn bad_written_values(
    alloc: Global,
    table: &Ident,
    columns: &Columns,
    by: &PartBy,
    part: &PartItem,
) -> Option<Refusal>
    ensures { result ≡ bad_written_values table.now (kinds_of columns.now by.now) by.now part.now }
{
    values_refusal(alloc, table, columns, by, part)
}

fn values_refusal(
    alloc: Global,
    table: &Ident,
    columns: &Columns,
    by: &PartBy,
    part: &PartItem,
) -> Option<Refusal>
    ensures { result ≡ values_refusal table.now (kinds_of columns.now by.now) by.now part.now }
{
    if !is_form(by, &part.values)
        || has_wrong_tuple(alloc, is_range(by), columns, by, &part.values)
    {
        return Some(Refusal::WrongValues(part.name));
    }
    if has_wide_tuple(alloc, columns, by, &part.values) {
        return Some(Refusal::TooWide(Arg::Name(*table)));
    }
    if has_out_tuple(alloc, columns, by, &part.values) {
        return Some(Refusal::OutOfRange(Arg::Name(part.name)));
    }
    None
}

/// Whether VALUES are of the form: LESS THAN for RANGE, IN for LIST, and none else.
fn is_form(by: &PartBy, values: &Option<ValuesSpec>) -> bool
    ensures { result ≡ is_form by.now values.now }
{
    match by {
        PartBy::Range(_) => is_less_form(values),
        PartBy::RangeColumns(_) => is_less_form(values),
        PartBy::List(_) => is_among_form(values),
        PartBy::ListColumns(_) => is_among_form(values),
        PartBy::Whole => is_no_form(values),
        PartBy::Hash(_, _) => is_no_form(values),
        PartBy::Key(_, _) => is_no_form(values),
    }
}

fn is_less_form(values: &Option<ValuesSpec>) -> bool
    ensures { result ≡ is_less_form values.now }
{
    match values {
        Some(ValuesSpec::LessMax) => true,
        Some(ValuesSpec::Less(_)) => true,
        Some(ValuesSpec::Among(_)) => false,
        None => false,
    }
}

fn is_among_form(values: &Option<ValuesSpec>) -> bool
    ensures { result ≡ is_among_form values.now }
{
    match values {
        Some(ValuesSpec::Among(_)) => true,
        Some(ValuesSpec::LessMax) => false,
        Some(ValuesSpec::Less(_)) => false,
        None => false,
    }
}

fn is_no_form(values: &Option<ValuesSpec>) -> bool
    ensures { result ≡ is_no_form values.now }
{
    values.is_none()
}

/// A tuple with a wrong item, or of another number of items than there are kinds.
fn has_wrong_tuple(
    alloc: Global,
    less: bool,
    columns: &Columns,
    by: &PartBy,
    values: &Option<ValuesSpec>,
) -> bool
    ensures { result ≡ list_any (is_wrong_written less (kinds_of columns.now by.now)) (tuples_written values.now) }
{
    match values {
        None => false,
        Some(ValuesSpec::LessMax) => is_wrong_max(less, columns, by),
        Some(ValuesSpec::Less(items)) => is_wrong_written(alloc, less, columns, by, items.items()),
        Some(ValuesSpec::Among(entries)) => has_wrong_entry(
            alloc,
            less,
            columns,
            by,
            entries.items(),
        ),
    }
}

fn has_wrong_entry(
    alloc: Global,
    less: bool,
    columns: &Columns,
    by: &PartBy,
    entries: &[Entry],
) -> bool
    ensures { result ≡ list_any (is_wrong_written less (kinds_of columns.now by.now)) (map entry_items entries.now) }
{
    for entry in entries {
        if is_wrong_entry(alloc, less, columns, by, entry) {
            return true;
        }
    }
    false
}

fn is_wrong_entry(alloc: Global, less: bool, columns: &Columns, by: &PartBy, entry: &Entry) -> bool
    ensures { result ≡ is_wrong_written less (kinds_of columns.now by.now) (entry_items entry.now) }
{
    match entry {
        Entry::One(item) => is_wrong_one(alloc, less, columns, by, item),
        Entry::Many(items) => is_wrong_written(alloc, less, columns, by, items.items()),
    }
}

/// A tuple in which a number may be too wide.
fn has_wide_tuple(
    alloc: Global,
    columns: &Columns,
    by: &PartBy,
    values: &Option<ValuesSpec>,
) -> bool
    ensures { result ≡ list_any (has_item is_wide_item (kinds_of columns.now by.now)) (tuples_written values.now) }
{
    match values {
        Some(values) => has_wide_value(alloc, columns, by, values),
        None => false,
    }
}

fn has_wide_value(alloc: Global, columns: &Columns, by: &PartBy, values: &ValuesSpec) -> bool
    ensures { result ≡ list_any (has_item is_wide_item (kinds_of columns.now by.now)) (tuples_written (Some values.now)) }
{
    match values {
        ValuesSpec::LessMax => false,
        ValuesSpec::Less(items) => has_wide_item(alloc, columns, by, items.items()),
        ValuesSpec::Among(entries) => has_wide_entry(alloc, columns, by, entries.items()),
    }
}

fn has_wide_entry(alloc: Global, columns: &Columns, by: &PartBy, entries: &[Entry]) -> bool
    ensures { result ≡ list_any (has_item is_wide_item (kinds_of columns.now by.now)) (map entry_items entries.now) }
{
    for entry in entries {
        if is_wide_entry(alloc, columns, by, entry) {
            return true;
        }
    }
    false
}

fn is_wide_entry(alloc: Global, columns: &Columns, by: &PartBy, entry: &Entry) -> bool
    ensures { result ≡ has_item is_wide_item (kinds_of columns.now by.now) (entry_items entry.now) }
{
    match entry {
        Entry::One(item) => is_wide_one(alloc, columns, by, item),
        Entry::Many(items) => has_wide_item(alloc, columns, by, items.items()),
    }
}

/// A tuple with a date text that is none, or with a value that is too large.
fn has_out_tuple(alloc: Global, columns: &Columns, by: &PartBy, values: &Option<ValuesSpec>) -> bool
    ensures { result ≡ list_any (has_item is_out_item (kinds_of columns.now by.now)) (tuples_written values.now) }
{
    match values {
        Some(values) => has_out_value(alloc, columns, by, values),
        None => false,
    }
}

fn has_out_value(alloc: Global, columns: &Columns, by: &PartBy, values: &ValuesSpec) -> bool
    ensures { result ≡ list_any (has_item is_out_item (kinds_of columns.now by.now)) (tuples_written (Some values.now)) }
{
    match values {
        ValuesSpec::LessMax => false,
        ValuesSpec::Less(items) => has_out_item(alloc, columns, by, items.items()),
        ValuesSpec::Among(entries) => has_out_entry(alloc, columns, by, entries.items()),
    }
}

fn has_out_entry(alloc: Global, columns: &Columns, by: &PartBy, entries: &[Entry]) -> bool
    ensures { result ≡ list_any (has_item is_out_item (kinds_of columns.now by.now)) (map entry_items entries.now) }
{
    for entry in entries {
        if is_out_entry(alloc, columns, by, entry) {
            return true;
        }
    }
    false
}

fn is_out_entry(alloc: Global, columns: &Columns, by: &PartBy, entry: &Entry) -> bool
    ensures { result ≡ has_item is_out_item (kinds_of columns.now by.now) (entry_items entry.now) }
{
    match entry {
        Entry::One(item) => is_out_one(alloc, columns, by, item),
        Entry::Many(items) => has_out_item(alloc, columns, by, items.items()),
    }
}
