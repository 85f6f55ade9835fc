ghost use Rattle.std.specs.Prelude.{◌≡◌, ◌∷◌, []};
ghost use Rattle.pt_written.specs.Complete.{has_item, is_out_item, is_wide_item, is_wrong_item, is_wrong_written};
ghost use Rattle.pt_place.specs.Fitting.{kinds_of};

use crate::written_items::{is_out_item, is_wide_item, is_wrong_item};
use pt_ast::{BoundSpec, Columns, PartBy};
use pt_place::{kind_of, width};
use std::alloc::Global;

/// Whether an item is wrong, or there aren't as many as there are kinds.
pub(crate) fn is_wrong_written(
    alloc: Global,
    less: bool,
    columns: &Columns,
    by: &PartBy,
    tuple: &[BoundSpec],
) -> bool
    ensures { result ≡ is_wrong_written less (kinds_of columns.now by.now) tuple.now }
{
    tuple.len() != width(columns, by) || has_wrong_item(alloc, less, columns, by, tuple)
}

fn has_wrong_item(
    alloc: Global,
    less: bool,
    columns: &Columns,
    by: &PartBy,
    tuple: &[BoundSpec],
) -> bool
    ensures { result ≡ has_item (is_wrong_item less) (kinds_of columns.now by.now) tuple.now }
{
    for (at, item) in tuple.iter().enumerate() {
        let Some(kind) = kind_of(columns, by, at) else {
            return false;
        };
        if is_wrong_item(alloc, less, kind, item) {
            return true;
        }
    }
    false
}

/// Whether a number in an item may be too wide.
pub(crate) fn has_wide_item(
    alloc: Global,
    columns: &Columns,
    by: &PartBy,
    tuple: &[BoundSpec],
) -> bool
    ensures { result ≡ has_item is_wide_item (kinds_of columns.now by.now) tuple.now }
{
    for (at, item) in tuple.iter().enumerate() {
        let Some(kind) = kind_of(columns, by, at) else {
            return false;
        };
        if is_wide_item(alloc, kind, item) {
            return true;
        }
    }
    false
}

/// Whether an item is a date text that is none, or too large.
pub(crate) fn has_out_item(
    alloc: Global,
    columns: &Columns,
    by: &PartBy,
    tuple: &[BoundSpec],
) -> bool
    ensures { result ≡ has_item is_out_item (kinds_of columns.now by.now) tuple.now }
{
    for (at, item) in tuple.iter().enumerate() {
        let Some(kind) = kind_of(columns, by, at) else {
            return false;
        };
        if is_out_item(alloc, kind, item) {
            return true;
        }
    }
    false
}

/// The same of a tuple of one item.
pub(crate) fn is_wide_one(alloc: Global, columns: &Columns, by: &PartBy, item: &BoundSpec) -> bool
    ensures { result ≡ has_item is_wide_item (kinds_of columns.now by.now) (item.now ∷ []) }
{
    match kind_of(columns, by, 0) {
        Some(kind) => is_wide_item(alloc, kind, item),
        None => false,
    }
}

pub(crate) fn is_out_one(alloc: Global, columns: &Columns, by: &PartBy, item: &BoundSpec) -> bool
    ensures { result ≡ has_item is_out_item (kinds_of columns.now by.now) (item.now ∷ []) }
{
    match kind_of(columns, by, 0) {
        Some(kind) => is_out_item(alloc, kind, item),
        None => false,
    }
}

pub(crate) fn is_wrong_one(
    alloc: Global,
    less: bool,
    columns: &Columns,
    by: &PartBy,
    item: &BoundSpec,
) -> bool
    ensures { result ≡ is_wrong_written less (kinds_of columns.now by.now) (item.now ∷ []) }
{
    1 != width(columns, by) || has_wrong_one(alloc, less, columns, by, item)
}

fn has_wrong_one(
    alloc: Global,
    less: bool,
    columns: &Columns,
    by: &PartBy,
    item: &BoundSpec,
) -> bool
    ensures { result ≡ has_item (is_wrong_item less) (kinds_of columns.now by.now) (item.now ∷ []) }
{
    match kind_of(columns, by, 0) {
        Some(kind) => is_wrong_item(alloc, less, kind, item),
        None => false,
    }
}

/// The same of MAXVALUE alone.
pub(crate) fn is_wrong_max(less: bool, columns: &Columns, by: &PartBy) -> bool
    ensures { result ≡ is_wrong_written less (kinds_of columns.now by.now) (BoundSpec.Max ∷ []) }
{
    1 != width(columns, by) || has_wrong_max(less, columns, by)
}

fn has_wrong_max(less: bool, columns: &Columns, by: &PartBy) -> bool
    ensures { result ≡ has_item (is_wrong_item less) (kinds_of columns.now by.now) (BoundSpec.Max ∷ []) }
{
    match kind_of(columns, by, 0) {
        Some(_) => !less,
        None => false,
    }
}
