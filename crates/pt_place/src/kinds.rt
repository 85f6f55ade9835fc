ghost use Rattle.std.specs.Prelude.{◌≡◌};
ghost use Rattle.pt_place.specs.Checks.{bad_expr, is_by_number, is_range, is_whole, key_of_none, of_fault, sub_of_number};
ghost use Rattle.pt_place.specs.Valid.{AreBelow, ArePlaced, bad_by, bad_kinds, numbers_of};

use crate::keys::lacking_key;
use crate::names::repeated;
use crate::used::names_column;
use pt_ast::{Arg, Columns, Expr, PartBy, Refusal, TableDef};
use pt_expr::{CheckFault, ExprKind, check};
use pt_value::Ident;

/// What a table is partitioned by, and then subpartitioned.
pub(crate) fn bad_kinds(table: &Ident, def: &TableDef) -> Option<Refusal>
    requires { ArePlaced def.now }
    ensures { result ≡ bad_kinds table.now def.now }
{
    if let Some(refusal) = sub_of_number(table, &def.by, &def.sub) {
        return Some(refusal);
    }
    if let Some(refusal) = key_of_none(&def.by) {
        return Some(refusal);
    }
    if let Some(refusal) = key_of_none(&def.sub) {
        return Some(refusal);
    }
    if let Some(refusal) = bad_by(table, &def.columns, &def.by) {
        return Some(refusal);
    }
    if let Some(refusal) = bad_by(table, &def.columns, &def.sub) {
        return Some(refusal);
    }
    lacking_key(def)
}

/// SUBPARTITION BY under HASH or KEY.
pub fn sub_of_number(table: &Ident, by: &PartBy, sub: &PartBy) -> Option<Refusal>
    ensures { result ≡ sub_of_number table.now by.now sub.now }
{
    if is_by_number(by) && !is_whole(sub) {
        return Some(Refusal::OnlyRangeList(*table));
    }
    None
}

pub(crate) fn is_by_number(by: &PartBy) -> bool
    ensures { result ≡ is_by_number by.now }
{
    matches!(by, PartBy::Hash(_, _) | PartBy::Key(_, _))
}

pub(crate) fn is_whole(by: &PartBy) -> bool
    ensures { result ≡ is_whole by.now }
{
    matches!(by, PartBy::Whole)
}

/// By RANGE, with or without COLUMNS.
pub fn is_range(by: &PartBy) -> bool
    ensures { result ≡ is_range by.now }
{
    matches!(by, PartBy::Range(_) | PartBy::RangeColumns(_))
}

/// KEY without columns.
pub fn key_of_none(by: &PartBy) -> Option<Refusal>
    ensures { result ≡ key_of_none by.now }
{
    match by {
        PartBy::Key(_, numbers) if numbers.items().is_empty() => {
            Some(Refusal::KeyNeedsColumns(Arg::Key))
        }
        _ => None,
    }
}

/// A column that stands twice, or what is wrong with an expression.
fn bad_by(table: &Ident, columns: &Columns, by: &PartBy) -> Option<Refusal>
    requires { AreBelow columns.now (numbers_of by.now) }
    ensures { result ≡ bad_by table.now columns.now by.now }
{
    match by {
        PartBy::Whole => None,
        PartBy::Range(expr) => bad_expr(table, columns, expr),
        PartBy::List(expr) => bad_expr(table, columns, expr),
        PartBy::Hash(_, expr) => bad_expr(table, columns, expr),
        PartBy::RangeColumns(numbers) => repeated(columns, numbers.items()),
        PartBy::ListColumns(numbers) => repeated(columns, numbers.items()),
        PartBy::Key(_, numbers) => repeated(columns, numbers.items()),
    }
}

/// The first fault of an expression; and then it has to be an integer and name a column.
pub fn bad_expr(table: &Ident, columns: &Columns, expr: &Expr) -> Option<Refusal>
    ensures { result ≡ bad_expr table.now columns.now expr.now }
{
    match check(columns, expr, false) {
        Err(fault) => Some(of_fault(table, fault)),
        Ok(ExprKind::Wide) if names_column(expr) => None,
        Ok(_) => Some(Refusal::BadFunction(*table)),
    }
}

fn of_fault(table: &Ident, fault: CheckFault) -> Refusal
    ensures { result ≡ of_fault table.now fault }
{
    match fault {
        CheckFault::NoColumn(name) => Refusal::NoSuchColumn(name),
        CheckFault::Mismatch => Refusal::TypeMismatch(Arg::Name(*table)),
        CheckFault::TooWide => Refusal::TooWide(Arg::Name(*table)),
        CheckFault::BadDate => Refusal::OutOfRange(Arg::Name(*table)),
    }
}
