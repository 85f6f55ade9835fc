//! The column of a level.
ghost use Rattle.std.specs.Prelude.{◌≡◌, fold};
ghost use Rattle.pt_place.specs.Names.{columns_in, names_in};
ghost use Rattle.pt_reach.specs.Kept.{alone, first, level_column, sole};
ghost use Rattle.pt_prune.specs.Lone.{noted, sole_of, with_column, with_name};

use pt_ast::{Columns, Expr, PartBy};
use pt_place::column_of;

/// The position of the column of a level: the one that its expression names, the first one of COLUMNS, and that of KEY over one.
pub(crate) fn level_column(columns: &Columns, by: &PartBy) -> Option<usize>
    ensures { result ≡ level_column columns.now by.now }
{
    match by {
        PartBy::Whole => None,
        PartBy::Range(expr) => sole(columns, expr),
        PartBy::List(expr) => sole(columns, expr),
        PartBy::RangeColumns(numbers) => first(numbers.items()),
        PartBy::ListColumns(numbers) => first(numbers.items()),
        PartBy::Hash(_, expr) => sole(columns, expr),
        PartBy::Key(_, numbers) => alone(numbers.items()),
    }
}

/// The first one of these.
fn first(numbers: &[u32]) -> Option<usize>
    ensures { result ≡ first numbers.now }
{
    match numbers {
        [number, ..] => Some(*number as usize),
        [] => None,
    }
}

/// The only one of these.
fn alone(numbers: &[u32]) -> Option<usize>
    ensures { result ≡ alone numbers.now }
{
    match numbers {
        [number] => Some(*number as usize),
        _ => None,
    }
}

/// The one column that an expression names, however often.
fn sole(columns: &Columns, expr: &Expr) -> Option<usize>
    ensures { result ≡ sole (columns_in columns.now expr.now) }
{
    sole_of(lone_in(columns, expr, Lone::Nothing))
}

/// Which columns are named so far.
#[derive(Clone, Copy)]
pub(crate) enum Lone {
    Nothing,
    One(usize),
    Several,
}

fn sole_of(lone: Lone) -> Option<usize>
    ensures { result ≡ sole_of lone }
{
    match lone {
        Lone::One(at) => Some(at),
        Lone::Nothing | Lone::Several => None,
    }
}

/// With the columns that an expression names.
fn lone_in(columns: &Columns, expr: &Expr, before: Lone) -> Lone
    ensures { result ≡ fold (with_name columns.now) before (names_in expr.now) }
{
    match expr {
        Expr::Column(name) => noted(before, column_of(columns, name)),
        Expr::Neg(part) => lone_in(columns, part.get(), before),
        Expr::Sum(parts) => {
            let mut lone = before;
            for (_, part) in parts.items() {
                lone = lone_in(columns, part, lone);
            }
            lone
        }
        Expr::Product(first, parts) => {
            let mut lone = lone_in(columns, first.get(), before);
            for (_, part) in parts.items() {
                lone = lone_in(columns, part, lone);
            }
            lone
        }
        Expr::Call(_, part) => lone_in(columns, part.get(), before),
        Expr::Number(_) | Expr::Text(_) | Expr::Hex(_) | Expr::Date(_) | Expr::Null => before,
    }
}

/// With one more column, if there is one.
fn noted(before: Lone, column: Option<usize>) -> Lone
    ensures { result ≡ noted before column }
{
    match column {
        Some(at) => with_column(before, at),
        None => before,
    }
}

fn with_column(before: Lone, at: usize) -> Lone
    ensures { result ≡ with_column before at }
{
    match before {
        Lone::Nothing => Lone::One(at),
        Lone::One(own) => {
            if at == own {
                Lone::One(own)
            } else {
                Lone::Several
            }
        }
        Lone::Several => Lone::Several,
    }
}
