//! Which levels are followed through all values of their column.
ghost use Rattle.std.specs.Prelude.{◌≡◌};
ghost use Rattle.pt_ast.specs.declared.tree.Expr.TheViews.{out-Expr};
ghost use Rattle.pt_reach.specs.Kept.{follows_all, is_followed, is_name, is_year_or_days};

use pt_ast::{Expr, Func, PartBy};

/// Whether the parts of a level are followed through all values of its column, however many they are: RANGE and LIST over the column,
/// its YEAR or its TO_DAYS, and COLUMNS.
pub(crate) fn follows_all(by: &PartBy) -> bool
    ensures { result ≡ follows_all by.now }
{
    match by {
        PartBy::Range(expr) => is_followed(expr),
        PartBy::List(expr) => is_followed(expr),
        PartBy::RangeColumns(_) => true,
        PartBy::ListColumns(_) => true,
        PartBy::Whole => false,
        PartBy::Hash(_, _) => false,
        PartBy::Key(_, _) => false,
    }
}

/// A column, its YEAR or its TO_DAYS.
fn is_followed(expr: &Expr) -> bool
    ensures { result ≡ is_followed (out-Expr expr.now) }
{
    match expr {
        Expr::Column(_) => true,
        Expr::Call(called, part) => is_year_or_days(*called) && is_name(part.get()),
        Expr::Number(_) => false,
        Expr::Text(_) => false,
        Expr::Hex(_) => false,
        Expr::Date(_) => false,
        Expr::Null => false,
        Expr::Neg(_) => false,
        Expr::Sum(_) => false,
        Expr::Product(_, _) => false,
    }
}

fn is_year_or_days(called: Func) -> bool
    ensures { result ≡ is_year_or_days called }
{
    matches!(called, Func::Year | Func::ToDays)
}

fn is_name(expr: &Expr) -> bool
    ensures { result ≡ is_name (out-Expr expr.now) }
{
    matches!(expr, Expr::Column(_))
}
