ghost use Rattle.std.specs.Prelude.{◌≡◌, Some};
ghost use Rattle.pt_expr.specs.Columns.{AreFitting};
ghost use Rattle.pt_place.specs.Place.{place_of};
ghost use Rattle.pt_checks.specs.Queries.{IsCheckedCond};
ghost use Rattle.pt_checks.specs.Wanted.{is_named_spot, is_true, is_wanted, passes};

use pt_ast::{Cells, Columns, Cond, Idents, Row, Spot, TableDef};
use pt_expr::truth;
use pt_place::in_set;
use pt_value::Truth;

/// Whether a row, which stands in this spot, is in the named partitions and WHERE is TRUE of it. It takes no memory.
pub fn wanted(
    def: &TableDef,
    parts: &Option<Idents>,
    cond: &Option<Cond>,
    row: &Row,
    spot: Spot,
) -> bool
    requires checked { IsCheckedCond def.now.columns cond.now }
    requires fitting { AreFitting def.now.columns row.now.cells }
    requires placed { place_of def.now row.now.cells ≡ Some spot }
    ensures { result ≡ is_wanted def.now parts.now cond.now row.now }
{
    is_named_spot(def, parts, spot) && passes(&def.columns, cond, &row.cells)
}

/// Whether a spot is one of the partitions or subpartitions that are named, if some are.
fn is_named_spot(def: &TableDef, parts: &Option<Idents>, spot: Spot) -> bool
    ensures { result ≡ is_named_spot def.now parts.now spot }
{
    match parts {
        Some(names) => in_set(def, names.items(), spot),
        None => in_set(def, &[], spot),
    }
}

/// Whether WHERE is TRUE of these cells, or there is none.
fn passes(columns: &Columns, cond: &Option<Cond>, cells: &Cells) -> bool
    requires checked { IsCheckedCond columns.now cond.now }
    requires fitting { AreFitting columns.now cells.now }
    ensures { result ≡ passes columns.now cond.now cells.now }
{
    match cond {
        Some(cond) => is_true(truth(columns, cond, cells)),
        None => true,
    }
}

fn is_true(truth: Truth) -> bool
    ensures { result ≡ is_true truth }
{
    matches!(truth, Truth::True)
}
