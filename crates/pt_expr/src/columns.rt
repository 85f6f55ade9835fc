ghost use Rattle.std.specs.Prelude.{◌≡◌, option_copied};
ghost use Rattle.pt_value.specs.Cell.{lent};
ghost use Rattle.pt_expr.specs.Columns.{AreFitting, cell_named, column_named, is_named};

use pt_ast::{Cells, Column, Columns};
use pt_value::{Cell, Ident};

/// The first column of this name, but for the case of ASCII letters.
pub(crate) fn column_named<'a>(columns: &'a Columns, name: &Ident) -> Option<&'a Column>
    ensures { option_copied result ≡ column_named name.now columns.now }
{
    for column in columns.items() {
        if is_named(column, name) {
            return Some(column);
        }
    }
    None
}

/// The cell of the first column of this name, NULL where there is none.
pub(crate) fn cell_named<'a>(columns: &Columns, name: &Ident, cells: &'a Cells) -> Cell<'a>
    requires { AreFitting columns.now cells.now }
    ensures { lent result ≡ cell_named name.now columns.now cells.now }
{
    for (at, column) in columns.items().iter().enumerate() {
        if is_named(column, name) {
            return cells.items()[at].cell();
        }
    }
    Cell::Null
}

fn is_named(column: &Column, name: &Ident) -> bool
    ensures { result ≡ is_named name.now column.now }
{
    column.name.same(name)
}
