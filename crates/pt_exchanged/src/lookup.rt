ghost use Rattle.std.specs.Prelude.{◌≡◌, All, IfSome};
ghost use Rattle.std.specs.Option.{option_copied};
ghost use Rattle.pt_ast.specs.declared.database.Row.{Row};
ghost use Rattle.pt_expr.specs.Columns.{AreFitting};
ghost use Rattle.pt_place.specs.Valid.{IsValid};
ghost use Rattle.pt_db.specs.Lookup.{table_of};
ghost use Rattle.pt_db.specs.Sound.{IsSound};

use pt_ast::{Db, Table};
use pt_db::find_table;
use pt_value::Ident;

/// The table of this name.
pub(crate) fn table_of<'a>(db: &'a Db, name: &Ident) -> Option<&'a Table>
    requires { IsSound db.now }
    ensures found { option_copied result ≡ table_of db.now name.now }
    ensures valid { IfSome (option_copied result) (λ table. IsValid table.def) }
    ensures fitting { IfSome (option_copied result) (λ table. All (λ (row : Row). AreFitting table.def.columns row.cells) table.rows) }
{
    find_table(db.tables.items(), name)
}
