ghost use Rattle.std.specs.Prelude.{◌≡◌, is_some};
ghost use Rattle.std.specs.Option.{option_copied};
ghost use Rattle.pt_db.specs.Lookup.{table_of};

use pt_ast::{Db, Table};
use pt_db::find_table;
use pt_value::Ident;

/// The table of this name.
pub(crate) fn table_of<'a>(db: &'a Db, name: &Ident) -> Option<&'a Table>
    ensures { option_copied result ≡ table_of db.now name.now }
{
    find_table(db.tables.items(), name)
}

/// Whether there is a table of this name.
pub(crate) fn is_there(db: &Db, name: &Ident) -> bool
    ensures { result ≡ is_some (table_of db.now name.now) }
{
    table_of(db, name).is_some()
}
