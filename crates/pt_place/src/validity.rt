ghost use Rattle.std.specs.Prelude.{◌≡◌, IfNone};
ghost use Rattle.pt_place.specs.Valid.{ArePlaced, IsValid, bad_items, refusal_of};

use crate::columns::{bad_columns, bad_keys};
use crate::kinds::bad_kinds;
use crate::parts::bad_parts;
use pt_ast::{Refusal, TableDef};
use pt_value::Ident;

/// The first check that a table of this name and definition fails, in the order of CREATE TABLE, and `None` exactly where the
/// definition is valid. It takes no memory, and so compares names and list values pair by pair.
pub fn valid(table: &Ident, def: &TableDef) -> Option<Refusal>
    requires { ArePlaced def.now }
    ensures refusal { result ≡ refusal_of table.now def.now }
    ensures valid { IfNone result (IsValid def.now) }
{
    refusal_of(table, def)
}

/// Columns and keys, what they are partitioned by, and the partitions.
fn refusal_of(table: &Ident, def: &TableDef) -> Option<Refusal>
    requires { ArePlaced def.now }
    ensures { result ≡ refusal_of table.now def.now }
{
    if let Some(refusal) = bad_items(def) {
        return Some(refusal);
    }
    if let Some(refusal) = bad_kinds(table, def) {
        return Some(refusal);
    }
    bad_parts(table, def)
}

/// Columns, and then keys.
fn bad_items(def: &TableDef) -> Option<Refusal>
    requires { ArePlaced def.now }
    ensures { result ≡ bad_items def.now }
{
    if let Some(refusal) = bad_columns(def.keys.items(), def.columns.items()) {
        return Some(refusal);
    }
    bad_keys(&def.columns, def.keys.items())
}
