ghost use Rattle.std.specs.Prelude.{◌≡◌};
ghost use Rattle.pt_written.specs.Complete.{bad_hash, bad_main, bad_sub};
ghost use Rattle.pt_written.specs.Reading.{bad_written_kinds};

use crate::written_keys::bad_list;
use pt_ast::{Columns, HashSpec, MainSpec, PartSpec, Refusal, SubSpec, TableDef};
use pt_place::{bad_expr, key_of_none, lacking_key, sub_of_number};
use pt_value::Ident;

/// What a table is partitioned by, and then subpartitioned, as written beside as it is made. It takes no
/// memory.
pub fn bad_written_kinds(table: &Ident, def: &TableDef, spec: &PartSpec) -> Option<Refusal>
    ensures { result ≡ bad_written_kinds table.now def.now spec.now }
{
    if let Some(refusal) = sub_of_number(table, &def.by, &def.sub) {
        return Some(refusal);
    }
    if let Some(refusal) = key_of_none(&def.by) {
        return Some(refusal);
    }
    if let Some(refusal) = key_of_none(&def.sub) {
        return Some(refusal);
    }
    if let Some(refusal) = bad_main(table, &def.columns, &spec.main) {
        return Some(refusal);
    }
    if let Some(refusal) = bad_sub(table, &def.columns, &spec.sub) {
        return Some(refusal);
    }
    lacking_key(def)
}

/// What a table is partitioned by, as written.
fn bad_main(table: &Ident, columns: &Columns, main: &MainSpec) -> Option<Refusal>
    ensures { result ≡ bad_main table.now columns.now main.now }
{
    match main {
        MainSpec::Range(expr) => bad_expr(table, columns, expr),
        MainSpec::List(expr) => bad_expr(table, columns, expr),
        MainSpec::RangeColumns(names) => bad_list(columns, names.items()),
        MainSpec::ListColumns(names) => bad_list(columns, names.items()),
        MainSpec::Hash(hash) => bad_hash(table, columns, hash),
    }
}

/// What its partitions are partitioned by, as written.
fn bad_sub(table: &Ident, columns: &Columns, sub: &Option<SubSpec>) -> Option<Refusal>
    ensures { result ≡ bad_sub table.now columns.now sub.now }
{
    match sub {
        Some(sub) => bad_hash(table, columns, &sub.hash),
        None => None,
    }
}

fn bad_hash(table: &Ident, columns: &Columns, hash: &HashSpec) -> Option<Refusal>
    ensures { result ≡ bad_hash table.now columns.now hash.now }
{
    match hash {
        HashSpec::Hash(_, expr) => bad_expr(table, columns, expr),
        HashSpec::Key(_, names) => bad_list(columns, names.items()),
    }
}
