ghost use Rattle.std.specs.Prelude.{◌≡◌, ◌≤◌, IfOk, length};
ghost use Rattle.pt_written.specs.Reading.{key_numbers};
ghost use Rattle.pt_written.specs.WrittenParts.{by_hash, by_of, sub_of};

use crate::renamed::renamed;
use crate::written_keys::{columns_for_rows, places_of};
use pt_ast::{ColumnNos, Columns, HashSpec, KeyDefs, MainSpec, PartBy, SubSpec};
use pt_value::Ident;
use std::alloc::{AllocError, Global};

/// What a table is partitioned by. KEY without columns takes those of a key of the table.
pub fn by_of(
    alloc: Global,
    columns: &Columns,
    keys: &KeyDefs,
    main: &MainSpec,
) -> Result<PartBy, AllocError>
    requires { length columns.now ≤ 1_000_000 }
    ensures { IfOk result (λ by. by ≡ by_of columns.now keys.now main.now) }
{
    match main {
        MainSpec::Range(expr) => Ok(PartBy::Range(renamed(alloc, columns, expr)?)),
        MainSpec::List(expr) => Ok(PartBy::List(renamed(alloc, columns, expr)?)),
        MainSpec::RangeColumns(names) => Ok(PartBy::RangeColumns(places_of(
            alloc,
            columns,
            names.items(),
        )?)),
        MainSpec::ListColumns(names) => Ok(PartBy::ListColumns(places_of(
            alloc,
            columns,
            names.items(),
        )?)),
        MainSpec::Hash(hash) => by_hash(
            alloc,
            columns,
            columns_for_rows(columns, keys.items()),
            hash,
        ),
    }
}

/// What its partitions are partitioned by. KEY takes none but the columns that it names.
pub fn sub_of(alloc: Global, columns: &Columns, sub: &Option<SubSpec>) -> Result<PartBy, AllocError>
    requires { length columns.now ≤ 1_000_000 }
    ensures { IfOk result (λ by. by ≡ sub_of columns.now sub.now) }
{
    match sub {
        Some(sub) => by_hash(alloc, columns, &[], &sub.hash),
        None => Ok(PartBy::Whole),
    }
}

/// KEY without columns takes these.
fn by_hash(
    alloc: Global,
    columns: &Columns,
    instead: &[u32],
    hash: &HashSpec,
) -> Result<PartBy, AllocError>
    requires { length columns.now ≤ 1_000_000 }
    ensures { IfOk result (λ by. by ≡ by_hash columns.now instead.now hash.now) }
{
    match hash {
        HashSpec::Hash(linear, expr) => {
            Ok(PartBy::Hash(*linear, renamed(alloc, columns, expr)?))
        }
        HashSpec::Key(linear, names) => Ok(PartBy::Key(
            *linear,
            key_numbers(alloc, columns, instead, names.items())?,
        )),
    }
}

fn key_numbers(
    alloc: Global,
    columns: &Columns,
    instead: &[u32],
    names: &[Ident],
) -> Result<ColumnNos, AllocError>
    requires { length columns.now ≤ 1_000_000 }
    ensures { IfOk result (λ numbers. numbers ≡ key_numbers columns.now instead.now names.now) }
{
    if names.is_empty() {
        return ColumnNos::from_slice(alloc, instead);
    }
    places_of(alloc, columns, names)
}
