ghost use Rattle.std.specs.Prelude.{◌≡◌, [], Ok, IfOk};
ghost use Rattle.pt_actions.specs.Named.{with_parts};

use pt_ast::{Columns, KeyDefs, Parts, TableDef};
use std::alloc::{AllocError, Global};

/// The definition with these partitions.
pub(crate) fn with_parts(def: TableDef, parts: Parts) -> TableDef
    ensures { result ≡ with_parts def parts }
{
    TableDef {
        columns: def.columns,
        keys: def.keys,
        by: def.by,
        sub: def.sub,
        parts,
    }
}

/// The definition without its partitions, and these.
pub(crate) fn apart(alloc: Global, def: TableDef) -> (TableDef, Parts)
    ensures rest { result.0 ≡ with_parts def [] }
    ensures parts { result.1 ≡ def.parts }
{
    let rest = TableDef {
        columns: def.columns,
        keys: def.keys,
        by: def.by,
        sub: def.sub,
        parts: Parts::new(alloc),
    };
    (rest, def.parts)
}

/// The columns and keys of a definition.
pub(crate) fn columns_and_keys(def: TableDef) -> (Columns, KeyDefs)
    ensures columns { result.0 ≡ def.columns }
    ensures keys { result.1 ≡ def.keys }
{
    (def.columns, def.keys)
}

/// A value beside the answer of a call that may fail.
pub(crate) fn paired<T: Drop, U: Drop>(
    value: T,
    answer: Result<U, AllocError>,
) -> Result<(T, U), AllocError>
    ensures { IfOk result (λ both. (both.0 ≡ value) × (answer ≡ Ok both.1)) }
{
    match answer {
        Ok(other) => Ok((value, other)),
        Err(error) => Err(error),
    }
}
