ghost use Rattle.std.specs.Prelude.{◌≡◌, [], unwrap_or, IfOk, OnOk, OnErr};
ghost use Rattle.pt_db.specs.Outcome.{db_behind, reply_of};
ghost use Rattle.pt_db.specs.Sound.{IsSound};
ghost use Rattle.pt_altered.specs.Actions.{drop_parts, truncate, truncated_of};

use crate::keeping::keep;
use crate::lookup::table_of;
use crate::rows::rows_out;
use pt_actions::{bad_truncated, dropped};
use pt_ast::{Db, Idents, Refusal, Reply, TableDef};
use pt_db::refusal_reply;
use pt_value::Ident;
use std::alloc::{AllocError, Global};

/// Takes DROP PARTITION. Want of memory leaves the database as it was.
pub(crate) fn drop_parts(
    alloc: Global,
    db: &mut Db,
    name: &Ident,
    names: &Idents,
) -> Result<Reply, AllocError>
    requires { IsSound db.old }
    ensures reply { IfOk result (λ reply. reply ≡ reply_of (drop_parts db.old name.now names.now)) }
    ensures after { OnOk result (db.new ≡ db_behind db.old (drop_parts db.old name.now names.now)) }
    ensures err { OnErr result (db.new ≡ db.old) }
    ensures sound { IsSound db.new }
{
    let Some(table) = table_of(db, name) else {
        return refusal_reply(alloc, Refusal::NoSuchTable(*name));
    };
    match dropped(alloc, name, names.items(), &table.def)? {
        Ok(def) => {
            let rows = rows_out(alloc, names.items(), &table.def, table.rows.items())?;
            keep(alloc, db, name, def, rows)
        }
        Err(refusal) => refusal_reply(alloc, refusal),
    }
}

/// Takes TRUNCATE PARTITION, of all partitions where none are named. Want of memory leaves the database as it was.
pub(crate) fn truncate(
    alloc: Global,
    db: &mut Db,
    name: &Ident,
    parts: &Option<Idents>,
) -> Result<Reply, AllocError>
    requires { IsSound db.old }
    ensures reply { IfOk result (λ reply. reply ≡ reply_of (truncate db.old name.now parts.now)) }
    ensures after { OnOk result (db.new ≡ db_behind db.old (truncate db.old name.now parts.now)) }
    ensures err { OnErr result (db.new ≡ db.old) }
    ensures sound { IsSound db.new }
{
    let Some(table) = table_of(db, name) else {
        return refusal_reply(alloc, Refusal::NoSuchTable(*name));
    };
    match truncated(alloc, name, parts, &table.def)? {
        Ok(def) => {
            let rows = rows_out(alloc, named(parts), &table.def, table.rows.items())?;
            keep(alloc, db, name, def, rows)
        }
        Err(refusal) => refusal_reply(alloc, refusal),
    }
}

/// The definition itself, where nothing is refused of the names.
fn truncated(
    alloc: Global,
    name: &Ident,
    parts: &Option<Idents>,
    def: &TableDef,
) -> Result<Result<TableDef, Refusal>, AllocError>
    ensures { IfOk result (λ made. made ≡ truncated_of name.now parts.now def.now) }
{
    match bad_truncated(alloc, name, parts, def) {
        Ok(Some(refusal)) => Ok(Err(refusal)),
        Ok(None) => Ok(Ok(def.copy(alloc)?)),
        Err(error) => Err(error),
    }
}

/// The names, none for ALL.
fn named(parts: &Option<Idents>) -> &[Ident]
    ensures { result.now ≡ unwrap_or parts.now [] }
{
    match parts {
        Some(names) => names.items(),
        None => &[],
    }
}
