ghost use Rattle.std.specs.Prelude.{◌≡◌, IfOk, OnOk, OnErr};
ghost use Rattle.std.specs.List.{list_any};
ghost use Rattle.pt_db.specs.Outcome.{db_behind, reply_of};
ghost use Rattle.pt_db.specs.Rows.{is_numbered};
ghost use Rattle.pt_db.specs.Sound.{IsSound};
ghost use Rattle.pt_flat.specs.Delete.{delete, without_rows};

use crate::lookup::table_of;
use pt_ast::{Db, Idents, Refusal, Reply, Row, Rows, Tail};
use pt_checks::{bad_parts, bad_tail, candidates};
use pt_db::{count_reply, refusal_reply, replace_rows};
use pt_value::Ident;
use std::alloc::{AllocError, Global};

/// Takes DELETE. Want of memory leaves the database as it was.
pub(crate) fn delete(
    alloc: Global,
    db: &mut Db,
    name: &Ident,
    parts: &Option<Idents>,
    tail: &Tail,
) -> Result<Reply, AllocError>
    requires { IsSound db.old }
    ensures reply { IfOk result (λ reply. reply ≡ reply_of (delete db.old name.now parts.now tail.now)) }
    ensures after { OnOk result (db.new ≡ db_behind db.old (delete db.old name.now parts.now tail.now)) }
    ensures err { OnErr result (db.new ≡ db.old) }
    ensures sound { IsSound db.new }
{
    let Some(table) = table_of(db, name) else {
        return refusal_reply(alloc, Refusal::NoSuchTable(*name));
    };
    if let Some(refusal) = bad_parts(&table.def, name, parts) {
        return refusal_reply(alloc, refusal);
    }
    if let Some(refusal) = bad_tail(&table.def, name, tail) {
        return refusal_reply(alloc, refusal);
    }
    let rows = table.rows.items();
    let taken = candidates(alloc, &table.def, parts, tail, rows)?;
    let rows = without_rows(alloc, taken.items(), rows)?;
    let reply = count_reply(alloc, taken.items().len() as u64)?;
    let next = db.next;
    replace_rows(alloc, db, name, rows, next);
    Ok(reply)
}

/// The rows but those of the serials of these.
fn without_rows(alloc: Global, taken: &[Row], rows: &[Row]) -> Result<Rows, AllocError>
    ensures { IfOk result (λ kept. kept ≡ without_rows taken.now rows.now) }
{
    let mut kept = Rows::new(alloc);
    for row in rows {
        if !is_among(row.serial, taken) {
            kept.push(row.copy(alloc)?)?;
        }
    }
    Ok(kept)
}

/// Whether one of these rows has this serial.
fn is_among(serial: u64, rows: &[Row]) -> bool
    ensures { result ≡ list_any (is_numbered serial) rows.now }
{
    for row in rows {
        if row.serial == serial {
            return true;
        }
    }
    false
}
