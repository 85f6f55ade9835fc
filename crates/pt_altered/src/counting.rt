ghost use Rattle.std.specs.Prelude.{◌≡◌, IfOk, OnOk, OnErr};
ghost use Rattle.pt_db.specs.Outcome.{db_behind, reply_of};
ghost use Rattle.pt_db.specs.Sound.{IsSound};
ghost use Rattle.pt_altered.specs.Actions.{add_count, coalesce};

use crate::keeping::keep;
use crate::lookup::table_of;
use crate::rows::all_rows;
use pt_actions::{coalesced, with_more};
use pt_ast::{Db, Refusal, Reply};
use pt_db::refusal_reply;
use pt_value::Ident;
use std::alloc::{AllocError, Global};

/// Takes ADD PARTITION PARTITIONS. Want of memory leaves the database as it was.
pub(crate) fn add_count(
    alloc: Global,
    db: &mut Db,
    name: &Ident,
    count: i128,
) -> Result<Reply, AllocError>
    requires sound { IsSound db.old }
    ensures reply { IfOk result (λ reply. reply ≡ reply_of (add_count db.old name.now count)) }
    ensures after { OnOk result (db.new ≡ db_behind db.old (add_count db.old name.now count)) }
    ensures err { OnErr result (db.new ≡ db.old) }
    ensures sound { IsSound db.new }
{
    let Some(table) = table_of(db, name) else {
        return refusal_reply(alloc, Refusal::NoSuchTable(*name));
    };
    match with_more(alloc, name, count.unsigned_abs(), &table.def)? {
        Ok(def) => {
            let rows = all_rows(alloc, table.rows.items())?;
            keep(alloc, db, name, def, rows)
        }
        Err(refusal) => refusal_reply(alloc, refusal),
    }
}

/// Takes COALESCE PARTITION. Want of memory leaves the database as it was.
pub(crate) fn coalesce(
    alloc: Global,
    db: &mut Db,
    name: &Ident,
    count: i128,
) -> Result<Reply, AllocError>
    requires sound { IsSound db.old }
    ensures reply { IfOk result (λ reply. reply ≡ reply_of (coalesce db.old name.now count)) }
    ensures after { OnOk result (db.new ≡ db_behind db.old (coalesce db.old name.now count)) }
    ensures err { OnErr result (db.new ≡ db.old) }
    ensures sound { IsSound db.new }
{
    let Some(table) = table_of(db, name) else {
        return refusal_reply(alloc, Refusal::NoSuchTable(*name));
    };
    match coalesced(alloc, name, count.unsigned_abs(), &table.def)? {
        Ok(def) => {
            let rows = all_rows(alloc, table.rows.items())?;
            keep(alloc, db, name, def, rows)
        }
        Err(refusal) => refusal_reply(alloc, refusal),
    }
}
