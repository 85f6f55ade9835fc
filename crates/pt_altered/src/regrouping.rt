ghost use Rattle.std.specs.Prelude.{◌≡◌, IfOk, OnOk, OnErr};
ghost use Rattle.pt_db.specs.Outcome.{db_behind, reply_of};
ghost use Rattle.pt_db.specs.Sound.{IsSound};
ghost use Rattle.pt_ast.specs.StorableSpec.{AreStorableParts};
ghost use Rattle.pt_altered.specs.Actions.{add_parts, reorganize};

use crate::keeping::{keep, keep_placed};
use crate::lookup::table_of;
use crate::rows::{all_rows, rows_in};
use pt_ast::{Db, Idents, PartItems, Refusal, Reply};
use pt_complete::DefFault;
use pt_db::refusal_reply;
use pt_regrouped::{added, regrouped};
use pt_value::Ident;
use std::alloc::{AllocError, Global};

/// Takes ADD PARTITION with definitions. Want of memory leaves the database as it was.
pub(crate) fn add_parts(
    alloc: Global,
    db: &mut Db,
    name: &Ident,
    items: &PartItems,
) -> Result<Reply, AllocError>
    requires sound { IsSound db.old }
    requires items { AreStorableParts items.now }
    ensures reply { IfOk result (λ reply. reply ≡ reply_of (add_parts db.old name.now items.now)) }
    ensures after { OnOk result (db.new ≡ db_behind db.old (add_parts db.old name.now items.now)) }
    ensures err { OnErr result (db.new ≡ db.old) }
    ensures sound { IsSound db.new }
{
    let Some(table) = table_of(db, name) else {
        return refusal_reply(alloc, Refusal::NoSuchTable(*name));
    };
    match added(alloc, name, items, &table.def) {
        Ok(def) => {
            let rows = all_rows(alloc, table.rows.items())?;
            keep(alloc, db, name, def, rows)
        }
        Err(DefFault::Refused(refusal)) => refusal_reply(alloc, refusal),
        Err(DefFault::NoMemory) => Err(AllocError),
    }
}

/// Takes REORGANIZE PARTITION. Want of memory leaves the database as it was.
pub(crate) fn reorganize(
    alloc: Global,
    db: &mut Db,
    name: &Ident,
    names: &Idents,
    items: &PartItems,
) -> Result<Reply, AllocError>
    requires sound { IsSound db.old }
    requires items { AreStorableParts items.now }
    ensures reply { IfOk result (λ reply. reply ≡ reply_of (reorganize db.old name.now names.now items.now)) }
    ensures after { OnOk result (db.new ≡ db_behind db.old (reorganize db.old name.now names.now items.now)) }
    ensures err { OnErr result (db.new ≡ db.old) }
    ensures sound { IsSound db.new }
{
    let Some(table) = table_of(db, name) else {
        return refusal_reply(alloc, Refusal::NoSuchTable(*name));
    };
    match regrouped(alloc, name, names, items, &table.def) {
        Ok(def) => {
            let asked = rows_in(alloc, names.items(), &table.def, table.rows.items())?;
            let rows = all_rows(alloc, table.rows.items())?;
            keep_placed(alloc, db, name, def, asked, rows)
        }
        Err(DefFault::Refused(refusal)) => refusal_reply(alloc, refusal),
        Err(DefFault::NoMemory) => Err(AllocError),
    }
}
