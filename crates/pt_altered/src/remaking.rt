ghost use Rattle.std.specs.Prelude.{◌≡◌, IfOk, OnOk, OnErr};
ghost use Rattle.pt_db.specs.Outcome.{db_behind, reply_of};
ghost use Rattle.pt_db.specs.Sound.{IsSound};
ghost use Rattle.pt_ast.specs.StorableSpec.{IsStorablePartSpec};
ghost use Rattle.pt_altered.specs.Actions.{partition_by, remove_parts};

use crate::keeping::{keep, keep_placed};
use crate::lookup::table_of;
use crate::rows::all_rows;
use pt_actions::{repartitioned, unpartitioned};
use pt_ast::{Db, PartSpec, Refusal, Reply};
use pt_db::refusal_reply;
use pt_value::Ident;
use std::alloc::{AllocError, Global};

/// Takes REMOVE PARTITIONING. Want of memory leaves the database as it was.
pub(crate) fn remove_parts(alloc: Global, db: &mut Db, name: &Ident) -> Result<Reply, AllocError>
    requires sound { IsSound db.old }
    ensures reply { IfOk result (λ reply. reply ≡ reply_of (remove_parts db.old name.now)) }
    ensures after { OnOk result (db.new ≡ db_behind db.old (remove_parts db.old name.now)) }
    ensures err { OnErr result (db.new ≡ db.old) }
    ensures sound { IsSound db.new }
{
    let Some(table) = table_of(db, name) else {
        return refusal_reply(alloc, Refusal::NoSuchTable(*name));
    };
    match unpartitioned(alloc, name, &table.def)? {
        Ok(def) => {
            let rows = all_rows(alloc, table.rows.items())?;
            keep(alloc, db, name, def, rows)
        }
        Err(refusal) => refusal_reply(alloc, refusal),
    }
}

/// Takes PARTITION BY. Want of memory leaves the database as it was.
pub(crate) fn partition_by(
    alloc: Global,
    db: &mut Db,
    name: &Ident,
    spec: &PartSpec,
) -> Result<Reply, AllocError>
    requires sound { IsSound db.old }
    requires spec { IsStorablePartSpec spec.now }
    ensures reply { IfOk result (λ reply. reply ≡ reply_of (partition_by db.old name.now spec.now)) }
    ensures after { OnOk result (db.new ≡ db_behind db.old (partition_by db.old name.now spec.now)) }
    ensures err { OnErr result (db.new ≡ db.old) }
    ensures sound { IsSound db.new }
{
    let Some(table) = table_of(db, name) else {
        return refusal_reply(alloc, Refusal::NoSuchTable(*name));
    };
    match repartitioned(alloc, name, spec, &table.def)? {
        Ok(def) => {
            let asked = all_rows(alloc, table.rows.items())?;
            let rows = all_rows(alloc, table.rows.items())?;
            keep_placed(alloc, db, name, def, asked, rows)
        }
        Err(refusal) => refusal_reply(alloc, refusal),
    }
}
