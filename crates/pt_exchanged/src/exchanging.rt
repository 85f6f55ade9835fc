ghost use Rattle.std.specs.Prelude.{◌≡◌, IfOk, OnOk, OnErr};
ghost use Rattle.pt_db.specs.Outcome.{db_behind, reply_of};
ghost use Rattle.pt_db.specs.Sound.{IsSound};
ghost use Rattle.pt_exchanged.specs.Exchanged.{exchange};

use crate::checking::spot_for;
use crate::lookup::table_of;
use crate::rows::{put_all, rows_elsewhere, spot_rows};
use pt_ast::{Db, Refusal, Reply};
use pt_db::{ok_reply, refusal_reply, replace_rows};
use pt_value::Ident;
use std::alloc::{AllocError, Global};

/// Takes EXCHANGE PARTITION: answers it and leaves the database that the model says. Want of memory leaves it as it was.
pub fn exchange(
    alloc: Global,
    db: &mut Db,
    name: &Ident,
    part: &Ident,
    other: &Ident,
) -> Result<Reply, AllocError>
    requires { IsSound db.old }
    ensures reply { IfOk result (λ reply. reply ≡ reply_of (exchange db.old name.now part.now other.now)) }
    ensures after { OnOk result (db.new ≡ db_behind db.old (exchange db.old name.now part.now other.now)) }
    ensures err { OnErr result (db.new ≡ db.old) }
{
    let Some(table) = table_of(db, name) else {
        return refusal_reply(alloc, Refusal::NoSuchTable(*name));
    };
    let Some(beside) = table_of(db, other) else {
        return refusal_reply(alloc, Refusal::NoSuchTable(*other));
    };
    match spot_for(name, part, other, table, beside) {
        Ok(spot) => {
            let mut rows = rows_elsewhere(alloc, &table.def, spot, table.rows.items())?;
            let goes = spot_rows(alloc, &table.def, spot, table.rows.items())?;
            put_all(alloc, beside.rows.items(), &mut rows)?;
            let reply = ok_reply(alloc)?;
            let next = db.next;
            replace_rows(alloc, db, name, rows, next);
            replace_rows(alloc, db, other, goes, next);
            Ok(reply)
        }
        Err(refusal) => refusal_reply(alloc, refusal),
    }
}
