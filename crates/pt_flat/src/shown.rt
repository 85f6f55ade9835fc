ghost use Rattle.std.specs.Prelude.{◌≡◌, IfOk};
ghost use Rattle.pt_db.specs.Outcome.{reply_of};
ghost use Rattle.pt_flat.specs.Show.{show};

use crate::lookup::table_of;
use pt_ast::{Db, Refusal, Reply};
use pt_db::refusal_reply;
use pt_show::show_create;
use pt_value::Ident;
use std::alloc::{AllocError, Global};

/// Answers SHOW CREATE TABLE.
pub(crate) fn show(alloc: Global, db: &Db, name: &Ident) -> Result<Reply, AllocError>
    ensures { IfOk result (λ reply. reply ≡ reply_of (show db.now name.now)) }
{
    match table_of(db, name) {
        Some(table) => Ok(Reply {
            code: 0,
            text: show_create(alloc, name, &table.def)?,
        }),
        None => refusal_reply(alloc, Refusal::NoSuchTable(*name)),
    }
}
