ghost use Rattle.std.specs.Prelude.{◌≡◌, IfOk};
ghost use Rattle.pt_db.specs.Outcome.{reply_of};
ghost use Rattle.pt_db.specs.Sound.{IsSound};
ghost use Rattle.pt_flat.specs.Select.{select};

use crate::lookup::table_of;
use pt_ast::{Db, Query, Refusal, Reply};
use pt_checks::{bad_parts, bad_query, candidates, select_text};
use pt_db::refusal_reply;
use std::alloc::{AllocError, Global};

/// Answers SELECT.
pub(crate) fn select(alloc: Global, db: &Db, query: &Query) -> Result<Reply, AllocError>
    requires { IsSound db.now }
    ensures { IfOk result (λ reply. reply ≡ reply_of (select db.now query.now)) }
{
    let Some(table) = table_of(db, &query.table) else {
        return refusal_reply(alloc, Refusal::NoSuchTable(query.table));
    };
    if let Some(refusal) = bad_parts(&table.def, &query.table, &query.parts) {
        return refusal_reply(alloc, refusal);
    }
    if let Some(refusal) = bad_query(&table.def, query) {
        return refusal_reply(alloc, refusal);
    }
    let rows = table.rows.items();
    let rows = candidates(alloc, &table.def, &query.parts, &query.tail, rows)?;
    let text = select_text(alloc, &table.def.columns, &query.items, rows.items())?;
    Ok(Reply { code: 0, text })
}
