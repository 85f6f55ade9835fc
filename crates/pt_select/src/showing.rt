//! SHOW CREATE TABLE.
ghost use Rattle.pt_host.specs.Counts.{Counts};
ghost use Rattle.pt_host.specs.Listed.{FileList};
ghost use Rattle.pt_host.specs.World.{World};
ghost use Rattle.pt_store.specs.Stops.{IsCounted};
ghost use Rattle.pt_store.specs.Store.{IsStore};
ghost use Rattle.pt_flat.specs.Show.{show};
ghost use Rattle.pt_session.specs.Leaves.{Tells};
ghost use Rattle.pt_session.specs.Session.{IsOpen};

use pt_ast::{Refusal, Reply};
use pt_db::refusal_reply;
use pt_session::Session;
use pt_show::show_create;
use pt_store::Stop;
use pt_value::Ident;

/// Answers SHOW CREATE TABLE. It calls no host.
pub(crate) fn show(session: &Session, table: &Ident) -> Result<Reply, Stop>
    requires open { IsOpen session.now }
    ensures told { (map : FileList) (world : World) → IsStore session.now.store map world → Tells (λ db. show db table.now) session.now session.now map world world result }
    ensures counts { (counts : Counts) → IsCounted counts counts result }
{
    let alloc = session.alloc();
    let Some(def) = session.table(table) else {
        return Ok(refusal_reply(alloc, Refusal::NoSuchTable(*table))?);
    };
    let text = show_create(alloc, table, def)?;
    Ok(Reply { code: 0, text })
}
