ghost use Rattle.pt_ast.specs.declared.database.Db.{Db};
ghost use Rattle.pt_db.specs.Outcome.{Outcome};
ghost use Rattle.pt_holds.specs.ShapeChanges.{IsAlter};
ghost use Rattle.pt_host.specs.Listed.{FileList};
ghost use Rattle.pt_session.specs.Leaves.{TellsAlter};
ghost use Rattle.pt_session.specs.Session.{HasMap, IsOpen, IsOpenAfter, StandsIn, def_of};
ghost use Rattle.pt_store.specs.Stops.{IsCounted};
ghost use Rattle.pt_store.specs.Store.{IsStore};
ghost use Rattle.pt_alter_parts.specs.Redefined.{Redefines};

use pt_ast::{Reply, Rows, Spot, TableDef};
use pt_db::ok_reply;
use pt_host::Host;
use pt_plain::List;
use pt_session::Session;
use pt_store::Stop;
use pt_value::Ident;

/// Gives a table another definition and these rows, and answers `ok`. Want of memory leaves the directory's database and the session as they
/// were. After `Fault` the session is no longer live.
pub fn redefine<H: Host>(
    session: &mut Session,
    host: &mut H,
    name: &Ident,
    def: &TableDef,
    fresh: &List<(Spot, Rows)>,
) -> Result<Reply, Stop>
    requires open { IsOpen session.old }
    requires change { IsAlter (def_of session.old) name.now def.now fresh.now }
    requires stands { H.tells → HasMap session.old (H.world host.old) }
    // Of each statement that means this.
    ensures told { H.tells → (map : FileList) → IsStore session.old.store map (H.world host.old) → (meaning : Db → Outcome) → ((db : Db) → StandsIn session.old map db → Redefines name.now def.now fresh.now db (meaning db)) → TellsAlter meaning session.old session.new map (H.world host.old) (H.world host.new) result }
    ensures open { IsOpenAfter session.old session.new result }
    ensures counts { IsCounted (H.counts host.old) (H.counts host.new) result }
{
    // All memory that isn't the session's is taken before the change.
    let reply = ok_reply(session.alloc())?;
    session.alter_table(host, name, def, fresh)?;
    Ok(reply)
}
