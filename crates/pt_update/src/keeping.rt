//! The end of a statement: its change is written, and it answers.
ghost use Rattle.std.specs.Prelude.{◌≡◌, ℕ, List, IsSomeAnd};
ghost use Rattle.pt_ast.specs.declared.database.Db.{Db};
ghost use Rattle.pt_host.specs.Listed.{FileList};
ghost use Rattle.pt_store.specs.Stops.{IsCounted};
ghost use Rattle.pt_store.specs.Store.{IsStore};
ghost use Rattle.pt_db.specs.Outcome.{Outcome};
ghost use Rattle.pt_db.specs.Texts.{answered};
ghost use Rattle.pt_holds.specs.RowChanges.{IsRowChange};
ghost use Rattle.pt_session.specs.Leaves.{Tells};
ghost use Rattle.pt_session.specs.Session.{HasMap, IsOpen, IsLeftAfter, StandsIn, def_of};
ghost use Rattle.pt_update.specs.Changes.{MeansRows};

use pt_ast::Reply;
use pt_holds::RowChange;
use pt_host::Host;
use pt_session::Session;
use pt_store::Stop;

/// Writes a change of rows, and gives this reply. Where no row goes nothing is written.
pub(crate) fn keep<H: Host>(
    session: &mut Session,
    host: &mut H,
    change: &RowChange,
    reply: Reply,
) -> Result<Reply, Stop>
    requires open { IsOpen session.old }
    requires change { IsSomeAnd (def_of session.old change.now.table) (λ def. IsRowChange def change.now) }
    requires stands { H.tells → HasMap session.old (H.world host.old) }
    ensures told { H.tells → (map : FileList) → IsStore session.old.store map (H.world host.old) → (meaning : Db → Outcome) (text : List ℕ) → reply ≡ answered text → ((db : Db) → StandsIn session.old map db → MeansRows change.now db text (meaning db)) → Tells meaning session.old session.new map (H.world host.old) (H.world host.new) result }
    ensures open { IsLeftAfter session.old session.new result }
    ensures counts { IsCounted (H.counts host.old) (H.counts host.new) result }
{
    if change.deletes.items().is_empty() {
        return Ok(reply);
    }
    match session.write_rows(host, change) {
        Ok(()) => Ok(reply),
        Err(stop) => Err(stop),
    }
}
