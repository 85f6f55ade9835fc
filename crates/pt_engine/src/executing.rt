ghost use Rattle.std.specs.Prelude.{◌≡◌, false, true};
ghost use Rattle.pt_host.specs.Listed.{FileList};
ghost use Rattle.pt_host.specs.World.{OnlyLooks};
ghost use Rattle.pt_ast.specs.declared.database.Db.{Db};
ghost use Rattle.pt_ast.specs.StorableStmt.{IsStorableStmt};
ghost use Rattle.pt_store.specs.Stops.{IsCounted};
ghost use Rattle.pt_store.specs.Store.{IsStore};
ghost use Rattle.pt_flat.specs.Step.{after, is_covered, step};
ghost use Rattle.pt_session.specs.Leaves.{Tells, TellsAlter};
ghost use Rattle.pt_session.specs.Session.{HasMap, IsOpen, IsLeftAfter, StandsIn};
ghost use Rattle.pt_engine.specs.Answers.{is_alteration};

use pt_ast::{Reply, Stmt};
use pt_host::Host;
use pt_session::Session;
use pt_store::Stop;

/// Executes a statement over a session. A refusal, and want of memory, leave the directory's database and the session as they
/// were. After `Fault` the session is as it was, where a file couldn't be read, or no longer live. A statement that leaves the
/// database as it is, and isn't ALTER TABLE, only looks.
pub fn execute<H: Host>(session: &mut Session, host: &mut H, stmt: &Stmt) -> Result<Reply, Stop>
    requires open { IsOpen session.old }
    requires storable { IsStorableStmt stmt.now }
    requires covered { is_covered stmt.now ≡ true }
    requires stands { H.tells → HasMap session.old (H.world host.old) }
    ensures told { H.tells → (map : FileList) → IsStore session.old.store map (H.world host.old) → TellsAlter (λ db. step db stmt.now) session.old session.new map (H.world host.old) (H.world host.new) result }
    ensures idle { is_alteration stmt.now ≡ false → H.tells → (map : FileList) (db : Db) → IsStore session.old.store map (H.world host.old) → StandsIn session.old map db → after db stmt.now ≡ db → OnlyLooks (H.world host.old) (H.world host.new) }
    ensures open { IsLeftAfter session.old session.new result }
    ensures counts { IsCounted (H.counts host.old) (H.counts host.new) result }
{
    execute_other(session, host, stmt)
}

/// Executes a statement that isn't ALTER TABLE.
fn execute_other<H: Host>(session: &mut Session, host: &mut H, stmt: &Stmt) -> Result<Reply, Stop>
    requires open { IsOpen session.old }
    requires storable { IsStorableStmt stmt.now }
    requires covered { is_covered stmt.now ≡ true }
    requires stands { H.tells → HasMap session.old (H.world host.old) }
    ensures told { H.tells → (map : FileList) → IsStore session.old.store map (H.world host.old) → Tells (λ db. step db stmt.now) session.old session.new map (H.world host.old) (H.world host.new) result }
    ensures open { IsLeftAfter session.old session.new result }
    ensures counts { IsCounted (H.counts host.old) (H.counts host.new) result }
{
    match stmt {
        Stmt::Create(_, _, _) | Stmt::Like(_, _, _) | Stmt::Drop(_, _) => {
            pt_alter::execute(session, host, stmt)
        }
        Stmt::Insert(_, _) | Stmt::Replace(_) => pt_dml::execute(session, host, stmt),
        Stmt::Update(_, _, _, _) | Stmt::Delete(_, _, _) => {
            pt_update::execute(session, host, stmt)
        }
        Stmt::Select(_) | Stmt::Show(_) => pt_select::execute(session, host, stmt),
        Stmt::AddParts(_, _)
        | Stmt::AddCount(_, _)
        | Stmt::DropParts(_, _)
        | Stmt::Truncate(_, _)
        | Stmt::Coalesce(_, _)
        | Stmt::Reorganize(_, _, _)
        | Stmt::Exchange(_, _, _)
        | Stmt::RemoveParts(_)
        | Stmt::PartitionBy(_, _)
        | Stmt::Explain(_) => unreachable!(),
    }
}
