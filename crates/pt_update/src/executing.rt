ghost use Rattle.std.specs.Prelude.{◌≡◌, true};
ghost use Rattle.pt_host.specs.Listed.{FileList};
ghost use Rattle.pt_ast.specs.StorableStmt.{IsStorableStmt};
ghost use Rattle.pt_store.specs.Stops.{IsCounted};
ghost use Rattle.pt_store.specs.Store.{IsStore};
ghost use Rattle.pt_flat.specs.Step.{step};
ghost use Rattle.pt_session.specs.Leaves.{Tells};
ghost use Rattle.pt_session.specs.Session.{HasMap, IsOpen, IsLeftAfter};
ghost use Rattle.pt_update.specs.Kind.{is_update};

use crate::deleting::delete;
use crate::updating::update;
use pt_ast::{Reply, Stmt};
use pt_host::Host;
use pt_session::Session;
use pt_store::Stop;

/// Executes UPDATE and DELETE. A refusal, and want of memory, leave the directory's database and the session as they were. After `Fault`
/// the session is as it was, where a file couldn't be read, or no longer live.
pub fn execute<H: Host>(session: &mut Session, host: &mut H, stmt: &Stmt) -> Result<Reply, Stop>
    requires open { IsOpen session.old }
    requires storable { IsStorableStmt stmt.now }
    requires of { is_update stmt.now ≡ true }
    requires stands { H.tells → HasMap session.old (H.world host.old) }
    ensures told { H.tells → (map : FileList) → IsStore session.old.store map (H.world host.old) → Tells (λ db. step db stmt.now) session.old session.new map (H.world host.old) (H.world host.new) result }
    ensures open { IsLeftAfter session.old session.new result }
    ensures counts { IsCounted (H.counts host.old) (H.counts host.new) result }
{
    match stmt {
        Stmt::Update(table, parts, assigns, tail) => {
            update(session, host, table, parts, assigns, tail)
        }
        Stmt::Delete(table, parts, tail) => delete(session, host, table, parts, tail),
        Stmt::Create(_, _, _)
        | Stmt::Like(_, _, _)
        | Stmt::Drop(_, _)
        | Stmt::AddParts(_, _)
        | Stmt::AddCount(_, _)
        | Stmt::DropParts(_, _)
        | Stmt::Truncate(_, _)
        | Stmt::Coalesce(_, _)
        | Stmt::Reorganize(_, _, _)
        | Stmt::Exchange(_, _, _)
        | Stmt::RemoveParts(_)
        | Stmt::PartitionBy(_, _)
        | Stmt::Insert(_, _)
        | Stmt::Replace(_)
        | Stmt::Select(_)
        | Stmt::Explain(_)
        | Stmt::Show(_) => unreachable!(),
    }
}
