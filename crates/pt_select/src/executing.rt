ghost use Rattle.std.specs.Prelude.{◌≡◌, true};
ghost use Rattle.pt_host.specs.Listed.{FileList};
ghost use Rattle.pt_ast.specs.StorableStmt.{IsStorableStmt};
ghost use Rattle.pt_store.specs.Step.{IsLook};
ghost use Rattle.pt_store.specs.Stops.{IsCounted};
ghost use Rattle.pt_store.specs.Store.{IsStore};
ghost use Rattle.pt_flat.specs.Step.{step};
ghost use Rattle.pt_session.specs.Leaves.{Tells};
ghost use Rattle.pt_session.specs.Session.{HasMap, IsOpen, IsLeftAfter};
ghost use Rattle.pt_select.specs.Kind.{is_select};

use crate::selecting::select;
use crate::showing::show;
use pt_ast::{Reply, Stmt};
use pt_host::Host;
use pt_session::Session;
use pt_store::Stop;

/// Executes SELECT and SHOW CREATE TABLE. Whatever is answered, the directory and the session are as they were: no file is touched. `Fault`
/// where a file couldn't be read.
pub fn execute<H: Host>(session: &mut Session, host: &mut H, stmt: &Stmt) -> Result<Reply, Stop>
    requires open { IsOpen session.old }
    requires storable { IsStorableStmt stmt.now }
    requires of { is_select stmt.now ≡ true }
    requires stands { H.tells → HasMap session.old (H.world host.old) }
    ensures told { H.tells → (map : FileList) → IsStore session.old.store map (H.world host.old) → Tells (λ db. step db stmt.now) session.old session.new map (H.world host.old) (H.world host.new) result }
    // Over every directory that the store stands for, also one that holds no database.
    ensures looks { H.tells → (map : FileList) → IsStore session.old.store map (H.world host.old) → IsLook session.old.store map (H.world host.old) (H.world host.new) }
    ensures open { IsLeftAfter session.old session.new result }
    ensures same { session.new ≡ session.old }
    ensures counts { IsCounted (H.counts host.old) (H.counts host.new) result }
{
    match stmt {
        Stmt::Select(query) => select(session, host, query),
        Stmt::Show(table) => show(session, table),
        Stmt::Create(_, _, _)
        | Stmt::Like(_, _, _)
        | Stmt::Drop(_, _)
        | Stmt::AddParts(_, _)
        | Stmt::AddCount(_, _)
        | Stmt::DropParts(_, _)
        | Stmt::Truncate(_, _)
        | Stmt::Coalesce(_, _)
        | Stmt::Reorganize(_, _, _)
        | Stmt::Exchange(_, _, _)
        | Stmt::RemoveParts(_)
        | Stmt::PartitionBy(_, _)
        | Stmt::Insert(_, _)
        | Stmt::Replace(_)
        | Stmt::Update(_, _, _, _)
        | Stmt::Delete(_, _, _)
        | Stmt::Explain(_) => unreachable!(),
    }
}
