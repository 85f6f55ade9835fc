ghost use Rattle.std.specs.Prelude.{◌≡◌, true};
ghost use Rattle.pt_host.specs.Listed.{FileList};
ghost use Rattle.pt_ast.specs.StorableStmt.{IsStorableStmt};
ghost use Rattle.pt_store.specs.Stops.{IsCounted};
ghost use Rattle.pt_store.specs.Store.{IsStore};
ghost use Rattle.pt_flat.specs.Step.{step};
ghost use Rattle.pt_session.specs.Leaves.{Tells};
ghost use Rattle.pt_session.specs.Session.{HasMap, IsOpen, IsOpenAfter};
ghost use Rattle.pt_alter.specs.Kind.{is_alter};

use crate::definitions::{create, drop_table, like};
use pt_ast::{Reply, Stmt};
use pt_host::Host;
use pt_session::Session;
use pt_store::Stop;

/// Executes CREATE TABLE, CREATE TABLE LIKE and DROP TABLE. A refusal, and want of memory, leave the directory's database and the session
/// as they were. After `Fault` the session is no longer live.
pub fn execute<H: Host>(session: &mut Session, host: &mut H, stmt: &Stmt) -> Result<Reply, Stop>
    requires open { IsOpen session.old }
    requires storable { IsStorableStmt stmt.now }
    requires of { is_alter stmt.now ≡ true }
    requires stands { H.tells → HasMap session.old (H.world host.old) }
    ensures told { H.tells → (map : FileList) → IsStore session.old.store map (H.world host.old) → Tells (λ db. step db stmt.now) session.old session.new map (H.world host.old) (H.world host.new) result }
    ensures open { IsOpenAfter session.old session.new result }
    ensures counts { IsCounted (H.counts host.old) (H.counts host.new) result }
{
    match stmt {
        Stmt::Create(if_not, table, spec) => create(session, host, *if_not, table, spec),
        Stmt::Like(if_not, table, other) => like(session, host, *if_not, table, other),
        Stmt::Drop(if_there, table) => drop_table(session, host, *if_there, table),
        Stmt::AddParts(_, _)
        | Stmt::AddCount(_, _)
        | Stmt::DropParts(_, _)
        | Stmt::Truncate(_, _)
        | Stmt::Coalesce(_, _)
        | Stmt::Reorganize(_, _, _)
        | Stmt::Exchange(_, _, _)
        | Stmt::RemoveParts(_)
        | Stmt::PartitionBy(_, _)
        | Stmt::Insert(_, _)
        | Stmt::Replace(_)
        | Stmt::Update(_, _, _, _)
        | Stmt::Delete(_, _, _)
        | Stmt::Select(_)
        | Stmt::Explain(_)
        | Stmt::Show(_) => unreachable!(),
    }
}
