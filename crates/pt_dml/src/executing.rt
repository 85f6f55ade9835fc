ghost use Rattle.std.specs.Prelude.{◌≡◌, true};
ghost use Rattle.pt_host.specs.Listed.{FileList};
ghost use Rattle.pt_ast.specs.StorableStmt.{IsStorableStmt};
ghost use Rattle.pt_store.specs.Stops.{IsCounted};
ghost use Rattle.pt_store.specs.Store.{IsStore};
ghost use Rattle.pt_flat.specs.Insert.{insert_mode as mode_of};
ghost use Rattle.pt_flat.specs.Step.{step};
ghost use Rattle.pt_session.specs.Leaves.{Tells};
ghost use Rattle.pt_session.specs.Session.{HasMap, IsOpen, IsLeftAfter};
ghost use Rattle.pt_dml.specs.Kind.{is_dml};

use crate::inserting::insert_rows;
use pt_ast::{Reply, Stmt};
use pt_flat::InsertMode;
use pt_host::Host;
use pt_session::Session;
use pt_store::Stop;

/// Executes INSERT, with or without IGNORE, and REPLACE. A refusal, and want of memory, leave the directory's database and the session as
/// they were. After `Fault` the session is as it was, where a file couldn't be read, or no longer live.
pub fn execute<H: Host>(session: &mut Session, host: &mut H, stmt: &Stmt) -> Result<Reply, Stop>
    requires open { IsOpen session.old }
    requires storable { IsStorableStmt stmt.now }
    requires of { is_dml stmt.now ≡ true }
    requires stands { H.tells → HasMap session.old (H.world host.old) }
    ensures told { H.tells → (map : FileList) → IsStore session.old.store map (H.world host.old) → Tells (λ db. step db stmt.now) session.old session.new map (H.world host.old) (H.world host.new) result }
    ensures open { IsLeftAfter session.old session.new result }
    ensures counts { IsCounted (H.counts host.old) (H.counts host.new) result }
{
    match stmt {
        Stmt::Insert(ignore, new) => insert_rows(session, host, insert_mode(*ignore), new),
        Stmt::Replace(new) => insert_rows(session, host, InsertMode::Replace, new),
        _ => unreachable!(),
    }
}

/// IGNORE skips the rows that would be refused.
fn insert_mode(ignore: bool) -> InsertMode
    ensures { result ≡ mode_of ignore }
{
    if ignore {
        InsertMode::Skip
    } else {
        InsertMode::Refuse
    }
}
