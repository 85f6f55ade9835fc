//! INSERT and REPLACE: their rows, and the change that they make.
ghost use Rattle.std.specs.Prelude.{◌≡◌, ◌+◌, ◌≤◌, ◌^◌, length, IfOk, IsSomeAnd};
ghost use Rattle.pt_ast.specs.declared.database.Db.{Db};
ghost use Rattle.pt_host.specs.Listed.{FileList, by_name};
ghost use Rattle.pt_store.specs.Step.{IsLook};
ghost use Rattle.pt_store.specs.Stops.{IfBad, IsCounted};
ghost use Rattle.pt_store.specs.Store.{IsStore};
ghost use Rattle.pt_db.specs.Texts.{answered};
ghost use Rattle.pt_flat.specs.Insert.{insert_rows as insert_rows_of};
ghost use Rattle.pt_holds.specs.Bad.{Bad};
ghost use Rattle.pt_session.specs.Leaves.{Tells};
ghost use Rattle.pt_session.specs.Session.{HasMap, IsOpen, IsLeftAfter, IsOver, StandsIn, def_of};
ghost use Rattle.pt_books.specs.Halts.{stop_of};
ghost use Rattle.pt_dml.specs.Inserts.{Inserts, IsInserted};
ghost use Rattle.pt_dml.specs.Work.{IsMade, change_of, reply_text};

use crate::checking::checked;
use crate::filling::fill;
use crate::work::Work;
use pt_ast::{NewRows, Refusal, Reply};
use pt_books::Halt;
use pt_db::{count_reply, counts_reply, refusal_reply};
use pt_flat::InsertMode;
use pt_holds::RowChange;
use pt_host::Host;
use pt_session::Session;
use pt_store::Stop;
use pt_value::Ident;
use std::alloc::{AllocError, Global};

/// Inserts rows, or refuses them all.
pub(crate) fn insert_rows<H: Host>(
    session: &mut Session,
    host: &mut H,
    mode: InsertMode,
    new: &NewRows,
) -> Result<Reply, Stop>
    requires open { IsOpen session.old }
    requires stands { H.tells → HasMap session.old (H.world host.old) }
    ensures told { H.tells → (map : FileList) → IsStore session.old.store map (H.world host.old) → Tells (λ db. insert_rows_of mode db new.now) session.old session.new map (H.world host.old) (H.world host.new) result }
    ensures open { IsLeftAfter session.old session.new result }
    ensures counts { IsCounted (H.counts host.old) (H.counts host.new) result }
{
    match inserted(session, host, mode, new) {
        Ok(work) => keep(session, host, mode, new, work),
        Err(Halt::Refused(refusal)) => Ok(refusal_reply(session.alloc(), refusal)?),
        Err(Halt::Stopped(stop)) => Err(stop),
    }
}

/// The rows that go and come. Nothing is changed.
fn inserted<H: Host>(
    session: &Session,
    host: &mut H,
    mode: InsertMode,
    new: &NewRows,
) -> Result<Work, Halt>
    requires open { IsOpen session.now }
    requires stands { H.tells → HasMap session.now (H.world host.old) }
    ensures looks { H.tells → (map : FileList) → IsStore session.now.store map (H.world host.old) → IsLook session.now.store map (H.world host.old) (H.world host.new) }
    ensures inserts { H.tells → (map : FileList) → IsStore session.now.store map (H.world host.old) → (db : Db) → StandsIn session.now map db → Inserts mode db new.now result }
    ensures work { IfOk result (λ work. IsSomeAnd (def_of session.now new.now.table) (λ def. IsMade session.now.next def work)) }
    ensures bad { IfBad (stop_of result) (λ name place. H.tells → (map : FileList) → IsStore session.now.store map (H.world host.old) → IsOver session.now (by_name map) → Bad (by_name map) name place) }
    ensures counts { IsCounted (H.counts host.old) (H.counts host.new) (stop_of result) }
{
    let Some(def) = session.table(&new.table) else {
        return Err(Halt::Refused(Refusal::NoSuchTable(new.table)));
    };
    let targets = checked(session.alloc(), def, new)?;
    let mut work = Work::new(session.alloc(), session.next_serial());
    let rows = new.rows.items();
    fill(session, host, mode, def, new, &targets, rows, &mut work)?;
    Ok(work)
}

/// Writes the changes, and answers how many rows came, went and were passed over. Where no row was added nothing is written.
fn keep<H: Host>(
    session: &mut Session,
    host: &mut H,
    mode: InsertMode,
    new: &NewRows,
    work: Work,
) -> Result<Reply, Stop>
    requires open { IsOpen session.old }
    requires work { IsSomeAnd (def_of session.old new.now.table) (λ def. IsMade session.old.next def work) }
    requires stands { H.tells → HasMap session.old (H.world host.old) }
    requires inserted { H.tells → (map : FileList) → IsStore session.old.store map (H.world host.old) → (db : Db) → StandsIn session.old map db → IsInserted mode db new.now work }
    ensures told { H.tells → (map : FileList) → IsStore session.old.store map (H.world host.old) → Tells (λ db. insert_rows_of mode db new.now) session.old session.new map (H.world host.old) (H.world host.new) result }
    ensures open { IsLeftAfter session.old session.new result }
    ensures counts { IsCounted (H.counts host.old) (H.counts host.new) result }
{
    let reply = reply_of(session.alloc(), mode, &work)?;
    if work.next == work.first {
        return Ok(reply);
    }
    let change = change_of(&new.table, work);
    match session.write_rows(host, &change) {
        Ok(()) => Ok(reply),
        Err(stop) => Err(stop),
    }
}

/// The answer: how many rows were added, with IGNORE also how many were passed over, and of REPLACE also how many went.
fn reply_of(alloc: Global, mode: InsertMode, work: &Work) -> Result<Reply, AllocError>
    requires counted { work.now.first + length work.now.puts ≤ work.now.next }
    requires most { work.now.next ≤ 2 ^ 62 }
    ensures { IfOk result (λ reply. reply ≡ answered (reply_text mode work.now)) }
{
    match mode {
        InsertMode::Refuse => count_reply(alloc, work.added()),
        InsertMode::Skip => counts_reply(alloc, work.added(), work.skipped),
        InsertMode::Replace => counts_reply(alloc, work.added(), work.deleted()),
    }
}

/// The change that it makes.
fn change_of(table: &Ident, work: Work) -> RowChange
    ensures { result ≡ change_of table.now work }
{
    RowChange {
        table: *table,
        deletes: work.deletes,
        puts: work.puts,
        next: work.next,
    }
}
