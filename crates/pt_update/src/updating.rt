//! UPDATE: its rows, and the change that they make.
ghost use Rattle.std.specs.Prelude.{◌≡◌, IfNone, IfOk, IsSomeAnd};
ghost use Rattle.std.specs.Option.{option_or};
ghost use Rattle.pt_ast.specs.declared.database.Db.{Db};
ghost use Rattle.pt_host.specs.Listed.{FileList, by_name};
ghost use Rattle.pt_checks.specs.Assigned.{AreAssignable, bad_update};
ghost use Rattle.pt_checks.specs.Named.{bad_parts};
ghost use Rattle.pt_checks.specs.Queries.{IsCheckedCond};
ghost use Rattle.pt_store.specs.Step.{IsLook};
ghost use Rattle.pt_store.specs.Stops.{IfBad, IsCounted};
ghost use Rattle.pt_store.specs.Store.{IsStore};
ghost use Rattle.pt_flat.specs.Update.{update};
ghost use Rattle.pt_holds.specs.Bad.{Bad};
ghost use Rattle.pt_holds.specs.RowChanges.{IsRowChange};
ghost use Rattle.pt_session.specs.Leaves.{Tells};
ghost use Rattle.pt_session.specs.Session.{HasMap, IsOpen, IsLeftAfter, IsOver, StandsIn, def_of};
ghost use Rattle.pt_books.specs.Halts.{stop_of};
ghost use Rattle.pt_update.specs.Updates.{Updates};
ghost use Rattle.pt_update.specs.Work.{change_of};

use crate::keeping::keep;
use crate::moving::move_rows;
use crate::work::Work;
use pt_ast::{Assigns, Idents, Refusal, Reply, TableDef, Tail};
use pt_books::Halt;
use pt_candidates::candidates;
use pt_checks::{bad_parts, bad_update};
use pt_db::{counts_reply, refusal_reply};
use pt_holds::RowChange;
use pt_host::Host;
use pt_session::Session;
use pt_store::Stop;
use pt_value::Ident;

/// What an UPDATE has come to: the change that it makes, and how many rows it took.
#[derive(Drop)]
pub struct Moved {
    pub change: RowChange,
    pub matched: u64,
}

/// Updates the rows that are taken, or refuses them all.
pub(crate) fn update<H: Host>(
    session: &mut Session,
    host: &mut H,
    table: &Ident,
    parts: &Option<Idents>,
    assigns: &Assigns,
    tail: &Tail,
) -> Result<Reply, Stop>
    requires open { IsOpen session.old }
    requires stands { H.tells → HasMap session.old (H.world host.old) }
    ensures told { H.tells → (map : FileList) → IsStore session.old.store map (H.world host.old) → Tells (λ db. update db table.now parts.now assigns.now tail.now) session.old session.new map (H.world host.old) (H.world host.new) result }
    ensures open { IsLeftAfter session.old session.new result }
    ensures counts { IsCounted (H.counts host.old) (H.counts host.new) result }
{
    match updated(session, host, table, parts, assigns, tail) {
        Ok(done) => {
            let changed = done.change.puts.items().len() as u64;
            let reply = counts_reply(session.alloc(), done.matched, changed)?;
            keep(session, host, &done.change, reply)
        }
        Err(Halt::Refused(refusal)) => Ok(refusal_reply(session.alloc(), refusal)?),
        Err(Halt::Stopped(stop)) => Err(stop),
    }
}

/// The change that updates the rows. Nothing is changed.
fn updated<H: Host>(
    session: &Session,
    host: &mut H,
    table: &Ident,
    parts: &Option<Idents>,
    assigns: &Assigns,
    tail: &Tail,
) -> Result<Moved, Halt>
    requires open { IsOpen session.now }
    requires stands { H.tells → HasMap session.now (H.world host.old) }
    ensures looks { H.tells → (map : FileList) → IsStore session.now.store map (H.world host.old) → IsLook session.now.store map (H.world host.old) (H.world host.new) }
    ensures updates { H.tells → (map : FileList) → IsStore session.now.store map (H.world host.old) → (db : Db) → StandsIn session.now map db → Updates db table.now parts.now assigns.now tail.now result }
    ensures change { IfOk result (λ done. IsSomeAnd (def_of session.now done.change.table) (λ def. IsRowChange def done.change)) }
    ensures bad { IfBad (stop_of result) (λ name place. H.tells → (map : FileList) → IsStore session.now.store map (H.world host.old) → IsOver session.now (by_name map) → Bad (by_name map) name place) }
    ensures counts { IsCounted (H.counts host.old) (H.counts host.new) (stop_of result) }
{
    let Some(def) = session.table(table) else {
        return Err(Halt::Refused(Refusal::NoSuchTable(*table)));
    };
    if let Some(refusal) = refusal_of(def, table, parts, assigns, tail) {
        return Err(Halt::Refused(refusal));
    }
    let taken = candidates(session, host, table, def, parts, tail)?;
    let mut work = Work::new(session.alloc());
    let rows = taken.items();
    move_rows(session, host, table, def, parts, assigns, rows, &mut work)?;
    Ok(Moved {
        change: change_of(session, table, work),
        matched: rows.len() as u64,
    })
}

/// What is refused of an UPDATE by looking at it and at the definition of its table alone. What isn't refused is well typed.
fn refusal_of(
    def: &TableDef,
    table: &Ident,
    parts: &Option<Idents>,
    assigns: &Assigns,
    tail: &Tail,
) -> Option<Refusal>
    ensures refusal { result ≡ option_or (bad_parts def.now table.now parts.now) (bad_update def.now table.now assigns.now tail.now) }
    ensures assignable { IfNone result (AreAssignable def.now.columns assigns.now) }
    ensures checked { IfNone result (IsCheckedCond def.now.columns tail.now.cond) }
{
    if let Some(refusal) = bad_parts(def, table, parts) {
        return Some(refusal);
    }
    bad_update(def, table, assigns, tail)
}

/// The change of these rows.
fn change_of(session: &Session, table: &Ident, work: Work) -> RowChange
    ensures { result ≡ change_of table.now session.now.next work }
{
    RowChange {
        table: *table,
        deletes: work.deletes,
        puts: work.puts,
        next: session.next_serial(),
    }
}
