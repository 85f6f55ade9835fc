//! DELETE.
ghost use Rattle.std.specs.Prelude.{◌≡◌, ℕ, All, map, IfNone, IfOk, IsSomeAnd};
ghost use Rattle.std.specs.Option.{option_or};
ghost use Rattle.pt_ast.specs.declared.database.Db.{Db};
ghost use Rattle.pt_host.specs.Listed.{FileList, by_name};
ghost use Rattle.pt_place.specs.Valid.{IsValid};
ghost use Rattle.pt_checks.specs.Named.{bad_parts};
ghost use Rattle.pt_checks.specs.Queries.{IsCheckedCond, bad_tail};
ghost use Rattle.pt_store.specs.Step.{IsLook};
ghost use Rattle.pt_store.specs.Stops.{IfBad, IsCounted};
ghost use Rattle.pt_store.specs.Store.{IsStore};
ghost use Rattle.pt_db.specs.Sound.{IsSoundRow};
ghost use Rattle.pt_flat.specs.Delete.{delete};
ghost use Rattle.pt_holds.specs.Bad.{Bad};
ghost use Rattle.pt_holds.specs.RowChanges.{IsRowChange};
ghost use Rattle.pt_session.specs.Leaves.{Tells};
ghost use Rattle.pt_session.specs.Session.{HasMap, IsOpen, IsLeftAfter, IsOver, StandsIn, def_of};
ghost use Rattle.pt_books.specs.Halts.{stop_of};
ghost use Rattle.pt_update.specs.Changes.{delete_of};
ghost use Rattle.pt_update.specs.Deletes.{Deletes};

use crate::checking::spot_of;
use crate::keeping::keep;
use pt_ast::{Idents, Refusal, Reply, Row, Spot, TableDef, Tail};
use pt_books::Halt;
use pt_candidates::candidates;
use pt_checks::{bad_parts, bad_tail};
use pt_db::{count_reply, refusal_reply};
use pt_holds::RowChange;
use pt_host::Host;
use pt_plain::List;
use pt_session::Session;
use pt_store::Stop;
use pt_value::Ident;
use std::alloc::{AllocError, Global};

/// Deletes the rows that are taken, or refuses to.
pub(crate) fn delete<H: Host>(
    session: &mut Session,
    host: &mut H,
    table: &Ident,
    parts: &Option<Idents>,
    tail: &Tail,
) -> Result<Reply, Stop>
    requires open { IsOpen session.old }
    requires stands { H.tells → HasMap session.old (H.world host.old) }
    ensures told { H.tells → (map : FileList) → IsStore session.old.store map (H.world host.old) → Tells (λ db. delete db table.now parts.now tail.now) session.old session.new map (H.world host.old) (H.world host.new) result }
    ensures open { IsLeftAfter session.old session.new result }
    ensures counts { IsCounted (H.counts host.old) (H.counts host.new) result }
{
    match deleted(session, host, table, parts, tail) {
        Ok(change) => {
            let count = change.deletes.items().len() as u64;
            let reply = count_reply(session.alloc(), count)?;
            keep(session, host, &change, reply)
        }
        Err(Halt::Refused(refusal)) => Ok(refusal_reply(session.alloc(), refusal)?),
        Err(Halt::Stopped(stop)) => Err(stop),
    }
}

/// The change that deletes the rows. Nothing is changed.
fn deleted<H: Host>(
    session: &Session,
    host: &mut H,
    table: &Ident,
    parts: &Option<Idents>,
    tail: &Tail,
) -> Result<RowChange, Halt>
    requires open { IsOpen session.now }
    requires stands { H.tells → HasMap session.now (H.world host.old) }
    ensures looks { H.tells → (map : FileList) → IsStore session.now.store map (H.world host.old) → IsLook session.now.store map (H.world host.old) (H.world host.new) }
    ensures deletes { H.tells → (map : FileList) → IsStore session.now.store map (H.world host.old) → (db : Db) → StandsIn session.now map db → Deletes db table.now parts.now tail.now result }
    ensures change { IfOk result (λ change. IsSomeAnd (def_of session.now change.table) (λ def. IsRowChange def change)) }
    ensures bad { IfBad (stop_of result) (λ name place. H.tells → (map : FileList) → IsStore session.now.store map (H.world host.old) → IsOver session.now (by_name map) → Bad (by_name map) name place) }
    ensures counts { IsCounted (H.counts host.old) (H.counts host.new) (stop_of result) }
{
    let Some(def) = session.table(table) else {
        return Err(Halt::Refused(Refusal::NoSuchTable(*table)));
    };
    if let Some(refusal) = refusal_of(def, table, parts, tail) {
        return Err(Halt::Refused(refusal));
    }
    let taken = candidates(session, host, table, def, parts, tail)?;
    let deletes = deletes_of(session.alloc(), def, taken.items())?;
    Ok(RowChange {
        table: *table,
        deletes,
        puts: List::new(session.alloc()),
        next: session.next_serial(),
    })
}

/// What is refused of a DELETE by looking at it and at the definition of its table alone. What isn't refused is well typed.
fn refusal_of(def: &TableDef, table: &Ident, parts: &Option<Idents>, tail: &Tail) -> Option<Refusal>
    ensures refusal { result ≡ option_or (bad_parts def.now table.now parts.now) (bad_tail def.now table.now tail.now) }
    ensures checked { IfNone result (IsCheckedCond def.now.columns tail.now.cond) }
{
    if let Some(refusal) = bad_parts(def, table, parts) {
        return Some(refusal);
    }
    bad_tail(def, table, tail)
}

/// The spots and serials of these rows.
fn deletes_of(alloc: Global, def: &TableDef, rows: &[Row]) -> Result<List<(Spot, u64)>, AllocError>
    requires valid { IsValid def.now }
    requires sound { (next : ℕ) × All (IsSoundRow next def.now) rows.now }
    ensures { IfOk result (λ deletes. deletes ≡ map (delete_of def.now) rows.now) }
{
    let mut deletes = List::new(alloc);
    for row in rows {
        deletes.push((spot_of(def, row), row.serial))?;
    }
    Ok(deletes)
}
