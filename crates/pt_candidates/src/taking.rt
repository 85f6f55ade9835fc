//! Which rows a statement takes.
ghost use Rattle.std.specs.Prelude.{◌≡◌, ℕ, All, List, IfOk, Some};
ghost use Rattle.pt_host.specs.Listed.{FileList, by_name};
ghost use Rattle.pt_ast.specs.declared.database.Row.{Row};
ghost use Rattle.pt_checks.specs.Queries.{IsCheckedCond};
ghost use Rattle.pt_checks.specs.Wanted.{arranged, candidates};
ghost use Rattle.pt_store.specs.Step.{IsLook};
ghost use Rattle.pt_store.specs.Stops.{IfBad, IsCounted};
ghost use Rattle.pt_store.specs.Store.{IsStore};
ghost use Rattle.pt_db.specs.Rows.{AreRising};
ghost use Rattle.pt_db.specs.Sound.{IsSoundRow};
ghost use Rattle.pt_holds.specs.Bad.{Bad};
ghost use Rattle.pt_session.specs.HeldSpots.{HoldsSpots};
ghost use Rattle.pt_session.specs.Session.{HasMap, IsOpen, IsOver, def_of};

use crate::reading::read_wanted;
use crate::spots::spots_read;
use pt_ast::{Idents, Rows, TableDef, Tail};
use pt_checks::arranged;
use pt_host::Host;
use pt_session::Session;
use pt_store::Stop;
use pt_value::Ident;
use std::alloc::{AllocError, Global};

/// The rows that a statement with this PARTITION list and tail takes of a table, in its order and at most as many as it wants. Of the
/// table's files it reads, in the order of the definition, those of the spots that the PARTITION list leaves.
pub fn candidates<H: Host>(
    session: &Session,
    host: &mut H,
    table: &Ident,
    def: &TableDef,
    parts: &Option<Idents>,
    tail: &Tail,
) -> Result<Rows, Stop>
    requires open { IsOpen session.now }
    requires held { def_of session.now table.now ≡ Some def.now }
    requires checked { IsCheckedCond def.now.columns tail.now.cond }
    requires stands { H.tells → HasMap session.now (H.world host.old) }
    ensures looks { H.tells → (map : FileList) → IsStore session.now.store map (H.world host.old) → IsLook session.now.store map (H.world host.old) (H.world host.new) }
    ensures rows { IfOk result (λ found. H.tells → (map : FileList) → IsStore session.now.store map (H.world host.old) → (rows : List Row) → AreRising rows → HoldsSpots (by_name map) table.now def.now rows → found ≡ candidates def.now parts.now tail.now rows) }
    // Over every host.
    ensures sound { IfOk result (λ found. All (IsSoundRow session.now.next def.now) found) }
    ensures bad { IfBad result (λ name place. H.tells → (map : FileList) → IsStore session.now.store map (H.world host.old) → IsOver session.now (by_name map) → Bad (by_name map) name place) }
    ensures counts { IsCounted (H.counts host.old) (H.counts host.new) result }
{
    let spots = spots_read(session.alloc(), def, parts)?;
    let rows = read_wanted(session, host, table, def, parts, &tail.cond, spots.items())?;
    Ok(arrange(session.alloc(), def, tail, rows)?)
}

/// These rows in the order of a statement, and at most as many as it wants.
fn arrange(alloc: Global, def: &TableDef, tail: &Tail, rows: Rows) -> Result<Rows, AllocError>
    ensures value { IfOk result (λ taken. taken ≡ arranged def.now.columns tail.now rows) }
    ensures sound { IfOk result (λ taken. (next : ℕ) → All (IsSoundRow next def.now) rows → All (IsSoundRow next def.now) taken) }
{
    let taken = arranged(alloc, &def.columns, tail, rows)?;
    Ok(taken)
}
