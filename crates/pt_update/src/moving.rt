//! The rows of an UPDATE, one after the other, each from the book of its spot to that of its new one.
ghost use Rattle.std.specs.Prelude.{◌≡◌, ◌≢◌, ℕ, List, All, Option, Some, true, false, OnOk};
ghost use Rattle.pt_host.specs.Listed.{FileList, by_name};
ghost use Rattle.pt_ast.specs.declared.database.Row.{Row as AnyRow};
ghost use Rattle.pt_ast.specs.Keys.{AreUnique};
ghost use Rattle.pt_value.specs.declared.value.Value.{Value};
ghost use Rattle.pt_place.specs.Place.{place_of};
ghost use Rattle.pt_place.specs.Valid.{IsValid};
ghost use Rattle.pt_checks.specs.Assigned.{AreAssignable, are_same, set_targets};
ghost use Rattle.pt_store.specs.Step.{IsLook};
ghost use Rattle.pt_store.specs.Stops.{IfBad, IsCounted};
ghost use Rattle.pt_store.specs.Store.{IsStore};
ghost use Rattle.pt_db.specs.Rows.{AreRising, others, row_at};
ghost use Rattle.pt_db.specs.Sound.{IsSoundRow};
ghost use Rattle.pt_db.specs.Spots.{IsSpotOf};
ghost use Rattle.pt_flat.specs.declared.updating.Updating.{Updating};
ghost use Rattle.pt_flat.specs.Update.{unchanged, update_row, update_rows};
ghost use Rattle.pt_holds.specs.Bad.{Bad};
ghost use Rattle.pt_session.specs.HeldSpots.{HoldsSpots};
ghost use Rattle.pt_session.specs.Session.{HasMap, IsOpen, IsOver, def_of};
ghost use Rattle.pt_books.specs.Books.{AreBooks, is_keyed};
ghost use Rattle.pt_books.specs.Halts.{stop_of};
ghost use Rattle.pt_update.specs.Parts.{IsPlacedIn, with_moved};
ghost use Rattle.pt_update.specs.Work.{AreTaken, IsFresh, IsMoving, IsNext, IsWork, Moves};

use crate::checking::{moved_row, spot_of};
use crate::work::{Work, add_moved, remove_keyed};
use pt_ast::{Assigns, Cells, Idents, Row, Spot, TableDef};
use pt_books::{Books, Halt, load};
use pt_checks::{Targets, set_targets};
use pt_host::Host;
use pt_session::Session;
use pt_store::Stop;
use pt_value::Ident;

/// Updates these rows, one after the other. Of the table's files it reads those of the spots that rows leave and come to, where the
/// table has a unique key.
pub(crate) fn move_rows<H: Host>(
    session: &Session,
    host: &mut H,
    table: &Ident,
    def: &TableDef,
    parts: &Option<Idents>,
    assigns: &Assigns,
    rows: &[Row],
    work: &mut Work,
) -> Result<(), Halt>
    requires open { IsOpen session.now }
    requires held { def_of session.now table.now ≡ Some def.now }
    requires valid { IsValid def.now }
    requires assignable { AreAssignable def.now.columns assigns.now }
    requires sound { All (IsSoundRow session.now.next def.now) rows.now }
    requires stands { H.tells → HasMap session.now (H.world host.old) }
    ensures looks { H.tells → (map : FileList) → IsStore session.now.store map (H.world host.old) → IsLook session.now.store map (H.world host.old) (H.world host.new) }
    ensures moves { H.tells → (map : FileList) → IsStore session.now.store map (H.world host.old) → (before : List AnyRow) → HoldsSpots (by_name map) table.now def.now before → AreTaken def.now parts.now before rows.now → ((serial : ℕ) → IsFresh work.old serial) → IsMoving session.now.next def.now before (unchanged before) work.old → Moves session.now.next def.now before (update_rows def.now parts.now assigns.now 1 (unchanged before) rows.now) work.new result }
    ensures work { OnOk result (IsWork def.now work.old → IsWork def.now work.new) }
    ensures bad { IfBad (stop_of result) (λ name place. H.tells → (map : FileList) → IsStore session.now.store map (H.world host.old) → IsOver session.now (by_name map) → Bad (by_name map) name place) }
    ensures counts { IsCounted (H.counts host.old) (H.counts host.new) (stop_of result) }
{
    let targets = set_targets(session.alloc(), def, assigns)?;
    for (at, row) in rows.iter().enumerate() {
        move_row(
            session,
            host,
            table,
            def,
            parts,
            assigns,
            &targets,
            at as u64 + 1,
            row,
            work,
        )?;
    }
    Ok(())
}

/// Updates the row of this number.
fn move_row<H: Host>(
    session: &Session,
    host: &mut H,
    table: &Ident,
    def: &TableDef,
    parts: &Option<Idents>,
    assigns: &Assigns,
    targets: &Targets,
    number: u64,
    row: &Row,
    work: &mut Work,
) -> Result<(), Halt>
    requires open { IsOpen session.now }
    requires held { def_of session.now table.now ≡ Some def.now }
    requires valid { IsValid def.now }
    requires targets { targets.now ≡ set_targets def.now.columns assigns.now }
    requires assignable { AreAssignable def.now.columns assigns.now }
    requires sound { IsSoundRow session.now.next def.now row.now }
    requires stands { H.tells → HasMap session.now (H.world host.old) }
    ensures looks { H.tells → (map : FileList) → IsStore session.now.store map (H.world host.old) → IsLook session.now.store map (H.world host.old) (H.world host.new) }
    ensures moves { H.tells → (map : FileList) → IsStore session.now.store map (H.world host.old) → (before : List AnyRow) (updating : Updating) → HoldsSpots (by_name map) table.now def.now before → IsNext session.now.next def.now parts.now before updating work.old row.now → Moves session.now.next def.now before (update_row def.now parts.now assigns.now number updating row.now) work.new result }
    ensures work { OnOk result (IsWork def.now work.old → IsWork def.now work.new) }
    ensures fresh { OnOk result ((serial : ℕ) → serial ≢ row.now.serial → IsFresh work.old serial → IsFresh work.new serial) }
    ensures bad { IfBad (stop_of result) (λ name place. H.tells → (map : FileList) → IsStore session.now.store map (H.world host.old) → IsOver session.now (by_name map) → Bad (by_name map) name place) }
    ensures counts { IsCounted (H.counts host.old) (H.counts host.new) (stop_of result) }
{
    let moved = moved_row(session.alloc(), def, parts, assigns, targets, number, row)?;
    match moved {
        Some((spot, cells)) => move_to(session, host, table, def, number, row, spot, cells, work),
        None => Ok(()),
    }
}

/// Updates the row of this number to these cells, which aren't those that it has, in their spot.
fn move_to<H: Host>(
    session: &Session,
    host: &mut H,
    table: &Ident,
    def: &TableDef,
    number: u64,
    row: &Row,
    to: Spot,
    cells: Cells,
    work: &mut Work,
) -> Result<(), Halt>
    requires open { IsOpen session.now }
    requires held { def_of session.now table.now ≡ Some def.now }
    requires valid { IsValid def.now }
    requires sound { IsSoundRow session.now.next def.now row.now }
    requires placed { IsPlacedIn def.now to cells }
    requires stands { H.tells → HasMap session.now (H.world host.old) }
    ensures looks { H.tells → (map : FileList) → IsStore session.now.store map (H.world host.old) → IsLook session.now.store map (H.world host.old) (H.world host.new) }
    ensures moves { H.tells → (map : FileList) → IsStore session.now.store map (H.world host.old) → (parts : Option (List (List ℕ))) (before : List AnyRow) (updating : Updating) → HoldsSpots (by_name map) table.now def.now before → IsNext session.now.next def.now parts before updating work.old row.now → are_same row.now.cells cells ≡ false → Moves session.now.next def.now before (with_moved def.now number updating row.now cells) work.new result }
    ensures work { OnOk result (IsWork def.now work.old → IsWork def.now work.new) }
    ensures fresh { OnOk result ((serial : ℕ) → serial ≢ row.now.serial → IsFresh work.old serial → IsFresh work.new serial) }
    ensures bad { IfBad (stop_of result) (λ name place. H.tells → (map : FileList) → IsStore session.now.store map (H.world host.old) → IsOver session.now (by_name map) → Bad (by_name map) name place) }
    ensures counts { IsCounted (H.counts host.old) (H.counts host.new) (stop_of result) }
{
    let from = spot_of(def, row);
    take_out(session, host, table, def, from, row.serial, &mut work.books)?;
    load(session, host, table, def, to, &mut work.books)?;
    let new = Row {
        serial: row.serial,
        cells,
    };
    add_moved(def, number, from, to, new, work)?;
    Ok(())
}

/// Takes the row of this serial out of the book of its spot, whose rows are read first where they weren't. Where the table has no unique
/// key there are no books.
fn take_out<H: Host>(
    session: &Session,
    host: &mut H,
    table: &Ident,
    def: &TableDef,
    spot: Spot,
    serial: u64,
    books: &mut Books,
) -> Result<(), Stop>
    requires open { IsOpen session.now }
    requires held { def_of session.now table.now ≡ Some def.now }
    requires spot { IsSpotOf def.now spot }
    requires stands { H.tells → HasMap session.now (H.world host.old) }
    ensures looks { H.tells → (map : FileList) → IsStore session.now.store map (H.world host.old) → IsLook session.now.store map (H.world host.old) (H.world host.new) }
    ensures books { OnOk result (H.tells → (map : FileList) → IsStore session.now.store map (H.world host.old) → (before now : List AnyRow) (cells : List Value) → HoldsSpots (by_name map) table.now def.now before → AreUnique def.now now → AreRising now → row_at now serial ≡ Some cells → place_of def.now cells ≡ Some spot → is_keyed def.now ≡ true → AreBooks def.now before now books.old → AreBooks def.now before (others serial now) books.new) }
    ensures bad { IfBad result (λ name place. H.tells → (map : FileList) → IsStore session.now.store map (H.world host.old) → IsOver session.now (by_name map) → Bad (by_name map) name place) }
    ensures counts { IsCounted (H.counts host.old) (H.counts host.new) result }
{
    load(session, host, table, def, spot, books)?;
    remove_keyed(def, spot, serial, books);
    Ok(())
}
