//! The rows of an INSERT or a REPLACE, one after the other, each in the book of its spot.
ghost use Rattle.std.specs.Prelude.{◌≡◌, ◌+◌, ◌<◌, ℕ, List, All, Some, length, OnOk};
ghost use Rattle.pt_host.specs.Listed.{FileList, by_name};
ghost use Rattle.pt_ast.specs.declared.database.Row.{Row as AnyRow};
ghost use Rattle.pt_place.specs.Valid.{IsValid};
ghost use Rattle.pt_checks.specs.Named.{targets as targets_of};
ghost use Rattle.pt_store.specs.Step.{IsLook};
ghost use Rattle.pt_store.specs.Stops.{IfBad, IsCounted};
ghost use Rattle.pt_store.specs.Store.{IsStore};
ghost use Rattle.pt_flat.specs.Insert.{fill, fill_row};
ghost use Rattle.pt_holds.specs.Bad.{Bad};
ghost use Rattle.pt_session.specs.HeldSpots.{HoldsSpots};
ghost use Rattle.pt_session.specs.Session.{HasMap, IsOpen, IsOver, def_of};
ghost use Rattle.pt_books.specs.Halts.{stop_of};
ghost use Rattle.pt_dml.specs.Work.{Fills, IsMade, IsWork, IsWorkBehind, IsWorkOn, filling_of};

use crate::checking::placed_row;
use crate::entering::add_row;
use crate::work::Work;
use pt_ast::{NewRows, TableDef, ValueSpecs};
use pt_books::{Halt, load};
use pt_checks::Targets;
use pt_flat::InsertMode;
use pt_host::Host;
use pt_session::Session;

/// Adds these rows of VALUES, one after the other. Of the table's files it reads those of the spots where its rows go, where the table has a
/// unique key.
pub(crate) fn fill<H: Host>(
    session: &Session,
    host: &mut H,
    mode: InsertMode,
    def: &TableDef,
    new: &NewRows,
    targets: &Targets,
    rows: &[ValueSpecs],
    work: &mut Work,
) -> Result<(), Halt>
    requires open { IsOpen session.now }
    requires held { def_of session.now new.now.table ≡ Some def.now }
    requires valid { IsValid def.now }
    requires targets { targets.now ≡ targets_of def.now new.now.columns }
    requires below { All (λ at. at < length def.now.columns) targets.now }
    requires work { IsWork def.now 1 work.old }
    requires stands { H.tells → HasMap session.now (H.world host.old) }
    ensures looks { H.tells → (map : FileList) → IsStore session.now.store map (H.world host.old) → IsLook session.now.store map (H.world host.old) (H.world host.new) }
    ensures fills { H.tells → (map : FileList) → IsStore session.now.store map (H.world host.old) → (before : List AnyRow) → HoldsSpots (by_name map) new.now.table def.now before → IsWorkOn def.now before work.old → Fills def.now before (fill mode def.now new.now 1 (filling_of before work.old) rows.now) work.new result }
    ensures work { OnOk result (IsMade work.old.first def.now work.new) }
    ensures bad { IfBad (stop_of result) (λ name place. H.tells → (map : FileList) → IsStore session.now.store map (H.world host.old) → IsOver session.now (by_name map) → Bad (by_name map) name place) }
    ensures counts { IsCounted (H.counts host.old) (H.counts host.new) (stop_of result) }
{
    for (at, values) in rows.iter().enumerate() {
        fill_row(
            session,
            host,
            mode,
            def,
            new,
            targets,
            at as u64 + 1,
            values,
            work,
        )?;
    }
    Ok(())
}

/// Adds the row of this number.
fn fill_row<H: Host>(
    session: &Session,
    host: &mut H,
    mode: InsertMode,
    def: &TableDef,
    new: &NewRows,
    targets: &Targets,
    number: u64,
    values: &ValueSpecs,
    work: &mut Work,
) -> Result<(), Halt>
    requires open { IsOpen session.now }
    requires held { def_of session.now new.now.table ≡ Some def.now }
    requires valid { IsValid def.now }
    requires targets { targets.now ≡ targets_of def.now new.now.columns }
    requires below { All (λ at. at < length def.now.columns) targets.now }
    requires work { IsWork def.now number work.old }
    requires stands { H.tells → HasMap session.now (H.world host.old) }
    ensures looks { H.tells → (map : FileList) → IsStore session.now.store map (H.world host.old) → IsLook session.now.store map (H.world host.old) (H.world host.new) }
    ensures fills { H.tells → (map : FileList) → IsStore session.now.store map (H.world host.old) → (before : List AnyRow) → HoldsSpots (by_name map) new.now.table def.now before → IsWorkOn def.now before work.old → Fills def.now before (fill_row mode def.now new.now number (filling_of before work.old) values.now) work.new result }
    ensures work { OnOk result (IsWorkBehind def.now (number + 1) work.old work.new) }
    ensures bad { IfBad (stop_of result) (λ name place. H.tells → (map : FileList) → IsStore session.now.store map (H.world host.old) → IsOver session.now (by_name map) → Bad (by_name map) name place) }
    ensures counts { IsCounted (H.counts host.old) (H.counts host.new) (stop_of result) }
{
    let alloc = session.alloc();
    let Some(placed) = placed_row(alloc, mode, def, new, targets, number, values)? else {
        work.skipped += 1;
        return Ok(());
    };
    let (spot, cells) = placed;
    load(session, host, &new.table, def, spot, &mut work.books)?;
    add_row(alloc, mode, def, number, spot, cells, work)?;
    Ok(())
}
