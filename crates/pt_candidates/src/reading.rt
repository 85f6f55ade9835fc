//! The rows that a statement takes, as they are read.
ghost use Rattle.std.specs.Prelude.{◌≡◌, ◌++◌, All, List, IfOk, OnOk, Some, true};
ghost use Rattle.std.specs.List.{flat_map};
ghost use Rattle.pt_host.specs.Listed.{FileList, by_name};
ghost use Rattle.pt_ast.specs.declared.database.Row.{Row};
ghost use Rattle.pt_expr.specs.Columns.{AreFitting};
ghost use Rattle.pt_checks.specs.Queries.{IsCheckedCond};
ghost use Rattle.pt_checks.specs.Wanted.{is_in_parts, is_named_spot, is_true, is_wanted};
ghost use Rattle.pt_store.specs.Step.{IsLook};
ghost use Rattle.pt_store.specs.Stops.{IfBad, IsCounted};
ghost use Rattle.pt_store.specs.Store.{IsStore};
ghost use Rattle.pt_db.specs.Sound.{IsSoundRow};
ghost use Rattle.pt_db.specs.Spots.{IsSpotOf};
ghost use Rattle.pt_holds.specs.Bad.{Bad};
ghost use Rattle.pt_session.specs.HeldSpots.{HoldsSpots};
ghost use Rattle.pt_session.specs.Session.{HasMap, IsOpen, IsOver, def_of};
ghost use Rattle.pt_candidates.specs.Read.{wanted_in, wanted_of};

use pt_ast::{Cond, Idents, Row, Rows, Spot, TableDef};
use pt_expr::truth;
use pt_host::Host;
use pt_session::Session;
use pt_store::Stop;
use pt_value::{Ident, Truth};
use std::alloc::AllocError;

/// The rows that a statement takes of those in these spots of its table, spot by spot.
pub(crate) fn read_wanted<H: Host>(
    session: &Session,
    host: &mut H,
    table: &Ident,
    def: &TableDef,
    parts: &Option<Idents>,
    cond: &Option<Cond>,
    spots: &[Spot],
) -> Result<Rows, Stop>
    requires open { IsOpen session.now }
    requires held { def_of session.now table.now ≡ Some def.now }
    requires checked { IsCheckedCond def.now.columns cond.now }
    requires spots { All (IsSpotOf def.now) spots.now }
    requires named { All (λ spot. is_named_spot def.now parts.now spot ≡ true) spots.now }
    requires stands { H.tells → HasMap session.now (H.world host.old) }
    ensures looks { H.tells → (map : FileList) → IsStore session.now.store map (H.world host.old) → IsLook session.now.store map (H.world host.old) (H.world host.new) }
    ensures rows { IfOk result (λ found. H.tells → (map : FileList) → IsStore session.now.store map (H.world host.old) → (rows : List Row) → HoldsSpots (by_name map) table.now def.now rows → found ≡ flat_map (wanted_in def.now parts.now cond.now rows) spots.now) }
    ensures sound { IfOk result (λ found. All (IsSoundRow session.now.next def.now) found) }
    ensures bad { IfBad result (λ name place. H.tells → (map : FileList) → IsStore session.now.store map (H.world host.old) → IsOver session.now (by_name map) → Bad (by_name map) name place) }
    ensures counts { IsCounted (H.counts host.old) (H.counts host.new) result }
{
    let mut found = Rows::new(session.alloc());
    for spot in spots {
        let rows = session.rows(host, table, *spot)?;
        add_wanted(def, parts, cond, rows, &mut found)?;
    }
    Ok(found)
}

/// Adds those that a statement takes of rows that stand in a spot that it reads.
fn add_wanted(
    def: &TableDef,
    parts: &Option<Idents>,
    cond: &Option<Cond>,
    rows: Rows,
    found: &mut Rows,
) -> Result<(), AllocError>
    requires checked { IsCheckedCond def.now.columns cond.now }
    requires fitting { All (λ row. AreFitting def.now.columns row.cells) rows }
    requires named { All (λ row. is_in_parts def.now parts.now row.cells ≡ true) rows }
    ensures { OnOk result (found.new ≡ found.old ++ wanted_of def.now parts.now cond.now rows) }
{
    for row in rows.into_vec() {
        if is_wanted(def, parts, cond, &row) {
            found.push(row)?;
        }
    }
    Ok(())
}

/// Whether a statement takes a row that stands in a spot that it reads: only WHERE is left to be looked at.
fn is_wanted(def: &TableDef, parts: &Option<Idents>, cond: &Option<Cond>, row: &Row) -> bool
    requires checked { IsCheckedCond def.now.columns cond.now }
    requires fitting { AreFitting def.now.columns row.now.cells }
    requires named { is_in_parts def.now parts.now row.now.cells ≡ true }
    ensures { result ≡ is_wanted def.now parts.now cond.now row.now }
{
    match cond {
        Some(own) => is_true(truth(&def.columns, own, &row.cells)),
        None => true,
    }
}

fn is_true(truth: Truth) -> bool
    ensures { result ≡ is_true truth }
{
    matches!(truth, Truth::True)
}
