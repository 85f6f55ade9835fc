ghost use Rattle.std.specs.Prelude.{◌≡◌, ◌+◌, ◌<◌, ◌^◌, ℕ, List, All, false, if◌then◌else◌, IfOk, OnOk, OnErr};
ghost use Rattle.pt_ast.specs.declared.database.Row.{Row as BaseRow};
ghost use Rattle.pt_expr.specs.Columns.{AreFitting};
ghost use Rattle.pt_place.specs.Valid.{IsValid};
ghost use Rattle.pt_checks.specs.Assigned.{AreAssignable, set_targets as targets_of};
ghost use Rattle.pt_checks.specs.Cells.{lacks_value};
ghost use Rattle.pt_checks.specs.Given.{Gives};
ghost use Rattle.pt_db.specs.Lookup.{filled};
ghost use Rattle.pt_db.specs.Outcome.{db_behind, reply_of};
ghost use Rattle.pt_db.specs.Rows.{is_numbered, others, with_cells};
ghost use Rattle.pt_db.specs.Sound.{IsSound, IsSoundRow};
ghost use Rattle.pt_flat.specs.Insert.{bad_cells};
ghost use Rattle.pt_flat.specs.Renewal.{IsMatched, IsSoundUpdating};
ghost use Rattle.pt_flat.specs.Update.{update, update_row, update_rows, updated, with_updated, with_updating};

use crate::filling::bad_place;
use crate::inserting::copy_rows;
use crate::keys::is_taken_beside;
use crate::lookup::table_of;
use pt_ast::{Assigns, Cells, Db, Idents, Refusal, Reply, Row, Rows, TableDef, Tail};
use pt_checks::{
    CellsFault, Targets, are_same, bad_parts, bad_update, candidates, set_targets, updated_cells,
};
use pt_db::{counts_reply, refusal_reply, replace_rows};
use pt_value::Ident;
use std::alloc::{AllocError, Global};

/// Rows that are being updated: the table's rows so far, how many were matched, and how many of these have other values than before.
#[derive(Drop)]
pub struct Updating {
    pub rows: Rows,
    pub matched: u64,
    pub changed: u64,
}

/// Takes UPDATE. Want of memory leaves the database as it was.
pub(crate) fn update(
    alloc: Global,
    db: &mut Db,
    name: &Ident,
    parts: &Option<Idents>,
    assigns: &Assigns,
    tail: &Tail,
) -> Result<Reply, AllocError>
    requires { IsSound db.old }
    ensures reply { IfOk result (λ reply. reply ≡ reply_of (update db.old name.now parts.now assigns.now tail.now)) }
    ensures after { OnOk result (db.new ≡ db_behind db.old (update db.old name.now parts.now assigns.now tail.now)) }
    ensures err { OnErr result (db.new ≡ db.old) }
    ensures sound { IsSound db.new }
{
    match updated(alloc, db, name, parts, assigns, tail) {
        Ok(updating) => keep(alloc, db, name, updating),
        Err(CellsFault::Refused(refusal)) => refusal_reply(alloc, refusal),
        Err(CellsFault::NoMemory) => Err(AllocError),
    }
}

/// The rows of the table with those that the statement updates.
fn updated(
    alloc: Global,
    db: &Db,
    name: &Ident,
    parts: &Option<Idents>,
    assigns: &Assigns,
    tail: &Tail,
) -> Result<Updating, CellsFault>
    requires { IsSound db.now }
    ensures updated { Gives (updated db.now name.now parts.now assigns.now tail.now) result }
    ensures sound { IfOk result (λ updating. IsSound (filled db.now name.now updating.rows db.now.next)) }
{
    let Some(table) = table_of(db, name) else {
        return Err(CellsFault::Refused(Refusal::NoSuchTable(*name)));
    };
    if let Some(refusal) = bad_parts(&table.def, name, parts) {
        return Err(CellsFault::Refused(refusal));
    }
    if let Some(refusal) = bad_update(&table.def, name, assigns, tail) {
        return Err(CellsFault::Refused(refusal));
    }
    let rows = table.rows.items();
    let taken = candidates(alloc, &table.def, parts, tail, rows)?;
    let start = Updating {
        rows: copy_rows(alloc, rows)?,
        matched: 0,
        changed: 0,
    };
    update_rows(alloc, &table.def, parts, assigns, taken.items(), start)
}

/// Updates these rows, one after the other.
fn update_rows(
    alloc: Global,
    def: &TableDef,
    parts: &Option<Idents>,
    assigns: &Assigns,
    taken: &[Row],
    start: Updating,
) -> Result<Updating, CellsFault>
    requires valid { IsValid def.now }
    requires assignable { AreAssignable def.now.columns assigns.now }
    requires fitting { All (λ row. AreFitting def.now.columns row.cells) taken.now }
    requires whole { All (λ row. lacks_value def.now.columns row.cells ≡ false) taken.now }
    requires counted { IsMatched 1 start }
    ensures updated { Gives (update_rows def.now parts.now assigns.now 1 start taken.now) result }
    ensures sound { (next : ℕ) (before : List BaseRow) → All (IsSoundRow next def.now) taken.now → IsSoundUpdating next def.now before start
        → IfOk result (IsSoundUpdating next def.now before) }
{
    let targets = set_targets(alloc, def, assigns)?;
    let mut updating = start;
    for (at, row) in taken.iter().enumerate() {
        updating = update_row(
            alloc,
            def,
            parts,
            assigns,
            &targets,
            at as u64 + 1,
            row,
            &updating,
        )?;
    }
    Ok(updating)
}

/// Updates the row of this number.
fn update_row(
    alloc: Global,
    def: &TableDef,
    parts: &Option<Idents>,
    assigns: &Assigns,
    targets: &Targets,
    number: u64,
    row: &Row,
    updating: &Updating,
) -> Result<Updating, CellsFault>
    requires valid { IsValid def.now }
    requires targets { targets.now ≡ targets_of def.now.columns assigns.now }
    requires assignable { AreAssignable def.now.columns assigns.now }
    requires fitting { AreFitting def.now.columns row.now.cells }
    requires whole { lacks_value def.now.columns row.now.cells ≡ false }
    requires counted { IsMatched number updating.now }
    ensures updated { Gives (update_row def.now parts.now assigns.now number updating.now row.now) result }
    ensures counted { IfOk result (IsMatched (number + 1)) }
    ensures sound { (next : ℕ) (before : List BaseRow) → IsSoundRow next def.now row.now → IsSoundUpdating next def.now before updating.now
        → IfOk result (IsSoundUpdating next def.now before) }
{
    let cells = updated_cells(alloc, def, targets, assigns, number, &row.cells)?;
    let rows = updating.rows.items();
    if let Some(refusal) = bad_cells_beside(def, parts, number, row.serial, rows, &cells) {
        return Err(CellsFault::Refused(refusal));
    }
    Ok(with_updated(alloc, row, &cells, updating)?)
}

/// What is refused of these cells beside the rows but the one of this serial.
fn bad_cells_beside(
    def: &TableDef,
    parts: &Option<Idents>,
    number: u64,
    serial: u64,
    rows: &[Row],
    cells: &Cells,
) -> Option<Refusal>
    requires valid { IsValid def.now }
    requires fitting { AreFitting def.now.columns cells.now }
    ensures { result ≡ bad_cells def.now parts.now number (others serial rows.now) cells.now }
{
    if let Some(refusal) = bad_place(def, parts, number, cells) {
        return Some(refusal);
    }
    if is_taken_beside(def, serial, cells, rows) {
        return Some(Refusal::DuplicateKey(number));
    }
    None
}

/// With these cells in a row, which is counted.
fn with_updated(
    alloc: Global,
    row: &Row,
    cells: &Cells,
    updating: &Updating,
) -> Result<Updating, AllocError>
    requires matched { updating.now.matched + 1 < 2 ^ 64 }
    requires changed { updating.now.changed + 1 < 2 ^ 64 }
    ensures { IfOk result (λ later. later ≡ with_updated row.now cells.now updating.now) }
{
    let changed = if are_same(&row.cells, cells) {
        updating.changed
    } else {
        updating.changed + 1
    };
    Ok(Updating {
        rows: with_cells(alloc, row.serial, cells, updating.rows.items())?,
        matched: updating.matched + 1,
        changed,
    })
}

/// The rows with these cells in the one of this serial.
fn with_cells(alloc: Global, serial: u64, cells: &Cells, rows: &[Row]) -> Result<Rows, AllocError>
    ensures { IfOk result (λ changed. changed ≡ with_cells serial cells.now rows.now) }
{
    let mut changed = Rows::new(alloc);
    for row in rows {
        changed.push(changed_row(alloc, serial, cells, row)?)?;
    }
    Ok(changed)
}

/// The row, with these cells where it has this serial.
fn changed_row(alloc: Global, serial: u64, cells: &Cells, row: &Row) -> Result<Row, AllocError>
    ensures { IfOk result (λ own. own ≡ if is_numbered serial row.now then record row.now { cells = cells.now } else row.now) }
{
    if row.serial != serial {
        return row.copy(alloc);
    }
    let cells = cells.copy(alloc)?;
    Ok(Row { serial, cells })
}

/// Keeps the rows, and answers how many were matched and changed. Want of memory leaves the database as it was.
fn keep(alloc: Global, db: &mut Db, name: &Ident, updating: Updating) -> Result<Reply, AllocError>
    requires old { IsSound db.old }
    requires new { IsSound (filled db.old name.now updating.rows db.old.next) }
    ensures reply { IfOk result (λ reply. reply ≡ reply_of (with_updating db.old name.now updating)) }
    ensures after { OnOk result (db.new ≡ db_behind db.old (with_updating db.old name.now updating)) }
    ensures err { OnErr result (db.new ≡ db.old) }
    ensures sound { IsSound db.new }
{
    let reply = counts_reply(alloc, updating.matched, updating.changed)?;
    let next = db.next;
    replace_rows(alloc, db, name, updating.rows, next);
    Ok(reply)
}
