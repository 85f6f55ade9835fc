ghost use Rattle.std.specs.Prelude.{◌≡◌, ◌+◌, ◌<◌, ◌^◌, All, Some, Result, false, filter, length, not, IfOk, OnOk};
ghost use Rattle.pt_ast.specs.Keys.{agrees};
ghost use Rattle.pt_ast.specs.declared.refusal.Refusal.{Refusal as Why};
ghost use Rattle.pt_expr.specs.Columns.{AreFitting};
ghost use Rattle.pt_place.specs.Valid.{IsValid};
ghost use Rattle.pt_checks.specs.Cells.{lacks_value};
ghost use Rattle.pt_checks.specs.Given.{Gives};
ghost use Rattle.pt_checks.specs.Named.{targets as targets_of};
ghost use Rattle.pt_checks.specs.Wanted.{is_named_spot};
ghost use Rattle.pt_flat.specs.Filled.{Fills};
ghost use Rattle.pt_flat.specs.Growth.{IsCounted, IsGrown, IsSoundFilling};
ghost use Rattle.pt_flat.specs.Insert.{bad_cells, bad_place, cleared, fill, fill_cells, fill_row, skipped_or, with_added, with_deleted};
ghost use Rattle.pt_flat.specs.declared.filling.Filling.{Filling as Filled};

use crate::keys::{agrees, is_taken};
use pt_ast::{Cells, Idents, NewRows, Refusal, Row, Rows, Spot, TableDef, ValueSpecs};
use pt_checks::{CellsFault, Targets, new_cells};
use pt_place::{in_set, place};
use std::alloc::{AllocError, Global};
use std::mem::{drop, replace};

/// Every serial is below it.
const SERIALS_END: u64 = 1 << 62;

/// What becomes of a new row that can't stand beside the rows that are there, or has no place among them.
#[derive(Clone, Copy)]
pub enum InsertMode {
    /// `INSERT`: the statement is refused.
    Refuse,
    /// `INSERT IGNORE`: the row is passed over.
    Skip,
    /// `REPLACE`: the rows that agree with it on a unique key are deleted first. Without a place the statement is refused.
    Replace,
}

/// Rows that are being inserted: the table's rows so far, the serial that the next one takes, and how many were inserted, passed over and
/// deleted.
#[derive(Drop)]
pub struct Filling {
    pub rows: Rows,
    pub next: u64,
    pub added: u64,
    pub skipped: u64,
    pub deleted: u64,
}

/// Inserts these rows of VALUES, one after the other.
pub(crate) fn fill(
    alloc: Global,
    mode: InsertMode,
    def: &TableDef,
    new: &NewRows,
    rows: &[ValueSpecs],
    targets: &Targets,
    start: Filling,
) -> Result<Filling, CellsFault>
    requires valid { IsValid def.now }
    requires targets { targets.now ≡ targets_of def.now new.now.columns }
    requires below { All (λ at. at < length def.now.columns) targets.now }
    requires sound { IsSoundFilling def.now start }
    requires counted { IsCounted 1 start }
    ensures filled { Gives (fill mode def.now new.now 1 start rows.now) result }
    ensures sound { IfOk result (IsSoundFilling def.now) }
    ensures grown { IfOk result (IsGrown start) }
{
    let mut filling = start;
    for (at, values) in rows.iter().enumerate() {
        fill_row(
            alloc,
            mode,
            def,
            new,
            targets,
            at as u64 + 1,
            values,
            &mut filling,
        )?;
    }
    Ok(filling)
}

/// Inserts the row of this number.
fn fill_row(
    alloc: Global,
    mode: InsertMode,
    def: &TableDef,
    new: &NewRows,
    targets: &Targets,
    number: u64,
    values: &ValueSpecs,
    filling: &mut Filling,
) -> Result<(), CellsFault>
    requires valid { IsValid def.now }
    requires targets { targets.now ≡ targets_of def.now new.now.columns }
    requires below { All (λ at. at < length def.now.columns) targets.now }
    requires sound { IsSoundFilling def.now filling.old }
    requires counted { IsCounted number filling.old }
    ensures filled { Fills (fill_row mode def.now new.now number filling.old values.now) filling.new result }
    ensures sound { OnOk result (IsSoundFilling def.now filling.new) }
    ensures grown { OnOk result (IsGrown filling.old filling.new) }
    ensures counted { OnOk result (IsCounted (number + 1) filling.new) }
{
    let cells = new_cells(alloc, def, targets, number, values)?;
    fill_cells(alloc, mode, def, new, number, cells, filling)
}

/// Inserts a row of these cells, or passes it over.
fn fill_cells(
    alloc: Global,
    mode: InsertMode,
    def: &TableDef,
    new: &NewRows,
    number: u64,
    cells: Cells,
    filling: &mut Filling,
) -> Result<(), CellsFault>
    requires valid { IsValid def.now }
    requires fitting { AreFitting def.now.columns cells }
    requires whole { lacks_value def.now.columns cells ≡ false }
    requires sound { IsSoundFilling def.now filling.old }
    requires counted { IsCounted number filling.old }
    ensures filled { Fills (fill_cells mode def.now new.now number filling.old cells) filling.new result }
    ensures sound { OnOk result (IsSoundFilling def.now filling.new) }
    ensures grown { OnOk result (IsGrown filling.old filling.new) }
    ensures counted { OnOk result (IsCounted (number + 1) filling.new) }
{
    put_cells(alloc, mode, def, new, number, cells, filling)
}

fn put_cells(
    alloc: Global,
    mode: InsertMode,
    def: &TableDef,
    new: &NewRows,
    number: u64,
    cells: Cells,
    filling: &mut Filling,
) -> Result<(), CellsFault>
    requires valid { IsValid def.now }
    requires fitting { AreFitting def.now.columns cells }
    requires sound { IsSoundFilling def.now filling.old }
    requires counted { IsCounted number filling.old }
    ensures { Fills (fill_cells mode def.now new.now number filling.old cells) filling.new result }
{
    clear(alloc, mode, def, &cells, filling)?;
    if let Some(refusal) = bad_cells(def, &new.parts, number, filling.rows.items(), &cells) {
        return skip_or(mode, refusal, filling);
    }
    if filling.next >= SERIALS_END {
        return Err(CellsFault::Refused(Refusal::SerialsUsed(number)));
    }
    add_cells(filling, cells)?;
    Ok(())
}

/// For REPLACE, deletes the rows that agree with these cells on a unique key.
fn clear(
    alloc: Global,
    mode: InsertMode,
    def: &TableDef,
    cells: &Cells,
    filling: &mut Filling,
) -> Result<(), AllocError>
    requires { filling.old.deleted + length filling.old.rows < 2 ^ 62 }
    ensures { OnOk result (filling.new ≡ cleared mode def.now cells.now filling.old) }
{
    match mode {
        InsertMode::Refuse => Ok(()),
        InsertMode::Skip => Ok(()),
        InsertMode::Replace => delete_agreeing(alloc, def, cells, filling),
    }
}

fn delete_agreeing(
    alloc: Global,
    def: &TableDef,
    cells: &Cells,
    filling: &mut Filling,
) -> Result<(), AllocError>
    requires { filling.old.deleted + length filling.old.rows < 2 ^ 62 }
    ensures { OnOk result (filling.new ≡ with_deleted def.now cells.now filling.old) }
{
    let rows = not_agreeing(alloc, def, cells, filling.rows.items())?;
    let deleted = filling.rows.items().len() - rows.items().len();
    filling.deleted += deleted as u64;
    drop(replace(&mut filling.rows, rows));
    Ok(())
}

/// The rows that don't agree with these cells on a unique key.
fn not_agreeing(
    alloc: Global,
    def: &TableDef,
    cells: &Cells,
    rows: &[Row],
) -> Result<Rows, AllocError>
    ensures { IfOk result (λ kept. kept ≡ filter (λ row. not (agrees def.now cells.now row.cells)) rows.now) }
{
    let mut kept = Rows::new(alloc);
    for row in rows {
        if !agrees(def, cells, &row.cells) {
            kept.push(row.copy(alloc)?)?;
        }
    }
    Ok(kept)
}

/// Passes over a row that is refused, for IGNORE.
fn skip_or(mode: InsertMode, refusal: Refusal, filling: &mut Filling) -> Result<(), CellsFault>
    requires { filling.old.skipped + 1 < 2 ^ 64 }
    ensures { (next : Result Filled Why) → Fills (skipped_or mode (Some refusal) filling.old next) filling.new result }
{
    match mode {
        InsertMode::Skip => {
            filling.skipped += 1;
            Ok(())
        }
        InsertMode::Refuse => Err(CellsFault::Refused(refusal)),
        InsertMode::Replace => Err(CellsFault::Refused(refusal)),
    }
}

/// What is refused of a row of these cells beside these rows.
fn bad_cells(
    def: &TableDef,
    parts: &Option<Idents>,
    number: u64,
    rows: &[Row],
    cells: &Cells,
) -> Option<Refusal>
    requires valid { IsValid def.now }
    requires fitting { AreFitting def.now.columns cells.now }
    ensures { result ≡ bad_cells def.now parts.now number rows.now cells.now }
{
    if let Some(refusal) = bad_place(def, parts, number, cells) {
        return Some(refusal);
    }
    if is_taken(def, cells, rows) {
        return Some(Refusal::DuplicateKey(number));
    }
    None
}

/// What is refused of the place of these cells: there is none, or it isn't among those that the statement names.
pub(crate) fn bad_place(
    def: &TableDef,
    parts: &Option<Idents>,
    number: u64,
    cells: &Cells,
) -> Option<Refusal>
    requires valid { IsValid def.now }
    requires fitting { AreFitting def.now.columns cells.now }
    ensures { result ≡ bad_place def.now parts.now number cells.now }
{
    let Some(spot) = place(def, cells) else {
        return Some(Refusal::NoPartition(number));
    };
    if !is_named_spot(def, parts, spot) {
        return Some(Refusal::NotInGivenSet(number));
    }
    None
}

/// Whether the spot is one of the partitions that the statement names, if it names some.
fn is_named_spot(def: &TableDef, parts: &Option<Idents>, spot: Spot) -> bool
    ensures { result ≡ is_named_spot def.now parts.now spot }
{
    match parts {
        Some(names) => in_set(def, names.items(), spot),
        None => in_set(def, &[], spot),
    }
}

/// Puts a row of these cells at the end, with the next serial.
fn add_cells(filling: &mut Filling, cells: Cells) -> Result<(), AllocError>
    requires room { filling.old.next < 2 ^ 62 }
    requires counted { filling.old.added < filling.old.next }
    ensures { OnOk result (filling.new ≡ with_added cells filling.old) }
{
    let serial = filling.next;
    filling.rows.push(Row { serial, cells })?;
    filling.next += 1;
    filling.added += 1;
    Ok(())
}
