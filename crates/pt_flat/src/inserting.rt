ghost use Rattle.std.specs.Prelude.{◌≡◌, IfOk, OnOk, OnErr};
ghost use Rattle.pt_db.specs.Lookup.{filled};
ghost use Rattle.pt_db.specs.Outcome.{db_behind, reply_of};
ghost use Rattle.pt_db.specs.Sound.{IsSound};
ghost use Rattle.pt_db.specs.Texts.{answered};
ghost use Rattle.pt_checks.specs.Given.{Gives};
ghost use Rattle.pt_flat.specs.Insert.{filled_text, insert_mode, insert_rows, inserted, with_filled};

use crate::filling::{Filling, InsertMode, fill};
use crate::lookup::table_of;
use pt_ast::{Db, NewRows, Refusal, Reply, Row, Rows};
use pt_checks::{CellsFault, bad_columns, bad_parts, targets};
use pt_db::{count_reply, counts_reply, refusal_reply, replace_rows};
use pt_value::Ident;
use std::alloc::{AllocError, Global};

/// Takes INSERT, INSERT IGNORE or REPLACE. Want of memory leaves the database as it was.
pub(crate) fn insert_rows(
    alloc: Global,
    db: &mut Db,
    mode: InsertMode,
    new: &NewRows,
) -> Result<Reply, AllocError>
    requires { IsSound db.old }
    ensures reply { IfOk result (λ reply. reply ≡ reply_of (insert_rows mode db.old new.now)) }
    ensures after { OnOk result (db.new ≡ db_behind db.old (insert_rows mode db.old new.now)) }
    ensures err { OnErr result (db.new ≡ db.old) }
    ensures sound { IsSound db.new }
{
    match inserted(alloc, db, mode, new) {
        Ok(filling) => keep(alloc, db, mode, &new.table, filling),
        Err(CellsFault::Refused(refusal)) => refusal_reply(alloc, refusal),
        Err(CellsFault::NoMemory) => Err(AllocError),
    }
}

/// The rows of the table with those that the statement inserts.
fn inserted(alloc: Global, db: &Db, mode: InsertMode, new: &NewRows) -> Result<Filling, CellsFault>
    requires { IsSound db.now }
    ensures filled { Gives (inserted mode db.now new.now) result }
    ensures sound { IfOk result (λ filling. IsSound (filled db.now new.now.table filling.rows filling.next)) }
{
    let Some(table) = table_of(db, &new.table) else {
        return Err(CellsFault::Refused(Refusal::NoSuchTable(new.table)));
    };
    if let Some(refusal) = bad_parts(&table.def, &new.table, &new.parts) {
        return Err(CellsFault::Refused(refusal));
    }
    if let Some(refusal) = bad_columns(&table.def, &new.columns) {
        return Err(CellsFault::Refused(refusal));
    }
    let targets = targets(alloc, &table.def, &new.columns)?;
    let filling = Filling {
        rows: copy_rows(alloc, table.rows.items())?,
        next: db.next,
        added: 0,
        skipped: 0,
        deleted: 0,
    };
    let rows = new.rows.items();
    fill(alloc, mode, &table.def, new, rows, &targets, filling)
}

pub(crate) fn copy_rows(alloc: Global, rows: &[Row]) -> Result<Rows, AllocError>
    ensures { IfOk result (λ copied. copied ≡ rows.now) }
{
    let mut copied = Rows::new(alloc);
    for row in rows {
        copied.push(row.copy(alloc)?)?;
    }
    Ok(copied)
}

/// Keeps the rows, and answers how many were inserted, and how many were passed over or deleted. Want of memory leaves the database as it was.
fn keep(
    alloc: Global,
    db: &mut Db,
    mode: InsertMode,
    name: &Ident,
    filling: Filling,
) -> Result<Reply, AllocError>
    requires old { IsSound db.old }
    requires new { IsSound (filled db.old name.now filling.rows filling.next) }
    ensures reply { IfOk result (λ reply. reply ≡ reply_of (with_filled mode db.old name.now filling)) }
    ensures after { OnOk result (db.new ≡ db_behind db.old (with_filled mode db.old name.now filling)) }
    ensures err { OnErr result (db.new ≡ db.old) }
    ensures sound { IsSound db.new }
{
    let reply = filled_reply(alloc, mode, &filling)?;
    let Filling { rows, next, .. } = filling;
    replace_rows(alloc, db, name, rows, next);
    Ok(reply)
}

/// Answers how many rows were inserted, and for IGNORE how many were passed over, for REPLACE how many were deleted.
fn filled_reply(alloc: Global, mode: InsertMode, filling: &Filling) -> Result<Reply, AllocError>
    ensures { IfOk result (λ reply. reply ≡ answered (filled_text mode filling.now)) }
{
    match mode {
        InsertMode::Refuse => count_reply(alloc, filling.added),
        InsertMode::Skip => counts_reply(alloc, filling.added, filling.skipped),
        InsertMode::Replace => counts_reply(alloc, filling.added, filling.deleted),
    }
}

/// What INSERT does with a row that can't stand: with IGNORE it is passed over.
pub(crate) fn insert_mode(ignore: bool) -> InsertMode
    ensures { result ≡ insert_mode ignore }
{
    if ignore {
        InsertMode::Skip
    } else {
        InsertMode::Refuse
    }
}
