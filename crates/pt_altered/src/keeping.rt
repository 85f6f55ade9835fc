ghost use Rattle.std.specs.Prelude.{◌≡◌, [], None, All, OnOk, OnErr, IfOk};
ghost use Rattle.pt_ast.specs.declared.database.Row.{Row};
ghost use Rattle.pt_expr.specs.Columns.{AreFitting};
ghost use Rattle.pt_place.specs.Valid.{IsValid};
ghost use Rattle.pt_ast.specs.Rising.{NamesRise};
ghost use Rattle.pt_db.specs.Lookup.{with_both};
ghost use Rattle.pt_db.specs.Outcome.{db_behind, refused_by, reply_of};
ghost use Rattle.pt_db.specs.Sound.{IsSound};
ghost use Rattle.pt_altered.specs.Altered.{unplaced, with_altered};
ghost use Rattle.pt_altered.specs.Kept.{IsKeptOf};

use crate::rows::unplaced;
use pt_ast::{Db, Reply, Rows, Table, TableDef, Tables};
use pt_db::{ok_reply, refusal_reply, table_place};
use pt_value::Ident;
use std::alloc::{AllocError, Global};
use std::mem::{drop, replace};

/// Keeps what an action made of a table, and answers `ok`. Want of memory leaves the database as it was.
pub(crate) fn keep(
    alloc: Global,
    db: &mut Db,
    name: &Ident,
    def: TableDef,
    rows: Rows,
) -> Result<Reply, AllocError>
    ensures reply { IfOk result (λ reply. reply ≡ reply_of (with_altered db.old name.now def rows)) }
    ensures after { OnOk result (db.new ≡ db_behind db.old (with_altered db.old name.now def rows)) }
    ensures err { OnErr result (db.new ≡ db.old) }
    ensures sound { IsSound db.old → IsKeptOf db.old name.now def rows → IsSound db.new }
{
    let reply = ok_reply(alloc)?;
    replace_both(alloc, db, name, def, rows);
    Ok(reply)
}

/// Keeps it where each row that is asked has a place, and else tells the first that has none.
pub(crate) fn keep_placed(
    alloc: Global,
    db: &mut Db,
    name: &Ident,
    def: TableDef,
    asked: Rows,
    rows: Rows,
) -> Result<Reply, AllocError>
    requires valid { IsValid def }
    requires fitting { All (λ (row : Row). AreFitting def.columns row.cells) asked }
    ensures reply { IfOk result (λ reply. reply ≡ reply_of (refused_by (unplaced def asked) (with_altered db.old name.now def rows))) }
    ensures after { OnOk result (db.new ≡ db_behind db.old (refused_by (unplaced def asked) (with_altered db.old name.now def rows))) }
    ensures err { OnErr result (db.new ≡ db.old) }
    ensures sound { IsSound db.old → (unplaced def asked ≡ None → IsKeptOf db.old name.now def rows) → IsSound db.new }
{
    match unplaced(&def, asked.items()) {
        Some(refusal) => refusal_reply(alloc, refusal),
        None => keep(alloc, db, name, def, rows),
    }
}

/// Puts this definition and these rows in place of those of the table of this name, if it is there.
fn replace_both(alloc: Global, db: &mut Db, name: &Ident, def: TableDef, rows: Rows)
    ensures { db.new ≡ record { tables = with_both name.now def rows db.old.tables; next = db.old.next } }
{
    let mut tables = take_tables(alloc, db);
    put_both(&mut tables, name, def, rows);
    put_tables(db, tables);
}

fn take_tables(alloc: Global, db: &mut Db) -> Vec<Table>
    ensures value { result.items ≡ db.old.tables }
    ensures rising { NamesRise db.old.tables }
    ensures left { db.new ≡ record { tables = []; next = db.old.next } }
{
    replace(&mut db.tables, Tables::of(Vec::new(alloc))).into_vec()
}

fn put_tables(db: &mut Db, tables: Vec<Table>)
    requires { NamesRise tables.items }
    ensures { db.new ≡ record { tables = tables.items; next = db.old.next } }
{
    drop(replace(&mut db.tables, Tables::of(tables)));
}

fn put_both(tables: &mut Vec<Table>, name: &Ident, def: TableDef, rows: Rows)
    requires { NamesRise tables.old.items }
    ensures value { tables.new.items ≡ with_both name.now def rows tables.old.items }
    ensures rises { NamesRise tables.new.items }
{
    match table_place(tables, name) {
        Ok(place) => put_into(&mut tables[place], def, rows),
        Err(_) => {
            drop(def);
            drop(rows);
        }
    }
}

/// Puts this definition and these rows into a table.
fn put_into(table: &mut Table, def: TableDef, rows: Rows)
    ensures { table.new ≡ record table.old { def = def; rows = rows } }
{
    drop(replace(&mut table.def, def));
    drop(replace(&mut table.rows, rows));
}
