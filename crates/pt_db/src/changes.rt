ghost use Rattle.std.specs.Prelude.{◌≡◌, [], OnErr, OnOk, None};
ghost use Rattle.pt_ast.specs.Rising.{NamesRise};
ghost use Rattle.pt_db.specs.Lookup.{IsPlaceFor, added_to, empty_db, filled, removed_from, table_in, table_of, with_rows, with_table, without_table};

use crate::lookup::table_place;
use pt_ast::{Db, Rows, Table, Tables};
use pt_value::Ident;
use std::alloc::{AllocError, Global};
use std::mem::{drop, replace};

/// The database with no table. It takes no memory.
pub fn empty_db(alloc: Global) -> Db
    ensures { result ≡ empty_db }
{
    Db {
        tables: no_tables(alloc),
        next: 1,
    }
}

/// Puts a new table in its place. Want of memory leaves the database as it was.
pub fn add_table(alloc: Global, db: &mut Db, table: Table) -> Result<(), AllocError>
    requires { table_of db.old table.name ≡ None }
    ensures ok { OnOk result (db.new ≡ added_to db.old table) }
    ensures err { OnErr result (db.new ≡ db.old) }
{
    let mut tables = take_tables(alloc, db);
    let added = insert_table(&mut tables, table);
    put_tables(db, tables);
    added
}

/// Takes the table of this name away, if it is there. It takes no memory.
pub fn remove_table(alloc: Global, db: &mut Db, name: &Ident)
    ensures { db.new ≡ removed_from db.old name.now }
{
    let mut tables = take_tables(alloc, db);
    drop_table(&mut tables, name);
    put_tables(db, tables);
}

/// Puts these rows in place of those of the table of this name, if it is there, and makes this the next serial. It takes no memory.
pub fn replace_rows(alloc: Global, db: &mut Db, name: &Ident, rows: Rows, next: u64)
    ensures { db.new ≡ filled db.old name.now rows next }
{
    let mut tables = take_tables(alloc, db);
    put_rows(&mut tables, name, rows);
    put_tables(db, tables);
    db.next = next;
}

fn no_tables(alloc: Global) -> Tables
    ensures { result ≡ [] }
{
    Tables::of(Vec::new(alloc))
}

/// Takes the tables out of a database, which has none then.
fn take_tables(alloc: Global, db: &mut Db) -> Vec<Table>
    ensures value { result.items ≡ db.old.tables }
    ensures rising { NamesRise db.old.tables }
    ensures left { db.new ≡ record { tables = []; next = db.old.next } }
{
    replace(&mut db.tables, no_tables(alloc)).into_vec()
}

/// Puts tables in place of those of a database.
fn put_tables(db: &mut Db, tables: Vec<Table>)
    requires { NamesRise tables.items }
    ensures { db.new ≡ record { tables = tables.items; next = db.old.next } }
{
    drop(replace(&mut db.tables, Tables::of(tables)));
}

/// Puts a new table in its place among these. Want of memory leaves them as they were.
fn insert_table(tables: &mut Vec<Table>, table: Table) -> Result<(), AllocError>
    requires rising { NamesRise tables.old.items }
    requires new { table_in tables.old.items table.name ≡ None }
    ensures ok { OnOk result (tables.new.items ≡ with_table table tables.old.items) }
    ensures err { OnErr result (tables.new.items ≡ tables.old.items) }
    ensures rises { NamesRise tables.new.items }
{
    let place = place_for(tables, &table.name);
    tables.insert(place, table)?;
    Ok(())
}

/// Where a new table of this name would stand.
fn place_for(tables: &[Table], name: &Ident) -> usize
    requires rising { NamesRise tables.now }
    requires new { table_in tables.now name.now ≡ None }
    ensures { IsPlaceFor tables.now name.now result }
{
    match table_place(tables, name) {
        Ok(place) => place,
        Err(place) => place,
    }
}

/// Takes the table of this name out of these, if it is there.
fn drop_table(tables: &mut Vec<Table>, name: &Ident)
    requires { NamesRise tables.old.items }
    ensures value { tables.new.items ≡ without_table name.now tables.old.items }
    ensures rises { NamesRise tables.new.items }
{
    match table_place(tables, name) {
        Ok(place) => drop(tables.remove(place)),
        Err(_) => (),
    }
}

/// Puts these rows in place of those of the table of this name, if it is there.
fn put_rows(tables: &mut Vec<Table>, name: &Ident, rows: Rows)
    requires { NamesRise tables.old.items }
    ensures value { tables.new.items ≡ with_rows name.now rows tables.old.items }
    ensures rises { NamesRise tables.new.items }
{
    match table_place(tables, name) {
        Ok(place) => drop(replace(&mut tables[place].rows, rows)),
        Err(_) => drop(rows),
    }
}
