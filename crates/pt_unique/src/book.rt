ghost use Rattle.std.specs.Prelude.{◌≡◌, ◌≢◌, ◌↔◌, ℕ, [], None, Some, if◌then◌else◌, IsTrue, IfOk, IfErr, OnOk, OnErr};
ghost use Rattle.std.specs.Ordering.{nat_cmp};
ghost use Rattle.std.specs.Map.{remove_entry};
ghost use Rattle.std.specs.BTreeMap as tree;
ghost use Rattle.std.specs.BTreeMap.{insert_entry, is_at};
ghost use Rattle.indexmap.specs.IndexMap as hashed;
ghost use Rattle.pt_ast.specs.Bounds.{cells_at};
ghost use Rattle.pt_ast.specs.Keys.{unique_keys, is_unique};
ghost use Rattle.pt_unique.specs.Book.{Book, IsFree, entered, entry_at, entry_of, mark_eq, without};
ghost use Rattle.pt_unique.specs.Faults.{IsFaultOf};
ghost use Rattle.pt_unique.specs.Holders.{AreHolders};

use crate::fault::KeyFault;
use crate::holders::{Holders, Mark, hold, least_holder, let_go_of};
use crate::tuple::Tuple;
use indexmap::IndexMap;
use pt_ast::{ColumnNos, Rank, Row, TableDef};
use pt_plain::List;
use pt_value::Value;
use std::alloc::{AllocError, Global};
use std::collections::BTreeMap;
use std::marker::Model;

/// Rows by the values of their unique keys. Contracts see a `Book`.
#[derive(Drop)]
pub struct KeyBook {
    alloc: Global,
    keys: List<ColumnNos>,
    entries: BTreeMap<u64, List<Mark>>,
    holders: Holders,
}

impl Model for KeyBook {
    ghost use Rattle.std.specs.Ordering.{nat_cmp};
    ghost use Rattle.std.specs.BTreeMap as tree;
    ghost use Rattle.indexmap.specs.IndexMap as hashed;
    ghost use Rattle.pt_unique.specs.Book.{Book, mark_eq};
    ghost use Rattle.pt_unique.specs.Holders.{AreHolders};

    ghost Value = { Book };

    ghost view = { λ book. record { keys = book.keys; entries = book.entries.entries } };

    ghost invariant = { λ book. AreHolders (λ serial. tree.get nat_cmp book.entries serial) (λ mark. hashed.get mark_eq book.holders mark) };
}

impl KeyBook {
    /// A book of the definition's unique keys, without rows.
    pub fn new(alloc: Global, def: &TableDef) -> Result<KeyBook, AllocError>
        ensures keys { IfOk result (λ book. book.keys ≡ unique_keys def.now) }
        ensures entries { IfOk result (λ book. book.entries ≡ []) }
    {
        let keys = keys_of(alloc, def)?;
        Ok(KeyBook {
            alloc,
            keys,
            entries: BTreeMap::new(alloc),
            holders: IndexMap::new(alloc),
        })
    }

    /// Adds the row, unless a row of the book agrees with it on a unique key.
    pub fn enter(&mut self, row: &Row) -> Result<(), KeyFault>
        ensures ok { OnOk result (self.new ≡ entered self.old row.now) }
        ensures free { OnOk result (IsFree self.old (entry_of self.old.keys row.now.cells)) }
        ensures fault { IfErr result (IsFaultOf self.old (entry_of self.old.keys row.now.cells)) }
        ensures err { OnErr result (self.new ≡ self.old) }
    {
        enter_row(
            self.alloc,
            self.keys.items(),
            &mut self.entries,
            &mut self.holders,
            row,
        )
    }

    /// Takes the row out where it is in the book: where the row of its serial has the same cells in the columns of the unique
    /// keys. Else nothing changes. It takes no memory.
    pub fn leave(&mut self, row: &Row)
        ensures there { entry_at self.old row.now.serial ≡ Some (entry_of self.old.keys row.now.cells) → self.new ≡ without self.old row.now.serial }
        ensures other { entry_at self.old row.now.serial ≢ Some (entry_of self.old.keys row.now.cells) → self.new ≡ self.old }
    {
        leave_row(self.keys.items(), &mut self.entries, &mut self.holders, row)
    }

    /// Takes the row of that serial out, where the book has one. It takes no memory.
    pub fn remove(&mut self, serial: u64)
        ensures is { self.new ≡ without self.old serial }
        ensures at { (other : ℕ) → entry_at self.new other ≡ (if is_at (nat_cmp serial) other then None else entry_at self.old other) }
    {
        remove_row(&mut self.entries, &mut self.holders, serial)
    }
}

/// The columns of the unique keys.
fn keys_of(alloc: Global, def: &TableDef) -> Result<List<ColumnNos>, AllocError>
    ensures { IfOk result (λ keys. keys ≡ unique_keys def.now) }
{
    let mut keys = List::new(alloc);
    for key in def.keys.items() {
        if is_unique(key.rank) {
            keys.push(ColumnNos::from_slice(alloc, key.columns.items())?)?;
        }
    }
    Ok(keys)
}

fn is_unique(rank: Rank) -> bool
    ensures { result ≡ is_unique rank }
{
    match rank {
        Rank::Primary | Rank::Unique => true,
        Rank::Plain => false,
    }
}

/// The entry of a row with these cells.
fn entry_of(alloc: Global, keys: &[ColumnNos], cells: &[Value]) -> Result<List<Mark>, AllocError>
    ensures { IfOk result (λ entry. entry ≡ entry_of keys.now cells.now) }
{
    let mut entry = List::new(alloc);
    for (number, key) in keys.iter().enumerate() {
        let tuple = Tuple::of(alloc, cells, key.items())?;
        entry.push((number, tuple))?;
    }
    Ok(entry)
}

/// Whether this is the entry of a row with these cells. It takes no memory.
fn is_entry_of(entry: &[Mark], keys: &[ColumnNos], cells: &[Value]) -> bool
    ensures { IsTrue result ↔ (entry.now ≡ entry_of keys.now cells.now) }
{
    if entry.len() != keys.len() {
        return false;
    }
    for (number, key) in keys.iter().enumerate() {
        if !is_mark_of(&entry[number], number, key, cells) {
            return false;
        }
    }
    true
}

fn is_mark_of(mark: &Mark, number: usize, key: &ColumnNos, cells: &[Value]) -> bool
    ensures { IsTrue result ↔ (mark.now ≡ (number, cells_at cells.now key.now)) }
{
    mark.0 == number && mark.1.is_of(cells, key.items())
}

fn enter_row(
    alloc: Global,
    keys: &[ColumnNos],
    entries: &mut BTreeMap<u64, List<Mark>>,
    holders: &mut Holders,
    row: &Row,
) -> Result<(), KeyFault>
    requires { AreHolders (λ serial. tree.get nat_cmp entries.old serial) (λ mark. hashed.get mark_eq holders.old mark) }
    ensures holders { AreHolders (λ serial. tree.get nat_cmp entries.new serial) (λ mark. hashed.get mark_eq holders.new mark) }
    ensures ok { OnOk result (entries.new.entries ≡ insert_entry nat_cmp entries.old.entries row.now.serial (entry_of keys.now row.now.cells)) }
    ensures free { OnOk result (IsFree (record { keys = keys.now; entries = entries.old.entries }) (entry_of keys.now row.now.cells)) }
    ensures fault { IfErr result (IsFaultOf (record { keys = keys.now; entries = entries.old.entries }) (entry_of keys.now row.now.cells)) }
    ensures err { OnErr result (entries.new.entries ≡ entries.old.entries) }
{
    let entry = entry_of(alloc, keys, row.cells.items())?;
    if let Some(serial) = least_holder(holders, entry.items()) {
        return Err(KeyFault::Taken { serial });
    }
    let marks = entry_of(alloc, keys, row.cells.items())?;
    holders.reserve(marks.items().len())?;
    let before = put_entry(entries, row.serial, entry)?;
    let_go_of(holders, &before);
    hold(holders, marks.into_vec(), row.serial);
    Ok(())
}

/// Puts an entry, and gives back that which the serial had.
fn put_entry(
    entries: &mut BTreeMap<u64, List<Mark>>,
    serial: u64,
    entry: List<Mark>,
) -> Result<Option<List<Mark>>, AllocError>
    ensures before { IfOk result (λ before. before ≡ tree.get nat_cmp entries.old serial) }
    ensures ok { OnOk result (entries.new.entries ≡ insert_entry nat_cmp entries.old.entries serial entry) }
    ensures at { OnOk result ((other : ℕ) → tree.get nat_cmp entries.new other ≡ (if is_at (nat_cmp serial) other then Some entry else tree.get nat_cmp entries.old other)) }
    ensures err { OnErr result (entries.new.entries ≡ entries.old.entries) }
{
    Ok(entries.insert(serial, entry)?)
}

fn leave_row(
    keys: &[ColumnNos],
    entries: &mut BTreeMap<u64, List<Mark>>,
    holders: &mut Holders,
    row: &Row,
)
    requires { AreHolders (λ serial. tree.get nat_cmp entries.old serial) (λ mark. hashed.get mark_eq holders.old mark) }
    ensures holders { AreHolders (λ serial. tree.get nat_cmp entries.new serial) (λ mark. hashed.get mark_eq holders.new mark) }
    ensures there { tree.get nat_cmp entries.old row.now.serial ≡ Some (entry_of keys.now row.now.cells) → entries.new.entries ≡ remove_entry (is_at (nat_cmp row.now.serial)) entries.old.entries }
    ensures other { tree.get nat_cmp entries.old row.now.serial ≢ Some (entry_of keys.now row.now.cells) → entries.new.entries ≡ entries.old.entries }
{
    if !has_row(keys, entries, row) {
        return;
    }
    remove_row(entries, holders, row.serial);
}

fn remove_row(entries: &mut BTreeMap<u64, List<Mark>>, holders: &mut Holders, serial: u64)
    requires { AreHolders (λ serial. tree.get nat_cmp entries.old serial) (λ mark. hashed.get mark_eq holders.old mark) }
    ensures holders { AreHolders (λ serial. tree.get nat_cmp entries.new serial) (λ mark. hashed.get mark_eq holders.new mark) }
    ensures entries { entries.new.entries ≡ remove_entry (is_at (nat_cmp serial)) entries.old.entries }
    ensures at { (other : ℕ) → tree.get nat_cmp entries.new other ≡ (if is_at (nat_cmp serial) other then None else tree.get nat_cmp entries.old other) }
{
    let before = entries.remove(&serial);
    let_go_of(holders, &before);
}

/// Whether the row is in the book.
fn has_row(keys: &[ColumnNos], entries: &BTreeMap<u64, List<Mark>>, row: &Row) -> bool
    ensures { IsTrue result ↔ (tree.get nat_cmp entries.now row.now.serial ≡ Some (entry_of keys.now row.now.cells)) }
{
    match entries.get(&row.serial) {
        Some(entry) => is_entry_of(entry.items(), keys, row.cells.items()),
        None => false,
    }
}
