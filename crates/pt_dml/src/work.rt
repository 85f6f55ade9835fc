//! What an INSERT or a REPLACE has come to so far.
ghost use Rattle.std.specs.Prelude.{◌≡◌, ◌+◌, ◌≤◌, ◌^◌, ◌==◌, not, [], length, filter, OnOk, IsSome};
ghost use Rattle.std.specs.BTreeMap.{IsEmpty};
ghost use Rattle.pt_ast.specs.declared.database.Row.{Row as AnyRow};
ghost use Rattle.pt_ast.specs.declared.database.Spot.{Spot as AnySpot};
ghost use Rattle.pt_books.specs.Books.{book_at};
ghost use Rattle.pt_dml.specs.Work.{GivesWay, Puts, added_of, deleted_of};

use pt_ast::{Refusal, Row, Spot};
use pt_books::{Books, remove};
use pt_checks::CellsFault;
use pt_plain::List;
use std::alloc::{AllocError, Global};
use std::collections::BTreeMap;
use std::mem::replace;

/// Every serial is below it.
const SERIALS_END: u64 = 1 << 62;

/// Rows with their spots.
pub type Puts = List<(Spot, Row)>;

/// A statement so far.
#[derive(Drop)]
pub struct Work {
    /// The books of the spots that it has read.
    pub books: Books,
    /// The rows of the table that go.
    pub deletes: List<(Spot, u64)>,
    /// The rows that come.
    pub puts: Puts,
    /// The serial that the first new row took.
    pub first: u64,
    /// The serial that the next new row takes.
    pub next: u64,
    /// How many rows were passed over.
    pub skipped: u64,
}

impl Work {
    /// Nothing yet.
    pub(crate) fn new(alloc: Global, next: u64) -> Work
        ensures books { IsEmpty result.books }
        ensures deletes { result.deletes ≡ [] }
        ensures puts { result.puts ≡ [] }
        ensures first { result.first ≡ next }
        ensures next { result.next ≡ next }
        ensures skipped { result.skipped ≡ 0 }
    {
        Work {
            books: BTreeMap::new(alloc),
            deletes: List::new(alloc),
            puts: List::new(alloc),
            first: next,
            next,
            skipped: 0,
        }
    }

    /// How many rows were added.
    pub(crate) fn added(&self) -> u64
        requires { self.now.first ≤ self.now.next }
        ensures { result ≡ added_of self.now }
    {
        self.next - self.first
    }

    /// How many rows went, of the table and of those that were added.
    pub(crate) fn deleted(&self) -> u64
        requires counted { self.now.first + length self.now.puts ≤ self.now.next }
        requires most { self.now.next ≤ 2 ^ 62 }
        ensures { result ≡ deleted_of self.now }
    {
        self.deletes.items().len() as u64 + (self.added() - self.puts.items().len() as u64)
    }
}

/// Puts the row of this number, and counts its serial.
pub(crate) fn put_row(work: &mut Work, number: u64, spot: Spot, row: Row) -> Result<(), CellsFault>
    ensures { Puts work.old work.new spot number row result }
{
    if work.next >= SERIALS_END {
        return Err(CellsFault::Refused(Refusal::SerialsUsed(number)));
    }
    work.puts.push((spot, row))?;
    work.next += 1;
    Ok(())
}

/// Takes the row of this serial away, for a row that takes its place.
pub(crate) fn give_way(
    alloc: Global,
    work: &mut Work,
    spot: Spot,
    serial: u64,
) -> Result<(), AllocError>
    requires { IsSome (book_at work.old.books spot) }
    ensures { OnOk result (GivesWay work.old work.new spot serial) }
{
    remove(&mut work.books, spot, serial);
    if serial < work.first {
        work.deletes.push((spot, serial))?;
        return Ok(());
    }
    let puts = replace(&mut work.puts, List::new(alloc));
    work.puts = without_row(puts, serial);
    Ok(())
}

/// All but the row of this serial.
fn without_row(puts: Puts, serial: u64) -> Puts
    ensures { result ≡ filter (λ (put : AnySpot × AnyRow). not (put.1.serial == serial)) puts }
{
    let mut left = puts.into_vec();
    left.retain(|put| put.1.serial != serial);
    List::of(left)
}
