//! What an UPDATE has come to so far, and one row more.
ghost use Rattle.std.specs.Prelude.{◌≡◌, ℕ, [], true, false, IfOk, IsSome};
ghost use Rattle.std.specs.BTreeMap.{IsEmpty};
ghost use Rattle.pt_books.specs.Books.{IsRemoved, book_at, is_keyed};
ghost use Rattle.pt_update.specs.Work.{Adds, EntersFree};

use pt_ast::{Refusal, Row, Spot, TableDef};
use pt_books::{Books, enter, is_keyed, remove};
use pt_checks::CellsFault;
use pt_plain::List;
use std::alloc::{AllocError, Global};
use std::collections::BTreeMap;

/// An UPDATE so far: the books of the spots that it has read, the spots and serials of the rows that go, and the rows that come.
#[derive(Drop)]
pub struct Work {
    pub books: Books,
    pub deletes: List<(Spot, u64)>,
    pub puts: List<(Spot, Row)>,
}

impl Work {
    /// Nothing yet.
    pub(crate) fn new(alloc: Global) -> Work
        ensures books { IsEmpty result.books }
        ensures deletes { result.deletes ≡ [] }
        ensures puts { result.puts ≡ [] }
    {
        Work {
            books: BTreeMap::new(alloc),
            deletes: List::new(alloc),
            puts: List::new(alloc),
        }
    }
}

/// Moves the row of this number from a spot, out of whose book it was taken, to that of its new cells. It is refused where a row of that
/// spot agrees with it.
pub(crate) fn add_moved(
    def: &TableDef,
    number: u64,
    from: Spot,
    to: Spot,
    row: Row,
    work: &mut Work,
) -> Result<(), CellsFault>
    requires there { is_keyed def.now ≡ true → IsSome (book_at work.old.books to) }
    ensures { Adds def.now work.old work.new from to number row result }
{
    let free = enter_keyed(def, to, &row, &mut work.books)?;
    if !free {
        return Err(CellsFault::Refused(Refusal::DuplicateKey(number)));
    }
    work.deletes.push((from, row.serial))?;
    work.puts.push((to, row))?;
    Ok(())
}

/// Enters a row in the book of its spot, where the table has a unique key. `false` exactly where a row of the spot agrees with it.
fn enter_keyed(def: &TableDef, spot: Spot, row: &Row, books: &mut Books) -> Result<bool, AllocError>
    requires { is_keyed def.now ≡ true → IsSome (book_at books.old spot) }
    ensures keyed { is_keyed def.now ≡ true → EntersFree books.old books.new spot row.now result }
    ensures keyless { is_keyed def.now ≡ false → IfOk result (λ free. free ≡ true) }
{
    if !is_keyed(def) {
        return Ok(true);
    }
    let agreeing = enter(books, spot, row)?;
    Ok(agreeing.is_none())
}

/// Takes the row of this serial out of the book of its spot, where the table has a unique key.
pub(crate) fn remove_keyed(def: &TableDef, spot: Spot, serial: u64, books: &mut Books)
    requires { is_keyed def.now ≡ true → IsSome (book_at books.old spot) }
    ensures { is_keyed def.now ≡ true → IsRemoved books.old books.new spot serial }
{
    if is_keyed(def) {
        remove(books, spot, serial);
    }
}
