//! The key books of the spots that a statement has read.
ghost use Rattle.std.specs.Prelude.{◌≡◌, Some, IfOk, OnOk, IsSome};
ghost use Rattle.std.specs.Option.{is_some};
ghost use Rattle.pt_ast.specs.Keys.{AreUnique, is_unique};
ghost use Rattle.pt_db.specs.Rows.{AreRising};
ghost use Rattle.pt_unique.specs.Book.{IsFree, entered, entry_of};
ghost use Rattle.pt_books.specs.Books.{AreOthersSame, Enters, IsBookOf, IsRemoved, book_at, is_keyed};

use pt_ast::{KeyDef, Rank, Row, Spot, TableDef};
use pt_unique::{KeyBook, KeyFault};
use std::alloc::{AllocError, Global};
use std::collections::BTreeMap;

/// Key books by the numbers of the partition and the subpartition of their spots.
pub type Books = BTreeMap<(u32, u32), KeyBook>;

/// Whether the table has a unique key.
pub fn is_keyed(def: &TableDef) -> bool
    ensures { result ≡ is_keyed def.now }
{
    def.keys.items().iter().any(|key| is_unique(key))
}

fn is_unique(key: &KeyDef) -> bool
    ensures { result ≡ is_unique key.now.rank }
{
    match key.rank {
        Rank::Primary | Rank::Unique => true,
        Rank::Plain => false,
    }
}

/// The book of these rows. Where some agree on a unique key, it has the first of them.
pub(crate) fn book_of(alloc: Global, def: &TableDef, rows: &[Row]) -> Result<KeyBook, AllocError>
    ensures { IfOk result (λ book. AreUnique def.now rows.now → AreRising rows.now → IsBookOf def.now rows.now book) }
{
    let mut book = KeyBook::new(alloc, def)?;
    for row in rows {
        enter_read(&mut book, row)?;
    }
    Ok(book)
}

/// Enters a row that was read, unless one of the book agrees with it.
fn enter_read(book: &mut KeyBook, row: &Row) -> Result<(), AllocError>
    ensures { OnOk result (IsFree book.old (entry_of book.old.keys row.now.cells) → book.new ≡ entered book.old row.now) }
{
    match book.enter(row) {
        Ok(()) => Ok(()),
        Err(KeyFault::Taken { serial: _ }) => Ok(()),
        Err(KeyFault::NoMemory) => Err(AllocError),
    }
}

/// Whether the spot has a book.
pub fn has_book(books: &Books, spot: Spot) -> bool
    ensures { result ≡ is_some (book_at books.now spot) }
{
    books.contains_key(&(spot.part, spot.sub))
}

/// Gives the spot this book.
pub(crate) fn put_book(books: &mut Books, spot: Spot, book: KeyBook) -> Result<(), AllocError>
    ensures here { OnOk result (book_at books.new spot ≡ Some book) }
    ensures others { OnOk result (AreOthersSame books.old books.new spot) }
{
    books.insert((spot.part, spot.sub), book)?;
    Ok(())
}

/// Enters a row in the book of its spot. `Some` exactly where a row of the book agrees with it: the least serial of such rows. Want of
/// memory changes no book.
pub fn enter(books: &mut Books, spot: Spot, row: &Row) -> Result<Option<u64>, AllocError>
    requires { IsSome (book_at books.old spot) }
    ensures { Enters books.old books.new spot row.now result }
{
    let Some(book) = books.get_mut(&(spot.part, spot.sub)) else {
        unreachable!();
    };
    match book.enter(row) {
        Ok(()) => Ok(None),
        Err(KeyFault::Taken { serial }) => Ok(Some(serial)),
        Err(KeyFault::NoMemory) => Err(AllocError),
    }
}

/// Takes the row of this serial out of the book of the spot, where the book has it.
pub fn remove(books: &mut Books, spot: Spot, serial: u64)
    requires { IsSome (book_at books.old spot) }
    ensures { IsRemoved books.old books.new spot serial }
{
    let Some(book) = books.get_mut(&(spot.part, spot.sub)) else {
        unreachable!();
    };
    book.remove(serial);
}
