//! The rows of a spot, read when a statement first comes to it.
ghost use Rattle.std.specs.Prelude.{◌≡◌, ◌&&◌, List, true, not, OnOk, IsSome, is_some};
ghost use Rattle.pt_host.specs.Listed.{FileList, by_name};
ghost use Rattle.pt_ast.specs.declared.database.Row.{Row as AnyRow};
ghost use Rattle.pt_ast.specs.Keys.{AreUnique};
ghost use Rattle.pt_checks.specs.Wanted.{is_named_spot};
ghost use Rattle.pt_store.specs.Step.{IsLook};
ghost use Rattle.pt_store.specs.Stops.{IfBad, IsCounted};
ghost use Rattle.pt_store.specs.Store.{IsStore};
ghost use Rattle.pt_db.specs.Rows.{AreRising};
ghost use Rattle.pt_db.specs.Spots.{IsSpotOf};
ghost use Rattle.pt_holds.specs.Bad.{Bad};
ghost use Rattle.pt_session.specs.HeldSpots.{HoldsSpots};
ghost use Rattle.pt_session.specs.Session.{HasMap, IsOpen, IsOver, def_of};
ghost use Rattle.pt_books.specs.Books.{AreBooks, book_at, is_keyed};

use crate::books::{Books, book_of, has_book, is_keyed, put_book};
use pt_ast::{Idents, Spot, TableDef};
use pt_host::Host;
use pt_place::in_set;
use pt_session::Session;
use pt_store::Stop;
use pt_value::Ident;

/// Whether the spot is one of the partitions that the statement names, if it names some.
pub fn is_named_spot(def: &TableDef, parts: &Option<Idents>, spot: Spot) -> bool
    ensures { result ≡ is_named_spot def.now parts.now spot }
{
    match parts {
        Some(names) => in_set(def, names.items(), spot),
        None => in_set(def, &[], spot),
    }
}

/// Reads the rows of a spot into a book, where the table has a unique key and the spot has no book yet.
pub fn load<H: Host>(
    session: &Session,
    host: &mut H,
    table: &Ident,
    def: &TableDef,
    spot: Spot,
    books: &mut Books,
) -> Result<(), Stop>
    requires open { IsOpen session.now }
    requires held { def_of session.now table.now ≡ Some def.now }
    requires spot { IsSpotOf def.now spot }
    requires stands { H.tells → HasMap session.now (H.world host.old) }
    ensures looks { H.tells → (map : FileList) → IsStore session.now.store map (H.world host.old) → IsLook session.now.store map (H.world host.old) (H.world host.new) }
    ensures there { OnOk result (is_keyed def.now ≡ true → IsSome (book_at books.new spot)) }
    ensures books { OnOk result (H.tells → (map : FileList) → IsStore session.now.store map (H.world host.old) → (before now : List AnyRow) → HoldsSpots (by_name map) table.now def.now before → AreUnique def.now now → AreRising now → AreBooks def.now before now books.old → AreBooks def.now before now books.new) }
    ensures bad { IfBad result (λ name place. H.tells → (map : FileList) → IsStore session.now.store map (H.world host.old) → IsOver session.now (by_name map) → Bad (by_name map) name place) }
    ensures counts { IsCounted (H.counts host.old) (H.counts host.new) result }
{
    if !is_wanting(def, spot, books) {
        return Ok(());
    }
    let rows = session.rows(host, table, spot)?;
    let book = book_of(session.alloc(), def, rows.items())?;
    put_book(books, spot, book)?;
    Ok(())
}

/// Whether the spot wants a book.
fn is_wanting(def: &TableDef, spot: Spot, books: &Books) -> bool
    ensures { result ≡ (is_keyed def.now && not (is_some (book_at books.now spot))) }
{
    is_keyed(def) && !has_book(books, spot)
}
