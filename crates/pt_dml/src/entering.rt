//! A new row beside the rows so far.
ghost use Rattle.std.specs.Prelude.{◌≡◌, ◌+◌, ◌<◌, ℕ, List, true, OnOk, IsSome};
ghost use Rattle.pt_ast.specs.declared.database.Row.{Row as AnyRow};
ghost use Rattle.pt_ast.specs.declared.table.TableDef.{TableDef as AnyDef};
ghost use Rattle.pt_place.specs.Valid.{IsValid};
ghost use Rattle.pt_db.specs.Spots.{IsSpotOf};
ghost use Rattle.pt_flat.specs.declared.filling.InsertMode.TheVariants as mode;
ghost use Rattle.pt_books.specs.Books.{book_at, is_keyed};
ghost use Rattle.pt_dml.specs.Parts.{IsPlaced, with_row};
ghost use Rattle.pt_dml.specs.Work.{Adds, Enters, IsReady, IsSameWork, IsTried, IsWork, IsWorkBehind, IsWorkOn, PassesOver, filling_of};

use crate::work::{Work, give_way, put_row};
use pt_ast::{Cells, Refusal, Row, Spot, TableDef};
use pt_books::{Books, enter, is_keyed};
use pt_checks::CellsFault;
use pt_flat::InsertMode;
use std::alloc::{AllocError, Global};

/// Adds the row of this number, which takes the next serial. Where a row of its spot agrees with it, it is refused, passed over, or takes
/// the place of that row; it is refused where serials are used up.
pub(crate) fn add_row(
    alloc: Global,
    mode: InsertMode,
    def: &TableDef,
    number: u64,
    spot: Spot,
    cells: Cells,
    work: &mut Work,
) -> Result<(), CellsFault>
    requires valid { IsValid def.now }
    requires placed { IsPlaced def.now spot cells }
    requires there { is_keyed def.now ≡ true → IsSome (book_at work.old.books spot) }
    requires work { IsWork def.now number work.old }
    ensures adds { (before : List AnyRow) → IsWorkOn def.now before work.old → Adds def.now before (with_row mode def.now number (filling_of before work.old) cells) work.new result }
    ensures work { OnOk result (IsWorkBehind def.now (number + 1) work.old work.new) }
{
    let row = Row {
        serial: work.next,
        cells,
    };
    if !enter_row(alloc, mode, def, spot, &row, work)? {
        return pass_over(mode, number, work);
    }
    put_row(work, number, spot, row)
}

/// Passes over the row of this number, with which another one agrees, or refuses it.
fn pass_over(mode: InsertMode, number: u64, work: &mut Work) -> Result<(), CellsFault>
    requires { work.old.skipped < number }
    ensures { PassesOver mode work.old work.new number result }
{
    match mode {
        InsertMode::Skip => {
            work.skipped += 1;
            Ok(())
        }
        InsertMode::Refuse => Err(CellsFault::Refused(Refusal::DuplicateKey(number))),
        InsertMode::Replace => Err(CellsFault::Refused(Refusal::DuplicateKey(number))),
    }
}

/// Makes a row ready to be put. `false` where a row of its spot agrees with it, which REPLACE takes away.
fn enter_row(
    alloc: Global,
    mode: InsertMode,
    def: &TableDef,
    spot: Spot,
    row: &Row,
    work: &mut Work,
) -> Result<bool, AllocError>
    requires valid { IsValid def.now }
    requires placed { IsPlaced def.now spot row.now.cells }
    requires there { is_keyed def.now ≡ true → IsSome (book_at work.old.books spot) }
    requires serial { row.now.serial ≡ work.old.next }
    ensures enters { (before : List AnyRow) (number : ℕ) → IsWork def.now number work.old → IsWorkOn def.now before work.old → Enters mode def.now before work.old work.new row.now result }
    ensures work { OnOk result ((number : ℕ) → IsWork def.now number work.old → IsWork def.now number work.new) }
    ensures same { OnOk result (IsSameWork work.old work.new) }
{
    if !is_keyed(def) {
        return Ok(true);
    }
    match mode {
        InsertMode::Refuse => enter_free(spot, row, &mut work.books),
        InsertMode::Skip => enter_free(spot, row, &mut work.books),
        InsertMode::Replace => {
            enter_alone(alloc, spot, row, work)?;
            Ok(true)
        }
    }
}

/// Enters a row in the book of its spot. `false` where one agrees with it.
fn enter_free(spot: Spot, row: &Row, books: &mut Books) -> Result<bool, AllocError>
    requires { IsSome (book_at books.old spot) }
    ensures { IsTried books.old books.new spot row.now result }
{
    match enter(books, spot, row)? {
        None => Ok(true),
        Some(_) => Ok(false),
    }
}

/// Enters a row in the book of its spot. The rows that agree with it go first, one after the other.
fn enter_alone(alloc: Global, spot: Spot, row: &Row, work: &mut Work) -> Result<(), AllocError>
    requires { IsSome (book_at work.old.books spot) }
    ensures ready { OnOk result ((def : AnyDef) (before : List AnyRow) → IsValid def → IsPlaced def spot row.now.cells → is_keyed def ≡ true → row.now.serial ≡ work.old.next → (number : ℕ) → IsWork def number work.old → IsWorkOn def before work.old → IsReady mode.Replace def before work.old work.new row.now) }
    ensures work { OnOk result ((def : AnyDef) (number : ℕ) → IsSpotOf def spot → IsWork def number work.old → IsWork def number work.new) }
    ensures same { OnOk result (IsSameWork work.old work.new) }
{
    while let Some(serial) = enter(&mut work.books, spot, row)? {
        give_way(alloc, work, spot, serial)?;
    }
    Ok(())
}
