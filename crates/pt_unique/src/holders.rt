ghost use Rattle.std.specs.Prelude.{◌≡◌, ◌+◌, ◌≤◌, ◌<◌, ◌&&◌, ℕ, List, Some, None, length, if◌then◌else◌};
ghost use Rattle.indexmap.specs.IndexMap.{get, spare};
ghost use Rattle.pt_value.specs.declared.value.Value.{Value};
ghost use Rattle.pt_unique.specs.Book.{is_whole, mark_eq};
ghost use Rattle.pt_unique.specs.Holders.{IsLeast, held_by, lesser, marks_of};

use crate::tuple::Tuple;
use indexmap::IndexMap;
use pt_plain::List;

/// The number of a key, and the cells of a row in its columns.
pub(crate) type Mark = (usize, Tuple);

/// The serials of rows by their cells in the columns of each key, where none of them is NULL.
pub(crate) type Holders = IndexMap<Mark, u64>;

/// The least serial that holds one of the marks, if any is held.
pub(crate) fn least_holder(holders: &Holders, marks: &[Mark]) -> Option<u64>
    ensures { IsLeast (λ mark. get mark_eq holders.now mark) marks.now result }
{
    let mut least = None;
    for mark in marks {
        least = lesser(least, holders.get(mark).copied());
    }
    least
}

/// The lesser of two serials.
fn lesser(a: Option<u64>, b: Option<u64>) -> Option<u64>
    ensures { result ≡ lesser a b }
{
    match (a, b) {
        (None, _) => b,
        (Some(_), None) => a,
        (Some(a), Some(b)) => Some(a.min(b)),
    }
}

/// Lets the serial hold the marks, where there is room for them. It takes no memory.
pub(crate) fn hold(holders: &mut Holders, marks: Vec<Mark>, serial: u64)
    requires { length marks.items ≤ spare holders.old }
    ensures { (mark : ℕ × List Value) → get mark_eq holders.new mark ≡ held_by marks.items (Some serial) (λ m. get mark_eq holders.old m) mark }
{
    let mut rest = marks;
    while let Some(mark) = rest.pop() {
        hold_one(holders, mark, serial);
    }
}

fn hold_one(holders: &mut Holders, mark: Mark, serial: u64)
    requires { 0 < spare holders.old }
    ensures held { (other : ℕ × List Value) → get mark_eq holders.new other ≡ (if is_whole mark.1 && mark_eq mark other then Some serial else get mark_eq holders.old other) }
    ensures room { spare holders.old ≤ spare holders.new + 1 }
{
    if !mark.1.is_whole() {
        return;
    }
    match holders.insert(mark, serial) {
        Ok(_) => {}
        Err(_) => unreachable!(),
    }
}

/// Lets go of the marks of an entry, if there is one. It takes no memory.
pub(crate) fn let_go_of(holders: &mut Holders, entry: &Option<List<Mark>>)
    ensures held { (mark : ℕ × List Value) → get mark_eq holders.new mark ≡ held_by (marks_of entry.now) None (λ m. get mark_eq holders.old m) mark }
    ensures room { spare holders.old ≤ spare holders.new }
{
    let Some(entry) = entry else {
        return;
    };
    let_go(holders, entry.items());
}

/// Lets go of the marks. It takes no memory.
fn let_go(holders: &mut Holders, marks: &[Mark])
    ensures held { (mark : ℕ × List Value) → get mark_eq holders.new mark ≡ held_by marks.now None (λ m. get mark_eq holders.old m) mark }
    ensures room { spare holders.old ≤ spare holders.new }
{
    for mark in marks {
        let_go_one(holders, mark);
    }
}

fn let_go_one(holders: &mut Holders, mark: &Mark)
    ensures held { (other : ℕ × List Value) → get mark_eq holders.new other ≡ (if is_whole mark.now.1 && mark_eq mark.now other then None else get mark_eq holders.old other) }
    ensures room { spare holders.old ≤ spare holders.new }
{
    if !mark.1.is_whole() {
        return;
    }
    let _ = holders.swap_remove(mark);
}
