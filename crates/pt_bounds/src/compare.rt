ghost use Rattle.std.specs.Prelude.{◌≡◌, slice_get, slice_index_or};
ghost use Rattle.std.specs.Option.{option_map};
ghost use Rattle.pt_value.specs.Cell.{lent};
ghost use Rattle.pt_value.specs.Value.{rank, value_cmp};
ghost use Rattle.pt_value.specs.declared.value.Value.TheVariants.{Null};
ghost use Rattle.pt_ast.specs.Bounds.{bound_cmp, tuple_cmp, value_of};
ghost use Rattle.pt_bounds.specs.Sought.{items_of, probed, seen};

use crate::Probe;
use pt_ast::Bound;
use pt_value::{Cell, Value};
use std::cmp::Ordering;

/// What a tuple of bounds is compared with: a probe, or another tuple.
#[derive(Clone, Copy)]
pub(crate) enum Sought<'a> {
    Value(Option<i128>),
    Columns(&'a [Value], &'a [u32]),
    Tuple(&'a [Bound]),
}

/// A bound, lent, or the value of an expression.
#[derive(Clone, Copy)]
pub(crate) enum Item<'a> {
    Cell(Cell<'a>),
    Max,
}

impl<'a> Sought<'a> {
    /// The tuple of a probe.
    pub(crate) fn of(probe: &Probe<'a>) -> Sought<'a>
        ensures { items_of result ≡ probed probe.now }
    {
        match *probe {
            Probe::Value(value) => Sought::Value(value),
            Probe::Columns(cells, columns) => Sought::Columns(cells.items(), columns.items()),
        }
    }

    /// The item at this place, if there are so many.
    fn item(&self, at: usize) -> Option<Item<'a>>
        ensures { option_map seen result ≡ slice_get (items_of self.now) at }
    {
        match *self {
            Sought::Value(value) => {
                if at == 0 {
                    return Some(Item::Cell(value_cell(value)));
                }
                None
            }
            Sought::Columns(cells, columns) => {
                match columns.get(at) {
                    Some(column) => Some(Item::Cell(cell_at(cells, *column))),
                    None => None,
                }
            }
            Sought::Tuple(bounds) => {
                match bounds.get(at) {
                    Some(bound) => Some(bound_item(bound)),
                    None => None,
                }
            }
        }
    }
}

fn value_cell(value: Option<i128>) -> Cell<'static>
    ensures { lent result ≡ value_of value }
{
    match value {
        Some(number) => Cell::Wide(number),
        None => Cell::Null,
    }
}

/// The cell of a column, NULL where there is none.
fn cell_at(cells: &[Value], column: u32) -> Cell<'_>
    ensures { lent result ≡ slice_index_or cells.now column Null }
{
    match cells.get(column as usize) {
        Some(value) => value.cell(),
        None => Cell::Null,
    }
}

fn bound_item(bound: &Bound) -> Item<'_>
    ensures { seen result ≡ bound.now }
{
    match bound {
        Bound::Val(value) => Item::Cell(value.cell()),
        Bound::Max => Item::Max,
    }
}

/// How a tuple compares with another: at the first column in which they differ.
pub(crate) fn tuple_cmp(tuple: &[Bound], other: Sought) -> Ordering
    ensures { result ≡ tuple_cmp tuple.now (items_of other.entry) }
{
    for (at, bound) in tuple.iter().enumerate() {
        let Some(item) = other.item(at) else {
            return Ordering::Greater;
        };
        let order = bound_cmp(bound, item);
        if order.is_ne() {
            return order;
        }
    }
    match other.item(tuple.len()) {
        Some(_) => Ordering::Less,
        None => Ordering::Equal,
    }
}

fn bound_cmp(bound: &Bound, item: Item) -> Ordering
    ensures { result ≡ bound_cmp bound.now (seen item.entry) }
{
    match (bound, item) {
        (Bound::Val(value), Item::Cell(cell)) => cell_cmp(value.cell(), cell),
        (Bound::Val(_), Item::Max) => Ordering::Less,
        (Bound::Max, Item::Cell(_)) => Ordering::Greater,
        (Bound::Max, Item::Max) => Ordering::Equal,
    }
}

#[tactic(auto, unfolding(pt_value::specs::Value::value_cmp))]
fn cell_cmp(a: Cell, b: Cell) -> Ordering
    ensures { result ≡ value_cmp (lent a.entry) (lent b.entry) }
{
    match (a, b) {
        (Cell::Wide(a), Cell::Wide(b)) => a.cmp(&b),
        (Cell::Day(a), Cell::Day(b)) => a.cmp(&b),
        (Cell::Bytes(a), Cell::Bytes(b)) => a.cmp(b),
        _ => rank(a).cmp(&rank(b)),
    }
}

fn rank(cell: Cell) -> u8
    ensures { result ≡ rank (lent cell.entry) }
{
    match cell {
        Cell::Null => 0,
        Cell::Wide(_) => 1,
        Cell::Day(_) => 2,
        Cell::Bytes(_) => 3,
    }
}
