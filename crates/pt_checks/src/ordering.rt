ghost use Rattle.std.specs.Prelude.{◌≡◌, IfOk};
ghost use Rattle.pt_checks.specs.Wanted.{at_cmp, cell_cmp, cells_cmp, order_of, row_cmp};

use pt_ast::{Cells, Columns, Orders, Row};
use pt_place::column_of;
use pt_plain::List;
use pt_value::Value;
use std::alloc::{AllocError, Global};
use std::cmp::Ordering;

/// The positions of the columns to order by, each true for `DESC`.
pub type Order = List<(usize, bool)>;

/// The positions of the columns of ORDER BY.
pub fn order_of(alloc: Global, columns: &Columns, order: &Orders) -> Result<Order, AllocError>
    ensures { IfOk result (λ found. found ≡ order_of columns.now order.now) }
{
    let mut found = Order::new(alloc);
    for (name, desc) in order.items() {
        if let Some(at) = column_of(columns, name) {
            found.push((at, *desc))?;
        }
    }
    Ok(found)
}

/// Which of two rows comes first: by the columns to order by, NULL lowest, and where these tie by rising serial. It takes no memory.
pub fn row_order(order: &Order, a: &Row, b: &Row) -> Ordering
    ensures { result ≡ row_cmp order.now a.now b.now }
{
    cells_order(order.items(), &a.cells, &b.cells).then(a.serial.cmp(&b.serial))
}

fn cells_order(order: &[(usize, bool)], a: &Cells, b: &Cells) -> Ordering
    ensures { result ≡ cells_cmp order.now a.now b.now }
{
    for by in order {
        let found = cell_order(*by, a, b);
        if found.is_ne() {
            return found;
        }
    }
    Ordering::Equal
}

/// By the cells at one position, the other way round for DESC.
fn cell_order(by: (usize, bool), a: &Cells, b: &Cells) -> Ordering
    ensures { result ≡ cell_cmp by a.now b.now }
{
    let (at, desc) = by;
    if desc {
        order_at(at, b, a)
    } else {
        order_at(at, a, b)
    }
}

/// By the cells at a position, NULL where there is none.
fn order_at(at: usize, a: &Cells, b: &Cells) -> Ordering
    ensures { result ≡ at_cmp at a.now b.now }
{
    let null = Value::Null;
    let a = a.items().get(at).unwrap_or(&null);
    let b = b.items().get(at).unwrap_or(&null);
    a.cmp(b)
}
