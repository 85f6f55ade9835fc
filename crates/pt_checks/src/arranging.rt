ghost use Rattle.std.specs.Prelude.{◌≡◌, All, filter, IfOk, OnOk};
ghost use Rattle.pt_expr.specs.Columns.{AreFitting};
ghost use Rattle.pt_place.specs.Valid.{IsValid};
ghost use Rattle.pt_checks.specs.Ordered.{in_order};
ghost use Rattle.pt_checks.specs.Queries.{IsCheckedCond};
ghost use Rattle.pt_checks.specs.Wanted.{arranged, candidates, cut, is_wanted, row_cmp};

use crate::ordering::{Order, order_of, row_order};
use crate::wanting::wanted;
use pt_ast::{Columns, Cond, Idents, Row, Rows, TableDef, Tail};
use pt_place::place;
use std::alloc::{AllocError, Global};

/// The rows that a statement takes of these rows of a table: those in the named partitions for which WHERE is TRUE, in the order of ORDER BY
/// and then of rising serial, and at most LIMIT of them.
pub fn candidates(
    alloc: Global,
    def: &TableDef,
    parts: &Option<Idents>,
    tail: &Tail,
    rows: &[Row],
) -> Result<Rows, AllocError>
    requires valid { IsValid def.now }
    requires checked { IsCheckedCond def.now.columns tail.now.cond }
    requires fitting { All (λ row. AreFitting def.now.columns row.cells) rows.now }
    ensures { IfOk result (λ all. all ≡ candidates def.now parts.now tail.now rows.now) }
{
    let rows = wanted_of(alloc, def, parts, &tail.cond, rows)?;
    arranged(alloc, &def.columns, tail, rows)
}

/// The rows that are wanted, in the order in which they are.
fn wanted_of(
    alloc: Global,
    def: &TableDef,
    parts: &Option<Idents>,
    cond: &Option<Cond>,
    rows: &[Row],
) -> Result<Rows, AllocError>
    requires valid { IsValid def.now }
    requires checked { IsCheckedCond def.now.columns cond.now }
    requires fitting { All (λ row. AreFitting def.now.columns row.cells) rows.now }
    ensures { IfOk result (λ all. all ≡ filter (is_wanted def.now parts.now cond.now) rows.now) }
{
    let mut found = Rows::new(alloc);
    for row in rows {
        if is_wanted(def, parts, cond, row) {
            found.push(row.copy(alloc)?)?;
        }
    }
    Ok(found)
}

fn is_wanted(def: &TableDef, parts: &Option<Idents>, cond: &Option<Cond>, row: &Row) -> bool
    requires valid { IsValid def.now }
    requires checked { IsCheckedCond def.now.columns cond.now }
    requires fitting { AreFitting def.now.columns row.now.cells }
    ensures { result ≡ is_wanted def.now parts.now cond.now row.now }
{
    match place(def, &row.cells) {
        Some(spot) => wanted(def, parts, cond, row, spot),
        None => false,
    }
}

/// Rows that a statement takes, in the order of its ORDER BY and then of rising serial, and at most LIMIT of them.
pub fn arranged(
    alloc: Global,
    columns: &Columns,
    tail: &Tail,
    rows: Rows,
) -> Result<Rows, AllocError>
    ensures { IfOk result (λ all. all ≡ arranged columns.now tail.now rows) }
{
    let order = order_of(alloc, columns, &tail.order)?;
    let mut rows = rows.into_vec();
    sort(&order, &mut rows)?;
    cut(tail.limit, &mut rows);
    Ok(Rows::of(rows))
}

fn sort(order: &Order, rows: &mut Vec<Row>) -> Result<(), AllocError>
    ensures { OnOk result (rows.new.items ≡ in_order (row_cmp order.now) rows.old.items) }
{
    rows.sort_by(|a, b| row_order(order, a, b))
}

/// Leaves at most LIMIT rows.
fn cut(limit: Option<i128>, rows: &mut Vec<Row>)
    ensures { rows.new.items ≡ cut limit rows.old.items }
{
    let Some(limit) = limit else {
        return;
    };
    let most = limit.unsigned_abs();
    if most < rows.len() as u128 {
        rows.truncate(most as usize);
    }
}
