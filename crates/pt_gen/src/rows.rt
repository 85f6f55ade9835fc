ghost use Rattle.std.specs.Prelude.{◌≡◌, ◌+◌, ◌*◌, ◌<◌, ◌≤◌, map, IfOk};
ghost use Rattle.std.specs.List.{range_with_len};
ghost use Rattle.pt_gen.specs.Script.{inserted, values, deleted, divided_by_three, selected, all_rows};

use crate::lists::{one, two};
use crate::names::{gen_table, id_column};
use pt_ast::{Cmp, Cond, Expr, NewRows, Op, Query, Stmt, Tail, ValueRows, ValueSpec, ValueSpecs};
use pt_plain::{Held, List};
use std::alloc::{AllocError, Global};

/// How many rows an INSERT has.
const ROWS: u64 = 10;

/// The `INSERT` of number `k`, from 0.
pub(crate) fn inserted(alloc: Global, k: u64) -> Result<Stmt, AllocError>
    requires { k < 1000 }
    ensures { IfOk result (λ statement. statement ≡ inserted k) }
{
    let rows = rows_of(alloc, 10 * k + 1)?;
    Ok(Stmt::Insert(
        false,
        NewRows {
            table: gen_table(),
            parts: None,
            columns: None,
            rows,
        },
    ))
}

/// Ten rows, the first of them that of `first`.
fn rows_of(alloc: Global, first: u64) -> Result<ValueRows, AllocError>
    requires { first < 10000 }
    ensures { IfOk result (λ rows. rows ≡ map values (range_with_len first 10)) }
{
    let mut rows = List::new(alloc);
    for at in 0..ROWS {
        rows.push(values_of(alloc, first + at)?)?;
    }
    Ok(rows)
}

/// The row of `i`: the number, and the rest of its square.
fn values_of(alloc: Global, i: u64) -> Result<ValueSpecs, AllocError>
    requires { i < 20000 }
    ensures { IfOk result (λ made. made ≡ values i) }
{
    let square = i * i % 97;
    two(
        alloc,
        ValueSpec::Value(Expr::Number(i128::from(i))),
        ValueSpec::Value(Expr::Number(i128::from(square))),
    )
}

/// `DELETE`
pub(crate) fn deleted(alloc: Global) -> Result<Stmt, AllocError>
    ensures { IfOk result (λ statement. statement ≡ deleted) }
{
    let cond = divided_by_three(alloc)?;
    Ok(Stmt::Delete(gen_table(), None, taking(alloc, Some(cond))))
}

/// The rows that it takes.
fn divided_by_three(alloc: Global) -> Result<Cond, AllocError>
    ensures { IfOk result (λ cond. cond ≡ divided_by_three) }
{
    let factors = one(alloc, (Op::Mod, Expr::Number(3)))?;
    let first = Held::new(alloc, Expr::Column(id_column()))?;
    Ok(Cond::Compare(Cmp::Eq, Expr::Product(first, factors), Expr::Number(0)))
}

/// `SELECT`
pub(crate) fn selected(alloc: Global) -> Result<Stmt, AllocError>
    ensures { IfOk result (λ statement. statement ≡ selected) }
{
    let items = one(alloc, Expr::Column(id_column()))?;
    Ok(Stmt::Select(Query {
        items: Some(items),
        table: gen_table(),
        parts: None,
        tail: taking(alloc, None),
    }))
}

/// Every row of this condition, in the table's order. It takes no memory.
fn taking(alloc: Global, cond: Option<Cond>) -> Tail
    ensures { result ≡ record all_rows { cond = cond } }
{
    Tail {
        cond,
        order: List::new(alloc),
        limit: None,
    }
}
