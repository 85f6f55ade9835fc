ghost use Rattle.std.specs.Prelude.{◌≡◌, IfOk};
ghost use Rattle.pt_gen.specs.Script.{created, items, by_hash};

use crate::lists::one;
use crate::names::{gen_table, id_column, v_column};
use pt_ast::{
    ColOption, Expr, HashSpec, Item, Items, KindSpec, MainSpec, PartSpec, Rank, Stmt, TableSpec,
};
use pt_plain::List;
use std::alloc::{AllocError, Global};

/// `CREATE TABLE`
pub(crate) fn created(alloc: Global) -> Result<Stmt, AllocError>
    ensures { IfOk result (λ statement. statement ≡ created) }
{
    let items = items_of(alloc)?;
    let by = Some(by_hash());
    Ok(Stmt::Create(false, gen_table(), TableSpec { items, by }))
}

/// Its columns and its key.
fn items_of(alloc: Global) -> Result<Items, AllocError>
    ensures { IfOk result (λ made. made ≡ items) }
{
    let mut items = List::new(alloc);
    let not_null = one(alloc, ColOption::NotNull)?;
    items.push(Item::Column(id_column(), KindSpec::BigInt, not_null))?;
    items.push(Item::Column(v_column(), KindSpec::Int, List::new(alloc)))?;
    let columns = one(alloc, id_column())?;
    items.push(Item::Key(Rank::Primary, None, columns))?;
    Ok(items)
}

/// What it is partitioned by. It takes no memory.
fn by_hash() -> PartSpec
    ensures { result ≡ by_hash }
{
    PartSpec {
        main: MainSpec::Hash(HashSpec::Hash(false, Expr::Column(id_column()))),
        count: Some(4),
        sub: None,
        parts: None,
    }
}
