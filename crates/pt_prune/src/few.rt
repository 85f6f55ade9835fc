//! The values of a column that a condition leaves, where they are few.
ghost use Rattle.std.specs.Prelude.{◌≡◌, ◌<◌, true, length, slice_set, map, IfOk, IfSome, IsOk};
ghost use Rattle.std.specs.Option.{option_map};
ghost use Rattle.pt_value.specs.Value.{value_cmp};
ghost use Rattle.pt_value.specs.declared.value.Value.TheVariants.{Null};
ghost use Rattle.pt_expr.specs.FoundCond.{checked_cond};
ghost use Rattle.pt_interval.specs.Counting.{AreValues};
ghost use Rattle.pt_prune.specs.Marks.{is_left, row_with};

use pt_ast::{Cells, Columns, Cond};
use pt_reach::Domain;
use pt_value::Value;
use std::alloc::{AllocError, Global};

/// All values of a column that a condition leaves, NULL among them, where they are at most 64; `None` exactly where they are more.
pub(crate) fn few_values(
    alloc: Global,
    columns: &Columns,
    at: usize,
    cond: &Option<Cond>,
) -> Result<Option<Vec<Value>>, AllocError>
    requires checked { IfSome cond.now (λ own. IsOk (checked_cond columns.now own)) }
    ensures { IfOk result (λ found. AreValues value_cmp (λ v. true) (is_left columns.now at cond.now) 64 (option_map (λ values. values.items) found)) }
{
    let domain = Domain::of(alloc, columns, at, cond.as_ref())?;
    let found = domain.values(alloc, 64)?;
    Ok(found)
}

/// A row of NULLs but for the value of one column.
pub(crate) fn row_with(
    alloc: Global,
    columns: &Columns,
    at: usize,
    value: Value,
) -> Result<Cells, AllocError>
    requires { at < length columns.now }
    ensures { IfOk result (λ cells. cells ≡ row_with columns.now at value) }
{
    let mut values = nulls(alloc, columns)?;
    values[at] = value;
    Ok(Cells::of(values))
}

/// A NULL for each column.
fn nulls(alloc: Global, columns: &Columns) -> Result<Vec<Value>, AllocError>
    ensures { IfOk result (λ values. values.items ≡ map (λ column. Null) columns.now) }
{
    let mut values = Vec::new(alloc);
    for column in columns.items() {
        values.push(Value::Null)?;
    }
    Ok(values)
}
