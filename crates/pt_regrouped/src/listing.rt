ghost use Rattle.std.specs.Prelude.{◌≡◌, ◌≤◌, All, IfOk};
ghost use Rattle.pt_ast.specs.StorableSpec.{AreStorableParts};
ghost use Rattle.pt_complete.specs.Making.{IsPartSound};
ghost use Rattle.pt_place.specs.Valid.{first_subs};
ghost use Rattle.pt_regrouped.specs.NewParts.{bad_new, parts_among, with_parts};
ghost use Rattle.pt_regrouped.specs.Steps.{bad_bounds_or_names};
ghost use Rattle.pt_written.specs.Complete.{refused_or};

use crate::bounding::bad_new_bounds;
use crate::counting::bad_new_counts;
use crate::naming::parts_named;
use pt_ast::{PartDef, PartItem, Parts, Refusal, TableDef};
use pt_value::Ident;
use pt_written::all_bad_written_values;
use std::alloc::{AllocError, Global};

/// New partitions behind those before them and before those behind; or the first check that they fail.
pub(crate) fn parts_listed(
    alloc: Global,
    table: &Ident,
    def: &TableDef,
    front: &[PartDef],
    items: &[PartItem],
    behind: &[PartDef],
) -> Result<Result<Parts, Refusal>, AllocError>
    requires { first_subs def.now.parts ≤ 8192 }
    ensures { IfOk result (λ made. made ≡ refused_or (bad_new table.now def.now front.now items.now behind.now) (parts_among def.now front.now items.now behind.now)) }
{
    if let Some(refusal) = bad_new_counts(def, front, items, behind) {
        return Ok(Err(refusal));
    }
    if let Some(refusal) = all_bad_written_values(alloc, table, &def.columns, &def.by, items) {
        return Ok(Err(refusal));
    }
    parts_bounded(alloc, def, front, items, behind)
}

/// The partitions, of which the numbers and VALUES have been asked; or the first bound that may not stand there, and then the first
/// name.
fn parts_bounded(
    alloc: Global,
    def: &TableDef,
    front: &[PartDef],
    items: &[PartItem],
    behind: &[PartDef],
) -> Result<Result<Parts, Refusal>, AllocError>
    requires few { first_subs def.now.parts ≤ 8192 }
    requires sound { All (λ item. IsPartSound def.now.columns def.now.by item) items.now }
    ensures { IfOk result (λ made. made ≡ refused_or (bad_bounds_or_names def.now front.now items.now behind.now) (parts_among def.now front.now items.now behind.now)) }
{
    if let Some(refusal) = bad_new_bounds(alloc, def, front, items, behind)? {
        return Ok(Err(refusal));
    }
    parts_named(alloc, def, front, items, behind)
}

/// The table with these partitions in the place of its own.
pub(crate) fn table_with(
    alloc: Global,
    def: &TableDef,
    parts: Parts,
) -> Result<TableDef, AllocError>
    ensures { IfOk result (λ made. made ≡ with_parts def.now parts) }
{
    let copied = def.copy(alloc)?;
    Ok(TableDef { parts, ..copied })
}
