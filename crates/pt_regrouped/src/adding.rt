ghost use Rattle.std.specs.Prelude.{◌≡◌, Ok, Err, IfOk, IfErr};
ghost use Rattle.pt_ast.specs.StorableDef.{IsStorableDef};
ghost use Rattle.pt_ast.specs.StorableSpec.{AreStorableParts};
ghost use Rattle.pt_complete.specs.Fault.{IfRefused};
ghost use Rattle.pt_place.specs.Valid.{IsValid};
ghost use Rattle.pt_regrouped.specs.Regrouped.{added_of};

use crate::counting::bad_kind;
use crate::listing::{parts_listed, table_with};
use pt_ast::{PartItems, Refusal, TableDef};
use pt_complete::DefFault;
use pt_value::Ident;
use std::alloc::{AllocError, Global};

/// The definition of a table of this name with more partitions, behind those that it has, which keep their names and bounds. `Refused`
/// has the first check that fails, in the order of ADD PARTITION. A definition that is given is storable and valid.
pub fn added(
    alloc: Global,
    table: &Ident,
    items: &PartItems,
    def: &TableDef,
) -> Result<TableDef, DefFault>
    requires items { AreStorableParts items.now }
    requires storable { IsStorableDef def.now }
    requires valid { IsValid def.now }
    ensures made { IfOk result (λ made. added_of table.now items.now def.now ≡ Ok made) }
    ensures storable { IfOk result (λ made. IsStorableDef made) }
    ensures valid { IfOk result (λ made. IsValid made) }
    ensures refused { IfErr result (λ fault. IfRefused fault (λ refusal. added_of table.now items.now def.now ≡ Err refusal)) }
{
    match table_added(alloc, table, items, def) {
        Ok(Ok(made)) => Ok(made),
        Ok(Err(refusal)) => Err(DefFault::Refused(refusal)),
        Err(_) => Err(DefFault::NoMemory),
    }
}

fn table_added(
    alloc: Global,
    table: &Ident,
    items: &PartItems,
    def: &TableDef,
) -> Result<Result<TableDef, Refusal>, AllocError>
    requires storable { IsStorableDef def.now }
    requires valid { IsValid def.now }
    ensures { IfOk result (λ made. made ≡ added_of table.now items.now def.now) }
{
    if let Some(refusal) = bad_kind(table, &def.by) {
        return Ok(Err(refusal));
    }
    match parts_listed(alloc, table, def, def.parts.items(), items.items(), &[])? {
        Ok(parts) => Ok(Ok(table_with(alloc, def, parts)?)),
        Err(refusal) => Ok(Err(refusal)),
    }
}
