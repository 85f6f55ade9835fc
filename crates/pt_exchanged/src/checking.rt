ghost use Rattle.std.specs.Prelude.{◌≡◌, ◌∷◌, All};
ghost use Rattle.pt_ast.specs.declared.database.Row.{Row};
ghost use Rattle.pt_expr.specs.Columns.{AreFitting};
ghost use Rattle.pt_place.specs.Checks.{part_names};
ghost use Rattle.pt_place.specs.Names.{is_among};
ghost use Rattle.pt_place.specs.Valid.{IsValid};
ghost use Rattle.pt_checks.specs.Named.{no_part};
ghost use Rattle.pt_exchanged.specs.Exchanged.{spot_for};

use crate::rows::misplaced;
use crate::spots::{is_whole, spot_called};
use pt_ast::{PartDef, Refusal, Spot, Table, TableDef};
use pt_place::{is_among, same};
use pt_show::same_structure;
use pt_value::Ident;

/// The spot whose rows are exchanged, or what is refused.
pub(crate) fn spot_for(
    name: &Ident,
    part: &Ident,
    other: &Ident,
    table: &Table,
    beside: &Table,
) -> Result<Spot, Refusal>
    requires valid { IsValid table.now.def }
    requires fitting { All (λ (row : Row). AreFitting beside.now.def.columns row.cells) beside.now.rows }
    ensures { result ≡ spot_for name.now part.now other.now table.now beside.now }
{
    if is_whole(&table.def.by) {
        return Err(Refusal::NotPartitioned(*name));
    }
    if !is_whole(&beside.def.by) {
        return Err(Refusal::OtherIsPartitioned(*other));
    }
    if let Some(refusal) = no_part(&table.def, part) {
        return Err(refusal);
    }
    let Some(spot) = spot_called(&table.def, part) else {
        return Err(Refusal::UseSubpartition(*part));
    };
    if !same_structure(&table.def, &beside.def) {
        return Err(Refusal::TablesDiffer(*other));
    }
    if let Some(refusal) = misplaced(&table.def, spot, beside.rows.items()) {
        return Err(refusal);
    }
    Ok(spot)
}

/// What is refused of a name that is no partition's and no subpartition's.
fn no_part(def: &TableDef, name: &Ident) -> Option<Refusal>
    ensures { result ≡ no_part def.now name.now }
{
    if !is_part_name(name, def.parts.items()) {
        return Some(Refusal::UnknownPartition(*name));
    }
    None
}

/// Whether a name is that of one of these partitions, or of a subpartition.
fn is_part_name(name: &Ident, parts: &[PartDef]) -> bool
    ensures { result ≡ is_among name.now (part_names parts.now) }
{
    for part in parts {
        if is_own_name(name, part) {
            return true;
        }
    }
    false
}

fn is_own_name(name: &Ident, part: &PartDef) -> bool
    ensures { result ≡ is_among name.now (part.now.name ∷ part.now.subs) }
{
    same(name, &part.name) || is_among(name, part.subs.items())
}
