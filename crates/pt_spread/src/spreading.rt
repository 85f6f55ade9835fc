ghost use Rattle.std.specs.Prelude.{◌≡◌, All, OnOk};
ghost use Rattle.pt_expr.specs.Columns.{AreFitting};
ghost use Rattle.pt_place.specs.Valid.{IsValid};
ghost use Rattle.pt_spread.specs.Spread.{IsSpread, by_serial, first_unplaced};

use crate::SpreadFault;
use crate::buckets::in_spots;
use pt_ast::{Row, Rows, Spot, TableDef};
use pt_place::place;
use pt_plain::List;
use std::alloc::{AllocError, Global};

/// The rows of each spot of a definition, in the order of the definition, each by rising serial.
pub type SpotRows = List<(Spot, Rows)>;

/// Where rows, which may come in any order, stand under a definition. `Unplaced` exactly where some row has no place: it tells the number of
/// the first by rising serial.
pub fn spread(alloc: Global, def: &TableDef, rows: Rows) -> Result<SpotRows, SpreadFault>
    requires valid { IsValid def.now }
    requires fitting { All (λ row. AreFitting def.now.columns row.cells) rows }
    ensures { IsSpread def.now (by_serial rows) result }
{
    let mut rows = rows.into_vec();
    sort(&mut rows)?;
    if let Some(number) = first_unplaced(def, rows.as_slice()) {
        return Err(SpreadFault::Unplaced(number));
    }
    let found = in_spots(alloc, def, rows)?;
    Ok(SpotRows::of(found))
}

/// Sorts rows by rising serial.
fn sort(rows: &mut Vec<Row>) -> Result<(), AllocError>
    ensures { OnOk result (rows.new.items ≡ by_serial rows.old.items) }
{
    rows.sort_by(|a, b| a.serial.cmp(&b.serial))
}

/// The number, from 1, of the first row that no partition takes.
fn first_unplaced(def: &TableDef, rows: &[Row]) -> Option<u64>
    requires valid { IsValid def.now }
    requires fitting { All (λ row. AreFitting def.now.columns row.cells) rows.now }
    ensures { result ≡ first_unplaced def.now rows.now }
{
    for (i, row) in rows.iter().enumerate() {
        if place(def, &row.cells).is_none() {
            return Some(i as u64 + 1);
        }
    }
    None
}
