ghost use Rattle.std.specs.Prelude.{◌≡◌, ◌<◌, ◌^◌, false, length, slice_index_or, IsOk, IfSome};
ghost use Rattle.pt_value.specs.Hashes.{key_of, key_step};
ghost use Rattle.pt_ast.specs.Bounds.{cells_at};
ghost use Rattle.pt_expr.specs.Columns.{AreFitting};
ghost use Rattle.pt_expr.specs.Found.{checked};
ghost use Rattle.pt_place.specs.Place.{hashed, number_of, numbered, part_of, place_of, subs_at};
ghost use Rattle.pt_place.specs.Placing.{CanFind, CanNumber};
ghost use Rattle.pt_place.specs.Valid.{IsValid};

use crate::spot::subs_at;
use pt_ast::{Cells, ColumnNos, Columns, Expr, PartBy, Spot, TableDef};
use pt_bounds::{Lists, Probe, Ranges};
use pt_expr::eval;
use pt_hash::{hash_part, key_part, key_step, linear_part};
use pt_value::{Cell, Value};

/// Where a row belongs, and `None` exactly where no partition takes it. It takes no memory.
pub fn place(def: &TableDef, cells: &Cells) -> Option<Spot>
    requires valid { IsValid def.now }
    requires fitting { AreFitting def.now.columns cells.now }
    ensures { result ≡ place_of def.now cells.now }
{
    let part = part_of(def, cells)?;
    Some(Spot {
        part: part as u32,
        sub: sub_of(def, part, cells),
    })
}

/// The partition, if any takes the row.
fn part_of(def: &TableDef, cells: &Cells) -> Option<usize>
    requires can { CanFind def.now }
    requires fitting { AreFitting def.now.columns cells.now }
    ensures value { result ≡ part_of def.now.columns def.now.by def.now.parts cells.now }
    ensures fits { IfSome result (λ part. part < 2 ^ 32) }
{
    match &def.by {
        PartBy::Range(expr) => {
            Ranges::of(&def.parts).find_range(&Probe::Value(number_of(&def.columns, expr, cells)))
        }
        PartBy::List(expr) => {
            Lists::of(&def.parts).find_list(&Probe::Value(number_of(&def.columns, expr, cells)))
        }
        PartBy::RangeColumns(numbers) => {
            Ranges::of(&def.parts).find_range(&Probe::Columns(cells, numbers))
        }
        PartBy::ListColumns(numbers) => {
            Lists::of(&def.parts).find_list(&Probe::Columns(cells, numbers))
        }
        PartBy::Whole | PartBy::Hash(_, _) | PartBy::Key(_, _) => {
            let count = def.parts.items().len();
            Some(numbered(&def.columns, &def.by, count, cells) as usize)
        }
    }
}

/// The subpartition of a partition.
fn sub_of(def: &TableDef, part: usize, cells: &Cells) -> u32
    requires can { CanNumber def.now.columns def.now.sub (length (subs_at def.now.parts part)) }
    requires fitting { AreFitting def.now.columns cells.now }
    ensures { result ≡ numbered def.now.columns def.now.sub (length (subs_at def.now.parts part)) cells.now }
{
    let count = subs_at(def, part).len();
    numbered(&def.columns, &def.sub, count, cells)
}

/// One of `count` under HASH and KEY, and else 0.
fn numbered(columns: &Columns, by: &PartBy, count: usize, cells: &Cells) -> u32
    requires can { CanNumber columns.now by.now count }
    requires fitting { AreFitting columns.now cells.now }
    ensures { result ≡ numbered columns.now by.now count cells.now }
{
    match by {
        PartBy::Hash(linear, expr) => hashed(
            *linear,
            number_of(columns, expr, cells),
            count as u32,
        ),
        PartBy::Key(linear, numbers) => key_part(key_of(cells, numbers), count as u32, *linear),
        _ => 0,
    }
}

fn hashed(linear: bool, number: Option<i128>, count: u32) -> u32
    requires { 0 < count }
    ensures { result ≡ hashed linear number count }
{
    if linear {
        linear_part(number, count)
    } else {
        hash_part(number, count)
    }
}

/// What an expression comes to, `None` for NULL.
fn number_of(columns: &Columns, expr: &Expr, cells: &Cells) -> Option<i128>
    requires checked { IsOk (checked columns.now expr.now false) }
    requires fitting { AreFitting columns.now cells.now }
    ensures { result ≡ number_of columns.now expr.now cells.now }
{
    match eval(columns, expr, false, cells) {
        Cell::Wide(number) => Some(number),
        Cell::Null | Cell::Day(_) | Cell::Bytes(_) => None,
    }
}

/// The key number of the cells of these columns.
fn key_of(cells: &Cells, numbers: &ColumnNos) -> u64
    ensures { result ≡ key_of (cells_at cells.now numbers.now) }
{
    let mut key = 0;
    for number in numbers.items() {
        key = key_after(key, cells, *number);
    }
    key
}

/// The key number with the cell of one column more, NULL where there is none.
fn key_after(key: u64, cells: &Cells, number: u32) -> u64
    ensures { result ≡ key_step key (slice_index_or cells.now number Value.Null) }
{
    match cells.items().get(number as usize) {
        Some(value) => key_step(1, key, value),
        None => key_step(1, key, &Value::Null),
    }
}
