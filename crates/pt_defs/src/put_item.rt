//! Writing the items of a definition but for its expressions, each behind what is there.
ghost use Rattle.std.specs.Prelude.{◌≡◌, ◌++◌, OnOk};
ghost use Rattle.pt_bytes.specs.Numbers.{le_bytes};
ghost use Rattle.pt_defs.specs.Spelling.{cell_text, column_text, default_text, i32_text, i64_text, key_text, kind_text, name_text, positions_text, rank_code, string_text};

use pt_ast::{Column, ColumnNos, KeyDef, Rank};
use pt_bytes::{put_bytes, put_u8, put_u16, put_u32, put_u64};
use pt_value::{Ident, Kind, Value};
use std::alloc::AllocError;

/// How many bytes a string has: one of a definition has fewer than 2^16.
fn put_length(out: &mut Vec<u8>, length: usize) -> Result<(), AllocError>
    ensures { OnOk result (out.new.items ≡ out.old.items ++ le_bytes 2 length) }
{
    put_u16(out, (length % 65_536) as u16)
}

/// A day.
pub(crate) fn put_day(out: &mut Vec<u8>, day: i32) -> Result<(), AllocError>
    ensures { OnOk result (out.new.items ≡ out.old.items ++ i32_text day) }
{
    put_u32(out, day.cast_unsigned())
}

/// How many items a list has: a list of a definition has fewer than 2^32.
pub(crate) fn put_count(out: &mut Vec<u8>, count: usize) -> Result<(), AllocError>
    ensures { OnOk result (out.new.items ≡ out.old.items ++ le_bytes 4 count) }
{
    put_u32(out, (count % 4_294_967_296) as u32)
}

/// A name.
#[tactic(auto, unfolding(crate::specs::Spelling::name_text))]
pub(crate) fn put_name(out: &mut Vec<u8>, name: &Ident) -> Result<(), AllocError>
    ensures { OnOk result (out.new.items ≡ out.old.items ++ name_text name.now) }
{
    let name = name.bytes();
    put_u8(out, name.len() as u8)?;
    put_bytes(out, name)
}

/// A string.
#[tactic(auto, unfolding(crate::specs::Spelling::string_text))]
pub(crate) fn put_string(out: &mut Vec<u8>, bytes: &[u8]) -> Result<(), AllocError>
    ensures { OnOk result (out.new.items ≡ out.old.items ++ string_text bytes.now) }
{
    put_length(out, bytes.len())?;
    put_bytes(out, bytes)
}

/// Positions of columns.
pub(crate) fn put_positions(out: &mut Vec<u8>, columns: &ColumnNos) -> Result<(), AllocError>
    ensures { OnOk result (out.new.items ≡ out.old.items ++ positions_text columns.now) }
{
    let items = columns.items();
    put_count(out, items.len())?;
    for number in items {
        put_u32(out, *number)?;
    }
    Ok(())
}

/// A cell.
#[tactic(auto, unfolding(crate::specs::Spelling::cell_text))]
pub(crate) fn put_cell(out: &mut Vec<u8>, cell: &Value) -> Result<(), AllocError>
    ensures { OnOk result (out.new.items ≡ out.old.items ++ cell_text cell.now) }
{
    match cell {
        Value::Null => put_u8(out, 0),
        Value::Int(n) => {
            put_u8(out, 1)?;
            put_u64(out, n.cast_unsigned())
        }
        Value::Day(day) => {
            put_u8(out, 2)?;
            put_day(out, *day)
        }
        Value::Bytes(bytes) => {
            put_u8(out, 3)?;
            put_string(out, bytes.items())
        }
    }
}

/// A column.
#[tactic(auto, unfolding(crate::specs::Spelling::column_text))]
pub(crate) fn put_column(out: &mut Vec<u8>, column: &Column) -> Result<(), AllocError>
    ensures { OnOk result (out.new.items ≡ out.old.items ++ column_text column.now) }
{
    put_name(out, &column.name)?;
    put_kind(out, column.kind)?;
    put_u8(out, u8::from(column.not_null))?;
    put_default(out, &column.default)
}

/// The type of a column.
#[tactic(auto, unfolding(crate::specs::Spelling::kind_text))]
fn put_kind(out: &mut Vec<u8>, kind: Kind) -> Result<(), AllocError>
    ensures { OnOk result (out.new.items ≡ out.old.items ++ kind_text kind) }
{
    match kind {
        Kind::Int => put_u8(out, 1),
        Kind::BigInt => put_u8(out, 2),
        Kind::Date => put_u8(out, 3),
        Kind::Binary(most) => {
            put_u8(out, 4)?;
            put_u16(out, most)
        }
    }
}

/// A default, or that there is none.
#[tactic(auto, unfolding(crate::specs::Spelling::default_text))]
fn put_default(out: &mut Vec<u8>, default: &Option<Value>) -> Result<(), AllocError>
    ensures { OnOk result (out.new.items ≡ out.old.items ++ default_text default.now) }
{
    match default {
        None => put_u8(out, 0),
        Some(cell) => {
            put_u8(out, 1)?;
            put_cell(out, cell)
        }
    }
}

/// A key.
#[tactic(auto, unfolding(crate::specs::Spelling::key_text))]
pub(crate) fn put_key(out: &mut Vec<u8>, key: &KeyDef) -> Result<(), AllocError>
    ensures { OnOk result (out.new.items ≡ out.old.items ++ key_text key.now) }
{
    put_u8(out, rank_code(key.rank))?;
    put_name(out, &key.name)?;
    put_positions(out, &key.columns)
}

/// The byte that stands for the rank of a key.
pub fn rank_code(rank: Rank) -> u8
    ensures { result ≡ rank_code rank }
{
    match rank {
        Rank::Primary => 1,
        Rank::Unique => 2,
        Rank::Plain => 3,
    }
}
