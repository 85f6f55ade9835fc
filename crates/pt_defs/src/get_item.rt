//! Reading the items of a definition but for its expressions: each call reads the front of the bytes, and gives what is behind it.
ghost use Rattle.std.specs.Prelude.{◌≡◌, Some, None, if◌then◌else◌};
ghost use Rattle.pt_defs.specs.Given.{Gives};
ghost use Rattle.pt_defs.specs.Reading.{byte_at, cell_at, cell_behind, column_at, count_at, day_at, default_at, flag_at, int_at, is_ident, key_at, key_name_at, kind_at, many, may_name, name_at, number_at, part_at, position_at, positions_at, rank_at, rank_of, short_at, string_at};

use crate::fault::Stop;
use pt_ast::{Column, ColumnNos, KeyDef, Rank};
use pt_bytes::Cursor;
use pt_value::{Bin, Ident, Kind, Value};
use std::alloc::Global;

/// What is read, and the bytes behind it.
pub(crate) type Front<'a, T> = Result<(T, &'a [u8]), Stop>;

/// A byte.
#[tactic(auto, unfolding(crate::specs::Reading::byte_at))]
pub(crate) fn byte_at(bytes: &[u8]) -> Front<'_, u8>
    ensures { Gives (λ x. (x.0, x.1.now)) result (byte_at bytes.now) }
{
    match bytes {
        [] => Err(Stop::Left(0)),
        [byte, rest @ ..] => Ok((*byte, rest)),
    }
}

/// So many bytes.
#[tactic(auto, unfolding(crate::specs::Reading::part_at))]
fn part_at(bytes: &[u8], count: usize) -> Front<'_, &[u8]>
    ensures { Gives (λ x. (x.0.now, x.1.now)) result (part_at count bytes.now) }
{
    if bytes.len() < count {
        return Err(Stop::Left(bytes.len()));
    }
    let (part, rest) = bytes.split_at(count);
    Ok((part, rest))
}

/// A number in two bytes.
fn u16_at(bytes: &[u8]) -> Front<'_, u16>
    ensures { Gives (λ x. (x.0, x.1.now)) result (number_at 2 bytes.now) }
{
    let Some(number) = Cursor::new(bytes).u16_at(0) else {
        return Err(Stop::Left(bytes.len()));
    };
    let (_, rest) = bytes.split_at(2);
    Ok((number, rest))
}

/// A number in four bytes.
pub(crate) fn u32_at(bytes: &[u8]) -> Front<'_, u32>
    ensures { Gives (λ x. (x.0, x.1.now)) result (number_at 4 bytes.now) }
{
    let Some(number) = Cursor::new(bytes).u32_at(0) else {
        return Err(Stop::Left(bytes.len()));
    };
    let (_, rest) = bytes.split_at(4);
    Ok((number, rest))
}

/// A number in eight bytes.
pub(crate) fn u64_at(bytes: &[u8]) -> Front<'_, u64>
    ensures { Gives (λ x. (x.0, x.1.now)) result (number_at 8 bytes.now) }
{
    let Some(number) = Cursor::new(bytes).u64_at(0) else {
        return Err(Stop::Left(bytes.len()));
    };
    let (_, rest) = bytes.split_at(8);
    Ok((number, rest))
}

/// A name: its length and its bytes are one field.
#[tactic(auto, unfolding(crate::specs::Reading::name_at))]
pub(crate) fn name_at(bytes: &[u8]) -> Front<'_, Ident>
    ensures { Gives (λ x. (x.0, x.1.now)) result (name_at bytes.now) }
{
    let (name, rest) = short_at(bytes)?;
    let Some(name) = ident_of(name) else {
        return Err(Stop::Left(bytes.len()));
    };
    Ok((name, rest))
}

/// Bytes behind how many they are, in one byte.
fn short_at(bytes: &[u8]) -> Front<'_, &[u8]>
    ensures { Gives (λ x. (x.0.now, x.1.now)) result (short_at bytes.now) }
{
    let [count, rest @ ..] = bytes else {
        return Err(Stop::Left(bytes.len()));
    };
    if rest.len() < *count as usize {
        return Err(Stop::Left(bytes.len()));
    }
    let (part, rest) = rest.split_at(*count as usize);
    Ok((part, rest))
}

/// Bytes behind how many they are, in two bytes.
fn long_at(bytes: &[u8]) -> Front<'_, &[u8]>
    ensures { Gives (λ x. (x.0.now, x.1.now)) result (string_at bytes.now) }
{
    let Some(count) = Cursor::new(bytes).u16_at(0) else {
        return Err(Stop::Left(bytes.len()));
    };
    let (_, rest) = bytes.split_at(2);
    if rest.len() < count as usize {
        return Err(Stop::Left(bytes.len()));
    }
    let (part, rest) = rest.split_at(count as usize);
    Ok((part, rest))
}

/// The identifier of these bytes.
fn ident_of(bytes: &[u8]) -> Option<Ident>
    ensures { result ≡ (if is_ident bytes.now then Some bytes.now else None) }
{
    Ident::of(bytes).ok()
}

/// A string: its length and its bytes are one field.
pub(crate) fn string_at(alloc: Global, bytes: &[u8]) -> Front<'_, Bin>
    ensures { Gives (λ x. (x.0, x.1.now)) result (string_at bytes.now) }
{
    let (string, rest) = long_at(bytes)?;
    Ok((Bin::from_slice(alloc, string)?, rest))
}

/// How many items a list has.
#[tactic(auto, unfolding(crate::specs::Reading::count_at))]
pub(crate) fn count_at(bytes: &[u8], least: u32, most: u64) -> Front<'_, u32>
    ensures { Gives (λ x. (x.0, x.1.now)) result (count_at least most bytes.now) }
{
    let (count, rest) = u32_at(bytes)?;
    if count < least || u64::from(count) > most {
        return Err(Stop::Left(bytes.len()));
    }
    Ok((count, rest))
}

/// The position of a column, of so many.
#[tactic(auto, unfolding(crate::specs::Reading::position_at))]
pub(crate) fn position_at(bytes: &[u8], width: usize) -> Front<'_, u32>
    ensures { Gives (λ x. (x.0, x.1.now)) result (position_at width bytes.now) }
{
    let (position, rest) = u32_at(bytes)?;
    if position as usize >= width {
        return Err(Stop::Left(bytes.len()));
    }
    Ok((position, rest))
}

/// Positions of columns.
#[tactic(auto, unfolding(crate::specs::Reading::list_at))]
pub(crate) fn positions_at(
    alloc: Global,
    bytes: &[u8],
    least: u32,
    width: usize,
) -> Front<'_, ColumnNos>
    ensures { Gives (λ x. (x.0, x.1.now)) result (positions_at least width bytes.now) }
{
    let (count, rest) = count_at(bytes, least, 4_294_967_296)?;
    so_many_positions(alloc, rest, count, width)
}

fn so_many_positions(alloc: Global, bytes: &[u8], count: u32, width: usize) -> Front<'_, ColumnNos>
    ensures { Gives (λ x. (x.0, x.1.now)) result (many (position_at width) count bytes.now) }
{
    let mut items = ColumnNos::new(alloc);
    let mut rest = bytes;
    for _ in 0..count {
        let (item, after) = position_at(rest, width)?;
        items.push(item)?;
        rest = after;
    }
    Ok((items, rest))
}

/// An integer.
#[tactic(auto, unfolding(crate::specs::Reading::int_at))]
fn int_at(bytes: &[u8]) -> Front<'_, i64>
    ensures { Gives (λ x. (x.0, x.1.now)) result (int_at bytes.now) }
{
    let (number, rest) = u64_at(bytes)?;
    Ok((number.cast_signed(), rest))
}

/// A day.
#[tactic(auto, unfolding(crate::specs::Reading::day_at))]
pub(crate) fn day_at(bytes: &[u8]) -> Front<'_, i32>
    ensures { Gives (λ x. (x.0, x.1.now)) result (day_at bytes.now) }
{
    let (number, rest) = u32_at(bytes)?;
    Ok((number.cast_signed(), rest))
}

/// A cell.
#[tactic(auto, unfolding(crate::specs::Reading::cell_at))]
pub(crate) fn cell_at(alloc: Global, bytes: &[u8]) -> Front<'_, Value>
    ensures { Gives (λ x. (x.0, x.1.now)) result (cell_at bytes.now) }
{
    let (kind, rest) = byte_at(bytes)?;
    cell_behind(alloc, bytes, kind, rest)
}

/// A cell, behind its kind.
#[tactic(auto, unfolding(crate::specs::Reading::cell_behind))]
pub(crate) fn cell_behind<'a>(
    alloc: Global,
    start: &[u8],
    kind: u8,
    rest: &'a [u8],
) -> Front<'a, Value>
    ensures { Gives (λ x. (x.0, x.1.now)) result (cell_behind start.now kind rest.now) }
{
    match kind {
        0 => Ok((Value::Null, rest)),
        1 => {
            let (n, rest) = int_at(rest)?;
            Ok((Value::Int(n), rest))
        }
        2 => {
            let (day, rest) = day_at(rest)?;
            Ok((Value::Day(day), rest))
        }
        3 => {
            let (bytes, rest) = string_at(alloc, rest)?;
            Ok((Value::Bytes(bytes), rest))
        }
        _ => Err(Stop::Left(start.len())),
    }
}

/// The type of a column.
#[tactic(auto, unfolding(crate::specs::Reading::kind_at, crate::specs::Reading::kind_behind))]
fn kind_at(bytes: &[u8]) -> Front<'_, Kind>
    ensures { Gives (λ x. (x.0, x.1.now)) result (kind_at bytes.now) }
{
    let (code, rest) = byte_at(bytes)?;
    match code {
        1 => Ok((Kind::Int, rest)),
        2 => Ok((Kind::BigInt, rest)),
        3 => Ok((Kind::Date, rest)),
        4 => {
            let (most, rest) = u16_at(rest)?;
            Ok((Kind::Binary(most), rest))
        }
        _ => Err(Stop::Left(bytes.len())),
    }
}

/// 0 or 1.
#[tactic(auto, unfolding(crate::specs::Reading::flag_at))]
pub(crate) fn flag_at(bytes: &[u8]) -> Front<'_, bool>
    ensures { Gives (λ x. (x.0, x.1.now)) result (flag_at bytes.now) }
{
    let (flag, rest) = byte_at(bytes)?;
    if flag > 1 {
        return Err(Stop::Left(bytes.len()));
    }
    Ok((flag == 1, rest))
}

/// A default, or that there is none.
#[tactic(auto, unfolding(crate::specs::Reading::default_at))]
fn default_at(alloc: Global, bytes: &[u8]) -> Front<'_, Option<Value>>
    ensures { Gives (λ x. (x.0, x.1.now)) result (default_at bytes.now) }
{
    let (flag, rest) = flag_at(bytes)?;
    if !flag {
        return Ok((None, rest));
    }
    let (cell, rest) = cell_at(alloc, rest)?;
    Ok((Some(cell), rest))
}

/// A column.
#[tactic(auto, unfolding(crate::specs::Reading::column_at))]
pub(crate) fn column_at(alloc: Global, bytes: &[u8]) -> Front<'_, Column>
    ensures { Gives (λ x. (x.0, x.1.now)) result (column_at bytes.now) }
{
    let (name, rest) = front!(name_at(bytes));
    let (kind, rest) = kind_at(rest)?;
    let (not_null, rest) = flag_at(rest)?;
    let (default, rest) = default_at(alloc, rest)?;
    Ok((
        Column {
            name,
            kind,
            not_null,
            default,
        },
        rest,
    ))
}

/// What a key is.
#[tactic(auto, unfolding(crate::specs::Reading::rank_at))]
fn rank_at(bytes: &[u8]) -> Front<'_, Rank>
    ensures { Gives (λ x. (x.0, x.1.now)) result (rank_at bytes.now) }
{
    let (code, rest) = byte_at(bytes)?;
    match rank_of(code) {
        Some(rank) => Ok((rank, rest)),
        None => Err(Stop::Left(bytes.len())),
    }
}

fn rank_of(code: u8) -> Option<Rank>
    ensures { result ≡ rank_of code }
{
    match code {
        1 => Some(Rank::Primary),
        2 => Some(Rank::Unique),
        3 => Some(Rank::Plain),
        _ => None,
    }
}

/// The name of a key.
#[tactic(auto, unfolding(crate::specs::Reading::key_name_at))]
fn key_name_at(bytes: &[u8], rank: Rank) -> Front<'_, Ident>
    ensures { Gives (λ x. (x.0, x.1.now)) result (key_name_at rank bytes.now) }
{
    let (name, rest) = front!(name_at(bytes));
    if !may_name(rank, &name) {
        return Err(Stop::Left(bytes.len()));
    }
    Ok((name, rest))
}

fn may_name(rank: Rank, name: &Ident) -> bool
    ensures { result ≡ may_name rank name.now }
{
    match rank {
        Rank::Primary => name.bytes() == b"PRIMARY".as_slice(),
        Rank::Unique | Rank::Plain => true,
    }
}

/// A key.
#[tactic(auto, unfolding(crate::specs::Reading::key_at))]
pub(crate) fn key_at(alloc: Global, bytes: &[u8], width: usize) -> Front<'_, KeyDef>
    ensures { Gives (λ x. (x.0, x.1.now)) result (key_at width bytes.now) }
{
    let (rank, rest) = rank_at(bytes)?;
    let (name, rest) = front!(key_name_at(rest, rank));
    let (columns, rest) = positions_at(alloc, rest, 1, width)?;
    Ok((
        KeyDef {
            rank,
            name,
            columns,
        },
        rest,
    ))
}
