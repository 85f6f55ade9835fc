//! Reading partitions, and the whole definition.
ghost use Rattle.std.specs.Prelude.{◌≡◌, IfOk, drop, take};
ghost use Rattle.std.specs.Str.{bytes_eq};
ghost use Rattle.pt_ast.specs.StorableDef.{IsStorableDef};
ghost use Rattle.pt_defs.specs.Files.{IsReadFrom};
ghost use Rattle.pt_defs.specs.Spelling.{head_text};
ghost use Rattle.pt_defs.specs.Given.{Gives, Tells};
ghost use Rattle.pt_defs.specs.Reading.{behind_at, body_at, bound_at, bounds_at, by_at, by_behind, column_at, def_at, has_length, key_at, list_at, many, name_at, part_def_at, subs_at, tuple_at};

use crate::fault::{DefRead, Stop};
use crate::get_expr::expr_over;
use crate::get_item::{
    Front, byte_at, cell_behind, column_at, count_at, key_at, name_at, positions_at,
};
use crate::put_def::HEAD;
use pt_ast::{
    Bound, BoundTuple, Columns, Idents, KeyDefs, PartBy, PartDef, Parts, TableDef, Tuples,
};
use pt_bytes::Cursor;
use std::alloc::Global;

/// The most items that a list may have, and one more.
const MANY: u64 = 4_294_967_296;

/// A partitioning, where `main` is true any one, else one by a number.
#[tactic(auto, unfolding(crate::specs::Reading::by_at))]
fn by_at<'a>(
    alloc: Global,
    main: bool,
    columns: &Columns,
    room: u32,
    bytes: &'a [u8],
) -> Front<'a, PartBy>
    ensures { Gives (λ x. (x.0, x.1.now)) result (by_at main columns.now room bytes.now) }
{
    let (code, rest) = byte_at(bytes)?;
    by_behind(alloc, main, columns, room, bytes, code, rest)
}

/// A partitioning, behind its number.
#[tactic(auto, unfolding(crate::specs::Reading::by_behind))]
fn by_behind<'a>(
    alloc: Global,
    main: bool,
    columns: &Columns,
    room: u32,
    start: &[u8],
    code: u8,
    rest: &'a [u8],
) -> Front<'a, PartBy>
    ensures { Gives (λ x. (x.0, x.1.now)) result (by_behind main columns.now room start.now code rest.now) }
{
    match code {
        0 => Ok((PartBy::Whole, rest)),
        1 if main => {
            let (expr, rest) = front!(expr_over(alloc, columns, room, rest));
            Ok((PartBy::Range(expr), rest))
        }
        2 if main => {
            let (expr, rest) = front!(expr_over(alloc, columns, room, rest));
            Ok((PartBy::List(expr), rest))
        }
        3 if main => {
            let (numbers, rest) = positions_at(alloc, rest, 1, columns.items().len())?;
            Ok((PartBy::RangeColumns(numbers), rest))
        }
        4 if main => {
            let (numbers, rest) = positions_at(alloc, rest, 1, columns.items().len())?;
            Ok((PartBy::ListColumns(numbers), rest))
        }
        5 | 6 => {
            let (expr, rest) = front!(expr_over(alloc, columns, room, rest));
            Ok((PartBy::Hash(code == 6, expr), rest))
        }
        7 | 8 => {
            let (numbers, rest) = positions_at(alloc, rest, 0, columns.items().len())?;
            Ok((PartBy::Key(code == 8, numbers), rest))
        }
        _ => Err(Stop::Left(start.len())),
    }
}

/// A bound: MAXVALUE, or a cell.
#[tactic(auto, unfolding(crate::specs::Reading::bound_at))]
fn bound_at(alloc: Global, bytes: &[u8]) -> Front<'_, Bound>
    ensures { Gives (λ x. (x.0, x.1.now)) result (bound_at bytes.now) }
{
    let (kind, rest) = byte_at(bytes)?;
    if kind == 255 {
        return Ok((Bound::Max, rest));
    }
    let (cell, rest) = cell_behind(alloc, bytes, kind, rest)?;
    Ok((Bound::Val(cell), rest))
}

/// A tuple of so many bounds.
#[tactic(auto, unfolding(crate::specs::Reading::tuple_at))]
fn tuple_at(alloc: Global, count: usize, bytes: &[u8]) -> Front<'_, BoundTuple>
    ensures { Gives (λ x. (x.0, x.1.now)) result (tuple_at count bytes.now) }
{
    so_many_bounds(alloc, count, bytes)
}

fn so_many_bounds(alloc: Global, count: usize, bytes: &[u8]) -> Front<'_, BoundTuple>
    ensures { Gives (λ x. (x.0, x.1.now)) result (many bound_at count bytes.now) }
{
    let mut items = BoundTuple::new(alloc);
    let mut rest = bytes;
    for _ in 0..count {
        let (item, after) = front!(bound_at(alloc, rest));
        items.push(item)?;
        rest = after;
    }
    Ok((items, rest))
}

/// A list of tuples, one at least.
#[tactic(auto, unfolding(crate::specs::Reading::list_at))]
fn tuples_at(alloc: Global, width: usize, bytes: &[u8]) -> Front<'_, Tuples>
    ensures { Gives (λ x. (x.0, x.1.now)) result (list_at 1 (tuple_at width) bytes.now) }
{
    let (count, rest) = count_at(bytes, 1, MANY)?;
    so_many_tuples(alloc, width, count, rest)
}

fn so_many_tuples(alloc: Global, width: usize, count: u32, bytes: &[u8]) -> Front<'_, Tuples>
    ensures { Gives (λ x. (x.0, x.1.now)) result (many (tuple_at width) count bytes.now) }
{
    let mut items = Tuples::new(alloc);
    let mut rest = bytes;
    for _ in 0..count {
        let (item, after) = front!(tuple_at(alloc, width, rest));
        items.push(item)?;
        rest = after;
    }
    Ok((items, rest))
}

/// A list of this one tuple.
fn one_tuple(alloc: Global, width: usize, bytes: &[u8]) -> Front<'_, Tuples>
    ensures { Gives (λ x. (x.0, x.1.now)) result (many (tuple_at width) 1 bytes.now) }
{
    so_many_tuples(alloc, width, 1, bytes)
}

/// The bounds of a partition.
#[tactic(auto, unfolding(crate::specs::Reading::bounds_at))]
fn bounds_at<'a>(alloc: Global, main: &PartBy, bytes: &'a [u8]) -> Front<'a, Tuples>
    ensures { Gives (λ x. (x.0, x.1.now)) result (bounds_at main.now bytes.now) }
{
    match main {
        PartBy::Range(_) => one_tuple(alloc, 1, bytes),
        PartBy::RangeColumns(numbers) => one_tuple(alloc, numbers.items().len(), bytes),
        PartBy::List(_) => tuples_at(alloc, 1, bytes),
        PartBy::ListColumns(numbers) => tuples_at(alloc, numbers.items().len(), bytes),
        PartBy::Whole | PartBy::Hash(_, _) | PartBy::Key(_, _) => Ok((Tuples::new(alloc), bytes)),
    }
}

/// The names of the subpartitions of a partition.
#[tactic(auto, unfolding(crate::specs::Reading::subs_at))]
fn subs_at<'a>(alloc: Global, sub: &PartBy, bytes: &'a [u8]) -> Front<'a, Idents>
    ensures { Gives (λ x. (x.0, x.1.now)) result (subs_at sub.now bytes.now) }
{
    match sub {
        PartBy::Whole => Ok((Idents::new(alloc), bytes)),
        _ => names_at(alloc, bytes),
    }
}

#[tactic(auto, unfolding(crate::specs::Reading::list_at))]
fn names_at(alloc: Global, bytes: &[u8]) -> Front<'_, Idents>
    ensures { Gives (λ x. (x.0, x.1.now)) result (list_at 0 name_at bytes.now) }
{
    let (count, rest) = count_at(bytes, 0, MANY)?;
    so_many_names(alloc, count, rest)
}

fn so_many_names(alloc: Global, count: u32, bytes: &[u8]) -> Front<'_, Idents>
    ensures { Gives (λ x. (x.0, x.1.now)) result (many name_at count bytes.now) }
{
    let mut items = Idents::new(alloc);
    let mut rest = bytes;
    for _ in 0..count {
        let (item, after) = front!(name_at(rest));
        items.push(item)?;
        rest = after;
    }
    Ok((items, rest))
}

/// A partition.
#[tactic(auto, unfolding(crate::specs::Reading::part_def_at))]
fn part_def_at<'a>(
    alloc: Global,
    main: &PartBy,
    sub: &PartBy,
    bytes: &'a [u8],
) -> Front<'a, PartDef>
    ensures { Gives (λ x. (x.0, x.1.now)) result (part_def_at main.now sub.now bytes.now) }
{
    let (name, rest) = front!(name_at(bytes));
    let (bounds, rest) = front!(bounds_at(alloc, main, rest));
    let (subs, rest) = front!(subs_at(alloc, sub, rest));
    Ok((PartDef { name, bounds, subs }, rest))
}

#[tactic(auto, unfolding(crate::specs::Reading::list_at))]
fn parts_at<'a>(alloc: Global, main: &PartBy, sub: &PartBy, bytes: &'a [u8]) -> Front<'a, Parts>
    ensures { Gives (λ x. (x.0, x.1.now)) result (list_at 0 (part_def_at main.now sub.now) bytes.now) }
{
    let (count, rest) = count_at(bytes, 0, MANY)?;
    so_many_parts(alloc, main, sub, count, rest)
}

fn so_many_parts<'a>(
    alloc: Global,
    main: &PartBy,
    sub: &PartBy,
    count: u32,
    bytes: &'a [u8],
) -> Front<'a, Parts>
    ensures { Gives (λ x. (x.0, x.1.now)) result (many (part_def_at main.now sub.now) count bytes.now) }
{
    let mut items = Parts::new(alloc);
    let mut rest = bytes;
    for _ in 0..count {
        let (item, after) = front!(part_def_at(alloc, main, sub, rest));
        items.push(item)?;
        rest = after;
    }
    Ok((items, rest))
}

fn so_many_columns(alloc: Global, count: u32, bytes: &[u8]) -> Front<'_, Columns>
    ensures { Gives (λ x. (x.0, x.1.now)) result (many column_at count bytes.now) }
{
    let mut items = Columns::new(alloc);
    let mut rest = bytes;
    for _ in 0..count {
        let (item, after) = front!(column_at(alloc, rest));
        items.push(item)?;
        rest = after;
    }
    Ok((items, rest))
}

#[tactic(auto, unfolding(crate::specs::Reading::list_at))]
fn keys_at(alloc: Global, width: usize, bytes: &[u8]) -> Front<'_, KeyDefs>
    ensures { Gives (λ x. (x.0, x.1.now)) result (list_at 0 (key_at width) bytes.now) }
{
    let (count, rest) = count_at(bytes, 0, MANY)?;
    so_many_keys(alloc, width, count, rest)
}

fn so_many_keys(alloc: Global, width: usize, count: u32, bytes: &[u8]) -> Front<'_, KeyDefs>
    ensures { Gives (λ x. (x.0, x.1.now)) result (many (key_at width) count bytes.now) }
{
    let mut items = KeyDefs::new(alloc);
    let mut rest = bytes;
    for _ in 0..count {
        let (item, after) = front!(key_at(alloc, rest, width));
        items.push(item)?;
        rest = after;
    }
    Ok((items, rest))
}

/// What stands behind the partitioning: the subpartitioning and the partitions, where there is one.
#[tactic(auto, unfolding(crate::specs::Reading::behind_at))]
fn behind_at<'a>(
    alloc: Global,
    columns: &Columns,
    room: u32,
    main: &PartBy,
    bytes: &'a [u8],
) -> Front<'a, (PartBy, Parts)>
    ensures { Gives (λ x. (x.0, x.1.now)) result (behind_at columns.now room main.now bytes.now) }
{
    match main {
        PartBy::Whole => Ok(((PartBy::Whole, Parts::new(alloc)), bytes)),
        _ => {
            let (sub, rest) = front!(by_at(alloc, false, columns, room, bytes));
            let (parts, rest) = front!(parts_at(alloc, main, &sub, rest));
            Ok(((sub, parts), rest))
        }
    }
}

/// All that follows the length.
#[tactic(auto, unfolding(crate::specs::Reading::body_at))]
fn body_at(alloc: Global, room: u32, bytes: &[u8]) -> Result<TableDef, Stop>
    ensures { Gives (λ x. x) result (body_at room bytes.now) }
{
    let (count, rest) = count_at(bytes, 1, 1_000_000)?;
    let (columns, rest) = front!(so_many_columns(alloc, count, rest));
    let (keys, rest) = front!(keys_at(alloc, columns.items().len(), rest));
    let (by, rest) = front!(by_at(alloc, true, &columns, room, rest));
    let ((sub, parts), rest) = front!(behind_at(alloc, &columns, room, &by, rest));
    if !rest.is_empty() {
        return Err(Stop::Left(rest.len()));
    }
    Ok(TableDef {
        columns,
        keys,
        by,
        sub,
        parts,
    })
}

/// How deep an expression nests at most.
const ROOM: u32 = 300;

/// The definition that these bytes spell, or the place of the first field that can't be read. It takes memory in proportion to the
/// definition.
pub fn def_of_bytes(alloc: Global, bytes: &[u8]) -> Result<TableDef, DefRead>
    ensures tells { Tells result (def_at bytes.now) }
    ensures file { IsReadFrom result bytes.now }
    ensures storable { IfOk result IsStorableDef }
{
    file_at(alloc, bytes)
}

/// The definition that a file is read to.
#[tactic(auto, unfolding(crate::specs::Reading::def_at))]
fn file_at(alloc: Global, bytes: &[u8]) -> Result<TableDef, DefRead>
    ensures { Tells result (def_at bytes.now) }
{
    if !begins(bytes) {
        return Err(DefRead::Bad { place: 0 });
    }
    if !has_length(bytes) {
        return Err(DefRead::Bad { place: 4 });
    }
    match body_at(alloc, ROOM, behind(bytes, 12)) {
        Ok(def) => Ok(def),
        Err(Stop::NoMemory) => Err(DefRead::NoMemory),
        Err(Stop::Left(left)) => Err(DefRead::Bad {
            place: bytes.len().saturating_sub(left) as u64,
        }),
    }
}

/// Whether the bytes begin with `PTD`, 1.
fn begins(bytes: &[u8]) -> bool
    ensures { result ≡ bytes_eq (take 4 bytes.now) head_text }
{
    let (front, _) = bytes.split_at(bytes.len().min(4));
    front == HEAD.as_slice()
}

/// Whether the length is the number of bytes that follow.
fn has_length(bytes: &[u8]) -> bool
    ensures { result ≡ has_length bytes.now }
{
    let Some(length) = Cursor::new(bytes).u64_at(4) else {
        return false;
    };
    length == bytes.len().saturating_sub(12) as u64
}

/// The bytes behind so many.
fn behind(bytes: &[u8], count: usize) -> &[u8]
    ensures { result.now ≡ drop count bytes.now }
{
    let (_, rest) = bytes.split_at(bytes.len().min(count));
    rest
}
