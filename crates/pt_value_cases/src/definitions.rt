//! How a definition is written: items with `;` between. A list is written with commas between its parts, `-` where it has none.
//!
//! | Item | Is |
//! |---|---|
//! | `column NAME KIND null DEFAULT`, `.. notnull ..` | a column; the default is a cell, or `-` where there is none |
//! | `key RANK NAME NUMBERS` | a key by the name of its rank, and the places of its columns |
//! | `by ..` | `whole`, `range EXPR`, `list EXPR`, `hash EXPR`, `linearhash EXPR`, or with places of columns `rangecolumns`, `listcolumns`, `key`, `linearkey` |
//! | `sub ..` | the same of the subpartitions |
//! | `part NAME BOUNDS SUBS` | a partition: tuples with `/` between, each of cells and `max`; and the names of its subpartitions |

use crate::answers::split;
use crate::cells::{kind_of, put_kind, put_value, value_of};
use crate::text::put_plain;
use crate::trees::{expr_of, put_expr};
use pt_ast::{
    Bound, BoundTuple, Column, ColumnNos, Columns, Expr, Idents, KeyDef, KeyDefs, PartBy, PartDef,
    Parts, Rank, TableDef, Tuples,
};
use pt_value::{Ident, Value};
use std::alloc::{AllocError, Global};

const RANKS: [(&str, Rank); 3] = [
    ("Primary", Rank::Primary),
    ("Unique", Rank::Unique),
    ("Plain", Rank::Plain),
];

/// Writes a copy of a definition.
pub fn put_def_copy(alloc: Global, out: &mut String, text: &str) -> Result<(), AllocError> {
    match def_of(alloc, text) {
        Ok(def) => put_copy_of(alloc, out, &def),
        Err(error) => Err(error),
    }
}

fn put_copy_of(alloc: Global, out: &mut String, def: &TableDef) -> Result<(), AllocError> {
    match def.copy(alloc) {
        Ok(copied) => put_def(out, &copied),
        Err(error) => Err(error),
    }
}

fn def_of(alloc: Global, text: &str) -> Result<TableDef, AllocError> {
    let mut def = TableDef {
        columns: Columns::new(alloc),
        keys: KeyDefs::new(alloc),
        by: PartBy::Whole,
        sub: PartBy::Whole,
        parts: Parts::new(alloc),
    };
    for item in text.split(';') {
        add_item(alloc, &mut def, item)?;
    }
    Ok(def)
}

fn add_item(alloc: Global, def: &mut TableDef, item: &str) -> Result<(), AllocError> {
    let (word, rest) = split(item);
    match word {
        "column" => add_column(alloc, &mut def.columns, rest),
        "key" => add_key(alloc, &mut def.keys, rest),
        "by" => set_by(alloc, &mut def.by, rest),
        "sub" => set_by(alloc, &mut def.sub, rest),
        "part" => add_part(alloc, &mut def.parts, rest),
        _ => Ok(()),
    }
}

fn add_column(alloc: Global, columns: &mut Columns, text: &str) -> Result<(), AllocError> {
    let (name, rest) = split(text);
    let (kind, rest) = split(rest);
    let (null, default) = split(rest);
    let (Ok(name), Some(kind)) = (Ident::of(name.as_bytes()), kind_of(kind)) else {
        return Ok(());
    };
    columns.push(Column {
        name,
        kind,
        not_null: null == "notnull",
        default: default_of(alloc, default)?,
    })
}

fn default_of(alloc: Global, text: &str) -> Result<Option<Value>, AllocError> {
    match text {
        "-" => Ok(None),
        _ => value_of(alloc, text).map(Some),
    }
}

fn add_key(alloc: Global, keys: &mut KeyDefs, text: &str) -> Result<(), AllocError> {
    let (rank, rest) = split(text);
    let (name, numbers) = split(rest);
    let (Some(rank), Ok(name)) = (rank_of(rank), Ident::of(name.as_bytes())) else {
        return Ok(());
    };
    keys.push(KeyDef {
        rank,
        name,
        columns: numbers_of(alloc, numbers)?,
    })
}

fn rank_of(word: &str) -> Option<Rank> {
    for (name, rank) in RANKS {
        if name == word {
            return Some(rank);
        }
    }
    None
}

fn numbers_of(alloc: Global, text: &str) -> Result<ColumnNos, AllocError> {
    let mut numbers = ColumnNos::new(alloc);
    for number in text.split(',') {
        if let Ok(number) = number.parse::<u32>() {
            numbers.push(number)?;
        }
    }
    Ok(numbers)
}

fn set_by(alloc: Global, by: &mut PartBy, text: &str) -> Result<(), AllocError> {
    *by = by_of(alloc, text)?;
    Ok(())
}

fn by_of(alloc: Global, text: &str) -> Result<PartBy, AllocError> {
    let (word, rest) = split(text);
    match word {
        "range" => Ok(PartBy::Range(expr_of(alloc, rest)?)),
        "list" => Ok(PartBy::List(expr_of(alloc, rest)?)),
        "hash" => Ok(PartBy::Hash(false, expr_of(alloc, rest)?)),
        "linearhash" => Ok(PartBy::Hash(true, expr_of(alloc, rest)?)),
        _ => by_columns_of(alloc, word, rest),
    }
}

fn by_columns_of(alloc: Global, word: &str, rest: &str) -> Result<PartBy, AllocError> {
    match word {
        "rangecolumns" => Ok(PartBy::RangeColumns(numbers_of(alloc, rest)?)),
        "listcolumns" => Ok(PartBy::ListColumns(numbers_of(alloc, rest)?)),
        "key" => Ok(PartBy::Key(false, numbers_of(alloc, rest)?)),
        "linearkey" => Ok(PartBy::Key(true, numbers_of(alloc, rest)?)),
        _ => Ok(PartBy::Whole),
    }
}

fn add_part(alloc: Global, parts: &mut Parts, text: &str) -> Result<(), AllocError> {
    let (name, rest) = split(text);
    let (bounds, subs) = split(rest);
    let Ok(name) = Ident::of(name.as_bytes()) else {
        return Ok(());
    };
    parts.push(PartDef {
        name,
        bounds: tuples_of(alloc, bounds)?,
        subs: names_of(alloc, subs)?,
    })
}

fn tuples_of(alloc: Global, text: &str) -> Result<Tuples, AllocError> {
    let mut tuples = Tuples::new(alloc);
    if text == "-" {
        return Ok(tuples);
    }
    for tuple in text.split('/') {
        tuples.push(tuple_of(alloc, tuple)?)?;
    }
    Ok(tuples)
}

fn tuple_of(alloc: Global, text: &str) -> Result<BoundTuple, AllocError> {
    let mut tuple = BoundTuple::new(alloc);
    for bound in text.split(',') {
        tuple.push(bound_of(alloc, bound)?)?;
    }
    Ok(tuple)
}

fn bound_of(alloc: Global, text: &str) -> Result<Bound, AllocError> {
    if text == "max" {
        return Ok(Bound::Max);
    }
    Ok(Bound::Val(value_of(alloc, text)?))
}

fn names_of(alloc: Global, text: &str) -> Result<Idents, AllocError> {
    let mut names = Idents::new(alloc);
    for name in text.split(',') {
        if let Ok(name) = Ident::of(name.as_bytes()) {
            names.push(name)?;
        }
    }
    Ok(names)
}

/// Writes a definition.
fn put_def(out: &mut String, def: &TableDef) -> Result<(), AllocError> {
    put_columns(out, &def.columns)?;
    put_keys(out, &def.keys)?;
    out.push_str("by ")?;
    put_by(out, &def.by)?;
    out.push_str(";sub ")?;
    put_by(out, &def.sub)?;
    put_parts(out, &def.parts)
}

fn put_columns(out: &mut String, columns: &Columns) -> Result<(), AllocError> {
    for column in columns.items() {
        put_column(out, column)?;
    }
    Ok(())
}

fn put_column(out: &mut String, column: &Column) -> Result<(), AllocError> {
    out.push_str("column ")?;
    put_plain(out, column.name.bytes())?;
    out.push(' ')?;
    put_kind(out, column.kind)?;
    out.push_str(if column.not_null {
        " notnull "
    } else {
        " null "
    })?;
    match &column.default {
        Some(value) => put_value(out, value)?,
        None => out.push('-')?,
    }
    out.push(';')
}

fn put_keys(out: &mut String, keys: &KeyDefs) -> Result<(), AllocError> {
    for key in keys.items() {
        put_key(out, key)?;
    }
    Ok(())
}

fn put_key(out: &mut String, key: &KeyDef) -> Result<(), AllocError> {
    let rank = key.rank;
    write!(out, "key {rank:?} ")?;
    put_plain(out, key.name.bytes())?;
    out.push(' ')?;
    put_numbers(out, &key.columns)?;
    out.push(';')
}

fn put_numbers(out: &mut String, numbers: &ColumnNos) -> Result<(), AllocError> {
    if numbers.items().is_empty() {
        return out.push('-');
    }
    for (at, number) in numbers.items().iter().enumerate() {
        put_comma(out, at)?;
        write!(out, "{number}")?;
    }
    Ok(())
}

fn put_comma(out: &mut String, at: usize) -> Result<(), AllocError> {
    if at > 0 { out.push(',') } else { Ok(()) }
}

fn put_by(out: &mut String, by: &PartBy) -> Result<(), AllocError> {
    match by {
        PartBy::Whole => out.push_str("whole"),
        PartBy::Range(expr) => put_by_expr(out, "range ", expr),
        PartBy::List(expr) => put_by_expr(out, "list ", expr),
        PartBy::Hash(linear, expr) => {
            put_by_expr(out, if *linear { "linearhash " } else { "hash " }, expr)
        }
        PartBy::RangeColumns(columns) => put_by_columns(out, "rangecolumns ", columns),
        PartBy::ListColumns(columns) => put_by_columns(out, "listcolumns ", columns),
        PartBy::Key(linear, columns) => {
            put_by_columns(out, if *linear { "linearkey " } else { "key " }, columns)
        }
    }
}

fn put_by_expr(out: &mut String, word: &str, expr: &Expr) -> Result<(), AllocError> {
    out.push_str(word)?;
    put_expr(out, expr)
}

fn put_by_columns(out: &mut String, word: &str, columns: &ColumnNos) -> Result<(), AllocError> {
    out.push_str(word)?;
    put_numbers(out, columns)
}

fn put_parts(out: &mut String, parts: &Parts) -> Result<(), AllocError> {
    for part in parts.items() {
        put_part(out, part)?;
    }
    Ok(())
}

fn put_part(out: &mut String, part: &PartDef) -> Result<(), AllocError> {
    out.push_str(";part ")?;
    put_plain(out, part.name.bytes())?;
    out.push(' ')?;
    put_tuples(out, &part.bounds)?;
    out.push(' ')?;
    put_names(out, &part.subs)
}

fn put_tuples(out: &mut String, tuples: &Tuples) -> Result<(), AllocError> {
    if tuples.items().is_empty() {
        return out.push('-');
    }
    for (at, tuple) in tuples.items().iter().enumerate() {
        if at > 0 {
            out.push('/')?;
        }
        put_tuple(out, tuple)?;
    }
    Ok(())
}

fn put_tuple(out: &mut String, tuple: &BoundTuple) -> Result<(), AllocError> {
    for (at, bound) in tuple.items().iter().enumerate() {
        put_comma(out, at)?;
        put_bound(out, bound)?;
    }
    Ok(())
}

fn put_bound(out: &mut String, bound: &Bound) -> Result<(), AllocError> {
    match bound {
        Bound::Val(value) => put_value(out, value),
        Bound::Max => out.push_str("max"),
    }
}

fn put_names(out: &mut String, names: &Idents) -> Result<(), AllocError> {
    if names.items().is_empty() {
        return out.push('-');
    }
    for (at, name) in names.items().iter().enumerate() {
        put_comma(out, at)?;
        put_plain(out, name.bytes())?;
    }
    Ok(())
}
