//! How a definition is written: items with `;` between. A list is written with commas between its parts, `-` where it has none.
//!
//! | Item | Is |
//! |---|---|
//! | `column NAME KIND null DEFAULT`, `.. notnull ..` | a column; the default is a cell, or `-` where there is none |
//! | `key RANK NAME NUMBERS` | a key by the name of its rank, and the places of its columns |
//! | `by ..` | `whole`, `range EXPR`, `list EXPR`, `hash EXPR`, `linearhash EXPR`, or with places of columns `rangecolumns`, `listcolumns`, `key`, `linearkey` |
//! | `sub ..` | the same of the subpartitions |
//! | `parts N`, `parts N M` | so many partitions p0, p1 and so on without bounds, with M subpartitions each |
//! | `part NAME BOUNDS SUBS` | a partition: tuples with `/` between, each of cells and `max`; and the names of its subpartitions |

use crate::answers::split;
use crate::cells::{kind_of, value_of};
use crate::trees::expr_of;
use pt_ast::{
    Bound, BoundTuple, Column, ColumnNos, Columns, Idents, KeyDef, KeyDefs, PartBy, PartDef, Parts,
    Rank, TableDef, Tuples,
};
use pt_value::{Ident, Value};
use std::alloc::{AllocError, Global};

const RANKS: [(&str, Rank); 3] = [
    ("Primary", Rank::Primary),
    ("Unique", Rank::Unique),
    ("Plain", Rank::Plain),
];

/// The definition that a text writes; an item that isn't written so is left out.
pub fn def_of(alloc: Global, text: &str) -> Result<TableDef, AllocError> {
    let mut def = TableDef {
        columns: Columns::new(alloc),
        keys: KeyDefs::new(alloc),
        by: PartBy::Whole,
        sub: PartBy::Whole,
        parts: Parts::new(alloc),
    };
    for item in text.split(';') {
        add_item(alloc, &mut def, item)?;
    }
    Ok(def)
}

fn add_item(alloc: Global, def: &mut TableDef, item: &str) -> Result<(), AllocError> {
    let (word, rest) = split(item);
    match word {
        "column" => add_column(alloc, &mut def.columns, rest),
        "key" => add_key(alloc, &mut def.keys, rest),
        "by" => set_by(alloc, &mut def.by, rest),
        "sub" => set_by(alloc, &mut def.sub, rest),
        "part" => add_part(alloc, &mut def.parts, rest),
        "parts" => add_parts(alloc, &mut def.parts, rest),
        _ => Ok(()),
    }
}

fn add_column(alloc: Global, columns: &mut Columns, text: &str) -> Result<(), AllocError> {
    let (name, rest) = split(text);
    let (kind, rest) = split(rest);
    let (null, default) = split(rest);
    let (Ok(name), Some(kind)) = (Ident::of(name.as_bytes()), kind_of(kind)) else {
        return Ok(());
    };
    columns.push(Column {
        name,
        kind,
        not_null: null == "notnull",
        default: default_of(alloc, default)?,
    })
}

fn default_of(alloc: Global, text: &str) -> Result<Option<Value>, AllocError> {
    match text {
        "-" => Ok(None),
        _ => value_of(alloc, text).map(Some),
    }
}

fn add_key(alloc: Global, keys: &mut KeyDefs, text: &str) -> Result<(), AllocError> {
    let (rank, rest) = split(text);
    let (name, numbers) = split(rest);
    let (Some(rank), Ok(name)) = (rank_of(rank), Ident::of(name.as_bytes())) else {
        return Ok(());
    };
    keys.push(KeyDef {
        rank,
        name,
        columns: numbers_of(alloc, numbers)?,
    })
}

fn rank_of(word: &str) -> Option<Rank> {
    for (name, rank) in RANKS {
        if name == word {
            return Some(rank);
        }
    }
    None
}

fn numbers_of(alloc: Global, text: &str) -> Result<ColumnNos, AllocError> {
    let mut numbers = ColumnNos::new(alloc);
    for number in text.split(',') {
        if let Ok(number) = number.parse::<u32>() {
            numbers.push(number)?;
        }
    }
    Ok(numbers)
}

fn set_by(alloc: Global, by: &mut PartBy, text: &str) -> Result<(), AllocError> {
    *by = by_of(alloc, text)?;
    Ok(())
}

fn by_of(alloc: Global, text: &str) -> Result<PartBy, AllocError> {
    let (word, rest) = split(text);
    match word {
        "range" => Ok(PartBy::Range(expr_of(alloc, rest)?)),
        "list" => Ok(PartBy::List(expr_of(alloc, rest)?)),
        "hash" => Ok(PartBy::Hash(false, expr_of(alloc, rest)?)),
        "linearhash" => Ok(PartBy::Hash(true, expr_of(alloc, rest)?)),
        _ => by_columns_of(alloc, word, rest),
    }
}

fn by_columns_of(alloc: Global, word: &str, rest: &str) -> Result<PartBy, AllocError> {
    match word {
        "rangecolumns" => Ok(PartBy::RangeColumns(numbers_of(alloc, rest)?)),
        "listcolumns" => Ok(PartBy::ListColumns(numbers_of(alloc, rest)?)),
        "key" => Ok(PartBy::Key(false, numbers_of(alloc, rest)?)),
        "linearkey" => Ok(PartBy::Key(true, numbers_of(alloc, rest)?)),
        _ => Ok(PartBy::Whole),
    }
}

fn add_part(alloc: Global, parts: &mut Parts, text: &str) -> Result<(), AllocError> {
    let (name, rest) = split(text);
    let (bounds, subs) = split(rest);
    let Ok(name) = Ident::of(name.as_bytes()) else {
        return Ok(());
    };
    parts.push(PartDef {
        name,
        bounds: tuples_of(alloc, bounds)?,
        subs: names_of(alloc, subs)?,
    })
}

/// Partitions p0, p1 and so on, without bounds, with so many subpartitions each.
fn add_parts(alloc: Global, parts: &mut Parts, text: &str) -> Result<(), AllocError> {
    let (count, subs) = split(text);
    let subs = subs.parse::<u32>().unwrap_or(0);
    for i in 0..count.parse::<u32>().unwrap_or(0) {
        add_made(alloc, parts, i, subs)?;
    }
    Ok(())
}

fn add_made(alloc: Global, parts: &mut Parts, i: u32, subs: u32) -> Result<(), AllocError> {
    match Ident::of(format!(in alloc; "p{i}")?.as_bytes()) {
        Ok(name) => parts.push(PartDef {
            name,
            bounds: Tuples::new(alloc),
            subs: made_subs(alloc, i, subs)?,
        }),
        Err(_) => Ok(()),
    }
}

fn made_subs(alloc: Global, i: u32, count: u32) -> Result<Idents, AllocError> {
    let mut names = Idents::new(alloc);
    for j in 0..count {
        if let Ok(name) = Ident::of(format!(in alloc; "p{i}sp{j}")?.as_bytes()) {
            names.push(name)?;
        }
    }
    Ok(names)
}

fn tuples_of(alloc: Global, text: &str) -> Result<Tuples, AllocError> {
    let mut tuples = Tuples::new(alloc);
    if text == "-" {
        return Ok(tuples);
    }
    for tuple in text.split('/') {
        tuples.push(tuple_of(alloc, tuple)?)?;
    }
    Ok(tuples)
}

fn tuple_of(alloc: Global, text: &str) -> Result<BoundTuple, AllocError> {
    let mut tuple = BoundTuple::new(alloc);
    for bound in text.split(',') {
        tuple.push(bound_of(alloc, bound)?)?;
    }
    Ok(tuple)
}

fn bound_of(alloc: Global, text: &str) -> Result<Bound, AllocError> {
    if text == "max" {
        return Ok(Bound::Max);
    }
    Ok(Bound::Val(value_of(alloc, text)?))
}

/// Names with commas between.
pub fn names_of(alloc: Global, text: &str) -> Result<Idents, AllocError> {
    let mut names = Idents::new(alloc);
    for name in text.split(',') {
        if let Ok(name) = Ident::of(name.as_bytes()) {
            names.push(name)?;
        }
    }
    Ok(names)
}
