use crate::columns::put_names;
use crate::exprs::{put_expr, put_name};
use pt_ast::{BoundSpec, Entry, Expr, HashSpec, MainSpec, PartItem, PartSpec, SubSpec, ValuesSpec};
use std::alloc::AllocError;

/// Writes a partitioning as `by (range x) partitions 4 sub (hash x) subpartitions 2 [..]`, each part where it stands, and the
/// definitions in brackets.
pub(crate) fn put_by(text: &mut String, by: &PartSpec) -> Result<(), AllocError> {
    text.push_str(" by ")?;
    put_main(text, &by.main)?;
    put_count(text, " partitions ", by.count)?;
    match &by.sub {
        None => (),
        Some(sub) => put_sub(text, sub)?,
    }
    match &by.parts {
        None => Ok(()),
        Some(parts) => put_parts(text, parts.items()),
    }
}

fn put_count(text: &mut String, word: &str, count: Option<i128>) -> Result<(), AllocError> {
    match count {
        None => Ok(()),
        Some(count) => {
            text.push_str(word)?;
            write!(text, "{count}")
        }
    }
}

fn put_main(text: &mut String, main: &MainSpec) -> Result<(), AllocError> {
    match main {
        MainSpec::Range(x) => put_one(text, "(range ", x),
        MainSpec::List(x) => put_one(text, "(list ", x),
        MainSpec::RangeColumns(columns) => {
            text.push_str("(range_columns ")?;
            put_names(text, columns.items())?;
            text.push(')')
        }
        MainSpec::ListColumns(columns) => {
            text.push_str("(list_columns ")?;
            put_names(text, columns.items())?;
            text.push(')')
        }
        MainSpec::Hash(hash) => put_hash(text, hash),
    }
}

fn put_one(text: &mut String, word: &str, x: &Expr) -> Result<(), AllocError> {
    text.push_str(word)?;
    put_expr(text, x)?;
    text.push(')')
}

fn put_hash(text: &mut String, hash: &HashSpec) -> Result<(), AllocError> {
    match hash {
        HashSpec::Hash(linear, x) => {
            put_one(text, if *linear { "(linear_hash " } else { "(hash " }, x)
        }
        HashSpec::Key(linear, columns) => {
            text.push_str(if *linear { "(linear_key " } else { "(key " })?;
            put_names(text, columns.items())?;
            text.push(')')
        }
    }
}

fn put_sub(text: &mut String, sub: &SubSpec) -> Result<(), AllocError> {
    text.push_str(" sub ")?;
    put_hash(text, &sub.hash)?;
    put_count(text, " subpartitions ", sub.count)
}

/// Definitions of partitions in brackets, behind a space.
pub(crate) fn put_parts(text: &mut String, parts: &[PartItem]) -> Result<(), AllocError> {
    text.push_str(" [")?;
    for (i, part) in parts.iter().enumerate() {
        text.push_str(if i > 0 { " " } else { "" })?;
        put_part(text, part)?;
    }
    text.push(']')
}

/// A partition as ``(`p` less 1 max [`s` `t`])``.
fn put_part(text: &mut String, part: &PartItem) -> Result<(), AllocError> {
    text.push('(')?;
    put_name(text, part.name.bytes())?;
    match &part.values {
        None => (),
        Some(values) => put_values(text, values)?,
    }
    match &part.subs {
        None => (),
        Some(subs) => {
            text.push(' ')?;
            put_names(text, subs.items())?;
        }
    }
    text.push(')')
}

fn put_values(text: &mut String, values: &ValuesSpec) -> Result<(), AllocError> {
    match values {
        ValuesSpec::LessMax => text.push_str(" less_max"),
        ValuesSpec::Less(bounds) => {
            text.push_str(" less")?;
            put_bounds(text, bounds.items())
        }
        ValuesSpec::Among(entries) => {
            text.push_str(" in")?;
            for entry in entries.items() {
                put_entry(text, entry)?;
            }
            Ok(())
        }
    }
}

fn put_bounds(text: &mut String, bounds: &[BoundSpec]) -> Result<(), AllocError> {
    for bound in bounds {
        put_bound(text, bound)?;
    }
    Ok(())
}

fn put_bound(text: &mut String, bound: &BoundSpec) -> Result<(), AllocError> {
    text.push(' ')?;
    match bound {
        BoundSpec::Max => text.push_str("max"),
        BoundSpec::Value(x) => put_expr(text, x),
    }
}

/// An entry: a bound, or `(many x y)`.
fn put_entry(text: &mut String, entry: &Entry) -> Result<(), AllocError> {
    match entry {
        Entry::One(bound) => put_bound(text, bound),
        Entry::Many(bounds) => {
            text.push_str(" (many")?;
            put_bounds(text, bounds.items())?;
            text.push(')')
        }
    }
}
