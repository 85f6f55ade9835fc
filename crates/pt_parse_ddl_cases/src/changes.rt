use crate::columns::put_names;
use crate::exprs::put_name;
use crate::partitions::{put_by, put_parts};
use pt_ast::{Idents, Stmt};
use pt_value::Ident;
use std::alloc::AllocError;

/// Writes a change of a table behind a text: ``add `t` [..]`` and ``reorganize `t` [`p` `q`] [..]`` with definitions as in CREATE TABLE,
/// ``add `t` 4`` and ``coalesce `t` 2``, ``drop_parts `t` [`p` `q`]``, ``truncate `t` all`` and ``truncate `t` [`p`]``,
/// ``exchange `t` `p` `u` ``, ``remove `t` ``, and ``partition `t` by ..``. Other statements are `?`.
pub(crate) fn put_change(text: &mut String, stmt: &Stmt) -> Result<(), AllocError> {
    match stmt {
        Stmt::AddParts(table, parts) => {
            put_on(text, "add ", table)?;
            put_parts(text, parts.items())
        }
        Stmt::AddCount(table, count) => put_counted(text, "add ", table, *count),
        Stmt::DropParts(table, names) => put_named(text, "drop_parts ", table, names),
        Stmt::Truncate(table, names) => put_truncated(text, table, names),
        Stmt::Coalesce(table, count) => put_counted(text, "coalesce ", table, *count),
        Stmt::Reorganize(table, names, parts) => {
            put_named(text, "reorganize ", table, names)?;
            put_parts(text, parts.items())
        }
        Stmt::Exchange(table, part, other) => {
            put_on(text, "exchange ", table)?;
            put_on(text, " ", part)?;
            put_on(text, " ", other)
        }
        Stmt::RemoveParts(table) => put_on(text, "remove ", table),
        Stmt::PartitionBy(table, by) => {
            put_on(text, "partition ", table)?;
            put_by(text, by)
        }
        _ => text.push('?'),
    }
}

fn put_on(text: &mut String, word: &str, table: &Ident) -> Result<(), AllocError> {
    text.push_str(word)?;
    put_name(text, table.bytes())
}

fn put_counted(
    text: &mut String,
    word: &str,
    table: &Ident,
    count: i128,
) -> Result<(), AllocError> {
    put_on(text, word, table)?;
    write!(text, " {count}")
}

fn put_named(
    text: &mut String,
    word: &str,
    table: &Ident,
    names: &Idents,
) -> Result<(), AllocError> {
    put_on(text, word, table)?;
    text.push(' ')?;
    put_names(text, names.items())
}

fn put_truncated(
    text: &mut String,
    table: &Ident,
    names: &Option<Idents>,
) -> Result<(), AllocError> {
    match names {
        None => {
            put_on(text, "truncate ", table)?;
            text.push_str(" all")
        }
        Some(names) => put_named(text, "truncate ", table, names),
    }
}
