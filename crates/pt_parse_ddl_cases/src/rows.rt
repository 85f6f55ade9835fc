use crate::columns::put_names;
use crate::conds::put_cond;
use crate::exprs::{put_expr, put_name};
use pt_ast::{Expr, Idents, NewRows, Query, Tail, ValueSpec};
use pt_value::Ident;
use std::alloc::AllocError;

/// Writes new rows as ``insert `t` partitions [`p`] columns [`a` `b`] (1 default) (2 3)``, behind the word, and the lists of names where
/// they stand.
pub(crate) fn put_new(text: &mut String, word: &str, new: &NewRows) -> Result<(), AllocError> {
    text.push_str(word)?;
    put_name(text, new.table.bytes())?;
    put_listed(text, " partitions ", &new.parts)?;
    put_listed(text, " columns ", &new.columns)?;
    for row in new.rows.items() {
        put_row(text, row.items())?;
    }
    Ok(())
}

fn put_listed(text: &mut String, word: &str, names: &Option<Idents>) -> Result<(), AllocError> {
    match names {
        None => Ok(()),
        Some(names) => {
            text.push_str(word)?;
            put_names(text, names.items())
        }
    }
}

/// A row, behind a space.
fn put_row(text: &mut String, values: &[ValueSpec]) -> Result<(), AllocError> {
    text.push_str(" (")?;
    for (i, value) in values.iter().enumerate() {
        text.push_str(if i > 0 { " " } else { "" })?;
        put_value(text, value)?;
    }
    text.push(')')
}

fn put_value(text: &mut String, value: &ValueSpec) -> Result<(), AllocError> {
    match value {
        ValueSpec::Default => text.push_str("default"),
        ValueSpec::Value(x) => put_expr(text, x),
    }
}

/// Writes an update as ``update `t` partitions [`p`] set (`a` 1) (`b` default) where c order `a` limit 5``, the partitions and the parts
/// behind the assignments where they stand.
pub(crate) fn put_update(
    text: &mut String,
    table: &[u8],
    parts: &Option<Idents>,
    assigns: &[(Ident, ValueSpec)],
    tail: &Tail,
) -> Result<(), AllocError> {
    text.push_str("update ")?;
    put_name(text, table)?;
    put_listed(text, " partitions ", parts)?;
    text.push_str(" set")?;
    for (column, value) in assigns {
        text.push_str(" (")?;
        put_name(text, column.bytes())?;
        text.push(' ')?;
        put_value(text, value)?;
        text.push(')')?;
    }
    put_tail(text, tail)
}

/// Writes a delete as ``delete `t` partitions [`p`] where c order `a` limit 5``, each part where it stands.
pub(crate) fn put_delete(
    text: &mut String,
    table: &[u8],
    parts: &Option<Idents>,
    tail: &Tail,
) -> Result<(), AllocError> {
    text.push_str("delete ")?;
    put_name(text, table)?;
    put_listed(text, " partitions ", parts)?;
    put_tail(text, tail)
}

/// Writes a query as ``select (x y) from `t` partitions [`p`] where c order `a` `b` desc limit 5``, each part where it stands, with
/// `*` in place of expressions.
pub(crate) fn put_query(text: &mut String, query: &Query) -> Result<(), AllocError> {
    text.push_str("select ")?;
    match &query.items {
        None => text.push('*')?,
        Some(items) => put_items(text, items.items())?,
    }
    text.push_str(" from ")?;
    put_name(text, query.table.bytes())?;
    put_listed(text, " partitions ", &query.parts)?;
    put_tail(text, &query.tail)
}

/// Expressions as `(x y)`.
fn put_items(text: &mut String, items: &[Expr]) -> Result<(), AllocError> {
    text.push('(')?;
    for (i, item) in items.iter().enumerate() {
        text.push_str(if i > 0 { " " } else { "" })?;
        put_expr(text, item)?;
    }
    text.push(')')
}

fn put_tail(text: &mut String, tail: &Tail) -> Result<(), AllocError> {
    match &tail.cond {
        None => (),
        Some(cond) => {
            text.push_str(" where ")?;
            put_cond(text, cond)?;
        }
    }
    put_orders(text, tail.order.items())?;
    match tail.limit {
        None => Ok(()),
        Some(most) => write!(text, " limit {most}"),
    }
}

/// The columns to order by, with `desc` behind those that fall; nothing where there are none.
fn put_orders(text: &mut String, columns: &[(Ident, bool)]) -> Result<(), AllocError> {
    for (i, (column, falls)) in columns.iter().enumerate() {
        text.push_str(if i > 0 { " " } else { " order " })?;
        put_name(text, column.bytes())?;
        text.push_str(if *falls { " desc" } else { "" })?;
    }
    Ok(())
}
