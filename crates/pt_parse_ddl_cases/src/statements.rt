use crate::changes::put_change;
use crate::columns::put_item;
use crate::exprs::put_name;
use crate::partitions::put_by;
use crate::rows::{put_delete, put_new, put_query, put_update};
use pt_ast::{Stmt, TableSpec};
use std::alloc::AllocError;

/// Writes a statement behind a text, with `if` where it has IF EXISTS or IF NOT EXISTS: ``like if `a` `b` ``, ``drop `a` ``, ``show `a` ``,
/// and ``create `a` (..) (..) by ..`` with its columns, keys and partitioning; new rows by `put_new` behind `insert`, `insert ignore` or
/// `replace`, updates by `put_update`, deletes by `put_delete`, queries by `put_query`, behind `explain` where they are explained, and
/// changes of a table by `put_change`.
pub(crate) fn put_stmt(text: &mut String, stmt: &Stmt) -> Result<(), AllocError> {
    match stmt {
        Stmt::Create(only_new, table, spec) => {
            put_head(text, "create", *only_new, table.bytes())?;
            put_spec(text, spec)
        }
        Stmt::Like(only_new, table, other) => {
            put_head(text, "like", *only_new, table.bytes())?;
            text.push(' ')?;
            put_name(text, other.bytes())
        }
        Stmt::Drop(if_there, table) => put_head(text, "drop", *if_there, table.bytes()),
        Stmt::Show(table) => put_head(text, "show", false, table.bytes()),
        Stmt::Insert(false, new) => put_new(text, "insert ", new),
        Stmt::Insert(true, new) => put_new(text, "insert ignore ", new),
        Stmt::Replace(new) => put_new(text, "replace ", new),
        Stmt::Update(table, parts, assigns, tail) => {
            put_update(text, table.bytes(), parts, assigns.items(), tail)
        }
        Stmt::Delete(table, parts, tail) => put_delete(text, table.bytes(), parts, tail),
        Stmt::Select(query) => put_query(text, query),
        Stmt::Explain(query) => {
            text.push_str("explain ")?;
            put_query(text, query)
        }
        _ => put_change(text, stmt),
    }
}

fn put_head(
    text: &mut String,
    word: &str,
    is_careful: bool,
    table: &[u8],
) -> Result<(), AllocError> {
    text.push_str(word)?;
    text.push_str(if is_careful { " if " } else { " " })?;
    put_name(text, table)
}

fn put_spec(text: &mut String, spec: &TableSpec) -> Result<(), AllocError> {
    for item in spec.items.items() {
        text.push(' ')?;
        put_item(text, item)?;
    }
    match &spec.by {
        None => Ok(()),
        Some(by) => put_by(text, by),
    }
}
