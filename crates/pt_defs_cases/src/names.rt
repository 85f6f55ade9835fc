use crate::answers::{put_plain, split};
use pt_host::Name;
use pt_names::{Owner, def_name, owner_of, row_name};
use pt_value::Ident;
use std::alloc::AllocError;

/// Writes the names of the files of a table.
pub fn put_names(out: &mut String, table: &str) -> Result<(), AllocError> {
    let Ok(table) = Ident::of(table.as_bytes()) else {
        return out.push('?');
    };
    put_plain(out, def_name(&table).bytes())?;
    out.push(' ')?;
    put_plain(out, row_name(&table, None).bytes())
}

/// Writes the name of the file of a partition's rows.
pub fn put_leaf(out: &mut String, rest: &str) -> Result<(), AllocError> {
    let (table, leaf) = split(rest);
    match (Ident::of(table.as_bytes()), Ident::of(leaf.as_bytes())) {
        (Ok(table), Ok(leaf)) => put_plain(out, row_name(&table, Some(&leaf)).bytes()),
        _ => out.push('?'),
    }
}

/// Writes whose file a name is.
pub fn put_owner(out: &mut String, name: &str) -> Result<(), AllocError> {
    let Some(name) = Name::of(name.as_bytes()) else {
        return out.push('?');
    };
    put_whose(out, &owner_of(&name))
}

fn put_whose(out: &mut String, owner: &Owner) -> Result<(), AllocError> {
    match owner {
        Owner::Def(table) => put_table(out, "def ", table),
        Owner::Row(table, None) => put_table(out, "rows ", table),
        Owner::Row(table, Some(leaf)) => put_part(out, table, leaf),
        Owner::Journal => out.push_str("journal"),
        Owner::Log => out.push_str("log"),
        Owner::Serials => out.push_str("serials"),
        Owner::Other => out.push_str("other"),
    }
}

fn put_part(out: &mut String, table: &Ident, leaf: &Ident) -> Result<(), AllocError> {
    put_table(out, "rows ", table)?;
    put_table(out, " ", leaf)
}

fn put_table(out: &mut String, word: &str, table: &Ident) -> Result<(), AllocError> {
    out.push_str(word)?;
    put_plain(out, table.bytes())
}
