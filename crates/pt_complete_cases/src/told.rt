ghost use Rattle.pt_ast.specs.StorableDef.{IsStorableDef};
ghost use Rattle.pt_place.specs.Valid.{IsValid};

use crate::cells::are_fitting;
use crate::made::beside;
use pt_ast::{Cells, TableDef};
use pt_defs::{DefRead, def_bytes, def_of_bytes};
use pt_place::{leaf, place};
use pt_show::show_create;
use pt_value::Ident;
use std::alloc::{AllocError, Global};

/// What is asked of a definition.
#[derive(Clone, Copy)]
pub(crate) enum Asked<'a> {
    /// Its text.
    Text,
    /// How long its text is.
    Size,
    /// Where a row with these cells belongs.
    Place(&'a Cells),
}

/// Writes what is asked of a definition.
pub(crate) fn put_told(
    alloc: Global,
    out: &mut String,
    asked: Asked,
    table: &Ident,
    def: &TableDef,
) -> Result<(), AllocError>
    requires storable { IsStorableDef def.now }
    requires valid { IsValid def.now }
{
    match asked {
        Asked::Place(cells) => put_leaf(out, def, cells),
        Asked::Text => put_text(alloc, out, true, table, def),
        Asked::Size => put_text(alloc, out, false, table, def),
    }
}

/// Writes where a row belongs.
fn put_leaf(out: &mut String, def: &TableDef, cells: &Cells) -> Result<(), AllocError>
    requires { IsValid def.now }
{
    if !are_fitting(&def.columns, cells) {
        return out.push('?');
    }
    match place(def, cells) {
        Some(spot) => put_name(out, leaf(def, spot)),
        None => out.push_str("none"),
    }
}

fn put_name(out: &mut String, name: Option<Ident>) -> Result<(), AllocError> {
    match name {
        Some(name) => put_plain(out, name.bytes()),
        None => out.push('-'),
    }
}

/// Writes the text of a definition, whole or its size; and that of the one that its bytes give, where it is another.
fn put_text(
    alloc: Global,
    out: &mut String,
    whole: bool,
    table: &Ident,
    def: &TableDef,
) -> Result<(), AllocError>
    requires { IsStorableDef def.now }
{
    let text = show_create(alloc, table, def)?;
    if whole {
        put_plain(out, text.items())?;
    } else {
        put_size(out, text.items())?;
    }
    let bytes = def_bytes(alloc, def)?;
    match def_of_bytes(alloc, &bytes) {
        Ok(again) => {
            let told = put_other(alloc, out, table, &again, text.items());
            beside(again, told)
        }
        Err(DefRead::Bad { place }) => write!(out, " bad {place}"),
        Err(DefRead::NoMemory) => out.push_str(" no memory"),
    }
}

fn put_size(out: &mut String, text: &[u8]) -> Result<(), AllocError> {
    let lines = text.iter().filter(|b| **b == b'\n').count();
    let bytes = text.len();
    write!(out, "{lines} {bytes}")
}

/// Writes the text of a definition where it isn't this.
fn put_other(
    alloc: Global,
    out: &mut String,
    table: &Ident,
    def: &TableDef,
    text: &[u8],
) -> Result<(), AllocError> {
    let other = show_create(alloc, table, def)?;
    if other.items() == text {
        return Ok(());
    }
    out.push(' ')?;
    put_plain(out, other.items())
}

/// Writes bytes that stand for themselves, `|` for a line's end.
pub(crate) fn put_plain(out: &mut String, bytes: &[u8]) -> Result<(), AllocError> {
    for b in bytes {
        let b = if *b == b'\n' { b'|' } else { *b };
        out.push(char::from(b))?;
    }
    Ok(())
}
