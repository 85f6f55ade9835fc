ghost use Rattle.pt_expr.specs.Columns.{AreFitting};
ghost use Rattle.pt_place.specs.Valid.{IsValid};

use crate::answers::split;
use crate::cells::cells_of;
use crate::definitions::{def_of, names_of};
use crate::fitting::{are_fitting, are_placed};
use crate::text::put_plain;
use pt_ast::{Arg, Cells, Idents, Refusal, Spot, TableDef};
use pt_place::{in_set, leaf, place, valid};
use pt_value::Ident;
use std::alloc::{AllocError, Global};

/// Writes what is refused of a definition.
pub fn put_refusal(alloc: Global, out: &mut String, text: &str) -> Result<(), AllocError> {
    let (table, rest) = split(text);
    match def_of(alloc, rest) {
        Ok(def) => put_refusal_of(out, table, &def),
        Err(error) => Err(error),
    }
}

fn put_refusal_of(out: &mut String, table: &str, def: &TableDef) -> Result<(), AllocError> {
    match (Ident::of(table.as_bytes()), are_placed(def)) {
        (Ok(table), true) => match valid(&table, def) {
            Some(refusal) => put_cause(out, refusal),
            None => out.push_str("valid"),
        },
        _ => out.push('?'),
    }
}

fn put_cause(out: &mut String, refusal: Refusal) -> Result<(), AllocError> {
    let code = refusal.code();
    write!(out, "{code} ")?;
    put_plain(out, refusal.name())?;
    out.push(' ')?;
    put_arg(out, refusal.arg())
}

fn put_arg(out: &mut String, arg: Arg) -> Result<(), AllocError> {
    match arg {
        Arg::Name(name) => put_plain(out, name.bytes()),
        Arg::Number(number) => write!(out, "{number}"),
        Arg::Primary => out.push_str("PRIMARY"),
        Arg::Key => out.push_str("KEY"),
    }
}

/// Writes where a row is.
pub fn put_spot(alloc: Global, out: &mut String, text: &str) -> Result<(), AllocError> {
    let (cells, rest) = split(text);
    let cells = cells_of(alloc, cells)?;
    match def_of(alloc, rest) {
        Ok(def) => put_spot_of(out, spot_of(&def, &cells), &def),
        Err(error) => Err(error),
    }
}

/// Where a row is, if the definition is valid and the cells fit.
fn spot_of(def: &TableDef, cells: &Cells) -> Option<Option<Spot>> {
    if !are_placed(def) {
        return None;
    }
    if !are_fitting(&def.columns, cells) {
        return None;
    }
    let Ok(table) = Ident::of(b"t") else {
        return None;
    };
    match valid(&table, def) {
        Some(_) => None,
        None => Some(place_of(def, cells)),
    }
}

fn place_of(def: &TableDef, cells: &Cells) -> Option<Spot>
    requires valid { IsValid def.now }
    requires fitting { AreFitting def.now.columns cells.now }
{
    place(def, cells)
}

fn put_spot_of(
    out: &mut String,
    spot: Option<Option<Spot>>,
    def: &TableDef,
) -> Result<(), AllocError> {
    match spot {
        Some(Some(spot)) => {
            let (part, sub) = (spot.part, spot.sub);
            write!(out, "{part} {sub} ")?;
            put_leaf(out, leaf(def, spot))
        }
        Some(None) => out.push_str("none"),
        None => out.push('?'),
    }
}

fn put_leaf(out: &mut String, name: Option<Ident>) -> Result<(), AllocError> {
    match name {
        Some(name) => put_plain(out, name.bytes()),
        None => out.push('-'),
    }
}

/// Writes whether the spot of a row is among those named.
pub fn put_among(alloc: Global, out: &mut String, text: &str) -> Result<(), AllocError> {
    let (names, rest) = split(text);
    let (cells, rest) = split(rest);
    let names = names_of(alloc, names)?;
    let cells = cells_of(alloc, cells)?;
    match def_of(alloc, rest) {
        Ok(def) => put_among_of(out, &names, spot_of(&def, &cells), &def),
        Err(error) => Err(error),
    }
}

fn put_among_of(
    out: &mut String,
    names: &Idents,
    spot: Option<Option<Spot>>,
    def: &TableDef,
) -> Result<(), AllocError> {
    match spot {
        Some(Some(spot)) => {
            let among = in_set(def, names.items(), spot);
            write!(out, "{among}")
        }
        _ => out.push('?'),
    }
}
