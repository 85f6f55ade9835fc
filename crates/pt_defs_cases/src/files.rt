ghost use Rattle.pt_ast.specs.StorableDef.{IsStorableDef};

use crate::answers::{put_plain, split};
use pt_ast::TableDef;
use pt_bytes::{put_bytes, put_u64};
use pt_defs::{DefRead, def_bytes, def_of_bytes};
use pt_show::{same_structure, show_create};
use pt_value::Ident;
use std::alloc::{AllocError, Global};

/// The bytes that hexadecimal digits write, none where they are none.
fn bytes_of(alloc: Global, digits: &str) -> Vec<u8> {
    match hex::decode(alloc, digits) {
        Ok(bytes) => bytes,
        Err(_) => Vec::new(alloc),
    }
}

/// A file with this body.
fn with_head(alloc: Global, body: &[u8]) -> Result<Vec<u8>, AllocError> {
    let mut file = Vec::new(alloc);
    put_bytes(&mut file, &[80, 84, 68, 1])?;
    put_u64(&mut file, body.len() as u64)?;
    put_bytes(&mut file, body)?;
    Ok(file)
}

/// Writes why bytes are no definition.
fn put_fault(out: &mut String, fault: DefRead) -> Result<(), AllocError> {
    match fault {
        DefRead::Bad { place } => write!(out, "bad {place}"),
        DefRead::NoMemory => out.push_str("no memory"),
    }
}

/// Writes the text of the table `t` with this body.
pub fn put_show(alloc: Global, out: &mut String, digits: &str) -> Result<(), AllocError> {
    let file = with_head(alloc, &bytes_of(alloc, digits))?;
    match def_of_bytes(alloc, &file) {
        Ok(def) => {
            let shown = put_text(alloc, out, &def);
            drop(def);
            shown
        }
        Err(fault) => put_fault(out, fault),
    }
}

fn put_text(alloc: Global, out: &mut String, def: &TableDef) -> Result<(), AllocError> {
    let Ok(table) = Ident::of(b"t") else {
        return out.push('?');
    };
    let text = show_create(alloc, &table, def)?;
    put_plain(out, text.items())
}

/// Writes whether bytes are a definition file, and whether the definition's file is these bytes.
pub fn put_file(alloc: Global, out: &mut String, digits: &str) -> Result<(), AllocError> {
    put_read(alloc, out, &bytes_of(alloc, digits))
}

/// The same of the file with this body.
pub fn put_body(alloc: Global, out: &mut String, digits: &str) -> Result<(), AllocError> {
    let file = with_head(alloc, &bytes_of(alloc, digits))?;
    put_read(alloc, out, &file)
}

fn put_read(alloc: Global, out: &mut String, file: &[u8]) -> Result<(), AllocError> {
    match def_of_bytes(alloc, file) {
        Ok(def) => {
            let told = put_again(alloc, out, &def, file);
            drop(def);
            told
        }
        Err(fault) => put_fault(out, fault),
    }
}

/// Writes whether the bytes of a definition are these.
fn put_again(alloc: Global, out: &mut String, def: &TableDef, file: &[u8]) -> Result<(), AllocError>
    requires { IsStorableDef def.now }
{
    let again = def_bytes(alloc, def)?;
    out.push_str(if again.as_slice() == file {
        "ok"
    } else {
        "differs"
    })
}

/// Writes the places of a body that is cut before each of its bytes.
pub fn put_cuts(alloc: Global, out: &mut String, digits: &str) -> Result<(), AllocError> {
    let body = bytes_of(alloc, digits);
    for k in 0..body.len() {
        if k > 0 {
            out.push(' ')?;
        }
        put_cut(alloc, out, &body[..k])?;
    }
    Ok(())
}

fn put_cut(alloc: Global, out: &mut String, body: &[u8]) -> Result<(), AllocError> {
    let file = with_head(alloc, body)?;
    match def_of_bytes(alloc, &file) {
        Ok(def) => {
            drop(def);
            out.push('?')
        }
        Err(DefRead::Bad { place }) => write!(out, "{place}"),
        Err(DefRead::NoMemory) => out.push_str("no memory"),
    }
}

/// Writes whether two tables have the same structure.
pub fn put_same(alloc: Global, out: &mut String, rest: &str) -> Result<(), AllocError> {
    let (a, b) = split(rest);
    let file = with_head(alloc, &bytes_of(alloc, a))?;
    match def_of_bytes(alloc, &file) {
        Ok(def) => {
            let told = put_same_as(alloc, out, &def, b);
            drop(def);
            told
        }
        Err(fault) => put_fault(out, fault),
    }
}

fn put_same_as(
    alloc: Global,
    out: &mut String,
    def: &TableDef,
    digits: &str,
) -> Result<(), AllocError> {
    let file = with_head(alloc, &bytes_of(alloc, digits))?;
    match def_of_bytes(alloc, &file) {
        Ok(other) => {
            let answer = same_structure(def, &other);
            drop(other);
            out.push_str(if answer { "same" } else { "differ" })
        }
        Err(fault) => put_fault(out, fault),
    }
}
