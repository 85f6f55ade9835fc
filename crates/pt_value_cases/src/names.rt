use crate::answers::split;
use crate::text::{bytes_of, put_plain};
use pt_value::{Ident, NameFault};
use std::alloc::{AllocError, Global};

/// Writes the identifier that a text is, or why it is none.
pub fn put_ident(alloc: Global, out: &mut String, text: &str) -> Result<(), AllocError> {
    match Ident::of(&bytes_of(alloc, text)?) {
        Ok(name) => {
            out.push('`')?;
            put_plain(out, name.bytes())?;
            out.push('`')
        }
        Err(NameFault::BadByte { place }) => write!(out, "BadByte {place}"),
        Err(fault) => write!(out, "{fault:?}"),
    }
}

/// Writes whether two identifiers are the same but for case, whether they are equal, and how they compare.
pub fn put_same(out: &mut String, text: &str) -> Result<(), AllocError> {
    let (one, other) = split(text);
    match (Ident::of(one.as_bytes()), Ident::of(other.as_bytes())) {
        (Ok(one), Ok(other)) => {
            let (same, equal, order) = (one.same(&other), one == other, one.cmp(&other));
            write!(out, "{same} {equal} {order:?}")
        }
        _ => out.push('?'),
    }
}
