use crate::files::{put_body, put_cuts, put_file, put_same, put_show};
use crate::names::{put_leaf, put_names, put_owner};
use pt_bytes::one_number;
use pt_defs::one_spelling;
use pt_names::one_owner;
use std::alloc::{AllocError, Global};

/// Writes the answer of a line.
pub fn answer(alloc: Global, out: &mut String, line: &str) -> Result<(), AllocError> {
    if line.is_empty() || line.starts_with('#') {
        return out.push_str(line);
    }
    let (word, rest) = split(line);
    match word {
        "show" => put_show(alloc, out, rest),
        "cuts" => put_cuts(alloc, out, rest),
        "file" => put_file(alloc, out, rest),
        "body" => put_body(alloc, out, rest),
        "same" => put_same(alloc, out, rest),
        "names" => put_names(out, rest),
        "leaf" => put_leaf(out, rest),
        "owner" => put_owner(out, rest),
        "laws" => put_laws(out),
        _ => out.push('?'),
    }
}

/// The theorems do nothing.
fn put_laws(out: &mut String) -> Result<(), AllocError> {
    one_number();
    one_owner();
    one_spelling();
    out.push_str("laws")
}

/// What stands before the first space, and what behind it.
pub fn split(text: &str) -> (&str, &str) {
    match text.split_once(' ') {
        Some(parts) => parts,
        None => (text, ""),
    }
}

/// Writes bytes that stand for themselves, `|` for a line's end.
pub fn put_plain(out: &mut String, bytes: &[u8]) -> Result<(), AllocError> {
    for b in bytes {
        let b = if *b == b'\n' { b'|' } else { *b };
        out.push(char::from(b))?;
    }
    Ok(())
}
