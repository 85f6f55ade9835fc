use crate::books::put_book;
use crate::files::{put_counter, put_deleted, put_many, put_placed, put_put, put_rows};
use pt_rowfile::{appended, one_record};
use pt_unique::agreeing;
use std::alloc::{AllocError, Global};

/// Writes the answer of a line.
pub fn answer(alloc: Global, out: &mut String, line: &str) -> Result<(), AllocError> {
    if line.is_empty() || line.starts_with('#') {
        return out.push_str(line);
    }
    let (word, rest) = split(line);
    match word {
        "rows" => put_rows(alloc, out, rest),
        "put" => put_put(alloc, out, rest),
        "delete" => put_deleted(alloc, out, rest),
        "place" => put_placed(alloc, out, rest),
        "counter" => put_counter(alloc, out, rest),
        "many" => put_many(alloc, out, rest),
        "book" => put_book(alloc, out, rest),
        "laws" => put_laws(out),
        _ => out.push('?'),
    }
}

/// The theorems do nothing.
fn put_laws(out: &mut String) -> Result<(), AllocError> {
    one_record();
    appended();
    agreeing();
    out.push_str("laws")
}

/// What stands before the first space, and what behind it.
pub fn split(text: &str) -> (&str, &str) {
    match text.split_once(' ') {
        Some(parts) => parts,
        None => (text, ""),
    }
}
