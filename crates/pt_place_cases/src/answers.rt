use crate::bounds::{put_list, put_list_columns, put_range, put_range_columns, put_step};
use crate::numbers::{put_key, put_parts, put_split};
use crate::told::{put_among, put_refusal, put_spot};
use pt_bounds::{one_list, one_tuple};
use pt_hash::{linear_split, one_power, one_residue};
use pt_place::{one_spot, storable_is_placed, taken_in_spot};
use std::alloc::{AllocError, Global};

/// Writes the answer of a line.
pub fn answer(alloc: Global, out: &mut String, line: &str) -> Result<(), AllocError> {
    if line.is_empty() || line.starts_with('#') {
        return out.push_str(line);
    }
    let (word, rest) = split(line);
    match word {
        "valid" => put_refusal(alloc, out, rest),
        "place" => put_spot(alloc, out, rest),
        "among" => put_among(alloc, out, rest),
        "laws" => put_laws(out),
        _ => put_rule(alloc, out, word, rest),
    }
}

/// Writes the answer of a line of one rule.
fn put_rule(alloc: Global, out: &mut String, word: &str, rest: &str) -> Result<(), AllocError> {
    match word {
        "parts" => put_parts(out, rest),
        "key" => put_key(alloc, out, rest),
        "split" => put_split(out, rest),
        "range" => put_range(alloc, out, rest),
        "rangecolumns" => put_range_columns(alloc, out, rest),
        "steps" => put_step(alloc, out, rest),
        "list" => put_list(alloc, out, rest),
        "listcolumns" => put_list_columns(alloc, out, rest),
        _ => out.push('?'),
    }
}

/// The theorems do nothing.
fn put_laws(out: &mut String) -> Result<(), AllocError> {
    linear_split();
    one_power();
    one_residue();
    one_tuple();
    one_list();
    storable_is_placed();
    one_spot();
    taken_in_spot();
    out.push_str("laws")
}

/// What stands before the first space, and what behind it.
pub fn split(text: &str) -> (&str, &str) {
    match text.split_once(' ') {
        Some(parts) => parts,
        None => (text, ""),
    }
}
