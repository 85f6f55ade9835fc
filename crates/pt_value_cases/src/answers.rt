use crate::cells::{put_comparison, put_fit, put_shown, put_signs, put_truth};
use crate::copies::{put_cells_copy, put_expr_copy, put_reply, put_row_copy, put_tables};
use crate::days::{put_day_of_text, put_parts};
use crate::definitions::put_def_copy;
use crate::names::{put_ident, put_same};
use std::alloc::{AllocError, Global};

/// Writes the answer of a line.
pub fn answer(alloc: Global, out: &mut String, line: &str) -> Result<(), AllocError> {
    if line.is_empty() || line.starts_with('#') {
        return out.push_str(line);
    }
    let (word, rest) = split(line);
    match word {
        "ident" => put_ident(alloc, out, rest),
        "same" => put_same(out, rest),
        "day" => put_day_of_text(alloc, out, rest),
        "parts" => put_parts(out, rest),
        "show" => put_shown(alloc, out, rest),
        "cmp" => put_comparison(alloc, out, rest),
        "signs" => put_signs(alloc, out, rest),
        "fits" => put_fit(alloc, out, rest),
        "not" | "and" | "or" => put_truth(out, word, rest),
        _ => answer_tree(alloc, out, word, rest),
    }
}

/// The same of the words on trees.
fn answer_tree(alloc: Global, out: &mut String, word: &str, rest: &str) -> Result<(), AllocError> {
    match word {
        "copycells" => put_cells_copy(alloc, out, rest),
        "copyrow" => put_row_copy(alloc, out, rest),
        "copyexpr" => put_expr_copy(alloc, out, rest),
        "copydef" => put_def_copy(alloc, out, rest),
        "reply" => put_reply(alloc, out, rest),
        "tables" => put_tables(alloc, out),
        _ => out.push('?'),
    }
}

/// What stands before the first space, and what behind it.
pub fn split(text: &str) -> (&str, &str) {
    match text.split_once(' ') {
        Some(parts) => parts,
        None => (text, ""),
    }
}
