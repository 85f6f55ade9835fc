//! Cases of checked expressions and conditions: each line of standard input is one, and is answered by a line.
//!
//! A line is a word, its arguments, and a text up to the line's end, in which `%` and two hexadecimal digits are a byte. The text's
//! longest expression or condition is taken. A line without a word, or with a `#` at its front, is printed as it stands.
//!
//! | Line | Answer |
//! |---|---|
//! | `check TEXT`, `checkdate TEXT` | the kind of an expression, where a text that is the whole expression is bytes, or a date |
//! | `checkcond TEXT` | `ok` for a condition that is well typed |
//! | `eval CELLS TEXT`, `evaldate CELLS TEXT` | what an expression comes to on a row |
//! | `truth CELLS TEXT` | what a condition is of a row |
//!
//! Each is answered by the fault where there is one: that of the tokens with its place, that of the grammar, or the first one of the
//! check, `NoColumn` with the column's name.
//!
//! The columns are `i INT, b BIGINT, d DATE, s VARBINARY(30)`. Cells, with commas between, are `N` for NULL, `i-7`, a day `d10957`, or
//! bytes `xTEXT`; a value is printed as a cell, bytes as `x` and their hexadecimal digits. A line that isn't written so, or whose
//! cells don't fit the columns, is answered by `?`.
//!
//! It stands on `pt_expr`, and on `pt_parse_expr` and `pt_token`, which read the texts.
#![tactic(auto)]

mod answers;
mod reading;
mod rows;
mod told;

use crate::answers::answer;
use crate::rows::sample_columns;
use std::io::{self, BufRead, BufReader, BufWriter, Write};

fn main(rt: HostRuntime) -> io::Result<()> {
    let alloc = rt.alloc();
    let columns = sample_columns(alloc)?;
    let mut out = BufWriter::new(alloc, io::writer(&rt))?;
    for line in BufReader::new(alloc, rt.reader())?.lines(alloc) {
        let mut text = String::new(alloc);
        answer(alloc, &mut text, &columns, line?.as_str())?;
        writeln!(out, "{text}")?;
    }
    out.flush()
}
