//! Cases for `pt_token` and `pt_parse_expr`, one a line of standard input, and the answer to each on standard output.
//!
//! A line is a word, its arguments, and a piece T up to the line's end, in which `%` and two hexadecimal digits are a byte. An
//! empty line, and one that begins with `#`, is printed as it stands; `?` answers a line of another form.
//!
//! | Line | Answer |
//! |---|---|
//! | `tokens T` | the tokens of the piece T, each with a space behind it: a letter (`w`ord, `q`uoted, `n`umber, `t`ext, `h`ex or `s`ign), its span, and what a text or a hexadecimal string spells, between quotes; or the first fault |
//! | `pieces CHUNK T` | the pieces of the script T, which is fed in chunks of so many bytes: each in hexadecimal, with `_` behind it where it is blank, else with `;` |
//! | `sizes CHUNK SPACES T` | the same of so many spaces and T, where each piece is told by its length; at a refusal its cause |
//! | `long SPACES T` | the same in one chunk |
//! | `feed SPACES T` | what one feed of so many spaces and T tells, and the length of the piece once it is cleared, with its mark |
//! | `expr T`, `cond T` | the longest expression or condition that T begins with, and the number of the next token; or the fault |
//! | `expr_at AT T`, `cond_at AT T` | the same from the token AT on. Tokens count from 0 |
//! | `symbols T` | the symbols of T, each with a space behind it |
//! | `read_expr AT T`, `read_cond AT T` | what is read of these symbols from the symbol AT on, and the place of the next one; or `None` |
//! | `repeat LINE` | the answer to LINE, in which `{64*abc}` stands for 64 times `abc` |
//! | `runs UNIT~LINE` | the same, and in the answer 64 times UNIT, one behind the other, is written as `{64*UNIT}` |
//! | `laws` | `laws`: the functions whose contracts are theorems have returned |
//!
//! How trees are written stands at `put_expr` and `put_cond`, and symbols at `put_symbol`. It stands on `pt_token` and
//! `pt_parse_expr`.
#![tactic(auto)]

mod answers;
mod cutting;
mod leaves;
mod lexing;
mod reading;
mod repeats;
mod scripts;
mod symbolic;
mod trees;

use crate::repeats::answer;
use std::io::{self, BufRead, BufReader, BufWriter, Write};

fn main(rt: HostRuntime) -> io::Result<()> {
    let alloc = rt.alloc();
    let mut out = BufWriter::new(alloc, io::writer(&rt))?;
    for line in BufReader::new(alloc, rt.reader())?.lines(alloc) {
        let text = answer(alloc, line?.as_str())?;
        writeln!(out, "{text}")?;
    }
    out.flush()
}
