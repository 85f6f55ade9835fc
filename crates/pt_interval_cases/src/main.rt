//! Cases of sets of values: each line of standard input is one, and is answered by a line. A line begins with a line of values, `int`,
//! `day` or `bytes`.
//!
//! | Line | Answer |
//! |---|---|
//! | `.. set LIMIT SET.. ? VALUE..` | `empty` or `some`, how many values, at most the limit; the values, `-` for none, or `more`; for each value behind `?` whether it is in |
//! | `.. gap LIMIT FROM TO` | how many values lie from the first on and below the second, at most the limit |
//! | `.. next VALUE` | the least value of all, and the one above this or `greatest` |
//! | `.. order VALUE VALUE` | `Less`, `Equal` or `Greater` |
//!
//! Sets are made one after the other, and the last one is asked: `all`, `none`, `point:VALUE`, `below:VALUE`, `from:VALUE`,
//! `between:FROM:TO`; `&` and `|` are what the last two share and what is in one of them, `!` is what isn't in the last, `U` is what is
//! in one of all before it.
//!
//! A number and a day are digits, a byte string is `xTEXT`, where `%` and two hexadecimal digits are a byte; `-` is no value. A line
//! without a word, or with a `#` at its front, is printed as it stands, and one that isn't written so is answered by `?`.
//!
//! It stands on `pt_interval`.
#![tactic(auto)]

mod answers;
mod sets;
mod words;

use crate::answers::answer;
use std::io::{self, BufRead, BufReader, BufWriter, Write};

fn main(rt: HostRuntime) -> io::Result<()> {
    let alloc = rt.alloc();
    let mut out = BufWriter::new(alloc, io::writer(&rt))?;
    for line in BufReader::new(alloc, rt.reader())?.lines(alloc) {
        let mut text = String::new(alloc);
        answer(alloc, &mut text, line?.as_str())?;
        writeln!(out, "{text}")?;
    }
    out.flush()
}
