//! Cases of row files and key books: each line of standard input is one, and is answered by a line.
//!
//! | Line | Answer |
//! |---|---|
//! | `rows HEX` | the rows that the bytes leave, each `SERIAL:CELL,..`, with a space before each but the first; or `bad` and the place |
//! | `put SERIAL CELL,..` | the bytes of the record that puts the row, or `?` where it can't be written |
//! | `delete SERIAL` | the bytes of the record that deletes it |
//! | `place SERIAL HEX` | the place of the record that put the row of this serial, or `none`; or `bad` and the place of the damage |
//! | `counter HEX` | `next` and the next serial, or `bad` and the place |
//! | `many N` | N puts and a delete of every second one are read: how many rows are left, and the first serial and the last |
//! | `book KEYS STEPS` | what each step on a key book answers: `ok`, `taken` and the serial, or `left` |
//! | `laws` | `laws`: the functions whose contracts are theorems have returned |
//!
//! Bytes are written with two hexadecimal digits each. A cell is `N` for NULL, `i-7`, a day `d10957`, or bytes `xHEX`. A key is `p`
//! (primary), `u` (unique) or `k` (plain) and the positions of its columns with commas between; keys stand with `;` between. Steps
//! stand with `/` between: `+SERIAL:CELL,..` enters a row, `-SERIAL:CELL,..` lets it leave. A line without a word, or with a `#` at
//! its front, is printed as it stands, and one that isn't written so is answered by `?`.
//!
//! It stands on `pt_rowfile` and `pt_unique`.
#![tactic(auto)]

mod answers;
mod books;
mod cells;
mod files;
mod short;

use crate::answers::answer;
use std::io::{self, BufRead, BufReader, BufWriter, Write};

fn main(rt: HostRuntime) -> io::Result<()> {
    let alloc = rt.alloc();
    let mut out = BufWriter::new(alloc, io::writer(&rt))?;
    for line in BufReader::new(alloc, rt.reader())?.lines(alloc) {
        let mut text = String::new(alloc);
        answer(alloc, &mut text, line?.as_str())?;
        writeln!(out, "{text}")?;
    }
    out.flush()
}
