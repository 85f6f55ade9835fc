//! Cases for `pt_flat` and `pt_altered`, one a line of standard input, and the answer to each on standard output.
//!
//! A line is a statement, in which `%` and two hexadecimal digits are a byte. It is taken on the database that the lines before it have
//! left, and the answer is that of the model. The line `new` begins with the database without tables, and `late` with one whose next
//! row takes the last serial. These, an empty line and one that begins with `#` are printed as they stand.
//!
//! It stands on `pt_flat` and `pt_altered`, and on `pt_parse_ddl`, `pt_parse_dml` and `pt_parse_alter` for what a line spells.
#![tactic(auto)]

mod lines;
mod reading;
mod taking;

use crate::lines::answer;
use crate::taking::begun;
use std::io::{self, BufRead, BufReader, BufWriter, Write};

fn main(rt: HostRuntime) -> io::Result<()> {
    let alloc = rt.alloc();
    let mut out = BufWriter::new(alloc, io::writer(&rt))?;
    let mut db = begun(alloc, "new");
    let mut number = 0u64;
    for line in BufReader::new(alloc, rt.reader())?.lines(alloc) {
        let mut text = Vec::new(alloc);
        answer(alloc, &mut text, &mut db, &mut number, line?.as_str())?;
        out.write_all(&text)?;
    }
    out.flush()
}
