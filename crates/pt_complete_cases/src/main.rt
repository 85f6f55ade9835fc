//! Cases of what the text of CREATE TABLE means: each line of standard input is one, and is answered by a line.
//!
//! | Line | Answer |
//! |---|---|
//! | `create T` | the complete definition as SHOW CREATE TABLE shows it, `|` for a line's end; or `error`, the code, the name and the argument of what is refused |
//! | `long N T` | the numbers of lines and of bytes of what is shown of a long text; or the refusal |
//! | `place CELL,.. T` | the name of the partition or subpartition where a row belongs, `-` in an unpartitioned table, or `none` |
//!
//! T is a piece, in which `%` and two hexadecimal digits are a byte. In the text of `long` what stands in brackets is repeated N times with
//! commas between, and `@` in it is the number of the copy, from 0. A definition that is shown is written as a file and read back as well:
//! where another one is read, it is shown behind the first. A cell is `N` for NULL, `i-7`, a day `d10957`, or bytes `xTEXT`.
//!
//! A line without a word, or with a `#` at its front, is printed as it stands. What is no CREATE TABLE, and a row that doesn't fit its
//! columns, is answered by `?`.
//!
//! It stands on `pt_complete`, `pt_parse_ddl`, `pt_place`, `pt_defs` and `pt_show`.
#![tactic(auto)]

mod answers;
mod cells;
mod made;
mod told;

use crate::answers::answer;
use std::io::{self, BufRead, BufReader, BufWriter, Write};

fn main(rt: HostRuntime) -> io::Result<()> {
    let alloc = rt.alloc();
    let mut out = BufWriter::new(alloc, io::writer(&rt))?;
    for line in BufReader::new(alloc, rt.reader())?.lines(alloc) {
        let mut text = String::new(alloc);
        answer(alloc, &mut text, line?.as_str())?;
        writeln!(out, "{text}")?;
    }
    out.flush()
}
