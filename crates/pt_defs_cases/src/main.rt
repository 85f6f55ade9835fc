//! Cases of definition files, of SHOW CREATE TABLE and of file names: each line of standard input is one, and is answered by a line.
//!
//! | Line | Answer |
//! |---|---|
//! | `show BODY` | the text of the table `t` with this definition, `|` for a line's end; or `bad` and a place |
//! | `cuts BODY` | the places that the body is told with, cut before each of its bytes |
//! | `file BYTES` | `ok` where the definition that is read is written as these bytes, else `differs`; or `bad` and a place |
//! | `body BODY` | the same of a body |
//! | `same BODY BODY` | `same` where both have the same structure, else `differ` |
//! | `names TABLE` | the names of the files of a table's definition and rows |
//! | `leaf TABLE LEAF` | the name of the file of a partition's rows |
//! | `owner NAME` | whose file a name is |
//! | `laws` | `laws`: the functions whose contracts are theorems have returned |
//!
//! A body is all that follows the length of a definition file, in hexadecimal digits; `file` takes a whole file. A line without a
//! word, or with a `#` at its front, is printed as it stands, and one that isn't written so is answered by `?`.
//!
//! It stands on `pt_defs`, `pt_show` and `pt_names`.
#![tactic(auto)]

mod answers;
mod files;
mod names;

use crate::answers::answer;
use std::io::{self, BufRead, BufReader, BufWriter, Write};

fn main(rt: HostRuntime) -> io::Result<()> {
    let alloc = rt.alloc();
    let mut out = BufWriter::new(alloc, io::writer(&rt))?;
    for line in BufReader::new(alloc, rt.reader())?.lines(alloc) {
        let mut text = String::new(alloc);
        answer(alloc, &mut text, line?.as_str())?;
        writeln!(out, "{text}")?;
    }
    out.flush()
}
