//! Cases for `pt_parse_ddl`, `pt_parse_dml` and `pt_parse_alter`, one a line of standard input, and the answer to each on standard output.
//!
//! A line is a piece, in which `%` and two hexadecimal digits are a byte. Its answer is the statement that it spells, or why it is
//! refused. It is read as a definition first; where none is spelled, as a statement on rows, and then as a change of a table. An empty
//! line, and one that begins with `#`, is printed as it stands. The line `laws` is answered by `laws`: the functions whose contracts are
//! theorems have returned. The line `rows 3 (7)` asks for `INSERT INTO t VALUES (7),(7),(7)`, and is answered by the numbers of rows and
//! of values.
//!
//! How statements are written stands at `put_stmt`, `put_new`, `put_update`, `put_delete`, `put_query` and `put_change`, expressions at
//! `put_expr` and conditions at `put_cond`. It stands on `pt_parse_ddl`, `pt_parse_dml` and `pt_parse_alter`.
#![tactic(auto)]

mod answers;
mod changes;
mod columns;
mod conds;
mod exprs;
mod partitions;
mod rows;
mod statements;

use crate::answers::answer;
use std::io::{self, BufRead, BufReader, BufWriter, Write};

fn main(rt: HostRuntime) -> io::Result<()> {
    let alloc = rt.alloc();
    let mut out = BufWriter::new(alloc, io::writer(&rt))?;
    for line in BufReader::new(alloc, rt.reader())?.lines(alloc) {
        let text = answer(alloc, line?.as_str())?;
        writeln!(out, "{text}")?;
    }
    out.flush()
}
