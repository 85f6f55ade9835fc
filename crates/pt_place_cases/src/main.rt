//! Cases of the placement rules, of definitions and of placement: each line of standard input is one, and is answered by a line.
//!
//! | Line | Answer |
//! |---|---|
//! | `valid TABLE ITEM;..` | `valid`, or the code, the name and the argument of what is refused |
//! | `place CELL,.. ITEM;..` | the positions of the partition and the subpartition of a row, and the name of the leaf, `-` where there is none; or `none` |
//! | `among NAME,.. CELL,.. ITEM;..` | whether the spot of a row is among those named; `-` names none |
//! | `parts N VALUE` | the partition of a whole number or NULL among N, under HASH and under LINEAR HASH |
//! | `key N CELL,..` | the key number of columns, and its partition under KEY and under LINEAR KEY |
//! | `split N` | the partition that rows leave where N partitions become N + 1 |
//! | `range BOUNDS VALUE` | the position under RANGE, or `none`; or the code and the position of the first fault of the bounds |
//! | `rangecolumns BOUNDS CELL,.. NUMBER,..` | the same under RANGE COLUMNS, of the columns at these positions |
//! | `steps N VALUE` | the position under RANGE with the N bounds 10, 20, 30, .. |
//! | `list LISTS VALUE` | the position under LIST, or `none`, and the first position with a value that stands already, or `once` |
//! | `listcolumns LISTS CELL,.. NUMBER,..` | the same under LIST COLUMNS |
//! | `laws` | `laws`: the functions whose contracts are theorems have returned |
//!
//! `definitions` says how the items of a definition are written and `trees` how an expression is. A cell is `N` for NULL, `i-7`, a day
//! `d10957`, or bytes `xTEXT`, where `%` and two hexadecimal digits are a byte. A line without a word, or with a `#` at its front,
//! is printed as it stands. A bound is a cell or `max`. The items of a tuple stand with commas between, the tuples of a list with `;`
//! between, and partitions with `/` between. A value is digits, or `N`; a line that isn't written so is answered by `?`. A row that doesn't fit its columns, and a row of a definition that isn't valid, is answered by `?`.
//!
//! It stands on `pt_place`, `pt_bounds` and `pt_hash`.
#![tactic(auto)]

mod answers;
mod bounds;
mod cells;
mod definitions;
mod fitting;
mod numbers;
mod text;
mod told;
mod trees;

use crate::answers::answer;
use std::io::{self, BufRead, BufReader, BufWriter, Write};

fn main(rt: HostRuntime) -> io::Result<()> {
    let alloc = rt.alloc();
    let mut out = BufWriter::new(alloc, io::writer(&rt))?;
    for line in BufReader::new(alloc, rt.reader())?.lines(alloc) {
        let mut text = String::new(alloc);
        answer(alloc, &mut text, line?.as_str())?;
        writeln!(out, "{text}")?;
    }
    out.flush()
}
