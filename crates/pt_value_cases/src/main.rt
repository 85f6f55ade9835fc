//! Cases of values, dates, identifiers and trees: each line of standard input is one, and is answered by a line.
//!
//! A line is a word, its arguments, and where there is a text this up to the line's end. In it `%` and two hexadecimal digits are a
//! byte. A line without a word, or with a `#` at its front, is printed as it stands.
//!
//! | Line | Answer |
//! |---|---|
//! | `ident TEXT` | the identifier between backquotes, or why the text is none |
//! | `same A B` | of two identifiers whether they are the same but for case, whether they are equal, and how their bytes compare |
//! | `day TEXT` | the day that a text spells and its `parts`, or `none` |
//! | `parts DAY` | the day, year, month, day of the month, of the year, of the week, weekday, quarter and TO_DAYS, or `none` |
//! | `show CELL` | the printed text of a value |
//! | `cmp CELL CELL` | how two values compare |
//! | `signs CELL CELL,..` | how a value compares with each of others: `<`, `=` or `>` |
//! | `fits CELL KIND` | whether a column takes a value; kinds are `int`, `bigint`, `date` and `binary30` |
//! | `not A`, `and A B`, `or A B` | of `False`, `Unknown` and `True` |
//! | `copycells CELL,..` | a copy of values, printed as they are written |
//! | `copyrow SERIAL CELL,..` | a copy of a row, printed as it is written |
//! | `copyexpr EXPR` | a copy of an expression, printed as it is written |
//! | `copydef ITEM;..` | a copy of a definition, printed as it is written |
//! | `reply CODE TEXT` | the code and the bytes of a reply |
//! | `tables` | how many tables there are in a set of none: lent, and given back |
//!
//! A cell is `N` for NULL, `i-7`, a day `d10957`, or bytes `xTEXT`. `trees` says how an expression is written and `definitions` how
//! the items of a definition are. A line that isn't written so is answered by `?` or by another text than was wanted.
//!
//! It stands on `pt_value` and `pt_ast`.
#![tactic(auto)]

mod answers;
mod cells;
mod copies;
mod days;
mod definitions;
mod names;
mod text;
mod trees;

use crate::answers::answer;
use pt_value::{one_date, one_spelling, one_value, spelled_day};
use std::io::{self, BufRead, BufReader, BufWriter, Write};

fn main(rt: HostRuntime) -> io::Result<()> {
    call_laws();
    let alloc = rt.alloc();
    let mut out = BufWriter::new(alloc, io::writer(&rt))?;
    for line in BufReader::new(alloc, rt.reader())?.lines(alloc) {
        let mut text = String::new(alloc);
        answer(alloc, &mut text, line?.as_str())?;
        writeln!(out, "{text}")?;
    }
    out.flush()
}

/// The theorems do nothing.
fn call_laws() {
    one_date();
    one_spelling();
    spelled_day();
    one_value();
}
