//! Cases of the engine: scripts over the host in memory and over a real folder, each a line.
//!
//! A line of standard input is a word and what follows it, and gives one line of output; `stdout` has the lines that are
//! wanted. What was said is printed with `/` for a line feed, and `status` with the ending's status and its line. How many
//! name operations are pending, and in how many calls memory was wanting, stands behind it where it isn't 0. A line that
//! begins with `# `, and an empty one, is printed as it stands.
//!
//! The standing directory is the one that the last line of these words left. In SCRIPT and BYTES, here, `%` and two
//! hexadecimal digits stand for a byte.
//!
//! | Line | What is done | What is printed |
//! |---|---|---|
//! | `run SCRIPT` | `run d` over an empty directory, with this input | what was said, and the ending |
//! | `again SCRIPT` | the same over the standing directory | the same |
//! | `spaces N SCRIPT` | as `run`, with so many spaces behind the script | the same |
//! | `files NAME=BYTES ..` | the directory has these files, whose names rise | how many |
//! | `map NAME=BYTES ..` | it has one file, `whole.map`, which spells the map of these files | its length |
//! | `refused SCRIPT` | as `again`, but the directory stands as it was | also how many bytes were written, and whether a stop leaves the files as they were |
//! | `shows` | nothing | the files, with their lengths |
//! | `holds NAME=BYTES ..` | nothing | `held` where the directory has one file, `whole.map`, which spells the map of these files, else `not held` |
//!
//! Calls that fail. TABLES are names with commas between. `FIRST |` may be left out. The script, behind a space, is run over
//! the directory that FIRST leaves, which was run over an empty one. What the tables show is what a next run answers to
//! `SELECT * FROM` each of them, and for `stops` and `shadowed` to `SHOW CREATE TABLE` before it.
//!
//! | Line | What is done | What is printed |
//! |---|---|---|
//! | `calls TABLES FIRST \| SCRIPT` | a run | how many calls it made |
//! | `fault N TABLES FIRST \| SCRIPT` | a run whose N-th call fails, counted from 0 | what was said, the ending, and each text that the tables show over a directory that a stop may leave |
//! | `fuse N TABLES FIRST \| SCRIPT` | a run in which each call from the N-th on fails | the same |
//! | `stops TABLES FIRST \| SCRIPT` | such runs for each N, and after each all directories that a stop may leave are opened | how many calls, runs and directories there were, and how many of these the model doesn't allow |
//! | `shadowed TABLES FIRST \| SCRIPT` | the same, with a shadow in the directory at the start | the same |
//!
//! `stops` makes four runs for each call: with `fault` and `fuse`, and each with and without a call made before it that takes
//! the space, since a change of names that fails is made where its number is odd. What differs is to be 0, and the first such
//! fault is printed else. The other numbers follow from the calls of a run: with p name operations pending after the fault,
//! 8 × (p + 1) choices of `image_pick` give a directory each.
//!
//! A real folder, in the one in which the program runs:
//!
//! | Line | What is done | What is printed |
//! |---|---|---|
//! | `makes NAME` | the folder is made, empty | `made` |
//! | `removes NAME` | it is removed | `removed` |
//! | `folder NAME SCRIPT` | `run NAME` over it, with this input | what was said, and the ending |
//!
//! | Line | What is printed |
//! |---|---|
//! | `words WORD ..` | the ending of a run with these words over an empty directory and an input of one CREATE, and how many calls it made |
//! | `model SCRIPT` | the code and the text of each answer of the model |
//! | `syntax N` | the same of the N-th piece, where it spells no statement |
//! | `ending NAME` | the ending's status and line, how long the line is, and how many of 192 bytes stay behind it; `ending Damaged FILE PLACE` |
//! | `laws` | that the functions whose contracts are laws of readings were called |
//!
//! It stands on `pt_engine`, on `pt_memhost` and `pt_dirhost` for the hosts, on `pt_flat` for the model and `pt_reading` for what a
//! statement is read as, on `pt_db`, `pt_ast` and `pt_value` for databases and answers, and on `pt_host` and `pt_plain`. A program proves its
//! own safety; what it shows are its lines.
#![tactic(auto)]

mod asking;
mod endings;
mod faults;
mod files;
mod folder;
mod model;
mod running;
mod stops;
mod text;

use asking::answer;
use files::no_files;
use folder::real_text;
use pt_host::Image;
use std::io;
use std::io::{BufRead, BufReader, BufWriter, Write};

fn main(rt: HostRuntime) -> io::Result<()> {
    let alloc = rt.alloc();
    let mut standing = no_files(alloc)?;
    let mut out = BufWriter::new(alloc, io::writer(&rt))?;
    for line in BufReader::new(alloc, rt.reader())?.lines(alloc) {
        let text = line_text(&rt, &mut standing, line?.as_str())?;
        writeln!(out, "{text}")?;
    }
    out.flush()
}

/// What a line gives.
fn line_text(rt: &HostRuntime, standing: &mut Image, line: &str) -> io::Result<String> {
    let (word, rest) = line.split_once(' ').unwrap_or((line, ""));
    match word {
        "makes" | "removes" | "folder" => real_text(rt, word, rest),
        _ => Ok(answer(rt.alloc(), standing, line)?),
    }
}
