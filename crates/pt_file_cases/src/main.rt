//! Asks the store one question a line, and prints one answer a line.
//!
//! An empty line and a line that begins with `#` are printed as they stand. BYTES are bytes as they stand, where `%` and two
//! hexadecimal digits are one, and FILE is `NAME=BYTES`. ACT is `delete:NAME`, `rename:FROM:TO`, `replace:FROM:TO` or
//! `exchange:A:B`.
//!
//! | Line | Answer |
//! |---|---|
//! | `files FILE..` | these files are the directory that the next lines ask about: `files` and these, or `no files` where their names don't rise |
//!
//! A question about the directory may end with a CHANGE of one of its files, which the directory itself doesn't take:
//! `cut COUNT NAME` leaves so many bytes, `set PLACE BYTE NAME` puts another byte at a place, `longer BYTES NAME` adds
//! bytes, and `is BYTES NAME` puts others in their place.
//!
//! | Line | Answer |
//! |---|---|
//! | `map CHANGE` | the map that a `Store` reads back over these files at rest, or `bad NAME PLACE` |
//! | `length NAME` | the length that the store tells, or `absent` |
//! | `left` | how many name operations are pending once a store was attached, and the files that a stop then leaves |
//! | `append FILE..` | adds these bytes at the ends of these files of its map, which is from then on what is left: the answer, whether the store is live and how many calls it took; `unfit` where the map lacks one |
//! | `stops FILE..` | the same append once more for each of its calls with a fault in that call, and with one in each call from that one on: how many runs, how many didn't answer `fault` with a spent store, how many left it live, and how many images that a stop may then leave show another map than the old one and the new one |
//! | `reshape ACT.. / FILE..` | does these acts to its map with these fresh bytes, which is from then on what is left: how many calls it took, whether the store is live, how many name operations are pending, in how many calls memory was wanting, and what the same store reads back; `outside` where `Store::reshape` may not be asked so |
//! | `reshapestops ACT.. / FILE..` | of that reshape what `stops` tells of an append |
//! | `fault NUMBER SHIFT FILE..` | an append of these bytes with a fault in its call of this number, counted from 0, and with SHIFT 1 after one call more: the answer, whether the store is live, and of the images that a stop may then leave how many were opened, how many show the old map, the new one, and another |
//!
//! | Line without the directory | Answer |
//! |---|---|
//! | `clean ACT..` | whether these acts are a clean chain |
//! | `laws` | calls the functions whose clauses are theorems |
//!
//! It stands on `pt_store`, `pt_ddl_log` and `pt_left`, and on `pt_memhost` for the host.
#![tactic(auto)]

mod allowed;
mod changing;
mod faults;
mod maps;
mod reshaping;
mod texts;

use std::alloc::{AllocError, Global};
use std::io;

fn main(rt: HostRuntime) -> io::Result<()> {
    let text = io::read_to_string(rt.alloc(), rt.reader())?;
    let mut directory = String::new(rt.alloc());
    for line in text.as_str().lines() {
        let answer = answer(rt.alloc(), &mut directory, line)?;
        println!(rt; "{answer}")?;
    }
    Ok(())
}

/// Answers a line, which may change the directory.
fn answer(alloc: Global, directory: &mut String, line: &str) -> Result<String, AllocError> {
    let (word, rest) = texts::cut(line);
    match word {
        "files" => {
            *directory = String::from_str(alloc, rest)?;
            texts::directory_text(alloc, rest)
        }
        "append" => changing::append_answer(alloc, directory, rest),
        "reshape" => reshaping::answer(alloc, directory, rest),
        _ => answer_about(alloc, directory.as_str(), word, rest, line),
    }
}

fn answer_about(
    alloc: Global,
    directory: &str,
    word: &str,
    rest: &str,
    line: &str,
) -> Result<String, AllocError> {
    match word {
        "map" => maps::map_answer(alloc, directory, rest),
        "length" => maps::length_answer(alloc, directory, rest),
        "left" => maps::left_answer(alloc, directory),
        "fault" => faults::answer(alloc, directory, rest),
        "stops" => changing::stops_answer(alloc, directory, rest),
        "reshapestops" => reshaping::stops_answer(alloc, directory, rest),
        "clean" => changing::clean_answer(alloc, rest),
        "laws" => {
            laws();
            String::from_str(alloc, word)
        }
        "" => Ok(String::new(alloc)),
        _ if line.starts_with('#') => String::from_str(alloc, line),
        _ => String::from_str(alloc, "no word"),
    }
}

fn laws() {
    pt_ddl_log::one_act_each();
    pt_ddl_log::in_any_order();
    pt_store::reshapes_by_name();
    pt_left::stands_for_one_map();
}
