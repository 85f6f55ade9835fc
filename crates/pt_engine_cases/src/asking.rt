//! What each word asks.
use crate::endings::{ending_of, ending_text};
use crate::faults::{Asked, calls_text, fault_text, shadowed_trial_of, trial_of};
use crate::files::{directory_of, files_text, held_text, last_length, map_of, no_files};
use crate::model::{model_text, syntax_text};
use crate::running::{Fault, refused_text, run_text, words_text};
use crate::stops::stops_text;
use crate::text::bytes_of;
use pt_host::Image;
use std::alloc::{AllocError, Global};

/// What a line gives.
pub fn answer(alloc: Global, standing: &mut Image, text: &str) -> Result<String, AllocError> {
    let (word, rest) = text.split_once(' ').unwrap_or((text, ""));
    match word {
        "" | "#" => String::from_str(alloc, text),
        "run" | "again" | "spaces" | "refused" | "files" | "map" | "shows" | "holds" => {
            standing_text(alloc, standing, word, rest)
        }
        "fault" | "fuse" | "stops" | "shadowed" | "calls" => trial_text(alloc, word, rest),
        _ => plain_text(alloc, word, rest),
    }
}

fn wrong_line(alloc: Global) -> Result<String, AllocError> {
    String::from_str(alloc, "no case")
}

/// A line that speaks of the standing directory.
fn standing_text(
    alloc: Global,
    standing: &mut Image,
    word: &str,
    rest: &str,
) -> Result<String, AllocError> {
    match word {
        "run" => run_anew(alloc, standing, &bytes_of(alloc, rest)?),
        "again" => run_text(alloc, standing, &bytes_of(alloc, rest)?),
        "spaces" => spaces_text(alloc, standing, rest),
        "refused" => refused_text(alloc, standing, &bytes_of(alloc, rest)?),
        "files" => begin_with(alloc, standing, directory_of(alloc, rest)?),
        "map" => begin_with_map(alloc, standing, map_of(alloc, rest)?),
        "holds" => held_text(alloc, standing, rest),
        _ => files_text(alloc, standing.files.items()),
    }
}

/// A run over an empty directory.
fn run_anew(alloc: Global, standing: &mut Image, input: &[u8]) -> Result<String, AllocError> {
    *standing = no_files(alloc)?;
    run_text(alloc, standing, input)
}

/// A run of a script with so many spaces behind it.
fn spaces_text(alloc: Global, standing: &mut Image, rest: &str) -> Result<String, AllocError> {
    let (count, script) = rest.split_once(' ').unwrap_or((rest, ""));
    let mut input = bytes_of(alloc, script)?;
    for _ in 0..count.parse::<u32>().unwrap_or(0) {
        input.push(b' ')?;
    }
    run_anew(alloc, standing, &input)
}

fn begin_with(
    alloc: Global,
    standing: &mut Image,
    directory: Option<Image>,
) -> Result<String, AllocError> {
    let Some(directory) = directory else {
        return wrong_line(alloc);
    };
    *standing = directory;
    let count = standing.files.items().len();
    format!(in alloc; "files {count}")
}

fn begin_with_map(
    alloc: Global,
    standing: &mut Image,
    directory: Option<Image>,
) -> Result<String, AllocError> {
    let Some(directory) = directory else {
        return wrong_line(alloc);
    };
    *standing = directory;
    let length = last_length(&standing.files);
    format!(in alloc; "bytes {length}")
}

/// A line that runs a script with calls that fail.
fn trial_text(alloc: Global, word: &str, rest: &str) -> Result<String, AllocError> {
    match word {
        "stops" => stops_text(alloc, &trial_of(alloc, rest, Asked::All)?),
        "shadowed" => stops_text(alloc, &shadowed_trial_of(alloc, rest, Asked::All)?),
        "calls" => calls_text(alloc, &trial_of(alloc, rest, Asked::Rows)?),
        _ => faulty_text(alloc, word, rest),
    }
}

fn faulty_text(alloc: Global, word: &str, rest: &str) -> Result<String, AllocError> {
    let (number, rest) = rest.split_once(' ').unwrap_or((rest, ""));
    let number = number.parse::<u64>().unwrap_or(0);
    let fault = match word {
        "fault" => Fault::At(number),
        _ => Fault::From(number),
    };
    fault_text(alloc, &trial_of(alloc, rest, Asked::Rows)?, fault)
}

/// A line that is answered by itself.
fn plain_text(alloc: Global, word: &str, rest: &str) -> Result<String, AllocError> {
    match word {
        "words" => words_text(alloc, &no_files(alloc)?, rest),
        "model" => model_text(alloc, &bytes_of(alloc, rest)?),
        "syntax" => syntax_text(alloc, rest.parse::<u64>().unwrap_or(0)),
        "ending" => match ending_of(rest) {
            None => wrong_line(alloc),
            Some(ending) => ending_text(alloc, &ending),
        },
        "laws" => laws_text(alloc),
        _ => wrong_line(alloc),
    }
}

fn laws_text(alloc: Global) -> Result<String, AllocError> {
    pt_reading::all_statements();
    pt_reading::one_reading();
    String::from_str(alloc, "called")
}
