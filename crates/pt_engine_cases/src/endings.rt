//! The status and the line of an ending.
use crate::running::push_ending;
use pt_engine::{Ending, line};
use pt_host::Name;
use std::alloc::{AllocError, Global};

/// The ending that words write: its name, and those of the file and the place for damage.
pub fn ending_of(words: &str) -> Option<Ending> {
    let mut words = words.split_whitespace();
    let ending = match words.next()? {
        "Done" => Ending::Done,
        "Usage" => Ending::Usage,
        "DiskFault" => Ending::DiskFault,
        "NoMemory" => Ending::NoMemory,
        "InputFault" => Ending::InputFault,
        "OutputFault" => Ending::OutputFault,
        "TooLong" => Ending::TooLong,
        "Damaged" => Ending::Damaged {
            name: Name::of(words.next()?.as_bytes())?,
            place: words.next()?.parse::<u64>().ok()?,
        },
        _ => return None,
    };
    Some(ending)
}

/// The status of an ending and its line, how long the line is, and how many bytes behind it stay as they were.
pub fn ending_text(alloc: Global, ending: &Ending) -> Result<String, AllocError> {
    let mut bytes = [b'-'; 192];
    let length = line(ending, &mut bytes);
    let untouched = bytes.iter().rev().take_while(|byte| **byte == b'-').count();
    let mut text = String::new(alloc);
    push_ending(&mut text, ending)?;
    write!(text, ", {length} bytes and {untouched} untouched")?;
    Ok(text)
}
