//! The program: a real directory, standard input and standard output, handed to `pt_engine::run`.
//!
//! It prints the ending's line on standard error, where there is one, and ends with the ending's status. What `run` does
//! and how it ends is proved in `pt_engine`; that this file hands the line and the status on is seen by reading it.
#![tactic(auto)]

use pt_dirhost::DirHost;
use pt_engine::{Ending, code, line, run};
use std::io::ErrorKind;
use std::process::ExitCode;
use std::{env, str};

fn main(rt: HostRuntime) -> ExitCode {
    let ending = ending_of(&rt);
    print_line(&rt, &ending);
    ExitCode::from(code(&ending))
}

fn ending_of(rt: &HostRuntime) -> Ending {
    let words = match words_of(rt) {
        Ok(words) => words,
        Err(ending) => return ending,
    };
    match rt.clone() {
        Err(_) => Ending::NoMemory,
        Ok(own) => run(rt.alloc(), &words, &mut DirHost::make(rt.alloc(), own)),
    }
}

/// The words after the program's name. Words that are no text have no form.
fn words_of(rt: &HostRuntime) -> Result<Vec<String>, Ending> {
    match env::args(rt) {
        Ok(words) => Ok(words.skip(1).collect(rt.alloc())?),
        Err(error) if error.kind() == ErrorKind::OutOfMemory => Err(Ending::NoMemory),
        Err(_) => Err(Ending::Usage),
    }
}

fn print_line(rt: &HostRuntime, ending: &Ending) {
    let mut bytes = [0u8; 192];
    let len = line(ending, &mut bytes);
    if len > 0 {
        if let Ok(text) = str::from_utf8(&bytes[..len]) {
            let _ = rt.eprintln(text);
        }
    }
}
