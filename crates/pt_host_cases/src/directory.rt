//! Blocks about a real directory.
use crate::calls::{disk_answer, done_text, stream_answer};
use crate::texts::{bytes_of, cut};
use pt_dirhost::DirHost;
use pt_host::Host;
use std::os::unix::fs::symlink;
use std::{fs, io, str};

/// Answers the lines behind `directory`.
pub(crate) fn answer_block(rt: &HostRuntime, lines: &str) -> io::Result<()> {
    let mut host = DirHost::make(rt.alloc(), rt.clone()?);
    answer_lines(rt, &mut host, lines)
}

fn answer_lines(rt: &HostRuntime, host: &mut DirHost<HostRuntime>, lines: &str) -> io::Result<()> {
    println!(rt; "host")?;
    for line in lines.lines() {
        let answer = answer(rt, host, line)?;
        println!(rt; "{answer}")?;
    }
    Ok(())
}

fn answer(rt: &HostRuntime, host: &mut DirHost<HostRuntime>, line: &str) -> io::Result<String> {
    let (word, rest) = cut(line);
    match word {
        "enter" => Ok(done_text(rt.alloc(), host.enter(rest))?),
        "say" | "take" => Ok(stream_answer(rt.alloc(), host, word, rest)?),
        "folder" | "file" | "link" | "drop" | "gone" => prepare(rt, word, rest),
        "show" => fs::read_to_string(rt, rest),
        _ if line.starts_with('#') => Ok(String::from_str(rt.alloc(), line)?),
        _ => Ok(disk_answer(rt.alloc(), host, word, rest)?),
    }
}

/// Changes the folder in which the program runs, beside the host.
fn prepare(rt: &HostRuntime, word: &str, rest: &str) -> io::Result<String> {
    let (path, text) = cut(rest);
    let bytes = bytes_of(rt.alloc(), path)?;
    let path = str::from_utf8(&bytes).unwrap_or(path);
    match word {
        "folder" => fs::create_dir(rt, path)?,
        "file" => fs::write(rt, path, text)?,
        "link" => symlink(rt, path, text)?,
        "drop" => fs::remove_file(rt, path)?,
        _ => fs::remove_dir_all(rt, path)?,
    }
    Ok(String::from_str(rt.alloc(), "done")?)
}
