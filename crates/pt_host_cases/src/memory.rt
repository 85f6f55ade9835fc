//! Blocks about a host in memory.
ghost use Rattle.std.specs.Prelude.{◌≡◌, IfOk, None, false};
ghost use Rattle.pt_memhost.specs.Memory.{world_in};
ghost use Rattle.pt_host_cases.specs.Entered.{IsAt};

use crate::calls::{disk_answer, stream_answer};
use crate::texts::{bytes_of, bytes_text, cut, files_text, image_of};
use pt_host::{Host, Image};
use pt_memhost::MemHost;
use pt_plain::List;
use std::alloc::{AllocError, Global};
use std::io;

/// Answers the lines behind `memory <INPUT FILE..`.
pub(crate) fn answer_block(rt: &HostRuntime, head: &str, lines: &str) -> io::Result<()> {
    let (input, files) = cut(head);
    match image_of(rt.alloc(), files)? {
        None => println!(rt; "no image"),
        Some(image) => answer_over(rt, &image, input, lines),
    }
}

fn answer_over(rt: &HostRuntime, image: &Image, input: &str, lines: &str) -> io::Result<()> {
    println!(rt; "host")?;
    let input = input_of(rt.alloc(), input)?;
    let mut host = MemHost::from_image(rt.alloc(), image, &input)?;
    answer_lines(rt, &mut host, lines)
}

/// Answers the lines behind `empty <INPUT`.
pub(crate) fn answer_empty(rt: &HostRuntime, head: &str, lines: &str) -> io::Result<()> {
    println!(rt; "host")?;
    let input = input_of(rt.alloc(), head)?;
    let mut host = MemHost::empty(rt.alloc(), &input)?;
    answer_lines(rt, &mut host, lines)
}

fn input_of(alloc: Global, text: &str) -> Result<Vec<u8>, AllocError> {
    bytes_of(alloc, text.strip_prefix("<").unwrap_or(text))
}

fn answer_lines(rt: &HostRuntime, host: &mut MemHost, lines: &str) -> io::Result<()>
    requires { (world_in host.old).dir ≡ None }
{
    let mut is_entered = false;
    for line in lines.lines() {
        is_entered = answer_line(rt, host, is_entered, line)?;
    }
    Ok(())
}

/// Prints the answer, and tells whether a directory was entered.
fn answer_line(
    rt: &HostRuntime,
    host: &mut MemHost,
    is_entered: bool,
    line: &str,
) -> io::Result<bool>
    requires { IsAt is_entered (world_in host.old) }
    ensures { IfOk result (λ now. IsAt now (world_in host.new)) }
{
    let (answer, now) = answer(rt.alloc(), host, is_entered, line)?;
    println!(rt; "{answer}")?;
    Ok(now)
}

/// The answer, and whether a directory was entered.
fn answer(
    alloc: Global,
    host: &mut MemHost,
    is_entered: bool,
    line: &str,
) -> Result<(String, bool), AllocError>
    requires { IsAt is_entered (world_in host.old) }
    ensures { IfOk result (λ r. IsAt r.1 (world_in host.new)) }
{
    let (word, rest) = cut(line);
    match word {
        "enter" if !is_entered => enter(alloc, host, rest),
        "say" | "take" => Ok((stream_answer(alloc, host, word, rest)?, is_entered)),
        "fail" | "fuse" => Ok((order(alloc, host, word, rest)?, is_entered)),
        "image" | "said" | "counts" => Ok((told(alloc, host, word, rest)?, is_entered)),
        _ if line.starts_with('#') => Ok((String::from_str(alloc, line)?, is_entered)),
        "enter" => Ok((String::from_str(alloc, "entered")?, is_entered)),
        _ if is_entered => Ok((disk_answer(alloc, host, word, rest)?, true)),
        _ => Ok((String::from_str(alloc, "outside")?, false)),
    }
}

fn enter(alloc: Global, host: &mut MemHost, dir: &str) -> Result<(String, bool), AllocError>
    requires { (world_in host.old).dir ≡ None }
    ensures { IfOk result (λ r. IsAt r.1 (world_in host.new)) }
{
    match host.enter(dir) {
        Ok(()) => Ok((String::from_str(alloc, "ok")?, true)),
        Err(_) => Ok((String::from_str(alloc, "failed")?, false)),
    }
}

/// Orders calls to fail.
fn order(alloc: Global, host: &mut MemHost, word: &str, rest: &str) -> Result<String, AllocError>
    ensures { world_in host.new ≡ world_in host.old }
{
    if word == "fuse" {
        host.fuse(rest.parse::<u64>().unwrap_or(0));
    } else {
        host.fail_calls(numbers_of(alloc, rest)?);
    }
    String::from_str(alloc, "ordered")
}

fn numbers_of(alloc: Global, text: &str) -> Result<Vec<u64>, AllocError> {
    let mut numbers = Vec::new(alloc);
    for number in text.split_whitespace() {
        if let Ok(number) = number.parse::<u64>() {
            numbers.push(number)?;
        }
    }
    Ok(numbers)
}

/// What the host tells without a call.
fn told(alloc: Global, host: &MemHost, word: &str, rest: &str) -> Result<String, AllocError> {
    match word {
        "image" => {
            let image = host.image_pick(rest.parse::<u64>().unwrap_or(0))?;
            files_text(alloc, image.files.items())
        }
        "said" => bytes_text(alloc, host.said()),
        _ => counts(alloc, host),
    }
}

fn counts(alloc: Global, host: &MemHost) -> Result<String, AllocError> {
    let (calls, starved) = (host.calls(), host.starved());
    let (pending, syncs, written) = (host.pending(), host.syncs(), host.written());
    format!(in alloc;
        "calls {calls} starved {starved} pending {pending} syncs {syncs} written {written}"
    )
}
