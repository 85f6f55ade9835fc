//! One run over the host in memory.
ghost use Rattle.std.specs.Prelude.{◌≡◌, IfOk, None};
ghost use Rattle.pt_host.specs.Disk.{IsAtRest};
ghost use Rattle.pt_memhost.specs.Memory.{world_in};

use crate::text::push_bytes;
use pt_engine::{Ending, code, line, run};
use pt_host::{Host, Image};
use pt_memhost::MemHost;
use pt_plain::List;
use std::alloc::{AllocError, Global};

/// Which calls on the host fail, counted from 0.
#[derive(Clone, Copy, Debug)]
pub enum Fault {
    Never,
    /// The one of this number.
    At(u64),
    /// Each from this number on.
    From(u64),
}

/// Orders calls to fail.
fn order(alloc: Global, host: &mut MemHost, fault: Fault) -> Result<(), AllocError>
    ensures { world_in host.new ≡ world_in host.old }
{
    match fault {
        Fault::Never => {}
        Fault::At(number) => host.fail_calls(Vec::from_slice(alloc, &[number])?),
        Fault::From(number) => host.fuse(number),
    }
    Ok(())
}

/// Makes a call that takes one byte of the input, or fails.
fn take_one(host: &mut MemHost)
    ensures dir { (world_in host.new).dir ≡ (world_in host.old).dir }
    ensures now { (world_in host.new).now ≡ (world_in host.old).now }
{
    let _ = host.take(&mut [0]);
}

/// A host with this directory and input, whose calls fail so. With `shift` a call is made already, which may have taken
/// the first byte of the input.
fn started(
    alloc: Global,
    directory: &Image,
    input: &[u8],
    fault: Fault,
    shift: bool,
) -> Result<MemHost, AllocError>
    ensures new { IfOk result (λ host. (world_in host).dir ≡ None) }
    ensures rests { IfOk result (λ host. IsAtRest (world_in host).now.fs) }
{
    let mut host = MemHost::from_image(alloc, directory, input)?;
    let ordered = order(alloc, &mut host, fault);
    if shift {
        take_one(&mut host);
    }
    beside(host, ordered)
}

/// A value that stands beside the answer of a call. It is let go here where that call failed.
fn beside<T: Drop>(value: T, answer: Result<(), AllocError>) -> Result<T, AllocError>
    ensures { IfOk result (λ kept. kept ≡ value) }
{
    match answer {
        Ok(()) => Ok(value),
        Err(error) => Err(error),
    }
}

/// A host that was run over, beside how the run ended.
fn ended<T: Drop>(host: T, ending: Result<Ending, AllocError>) -> Result<(Ending, T), AllocError> {
    match ending {
        Ok(ending) => Ok((ending, host)),
        Err(error) => Err(error),
    }
}

/// The words of a command line.
pub fn words_of(alloc: Global, command: &str) -> Result<Vec<String>, AllocError> {
    let mut words = Vec::new(alloc);
    for word in command.split_whitespace() {
        words.push(String::from_str(alloc, word)?)?;
    }
    Ok(words)
}

/// How a run of these words ends.
fn run_words(alloc: Global, command: &str, host: &mut MemHost) -> Result<Ending, AllocError>
    requires new { (world_in host.old).dir ≡ None }
    requires at_rest { IsAtRest (world_in host.old).now.fs }
{
    let words = words_of(alloc, command)?;
    Ok(run(alloc, &words, host))
}

/// The host after a run over this directory and input, and how it ended.
pub fn host_after(
    alloc: Global,
    directory: &Image,
    input: &[u8],
    fault: Fault,
    shift: bool,
) -> Result<(Ending, MemHost), AllocError> {
    ran_words(
        alloc,
        "run d",
        started(alloc, directory, input, fault, shift)?,
    )
}

/// A host that was started, after a run of these words, and how it ended.
fn ran_words(
    alloc: Global,
    command: &str,
    mut host: MemHost,
) -> Result<(Ending, MemHost), AllocError>
    requires new { (world_in host).dir ≡ None }
    requires at_rest { IsAtRest (world_in host).now.fs }
{
    let ending = run_words(alloc, command, &mut host);
    ended(host, ending)
}

/// What was said, and the ending's status and line. Behind them stands what is there only where something went wrong: how
/// many name operations are pending, and in how many calls memory was wanting.
pub fn ran_text(alloc: Global, ending: &Ending, host: &MemHost) -> Result<String, AllocError> {
    let mut text = said_text(alloc, ending, host.said())?;
    push_count(&mut text, "pending", host.pending())?;
    push_count(&mut text, "starved", host.starved())?;
    Ok(text)
}

/// What was said, and the ending.
pub fn said_text(alloc: Global, ending: &Ending, said: &[u8]) -> Result<String, AllocError> {
    let mut text = String::new(alloc);
    push_bytes(&mut text, said)?;
    if !said.is_empty() {
        text.push(' ')?;
    }
    push_ending(&mut text, ending)?;
    Ok(text)
}

fn push_count(text: &mut String, name: &str, count: u64) -> Result<(), AllocError> {
    if count == 0 {
        return Ok(());
    }
    write!(text, ", {name} {count}")
}

/// The status of an ending and its line.
pub fn push_ending(text: &mut String, ending: &Ending) -> Result<(), AllocError> {
    let mut bytes = [b'-'; 192];
    let length = line(ending, &mut bytes);
    let status = code(ending);
    write!(text, "status {status}")?;
    if length > 0 {
        text.push(' ')?;
    }
    push_bytes(text, &bytes[..length])
}

/// What a run over this directory and input says, with the ending's line behind it.
pub fn said_over(alloc: Global, directory: &Image, input: &[u8]) -> Result<Vec<u8>, AllocError> {
    let (ending, host) = host_after(alloc, directory, input, Fault::Never, false)?;
    said_by(alloc, &ending, &host)
}

fn said_by(alloc: Global, ending: &Ending, host: &MemHost) -> Result<Vec<u8>, AllocError> {
    let mut bytes = [b'-'; 192];
    let length = line(ending, &mut bytes);
    let mut said = Vec::from_slice(alloc, host.said())?;
    said.extend_from_slice(&bytes[..length])?;
    Ok(said)
}

/// A run over the directory, which becomes the one that the run leaves.
pub fn run_text(alloc: Global, directory: &mut Image, input: &[u8]) -> Result<String, AllocError> {
    let (ending, host) = host_after(alloc, directory, input, Fault::Never, false)?;
    leave(alloc, &ending, &host, directory)
}

/// What a run over the directory said. The directory becomes the one that it leaves.
fn leave(
    alloc: Global,
    ending: &Ending,
    host: &MemHost,
    directory: &mut Image,
) -> Result<String, AllocError> {
    let left = host.image_pick(0)?;
    *directory = left;
    ran_text(alloc, ending, host)
}

/// A run over the directory, what it wrote, and whether a stop leaves the files as they were.
pub fn refused_text(alloc: Global, directory: &Image, input: &[u8]) -> Result<String, AllocError> {
    let (ending, host) = host_after(alloc, directory, input, Fault::Never, false)?;
    left_text(alloc, &ending, &host, directory)
}

fn left_text(
    alloc: Global,
    ending: &Ending,
    host: &MemHost,
    directory: &Image,
) -> Result<String, AllocError> {
    let same = is_left(host, directory)?;
    let mut text = ran_text(alloc, ending, host)?;
    let written = host.written();
    let files = if same { "same" } else { "changed" };
    write!(text, ", written {written}, {files}")?;
    Ok(text)
}

fn is_left(host: &MemHost, directory: &Image) -> Result<bool, AllocError> {
    let left = host.image_pick(0)?;
    Ok(left.files == directory.files)
}

/// A run of these words over a directory, and how many calls it made.
pub fn words_text(alloc: Global, directory: &Image, command: &str) -> Result<String, AllocError> {
    let input = b"CREATE TABLE t (c INT)";
    let host = started(alloc, directory, input, Fault::Never, false)?;
    let (ending, host) = ran_words(alloc, command, host)?;
    made_text(alloc, &ending, &host)
}

fn made_text(alloc: Global, ending: &Ending, host: &MemHost) -> Result<String, AllocError> {
    let mut text = ran_text(alloc, ending, host)?;
    let calls = host.calls();
    write!(text, ", calls {calls}")?;
    Ok(text)
}
