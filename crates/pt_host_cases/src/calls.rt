//! The calls of `Host`, one a line, on any host.
ghost use Rattle.std.specs.Prelude.{◌≡◌, ◌<◌, IsSome};

use crate::stage::Stage;
use crate::texts::{bytes_of, bytes_text, cut, name_of, push_bytes};
use pt_host::{Host, HostFail, Name};
use std::alloc::{AllocError, Global};

/// Answers a call on the input or the output.
pub(crate) fn stream_answer<H: Host>(
    alloc: Global,
    host: &mut H,
    word: &str,
    rest: &str,
) -> Result<String, AllocError>
    ensures { H.tells → (H.world host.new).dir ≡ (H.world host.old).dir }
{
    match word {
        "say" => said(alloc, host, rest),
        _ => taken(alloc, host, rest),
    }
}

fn said<H: Host>(alloc: Global, host: &mut H, rest: &str) -> Result<String, AllocError>
    ensures { H.tells → (H.world host.new).dir ≡ (H.world host.old).dir }
{
    let bytes = bytes_of(alloc, rest)?;
    let answer = host.say(&bytes);
    done_text(alloc, answer)
}

fn taken<H: Host>(alloc: Global, host: &mut H, rest: &str) -> Result<String, AllocError>
    ensures { H.tells → (H.world host.new).dir ≡ (H.world host.old).dir }
{
    let count = rest.parse::<u16>().unwrap_or(0);
    if count == 0 {
        return String::from_str(alloc, "no room");
    }
    let mut bytes = Vec::from_elem(alloc, b'-', count as usize)?;
    let answer = host.take(&mut bytes);
    read_text(alloc, answer, &bytes)
}

/// Answers a call on the directory.
pub(crate) fn disk_answer<H: Stage>(
    alloc: Global,
    host: &mut H,
    word: &str,
    rest: &str,
) -> Result<String, AllocError>
    requires { H.tells → IsSome (H.world host.old).dir }
    ensures { H.tells → IsSome (H.world host.new).dir }
{
    match word {
        "list" => listed(alloc, host, rest),
        "names" => done_text(alloc, host.sync_names()),
        "rename" => renamed(alloc, host, rest),
        _ => {
            let (name, rest) = cut(rest);
            match name_of(name) {
                Some(name) => file_answer(alloc, host, word, &name, rest),
                None => String::from_str(alloc, "no name"),
            }
        }
    }
}

fn listed<H: Host>(alloc: Global, host: &mut H, rest: &str) -> Result<String, AllocError>
    requires { H.tells → IsSome (H.world host.old).dir }
    ensures { H.tells → IsSome (H.world host.new).dir }
{
    let (Ok(i), Some(mut name)) = (rest.parse::<u64>(), name_of("none")) else {
        return String::from_str(alloc, "no number");
    };
    match host.list(i, &mut name) {
        Ok(true) => bytes_text(alloc, name.bytes()),
        Ok(false) => String::from_str(alloc, "end"),
        Err(_) => String::from_str(alloc, "failed"),
    }
}

fn renamed<H: Stage>(alloc: Global, host: &mut H, rest: &str) -> Result<String, AllocError>
    requires { H.tells → IsSome (H.world host.old).dir }
    ensures { H.tells → IsSome (H.world host.new).dir }
{
    let (from, to) = cut(rest);
    let (Some(from), Some(to)) = (name_of(from), name_of(to)) else {
        return String::from_str(alloc, "no name");
    };
    if from == to {
        return String::from_str(alloc, "one name");
    }
    if !host.has(&from, 0)? {
        return String::from_str(alloc, "absent");
    }
    done_text(alloc, host.rename(&from, &to))
}

/// Answers a call on a file.
fn file_answer<H: Stage>(
    alloc: Global,
    host: &mut H,
    word: &str,
    name: &Name,
    rest: &str,
) -> Result<String, AllocError>
    requires { H.tells → IsSome (H.world host.old).dir }
    ensures { H.tells → IsSome (H.world host.new).dir }
{
    match word {
        "length" => length_text(alloc, host.length(name)),
        "create" => created(alloc, host, name),
        "read" => read(alloc, host, name, rest),
        "write" => written(alloc, host, name, rest),
        "sync" => synced(alloc, host, name),
        "unlink" => unlinked(alloc, host, name),
        _ => String::from_str(alloc, "no word"),
    }
}

fn created<H: Stage>(alloc: Global, host: &mut H, name: &Name) -> Result<String, AllocError>
    requires { H.tells → IsSome (H.world host.old).dir }
    ensures { H.tells → IsSome (H.world host.new).dir }
{
    if !host.lacks(name)? {
        return String::from_str(alloc, "there");
    }
    done_text(alloc, host.create(name))
}

fn read<H: Stage>(
    alloc: Global,
    host: &mut H,
    name: &Name,
    rest: &str,
) -> Result<String, AllocError>
    requires { H.tells → IsSome (H.world host.old).dir }
    ensures { H.tells → IsSome (H.world host.new).dir }
{
    let (at, count) = cut(rest);
    let (Ok(at), Ok(count)) = (at.parse::<u64>(), count.parse::<u16>()) else {
        return String::from_str(alloc, "no number");
    };
    if !host.has(name, 0)? {
        return String::from_str(alloc, "absent");
    }
    let mut bytes = Vec::from_elem(alloc, b'-', count as usize)?;
    let answer = host.read_at(name, at, &mut bytes);
    read_text(alloc, answer, &bytes)
}

fn written<H: Stage>(
    alloc: Global,
    host: &mut H,
    name: &Name,
    rest: &str,
) -> Result<String, AllocError>
    requires { H.tells → IsSome (H.world host.old).dir }
    ensures { H.tells → IsSome (H.world host.new).dir }
{
    let (at, bytes) = cut(rest);
    let Ok(at) = at.parse::<u64>() else {
        return String::from_str(alloc, "no number");
    };
    let bytes = bytes_of(alloc, bytes)?;
    if !host.has(name, at)? {
        return String::from_str(alloc, "absent");
    }
    done_text(alloc, host.write_at(name, at, &bytes))
}

fn synced<H: Stage>(alloc: Global, host: &mut H, name: &Name) -> Result<String, AllocError>
    requires { H.tells → IsSome (H.world host.old).dir }
    ensures { H.tells → IsSome (H.world host.new).dir }
{
    if !host.has(name, 0)? {
        return String::from_str(alloc, "absent");
    }
    done_text(alloc, host.sync(name))
}

fn unlinked<H: Stage>(alloc: Global, host: &mut H, name: &Name) -> Result<String, AllocError>
    requires { H.tells → IsSome (H.world host.old).dir }
    ensures { H.tells → IsSome (H.world host.new).dir }
{
    if !host.has(name, 0)? {
        return String::from_str(alloc, "absent");
    }
    done_text(alloc, host.unlink(name))
}

pub(crate) fn done_text(alloc: Global, answer: Result<(), HostFail>) -> Result<String, AllocError> {
    match answer {
        Ok(()) => String::from_str(alloc, "ok"),
        Err(_) => String::from_str(alloc, "failed"),
    }
}

fn length_text(alloc: Global, answer: Result<Option<u64>, HostFail>) -> Result<String, AllocError> {
    match answer {
        Ok(Some(length)) => format!(in alloc; "{length}"),
        Ok(None) => String::from_str(alloc, "absent"),
        Err(_) => String::from_str(alloc, "failed"),
    }
}

/// How many bytes came, and the buffer.
fn read_text(
    alloc: Global,
    answer: Result<usize, HostFail>,
    buffer: &[u8],
) -> Result<String, AllocError> {
    let Ok(count) = answer else {
        return String::from_str(alloc, "failed");
    };
    let mut text = format!(in alloc; "{count} ")?;
    push_bytes(&mut text, buffer)?;
    Ok(text)
}
