use crate::cells::cells_of;
use crate::made::put_meaning;
use crate::told::Asked;
use percent_encoding::percent_decode;
use std::alloc::{AllocError, Global};

/// Writes the answer of a line.
pub(crate) fn answer(alloc: Global, out: &mut String, line: &str) -> Result<(), AllocError> {
    if line.is_empty() || line.starts_with('#') {
        return out.push_str(line);
    }
    let (word, rest) = split(line);
    match word {
        "create" => put_meaning(alloc, out, Asked::Text, &bytes_of(alloc, rest)?),
        "long" => put_long(alloc, out, rest),
        "place" => put_placed(alloc, out, rest),
        _ => out.push('?'),
    }
}

fn put_long(alloc: Global, out: &mut String, rest: &str) -> Result<(), AllocError> {
    let (count, text) = split(rest);
    let piece = repeated(alloc, count.parse::<u32>().unwrap_or(0), text)?;
    put_meaning(alloc, out, Asked::Size, piece.as_bytes())
}

fn put_placed(alloc: Global, out: &mut String, rest: &str) -> Result<(), AllocError> {
    let (cells, text) = split(rest);
    let cells = cells_of(alloc, cells)?;
    put_meaning(alloc, out, Asked::Place(&cells), &bytes_of(alloc, text)?)
}

/// What stands before the first space, and what behind it.
fn split(text: &str) -> (&str, &str) {
    text.split_once(' ').unwrap_or((text, ""))
}

/// The bytes that a text writes.
pub(crate) fn bytes_of(alloc: Global, text: &str) -> Result<Vec<u8>, AllocError> {
    let mut bytes = Vec::new(alloc);
    percent_decode(text.as_bytes()).append_to(&mut bytes)?;
    Ok(bytes)
}

/// The text with what stands in brackets repeated so many times.
fn repeated(alloc: Global, count: u32, text: &str) -> Result<String, AllocError> {
    let (head, rest) = text.split_once('[').unwrap_or((text, ""));
    let (item, tail) = rest.split_once(']').unwrap_or((rest, ""));
    let mut long = String::from_str(alloc, head)?;
    for number in 0..count {
        if number > 0 {
            long.push(',')?;
        }
        put_copy(&mut long, item, number)?;
    }
    long.push_str(tail)?;
    Ok(long)
}

/// Writes the text with the number for each `@`.
fn put_copy(out: &mut String, item: &str, number: u32) -> Result<(), AllocError> {
    for (at, part) in item.split('@').enumerate() {
        if at > 0 {
            write!(out, "{number}")?;
        }
        out.push_str(part)?;
    }
    Ok(())
}
