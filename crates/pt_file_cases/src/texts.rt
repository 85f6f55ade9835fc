//! Bytes, names and files in the text of a line.
use percent_encoding::{CONTROLS, percent_decode, percent_encode};
use pt_host::{Image, Name};
use pt_plain::List;
use std::alloc::{AllocError, Global};

/// The text up to the first space, and the text behind it.
pub(crate) fn cut(text: &str) -> (&str, &str) {
    text.split_once(' ').unwrap_or((text, ""))
}

/// The bytes that a text spells.
pub(crate) fn bytes_of(alloc: Global, text: &str) -> Result<Vec<u8>, AllocError> {
    let mut bytes = Vec::new(alloc);
    percent_decode(text.as_bytes()).append_to(&mut bytes)?;
    Ok(bytes)
}

/// Adds the text that spells these bytes.
pub(crate) fn push_bytes(text: &mut String, bytes: &[u8]) -> Result<(), AllocError> {
    let set = CONTROLS.add(b'%').add(b' ');
    percent_encode(bytes, set).append_to(text)
}

/// The directory with these files, which are written `NAME=BYTES`, after a change. `None` where one isn't so or the names don't
/// rise.
pub(crate) fn image_of(
    alloc: Global,
    text: &str,
    change: &str,
) -> Result<Option<Image>, AllocError> {
    let mut files = List::new(alloc);
    for file in text.split_whitespace() {
        let Some((name, bytes)) = file_of(alloc, file, change)? else {
            return Ok(None);
        };
        files.push((name, bytes))?;
    }
    Ok(Image::of(files))
}

fn file_of(
    alloc: Global,
    text: &str,
    change: &str,
) -> Result<Option<(Name, List<u8>)>, AllocError> {
    let Some((name, bytes)) = text.split_once('=') else {
        return Ok(None);
    };
    let mut bytes = bytes_of(alloc, bytes)?;
    if let Some((change, changed)) = change.rsplit_once(' ') {
        if changed == name {
            apply(alloc, &mut bytes, change)?;
        }
    }
    match Name::of(name.as_bytes()) {
        None => Ok(None),
        Some(name) => Ok(Some((name, List::of(bytes)))),
    }
}

/// Applies a change to the bytes of the file that it names.
fn apply(alloc: Global, bytes: &mut Vec<u8>, change: &str) -> Result<(), AllocError> {
    let (word, rest) = cut(change);
    match word {
        "cut" => {
            bytes.truncate(rest.parse::<usize>().unwrap_or(0));
            Ok(())
        }
        "set" => put(alloc, bytes, rest),
        "is" => {
            *bytes = bytes_of(alloc, rest)?;
            Ok(())
        }
        _ => bytes.extend_from_slice(&bytes_of(alloc, rest)?),
    }
}

/// Puts another byte at a place that is there.
fn put(alloc: Global, bytes: &mut Vec<u8>, rest: &str) -> Result<(), AllocError> {
    let (at, byte) = cut(rest);
    let byte = bytes_of(alloc, byte)?;
    if let (Ok(at), Some(byte)) = (at.parse::<usize>(), byte.first()) {
        if at < bytes.len() {
            bytes[at] = *byte;
        }
    }
    Ok(())
}

/// The files of a directory, after a word.
pub(crate) fn files_text(
    alloc: Global,
    word: &str,
    files: &[(Name, List<u8>)],
) -> Result<String, AllocError> {
    let mut text = String::from_str(alloc, word)?;
    for (name, bytes) in files {
        push_file(&mut text, name, bytes.items())?;
    }
    Ok(text)
}

/// Adds a file as `image_of` reads it, behind a space.
pub(crate) fn push_file(text: &mut String, name: &Name, bytes: &[u8]) -> Result<(), AllocError> {
    text.push(' ')?;
    push_bytes(text, name.bytes())?;
    text.push('=')?;
    push_bytes(text, bytes)
}

pub(crate) fn directory_text(alloc: Global, text: &str) -> Result<String, AllocError> {
    match image_of(alloc, text, "")? {
        None => String::from_str(alloc, "no files"),
        Some(image) => files_text(alloc, "files", image.files.items()),
    }
}
