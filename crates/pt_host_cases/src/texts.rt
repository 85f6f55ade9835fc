//! Bytes, names and files in the text of a line.
use percent_encoding::{CONTROLS, percent_decode, percent_encode};
use pt_host::{Image, Name};
use pt_plain::List;
use std::alloc::{AllocError, Global};

/// The text up to the first space, and the text behind it.
pub(crate) fn cut(text: &str) -> (&str, &str) {
    text.split_once(' ').unwrap_or((text, ""))
}

pub(crate) fn name_of(text: &str) -> Option<Name> {
    Name::of(text.as_bytes())
}

/// The bytes that a text spells.
pub(crate) fn bytes_of(alloc: Global, text: &str) -> Result<Vec<u8>, AllocError> {
    let mut bytes = Vec::new(alloc);
    percent_decode(text.as_bytes()).append_to(&mut bytes)?;
    Ok(bytes)
}

/// Adds the text that spells these bytes.
pub(crate) fn push_bytes(text: &mut String, bytes: &[u8]) -> Result<(), AllocError> {
    let set = CONTROLS.add(b'%').add(b' ');
    percent_encode(bytes, set).append_to(text)
}

pub(crate) fn bytes_text(alloc: Global, bytes: &[u8]) -> Result<String, AllocError> {
    let mut text = String::new(alloc);
    push_bytes(&mut text, bytes)?;
    Ok(text)
}

/// The directory with these files, which are written `NAME=BYTES`. `None` where one isn't or the names don't rise.
pub(crate) fn image_of(alloc: Global, text: &str) -> Result<Option<Image>, AllocError> {
    let mut files = List::new(alloc);
    for file in text.split_whitespace() {
        let Some((name, bytes)) = file_of(alloc, file)? else {
            return Ok(None);
        };
        files.push((name, bytes))?;
    }
    Ok(Image::of(files))
}

fn file_of(alloc: Global, text: &str) -> Result<Option<(Name, List<u8>)>, AllocError> {
    let Some((name, bytes)) = text.split_once('=') else {
        return Ok(None);
    };
    let Some(name) = name_of(name) else {
        return Ok(None);
    };
    let bytes = bytes_of(alloc, bytes)?;
    Ok(Some((name, List::of(bytes))))
}

/// The files of a directory as `image_of` reads them.
pub(crate) fn files_text(alloc: Global, files: &[(Name, List<u8>)]) -> Result<String, AllocError> {
    let mut text = String::from_str(alloc, "files")?;
    for (name, bytes) in files {
        text.push(' ')?;
        push_bytes(&mut text, name.bytes())?;
        text.push('=')?;
        push_bytes(&mut text, bytes.items())?;
    }
    Ok(text)
}
