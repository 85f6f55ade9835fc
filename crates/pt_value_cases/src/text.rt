use percent_encoding::{AsciiSet, CONTROLS, ascii_set, percent_decode, percent_encode};
use std::alloc::{AllocError, Global};

/// What doesn't stand for itself in a text that ends a line.
const IN_LINE: AsciiSet = ascii_set!(CONTROLS.add(b'%'));

/// What doesn't stand for itself in a word, or between commas.
const IN_WORD: AsciiSet = ascii_set!(CONTROLS.add(b'%').add(b' ').add(b',').add(b'/').add(b';'));

/// The bytes that a text stands for.
pub fn bytes_of(alloc: Global, text: &str) -> Result<Vec<u8>, AllocError> {
    let mut bytes = Vec::new(alloc);
    percent_decode(text.as_bytes()).append_to(&mut bytes)?;
    Ok(bytes)
}

/// Writes bytes as a text that ends a line.
pub fn put_line(out: &mut String, bytes: &[u8]) -> Result<(), AllocError> {
    percent_encode(bytes, IN_LINE).append_to(out)
}

/// Writes bytes as a word.
pub fn put_word(out: &mut String, bytes: &[u8]) -> Result<(), AllocError> {
    percent_encode(bytes, IN_WORD).append_to(out)
}

/// Writes bytes that stand for themselves.
pub fn put_plain(out: &mut String, bytes: &[u8]) -> Result<(), AllocError> {
    for b in bytes {
        out.push(char::from(*b))?;
    }
    Ok(())
}
