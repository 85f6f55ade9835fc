ghost use Rattle.std.specs.Prelude.{◌<◌, ◌≤◌, length, IfOk};
ghost use Rattle.pt_token.specs.Splitting.{IsReady};

use crate::leaves::put_digits;
use pt_token::{SplitFault, Splitter};
use std::alloc::{AllocError, Global};

/// How a piece is told.
#[derive(Clone, Copy)]
pub(crate) enum Form {
    /// By its bytes, in hexadecimal.
    Hex,
    /// By their number.
    Length,
}

/// The pieces of a script that is fed in chunks of so many bytes, at least one; and why it was refused, where it was.
pub(crate) fn pieces_text(
    alloc: Global,
    script: &[u8],
    chunk: usize,
    form: Form,
) -> Result<String, AllocError> {
    let mut text = String::new(alloc);
    if let Err(fault) = put_pieces(alloc, &mut text, script, chunk.max(1), form) {
        write!(text, "{fault:?}")?;
    }
    Ok(text)
}

fn put_pieces(
    alloc: Global,
    text: &mut String,
    script: &[u8],
    chunk: usize,
    form: Form,
) -> Result<(), SplitFault>
    requires { 0 < chunk }
{
    let mut splitter = Splitter::new(alloc);
    let mut rest = script;
    while !rest.is_empty() {
        let used = feed(text, &mut splitter, front(rest, chunk), form)?;
        rest = &rest[used..];
    }
    put_piece(text, &splitter, form)
}

/// Feeds bytes, and tells the piece that ends among them. How many of them were read.
fn feed(
    text: &mut String,
    splitter: &mut Splitter,
    bytes: &[u8],
    form: Form,
) -> Result<usize, SplitFault>
    requires ready { IsReady splitter.old }
    requires some { 0 < length bytes.now }
    ensures ready { IfOk result (λ _. IsReady splitter.new) }
    ensures some { IfOk result (λ used. 0 < used) }
    ensures within { IfOk result (λ used. used ≤ length bytes.now) }
{
    let fed = splitter.feed(bytes)?;
    if !fed.whole {
        return Ok(fed.used);
    }
    put_piece(text, splitter, form)?;
    splitter.clear();
    Ok(fed.used)
}

fn front(bytes: &[u8], most: usize) -> &[u8]
    requires { 0 < most }
    ensures some { 0 < length bytes.now → 0 < length result.now }
    ensures within { length result.now ≤ length bytes.now }
{
    if most < bytes.len() {
        &bytes[..most]
    } else {
        bytes
    }
}

/// The piece, and a mark for whether it is blank.
fn put_piece(text: &mut String, splitter: &Splitter, form: Form) -> Result<(), SplitFault> {
    let mark = if splitter.is_blank() { '_' } else { ';' };
    put_marked(text, splitter.piece(), mark, form).map_err(|_| SplitFault::NoMemory)
}

fn put_marked(text: &mut String, piece: &[u8], mark: char, form: Form) -> Result<(), AllocError> {
    match form {
        Form::Hex => put_digits(text, piece)?,
        Form::Length => put_length(text, piece)?,
    }
    text.push(mark)
}

fn put_length(text: &mut String, piece: &[u8]) -> Result<(), AllocError> {
    let length = piece.len();
    write!(text, "{length}")
}

/// What one feed of these bytes tells; and the piece once it is cleared, also behind a refusal.
pub(crate) fn fed_text(alloc: Global, bytes: &[u8]) -> Result<String, AllocError> {
    let mut text = String::new(alloc);
    let mut splitter = Splitter::new(alloc);
    match splitter.feed(bytes) {
        Ok(fed) => write!(text, "{fed:?} ")?,
        Err(fault) => write!(text, "{fault:?} ")?,
    }
    splitter.clear();
    let mark = if splitter.is_blank() { '_' } else { ';' };
    put_marked(&mut text, splitter.piece(), mark, Form::Length)?;
    Ok(text)
}
