use crate::answers::{cut_word, unknown};
use crate::cutting::{Form, fed_text, pieces_text};
use crate::lexing::tokens_text;
use percent_encoding::percent_decode;
use pt_parse_expr::one_reading;
use pt_token::{
    blank_has_no_token, cuts_end, cuts_outside, ends_first, feeds_give_pieces, one_lexing,
    texts_end,
};
use std::alloc::{AllocError, Global};

/// The answer to a line about pieces and their tokens.
pub(crate) fn script_answer(alloc: Global, word: &str, rest: &str) -> Result<String, AllocError> {
    match word {
        "tokens" => tokens_answer(alloc, rest),
        "pieces" => pieces_answer(alloc, rest),
        "sizes" => sizes_answer(alloc, rest),
        "long" => long_answer(alloc, rest),
        "feed" => feed_answer(alloc, rest),
        "laws" => laws_answer(alloc),
        _ => unknown(alloc),
    }
}

fn tokens_answer(alloc: Global, text: &str) -> Result<String, AllocError> {
    let piece = spaced(alloc, 0, text)?;
    tokens_text(alloc, piece.as_slice())
}

fn pieces_answer(alloc: Global, rest: &str) -> Result<String, AllocError> {
    let (chunk, text) = cut_word(rest);
    let script = spaced(alloc, 0, text)?;
    match chunk.parse::<usize>() {
        Err(_) => unknown(alloc),
        Ok(chunk) => pieces_text(alloc, script.as_slice(), chunk, Form::Hex),
    }
}

fn sizes_answer(alloc: Global, rest: &str) -> Result<String, AllocError> {
    let (chunk, behind) = cut_word(rest);
    let script = script_of(alloc, behind)?;
    match chunk.parse::<usize>() {
        Err(_) => unknown(alloc),
        Ok(chunk) => pieces_text(alloc, script.as_slice(), chunk, Form::Length),
    }
}

fn long_answer(alloc: Global, rest: &str) -> Result<String, AllocError> {
    let script = script_of(alloc, rest)?;
    pieces_text(alloc, script.as_slice(), script.len(), Form::Length)
}

fn feed_answer(alloc: Global, rest: &str) -> Result<String, AllocError> {
    let script = script_of(alloc, rest)?;
    fed_text(alloc, script.as_slice())
}

fn laws_answer(alloc: Global) -> Result<String, AllocError> {
    feeds_give_pieces();
    cuts_outside();
    cuts_end();
    ends_first();
    texts_end();
    blank_has_no_token();
    one_lexing();
    one_reading();
    String::from_str(alloc, "laws")
}

/// The bytes of a number of spaces and a text. What is no number is none.
fn script_of(alloc: Global, rest: &str) -> Result<Vec<u8>, AllocError> {
    let (spaces, text) = cut_word(rest);
    spaced(alloc, spaces.parse::<usize>().unwrap_or(0), text)
}

/// So many spaces, and then the bytes that a text writes.
fn spaced(alloc: Global, spaces: usize, text: &str) -> Result<Vec<u8>, AllocError> {
    let mut bytes = vec![in alloc; b' '; spaces]?;
    percent_decode(text.as_bytes()).append_to(&mut bytes)?;
    Ok(bytes)
}
