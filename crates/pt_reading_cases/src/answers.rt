use crate::reading::{cond_text, expr_text};
use crate::scripts::script_answer;
use crate::symbolic::{read_cond_text, read_expr_text, symbols_text};
use percent_encoding::percent_decode;
use std::alloc::{AllocError, Global};

/// What is asked of a piece.
#[derive(Clone, Copy)]
enum Question {
    Expr,
    Cond,
    Symbols,
    ReadExpr,
    ReadCond,
}

/// The answer to a line without repeats.
pub(crate) fn plain_answer(alloc: Global, line: &str) -> Result<String, AllocError> {
    let (word, rest) = cut_word(line);
    if word.is_empty() || word.starts_with('#') {
        return String::from_str(alloc, line);
    }
    match word {
        "expr" => asked(alloc, Question::Expr, 0, rest),
        "cond" => asked(alloc, Question::Cond, 0, rest),
        "expr_at" => placed(alloc, Question::Expr, rest),
        "cond_at" => placed(alloc, Question::Cond, rest),
        "symbols" => asked(alloc, Question::Symbols, 0, rest),
        "read_expr" => placed(alloc, Question::ReadExpr, rest),
        "read_cond" => placed(alloc, Question::ReadCond, rest),
        _ => script_answer(alloc, word, rest),
    }
}

/// A word, and what stands behind the space after it.
pub(crate) fn cut_word(line: &str) -> (&str, &str) {
    match line.split_once(' ') {
        None => (line, ""),
        Some(parts) => parts,
    }
}

pub(crate) fn unknown(alloc: Global) -> Result<String, AllocError> {
    String::from_str(alloc, "?")
}

/// A question from the place on that is written first.
fn placed(alloc: Global, question: Question, rest: &str) -> Result<String, AllocError> {
    let (at, text) = cut_word(rest);
    match at.parse::<usize>() {
        Err(_) => unknown(alloc),
        Ok(at) => asked(alloc, question, at, text),
    }
}

fn asked(alloc: Global, question: Question, at: usize, text: &str) -> Result<String, AllocError> {
    let mut bytes = Vec::new(alloc);
    percent_decode(text.as_bytes()).append_to(&mut bytes)?;
    let piece = bytes.as_slice();
    match question {
        Question::Expr => expr_text(alloc, piece, at),
        Question::Cond => cond_text(alloc, piece, at),
        Question::Symbols => symbols_text(alloc, piece),
        Question::ReadExpr => read_expr_text(alloc, piece, at),
        Question::ReadCond => read_cond_text(alloc, piece, at),
    }
}
