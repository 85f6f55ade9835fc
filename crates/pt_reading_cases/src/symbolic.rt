use crate::leaves::{put_column, put_hex, put_text};
use crate::reading::{PieceFault, fault_text, placed_cond, placed_expr, tokens_of};
use pt_parse_expr::{ParseFault, Symbol, read_cond, read_expr, symbols};
use std::alloc::{AllocError, Global};

/// The symbols of a piece, each with a space behind it; or the fault.
pub(crate) fn symbols_text(alloc: Global, piece: &[u8]) -> Result<String, AllocError> {
    match symbols_of(alloc, piece) {
        Err(fault) => fault_text(alloc, fault),
        Ok(symbols) => list_text(alloc, symbols.as_slice()),
    }
}

/// The longest expression from the symbol `at` of a piece on, and the next symbol.
pub(crate) fn read_expr_text(alloc: Global, piece: &[u8], at: usize) -> Result<String, AllocError> {
    match symbols_of(alloc, piece) {
        Err(fault) => fault_text(alloc, fault),
        Ok(symbols) => expr_in(alloc, symbols.as_slice(), at),
    }
}

/// The same of a condition.
pub(crate) fn read_cond_text(alloc: Global, piece: &[u8], at: usize) -> Result<String, AllocError> {
    match symbols_of(alloc, piece) {
        Err(fault) => fault_text(alloc, fault),
        Ok(symbols) => cond_in(alloc, symbols.as_slice(), at),
    }
}

fn symbols_of(alloc: Global, piece: &[u8]) -> Result<Vec<Symbol>, PieceFault> {
    let tokens = tokens_of(alloc, piece)?;
    symbols(alloc, piece, tokens.as_slice()).map_err(|_| PieceFault::Tokens(ParseFault::NoMemory))
}

fn expr_in(alloc: Global, symbols: &[Symbol], at: usize) -> Result<String, AllocError> {
    if at > symbols.len() {
        return String::from_str(alloc, "NoPlace");
    }
    match read_expr(alloc, symbols, at)? {
        None => String::from_str(alloc, "None"),
        Some((x, next)) => placed_expr(alloc, &x, next),
    }
}

fn cond_in(alloc: Global, symbols: &[Symbol], at: usize) -> Result<String, AllocError> {
    if at > symbols.len() {
        return String::from_str(alloc, "NoPlace");
    }
    match read_cond(alloc, symbols, at)? {
        None => String::from_str(alloc, "None"),
        Some((c, next)) => placed_cond(alloc, &c, next),
    }
}

fn list_text(alloc: Global, symbols: &[Symbol]) -> Result<String, AllocError> {
    let mut text = String::new(alloc);
    for symbol in symbols {
        put_symbol(&mut text, symbol)?;
        text.push(' ')?;
    }
    Ok(text)
}

/// Writes a symbol behind a text: a sign or a reserved word by its name in `Mark`, a word as ``w`a` `` and a quoted name as ``q`a` ``;
/// a number, a text and a hexadecimal string as in an expression.
fn put_symbol(text: &mut String, symbol: &Symbol) -> Result<(), AllocError> {
    match symbol {
        Symbol::Fixed(mark) => write!(text, "{mark:?}"),
        Symbol::Word(name) => put_name(text, 'w', name.bytes()),
        Symbol::Quoted(name) => put_name(text, 'q', name.bytes()),
        Symbol::Number(n) => write!(text, "{n}"),
        Symbol::Text(bytes) => put_text(text, bytes.items()),
        Symbol::Hex(bytes) => put_hex(text, bytes.items()),
    }
}

fn put_name(text: &mut String, letter: char, name: &[u8]) -> Result<(), AllocError> {
    text.push(letter)?;
    put_column(text, name)
}
