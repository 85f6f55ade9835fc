ghost use Rattle.std.specs.Prelude.{◌≡◌, ◌+◌, ◌<◌, ◌^◌, ◌++◌, length, IfOk, IfErr, OnOk, is_none, slice_index, true, false, IsTrue};
ghost use Rattle.pt_token.specs.Stepping.{IsStep, listed};
ghost use Rattle.pt_token.specs.Tokens.{IsFault, IsFaultFrom, IsLexed, fault_at, is_open_comment};

use crate::bytes::{behind, is_quote};
use crate::comment::opened_end;
use crate::fault::LexFault;
use crate::gap::next_gap;
use crate::token::{Token, byte_at, next_token};
use std::alloc::{AllocError, Global};

/// A gap or a token at the front of bytes.
#[derive(Drop)]
pub(crate) struct Step {
    pub(crate) token: Option<Token>,
    /// How many bytes it has.
    pub(crate) length: usize,
    /// Whether what follows stands within a comment that is read.
    pub(crate) inside: bool,
}

/// The tokens of a piece, or its first lexical fault: the one with the least place.
pub fn tokens(alloc: Global, piece: &[u8]) -> Result<Vec<Token>, LexFault>
    ensures tokens { IfOk result (λ tokens. IsLexed piece.now tokens.items) }
    ensures fault { IfErr result (IsFault piece.now) }
{
    let mut tokens = Vec::new(alloc);
    let mut rest = piece;
    let mut place = 0;
    let mut inside = false;
    while !rest.is_empty() {
        let step = next_step(alloc, inside, place, rest)?;
        rest = behind(rest, step.length);
        place += step.length;
        inside = step.inside;
        add(&mut tokens, step.token)?;
    }
    Ok(tokens)
}

fn add(tokens: &mut Vec<Token>, token: Option<Token>) -> Result<(), LexFault>
    ensures ok { OnOk result (tokens.new.items ≡ tokens.old.items ++ listed token) }
    ensures err { IfErr result (λ fault. fault ≡ LexFault.NoMemory) }
{
    match token {
        None => Ok(()),
        Some(token) => tokens.push(token).map_err(|_| LexFault::NoMemory),
    }
}

/// The next gap or token, or the fault at the place.
fn next_step(alloc: Global, inside: bool, place: usize, bytes: &[u8]) -> Result<Step, LexFault>
    requires some { 0 < length bytes.now }
    requires fits { place + length bytes.now < 2 ^ 64 }
    ensures step { IfOk result (IsStep inside place bytes.now) }
    ensures fault { IfErr result (IsFaultFrom inside place bytes.now) }
{
    if let Some(gap) = next_gap(inside, bytes) {
        return Ok(Step {
            token: None,
            length: gap.length,
            inside: gap.inside,
        });
    }
    match next_token(alloc, bytes) {
        Err(_) => Err(LexFault::NoMemory),
        Ok(None) => Err(fault_at(inside, place, bytes)),
        Ok(Some(found)) => Ok(Step {
            length: found.length,
            inside,
            token: Some(Token {
                from: place,
                to: place + found.length,
                kind: found.kind,
            }),
        }),
    }
}

/// What is wrong with bytes that begin with no gap and no token.
#[tactic(auto, unfolding(crate::specs::Tokens::fault_at))]
fn fault_at(inside: bool, place: usize, bytes: &[u8]) -> LexFault
    ensures { result ≡ fault_at inside place bytes.now }
{
    if is_quote(byte_at(bytes, 0)) {
        LexFault::OpenQuote { place }
    } else if !inside && is_open_comment(bytes) {
        LexFault::OpenComment { place }
    } else {
        LexFault::BadByte { place }
    }
}

fn is_open_comment(bytes: &[u8]) -> bool
    ensures { result ≡ is_open_comment bytes.now }
{
    bytes.starts_with(b"/*") && opened_end(&bytes[2..]).is_none()
}
