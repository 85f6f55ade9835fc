ghost use Rattle.std.specs.Prelude.{◌≡◌, ◌↔◌, ◌-◌, ◌<◌, ◌≤◌, IsTrue};
ghost use Rattle.pt_token.specs.Placed.{IsPlaced};
ghost use Rattle.pt_token.specs.Tokens.{IsLexed};
ghost use Rattle.pt_token.specs.declared.token.TokenKind.TheVariants as kind;
ghost use Rattle.pt_parse_expr.specs.Limits.{IsDeep, IsLong, name_length, open_after};
ghost use Rattle.pt_parse_expr.specs.Symbols as spec;

use crate::alphabet::Mark;
use crate::words;
use pt_token::{Token, TokenKind};

/// The most parentheses that may be open at once.
pub(crate) const MOST_OPEN: usize = 64;

/// The most characters that a name may have.
const MOST_CHARACTERS: usize = 64;

/// Whether more than 64 parentheses are open at once among the tokens of a piece. It takes no memory.
pub fn deep(piece: &[u8], tokens: &Vec<Token>) -> bool
    requires lexed { IsLexed piece.now tokens.now.items }
    ensures { IsTrue result ↔ IsDeep (spec.symbols piece.now tokens.now.items) }
{
    let mut height = 0;
    for token in tokens {
        height = height_behind(piece, token, height);
        if height > MOST_OPEN {
            return true;
        }
    }
    false
}

/// How many parentheses are open behind a token, where `height` were before it.
#[tactic(auto, unfolding(crate::specs::Symbols::symbol))]
fn height_behind(piece: &[u8], token: &Token, height: usize) -> usize
    requires placed { IsPlaced piece.now token.now }
    requires low { height ≤ 64 }
    ensures { result ≡ open_after (spec.symbol piece.now token.now) height }
{
    match token.kind {
        TokenKind::Sign => height_behind_sign(&piece[token.from..token.to], height),
        _ => height,
    }
}

/// The same, where the token is this sign.
fn height_behind_sign(sign: &[u8], height: usize) -> usize
    requires low { height ≤ 64 }
    ensures { result ≡ open_after (spec.symbol_of kind.Sign sign.now) height }
{
    match words::sign(sign) {
        Some(Mark::Open) => height + 1,
        Some(Mark::Close) => height.saturating_sub(1),
        _ => height,
    }
}

/// Whether a name among the tokens has more than 64 characters, without the backquotes of a quoted one. It takes no memory.
pub fn long(tokens: &Vec<Token>) -> bool
    ensures { IsTrue result ↔ IsLong tokens.now.items }
{
    tokens
        .iter()
        .any(|token| name_length(token) > MOST_CHARACTERS)
}

/// How many characters a name has; 0 for other tokens.
fn name_length(token: &Token) -> usize
    ensures { result ≡ name_length token.now.kind (token.now.to - token.now.from) }
{
    let length = token.to.saturating_sub(token.from);
    match token.kind {
        TokenKind::Word => length,
        TokenKind::Quoted => length.saturating_sub(2),
        _ => 0,
    }
}
