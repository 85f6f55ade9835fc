//! How a script is cut into pieces, in whatever chunks its bytes come, and which tokens a piece has.
//!
//! - `Splitter` stands for the bytes of its piece so far. `feed` reads on after them, up to and with the first cut
//!   (`next_cut`): a `;` outside quotes and comments. `pieces` are the pieces of a whole script.
//! - `Splitter::is_blank` tells `IsBlank`: white space and comments alone.
//! - `tokens` gives the tokens of a piece (`IsLexed`), or its first lexical fault (`IsFault`).
//! - `feeds_give_pieces`, `cuts_end`, `cuts_outside`, `ends_first`, `texts_end`, `blank_has_no_token` and `one_lexing` are theorems
//!   about these definitions.
//!
//! It stands on `pt_plain` and `pt_value`.
#![tactic(auto)]

mod bytes;
mod comment;
mod fault;
mod gap;
mod laws;
mod lexer;
mod quoting;
mod splitter;
mod state;
mod token;

pub use fault::LexFault;
pub use laws::{
    blank_has_no_token, cuts_end, cuts_outside, ends_first, feeds_give_pieces, one_lexing,
    texts_end,
};
pub use lexer::tokens;
pub use splitter::{Fed, SplitFault, Splitter};
pub use token::{Token, TokenKind};
