ghost use Rattle.pt_token.specs.Laws.{BlankHasNoToken, CutsAreAll, CutsEnd, CutsOutside, EndsFirst, FeedsGivePieces, OneLexing, PassesTexts, PiecesOutside, TextsEnd};

/// The pieces of a script don't depend on the chunks in which its bytes are fed.
pub fn feeds_give_pieces()
    ensures { FeedsGivePieces }
{}

/// A script is cut into its pieces, up to the first that is too long, which a feed tells.
pub fn cuts_end()
    ensures all { CutsAreAll }
    ensures short { CutsEnd }
{}

/// A piece is blank exactly where it has no token and no lexical fault.
pub fn blank_has_no_token()
    ensures { BlankHasNoToken }
{}

/// A piece has one list of tokens at most, or one first lexical fault, and never both.
pub fn one_lexing()
    ensures { OneLexing }
{}

/// The machine's first cut is the first `;` outside quotes and comments, and the pieces are what stands between these.
pub fn cuts_outside()
    ensures first { CutsOutside }
    ensures pieces { PiecesOutside }
{}

/// The machine leaves a line, a quote and a comment at their ends, which are told without it.
pub fn ends_first()
    ensures { EndsFirst }
{}

/// A text of the tokens ends where the cuts have its quote end, but for doubled quotes, and the cuts pass over it as a whole.
pub fn texts_end()
    ensures ends { TextsEnd }
    ensures passed { PassesTexts }
{}
