ghost use Rattle.std.specs.Prelude.{◌≡◌};
ghost use Rattle.pt_token.specs.Machine.{after_version, from_block, from_plain, from_read, is_cut, is_outside, is_plain, step};

use crate::bytes::{is_digit, is_white};

/// Where the next byte of a script stands. A quote keeps its mark, `'` or `"`.
#[derive(Clone, Copy)]
pub(crate) enum State {
    /// Outside quotes and comments.
    Plain,
    /// In a quote.
    Quote(u8),
    /// Behind a backslash in a quote.
    Escaped(u8),
    /// Outside, behind `-`.
    Dash,
    /// Outside, behind `--`.
    Dashes,
    /// In a comment to the line's end.
    Line,
    /// Outside, behind `/`.
    Slash,
    /// Behind the `/*` of a comment.
    Opened,
    /// In a comment that isn't read.
    Block,
    /// In a comment that isn't read, behind `*`.
    Star,
    /// Behind `/*!` and digits, which are written here with a 1 before them.
    Version(u32),
    /// In a comment that is read.
    Read,
    /// In a comment that is read, behind `*`.
    ReadStar,
    /// In a quote in a comment that is read.
    ReadQuote(u8),
    /// Behind a backslash in such a quote.
    ReadEscaped(u8),
}

impl State {
    /// The state after a byte.
    pub(crate) fn step(self, b: u8) -> State
        ensures { result ≡ step self b }
    {
        match self {
            State::Plain => from_plain(b),
            State::Quote(mark) if b == b'\\' => State::Escaped(mark),
            State::Quote(mark) if b == mark => State::Plain,
            State::Quote(mark) | State::Escaped(mark) => State::Quote(mark),
            State::Dash if b == b'-' => State::Dashes,
            State::Dash => from_plain(b),
            State::Dashes if b == b'-' => State::Dashes,
            State::Dashes if b == b'\n' => State::Plain,
            State::Dashes if is_white(b) => State::Line,
            State::Dashes => from_plain(b),
            State::Line if b == b'\n' => State::Plain,
            State::Line => State::Line,
            State::Slash if b == b'*' => State::Opened,
            State::Slash => from_plain(b),
            State::Opened if b == b'!' => State::Version(1),
            State::Opened | State::Block => from_block(b),
            State::Star if b == b'/' => State::Plain,
            State::Star => from_block(b),
            State::Version(version) => after_version(version, b),
            State::Read => from_read(b),
            State::ReadStar if b == b'/' => State::Plain,
            State::ReadStar => from_read(b),
            State::ReadQuote(mark) if b == b'\\' => State::ReadEscaped(mark),
            State::ReadQuote(mark) if b == mark => State::Read,
            State::ReadQuote(mark) | State::ReadEscaped(mark) => State::ReadQuote(mark),
        }
    }

    /// Whether a byte here ends the piece.
    pub(crate) fn is_cut(self, b: u8) -> bool
        ensures { result ≡ is_cut self b }
    {
        b == b';' && self.is_outside()
    }

    fn is_outside(self) -> bool
        ensures { result ≡ is_outside self }
    {
        matches!(
            self,
            State::Plain | State::Dash | State::Dashes | State::Slash
        )
    }

    /// Whether nothing is open and nothing waits for the next byte.
    pub(crate) fn is_plain(self) -> bool
        ensures { result ≡ is_plain self }
    {
        matches!(self, State::Plain)
    }
}

fn from_plain(b: u8) -> State
    ensures { result ≡ from_plain b }
{
    match b {
        b'\'' | b'"' => State::Quote(b),
        b'#' => State::Line,
        b'-' => State::Dash,
        b'/' => State::Slash,
        _ => State::Plain,
    }
}

fn from_block(b: u8) -> State
    ensures { result ≡ from_block b }
{
    if b == b'*' { State::Star } else { State::Block }
}

fn from_read(b: u8) -> State
    ensures { result ≡ from_read b }
{
    match b {
        b'\'' | b'"' => State::ReadQuote(b),
        b'*' => State::ReadStar,
        _ => State::Read,
    }
}

fn after_version(version: u32, b: u8) -> State
    ensures { result ≡ after_version version b }
{
    if is_digit(b) {
        if version < 100_000 {
            State::Version(10 * version + u32::from(b - b'0'))
        } else {
            State::Block
        }
    } else if version == 1 || (100_000 <= version && version <= 150_799) {
        from_read(b)
    } else {
        from_block(b)
    }
}
