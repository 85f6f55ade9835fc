ghost use Rattle.std.specs.Prelude.{◌≡◌, ◌↔◌, ◌+◌, ◌<◌, ◌≤◌, ◌^◌, length, slice_index, false, IsTrue, IfSome};
ghost use Rattle.pt_token.specs.Bytes.{is_white};
ghost use Rattle.pt_token.specs.Gap.{IsBlank, comment_gap, gap_inside, gap_of, gap_outside, is_dashes, kind, next_gap, opened_end};

use crate::bytes::{behind, is_white};
use crate::comment::{Comment, kind, line, opened_end};

/// White space or a comment at the front of bytes.
#[derive(Clone, Copy)]
pub(crate) struct Gap {
    /// How many bytes it has.
    pub(crate) length: usize,
    /// Whether what follows stands within a comment that is read.
    pub(crate) inside: bool,
}

/// Whether a piece is white space and comments alone. It takes no memory.
pub(crate) fn is_blank(piece: &[u8]) -> bool
    ensures { IsTrue result ↔ IsBlank piece.now }
{
    let mut rest = piece;
    let mut inside = false;
    while !rest.is_empty() {
        let Some(gap) = next_gap(inside, rest) else {
            return false;
        };
        rest = behind(rest, gap.length);
        inside = gap.inside;
    }
    true
}

/// The white space or the comment that bytes begin with. It takes no memory.
#[tactic(auto, unfolding(crate::specs::Gap::next_gap))]
pub(crate) fn next_gap(inside: bool, bytes: &[u8]) -> Option<Gap>
    ensures value { result ≡ next_gap inside bytes.now }
    ensures some { IfSome result (λ g. 0 < g.length) }
    ensures within { IfSome result (λ g. g.length ≤ length bytes.now) }
{
    if inside {
        gap_inside(bytes)
    } else {
        gap_outside(bytes)
    }
}

fn gap_inside(bytes: &[u8]) -> Option<Gap>
    ensures value { result ≡ gap_inside bytes.now }
    ensures some { IfSome result (λ g. 0 < g.length) }
    ensures within { IfSome result (λ g. g.length ≤ length bytes.now) }
{
    if begins_with_white(bytes) {
        return Some(Gap {
            length: 1,
            inside: true,
        });
    }
    if bytes.starts_with(b"*/") {
        return Some(Gap {
            length: 2,
            inside: false,
        });
    }
    None
}

fn gap_outside(bytes: &[u8]) -> Option<Gap>
    ensures value { result ≡ gap_outside bytes.now }
    ensures some { IfSome result (λ g. 0 < g.length) }
    ensures within { IfSome result (λ g. g.length ≤ length bytes.now) }
{
    if begins_with_white(bytes) {
        return Some(outside(1));
    }
    if bytes.starts_with(b"#") {
        return Some(outside(line(&bytes[1..]) + 1));
    }
    if is_dashes(bytes) {
        return Some(outside(line(&bytes[2..]) + 2));
    }
    if bytes.starts_with(b"/*") {
        return comment_gap(&bytes[2..]);
    }
    None
}

/// A gap after which no comment is read.
fn outside(length: usize) -> Gap
    ensures { result ≡ gap_of length false }
{
    Gap {
        length,
        inside: false,
    }
}

/// The comment, or the opener of one that is read, by the bytes behind its `/*`. `None` where it isn't closed or malformed.
fn comment_gap(bytes: &[u8]) -> Option<Gap>
    requires { length bytes.now + 2 < 2 ^ 64 }
    ensures value { result ≡ comment_gap (kind bytes.now) (opened_end bytes.now) }
    ensures some { IfSome result (λ g. 0 < g.length) }
    ensures within { IfSome result (λ g. g.length ≤ length bytes.now + 2) }
{
    let closed = opened_end(bytes)?;
    match kind(bytes) {
        Comment::Plain => Some(outside(closed + 2)),
        Comment::Read(opener) => Some(Gap {
            length: opener + 2,
            inside: true,
        }),
        Comment::Malformed => None,
    }
}

fn begins_with_white(bytes: &[u8]) -> bool
    ensures value { result ≡ is_white (slice_index bytes.now 0) }
    ensures some { IsTrue result → 0 < length bytes.now }
{
    bytes.first().is_some_and(|b| is_white(*b))
}

/// Whether bytes begin with `--` that makes a comment: white space or the end stands behind it.
fn is_dashes(bytes: &[u8]) -> bool
    ensures value { result ≡ is_dashes bytes.now }
    ensures two { IsTrue result → 2 ≤ length bytes.now }
{
    bytes.starts_with(b"--") && (bytes.len() == 2 || is_white(bytes[2]))
}
