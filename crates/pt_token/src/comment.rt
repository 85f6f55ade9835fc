ghost use Rattle.std.specs.Prelude.{◌≡◌, ◌<◌, ◌≤◌, length, All, IsTrue, IfSome};
ghost use Rattle.pt_token.specs.Bytes.{digits_number, is_digit};
ghost use Rattle.pt_token.specs.Gap.{kind, line, opened_end, opener};
ghost use Rattle.pt_token.specs.Machine.{closing};

use crate::bytes::{Class, front};
use crate::state::State;

/// What kind of a comment a `/*` opens.
#[derive(Clone, Copy)]
pub(crate) enum Comment {
    /// A comment that isn't read.
    Plain,
    /// One that is read, from that many bytes behind the `/*` on.
    Read(usize),
    /// One with a number that isn't five digits.
    Malformed,
}

/// How many bytes what is open goes on for, with its end. It takes no memory.
fn closing(state: State, bytes: &[u8]) -> Option<usize>
    ensures value { result ≡ closing state bytes.now }
    ensures within { IfSome result (λ n. n ≤ length bytes.now) }
{
    let mut state = state;
    for (i, b) in bytes.iter().enumerate() {
        state = state.step(*b);
        if state.is_plain() {
            return Some(i + 1);
        }
    }
    None
}

/// How many bytes there are to the line's end, with its line feed. It takes no memory.
pub(crate) fn line(bytes: &[u8]) -> usize
    ensures value { result ≡ line bytes.now }
    ensures within { result ≤ length bytes.now }
{
    closing(State::Line, bytes).unwrap_or(bytes.len())
}

/// How many bytes there are behind a comment's `/*`, with its end. `None` where it is open to the end. It takes no memory.
pub(crate) fn opened_end(bytes: &[u8]) -> Option<usize>
    ensures value { result ≡ opened_end bytes.now }
    ensures within { IfSome result (λ n. n ≤ length bytes.now) }
{
    closing(State::Opened, bytes)
}

/// What kind of a comment it is, by the bytes behind its `/*`. It takes no memory.
#[tactic(auto, unfolding(crate::specs::Gap::kind))]
pub(crate) fn kind(bytes: &[u8]) -> Comment
    ensures value { result ≡ kind bytes.now }
    ensures within { opener result ≤ length bytes.now }
{
    if !bytes.starts_with(b"!") {
        return Comment::Plain;
    }
    let number = front(Class::Digit, &bytes[1..]);
    match number.len() {
        0 => Comment::Read(1),
        5 if number_of(number) <= 50_799 => Comment::Read(6),
        5 => Comment::Plain,
        _ => Comment::Malformed,
    }
}

/// The number that five digits write.
fn number_of(digits: &[u8]) -> u32
    requires each { All (λ b. IsTrue (is_digit b)) digits.now }
    requires five { length digits.now ≡ 5 }
    ensures { result ≡ digits_number digits.now }
{
    let mut number = 0;
    for b in digits {
        number = 10 * number + u32::from(*b - b'0');
    }
    number
}
