ghost use Rattle.std.specs.Prelude.{◌≡◌, ◌+◌, ◌<◌, ◌≤◌, length, drop, IfOk, IsTrue, Ok, is_some};
ghost use Rattle.pt_parse_expr.specs.Placing.{Closes, Peeks, ReachesSome, ReadsSome, lent};
ghost use Rattle.pt_parse_expr.specs.Reader.{close};

use crate::alphabet::{Mark, Symbol};
use std::alloc::AllocError;

/// What was read, with the place after it, or `None`.
pub type Reading<T> = Result<Option<(T, usize)>, AllocError>;

/// The symbol at a place. `None` at the end.
pub fn peek(symbols: &[Symbol], at: usize) -> Option<&Symbol>
    ensures first { Peeks (lent result) (drop at symbols.now) (drop (at + 1) symbols.now) }
    ensures within { IsTrue (is_some result) → at < length symbols.now }
{
    symbols.get(at)
}

/// Whether a closing parenthesis stands at a place.
pub(crate) fn closes(symbols: &[Symbol], at: usize) -> bool
    ensures closes { Closes result (drop at symbols.now) (drop (at + 1) symbols.now) }
    ensures within { IsTrue result → at < length symbols.now }
{
    matches!(peek(symbols, at), Some(Symbol::Fixed(Mark::Close)))
}

/// What was read in parentheses, where a closing one stands behind it.
pub fn closed<T: Drop>(symbols: &[Symbol], inside: T, at: usize) -> Option<(T, usize)>
    requires { at ≤ length symbols.now }
    ensures reads { ReadsSome symbols.now result (close inside (drop at symbols.now)) }
    ensures place { ReachesSome (at + 1) symbols.now result }
{
    if closes(symbols, at) {
        return Some((inside, at + 1));
    }
    None
}

/// What was read before together with what was read then, unless memory ran out. A tree that lives across a `?` is let go there,
/// which is dear to prove of each function that does so; here it is proved once, of any type.
pub fn beside<T: Drop, U>(before: T, then: Result<U, AllocError>) -> Result<(T, U), AllocError>
    ensures before { IfOk result (λ p. p.0 ≡ before) }
    ensures then { IfOk result (λ p. then ≡ Ok p.1) }
{
    match then {
        Ok(then) => Ok((before, then)),
        Err(error) => Err(error),
    }
}
