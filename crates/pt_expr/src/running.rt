ghost use Rattle.std.specs.Prelude.{◌≡◌, ◌*◌, ◌-◌, Some, None, option_and_then};
ghost use Rattle.pt_expr.specs.Found.{Finding, bound_after, takes, wide};
ghost use Rattle.pt_expr.specs.Stepping.{begun, ended, narrowed, plus_bound, plus_part, times_bound, times_part};

use crate::CheckFault;
use crate::found::Found;
use pt_ast::Op;

/// A sum or a product, as far as its parts were found.
#[derive(Clone, Copy)]
pub(crate) struct Running {
    /// Whether each operator takes its part.
    matches: bool,
    /// The bound so far, below 2^126; `None` once it wasn't.
    bound: Option<u128>,
}

impl Running {
    /// A first part alone.
    pub fn of(first: Found) -> Running
        ensures { result ≡ begun first }
    {
        Running {
            matches: first.shape.may_be_wide(),
            bound: Some(first.bound),
        }
    }

    /// One more part, that is added or taken away.
    pub fn plus(self, part: Found) -> Running
        ensures { result ≡ plus_part self part }
    {
        Running {
            matches: self.matches && part.shape.may_be_wide(),
            bound: plus_bound(self.bound, part.bound),
        }
    }

    /// One more part, behind this operator.
    pub fn times(self, op: Op, part: Found) -> Running
        ensures { result ≡ times_part self op part }
    {
        Running {
            matches: self.matches && takes(op, part),
            bound: times_bound(self.bound, op, part.bound),
        }
    }

    /// What the whole is found to be.
    pub fn end(self) -> Result<Found, CheckFault>
        ensures { result ≡ ended self }
    {
        if !self.matches {
            return Err(CheckFault::Mismatch);
        }
        match self.bound {
            Some(bound) => Ok(Found::wide(bound)),
            None => Err(CheckFault::TooWide),
        }
    }
}

/// Whether an operator takes this on its right: an integer, and DIV and MOD a number as written that isn't 0.
fn takes(op: Op, part: Found) -> bool
    ensures { result ≡ takes op part }
{
    match op {
        Op::Times => part.shape.may_be_wide(),
        Op::Div | Op::Mod => part.shape.is_literal() && part.bound != 0,
    }
}

fn plus_bound(bound: Option<u128>, part: u128) -> Option<u128>
    ensures { result ≡ plus_bound bound part }
{
    narrow(bound?.checked_add(part)?)
}

fn times_bound(bound: Option<u128>, op: Op, part: u128) -> Option<u128>
    ensures { result ≡ times_bound bound op part }
{
    let bound = bound?;
    match op {
        Op::Times => narrow(bound.checked_mul(part)?),
        Op::Div => narrow(bound),
        Op::Mod => narrow(part.saturating_sub(1)),
    }
}

/// A bound below 2^126.
pub(crate) fn narrow(bound: u128) -> Option<u128>
    ensures { result ≡ narrowed bound }
{
    if bound < 1 << 126 { Some(bound) } else { None }
}
