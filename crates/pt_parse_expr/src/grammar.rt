//! The rules read what stands in parentheses by a function that they are given, so that each is proved by itself.

ghost use Rattle.std.specs.Prelude.{◌≡◌, ◌+◌, ◌≤◌, length, drop};
ghost use Rattle.pt_parse_expr.specs.Placing.{Nests, Reaches, Reads};
ghost use Rattle.pt_parse_expr.specs.Reader as spec;

use crate::alphabet::Symbol;
use crate::found::Found;
use crate::source::{Reading, closed};
use std::alloc::Global;

/// The rules of expressions and conditions.
#[derive(Clone, Copy)]
pub(crate) struct Grammar<F> {
    pub(crate) alloc: Global,
    /// How deep parentheses may still nest.
    pub(crate) depth: usize,
    /// Reads what stands in parentheses.
    pub(crate) inner: F,
}

impl<F: Fn(Global, &[Symbol], usize, usize) -> Reading<Found>> Grammar<F> {
    /// What stands in parentheses: a condition where one is spelled, else an expression.
    pub(crate) fn nested(&self, symbols: &[Symbol], at: usize) -> Reading<Found>
        requires nests { Nests self.now.depth (F.pre self.now.inner) (F.post self.now.inner) }
        requires within { at ≤ length symbols.now }
        ensures reads { Reads symbols.now result (spec.found self.now.depth (drop at symbols.now)) }
        ensures place { Reaches (at + 1) symbols.now result }
    {
        (self.inner)(self.alloc, symbols, self.depth, at)
    }

    /// The same, and the parenthesis that closes it.
    pub(crate) fn enclosed(&self, symbols: &[Symbol], at: usize) -> Reading<Found>
        requires nests { Nests self.now.depth (F.pre self.now.inner) (F.post self.now.inner) }
        requires within { at ≤ length symbols.now }
        ensures reads { Reads symbols.now result (spec.closed (spec.found self.now.depth (drop at symbols.now))) }
        ensures place { Reaches (at + 1) symbols.now result }
    {
        match self.nested(symbols, at)? {
            None => Ok(None),
            Some((found, next)) => Ok(closed(symbols, found, next)),
        }
    }
}

/// A condition where one is spelled from a place on, else an expression, with parentheses nested no deeper than `depth`.
#[tactic(auto, unfolding(crate::specs::Reader::found))]
pub(crate) fn found(alloc: Global, symbols: &[Symbol], depth: usize, at: usize) -> Reading<Found>
    requires { at ≤ length symbols.now }
    ensures reads { Reads symbols.now result (spec.found depth (drop at symbols.now)) }
    ensures place { Reaches (at + 1) symbols.now result }
{
    if depth == 0 {
        return Ok(None);
    }
    Grammar {
        alloc,
        depth: depth - 1,
        inner: found,
    }
    .either(symbols, at)
}
