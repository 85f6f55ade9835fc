ghost use Rattle.std.specs.Prelude.{◌≡◌, ◌+◌, ◌≤◌, length, drop, IfOk, [], ◌∷◌, Some, true, false};
ghost use Rattle.pt_parse_expr.specs.Grammar as grammar;
ghost use Rattle.pt_parse_expr.specs.Placing.{Nests, Reaches, Reads, ReadsMany, ReadsSome, ReachesSome};
ghost use Rattle.pt_parse_expr.specs.Reader as spec;

use crate::alphabet::{Mark, Symbol};
use crate::found::{Behind, Found};
use crate::grammar::Grammar;
use crate::source::{Reading, beside, closed, peek};
use pt_ast::{Cmp, Cond, Expr, Exprs};
use std::alloc::{AllocError, Global};

impl<F: Fn(Global, &[Symbol], usize, usize) -> Reading<Found>> Grammar<F> {
    /// What makes a condition of the expression before it.
    #[tactic(auto, unfolding(crate::specs::Reader::behind_expr))]
    pub(crate) fn behind_expr(&self, symbols: &[Symbol], at: usize) -> Reading<Behind>
        requires nests { Nests self.now.depth (F.pre self.now.inner) (F.post self.now.inner) }
        requires within { at ≤ length symbols.now }
        ensures reads { Reads symbols.now result (spec.behind_expr (spec.found self.now.depth) (drop at symbols.now)) }
        ensures place { Reaches (at + 1) symbols.now result }
    {
        match peek(symbols, at) {
            Some(Symbol::Fixed(Mark::Compare(cmp))) => self.compare(symbols, at + 1, *cmp),
            Some(Symbol::Fixed(Mark::Is)) => Ok(after_is(symbols, at + 1)),
            Some(Symbol::Fixed(Mark::Not)) => self.among(symbols, at + 1, true),
            _ => self.among(symbols, at, false),
        }
    }

    /// The right side of a comparison.
    fn compare(&self, symbols: &[Symbol], at: usize, cmp: Cmp) -> Reading<Behind>
        requires nests { Nests self.now.depth (F.pre self.now.inner) (F.post self.now.inner) }
        requires within { at ≤ length symbols.now }
        ensures reads { Reads symbols.now result (spec.mapped (Behind.Compare cmp) (spec.sum (spec.found self.now.depth) (drop at symbols.now))) }
        ensures place { Reaches (at + 1) symbols.now result }
    {
        match self.sum(symbols, at)? {
            None => Ok(None),
            Some((y, next)) => Ok(Some((Behind::Compare(cmp, y), next))),
        }
    }

    /// IN or BETWEEN, and what stands behind it.
    #[tactic(auto, unfolding(crate::specs::Reader::among))]
    fn among(&self, symbols: &[Symbol], at: usize, is_not: bool) -> Reading<Behind>
        requires nests { Nests self.now.depth (F.pre self.now.inner) (F.post self.now.inner) }
        requires within { at ≤ length symbols.now }
        ensures reads { Reads symbols.now result (spec.among (spec.found self.now.depth) is_not (drop at symbols.now)) }
        ensures place { Reaches (at + 1) symbols.now result }
    {
        match peek(symbols, at) {
            Some(Symbol::Fixed(Mark::In)) => self.member(symbols, at + 1, is_not),
            Some(Symbol::Fixed(Mark::Between)) => self.range(symbols, at + 1, is_not),
            _ => Ok(None),
        }
    }

    /// The list of IN.
    #[tactic(auto, unfolding(crate::specs::Reader::member))]
    fn member(&self, symbols: &[Symbol], at: usize, is_not: bool) -> Reading<Behind>
        requires nests { Nests self.now.depth (F.pre self.now.inner) (F.post self.now.inner) }
        requires within { at ≤ length symbols.now }
        ensures reads { Reads symbols.now result (spec.member (spec.found self.now.depth) is_not (drop at symbols.now)) }
        ensures place { Reaches (at + 1) symbols.now result }
    {
        let Some(Symbol::Fixed(Mark::Open)) = peek(symbols, at) else {
            return Ok(None);
        };
        match self.sum(symbols, at + 1)? {
            None => Ok(None),
            Some((first, next)) => self.listed(symbols, first, next, is_not),
        }
    }

    /// The list behind its first item, and the parenthesis that closes it.
    fn listed(&self, symbols: &[Symbol], first: Expr, at: usize, is_not: bool) -> Reading<Behind>
        requires nests { Nests self.now.depth (F.pre self.now.inner) (F.post self.now.inner) }
        requires within { at ≤ length symbols.now }
        ensures reads { Reads symbols.now result (spec.listed (spec.found self.now.depth) is_not (Some (first, drop at symbols.now))) }
        ensures place { Reaches (at + 1) symbols.now result }
    {
        let (first, (more, next)) = beside(first, self.mores(symbols, at))?;
        Ok(closed(symbols, Behind::In(is_not, list_of(first, more)?), next))
    }

    /// The bounds of BETWEEN.
    #[tactic(auto, unfolding(crate::specs::Reader::range))]
    fn range(&self, symbols: &[Symbol], at: usize, is_not: bool) -> Reading<Behind>
        requires nests { Nests self.now.depth (F.pre self.now.inner) (F.post self.now.inner) }
        requires within { at ≤ length symbols.now }
        ensures reads { Reads symbols.now result (spec.range (spec.found self.now.depth) is_not (drop at symbols.now)) }
        ensures place { Reaches (at + 1) symbols.now result }
    {
        match self.sum(symbols, at)? {
            None => Ok(None),
            Some((low, next)) => self.up_to(symbols, low, next, is_not),
        }
    }

    /// The range from this end up to the one behind AND.
    fn up_to(&self, symbols: &[Symbol], low: Expr, at: usize, is_not: bool) -> Reading<Behind>
        requires nests { Nests self.now.depth (F.pre self.now.inner) (F.post self.now.inner) }
        requires within { at ≤ length symbols.now }
        ensures reads { Reads symbols.now result (spec.up_to (spec.found self.now.depth) is_not low (drop at symbols.now)) }
        ensures place { Reaches (at + 1) symbols.now result }
    {
        let (low, read) = beside(low, self.high(symbols, at))?;
        match read {
            None => Ok(None),
            Some((high, next)) => Ok(Some((Behind::Between(is_not, low, high), next))),
        }
    }

    /// AND, and the expression behind it.
    fn high(&self, symbols: &[Symbol], at: usize) -> Reading<Expr>
        requires nests { Nests self.now.depth (F.pre self.now.inner) (F.post self.now.inner) }
        requires within { at ≤ length symbols.now }
        ensures reads { Reads symbols.now result (spec.high (spec.found self.now.depth) (drop at symbols.now)) }
        ensures place { Reaches (at + 1) symbols.now result }
    {
        match peek(symbols, at) {
            Some(Symbol::Fixed(Mark::And)) => self.sum(symbols, at + 1),
            _ => Ok(None),
        }
    }

    /// A comma, and the expression behind it.
    #[tactic(auto, unfolding(crate::specs::Reader::next_more))]
    fn next_more(&self, symbols: &[Symbol], at: usize) -> Reading<Expr>
        requires nests { Nests self.now.depth (F.pre self.now.inner) (F.post self.now.inner) }
        requires within { at ≤ length symbols.now }
        ensures reads { Reads symbols.now result (spec.next_more (spec.found self.now.depth) (drop at symbols.now)) }
        ensures place { Reaches (at + 1) symbols.now result }
    {
        let Some(Symbol::Fixed(Mark::Comma)) = peek(symbols, at) else {
            return Ok(None);
        };
        self.sum(symbols, at + 1)
    }

    /// As many of them as there are.
    fn mores(&self, symbols: &[Symbol], at: usize) -> Result<(Exprs, usize), AllocError>
        requires nests { Nests self.now.depth (F.pre self.now.inner) (F.post self.now.inner) }
        requires within { at ≤ length symbols.now }
        ensures many { IfOk result (λ p. ReadsMany symbols.now p.0 p.1 (spec.many (spec.next_more (spec.found self.now.depth)) (drop at symbols.now))) }
        ensures place { IfOk result (λ p. (at ≤ p.1) × (p.1 ≤ length symbols.now)) }
    {
        let mut mores = Exprs::new(self.alloc);
        let mut next = at;
        while let Some((more, behind)) = self.next_more(symbols, next)? {
            mores.push(more)?;
            next = behind;
        }
        Ok((mores, next))
    }
}

/// What stands behind IS.
#[tactic(auto, unfolding(crate::specs::Reader::after_is))]
fn after_is(symbols: &[Symbol], at: usize) -> Option<(Behind, usize)>
    requires { at ≤ length symbols.now }
    ensures reads { ReadsSome symbols.now result (spec.after_is (drop at symbols.now)) }
    ensures place { ReachesSome (at + 1) symbols.now result }
{
    match peek(symbols, at) {
        Some(Symbol::Fixed(Mark::Not)) => null(symbols, at + 1, true),
        _ => null(symbols, at, false),
    }
}

fn null(symbols: &[Symbol], at: usize, is_not: bool) -> Option<(Behind, usize)>
    requires { at ≤ length symbols.now }
    ensures reads { ReadsSome symbols.now result (spec.null is_not (drop at symbols.now)) }
    ensures place { ReachesSome (at + 1) symbols.now result }
{
    match peek(symbols, at) {
        Some(Symbol::Fixed(Mark::Null)) => Some((Behind::IsNull(is_not), at + 1)),
        _ => None,
    }
}

/// The list of these expressions.
fn list_of(first: Expr, mut more: Exprs) -> Result<Exprs, AllocError>
    ensures { IfOk result (λ list. list ≡ first ∷ more) }
{
    more.insert(0, first)?;
    Ok(more)
}

/// The condition of an expression and what stands behind it.
pub(crate) fn with_behind(x: Expr, behind: Behind) -> Cond
    ensures { result ≡ spec.with_behind x behind }
{
    match behind {
        Behind::Compare(cmp, y) => Cond::Compare(cmp, x, y),
        Behind::IsNull(is_not) => Cond::IsNull(is_not, x),
        Behind::In(is_not, list) => Cond::In(is_not, x, list),
        Behind::Between(is_not, low, high) => Cond::Between(is_not, x, low, high),
    }
}
