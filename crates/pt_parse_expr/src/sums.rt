ghost use Rattle.std.specs.Prelude.{◌≡◌, ◌+◌, ◌≤◌, length, drop, IfOk, [], ◌∷◌};
ghost use Rattle.pt_parse_expr.specs.Grammar as grammar;
ghost use Rattle.pt_parse_expr.specs.Placing.{Nests, Reaches, Reads, ReadsMany};
ghost use Rattle.pt_parse_expr.specs.Reader as spec;

use crate::alphabet::{Mark, Symbol};
use crate::found::Found;
use crate::grammar::Grammar;
use crate::source::{Reading, beside, peek};
use pt_ast::{Expr, Factors, Op, Terms};
use pt_plain::Held;
use std::alloc::{AllocError, Global};

impl<F: Fn(Global, &[Symbol], usize, usize) -> Reading<Found>> Grammar<F> {
    /// An operator of a product, and the factor behind it.
    #[tactic(auto, unfolding(crate::specs::Reader::next_factor))]
    fn next_factor(&self, symbols: &[Symbol], at: usize) -> Reading<(Op, Expr)>
        requires nests { Nests self.now.depth (F.pre self.now.inner) (F.post self.now.inner) }
        requires within { at ≤ length symbols.now }
        ensures reads { Reads symbols.now result (spec.next_factor (spec.found self.now.depth) (drop at symbols.now)) }
        ensures place { Reaches (at + 1) symbols.now result }
    {
        let Some(symbol) = peek(symbols, at) else {
            return Ok(None);
        };
        let Some(op) = op_of(symbol) else {
            return Ok(None);
        };
        match self.factor(symbols, at + 1)? {
            None => Ok(None),
            Some((x, next)) => Ok(Some(((op, x), next))),
        }
    }

    /// As many of them as there are.
    pub(crate) fn factors(
        &self,
        symbols: &[Symbol],
        at: usize,
    ) -> Result<(Factors, usize), AllocError>
        requires nests { Nests self.now.depth (F.pre self.now.inner) (F.post self.now.inner) }
        requires within { at ≤ length symbols.now }
        ensures many { IfOk result (λ p. ReadsMany symbols.now p.0 p.1 (spec.many (spec.next_factor (spec.found self.now.depth)) (drop at symbols.now))) }
        ensures place { IfOk result (λ p. (at ≤ p.1) × (p.1 ≤ length symbols.now)) }
    {
        let mut factors = Factors::new(self.alloc);
        let mut next = at;
        while let Some((factor, behind)) = self.next_factor(symbols, next)? {
            factors.push(factor)?;
            next = behind;
        }
        Ok((factors, next))
    }

    /// A product, behind its first part.
    pub(crate) fn product_after(
        &self,
        symbols: &[Symbol],
        first: Expr,
        at: usize,
    ) -> Result<(Expr, usize), AllocError>
        requires nests { Nests self.now.depth (F.pre self.now.inner) (F.post self.now.inner) }
        requires within { at ≤ length symbols.now }
        ensures reads { IfOk result (λ p. spec.product_after (spec.found self.now.depth) (Some (first, drop at symbols.now)) ≡ Some (p.0, drop p.1 symbols.now)) }
        ensures place { IfOk result (λ p. (at ≤ p.1) × (p.1 ≤ length symbols.now)) }
    {
        let (first, (factors, next)) = beside(first, self.factors(symbols, at))?;
        Ok((product_of(self.alloc, first, factors)?, next))
    }

    /// A product, or its one factor.
    #[tactic(auto, unfolding(crate::specs::Reader::term))]
    pub(crate) fn term(&self, symbols: &[Symbol], at: usize) -> Reading<Expr>
        requires nests { Nests self.now.depth (F.pre self.now.inner) (F.post self.now.inner) }
        requires within { at ≤ length symbols.now }
        ensures reads { Reads symbols.now result (spec.term (spec.found self.now.depth) (drop at symbols.now)) }
        ensures place { Reaches (at + 1) symbols.now result }
    {
        let Some((first, next)) = self.factor(symbols, at)? else {
            return Ok(None);
        };
        Ok(Some(self.product_after(symbols, first, next)?))
    }

    /// A sign of a sum, and the term behind it.
    #[tactic(auto, unfolding(crate::specs::Reader::next_term))]
    fn next_term(&self, symbols: &[Symbol], at: usize) -> Reading<(bool, Expr)>
        requires nests { Nests self.now.depth (F.pre self.now.inner) (F.post self.now.inner) }
        requires within { at ≤ length symbols.now }
        ensures reads { Reads symbols.now result (spec.next_term (spec.found self.now.depth) (drop at symbols.now)) }
        ensures place { Reaches (at + 1) symbols.now result }
    {
        let Some(symbol) = peek(symbols, at) else {
            return Ok(None);
        };
        let Some(is_minus) = sign_of(symbol) else {
            return Ok(None);
        };
        match self.term(symbols, at + 1)? {
            None => Ok(None),
            Some((x, next)) => Ok(Some(((is_minus, x), next))),
        }
    }

    /// As many of them as there are.
    pub(crate) fn terms(&self, symbols: &[Symbol], at: usize) -> Result<(Terms, usize), AllocError>
        requires nests { Nests self.now.depth (F.pre self.now.inner) (F.post self.now.inner) }
        requires within { at ≤ length symbols.now }
        ensures many { IfOk result (λ p. ReadsMany symbols.now p.0 p.1 (spec.many (spec.next_term (spec.found self.now.depth)) (drop at symbols.now))) }
        ensures place { IfOk result (λ p. (at ≤ p.1) × (p.1 ≤ length symbols.now)) }
    {
        let mut terms = Terms::new(self.alloc);
        let mut next = at;
        while let Some((term, behind)) = self.next_term(symbols, next)? {
            terms.push(term)?;
            next = behind;
        }
        Ok((terms, next))
    }

    /// A sum, behind its first part.
    pub(crate) fn sum_after(
        &self,
        symbols: &[Symbol],
        first: Expr,
        at: usize,
    ) -> Result<(Expr, usize), AllocError>
        requires nests { Nests self.now.depth (F.pre self.now.inner) (F.post self.now.inner) }
        requires within { at ≤ length symbols.now }
        ensures reads { IfOk result (λ p. spec.sum_after (spec.found self.now.depth) (Some (first, drop at symbols.now)) ≡ Some (p.0, drop p.1 symbols.now)) }
        ensures place { IfOk result (λ p. (at ≤ p.1) × (p.1 ≤ length symbols.now)) }
    {
        let (first, (terms, next)) = beside(first, self.terms(symbols, at))?;
        Ok((sum_of(self.alloc, first, terms)?, next))
    }

    /// An expression: a sum, or its one term.
    #[tactic(auto, unfolding(crate::specs::Reader::sum))]
    pub(crate) fn sum(&self, symbols: &[Symbol], at: usize) -> Reading<Expr>
        requires nests { Nests self.now.depth (F.pre self.now.inner) (F.post self.now.inner) }
        requires within { at ≤ length symbols.now }
        ensures reads { Reads symbols.now result (spec.sum (spec.found self.now.depth) (drop at symbols.now)) }
        ensures place { Reaches (at + 1) symbols.now result }
    {
        let Some((first, next)) = self.term(symbols, at)? else {
            return Ok(None);
        };
        Ok(Some(self.sum_after(symbols, first, next)?))
    }
}

/// The operator of a product that a symbol is.
fn op_of(symbol: &Symbol) -> Option<Op>
    ensures { result ≡ spec.op_of symbol.now }
{
    match symbol {
        Symbol::Fixed(Mark::Star) => Some(Op::Times),
        Symbol::Fixed(Mark::Div) => Some(Op::Div),
        Symbol::Fixed(Mark::Percent) => Some(Op::Mod),
        Symbol::Fixed(Mark::Mod) => Some(Op::Mod),
        _ => None,
    }
}

/// Whether the sign of a sum that a symbol is is a minus.
fn sign_of(symbol: &Symbol) -> Option<bool>
    ensures { result ≡ spec.sign_of symbol.now }
{
    match symbol {
        Symbol::Fixed(Mark::Plus) => Some(false),
        Symbol::Fixed(Mark::Minus) => Some(true),
        _ => None,
    }
}

/// A product of these parts; one part alone makes no node.
fn product_of(alloc: Global, first: Expr, factors: Factors) -> Result<Expr, AllocError>
    ensures { IfOk result (λ x. x ≡ grammar.product_of first factors) }
{
    if factors.items().is_empty() {
        return Ok(first);
    }
    Ok(Expr::Product(Held::new(alloc, first)?, factors))
}

/// A sum of these parts; one part alone makes no node.
fn sum_of(alloc: Global, first: Expr, mut terms: Terms) -> Result<Expr, AllocError>
    ensures { IfOk result (λ x. x ≡ grammar.sum_of first terms) }
{
    if terms.items().is_empty() {
        return Ok(first);
    }
    terms.insert(0, (false, first))?;
    Ok(Expr::Sum(terms))
}
