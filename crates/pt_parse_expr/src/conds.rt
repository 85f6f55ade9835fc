ghost use Rattle.std.specs.Prelude.{◌≡◌, ◌+◌, ◌≤◌, length, drop, IfOk, [], ◌∷◌};
ghost use Rattle.pt_parse_expr.specs.Grammar as grammar;
ghost use Rattle.pt_parse_expr.specs.Placing.{Nests, Reaches, Reads, ReadsMany, cond_at};
ghost use Rattle.pt_parse_expr.specs.Reader as spec;

use crate::alphabet::{Mark, Symbol};
use crate::comparisons::with_behind;
use crate::found::Found;
use crate::grammar::Grammar;
use crate::source::{Reading, beside, peek};
use pt_ast::{Cond, Conds, Expr};
use pt_plain::Held;
use std::alloc::{AllocError, Global};

impl<F: Fn(Global, &[Symbol], usize, usize) -> Reading<Found>> Grammar<F> {
    /// A condition of an expression and what stands behind it, else the expression.
    fn compared(&self, symbols: &[Symbol], x: Expr, at: usize) -> Result<(Found, usize), AllocError>
        requires nests { Nests self.now.depth (F.pre self.now.inner) (F.post self.now.inner) }
        requires within { at ≤ length symbols.now }
        ensures reads { IfOk result (λ p. spec.compared (spec.found self.now.depth) (Some (x, drop at symbols.now)) ≡ Some (p.0, drop p.1 symbols.now)) }
        ensures place { IfOk result (λ p. (at ≤ p.1) × (p.1 ≤ length symbols.now)) }
    {
        let (x, read) = beside(x, self.behind_expr(symbols, at))?;
        match read {
            None => Ok((Found::Value(x), at)),
            Some((behind, next)) => Ok((Found::Test(with_behind(x, behind)), next)),
        }
    }

    /// A test, or an expression.
    #[tactic(auto, unfolding(crate::specs::Reader::tested))]
    fn test(&self, symbols: &[Symbol], at: usize) -> Reading<Found>
        requires nests { Nests self.now.depth (F.pre self.now.inner) (F.post self.now.inner) }
        requires within { at ≤ length symbols.now }
        ensures reads { Reads symbols.now result (spec.tested (spec.found self.now.depth) (drop at symbols.now)) }
        ensures place { Reaches (at + 1) symbols.now result }
    {
        match peek(symbols, at) {
            Some(Symbol::Fixed(Mark::Open)) => self.opened(symbols, at + 1),
            _ => self.plain_test(symbols, at),
        }
    }

    /// A test that begins with no parenthesis, or an expression.
    fn plain_test(&self, symbols: &[Symbol], at: usize) -> Reading<Found>
        requires nests { Nests self.now.depth (F.pre self.now.inner) (F.post self.now.inner) }
        requires within { at ≤ length symbols.now }
        ensures reads { Reads symbols.now result (spec.compared (spec.found self.now.depth) (spec.sum (spec.found self.now.depth) (drop at symbols.now))) }
        ensures place { Reaches (at + 1) symbols.now result }
    {
        let Some((x, next)) = self.sum(symbols, at)? else {
            return Ok(None);
        };
        Ok(Some(self.compared(symbols, x, next)?))
    }

    /// What begins with a parenthesis: the place is the one behind it.
    fn opened(&self, symbols: &[Symbol], at: usize) -> Reading<Found>
        requires nests { Nests self.now.depth (F.pre self.now.inner) (F.post self.now.inner) }
        requires within { at ≤ length symbols.now }
        ensures reads { Reads symbols.now result (spec.opened (spec.found self.now.depth) (spec.closed (spec.found self.now.depth (drop at symbols.now)))) }
        ensures place { Reaches (at + 1) symbols.now result }
    {
        match self.enclosed(symbols, at)? {
            None => Ok(None),
            Some((found, next)) => Ok(Some(self.opened_by(symbols, found, next)?)),
        }
    }

    /// What parentheses begin.
    fn opened_by(
        &self,
        symbols: &[Symbol],
        found: Found,
        at: usize,
    ) -> Result<(Found, usize), AllocError>
        requires nests { Nests self.now.depth (F.pre self.now.inner) (F.post self.now.inner) }
        requires within { at ≤ length symbols.now }
        ensures reads { IfOk result (λ p. spec.opened_by (spec.found self.now.depth) found (drop at symbols.now) ≡ Some (p.0, drop p.1 symbols.now)) }
        ensures place { IfOk result (λ p. (at ≤ p.1) × (p.1 ≤ length symbols.now)) }
    {
        match found {
            Found::Test(test) => Ok((Found::Test(test), at)),
            Found::Value(x) => self.continued(symbols, x, at),
        }
    }

    /// What an expression in parentheses is the first primary of.
    fn continued(
        &self,
        symbols: &[Symbol],
        x: Expr,
        at: usize,
    ) -> Result<(Found, usize), AllocError>
        requires nests { Nests self.now.depth (F.pre self.now.inner) (F.post self.now.inner) }
        requires within { at ≤ length symbols.now }
        ensures reads { IfOk result (λ p. spec.opened_by (spec.found self.now.depth) (Found.Value x) (drop at symbols.now) ≡ Some (p.0, drop p.1 symbols.now)) }
        ensures place { IfOk result (λ p. (at ≤ p.1) × (p.1 ≤ length symbols.now)) }
    {
        let (product, next) = self.product_after(symbols, x, at)?;
        let (sum, next) = self.sum_after(symbols, product, next)?;
        self.compared(symbols, sum, next)
    }

    /// A test with an optional NOT, or an expression.
    #[tactic(auto, unfolding(crate::specs::Reader::negation))]
    fn negation(&self, symbols: &[Symbol], at: usize) -> Reading<Found>
        requires nests { Nests self.now.depth (F.pre self.now.inner) (F.post self.now.inner) }
        requires within { at ≤ length symbols.now }
        ensures reads { Reads symbols.now result (spec.negation (spec.found self.now.depth) (drop at symbols.now)) }
        ensures place { Reaches (at + 1) symbols.now result }
    {
        match peek(symbols, at) {
            Some(Symbol::Fixed(Mark::Not)) => self.negated_test(symbols, at + 1),
            _ => self.test(symbols, at),
        }
    }

    /// What stands behind NOT.
    fn negated_test(&self, symbols: &[Symbol], at: usize) -> Reading<Found>
        requires nests { Nests self.now.depth (F.pre self.now.inner) (F.post self.now.inner) }
        requires within { at ≤ length symbols.now }
        ensures reads { Reads symbols.now result (spec.mapped (λ c. Found.Test (Cond.Not c)) (spec.as_cond (spec.tested (spec.found self.now.depth) (drop at symbols.now)))) }
        ensures place { Reaches (at + 1) symbols.now result }
    {
        let Some((found, next)) = self.test(symbols, at)? else {
            return Ok(None);
        };
        match cond_at(found, next) {
            None => Ok(None),
            Some((test, next)) => Ok(Some((
                Found::Test(Cond::Not(Held::new(self.alloc, test)?)),
                next,
            ))),
        }
    }

    /// AND, and the condition behind it.
    #[tactic(auto, unfolding(crate::specs::Reader::next_negation))]
    fn next_negation(&self, symbols: &[Symbol], at: usize) -> Reading<Cond>
        requires nests { Nests self.now.depth (F.pre self.now.inner) (F.post self.now.inner) }
        requires within { at ≤ length symbols.now }
        ensures reads { Reads symbols.now result (spec.next_negation (spec.found self.now.depth) (drop at symbols.now)) }
        ensures place { Reaches (at + 1) symbols.now result }
    {
        let Some(Symbol::Fixed(Mark::And)) = peek(symbols, at) else {
            return Ok(None);
        };
        match self.negation(symbols, at + 1)? {
            None => Ok(None),
            Some((found, next)) => Ok(cond_at(found, next)),
        }
    }

    /// As many of them as there are.
    fn negations(&self, symbols: &[Symbol], at: usize) -> Result<(Conds, usize), AllocError>
        requires nests { Nests self.now.depth (F.pre self.now.inner) (F.post self.now.inner) }
        requires within { at ≤ length symbols.now }
        ensures many { IfOk result (λ p. ReadsMany symbols.now p.0 p.1 (spec.many (spec.next_negation (spec.found self.now.depth)) (drop at symbols.now))) }
        ensures place { IfOk result (λ p. (at ≤ p.1) × (p.1 ≤ length symbols.now)) }
    {
        let mut negations = Conds::new(self.alloc);
        let mut next = at;
        while let Some((negation, behind)) = self.next_negation(symbols, next)? {
            negations.push(negation)?;
            next = behind;
        }
        Ok((negations, next))
    }

    /// Conditions with AND between them, or an expression.
    #[tactic(auto, unfolding(crate::specs::Reader::conjunction))]
    fn conjunction(&self, symbols: &[Symbol], at: usize) -> Reading<Found>
        requires nests { Nests self.now.depth (F.pre self.now.inner) (F.post self.now.inner) }
        requires within { at ≤ length symbols.now }
        ensures reads { Reads symbols.now result (spec.conjunction (spec.found self.now.depth) (drop at symbols.now)) }
        ensures place { Reaches (at + 1) symbols.now result }
    {
        match self.negation(symbols, at)? {
            None => Ok(None),
            Some((found, next)) => Ok(Some(self.and_by(symbols, found, next)?)),
        }
    }

    /// The conditions with AND between them of which this is the first, or an expression.
    fn and_by(
        &self,
        symbols: &[Symbol],
        found: Found,
        at: usize,
    ) -> Result<(Found, usize), AllocError>
        requires nests { Nests self.now.depth (F.pre self.now.inner) (F.post self.now.inner) }
        requires within { at ≤ length symbols.now }
        ensures reads { IfOk result (λ p. spec.and_by (spec.found self.now.depth) found (drop at symbols.now) ≡ Some (p.0, drop p.1 symbols.now)) }
        ensures place { IfOk result (λ p. (at ≤ p.1) × (p.1 ≤ length symbols.now)) }
    {
        match found {
            Found::Value(x) => Ok((Found::Value(x), at)),
            Found::Test(first) => self.and_after(symbols, first, at),
        }
    }

    /// The same, behind a condition.
    fn and_after(
        &self,
        symbols: &[Symbol],
        first: Cond,
        at: usize,
    ) -> Result<(Found, usize), AllocError>
        requires nests { Nests self.now.depth (F.pre self.now.inner) (F.post self.now.inner) }
        requires within { at ≤ length symbols.now }
        ensures reads { IfOk result (λ p. spec.and_by (spec.found self.now.depth) (Found.Test first) (drop at symbols.now) ≡ Some (p.0, drop p.1 symbols.now)) }
        ensures place { IfOk result (λ p. (at ≤ p.1) × (p.1 ≤ length symbols.now)) }
    {
        let (first, (more, next)) = beside(first, self.negations(symbols, at))?;
        Ok((Found::Test(and_of(first, more)?), next))
    }

    /// OR, and the condition behind it.
    #[tactic(auto, unfolding(crate::specs::Reader::next_conjunction))]
    fn next_conjunction(&self, symbols: &[Symbol], at: usize) -> Reading<Cond>
        requires nests { Nests self.now.depth (F.pre self.now.inner) (F.post self.now.inner) }
        requires within { at ≤ length symbols.now }
        ensures reads { Reads symbols.now result (spec.next_conjunction (spec.found self.now.depth) (drop at symbols.now)) }
        ensures place { Reaches (at + 1) symbols.now result }
    {
        let Some(Symbol::Fixed(Mark::Or)) = peek(symbols, at) else {
            return Ok(None);
        };
        match self.conjunction(symbols, at + 1)? {
            None => Ok(None),
            Some((found, next)) => Ok(cond_at(found, next)),
        }
    }

    /// As many of them as there are.
    fn conjunctions(&self, symbols: &[Symbol], at: usize) -> Result<(Conds, usize), AllocError>
        requires nests { Nests self.now.depth (F.pre self.now.inner) (F.post self.now.inner) }
        requires within { at ≤ length symbols.now }
        ensures many { IfOk result (λ p. ReadsMany symbols.now p.0 p.1 (spec.many (spec.next_conjunction (spec.found self.now.depth)) (drop at symbols.now))) }
        ensures place { IfOk result (λ p. (at ≤ p.1) × (p.1 ≤ length symbols.now)) }
    {
        let mut conjunctions = Conds::new(self.alloc);
        let mut next = at;
        while let Some((conjunction, behind)) = self.next_conjunction(symbols, next)? {
            conjunctions.push(conjunction)?;
            next = behind;
        }
        Ok((conjunctions, next))
    }

    /// A condition where one is spelled, else an expression.
    #[tactic(auto, unfolding(crate::specs::Reader::either))]
    pub(crate) fn either(&self, symbols: &[Symbol], at: usize) -> Reading<Found>
        requires nests { Nests self.now.depth (F.pre self.now.inner) (F.post self.now.inner) }
        requires within { at ≤ length symbols.now }
        ensures reads { Reads symbols.now result (spec.either (spec.found self.now.depth) (drop at symbols.now)) }
        ensures place { Reaches (at + 1) symbols.now result }
    {
        match self.conjunction(symbols, at)? {
            None => Ok(None),
            Some((found, next)) => Ok(Some(self.or_by(symbols, found, next)?)),
        }
    }

    /// The conditions with OR between them of which this is the first, or an expression.
    fn or_by(
        &self,
        symbols: &[Symbol],
        found: Found,
        at: usize,
    ) -> Result<(Found, usize), AllocError>
        requires nests { Nests self.now.depth (F.pre self.now.inner) (F.post self.now.inner) }
        requires within { at ≤ length symbols.now }
        ensures reads { IfOk result (λ p. spec.or_by (spec.found self.now.depth) found (drop at symbols.now) ≡ Some (p.0, drop p.1 symbols.now)) }
        ensures place { IfOk result (λ p. (at ≤ p.1) × (p.1 ≤ length symbols.now)) }
    {
        match found {
            Found::Value(x) => Ok((Found::Value(x), at)),
            Found::Test(first) => self.or_after(symbols, first, at),
        }
    }

    /// The same, behind a condition.
    fn or_after(
        &self,
        symbols: &[Symbol],
        first: Cond,
        at: usize,
    ) -> Result<(Found, usize), AllocError>
        requires nests { Nests self.now.depth (F.pre self.now.inner) (F.post self.now.inner) }
        requires within { at ≤ length symbols.now }
        ensures reads { IfOk result (λ p. spec.or_by (spec.found self.now.depth) (Found.Test first) (drop at symbols.now) ≡ Some (p.0, drop p.1 symbols.now)) }
        ensures place { IfOk result (λ p. (at ≤ p.1) × (p.1 ≤ length symbols.now)) }
    {
        let (first, (more, next)) = beside(first, self.conjunctions(symbols, at))?;
        Ok((Found::Test(or_of(first, more)?), next))
    }

    /// A condition.
    pub(crate) fn condition(&self, symbols: &[Symbol], at: usize) -> Reading<Cond>
        requires nests { Nests self.now.depth (F.pre self.now.inner) (F.post self.now.inner) }
        requires within { at ≤ length symbols.now }
        ensures reads { Reads symbols.now result (spec.as_cond (spec.either (spec.found self.now.depth) (drop at symbols.now))) }
        ensures place { Reaches (at + 1) symbols.now result }
    {
        match self.either(symbols, at)? {
            None => Ok(None),
            Some((found, next)) => Ok(cond_at(found, next)),
        }
    }
}

/// The condition, where it is one.
fn cond_at(found: Found, at: usize) -> Option<(Cond, usize)>
    ensures { result ≡ cond_at found at }
{
    match found {
        Found::Value(_) => None,
        Found::Test(test) => Some((test, at)),
    }
}

/// AND of these conditions; one alone makes no node.
fn and_of(first: Cond, mut more: Conds) -> Result<Cond, AllocError>
    ensures { IfOk result (λ c. c ≡ grammar.and_of first more) }
{
    if more.items().is_empty() {
        return Ok(first);
    }
    more.insert(0, first)?;
    Ok(Cond::And(more))
}

/// OR of these conditions; one alone makes no node.
fn or_of(first: Cond, mut more: Conds) -> Result<Cond, AllocError>
    ensures { IfOk result (λ c. c ≡ grammar.or_of first more) }
{
    if more.items().is_empty() {
        return Ok(first);
    }
    more.insert(0, first)?;
    Ok(Cond::Or(more))
}
