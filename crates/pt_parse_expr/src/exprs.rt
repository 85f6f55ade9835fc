ghost use Rattle.std.specs.Prelude.{◌≡◌, ◌+◌, ◌≤◌, length, drop, IfOk, [], ◌∷◌};
ghost use Rattle.pt_parse_expr.specs.Grammar as grammar;
ghost use Rattle.pt_parse_expr.specs.Placing.{Nests, Reaches, Reads, expr_at};
ghost use Rattle.pt_parse_expr.specs.Reader as spec;
ghost use Rattle.pt_parse_expr.specs.Symbols.{func_of};
ghost use Rattle.pt_parse_expr.specs.declared.alphabet.Mark.TheVariants.{Open};
ghost use Rattle.pt_parse_expr.specs.declared.alphabet.Symbol.TheVariants.{Fixed};

use crate::alphabet::{Mark, Symbol};
use crate::found::Found;
use crate::grammar::Grammar;
use crate::source::{Reading, beside, peek};
use crate::words::{func_of, is_date};
use pt_ast::{Expr, Factors, Func, Op, Terms};
use pt_plain::Held;
use pt_value::{Bin, Ident, day_of_text};
use std::alloc::{AllocError, Global};

impl<F: Fn(Global, &[Symbol], usize, usize) -> Reading<Found>> Grammar<F> {
    /// An expression and the parenthesis that closes it.
    #[tactic(auto, unfolding(crate::specs::Reader::value))]
    pub(crate) fn value(&self, symbols: &[Symbol], at: usize) -> Reading<Expr>
        requires nests { Nests self.now.depth (F.pre self.now.inner) (F.post self.now.inner) }
        requires within { at ≤ length symbols.now }
        ensures reads { Reads symbols.now result (spec.value (spec.found self.now.depth) (drop at symbols.now)) }
        ensures place { Reaches (at + 1) symbols.now result }
    {
        match self.enclosed(symbols, at)? {
            None => Ok(None),
            Some((found, next)) => Ok(expr_at(found, next)),
        }
    }

    /// A primary: a literal, a column, a call, or an expression in parentheses.
    #[tactic(auto, unfolding(crate::specs::Reader::primary))]
    pub(crate) fn primary(&self, symbols: &[Symbol], at: usize) -> Reading<Expr>
        requires nests { Nests self.now.depth (F.pre self.now.inner) (F.post self.now.inner) }
        requires within { at ≤ length symbols.now }
        ensures reads { Reads symbols.now result (spec.primary (spec.found self.now.depth) (drop at symbols.now)) }
        ensures place { Reaches (at + 1) symbols.now result }
    {
        match peek(symbols, at) {
            Some(Symbol::Number(n)) => Ok(Some((Expr::Number(*n), at + 1))),
            Some(Symbol::Text(bytes)) => Ok(Some((Expr::Text(copied(self.alloc, bytes)?), at + 1))),
            Some(Symbol::Hex(bytes)) => Ok(Some((Expr::Hex(copied(self.alloc, bytes)?), at + 1))),
            Some(Symbol::Quoted(name)) => Ok(Some((Expr::Column(*name), at + 1))),
            Some(Symbol::Word(name)) => self.after_word(symbols, at + 1, name),
            Some(Symbol::Fixed(Mark::Null)) => Ok(Some((Expr::Null, at + 1))),
            Some(Symbol::Fixed(Mark::Mod)) => self.after_mod(symbols, at + 1),
            Some(Symbol::Fixed(Mark::Open)) => self.value(symbols, at + 1),
            _ => Ok(None),
        }
    }

    /// What a word begins: a call, a date or a column. The place is the one behind the word.
    #[tactic(auto, unfolding(crate::specs::Reader::after_word))]
    pub(crate) fn after_word(&self, symbols: &[Symbol], at: usize, name: &Ident) -> Reading<Expr>
        requires nests { Nests self.now.depth (F.pre self.now.inner) (F.post self.now.inner) }
        requires within { at ≤ length symbols.now }
        ensures reads { Reads symbols.now result (spec.after_word (spec.found self.now.depth) name.now (drop at symbols.now)) }
        ensures place { Reaches (at) symbols.now result }
    {
        match peek(symbols, at) {
            Some(Symbol::Fixed(Mark::Open)) => self.call_or_column(symbols, at, name),
            Some(Symbol::Text(bytes)) if is_date(name.bytes()) => {
                Ok(Some((Expr::Date(day_of_text(bytes.items())), at + 1)))
            }
            _ => Ok(Some((Expr::Column(*name), at))),
        }
    }

    /// A call of the function of that name, or the column of that name before a parenthesis.
    fn call_or_column(&self, symbols: &[Symbol], at: usize, name: &Ident) -> Reading<Expr>
        requires nests { Nests self.now.depth (F.pre self.now.inner) (F.post self.now.inner) }
        requires opens { drop at symbols.now ≡ Fixed Open ∷ drop (at + 1) symbols.now }
        requires within { at + 1 ≤ length symbols.now }
        ensures reads { Reads symbols.now result (spec.call_by (spec.found self.now.depth) (func_of name.now) name.now (drop (at + 1) symbols.now)) }
        ensures place { Reaches at symbols.now result }
    {
        if let Some(func) = func_of(name.bytes()) {
            if let Some((x, next)) = self.value(symbols, at + 1)? {
                return Ok(Some((Expr::Call(func, Held::new(self.alloc, x)?), next)));
            }
        }
        Ok(Some((Expr::Column(*name), at)))
    }

    /// What stands behind MOD where it is a function.
    #[tactic(auto, unfolding(crate::specs::Reader::after_mod))]
    pub(crate) fn after_mod(&self, symbols: &[Symbol], at: usize) -> Reading<Expr>
        requires nests { Nests self.now.depth (F.pre self.now.inner) (F.post self.now.inner) }
        requires within { at ≤ length symbols.now }
        ensures reads { Reads symbols.now result (spec.after_mod (spec.found self.now.depth) (drop at symbols.now)) }
        ensures place { Reaches (at + 1) symbols.now result }
    {
        let Some(Symbol::Fixed(Mark::Open)) = peek(symbols, at) else {
            return Ok(None);
        };
        match self.first_of_two(symbols, at + 1)? {
            None => Ok(None),
            Some((x, next)) => self.divided(symbols, x, next),
        }
    }

    /// The first expression in the parentheses of MOD.
    fn first_of_two(&self, symbols: &[Symbol], at: usize) -> Reading<Expr>
        requires nests { Nests self.now.depth (F.pre self.now.inner) (F.post self.now.inner) }
        requires within { at ≤ length symbols.now }
        ensures reads { Reads symbols.now result (spec.as_expr (spec.found self.now.depth (drop at symbols.now))) }
        ensures place { Reaches (at + 1) symbols.now result }
    {
        match self.nested(symbols, at)? {
            None => Ok(None),
            Some((found, next)) => Ok(expr_at(found, next)),
        }
    }

    /// The remainder of an expression by the one behind the comma.
    fn divided(&self, symbols: &[Symbol], x: Expr, at: usize) -> Reading<Expr>
        requires nests { Nests self.now.depth (F.pre self.now.inner) (F.post self.now.inner) }
        requires within { at ≤ length symbols.now }
        ensures reads { Reads symbols.now result (spec.divided (spec.found self.now.depth) x (drop at symbols.now)) }
        ensures place { Reaches (at + 1) symbols.now result }
    {
        let (x, read) = beside(x, self.divisor(symbols, at))?;
        match read {
            None => Ok(None),
            Some((y, next)) => Ok(Some((modulo(self.alloc, x, y)?, next))),
        }
    }

    /// A comma, and the expression behind it with the parenthesis that closes it.
    fn divisor(&self, symbols: &[Symbol], at: usize) -> Reading<Expr>
        requires nests { Nests self.now.depth (F.pre self.now.inner) (F.post self.now.inner) }
        requires within { at ≤ length symbols.now }
        ensures reads { Reads symbols.now result (spec.divisor (spec.found self.now.depth) (drop at symbols.now)) }
        ensures place { Reaches (at + 1) symbols.now result }
    {
        match peek(symbols, at) {
            Some(Symbol::Fixed(Mark::Comma)) => self.value(symbols, at + 1),
            _ => Ok(None),
        }
    }

    /// A primary with an optional sign.
    #[tactic(auto, unfolding(crate::specs::Reader::factor))]
    pub(crate) fn factor(&self, symbols: &[Symbol], at: usize) -> Reading<Expr>
        requires nests { Nests self.now.depth (F.pre self.now.inner) (F.post self.now.inner) }
        requires within { at ≤ length symbols.now }
        ensures reads { Reads symbols.now result (spec.factor (spec.found self.now.depth) (drop at symbols.now)) }
        ensures place { Reaches (at + 1) symbols.now result }
    {
        match peek(symbols, at) {
            Some(Symbol::Fixed(Mark::Plus)) => self.primary(symbols, at + 1),
            Some(Symbol::Fixed(Mark::Minus)) => self.negated(symbols, at + 1),
            _ => self.primary(symbols, at),
        }
    }

    /// What stands behind a minus.
    fn negated(&self, symbols: &[Symbol], at: usize) -> Reading<Expr>
        requires nests { Nests self.now.depth (F.pre self.now.inner) (F.post self.now.inner) }
        requires within { at ≤ length symbols.now }
        ensures reads { Reads symbols.now result (spec.mapped Expr.Neg (spec.primary (spec.found self.now.depth) (drop at symbols.now))) }
        ensures place { Reaches (at + 1) symbols.now result }
    {
        match self.primary(symbols, at)? {
            None => Ok(None),
            Some((x, next)) => Ok(Some((Expr::Neg(Held::new(self.alloc, x)?), next))),
        }
    }
}

/// The expression, where it is one.
fn expr_at(found: Found, at: usize) -> Option<(Expr, usize)>
    ensures { result ≡ expr_at found at }
{
    match found {
        Found::Value(x) => Some((x, at)),
        Found::Test(test) => {
            drop(test);
            None
        }
    }
}

/// An equal text.
fn copied(alloc: Global, bytes: &Bin) -> Result<Bin, AllocError>
    ensures { IfOk result (λ copied. copied ≡ bytes.now) }
{
    Bin::from_slice(alloc, bytes.items())
}

/// The remainder of one expression by another.
fn modulo(alloc: Global, x: Expr, y: Expr) -> Result<Expr, AllocError>
    ensures { IfOk result (λ e. e ≡ Expr.Product x ((Op.Mod, y) ∷ [])) }
{
    let mut factors = Factors::new(alloc);
    factors.push((Op::Mod, y))?;
    Ok(Expr::Product(Held::new(alloc, x)?, factors))
}
