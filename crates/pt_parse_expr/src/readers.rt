ghost use Rattle.std.specs.Prelude.{◌≡◌, ◌+◌, ◌≤◌, length, drop};
ghost use Rattle.pt_ast.specs.StorableCond.{IsStorableCond};
ghost use Rattle.pt_ast.specs.StorableExpr.{IsStorableExpr};
ghost use Rattle.pt_parse_expr.specs.Limits.{AreStorable, IsDeep};
ghost use Rattle.pt_parse_expr.specs.Placing.{Reaches, Reads};
ghost use Rattle.pt_parse_expr.specs.Reader as spec;
ghost use Rattle.pt_parse_expr.specs.Spelling.{GivesLongest, IfRead, SpellsCond, SpellsExpr};

use crate::alphabet::Symbol;
use crate::grammar::{Grammar, found};
use crate::limits::MOST_OPEN;
use pt_ast::{Cond, Expr};
use std::alloc::{AllocError, Global};

/// The longest expression from a symbol on, and the place of the next one; `None` where none is spelled there. Places count
/// symbols. The time is linear in the symbols that are read. What it says of spelling holds where they aren't deep (`deep`).
pub fn read_expr(
    alloc: Global,
    symbols: &[Symbol],
    at: usize,
) -> Result<Option<(Expr, usize)>, AllocError>
    requires { at ≤ length symbols.now }
    ensures longest { (IsDeep symbols.now → ⊥) → GivesLongest SpellsExpr symbols.now at result }
    ensures storable { (IsDeep symbols.now → ⊥) → AreStorable symbols.now → IfRead IsStorableExpr result }
    ensures reads { Reads symbols.now result (spec.sum (spec.found 64) (drop at symbols.now)) }
    ensures place { Reaches (at + 1) symbols.now result }
{
    Grammar {
        alloc,
        depth: MOST_OPEN,
        inner: found,
    }
    .sum(symbols, at)
}

/// The same of a condition.
pub fn read_cond(
    alloc: Global,
    symbols: &[Symbol],
    at: usize,
) -> Result<Option<(Cond, usize)>, AllocError>
    requires { at ≤ length symbols.now }
    ensures longest { (IsDeep symbols.now → ⊥) → GivesLongest SpellsCond symbols.now at result }
    ensures storable { (IsDeep symbols.now → ⊥) → AreStorable symbols.now → IfRead IsStorableCond result }
    ensures reads { Reads symbols.now result (spec.as_cond (spec.either (spec.found 64) (drop at symbols.now))) }
    ensures place { Reaches (at + 1) symbols.now result }
{
    Grammar {
        alloc,
        depth: MOST_OPEN,
        inner: found,
    }
    .condition(symbols, at)
}
