ghost use Rattle.std.specs.Prelude.{◌≡◌, ◌∷◌, [], map};
ghost use Rattle.pt_expr.specs.FoundCond.{all_verdict, alike_verdict, checked_cond};

use crate::CheckFault;
use crate::operands::Operands;
use crate::typing::finding;
use pt_ast::{Columns, Cond, Expr, Exprs};

/// Whether a condition over these columns is well typed, or its first fault from left to right. It takes no memory.
pub fn check_cond(columns: &Columns, cond: &Cond) -> Result<(), CheckFault>
    ensures { result ≡ checked_cond columns.now cond.now }
{
    match cond {
        Cond::Or(parts) | Cond::And(parts) => {
            for part in parts.items() {
                check_cond(columns, part)?;
            }
            Ok(())
        }
        Cond::Not(part) => check_cond(columns, part.get()),
        Cond::Compare(_, left, right) => compare(columns, left, right),
        Cond::IsNull(_, expr) => {
            finding(columns, expr)?;
            Ok(())
        }
        Cond::In(_, expr, list) => among(columns, expr, list),
        Cond::Between(_, expr, low, high) => between(columns, expr, low, high),
    }
}

fn compare(columns: &Columns, left: &Expr, right: &Expr) -> Result<(), CheckFault>
    ensures { result ≡ alike_verdict columns.now (left.now ∷ right.now ∷ []) }
{
    let operands = Operands::none().with(columns, left)?;
    let operands = operands.with(columns, right)?;
    operands.end()
}

fn among(columns: &Columns, expr: &Expr, list: &Exprs) -> Result<(), CheckFault>
    ensures { result ≡ alike_verdict columns.now (expr.now ∷ list.now) }
{
    let mut operands = Operands::none().with(columns, expr)?;
    for item in list.items() {
        operands = operands.with(columns, item)?;
    }
    operands.end()
}

fn between(columns: &Columns, expr: &Expr, low: &Expr, high: &Expr) -> Result<(), CheckFault>
    ensures { result ≡ alike_verdict columns.now (expr.now ∷ low.now ∷ high.now ∷ []) }
{
    let operands = Operands::none().with(columns, expr)?;
    let operands = operands.with(columns, low)?;
    let operands = operands.with(columns, high)?;
    operands.end()
}
