use crate::exprs::put_expr;
use pt_ast::{Cond, Expr};
use std::alloc::AllocError;

/// Writes a condition behind a text: `(or c d ..)`, `(and c d ..)`, `(not c)`, `(Le x y)` with the name of the comparison in `Cmp`,
/// `(is_null x)`, `(in x y z ..)` and `(between x low high)`, where the forms with NOT are `not_is_null`, `not_in` and `not_between`.
pub(crate) fn put_cond(text: &mut String, cond: &Cond) -> Result<(), AllocError> {
    put_head(text, cond)?;
    match cond {
        Cond::Or(parts) | Cond::And(parts) => {
            for part in parts.items() {
                text.push(' ')?;
                put_cond(text, part)?;
            }
        }
        Cond::Not(part) => {
            text.push(' ')?;
            put_cond(text, part.get())?;
        }
        Cond::Compare(_, x, y) => {
            put_next(text, x)?;
            put_next(text, y)?;
        }
        Cond::IsNull(_, x) => put_next(text, x)?,
        Cond::In(_, x, list) => {
            put_next(text, x)?;
            put_all(text, list.items())?;
        }
        Cond::Between(_, x, low, high) => {
            put_next(text, x)?;
            put_next(text, low)?;
            put_next(text, high)?;
        }
    }
    text.push(')')
}

/// A parenthesis, and the name of a condition.
fn put_head(text: &mut String, cond: &Cond) -> Result<(), AllocError> {
    match cond {
        Cond::Or(_) => text.push_str("(or"),
        Cond::And(_) => text.push_str("(and"),
        Cond::Not(_) => text.push_str("(not"),
        Cond::Compare(cmp, _, _) => write!(text, "({cmp:?}"),
        Cond::IsNull(is_not, _) => put_test(text, *is_not, "is_null"),
        Cond::In(is_not, _, _) => put_test(text, *is_not, "in"),
        Cond::Between(is_not, _, _, _) => put_test(text, *is_not, "between"),
    }
}

/// A parenthesis, and the name of a test.
fn put_test(text: &mut String, is_not: bool, name: &str) -> Result<(), AllocError> {
    text.push_str(if is_not { "(not_" } else { "(" })?;
    text.push_str(name)
}

/// A space, and an expression.
fn put_next(text: &mut String, expr: &Expr) -> Result<(), AllocError> {
    text.push(' ')?;
    put_expr(text, expr)
}

/// Each behind a space.
fn put_all(text: &mut String, exprs: &[Expr]) -> Result<(), AllocError> {
    for expr in exprs {
        put_next(text, expr)?;
    }
    Ok(())
}
