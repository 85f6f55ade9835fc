use crate::leaves::{put_column, put_date, put_hex, put_text};
use pt_ast::{Cond, Expr};
use std::alloc::AllocError;

/// Writes an expression behind a text, so that no two have the same:
///
/// - a number as its digits, NULL as `NULL`, and a column as its name between backquotes;
/// - a text as `'abc'`, where a quote, a backslash and what is no printable ASCII is a backslash with two hexadecimal digits;
/// - a hexadecimal string as `X'00FF'`;
/// - a date as `(date N)`, with its day counted from 1970-01-01, or as `(date none)`;
/// - a negation as `(neg x)`, and a call as `(Abs x)`, with the name of the function in `Func`;
/// - a sum as `(sum +x -y)`, each part behind its sign, and a product as `(product x Times y Div z Mod w)`, each later part behind its
///   operator.
///
/// So `2 - 3 - 4 * -5` is `(sum +2 -3 -(product 4 Times (neg 5)))`.
pub(crate) fn put_expr(text: &mut String, expr: &Expr) -> Result<(), AllocError> {
    match expr {
        Expr::Number(n) => put_number(text, *n),
        Expr::Text(bytes) => put_text(text, bytes.items()),
        Expr::Hex(bytes) => put_hex(text, bytes.items()),
        Expr::Date(day) => put_date(text, *day),
        Expr::Null => text.push_str("NULL"),
        Expr::Column(name) => put_column(text, name.bytes()),
        Expr::Neg(part) => {
            text.push_str("(neg ")?;
            put_expr(text, part.get())?;
            text.push(')')
        }
        Expr::Sum(parts) => {
            text.push_str("(sum")?;
            for (minus, part) in parts.items() {
                put_sign(text, *minus)?;
                put_expr(text, part)?;
            }
            text.push(')')
        }
        Expr::Product(first, parts) => {
            text.push_str("(product ")?;
            put_expr(text, first.get())?;
            for (op, part) in parts.items() {
                write!(text, " {op:?} ")?;
                put_expr(text, part)?;
            }
            text.push(')')
        }
        Expr::Call(func, part) => {
            write!(text, "({func:?} ")?;
            put_expr(text, part.get())?;
            text.push(')')
        }
    }
}

/// Writes a condition behind a text, so that no two have the same: `(or c d ..)`, `(and c d ..)`, `(not c)`, `(Le x y)` with the name of the
/// comparison in `Cmp`, `(is_null x)`, `(in x y z ..)` and `(between x low high)`, where the forms with NOT are `not_is_null`, `not_in`
/// and `not_between`.
///
/// So `a = 1 OR b = 1 AND c NOT IN (1)` is ``(or (Eq `a` 1) (and (Eq `b` 1) (not_in `c` 1)))``.
pub(crate) fn put_cond(text: &mut String, cond: &Cond) -> Result<(), AllocError> {
    put_head(text, cond)?;
    match cond {
        Cond::Or(parts) | Cond::And(parts) => {
            for part in parts.items() {
                text.push(' ')?;
                put_cond(text, part)?;
            }
        }
        Cond::Not(part) => {
            text.push(' ')?;
            put_cond(text, part.get())?;
        }
        Cond::Compare(_, x, y) => {
            put_next(text, x)?;
            put_next(text, y)?;
        }
        Cond::IsNull(_, x) => put_next(text, x)?,
        Cond::In(_, x, list) => {
            put_next(text, x)?;
            put_all(text, list.items())?;
        }
        Cond::Between(_, x, low, high) => {
            put_next(text, x)?;
            put_next(text, low)?;
            put_next(text, high)?;
        }
    }
    text.push(')')
}

/// A parenthesis, and the name of a condition.
fn put_head(text: &mut String, cond: &Cond) -> Result<(), AllocError> {
    match cond {
        Cond::Or(_) => text.push_str("(or"),
        Cond::And(_) => text.push_str("(and"),
        Cond::Not(_) => text.push_str("(not"),
        Cond::Compare(cmp, _, _) => write!(text, "({cmp:?}"),
        Cond::IsNull(is_not, _) => put_test(text, *is_not, "is_null"),
        Cond::In(is_not, _, _) => put_test(text, *is_not, "in"),
        Cond::Between(is_not, _, _, _) => put_test(text, *is_not, "between"),
    }
}

fn put_number(text: &mut String, n: i128) -> Result<(), AllocError> {
    write!(text, "{n}")
}

/// A space, and the sign of a part of a sum.
fn put_sign(text: &mut String, minus: bool) -> Result<(), AllocError> {
    text.push(' ')?;
    text.push(if minus { '-' } else { '+' })
}

/// A parenthesis, and the name of a test.
fn put_test(text: &mut String, is_not: bool, name: &str) -> Result<(), AllocError> {
    text.push('(')?;
    text.push_str(if is_not { "not_" } else { "" })?;
    text.push_str(name)
}

/// A space, and an expression.
fn put_next(text: &mut String, expr: &Expr) -> Result<(), AllocError> {
    text.push(' ')?;
    put_expr(text, expr)
}

/// Each behind a space.
fn put_all(text: &mut String, exprs: &[Expr]) -> Result<(), AllocError> {
    for expr in exprs {
        put_next(text, expr)?;
    }
    Ok(())
}
