use pt_ast::Expr;
use std::alloc::AllocError;

/// Writes an expression behind a text: a number as its digits, NULL as `NULL`, a column as its name between backquotes, a text as
/// `'abc'` and a hexadecimal string as `X'00FF'`; a date as `(date N)`, with its day counted from 1970-01-01, or as `(date none)`; a
/// negation as `(neg x)`, and a call as `(Abs x)`, with the name of the function in `Func`; a sum as `(sum +x -y)`, and a product as
/// `(product x Times y)`.
pub(crate) fn put_expr(text: &mut String, expr: &Expr) -> Result<(), AllocError> {
    match expr {
        Expr::Number(n) => write!(text, "{n}"),
        Expr::Text(bytes) => put_text(text, bytes.items()),
        Expr::Hex(bytes) => put_hex(text, bytes.items()),
        Expr::Date(day) => put_date(text, *day),
        Expr::Null => text.push_str("NULL"),
        Expr::Column(name) => put_name(text, name.bytes()),
        Expr::Neg(part) => {
            text.push_str("(neg ")?;
            put_expr(text, part.get())?;
            text.push(')')
        }
        Expr::Sum(parts) => {
            text.push_str("(sum")?;
            for (minus, part) in parts.items() {
                text.push_str(if *minus { " -" } else { " +" })?;
                put_expr(text, part)?;
            }
            text.push(')')
        }
        Expr::Product(first, parts) => {
            text.push_str("(product ")?;
            put_expr(text, first.get())?;
            for (op, part) in parts.items() {
                write!(text, " {op:?} ")?;
                put_expr(text, part)?;
            }
            text.push(')')
        }
        Expr::Call(func, part) => {
            write!(text, "({func:?} ")?;
            put_expr(text, part.get())?;
            text.push(')')
        }
    }
}

/// The bytes between quotes.
pub(crate) fn put_text(text: &mut String, bytes: &[u8]) -> Result<(), AllocError> {
    text.push('\'')?;
    for b in bytes {
        text.push(char::from(*b))?;
    }
    text.push('\'')
}

/// Two hexadecimal digits for each byte.
pub(crate) fn put_hex(text: &mut String, bytes: &[u8]) -> Result<(), AllocError> {
    text.push_str("X'")?;
    for b in bytes {
        write!(text, "{b:02X}")?;
    }
    text.push('\'')
}

/// The day, counted from 1970-01-01.
pub(crate) fn put_date(text: &mut String, day: Option<i32>) -> Result<(), AllocError> {
    match day {
        None => text.push_str("(date none)"),
        Some(day) => write!(text, "(date {day})"),
    }
}

/// The name between backquotes.
pub(crate) fn put_name(text: &mut String, name: &[u8]) -> Result<(), AllocError> {
    text.push('`')?;
    for b in name {
        text.push(char::from(*b))?;
    }
    text.push('`')
}
