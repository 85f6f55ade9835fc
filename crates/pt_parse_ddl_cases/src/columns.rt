use crate::exprs::{put_date, put_hex, put_name, put_text};
use pt_ast::{ColOption, Item, KindSpec, Literal};
use pt_value::Ident;
use std::alloc::AllocError;

/// Writes a column as ``(`a` Int not_null (default -1))``, with its type and its options, and a key as ``(Unique `k` [`a` `b`])``, with
/// `-` where it has no name.
pub(crate) fn put_item(text: &mut String, item: &Item) -> Result<(), AllocError> {
    text.push('(')?;
    match item {
        Item::Column(name, kind, options) => {
            put_name(text, name.bytes())?;
            text.push(' ')?;
            put_kind(text, *kind)?;
            put_options(text, options.items())?;
        }
        Item::Key(rank, name, columns) => {
            write!(text, "{rank:?} ")?;
            put_optional(text, name)?;
            text.push(' ')?;
            put_names(text, columns.items())?;
        }
    }
    text.push(')')
}

fn put_kind(text: &mut String, kind: KindSpec) -> Result<(), AllocError> {
    match kind {
        KindSpec::Int => text.push_str("Int"),
        KindSpec::BigInt => text.push_str("BigInt"),
        KindSpec::Date => text.push_str("Date"),
        KindSpec::Binary(most) => write!(text, "Binary({most})"),
    }
}

fn put_options(text: &mut String, options: &[ColOption]) -> Result<(), AllocError> {
    for option in options {
        text.push(' ')?;
        put_option(text, option)?;
    }
    Ok(())
}

fn put_option(text: &mut String, option: &ColOption) -> Result<(), AllocError> {
    match option {
        ColOption::NotNull => text.push_str("not_null"),
        ColOption::Null => text.push_str("null"),
        ColOption::Primary => text.push_str("primary"),
        ColOption::Unique => text.push_str("unique"),
        ColOption::Default(literal) => {
            text.push_str("(default ")?;
            put_literal(text, literal)?;
            text.push(')')
        }
    }
}

/// A constant: the number behind `-` where it is negated.
fn put_literal(text: &mut String, literal: &Literal) -> Result<(), AllocError> {
    match literal {
        Literal::Number(minus, n) => {
            text.push_str(if *minus { "-" } else { "" })?;
            write!(text, "{n}")
        }
        Literal::Text(bytes) => put_text(text, bytes.items()),
        Literal::Hex(bytes) => put_hex(text, bytes.items()),
        Literal::Date(day) => put_date(text, *day),
        Literal::Null => text.push_str("NULL"),
    }
}

/// The name, or `-` where there is none.
fn put_optional(text: &mut String, name: &Option<Ident>) -> Result<(), AllocError> {
    match name {
        None => text.push('-'),
        Some(name) => put_name(text, name.bytes()),
    }
}

/// Names in brackets.
pub(crate) fn put_names(text: &mut String, names: &[Ident]) -> Result<(), AllocError> {
    text.push('[')?;
    for (i, name) in names.iter().enumerate() {
        text.push_str(if i > 0 { " " } else { "" })?;
        put_name(text, name.bytes())?;
    }
    text.push(']')
}
