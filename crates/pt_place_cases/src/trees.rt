//! How an expression is written: the parts of an operator stand before it, with spaces between.
//!
//! | Written | Is |
//! |---|---|
//! | `7`, `'TEXT`, `#TEXT`, `NULL`, `` `name`` | a number, a text, bytes in hexadecimal digits, NULL, a column |
//! | `@10957`, `@none` | a date of a day, or of a text that spells none |
//! | `x neg` | a negation |
//! | `x ToDays` | a call, by the name of its function |
//! | `sum x + y -` | a sum of the parts x and y, of which the second is taken away |
//! | `x product y Times z Div` | a product of x, y and z, by the names of its operators |
//!
//! `TO_DAYS(-7 - 3) DIV 4` is `sum 7 neg + 3 - ToDays product 4 Div`.

use crate::text::bytes_of;
use pt_ast::{Expr, Factors, Func, Op, Terms};
use pt_plain::Held;
use pt_value::{Bin, Ident};
use std::alloc::{AllocError, Global};

const FUNCS: [(&str, Func); 9] = [
    ("Abs", Func::Abs),
    ("Year", Func::Year),
    ("Month", Func::Month),
    ("DayOfMonth", Func::DayOfMonth),
    ("DayOfYear", Func::DayOfYear),
    ("DayOfWeek", Func::DayOfWeek),
    ("Weekday", Func::Weekday),
    ("Quarter", Func::Quarter),
    ("ToDays", Func::ToDays),
];

const OPS: [(&str, Op); 3] = [("Times", Op::Times), ("Div", Op::Div), ("Mod", Op::Mod)];

/// The expression that a text writes; NULL where it writes none.
pub fn expr_of(alloc: Global, text: &str) -> Result<Expr, AllocError> {
    let mut stack = Vec::new(alloc);
    for word in text.split(' ') {
        put_node(alloc, &mut stack, word)?;
    }
    Ok(popped(&mut stack))
}

fn popped(stack: &mut Vec<Expr>) -> Expr {
    stack.pop().unwrap_or(Expr::Null)
}

fn push(stack: &mut Vec<Expr>, expr: Expr) -> Result<(), AllocError> {
    stack.push(expr)?;
    Ok(())
}

/// Puts what a word writes on the stack.
fn put_node(alloc: Global, stack: &mut Vec<Expr>, word: &str) -> Result<(), AllocError> {
    match word {
        "neg" => negate(alloc, stack),
        "sum" => push(stack, Expr::Sum(Terms::new(alloc))),
        "+" => add(stack, false),
        "-" => add(stack, true),
        "product" => begin_product(alloc, stack),
        _ => put_named(alloc, stack, word),
    }
}

/// The same, where the word names a function or an operator, or is a leaf.
fn put_named(alloc: Global, stack: &mut Vec<Expr>, word: &str) -> Result<(), AllocError> {
    if let Some(func) = func_of(word) {
        return call(alloc, stack, func);
    }
    if let Some(op) = op_of(word) {
        return multiply(stack, op);
    }
    push(stack, leaf_of(alloc, word)?)
}

fn negate(alloc: Global, stack: &mut Vec<Expr>) -> Result<(), AllocError> {
    let part = Held::new(alloc, popped(stack))?;
    push(stack, Expr::Neg(part))
}

fn call(alloc: Global, stack: &mut Vec<Expr>, func: Func) -> Result<(), AllocError> {
    let part = Held::new(alloc, popped(stack))?;
    push(stack, Expr::Call(func, part))
}

fn begin_product(alloc: Global, stack: &mut Vec<Expr>) -> Result<(), AllocError> {
    let first = Held::new(alloc, popped(stack))?;
    push(stack, Expr::Product(first, Factors::new(alloc)))
}

/// Adds the last expression to the sum before it.
fn add(stack: &mut Vec<Expr>, minus: bool) -> Result<(), AllocError> {
    let part = popped(stack);
    match stack.last_mut() {
        Some(Expr::Sum(parts)) => parts.push((minus, part)),
        _ => Ok(()),
    }
}

/// Adds the last expression to the product before it.
fn multiply(stack: &mut Vec<Expr>, op: Op) -> Result<(), AllocError> {
    let part = popped(stack);
    match stack.last_mut() {
        Some(Expr::Product(_, parts)) => parts.push((op, part)),
        _ => Ok(()),
    }
}

fn func_of(word: &str) -> Option<Func> {
    for (name, func) in FUNCS {
        if name == word {
            return Some(func);
        }
    }
    None
}

fn op_of(word: &str) -> Option<Op> {
    for (name, op) in OPS {
        if name == word {
            return Some(op);
        }
    }
    None
}

fn leaf_of(alloc: Global, word: &str) -> Result<Expr, AllocError> {
    if let Some(text) = word.strip_prefix("'") {
        return Ok(Expr::Text(Bin::of(bytes_of(alloc, text)?)));
    }
    if let Some(text) = word.strip_prefix("#") {
        return Ok(Expr::Hex(Bin::of(bytes_of(alloc, text)?)));
    }
    Ok(plain_leaf(word))
}

fn plain_leaf(word: &str) -> Expr {
    if let Some(day) = word.strip_prefix("@") {
        return Expr::Date(day.parse::<i32>().ok());
    }
    if let Some(name) = word.strip_prefix("`") {
        if let Ok(name) = Ident::of(name.as_bytes()) {
            return Expr::Column(name);
        }
    }
    match word.parse::<i128>() {
        Ok(number) => Expr::Number(number),
        Err(_) => Expr::Null,
    }
}
