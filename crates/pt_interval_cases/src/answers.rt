ghost use Rattle.std.specs.Prelude.{◌+◌, ◌^◌, ◌<◌};

use crate::sets::set_of;
use crate::words::{Written, split, value_of};
use pt_interval::Spans;
use pt_value::Bin;
use std::alloc::{AllocError, Global};

/// Writes the answer of a line.
pub fn answer(alloc: Global, out: &mut String, line: &str) -> Result<(), AllocError> {
    if line.is_empty() || line.starts_with('#') {
        return out.push_str(line);
    }
    let (kind, rest) = split(line);
    match kind {
        "int" => put_case::<i128>(alloc, out, rest),
        "day" => put_case::<i32>(alloc, out, rest),
        "bytes" => put_case::<Bin>(alloc, out, rest),
        _ => out.push('?'),
    }
}

fn put_case<T: Written>(alloc: Global, out: &mut String, text: &str) -> Result<(), AllocError> {
    let (word, rest) = split(text);
    match word {
        "set" => put_set::<T>(alloc, out, rest),
        "gap" => put_gap::<T>(alloc, out, rest),
        "next" => put_next::<T>(alloc, out, rest),
        "order" => put_order::<T>(alloc, out, rest),
        _ => out.push('?'),
    }
}

fn put_set<T: Written>(alloc: Global, out: &mut String, text: &str) -> Result<(), AllocError> {
    let (limit, rest) = split(text);
    let (sets, questions) = match rest.split_once(" ? ") {
        Some(parts) => parts,
        None => (rest, ""),
    };
    match (limit.parse::<u32>(), set_of::<T>(alloc, sets)?) {
        (Ok(limit), Some(set)) if limit < u32::MAX => {
            put_size(out, &set, limit)?;
            put_values(alloc, out, &set, limit)?;
            put_members(alloc, out, &set, questions)
        }
        _ => out.push('?'),
    }
}

fn put_size<T: Written>(out: &mut String, set: &Spans<T>, limit: u32) -> Result<(), AllocError> {
    let state = if set.is_empty() { "empty" } else { "some" };
    let count = set.count_up_to(limit);
    write!(out, "{state} {count} ")
}

fn put_values<T: Written>(
    alloc: Global,
    out: &mut String,
    set: &Spans<T>,
    limit: u32,
) -> Result<(), AllocError>
    requires { limit + 1 < 2 ^ 32 }
{
    let Some(values) = set.values(alloc, limit)? else {
        return out.push_str("more");
    };
    put_list(alloc, out, values.as_slice())
}

fn put_list<T: Written>(alloc: Global, out: &mut String, values: &[T]) -> Result<(), AllocError> {
    if values.is_empty() {
        return out.push('-');
    }
    for (at, value) in values.iter().enumerate() {
        if at > 0 {
            out.push(',')?;
        }
        value.copy(alloc)?.put(out)?;
    }
    Ok(())
}

fn put_members<T: Written>(
    alloc: Global,
    out: &mut String,
    set: &Spans<T>,
    questions: &str,
) -> Result<(), AllocError> {
    for word in questions.split(' ') {
        if let Some(value) = value_of::<T>(alloc, word)? {
            out.push_str(if set.has(&value) { " yes" } else { " no" })?;
        }
    }
    Ok(())
}

fn put_gap<T: Written>(alloc: Global, out: &mut String, text: &str) -> Result<(), AllocError> {
    let (limit, rest) = split(text);
    let (from, to) = split(rest);
    let Ok(limit) = limit.parse::<u32>() else {
        return out.push('?');
    };
    let from = value_of::<T>(alloc, from)?;
    let to = value_of::<T>(alloc, to)?;
    let gap = T::gap(from.as_ref(), to.as_ref(), limit);
    write!(out, "{gap}")
}

fn put_next<T: Written>(alloc: Global, out: &mut String, text: &str) -> Result<(), AllocError> {
    let Some(value) = value_of::<T>(alloc, text)? else {
        return out.push('?');
    };
    T::least(alloc)?.put(out)?;
    out.push(' ')?;
    if value.is_greatest() {
        return out.push_str("greatest");
    }
    value.next(alloc)?.put(out)
}

fn put_order<T: Written>(alloc: Global, out: &mut String, text: &str) -> Result<(), AllocError> {
    let (first, second) = split(text);
    let Some(first) = value_of::<T>(alloc, first)? else {
        return out.push('?');
    };
    let Some(second) = value_of::<T>(alloc, second)? else {
        return out.push('?');
    };
    let order = first.cmp(&second);
    write!(out, "{order:?}")
}
