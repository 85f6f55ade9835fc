use crate::words::{Written, value_of};
use pt_interval::Spans;
use std::alloc::{AllocError, Global};

/// The last of the sets that are made one after the other; none where one isn't written so.
pub fn set_of<T: Written>(alloc: Global, text: &str) -> Result<Option<Spans<T>>, AllocError> {
    let mut sets = Vec::new(alloc);
    for word in text.split(' ') {
        let Some(set) = made(alloc, sets.as_slice(), word)? else {
            return Ok(None);
        };
        sets.push(set)?;
    }
    Ok(sets.pop())
}

/// The set that a word makes, of those before it or of values.
fn made<T: Written>(
    alloc: Global,
    sets: &[Spans<T>],
    word: &str,
) -> Result<Option<Spans<T>>, AllocError> {
    match word {
        "&" => met(alloc, sets),
        "|" => joined(alloc, sets),
        "!" => left_out(alloc, sets),
        "U" => Ok(Some(Spans::join_all(alloc, sets)?)),
        "all" => Ok(Some(Spans::all(alloc)?)),
        "none" => Ok(Some(Spans::none(alloc))),
        _ => made_of_values(alloc, word),
    }
}

fn met<T: Written>(alloc: Global, sets: &[Spans<T>]) -> Result<Option<Spans<T>>, AllocError> {
    match sets {
        [.., a, b] => Ok(Some(a.meet(alloc, b)?)),
        _ => Ok(None),
    }
}

fn joined<T: Written>(alloc: Global, sets: &[Spans<T>]) -> Result<Option<Spans<T>>, AllocError> {
    match sets {
        [.., a, b] => Ok(Some(a.join(alloc, b)?)),
        _ => Ok(None),
    }
}

fn left_out<T: Written>(alloc: Global, sets: &[Spans<T>]) -> Result<Option<Spans<T>>, AllocError> {
    match sets {
        [.., a] => Ok(Some(a.outside(alloc)?)),
        _ => Ok(None),
    }
}

fn made_of_values<T: Written>(alloc: Global, word: &str) -> Result<Option<Spans<T>>, AllocError> {
    let Some((name, rest)) = word.split_once(':') else {
        return Ok(None);
    };
    if name == "between" {
        return between(alloc, rest);
    }
    let Some(value) = value_of(alloc, rest)? else {
        return Ok(None);
    };
    match name {
        "point" => Ok(Some(Spans::point(alloc, value)?)),
        "below" => Ok(Some(Spans::below(alloc, value)?)),
        "from" => Ok(Some(Spans::from(alloc, value)?)),
        _ => Ok(None),
    }
}

/// From a value on and below another; what is no value is no end.
fn between<T: Written>(alloc: Global, ends: &str) -> Result<Option<Spans<T>>, AllocError> {
    let Some((from, to)) = ends.split_once(':') else {
        return Ok(None);
    };
    let Some(from) = value_of(alloc, from)? else {
        return Ok(None);
    };
    let to = value_of(alloc, to)?;
    Ok(Some(Spans::between(alloc, from, to)?))
}
