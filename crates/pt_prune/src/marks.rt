//! Marks of parts: which of them are the places of some values.
ghost use Rattle.std.specs.Prelude.{◌≡◌, true, map, replicate, IfOk};
ghost use Rattle.std.specs.List.{list_any, range_with_len};
ghost use Rattle.pt_reach.specs.May.{is_at};

use std::alloc::{AllocError, Global};

/// So many parts, all marked.
pub(crate) fn all_marked(alloc: Global, count: usize) -> Result<Vec<bool>, AllocError>
    ensures { IfOk result (λ marks. marks.items ≡ replicate count true) }
{
    let marks = vec![in alloc; true; count]?;
    Ok(marks)
}

/// So many parts, marked where one of these is placed.
pub(crate) fn marked(
    alloc: Global,
    count: usize,
    places: &[Option<usize>],
) -> Result<Vec<bool>, AllocError>
    ensures { IfOk result (λ marks. marks.items ≡ map (λ part. list_any (is_at part) places.now) (range_with_len 0 count)) }
{
    let mut marks = Vec::new(alloc);
    for part in 0..count {
        marks.push(is_place(places, part))?;
    }
    Ok(marks)
}

/// Whether one of these is placed in a part.
fn is_place(places: &[Option<usize>], part: usize) -> bool
    ensures { result ≡ list_any (is_at part) places.now }
{
    for place in places {
        if is_at(part, *place) {
            return true;
        }
    }
    false
}

fn is_at(part: usize, place: Option<usize>) -> bool
    ensures { result ≡ is_at part place }
{
    match place {
        Some(place) => place == part,
        None => false,
    }
}
