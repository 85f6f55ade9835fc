use crate::answers::split;
use crate::cells::{cells_of, number_of};
use pt_ast::Cells;
use pt_hash::{hash_part, key_part, key_step, linear_part, split_source};
use std::alloc::{AllocError, Global};

/// Writes the partition of a number under HASH and LINEAR HASH.
pub fn put_parts(out: &mut String, text: &str) -> Result<(), AllocError> {
    let (count, value) = split(text);
    match (count.parse::<u32>(), number_of(value)) {
        (Ok(n), Some(value)) if n > 0 => {
            let (part, linear) = (hash_part(value, n), linear_part(value, n));
            write!(out, "{part} {linear}")
        }
        _ => out.push('?'),
    }
}

/// Writes the key number of columns, and its partition under KEY and LINEAR KEY.
pub fn put_key(alloc: Global, out: &mut String, text: &str) -> Result<(), AllocError> {
    let (count, cells) = split(text);
    let number = key_number(&cells_of(alloc, cells)?);
    match count.parse::<u32>() {
        Ok(n) if n > 0 => {
            let (part, linear) = (key_part(number, n, false), key_part(number, n, true));
            write!(out, "{number} {part} {linear}")
        }
        _ => out.push('?'),
    }
}

fn key_number(cells: &Cells) -> u64 {
    let mut number = 0;
    for cell in cells.items() {
        number = key_step(1, number, cell);
    }
    number
}

/// Writes the partition that a new one is split from.
pub fn put_split(out: &mut String, text: &str) -> Result<(), AllocError> {
    match text.parse::<u32>() {
        Ok(n) if n > 0 => {
            let source = split_source(n);
            write!(out, "{source}")
        }
        _ => out.push('?'),
    }
}
