ghost use Rattle.std.specs.Prelude.{IfOk};
ghost use Rattle.pt_interval.specs.Line.{IsEnd};

use percent_encoding::{CONTROLS, percent_decode, percent_encode};
use pt_interval::Line;
use pt_value::Bin;
use std::alloc::{AllocError, Global};

/// A value as it is written in a case.
pub trait Written: Line {
    /// What is written, if it is written so.
    fn read(alloc: Global, text: &str) -> Result<Option<Self>, AllocError>;

    /// Writes it.
    fn put(&self, out: &mut String) -> Result<(), AllocError>;
}

impl Written for i128 {
    fn read(_alloc: Global, text: &str) -> Result<Option<i128>, AllocError> {
        Ok(text.parse::<i128>().ok())
    }

    fn put(&self, out: &mut String) -> Result<(), AllocError> {
        write!(out, "{self}")
    }
}

impl Written for i32 {
    fn read(_alloc: Global, text: &str) -> Result<Option<i32>, AllocError> {
        Ok(text.parse::<i32>().ok())
    }

    fn put(&self, out: &mut String) -> Result<(), AllocError> {
        write!(out, "{self}")
    }
}

impl Written for Bin {
    fn read(alloc: Global, text: &str) -> Result<Option<Bin>, AllocError> {
        let Some(text) = text.strip_prefix("x") else {
            return Ok(None);
        };
        let mut bytes = Vec::new(alloc);
        percent_decode(text.as_bytes()).append_to(&mut bytes)?;
        Ok(Some(Bin::of(bytes)))
    }

    fn put(&self, out: &mut String) -> Result<(), AllocError> {
        out.push('x')?;
        let set = CONTROLS.add(b'%').add(b' ').add(b',').add(b':');
        percent_encode(self.items(), set).append_to(out)
    }
}

/// The value that is written, if it is one of the line.
pub fn value_of<T: Written>(alloc: Global, text: &str) -> Result<Option<T>, AllocError>
    ensures { IfOk result (λ found. IsEnd T.is_value found) }
{
    let Some(value) = T::read(alloc, text)? else {
        return Ok(None);
    };
    if value.is_value() {
        return Ok(Some(value));
    }
    Ok(None)
}

/// What stands before the first space, and what behind it.
pub fn split(text: &str) -> (&str, &str) {
    match text.split_once(' ') {
        Some(parts) => parts,
        None => (text, ""),
    }
}
