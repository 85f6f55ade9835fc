use std::alloc::AllocError;

/// The bytes between quotes, where a quote, a backslash and what is no printable ASCII is a backslash with two hexadecimal digits.
pub(crate) fn put_text(text: &mut String, bytes: &[u8]) -> Result<(), AllocError> {
    text.push('\'')?;
    for b in bytes {
        put_byte(text, *b)?;
    }
    text.push('\'')
}

/// A byte of a text.
fn put_byte(text: &mut String, b: u8) -> Result<(), AllocError> {
    if !is_plain(b) {
        return write!(text, "\\{b:02X}");
    }
    text.push(char::from(b))
}

/// Whether a byte of a text stands for itself.
fn is_plain(b: u8) -> bool {
    (b' '..=b'~').contains(&b) && b != b'\'' && b != b'\\'
}

/// The bytes as a hexadecimal string.
pub(crate) fn put_hex(text: &mut String, bytes: &[u8]) -> Result<(), AllocError> {
    text.push_str("X'")?;
    put_digits(text, bytes)?;
    text.push('\'')
}

/// The day, counted from 1970-01-01.
pub(crate) fn put_date(text: &mut String, day: Option<i32>) -> Result<(), AllocError> {
    match day {
        None => text.push_str("(date none)"),
        Some(day) => write!(text, "(date {day})"),
    }
}

/// The name between backquotes.
pub(crate) fn put_column(text: &mut String, name: &[u8]) -> Result<(), AllocError> {
    text.push('`')?;
    for b in name {
        text.push(char::from(*b))?;
    }
    text.push('`')
}

/// Two hexadecimal digits for each byte.
pub(crate) fn put_digits(text: &mut String, bytes: &[u8]) -> Result<(), AllocError> {
    for b in bytes {
        write!(text, "{b:02X}")?;
    }
    Ok(())
}
