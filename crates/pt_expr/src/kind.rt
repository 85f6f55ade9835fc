use pt_value::Ident;

/// What the values of an expression are, besides NULL.
#[derive(Clone, Copy, Debug)]
pub enum ExprKind {
    /// NULL alone, which has every kind.
    Any,
    /// Whole numbers.
    Wide,
    Day,
    Bytes,
}

/// Why an expression or a condition isn't well typed: the first fault from left to right.
#[derive(Clone, Copy, Debug)]
pub enum CheckFault {
    /// There is no column of this name.
    NoColumn(Ident),
    /// An operand is of another kind than is wanted at its place.
    Mismatch,
    /// A number's size may come to 2^126 or more.
    TooWide,
    /// A text that stands for a date isn't one.
    BadDate,
}
