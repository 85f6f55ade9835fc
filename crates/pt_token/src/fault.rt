use thiserror::Error;

/// What is lexically wrong with a piece. A place counts the bytes of the piece before it.
#[derive(Clone, Copy, Debug, Error)]
pub enum LexFault {
    /// The byte begins no token, no white space and no comment.
    #[error("a byte at {place} begins no token")]
    BadByte { place: usize },
    /// The quote is open at the end.
    #[error("the quote at {place} is open")]
    OpenQuote { place: usize },
    /// The comment is open at the end.
    #[error("the comment at {place} is open")]
    OpenComment { place: usize },
    /// Memory ran out.
    #[error("no memory")]
    NoMemory,
}
