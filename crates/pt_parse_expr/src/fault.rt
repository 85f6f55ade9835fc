use thiserror::Error;

/// Why tokens can't be read.
#[derive(Clone, Copy, Debug, Error)]
pub enum ParseFault {
    /// More than 64 parentheses are open at once.
    #[error("more than 64 parentheses are open")]
    TooDeep,
    /// A word or a quoted name has more than 64 characters.
    #[error("a name has more than 64 characters")]
    LongName,
    /// The tokens spell nothing that may stand there.
    #[error("the tokens spell nothing that may stand here")]
    Syntax,
    /// Memory ran out.
    #[error("no memory")]
    NoMemory,
}
