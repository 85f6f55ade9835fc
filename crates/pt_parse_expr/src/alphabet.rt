use pt_ast::Cmp;
use pt_value::{Bin, Ident};

/// A token together with its bytes, as the grammar sees it.
#[derive(Drop)]
pub enum Symbol {
    /// A sign or a reserved word.
    Fixed(Mark),
    /// A word that isn't reserved.
    Word(Ident),
    /// A name that stood between backquotes.
    Quoted(Ident),
    /// A number. One above 2^127 - 1 counts as 2^127 - 1.
    Number(i128),
    Text(Bin),
    Hex(Bin),
}

/// A sign or a reserved word.
#[derive(Clone, Copy, Debug)]
pub enum Mark {
    /// `(`
    Open,
    /// `)`
    Close,
    Comma,
    Plus,
    Minus,
    Star,
    Percent,
    Compare(Cmp),
    And,
    Between,
    Div,
    In,
    Is,
    Mod,
    Not,
    Null,
    Or,
    /// A reserved word that stands in no expression and no condition.
    Other(Reserved),
}

/// A reserved word that stands in no expression and no condition.
#[derive(Clone, Copy, Debug)]
pub enum Reserved {
    Add,
    All,
    Alter,
    Asc,
    BigInt,
    By,
    Character,
    Create,
    Default,
    Delete,
    Desc,
    Drop,
    Exists,
    Explain,
    From,
    Group,
    If,
    Ignore,
    Index,
    Insert,
    Int,
    Integer,
    Into,
    Key,
    Like,
    Limit,
    Linear,
    MaxValue,
    Order,
    Partition,
    Primary,
    Range,
    Replace,
    Select,
    Set,
    Show,
    Table,
    Unique,
    Update,
    Values,
    VarBinary,
    VarChar,
    Where,
    With,
}
