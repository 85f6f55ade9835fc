ghost use Rattle.std.specs.Prelude.{◌≡◌, ◌≤◌, ◌^◌, true, length, IfOk};
ghost use Rattle.pt_ast.specs.StorableStmt.{IsStorableStmt};
ghost use Rattle.pt_token.specs.Tokens.{IsLexed};
ghost use Rattle.pt_parse_ddl.specs.Spelling.{IsUnread};
ghost use Rattle.pt_parse_dml.specs.Spelling.{IsUnread as IsNotOnRows};
ghost use Rattle.pt_reading.specs.Reading.{AreRead, IfSpelled, Reads, is_known, is_lexical, reading_of, refusal_of};

use pt_ast::{Refusal, Stmt};
use pt_parse_expr::ParseFault;
use pt_token::{LexFault, Token, tokens};
use std::alloc::{AllocError, Global};

/// What a piece of a script is read as.
#[derive(Drop)]
pub enum Reading {
    /// The piece spells this statement.
    Spelled(Stmt),
    /// The piece has a lexical fault, or spells no statement.
    Syntax,
    /// More than 64 parentheses are open at once.
    TooDeep,
    /// A name has more than 64 characters.
    LongName,
}

/// What a piece is read as. The time is linear in the piece.
///
/// # Errors
///
/// Memory ran out.
pub fn read(alloc: Global, piece: &[u8]) -> Result<Reading, AllocError>
    requires small { length piece.now ≤ 2 ^ 20 }
    ensures reads { IfOk result (Reads piece.now) }
    ensures storable { IfOk result (IfSpelled IsStorableStmt) }
    ensures covered { IfOk result (IfSpelled (λ statement. is_known statement ≡ true)) }
{
    match tokens(alloc, piece) {
        Ok(tokens) => read_tokens(alloc, piece, &tokens),
        Err(fault) => {
            if is_lexical(fault) {
                return Ok(Reading::Syntax);
            }
            Err(AllocError)
        }
    }
}

/// Whether the fault lies in the piece, and isn't want of memory.
fn is_lexical(fault: LexFault) -> bool
    ensures { result ≡ is_lexical fault }
{
    match fault {
        LexFault::BadByte { place: _ }
        | LexFault::OpenQuote { place: _ }
        | LexFault::OpenComment { place: _ } => true,
        LexFault::NoMemory => false,
    }
}

/// What the tokens of a piece are read as.
fn read_tokens(alloc: Global, piece: &[u8], tokens: &Vec<Token>) -> Result<Reading, AllocError>
    requires small { length piece.now ≤ 2 ^ 20 }
    requires lexed { IsLexed piece.now tokens.now.items }
    ensures reads { IfOk result (AreRead piece.now tokens.now.items) }
    ensures storable { IfOk result (IfSpelled IsStorableStmt) }
    ensures covered { IfOk result (IfSpelled (λ statement. is_known statement ≡ true)) }
{
    match pt_parse_ddl::parse(alloc, piece, tokens) {
        Ok(definition) => Ok(Reading::Spelled(definition)),
        Err(ParseFault::TooDeep) => Ok(Reading::TooDeep),
        Err(ParseFault::LongName) => Ok(Reading::LongName),
        Err(ParseFault::Syntax) => read_on_rows(alloc, piece, tokens),
        Err(ParseFault::NoMemory) => Err(AllocError),
    }
}

/// The same of tokens that spell no definition.
fn read_on_rows(alloc: Global, piece: &[u8], tokens: &Vec<Token>) -> Result<Reading, AllocError>
    requires small { length piece.now ≤ 2 ^ 20 }
    requires lexed { IsLexed piece.now tokens.now.items }
    requires no_definition { IsUnread piece.now tokens.now.items }
    ensures reads { IfOk result (AreRead piece.now tokens.now.items) }
    ensures storable { IfOk result (IfSpelled IsStorableStmt) }
    ensures covered { IfOk result (IfSpelled (λ statement. is_known statement ≡ true)) }
{
    match pt_parse_dml::parse(alloc, piece, tokens) {
        Ok(statement) => Ok(known(statement)),
        Err(ParseFault::TooDeep) => Ok(Reading::TooDeep),
        Err(ParseFault::LongName) => Ok(Reading::LongName),
        Err(ParseFault::Syntax) => read_change(alloc, piece, tokens),
        Err(ParseFault::NoMemory) => Err(AllocError),
    }
}

/// The same of tokens that spell no statement on rows either.
fn read_change(alloc: Global, piece: &[u8], tokens: &Vec<Token>) -> Result<Reading, AllocError>
    requires small { length piece.now ≤ 2 ^ 20 }
    requires lexed { IsLexed piece.now tokens.now.items }
    requires no_definition { IsUnread piece.now tokens.now.items }
    requires not_on_rows { IsNotOnRows piece.now tokens.now.items }
    ensures reads { IfOk result (AreRead piece.now tokens.now.items) }
    ensures storable { IfOk result (IfSpelled IsStorableStmt) }
    ensures covered { IfOk result (IfSpelled (λ statement. is_known statement ≡ true)) }
{
    match pt_parse_alter::parse(alloc, piece, tokens) {
        Ok(change) => Ok(known(change)),
        Err(ParseFault::TooDeep) => Ok(Reading::TooDeep),
        Err(ParseFault::LongName) => Ok(Reading::LongName),
        Err(ParseFault::Syntax) => Ok(Reading::Syntax),
        Err(ParseFault::NoMemory) => Err(AllocError),
    }
}

/// The reading of a statement that is spelled: where it isn't known, it is no statement.
fn known(statement: Stmt) -> Reading
    ensures { result ≡ reading_of statement }
{
    if is_known(&statement) {
        return Reading::Spelled(statement);
    }
    drop(statement);
    Reading::Syntax
}

/// Whether a statement is known.
fn is_known(statement: &Stmt) -> bool
    ensures { result ≡ is_known statement.now }
{
    match statement {
        Stmt::Create(_, _, _)
        | Stmt::Like(_, _, _)
        | Stmt::Drop(_, _)
        | Stmt::Show(_)
        | Stmt::Insert(_, _)
        | Stmt::Replace(_)
        | Stmt::Update(_, _, _, _)
        | Stmt::Delete(_, _, _)
        | Stmt::Select(_) => true,
        Stmt::AddParts(_, _)
        | Stmt::AddCount(_, _)
        | Stmt::DropParts(_, _)
        | Stmt::Truncate(_, _)
        | Stmt::Coalesce(_, _)
        | Stmt::Reorganize(_, _, _)
        | Stmt::Exchange(_, _, _)
        | Stmt::RemoveParts(_)
        | Stmt::PartitionBy(_, _)
        | Stmt::Explain(_) => false,
    }
}

/// Why a piece with this number is refused. `None` where it spells a statement. It takes no memory.
pub fn refusal(reading: &Reading, number: u64) -> Option<Refusal>
    ensures { result ≡ refusal_of reading.now number }
{
    match reading {
        Reading::Spelled(_) => None,
        Reading::Syntax => Some(Refusal::Syntax(number)),
        Reading::TooDeep => Some(Refusal::TooDeep(number)),
        Reading::LongName => Some(Refusal::LongName(number)),
    }
}
