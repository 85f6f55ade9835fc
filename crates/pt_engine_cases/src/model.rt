//! What the model answers to a script, and what it allows a stop to leave.
ghost use Rattle.pt_ast.specs.StorableStmt.{IsStorableStmt};
ghost use Rattle.pt_db.specs.Sound.{IsSound};
ghost use Rattle.pt_reading.specs.Reading.{IfSpelled};

use crate::text::push_bytes;
use pt_ast::{Db, Refusal, Reply, Stmt};
use pt_db::{empty_db, ok_reply, refusal_reply};
use pt_flat::{is_covered, step};
use pt_plain::List;
use pt_reading::{Reading, Script, read};
use pt_value::Bin;
use std::alloc::{AllocError, Global};

/// The most bytes of a piece.
const MOST_BYTES: usize = 1_048_576;

/// The database without tables.
#[tactic(auto, using(pt_db::proofs::Sounds::empty_sound))]
fn begun(alloc: Global) -> Db
    ensures { IsSound result }
{
    empty_db(alloc)
}

/// The statements of a script, as bytes.
fn statements_of(alloc: Global, script: &[u8]) -> Result<List<Bin>, AllocError> {
    let mut taken = Script::new(alloc);
    let _ = taken.feed(script)?;
    taken.end()?;
    Ok(taken.into_statements())
}

/// The model's answer to the statement of this number.
fn reply_to(alloc: Global, db: &mut Db, number: u64, piece: &[u8]) -> Result<Reply, AllocError>
    requires { IsSound db.old }
    ensures { IsSound db.new }
{
    if piece.len() > MOST_BYTES {
        return refusal_reply(alloc, Refusal::Syntax(number));
    }
    let reading = read(alloc, piece)?;
    let reply = read_reply(alloc, db, number, &reading);
    drop(reading);
    reply
}

/// The model's answer to a statement that was read.
fn read_reply(
    alloc: Global,
    db: &mut Db,
    number: u64,
    reading: &Reading,
) -> Result<Reply, AllocError>
    requires sound { IsSound db.old }
    requires storable { IfSpelled IsStorableStmt reading.now }
    ensures { IsSound db.new }
{
    match reading {
        Reading::Spelled(stmt) => stepped(alloc, db, stmt),
        Reading::Syntax => refusal_reply(alloc, Refusal::Syntax(number)),
        Reading::TooDeep => refusal_reply(alloc, Refusal::TooDeep(number)),
        Reading::LongName => refusal_reply(alloc, Refusal::LongName(number)),
    }
}

/// The model's step. All that is spelled has one.
fn stepped(alloc: Global, db: &mut Db, stmt: &Stmt) -> Result<Reply, AllocError>
    requires sound { IsSound db.old }
    requires storable { IsStorableStmt stmt.now }
    ensures { IsSound db.new }
{
    if is_covered(stmt) {
        step(alloc, db, stmt)
    } else {
        ok_reply(alloc)
    }
}

/// The model's answers to statements, which takes its steps.
fn replies_to(alloc: Global, db: &mut Db, statements: &[Bin]) -> Result<Vec<Reply>, AllocError>
    requires { IsSound db.old }
    ensures { IsSound db.new }
{
    let mut replies = Vec::new(alloc);
    for (i, piece) in statements.iter().enumerate() {
        replies.push(reply_to(alloc, db, i as u64 + 1, piece.items())?)?;
    }
    Ok(replies)
}

/// All that the model answers to a script, which takes its steps.
fn said_to(alloc: Global, db: &mut Db, script: &[u8]) -> Result<Vec<u8>, AllocError>
    requires { IsSound db.old }
    ensures { IsSound db.new }
{
    let statements = statements_of(alloc, script)?;
    let replies = replies_to(alloc, db, statements.items())?;
    joined(alloc, &replies)
}

fn joined(alloc: Global, replies: &[Reply]) -> Result<Vec<u8>, AllocError> {
    let mut said = Vec::new(alloc);
    for reply in replies {
        said.extend_from_slice(reply.bytes())?;
    }
    Ok(said)
}

/// The code and the answer of each statement.
pub fn model_text(alloc: Global, script: &[u8]) -> Result<String, AllocError> {
    let statements = statements_of(alloc, script)?;
    let replies = replies_to(alloc, &mut begun(alloc), statements.items())?;
    replies_text(alloc, &replies)
}

fn replies_text(alloc: Global, replies: &[Reply]) -> Result<String, AllocError> {
    let mut text = String::new(alloc);
    for reply in replies {
        if !text.is_empty() {
            text.push_str(", ")?;
        }
        push_reply(&mut text, reply)?;
    }
    Ok(text)
}

fn push_reply(text: &mut String, reply: &Reply) -> Result<(), AllocError> {
    let code = reply.code();
    write!(text, "{code} ")?;
    push_bytes(text, reply.bytes())
}

/// The answer to a piece that spells no statement.
pub fn syntax_text(alloc: Global, number: u64) -> Result<String, AllocError> {
    let mut text = String::new(alloc);
    push_reply(&mut text, &refusal_reply(alloc, Refusal::Syntax(number))?)?;
    Ok(text)
}

/// What a stop may leave at a statement or at its answer.
#[derive(Debug, Drop)]
pub struct Stage {
    /// The answers to the statements before it.
    before: Vec<u8>,
    /// The same, and its own.
    through: Vec<u8>,
    /// What the tables show after it.
    shown: Vec<u8>,
}

impl Stage {
    /// Whether so much may be said, and this be shown, where it is the last statement that is kept.
    pub fn allows(&self, said: &[u8], shown: &[u8]) -> bool {
        self.shown.as_slice() == shown
            && said.starts_with(&self.before)
            && self.through.starts_with(said)
    }
}

/// The stage at a statement, which is answered behind these answers.
fn next_stage(
    alloc: Global,
    db: &mut Db,
    reply: &[u8],
    before: &[u8],
    query: &[u8],
) -> Result<Stage, AllocError>
    requires { IsSound db.old }
    ensures { IsSound db.new }
{
    let mut through = Vec::from_slice(alloc, before)?;
    through.extend_from_slice(reply)?;
    Ok(Stage {
        before: Vec::from_slice(alloc, before)?,
        through,
        shown: said_to(alloc, db, query)?,
    })
}

/// The stages of a script behind a first one: before its first statement, and at each of them.
pub fn stages(
    alloc: Global,
    first: &[u8],
    script: &[u8],
    query: &[u8],
) -> Result<Vec<Stage>, AllocError> {
    let statements = statements_of(alloc, script)?;
    stages_of(alloc, first, statements.items(), query)
}

/// The same of the statements of the script.
fn stages_of(
    alloc: Global,
    first: &[u8],
    statements: &[Bin],
    query: &[u8],
) -> Result<Vec<Stage>, AllocError> {
    let mut db = begun(alloc);
    said_to(alloc, &mut db, first)?;
    let mut stages = Vec::new(alloc);
    stages.push(next_stage(alloc, &mut db, b"", b"", query)?)?;
    push_stages(alloc, &mut db, &mut stages, statements, query)?;
    Ok(stages)
}

/// Adds the stages at statements.
fn push_stages(
    alloc: Global,
    db: &mut Db,
    stages: &mut Vec<Stage>,
    statements: &[Bin],
    query: &[u8],
) -> Result<(), AllocError>
    requires { IsSound db.old }
    ensures { IsSound db.new }
{
    let mut said = Vec::new(alloc);
    for (i, piece) in statements.iter().enumerate() {
        let reply = reply_to(alloc, db, i as u64 + 1, piece.items())?;
        stages.push(next_stage(alloc, db, reply.bytes(), &said, query)?)?;
        said.extend_from_slice(reply.bytes())?;
    }
    Ok(())
}
