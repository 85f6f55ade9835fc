//! Answering statements one by one: each is read and executed, and then answered.
ghost use Rattle.std.specs.Prelude.{◌≡◌, ◌≤◌, ◌^◌, ℕ, List, All, IfErr, OnOk, length, true};
ghost use Rattle.pt_ast.specs.declared.database.Db.{Db};
ghost use Rattle.pt_ast.specs.StorableStmt.{IsStorableStmt};
ghost use Rattle.pt_reading.specs.Reading.{IfSpelled, Reads, is_known};
ghost use Rattle.pt_session.specs.Session.{IsOpen, IsSession};
ghost use Rattle.pt_engine.specs.Causes.{HasCauses};
ghost use Rattle.pt_engine.specs.Session.{GoesOn, StandsOver};
ghost use Rattle.pt_engine.specs.Saying.{AnswersOne, AnswersFirst, ExecutesOne, StopsOne, StopsFirst};

use crate::Ending;
use crate::executing::execute;
use pt_ast::{Refusal, Reply};
use pt_db::refusal_reply;
use pt_host::Host;
use pt_reading::{Reading, read};
use pt_session::Session;
use pt_value::Bin;
use std::alloc::Global;

/// Answers statements in their order, up to the first that can't be executed or said.
pub(crate) fn answer_all<H: Host>(
    alloc: Global,
    host: &mut H,
    session: &mut Session,
    statements: &[Bin],
) -> Result<(), Ending>
    requires open { IsOpen session.old }
    requires short { All (λ piece. length piece ≤ 2 ^ 20) statements.now }
    requires stands { H.tells → StandsOver session.old (H.world host.old) }
    ensures ok { OnOk result (H.tells → (db : Db) → IsSession session.old db (H.world host.old) → AnswersFirst db statements.now (length statements.now) session.new (H.world host.old) (H.world host.new)) }
    ensures err { IfErr result (λ ending. H.tells → (db : Db) → IsSession session.old db (H.world host.old) → StopsFirst ending db statements.now (H.world host.old) (H.world host.new)) }
    ensures over { H.tells → GoesOn session.new (H.world host.old) (H.world host.new) result }
    ensures counts { HasCauses (H.counts host.old) (H.counts host.new) result }
{
    for (i, piece) in statements.iter().enumerate() {
        answer_one(alloc, host, session, i as u64 + 1, piece.items())?;
    }
    Ok(())
}

/// Answers one statement, which has this number.
fn answer_one<H: Host>(
    alloc: Global,
    host: &mut H,
    session: &mut Session,
    number: u64,
    piece: &[u8],
) -> Result<(), Ending>
    requires open { IsOpen session.old }
    requires short { length piece.now ≤ 2 ^ 20 }
    requires stands { H.tells → StandsOver session.old (H.world host.old) }
    ensures ok { OnOk result (H.tells → (db : Db) → IsSession session.old db (H.world host.old) → AnswersOne number piece.now db session.new (H.world host.old) (H.world host.new)) }
    ensures err { IfErr result (λ ending. H.tells → (db : Db) → IsSession session.old db (H.world host.old) → StopsOne ending number piece.now db (H.world host.old) (H.world host.new)) }
    ensures over { H.tells → GoesOn session.new (H.world host.old) (H.world host.new) result }
    ensures open { OnOk result (IsOpen session.new) }
    ensures counts { HasCauses (H.counts host.old) (H.counts host.new) result }
{
    let reading = read(alloc, piece)?;
    let answered = answer_read(alloc, host, session, number, &reading);
    drop(reading);
    answered
}

/// Answers one statement that was read: it is executed, and then its answer is said.
fn answer_read<H: Host>(
    alloc: Global,
    host: &mut H,
    session: &mut Session,
    number: u64,
    reading: &Reading,
) -> Result<(), Ending>
    requires open { IsOpen session.old }
    requires storable { IfSpelled IsStorableStmt reading.now }
    requires known { IfSpelled (λ statement. is_known statement ≡ true) reading.now }
    requires stands { H.tells → StandsOver session.old (H.world host.old) }
    ensures ok { (piece : List ℕ) → Reads piece reading.now → OnOk result (H.tells → (db : Db) → IsSession session.old db (H.world host.old) → AnswersOne number piece db session.new (H.world host.old) (H.world host.new)) }
    ensures err { (piece : List ℕ) → Reads piece reading.now → IfErr result (λ ending. H.tells → (db : Db) → IsSession session.old db (H.world host.old) → StopsOne ending number piece db (H.world host.old) (H.world host.new)) }
    ensures over { H.tells → GoesOn session.new (H.world host.old) (H.world host.new) result }
    ensures open { OnOk result (IsOpen session.new) }
    ensures counts { HasCauses (H.counts host.old) (H.counts host.new) result }
{
    let reply = reply_for(alloc, host, session, number, reading)?;
    match host.say(reply.bytes()) {
        Ok(()) => Ok(()),
        Err(_) => Err(Ending::OutputFault),
    }
}

/// Executes one statement that was read. One that isn't spelled is refused.
fn reply_for<H: Host>(
    alloc: Global,
    host: &mut H,
    session: &mut Session,
    number: u64,
    reading: &Reading,
) -> Result<Reply, Ending>
    requires open { IsOpen session.old }
    requires storable { IfSpelled IsStorableStmt reading.now }
    requires known { IfSpelled (λ statement. is_known statement ≡ true) reading.now }
    requires stands { H.tells → StandsOver session.old (H.world host.old) }
    ensures told { H.tells → (db : Db) → IsSession session.old db (H.world host.old) → ExecutesOne number reading.now db session.new (H.world host.old) (H.world host.new) result }
    ensures over { H.tells → GoesOn session.new (H.world host.old) (H.world host.new) result }
    ensures open { OnOk result (IsOpen session.new) }
    ensures counts { HasCauses (H.counts host.old) (H.counts host.new) result }
{
    match reading {
        Reading::Spelled(stmt) => Ok(execute(session, host, stmt)?),
        Reading::Syntax => Ok(refusal_reply(alloc, Refusal::Syntax(number))?),
        Reading::TooDeep => Ok(refusal_reply(alloc, Refusal::TooDeep(number))?),
        Reading::LongName => Ok(refusal_reply(alloc, Refusal::LongName(number))?),
    }
}
