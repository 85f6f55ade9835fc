ghost use Rattle.pt_ast.specs.StorableStmt.{IsStorableStmt};
ghost use Rattle.pt_db.specs.Sound.{IsSound};

use crate::reading::read;
use pt_altered::{alter, is_altering};
use pt_ast::{Db, Refusal, Reply, Stmt};
use pt_db::{empty_db, ok_reply, refusal_reply};
use pt_flat::{is_covered, step};
use pt_parse_expr::ParseFault;
use std::alloc::{AllocError, Global};

/// The serial that the last row takes.
const LAST_SERIAL: u64 = (1 << 62) - 1;

/// The database that a line begins with: `late` is one whose next row takes the last serial.
#[tactic(auto, using(pt_db::proofs::Sounds::empty_sound))]
pub(crate) fn begun(alloc: Global, line: &str) -> Db
    ensures { IsSound result }
{
    if line == "late" {
        late_db(alloc)
    } else {
        empty_db(alloc)
    }
}

/// The database without tables whose next row takes the last serial.
fn late_db(alloc: Global) -> Db
    ensures { IsSound result }
{
    let mut db = empty_db(alloc);
    db.next = LAST_SERIAL;
    db
}

/// Takes the statement that a piece spells, and gives its answer. The number is that of the line.
pub(crate) fn taken(
    alloc: Global,
    db: &mut Db,
    number: u64,
    piece: &[u8],
) -> Result<Reply, AllocError>
    requires { IsSound db.old }
    ensures { IsSound db.new }
{
    match read(alloc, piece) {
        Ok(stmt) => {
            let reply = stepped(alloc, db, &stmt);
            beside(stmt, reply)
        }
        Err(fault) => refused(alloc, number, fault),
    }
}

/// What was made of a value, which is let go here: of any type at all, since that is cheap to prove.
fn beside<T: Drop, U: Drop>(value: T, made: U) -> U {
    drop(value);
    made
}

fn refused(alloc: Global, number: u64, fault: ParseFault) -> Result<Reply, AllocError> {
    match fault {
        ParseFault::Syntax => refusal_reply(alloc, Refusal::Syntax(number)),
        ParseFault::TooDeep => refusal_reply(alloc, Refusal::TooDeep(number)),
        ParseFault::LongName => refusal_reply(alloc, Refusal::LongName(number)),
        ParseFault::NoMemory => Err(AllocError),
    }
}

fn stepped(alloc: Global, db: &mut Db, stmt: &Stmt) -> Result<Reply, AllocError>
    requires sound { IsSound db.old }
    requires storable { IsStorableStmt stmt.now }
    ensures { IsSound db.new }
{
    if is_covered(stmt) {
        step(alloc, db, stmt)
    } else if is_altering(stmt) {
        alter(alloc, db, stmt)
    } else {
        ok_reply(alloc)
    }
}
