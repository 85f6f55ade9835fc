ghost use Rattle.std.specs.Prelude.{◌≡◌, true, IfOk, OnOk, OnErr};
ghost use Rattle.pt_ast.specs.StorableStmt.{IsStorableStmt};
ghost use Rattle.pt_db.specs.Sound.{IsSound};
ghost use Rattle.pt_flat.specs.Step.{after, answer, is_covered};

use crate::definitions::{create, drop_table, like};
use crate::deleting::delete;
use crate::filling::InsertMode;
use crate::inserting::{insert_mode, insert_rows};
use crate::selecting::select;
use crate::shown::show;
use crate::updating::update;
use pt_ast::{Db, Reply, Stmt};
use pt_db::ok_reply;
use std::alloc::{AllocError, Global};

/// Takes a statement: answers it and leaves the database that the model says. Want of memory leaves it as it was.
pub fn step(alloc: Global, db: &mut Db, stmt: &Stmt) -> Result<Reply, AllocError>
    requires sound { IsSound db.old }
    requires storable { IsStorableStmt stmt.now }
    requires covered { is_covered stmt.now ≡ true }
    ensures reply { IfOk result (λ reply. reply ≡ answer db.old stmt.now) }
    ensures after { OnOk result (db.new ≡ after db.old stmt.now) }
    ensures err { OnErr result (db.new ≡ db.old) }
    ensures sound { IsSound db.new }
{
    match stmt {
        Stmt::Create(if_not, table, spec) => create(alloc, db, *if_not, table, spec),
        Stmt::Like(if_not, table, other) => like(alloc, db, *if_not, table, other),
        Stmt::Drop(if_there, table) => drop_table(alloc, db, *if_there, table),
        Stmt::Insert(ignore, new) => insert_rows(alloc, db, insert_mode(*ignore), new),
        Stmt::Replace(new) => insert_rows(alloc, db, InsertMode::Replace, new),
        Stmt::Update(table, parts, assigns, tail) => {
            update(alloc, db, table, parts, assigns, tail)
        }
        Stmt::Delete(table, parts, tail) => delete(alloc, db, table, parts, tail),
        Stmt::Select(query) => select(alloc, db, query),
        Stmt::Show(table) => show(alloc, db, table),
        Stmt::AddParts(_, _)
        | Stmt::AddCount(_, _)
        | Stmt::DropParts(_, _)
        | Stmt::Truncate(_, _)
        | Stmt::Coalesce(_, _)
        | Stmt::Reorganize(_, _, _)
        | Stmt::Exchange(_, _, _)
        | Stmt::RemoveParts(_)
        | Stmt::PartitionBy(_, _)
        | Stmt::Explain(_) => ok_reply(alloc),
    }
}

/// Whether the statement has a step so far. It takes no memory.
pub fn is_covered(stmt: &Stmt) -> bool
    ensures { result ≡ is_covered stmt.now }
{
    match stmt {
        Stmt::Create(_, _, _)
        | Stmt::Like(_, _, _)
        | Stmt::Drop(_, _)
        | Stmt::Show(_)
        | Stmt::Insert(_, _)
        | Stmt::Replace(_)
        | Stmt::Update(_, _, _, _)
        | Stmt::Delete(_, _, _)
        | Stmt::Select(_) => true,
        Stmt::AddParts(_, _)
        | Stmt::AddCount(_, _)
        | Stmt::DropParts(_, _)
        | Stmt::Truncate(_, _)
        | Stmt::Coalesce(_, _)
        | Stmt::Reorganize(_, _, _)
        | Stmt::Exchange(_, _, _)
        | Stmt::RemoveParts(_)
        | Stmt::PartitionBy(_, _)
        | Stmt::Explain(_) => false,
    }
}
