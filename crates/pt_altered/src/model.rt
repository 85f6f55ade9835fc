ghost use Rattle.std.specs.Prelude.{◌≡◌, true, IfOk, OnOk, OnErr};
ghost use Rattle.pt_ast.specs.StorableStmt.{IsStorableStmt};
ghost use Rattle.pt_db.specs.Outcome.{db_behind, reply_of};
ghost use Rattle.pt_db.specs.Sound.{IsSound};
ghost use Rattle.pt_altered.specs.Alter.{alter, is_altering};

use crate::counting::{add_count, coalesce};
use crate::dropping::{drop_parts, truncate};
use crate::regrouping::{add_parts, reorganize};
use crate::remaking::{partition_by, remove_parts};
use pt_ast::{Db, Reply, Stmt};
use pt_db::ok_reply;
use std::alloc::{AllocError, Global};

/// Takes ALTER TABLE: answers it and leaves the database that the model says. Want of memory leaves it as it was.
pub fn alter(alloc: Global, db: &mut Db, stmt: &Stmt) -> Result<Reply, AllocError>
    requires sound { IsSound db.old }
    requires storable { IsStorableStmt stmt.now }
    ensures reply { IfOk result (λ reply. reply ≡ reply_of (alter db.old stmt.now)) }
    ensures after { OnOk result (db.new ≡ db_behind db.old (alter db.old stmt.now)) }
    ensures err { OnErr result (db.new ≡ db.old) }
    ensures sound { IsSound db.new }
{
    match stmt {
        Stmt::AddParts(table, parts) => add_parts(alloc, db, table, parts),
        Stmt::AddCount(table, count) => add_count(alloc, db, table, *count),
        Stmt::DropParts(table, names) => drop_parts(alloc, db, table, names),
        Stmt::Truncate(table, names) => truncate(alloc, db, table, names),
        Stmt::Coalesce(table, count) => coalesce(alloc, db, table, *count),
        Stmt::Reorganize(table, names, parts) => reorganize(alloc, db, table, names, parts),
        Stmt::RemoveParts(table) => remove_parts(alloc, db, table),
        Stmt::PartitionBy(table, spec) => partition_by(alloc, db, table, spec),
        _ => ok_reply(alloc),
    }
}

/// Whether the statement is ALTER TABLE with an action on one table's partitions. It takes no memory.
pub fn is_altering(stmt: &Stmt) -> bool
    ensures { result ≡ is_altering stmt.now }
{
    matches!(
        stmt,
        Stmt::AddParts(_, _)
            | Stmt::AddCount(_, _)
            | Stmt::DropParts(_, _)
            | Stmt::Truncate(_, _)
            | Stmt::Coalesce(_, _)
            | Stmt::Reorganize(_, _, _)
            | Stmt::RemoveParts(_)
            | Stmt::PartitionBy(_, _)
    )
}
