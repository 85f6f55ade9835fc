ghost use Rattle.std.specs.Prelude.{◌≡◌, is_some, false, true, None, Some, Ok, IfOk, OnOk, OnErr};
ghost use Rattle.pt_ast.specs.declared.database.Db.{Db as Base};
ghost use Rattle.pt_ast.specs.StorableDef.{IsStorableDef};
ghost use Rattle.pt_place.specs.Valid.{IsValid};
ghost use Rattle.pt_db.specs.Lookup.{table_of};
ghost use Rattle.pt_db.specs.Outcome.{db_behind, reply_of};
ghost use Rattle.pt_db.specs.Sound.{IsSound};
ghost use Rattle.pt_ast.specs.StorableSpec.{IsStorableSpec};
ghost use Rattle.pt_flat.specs.Create.{create};
ghost use Rattle.pt_flat.specs.DropTable.{drop_table};
ghost use Rattle.pt_flat.specs.Fresh.{nothing_or, with_fresh};
ghost use Rattle.pt_flat.specs.Like.{like};

use crate::lookup::{is_there, table_of};
use pt_ast::{Db, Refusal, Reply, Rows, Table, TableDef, TableSpec};
use pt_complete::{DefFault, complete};
use pt_db::{add_table, ok_reply, refusal_reply, remove_table};
use pt_value::Ident;
use std::alloc::{AllocError, Global};

/// Takes CREATE TABLE. Want of memory leaves the database as it was.
pub(crate) fn create(
    alloc: Global,
    db: &mut Db,
    if_not: bool,
    name: &Ident,
    spec: &TableSpec,
) -> Result<Reply, AllocError>
    requires sound { IsSound db.old }
    requires storable { IsStorableSpec spec.now }
    ensures reply { IfOk result (λ reply. reply ≡ reply_of (create if_not db.old name.now spec.now)) }
    ensures after { OnOk result (db.new ≡ db_behind db.old (create if_not db.old name.now spec.now)) }
    ensures err { OnErr result (db.new ≡ db.old) }
    ensures sound { IsSound db.new }
{
    if is_there(db, name) {
        return nothing_or(alloc, if_not, Refusal::TableExists(*name));
    }
    match complete(alloc, name, spec) {
        Ok(def) => add_fresh(alloc, db, name, def),
        Err(DefFault::Refused(refusal)) => refusal_reply(alloc, refusal),
        Err(DefFault::NoMemory) => Err(AllocError),
    }
}

/// Takes CREATE TABLE .. LIKE. Want of memory leaves the database as it was.
pub(crate) fn like(
    alloc: Global,
    db: &mut Db,
    if_not: bool,
    name: &Ident,
    other: &Ident,
) -> Result<Reply, AllocError>
    requires { IsSound db.old }
    ensures reply { IfOk result (λ reply. reply ≡ reply_of (like if_not db.old name.now other.now)) }
    ensures after { OnOk result (db.new ≡ db_behind db.old (like if_not db.old name.now other.now)) }
    ensures err { OnErr result (db.new ≡ db.old) }
    ensures sound { IsSound db.new }
{
    if is_there(db, name) {
        return nothing_or(alloc, if_not, Refusal::TableExists(*name));
    }
    let Some(source) = table_of(db, other) else {
        return refusal_reply(alloc, Refusal::NoSuchTable(*other));
    };
    let def = source.def.copy(alloc)?;
    add_fresh(alloc, db, name, def)
}

/// Takes DROP TABLE. Want of memory leaves the database as it was.
pub(crate) fn drop_table(
    alloc: Global,
    db: &mut Db,
    if_there: bool,
    name: &Ident,
) -> Result<Reply, AllocError>
    requires { IsSound db.old }
    ensures reply { IfOk result (λ reply. reply ≡ reply_of (drop_table if_there db.old name.now)) }
    ensures after { OnOk result (db.new ≡ db_behind db.old (drop_table if_there db.old name.now)) }
    ensures err { OnErr result (db.new ≡ db.old) }
    ensures sound { IsSound db.new }
{
    if !is_there(db, name) {
        return nothing_or(alloc, if_there, Refusal::NoSuchTable(*name));
    }
    let reply = ok_reply(alloc)?;
    remove_table(alloc, db, name);
    Ok(reply)
}

/// Adds a table without rows, and answers `ok`. Want of memory leaves the database as it was.
fn add_fresh(alloc: Global, db: &mut Db, name: &Ident, def: TableDef) -> Result<Reply, AllocError>
    requires sound { IsSound db.old }
    requires new { is_some (table_of db.old name.now) ≡ false }
    ensures reply { IfOk result (λ reply. reply ≡ reply_of (with_fresh db.old name.now def)) }
    ensures after { OnOk result (db.new ≡ db_behind db.old (with_fresh db.old name.now def)) }
    ensures err { OnErr result (db.new ≡ db.old) }
    ensures sound { IsStorableDef def → IsValid def → IsSound db.new }
{
    let reply = ok_reply(alloc)?;
    // It is an identifier.
    name.bytes();
    let table = Table {
        name: *name,
        def,
        rows: Rows::new(alloc),
    };
    add_table(alloc, db, table)?;
    Ok(reply)
}

/// Answers a statement that does nothing: `ok` where it allows for that, and else the refusal.
fn nothing_or(alloc: Global, allows: bool, refusal: Refusal) -> Result<Reply, AllocError>
    ensures { (db : Base) → IfOk result (λ reply. reply ≡ reply_of (nothing_or allows db refusal)) }
{
    if allows {
        ok_reply(alloc)
    } else {
        refusal_reply(alloc, refusal)
    }
}
