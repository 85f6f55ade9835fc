ghost use Rattle.std.specs.Prelude.{◌≡◌, is_some, IfOk, IsSome};
ghost use Rattle.std.specs.Option.{option_copied};
ghost use Rattle.pt_value.specs.Ident.{IsIdent};
ghost use Rattle.pt_host.specs.Listed.{FileList};
ghost use Rattle.pt_ast.specs.declared.database.Db.{Db};
ghost use Rattle.pt_ast.specs.StorableSpec.{IsStorableSpec};
ghost use Rattle.pt_store.specs.Stops.{IsCounted};
ghost use Rattle.pt_store.specs.Store.{IsStore};
ghost use Rattle.pt_db.specs.Outcome.{reply_of};
ghost use Rattle.pt_holds.specs.ShapeChanges.{IsCreate};
ghost use Rattle.pt_flat.specs.Create.{create};
ghost use Rattle.pt_flat.specs.DropTable.{drop_table};
ghost use Rattle.pt_flat.specs.Fresh.{nothing_or, with_fresh};
ghost use Rattle.pt_flat.specs.Like.{like};
ghost use Rattle.pt_session.specs.Leaves.{Tells};
ghost use Rattle.pt_session.specs.Session.{HasMap, IsOpen, IsOpenAfter, def_of};

use pt_ast::{Refusal, Reply, TableDef, TableSpec};
use pt_complete::{DefFault, complete};
use pt_db::{ok_reply, refusal_reply};
use pt_host::Host;
use pt_session::Session;
use pt_store::Stop;
use pt_value::Ident;
use std::alloc::{AllocError, Global};
use std::mem::drop;

/// Executes CREATE TABLE.
pub(crate) fn create<H: Host>(
    session: &mut Session,
    host: &mut H,
    if_not: bool,
    name: &Ident,
    spec: &TableSpec,
) -> Result<Reply, Stop>
    requires open { IsOpen session.old }
    requires storable { IsStorableSpec spec.now }
    requires stands { H.tells → HasMap session.old (H.world host.old) }
    ensures told { H.tells → (map : FileList) → IsStore session.old.store map (H.world host.old) → Tells (λ db. create if_not db name.now spec.now) session.old session.new map (H.world host.old) (H.world host.new) result }
    ensures open { IsOpenAfter session.old session.new result }
    ensures counts { IsCounted (H.counts host.old) (H.counts host.new) result }
{
    let alloc = session.alloc();
    if is_there(session, name) {
        return Ok(nothing_or(alloc, if_not, Refusal::TableExists(*name))?);
    }
    match complete(alloc, name, spec) {
        Ok(def) => add_fresh(session, host, name, def),
        Err(DefFault::Refused(refusal)) => Ok(refusal_reply(alloc, refusal)?),
        Err(DefFault::NoMemory) => Err(Stop::NoMemory),
    }
}

/// Executes CREATE TABLE .. LIKE.
pub(crate) fn like<H: Host>(
    session: &mut Session,
    host: &mut H,
    if_not: bool,
    name: &Ident,
    other: &Ident,
) -> Result<Reply, Stop>
    requires open { IsOpen session.old }
    requires stands { H.tells → HasMap session.old (H.world host.old) }
    ensures told { H.tells → (map : FileList) → IsStore session.old.store map (H.world host.old) → Tells (λ db. like if_not db name.now other.now) session.old session.new map (H.world host.old) (H.world host.new) result }
    ensures open { IsOpenAfter session.old session.new result }
    ensures counts { IsCounted (H.counts host.old) (H.counts host.new) result }
{
    let alloc = session.alloc();
    if is_there(session, name) {
        return Ok(nothing_or(alloc, if_not, Refusal::TableExists(*name))?);
    }
    let Some(source) = table_of(session, other) else {
        return Ok(refusal_reply(alloc, Refusal::NoSuchTable(*other))?);
    };
    let def = source.copy(alloc)?;
    add_fresh(session, host, name, def)
}

/// Executes DROP TABLE.
pub(crate) fn drop_table<H: Host>(
    session: &mut Session,
    host: &mut H,
    if_there: bool,
    name: &Ident,
) -> Result<Reply, Stop>
    requires open { IsOpen session.old }
    requires stands { H.tells → HasMap session.old (H.world host.old) }
    ensures told { H.tells → (map : FileList) → IsStore session.old.store map (H.world host.old) → Tells (λ db. drop_table if_there db name.now) session.old session.new map (H.world host.old) (H.world host.new) result }
    ensures open { IsOpenAfter session.old session.new result }
    ensures counts { IsCounted (H.counts host.old) (H.counts host.new) result }
{
    let alloc = session.alloc();
    if !is_there(session, name) {
        return Ok(nothing_or(alloc, if_there, Refusal::NoSuchTable(*name))?);
    }
    // All memory that isn't the session's is taken before the change.
    let reply = ok_reply(alloc)?;
    session.drop_table(host, name)?;
    Ok(reply)
}

/// Adds a table without rows, and answers `ok`.
fn add_fresh<H: Host>(
    session: &mut Session,
    host: &mut H,
    name: &Ident,
    def: TableDef,
) -> Result<Reply, Stop>
    requires open { IsOpen session.old }
    requires change { IsCreate (def_of session.old) name.now def }
    requires stands { H.tells → HasMap session.old (H.world host.old) }
    ensures told { H.tells → (map : FileList) → IsStore session.old.store map (H.world host.old) → Tells (λ db. with_fresh db name.now def) session.old session.new map (H.world host.old) (H.world host.new) result }
    ensures open { IsOpenAfter session.old session.new result }
    ensures counts { IsCounted (H.counts host.old) (H.counts host.new) result }
{
    let added = add_table(session, host, name, &def);
    drop(def);
    added
}

fn add_table<H: Host>(
    session: &mut Session,
    host: &mut H,
    name: &Ident,
    def: &TableDef,
) -> Result<Reply, Stop>
    requires open { IsOpen session.old }
    requires change { IsCreate (def_of session.old) name.now def.now }
    requires stands { H.tells → HasMap session.old (H.world host.old) }
    ensures told { H.tells → (map : FileList) → IsStore session.old.store map (H.world host.old) → Tells (λ db. with_fresh db name.now def.now) session.old session.new map (H.world host.old) (H.world host.new) result }
    ensures open { IsOpenAfter session.old session.new result }
    ensures counts { IsCounted (H.counts host.old) (H.counts host.new) result }
{
    // It is an identifier.
    name.bytes();
    // All memory that isn't the session's is taken before the change.
    let reply = ok_reply(session.alloc())?;
    session.create_table(host, name, def)?;
    Ok(reply)
}

/// Answers a statement that does nothing: `ok` where it allows for that, and else the refusal.
fn nothing_or(alloc: Global, allows: bool, refusal: Refusal) -> Result<Reply, AllocError>
    ensures { (db : Db) → IfOk result (λ reply. reply ≡ reply_of (nothing_or allows db refusal)) }
{
    if allows {
        ok_reply(alloc)
    } else {
        refusal_reply(alloc, refusal)
    }
}

/// Whether there is a table of this name.
fn is_there(session: &Session, name: &Ident) -> bool
    ensures there { result ≡ is_some (def_of session.now name.now) }
    ensures ident { IsIdent name.now }
{
    table_of(session, name).is_some()
}

/// The definition of the table of this name.
fn table_of<'a>(session: &'a Session, name: &Ident) -> Option<&'a TableDef>
    ensures held { option_copied result ≡ def_of session.now name.now }
    ensures ident { IsIdent name.now }
{
    // It is an identifier.
    name.bytes();
    session.table(name)
}
