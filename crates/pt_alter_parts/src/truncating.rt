ghost use Rattle.std.specs.Prelude.{◌≡◌, Some};
ghost use Rattle.std.specs.Option.{option_copied};
ghost use Rattle.pt_value.specs.Ident.{IsIdent};
ghost use Rattle.pt_ast.specs.declared.database.Db.{Db};
ghost use Rattle.pt_ast.specs.declared.database.Table.{Table};
ghost use Rattle.pt_db.specs.Lookup.{table_of};
ghost use Rattle.pt_db.specs.Outcome.{Outcome};
ghost use Rattle.pt_host.specs.Listed.{FileList};
ghost use Rattle.pt_session.specs.Leaves.{TellsAlter};
ghost use Rattle.pt_session.specs.Session.{HasMap, IsOpen, IsOpenAfter, StandsIn, def_of};
ghost use Rattle.pt_store.specs.Stops.{IsCounted};
ghost use Rattle.pt_store.specs.Store.{IsStore};
ghost use Rattle.pt_altered.specs.Actions.{truncate};
ghost use Rattle.pt_altered.specs.Altered.{rows_out, with_altered};

use crate::emptying::emptied;
use crate::redefining::redefine;
use pt_actions::bad_truncated;
use pt_ast::{Idents, Refusal, Reply, TableDef};
use pt_db::refusal_reply;
use pt_host::Host;
use pt_session::Session;
use pt_store::Stop;
use pt_value::Ident;
use std::mem::drop;

/// Executes TRUNCATE PARTITION, of all partitions where none are named: the definition stays, and the rows of the partitions go. It looks at
/// no row file. A refusal, and want of memory, leave the directory's database and the session as they were. After `Fault` the session is no
/// longer live.
pub fn truncate<H: Host>(
    session: &mut Session,
    host: &mut H,
    name: &Ident,
    parts: &Option<Idents>,
) -> Result<Reply, Stop>
    requires open { IsOpen session.old }
    requires stands { H.tells → HasMap session.old (H.world host.old) }
    ensures told { H.tells → (map : FileList) → IsStore session.old.store map (H.world host.old) → TellsAlter (λ db. truncate db name.now parts.now) session.old session.new map (H.world host.old) (H.world host.new) result }
    ensures open { IsOpenAfter session.old session.new result }
    ensures counts { IsCounted (H.counts host.old) (H.counts host.new) result }
{
    let alloc = session.alloc();
    let Some(own) = table_of(session, name) else {
        return Ok(refusal_reply(alloc, Refusal::NoSuchTable(*name))?);
    };
    if let Some(refusal) = bad_truncated(alloc, name, parts, own)? {
        return Ok(refusal_reply(alloc, refusal)?);
    }
    let def = own.copy(alloc)?;
    empty_parts(session, host, name, parts, def)
}

/// Takes the rows of partitions away, where nothing is refused.
fn empty_parts<H: Host>(
    session: &mut Session,
    host: &mut H,
    name: &Ident,
    parts: &Option<Idents>,
    def: TableDef,
) -> Result<Reply, Stop>
    requires open { IsOpen session.old }
    requires held { def_of session.old name.now ≡ Some def }
    requires stands { H.tells → HasMap session.old (H.world host.old) }
    ensures told { H.tells → (map : FileList) → IsStore session.old.store map (H.world host.old) → (meaning : Db → Outcome) → ((db : Db) → StandsIn session.old map db → (table : Table) → table_of db name.now ≡ Some table → meaning db ≡ with_altered db name.now table.def (rows_out parts.now table.def table.rows)) → TellsAlter meaning session.old session.new map (H.world host.old) (H.world host.new) result }
    ensures open { IsOpenAfter session.old session.new result }
    ensures counts { IsCounted (H.counts host.old) (H.counts host.new) result }
{
    let done = empty_named(session, host, name, parts, &def);
    drop(def);
    done
}

fn empty_named<H: Host>(
    session: &mut Session,
    host: &mut H,
    name: &Ident,
    parts: &Option<Idents>,
    def: &TableDef,
) -> Result<Reply, Stop>
    requires open { IsOpen session.old }
    requires held { def_of session.old name.now ≡ Some def.now }
    requires stands { H.tells → HasMap session.old (H.world host.old) }
    ensures told { H.tells → (map : FileList) → IsStore session.old.store map (H.world host.old) → (meaning : Db → Outcome) → ((db : Db) → StandsIn session.old map db → (table : Table) → table_of db name.now ≡ Some table → meaning db ≡ with_altered db name.now table.def (rows_out parts.now table.def table.rows)) → TellsAlter meaning session.old session.new map (H.world host.old) (H.world host.new) result }
    ensures open { IsOpenAfter session.old session.new result }
    ensures counts { IsCounted (H.counts host.old) (H.counts host.new) result }
{
    // It is an identifier.
    name.bytes();
    let fresh = emptied(session.alloc(), def, parts)?;
    redefine(session, host, name, def, &fresh)
}

/// The definition of the table of this name.
fn table_of<'a>(session: &'a Session, name: &Ident) -> Option<&'a TableDef>
    ensures held { option_copied result ≡ def_of session.now name.now }
    ensures ident { IsIdent name.now }
{
    // It is an identifier.
    name.bytes();
    session.table(name)
}
