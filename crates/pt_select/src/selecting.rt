//! SELECT.
ghost use Rattle.std.specs.Prelude.{◌≡◌, ℕ, All, IfNone, IfOk};
ghost use Rattle.std.specs.Option.{option_or};
ghost use Rattle.pt_host.specs.Listed.{FileList};
ghost use Rattle.pt_checks.specs.Named.{bad_parts};
ghost use Rattle.pt_checks.specs.Printed.{select_text};
ghost use Rattle.pt_checks.specs.Queries.{IsChecked, bad_query};
ghost use Rattle.pt_store.specs.Step.{IsLook};
ghost use Rattle.pt_store.specs.Stops.{IsCounted};
ghost use Rattle.pt_store.specs.Store.{IsStore};
ghost use Rattle.pt_db.specs.Sound.{IsSoundRow};
ghost use Rattle.pt_db.specs.Texts.{answered};
ghost use Rattle.pt_flat.specs.Select.{select};
ghost use Rattle.pt_session.specs.Leaves.{Tells};
ghost use Rattle.pt_session.specs.Session.{HasMap, IsOpen};

use pt_ast::{Query, Refusal, Reply, Rows, TableDef};
use pt_candidates::candidates;
use pt_checks::{bad_parts, bad_query, select_text};
use pt_db::refusal_reply;
use pt_host::Host;
use pt_session::Session;
use pt_store::Stop;
use std::alloc::{AllocError, Global};

/// Answers SELECT. It only looks.
pub(crate) fn select<H: Host>(session: &Session, host: &mut H, query: &Query) -> Result<Reply, Stop>
    requires open { IsOpen session.now }
    requires stands { H.tells → HasMap session.now (H.world host.old) }
    ensures told { H.tells → (map : FileList) → IsStore session.now.store map (H.world host.old) → Tells (λ db. select db query.now) session.now session.now map (H.world host.old) (H.world host.new) result }
    ensures looks { H.tells → (map : FileList) → IsStore session.now.store map (H.world host.old) → IsLook session.now.store map (H.world host.old) (H.world host.new) }
    ensures counts { IsCounted (H.counts host.old) (H.counts host.new) result }
{
    let alloc = session.alloc();
    let Some(def) = session.table(&query.table) else {
        return Ok(refusal_reply(alloc, Refusal::NoSuchTable(query.table))?);
    };
    if let Some(refusal) = refusal_of(def, query) {
        return Ok(refusal_reply(alloc, refusal)?);
    }
    let rows = candidates(session, host, &query.table, def, &query.parts, &query.tail)?;
    Ok(answer(alloc, def, query, rows)?)
}

/// What is refused of a query by looking at it and at the definition of its table alone. What isn't refused is well typed.
fn refusal_of(def: &TableDef, query: &Query) -> Option<Refusal>
    ensures refusal { result ≡ option_or (bad_parts def.now query.now.table query.now.parts) (bad_query def.now query.now) }
    ensures checked { IfNone result (IsChecked def.now query.now) }
{
    if let Some(refusal) = bad_parts(def, &query.table, &query.parts) {
        return Some(refusal);
    }
    bad_query(def, query)
}

/// The answer of a query, from the rows that it takes.
fn answer(alloc: Global, def: &TableDef, query: &Query, rows: Rows) -> Result<Reply, AllocError>
    requires checked { IsChecked def.now query.now }
    requires sound { (next : ℕ) × All (IsSoundRow next def.now) rows }
    ensures { IfOk result (λ reply. reply ≡ answered (select_text def.now.columns query.now.items rows)) }
{
    let text = select_text(alloc, &def.columns, &query.items, rows.items())?;
    Ok(Reply { code: 0, text })
}
