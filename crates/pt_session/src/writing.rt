//! What a change of rows adds to the files of a session.
ghost use Rattle.std.specs.Prelude.{IfOk, IsSomeAnd};
ghost use Rattle.pt_store.specs.Batch.{IsBatch};
ghost use Rattle.pt_store.specs.Store.{sizes};
ghost use Rattle.pt_holds.specs.RowChanges.{IsRowChange};
ghost use Rattle.pt_session.specs.Session.{IsOpen, def_of};
ghost use Rattle.pt_session.specs.Writing.{IsBatchFor};

use crate::Session;
use pt_holds::{RowChange, batch_of};
use pt_host::FileList;
use std::alloc::{AllocError, Global};

/// The batch of a change.
pub(crate) fn batch_for(
    alloc: Global,
    session: &Session,
    change: &RowChange,
) -> Result<FileList, AllocError>
    requires open { IsOpen session.now }
    requires change { IsSomeAnd (def_of session.now change.now.table) (λ def. IsRowChange def change.now) }
    ensures of { IfOk result (IsBatchFor session.now change.now) }
    ensures fits { IfOk result (IsBatch (sizes session.now.store)) }
{
    let table = change.table;
    match session.table(&table) {
        None => unreachable!(),
        Some(def) => batch_of(alloc, def, change),
    }
}
