//! Whether a store has the row files of its tables and no others.
ghost use Rattle.std.specs.Prelude.{◌≡◌, ◌↔◌, ℕ, List as Listed, false, Option as Optional, None as Nothing, IfNone, IfOk, IfSome, IsSome, IsTrue, OnOk};
ghost use Rattle.pt_store.specs.Stops.{ByStop, IfBad};
ghost use Rattle.pt_holds.specs.Batch.{IsRowFileOf};
ghost use Rattle.pt_session.specs.Session.{length_of};
ghost use Rattle.pt_session.specs.Opening.{AddsFiles, HasRowFiles, IsNeeded, IsRowFile, IsWrongFile, has, table_in};

use crate::files::files_of;
use crate::tables::TableDefs;
use pt_ast::TableDef;
use pt_host::Name;
use pt_names::{Owner, owner_of};
use pt_store::{Stop, Store};
use pt_value::Ident;
use std::alloc::Global;
use std::collections::BTreeSet;

/// Names of files.
type Names = BTreeSet<Name>;

/// Passes where the store has the file of each spot of the tables and no other row file. `Bad`, at place 0, is a file that is
/// missing, or else one that no table needs.
pub(crate) fn check_files(alloc: Global, store: &Store, tables: &TableDefs) -> Result<(), Stop>
    ensures files { OnOk result (HasRowFiles store.now (table_in tables.now)) }
    ensures bad { IfBad result (λ name place. IsWrongFile store.now (table_in tables.now) name × (place ≡ 0)) }
    ensures no_fault { ByStop result (Unit {0}) (Unit {0}) ⊥ }
{
    let needed = needed_files(alloc, store, tables)?;
    match stray_file(store, &needed) {
        Some(name) => Err(Stop::Bad { name, place: 0 }),
        None => Ok(()),
    }
}

/// The names of the tables' row files. `Bad` is one that the store lacks.
fn needed_files(alloc: Global, store: &Store, tables: &TableDefs) -> Result<Names, Stop>
    ensures needed { IfOk result (λ needed. (file : Listed ℕ) → IsTrue (has needed file) ↔ IsNeeded (table_in tables.now) file) }
    ensures held { OnOk result ((file : Listed ℕ) → IsNeeded (table_in tables.now) file → IsSome (length_of store.now file)) }
    ensures bad { IfBad result (λ name place. IsWrongFile store.now (table_in tables.now) name × (place ≡ 0)) }
    ensures no_fault { ByStop result (Unit {0}) (Unit {0}) ⊥ }
{
    let mut needed = Names::new(alloc);
    for i in 0..tables.len() {
        let (name, def) = tables.get_index(i).unwrap();
        add_files(alloc, store, &mut needed, &name.ident, def)?;
    }
    Ok(needed)
}

/// Adds the names of a table's row files. `Bad` is one that the store lacks.
fn add_files(
    alloc: Global,
    store: &Store,
    needed: &mut Names,
    name: &Ident,
    def: &TableDef,
) -> Result<(), Stop>
    ensures adds { OnOk result (AddsFiles store.now (has needed.old) (has needed.new) name.now def.now) }
    ensures bad { IfBad result (λ file place. IsRowFileOf name.now def.now file × (length_of store.now file ≡ Nothing) × (place ≡ 0)) }
    ensures no_fault { ByStop result (Unit {0}) (Unit {0}) ⊥ }
{
    let files = files_of(alloc, name, def)?;
    for file in files.items() {
        if store.length(file).is_none() {
            return Err(Stop::Bad {
                name: *file,
                place: 0,
            });
        }
        needed.insert(*file)?;
    }
    Ok(())
}

/// The first row file of the store that isn't among these.
fn stray_file(store: &Store, needed: &Names) -> Option<Name>
    ensures some { IfSome result (λ file. IsSome (length_of store.now file) × IsRowFile file × (has needed.now file ≡ false)) }
    ensures none { IfNone result ((file : Listed ℕ) → IsSome (length_of store.now file) → IsRowFile file → IsTrue (has needed.now file)) }
{
    for i in 0..store.count() {
        let name = store.name_at(i).unwrap();
        if is_stray(needed, &name) {
            return Some(name);
        }
    }
    None
}

/// Whether it is a row file's name that isn't among these.
fn is_stray(needed: &Names, name: &Name) -> bool
    ensures { IsTrue result ↔ (IsRowFile name.now × (has needed.now name.now ≡ false)) }
{
    is_row_file(name) && !needed.contains(name)
}

/// Whether it is the name of a row file.
fn is_row_file(name: &Name) -> bool
    ensures { IsTrue result ↔ IsRowFile name.now }
{
    matches!(owner_of(name), Owner::Row(_, _))
}
