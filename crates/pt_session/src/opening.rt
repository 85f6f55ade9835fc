//! What is read of a directory that is opened: the counter, and the definitions of its tables.
ghost use Rattle.std.specs.Prelude.{◌≡◌, ◌<◌, ◌≤◌, ◌+◌, ◌^◌, ℕ, List as Listed, length, take, IfNone, IfOk, IfSome, IsSome, IsTrue, OnOk};
ghost use Rattle.indexmap.specs.IndexMap.{IsEmpty, keys};
ghost use Rattle.pt_host.specs.Listed.{FileList, by_name};
ghost use Rattle.pt_host.specs.World.{OnlyLooks};
ghost use Rattle.pt_left.specs.Left.{serials_name};
ghost use Rattle.pt_value.specs.Ident.{IsIdent};
ghost use Rattle.pt_names.specs.Names.{IsDefOf, def_name};
ghost use Rattle.pt_store.specs.Stops.{IfBad, IsCounted};
ghost use Rattle.pt_store.specs.Store.{HasMap, IsStore, is_live, sizes};
ghost use Rattle.pt_holds.specs.Bad.{Bad, Defines, HasNext};
ghost use Rattle.pt_session.specs.Session.{AreRisingNames, IsKept, length_of};
ghost use Rattle.pt_session.specs.Opening.{AddsDef, AreDefined, AreRead, IsChecked, table_in};

use crate::tables::{TableDefs, TableName};
use pt_ast::TableDef;
use pt_defs::{DefRead, def_of_bytes};
use pt_host::{Host, Name};
use pt_names::{Owner, def_name, owner_of};
use pt_place::valid;
use pt_rowfile::counter_of;
use pt_store::{Stop, Store};
use pt_value::Ident;
use std::alloc::Global;

/// Where the body of a definition begins.
const BODY: u64 = 12;

/// The next serial that the counter's file gives.
pub(crate) fn read_next<H: Host>(store: &Store, host: &mut H) -> Result<u64, Stop>
    requires live { IsTrue (is_live store.now) }
    requires held { IsSome (length_of store.now serials_name) }
    requires stands { H.tells → HasMap store.now (H.world host.old) }
    ensures next { IfOk result (λ next. H.tells → (map : FileList) → IsStore store.now map (H.world host.old) → HasNext (by_name map) next) }
    ensures some { IfOk result (λ next. 0 < next) }
    ensures most { IfOk result (λ next. next ≤ 2 ^ 62) }
    ensures looks { H.tells → OnlyLooks (H.world host.old) (H.world host.new) }
    ensures bad { IfBad result (λ name place. H.tells → (map : FileList) → IsStore store.now map (H.world host.old) → Bad (by_name map) name place) }
    ensures counts { IsCounted (H.counts host.old) (H.counts host.new) result }
{
    let name = pt_left::serials();
    let bytes = store.read(host, &name)?;
    match counter_of(bytes.as_slice()) {
        Ok(next) => Ok(next),
        Err(place) => Err(Stop::Bad { name, place }),
    }
}

/// The tables that the store's files define, by rising names.
pub(crate) fn read_tables<H: Host>(
    alloc: Global,
    store: &Store,
    host: &mut H,
) -> Result<TableDefs, Stop>
    requires live { IsTrue (is_live store.now) }
    requires stands { H.tells → HasMap store.now (H.world host.old) }
    ensures rising { IfOk result (λ tables. AreRisingNames (keys tables)) }
    ensures defined { IfOk result (λ tables. AreDefined (sizes store.now) (table_in tables)) }
    ensures read { IfOk result (λ tables. H.tells → (map : FileList) → IsStore store.now map (H.world host.old) → AreRead (by_name map) (table_in tables)) }
    ensures looks { H.tells → OnlyLooks (H.world host.old) (H.world host.new) }
    ensures bad { IfBad result (λ name place. H.tells → (map : FileList) → IsStore store.now map (H.world host.old) → Bad (by_name map) name place) }
    ensures counts { IsCounted (H.counts host.old) (H.counts host.new) result }
{
    let mut tables = TableDefs::new(alloc);
    add_tables(alloc, store, host, &mut tables)?;
    tables.sort_keys()?;
    Ok(tables)
}

/// Adds the tables that the store's files define to none.
fn add_tables<H: Host>(
    alloc: Global,
    store: &Store,
    host: &mut H,
    tables: &mut TableDefs,
) -> Result<(), Stop>
    requires live { IsTrue (is_live store.now) }
    requires none { IsEmpty tables.old }
    requires stands { H.tells → HasMap store.now (H.world host.old) }
    ensures defined { OnOk result (AreDefined (sizes store.now) (table_in tables.new)) }
    ensures read { OnOk result (H.tells → (map : FileList) → IsStore store.now map (H.world host.old) → AreRead (by_name map) (table_in tables.new)) }
    ensures looks { H.tells → OnlyLooks (H.world host.old) (H.world host.new) }
    ensures bad { IfBad result (λ name place. H.tells → (map : FileList) → IsStore store.now map (H.world host.old) → Bad (by_name map) name place) }
    ensures counts { IsCounted (H.counts host.old) (H.counts host.new) result }
{
    for i in 0..store.count() {
        add_file(alloc, store, host, tables, i)?;
    }
    Ok(())
}

/// Adds the table that the store's i-th file defines, if it is the file of a definition.
fn add_file<H: Host>(
    alloc: Global,
    store: &Store,
    host: &mut H,
    tables: &mut TableDefs,
    i: usize,
) -> Result<(), Stop>
    requires live { IsTrue (is_live store.now) }
    requires within { i < length (sizes store.now) }
    requires stands { H.tells → HasMap store.now (H.world host.old) }
    ensures defined { OnOk result (AreDefined (take i (sizes store.now)) (table_in tables.old) → AreDefined (take (i + 1) (sizes store.now)) (table_in tables.new)) }
    ensures read { OnOk result (H.tells → (map : FileList) → IsStore store.now map (H.world host.old) → AreRead (by_name map) (table_in tables.old) → AreRead (by_name map) (table_in tables.new)) }
    ensures looks { H.tells → OnlyLooks (H.world host.old) (H.world host.new) }
    ensures bad { IfBad result (λ name place. H.tells → (map : FileList) → IsStore store.now map (H.world host.old) → Bad (by_name map) name place) }
    ensures counts { IsCounted (H.counts host.old) (H.counts host.new) result }
{
    let name = store.name_at(i).unwrap();
    match defined_by(&name) {
        Some(table) => add_table(alloc, store, host, tables, &table),
        None => Ok(()),
    }
}

/// The table whose definition has a file of this name.
fn defined_by(name: &Name) -> Option<Ident>
    ensures some { IfSome result (IsDefOf name.now) }
    ensures none { IfNone result ((table : Listed ℕ) → IsDefOf name.now table → ⊥) }
{
    match owner_of(name) {
        Owner::Def(table) => Some(table),
        _ => None,
    }
}

/// Adds the table of this name, whose definition has a file.
fn add_table<H: Host>(
    alloc: Global,
    store: &Store,
    host: &mut H,
    tables: &mut TableDefs,
    table: &Ident,
) -> Result<(), Stop>
    requires live { IsTrue (is_live store.now) }
    requires named { IsIdent table.now }
    requires held { IsSome (length_of store.now (def_name table.now)) }
    requires stands { H.tells → HasMap store.now (H.world host.old) }
    ensures adds { OnOk result (AddsDef H.tells store.now (H.world host.old) (table_in tables.old) (table_in tables.new) table.now) }
    ensures looks { H.tells → OnlyLooks (H.world host.old) (H.world host.new) }
    ensures bad { IfBad result (λ name place. H.tells → (map : FileList) → IsStore store.now map (H.world host.old) → Bad (by_name map) name place) }
    ensures counts { IsCounted (H.counts host.old) (H.counts host.new) result }
{
    let def = read_def(alloc, store, host, table)?;
    tables.insert(TableName { ident: *table }, def)?;
    Ok(())
}

/// The definition of the table of this name, which has a file.
fn read_def<H: Host>(
    alloc: Global,
    store: &Store,
    host: &mut H,
    table: &Ident,
) -> Result<TableDef, Stop>
    requires live { IsTrue (is_live store.now) }
    requires named { IsIdent table.now }
    requires held { IsSome (length_of store.now (def_name table.now)) }
    requires stands { H.tells → HasMap store.now (H.world host.old) }
    ensures kept { IfOk result (IsKept table.now) }
    ensures read { IfOk result (λ def. H.tells → (map : FileList) → IsStore store.now map (H.world host.old) → Defines (by_name map) table.now def) }
    ensures looks { H.tells → OnlyLooks (H.world host.old) (H.world host.new) }
    ensures bad { IfBad result (λ name place. H.tells → (map : FileList) → IsStore store.now map (H.world host.old) → Bad (by_name map) name place) }
    ensures counts { IsCounted (H.counts host.old) (H.counts host.new) result }
{
    let name = def_name(table);
    let bytes = store.read(host, &name)?;
    match def_in(alloc, table, bytes.as_slice()) {
        Ok(def) => Ok(def),
        Err(DefRead::Bad { place }) => Err(Stop::Bad { name, place }),
        Err(DefRead::NoMemory) => Err(Stop::NoMemory),
    }
}

/// The valid definition that these bytes spell.
fn def_in(alloc: Global, table: &Ident, bytes: &[u8]) -> Result<TableDef, DefRead>
    ensures { IsChecked result bytes.now }
{
    let def = def_of_bytes(alloc, bytes)?;
    if valid(table, &def).is_some() {
        return Err(DefRead::Bad { place: BODY });
    }
    Ok(def)
}
