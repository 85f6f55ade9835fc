//! What a table that comes or goes asks of the store, made in memory before anything is changed.
ghost use Rattle.std.specs.Prelude.{◌≡◌, ◌≤◌, ◌-◌, ◌∷◌, [], ◌++◌, cond, length, map, All, None, IfOk, IsSome, OnOk};
ghost use Rattle.std.specs.Option.{option_or};
ghost use Rattle.std.specs.Map.{remove_entry};
ghost use Rattle.indexmap.specs.IndexMap.{get, index_map_len, move_index, spare};
ghost use Rattle.pt_ast.specs.StorableDef.{IsStorableDef};
ghost use Rattle.pt_store.specs.Reshape.{IsReshape};
ghost use Rattle.pt_store.specs.Store.{sizes};
ghost use Rattle.pt_holds.specs.ShapeChanges.{IsCreate};
ghost use Rattle.pt_session.specs.Session.{IsOpen, def_of};
ghost use Rattle.pt_session.specs.Shaping.{AreFresh, IsCreating, IsDropping, comes, goes, table_files};

use crate::Session;
use crate::files::files_of;
use crate::tables::{TableDefs, TableName};
use indexmap::IndexMap;
use pt_ast::TableDef;
use pt_ddl_log::{Act, Chain};
use pt_defs::{def_bytes, def_fits, name_fits, parts_fit};
use pt_host::{FileList, Name};
use pt_names::def_name;
use pt_plain::List;
use pt_value::Ident;
use std::alloc::{AllocError, Global};
use std::hash::Hash;

/// A table that comes: the bytes of its files, the acts that give these their names, and a map with its definition alone, which
/// has room for the others.
#[derive(Drop)]
pub(crate) struct Coming {
    pub(crate) fresh: FileList,
    pub(crate) chain: Chain,
    pub(crate) tables: TableDefs,
}

/// What a new table takes: all memory for it is taken here.
pub(crate) fn creating(
    alloc: Global,
    session: &Session,
    name: &Ident,
    def: &TableDef,
) -> Result<Coming, AllocError>
    requires open { IsOpen session.now }
    requires change { IsCreate (def_of session.now) name.now def.now }
    ensures of { IfOk result (IsCreating session.now name.now def.now) }
    ensures asks { IfOk result (λ coming. IsReshape (sizes session.now.store) coming.fresh coming.chain) }
{
    name_fits(name);
    def_fits(def);
    let fresh = fresh_files(alloc, name, def)?;
    let acts = renames(alloc, &fresh)?;
    let tables = with_entry(
        alloc,
        TableName { ident: *name },
        def.copy(alloc)?,
        session.table_count(),
    )?;
    Ok(Coming {
        fresh,
        chain: Chain { acts },
        tables,
    })
}

/// The acts that take a table's files away.
pub(crate) fn dropping(alloc: Global, session: &Session, name: &Ident) -> Result<Chain, AllocError>
    requires open { IsOpen session.now }
    requires held { IsSome (def_of session.now name.now) }
    ensures of { IfOk result (IsDropping session.now name.now) }
    ensures asks { IfOk result (IsReshape (sizes session.now.store) []) }
{
    match session.table(name) {
        None => unreachable!(),
        Some(def) => {
            parts_fit(def.parts.items());
            let acts = deletes(alloc, name, def)?;
            Ok(Chain { acts })
        }
    }
}

/// The files of a table that has no rows: its definition, and an empty file for each spot.
fn fresh_files(alloc: Global, name: &Ident, def: &TableDef) -> Result<FileList, AllocError>
    requires storable { IsStorableDef def.now }
    ensures { IfOk result (AreFresh name.now def.now) }
{
    let rows = files_of(alloc, name, def)?;
    let bytes = def_bytes(alloc, def)?;
    let mut fresh = List::new(alloc);
    fresh.push((def_name(name), List::of(bytes)))?;
    add_empty(alloc, &mut fresh, rows.items())?;
    Ok(fresh)
}

/// Adds an empty file of each name.
fn add_empty(alloc: Global, files: &mut FileList, names: &[Name]) -> Result<(), AllocError>
    ensures { OnOk result (files.new ≡ files.old ++ map (λ name. (name, [])) names.now) }
{
    for name in names {
        files.push((*name, List::new(alloc)))?;
    }
    Ok(())
}

/// The acts that give each file its name, from its shadow's.
fn renames(alloc: Global, files: &FileList) -> Result<List<Act>, AllocError>
    requires short { All (λ file. length file.0 ≤ 154) files.now }
    ensures { IfOk result (λ acts. acts ≡ map (λ file. comes file.0) files.now) }
{
    let mut acts = List::new(alloc);
    for (name, _) in files.items() {
        acts.push(Act::Rename {
            from: name.shadow(),
            to: *name,
        })?;
    }
    Ok(acts)
}

/// The acts that take the files of a table away, that of its definition first.
fn deletes(alloc: Global, name: &Ident, def: &TableDef) -> Result<List<Act>, AllocError>
    ensures { IfOk result (λ acts. acts ≡ map goes (table_files name.now def.now)) }
{
    let rows = files_of(alloc, name, def)?;
    let mut acts = List::new(alloc);
    acts.push(Act::Delete {
        name: def_name(name),
    })?;
    add_deletes(&mut acts, rows.items())?;
    Ok(acts)
}

/// Adds an act that takes the file of each name away.
fn add_deletes(acts: &mut List<Act>, names: &[Name]) -> Result<(), AllocError>
    ensures { OnOk result (acts.new ≡ acts.old ++ map goes names.now) }
{
    for name in names {
        acts.push(Act::Delete { name: *name })?;
    }
    Ok(())
}

/// A map with this entry alone, and with room for so many more.
fn with_entry<K: Eq + Hash + Drop, V: Drop>(
    alloc: Global,
    key: K,
    value: V,
    room: usize,
) -> Result<IndexMap<K, V>, AllocError>
    ensures entry { IfOk result (λ map. map.entries ≡ (key, value) ∷ []) }
    ensures room { IfOk result (λ map. room ≤ spare map) }
{
    let mut map = IndexMap::new(alloc);
    map.insert(key, value)?;
    map.reserve(room)?;
    Ok(map)
}

/// Puts the entry of `coming`, which has room for the others, behind them. It takes no memory.
pub(crate) fn add_last<K: Eq + Hash + Drop, V: Drop>(
    tables: &mut IndexMap<K, V>,
    coming: IndexMap<K, V>,
)
    requires room { index_map_len tables.old ≤ spare coming }
    requires entry { (entry : K × V) × (coming.entries ≡ entry ∷ []) × (get K.eq tables.old entry.0 ≡ None) }
    ensures each { (key : K) → get K.eq tables.new key ≡ option_or (get K.eq tables.old key) (get K.eq coming key) }
    ensures last { tables.new.entries ≡ tables.old.entries ++ coming.entries }
{
    let mut all = coming;
    // `len` tells that no key stands twice.
    let _count = tables.len();
    match all.append(tables) {
        Err(_) => unreachable!(),
        Ok(()) => {
            first_last(&mut all);
            *tables = all;
        }
    }
}

/// Moves the first entry behind the others.
fn first_last<K: Eq + Hash + Drop, V: Drop>(map: &mut IndexMap<K, V>)
    ensures each { (key : K) → get K.eq map.new key ≡ get K.eq map.old key }
    ensures last { map.new.entries ≡ move_index map.old.entries 0 (index_map_len map.old - 1) }
{
    if let Some(last) = map.len().checked_sub(1) {
        map.move_index(0, last);
    }
}

/// Takes the entry of a key out. The others keep their order.
pub(crate) fn take_out<K: Eq + Hash + Drop, V: Drop>(tables: &mut IndexMap<K, V>, key: K)
    ensures each { (query : K) → get K.eq tables.new query ≡ cond (K.eq key query) None (get K.eq tables.old query) }
    ensures rest { tables.new.entries ≡ remove_entry (K.eq key) tables.old.entries }
{
    tables.shift_remove(&key);
}
