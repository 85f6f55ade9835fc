//! What a table that gets another definition, and two that exchange rows, ask of the store, made in memory before anything is changed.
ghost use Rattle.std.specs.Prelude.{◌≡◌, ◌≤◌, [], ◌++◌, ℕ, List as Listed, cond, filter, length, map, not, All, IfOk, IsSome, OnOk, Some};
ghost use Rattle.indexmap.specs.IndexMap.{get, insert_entry};
ghost use Rattle.pt_ast.specs.StorableDef.{IsStorableDef};
ghost use Rattle.pt_rowfile.specs.declared.record.Record.TheVariants.{Put};
ghost use Rattle.pt_rowfile.specs.Records.{IsRecord};
ghost use Rattle.pt_rowfile.specs.Written.{IsShortRow};
ghost use Rattle.pt_store.specs.Reshape.{IsReshape};
ghost use Rattle.pt_store.specs.Store.{sizes};
ghost use Rattle.pt_holds.specs.Acts.{AreRecords, rows_text};
ghost use Rattle.pt_holds.specs.ShapeChanges.{IsAlter, IsExchange};
ghost use Rattle.pt_session.specs.Opening.{has};
ghost use Rattle.pt_session.specs.Session.{IsOpen, def_of};
ghost use Rattle.pt_session.specs.Shaping.{AreAltered, AreAltering, IsAltering, IsExchanging, IsHeldFile, given_file, goes, gone_files, is_listed, renews};

use crate::Session;
use crate::files::files_of;
use indexmap::IndexMap;
use pt_ast::{Row, Rows, Spot, TableDef};
use pt_ddl_log::{Act, Chain};
use pt_defs::{def_bytes, def_fits, name_fits, parts_fit};
use pt_holds::file_of;
use pt_host::{FileList, Name};
use pt_names::def_name;
use pt_plain::List;
use pt_rowfile::put_bytes;
use pt_store::Store;
use pt_value::Ident;
use std::alloc::{AllocError, Global};
use std::collections::BTreeSet;
use std::hash::Hash;

/// A chain has fewer acts than this.
const ACTS_END: usize = 1 << 32;

/// Names of files.
type Names = BTreeSet<Name>;

/// A table that gets another definition: the bytes of its new files, the acts that make them the table's, and the definition.
#[derive(Drop)]
pub(crate) struct Alteration {
    pub(crate) fresh: FileList,
    pub(crate) chain: Chain,
    pub(crate) def: TableDef,
}

/// What a table with another definition takes: all memory for it is taken here.
pub(crate) fn altering(
    alloc: Global,
    session: &Session,
    name: &Ident,
    def: &TableDef,
    fresh: &List<(Spot, Rows)>,
) -> Result<Alteration, AllocError>
    requires open { IsOpen session.now }
    requires change { IsAlter (def_of session.now) name.now def.now fresh.now }
    ensures of { IfOk result (IsAltering session.now name.now def.now fresh.now) }
    ensures asks { IfOk result (λ altering. IsReshape (sizes session.now.store) altering.fresh altering.chain) }
{
    name_fits(name);
    def_fits(def);
    let files = altered_files(alloc, name, def, fresh.items())?;
    let acts = altering_acts(alloc, session, name, def, &files)?;
    let own = def.copy(alloc)?;
    Ok(Alteration {
        fresh: files,
        chain: Chain { acts },
        def: own,
    })
}

/// The act by which a spot's rows and the other table's change sides.
pub(crate) fn exchanging(
    alloc: Global,
    session: &Session,
    name: &Ident,
    spot: Spot,
    other: &Ident,
) -> Result<Chain, AllocError>
    requires open { IsOpen session.now }
    requires change { IsExchange (def_of session.now) name.now spot other.now }
    ensures of { IfOk result (IsExchanging session.now name.now spot other.now) }
    ensures asks { IfOk result (IsReshape (sizes session.now.store) []) }
{
    name_fits(name);
    name_fits(other);
    let a = held_file(session, name, spot);
    let b = held_file(session, other, Spot { part: 0, sub: 0 });
    let mut acts = List::new(alloc);
    acts.push(Act::Exchange { a, b })?;
    Ok(Chain { acts })
}

/// The file of the rows of a table's spot.
fn held_file(session: &Session, name: &Ident, spot: Spot) -> Name
    requires { IsSome (def_of session.now name.now) }
    ensures { IsHeldFile session.now name.now spot result }
{
    match session.table(name) {
        None => unreachable!(),
        Some(def) => {
            parts_fit(def.parts.items());
            file_of(name, def, spot)
        }
    }
}

/// The files of a table that are made anew: its definition, and the rows that are given.
fn altered_files(
    alloc: Global,
    name: &Ident,
    def: &TableDef,
    fresh: &[(Spot, Rows)],
) -> Result<FileList, AllocError>
    requires storable { IsStorableDef def.now }
    requires short { All (λ given. All IsShortRow given.1) fresh.now }
    ensures { IfOk result (AreAltered name.now def.now fresh.now) }
{
    let bytes = def_bytes(alloc, def)?;
    let mut files = List::new(alloc);
    files.push((def_name(name), List::of(bytes)))?;
    add_given(alloc, &mut files, name, def, fresh)?;
    Ok(files)
}

/// Adds the file of each spot whose rows are given.
fn add_given(
    alloc: Global,
    files: &mut FileList,
    name: &Ident,
    def: &TableDef,
    fresh: &[(Spot, Rows)],
) -> Result<(), AllocError>
    requires short { All (λ given. All IsShortRow given.1) fresh.now }
    ensures files { OnOk result (files.new ≡ files.old ++ map (given_file name.now def.now) fresh.now) }
    ensures records { OnOk result (All AreRecords fresh.now) }
{
    for (spot, rows) in fresh {
        let text = text_of(alloc, rows.items())?;
        files.push((file_of(name, def, *spot), text))?;
    }
    Ok(())
}

/// The puts of these rows.
fn text_of(alloc: Global, rows: &[Row]) -> Result<List<u8>, AllocError>
    requires { All IsShortRow rows.now }
    ensures text { IfOk result (λ text. text ≡ rows_text rows.now) }
    ensures records { OnOk result (All (λ row. IsRecord (Put row)) rows.now) }
{
    let mut text = Vec::new(alloc);
    for row in rows {
        put_bytes(&mut text, row)?;
    }
    Ok(List::of(text))
}

/// The acts by which the table of this name gets these files and no other row files. No memory has room for 2^32 acts.
fn altering_acts(
    alloc: Global,
    session: &Session,
    name: &Ident,
    def: &TableDef,
    files: &FileList,
) -> Result<List<Act>, AllocError>
    requires held { IsSome (def_of session.now name.now) }
    requires short { All (λ file. length file.0 ≤ 154) files.now }
    ensures { IfOk result (AreAltering session.now name.now def.now files.now) }
{
    match session.table(name) {
        None => unreachable!(),
        Some(old) => {
            parts_fit(old.parts.items());
            let mut acts = renewals(alloc, session, files)?;
            add_gone(alloc, &mut acts, name, old, def)?;
            if acts.items().len() >= ACTS_END {
                return Err(AllocError);
            }
            Ok(acts)
        }
    }
}

/// The acts that give each file the bytes of its shadow.
fn renewals(alloc: Global, session: &Session, files: &FileList) -> Result<List<Act>, AllocError>
    requires short { All (λ file. length file.0 ≤ 154) files.now }
    ensures { IfOk result (λ acts. acts ≡ map (λ file. renews (sizes session.now.store) file.0) files.now) }
{
    let mut acts = List::new(alloc);
    for (name, _) in files.items() {
        acts.push(renewal(session, name))?;
    }
    Ok(acts)
}

/// The act that gives a file the bytes of its shadow.
fn renewal(session: &Session, name: &Name) -> Act
    requires { length name.now ≤ 154 }
    ensures { result ≡ renews (sizes session.now.store) name.now }
{
    let from = name.shadow();
    if session.has_file(name) {
        return Act::Replace { from, to: *name };
    }
    Act::Rename { from, to: *name }
}

/// Adds the acts that take the row files away that only the old definition has.
fn add_gone(
    alloc: Global,
    acts: &mut List<Act>,
    name: &Ident,
    old: &TableDef,
    def: &TableDef,
) -> Result<(), AllocError>
    ensures { OnOk result (acts.new ≡ acts.old ++ map goes (gone_files name.now old.now def.now)) }
{
    let before = files_of(alloc, name, old)?;
    let after = files_of(alloc, name, def)?;
    let stay = name_set(alloc, after.items())?;
    add_others(acts, before.items(), &stay)
}

/// Adds the act that takes the file of each name away that isn't among these.
fn add_others(acts: &mut List<Act>, names: &[Name], stay: &Names) -> Result<(), AllocError>
    ensures { OnOk result (acts.new ≡ acts.old ++ map goes (filter (λ name. not (has stay.now name)) names.now)) }
{
    for name in names {
        if !stay.contains(name) {
            acts.push(Act::Delete { name: *name })?;
        }
    }
    Ok(())
}

/// The set of these names.
fn name_set(alloc: Global, names: &[Name]) -> Result<Names, AllocError>
    ensures { IfOk result (λ set. (file : Listed ℕ) → has set file ≡ is_listed names.now file) }
{
    let mut set = Names::new(alloc);
    for name in names {
        set.insert(*name)?;
    }
    Ok(set)
}

/// Puts a value in the place of the one that a key has. It takes no memory.
pub(crate) fn put_again<K: Eq + Hash + Drop, V: Drop>(tables: &mut IndexMap<K, V>, key: K, value: V)
    requires held { IsSome (get K.eq tables.old key) }
    ensures each { (query : K) → get K.eq tables.new query ≡ cond (K.eq key query) (Some value) (get K.eq tables.old query) }
    ensures place { tables.new.entries ≡ insert_entry K.eq tables.old.entries key value }
{
    match tables.insert(key, value) {
        Err(_) => unreachable!(),
        Ok(_) => {}
    }
}
