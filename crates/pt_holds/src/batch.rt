//! What a change of rows adds to files, as a batch of the store.
ghost use Rattle.std.specs.Prelude.{◌≡◌, ◌<◌, ◌^◌, length, All, None, IfOk, OnOk};
ghost use Rattle.pt_host.specs.Disk.{put};
ghost use Rattle.pt_host.specs.Images.{AreSame};
ghost use Rattle.pt_host.specs.Listed.{AreRising};
ghost use Rattle.pt_bytes.specs.Numbers.{le_bytes};
ghost use Rattle.pt_names.specs.Names.{serials_name};
ghost use Rattle.pt_ast.specs.StorableDef.{IsStorableDef};
ghost use Rattle.pt_place.specs.Valid.{IsValid};
ghost use Rattle.pt_rowfile.specs.declared.record.Record.TheVariants.{Delete, Put};
ghost use Rattle.pt_rowfile.specs.Records.{IsRecord, record_bytes};
ghost use Rattle.pt_rowfile.specs.Written.{IsShortRow};
ghost use Rattle.pt_store.specs.Contents.{files_in};
ghost use Rattle.pt_db.specs.Spots.{IsSpotOf};
ghost use Rattle.pt_holds.specs.Batch.{IsBatchOf, IsRowFileOf};
ghost use Rattle.pt_holds.specs.Holds.{spot_file};
ghost use Rattle.pt_holds.specs.RowChanges.{IsRowChange};
ghost use Rattle.pt_holds.specs.Texts.{Adds, deletes_text, only_at, puts_text, text_at};

use crate::change::RowChange;
use pt_ast::{Row, Spot, TableDef};
use pt_bytes::put_u64;
use pt_host::{FileList, Name};
use pt_names::row_name;
use pt_place::leaf;
use pt_plain::List;
use pt_rowfile::{delete_bytes, put_bytes};
use pt_value::Ident;
use std::alloc::{AllocError, Global};
use std::collections::BTreeMap;

/// A batch has fewer files than this.
const FILES_END: usize = 1 << 32;

/// What is added to files, by their names.
type Texts = BTreeMap<Name, List<u8>>;

/// What a change of a table's rows adds to files: to the file of each spot the records of its deletes and then those of its
/// puts, and to the counter the next serial. A file to which nothing is added isn't in the batch.
pub fn batch_of(alloc: Global, def: &TableDef, change: &RowChange) -> Result<FileList, AllocError>
    requires storable { IsStorableDef def.now }
    requires valid { IsValid def.now }
    requires change { IsRowChange def.now change.now }
    ensures { IfOk result (λ batch. IsBatchOf batch def.now change.now) }
{
    let mut texts: Texts = BTreeMap::new(alloc);
    add_deletes(
        alloc,
        &mut texts,
        &change.table,
        def,
        change.deletes.items(),
    )?;
    add_puts(alloc, &mut texts, &change.table, def, change.puts.items())?;
    add_next(alloc, &mut texts, change.next)?;
    let batch = listed(alloc, texts)?;
    Ok(batch)
}

/// Adds the record of each delete to the file of its spot.
fn add_deletes(
    alloc: Global,
    texts: &mut Texts,
    table: &Ident,
    def: &TableDef,
    deletes: &[(Spot, u64)],
) -> Result<(), AllocError>
    requires { All (λ delete. IsSpotOf def.now delete.0) deletes.now }
    ensures adds { OnOk result (Adds (files_in texts.old) (files_in texts.new) (deletes_text table.now def.now deletes.now) (IsRowFileOf table.now def.now)) }
    ensures records { OnOk result (All (λ delete. IsRecord (Delete delete.1)) deletes.now) }
{
    for (spot, serial) in deletes {
        add_delete(alloc, texts, &file_of(table, def, *spot), *serial)?;
    }
    Ok(())
}

/// Adds the record of each put to the file of its spot.
fn add_puts(
    alloc: Global,
    texts: &mut Texts,
    table: &Ident,
    def: &TableDef,
    puts: &[(Spot, Row)],
) -> Result<(), AllocError>
    requires spots { All (λ put. IsSpotOf def.now put.0) puts.now }
    requires short { All (λ put. IsShortRow put.1) puts.now }
    ensures adds { OnOk result (Adds (files_in texts.old) (files_in texts.new) (puts_text table.now def.now puts.now) (IsRowFileOf table.now def.now)) }
    ensures records { OnOk result (All (λ put. IsRecord (Put put.1)) puts.now) }
{
    for (spot, row) in puts {
        add_put(alloc, texts, &file_of(table, def, *spot), row)?;
    }
    Ok(())
}

/// The name of the file of a spot's rows.
pub fn file_of(table: &Ident, def: &TableDef, spot: Spot) -> Name
    ensures { result ≡ spot_file table.now def.now spot }
{
    match leaf(def, spot) {
        None => row_name(table, None),
        Some(leaf) => row_name(table, Some(&leaf)),
    }
}

/// Adds the record that deletes the row of this serial to a file.
fn add_delete(alloc: Global, texts: &mut Texts, name: &Name, serial: u64) -> Result<(), AllocError>
    ensures adds { OnOk result (Adds (files_in texts.old) (files_in texts.new) (only_at name.now (record_bytes (Delete serial))) (λ query. name.now ≡ query)) }
    ensures record { OnOk result (IsRecord (Delete serial)) }
{
    let mut text = taken(alloc, texts, name);
    delete_bytes(&mut text, serial)?;
    texts.insert(*name, List::of(text))?;
    Ok(())
}

/// Adds the record that puts a row to a file.
fn add_put(alloc: Global, texts: &mut Texts, name: &Name, row: &Row) -> Result<(), AllocError>
    requires { IsShortRow row.now }
    ensures adds { OnOk result (Adds (files_in texts.old) (files_in texts.new) (only_at name.now (record_bytes (Put row.now))) (λ query. name.now ≡ query)) }
    ensures record { OnOk result (IsRecord (Put row.now)) }
{
    let mut text = taken(alloc, texts, name);
    put_bytes(&mut text, row)?;
    texts.insert(*name, List::of(text))?;
    Ok(())
}

/// Adds the next serial to the counter.
fn add_next(alloc: Global, texts: &mut Texts, next: u64) -> Result<(), AllocError>
    ensures { OnOk result (Adds (files_in texts.old) (files_in texts.new) (only_at serials_name (le_bytes 8 next)) (λ query. serials_name ≡ query)) }
{
    let name = pt_left::serials();
    let mut text = taken(alloc, texts, &name);
    put_u64(&mut text, next)?;
    texts.insert(name, List::of(text))?;
    Ok(())
}

/// Takes the text of a file out, an empty one where there is none.
fn taken(alloc: Global, texts: &mut Texts, name: &Name) -> Vec<u8>
    ensures text { result.items ≡ text_at (files_in texts.old) name.now }
    ensures rest { AreSame (put (files_in texts.old) name.now None) (files_in texts.new) }
{
    match texts.remove(name) {
        Some(text) => text.into_vec(),
        None => Vec::new(alloc),
    }
}

/// The texts in rising order of their names. No memory has room for 2^32 of them.
fn listed(alloc: Global, texts: Texts) -> Result<FileList, AllocError>
    ensures rising { IfOk result AreRising }
    ensures files { IfOk result (λ files. files ≡ texts.entries) }
    ensures few { IfOk result (λ files. length files < 2 ^ 32) }
{
    let mut files = List::new(alloc);
    for (name, text) in texts {
        files.push((name, text))?;
    }
    if files.items().len() >= FILES_END {
        return Err(AllocError);
    }
    Ok(files)
}
