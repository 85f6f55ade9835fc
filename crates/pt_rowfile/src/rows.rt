ghost use Rattle.std.specs.Prelude.{◌≡◌, ◌&&◌, not, Some, None, if◌then◌else◌, IfOk, IfErr, is_some};
ghost use Rattle.std.specs.BTreeMap.{get};
ghost use Rattle.std.specs.Ordering.{nat_cmp};
ghost use Rattle.pt_rowfile.specs.declared.record.Record.TheVariants.{Delete, Put};
ghost use Rattle.pt_rowfile.specs.Faults.{IsFaultOf};
ghost use Rattle.pt_rowfile.specs.Kept.{rows_in};
ghost use Rattle.pt_rowfile.specs.Rows.{SpellsRows, after, is_serial};

use crate::fault::RowFault;
use crate::record::Record;
use crate::source::Source;
use pt_ast::{Cells, Row, Rows};
use std::alloc::{AllocError, Global};
use std::collections::BTreeMap;

/// Every serial is below it.
const SERIALS_END: u64 = 1 << 62;

/// The rows that the records in these bytes leave, by rising serial. `Bad` exactly where a record isn't proper, with the place of
/// the first such.
pub fn rows_of(alloc: Global, bytes: &[u8]) -> Result<Rows, RowFault>
    ensures rows { IfOk result (SpellsRows bytes.now) }
    ensures fault { IfErr result (IsFaultOf bytes.now) }
{
    let mut rows: BTreeMap<u64, Cells> = BTreeMap::new(alloc);
    let mut source = Source::new(bytes);
    while source.len() > 0 {
        let place = (bytes.len() - source.len()) as u64;
        let Some(entry) = source.record(alloc)? else {
            return Err(RowFault::Bad { place });
        };
        if !apply(&mut rows, entry)? {
            return Err(RowFault::Bad { place });
        }
    }
    Ok(listed(alloc, rows)?)
}

/// Puts or deletes a row. `false` exactly where the record isn't proper.
fn apply(rows: &mut BTreeMap<u64, Cells>, entry: Record) -> Result<bool, AllocError>
    ensures { IfOk result (λ done. after entry (rows_in rows.old.entries) ≡ (if done then Some (rows_in rows.new.entries) else None)) }
{
    match entry {
        Record::Put(row) => put(rows, row),
        Record::Delete(serial) => Ok(delete(rows, serial)),
    }
}

fn put(rows: &mut BTreeMap<u64, Cells>, row: Row) -> Result<bool, AllocError>
    ensures { IfOk result (λ done. after (Put row) (rows_in rows.old.entries) ≡ (if done then Some (rows_in rows.new.entries) else None)) }
{
    if !may_put(rows, row.serial) {
        return Ok(false);
    }
    let Row { serial, cells } = row;
    rows.insert(serial, cells)?;
    Ok(true)
}

fn may_put(rows: &BTreeMap<u64, Cells>, serial: u64) -> bool
    ensures { result ≡ (is_serial serial && not (is_some (get nat_cmp rows.now serial))) }
{
    0 < serial && serial < SERIALS_END && !rows.contains_key(&serial)
}

fn delete(rows: &mut BTreeMap<u64, Cells>, serial: u64) -> bool
    ensures { after (Delete serial) (rows_in rows.old.entries) ≡ (if result then Some (rows_in rows.new.entries) else None) }
{
    rows.remove(&serial).is_some()
}

/// The rows, by rising serial.
fn listed(alloc: Global, rows: BTreeMap<u64, Cells>) -> Result<Rows, AllocError>
    ensures { IfOk result (λ list. list ≡ rows_in rows.entries) }
{
    let mut rest = rows;
    let mut list = Rows::new(alloc);
    while let Some((serial, cells)) = rest.pop_first() {
        list.push(Row { serial, cells })?;
    }
    Ok(list)
}
