//! Writing the spelling of a map.
ghost use Rattle.std.specs.Prelude.{◌≡◌, ◌++◌, All, IfOk, OnOk};
ghost use Rattle.pt_host.specs.Name.{IsName};
ghost use Rattle.pt_left.specs.Spelling.{spelled_file, IsFile, SpellsFiles};
ghost use Rattle.pt_store.specs.Entries.{AreEntries};

use crate::entry::Entry;
use pt_bytes::{put_bytes, put_u8, put_u64};
use pt_host::Name;
use pt_plain::List;
use std::alloc::{AllocError, Global};

/// The spelling of the map, and an entry for each of its files.
pub(crate) fn spell(
    alloc: Global,
    files: &[(Name, List<u8>)],
) -> Result<(Vec<u8>, List<Entry>), AllocError>
    ensures spelled { IfOk result (λ r. SpellsFiles r.0.items files.now) }
    ensures entries { IfOk result (λ r. AreEntries r.0.items r.1 files.now) }
{
    let mut out = Vec::new(alloc);
    let mut entries = List::new(alloc);
    put_u64(&mut out, files.len() as u64)?;
    for (name, bytes) in files {
        let bytes = bytes.items();
        put_file(&mut out, name, bytes)?;
        entries.push(Entry {
            name: *name,
            place: (out.len() - bytes.len()) as u64,
            length: bytes.len() as u64,
        })?;
    }
    Ok((out, entries))
}

fn put_file(out: &mut Vec<u8>, name: &Name, bytes: &[u8]) -> Result<(), AllocError>
    ensures spelled { OnOk result (out.new.items ≡ out.old.items ++ spelled_file (name.now, bytes.now)) }
    ensures is { IsFile (name.now, bytes.now) }
{
    let name = name.bytes();
    put_u8(out, name.len() as u8)?;
    put_bytes(out, name)?;
    put_u64(out, bytes.len() as u64)?;
    put_bytes(out, bytes)?;
    Ok(())
}
