//! The bytes of the map's files, as they are read.
ghost use Rattle.std.specs.Prelude.{◌≡◌, ◌+◌, ◌≤◌, length, map, take, drop, IfOk, Some};
ghost use Rattle.std.specs.BTreeMap.{keys};
ghost use Rattle.pt_host.specs.Disk.{shown};
ghost use Rattle.pt_host.specs.World.{OnlyLooks};
ghost use Rattle.pt_left.specs.Left.{whole_name, IsWhole};
ghost use Rattle.pt_store.specs.Entries.{AreInOrder, AreWithin, bytes_of, files_at};
ghost use Rattle.pt_store.specs.Stops.{IsCounted, IfBad};

use crate::Stop;
use crate::contents::Contents;
use crate::disk::read_range;
use crate::entry::Entry;
use pt_host::Host;
use pt_plain::List;
use std::alloc::Global;
use std::collections::BTreeMap;

/// The bytes of the file of this entry.
pub(crate) fn read_entry<H: Host>(
    alloc: Global,
    host: &mut H,
    entry: &Entry,
) -> Result<Vec<u8>, Stop>
    requires { H.tells → entry.now.place + entry.now.length ≤ length (bytes_of (shown (H.world host.old).now.fs whole_name)) }
    ensures bytes { IfOk result (λ v. H.tells → v.items ≡ take entry.now.length (drop entry.now.place (bytes_of (shown (H.world host.old).now.fs whole_name)))) }
    ensures looks { H.tells → OnlyLooks (H.world host.old) (H.world host.new) }
    ensures bad { IfBad result (λ name place. IsWhole name place × (H.tells → ⊥)) }
    ensures counts { IsCounted (H.counts host.old) (H.counts host.new) result }
{
    if entry.length == 0 {
        return Ok(Vec::new(alloc));
    }
    let bytes = read_range(alloc, host, entry.place, entry.length)?;
    Ok(bytes)
}

/// The files of these entries, with their bytes.
pub(crate) fn read_contents<H: Host>(
    alloc: Global,
    entries: &[Entry],
    host: &mut H,
) -> Result<Contents, Stop>
    requires order { AreInOrder entries.now }
    requires within { H.tells → AreWithin (bytes_of (shown (H.world host.old).now.fs whole_name)) entries.now }
    ensures names { IfOk result (λ contents. keys contents ≡ map (λ entry. entry.name) entries.now) }
    ensures files { IfOk result (λ contents. H.tells → contents.entries ≡ files_at (bytes_of (shown (H.world host.old).now.fs whole_name)) entries.now) }
    ensures looks { H.tells → OnlyLooks (H.world host.old) (H.world host.new) }
    ensures bad { IfBad result (λ name place. IsWhole name place × (H.tells → ⊥)) }
    ensures counts { IsCounted (H.counts host.old) (H.counts host.new) result }
{
    let mut contents = BTreeMap::new(alloc);
    for entry in entries {
        let bytes = read_entry(alloc, host, entry)?;
        contents.insert(entry.name, List::of(bytes))?;
    }
    Ok(contents)
}
