//! The files of the next map, made in memory of those that are there. Nothing of the disk changes.
ghost use Rattle.std.specs.Prelude.{◌≡◌, ◌≤◌, length, map, IfOk, All};
ghost use Rattle.pt_host.specs.Disk.{shown};
ghost use Rattle.pt_host.specs.Listed.{AreRising};
ghost use Rattle.pt_host.specs.World.{OnlyLooks};
ghost use Rattle.pt_left.specs.Left.{whole_name, IsWhole};
ghost use Rattle.pt_store.specs.Batch.{appended};
ghost use Rattle.pt_store.specs.Reshape.{HasNames, IsReshaped};
ghost use Rattle.pt_store.specs.Entries.{AreInOrder, AreWithin, bytes_of, files_at, size_of};
ghost use Rattle.pt_store.specs.Stops.{IsCounted, IfBad};

use crate::Stop;
use crate::contents::{add_batch, do_acts, lasting, listed, put_shadows};
use crate::entry::Entry;
use crate::fetch::read_contents;
use pt_ddl_log::Chain;
use pt_host::{FileList, Host, Name};
use pt_plain::List;
use std::alloc::Global;

/// The files of these entries with what a batch adds to them.
pub(crate) fn appended<H: Host>(
    alloc: Global,
    entries: &[Entry],
    host: &mut H,
    batch: &[(Name, List<u8>)],
) -> Result<FileList, Stop>
    requires order { AreInOrder entries.now }
    requires within { H.tells → AreWithin (bytes_of (shown (H.world host.old).now.fs whole_name)) entries.now }
    ensures rising { IfOk result AreRising }
    ensures names { IfOk result (λ files. map (λ file. file.0) files ≡ map (λ entry. entry.name) entries.now) }
    ensures files { IfOk result (λ files. H.tells → files ≡ appended batch.now (files_at (bytes_of (shown (H.world host.old).now.fs whole_name)) entries.now)) }
    ensures looks { H.tells → OnlyLooks (H.world host.old) (H.world host.new) }
    ensures bad { IfBad result (λ name place. IsWhole name place × (H.tells → ⊥)) }
    ensures counts { IsCounted (H.counts host.old) (H.counts host.new) result }
{
    let mut contents = read_contents(alloc, entries, host)?;
    add_batch(&mut contents, batch)?;
    let files = listed(alloc, contents)?;
    Ok(files)
}

/// What the acts of a chain make of the files of these entries, with the fresh bytes under their shadows.
pub(crate) fn reshaped<H: Host>(
    alloc: Global,
    entries: &[Entry],
    host: &mut H,
    fresh: &[(Name, List<u8>)],
    chain: &Chain,
) -> Result<FileList, Stop>
    requires order { AreInOrder entries.now }
    requires short { All (λ file. length file.0 ≤ 154) fresh.now }
    requires within { H.tells → AreWithin (bytes_of (shown (H.world host.old).now.fs whole_name)) entries.now }
    ensures names { IfOk result (HasNames (map size_of entries.now) fresh.now chain.now) }
    ensures files { IfOk result (λ files. H.tells → IsReshaped fresh.now chain.now (files_at (bytes_of (shown (H.world host.old).now.fs whole_name)) entries.now) files) }
    ensures looks { H.tells → OnlyLooks (H.world host.old) (H.world host.new) }
    ensures bad { IfBad result (λ name place. IsWhole name place × (H.tells → ⊥)) }
    ensures counts { IsCounted (H.counts host.old) (H.counts host.new) result }
{
    let mut contents = read_contents(alloc, entries, host)?;
    put_shadows(alloc, &mut contents, fresh)?;
    do_acts(&mut contents, chain.acts.items())?;
    let files = lasting(alloc, contents)?;
    Ok(files)
}
