//! The file that the map stands in, as it is read, and a shadow of it that was left.
ghost use Rattle.std.specs.Prelude.{◌≡◌, ◌+◌, ◌≤◌, [], length, take, drop, IfOk, OnOk, IsSome, IsSomeAnd, None};
ghost use Rattle.std.specs.Option.{option_map};
ghost use Rattle.pt_host.specs.Disk.{shown};
ghost use Rattle.pt_host.specs.World.{IsQuiet, OnlyLooks};
ghost use Rattle.pt_host.specs.Counts.{DiskCall};
ghost use Rattle.pt_host.specs.Images.{IsHeld};
ghost use Rattle.pt_host.specs.Replacement.{AsBeforeBut, IsBeforeOrAfter, IsClear, IsReady};
ghost use Rattle.pt_left.specs.Left.{whole_name, shadow_name, IsWhole};
ghost use Rattle.pt_store.specs.Entries.{AreInOrder, HasEntries, IsMeaningless};
ghost use Rattle.pt_store.specs.Stops.{IsCounted, IfBad};

use crate::Stop;
use crate::entry::Entry;
use crate::parse::parse;
use pt_host::{Host, HostFail};
use pt_plain::List;
use std::alloc::Global;

/// Removes a shadow that was left, if there is one.
pub(crate) fn clear_shadow<H: Host>(host: &mut H) -> Result<(), HostFail>
    requires entered { H.tells → IsSome (H.world host.old).dir }
    requires settled { H.tells → (H.world host.old).now.fs.pending ≡ [] }
    ensures clear { OnOk result (H.tells → IsClear (H.world host.new).now.fs shadow_name) }
    ensures quiet { H.tells → IsQuiet (H.world host.old) (H.world host.new) (AsBeforeBut (H.world host.old).now.fs shadow_name) }
    ensures idle { H.tells → shown (H.world host.old).now.fs shadow_name ≡ None → H.world host.new ≡ H.world host.old }
    ensures counts { DiskCall (H.counts host.old) (H.counts host.new) result }
{
    let shadow = pt_left::shadow();
    if host.length(&shadow)?.is_some() {
        host.unlink(&shadow)?;
        host.sync_names()?;
    }
    Ok(())
}

/// An entry for each file of the map that `whole.map` spells.
pub(crate) fn read_entries<H: Host>(alloc: Global, host: &mut H) -> Result<List<Entry>, Stop>
    requires { H.tells → IsSome (H.world host.old).dir }
    ensures order { IfOk result AreInOrder }
    ensures found { IfOk result (λ entries. H.tells → HasEntries (shown (H.world host.old).now.fs whole_name) entries) }
    ensures looks { H.tells → OnlyLooks (H.world host.old) (H.world host.new) }
    ensures bad { IfBad result (λ name place. IsWhole name place × (H.tells → IsMeaningless (shown (H.world host.old).now.fs whole_name))) }
    ensures counts { IsCounted (H.counts host.old) (H.counts host.new) result }
{
    let Some(bytes) = read_whole(alloc, host)? else {
        return Ok(List::new(alloc));
    };
    let Some(entries) = parse(alloc, bytes.as_slice())? else {
        return Err(Stop::Bad {
            name: pt_left::whole(),
            place: 0,
        });
    };
    Ok(entries)
}

/// The bytes of `whole.map`, or `None` exactly where there is no such file.
fn read_whole<H: Host>(alloc: Global, host: &mut H) -> Result<Option<Vec<u8>>, Stop>
    requires { H.tells → IsSome (H.world host.old).dir }
    ensures bytes { IfOk result (λ found. H.tells → shown (H.world host.old).now.fs whole_name ≡ option_map (λ v. v.items) found) }
    ensures looks { H.tells → OnlyLooks (H.world host.old) (H.world host.new) }
    ensures bad { IfBad result (λ name place. IsWhole name place × (H.tells → ⊥)) }
    ensures counts { IsCounted (H.counts host.old) (H.counts host.new) result }
{
    let Some(length) = host.length(&pt_left::whole())? else {
        return Ok(None);
    };
    let bytes = read_range(alloc, host, 0, length)?;
    Ok(Some(bytes))
}

/// So many bytes of `whole.map`, from this place on.
pub(crate) fn read_range<H: Host>(
    alloc: Global,
    host: &mut H,
    place: u64,
    count: u64,
) -> Result<Vec<u8>, Stop>
    requires { H.tells → IsSomeAnd (shown (H.world host.old).now.fs whole_name) (λ file. place + count ≤ length file) }
    ensures bytes { IfOk result (λ v. H.tells → IsSomeAnd (shown (H.world host.old).now.fs whole_name) (λ file. v.items ≡ take count (drop place file))) }
    ensures looks { H.tells → OnlyLooks (H.world host.old) (H.world host.new) }
    ensures bad { IfBad result (λ name place. IsWhole name place × (H.tells → ⊥)) }
    ensures counts { IsCounted (H.counts host.old) (H.counts host.new) result }
{
    let whole = pt_left::whole();
    let mut bytes = Vec::from_elem(alloc, 0u8, count as usize)?;
    let read = host.read_at(&whole, place, &mut bytes)?;
    if read < bytes.len() {
        return Err(Stop::Bad {
            name: whole,
            place: 0,
        });
    }
    Ok(bytes)
}
