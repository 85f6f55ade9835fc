//! The file that each map has.
ghost use Rattle.std.specs.Prelude.{◌≡◌, ℕ, List as Listed, map, OnOk, IsSome};
ghost use Rattle.pt_host.specs.Listed.{FileList};
ghost use Rattle.pt_store.specs.Entries.{AreEntries, AreInOrder, length_in, size_of};
ghost use Rattle.pt_left.specs.Left.{serials_name, with_serials};

use crate::entry::Entry;
use pt_plain::List;
use std::alloc::AllocError;
use std::cmp::Ordering;

/// Adds an entry for an empty `serials.cnt` in its place, where there is none.
pub(crate) fn add_serials(entries: &mut List<Entry>) -> Result<(), AllocError>
    requires { AreInOrder entries.old }
    ensures order { OnOk result (AreInOrder entries.new) }
    ensures has { OnOk result (IsSome (length_in (map size_of entries.new) serials_name)) }
    ensures files { OnOk result ((bytes : Listed ℕ) (files : FileList) → AreEntries bytes entries.old files → AreEntries bytes entries.new (with_serials files)) }
{
    let name = pt_left::serials();
    for (i, entry) in entries.items().iter().enumerate() {
        match entry.name.cmp(&name) {
            Ordering::Less => {}
            Ordering::Equal => return Ok(()),
            Ordering::Greater => {
                entries.insert(i, empty(name))?;
                return Ok(());
            }
        }
    }
    entries.push(empty(name))?;
    Ok(())
}

/// The entry of an empty file, whose no bytes stand anywhere.
fn empty(name: pt_host::Name) -> Entry
    ensures { result ≡ record { name = name; place = 0; length = 0 } }
{
    Entry {
        name,
        place: 0,
        length: 0,
    }
}
