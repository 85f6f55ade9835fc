ghost use Rattle.std.specs.Prelude.{◌≡◌, length, map, slice_get};
ghost use Rattle.std.specs.List.{find};
ghost use Rattle.std.specs.Option.{option_copied, option_map};
ghost use Rattle.std.specs.List.Sorted.{IsBinarySearchResult, IsSearchInRange};
ghost use Rattle.std.specs.Cmp.Lexicographic.{slice_cmp};
ghost use Rattle.std.specs.Ordering.{nat_cmp};
ghost use Rattle.std.specs.Str.{bytes_eq};
ghost use Rattle.pt_store.specs.Entries.{AreInOrder, size_of, length_in};

use pt_host::Name;

/// A file of the map: how many bytes it has, and the place of the first one in `whole.map`. Both in bytes.
#[derive(Clone, Copy, Debug)]
pub(crate) struct Entry {
    pub(crate) name: Name,
    pub(crate) place: u64,
    pub(crate) length: u64,
}

/// The entry of this name, sought by halves.
pub(crate) fn entry_of<'a>(entries: &'a [Entry], name: &Name) -> Option<&'a Entry>
    requires { AreInOrder entries.now }
    ensures { option_copied result ≡ find (λ entry. bytes_eq entry.name name.now) entries.now }
{
    match place_of(entries, name) {
        Ok(place) => Some(&entries[place]),
        Err(_) => None,
    }
}

/// Where the entry of this name stands, or would stand.
fn place_of(entries: &[Entry], name: &Name) -> Result<usize, usize>
    ensures bound { IsSearchInRange result (length entries.now) }
    ensures place { IsBinarySearchResult (λ entry. slice_cmp nat_cmp entry.name name.now) entries.now result }
{
    entries.binary_search_by_key(name, |entry| entry.name)
}

/// The length of the file of this name.
pub(crate) fn length_of(entries: &[Entry], name: &Name) -> Option<u64>
    requires { AreInOrder entries.now }
    ensures { result ≡ length_in (map size_of entries.now) name.now }
{
    let entry = entry_of(entries, name)?;
    Some(entry.length)
}

/// The i-th name.
pub(crate) fn name_of(entries: &[Entry], i: usize) -> Option<Name>
    ensures { result ≡ option_map (λ size. size.0) (slice_get (map size_of entries.now) i) }
{
    entries.get(i).map(|entry| entry.name)
}
