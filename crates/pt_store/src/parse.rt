//! Reading the spelling of a map.
ghost use Rattle.std.specs.Prelude.{◌≡◌, ◌<◌, ◌^◌, ◌↔◌, length, map, IfOk, IsTrue};
ghost use Rattle.std.specs.Option.{option_map};
ghost use Rattle.std.specs.Cmp.Lexicographic.{slice_cmp};
ghost use Rattle.std.specs.Ordering.{nat_cmp};
ghost use Rattle.std.specs.List.Sorted.{IsStrictlySortedBy};
ghost use Rattle.pt_host.specs.Name.{IsName};
ghost use Rattle.pt_left.specs.Spelling.{number, spelled_name, spelled_bytes, spelled_file, IsFile, SpellsFiles, Spells};
ghost use Rattle.pt_store.specs.Entries.{Begins, Parses};

use crate::entry::Entry;
use pt_bytes::Cursor;
use pt_host::Name;
use pt_plain::List;
use std::alloc::{AllocError, Global};

/// The entries of the map that these bytes spell, or `None` exactly where they spell none.
pub(crate) fn parse(alloc: Global, bytes: &[u8]) -> Result<Option<List<Entry>>, AllocError>
    ensures { IfOk result (Parses Spells bytes.now) }
{
    let Some(entries) = files_of(alloc, bytes)? else {
        return Ok(None);
    };
    if !are_rising(entries.items()) {
        return Ok(None);
    }
    Ok(Some(entries))
}

fn are_rising(entries: &[Entry]) -> bool
    ensures { IsTrue result ↔ IsStrictlySortedBy (slice_cmp nat_cmp) (map (λ e. e.name) entries.now) }
{
    entries.is_sorted_by(|a, b| a.name < b.name)
}

/// The entries of the files that these bytes spell, in any order of names.
fn files_of(alloc: Global, bytes: &[u8]) -> Result<Option<List<Entry>>, AllocError>
    ensures { IfOk result (Parses SpellsFiles bytes.now) }
{
    let Some((count, mut rest)) = number_at(bytes) else {
        return Ok(None);
    };
    let mut entries = List::new(alloc);
    for _ in 0..count {
        let Some(front) = file_at(rest) else {
            return Ok(None);
        };
        entries.push(Entry {
            name: front.name,
            place: (bytes.len() - front.after.len() - front.content.len()) as u64,
            length: front.content.len() as u64,
        })?;
        rest = front.after;
    }
    if !rest.is_empty() {
        return Ok(None);
    }
    Ok(Some(entries))
}

/// A file at the front of bytes: its name, its bytes, and all bytes after it.
#[derive(Clone, Copy)]
struct Front<'a> {
    name: Name,
    content: &'a [u8],
    after: &'a [u8],
}

/// The file at the front.
fn file_at(bytes: &[u8]) -> Option<Front<'_>>
    ensures { Begins spelled_file IsFile bytes.now (option_map (λ r. ((r.name, r.content.now), r.after.now)) result) }
{
    let (name, rest) = name_at(bytes)?;
    let (content, after) = bytes_at(rest)?;
    let name = Name::of(name)?;
    Some(Front {
        name,
        content,
        after,
    })
}

/// The bytes at the front, behind their length in one byte.
fn name_at(bytes: &[u8]) -> Option<(&[u8], &[u8])>
    ensures { Begins spelled_name (λ b. length b < 256) bytes.now (option_map (λ r. (r.0.now, r.1.now)) result) }
{
    let (length, rest) = bytes.split_first()?;
    let (name, after) = rest.split_at_checked(*length as usize)?;
    Some((name, after))
}

/// The bytes at the front, behind their length in eight.
fn bytes_at(bytes: &[u8]) -> Option<(&[u8], &[u8])>
    ensures { Begins spelled_bytes (λ b. length b < 2 ^ 64) bytes.now (option_map (λ r. (r.0.now, r.1.now)) result) }
{
    let (length, rest) = number_at(bytes)?;
    let (content, after) = rest.split_at_checked(length as usize)?;
    Some((content, after))
}

/// The number at the front, of eight bytes.
fn number_at(bytes: &[u8]) -> Option<(u64, &[u8])>
    ensures { Begins number (λ n. n < 2 ^ 64) bytes.now (option_map (λ r. (r.0, r.1.now)) result) }
{
    let (front, rest) = bytes.split_at_checked(8)?;
    let number = Cursor::new(front).u64_at(0)?;
    Some((number, rest))
}
