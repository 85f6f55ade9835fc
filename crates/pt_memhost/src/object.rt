ghost use Rattle.std.specs.Prelude.{◌≡◌, ◌+◌, ◌<◌, ◌≤◌, [], length, cond, IfOk, MatchResult};
ghost use Rattle.std.specs.List.{list_any};
ghost use Rattle.pt_host.specs.Disk.{empty_object, overwrite, torn, synced};
ghost use Rattle.pt_memhost.specs.Names.{is_in, ranges_of};
ghost use Rattle.pt_memhost.specs.Pick.{filled, loose_byte, left_by};

use crate::room::add_last;
use pt_plain::List;
use std::alloc::{AllocError, Global};
use std::marker::Model;

/// A file of the disk in memory: its bytes, what its length was at the last sync, and the ranges written since then, as a
/// place and a count, the newest last.
#[derive(Drop)]
pub(crate) struct FileObject {
    bytes: Vec<u8>,
    least: usize,
    loose: Vec<(u64, u64)>,
}

impl Model for FileObject {
    ghost use Rattle.pt_host.specs.Disk.{Object};
    ghost use Rattle.pt_memhost.specs.Names.{is_in, ranges_of};

    ghost Value = { Object };

    ghost view = { λ o. record { bytes = o.bytes.items; least = o.least; loose = ranges_of o.loose.items } };
}

impl FileObject {
    /// An empty file. It takes no memory.
    pub(crate) fn empty(alloc: Global) -> FileObject
        ensures { result ≡ empty_object }
    {
        FileObject {
            bytes: Vec::new(alloc),
            least: 0,
            loose: Vec::new(alloc),
        }
    }

    /// A file with a copy of these bytes, all of them sure.
    pub(crate) fn sure(alloc: Global, bytes: &[u8]) -> Result<FileObject, AllocError>
        ensures { IfOk result (λ object. object ≡ record { bytes = bytes.now; least = length bytes.now; loose = [] }) }
    {
        Ok(FileObject {
            bytes: Vec::from_slice(alloc, bytes)?,
            least: bytes.len(),
            loose: Vec::new(alloc),
        })
    }

    pub(crate) fn bytes(&self) -> &[u8]
        ensures { result.now ≡ self.now.bytes }
    {
        &self.bytes
    }

    /// Writes bytes over those from place `at` on, and leaves `count` bytes from there loose. Want of memory leaves all as
    /// it was.
    pub(crate) fn put(&mut self, at: u64, count: u64, bytes: &[u8]) -> Result<(), AllocError>
        ensures kept { MatchResult result (λ _. self.new ≡ torn at count (overwrite at bytes.now self.old.bytes) self.old) (λ _. self.new ≡ self.old) }
    {
        self.loose.reserve(1)?;
        overwrite(&mut self.bytes, at as usize, bytes)?;
        add_last(&mut self.loose, (at, count));
        Ok(())
    }

    /// What a stop leaves of it: as many bytes as it surely has where `rest` is even, and all where it is odd, with the loose
    /// ones filled as `rest / 2 % 4` says.
    pub(crate) fn left(&self, alloc: Global, rest: u64) -> Result<List<u8>, AllocError>
        ensures { IfOk result (λ bytes. bytes ≡ left_by rest self.now) }
    {
        let most = self.bytes.len();
        let length = if rest % 2 == 0 {
            self.least.min(most)
        } else {
            most
        };
        filled(alloc, &self.bytes[..length], &self.loose, rest / 2 % 4)
    }

    /// Makes the present bytes and the present length sure. It takes no memory.
    pub(crate) fn sync(&mut self)
        ensures { self.new ≡ synced self.old }
    {
        self.least = self.bytes.len();
        self.loose.clear();
    }
}

/// Writes bytes over those from place `at` on, or at the end where there are fewer. Want of memory leaves all as it was.
fn overwrite(file: &mut Vec<u8>, at: usize, bytes: &[u8]) -> Result<(), AllocError>
    ensures kept { MatchResult result (λ _. file.new.items ≡ overwrite at bytes.now file.old.items) (λ _. file.new.items ≡ file.old.items) }
{
    let from = at.min(file.len());
    let inside = bytes.len().min(file.len() - from);
    let (over, past) = bytes.split_at(inside);
    file.extend_from_slice(past)?;
    file[from..from + inside].copy_from_slice(over);
    Ok(())
}

/// These bytes, with the loose ones filled.
fn filled(
    alloc: Global,
    bytes: &[u8],
    loose: &[(u64, u64)],
    fill: u64,
) -> Result<List<u8>, AllocError>
    ensures { IfOk result (λ left. left ≡ filled fill (ranges_of loose.now) 0 bytes.now) }
{
    let mut left = List::new(alloc);
    for (place, byte) in bytes.iter().enumerate() {
        left.push(byte_left(loose, place as u64, fill, *byte))?;
    }
    Ok(left)
}

fn byte_left(loose: &[(u64, u64)], place: u64, fill: u64, byte: u8) -> u8
    ensures { result ≡ cond (list_any (is_in place) loose.now) (loose_byte fill byte) byte }
{
    if !is_in_any(loose, place) {
        return byte;
    }
    match fill {
        0 => byte,
        1 => 0,
        2 => 1,
        _ => 255,
    }
}

fn is_in_any(ranges: &[(u64, u64)], place: u64) -> bool
    ensures { result ≡ list_any (is_in place) ranges.now }
{
    ranges.iter().any(|range| is_in(place, *range))
}

fn is_in(place: u64, range: (u64, u64)) -> bool
    ensures { result ≡ is_in place range }
{
    range.0 <= place && place - range.0 < range.1
}
