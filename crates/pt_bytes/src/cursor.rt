ghost use Rattle.std.specs.Prelude.{◌≡◌, slice_get};
ghost use Rattle.std.specs.Option.{option_map};
ghost use Rattle.pt_bytes.specs.Numbers.{number_of, part_at};

use byteorder::{ByteOrder, LittleEndian};
use std::marker::Model;

/// Bytes that are read by place. Places count from 0, in bytes. Contracts see the bytes.
#[derive(Drop)]
pub struct Cursor<'a> {
    bytes: &'a [u8],
}

impl<'a> Model for Cursor<'a> {
    ghost use Rattle.std.specs.Prelude.{List as Listed, ℕ};

    ghost Value = { Listed ℕ };

    ghost view = { λ cursor. cursor.bytes.now };
}

impl<'a> Cursor<'a> {
    /// Reads these bytes. It takes no memory.
    pub fn new(bytes: &'a [u8]) -> Cursor<'a>
        ensures { result ≡ bytes.now }
    {
        Cursor { bytes }
    }

    /// The `len` bytes from `at` on. `None` exactly where fewer are left. It takes no memory.
    pub fn slice_at(&self, at: usize, len: usize) -> Option<&'a [u8]>
        ensures { option_map (λ part. part.now) result ≡ part_at self.now at len }
    {
        part_at(self.bytes, at, len)
    }

    /// The byte at a place. `None` exactly where there is none. It takes no memory.
    pub fn u8_at(&self, at: usize) -> Option<u8>
        ensures { result ≡ slice_get self.now at }
    {
        self.bytes.get(at).copied()
    }

    /// The number of the two bytes from a place on. `None` exactly where fewer are left. It takes no memory.
    pub fn u16_at(&self, at: usize) -> Option<u16>
        ensures { result ≡ option_map number_of (part_at self.now at 2) }
    {
        let part = self.slice_at(at, 2)?;
        Some(LittleEndian::read_u16(part))
    }

    /// The number of the four bytes from a place on. `None` exactly where fewer are left. It takes no memory.
    pub fn u32_at(&self, at: usize) -> Option<u32>
        ensures { result ≡ option_map number_of (part_at self.now at 4) }
    {
        let part = self.slice_at(at, 4)?;
        Some(LittleEndian::read_u32(part))
    }

    /// The number of the eight bytes from a place on. `None` exactly where fewer are left. It takes no memory.
    pub fn u64_at(&self, at: usize) -> Option<u64>
        ensures { result ≡ option_map number_of (part_at self.now at 8) }
    {
        let part = self.slice_at(at, 8)?;
        Some(LittleEndian::read_u64(part))
    }
}

/// The `len` bytes from `at` on. `None` exactly where fewer are left.
fn part_at(bytes: &[u8], at: usize, len: usize) -> Option<&[u8]>
    ensures { option_map (λ part. part.now) result ≡ part_at bytes.now at len }
{
    let (_, rest) = bytes.split_at_checked(at)?;
    let (part, _) = rest.split_at_checked(len)?;
    Some(part)
}
