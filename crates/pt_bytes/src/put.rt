ghost use Rattle.std.specs.Prelude.{◌≡◌, ◌++◌, ◌∷◌, [], OnOk, OnErr};
ghost use Rattle.pt_bytes.specs.Numbers.{le_bytes};

use byteorder::{ByteOrder, LittleEndian};
use std::alloc::AllocError;

/// Appends a byte. Want of memory leaves `out` as it was.
pub fn put_u8(out: &mut Vec<u8>, v: u8) -> Result<(), AllocError>
    ensures ok { OnOk result (out.new.items ≡ out.old.items ++ v ∷ []) }
    ensures err { OnErr result (out.new.items ≡ out.old.items) }
{
    put_bytes(out, &[v])
}

/// Appends a number in two bytes. Want of memory leaves `out` as it was.
pub fn put_u16(out: &mut Vec<u8>, v: u16) -> Result<(), AllocError>
    ensures ok { OnOk result (out.new.items ≡ out.old.items ++ le_bytes 2 v) }
    ensures err { OnErr result (out.new.items ≡ out.old.items) }
{
    let mut bytes = [0u8; 2];
    LittleEndian::write_u16(&mut bytes, v);
    put_bytes(out, &bytes)
}

/// Appends a number in four bytes. Want of memory leaves `out` as it was.
pub fn put_u32(out: &mut Vec<u8>, v: u32) -> Result<(), AllocError>
    ensures ok { OnOk result (out.new.items ≡ out.old.items ++ le_bytes 4 v) }
    ensures err { OnErr result (out.new.items ≡ out.old.items) }
{
    let mut bytes = [0u8; 4];
    LittleEndian::write_u32(&mut bytes, v);
    put_bytes(out, &bytes)
}

/// Appends a number in eight bytes. Want of memory leaves `out` as it was.
pub fn put_u64(out: &mut Vec<u8>, v: u64) -> Result<(), AllocError>
    ensures ok { OnOk result (out.new.items ≡ out.old.items ++ le_bytes 8 v) }
    ensures err { OnErr result (out.new.items ≡ out.old.items) }
{
    let mut bytes = [0u8; 8];
    LittleEndian::write_u64(&mut bytes, v);
    put_bytes(out, &bytes)
}

/// Appends these bytes. Want of memory leaves `out` as it was.
pub fn put_bytes(out: &mut Vec<u8>, v: &[u8]) -> Result<(), AllocError>
    ensures ok { OnOk result (out.new.items ≡ out.old.items ++ v.now) }
    ensures err { OnErr result (out.new.items ≡ out.old.items) }
{
    out.extend_from_slice(v)
}
