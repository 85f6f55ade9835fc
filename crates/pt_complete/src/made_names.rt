ghost use Rattle.std.specs.Prelude.{◌≡◌, ◌<◌, ◌++◌, codes, decimal, IfOk};
ghost use Rattle.pt_value.specs.Ident.{IsIdent};

use itoa::Buffer;
use pt_value::Ident;
use std::alloc::{AllocError, Global};

/// The identifier of these bytes.
pub(crate) fn ident_of(bytes: &[u8]) -> Ident
    requires { IsIdent bytes.now }
    ensures { result ≡ bytes.now }
{
    Ident::of(bytes).unwrap()
}

/// The name of a primary key.
pub(crate) fn primary() -> Ident
    ensures { result ≡ codes "PRIMARY" }
{
    ident_of(b"PRIMARY")
}

/// The name of a partition that has none: `p` and its number.
pub fn part_name(alloc: Global, number: u32) -> Result<Ident, AllocError>
    requires { number < 8192 }
    ensures { IfOk result (λ name. name ≡ codes "p" ++ decimal number) }
{
    let mut bytes = Vec::from_slice(alloc, b"p")?;
    bytes.extend_from_slice(Buffer::new().format(number).as_bytes())?;
    Ok(ident_of(bytes.as_slice()))
}
