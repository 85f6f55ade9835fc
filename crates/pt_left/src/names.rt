//! The names that have a meaning of their own.
ghost use Rattle.std.specs.Prelude.{◌≡◌};
ghost use Rattle.pt_left.specs.Left.{whole_name, shadow_name, serials_name};

use pt_host::Name;

/// `whole.map`: the file that the map stands in. It takes no memory.
pub fn whole() -> Name
    ensures { result ≡ whole_name }
{
    Name::of(b"whole.map").unwrap()
}

/// `whole.map.new`: the shadow by which it is replaced. It takes no memory.
pub fn shadow() -> Name
    ensures { result ≡ shadow_name }
{
    whole().shadow()
}

/// `serials.cnt`: the file that each map has. It takes no memory.
pub fn serials() -> Name
    ensures { result ≡ serials_name }
{
    Name::of(b"serials.cnt").unwrap()
}
