ghost use Rattle.std.specs.Prelude.{◌≡◌};
ghost use Rattle.pt_value.specs.Ident.{IsIdent};
ghost use Rattle.pt_gen.specs.Script.{gen, id, v};

use pt_value::Ident;

/// The name of these bytes. It takes no memory.
fn named(bytes: &[u8]) -> Ident
    requires { IsIdent bytes.now }
    ensures { result ≡ bytes.now }
{
    Ident::of(bytes).unwrap()
}

/// The table. It takes no memory.
pub(crate) fn gen_table() -> Ident
    ensures { result ≡ gen }
{
    named(b"gen")
}

/// Its first column, which is its key. It takes no memory.
pub(crate) fn id_column() -> Ident
    ensures { result ≡ id }
{
    named(b"id")
}

/// Its second column. It takes no memory.
pub(crate) fn v_column() -> Ident
    ensures { result ≡ v }
{
    named(b"v")
}
