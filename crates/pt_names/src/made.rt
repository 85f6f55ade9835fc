ghost use Rattle.std.specs.Prelude.{◌≡◌, ◌≤◌, ◌+◌, ◌++◌, Some, length, codes};
ghost use Rattle.std.specs.Option.{option_copied};
ghost use Rattle.pt_plain.specs.Padded.{padded_to};
ghost use Rattle.pt_host.specs.Name.{IsName};
ghost use Rattle.pt_names.specs.Names.{def_name, lowered, row_name};

use pt_host::Name;
use pt_plain::{joined, padded};
use pt_value::Ident;

/// The name of the file of a table's definition. It takes no memory.
pub fn def_name(table: &Ident) -> Name
    ensures { result ≡ def_name table.now }
{
    named(table.bytes(), b".def")
}

/// The name of the file of the rows of a table, or of a partition or subpartition of it. It takes no memory.
pub fn row_name(table: &Ident, leaf: Option<&Ident>) -> Name
    ensures { result ≡ row_name table.now (option_copied leaf.entry) }
{
    match leaf {
        None => named(table.bytes(), b".rows"),
        Some(leaf) => leaf_name(table, leaf),
    }
}

/// The name of the file of a partition's rows.
fn leaf_name(table: &Ident, leaf: &Ident) -> Name
    ensures { result ≡ row_name table.now (Some leaf.now) }
{
    let table = table.bytes();
    let marked: [u8; 65] = joined(table, b"#");
    let small = lowered(leaf);
    let both: [u8; 129] = joined(&marked[..table.len() + 1], &small[..leaf.bytes().len()]);
    named(&both[..table.len() + 1 + leaf.bytes().len()], b".rows")
}

/// The name of these bytes, the front first.
fn named(front: &[u8], end: &[u8]) -> Name
    requires room { length front.now + length end.now ≤ 134 }
    requires name { IsName (front.now ++ end.now) }
    ensures { result ≡ front.now ++ end.now }
{
    let bytes: [u8; 134] = joined(front, end);
    let Some(name) = Name::of(&bytes[..front.len() + end.len()]) else {
        unreachable!();
    };
    name
}

/// The bytes in lower case, with zeros after them.
pub(crate) fn lowered(name: &Ident) -> [u8; 64]
    ensures { result ≡ padded_to 64 (lowered name.now) }
{
    let mut small: [u8; 64] = padded(name.bytes());
    small.make_ascii_lowercase();
    small
}
