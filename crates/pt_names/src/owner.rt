ghost use Rattle.std.specs.Prelude.{◌≡◌, ◌<◌, ◌==◌, ◌++◌, ℕ, List, Option, length, IfSome, IfNone};
ghost use Rattle.std.specs.List.{position};
ghost use Rattle.pt_value.specs.Ident.{IsIdent};
ghost use Rattle.pt_names.specs.Names.{IsDefOf, IsLeaf, IsOwner, IsRowsOf, IsSpot};

use crate::made::lowered;
use pt_host::Name;
use pt_value::Ident;

/// The file of the row journal.
const JOURNAL: [u8; 15] = *b"row_journal.log";

/// The file of the DDL log.
const LOG: [u8; 11] = *b"ddl_log.log";

/// The file of the next serial.
const SERIALS: [u8; 11] = *b"serials.cnt";

/// Whose file a name is. A partition's name is in lower case.
#[derive(Clone, Copy, Debug)]
pub enum Owner {
    /// The definition of a table.
    Def(Ident),
    /// The rows of a table, or of a partition or subpartition of it.
    Row(Ident, Option<Ident>),
    /// The row journal.
    Journal,
    /// The DDL log.
    Log,
    /// The next serial.
    Serials,
    /// None of these: the file is ignored.
    Other,
}

/// Whose file a name is. A row file's name whose partition has an upper-case letter is nobody's. It takes no memory.
pub fn owner_of(name: &Name) -> Owner
    ensures { IsOwner name.now result }
{
    if let Some(table) = defined_by(name) {
        return Owner::Def(table);
    }
    if let Some((table, leaf)) = rows_by(name) {
        return Owner::Row(table, leaf);
    }
    let bytes = name.bytes();
    if bytes == JOURNAL.as_slice() {
        return Owner::Journal;
    }
    if bytes == LOG.as_slice() {
        return Owner::Log;
    }
    if bytes == SERIALS.as_slice() {
        return Owner::Serials;
    }
    Owner::Other
}

/// The table whose definition has a file of this name.
fn defined_by(name: &Name) -> Option<Ident>
    ensures some { IfSome result (IsDefOf name.now) }
    ensures none { IfNone result ((table : List ℕ) → IsDefOf name.now table → ⊥) }
{
    ident_of(before(name.bytes(), b".def")?)
}

/// The table, and the partition if any, whose rows have a file of this name.
fn rows_by(name: &Name) -> Option<(Ident, Option<Ident>)>
    ensures some { IfSome result (λ spot. IsRowsOf name.now spot.0 spot.1) }
    ensures none { IfNone result ((table : List ℕ) (leaf : Option (List ℕ)) → IsRowsOf name.now table leaf → ⊥) }
{
    spot_of(before(name.bytes(), b".rows")?)
}

/// The table, and the partition if any, that these bytes name.
fn spot_of(bytes: &[u8]) -> Option<(Ident, Option<Ident>)>
    ensures some { IfSome result (λ spot. IsSpot bytes.now spot.0 spot.1) }
    ensures none { IfNone result ((table : List ℕ) (leaf : Option (List ℕ)) → IsSpot bytes.now table leaf → ⊥) }
{
    if let Some(table) = ident_of(bytes) {
        return Some((table, None));
    }
    let at = mark_of(bytes)?;
    let (table, rest) = bytes.split_at(at);
    let (_, leaf) = rest.split_at(1);
    let table = ident_of(table)?;
    let leaf = leaf_of(leaf)?;
    Some((table, Some(leaf)))
}

/// The place of the first `#`.
fn mark_of(bytes: &[u8]) -> Option<usize>
    ensures value { result ≡ position (λ b. b == 35) bytes.now }
    ensures within { IfSome result (λ at. at < length bytes.now) }
{
    bytes.iter().position(|b| *b == b'#')
}

/// The partition that these bytes name: in lower case.
fn leaf_of(bytes: &[u8]) -> Option<Ident>
    ensures some { IfSome result (λ leaf. (leaf ≡ bytes.now) × IsLeaf bytes.now) }
    ensures none { IfNone result (IsLeaf bytes.now → ⊥) }
{
    let leaf = ident_of(bytes)?;
    let small = lowered(&leaf);
    if &small[..bytes.len()] != bytes {
        return None;
    }
    Some(leaf)
}

/// The identifier of these bytes. `None` exactly where they are none.
fn ident_of(bytes: &[u8]) -> Option<Ident>
    ensures some { IfSome result (λ name. (name ≡ bytes.now) × IsIdent bytes.now) }
    ensures none { IfNone result (IsIdent bytes.now → ⊥) }
{
    Ident::of(bytes).ok()
}

/// What comes before these bytes. `None` exactly where the others don't end with them.
fn before<'a>(bytes: &'a [u8], end: &[u8]) -> Option<&'a [u8]>
    ensures some { IfSome result (λ front. bytes.now ≡ front.now ++ end.now) }
    ensures none { IfNone result ((front : List ℕ) → bytes.now ≡ front ++ end.now → ⊥) }
{
    bytes.strip_suffix(end)
}
