ghost use Rattle.std.specs.Prelude.{◌≡◌};
ghost use Rattle.pt_place.specs.Checks.{key_arg, lacking_key};
ghost use Rattle.pt_place.specs.First.{first_in};
ghost use Rattle.pt_place.specs.Lacking.{has_used, lacks_primary, lacks_unique, lacks_used};

use crate::fitting::{is_primary, is_unique};
use crate::used::uses;
use pt_ast::{Arg, KeyDef, Refusal, TableDef};

/// A unique key without a column that the partitioning or the subpartitioning uses, the primary key first.
pub fn lacking_key(def: &TableDef) -> Option<Refusal>
    ensures { result ≡ lacking_key def.now.columns def.now.keys def.now.by def.now.sub }
{
    let keys = def.keys.items();
    if let Some(refusal) = lacking_primary(def, keys) {
        return Some(refusal);
    }
    lacking_unique(def, keys)
}

fn lacking_primary(def: &TableDef, keys: &[KeyDef]) -> Option<Refusal>
    ensures { result ≡ first_in (lacks_primary def.now) keys.now }
{
    for key in keys {
        if let Some(refusal) = lacks_primary(def, key) {
            return Some(refusal);
        }
    }
    None
}

fn lacks_primary(def: &TableDef, key: &KeyDef) -> Option<Refusal>
    ensures { result ≡ lacks_primary def.now key.now }
{
    if is_primary(key.rank) {
        return lacks_used(def, key);
    }
    None
}

fn lacking_unique(def: &TableDef, keys: &[KeyDef]) -> Option<Refusal>
    ensures { result ≡ first_in (lacks_unique def.now) keys.now }
{
    for key in keys {
        if let Some(refusal) = lacks_unique(def, key) {
            return Some(refusal);
        }
    }
    None
}

fn lacks_unique(def: &TableDef, key: &KeyDef) -> Option<Refusal>
    ensures { result ≡ lacks_unique def.now key.now }
{
    if is_unique(key.rank) {
        return lacks_used(def, key);
    }
    None
}

/// A key that lacks a column.
fn lacks_used(def: &TableDef, key: &KeyDef) -> Option<Refusal>
    ensures { result ≡ lacks_used def.now key.now }
{
    if has_used(def, key) {
        return None;
    }
    Some(Refusal::KeyNeedsColumns(key_arg(key)))
}

fn has_used(def: &TableDef, key: &KeyDef) -> bool
    ensures { result ≡ has_used def.now key.now }
{
    uses(key, &def.columns, &def.by) && uses(key, &def.columns, &def.sub)
}

fn key_arg(key: &KeyDef) -> Arg
    ensures { result ≡ key_arg key.now }
{
    if is_primary(key.rank) {
        Arg::Primary
    } else {
        Arg::Name(key.name)
    }
}
