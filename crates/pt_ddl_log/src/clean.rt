ghost use Rattle.std.specs.Prelude.{◌≡◌, ◌↔◌, ◌||◌, AllPairs, All, IsTrue};
ghost use Rattle.std.specs.List.{list_any};
ghost use Rattle.pt_ddl_log.specs.Clean.{AreApart, HasTwo, IsClean, IsLasting, is_exchange};
ghost use Rattle.pt_ddl_log.specs.Tests.{has, meets};

use crate::{Act, Chain};
use pt_host::Name;

/// Whether no name stands in two acts, a name that ends in `.new` or `.swap` stands as `from` alone, and an exchange has
/// two different names and is the only act. It takes no memory.
pub fn is_clean(chain: &Chain) -> bool
    ensures { IsTrue result ↔ IsClean chain.now }
{
    let acts = chain.acts.items();
    if !are_apart(acts) {
        return false;
    }
    if !are_lasting(acts) {
        return false;
    }
    if !have_two(acts) {
        return false;
    }
    if has_exchange(acts) {
        return acts.len() == 1;
    }
    true
}

/// Whether no name stands in two acts.
fn are_apart(acts: &[Act]) -> bool
    ensures { IsTrue result ↔ AllPairs AreApart acts.now }
{
    for (i, act) in acts.iter().enumerate() {
        if meets_any(&acts[..i], act) {
            return false;
        }
    }
    true
}

/// Whether a name of the act stands in one of these.
fn meets_any(earlier: &[Act], act: &Act) -> bool
    ensures { result ≡ list_any (λ other. meets other act.now) earlier.now }
{
    earlier.iter().any(|other| meets(other, act))
}

/// Whether a name stands in both acts.
fn meets(a: &Act, b: &Act) -> bool
    ensures { result ≡ meets a.now b.now }
{
    match a {
        Act::Delete { name } => has(b, name),
        Act::Rename { from, to } | Act::Replace { from, to } => has(b, from) || has(b, to),
        Act::Exchange { a, b: other } => has(b, a) || has(b, other),
    }
}

/// Whether the name stands in the act.
fn has(act: &Act, name: &Name) -> bool
    ensures { result ≡ has act.now name.now }
{
    match act {
        Act::Delete { name: only } => name == only,
        Act::Rename { from, to } | Act::Replace { from, to } => name == from || name == to,
        Act::Exchange { a, b } => name == a || name == b,
    }
}

fn are_lasting(acts: &[Act]) -> bool
    ensures { IsTrue result ↔ All IsLasting acts.now }
{
    acts.iter().all(is_lasting)
}

/// Whether no name but `from` ends in `.new` or `.swap`.
fn is_lasting(act: &Act) -> bool
    ensures { IsTrue result ↔ IsLasting act.now }
{
    match act {
        Act::Delete { name } => !name.is_extra(),
        Act::Rename { to, .. } | Act::Replace { to, .. } => !to.is_extra(),
        Act::Exchange { a, b } => !a.is_extra() && !b.is_extra(),
    }
}

fn have_two(acts: &[Act]) -> bool
    ensures { IsTrue result ↔ All HasTwo acts.now }
{
    acts.iter().all(has_two)
}

/// Whether an exchange has two different names.
fn has_two(act: &Act) -> bool
    ensures { IsTrue result ↔ HasTwo act.now }
{
    match act {
        Act::Exchange { a, b } => a != b,
        Act::Delete { .. } | Act::Rename { .. } | Act::Replace { .. } => true,
    }
}

fn has_exchange(acts: &[Act]) -> bool
    ensures { result ≡ list_any is_exchange acts.now }
{
    acts.iter().any(is_exchange)
}

fn is_exchange(act: &Act) -> bool
    ensures { result ≡ is_exchange act.now }
{
    match act {
        Act::Exchange { .. } => true,
        Act::Delete { .. } | Act::Rename { .. } | Act::Replace { .. } => false,
    }
}
