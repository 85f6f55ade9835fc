//! Whether a reshape may be done to a map, tested while the program runs.
ghost use Rattle.std.specs.Prelude.{◌≡◌, ◌↔◌, ◌≤◌, ◌++◌, false, IsTrue, IsSome, None, All, length};
ghost use Rattle.pt_host.specs.Listed.{AreRising, by_name};
ghost use Rattle.pt_host.specs.Name.{shadow_end};
ghost use Rattle.pt_ddl_log.specs.Chain.{names_of};
ghost use Rattle.pt_ddl_log.specs.Clean.{names_but_from};
ghost use Rattle.pt_store.specs.Entries.{length_in};
ghost use Rattle.pt_store.specs.Reshape.{Fits, IsFresh, IsReshape};
ghost use Rattle.pt_store.specs.Store.{sizes};
ghost use Rattle.pt_file_cases.specs.Tests.{IsGiven, MayBeDone, any_gives, gives, has_file, is_fixed};

use pt_ddl_log::{Act, Chain, is_clean};
use pt_host::Name;
use pt_plain::List;
use pt_store::Store;

/// Whether the chain and the fresh bytes are as `Store::reshape` asks. At most 1000 acts are taken.
pub(crate) fn may_reshape(store: &Store, fresh: &[(Name, List<u8>)], chain: &Chain) -> bool
    requires { AreRising fresh.now }
    ensures { IsTrue result → IsReshape (sizes store.now) fresh.now chain.now }
{
    if !is_clean(chain) {
        return false;
    }
    let acts = chain.acts.items();
    may_be_done(store, fresh, acts)
}

/// Whether these acts may be done, once they are clean.
fn may_be_done(store: &Store, fresh: &[(Name, List<u8>)], acts: &[Act]) -> bool
    ensures { IsTrue result → MayBeDone (sizes store.now) fresh.now acts.now }
{
    if acts.len() > 1000 {
        return false;
    }
    if !are_fit(store, fresh, acts) {
        return false;
    }
    if !are_given(acts, fresh) {
        return false;
    }
    if !are_free(acts) {
        return false;
    }
    are_short(acts)
}

fn are_fit(store: &Store, fresh: &[(Name, List<u8>)], acts: &[Act]) -> bool
    ensures { IsTrue result → All (Fits (sizes store.now) fresh.now) acts.now }
{
    acts.iter().all(|act| is_fit(store, fresh, act))
}

/// Whether what the act puts there is fresh; and a rename makes a name that isn't held, every other act speaks of names that are.
fn is_fit(store: &Store, fresh: &[(Name, List<u8>)], act: &Act) -> bool
    ensures { IsTrue result → Fits (sizes store.now) fresh.now act.now }
{
    match act {
        Act::Delete { name } => is_held(store, name),
        Act::Rename { from, to } => is_fresh(fresh, from, to) && is_missing(store, to),
        Act::Replace { from, to } => is_fresh(fresh, from, to) && is_held(store, to),
        Act::Exchange { a, b } => is_held(store, a) && is_held(store, b),
    }
}

fn is_missing(store: &Store, name: &Name) -> bool
    ensures { IsTrue result ↔ (length_in (sizes store.now) name.now ≡ None) }
{
    store.length(name).is_none()
}

pub(crate) fn is_held(store: &Store, name: &Name) -> bool
    ensures { IsTrue result ↔ IsSome (length_in (sizes store.now) name.now) }
{
    store.length(name).is_some()
}

/// Whether the name gets fresh bytes from its shadow.
fn is_fresh(fresh: &[(Name, List<u8>)], from: &Name, to: &Name) -> bool
    ensures { IsTrue result → IsFresh fresh.now from.now to.now }
{
    is_shadow(from, to) && has_file(fresh, to)
}

fn is_shadow(from: &Name, to: &Name) -> bool
    ensures { IsTrue result → from.now ≡ to.now ++ shadow_end }
{
    has_room(to) && *from == to.shadow()
}

fn has_file(files: &[(Name, List<u8>)], name: &Name) -> bool
    ensures { IsTrue result → IsSome (by_name files.now name.now) }
{
    any_file(files, name)
}

fn any_file(files: &[(Name, List<u8>)], name: &Name) -> bool
    ensures { result ≡ has_file files.now name.now }
{
    files.iter().any(|file| file.0 == *name)
}

/// Whether each of these files is given by one of the acts.
fn are_given(acts: &[Act], fresh: &[(Name, List<u8>)]) -> bool
    ensures { IsTrue result → All (λ file. IsGiven acts.now file.0) fresh.now }
{
    fresh.iter().all(|file| is_given(acts, &file.0))
}

fn is_given(acts: &[Act], name: &Name) -> bool
    ensures { IsTrue result → IsGiven acts.now name.now }
{
    any_gives(acts, name)
}

fn any_gives(acts: &[Act], name: &Name) -> bool
    ensures { result ≡ any_gives acts.now name.now }
{
    acts.iter().any(|act| gives(act, name))
}

fn gives(act: &Act, name: &Name) -> bool
    ensures { result ≡ gives name.now act.now }
{
    match act {
        Act::Rename { to, .. } | Act::Replace { to, .. } => to == name,
        Act::Delete { .. } | Act::Exchange { .. } => false,
    }
}

/// Whether no act names a file that each directory has.
fn are_free(acts: &[Act]) -> bool
    ensures { IsTrue result ↔ All (λ act. All (λ name. is_fixed name ≡ false) (names_of act)) acts.now }
{
    acts.iter().all(is_free)
}

fn is_free(act: &Act) -> bool
    ensures { IsTrue result ↔ All (λ name. is_fixed name ≡ false) (names_of act.now) }
{
    match act {
        Act::Delete { name } => !is_fixed(name),
        Act::Rename { from, to } | Act::Replace { from, to } => !is_fixed(from) && !is_fixed(to),
        Act::Exchange { a, b } => !is_fixed(a) && !is_fixed(b),
    }
}

fn is_fixed(name: &Name) -> bool
    ensures { result ≡ is_fixed name.now }
{
    let bytes = name.bytes();
    bytes == b"serials.cnt".as_slice()
        || bytes == b"row_journal.log".as_slice()
        || bytes == b"ddl_log.log".as_slice()
}

/// Whether each name but a shadow leaves room for the end of its shadow's name.
fn are_short(acts: &[Act]) -> bool
    ensures { IsTrue result ↔ All (λ act. All (λ name. length name ≤ 154) (names_but_from act)) acts.now }
{
    acts.iter().all(is_short)
}

fn is_short(act: &Act) -> bool
    ensures { IsTrue result ↔ All (λ name. length name ≤ 154) (names_but_from act.now) }
{
    match act {
        Act::Delete { name } => has_room(name),
        Act::Rename { to, .. } | Act::Replace { to, .. } => has_room(to),
        Act::Exchange { a, b } => has_room(a) && has_room(b),
    }
}

fn has_room(name: &Name) -> bool
    ensures { IsTrue result ↔ length name.now ≤ 154 }
{
    name.bytes().len() <= 154
}
