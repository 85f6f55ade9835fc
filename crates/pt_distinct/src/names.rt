ghost use Rattle.std.specs.Prelude.{◌≡◌, ◌++◌, ◌∷◌, [], OnOk, OnErr};
ghost use Rattle.std.specs.BTreeSet as set;
ghost use Rattle.std.specs.Cmp.Lexicographic.{slice_cmp};
ghost use Rattle.std.specs.Ordering.{nat_cmp};
ghost use Rattle.pt_place.specs.Names.{is_among};
ghost use Rattle.pt_distinct.specs.Names.{AreNames, lowered};

use pt_plain::padded;
use pt_value::Ident;
use std::alloc::{AllocError, Global};
use std::collections::BTreeSet;
use std::marker::Model;

/// Names without the case of their letters. Contracts see the list of those added, in order.
#[derive(Drop)]
pub struct Names {
    added: Vec<Ident>,
    keys: BTreeSet<Ident>,
}

impl Model for Names {
    ghost use Rattle.std.specs.Prelude.{List, ℕ};
    ghost use Rattle.std.specs.BTreeSet as set;
    ghost use Rattle.std.specs.Cmp.Lexicographic.{slice_cmp};
    ghost use Rattle.std.specs.Ordering.{nat_cmp};
    ghost use Rattle.pt_distinct.specs.Names.{AreNames};

    ghost Value = { List (List ℕ) };

    ghost view = { λ names. names.added.items };

    ghost invariant = { λ names. AreNames (λ key. set.contains (slice_cmp nat_cmp) names.keys key) names.added.items };
}

impl Names {
    /// No names. It takes no memory.
    pub fn new(alloc: Global) -> Names
        ensures { result ≡ [] }
    {
        Names {
            added: Vec::new(alloc),
            keys: BTreeSet::new(alloc),
        }
    }

    /// Whether a name that was added is the same but for the case of its letters. It takes no memory.
    pub fn has(&self, name: &Ident) -> bool
        ensures { result ≡ is_among name.now self.now }
    {
        self.keys.contains(&lowered(name))
    }

    /// Adds a name, whether or not it is among them. Want of memory leaves them as they were.
    pub fn add(&mut self, name: &Ident) -> Result<(), AllocError>
        ensures ok { OnOk result (self.new ≡ self.old ++ name.now ∷ []) }
        ensures err { OnErr result (self.new ≡ self.old) }
    {
        add_to(&mut self.added, &mut self.keys, name)
    }
}

/// Room first, then the key, and then the name, for which there is room.
fn add_to(
    added: &mut Vec<Ident>,
    keys: &mut BTreeSet<Ident>,
    name: &Ident,
) -> Result<(), AllocError>
    requires { AreNames (λ key. set.contains (slice_cmp nat_cmp) keys.old key) added.old.items }
    ensures keys { AreNames (λ key. set.contains (slice_cmp nat_cmp) keys.new key) added.new.items }
    ensures ok { OnOk result (added.new.items ≡ added.old.items ++ name.now ∷ []) }
    ensures err { OnErr result (added.new.items ≡ added.old.items) }
{
    added.reserve(1)?;
    keys.insert(lowered(name))?;
    match added.push(*name) {
        Ok(_) => {}
        Err(_) => unreachable!(),
    }
    Ok(())
}

/// The name in lower case.
fn lowered(name: &Ident) -> Ident
    ensures { result ≡ lowered name.now }
{
    let bytes = name.bytes();
    let mut small: [u8; 64] = padded(bytes);
    small.make_ascii_lowercase();
    let Ok(lowered) = Ident::of(&small[..bytes.len()]) else {
        unreachable!();
    };
    lowered
}
