ghost use Rattle.std.specs.Prelude.{◌≡◌, [], ◌∷◌, ◌++◌, MatchResult, Some, None};
ghost use Rattle.pt_host.specs.Disk.{Names as DiskNames, after_op, put, moved};
ghost use Rattle.pt_memhost.specs.Names.{named, op_of, IsSeen};

use crate::room::add_last;
use pt_host::Name;
use std::alloc::{AllocError, Global};
use std::collections::BTreeMap;

/// The object of each name, by its number.
pub(crate) type Names = BTreeMap<Name, usize>;

/// A change of names.
#[derive(Clone, Copy)]
pub(crate) enum NameChange {
    /// The name has a new object with this number.
    Made(Name, usize),
    /// What the first name had is the second's.
    Moved(Name, Name),
    /// The name is gone.
    Gone(Name),
}

/// Gives the name this object. Want of memory leaves all as it was.
#[tactic(auto, using(crate::proofs::Named::updates))]
pub(crate) fn set(names: &mut Names, name: Name, object: usize) -> Result<(), AllocError>
    ensures kept { MatchResult result (λ _. named names.new ≡ put (named names.old) name (Some object)) (λ _. named names.new ≡ named names.old) }
{
    names.insert(name, object)?;
    Ok(())
}

/// Takes the name away. It takes no memory.
#[tactic(auto, using(crate::proofs::Named::updates))]
fn clear(names: &mut Names, name: &Name)
    ensures { named names.new ≡ put (named names.old) name.now None }
{
    let _ = names.remove(name);
}

/// What `from` has is `to`'s, where there is such a name. Want of memory leaves all as it was.
fn move_name(names: &mut Names, from: &Name, to: Name) -> Result<(), AllocError>
    ensures kept { MatchResult result (λ _. named names.new ≡ moved (named names.old) from.now to (named names.old from.now)) (λ _. named names.new ≡ named names.old) }
{
    if let Some(object) = names.get(from).copied() {
        set(names, to, object)?;
        if *from != to {
            clear(names, from);
        }
    }
    Ok(())
}

/// Makes a change, or none where a name that is to be moved isn't there. Want of memory leaves all as it was.
pub(crate) fn change(names: &mut Names, change: &NameChange) -> Result<(), AllocError>
    ensures kept { MatchResult result (λ _. named names.new ≡ after_op (op_of change.now) (named names.old)) (λ _. named names.new ≡ named names.old) }
{
    match change {
        NameChange::Made(name, object) => set(names, *name, *object)?,
        NameChange::Moved(from, to) => move_name(names, from, *to)?,
        NameChange::Gone(name) => clear(names, name),
    }
    Ok(())
}

/// Makes a change and adds it to those that are pending. So the names stay what the pending changes lead to. Want of memory
/// leaves all as it was.
pub(crate) fn change_pending(
    names: &mut Names,
    pending: &mut Vec<NameChange>,
    to: NameChange,
) -> Result<(), AllocError>
    ensures seen { (settled : DiskNames) → IsSeen names.old pending.old.items settled → IsSeen names.new pending.new.items settled }
    ensures kept { MatchResult result (λ _. pending.new.items ≡ pending.old.items ++ to ∷ []) (λ _. pending.new.items ≡ pending.old.items) }
{
    pending.reserve(1)?;
    change(names, &to)?;
    add_last(pending, to);
    Ok(())
}
