//! The files of a map with their bytes, in memory, while the next map is made of them.
ghost use Rattle.std.specs.Prelude.{◌≡◌, ◌≤◌, ◌∷◌, [], ◌++◌, length, map, not, OnOk, IfOk, All};
ghost use Rattle.std.specs.List.{filter};
ghost use Rattle.pt_host.specs.Disk.{put, moved};
ghost use Rattle.pt_host.specs.Images.{AreSame};
ghost use Rattle.pt_host.specs.Listed.{AreRising};
ghost use Rattle.pt_host.specs.Name.{is_extra};
ghost use Rattle.pt_ddl_log.specs.Chain.{act_on, after_act};
ghost use Rattle.pt_store.specs.Batch.{added};
ghost use Rattle.pt_store.specs.Reshape.{with_shadows};
ghost use Rattle.pt_store.specs.Contents.{files_in};

use pt_ddl_log::Act;
use pt_host::{FileList, Name};
use pt_plain::List;
use std::alloc::{AllocError, Global};
use std::collections::BTreeMap;

/// Files by name, with their bytes.
pub(crate) type Contents = BTreeMap<Name, List<u8>>;

/// Adds the bytes of each part at the end of its file.
pub(crate) fn add_batch(
    contents: &mut Contents,
    batch: &[(Name, List<u8>)],
) -> Result<(), AllocError>
    ensures { OnOk result (AreSame (added batch.now (files_in contents.old)) (files_in contents.new)) }
{
    for (name, bytes) in batch {
        extend(contents, name, bytes.items())?;
    }
    Ok(())
}

/// Adds bytes at the end of a file, where there is one of this name.
fn extend(contents: &mut Contents, name: &Name, bytes: &[u8]) -> Result<(), AllocError>
    ensures { OnOk result (AreSame (added ((name.now, bytes.now) ∷ []) (files_in contents.old)) (files_in contents.new)) }
{
    let Some(old) = contents.remove(name) else {
        return Ok(());
    };
    let mut all = old.into_vec();
    all.extend_from_slice(bytes)?;
    contents.insert(*name, List::of(all))?;
    Ok(())
}

/// Gives the file of this name these bytes, or takes it away.
fn put(contents: &mut Contents, name: &Name, bytes: Option<List<u8>>) -> Result<(), AllocError>
    ensures { OnOk result (AreSame (put (files_in contents.old) name.now bytes) (files_in contents.new)) }
{
    let Some(bytes) = bytes else {
        contents.remove(name);
        return Ok(());
    };
    contents.insert(*name, bytes)?;
    Ok(())
}

/// Puts the fresh bytes of each name under its shadow.
pub(crate) fn put_shadows(
    alloc: Global,
    contents: &mut Contents,
    fresh: &[(Name, List<u8>)],
) -> Result<(), AllocError>
    requires { All (λ file. length file.0 ≤ 154) fresh.now }
    ensures { OnOk result (AreSame (with_shadows fresh.now (files_in contents.old)) (files_in contents.new)) }
{
    for (name, bytes) in fresh {
        let copy = List::from_slice(alloc, bytes.items())?;
        put(contents, &name.shadow(), Some(copy))?;
    }
    Ok(())
}

/// Does the acts, one after the other.
pub(crate) fn do_acts(contents: &mut Contents, acts: &[Act]) -> Result<(), AllocError>
    ensures { OnOk result (AreSame (act_on acts.now (files_in contents.old)) (files_in contents.new)) }
{
    for act in acts {
        do_act(contents, act)?;
    }
    Ok(())
}

fn do_act(contents: &mut Contents, act: &Act) -> Result<(), AllocError>
    ensures { OnOk result (AreSame (after_act act.now (files_in contents.old)) (files_in contents.new)) }
{
    match act {
        Act::Delete { name } => put(contents, name, None),
        Act::Rename { from, to } | Act::Replace { from, to } => rename(contents, from, to),
        Act::Exchange { a, b } => exchange(contents, a, b),
    }
}

/// What `from` had is `to`'s, where there is such a file.
fn rename(contents: &mut Contents, from: &Name, to: &Name) -> Result<(), AllocError>
    ensures { OnOk result (AreSame (moved (files_in contents.old) from.now to.now (files_in contents.old from.now)) (files_in contents.new)) }
{
    let Some(bytes) = contents.remove(from) else {
        return Ok(());
    };
    put(contents, to, Some(bytes))
}

/// Swaps the bytes of two names.
fn exchange(contents: &mut Contents, a: &Name, b: &Name) -> Result<(), AllocError>
    ensures { OnOk result (AreSame (put (put (files_in contents.old) a.now (files_in contents.old b.now)) b.now (files_in contents.old a.now)) (files_in contents.new)) }
{
    let first = contents.remove(a);
    let second = contents.remove(b);
    put(contents, a, second)?;
    put(contents, b, first)
}

/// The files in rising order of their names, but those whose names end in `.new` or `.swap`.
pub(crate) fn lasting(alloc: Global, contents: Contents) -> Result<FileList, AllocError>
    ensures rising { IfOk result AreRising }
    ensures files { IfOk result (λ files. files ≡ filter (λ file. not (is_extra file.0)) contents.entries) }
{
    let mut files = List::new(alloc);
    for (name, bytes) in contents {
        if !name.is_extra() {
            files.push((name, bytes))?;
        }
    }
    Ok(files)
}

/// The files in rising order of their names.
pub(crate) fn listed(alloc: Global, contents: Contents) -> Result<FileList, AllocError>
    ensures rising { IfOk result AreRising }
    ensures files { IfOk result (λ files. files ≡ contents.entries) }
{
    let mut files = List::new(alloc);
    for (name, bytes) in contents {
        files.push((name, bytes))?;
    }
    Ok(files)
}
