ghost use Rattle.std.specs.Prelude.{◌≡◌, ◌-◌, map, cond, IfOk, slice_index_or};
ghost use Rattle.std.specs.BTreeMap.{IsOrdered};
ghost use Rattle.std.specs.Cmp.Lexicographic.{slice_cmp};
ghost use Rattle.std.specs.Ordering.{nat_cmp};
ghost use Rattle.pt_host.specs.Disk.{empty_object, names_after};
ghost use Rattle.pt_memhost.specs.Names.{named, op_of};
ghost use Rattle.pt_memhost.specs.Pick.{left_by};

use crate::names::{NameChange, Names, change};
use crate::object::FileObject;
use pt_host::FileList;
use pt_plain::List;
use std::alloc::{AllocError, Global};

/// The names after these changes.
pub(crate) fn names_kept(settled: &Names, kept: &[NameChange]) -> Result<Names, AllocError>
    ensures { IfOk result (λ names. named names ≡ names_after (map op_of kept.now) (named settled.now)) }
{
    let mut names = settled.clone()?;
    for to in kept {
        change(&mut names, to)?;
    }
    Ok(names)
}

/// What is left of the files with these names, in the order of the names.
pub(crate) fn files_left(
    alloc: Global,
    names: &Names,
    objects: &[FileObject],
    rest: u64,
) -> Result<FileList, AllocError>
    ensures files { IfOk result (λ files. files ≡ map (λ entry. (entry.0, left_by rest (slice_index_or objects.now entry.1 empty_object))) names.now.entries) }
    ensures ordered { IsOrdered (slice_cmp nat_cmp) names.now }
{
    let mut files = List::new(alloc);
    for (name, number) in names {
        let bytes = bytes_left(alloc, objects, *number, rest)?;
        files.push((*name, bytes))?;
    }
    Ok(files)
}

/// What is left of an object, which is empty where there is none with that number.
fn bytes_left(
    alloc: Global,
    objects: &[FileObject],
    number: usize,
    rest: u64,
) -> Result<List<u8>, AllocError>
    ensures { IfOk result (λ bytes. bytes ≡ left_by rest (slice_index_or objects.now number empty_object)) }
{
    match objects.get(number) {
        None => Ok(List::new(alloc)),
        Some(object) => object.left(alloc, rest),
    }
}
