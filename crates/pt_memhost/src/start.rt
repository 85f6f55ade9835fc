ghost use Rattle.std.specs.Prelude.{◌≡◌, IfOk, ℕ, List as Listed, map};
ghost use Rattle.pt_memhost.specs.Names.{named};
ghost use Rattle.pt_memhost.specs.Story.{sure_object, place_of};

use crate::names::{Names, set};
use crate::object::FileObject;
use pt_host::{FileList, Name};
use pt_plain::List;
use std::alloc::{AllocError, Global};

/// A copy of these files.
pub(crate) fn copy_files(alloc: Global, files: &[(Name, List<u8>)]) -> Result<FileList, AllocError>
    ensures { IfOk result (λ copy. copy ≡ files.now) }
{
    let mut copy = List::new(alloc);
    for (name, bytes) in files {
        let bytes = List::from_slice(alloc, bytes.items())?;
        copy.push((*name, bytes))?;
    }
    Ok(copy)
}

/// The objects of these files, all of their bytes sure.
pub(crate) fn sure_objects(
    alloc: Global,
    files: &[(Name, List<u8>)],
) -> Result<Vec<FileObject>, AllocError>
    ensures { IfOk result (λ objects. objects.items ≡ map (λ file. sure_object file.1) files.now) }
{
    let mut objects = Vec::new(alloc);
    for (_, bytes) in files {
        objects.push(FileObject::sure(alloc, bytes.items())?)?;
    }
    Ok(objects)
}

/// The place of each file, by its name.
pub(crate) fn places(alloc: Global, files: &[(Name, List<u8>)]) -> Result<Names, AllocError>
    ensures { IfOk result (λ names. named names ≡ place_of files.now) }
{
    let mut names = Names::new(alloc);
    for place in (0..files.len()).rev() {
        let (name, _) = &files[place];
        set(&mut names, *name, place)?;
    }
    Ok(names)
}
