use crate::reading::read_some;
use pt_host::Name;
use std::alloc::{AllocError, Global};
use std::fs::{File, Metadata, OpenFile, OpenOptions};
use std::io::ErrorKind;
use std::os::unix::fs::MetadataExt;
use std::rt::Files;
use std::{fs, io, str};

/// A directory that was entered, held open.
///
/// A file in it is reached by the path that was given, which counts from the current folder if it is relative, and the
/// file's name. A name has no slash and is neither `.` nor `..`, so that none leads out of the directory. Nor does a
/// symbolic link: only a regular file, found so without following a link, is opened, and what was opened has to be what
/// was found.
#[derive(Drop)]
pub(crate) struct Folder<R: Files> {
    /// The path, with a slash at its end.
    path: String,
    directory: R::File,
}

impl<R: Files> Folder<R> {
    /// Opens a directory. It fails where the path is no directory's.
    pub(crate) fn open(alloc: Global, rt: &R, dir: &str) -> io::Result<Folder<R>> {
        if dir.is_empty() {
            return Err(ErrorKind::NotFound.into());
        }
        let mut path = String::from_str(alloc, dir)?;
        if !dir.ends_with('/') {
            path.push('/')?;
        }
        let directory = moved_up(fs::open(rt, path.as_str())?)?;
        if !directory.metadata()?.is_dir() {
            return Err(ErrorKind::NotADirectory.into());
        }
        Ok(Folder { path, directory })
    }

    /// The directory itself, open, as it is synced.
    pub(crate) fn directory(&self) -> &R::File {
        &self.directory
    }

    /// The path of a file.
    pub(crate) fn path_of(&self, alloc: Global, name: &Name) -> io::Result<String> {
        let Ok(text) = str::from_utf8(name.bytes()) else {
            return Err(ErrorKind::InvalidFilename.into());
        };
        let mut path = String::from_str(alloc, self.path.as_str())?;
        path.push_str(text)?;
        Ok(path)
    }

    /// What has this name, a symbolic link as such.
    pub(crate) fn metadata(&self, alloc: Global, rt: &R, name: &Name) -> io::Result<Metadata> {
        let path = self.path_of(alloc, name)?;
        fs::symlink_metadata(rt, path.as_str())
    }

    /// The path of a regular file that is there.
    pub(crate) fn path_of_file(&self, alloc: Global, rt: &R, name: &Name) -> io::Result<String> {
        let path = self.path_of(alloc, name)?;
        if !fs::symlink_metadata(rt, path.as_str())?.is_file() {
            return Err(ErrorKind::InvalidInput.into());
        }
        Ok(path)
    }

    /// Opens a regular file to read and write. A link that takes the name's place in the meantime is opened and refused,
    /// before anything is read or written.
    pub(crate) fn open_file(&self, alloc: Global, rt: &R, name: &Name) -> io::Result<R::File> {
        let path = self.path_of(alloc, name)?;
        let found = fs::symlink_metadata(rt, path.as_str())?;
        if !found.is_file() {
            return Err(ErrorKind::InvalidInput.into());
        }
        let file = OpenOptions::new()
            .read(true)
            .write(true)
            .open(rt, path.as_str())?;
        let file = moved_up(file)?;
        let opened = file.metadata()?;
        if opened.dev() != found.dev() || opened.ino() != found.ino() {
            return Err(ErrorKind::InvalidInput.into());
        }
        Ok(file)
    }

    /// Makes an empty file and opens it to read and write. It fails where the name is there, also as a link.
    pub(crate) fn create_file(&self, alloc: Global, rt: &R, name: &Name) -> io::Result<R::File> {
        let path = self.path_of(alloc, name)?;
        moved_up(File::create_new(rt, path.as_str())?)
    }

    /// The names in the directory in rising byte order. What is no `Name` is left out.
    pub(crate) fn names(&self, alloc: Global, rt: &R) -> io::Result<Vec<Name>> {
        let mut listing = rt.open_dir(self.path.as_str())?;
        let mut names = Vec::new(alloc);
        let mut block = [0u8; 4096];
        for _ in 0..u64::MAX {
            let count = read_some(&mut listing, &mut block)?;
            if count == 0 {
                names.sort_unstable();
                return Ok(names);
            }
            push_names(&mut names, &block[..count])?;
        }
        Err(ErrorKind::TimedOut.into())
    }
}

/// The open file under a number of its own, which is never that of a standard stream. Where such a stream was closed
/// before the program began, a file may be opened under its number, and what is said would land in it.
fn moved_up<F: OpenFile + Drop>(file: F) -> io::Result<F> {
    match file.try_clone() {
        Err(error) if error.kind() == ErrorKind::Unsupported => Ok(file),
        answer => answer,
    }
}

/// Adds the names of a block, each of which a zero byte ends. No block ends inside a name.
fn push_names(names: &mut Vec<Name>, block: &[u8]) -> Result<(), AllocError> {
    for bytes in block.split(|byte| *byte == 0) {
        if let Some(name) = Name::of(bytes) {
            names.push(name)?;
        }
    }
    Ok(())
}
