ghost use Rattle.std.specs.Prelude.{◌≤◌, ◌+◌, ◌^◌, length, IfOk, OnOk};

use crate::folder::Folder;
use crate::reading::{fill, read_some};
use pt_host::Name;
use std::alloc::Global;
use std::fs::OpenFile;
use std::io::{ErrorKind, Read, Seek, SeekFrom, Write};
use std::rt::Runtime;
use std::{fs, io};

/// No write ends past this place.
const MOST_LENGTH: u64 = 1 << 62;

/// The calls of `Host` on the system. Each answers std's error where it fails; want of memory is such an error.
///
/// The file that was used last is held open. So the sync of a file, where nothing else was read or written since its
/// last write, meets every error of the system's own writing. Where another file came between, that rests on the system
/// to report such an error to the next one that syncs the file, as Linux does.
#[derive(Drop)]
pub(crate) struct System<R: Runtime> {
    rt: R,
    alloc: Global,
    folder: Option<Folder<R>>,
    /// The file that was used last.
    held: Option<(Name, R::File)>,
    /// The names in the directory, as of a listing since which no name has changed.
    listed: Option<Vec<Name>>,
    /// Whether a sync has failed. The system may then drop what it could not write and call the next sync a success, so
    /// no later sync is made: each fails.
    has_lost: bool,
}

impl<R: Runtime> System<R> {
    pub(crate) fn new(alloc: Global, rt: R) -> System<R> {
        System {
            rt,
            alloc,
            folder: None,
            held: None,
            listed: None,
            has_lost: false,
        }
    }

    /// Enters a directory, and syncs its files and its names first: a process that was killed may have left what is there
    /// to read, but not yet sure.
    pub(crate) fn enter(&mut self, dir: &str) -> io::Result<()> {
        let folder = Folder::open(self.alloc, &self.rt, dir)?;
        self.settle(&folder)?;
        self.folder = Some(folder);
        self.held = None;
        self.listed = None;
        Ok(())
    }

    fn settle(&mut self, folder: &Folder<R>) -> io::Result<()> {
        let names = folder.names(self.alloc, &self.rt)?;
        for name in &names {
            if folder.metadata(self.alloc, &self.rt, name)?.is_file() {
                let file = folder.open_file(self.alloc, &self.rt, name)?;
                sync_once(&mut self.has_lost, &file)?;
            }
        }
        sync_once(&mut self.has_lost, folder.directory())
    }

    /// The directory is read at i = 0 and after each change of a name.
    pub(crate) fn list(&mut self, i: u64, name: &mut Name) -> io::Result<bool> {
        let names = match self.listed.take() {
            Some(names) if i > 0 => names,
            _ => self.entered()?.names(self.alloc, &self.rt)?,
        };
        let found = names.get(i as usize).copied();
        self.listed = Some(names);
        if let Some(found) = found {
            *name = found;
        }
        Ok(found.is_some())
    }

    /// It fails where the name is there and no regular file's.
    pub(crate) fn length(&mut self, name: &Name) -> io::Result<Option<u64>> {
        match self.entered()?.metadata(self.alloc, &self.rt, name) {
            Ok(found) if found.is_file() => Ok(Some(found.len())),
            Ok(_) => Err(ErrorKind::InvalidInput.into()),
            Err(error) if error.kind() == ErrorKind::NotFound => Ok(None),
            Err(error) => Err(error),
        }
    }

    pub(crate) fn read_at(&mut self, name: &Name, at: u64, into: &mut [u8]) -> io::Result<usize>
        ensures { IfOk result (λ count. count ≤ length into.old) }
    {
        let mut file = self.take_file(name)?;
        file.seek(SeekFrom::Start(at))?;
        let count = fill(&mut file, into)?;
        self.held = Some((*name, file));
        Ok(count)
    }

    pub(crate) fn write_at(&mut self, name: &Name, at: u64, bytes: &[u8]) -> io::Result<()>
        ensures { OnOk result (at + length bytes.now ≤ 2 ^ 62) }
    {
        if at > MOST_LENGTH || bytes.len() as u64 > MOST_LENGTH - at {
            return Err(ErrorKind::FileTooLarge.into());
        }
        let mut file = self.take_file(name)?;
        file.seek(SeekFrom::Start(at))?;
        file.write_all(bytes)?;
        self.held = Some((*name, file));
        Ok(())
    }

    pub(crate) fn sync(&mut self, name: &Name) -> io::Result<()> {
        let file = self.take_file(name)?;
        sync_once(&mut self.has_lost, &file)?;
        self.held = Some((*name, file));
        Ok(())
    }

    pub(crate) fn create(&mut self, name: &Name) -> io::Result<()> {
        self.listed = None;
        let file = self.entered()?.create_file(self.alloc, &self.rt, name)?;
        self.held = Some((*name, file));
        Ok(())
    }

    pub(crate) fn rename(&mut self, from: &Name, to: &Name) -> io::Result<()> {
        self.listed = None;
        self.held = None;
        let folder = self.entered()?;
        let old_path = folder.path_of_file(self.alloc, &self.rt, from)?;
        let new_path = folder.path_of(self.alloc, to)?;
        fs::rename(&self.rt, old_path.as_str(), new_path.as_str())
    }

    pub(crate) fn unlink(&mut self, name: &Name) -> io::Result<()> {
        self.listed = None;
        self.held = None;
        let path = self.entered()?.path_of_file(self.alloc, &self.rt, name)?;
        fs::remove_file(&self.rt, path.as_str())
    }

    pub(crate) fn sync_names(&mut self) -> io::Result<()> {
        match &self.folder {
            None => Err(ErrorKind::NotFound.into()),
            Some(folder) => sync_once(&mut self.has_lost, folder.directory()),
        }
    }

    pub(crate) fn take(&mut self, into: &mut [u8]) -> io::Result<usize>
        ensures { IfOk result (λ count. count ≤ length into.old) }
    {
        read_some(&mut self.rt.reader(), into)
    }

    pub(crate) fn say(&mut self, bytes: &[u8]) -> io::Result<()> {
        let mut output = io::writer(&self.rt);
        output.write_all(bytes)?;
        output.flush()
    }

    fn entered(&self) -> io::Result<&Folder<R>> {
        match &self.folder {
            None => Err(ErrorKind::NotFound.into()),
            Some(folder) => Ok(folder),
        }
    }

    /// The file, open, which is then held no more.
    fn take_file(&mut self, name: &Name) -> io::Result<R::File> {
        if let Some((held_name, file)) = self.held.take() {
            if held_name == *name {
                return Ok(file);
            }
        }
        self.entered()?.open_file(self.alloc, &self.rt, name)
    }
}

/// Syncs an open file or directory, unless a sync has failed before.
fn sync_once<F: OpenFile>(has_lost: &mut bool, file: &F) -> io::Result<()> {
    if *has_lost {
        return Err(ErrorKind::Other.into());
    }
    let answer = file.sync_all();
    *has_lost = answer.is_err();
    answer
}
