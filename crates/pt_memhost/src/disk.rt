ghost use Rattle.std.specs.Prelude.{◌≡◌, ◌<◌, IfOk, MatchResult, IfSome, length, option_copied, ℕ, List as Listed};
ghost use Rattle.pt_host.specs.Disk.{IsSound, present, shown, created, with_op, on_file, overwrite, torn, synced, names_synced};
ghost use Rattle.pt_host.specs.Listed.{by_name};
ghost use Rattle.pt_memhost.specs.Pick.{picked};
ghost use Rattle.pt_memhost.specs.Story.{start_fs};
ghost use Rattle.pt_memhost.specs.Names.{named, op_of, IsSeen};

use crate::names::{NameChange, Names, change_pending};
use crate::object::FileObject;
use crate::pick::{files_left, names_kept};
use crate::room::add_last;
use crate::start::{places, sure_objects};
use pt_host::{Image, Name};
use pt_plain::List;
use std::alloc::{AllocError, Global};

/// The files of a host in memory: the objects by number, the names as they are seen, and what a stop may take back of
/// them: the names as of the last sync of names, and the changes since then.
#[derive(Drop)]
pub(crate) struct Disk {
    objects: Vec<FileObject>,
    names: Names,
    settled: Names,
    pending: Vec<NameChange>,
    ghost seen: { IsSeen names pending.items (named settled) },
}

impl Disk {
    ghost use Rattle.pt_memhost.specs.Held.{fs_of, IsNameAt};

    /// These files at rest, copied.
    pub(crate) fn at_rest(alloc: Global, files: &[(Name, List<u8>)]) -> Result<Disk, AllocError>
        ensures { IfOk result (λ disk. fs_of disk ≡ start_fs files.now) }
    {
        let objects = sure_objects(alloc, files)?;
        let settled = places(alloc, files)?;
        Ok(Disk {
            objects,
            names: settled.clone()?,
            settled,
            pending: Vec::new(alloc),
        })
    }

    /// Makes a change of names, which is pending until the next sync of names. Want of memory leaves all as it was.
    pub(crate) fn change_names(&mut self, change: NameChange) -> Result<(), AllocError>
        ensures kept { MatchResult result (λ _. fs_of self.new ≡ with_op (op_of change) (fs_of self.old)) (λ _. fs_of self.new ≡ fs_of self.old) }
    {
        change_pending(&mut self.names, &mut self.pending, change)
    }

    /// Makes an empty file. Want of memory leaves all as it was.
    pub(crate) fn create(&mut self, alloc: Global, name: Name) -> Result<(), AllocError>
        ensures kept { MatchResult result (λ _. fs_of self.new ≡ created name (fs_of self.old)) (λ _. fs_of self.new ≡ fs_of self.old) }
    {
        self.objects.reserve(1)?;
        let number = self.objects.len();
        change_pending(
            &mut self.names,
            &mut self.pending,
            NameChange::Made(name, number),
        )?;
        add_last(&mut self.objects, FileObject::empty(alloc));
        Ok(())
    }

    /// The number of the object that a name has.
    fn number(&self, name: &Name) -> Option<usize>
        requires { IsSound (fs_of self.now) }
        ensures value { result ≡ present (fs_of self.now) name.now }
        ensures bound { IfSome result (λ number. number < length self.now.objects.items) }
    {
        self.names.get(name).copied()
    }

    /// Writes bytes over those of a file from place `at` on, and leaves `count` bytes from there loose. Where there is no
    /// such file it does nothing. Want of memory leaves all as it was.
    pub(crate) fn put(
        &mut self,
        name: &Name,
        at: u64,
        count: u64,
        bytes: &[u8],
    ) -> Result<(), AllocError>
        requires { IsSound (fs_of self.old) }
        ensures kept { MatchResult result (λ _. fs_of self.new ≡ on_file (present (fs_of self.old) name.now) (λ o. torn at count (overwrite at bytes.now o.bytes) o) (fs_of self.old)) (λ _. fs_of self.new ≡ fs_of self.old) }
    {
        match self.number(name) {
            None => Ok(()),
            Some(number) => {
                self.objects[number].put(at, count, bytes)?;
                Ok(())
            }
        }
    }

    /// Makes a file's present bytes sure. It takes no memory.
    pub(crate) fn sync(&mut self, name: &Name)
        requires { IsSound (fs_of self.old) }
        ensures { fs_of self.new ≡ on_file (present (fs_of self.old) name.now) synced (fs_of self.old) }
    {
        if let Some(number) = self.number(name) {
            self.objects[number].sync();
        }
    }

    /// Makes the present names sure. Want of memory leaves all as it was.
    pub(crate) fn sync_names(&mut self) -> Result<(), AllocError>
        ensures kept { MatchResult result (λ _. fs_of self.new ≡ names_synced (fs_of self.old)) (λ _. fs_of self.new ≡ fs_of self.old) }
    {
        self.settled = self.names.clone()?;
        self.pending.clear();
        Ok(())
    }

    /// The present bytes of a file, where there is one.
    pub(crate) fn file(&self, name: &Name) -> Option<&[u8]>
        requires { IsSound (fs_of self.now) }
        ensures { option_copied result ≡ shown (fs_of self.now) name.now }
    {
        match self.number(name) {
            None => None,
            Some(number) => Some(self.objects[number].bytes()),
        }
    }

    /// The i-th name in rising byte order.
    pub(crate) fn name_at(&self, i: usize) -> Option<Name>
        ensures { IsNameAt (fs_of self.now) i result }
    {
        self.names.keys().nth(i).copied()
    }

    /// How many name operations are pending.
    pub(crate) fn pending(&self) -> usize
        ensures { result ≡ length (fs_of self.now).pending }
    {
        self.pending.len()
    }

    /// The image that a stop leaves by this choice.
    pub(crate) fn pick(&self, alloc: Global, choice: u64) -> Result<Image, AllocError>
        ensures { IfOk result (λ image. (name : Listed ℕ) → by_name image.files name ≡ picked choice (fs_of self.now) name) }
    {
        let ways = self.pending.len() as u64 + 1;
        let kept = (choice % ways) as usize;
        let names = names_kept(&self.settled, &self.pending[..kept])?;
        let files = files_left(alloc, &names, &self.objects, choice / ways)?;
        Ok(Image { files })
    }
}
