ghost use Rattle.std.specs.Prelude.{◌≡◌, ◌≤◌, ℕ, length, drop, IfOk, MatchResult, option_copied, List as Listed};
ghost use Rattle.pt_host.specs.Disk.{IsSound, shown, created, with_op};
ghost use Rattle.pt_host.specs.Listed.{by_name};
ghost use Rattle.pt_memhost.specs.Pick.{picked};
ghost use Rattle.pt_host.specs.World.{World, after_sync, after_fs, after_sync_names, after_take, after_say};
ghost use Rattle.pt_memhost.specs.Names.{op_of};
ghost use Rattle.pt_memhost.specs.Story.{start_world, after_event, after_torn_by};

use crate::Event;
use crate::disk::Disk;
use crate::names::NameChange;
use pt_host::{Image, Name};
use pt_plain::List;
use std::alloc::{AllocError, Global};

/// What a host in memory holds at present: its input and how much of it was taken, what was said, its files, and how many
/// syncs were made and bytes written. These two counts stay at 2^64 − 1.
#[derive(Drop)]
pub(crate) struct State {
    pub(crate) input: List<u8>,
    taken: usize,
    said: Vec<u8>,
    pub(crate) disk: Disk,
    syncs: u64,
    written: u64,
}

impl State {
    ghost use Rattle.pt_memhost.specs.Held.{fs_of, IsNameAt};
    ghost use Rattle.pt_memhost.specs.State.{Mirrors};
    ghost use Rattle.pt_memhost.specs.Memory.{capped};

    /// What is held at the start: these files at rest and this input, copied.
    pub(crate) fn at_start(
        alloc: Global,
        files: &[(Name, List<u8>)],
        input: &[u8],
    ) -> Result<State, AllocError>
        ensures mirrors { IfOk result (λ state. Mirrors (start_world files.now input.now) state) }
        ensures input { IfOk result (λ state. state.input ≡ input.now) }
    {
        Ok(State {
            input: List::from_slice(alloc, input)?,
            taken: 0,
            said: Vec::new(alloc),
            disk: Disk::at_rest(alloc, files)?,
            syncs: 0,
            written: 0,
        })
    }

    /// Does what an event says. Want of memory leaves all as it was.
    pub(crate) fn change(&mut self, alloc: Global, event: &Event) -> Result<(), AllocError>
        requires { IsSound (fs_of self.old.disk) }
        ensures kept { (w : World) → Mirrors w self.old → MatchResult result (λ _. Mirrors (after_event event.now w) self.new) (λ _. Mirrors w self.new) }
        ensures input { self.new.input ≡ self.old.input }
    {
        match event {
            Event::Entered(_) | Event::Looked(_) => {}
            Event::Wrote(name, at, bytes) => self.write(
                name,
                *at,
                bytes.items().len() as u64,
                bytes.items(),
            )?,
            Event::Tore(name, at, count, front) => self.write(name, *at, *count, front.items())?,
            Event::Synced(name) => self.sync(name),
            Event::Created(name) => self.create(alloc, *name)?,
            Event::Renamed(from, to) => self.change_names(NameChange::Moved(*from, *to))?,
            Event::Unlinked(name) => self.change_names(NameChange::Gone(*name))?,
            Event::SyncedNames => self.sync_names()?,
            Event::Took(count) => self.take(*count),
            Event::Said(bytes) => self.say(bytes.items())?,
        }
        Ok(())
    }

    /// Writes bytes at a place, as the first of `count` ones.
    fn write(&mut self, name: &Name, at: u64, count: u64, bytes: &[u8]) -> Result<(), AllocError>
        requires { IsSound (fs_of self.old.disk) }
        ensures kept { (w : World) → Mirrors w self.old → MatchResult result (λ _. Mirrors (after_torn_by name.now at count bytes.now w) self.new) (λ _. Mirrors w self.new) }
        ensures input { self.new.input ≡ self.old.input }
    {
        self.disk.put(name, at, count, bytes)?;
        self.written = self.written.saturating_add(count);
        Ok(())
    }

    fn sync(&mut self, name: &Name)
        requires { IsSound (fs_of self.old.disk) }
        ensures mirrors { (w : World) → Mirrors w self.old → Mirrors (after_sync name.now w) self.new }
        ensures input { self.new.input ≡ self.old.input }
    {
        self.disk.sync(name);
        self.syncs = self.syncs.saturating_add(1);
    }

    fn create(&mut self, alloc: Global, name: Name) -> Result<(), AllocError>
        ensures kept { (w : World) → Mirrors w self.old → MatchResult result (λ _. Mirrors (after_fs (created name w.now.fs) w) self.new) (λ _. Mirrors w self.new) }
        ensures input { self.new.input ≡ self.old.input }
    {
        self.disk.create(alloc, name)
    }

    fn change_names(&mut self, change: NameChange) -> Result<(), AllocError>
        ensures kept { (w : World) → Mirrors w self.old → MatchResult result (λ _. Mirrors (after_fs (with_op (op_of change) w.now.fs) w) self.new) (λ _. Mirrors w self.new) }
        ensures input { self.new.input ≡ self.old.input }
    {
        self.disk.change_names(change)
    }

    fn sync_names(&mut self) -> Result<(), AllocError>
        ensures kept { (w : World) → Mirrors w self.old → MatchResult result (λ _. Mirrors (after_sync_names w) self.new) (λ _. Mirrors w self.new) }
        ensures input { self.new.input ≡ self.old.input }
    {
        self.disk.sync_names()?;
        self.syncs = self.syncs.saturating_add(1);
        Ok(())
    }

    pub(crate) fn take(&mut self, count: u64)
        ensures mirrors { (w : World) → Mirrors w self.old → Mirrors (after_take count w) self.new }
        ensures input { self.new.input ≡ self.old.input }
    {
        let taken = self.taken.saturating_add(count as usize);
        self.taken = taken.min(self.input.items().len());
    }

    fn say(&mut self, bytes: &[u8]) -> Result<(), AllocError>
        ensures kept { (w : World) → Mirrors w self.old → MatchResult result (λ _. Mirrors (after_say bytes.now w) self.new) (λ _. Mirrors w self.new) }
        ensures input { self.new.input ≡ self.old.input }
    {
        self.said.extend_from_slice(bytes)?;
        Ok(())
    }

    /// The present bytes of a file, where there is one.
    pub(crate) fn file(&self, name: &Name) -> Option<&[u8]>
        requires { IsSound (fs_of self.now.disk) }
        ensures { option_copied result ≡ shown (fs_of self.now.disk) name.now }
    {
        self.disk.file(name)
    }

    /// The i-th name in rising byte order.
    pub(crate) fn name_at(&self, i: usize) -> Option<Name>
        ensures { IsNameAt (fs_of self.now.disk) i result }
    {
        self.disk.name_at(i)
    }

    /// The input that is still to come.
    pub(crate) fn rest(&self) -> &[u8]
        ensures { (w : World) → Mirrors w self.now → result.now ≡ w.input }
    {
        let input = self.input.items();
        &input[self.taken.min(input.len())..]
    }

    /// What was said.
    pub(crate) fn said(&self) -> &[u8]
        ensures { (w : World) → Mirrors w self.now → result.now ≡ w.now.said }
    {
        &self.said
    }

    /// How many name operations are pending.
    pub(crate) fn pending(&self) -> usize
        ensures { (w : World) → Mirrors w self.now → result ≡ length w.now.fs.pending }
    {
        self.disk.pending()
    }

    /// How many syncs were made, at most 2^64 − 1.
    pub(crate) fn syncs(&self) -> u64
        ensures { (w : World) → Mirrors w self.now → result ≡ capped w.now.syncs }
    {
        self.syncs
    }

    /// How many bytes were given to writes, at most 2^64 − 1.
    pub(crate) fn written(&self) -> u64
        ensures { (w : World) → Mirrors w self.now → result ≡ capped w.now.bytes }
    {
        self.written
    }

    /// The image that a stop leaves by this choice.
    pub(crate) fn pick(&self, alloc: Global, choice: u64) -> Result<Image, AllocError>
        ensures { (w : World) → Mirrors w self.now → IfOk result (λ image. (name : Listed ℕ) → by_name image.files name ≡ picked choice w.now.fs name) }
    {
        self.disk.pick(alloc, choice)
    }
}
