ghost use Rattle.std.specs.Prelude.{◌≡◌, ◌<◌, [], length, IfOk, MatchResult, OnOk, OnErr, option_copied, ℕ, List as Listed};
ghost use Rattle.pt_host.specs.Disk.{shown, IsImage};
ghost use Rattle.pt_host.specs.Listed.{by_name};
ghost use Rattle.pt_host.specs.World.{Takes, after_take};
ghost use Rattle.pt_memhost.specs.declared.event.Event.TheVariants.{Took};
ghost use Rattle.pt_memhost.specs.Held.{IsNameAt};
ghost use Rattle.pt_memhost.specs.Story.{Story, world_of, with_event, after_event};
ghost use Rattle.pt_memhost.specs.Pick.{picked};
ghost use Rattle.pt_memhost.specs.Memory.{capped};

use crate::Event;
use crate::read::read_from;
use crate::room::add_last;
use crate::start::copy_files;
use crate::state::State;
use pt_host::{FileList, Image, Name};
use pt_plain::List;
use std::alloc::{AllocError, Global};
use std::marker::Model;

/// What a host in memory was given, each call that moved its world on, and what it holds at present. Contracts see the
/// first two, from which the last follows.
#[derive(Drop)]
pub(crate) struct Kept {
    alloc: Global,
    files: FileList,
    events: Vec<Event>,
    state: State,
}

impl Model for Kept {
    ghost use Rattle.pt_memhost.specs.Story.{Story, world_of};
    ghost use Rattle.pt_memhost.specs.State.{Mirrors};

    ghost Value = { Story };

    ghost view = { λ kept. record { files = kept.files; input = kept.state.input; events = kept.events.items } };

    ghost invariant = { λ kept. Mirrors (world_of (record { files = kept.files; input = kept.state.input; events = kept.events.items })) kept.state };
}

impl Kept {
    /// Copies of these files, at rest, and of this input.
    pub(crate) fn start(
        alloc: Global,
        files: &[(Name, List<u8>)],
        input: &[u8],
    ) -> Result<Kept, AllocError>
        ensures { IfOk result (λ kept. kept ≡ record { files = files.now; input = input.now; events = [] }) }
    {
        Ok(Kept {
            alloc,
            files: copy_files(alloc, files)?,
            events: Vec::new(alloc),
            state: State::at_start(alloc, files, input)?,
        })
    }

    /// Does what an event says, and keeps it. Want of memory leaves all as it was.
    pub(crate) fn run(&mut self, event: Event) -> Result<(), AllocError>
        ensures kept { MatchResult result (λ _. self.new ≡ with_event self.old event) (λ _. self.new ≡ self.old) }
        ensures world { OnOk result (world_of self.new ≡ after_event event (world_of self.old)) }
    {
        self.events.reserve(1)?;
        self.state.change(self.alloc, &event)?;
        add_last(&mut self.events, event);
        Ok(())
    }

    /// Takes the next bytes of the input, as many as fit or are left, and answers how many. Want of memory leaves all as it
    /// was.
    pub(crate) fn take(&mut self, into: &mut [u8]) -> Result<usize, AllocError>
        requires { 0 < length into.old }
        ensures ok { IfOk result (λ count. self.new ≡ with_event self.old (Took count)) }
        ensures world { IfOk result (λ count. world_of self.new ≡ after_take count (world_of self.old)) }
        ensures bytes { IfOk result (λ count. Takes (world_of self.old).input count into.old into.new) }
        ensures err { OnErr result (self.new ≡ self.old) }
        ensures kept { OnErr result (into.new ≡ into.old) }
    {
        self.events.reserve(1)?;
        let count = read_from(self.state.rest(), 0, into);
        self.state.take(count as u64);
        add_last(&mut self.events, Event::Took(count as u64));
        Ok(count)
    }

    /// The present bytes of a file, where there is one.
    pub(crate) fn file(&self, name: &Name) -> Option<&[u8]>
        ensures { option_copied result ≡ shown (world_of self.now).now.fs name.now }
    {
        self.state.file(name)
    }

    /// The i-th name in rising byte order.
    pub(crate) fn name_at(&self, i: usize) -> Option<Name>
        ensures { IsNameAt (world_of self.now).now.fs i result }
    {
        self.state.name_at(i)
    }

    /// The input that is still to come.
    pub(crate) fn rest(&self) -> &[u8]
        ensures { result.now ≡ (world_of self.now).input }
    {
        self.state.rest()
    }

    /// What was said.
    pub(crate) fn said(&self) -> &[u8]
        ensures { result.now ≡ (world_of self.now).now.said }
    {
        self.state.said()
    }

    /// How many name operations are pending.
    pub(crate) fn pending(&self) -> usize
        ensures { result ≡ length (world_of self.now).now.fs.pending }
    {
        self.state.pending()
    }

    /// How many syncs were made, at most 2^64 − 1.
    pub(crate) fn syncs(&self) -> u64
        ensures { result ≡ capped (world_of self.now).now.syncs }
    {
        self.state.syncs()
    }

    /// How many bytes were given to writes, at most 2^64 − 1.
    pub(crate) fn written(&self) -> u64
        ensures { result ≡ capped (world_of self.now).now.bytes }
    {
        self.state.written()
    }

    /// The image that a stop leaves by this choice.
    pub(crate) fn pick(&self, alloc: Global, choice: u64) -> Result<Image, AllocError>
        ensures picked { IfOk result (λ image. (name : Listed ℕ) → by_name image.files name ≡ picked choice (world_of self.now).now.fs name) }
        ensures image { IfOk result (λ image. IsImage (world_of self.now).now.fs (by_name image.files)) }
    {
        let image = self.state.pick(alloc, choice)?;
        Ok(image)
    }
}
