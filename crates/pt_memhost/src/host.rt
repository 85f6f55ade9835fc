ghost use Rattle.std.specs.Prelude.{◌≡◌, [], length, IfOk, ℕ, List as Listed};
ghost use Rattle.pt_host.specs.Disk.{shown, IsAtRest, IsImage};
ghost use Rattle.pt_host.specs.Listed.{by_name};
ghost use Rattle.pt_memhost.specs.Pick.{picked};
ghost use Rattle.pt_memhost.specs.Story.{start_world};
ghost use Rattle.pt_memhost.specs.Memory.{Memory, fresh, capped, world_in};

mod calls;
mod turns;

use crate::kept::Kept;
use pt_host::{Image, Name};
use pt_plain::List;
use std::alloc::{AllocError, Global};
use std::marker::Model;

/// A host in memory. It tells all of its content.
#[derive(Drop)]
pub struct MemHost {
    alloc: Global,
    kept: Kept,
    calls: u64,
    starved: u64,
    disk_faults: u64,
    in_faults: u64,
    out_faults: u64,
    ordered: List<u64>,
    fuse: Option<u64>,
}

impl Model for MemHost {
    ghost use Rattle.pt_memhost.specs.Memory.{Memory};

    ghost Value = { Memory };

    ghost view = { λ host. record { story = host.kept; calls = host.calls; starved = host.starved; counts = record { disk = host.disk_faults; input = host.in_faults; output = host.out_faults }; ordered = host.ordered; fuse = host.fuse } };
}

impl MemHost {
    /// A host with an empty directory and a copy of this input.
    pub fn empty(alloc: Global, input: &[u8]) -> Result<MemHost, AllocError>
        ensures fresh { IfOk result (λ host. host ≡ fresh [] input.now) }
        ensures world { IfOk result (λ host. world_in host ≡ start_world [] input.now) }
    {
        MemHost::with_files(alloc, &[], input)
    }

    /// A host with copies of these files, which stand at rest, and of this input.
    pub fn from_image(alloc: Global, image: &Image, input: &[u8]) -> Result<MemHost, AllocError>
        ensures fresh { IfOk result (λ host. host ≡ fresh image.now.files input.now) }
        ensures world { IfOk result (λ host. world_in host ≡ start_world image.now.files input.now) }
        ensures rests { IfOk result (λ host. IsAtRest (world_in host).now.fs) }
        ensures shown { IfOk result (λ host. (name : Listed ℕ) → shown (world_in host).now.fs name ≡ by_name image.now.files name) }
    {
        MemHost::with_files(alloc, image.files.items(), input)
    }

    fn with_files(
        alloc: Global,
        files: &[(Name, List<u8>)],
        input: &[u8],
    ) -> Result<MemHost, AllocError>
        ensures fresh { IfOk result (λ host. host ≡ fresh files.now input.now) }
        ensures world { IfOk result (λ host. world_in host ≡ start_world files.now input.now) }
        ensures rests { IfOk result (λ host. IsAtRest (world_in host).now.fs) }
        ensures shown { IfOk result (λ host. (name : Listed ℕ) → shown (world_in host).now.fs name ≡ by_name files.now name) }
    {
        Ok(MemHost {
            alloc,
            kept: Kept::start(alloc, files, input)?,
            calls: 0,
            starved: 0,
            disk_faults: 0,
            in_faults: 0,
            out_faults: 0,
            ordered: List::new(alloc),
            fuse: None,
        })
    }

    /// How many calls of `Host` were made. It stays at 2^64 − 1.
    pub fn calls(&self) -> u64
        ensures { result ≡ self.now.calls }
    {
        self.calls
    }

    /// In how many of them memory was wanting. It stays at 2^64 − 1.
    pub fn starved(&self) -> u64
        ensures { result ≡ self.now.starved }
    {
        self.starved
    }

    /// What was said.
    pub fn said(&self) -> &[u8]
        ensures { result.now ≡ (world_in self.now).now.said }
    {
        self.kept.said()
    }

    /// How many name operations are pending now.
    pub fn pending(&self) -> u64
        ensures { result ≡ length (world_in self.now).now.fs.pending }
    {
        self.kept.pending() as u64
    }

    /// How many syncs were made up to now. It stays at 2^64 − 1.
    pub fn syncs(&self) -> u64
        ensures { result ≡ capped (world_in self.now).now.syncs }
    {
        self.kept.syncs()
    }

    /// How many bytes were given to `write_at` up to now. It stays at 2^64 − 1.
    pub fn written(&self) -> u64
        ensures { result ≡ capped (world_in self.now).now.bytes }
    {
        self.kept.written()
    }

    /// An image that a stop may leave now, by a choice: with p pending name operations the first `choice % (p + 1)` of them
    /// survive. The quotient says what is left of each file: its least length where it is even, and its present one where it
    /// is odd; and half of it, by 4, what its loose bytes hold: the present ones, or each 0, or 1, or 255.
    pub fn image_pick(&self, choice: u64) -> Result<Image, AllocError>
        ensures picked { IfOk result (λ image. (name : Listed ℕ) → by_name image.files name ≡ picked choice (world_in self.now).now.fs name) }
        ensures image { IfOk result (λ image. IsImage (world_in self.now).now.fs (by_name image.files)) }
    {
        self.kept.pick(self.alloc, choice)
    }

    /// The calls of `Host` with these numbers are to fail, counted over all of them from 0, and no others by order. It takes
    /// no memory.
    pub fn fail_calls(&mut self, list: Vec<u64>)
        ensures { self.new ≡ record self.old { ordered = list.items } }
    {
        self.ordered = List::of(list);
    }

    /// So many more calls of `Host` pass, and each later one fails. It takes no memory.
    pub fn fuse(&mut self, k: u64)
        ensures { self.new ≡ record self.old { fuse = Some k } }
    {
        self.fuse = Some(k);
    }
}
