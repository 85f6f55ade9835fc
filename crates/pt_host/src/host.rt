ghost use Rattle.std.specs.Prelude.{◌≡◌, ◌⊎◌, ◌≢◌, ◌≤◌, ◌<◌, ◌+◌, ◌^◌, [], ◌∷◌, List, ℕ, length, IfOk, OnOk, OnErr, IsSome, IsSomeAnd, Some, None};
ghost use Rattle.std.specs.Option.{option_map};
ghost use Rattle.pt_host.specs.Disk.{shown, with_op, created, Rename, Unlink, IsSound};
ghost use Rattle.pt_host.specs.World.{World, after_enter, after_look, after_write, after_sync, after_fs, after_sync_names, after_take, after_say, FailedWrite, FailedSay, Lists, Reads, Takes};
ghost use Rattle.pt_host.specs.Counts.{Counts, DiskCall, InputCall, OutputCall};

use crate::Name;

/// The one way in which a call on the outside fails. Each failure raises a count of the host.
#[derive(Clone, Copy, Debug, PartialEq, Eq)]
pub enum HostFail {
    Failed,
}

/// A directory, standard input and standard output, by the calls that the engine makes on them.
///
/// Where a host tells its content, `world` is what it is: its files with what a stop may leave of them, the input still to
/// come, what was said, and the list of moments, which only grows. A clause on content holds where `tells`. Engine code is
/// generic over `Host` and can't see whether a host tells, so what is proved of it where a host tells binds the same code
/// on a real directory.
///
/// Three counts say how often the directory, the input and the output have failed. They never fall. A call answers
/// `Failed` only where its own count rose in that call, and changes no other count (`DiskCall`, `InputCall`, `OutputCall`).
pub trait Host {
    /// Whether it tells its content: a proof, or none.
    ghost tells: { Type 0 };

    ghost world: { Self → World };

    /// How often a call on the directory (`enter` to `sync_names`), `take` and `say` have failed.
    ghost counts: { Self → Counts };

    /// Enters a directory, whose files the later calls are about. A failed call leaves all as before.
    fn enter(&mut self, dir: &str) -> Result<(), HostFail>
        requires { tells → (world self.old).dir ≡ None }
        ensures ok { OnOk result (tells → world self.new ≡ after_enter dir.now (world self.old)) }
        ensures failed { OnErr result (tells → world self.new ≡ world self.old) }
        ensures counts { DiskCall (counts self.old) (counts self.new) result };

    /// Sets `name` to the i-th name, counted from 0 in rising byte order; `false` where there are at most i names, and
    /// then `name` is unchanged.
    fn list(&mut self, i: u64, name: &mut Name) -> Result<bool, HostFail>
        requires { tells → IsSome (world self.old).dir }
        ensures ok { IfOk result (λ found. tells → Lists (world self.old).now.fs i found name.old name.new) }
        ensures same { tells → world self.new ≡ world self.old }
        ensures counts { DiskCall (counts self.old) (counts self.new) result };

    /// The present length of a file in bytes, or `None` exactly where there is no such file.
    fn length(&mut self, name: &Name) -> Result<Option<u64>, HostFail>
        requires { tells → IsSome (world self.old).dir }
        ensures ok { IfOk result (λ length_is. tells → length_is ≡ option_map length (shown (world self.old).now.fs name.now)) }
        ensures same { tells → world self.new ≡ world self.old }
        ensures counts { DiskCall (counts self.old) (counts self.new) result };

    /// Reads the bytes of a file from place `at` on to the front of `into`, as many as fit or are there, and answers how
    /// many. The rest of `into` is unchanged. The name is looked at.
    fn read_at(&mut self, name: &Name, at: u64, into: &mut [u8]) -> Result<usize, HostFail>
        requires { tells → IsSome (shown (world self.old).now.fs name.now) }
        ensures bound { IfOk result (λ count. count ≤ length into.old) }
        ensures bytes { IfOk result (λ count. tells → IsSomeAnd (shown (world self.old).now.fs name.now) (λ file. Reads file at count into.old into.new)) }
        ensures ok { OnOk result (tells → world self.new ≡ after_look name.now (world self.old)) }
        ensures failed { OnErr result (tells → (world self.new ≡ world self.old) ⊎ (world self.new ≡ after_look name.now (world self.old))) }
        ensures counts { DiskCall (counts self.old) (counts self.new) result };

    /// Writes bytes at place `at`, which is at most the length of the file; the length grows where needed. The range is
    /// loose until the file is synced. A write whose end would pass 2^62 fails. A failed write leaves its range loose, with
    /// any bytes in it, and the length at any value from the old one to the end of the range; or nothing of it happened.
    fn write_at(&mut self, name: &Name, at: u64, bytes: &[u8]) -> Result<(), HostFail>
        requires { tells → IsSomeAnd (shown (world self.old).now.fs name.now) (λ file. at ≤ length file) }
        ensures fits { OnOk result (at + length bytes.now ≤ 2 ^ 62) }
        ensures ok { OnOk result (tells → world self.new ≡ after_write name.now at bytes.now (world self.old)) }
        ensures failed { OnErr result (tells → FailedWrite name.now at (length bytes.now) (world self.old) (world self.new)) }
        ensures counts { DiskCall (counts self.old) (counts self.new) result };

    /// What is present in the file is sure from then on. A failed call leaves all as before.
    fn sync(&mut self, name: &Name) -> Result<(), HostFail>
        requires { tells → IsSome (shown (world self.old).now.fs name.now) }
        ensures ok { OnOk result (tells → world self.new ≡ after_sync name.now (world self.old)) }
        ensures failed { OnErr result (tells → world self.new ≡ world self.old) }
        ensures counts { DiskCall (counts self.old) (counts self.new) result };

    /// Makes an empty file. It is pending until the names are synced. A failed call has made it, pending, or not.
    fn create(&mut self, name: &Name) -> Result<(), HostFail>
        requires { tells → shown (world self.old).now.fs name.now ≡ None }
        ensures ok { OnOk result (tells → world self.new ≡ after_fs (created name.now (world self.old).now.fs) (world self.old)) }
        ensures failed { OnErr result (tells → (world self.new ≡ world self.old) ⊎ (world self.new ≡ after_fs (created name.now (world self.old).now.fs) (world self.old))) }
        ensures counts { DiskCall (counts self.old) (counts self.new) result };

    /// The file `from` has the name `to`, and an older file of that name is gone. Pending and failed as of `create`.
    fn rename(&mut self, from: &Name, to: &Name) -> Result<(), HostFail>
        requires there { tells → IsSome (shown (world self.old).now.fs from.now) }
        requires differs { tells → from.now ≢ to.now }
        ensures ok { OnOk result (tells → world self.new ≡ after_fs (with_op (Rename from.now to.now) (world self.old).now.fs) (world self.old)) }
        ensures failed { OnErr result (tells → (world self.new ≡ world self.old) ⊎ (world self.new ≡ after_fs (with_op (Rename from.now to.now) (world self.old).now.fs) (world self.old))) }
        ensures counts { DiskCall (counts self.old) (counts self.new) result };

    /// The name is gone. Pending and failed as of `create`.
    fn unlink(&mut self, name: &Name) -> Result<(), HostFail>
        requires { tells → IsSome (shown (world self.old).now.fs name.now) }
        ensures ok { OnOk result (tells → world self.new ≡ after_fs (with_op (Unlink name.now) (world self.old).now.fs) (world self.old)) }
        ensures failed { OnErr result (tells → (world self.new ≡ world self.old) ⊎ (world self.new ≡ after_fs (with_op (Unlink name.now) (world self.old).now.fs) (world self.old))) }
        ensures counts { DiskCall (counts self.old) (counts self.new) result };

    /// No name operation is pending from then on. A failed call leaves all as before.
    fn sync_names(&mut self) -> Result<(), HostFail>
        requires { tells → IsSome (world self.old).dir }
        ensures ok { OnOk result (tells → world self.new ≡ after_sync_names (world self.old)) }
        ensures failed { OnErr result (tells → world self.new ≡ world self.old) }
        ensures counts { DiskCall (counts self.old) (counts self.new) result };

    /// Moves the next bytes of the input to the front of `into`, at least one, and answers how many; 0 exactly at the end.
    /// A failed call leaves all as before.
    fn take(&mut self, into: &mut [u8]) -> Result<usize, HostFail>
        requires { tells → 0 < length into.old }
        ensures bound { IfOk result (λ count. count ≤ length into.old) }
        ensures bytes { IfOk result (λ count. tells → Takes (world self.old).input count into.old into.new) }
        ensures ok { IfOk result (λ count. tells → world self.new ≡ after_take count (world self.old)) }
        ensures failed { OnErr result (tells → world self.new ≡ world self.old) }
        ensures counts { InputCall (counts self.old) (counts self.new) result };

    /// Appends bytes to what was said. There is a moment after each byte. A failed call has said any part from the front.
    fn say(&mut self, bytes: &[u8]) -> Result<(), HostFail>
        ensures ok { OnOk result (tells → world self.new ≡ after_say bytes.now (world self.old)) }
        ensures failed { OnErr result (tells → FailedSay bytes.now (world self.old) (world self.new)) }
        ensures counts { OutputCall (counts self.old) (counts self.new) result };

    /// No two names have one file.
    ghost sound: { (host : Self) → tells → IsSound (world host).now.fs };
}
