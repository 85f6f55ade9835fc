ghost use Rattle.std.specs.Prelude.{◌≡◌, ◌⊎◌, ◌≢◌, ◌≤◌, ◌<◌, ◌+◌, ◌/◌, ◌^◌, length, take, IfOk, OnOk, OnErr, IsSome, IsSomeAnd, Some, None};
ghost use Rattle.std.specs.Option.{option_map};
ghost use Rattle.pt_host.specs.Disk.{shown, with_op, created, Rename, Unlink};
ghost use Rattle.pt_host.specs.World.{after_enter, after_look, after_write, after_sync, after_fs, after_sync_names, after_take, after_say, FailedWrite, FailedSay, Lists, Reads, Takes};
ghost use Rattle.pt_host.specs.Counts.{DiskCall, InputCall, OutputCall};
ghost use Rattle.pt_memhost.specs.Story.{after_event, after_torn_by};
ghost use Rattle.pt_memhost.specs.Memory.{world_in};
ghost use Rattle.pt_memhost.specs.Turns.{Obeys, Refuses, if_odd};

use super::MemHost;
use super::turns::{Side, Turn};
use crate::Event;
use crate::read::read_from;
use pt_host::{Host, HostFail, Name};

/// No file grows past this length.
const FILE_LIMIT: u64 = 1 << 62;

impl MemHost {
    /// A call that changes names, as an event says. One that was ordered to fail does so after the change where its number
    /// is odd.
    fn change_names(&mut self, event: Event) -> Result<(), HostFail>
        ensures ok { OnOk result (world_in self.new ≡ after_event event (world_in self.old)) }
        ensures failed { OnErr result ((world_in self.new ≡ world_in self.old) ⊎ (world_in self.new ≡ after_event event (world_in self.old))) }
        ensures obeys { Obeys (if_odd self.old.calls (after_event event)) self.old self.new result }
        ensures counts { DiskCall self.old.counts self.new.counts result }
    {
        let odd = self.calls % 2 == 1;
        match self.turn() {
            Turn::Passes => {
                self.run(Side::Disk, event)?;
                Ok(())
            }
            Turn::Ordered if odd => {
                self.run(Side::Disk, event)?;
                Err(self.refuse(Side::Disk))
            }
            Turn::Ordered | Turn::Spent => Err(self.refuse(Side::Disk)),
        }
    }
}

/// A call that was ordered to fail does what its clause `obeys` says, and then fails: a write puts the first half of its
/// bytes, and so does `say`; a change of names is made where the call's number is odd; the others do nothing. Halves are
/// rounded down. A call past the fuse does nothing, nor does a write whose end would pass 2^62, nor one in which memory was
/// wanting.
impl Host for MemHost {
    ghost use Rattle.pt_memhost.specs.Memory.{world_in};
    ghost use Rattle.pt_memhost.specs.Law.{law};

    ghost tells = { Unit {0} };

    ghost world = { world_in };

    ghost counts = { λ host. host.counts };

    ghost sound = { λ host told. law host.story };

    fn enter(&mut self, dir: &str) -> Result<(), HostFail>
        requires { (world_in self.old).dir ≡ None }
        ensures ok { OnOk result (world_in self.new ≡ after_enter dir.now (world_in self.old)) }
        ensures failed { OnErr result (world_in self.new ≡ world_in self.old) }
        ensures counts { DiskCall self.old.counts self.new.counts result }
        ensures obeys { Obeys (λ w. w) self.old self.new result }
    {
        self.pass(Side::Disk)?;
        let dir = self.copy(Side::Disk, dir.as_bytes())?;
        self.run(Side::Disk, Event::Entered(dir))?;
        Ok(())
    }

    fn list(&mut self, i: u64, name: &mut Name) -> Result<bool, HostFail>
        requires { IsSome (world_in self.old).dir }
        ensures ok { IfOk result (λ found. Lists (world_in self.old).now.fs i found name.old name.new) }
        ensures same { world_in self.new ≡ world_in self.old }
        ensures counts { DiskCall self.old.counts self.new.counts result }
        ensures obeys { Obeys (λ w. w) self.old self.new result }
    {
        self.pass(Side::Disk)?;
        match self.kept.name_at(i as usize) {
            None => Ok(false),
            Some(found) => {
                *name = found;
                Ok(true)
            }
        }
    }

    fn length(&mut self, name: &Name) -> Result<Option<u64>, HostFail>
        requires { IsSome (world_in self.old).dir }
        ensures ok { IfOk result (λ length_is. length_is ≡ option_map length (shown (world_in self.old).now.fs name.now)) }
        ensures same { world_in self.new ≡ world_in self.old }
        ensures counts { DiskCall self.old.counts self.new.counts result }
        ensures obeys { Obeys (λ w. w) self.old self.new result }
    {
        self.pass(Side::Disk)?;
        Ok(self.kept.file(name).map(|file| file.len() as u64))
    }

    fn read_at(&mut self, name: &Name, at: u64, into: &mut [u8]) -> Result<usize, HostFail>
        requires { IsSome (shown (world_in self.old).now.fs name.now) }
        ensures bound { IfOk result (λ count. count ≤ length into.old) }
        ensures bytes { IfOk result (λ count. IsSomeAnd (shown (world_in self.old).now.fs name.now) (λ file. Reads file at count into.old into.new)) }
        ensures ok { OnOk result (world_in self.new ≡ after_look name.now (world_in self.old)) }
        ensures failed { OnErr result ((world_in self.new ≡ world_in self.old) ⊎ (world_in self.new ≡ after_look name.now (world_in self.old))) }
        ensures counts { DiskCall self.old.counts self.new.counts result }
        ensures obeys { Obeys (λ w. w) self.old self.new result }
    {
        self.pass(Side::Disk)?;
        self.run(Side::Disk, Event::Looked(*name))?;
        let Some(file) = self.kept.file(name) else {
            return Ok(0);
        };
        Ok(read_from(file, at, into))
    }

    fn write_at(&mut self, name: &Name, at: u64, bytes: &[u8]) -> Result<(), HostFail>
        requires { IsSomeAnd (shown (world_in self.old).now.fs name.now) (λ file. at ≤ length file) }
        ensures fits { OnOk result (at + length bytes.now ≤ 2 ^ 62) }
        ensures ok { OnOk result (world_in self.new ≡ after_write name.now at bytes.now (world_in self.old)) }
        ensures failed { OnErr result (FailedWrite name.now at (length bytes.now) (world_in self.old) (world_in self.new)) }
        ensures counts { DiskCall self.old.counts self.new.counts result }
        ensures obeys { at + length bytes.now ≤ 2 ^ 62 → Obeys (after_torn_by name.now at (length bytes.now) (take (length bytes.now / 2) bytes.now)) self.old self.new result }
        ensures past { 2 ^ 62 < at + length bytes.now → Refuses self.old self.new result }
    {
        let fits = at <= FILE_LIMIT && bytes.len() as u64 <= FILE_LIMIT - at;
        match self.turn() {
            Turn::Passes if fits => {
                let copy = self.copy(Side::Disk, bytes)?;
                self.run(Side::Disk, Event::Wrote(*name, at, copy))?;
                Ok(())
            }
            Turn::Ordered if fits => {
                let front = self.copy(Side::Disk, &bytes[..bytes.len() / 2])?;
                self.run(
                    Side::Disk,
                    Event::Tore(*name, at, bytes.len() as u64, front),
                )?;
                Err(self.refuse(Side::Disk))
            }
            _ => Err(self.refuse(Side::Disk)),
        }
    }

    fn sync(&mut self, name: &Name) -> Result<(), HostFail>
        requires { IsSome (shown (world_in self.old).now.fs name.now) }
        ensures ok { OnOk result (world_in self.new ≡ after_sync name.now (world_in self.old)) }
        ensures failed { OnErr result (world_in self.new ≡ world_in self.old) }
        ensures counts { DiskCall self.old.counts self.new.counts result }
        ensures obeys { Obeys (λ w. w) self.old self.new result }
    {
        self.pass(Side::Disk)?;
        self.run(Side::Disk, Event::Synced(*name))?;
        Ok(())
    }

    fn create(&mut self, name: &Name) -> Result<(), HostFail>
        requires { shown (world_in self.old).now.fs name.now ≡ None }
        ensures ok { OnOk result (world_in self.new ≡ after_fs (created name.now (world_in self.old).now.fs) (world_in self.old)) }
        ensures failed { OnErr result ((world_in self.new ≡ world_in self.old) ⊎ (world_in self.new ≡ after_fs (created name.now (world_in self.old).now.fs) (world_in self.old))) }
        ensures counts { DiskCall self.old.counts self.new.counts result }
        ensures obeys { Obeys (if_odd self.old.calls (λ w. after_fs (created name.now w.now.fs) w)) self.old self.new result }
    {
        self.change_names(Event::Created(*name))
    }

    fn rename(&mut self, from: &Name, to: &Name) -> Result<(), HostFail>
        requires there { IsSome (shown (world_in self.old).now.fs from.now) }
        requires differs { from.now ≢ to.now }
        ensures ok { OnOk result (world_in self.new ≡ after_fs (with_op (Rename from.now to.now) (world_in self.old).now.fs) (world_in self.old)) }
        ensures failed { OnErr result ((world_in self.new ≡ world_in self.old) ⊎ (world_in self.new ≡ after_fs (with_op (Rename from.now to.now) (world_in self.old).now.fs) (world_in self.old))) }
        ensures counts { DiskCall self.old.counts self.new.counts result }
        ensures obeys { Obeys (if_odd self.old.calls (λ w. after_fs (with_op (Rename from.now to.now) w.now.fs) w)) self.old self.new result }
    {
        self.change_names(Event::Renamed(*from, *to))
    }

    fn unlink(&mut self, name: &Name) -> Result<(), HostFail>
        requires { IsSome (shown (world_in self.old).now.fs name.now) }
        ensures ok { OnOk result (world_in self.new ≡ after_fs (with_op (Unlink name.now) (world_in self.old).now.fs) (world_in self.old)) }
        ensures failed { OnErr result ((world_in self.new ≡ world_in self.old) ⊎ (world_in self.new ≡ after_fs (with_op (Unlink name.now) (world_in self.old).now.fs) (world_in self.old))) }
        ensures counts { DiskCall self.old.counts self.new.counts result }
        ensures obeys { Obeys (if_odd self.old.calls (λ w. after_fs (with_op (Unlink name.now) w.now.fs) w)) self.old self.new result }
    {
        self.change_names(Event::Unlinked(*name))
    }

    fn sync_names(&mut self) -> Result<(), HostFail>
        requires { IsSome (world_in self.old).dir }
        ensures ok { OnOk result (world_in self.new ≡ after_sync_names (world_in self.old)) }
        ensures failed { OnErr result (world_in self.new ≡ world_in self.old) }
        ensures counts { DiskCall self.old.counts self.new.counts result }
        ensures obeys { Obeys (λ w. w) self.old self.new result }
    {
        self.pass(Side::Disk)?;
        self.run(Side::Disk, Event::SyncedNames)?;
        Ok(())
    }

    fn take(&mut self, into: &mut [u8]) -> Result<usize, HostFail>
        requires { 0 < length into.old }
        ensures bound { IfOk result (λ count. count ≤ length into.old) }
        ensures bytes { IfOk result (λ count. Takes (world_in self.old).input count into.old into.new) }
        ensures ok { IfOk result (λ count. world_in self.new ≡ after_take count (world_in self.old)) }
        ensures failed { OnErr result (world_in self.new ≡ world_in self.old) }
        ensures counts { InputCall self.old.counts self.new.counts result }
        ensures obeys { Obeys (λ w. w) self.old self.new result }
    {
        self.pass(Side::Input)?;
        match self.kept.take(into) {
            Ok(count) => Ok(count),
            Err(_) => Err(self.starve(Side::Input)),
        }
    }

    fn say(&mut self, bytes: &[u8]) -> Result<(), HostFail>
        ensures ok { OnOk result (world_in self.new ≡ after_say bytes.now (world_in self.old)) }
        ensures failed { OnErr result (FailedSay bytes.now (world_in self.old) (world_in self.new)) }
        ensures counts { OutputCall self.old.counts self.new.counts result }
        ensures obeys { Obeys (after_say (take (length bytes.now / 2) bytes.now)) self.old self.new result }
    {
        match self.turn() {
            Turn::Passes => {
                let copy = self.copy(Side::Output, bytes)?;
                self.run(Side::Output, Event::Said(copy))?;
                Ok(())
            }
            Turn::Ordered => {
                let front = self.copy(Side::Output, &bytes[..bytes.len() / 2])?;
                self.run(Side::Output, Event::Said(front))?;
                Err(self.refuse(Side::Output))
            }
            Turn::Spent => Err(self.refuse(Side::Output)),
        }
    }
}
