ghost use Rattle.std.specs.Prelude.{◌≡◌, ◌≤◌, ◌+◌, ◌^◌, length, IfOk, OnOk, Ok};
ghost use Rattle.pt_host.specs.Counts.{HasCause};
ghost use Rattle.pt_dirhost.specs.Untold.{untold};

use crate::system::System;
use pt_host::{Host, HostFail, Name};
use std::alloc::Global;
use std::io;
use std::rt::Runtime;

/// A real directory, standard input and standard output. It tells no content.
///
/// Its three counts are 0 at first, rise by one at each failure of their calls, and stay at the last value of their type.
/// A call fails where the system or the memory does, where no directory was entered, at a name that is there but no regular
/// file's, as a symbolic link, and at a write whose end would pass 2^62. Once a sync has failed each later sync fails, and
/// so does `enter`.
///
/// Nothing else may change the directory as long as a host is in it. A host doesn't keep others out.
#[derive(Drop)]
pub struct DirHost<R: Runtime> {
    system: System<R>,
    disk_faults: u64,
    in_faults: u64,
    out_faults: u64,
}

impl<R: Runtime> DirHost<R> {
    /// A host over the runtime's files, input and output. It takes no memory; later calls take it from `alloc`, and want
    /// of it is a failure of the call.
    pub fn make(alloc: Global, rt: R) -> DirHost<R>
        ensures { ⟦<DirHost<R> as Host>⟧.counts result ≡ record { disk = 0; input = 0; output = 0 } }
    {
        DirHost {
            system: System::new(alloc, rt),
            disk_faults: 0,
            in_faults: 0,
            out_faults: 0,
        }
    }
}

impl<R: Runtime> Host for DirHost<R> {
    ghost tells = { ⊥ };

    ghost world = { λ _. untold };

    ghost counts = { λ host. record { disk = host.disk_faults; input = host.in_faults; output = host.out_faults } };

    fn enter(&mut self, dir: &str) -> Result<(), HostFail> {
        let answer = self.system.enter(dir);
        counted(&mut self.disk_faults, answer)
    }

    fn list(&mut self, i: u64, name: &mut Name) -> Result<bool, HostFail> {
        let answer = self.system.list(i, name);
        counted(&mut self.disk_faults, answer)
    }

    fn length(&mut self, name: &Name) -> Result<Option<u64>, HostFail> {
        let answer = self.system.length(name);
        counted(&mut self.disk_faults, answer)
    }

    fn read_at(&mut self, name: &Name, at: u64, into: &mut [u8]) -> Result<usize, HostFail> {
        let answer = self.system.read_at(name, at, into);
        counted(&mut self.disk_faults, answer)
    }

    fn write_at(&mut self, name: &Name, at: u64, bytes: &[u8]) -> Result<(), HostFail> {
        let answer = self.system.write_at(name, at, bytes);
        counted(&mut self.disk_faults, answer)
    }

    fn sync(&mut self, name: &Name) -> Result<(), HostFail> {
        let answer = self.system.sync(name);
        counted(&mut self.disk_faults, answer)
    }

    fn create(&mut self, name: &Name) -> Result<(), HostFail> {
        let answer = self.system.create(name);
        counted(&mut self.disk_faults, answer)
    }

    fn rename(&mut self, from: &Name, to: &Name) -> Result<(), HostFail> {
        let answer = self.system.rename(from, to);
        counted(&mut self.disk_faults, answer)
    }

    fn unlink(&mut self, name: &Name) -> Result<(), HostFail> {
        let answer = self.system.unlink(name);
        counted(&mut self.disk_faults, answer)
    }

    fn sync_names(&mut self) -> Result<(), HostFail> {
        let answer = self.system.sync_names();
        counted(&mut self.disk_faults, answer)
    }

    fn take(&mut self, into: &mut [u8]) -> Result<usize, HostFail> {
        let answer = self.system.take(into);
        counted(&mut self.in_faults, answer)
    }

    fn say(&mut self, bytes: &[u8]) -> Result<(), HostFail> {
        let answer = self.system.say(bytes);
        counted(&mut self.out_faults, answer)
    }

    ghost sound = { λ host told. absurd told };
}

/// An answer of the system as a host gives it: an error raises the count.
fn counted<T>(count: &mut u64, answer: io::Result<T>) -> Result<T, HostFail>
    ensures value { IfOk result (λ value. answer ≡ Ok value) }
    ensures counted { HasCause count.old count.new result }
{
    match answer {
        Ok(value) => Ok(value),
        Err(_) => {
            *count = count.saturating_add(1);
            Err(HostFail::Failed)
        }
    }
}
