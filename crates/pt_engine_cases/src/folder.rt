//! A run over a real directory.
ghost use Rattle.std.specs.Prelude.{◌≡◌, ◌+◌, ◌≤◌, length, IfOk};
ghost use Rattle.pt_host.specs.Counts.{InputCall, OutputCall};

use crate::running::{said_text, words_of};
use crate::text::bytes_of;
use pt_dirhost::DirHost;
use pt_engine::{Ending, run};
use pt_host::{Host, HostFail, Name};
use std::alloc::{AllocError, Global};
use std::rt::Runtime;
use std::{fs, io};

/// The directory of a real host, with an input that is given and an output that is kept.
#[derive(Drop)]
struct Folder<R: Runtime> {
    inner: DirHost<R>,
    input: Vec<u8>,
    /// How many bytes of it were taken.
    taken: usize,
    said: Vec<u8>,
    out_faults: u64,
}

/// The calls on the directory are those of the real host. `take` gives the bytes of the input in their order and doesn't
/// fail. `say` keeps the bytes behind those said before, and fails where memory is wanting, with nothing said.
impl<R: Runtime> Host for Folder<R> {
    ghost use Rattle.std.specs.Prelude.{◌+◌};
    ghost use Rattle.pt_dirhost.specs.Untold.{untold};

    ghost tells = { ⊥ };

    ghost world = { λ _. untold };

    ghost counts = { λ host. let inner = ⟦<DirHost<R> as Host>⟧.counts host.inner in record { disk = inner.disk; input = inner.input; output = inner.output + host.out_faults } };

    fn enter(&mut self, dir: &str) -> Result<(), HostFail> {
        self.inner.enter(dir)
    }

    fn list(&mut self, i: u64, name: &mut Name) -> Result<bool, HostFail> {
        self.inner.list(i, name)
    }

    fn length(&mut self, name: &Name) -> Result<Option<u64>, HostFail> {
        self.inner.length(name)
    }

    fn read_at(&mut self, name: &Name, at: u64, into: &mut [u8]) -> Result<usize, HostFail> {
        self.inner.read_at(name, at, into)
    }

    fn write_at(&mut self, name: &Name, at: u64, bytes: &[u8]) -> Result<(), HostFail> {
        self.inner.write_at(name, at, bytes)
    }

    fn sync(&mut self, name: &Name) -> Result<(), HostFail> {
        self.inner.sync(name)
    }

    fn create(&mut self, name: &Name) -> Result<(), HostFail> {
        self.inner.create(name)
    }

    fn rename(&mut self, from: &Name, to: &Name) -> Result<(), HostFail> {
        self.inner.rename(from, to)
    }

    fn unlink(&mut self, name: &Name) -> Result<(), HostFail> {
        self.inner.unlink(name)
    }

    fn sync_names(&mut self) -> Result<(), HostFail> {
        self.inner.sync_names()
    }

    fn take(&mut self, into: &mut [u8]) -> Result<usize, HostFail>
        ensures bound { IfOk result (λ count. count ≤ length into.old) }
        ensures counts { InputCall (record { disk = (⟦<DirHost<R> as Host>⟧.counts self.old.inner).disk; input = (⟦<DirHost<R> as Host>⟧.counts self.old.inner).input; output = (⟦<DirHost<R> as Host>⟧.counts self.old.inner).output + self.old.out_faults }) (record { disk = (⟦<DirHost<R> as Host>⟧.counts self.new.inner).disk; input = (⟦<DirHost<R> as Host>⟧.counts self.new.inner).input; output = (⟦<DirHost<R> as Host>⟧.counts self.new.inner).output + self.new.out_faults }) result }
    {
        let input = self.input.as_slice();
        let from = input.len().min(self.taken);
        let count = into.len().min(input.len() - from);
        into[..count].copy_from_slice(&input[from..from + count]);
        self.taken += count;
        Ok(count)
    }

    fn say(&mut self, bytes: &[u8]) -> Result<(), HostFail>
        ensures { OutputCall (record { disk = (⟦<DirHost<R> as Host>⟧.counts self.old.inner).disk; input = (⟦<DirHost<R> as Host>⟧.counts self.old.inner).input; output = (⟦<DirHost<R> as Host>⟧.counts self.old.inner).output + self.old.out_faults }) (record { disk = (⟦<DirHost<R> as Host>⟧.counts self.new.inner).disk; input = (⟦<DirHost<R> as Host>⟧.counts self.new.inner).input; output = (⟦<DirHost<R> as Host>⟧.counts self.new.inner).output + self.new.out_faults }) result }
    {
        match self.said.extend_from_slice(bytes) {
            Ok(()) => Ok(()),
            Err(_) => {
                self.out_faults = self.out_faults.saturating_add(1);
                Err(HostFail::Failed)
            }
        }
    }

    ghost sound = { λ host told. absurd told };
}

/// What a line gives that speaks of a real folder.
pub fn real_text(rt: &HostRuntime, word: &str, rest: &str) -> io::Result<String> {
    match word {
        "makes" => made_text(rt, rest),
        "removes" => removed_text(rt, rest),
        _ => {
            let (name, script) = rest.split_once(' ').unwrap_or((rest, ""));
            folder_text(rt, name, script)
        }
    }
}

fn made_text(rt: &HostRuntime, name: &str) -> io::Result<String> {
    let _ = fs::remove_dir_all(rt, name);
    fs::create_dir(rt, name)?;
    Ok(String::from_str(rt.alloc(), "made")?)
}

fn removed_text(rt: &HostRuntime, name: &str) -> io::Result<String> {
    fs::remove_dir_all(rt, name)?;
    Ok(String::from_str(rt.alloc(), "removed")?)
}

/// A run of this script over the folder of this name.
fn folder_text(rt: &HostRuntime, name: &str, script: &str) -> io::Result<String> {
    let alloc = rt.alloc();
    let input = bytes_of(alloc, script)?;
    let inner = DirHost::make(alloc, rt.clone()?);
    Ok(run_text(alloc, name, inner, input)?)
}

fn run_text<R: Runtime>(
    alloc: Global,
    name: &str,
    inner: DirHost<R>,
    input: Vec<u8>,
) -> Result<String, AllocError> {
    let mut host = Folder {
        inner,
        input,
        taken: 0,
        said: Vec::new(alloc),
        out_faults: 0,
    };
    let ending = run_named(alloc, name, &mut host)?;
    said_text(alloc, &ending, &host.said)
}

fn run_named<R: Runtime>(
    alloc: Global,
    name: &str,
    host: &mut Folder<R>,
) -> Result<Ending, AllocError> {
    let mut words = words_of(alloc, "run")?;
    words.push(String::from_str(alloc, name)?)?;
    Ok(run(alloc, &words, host))
}
