//! Each fault of a run, and all that a stop may leave after it.
use crate::faults::{Trial, choices};
use crate::model::{Stage, stages};
use crate::running::Fault;
use pt_memhost::MemHost;
use std::alloc::{AllocError, Global};

/// What was tried, and what differs from the model.
#[derive(Clone, Copy, Debug)]
struct Tally {
    runs: u64,
    directories: u64,
    differ: u64,
    /// The first fault after which something differs, and whether a call was made before the run.
    first: Option<(Fault, bool)>,
}

impl Tally {
    /// Adds a run of which so many directories were opened, and so many differ.
    fn add(&mut self, fault: Fault, shift: bool, (opened, differ): (u64, u64)) {
        self.runs = self.runs.saturating_add(1);
        self.directories = self.directories.saturating_add(opened);
        self.differ = self.differ.saturating_add(differ);
        if differ > 0 && self.first.is_none() {
            self.first = Some((fault, shift));
        }
    }
}

fn is_allowed(stages: &[Stage], said: &[u8], shown: &[u8]) -> bool {
    stages.iter().any(|stage| stage.allows(said, shown))
}

/// How many directories a stop may leave now, and how many of them the stages don't allow.
fn opened(
    alloc: Global,
    trial: &Trial,
    stages: &[Stage],
    host: &MemHost,
) -> Result<(u64, u64), AllocError> {
    let mut differ = 0u64;
    for choice in 0..choices(host) {
        let shown = trial.shown_at(alloc, host, choice)?;
        if !is_allowed(stages, host.said(), &shown) {
            differ = differ.saturating_add(1);
        }
    }
    Ok((choices(host), differ))
}

/// The same after a run with this fault.
fn opened_after(
    alloc: Global,
    trial: &Trial,
    stages: &[Stage],
    fault: Fault,
    shift: bool,
) -> Result<(u64, u64), AllocError> {
    let (_, host) = trial.host_after(alloc, fault, shift)?;
    opened(alloc, trial, stages, &host)
}

/// Adds the runs in which the fault is in this call.
fn add_runs(
    alloc: Global,
    trial: &Trial,
    stages: &[Stage],
    number: u64,
    tally: &mut Tally,
) -> Result<(), AllocError> {
    for (fault, shift) in [
        (Fault::At(number), false),
        (Fault::At(number), true),
        (Fault::From(number), false),
        (Fault::From(number), true),
    ] {
        let counts = opened_after(alloc, trial, stages, fault, shift)?;
        tally.add(fault, shift, counts);
    }
    Ok(())
}

/// How many calls a run makes where none fails, with one before it.
fn calls(alloc: Global, trial: &Trial) -> Result<u64, AllocError> {
    let (_, host) = trial.host_after(alloc, Fault::Never, true)?;
    Ok(host.calls())
}

/// The runs of a script with a fault in each call.
pub fn stops_text(alloc: Global, trial: &Trial) -> Result<String, AllocError> {
    let stages = stages(alloc, &trial.first, &trial.input, trial.query.as_bytes())?;
    let calls = calls(alloc, trial)?;
    let mut tally = Tally {
        runs: 0,
        directories: 0,
        differ: 0,
        first: None,
    };
    for number in 0..calls {
        add_runs(alloc, trial, &stages, number, &mut tally)?;
    }
    tally_text(alloc, calls, &tally)
}

fn tally_text(alloc: Global, calls: u64, tally: &Tally) -> Result<String, AllocError> {
    let Tally {
        runs,
        directories,
        differ,
        first,
    } = tally;
    let mut text = format!(in alloc;
        "calls {calls}, runs {runs}, directories {directories}, differ {differ}"
    )?;
    if let Some((fault, shift)) = first {
        write!(text, ", first {fault:?} {shift}")?;
    }
    Ok(text)
}
