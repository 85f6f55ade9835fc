//! A run in which a call fails, and what the next run may show.
use crate::files::{no_files, shadowed};
use crate::running::{Fault, host_after, ran_text, said_over};
use crate::text::{bytes_of, push_bytes};
use pt_engine::Ending;
use pt_host::Image;
use pt_memhost::MemHost;
use std::alloc::{AllocError, Global};

/// A script over the directory that a first one leaves, and the script that asks what the tables then show.
#[derive(Drop)]
pub struct Trial {
    pub first: Vec<u8>,
    pub directory: Image,
    /// The script, behind a space.
    pub input: Vec<u8>,
    pub query: String,
}

/// What is asked of tables.
#[derive(Clone, Copy, Debug)]
pub enum Asked {
    /// Their rows.
    Rows,
    /// Their definitions too.
    All,
}

/// The trial that `TABLES FIRST | SCRIPT` writes.
pub fn trial_of(alloc: Global, text: &str, asked: Asked) -> Result<Trial, AllocError> {
    let (tables, scripts) = text.split_once(' ').unwrap_or((text, ""));
    let (first, script) = scripts.split_once(" | ").unwrap_or(("", scripts));
    let first = bytes_of(alloc, first)?;
    Ok(Trial {
        directory: directory_after(alloc, &first)?,
        input: behind_space(alloc, script)?,
        query: query_of(alloc, tables, asked)?,
        first,
    })
}

/// The same, where a shadow lies in the directory too.
pub fn shadowed_trial_of(alloc: Global, text: &str, asked: Asked) -> Result<Trial, AllocError> {
    let Trial {
        first,
        directory,
        input,
        query,
    } = trial_of(alloc, text, asked)?;
    Ok(Trial {
        directory: shadowed(alloc, directory)?,
        first,
        input,
        query,
    })
}

/// The directory that a script leaves, run over an empty one.
fn directory_after(alloc: Global, script: &[u8]) -> Result<Image, AllocError> {
    let empty = no_files(alloc)?;
    let (_, host) = host_after(alloc, &empty, script, Fault::Never, false)?;
    host.image_pick(0)
}

fn behind_space(alloc: Global, script: &str) -> Result<Vec<u8>, AllocError> {
    let mut input = Vec::from_slice(alloc, b" ")?;
    input.extend_from_slice(&bytes_of(alloc, script)?)?;
    Ok(input)
}

/// The script that asks about these tables.
fn query_of(alloc: Global, tables: &str, asked: Asked) -> Result<String, AllocError> {
    let mut query = String::new(alloc);
    for table in tables.split(',') {
        match asked {
            Asked::Rows => {}
            Asked::All => write!(query, "SHOW CREATE TABLE {table};")?,
        }
        write!(query, "SELECT * FROM {table};")?;
    }
    Ok(query)
}

impl Trial {
    /// The host after a run of the script, and how it ended.
    pub fn host_after(
        &self,
        alloc: Global,
        fault: Fault,
        shift: bool,
    ) -> Result<(Ending, MemHost), AllocError> {
        host_after(alloc, &self.directory, &self.input, fault, shift)
    }

    /// What the tables show over a directory that a stop may leave, by this choice.
    pub fn shown_at(
        &self,
        alloc: Global,
        host: &MemHost,
        choice: u64,
    ) -> Result<Vec<u8>, AllocError> {
        let image = host.image_pick(choice)?;
        said_over(alloc, &image, self.query.as_bytes())
    }
}

/// How many choices there are of what a stop leaves.
pub fn choices(host: &MemHost) -> u64 {
    host.pending().saturating_add(1).saturating_mul(8)
}

/// How many calls a run of the script makes.
pub fn calls_text(alloc: Global, trial: &Trial) -> Result<String, AllocError> {
    let (_, host) = trial.host_after(alloc, Fault::Never, false)?;
    let calls = host.calls();
    format!(in alloc; "calls {calls}")
}

/// A run with this fault, and what the tables may show in the next one.
pub fn fault_text(alloc: Global, trial: &Trial, fault: Fault) -> Result<String, AllocError> {
    let (ending, host) = trial.host_after(alloc, fault, false)?;
    let mut text = ran_text(alloc, &ending, &host)?;
    push_shown(alloc, trial, &host, &mut text)?;
    Ok(text)
}

/// Adds each text that the tables may show, once.
fn push_shown(
    alloc: Global,
    trial: &Trial,
    host: &MemHost,
    text: &mut String,
) -> Result<(), AllocError> {
    let mut seen: Vec<Vec<u8>> = Vec::new(alloc);
    for choice in 0..choices(host) {
        let shown = trial.shown_at(alloc, host, choice)?;
        if !is_among(&shown, &seen) {
            text.push_str(" | ")?;
            push_bytes(text, &shown)?;
            seen.push(shown)?;
        }
    }
    Ok(())
}

fn is_among(shown: &[u8], seen: &[Vec<u8>]) -> bool {
    seen.iter().any(|one| one.as_slice() == shown)
}
