//! The map that a directory stands for.
ghost use Rattle.std.specs.Prelude.{◌≡◌, OnOk, IsTrue, None};
ghost use Rattle.pt_host.specs.Disk.{IsAtRest};
ghost use Rattle.pt_memhost.specs.Memory.{world_in};
ghost use Rattle.pt_store.specs.Store.{HasMap, is_live};

use crate::texts::{files_text, image_of, push_bytes, push_file};
use pt_host::{Host, Image, Name};
use pt_memhost::MemHost;
use pt_store::{Stop, Store};
use std::alloc::{AllocError, Global};

pub(crate) fn map_answer(
    alloc: Global,
    directory: &str,
    change: &str,
) -> Result<String, AllocError> {
    match image_of(alloc, directory, change)? {
        None => String::from_str(alloc, "no files"),
        Some(image) => map_text(alloc, &image),
    }
}

/// The map that a directory stands for, or why there is none.
pub(crate) fn map_text(alloc: Global, image: &Image) -> Result<String, AllocError> {
    let mut host = MemHost::from_image(alloc, image, b"")?;
    match map_in(alloc, &mut host) {
        Ok(text) => Ok(text),
        Err(stop) => stop_text(alloc, &stop),
    }
}

fn map_in(alloc: Global, host: &mut MemHost) -> Result<String, Stop>
    requires outside { (world_in host.old).dir ≡ None }
    requires rests { IsAtRest (world_in host.old).now.fs }
{
    host.enter("d")?;
    let store = Store::attach(alloc, host)?;
    read_all(alloc, &store, host)
}

/// The files of the map, as the store's calls tell them.
pub(crate) fn read_all(alloc: Global, store: &Store, host: &mut MemHost) -> Result<String, Stop>
    requires live { IsTrue (is_live store.now) }
    requires stands { HasMap store.now (world_in host.old) }
{
    let count = store.count();
    let mut text = format!(in alloc; "map {count}")?;
    for i in 0..count {
        if let Some(name) = store.name_at(i) {
            push_read(&mut text, store, host, &name)?;
        }
    }
    if store.name_at(count).is_some() {
        text.push_str(" and more")?;
    }
    Ok(text)
}

/// Adds the file of this name, of which as many bytes are read as the store says.
fn push_read(text: &mut String, store: &Store, host: &mut MemHost, name: &Name) -> Result<(), Stop>
    requires live { IsTrue (is_live store.now) }
    requires stands { HasMap store.now (world_in host.old) }
    ensures { OnOk result (HasMap store.now (world_in host.new)) }
{
    let Some(length) = store.length(name) else {
        text.push_str(" no length")?;
        return Ok(());
    };
    let bytes = store.read(host, name)?;
    if bytes.len() as u64 != length {
        text.push_str(" another length")?;
    }
    push_file(text, name, &bytes)?;
    Ok(())
}

/// The length that the store of a directory tells.
pub(crate) fn length_answer(
    alloc: Global,
    directory: &str,
    name: &str,
) -> Result<String, AllocError> {
    let (Some(image), Some(name)) = (image_of(alloc, directory, "")?, Name::of(name.as_bytes()))
    else {
        return String::from_str(alloc, "no files");
    };
    match length_over(alloc, &image, &name) {
        Ok(Some(length)) => format!(in alloc; "{length}"),
        Ok(None) => String::from_str(alloc, "absent"),
        Err(stop) => stop_text(alloc, &stop),
    }
}

fn length_over(alloc: Global, image: &Image, name: &Name) -> Result<Option<u64>, Stop> {
    let mut host = MemHost::from_image(alloc, image, b"")?;
    host.enter("d")?;
    let store = Store::attach(alloc, &mut host)?;
    Ok(store.length(name))
}

/// The files that a stop leaves once a store was attached.
pub(crate) fn left_answer(alloc: Global, directory: &str) -> Result<String, AllocError> {
    match image_of(alloc, directory, "")? {
        None => String::from_str(alloc, "no files"),
        Some(image) => left_over(alloc, &image),
    }
}

fn left_over(alloc: Global, image: &Image) -> Result<String, AllocError> {
    let mut host = MemHost::from_image(alloc, image, b"")?;
    match attach(alloc, &mut host) {
        Ok(()) => pending_text(alloc, &host),
        Err(stop) => stop_text(alloc, &stop),
    }
}

fn attach(alloc: Global, host: &mut MemHost) -> Result<(), Stop>
    requires outside { (world_in host.old).dir ≡ None }
    requires rests { IsAtRest (world_in host.old).now.fs }
{
    host.enter("d")?;
    let _store = Store::attach(alloc, host)?;
    Ok(())
}

fn pending_text(alloc: Global, host: &MemHost) -> Result<String, AllocError> {
    let pending = host.pending();
    let word = format!(in alloc; "pending {pending}")?;
    left_text(alloc, host, word.as_str())
}

/// The files that a stop leaves by the first choice, after a word.
pub(crate) fn left_text(alloc: Global, host: &MemHost, word: &str) -> Result<String, AllocError> {
    let image = host.image_pick(0)?;
    files_text(alloc, word, image.files.items())
}

/// Why a call stopped.
pub(crate) fn stop_text(alloc: Global, stop: &Stop) -> Result<String, AllocError> {
    match stop {
        Stop::NoMemory => String::from_str(alloc, "no memory"),
        Stop::Fault => String::from_str(alloc, "fault"),
        Stop::Bad { name, place } => bad_text(alloc, name, *place),
    }
}

fn bad_text(alloc: Global, name: &Name, place: u64) -> Result<String, AllocError> {
    let mut text = String::from_str(alloc, "bad ")?;
    push_bytes(&mut text, name.bytes())?;
    write!(text, " {place}")?;
    Ok(text)
}
