//! Acts that are done to a map.
ghost use Rattle.std.specs.Prelude.{◌≡◌, IsTrue, None};
ghost use Rattle.pt_host.specs.Disk.{IsAtRest};
ghost use Rattle.pt_host.specs.Listed.{AreRising};
ghost use Rattle.pt_memhost.specs.Memory.{world_in};
ghost use Rattle.pt_store.specs.Store.{HasMap, is_live};

use crate::allowed::may_reshape;
use crate::changing::{Change, chain_of, stops_over};
use crate::maps::{left_text, read_all, stop_text};
use crate::texts::image_of;
use pt_ddl_log::Chain;
use pt_host::{FileList, Host, Image};
use pt_memhost::MemHost;
use pt_store::{Stop, Store};
use std::alloc::{AllocError, Global};

/// Does these acts to the map of the directory, which is then what is left.
pub(crate) fn answer(
    alloc: Global,
    directory: &mut String,
    rest: &str,
) -> Result<String, AllocError> {
    let Some(image) = image_of(alloc, directory.as_str(), "")? else {
        return String::from_str(alloc, "no files");
    };
    let mut host = MemHost::from_image(alloc, &image, b"")?;
    let text = answer_over(alloc, &mut host, rest)?;
    *directory = left_text(alloc, &host, "")?;
    Ok(text)
}

fn answer_over(alloc: Global, host: &mut MemHost, rest: &str) -> Result<String, AllocError>
    requires outside { (world_in host.old).dir ≡ None }
    requires rests { IsAtRest (world_in host.old).now.fs }
{
    let (acts, files) = parts(rest);
    let Some(fresh) = image_of(alloc, files, "")? else {
        return String::from_str(alloc, "no files");
    };
    let Some(chain) = chain_of(alloc, acts)? else {
        return String::from_str(alloc, "no acts");
    };
    match reshape_in(alloc, host, &fresh, &chain) {
        Ok(text) => Ok(text),
        Err(stop) => stop_text(alloc, &stop),
    }
}

fn reshape_in(
    alloc: Global,
    host: &mut MemHost,
    fresh: &Image,
    chain: &Chain,
) -> Result<String, Stop>
    requires outside { (world_in host.old).dir ≡ None }
    requires rests { IsAtRest (world_in host.old).now.fs }
{
    host.enter("d")?;
    let mut store = Store::attach(alloc, host)?;
    reshape(alloc, &mut store, host, &fresh.files, chain)
}

fn reshape(
    alloc: Global,
    store: &mut Store,
    host: &mut MemHost,
    fresh: &FileList,
    chain: &Chain,
) -> Result<String, Stop>
    requires live { IsTrue (is_live store.old) }
    requires stands { HasMap store.old (world_in host.old) }
    requires rising { AreRising fresh.now }
{
    if !may_reshape(store, fresh.items(), chain) {
        return Ok(String::from_str(alloc, "outside")?);
    }
    let before = host.calls();
    store.reshape(host, fresh, chain)?;
    let counts = counts_text(alloc, host, before, store.is_live())?;
    let map = read_all(alloc, store, host)?;
    Ok(format!(in alloc; "{counts} {map}")?)
}

/// Asks for a fault in each call of the same reshape, and for one in each call from one on.
pub(crate) fn stops_answer(
    alloc: Global,
    directory: &str,
    rest: &str,
) -> Result<String, AllocError> {
    let (acts, files) = parts(rest);
    let (Some(image), Some(fresh)) = (image_of(alloc, directory, "")?, image_of(alloc, files, "")?)
    else {
        return String::from_str(alloc, "no files");
    };
    let Some(chain) = chain_of(alloc, acts)? else {
        return String::from_str(alloc, "no acts");
    };
    stops_over(alloc, &image, Change::Reshape(&fresh, &chain))
}

/// The acts, and the files behind a `/`.
fn parts(text: &str) -> (&str, &str) {
    text.split_once('/').unwrap_or((text, ""))
}

fn counts_text(
    alloc: Global,
    host: &MemHost,
    before: u64,
    live: bool,
) -> Result<String, AllocError> {
    let calls = host.calls().saturating_sub(before);
    let (pending, starved) = (host.pending(), host.starved());
    format!(in alloc; "calls {calls} live {live} pending {pending} starved {starved}")
}
