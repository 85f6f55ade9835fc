//! Bytes that are added to files of a map and acts that are done to it, with a fault in each call of either too, and which chains
//! of acts are clean.
ghost use Rattle.std.specs.Prelude.{◌≡◌, ◌↔◌, IsTrue, IsSome, None, All};
ghost use Rattle.pt_host.specs.Disk.{IsAtRest};
ghost use Rattle.pt_host.specs.Listed.{AreRising};
ghost use Rattle.pt_memhost.specs.Memory.{world_in};
ghost use Rattle.pt_store.specs.Batch.{IsBatch};
ghost use Rattle.pt_store.specs.Entries.{length_in};
ghost use Rattle.pt_store.specs.Store.{HasMap, is_live, sizes};

use crate::allowed::{is_held, may_reshape};
use crate::faults::{fail_call, others_in};
use crate::maps::{left_text, map_text, stop_text};
use crate::texts::image_of;
use pt_ddl_log::{Act, Chain, is_clean};
use pt_host::{FileList, Host, Image, Name};
use pt_memhost::MemHost;
use pt_plain::List;
use pt_store::{Stop, Store};
use std::alloc::{AllocError, Global};

/// A change of a map: the bytes that are added to its files, or the fresh bytes and the acts.
#[derive(Clone, Copy)]
pub(crate) enum Change<'a> {
    Append(&'a Image),
    Reshape(&'a Image, &'a Chain),
}

/// Which calls of a change fail, counted from 0: one, or each from one on.
#[derive(Clone, Copy)]
enum Failing {
    Never,
    One(u64),
    From(u64),
}

/// How many runs there were, how many answered without a fault, left the store live, and how many images had another map.
#[derive(Clone, Copy)]
struct Tally {
    runs: u64,
    done: u64,
    live: u64,
    other: u64,
}

/// Whether a chain is clean.
pub(crate) fn clean_answer(alloc: Global, acts: &str) -> Result<String, AllocError> {
    let answer = match chain_of(alloc, acts)? {
        None => "no acts",
        Some(chain) => clean_word(&chain),
    };
    String::from_str(alloc, answer)
}

fn clean_word(chain: &Chain) -> &'static str {
    if is_clean(chain) {
        "clean"
    } else {
        "not clean"
    }
}

/// The acts that are written `delete:NAME`, `rename:FROM:TO`, `replace:FROM:TO` and `exchange:A:B`.
pub(crate) fn chain_of(alloc: Global, text: &str) -> Result<Option<Chain>, AllocError> {
    let mut acts = List::new(alloc);
    for word in text.split_whitespace() {
        let Some(act) = act_of(word) else {
            return Ok(None);
        };
        acts.push(act)?;
    }
    Ok(Some(Chain { acts }))
}

fn act_of(word: &str) -> Option<Act> {
    let (kind, names) = word.split_once(':')?;
    if kind == "delete" {
        let name = Name::of(names.as_bytes())?;
        return Some(Act::Delete { name });
    }
    let (first, second) = names.split_once(':')?;
    act_of_two(
        kind,
        Name::of(first.as_bytes())?,
        Name::of(second.as_bytes())?,
    )
}

fn act_of_two(kind: &str, first: Name, second: Name) -> Option<Act> {
    match kind {
        "rename" => Some(Act::Rename {
            from: first,
            to: second,
        }),
        "replace" => Some(Act::Replace {
            from: first,
            to: second,
        }),
        "exchange" => Some(Act::Exchange {
            a: first,
            b: second,
        }),
        _ => None,
    }
}

/// Adds the bytes of these parts to the map of the directory, which is then what is left.
pub(crate) fn append_answer(
    alloc: Global,
    directory: &mut String,
    parts: &str,
) -> Result<String, AllocError> {
    let (Some(image), Some(batch)) = (
        image_of(alloc, directory.as_str(), "")?,
        image_of(alloc, parts, "")?,
    ) else {
        return String::from_str(alloc, "no files");
    };
    let mut host = MemHost::from_image(alloc, &image, b"")?;
    let change = Change::Append(&batch);
    let text = match change_in(alloc, &mut host, change, Failing::Never) {
        Ok((word, calls)) => format!(in alloc; "{word} calls {calls}")?,
        Err(stop) => stop_text(alloc, &stop)?,
    };
    *directory = left_text(alloc, &host, "")?;
    Ok(text)
}

/// Asks for a fault in each call of the same append, and for one in each call from one on.
pub(crate) fn stops_answer(
    alloc: Global,
    directory: &str,
    parts: &str,
) -> Result<String, AllocError> {
    let (Some(image), Some(batch)) = (image_of(alloc, directory, "")?, image_of(alloc, parts, "")?)
    else {
        return String::from_str(alloc, "no files");
    };
    stops_over(alloc, &image, Change::Append(&batch))
}

/// The same of any change.
pub(crate) fn stops_over(
    alloc: Global,
    image: &Image,
    change: Change<'_>,
) -> Result<String, AllocError> {
    let old = map_text(alloc, image)?;
    let (calls, new) = whole_run(alloc, image, change)?;
    let mut tally = Tally {
        runs: 0,
        done: 0,
        live: 0,
        other: 0,
    };
    for number in 0..calls {
        let maps = (old.as_str(), new.as_str());
        tally = run(alloc, image, change, Failing::One(number), maps, tally)?;
        tally = run(alloc, image, change, Failing::From(number), maps, tally)?;
    }
    let (runs, done, live, other) = (tally.runs, tally.done, tally.live, tally.other);
    format!(in alloc; "runs {runs} done {done} live {live} other {other}")
}

/// How many calls the change makes, and the map that it leaves.
fn whole_run(
    alloc: Global,
    image: &Image,
    change: Change<'_>,
) -> Result<(u64, String), AllocError> {
    let mut host = MemHost::from_image(alloc, image, b"")?;
    let calls = match change_in(alloc, &mut host, change, Failing::Never) {
        Ok((_, calls)) => calls,
        Err(_) => 0,
    };
    let left = host.image_pick(0)?;
    let text = map_text(alloc, &left)?;
    Ok((calls, text))
}

/// The map that an append to the map of these files leaves.
pub(crate) fn appended_text(
    alloc: Global,
    image: &Image,
    batch: &Image,
) -> Result<String, AllocError> {
    let (_, text) = whole_run(alloc, image, Change::Append(batch))?;
    Ok(text)
}

/// One run more: each image that a stop may then leave is opened.
fn run(
    alloc: Global,
    image: &Image,
    change: Change<'_>,
    failing: Failing,
    maps: (&str, &str),
    tally: Tally,
) -> Result<Tally, AllocError> {
    let mut host = MemHost::from_image(alloc, image, b"")?;
    let word = match change_in(alloc, &mut host, change, failing) {
        Ok((word, _)) => word,
        Err(_) => "not opened",
    };
    let other = others_in(alloc, &host, maps.0, maps.1)?;
    Ok(tallied(tally, word, other))
}

fn tallied(tally: Tally, word: &str, other: u64) -> Tally {
    let done = u64::from(word != "fault spent");
    let live = u64::from(word == "fault live");
    Tally {
        runs: tally.runs.saturating_add(1),
        done: tally.done.saturating_add(done),
        live: tally.live.saturating_add(live),
        other: tally.other.saturating_add(other),
    }
}

/// What a change answers, whether the store is live, and how many calls it made.
fn change_in(
    alloc: Global,
    host: &mut MemHost,
    change: Change<'_>,
    failing: Failing,
) -> Result<(&'static str, u64), Stop>
    requires outside { (world_in host.old).dir ≡ None }
    requires rests { IsAtRest (world_in host.old).now.fs }
{
    host.enter("d")?;
    let mut store = Store::attach(alloc, host)?;
    arm(alloc, host, failing)?;
    let before = host.calls();
    let word = do_change(&mut store, host, change);
    Ok((word, host.calls().saturating_sub(before)))
}

fn arm(alloc: Global, host: &mut MemHost, failing: Failing) -> Result<(), AllocError>
    ensures { world_in host.new ≡ world_in host.old }
{
    match failing {
        Failing::Never => Ok(()),
        Failing::One(number) => fail_call(alloc, host, number),
        Failing::From(number) => {
            host.fuse(number);
            Ok(())
        }
    }
}

fn do_change(store: &mut Store, host: &mut MemHost, change: Change<'_>) -> &'static str
    requires live { IsTrue (is_live store.old) }
    requires stands { HasMap store.old (world_in host.old) }
{
    match change {
        Change::Append(batch) => append(store, host, &batch.files),
        Change::Reshape(fresh, chain) => reshape(store, host, &fresh.files, chain),
    }
}

/// What an append answers, and whether the store is live.
pub(crate) fn append(store: &mut Store, host: &mut MemHost, batch: &FileList) -> &'static str
    requires live { IsTrue (is_live store.old) }
    requires stands { HasMap store.old (world_in host.old) }
    requires rising { AreRising batch.now }
{
    if !is_batch(store, batch.items()) {
        return "unfit";
    }
    let answer = store.append(host, batch);
    answer_word(answer, store.is_live())
}

fn reshape(store: &mut Store, host: &mut MemHost, fresh: &FileList, chain: &Chain) -> &'static str
    requires live { IsTrue (is_live store.old) }
    requires stands { HasMap store.old (world_in host.old) }
    requires rising { AreRising fresh.now }
{
    if !may_reshape(store, fresh.items(), chain) {
        return "outside";
    }
    let answer = store.reshape(host, fresh, chain);
    answer_word(answer, store.is_live())
}

fn answer_word(answer: Result<(), Stop>, live: bool) -> &'static str {
    match (answer, live) {
        (Ok(()), true) => "done live",
        (Ok(()), false) => "done spent",
        (Err(Stop::Fault), true) => "fault live",
        (Err(Stop::Fault), false) => "fault spent",
        (Err(_), _) => "another stop",
    }
}

/// Whether the map has a file for each part, and the parts are few.
fn is_batch(store: &Store, parts: &[(Name, List<u8>)]) -> bool
    requires { AreRising parts.now }
    ensures { IsTrue result → IsBatch (sizes store.now) parts.now }
{
    if parts.len() > 1000 {
        return false;
    }
    are_held(store, parts)
}

fn are_held(store: &Store, parts: &[(Name, List<u8>)]) -> bool
    ensures { IsTrue result ↔ All (λ part. IsSome (length_in (sizes store.now) part.0)) parts.now }
{
    parts.iter().all(|part| is_held(store, &part.0))
}
