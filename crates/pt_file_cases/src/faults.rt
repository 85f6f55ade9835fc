//! A call fails in the middle of an append.
ghost use Rattle.std.specs.Prelude.{◌≡◌, IsSome, None};
ghost use Rattle.pt_host.specs.Disk.{IsAtRest};
ghost use Rattle.pt_memhost.specs.Memory.{world_in};

use crate::changing::{append, appended_text};
use crate::maps::{map_text, stop_text};
use crate::texts::{cut, image_of};
use pt_host::{Host, HostFail, Image, Name};
use pt_memhost::MemHost;
use pt_store::{Stop, Store};
use std::alloc::{AllocError, Global};

/// Which call fails, counted from 0, and whether one more call is made before.
#[derive(Clone, Copy)]
struct Order {
    number: u64,
    is_shifted: bool,
}

pub(crate) fn answer(alloc: Global, directory: &str, rest: &str) -> Result<String, AllocError> {
    let (number, rest) = cut(rest);
    let (shift, files) = cut(rest);
    let order = Order {
        number: number.parse::<u64>().unwrap_or(0),
        is_shifted: shift == "1",
    };
    let (Some(image), Some(batch)) = (image_of(alloc, directory, "")?, image_of(alloc, files, "")?)
    else {
        return String::from_str(alloc, "no files");
    };
    fault_over(alloc, &image, &batch, order)
}

fn fault_over(
    alloc: Global,
    image: &Image,
    batch: &Image,
    order: Order,
) -> Result<String, AllocError> {
    let old = map_text(alloc, image)?;
    let new = appended_text(alloc, image, batch)?;
    let mut host = MemHost::from_image(alloc, image, b"")?;
    let answer = match append_in(alloc, &mut host, batch, order) {
        Ok(answer) => String::from_str(alloc, answer)?,
        Err(stop) => stop_text(alloc, &stop)?,
    };
    let images = images_text(alloc, &host, old.as_str(), new.as_str())?;
    format!(in alloc; "{answer} {images}")
}

/// What an append answers of which a call fails, and whether the store is live.
fn append_in(
    alloc: Global,
    host: &mut MemHost,
    batch: &Image,
    order: Order,
) -> Result<&'static str, Stop>
    requires outside { (world_in host.old).dir ≡ None }
    requires rests { IsAtRest (world_in host.old).now.fs }
{
    host.enter("d")?;
    let mut store = Store::attach(alloc, host)?;
    fail(alloc, host, order)?;
    Ok(append(&mut store, host, &batch.files))
}

/// Orders a call to fail. A change of names that fails is made exactly where its number is odd, counted over all calls.
fn fail(alloc: Global, host: &mut MemHost, order: Order) -> Result<(), Stop>
    requires { IsSome (world_in host.old).dir }
    ensures { world_in host.new ≡ world_in host.old }
{
    if order.is_shifted {
        look(host)?;
    }
    fail_call(alloc, host, order.number)?;
    Ok(())
}

pub(crate) fn fail_call(alloc: Global, host: &mut MemHost, number: u64) -> Result<(), AllocError>
    ensures { world_in host.new ≡ world_in host.old }
{
    let number = host.calls().saturating_add(number);
    let numbers = Vec::from_slice(alloc, &[number])?;
    host.fail_calls(numbers);
    Ok(())
}

/// Makes one more call, which changes nothing.
fn look(host: &mut MemHost) -> Result<(), HostFail>
    requires { IsSome (world_in host.old).dir }
    ensures { world_in host.new ≡ world_in host.old }
{
    if let Some(name) = Name::of(b"none") {
        host.length(&name)?;
    }
    Ok(())
}

/// How many images a stop may leave now, and what they show when they are opened.
fn images_text(alloc: Global, host: &MemHost, old: &str, new: &str) -> Result<String, AllocError> {
    let images = host.pending().saturating_add(1).saturating_mul(8);
    let (mut is_old, mut is_new, mut is_other) = (0u64, 0u64, 0u64);
    for choice in 0..images {
        let map = image_text(alloc, host, choice)?;
        if map.as_str() == old {
            is_old = is_old.saturating_add(1);
        } else if map.as_str() == new {
            is_new = is_new.saturating_add(1);
        } else {
            is_other = is_other.saturating_add(1);
        }
    }
    format!(in alloc; "images {images} old {is_old} new {is_new} other {is_other}")
}

/// How many of the images that a stop may leave now show another map than these two when they are opened.
pub(crate) fn others_in(
    alloc: Global,
    host: &MemHost,
    old: &str,
    new: &str,
) -> Result<u64, AllocError> {
    let images = host.pending().saturating_add(1).saturating_mul(8);
    let mut other = 0u64;
    for choice in 0..images {
        let map = image_text(alloc, host, choice)?;
        if map.as_str() != old && map.as_str() != new {
            other = other.saturating_add(1);
        }
    }
    Ok(other)
}

/// The map that an image stands for.
fn image_text(alloc: Global, host: &MemHost, choice: u64) -> Result<String, AllocError> {
    let image = host.image_pick(choice)?;
    map_text(alloc, &image)
}
