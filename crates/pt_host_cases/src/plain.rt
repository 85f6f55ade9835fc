//! Lines about names, images, lists and short bytes.
ghost use Rattle.std.specs.Prelude.{◌≤◌, length, IfSome};

use crate::texts::{bytes_of, bytes_text, cut, image_of, push_bytes};
use pt_host::Name;
use pt_plain::{Held, List, joined, padded};
use std::alloc::{AllocError, Global};
use std::io;

pub(crate) fn answer_lines(rt: &HostRuntime, lines: &str) -> io::Result<()> {
    for line in lines.lines() {
        let answer = answer(rt.alloc(), line)?;
        println!(rt; "{answer}")?;
    }
    Ok(())
}

fn answer(alloc: Global, line: &str) -> Result<String, AllocError> {
    let (word, rest) = cut(line);
    match word {
        "name" => name_text(alloc, rest),
        "rising" => rising_text(alloc, rest),
        "list" => list_text(alloc, rest),
        "bytes" => from_slice_text(alloc, rest),
        "same" => same_text(alloc, rest),
        "padded" => padded_text(alloc, rest),
        "joined" => joined_text(alloc, rest),
        "held" => held_text(alloc, rest),
        _ if line.starts_with('#') => String::from_str(alloc, line),
        _ => String::from_str(alloc, "no word"),
    }
}

fn name_text(alloc: Global, text: &str) -> Result<String, AllocError> {
    let bytes = bytes_of(alloc, text)?;
    match Name::of(&bytes) {
        None => String::from_str(alloc, "none"),
        Some(name) => named_text(alloc, name),
    }
}

fn kind_text(alloc: Global, name: &Name) -> Result<String, AllocError> {
    let kind = if name.is_extra() { "extra" } else { "plain" };
    String::from_str(alloc, kind)
}

fn named_text(alloc: Global, name: Name) -> Result<String, AllocError> {
    let mut text = kind_text(alloc, &name)?;
    if name.bytes().len() <= 154 {
        push_extended(&mut text, name)?;
    }
    Ok(text)
}

fn push_extended(text: &mut String, name: Name) -> Result<(), AllocError>
    requires { length name ≤ 154 }
{
    text.push(' ')?;
    push_bytes(text, name.shadow().bytes())?;
    text.push(' ')?;
    push_bytes(text, name.temp().bytes())
}

fn rising_text(alloc: Global, files: &str) -> Result<String, AllocError> {
    match image_of(alloc, files)? {
        Some(_) => String::from_str(alloc, "yes"),
        None => String::from_str(alloc, "no"),
    }
}

fn list_text(alloc: Global, steps: &str) -> Result<String, AllocError> {
    let mut list = List::new(alloc);
    for step in steps.split_whitespace() {
        take_step(&mut list, step)?;
    }
    let numbers = list.into_vec();
    let again = List::of(numbers);
    numbers_text(alloc, again.items())
}

/// A number is pushed; `+AT:N` is inserted, `=AT:N` takes the place of another.
fn take_step(list: &mut List<u64>, step: &str) -> Result<(), AllocError> {
    let (at, number) = step.split_once(':').unwrap_or(("", step));
    let number = number.parse::<u64>().unwrap_or(0);
    if let Some(at) = place_in(list, at.strip_prefix("+")) {
        return list.insert(at, number);
    }
    if let Some(at) = place_in(list, at.strip_prefix("=")) {
        if at < list.items().len() {
            *list.item_mut(at) = number;
            return Ok(());
        }
    }
    list.push(number)
}

fn place_in(list: &List<u64>, text: Option<&str>) -> Option<usize>
    ensures { IfSome result (λ at. at ≤ length list.now) }
{
    let at = text?.parse::<usize>().ok()?;
    if at > list.items().len() {
        return None;
    }
    Some(at)
}

fn numbers_text(alloc: Global, numbers: &[u64]) -> Result<String, AllocError> {
    let mut text = String::new(alloc);
    for number in numbers {
        write!(text, "{number} ")?;
    }
    text.push('.')?;
    Ok(text)
}

fn from_slice_text(alloc: Global, text: &str) -> Result<String, AllocError> {
    let bytes = bytes_of(alloc, text)?;
    let list = List::from_slice(alloc, &bytes)?;
    bytes_text(alloc, list.items())
}

fn same_text(alloc: Global, text: &str) -> Result<String, AllocError> {
    let (one, other) = cut(text);
    let one = List::of(bytes_of(alloc, one)?);
    let other = List::of(bytes_of(alloc, other)?);
    let is_same = one == other;
    format!(in alloc; "{is_same}")
}

fn padded_text(alloc: Global, text: &str) -> Result<String, AllocError> {
    let bytes = bytes_of(alloc, text)?;
    if bytes.len() > 4 {
        return String::from_str(alloc, "too long");
    }
    let all: [u8; 4] = padded(&bytes);
    bytes_text(alloc, &all)
}

fn joined_text(alloc: Global, text: &str) -> Result<String, AllocError> {
    let (front, end) = cut(text);
    let (front, end) = (bytes_of(alloc, front)?, bytes_of(alloc, end)?);
    if front.len() > 6 || end.len() > 6 - front.len() {
        return String::from_str(alloc, "too long");
    }
    let all: [u8; 6] = joined(&front, &end);
    bytes_text(alloc, &all)
}

fn held_text(alloc: Global, text: &str) -> Result<String, AllocError> {
    let (one, other) = cut(text);
    let one = Held::new(alloc, one.parse::<u64>().unwrap_or(0))?;
    let other = Held::new(alloc, other.parse::<u64>().unwrap_or(0))?;
    let is_same = one == other;
    let held = *one.get();
    let back = one.into_inner();
    format!(in alloc; "{held} {back} {is_same}")
}
