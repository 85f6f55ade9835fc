ghost use Rattle.std.specs.Prelude.{◌≡◌, ◌==◌, false, [], Some, length, min, unwrap_or};
ghost use Rattle.std.specs.List.{list_all};
ghost use Rattle.std.specs.Option.{option_copied};
ghost use Rattle.pt_interval.specs.Instances.{are_bytes, bytes_cmp, bytes_line, next_bytes};
ghost use Rattle.pt_interval.specs.Walk.{walk};

use crate::Line;
use pt_value::Bin;
use std::alloc::{AllocError, Global};
use std::cmp::Ordering;

/// Byte strings of any length, without padding. The next one has one more byte 0 at its end, and none is the greatest.
impl Line for Bin {
    ghost cmp = { bytes_cmp };

    ghost is_value = { are_bytes };

    ghost least = { [] };

    ghost next = { next_bytes };

    ghost is_greatest = { λ bytes. false };

    ghost laws = { bytes_line };

    fn cmp(&self, other: &Bin) -> Ordering {
        self.items().cmp(other.items())
    }

    fn is_value(&self) -> bool {
        are_bytes(self.items())
    }

    fn is_greatest(&self) -> bool {
        false
    }

    fn least(alloc: Global) -> Result<Bin, AllocError> {
        Ok(Bin::new(alloc))
    }

    fn next(&self, alloc: Global) -> Result<Bin, AllocError> {
        let mut next = Bin::from_slice(alloc, self.items())?;
        next.push(0)?;
        Ok(next)
    }

    fn copy(&self, alloc: Global) -> Result<Bin, AllocError> {
        let copied = Bin::from_slice(alloc, self.items())?;
        Ok(copied)
    }

    fn gap(from: Option<&Bin>, to: Option<&Bin>, limit: u32) -> u32 {
        match to {
            Some(to) => count_below(items_of(from), to.items(), limit),
            None => limit,
        }
    }
}

/// Whether each is a byte: the type says so, and contracts see numbers.
fn are_bytes(bytes: &[u8]) -> bool
    ensures { result ≡ are_bytes bytes.now }
{
    for byte in bytes {
        if *byte as u16 >= 256 {
            return false;
        }
    }
    true
}

fn items_of(bytes: Option<&Bin>) -> &[u8]
    ensures { result.now ≡ unwrap_or (option_copied bytes.entry) [] }
{
    match bytes {
        Some(bytes) => bytes.items(),
        None => &[],
    }
}

/// How many byte strings there are from one on and below another, at most `limit`: as many as `to` has zeros behind `from`, where it
/// has nothing else there.
fn count_below(from: &[u8], to: &[u8], limit: u32) -> u32
    ensures { result ≡ length (walk bytes_cmp next_bytes (λ bytes. false) limit from.now (Some to.now)) }
{
    if to.cmp(from).is_le() {
        return 0;
    }
    let Some(rest) = to.strip_prefix(from) else {
        return limit;
    };
    if are_zeros(rest) {
        return lesser(rest.len(), limit);
    }
    limit
}

fn are_zeros(bytes: &[u8]) -> bool
    ensures { result ≡ list_all (λ byte. byte == 0) bytes.now }
{
    bytes.iter().all(|byte| *byte == 0)
}

fn lesser(length: usize, limit: u32) -> u32
    ensures { result ≡ min limit length }
{
    if length < limit as usize {
        length as u32
    } else {
        limit
    }
}
