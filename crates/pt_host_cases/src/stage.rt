//! What may be called on a host now.
ghost use Rattle.std.specs.Prelude.{◌≡◌, ◌+◌, ◌*◌, ◌≤◌, length, IfOk, IfSome, IsTrue, IsSomeAnd, None, find};
ghost use Rattle.std.specs.Option.{option_map, option_copied};
ghost use Rattle.std.specs.Str.{bytes_eq};
ghost use Rattle.pt_host.specs.Disk.{shown};
ghost use Rattle.pt_host.specs.Listed.{by_name};
ghost use Rattle.pt_memhost.specs.Memory.{world_in};

use pt_dirhost::DirHost;
use pt_host::{Host, Name};
use pt_memhost::MemHost;
use pt_plain::List;
use std::alloc::AllocError;
use std::rt::Runtime;

/// A host that says what may be called on it now, without a call. One that tells no content may be asked anything.
pub(crate) trait Stage: Host {
    /// Whether a call may be made on a file of which so many bytes have to be there.
    fn has(&self, name: &Name, least: u64) -> Result<bool, AllocError>
        ensures { IfOk result (λ has. IsTrue has → Self.tells → IsSomeAnd (shown (Self.world self.now).now.fs name.now) (λ file. least ≤ length file)) };

    /// Whether a file of this name may be made.
    fn lacks(&self, name: &Name) -> Result<bool, AllocError>
        ensures { IfOk result (λ lacks. IsTrue lacks → Self.tells → shown (Self.world self.now).now.fs name.now ≡ None) };
}

impl<R: Runtime> Stage for DirHost<R> {
    fn has(&self, _name: &Name, _least: u64) -> Result<bool, AllocError> {
        Ok(true)
    }

    fn lacks(&self, _name: &Name) -> Result<bool, AllocError> {
        Ok(true)
    }
}

impl Stage for MemHost {
    fn has(&self, name: &Name, least: u64) -> Result<bool, AllocError> {
        match length_now(self, name)? {
            Some(Some(length)) => Ok(least <= length),
            _ => Ok(false),
        }
    }

    fn lacks(&self, name: &Name) -> Result<bool, AllocError> {
        match length_now(self, name)? {
            Some(None) => Ok(true),
            _ => Ok(false),
        }
    }
}

/// The present length of a file, by the image with all pending names and present lengths. `None` where that has no number.
fn length_now(host: &MemHost, name: &Name) -> Result<Option<Option<u64>>, AllocError>
    ensures { IfOk result (λ told. IfSome told (λ length_is. length_is ≡ option_map length (shown (world_in host.now).now.fs name.now))) }
{
    let Some(choice) = present_choice(host.pending()) else {
        return Ok(None);
    };
    let image = host.image_pick(choice)?;
    Ok(Some(length_in(image.files.items(), name)))
}

/// The choice by which an image is what is shown now.
fn present_choice(pending: u64) -> Option<u64>
    ensures { IfSome result (λ choice. choice ≡ 1 * (pending + 1) + pending) }
{
    let twice = pending.checked_mul(2)?;
    twice.checked_add(1)
}

fn length_in(files: &[(Name, List<u8>)], name: &Name) -> Option<u64>
    ensures { result ≡ option_map length (by_name files.now name.now) }
{
    let (_, bytes) = find_file(files, name)?;
    Some(bytes.items().len() as u64)
}

fn find_file<'a>(files: &'a [(Name, List<u8>)], name: &Name) -> Option<&'a (Name, List<u8>)>
    ensures { option_copied result ≡ find (λ file. bytes_eq file.0 name.now) files.now }
{
    files.iter().find(|file| file.0 == *name)
}
