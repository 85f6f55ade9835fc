ghost use Rattle.std.specs.Prelude.{length};
ghost use Rattle.pt_host.specs.World.{Reads};

/// Reads bytes from a place on to the front of `into`, as many as fit or are there, and answers how many.
pub(crate) fn read_from(file: &[u8], at: u64, into: &mut [u8]) -> usize
    ensures { Reads file.now at result into.old into.new }
{
    let from = file.len().min(at as usize);
    let count = into.len().min(file.len() - from);
    into[..count].copy_from_slice(&file[from..from + count]);
    count
}
