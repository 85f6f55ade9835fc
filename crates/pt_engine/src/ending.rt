ghost use Rattle.std.specs.Prelude.{◌≡◌, ◌+◌, ◌≤◌, ◌++◌, length, take, drop};
ghost use Rattle.pt_engine.specs.declared.ending.Ending.TheVariants.{NoMemory};
ghost use Rattle.pt_engine.specs.Endings.{code_of, damaged_line, ending_of, line_of};

use itoa::Buffer;
use pt_host::Name;
use pt_store::Stop;
use std::alloc::AllocError;

/// How a run ends.
#[derive(Clone, Copy, Debug)]
pub enum Ending {
    /// The input was taken to its end, every answer is printed, all effects hold.
    Done,
    /// The words of the command line have no form; nothing was touched.
    Usage,
    /// A call on the directory failed.
    DiskFault,
    /// Memory was wanting.
    NoMemory,
    /// The directory holds no database: this file isn't in its grammar at this byte offset.
    Damaged { name: Name, place: u64 },
    /// The input failed.
    InputFault,
    /// The output failed.
    OutputFault,
    /// A piece or the input is longer than its limit.
    TooLong,
}

impl From<AllocError> for Ending {
    ghost from_gives = { λ _ ending. ending ≡ NoMemory };

    fn from(_: AllocError) -> Self {
        Ending::NoMemory
    }
}

impl From<Stop> for Ending {
    ghost from_gives = { λ stop ending. ending ≡ ending_of stop };

    fn from(stop: Stop) -> Self {
        match stop {
            Stop::NoMemory => Ending::NoMemory,
            Stop::Fault => Ending::DiskFault,
            Stop::Bad { name, place } => Ending::Damaged { name, place },
        }
    }
}

/// The status that the process ends with. It takes no memory.
pub fn code(ending: &Ending) -> u8
    ensures { result ≡ code_of ending.now }
{
    match ending {
        Ending::Done => 0,
        Ending::Usage => 2,
        Ending::DiskFault => 3,
        Ending::NoMemory => 4,
        Ending::Damaged { .. } => 5,
        Ending::InputFault => 6,
        Ending::OutputFault => 7,
        Ending::TooLong => 8,
    }
}

/// Writes the line of standard error, without a line feed, to the front of `into`, and answers its length in bytes: 0 for
/// `Done`. It takes no memory.
pub fn line(ending: &Ending, into: &mut [u8; 192]) -> usize
    ensures length { result ≡ length (line_of ending.now) }
    ensures bytes { into.new ≡ line_of ending.now ++ drop result into.old }
{
    match ending {
        Ending::Done => 0,
        Ending::Usage => put(into, 0, b"usage: run DIR"),
        Ending::DiskFault => put(into, 0, b"disk fault"),
        Ending::NoMemory => put(into, 0, b"no memory"),
        Ending::Damaged { name, place } => damaged(name, *place, into),
        Ending::InputFault => put(into, 0, b"input fault"),
        Ending::OutputFault => put(into, 0, b"output fault"),
        Ending::TooLong => put(into, 0, b"too long"),
    }
}

fn damaged(name: &Name, place: u64, into: &mut [u8; 192]) -> usize
    ensures length { result ≡ length (damaged_line name.now place) }
    ensures bytes { into.new ≡ damaged_line name.now place ++ drop result into.old }
{
    let mut digits = Buffer::new();
    let name_at = put(into, 0, b"damaged ");
    let space_at = put(into, name_at, name.bytes());
    let place_at = put(into, space_at, b" ");
    put(into, place_at, digits.format(place).as_bytes())
}

/// Writes these bytes over those at `at`, and answers where they end.
fn put(into: &mut [u8; 192], at: usize, bytes: &[u8]) -> usize
    requires { at + length bytes.now ≤ 192 }
    ensures end { result ≡ at + length bytes.now }
    ensures bytes { into.new ≡ take at into.old ++ bytes.now ++ drop result into.old }
{
    for (i, b) in bytes.iter().enumerate() {
        into[at + i] = *b;
    }
    at + bytes.len()
}
