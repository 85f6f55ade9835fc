ghost use Rattle.std.specs.Prelude.{◌≡◌, ◌-◌, ◌≤◌, length};
ghost use Rattle.pt_rowfile.specs.Counter.{counter_of, last_number};

use pt_bytes::Cursor;

/// The next serial is at most this.
const MOST: u64 = 1 << 62;

/// The next serial that the bytes of `serials.cnt` give: their last number, and 1 where they are empty. Where they are damaged, the
/// place: the last multiple of 8 where their length is none, and that of the last number where it is 0 or above 2^62. It takes no
/// memory.
#[tactic(auto, unfolding(crate::specs::Counter::counter_of))]
pub fn counter_of(bytes: &[u8]) -> Result<u64, u64>
    ensures { result ≡ counter_of bytes.now }
{
    let len = bytes.len();
    if len % 8 != 0 {
        return Err((8 * (len / 8)) as u64);
    }
    if len == 0 {
        return Ok(1);
    }
    let next = last_of(bytes);
    if next == 0 || next > MOST {
        return Err((len - 8) as u64);
    }
    Ok(next)
}

/// The number of the last eight bytes.
fn last_of(bytes: &[u8]) -> u64
    requires { 8 ≤ length bytes.now }
    ensures { result ≡ last_number bytes.now }
{
    match Cursor::new(bytes).u64_at(bytes.len() - 8) {
        Some(number) => number,
        None => unreachable!(),
    }
}
