ghost use Rattle.std.specs.Prelude.{◌≡◌, ◌<◌};
ghost use Rattle.pt_value.specs.Hashes.{fnv, key_number, key_part, key_step};

use crate::{hash_part, linear_part};
use pt_value::Value;

/// The basis and the prime of FNV-1a of 64 bits.
const BASIS: u64 = 14_695_981_039_346_656_037;

const PRIME: u64 = 1_099_511_628_211;

/// The key number of the columns so far and of one more, which has this value. It begins at 0. The one algorithm is 1. It takes no
/// memory.
pub fn key_step(algorithm: u8, before: u64, value: &Value) -> u64
    requires { algorithm ≡ 1 }
    ensures { result ≡ key_step before value.now }
{
    prove!(algorithm == 1);
    before.wrapping_mul(31).wrapping_add(key_number(value))
}

/// The partition under KEY, or LINEAR KEY, of a key number. It takes no memory.
pub fn key_part(number: u64, n: u32, linear: bool) -> u32
    requires { 0 < n }
    ensures { result ≡ key_part number n linear }
{
    let value = Some(number as i128);
    if linear {
        linear_part(value, n)
    } else {
        hash_part(value, n)
    }
}

fn key_number(value: &Value) -> u64
    ensures { result ≡ key_number value.now }
{
    match value {
        Value::Null => 0,
        Value::Int(number) => number.cast_unsigned(),
        Value::Day(day) => (*day as i64 + 719_528).cast_unsigned(),
        Value::Bytes(bytes) => fnv(bytes.items()),
    }
}

fn fnv(bytes: &[u8]) -> u64
    ensures { result ≡ fnv bytes.now }
{
    bytes.iter().fold(
        BASIS,
        |hash, byte| (hash ^ *byte as u64).wrapping_mul(PRIME),
    )
}
