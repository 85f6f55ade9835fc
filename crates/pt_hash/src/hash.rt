ghost use Rattle.std.specs.Prelude.{◌≡◌, ◌*◌, ◌<◌, ◌≤◌};
ghost use Rattle.pt_value.specs.Hashes.{hash_part, linear_part, residue, split_source, least_power, greatest_power};

/// The partition under HASH. It takes no memory.
pub fn hash_part(value: Option<i128>, n: u32) -> u32
    requires { 0 < n }
    ensures { result ≡ hash_part value n }
{
    let size = value.unwrap_or(0).unsigned_abs();
    (size % n as u128) as u32
}

/// The partition under LINEAR HASH. It takes no memory.
pub fn linear_part(value: Option<i128>, n: u32) -> u32
    requires { 0 < n }
    ensures { result ≡ linear_part value n }
{
    let number = value.unwrap_or(0);
    let power = least_power(n);
    let part = residue(number, power);
    if part < n as u64 {
        return part as u32;
    }
    residue(number, power / 2) as u32
}

/// The partition that rows leave under a LINEAR rule where n partitions become n + 1. It takes no memory.
pub fn split_source(n: u32) -> u32
    requires { 0 < n }
    ensures { result ≡ split_source n }
{
    n - greatest_power(n)
}

fn least_power(n: u32) -> u64
    requires { 0 < n }
    ensures value { result ≡ least_power n }
    ensures above { n ≤ result }
    ensures near { result < 2 * n }
{
    (n as u64).next_power_of_two()
}

fn greatest_power(n: u32) -> u32
    requires { 0 < n }
    ensures value { result ≡ greatest_power n }
    ensures below { result ≤ n }
{
    1 << n.ilog2()
}

/// The residue that isn't negative.
fn residue(number: i128, modulus: u64) -> u64
    requires { 0 < modulus }
    ensures value { result ≡ residue number modulus }
    ensures below { result < modulus }
{
    number.rem_euclid(modulus as i128) as u64
}
