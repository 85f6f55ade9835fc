ghost use Rattle.std.specs.Prelude.{◌≡◌, ◌+◌, ◌-◌, ◌*◌, ◌^◌, ◌≤◌, min, pos, All, IsTrue};
ghost use Rattle.pt_token.specs.Bytes.{is_digit};
ghost use Rattle.pt_parse_expr.specs.Symbols as spec;

/// The number that digits write, at most 2^127 - 1.
pub(crate) fn number(digits: &[u8]) -> i128
    requires { All (λ b. IsTrue (is_digit b)) digits.now }
    ensures { result ≡ pos (spec.number digits.now) }
{
    let mut number = 0u128;
    for b in digits {
        number = with_digit(number, *b);
    }
    number.min(i128::MAX as u128) as i128
}

/// The number with one more digit, at most 2^128 - 1.
fn with_digit(number: u128, digit: u8) -> u128
    ensures { result ≡ min (10 * number + (digit - 48)) (2 ^ 128 - 1) }
{
    number
        .saturating_mul(10)
        .saturating_add((digit.saturating_sub(b'0')) as u128)
}
