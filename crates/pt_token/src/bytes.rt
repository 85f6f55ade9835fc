ghost use Rattle.std.specs.Prelude.{◌≡◌, ◌≤◌, length, drop, All, IsTrue};
ghost use Rattle.pt_token.specs.Bytes.{begins_word, front, is_digit, is_hex_digit, is_in, is_letter, is_quote, is_white, is_word_byte};

/// The kinds of bytes of which there are runs.
#[derive(Clone, Copy)]
pub(crate) enum Class {
    /// 0 to 9.
    Digit,
    /// 0 to 9, A to F, a to f.
    HexDigit,
    /// Letters, digits, `_` and `$`.
    WordByte,
}

/// The bytes of that kind at the front. It takes no memory.
pub(crate) fn front(class: Class, bytes: &[u8]) -> &[u8]
    ensures value { result.now ≡ front class bytes.now }
    ensures each { All (λ b. IsTrue (is_in class b)) result.now }
    ensures within { length result.now ≤ length bytes.now }
{
    for (i, b) in bytes.iter().enumerate() {
        if !is_in(class, *b) {
            return &bytes[..i];
        }
    }
    bytes
}

fn is_in(class: Class, b: u8) -> bool
    ensures { result ≡ is_in class b }
{
    match class {
        Class::Digit => is_digit(b),
        Class::HexDigit => is_hex_digit(b),
        Class::WordByte => is_word_byte(b),
    }
}

/// The bytes from a place on.
pub(crate) fn behind(bytes: &[u8], place: usize) -> &[u8]
    requires { place ≤ length bytes.now }
    ensures { result.now ≡ drop place bytes.now }
{
    &bytes[place..]
}

/// Whether a byte is a space, a tab, a line feed, a carriage return or one of the two bytes between these.
pub(crate) fn is_white(b: u8) -> bool
    ensures { result ≡ is_white b }
{
    b == b' ' || (9 <= b && b <= 13)
}

/// Whether a byte is a digit.
pub(crate) fn is_digit(b: u8) -> bool
    ensures { result ≡ is_digit b }
{
    b'0' <= b && b <= b'9'
}

/// Whether a byte may begin a word: a letter, `_` or `$`.
pub(crate) fn begins_word(b: u8) -> bool
    ensures { result ≡ begins_word b }
{
    is_letter(b) || b == b'_' || b == b'$'
}

/// Whether a byte is `'` or `"`.
pub(crate) fn is_quote(b: u8) -> bool
    ensures { result ≡ is_quote b }
{
    b == b'\'' || b == b'"'
}

fn is_letter(b: u8) -> bool
    ensures { result ≡ is_letter b }
{
    (b'A' <= b && b <= b'Z') || (b'a' <= b && b <= b'z')
}

fn is_word_byte(b: u8) -> bool
    ensures { result ≡ is_word_byte b }
{
    begins_word(b) || is_digit(b)
}

fn is_hex_digit(b: u8) -> bool
    ensures { result ≡ is_hex_digit b }
{
    is_digit(b) || (b'A' <= b && b <= b'F') || (b'a' <= b && b <= b'f')
}
