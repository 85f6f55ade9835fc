ghost use Rattle.std.specs.Prelude.{◌≡◌, ◌≤◌, ◌+◌, ◌++◌, length};
ghost use Rattle.pt_plain.specs.Padded.{padded_to};

/// An array of these bytes, with zeros after them. It takes no memory.
pub fn padded<const N: usize>(bytes: &[u8]) -> [u8; N]
    requires { length bytes.now ≤ N }
    ensures { result ≡ padded_to N bytes.now }
{
    let mut all = [0u8; N];
    for (i, b) in bytes.iter().enumerate() {
        all[i] = *b;
    }
    all
}

/// An array of the bytes of both, the front first, with zeros after them. It takes no memory.
pub fn joined<const N: usize>(front: &[u8], end: &[u8]) -> [u8; N]
    requires { length front.now + length end.now ≤ N }
    ensures { result ≡ padded_to N (front.now ++ end.now) }
{
    let mut all: [u8; N] = padded(front);
    for (i, b) in end.iter().enumerate() {
        all[front.len() + i] = *b;
    }
    all
}
