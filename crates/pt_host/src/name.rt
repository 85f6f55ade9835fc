ghost use Rattle.std.specs.Prelude.{◌≡◌, ◌≤◌, ◌+◌, ◌++◌, ◌↔◌, length, IsTrue, IfSome, IfNone, All, Some, nat_eq, refl};
ghost use Rattle.std.specs.Cmp.{partial_equiv_from_equiv};
ghost use Rattle.std.specs.Cmp.Lexicographic.{pointwise, slice_cmp, nat_list_eq_equiv, nat_list_cmp_total, texts_po, texts_ties};
ghost use Rattle.std.specs.Ordering.{nat_cmp};
ghost use Rattle.pt_host.specs.Name.{IsName, is_name_byte, is_extra, shadow_end, temp_end};

use pt_plain::{joined, padded};
use std::cmp::Ordering;
use std::marker::Model;

/// The name of a file: 1 to 160 bytes of ASCII letters, digits, `_`, `$`, `#` and `.`, the first one no `.`.
/// The bytes past `len` are 0.
#[derive(Clone, Copy, Debug)]
pub struct Name {
    len: u8,
    bytes: [u8; 160],
}

impl Model for Name {
    ghost use Rattle.std.specs.Prelude.{◌≡◌, ◌-◌, ◌≤◌, ◌++◌, ℕ, List, length, take, replicate};
    ghost use Rattle.std.proofs.Common.{◌∙◌, ap, sym};
    ghost use Rattle.pt_plain.specs.Padded.{padded_to};
    ghost use Rattle.pt_host.specs.Name.{IsName};

    ghost Value = { List ℕ };

    ghost view = { λ a. take a.len a.bytes };

    ghost invariant = { λ a. IsName (take a.len a.bytes) × (a.bytes ≡ padded_to 160 (take a.len a.bytes)) × (length (take a.len a.bytes) ≡ a.len) };

    ghost inverse = { λ xs. record { len = length xs; bytes = padded_to 160 xs } };

    ghost inverse_ok = { λ a h. ap (λ n. record { len = n; bytes = padded_to 160 (take a.len a.bytes) }) h.2 ∙ ap (λ (b : List ℕ). record { len = a.len; bytes = b }) (sym h.1) };
}

impl Name {
    /// The name with these bytes. `None` exactly where they are no name. It takes no memory.
    pub fn of(bytes: &[u8]) -> Option<Name>
        ensures some { IfSome result (λ name. (name ≡ bytes.now) × IsName bytes.now) }
        ensures none { IfNone result (IsName bytes.now → ⊥) }
    {
        if !is_name(bytes) {
            return None;
        }
        Some(Name {
            len: bytes.len() as u8,
            bytes: padded(bytes),
        })
    }

    /// The bytes of the name.
    pub fn bytes(&self) -> &[u8]
        ensures value { result.now ≡ self.now }
        ensures name { IsName self.now }
    {
        &self.bytes[..self.len as usize]
    }

    /// The name of the shadow by which a file of this name is replaced. It takes no memory.
    pub fn shadow(self) -> Name
        requires { length self ≤ 154 }
        ensures { result ≡ self ++ shadow_end }
    {
        self.extended(b".new")
    }

    /// The temporary name of an exchange. It takes no memory.
    pub fn temp(self) -> Name
        requires { length self ≤ 154 }
        ensures { result ≡ self ++ temp_end }
    {
        self.extended(b".swap")
    }

    /// Whether it ends in `.new` or `.swap`. It takes no memory.
    pub fn is_extra(&self) -> bool
        ensures { result ≡ is_extra self.now }
    {
        let bytes = self.bytes();
        bytes.ends_with(b".new") || bytes.ends_with(b".swap")
    }

    fn extended(self, end: &[u8]) -> Name
        requires room { length self + length end.now ≤ 160 }
        requires named { All (λ b. IsTrue (is_name_byte b)) end.now }
        ensures { result ≡ self ++ end.now }
    {
        Name {
            len: self.len + end.len() as u8,
            bytes: joined(self.bytes(), end),
        }
    }
}

fn is_name(bytes: &[u8]) -> bool
    ensures { IsTrue result ↔ IsName bytes.now }
{
    match bytes.first() {
        None => false,
        Some(first) => {
            *first != b'.' && bytes.len() <= 160 && bytes.iter().all(|b| is_name_byte(*b))
        }
    }
}

fn is_name_byte(b: u8) -> bool
    ensures { result ≡ is_name_byte b }
{
    b.is_ascii_lowercase()
        || b.is_ascii_uppercase()
        || b.is_ascii_digit()
        || b == b'_'
        || b == b'$'
        || b == b'#'
        || b == b'.'
}

impl PartialEq for Name {
    ghost eq = { pointwise nat_eq };

    ghost laws = { partial_equiv_from_equiv nat_list_eq_equiv };

    fn eq(&self, other: &Name) -> bool {
        self.bytes() == other.bytes()
    }
}

impl Eq for Name {
    ghost laws = { nat_list_eq_equiv };
}

impl PartialOrd for Name {
    ghost partial_cmp = { λ a b. Some (slice_cmp nat_cmp a b) };

    ghost laws = { texts_po };

    fn partial_cmp(&self, other: &Name) -> Option<Ordering> {
        Some(self.cmp(other))
    }
}

/// By bytes.
impl Ord for Name {
    ghost cmp = { slice_cmp nat_cmp };

    ghost total = { nat_list_cmp_total };

    ghost matches_partial_cmp = { λ a b. refl };

    ghost matches_eq = { texts_ties };

    fn cmp(&self, other: &Name) -> Ordering {
        self.bytes().cmp(other.bytes())
    }
}
