ghost use Rattle.std.specs.Prelude.{◌≡◌, ◌↔◌, All, Some, IsTrue, IfSome, IfNone, IfOk, IfErr, nat_eq, refl};
ghost use Rattle.std.specs.Cmp.{partial_equiv_from_equiv};
ghost use Rattle.std.specs.Cmp.Lexicographic.{pointwise, slice_cmp, nat_list_eq_equiv, nat_list_cmp_total, texts_po, texts_ties};
ghost use Rattle.std.specs.Ordering.{nat_cmp};
ghost use Rattle.pt_value.specs.Ident.{IsFirstBad, IsIdent, IsSameName, is_ident_byte};

use pt_plain::padded;
use std::cmp::Ordering;
use std::marker::Model;

/// Why bytes are no identifier: the first of these that holds.
#[derive(Clone, Copy, Debug)]
pub enum NameFault {
    /// There are no bytes.
    Empty,
    /// There are more than 64 bytes.
    TooLong,
    /// The byte at this place, the first such one, may not stand in an identifier. Places count from 0.
    BadByte { place: usize },
}

/// The name of a table, a column or a partition: 1 to 64 ASCII letters, digits, `_` and `$`. The bytes past `len` are 0.
/// It is ordered by its bytes, so that names which differ in case alone are two; `same` ignores case.
#[derive(Clone, Copy, Debug)]
pub struct Ident {
    len: u8,
    bytes: [u8; 64],
}

impl Model for Ident {
    ghost use Rattle.std.specs.Prelude.{◌≡◌, List, ℕ, length, take};
    ghost use Rattle.std.proofs.Common.{◌∙◌, ap, sym};
    ghost use Rattle.pt_plain.specs.Padded.{padded_to};
    ghost use Rattle.pt_value.specs.Ident.{IsIdent};

    ghost Value = { List ℕ };

    ghost view = { λ a. take a.len a.bytes };

    ghost invariant = { λ a. IsIdent (take a.len a.bytes) × (a.bytes ≡ padded_to 64 (take a.len a.bytes)) × (length (take a.len a.bytes) ≡ a.len) };

    ghost inverse = { λ xs. record { len = length xs; bytes = padded_to 64 xs } };

    ghost inverse_ok = { λ a h. ap (λ n. record { len = n; bytes = padded_to 64 (take a.len a.bytes) }) h.2 ∙ ap (λ (b : List ℕ). record { len = a.len; bytes = b }) (sym h.1) };
}

impl Ident {
    ghost use Rattle.pt_value.specs.NameFault.{IsNameFault};

    /// The identifier of these bytes, or the first fault of them, by `IsNameFault`. It takes no memory.
    pub fn of(bytes: &[u8]) -> Result<Ident, NameFault>
        ensures value { IfOk result (λ name. name ≡ bytes.now) }
        ensures ident { IfOk result (λ _. IsIdent bytes.now) }
        ensures fault { IfErr result (IsNameFault bytes.now) }
    {
        if bytes.is_empty() {
            return Err(NameFault::Empty);
        }
        if bytes.len() > 64 {
            return Err(NameFault::TooLong);
        }
        if let Some(place) = bad_place(bytes) {
            return Err(NameFault::BadByte { place });
        }
        Ok(Ident {
            len: bytes.len() as u8,
            bytes: padded(bytes),
        })
    }

    /// The bytes of the identifier. It takes no memory.
    pub fn bytes(&self) -> &[u8]
        ensures value { result.now ≡ self.now }
        ensures ident { IsIdent self.now }
    {
        &self.bytes[..self.len as usize]
    }

    /// Whether two identifiers are the same but for the case of their letters. It takes no memory.
    pub fn same(&self, other: &Ident) -> bool
        ensures { IsTrue result ↔ IsSameName self.now other.now }
    {
        self.bytes().eq_ignore_ascii_case(other.bytes())
    }
}

/// The place of the first byte that may not stand in an identifier.
fn bad_place(bytes: &[u8]) -> Option<usize>
    ensures some { IfSome result (IsFirstBad bytes.now) }
    ensures none { IfNone result (All (λ b. IsTrue (is_ident_byte b)) bytes.now) }
{
    for (place, b) in bytes.iter().enumerate() {
        if !is_ident_byte(*b) {
            return Some(place);
        }
    }
    None
}

/// Whether a byte may stand in an identifier.
fn is_ident_byte(b: u8) -> bool
    ensures { result ≡ is_ident_byte b }
{
    b.is_ascii_lowercase() || b.is_ascii_uppercase() || b.is_ascii_digit() || b == b'_' || b == b'$'
}

impl PartialEq for Ident {
    ghost eq = { pointwise nat_eq };

    ghost laws = { partial_equiv_from_equiv nat_list_eq_equiv };

    fn eq(&self, other: &Ident) -> bool {
        self.bytes() == other.bytes()
    }
}

impl Eq for Ident {
    ghost laws = { nat_list_eq_equiv };
}

impl PartialOrd for Ident {
    ghost partial_cmp = { λ a b. Some (slice_cmp nat_cmp a b) };

    ghost laws = { texts_po };

    fn partial_cmp(&self, other: &Ident) -> Option<Ordering> {
        Some(self.cmp(other))
    }
}

/// By bytes.
impl Ord for Ident {
    ghost cmp = { slice_cmp nat_cmp };

    ghost total = { nat_list_cmp_total };

    ghost matches_partial_cmp = { λ a b. refl };

    ghost matches_eq = { texts_ties };

    fn cmp(&self, other: &Ident) -> Ordering {
        self.bytes().cmp(other.bytes())
    }
}
