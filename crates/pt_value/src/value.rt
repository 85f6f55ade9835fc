ghost use Rattle.std.specs.Prelude.{◌≡◌, ◌↔◌, IsTrue, IfOk, refl};
ghost use Rattle.std.specs.Cmp.{eq_by_cmp_equiv, partial_equiv_from_equiv, partial_order_from_total};
ghost use Rattle.std.specs.Ordering.{as_partial_cmp, eq_by_cmp};
ghost use Rattle.pt_value.specs.Value.{rank, value_cmp, value_cmp_total};
ghost use Rattle.pt_value.specs.Fits.{BytesFit, DayFits, Fits, IntFits};
ghost use Rattle.pt_value.specs.Cell.{lent};

use pt_plain::List;
use std::alloc::{AllocError, Global};
use std::cmp::Ordering;

/// A byte string that contracts see as the list of its bytes.
pub type Bin = List<u8>;

/// What a cell of a table holds. A day is a count of days from 1970-01-01, negative before it.
#[derive(Drop)]
pub enum Value {
    Null,
    Int(i64),
    Day(i32),
    Bytes(Bin),
}

/// What a column takes, besides NULL.
#[derive(Clone, Copy, Debug, PartialEq, Eq)]
pub enum Kind {
    /// Integers of 4 bytes.
    Int,
    /// Integers of 8 bytes.
    BigInt,
    /// Days from 1000-01-01 to 9999-12-31.
    Date,
    /// Byte strings of at most this many bytes.
    Binary(u16),
}

/// A value that is lent, or the number that an expression came to.
#[derive(Clone, Copy)]
pub enum Cell<'a> {
    Null,
    Wide(i128),
    Day(i32),
    Bytes(&'a [u8]),
}

impl Value {
    /// Whether a column of this kind takes the value, but for NOT NULL: NULL fits each kind. It takes no memory.
    pub fn fits(&self, kind: Kind) -> bool
        ensures { IsTrue result ↔ Fits kind self.now }
    {
        match self {
            Value::Null => true,
            Value::Int(n) => int_fits(*n, kind),
            Value::Day(day) => day_fits(*day, kind),
            Value::Bytes(bytes) => bytes_fit(bytes.items(), kind),
        }
    }

    /// The value, lent. It takes no memory.
    pub fn cell(&self) -> Cell<'_>
        ensures { lent result ≡ self.now }
    {
        match self {
            Value::Null => Cell::Null,
            Value::Int(n) => Cell::Wide(*n as i128),
            Value::Day(day) => Cell::Day(*day),
            Value::Bytes(bytes) => Cell::Bytes(bytes.items()),
        }
    }

    /// An equal value.
    pub fn copy(&self, alloc: Global) -> Result<Value, AllocError>
        ensures { IfOk result (λ copied. copied ≡ self.now) }
    {
        match self {
            Value::Null => Ok(Value::Null),
            Value::Int(n) => Ok(Value::Int(*n)),
            Value::Day(day) => Ok(Value::Day(*day)),
            Value::Bytes(bytes) => Ok(Value::Bytes(Bin::from_slice(alloc, bytes.items())?)),
        }
    }
}

fn int_fits(n: i64, kind: Kind) -> bool
    ensures { IsTrue result ↔ IntFits kind n }
{
    match kind {
        Kind::Int => -2_147_483_648 <= n && n <= 2_147_483_647,
        Kind::BigInt => true,
        Kind::Date | Kind::Binary(_) => false,
    }
}

fn day_fits(day: i32, kind: Kind) -> bool
    ensures { IsTrue result ↔ DayFits kind day }
{
    match kind {
        Kind::Date => -354_285 <= day && day <= 2_932_896,
        Kind::Int | Kind::BigInt | Kind::Binary(_) => false,
    }
}

fn bytes_fit(bytes: &[u8], kind: Kind) -> bool
    ensures { IsTrue result ↔ BytesFit kind bytes.now }
{
    match kind {
        Kind::Binary(most) => bytes.len() <= most as usize,
        Kind::Int | Kind::BigInt | Kind::Date => false,
    }
}

impl Value {
    fn rank(&self) -> u8
        ensures { result ≡ rank self.now }
    {
        match self {
            Value::Null => 0,
            Value::Int(_) => 1,
            Value::Day(_) => 2,
            Value::Bytes(_) => 3,
        }
    }
}

impl PartialEq for Value {
    ghost eq = { eq_by_cmp value_cmp };

    ghost laws = { partial_equiv_from_equiv (eq_by_cmp_equiv value_cmp_total) };

    fn eq(&self, other: &Value) -> bool {
        self.cmp(other).is_eq()
    }
}

impl Eq for Value {
    ghost laws = { eq_by_cmp_equiv value_cmp_total };
}

impl PartialOrd for Value {
    ghost partial_cmp = { as_partial_cmp value_cmp };

    ghost laws = { partial_order_from_total value_cmp_total };

    fn partial_cmp(&self, other: &Value) -> Option<Ordering> {
        Some(self.cmp(other))
    }
}

/// NULL lowest, then integers, days and byte strings, those by bytes without padding. It takes no memory.
impl Ord for Value {
    ghost cmp = { value_cmp };

    ghost total = { value_cmp_total };

    ghost matches_partial_cmp = { λ a b. refl };

    ghost matches_eq = { λ a b. refl };

    #[tactic(auto, unfolding(crate::specs::Value::value_cmp))]
    fn cmp(&self, other: &Value) -> Ordering {
        match (self, other) {
            (Value::Int(a), Value::Int(b)) => a.cmp(b),
            (Value::Day(a), Value::Day(b)) => a.cmp(b),
            (Value::Bytes(a), Value::Bytes(b)) => a.items().cmp(b.items()),
            _ => self.rank().cmp(&other.rank()),
        }
    }
}
