//! Sets of values of a column, whatever its kind.
ghost use Rattle.std.specs.Prelude.{◌≡◌, ◌+◌, ◌<◌, ◌≤◌, ◌&&◌, ◌^◌, ℤ, true, IfOk, IfSome, IsOk, MatchBool};
ghost use Rattle.std.specs.Option.{option_copied, option_map};
ghost use Rattle.pt_value.specs.Value.{value_cmp};
ghost use Rattle.pt_value.specs.declared.value.Value.{Value};
ghost use Rattle.pt_value.specs.declared.value.Value.TheVariants.{Int};
ghost use Rattle.pt_expr.specs.FoundCond.{checked_cond};
ghost use Rattle.pt_interval.specs.Counting.{AreValues};
ghost use Rattle.pt_interval.specs.Instances.{is_int};
ghost use Rattle.pt_reach.specs.Domains.{IsSome, has_in, is_of_column, passes};
ghost use Rattle.pt_reach.specs.May.{may_hold};
ghost use Rattle.pt_reach.specs.Scales.{greatest_narrow, least_narrow};

use crate::reach::Reach;
use crate::{following, listing, searching};
use pt_ast::{Cmp, Columns, Cond};
use pt_value::{Bin, Cell, Value};
use std::alloc::{AllocError, Global};

/// A set of values of a column, NULL or not, and spans of the others.
#[derive(Drop)]
pub enum Domain {
    /// Of INT and BIGINT.
    Numbers(Reach<i128>),
    /// Of DATE.
    Days(Reach<i32>),
    /// Of BINARY and VARBINARY.
    Strings(Reach<Bin>),
}

/// A test of values: how they stand to a constant, in the order of all values, in which NULL is lowest.
#[derive(Clone, Copy)]
pub struct Side<'a> {
    pub cmp: Cmp,
    pub cell: Cell<'a>,
}

impl Domain {
    /// The values of the column at a position at which a condition may hold, byte strings of any length. Where there is no such column
    /// only NULL is looked at, and without a condition every value is in the set.
    pub fn of(
        alloc: Global,
        columns: &Columns,
        at: usize,
        cond: Option<&Cond>,
    ) -> Result<Domain, AllocError>
        requires checked { IfSome (option_copied cond) (λ own. IsOk (checked_cond columns.now own)) }
        ensures { IfOk result (λ domain. (v : Value) → has_in domain v ≡ (is_of_column columns.now at v && may_hold columns.now at (option_copied cond.entry) v)) }
    {
        let domain = following::followed(alloc, columns, at, cond)?;
        Ok(domain)
    }

    /// Whether some value of the set passes both tests.
    pub fn has_some(
        &self,
        alloc: Global,
        first: Option<Side>,
        second: Option<Side>,
    ) -> Result<bool, AllocError>
        ensures { IfOk result (λ some. MatchBool some (IsSome (has_in self.now) (passes first.entry) (passes second.entry)) (¬ (IsSome (has_in self.now) (passes first.entry) (passes second.entry)))) }
    {
        match self {
            Domain::Numbers(reach) => {
                let some = searching::has_some(alloc, reach, first, second)?;
                Ok(some)
            }
            Domain::Days(reach) => {
                let some = searching::has_some(alloc, reach, first, second)?;
                Ok(some)
            }
            Domain::Strings(reach) => {
                let some = searching::has_some(alloc, reach, first, second)?;
                Ok(some)
            }
        }
    }

    /// The values of the set in rising order, each once; `None` exactly where they are more than `limit`. Those that are numbers are of
    /// 64 bits.
    pub fn values(&self, alloc: Global, limit: u32) -> Result<Option<Vec<Value>>, AllocError>
        requires narrow { (n : ℤ) → has_in self.now (Int n) ≡ true → is_int least_narrow greatest_narrow n ≡ true }
        requires some { 0 < limit }
        requires few { limit + 1 < 2 ^ 32 }
        ensures { IfOk result (λ found. AreValues value_cmp (λ v. true) (has_in self.now) limit (option_map (λ values. values.items) found)) }
    {
        match self {
            Domain::Numbers(reach) => {
                let found = listing::values(alloc, reach, limit)?;
                Ok(found)
            }
            Domain::Days(reach) => {
                let found = listing::values(alloc, reach, limit)?;
                Ok(found)
            }
            Domain::Strings(reach) => {
                let found = listing::values(alloc, reach, limit)?;
                Ok(found)
            }
        }
    }
}
