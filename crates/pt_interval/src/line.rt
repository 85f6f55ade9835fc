ghost use Rattle.std.specs.Prelude.{◌≡◌, Bool, true, false, IfOk};
ghost use Rattle.std.specs.Option.{option_copied};
ghost use Rattle.std.specs.declared.cmp.Ordering.{Ordering as Order};
ghost use Rattle.pt_interval.specs.Line.{IsEnd, IsLine, is_between};
ghost use Rattle.pt_interval.specs.Counting.{IsCount};

use std::alloc::{AllocError, Global};
use std::cmp::Ordering;

/// The values of a type in their order. Not everything of the type need be a value: `is_value` tells.
pub trait Line: Drop + Sized {
    ghost cmp: { Self → Self → Order };

    ghost is_value: { Self → Bool };

    ghost least: { Self };

    ghost next: { Self → Self };

    ghost is_greatest: { Self → Bool };

    /// How two compare. It takes no memory.
    fn cmp(&self, other: &Self) -> Ordering
        ensures { result ≡ cmp self.now other.now };

    /// Whether this is a value. It takes no memory.
    fn is_value(&self) -> bool
        ensures { result ≡ is_value self.now };

    /// Whether no value is above this one. It takes no memory.
    fn is_greatest(&self) -> bool
        requires { is_value self.now ≡ true }
        ensures { result ≡ is_greatest self.now };

    /// The least value.
    fn least(alloc: Global) -> Result<Self, AllocError>
        ensures { IfOk result (λ v. v ≡ least) };

    /// The least value above this one.
    fn next(&self, alloc: Global) -> Result<Self, AllocError>
        requires value { is_value self.now ≡ true }
        requires not_greatest { is_greatest self.now ≡ false }
        ensures { IfOk result (λ v. v ≡ next self.now) };

    /// An equal value.
    fn copy(&self, alloc: Global) -> Result<Self, AllocError>
        ensures { IfOk result (λ v. v ≡ self.now) };

    /// How many values lie from `from` on, or from the beginning, and below `to`, or up to the end: at most `limit`. It takes no
    /// memory, and doesn't go through them.
    fn gap(from: Option<&Self>, to: Option<&Self>, limit: u32) -> u32
        requires from { IsEnd is_value (option_copied from) }
        requires to { IsEnd is_value (option_copied to) }
        ensures { IsCount cmp is_value (is_between cmp (option_copied from.entry) (option_copied to.entry)) limit result };

    ghost laws: { IsLine cmp is_value least next is_greatest };
}
