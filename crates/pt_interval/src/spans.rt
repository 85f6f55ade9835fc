ghost use Rattle.std.specs.Prelude.{◌≡◌, ◌+◌, ◌^◌, ◌<◌, true, false, not, ◌&&◌, ◌||◌, [], ◌∷◌, IfOk, MatchBool};
ghost use Rattle.std.specs.List.{list_any};
ghost use Rattle.std.specs.Option.{option_map};
ghost use Rattle.std.specs.Ordering.{is_eq, is_ge, is_lt};
ghost use Rattle.pt_interval.specs.Line.{IsEnd, is_past};
ghost use Rattle.pt_interval.specs.Counting.{AreValues, IsCount};
ghost use Rattle.pt_interval.specs.Spans.{IsSet, has, is_within};

use crate::span::{Span, is_past};
use crate::{Line, listing, meeting, outside};
use std::alloc::{AllocError, Global};
use std::marker::Model;

/// A set of values. Contracts see the list of its spans, and `has` tells which values it has.
#[derive(Drop)]
pub struct Spans<T: Line> {
    spans: Vec<Span<T>>,
}

impl<T: Line> Model for Spans<T> {
    ghost use Rattle.std.specs.Prelude.{List as Listed, Some};
    ghost use Rattle.pt_interval.specs.declared.span.Span.{Span as Spanned};
    ghost use Rattle.pt_interval.specs.Spans.{IsRisingFrom};

    ghost Value = { Listed (Spanned T) };

    ghost view = { λ set. set.spans.items };

    ghost invariant = { λ set. IsRisingFrom T.cmp T.is_value (Some T.least) set.spans.items };
}

impl<T: Line> Spans<T> {
    /// No value. It takes no memory.
    pub fn none(alloc: Global) -> Spans<T>
        ensures { result ≡ [] }
    {
        Spans {
            spans: Vec::new(alloc),
        }
    }

    /// Every value.
    pub fn all(alloc: Global) -> Result<Spans<T>, AllocError>
        ensures { IfOk result (λ set. IsSet T.cmp T.is_value set (λ v. true)) }
    {
        let least = T::least(alloc)?;
        let set = Spans::one(alloc, least, None)?;
        Ok(set)
    }

    /// This value and those above it.
    pub fn from(alloc: Global, value: T) -> Result<Spans<T>, AllocError>
        requires { T.is_value value ≡ true }
        ensures { IfOk result (λ set. IsSet T.cmp T.is_value set (λ v. is_ge (T.cmp v value))) }
    {
        let set = Spans::one(alloc, value, None)?;
        Ok(set)
    }

    /// The values below this one.
    pub fn below(alloc: Global, value: T) -> Result<Spans<T>, AllocError>
        requires { T.is_value value ≡ true }
        ensures { IfOk result (λ set. IsSet T.cmp T.is_value set (λ v. is_lt (T.cmp v value))) }
    {
        let least = T::least(alloc)?;
        let set = Spans::between(alloc, least, Some(value))?;
        Ok(set)
    }

    /// This value alone.
    pub fn point(alloc: Global, value: T) -> Result<Spans<T>, AllocError>
        requires { T.is_value value ≡ true }
        ensures { IfOk result (λ set. IsSet T.cmp T.is_value set (λ v. is_eq (T.cmp v value))) }
    {
        if value.is_greatest() {
            let set = Spans::one(alloc, value, None)?;
            return Ok(set);
        }
        let next = value.next(alloc)?;
        let set = Spans::one(alloc, value, Some(next))?;
        Ok(set)
    }

    /// The values from one on, and below another, if there is one. It may be empty.
    pub fn between(alloc: Global, from: T, to: Option<T>) -> Result<Spans<T>, AllocError>
        requires from { T.is_value from ≡ true }
        requires to { IsEnd T.is_value to }
        ensures { IfOk result (λ set. IsSet T.cmp T.is_value set (is_within T.cmp (record { from = from; to = to }))) }
    {
        if is_past(&from, to.as_ref()) {
            return Ok(Spans::none(alloc));
        }
        let set = Spans::one(alloc, from, to)?;
        Ok(set)
    }

    /// The values that are in both sets. By halves it passes over the spans of this set that end before the other set begins, and goes
    /// once over each from there on.
    pub fn meet(&self, alloc: Global, other: &Spans<T>) -> Result<Spans<T>, AllocError>
        ensures { IfOk result (λ set. (v : T) → has T.cmp set v ≡ (has T.cmp self.now v && has T.cmp other.now v)) }
    {
        let spans = meeting::shared(alloc, &self.spans, &other.spans)?;
        Ok(Spans { spans })
    }

    /// The values that aren't in the set. It goes once over it.
    pub fn outside(&self, alloc: Global) -> Result<Spans<T>, AllocError>
        ensures { IfOk result (λ set. IsSet T.cmp T.is_value set (λ v. not (has T.cmp self.now v))) }
    {
        let spans = outside::gaps(alloc, &self.spans)?;
        Ok(Spans { spans })
    }

    /// The values that are in one of the sets. It goes once over each.
    pub fn join(&self, alloc: Global, other: &Spans<T>) -> Result<Spans<T>, AllocError>
        ensures { IfOk result (λ set. IsSet T.cmp T.is_value set (λ v. has T.cmp self.now v || has T.cmp other.now v)) }
    {
        let outside = self.outside(alloc)?;
        let other = other.outside(alloc)?;
        let neither = outside.meet(alloc, &other)?;
        let set = neither.outside(alloc)?;
        Ok(set)
    }

    /// The values that are in one of these sets. It joins by halves, so n sets cost n log n.
    pub fn join_all(alloc: Global, sets: &[Spans<T>]) -> Result<Spans<T>, AllocError>
        ensures { IfOk result (λ all. IsSet T.cmp T.is_value all (λ v. list_any (λ set. has T.cmp set v) sets.now)) }
    {
        match sets {
            [] => Ok(Spans::none(alloc)),
            [set] => {
                let none = Spans::none(alloc);
                let all = set.join(alloc, &none)?;
                Ok(all)
            }
            _ => {
                let (front, back) = sets.split_at(sets.len() / 2);
                let front = Spans::join_all(alloc, front)?;
                let back = Spans::join_all(alloc, back)?;
                let all = front.join(alloc, &back)?;
                Ok(all)
            }
        }
    }

    /// Whether this value is in the set. It takes no memory.
    pub fn has(&self, value: &T) -> bool
        ensures { result ≡ has T.cmp self.now value.now }
    {
        listing::has(&self.spans, value)
    }

    /// Whether no value is in the set. It takes no memory.
    pub fn is_empty(&self) -> bool
        ensures { MatchBool result (IsSet T.cmp T.is_value self.now (λ v. false)) ((v : T) × (T.is_value v ≡ true) × (has T.cmp self.now v ≡ true)) }
    {
        self.spans.as_slice().is_empty()
    }

    /// How many values are in the set, at most `limit`. It takes no memory, and doesn't go through them.
    pub fn count_up_to(&self, limit: u32) -> u32
        ensures { IsCount T.cmp T.is_value (has T.cmp self.now) limit result }
    {
        listing::count(&self.spans, limit)
    }

    /// The values of the set in rising order, each once; None exactly where they are more than `limit`. They are counted first, so
    /// where there are more it goes through none of them.
    pub fn values(&self, alloc: Global, limit: u32) -> Result<Option<Vec<T>>, AllocError>
        requires { limit + 1 < 2 ^ 32 }
        ensures { IfOk result (λ found. AreValues T.cmp T.is_value (has T.cmp self.now) limit (option_map (λ values. values.items) found)) }
    {
        if self.count_up_to(limit + 1) > limit {
            return Ok(None);
        }
        let values = listing::values(alloc, &self.spans, limit + 1)?;
        Ok(Some(values))
    }

    fn one(alloc: Global, from: T, to: Option<T>) -> Result<Spans<T>, AllocError>
        requires from { T.is_value from ≡ true }
        requires to { IsEnd T.is_value to }
        requires has_one { is_past T.cmp from to ≡ false }
        ensures { IfOk result (λ set. set ≡ record { from = from; to = to } ∷ []) }
    {
        let mut spans = Vec::new(alloc);
        spans.push(Span { from, to })?;
        Ok(Spans { spans })
    }
}
