ghost use Rattle.std.specs.Prelude.{◌≡◌, ℕ, ℤ, List, Bool, true, false, IfOk, refl};
ghost use Rattle.std.specs.Ordering.{int_cmp, is_eq, is_lt};
ghost use Rattle.pt_value.specs.Cell.{lent};
ghost use Rattle.pt_value.specs.Fits.{fits_date};
ghost use Rattle.pt_value.specs.Value.{value_cmp};
ghost use Rattle.pt_value.specs.declared.value.Value.{Value};
ghost use Rattle.pt_value.specs.declared.value.Value.TheVariants.{Int, Day, Bytes};
ghost use Rattle.pt_value.specs.declared.value.Kind.{Kind};
ghost use Rattle.pt_expr.specs.Found.{column_found, may_be_day};
ghost use Rattle.pt_expr.specs.Truths.{is_null};
ghost use Rattle.pt_expr.specs.Values.{as_day};
ghost use Rattle.pt_interval.specs.Instances.{are_bytes, bytes_cmp, is_int};
ghost use Rattle.pt_interval.specs.Spans.{IsSet};
ghost use Rattle.pt_reach.specs.Scales.{bytes_order, bytes_stay, day_order, greatest_narrow, has_bytes, has_days, has_numbers, least_narrow, number_order};

use pt_interval::{Line, Spans};
use pt_value::{Bin, Cell, Value as Held};
use std::alloc::{AllocError, Global};

/// The values that the columns of some kinds have besides NULL, along their line.
pub trait Scale: Line {
    ghost value: { Self → Value };

    ghost has_kind: { Kind → Bool };

    ghost is_narrow: { Self → Bool };

    /// The value, where it is one that a cell holds.
    fn to_value(&self, alloc: Global) -> Result<Held, AllocError>
        requires { is_narrow self.now ≡ true }
        ensures { IfOk result (λ held. held ≡ value self.now) };

    /// The values below a constant. One of another kind is below or above all.
    fn below(alloc: Global, constant: Cell) -> Result<Spans<Self>, AllocError>
        ensures { IfOk result (λ set. IsSet Self.cmp Self.is_value set (λ v. is_lt (value_cmp (value v) (lent constant.entry)))) };

    /// The value that equals a constant, if there is one.
    fn equal(alloc: Global, constant: Cell) -> Result<Spans<Self>, AllocError>
        ensures { IfOk result (λ set. IsSet Self.cmp Self.is_value set (λ v. is_eq (value_cmp (value v) (lent constant.entry)))) };

    ghost some: { (v : Self) → is_null (value v) ≡ false };

    ghost stays: { (k : Kind) (v : Self) → has_kind k ≡ true → may_be_day (column_found k).shape ≡ true → as_day (value v) ≡ value v };

    ghost orders: { (a b : Self) → value_cmp (value a) (value b) ≡ Self.cmp a b };
}

/// INT and BIGINT: whole numbers.
impl Scale for i128 {
    ghost value = { λ n. Int n };

    ghost has_kind = { has_numbers };

    ghost is_narrow = { is_int least_narrow greatest_narrow };

    ghost some = { λ v. refl };

    ghost orders = { number_order };

    fn to_value(&self, _alloc: Global) -> Result<Held, AllocError> {
        Ok(Held::Int(*self as i64))
    }

    ghost stays = { λ k v has day. refl };

    fn below(alloc: Global, constant: Cell) -> Result<Spans<i128>, AllocError> {
        match constant {
            Cell::Null => Ok(Spans::none(alloc)),
            Cell::Wide(number) => {
                let set = Spans::below(alloc, number)?;
                Ok(set)
            }
            Cell::Day(_) | Cell::Bytes(_) => {
                let all = Spans::all(alloc)?;
                Ok(all)
            }
        }
    }

    fn equal(alloc: Global, constant: Cell) -> Result<Spans<i128>, AllocError> {
        match constant {
            Cell::Wide(number) => {
                let set = Spans::point(alloc, number)?;
                Ok(set)
            }
            Cell::Null | Cell::Day(_) | Cell::Bytes(_) => Ok(Spans::none(alloc)),
        }
    }
}

/// DATE: days.
impl Scale for i32 {
    ghost value = { λ day. Day day };

    ghost has_kind = { has_days };

    ghost is_narrow = { λ day. true };

    ghost some = { λ v. refl };

    ghost orders = { day_order };

    fn to_value(&self, _alloc: Global) -> Result<Held, AllocError> {
        Ok(Held::Day(*self))
    }

    ghost stays = { λ k v has day. refl };

    fn below(alloc: Global, constant: Cell) -> Result<Spans<i32>, AllocError> {
        match constant {
            Cell::Null | Cell::Wide(_) => Ok(Spans::none(alloc)),
            Cell::Day(day) => {
                let set = before(alloc, day)?;
                Ok(set)
            }
            Cell::Bytes(_) => {
                let all = Spans::all(alloc)?;
                Ok(all)
            }
        }
    }

    fn equal(alloc: Global, constant: Cell) -> Result<Spans<i32>, AllocError> {
        match constant {
            Cell::Day(day) => {
                let set = on(alloc, day)?;
                Ok(set)
            }
            Cell::Null | Cell::Wide(_) | Cell::Bytes(_) => Ok(Spans::none(alloc)),
        }
    }
}

/// BINARY and VARBINARY: byte strings of any length.
impl Scale for Bin {
    ghost value = { λ bytes. Bytes bytes };

    ghost has_kind = { has_bytes };

    ghost is_narrow = { λ bytes. true };

    ghost some = { λ v. refl };

    ghost orders = { bytes_order };

    fn to_value(&self, alloc: Global) -> Result<Held, AllocError> {
        let bytes = Bin::from_slice(alloc, self.items())?;
        Ok(Held::Bytes(bytes))
    }

    ghost stays = { bytes_stay };

    fn below(alloc: Global, constant: Cell) -> Result<Spans<Bin>, AllocError> {
        match constant {
            Cell::Null | Cell::Wide(_) | Cell::Day(_) => Ok(Spans::none(alloc)),
            Cell::Bytes(bytes) => {
                let set = below_bytes(alloc, bytes)?;
                Ok(set)
            }
        }
    }

    fn equal(alloc: Global, constant: Cell) -> Result<Spans<Bin>, AllocError> {
        match constant {
            Cell::Null | Cell::Wide(_) | Cell::Day(_) => Ok(Spans::none(alloc)),
            Cell::Bytes(bytes) => {
                let set = equal_bytes(alloc, bytes)?;
                Ok(set)
            }
        }
    }
}

/// The days before one, which need not be one that DATE holds.
fn before(alloc: Global, day: i32) -> Result<Spans<i32>, AllocError>
    ensures { IfOk result (λ set. IsSet int_cmp fits_date set (λ v. is_lt (int_cmp v day))) }
{
    if day < -354_285 {
        return Ok(Spans::none(alloc));
    }
    if 2_932_896 < day {
        let all = Spans::all(alloc)?;
        return Ok(all);
    }
    let set = Spans::below(alloc, day)?;
    Ok(set)
}

/// This day, if it is one that DATE holds.
fn on(alloc: Global, day: i32) -> Result<Spans<i32>, AllocError>
    ensures { IfOk result (λ set. IsSet int_cmp fits_date set (λ v. is_eq (int_cmp v day))) }
{
    if !Line::is_value(&day) {
        return Ok(Spans::none(alloc));
    }
    let set = Spans::point(alloc, day)?;
    Ok(set)
}

fn below_bytes(alloc: Global, bytes: &[u8]) -> Result<Spans<Bin>, AllocError>
    ensures { IfOk result (λ set. IsSet bytes_cmp are_bytes set (λ v. is_lt (bytes_cmp v bytes.now))) }
{
    let end = Bin::from_slice(alloc, bytes)?;
    let set = Spans::below(alloc, end)?;
    Ok(set)
}

fn equal_bytes(alloc: Global, bytes: &[u8]) -> Result<Spans<Bin>, AllocError>
    ensures { IfOk result (λ set. IsSet bytes_cmp are_bytes set (λ v. is_eq (bytes_cmp v bytes.now))) }
{
    let value = Bin::from_slice(alloc, bytes)?;
    let set = Spans::point(alloc, value)?;
    Ok(set)
}
