ghost use Rattle.std.specs.Prelude.{◌≡◌, Ok};
ghost use Rattle.pt_expr.specs.Found.{is_literal, kind_finding, kind_of, may_be_bytes, may_be_day, may_be_wide, other, signed, text_shape, wide};
ghost use Rattle.pt_value.specs.Text.{day_of};

use crate::{CheckFault, ExprKind};

/// What an expression is to the operator above it.
#[derive(Clone, Copy)]
pub(crate) enum Shape {
    Null,
    /// A number as written, without a sign.
    Number,
    /// A number as written, with a sign before it.
    Signed,
    /// Any other whole number.
    Wide,
    Day,
    /// A text that spells a day.
    DayText,
    /// A text that doesn't.
    OtherText,
    /// Any other bytes.
    Bytes,
}

/// What an expression is found to be.
#[derive(Clone, Copy)]
pub(crate) struct Found {
    pub shape: Shape,
    /// No number that the expression comes to is further from 0. It is 0 of what is no number.
    pub bound: u128,
}

impl Shape {
    /// Whether it has a place among whole numbers.
    pub fn may_be_wide(self) -> bool
        ensures { result ≡ may_be_wide self }
    {
        match self {
            Shape::Null | Shape::Number | Shape::Signed | Shape::Wide => true,
            Shape::Day | Shape::DayText | Shape::OtherText | Shape::Bytes => false,
        }
    }

    /// Whether it has a place among days.
    pub fn may_be_day(self) -> bool
        ensures { result ≡ may_be_day self }
    {
        match self {
            Shape::Null | Shape::Day | Shape::DayText => true,
            Shape::Number | Shape::Signed | Shape::Wide | Shape::OtherText | Shape::Bytes => false,
        }
    }

    /// Whether it has a place among bytes.
    pub fn may_be_bytes(self) -> bool
        ensures { result ≡ may_be_bytes self }
    {
        match self {
            Shape::Null | Shape::DayText | Shape::OtherText | Shape::Bytes => true,
            Shape::Number | Shape::Signed | Shape::Wide | Shape::Day => false,
        }
    }

    /// Whether it is a number as written, with an optional sign.
    pub fn is_literal(self) -> bool
        ensures { result ≡ is_literal self }
    {
        match self {
            Shape::Number | Shape::Signed => true,
            Shape::Null
            | Shape::Wide
            | Shape::Day
            | Shape::DayText
            | Shape::OtherText
            | Shape::Bytes => false,
        }
    }

    /// What it is with a minus before it, where it is a whole number.
    pub fn signed(self) -> Shape
        ensures { result ≡ signed self }
    {
        match self {
            Shape::Number => Shape::Signed,
            _ => Shape::Wide,
        }
    }

    /// The kind of a whole expression. Where a date is wanted, a text stands for one.
    pub fn kind(self, date: bool) -> Result<ExprKind, CheckFault>
        ensures { result ≡ kind_finding date self }
    {
        match (date, self) {
            (true, Shape::DayText) => Ok(ExprKind::Day),
            (true, Shape::OtherText) => Err(CheckFault::BadDate),
            _ => Ok(self.own_kind()),
        }
    }

    fn own_kind(self) -> ExprKind
        ensures { result ≡ kind_of self }
    {
        match self {
            Shape::Null => ExprKind::Any,
            Shape::Number | Shape::Signed | Shape::Wide => ExprKind::Wide,
            Shape::Day => ExprKind::Day,
            Shape::DayText | Shape::OtherText | Shape::Bytes => ExprKind::Bytes,
        }
    }
}

impl Found {
    /// What is no number.
    pub fn other(shape: Shape) -> Found
        ensures { result ≡ other shape }
    {
        Found { shape, bound: 0 }
    }

    /// A whole number within this bound.
    pub fn wide(bound: u128) -> Found
        ensures { result ≡ wide bound }
    {
        Found {
            shape: Shape::Wide,
            bound,
        }
    }
}
