ghost use Rattle.std.specs.Prelude.{◌≡◌};
ghost use Rattle.pt_expr.specs.FoundCond.{is_day, is_other_text};
ghost use Rattle.pt_expr.specs.Stepping.{compared_verdict, no_operands, operands_after, with_operand};

use crate::CheckFault;
use crate::found::Shape;
use crate::typing::finding;
use pt_ast::{Columns, Expr};

/// Operands that are compared with one another, as far as they were found.
#[derive(Clone, Copy)]
pub(crate) struct Operands {
    /// One of them is a date.
    is_date: bool,
    /// One of them is a text that is no date.
    is_bad: bool,
    /// Each has a place among whole numbers, ..
    wide: bool,
    /// .. among days, ..
    day: bool,
    /// .. among bytes.
    bytes: bool,
}

impl Operands {
    pub fn none() -> Operands
        ensures { result ≡ no_operands }
    {
        Operands {
            is_date: false,
            is_bad: false,
            wide: true,
            day: true,
            bytes: true,
        }
    }

    /// One more operand, or its first fault.
    pub fn with(self, columns: &Columns, expr: &Expr) -> Result<Operands, CheckFault>
        ensures { result ≡ operands_after columns.now self expr.now }
    {
        let found = finding(columns, expr)?;
        Ok(self.with_shape(found.shape))
    }

    fn with_shape(self, shape: Shape) -> Operands
        ensures { result ≡ with_operand self shape }
    {
        Operands {
            is_date: self.is_date || is_day(shape),
            is_bad: self.is_bad || is_other_text(shape),
            wide: self.wide && shape.may_be_wide(),
            day: self.day && shape.may_be_day(),
            bytes: self.bytes && shape.may_be_bytes(),
        }
    }

    /// Whether they can be compared: all are of one kind, and where one is a date each text is one.
    pub fn end(self) -> Result<(), CheckFault>
        ensures { result ≡ compared_verdict self }
    {
        if self.is_date && self.is_bad {
            return Err(CheckFault::BadDate);
        }
        if self.wide || self.day || self.bytes {
            Ok(())
        } else {
            Err(CheckFault::Mismatch)
        }
    }
}

fn is_day(shape: Shape) -> bool
    ensures { result ≡ is_day shape }
{
    match shape {
        Shape::Day => true,
        _ => false,
    }
}

fn is_other_text(shape: Shape) -> bool
    ensures { result ≡ is_other_text shape }
{
    match shape {
        Shape::OtherText => true,
        _ => false,
    }
}
