ghost use Rattle.std.specs.Prelude.{◌≡◌, true, false, Some, IfOk};
ghost use Rattle.std.specs.Option.{option_map};
ghost use Rattle.pt_complete.specs.Making.{IsKept, IsKeptDefault, signed};
ghost use Rattle.pt_written.specs.Reading.{big_room, is_integer, is_text_out};
ghost use Rattle.pt_written.specs.Written.{but_null, constant, default_in, integer_text, kind_of};

use pt_ast::{ColOption, KindSpec, Literal};
use pt_value::{Bin, Value, day_of_text};
use pt_written::{default_written, integer_in};
use std::alloc::{AllocError, Global};

/// The default of a column. DEFAULT NULL is none.
pub(crate) fn default_of(
    alloc: Global,
    kind: KindSpec,
    options: &[ColOption],
) -> Result<Option<Value>, AllocError>
    requires { IsKeptDefault kind options.now }
    ensures { IfOk result (λ made. made ≡ but_null (default_in (kind_of kind) options.now)) }
{
    match default_written(options) {
        Some(literal) => value_of(alloc, kind, literal),
        None => Ok(None),
    }
}

/// A constant as the default of a column.
fn value_of(alloc: Global, kind: KindSpec, literal: &Literal) -> Result<Option<Value>, AllocError>
    requires { IsKept kind literal.now }
    ensures { IfOk result (λ made. made ≡ but_null (constant (kind_of kind) literal.now)) }
{
    match literal {
        Literal::Number(minus, n) => Ok(Some(Value::Int(signed(*minus, *n)))),
        Literal::Text(bytes) => text_value(alloc, kind, bytes.items()),
        Literal::Hex(bytes) => bytes_value(alloc, bytes.items()),
        Literal::Date(day) => Ok(day_value(*day)),
        Literal::Null => Ok(None),
    }
}

/// A text as the default of a column.
fn text_value(alloc: Global, kind: KindSpec, bytes: &[u8]) -> Result<Option<Value>, AllocError>
    requires { is_text_out kind bytes.now ≡ false }
    ensures { IfOk result (λ made. made ≡ but_null (constant (kind_of kind) (Literal.Text bytes.now))) }
{
    match kind {
        KindSpec::Int => integer_value(alloc, kind, bytes),
        KindSpec::BigInt => integer_value(alloc, kind, bytes),
        KindSpec::Date => Ok(day_value(day_of_text(bytes))),
        KindSpec::Binary(_) => bytes_value(alloc, bytes),
    }
}

/// A text as the default of an integer column.
fn integer_value(alloc: Global, kind: KindSpec, bytes: &[u8]) -> Result<Option<Value>, AllocError>
    requires integer { is_integer kind ≡ true }
    requires within { is_text_out kind bytes.now ≡ false }
    ensures { IfOk result (λ made. made ≡ Some (integer_text bytes.now)) }
{
    match integer_in(bytes) {
        Some((minus, n)) => Ok(Some(Value::Int(signed(minus, n)))),
        None => bytes_value(alloc, bytes),
    }
}

/// A number with its sign.
fn signed(minus: bool, n: i128) -> i64
    requires { big_room minus n ≡ true }
    ensures { result ≡ signed minus n }
{
    if minus {
        return -n as i64;
    }
    n as i64
}

fn bytes_value(alloc: Global, bytes: &[u8]) -> Result<Option<Value>, AllocError>
    ensures { IfOk result (λ made. made ≡ Some (Value.Bytes bytes.now)) }
{
    Ok(Some(Value::Bytes(Bin::from_slice(alloc, bytes)?)))
}

fn day_value(day: Option<i32>) -> Option<Value>
    ensures { result ≡ option_map Value.Day day }
{
    match day {
        Some(day) => Some(Value::Day(day)),
        None => None,
    }
}
