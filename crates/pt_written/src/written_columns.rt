ghost use Rattle.std.specs.Prelude.{◌≡◌, ◌||◌, option_copied};
ghost use Rattle.std.specs.List.{list_any};
ghost use Rattle.pt_place.specs.Checks.{is_default_out, is_default_wrong, is_too_long};
ghost use Rattle.pt_written.specs.Reading.{is_out, is_wrong};
ghost use Rattle.pt_written.specs.Written.{default_in, default_written, is_bad_constant, is_primary_option, kind_of, null_step, says_not_null};

use crate::constants::{is_out, is_wrong};
use pt_ast::{ColOption, KindSpec, Literal};

/// A VARBINARY of more than 4096 bytes. It takes no memory.
pub fn is_too_long(kind: KindSpec) -> bool
    ensures { result ≡ is_too_long (kind_of kind) }
{
    match kind {
        KindSpec::Binary(most) => most.unsigned_abs() > 4096,
        KindSpec::Int | KindSpec::BigInt | KindSpec::Date => false,
    }
}

/// A DEFAULT that is a date text of no date, or that the column has no room for. It takes no memory.
pub fn is_constant_out(kind: KindSpec, options: &[ColOption]) -> bool
    ensures { result ≡ is_bad_constant (kind_of kind) (default_written options.now) || is_default_out (kind_of kind) (default_in (kind_of kind) options.now) }
{
    match default_written(options) {
        Some(literal) => is_out(kind, literal),
        None => false,
    }
}

/// A DEFAULT of another kind, or NULL in a NOT NULL column. It takes no memory.
pub fn is_default_wrong(kind: KindSpec, not_null: bool, options: &[ColOption]) -> bool
    ensures { result ≡ is_default_wrong (kind_of kind) not_null (default_in (kind_of kind) options.now) }
{
    match default_written(options) {
        Some(literal) => is_wrong(kind, not_null, literal),
        None => false,
    }
}

/// The last DEFAULT. It takes no memory.
pub fn default_written(options: &[ColOption]) -> Option<&Literal>
    ensures { option_copied result ≡ default_written options.now }
{
    let mut last = None;
    for option in options {
        if let ColOption::Default(literal) = option {
            last = Some(literal);
        }
    }
    last
}

/// The last of NOT NULL and NULL is NOT NULL. It takes no memory.
pub fn says_not_null(options: &[ColOption]) -> bool
    ensures { result ≡ says_not_null options.now }
{
    let mut not_null = false;
    for option in options {
        not_null = null_step(not_null, option);
    }
    not_null
}

fn null_step(before: bool, option: &ColOption) -> bool
    ensures { result ≡ null_step before option.now }
{
    match option {
        ColOption::NotNull => true,
        ColOption::Null => false,
        ColOption::Default(_) | ColOption::Primary | ColOption::Unique => before,
    }
}

/// Whether an option makes the column the primary key. It takes no memory.
pub fn has_primary(options: &[ColOption]) -> bool
    ensures { result ≡ list_any is_primary_option options.now }
{
    for option in options {
        if is_primary_option(option) {
            return true;
        }
    }
    false
}

pub(crate) fn is_primary_option(option: &ColOption) -> bool
    ensures { result ≡ is_primary_option option.now }
{
    matches!(option, ColOption::Primary)
}
