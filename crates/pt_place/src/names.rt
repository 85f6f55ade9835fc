ghost use Rattle.std.specs.Prelude.{◌≡◌, ◌<◌, All, length};
ghost use Rattle.std.specs.Str.{str_eq_ignore_ascii_case};
ghost use Rattle.pt_place.specs.Checks.{twice};
ghost use Rattle.pt_place.specs.First.{in_turn};
ghost use Rattle.pt_place.specs.Valid.{AreBelow};
ghost use Rattle.pt_place.specs.Names.{is_among, name_at, names_at, names_of};

use pt_ast::{Arg, Column, Columns, Refusal};
use pt_value::Ident;

/// Whether two names are the same but for the case of their letters.
pub fn same(a: &Ident, b: &Ident) -> bool
    ensures { result ≡ str_eq_ignore_ascii_case a.now b.now }
{
    a.same(b)
}

/// Whether a name is one of these.
pub fn is_among(name: &Ident, names: &[Ident]) -> bool
    ensures { result ≡ is_among name.now names.now }
{
    names.iter().any(|other| same(name, other))
}

/// Whether a name is that of one of these columns.
pub(crate) fn is_column(name: &Ident, columns: &[Column]) -> bool
    ensures { result ≡ is_among name.now (names_of columns.now) }
{
    for column in columns {
        if same(name, &column.name) {
            return true;
        }
    }
    false
}

/// The first column of a list that stands in it before.
pub(crate) fn repeated(columns: &Columns, numbers: &[u32]) -> Option<Refusal>
    requires { AreBelow columns.now numbers.now }
    ensures { result ≡ in_turn twice (names_at columns.now numbers.now) }
{
    for (at, number) in numbers.iter().enumerate() {
        let name = name_at(columns, *number);
        if is_listed(name, columns, &numbers[..at]) {
            return Some(Refusal::DuplicateColumn(Arg::Name(*name)));
        }
    }
    None
}

/// The name of a column.
fn name_at(columns: &Columns, number: u32) -> &Ident
    requires { number < length columns.now }
    ensures { result.now ≡ name_at columns.now number }
{
    &columns.items()[number as usize].name
}

/// Whether a name is that of one of the columns at these positions.
fn is_listed(name: &Ident, columns: &Columns, numbers: &[u32]) -> bool
    requires { AreBelow columns.now numbers.now }
    ensures { result ≡ is_among name.now (names_at columns.now numbers.now) }
{
    for number in numbers {
        if same(name, name_at(columns, *number)) {
            return true;
        }
    }
    false
}
