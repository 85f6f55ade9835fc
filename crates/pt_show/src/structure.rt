//! Whether two tables may exchange rows.
ghost use Rattle.std.specs.Prelude.{◌≡◌, ◌<◌, ◌∷◌, List, false, drop, length, nat_eq, slice_index_or, IfSome, IfNone};
ghost use Rattle.pt_ast.specs.declared.table.KeyDef.{KeyDef};
ghost use Rattle.std.specs.Cmp.Lexicographic.{pointwise};
ghost use Rattle.pt_defs.specs.Spelling.{rank_code};
ghost use Rattle.pt_show.specs.Structure.{columns_of, kind_code, same_column, same_keys, same_structure};

use pt_ast::{Column, ColumnNos, KeyDef, Rank, TableDef};
use pt_defs::rank_code;
use pt_value::Kind;

/// Whether two tables have the same structure: the same columns in order (names but for case, types, NULL or NOT NULL), the same
/// columns of the primary key, and the same list of unique keys' columns. It takes no memory.
pub fn same_structure(a: &TableDef, b: &TableDef) -> bool
    ensures { result ≡ same_structure a.now b.now }
{
    same_columns(a.columns.items(), b.columns.items())
        && same_keys(Rank::Primary, a.keys.items(), b.keys.items())
        && same_keys(Rank::Unique, a.keys.items(), b.keys.items())
}

fn same_columns(a: &[Column], b: &[Column]) -> bool
    ensures { result ≡ pointwise same_column a.now b.now }
{
    if a.len() != b.len() {
        return false;
    }
    for i in 0..a.len() {
        if !same_column(&a[i], &b[i]) {
            return false;
        }
    }
    true
}

fn same_column(a: &Column, b: &Column) -> bool
    ensures { result ≡ same_column a.now b.now }
{
    a.name.bytes().eq_ignore_ascii_case(b.name.bytes())
        && kind_code(a.kind) == kind_code(b.kind)
        && u8::from(a.not_null) == u8::from(b.not_null)
}

fn kind_code(kind: Kind) -> u32
    ensures { result ≡ kind_code kind }
{
    match kind {
        Kind::Int => 1,
        Kind::BigInt => 2,
        Kind::Date => 3,
        Kind::Binary(most) => 4 + u32::from(most),
    }
}

/// Whether the keys of a rank have the same lists of columns, key by key.
fn same_keys(wanted: Rank, a: &[KeyDef], b: &[KeyDef]) -> bool
    ensures { result ≡ same_keys wanted a.now b.now }
{
    let mut at = 0;
    for key in a {
        let Some(next) = behind_equal(wanted, key, b, at) else {
            return false;
        };
        at = next;
    }
    next_key(wanted, b, at) >= b.len()
}

/// The place behind the next key of the rank, where it has the columns of this one; `None` where it hasn't, or there is none. A
/// key of another rank has none to be equal to.
fn behind_equal(wanted: Rank, key: &KeyDef, b: &[KeyDef], at: usize) -> Option<usize>
    ensures some { IfSome result (λ next. (more : List KeyDef) → same_keys wanted (key.now ∷ more) (drop at b.now) ≡ same_keys wanted more (drop next b.now)) }
    ensures none { IfNone result ((more : List KeyDef) → same_keys wanted (key.now ∷ more) (drop at b.now) ≡ false) }
{
    if rank_code(key.rank) != rank_code(wanted) {
        return Some(at);
    }
    let next = next_key(wanted, b, at);
    if next >= b.len() {
        return None;
    }
    if !same_numbers(&key.columns, &b[next].columns) {
        return None;
    }
    Some(next + 1)
}

fn same_numbers(a: &ColumnNos, b: &ColumnNos) -> bool
    ensures { result ≡ pointwise nat_eq a.now b.now }
{
    a.items() == b.items()
}

/// The place of the next key of a rank.
fn next_key(wanted: Rank, b: &[KeyDef], at: usize) -> usize
    ensures same { columns_of wanted (drop result b.now) ≡ columns_of wanted (drop at b.now) }
    ensures found { (key : KeyDef) → result < length b.now → rank_code (slice_index_or b.now result key).rank ≡ rank_code wanted }
{
    let mut next = at;
    while next < b.len() && rank_code(b[next].rank) != rank_code(wanted) {
        next += 1;
    }
    next
}
