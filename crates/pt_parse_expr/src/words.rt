ghost use Rattle.std.specs.Prelude.{◌≡◌, map};
ghost use Rattle.std.specs.Str.{str_eq_ignore_ascii_case};
ghost use Rattle.pt_parse_expr.specs.Grammar.{is_date};
ghost use Rattle.pt_parse_expr.specs.Symbols as spec;

use crate::alphabet::{Mark, Reserved};
use pt_ast::{Cmp, Func};

/// The words that are no names unless they stand between backquotes.
pub(crate) const RESERVED: [(&[u8], Mark); 53] = [
    (b"ADD", Mark::Other(Reserved::Add)),
    (b"ALL", Mark::Other(Reserved::All)),
    (b"ALTER", Mark::Other(Reserved::Alter)),
    (b"AND", Mark::And),
    (b"ASC", Mark::Other(Reserved::Asc)),
    (b"BETWEEN", Mark::Between),
    (b"BIGINT", Mark::Other(Reserved::BigInt)),
    (b"BY", Mark::Other(Reserved::By)),
    (b"CHARACTER", Mark::Other(Reserved::Character)),
    (b"CREATE", Mark::Other(Reserved::Create)),
    (b"DEFAULT", Mark::Other(Reserved::Default)),
    (b"DELETE", Mark::Other(Reserved::Delete)),
    (b"DESC", Mark::Other(Reserved::Desc)),
    (b"DIV", Mark::Div),
    (b"DROP", Mark::Other(Reserved::Drop)),
    (b"EXISTS", Mark::Other(Reserved::Exists)),
    (b"EXPLAIN", Mark::Other(Reserved::Explain)),
    (b"FROM", Mark::Other(Reserved::From)),
    (b"GROUP", Mark::Other(Reserved::Group)),
    (b"IF", Mark::Other(Reserved::If)),
    (b"IGNORE", Mark::Other(Reserved::Ignore)),
    (b"IN", Mark::In),
    (b"INDEX", Mark::Other(Reserved::Index)),
    (b"INSERT", Mark::Other(Reserved::Insert)),
    (b"INT", Mark::Other(Reserved::Int)),
    (b"INTEGER", Mark::Other(Reserved::Integer)),
    (b"INTO", Mark::Other(Reserved::Into)),
    (b"IS", Mark::Is),
    (b"KEY", Mark::Other(Reserved::Key)),
    (b"LIKE", Mark::Other(Reserved::Like)),
    (b"LIMIT", Mark::Other(Reserved::Limit)),
    (b"LINEAR", Mark::Other(Reserved::Linear)),
    (b"MAXVALUE", Mark::Other(Reserved::MaxValue)),
    (b"MOD", Mark::Mod),
    (b"NOT", Mark::Not),
    (b"NULL", Mark::Null),
    (b"OR", Mark::Or),
    (b"ORDER", Mark::Other(Reserved::Order)),
    (b"PARTITION", Mark::Other(Reserved::Partition)),
    (b"PRIMARY", Mark::Other(Reserved::Primary)),
    (b"RANGE", Mark::Other(Reserved::Range)),
    (b"REPLACE", Mark::Other(Reserved::Replace)),
    (b"SELECT", Mark::Other(Reserved::Select)),
    (b"SET", Mark::Other(Reserved::Set)),
    (b"SHOW", Mark::Other(Reserved::Show)),
    (b"TABLE", Mark::Other(Reserved::Table)),
    (b"UNIQUE", Mark::Other(Reserved::Unique)),
    (b"UPDATE", Mark::Other(Reserved::Update)),
    (b"VALUES", Mark::Other(Reserved::Values)),
    (b"VARBINARY", Mark::Other(Reserved::VarBinary)),
    (b"VARCHAR", Mark::Other(Reserved::VarChar)),
    (b"WHERE", Mark::Other(Reserved::Where)),
    (b"WITH", Mark::Other(Reserved::With)),
];

/// The signs.
pub(crate) const SIGNS: [(&[u8], Mark); 14] = [
    (b"(", Mark::Open),
    (b")", Mark::Close),
    (b",", Mark::Comma),
    (b"=", Mark::Compare(Cmp::Eq)),
    (b"<", Mark::Compare(Cmp::Lt)),
    (b">", Mark::Compare(Cmp::Gt)),
    (b"<=", Mark::Compare(Cmp::Le)),
    (b">=", Mark::Compare(Cmp::Ge)),
    (b"<>", Mark::Compare(Cmp::Ne)),
    (b"!=", Mark::Compare(Cmp::Ne)),
    (b"+", Mark::Plus),
    (b"-", Mark::Minus),
    (b"*", Mark::Star),
    (b"%", Mark::Percent),
];

/// The names of functions of one expression.
pub(crate) const FUNCTIONS: [(&[u8], Func); 10] = [
    (b"ABS", Func::Abs),
    (b"YEAR", Func::Year),
    (b"MONTH", Func::Month),
    (b"DAY", Func::DayOfMonth),
    (b"DAYOFMONTH", Func::DayOfMonth),
    (b"DAYOFYEAR", Func::DayOfYear),
    (b"DAYOFWEEK", Func::DayOfWeek),
    (b"WEEKDAY", Func::Weekday),
    (b"QUARTER", Func::Quarter),
    (b"TO_DAYS", Func::ToDays),
];

/// What a word stands for in a table, ignoring ASCII case.
fn lookup<T: Copy>(table: &[(&[u8], T)], word: &[u8]) -> Option<T>
    ensures { result ≡ spec.lookup (map (λ k. (k.0.now, k.1)) table.now) word.now }
{
    for entry in table {
        if same_word(entry.0, word) {
            return Some(entry.1);
        }
    }
    None
}

/// Whether two words are the same but for the case of their letters.
pub(crate) fn same_word(a: &[u8], b: &[u8]) -> bool
    ensures { result ≡ str_eq_ignore_ascii_case a.now b.now }
{
    a.eq_ignore_ascii_case(b)
}

/// The reserved word that a word is.
#[tactic(auto, unfolding(crate::specs::Symbols::reserved))]
pub(crate) fn reserved(word: &[u8]) -> Option<Mark>
    ensures { result ≡ spec.reserved word.now }
{
    lookup(&RESERVED, word)
}

/// The mark of a sign.
#[tactic(auto, unfolding(crate::specs::Symbols::mark_of_sign))]
pub(crate) fn sign(bytes: &[u8]) -> Option<Mark>
    ensures { result ≡ spec.mark_of_sign bytes.now }
{
    lookup(&SIGNS, bytes)
}

/// The function of that name.
#[tactic(auto, unfolding(crate::specs::Symbols::func_of))]
pub(crate) fn func_of(name: &[u8]) -> Option<Func>
    ensures { result ≡ spec.func_of name.now }
{
    lookup(&FUNCTIONS, name)
}

/// Whether a word is DATE, in any case of its letters.
pub(crate) fn is_date(name: &[u8]) -> bool
    ensures { result ≡ is_date name.now }
{
    same_word(name, b"DATE")
}
