use pt_plain::{Held, List};
use pt_value::{Bin, Ident};

/// A function of one expression. `MOD` with two is a product, and `DAY` is `DayOfMonth`.
#[derive(Clone, Copy, Debug, PartialEq, Eq)]
pub enum Func {
    Abs,
    Year,
    Month,
    DayOfMonth,
    DayOfYear,
    DayOfWeek,
    Weekday,
    Quarter,
    ToDays,
}

/// An operator within a product. `%`, `MOD` and the function `MOD` are one.
#[derive(Clone, Copy, Debug, PartialEq, Eq)]
pub enum Op {
    Times,
    Div,
    Mod,
}

/// A comparison.
#[derive(Clone, Copy, Debug, PartialEq, Eq)]
pub enum Cmp {
    Eq,
    Ne,
    Lt,
    Le,
    Gt,
    Ge,
}

/// The parts of a sum, each true where it is taken away.
pub type Terms = List<(bool, Expr)>;

/// The later parts of a product, each with the operator before it.
pub type Factors = List<(Op, Expr)>;

/// Expressions.
pub type Exprs = List<Expr>;

/// An expression. Parentheses and a leading plus make no node.
#[derive(Drop)]
pub enum Expr {
    /// A number. The sign of a negative one is a `Neg` round it.
    Number(i128),
    Text(Bin),
    Hex(Bin),
    /// `DATE` and a text: the day that it spells, counted from 1970-01-01, or `None` where it is no date.
    Date(Option<i32>),
    Null,
    Column(Ident),
    Neg(Held<Expr>),
    Sum(Terms),
    /// A first part, and the others.
    Product(Held<Expr>, Factors),
    Call(Func, Held<Expr>),
}

/// Conditions.
pub type Conds = List<Cond>;

/// A condition. The `bool` of `IsNull`, `In` and `Between` is true for the form with NOT.
#[derive(Drop)]
pub enum Cond {
    Or(Conds),
    And(Conds),
    Not(Held<Cond>),
    Compare(Cmp, Expr, Expr),
    IsNull(bool, Expr),
    In(bool, Expr, Exprs),
    /// The expression, the least and the greatest.
    Between(bool, Expr, Expr, Expr),
}
