use pt_ast::{Cmp, Cond, Expr, Exprs};

/// What was read where both an expression and a condition may stand.
#[derive(Drop)]
pub(crate) enum Found {
    Value(Expr),
    Test(Cond),
}

/// What stands behind an expression and makes a condition of it. The `bool` is true for the form with NOT.
#[derive(Drop)]
pub(crate) enum Behind {
    Compare(Cmp, Expr),
    IsNull(bool),
    In(bool, Exprs),
    /// The least and the greatest.
    Between(bool, Expr, Expr),
}
