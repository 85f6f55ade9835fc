use pt_ast::{Cells, ColumnNos};

/// What is looked up.
#[derive(Clone, Copy)]
pub enum Probe<'a> {
    /// What the expression of a RANGE or a LIST came to.
    Value(Option<i128>),
    /// The cells of the columns at these positions. A column that isn't there counts as NULL.
    Columns(&'a Cells, &'a ColumnNos),
}
