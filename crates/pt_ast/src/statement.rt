use crate::{Cond, Expr, Exprs, Idents, PartItems, PartSpec, TableSpec};
use pt_plain::List;
use pt_value::Ident;

/// A value that is inserted or assigned.
#[derive(Drop)]
pub enum ValueSpec {
    /// The column's default.
    Default,
    Value(Expr),
}

/// The values of a row.
pub type ValueSpecs = List<ValueSpec>;

/// Rows of values.
pub type ValueRows = List<ValueSpecs>;

/// Columns, each with the value that it is assigned.
pub type Assigns = List<(Ident, ValueSpec)>;

/// Columns to order by, each true for `DESC`.
pub type Orders = List<(Ident, bool)>;

/// Rows that are inserted. `parts` are the partitions that the statement names, `columns` the columns where they are listed.
#[derive(Drop)]
pub struct NewRows {
    pub table: Ident,
    pub parts: Option<Idents>,
    pub columns: Option<Idents>,
    pub rows: ValueRows,
}

/// Which rows of a table a statement takes, in which order, and how many at most.
#[derive(Drop)]
pub struct Tail {
    pub cond: Option<Cond>,
    pub order: Orders,
    pub limit: Option<i128>,
}

/// A SELECT. `items` is `None` for `*`; `parts` are the partitions that it names.
#[derive(Drop)]
pub struct Query {
    pub items: Option<Exprs>,
    pub table: Ident,
    pub parts: Option<Idents>,
    pub tail: Tail,
}

/// A statement. The parts of a variant stand in the order of the text; the first name of each is its table.
#[derive(Drop)]
pub enum Stmt {
    /// `CREATE TABLE`; true for `IF NOT EXISTS`.
    Create(bool, Ident, TableSpec),
    /// `CREATE TABLE .. LIKE` another; true for `IF NOT EXISTS`.
    Like(bool, Ident, Ident),
    /// `DROP TABLE`; true for `IF EXISTS`.
    Drop(bool, Ident),
    /// `ADD PARTITION` with definitions.
    AddParts(Ident, PartItems),
    /// `ADD PARTITION PARTITIONS` and a number.
    AddCount(Ident, i128),
    /// `DROP PARTITION`
    DropParts(Ident, Idents),
    /// `TRUNCATE PARTITION`; `None` for `ALL`.
    Truncate(Ident, Option<Idents>),
    /// `COALESCE PARTITION` and a number.
    Coalesce(Ident, i128),
    /// `REORGANIZE PARTITION` of these into those.
    Reorganize(Ident, Idents, PartItems),
    /// `EXCHANGE PARTITION` of this name with a table.
    Exchange(Ident, Ident, Ident),
    /// `REMOVE PARTITIONING`
    RemoveParts(Ident),
    /// `PARTITION BY`
    PartitionBy(Ident, PartSpec),
    /// `INSERT`; true for `IGNORE`.
    Insert(bool, NewRows),
    Replace(NewRows),
    /// `UPDATE`: the partitions that it names, what it assigns, and the rows.
    Update(Ident, Option<Idents>, Assigns, Tail),
    /// `DELETE`: the partitions that it names, and the rows.
    Delete(Ident, Option<Idents>, Tail),
    Select(Query),
    Explain(Query),
    /// `SHOW CREATE TABLE`
    Show(Ident),
}
