use crate::{Expr, Idents};
use pt_plain::List;
use pt_value::{Ident, Kind, Value};

/// A column. `default` is `None` where the column has none, or NULL.
#[derive(Drop)]
pub struct Column {
    pub name: Ident,
    pub kind: Kind,
    pub not_null: bool,
    pub default: Option<Value>,
}

/// Columns, in the order of the table.
pub type Columns = List<Column>;

/// Positions of columns, from 0.
pub type ColumnNos = List<u32>;

/// What a key is.
#[derive(Clone, Copy, Debug, PartialEq, Eq)]
pub enum Rank {
    /// The primary key, which is named `PRIMARY`.
    Primary,
    Unique,
    Plain,
}

/// A key.
#[derive(Drop)]
pub struct KeyDef {
    pub rank: Rank,
    pub name: Ident,
    pub columns: ColumnNos,
}

/// Keys, in the order of the definition.
pub type KeyDefs = List<KeyDef>;

/// What rows are partitioned by. The `bool` is true for `LINEAR`.
#[derive(Drop)]
pub enum PartBy {
    /// By nothing: there is one partition, without a definition.
    Whole,
    Range(Expr),
    List(Expr),
    RangeColumns(ColumnNos),
    ListColumns(ColumnNos),
    Hash(bool, Expr),
    Key(bool, ColumnNos),
}

/// A bound of a range, or a value of a list.
#[derive(Drop)]
pub enum Bound {
    Val(Value),
    /// `MAXVALUE`, above every value.
    Max,
}

/// Bounds, one for the expression or one a column.
pub type BoundTuple = List<Bound>;

/// The bound of a range alone, or all entries of a list.
pub type Tuples = List<BoundTuple>;

/// A partition. `subs` are the names of its subpartitions.
#[derive(Drop)]
pub struct PartDef {
    pub name: Ident,
    pub bounds: Tuples,
    pub subs: Idents,
}

/// Partitions, in the order of the definition.
pub type Parts = List<PartDef>;

/// The complete definition of a table, without its name: all default names and constants are worked out.
#[derive(Drop)]
pub struct TableDef {
    pub columns: Columns,
    pub keys: KeyDefs,
    pub by: PartBy,
    /// What the rows of a partition are partitioned by: `Whole`, `Hash` or `Key`.
    pub sub: PartBy,
    pub parts: Parts,
}
