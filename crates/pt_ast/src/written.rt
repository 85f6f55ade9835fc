use crate::{Expr, Rank};
use pt_plain::List;
use pt_value::{Bin, Ident};

/// A constant as written. The `bool` of a number is true for minus.
#[derive(Drop)]
pub enum Literal {
    Number(bool, i128),
    Text(Bin),
    Hex(Bin),
    /// `DATE` and a text: the day that it spells, counted from 1970-01-01, or `None` where it is no date.
    Date(Option<i32>),
    Null,
}

/// The type of a column as written. `VARCHAR` with `CHARACTER SET binary` is `Binary`; display widths aren't kept.
#[derive(Clone, Copy)]
pub enum KindSpec {
    Int,
    BigInt,
    Date,
    /// The greatest number of bytes.
    Binary(i128),
}

/// An option of a column. Of contradicting ones the last counts. Comments aren't kept.
#[derive(Drop)]
pub enum ColOption {
    NotNull,
    Null,
    Default(Literal),
    Primary,
    Unique,
}

/// The options of a column, in the order of the text.
pub type ColOptions = List<ColOption>;

/// Names.
pub type Idents = List<Ident>;

/// A column or a key of a table as written.
#[derive(Drop)]
pub enum Item {
    Column(Ident, KindSpec, ColOptions),
    /// A key, its name where one is written, and its columns.
    Key(Rank, Option<Ident>, Idents),
}

/// Columns and keys, in the order of the text.
pub type Items = List<Item>;

/// A table as written, without its name.
#[derive(Drop)]
pub struct TableSpec {
    pub items: Items,
    pub by: Option<PartSpec>,
}

/// A partitioning as written.
#[derive(Drop)]
pub struct PartSpec {
    pub main: MainSpec,
    /// The number after `PARTITIONS`.
    pub count: Option<i128>,
    pub sub: Option<SubSpec>,
    /// The definitions of the partitions.
    pub parts: Option<PartItems>,
}

/// What a table is partitioned by.
#[derive(Drop)]
pub enum MainSpec {
    Range(Expr),
    List(Expr),
    RangeColumns(Idents),
    ListColumns(Idents),
    Hash(HashSpec),
}

/// A partitioning by a number. The `bool` is true for `LINEAR`.
#[derive(Drop)]
pub enum HashSpec {
    Hash(bool, Expr),
    /// By the key number of these columns, or of those of a key of the table where none is written.
    Key(bool, Idents),
}

/// What the partitions are partitioned by.
#[derive(Drop)]
pub struct SubSpec {
    pub hash: HashSpec,
    /// The number after `SUBPARTITIONS`.
    pub count: Option<i128>,
}

/// The definition of a partition as written.
#[derive(Drop)]
pub struct PartItem {
    pub name: Ident,
    pub values: Option<ValuesSpec>,
    /// The names of its subpartitions.
    pub subs: Option<Idents>,
}

/// Definitions of partitions, in the order of the text.
pub type PartItems = List<PartItem>;

/// Which rows a partition takes, as written.
#[derive(Drop)]
pub enum ValuesSpec {
    /// `LESS THAN MAXVALUE`
    LessMax,
    /// `LESS THAN` and a tuple.
    Less(BoundSpecs),
    /// `IN` and a list.
    Among(Entries),
}

/// A bound or a value of a list, as written.
#[derive(Drop)]
pub enum BoundSpec {
    Max,
    Value(Expr),
}

/// Bounds, one a column.
pub type BoundSpecs = List<BoundSpec>;

/// An entry of a list: a bound, or two and more in parentheses.
#[derive(Drop)]
pub enum Entry {
    One(BoundSpec),
    Many(BoundSpecs),
}

/// The entries of a list.
pub type Entries = List<Entry>;
