//! The plain data of statements, tables and databases: trees that say what was written or what is kept, and no more.
//!
//! - Every list is a `List` and every boxed child a `Held`, so equal trees are equal values. Of the types only the enums without data
//!   compare by `==` and print by `{:?}`.
//! - A `Stmt` is a statement as written, with its conditions (`Cond`) and expressions (`Expr`). A `TableSpec` is a table as written,
//!   a `TableDef` its complete definition.
//! - `copy` gives an equal value of an expression, of cells, of a row and of a definition.
//! - `IsStorableExpr`, `IsStorableCond`, `IsStorableStmt`, `IsStorableSpec` and `IsStorableDef` say which trees are handed from call
//!   to call and written to a file: how deep they nest, which lists may be empty, which numbers may stand in them.
//! - `agrees` says when two rows agree on a unique key, `AreUnique` that no two do.
//! - `Tables` are tables whose names rise, by `NamesRise`, each name once: a set of tables is one value. `Db` is a database.
//! - `Refusal` is why a statement is refused: its code, name and argument follow, by the table `listed`. `Reply` is what a statement
//!   answers.
//!
//! It stands on `pt_plain` and `pt_value`.
#![tactic(auto)]

mod copy;
mod database;
mod refusal;
mod reply;
mod statement;
mod table;
mod tree;
mod written;

pub use database::{Cells, Db, Row, Rows, Spot, Table, Tables};
pub use refusal::{Arg, Refusal};
pub use reply::Reply;
pub use statement::{
    Assigns, NewRows, Orders, Query, Stmt, Tail, ValueRows, ValueSpec, ValueSpecs,
};
pub use table::{
    Bound, BoundTuple, Column, ColumnNos, Columns, KeyDef, KeyDefs, PartBy, PartDef, Parts, Rank,
    TableDef, Tuples,
};
pub use tree::{Cmp, Cond, Conds, Expr, Exprs, Factors, Func, Op, Terms};
pub use written::{
    BoundSpec, BoundSpecs, ColOption, ColOptions, Entries, Entry, HashSpec, Idents, Item, Items,
    KindSpec, Literal, MainSpec, PartItem, PartItems, PartSpec, SubSpec, TableSpec, ValuesSpec,
};
