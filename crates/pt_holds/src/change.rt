use pt_ast::{Row, Rows, Spot, TableDef};
use pt_plain::List;
use pt_value::Ident;

/// A change of a table's rows.
#[derive(Drop)]
pub struct RowChange {
    /// The table.
    pub table: Ident,
    /// The spots and serials of the rows that go.
    pub deletes: List<(Spot, u64)>,
    /// The rows that come, each with its spot. A row that goes may come back in another spot, or with other cells.
    pub puts: List<(Spot, Row)>,
    /// The serial that the next new row takes.
    pub next: u64,
}

/// A change of definitions, or of where rows stand.
#[derive(Drop)]
pub enum ShapeChange {
    /// A table comes that has no rows.
    Create {
        table: Ident,
        def: TableDef,
    },
    /// A table goes, with all its rows.
    Drop {
        table: Ident,
    },
    /// A table has another definition. A spot in `fresh` has these rows; any other spot has the rows that stood under its leaf
    /// name, the name of its partition or subpartition. All other rows of the table go.
    Alter {
        table: Ident,
        def: TableDef,
        fresh: List<(Spot, Rows)>,
    },
    /// The rows of a table's spot and all rows of the other table, which is unpartitioned, change sides.
    Exchange {
        table: Ident,
        spot: Spot,
        other: Ident,
    },
}
