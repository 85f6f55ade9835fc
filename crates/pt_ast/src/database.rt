ghost use Rattle.std.specs.Prelude.{◌≡◌, [], ◌∷◌, ◌++◌, IfOk, OnOk, OnErr};
ghost use Rattle.pt_ast.specs.Rising.{NamesRise};

use crate::TableDef;
use pt_plain::List;
use pt_value::{Ident, Value};
use std::alloc::{AllocError, Global};
use std::marker::Model;

/// Where a row stands: the number of its partition, and of its subpartition in that. Both count from 0. An unpartitioned
/// table has the one spot (0, 0), and without subpartitions `sub` is 0.
#[derive(Clone, Copy)]
pub struct Spot {
    pub part: u32,
    pub sub: u32,
}

/// The values of a row, one a column. Contracts see the list of them.
#[derive(Drop)]
pub struct Cells {
    values: List<Value>,
}

impl Model for Cells {
    ghost use Rattle.std.specs.Prelude.{List as Listed};
    ghost use Rattle.std.specs.Coded.{coded_list};
    ghost use Rattle.pt_value.specs.declared.value.Value.{Value as Cell};
    ghost use Rattle.pt_value.specs.contracts.value.Value as cell;

    ghost Value = { Listed Cell };

    ghost coded = { coded_list cell.the_row.coded };

    ghost view = { λ cells. cells.values };

    ghost inverse = { λ cells. record { values = cells } };
}

impl Cells {
    /// No values. It takes no memory.
    pub fn new(alloc: Global) -> Cells
        ensures { result ≡ [] }
    {
        Cells {
            values: List::new(alloc),
        }
    }

    /// These values. It takes no memory.
    pub fn of(items: Vec<Value>) -> Cells
        ensures { result ≡ items.items }
    {
        Cells {
            values: List::of(items),
        }
    }

    /// The values, lent. It takes no memory.
    pub fn items(&self) -> &[Value]
        ensures { result.now ≡ self.now }
    {
        self.values.items()
    }

    /// Adds a value at the end. Want of memory leaves the cells as they were.
    pub fn push(&mut self, value: Value) -> Result<(), AllocError>
        ensures ok { OnOk result (self.new ≡ self.old ++ value ∷ []) }
        ensures err { OnErr result (self.new ≡ self.old) }
    {
        self.values.push(value)?;
        Ok(())
    }

    /// Equal cells.
    pub fn copy(&self, alloc: Global) -> Result<Cells, AllocError>
        ensures { IfOk result (λ copied. copied ≡ self.now) }
    {
        let mut copied = List::new(alloc);
        for value in self.values.items() {
            copied.push(value.copy(alloc)?)?;
        }
        Ok(Cells { values: copied })
    }
}

/// A row, with the serial number that it got when it was inserted.
#[derive(Drop)]
pub struct Row {
    pub serial: u64,
    pub cells: Cells,
}

/// Rows.
pub type Rows = List<Row>;

/// A table: its rows stand by rising serial.
#[derive(Drop)]
pub struct Table {
    pub name: Ident,
    pub def: TableDef,
    pub rows: Rows,
}

/// Tables whose names rise in byte order, each name once. Contracts see the list of them.
#[derive(Drop)]
pub struct Tables {
    list: List<Table>,
}

impl Model for Tables {
    ghost use Rattle.std.specs.Prelude.{List as Listed};
    ghost use Rattle.std.specs.Coded.{coded_list};
    ghost use Rattle.pt_ast.specs.declared.database.Table.{Table};
    ghost use Rattle.pt_ast.specs.contracts.database.Table as table;
    ghost use Rattle.pt_ast.specs.Rising.{NamesRise};

    ghost Value = { Listed Table };

    ghost coded = { coded_list table.the_row.coded };

    ghost view = { λ tables. tables.list };

    ghost invariant = { λ tables. NamesRise tables.list };

    ghost inverse = { λ tables. record { list = tables } };
}

impl Tables {
    /// These tables. It takes no memory.
    pub fn of(items: Vec<Table>) -> Tables
        requires { NamesRise items.items }
        ensures { result ≡ items.items }
    {
        Tables {
            list: List::of(items),
        }
    }

    /// The tables, lent. It takes no memory.
    pub fn items(&self) -> &[Table]
        ensures value { result.now ≡ self.now }
        ensures rising { NamesRise self.now }
    {
        self.list.items()
    }

    /// The tables, given back. It takes no memory.
    pub fn into_vec(self) -> Vec<Table>
        ensures value { result.items ≡ self }
        ensures rising { NamesRise self }
    {
        let Tables { list } = self;
        list.into_vec()
    }
}

/// A database: its tables, and the serial number that the next row takes.
#[derive(Drop)]
pub struct Db {
    pub tables: Tables,
    pub next: u64,
}
