ghost use Rattle.std.specs.Prelude.{◌≡◌, ◌↔◌, IsTrue, IfOk, slice_index_or};
ghost use Rattle.std.specs.Cmp.{eq_by_cmp_equiv, partial_equiv_from_equiv};
ghost use Rattle.std.specs.Cmp.Lexicographic.{pointwise, lists_per, lists_equiv};
ghost use Rattle.std.specs.Ordering.{eq_by_cmp};
ghost use Rattle.std.specs.Hash as fed;
ghost use Rattle.pt_value.specs.Value.{value_cmp, value_cmp_total};
ghost use Rattle.pt_value.specs.declared.value.Value.TheVariants.{Null};
ghost use Rattle.pt_ast.specs.Bounds.{cells_at};
ghost use Rattle.pt_ast.specs.Keys.{is_null};
ghost use Rattle.pt_unique.specs.Book.{is_whole};
ghost use Rattle.pt_unique.specs.Tuple.{value_input};
ghost use Rattle.pt_unique.specs.Hashed.{alike_input, alike_inputs};

use pt_value::Value;
use std::alloc::{AllocError, Global};
use std::hash::{Hash, Hasher};
use std::marker::Model;

/// A cell as a part of a key: it is hashed.
#[derive(Drop)]
struct Part {
    value: Value,
}

impl Model for Part {
    ghost use Rattle.pt_value.specs.declared.value.Value.{Value as Cell};
    ghost use Rattle.pt_value.specs.contracts.value.Value as cell;

    ghost Value = { Cell };

    ghost coded = { cell.the_row.coded };

    ghost view = { λ part. part.value };
}

impl PartialEq for Part {
    ghost eq = { eq_by_cmp value_cmp };

    ghost laws = { partial_equiv_from_equiv (eq_by_cmp_equiv value_cmp_total) };

    fn eq(&self, other: &Part) -> bool {
        self.value == other.value
    }
}

impl Eq for Part {
    ghost laws = { eq_by_cmp_equiv value_cmp_total };
}

impl Hash for Part {
    ghost hash_input = { value_input };

    ghost respects_eq = { alike_input };

    fn hash<H: Hasher>(&self, state: &mut H) {
        match &self.value {
            Value::Null => state.write_u8(0),
            Value::Int(n) => state.write_i64(*n),
            Value::Day(day) => state.write_i32(*day),
            Value::Bytes(bytes) => bytes.items().hash(state),
        }
    }
}

/// The cells of a row in the columns of a key. Contracts see the list of them.
#[derive(Drop)]
pub(crate) struct Tuple {
    parts: Vec<Part>,
}

impl Model for Tuple {
    ghost use Rattle.std.specs.Prelude.{List as Listed};
    ghost use Rattle.std.specs.Coded.{coded_list};
    ghost use Rattle.pt_value.specs.declared.value.Value.{Value as Cell};
    ghost use Rattle.pt_value.specs.contracts.value.Value as cell;

    ghost Value = { Listed Cell };

    ghost coded = { coded_list cell.the_row.coded };

    ghost view = { λ tuple. tuple.parts.items };
}

impl PartialEq for Tuple {
    ghost eq = { pointwise (eq_by_cmp value_cmp) };

    ghost laws = { lists_per (partial_equiv_from_equiv (eq_by_cmp_equiv value_cmp_total)) };

    fn eq(&self, other: &Tuple) -> bool {
        self.parts.as_slice() == other.parts.as_slice()
    }
}

impl Eq for Tuple {
    ghost laws = { lists_equiv (eq_by_cmp_equiv value_cmp_total) };
}

impl Hash for Tuple {
    ghost hash_input = { fed.slice value_input };

    ghost respects_eq = { alike_inputs };

    fn hash<H: Hasher>(&self, state: &mut H) {
        self.parts.as_slice().hash(state);
    }
}

impl Tuple {
    /// The cells of these columns, NULL for a column that has none.
    pub(crate) fn of(alloc: Global, cells: &[Value], columns: &[u32]) -> Result<Tuple, AllocError>
        ensures { IfOk result (λ tuple. tuple ≡ cells_at cells.now columns.now) }
    {
        let mut parts = Vec::new(alloc);
        for column in columns {
            let value = cell_of(alloc, cells, *column)?;
            parts.push(Part { value })?;
        }
        Ok(Tuple { parts })
    }

    /// Whether these are the cells of these columns. It takes no memory.
    pub(crate) fn is_of(&self, cells: &[Value], columns: &[u32]) -> bool
        ensures { IsTrue result ↔ (self.now ≡ cells_at cells.now columns.now) }
    {
        if self.parts.len() != columns.len() {
            return false;
        }
        for (i, column) in columns.iter().enumerate() {
            if !is_cell(&self.parts[i].value, cells, *column) {
                return false;
            }
        }
        true
    }

    /// Whether no cell is NULL. It takes no memory.
    pub(crate) fn is_whole(&self) -> bool
        ensures { result ≡ is_whole self.now }
    {
        self.parts.iter().all(|part| !is_null(&part.value))
    }
}

fn is_null(value: &Value) -> bool
    ensures { result ≡ is_null value.now }
{
    match value {
        Value::Null => true,
        Value::Int(_) | Value::Day(_) | Value::Bytes(_) => false,
    }
}

/// A copy of the cell of this column.
fn cell_of(alloc: Global, cells: &[Value], column: u32) -> Result<Value, AllocError>
    ensures { IfOk result (λ value. value ≡ slice_index_or cells.now column Null) }
{
    match cells.get(column as usize) {
        Some(cell) => cell.copy(alloc),
        None => Ok(Value::Null),
    }
}

/// Whether the value is the cell of this column.
fn is_cell(value: &Value, cells: &[Value], column: u32) -> bool
    ensures { IsTrue result ↔ (value.now ≡ slice_index_or cells.now column Null) }
{
    match cells.get(column as usize) {
        Some(cell) => *value == *cell,
        None => is_null(value),
    }
}
