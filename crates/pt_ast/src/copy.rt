ghost use Rattle.std.specs.Prelude.{◌≡◌, IfOk};

use crate::{
    Bound, BoundTuple, Column, ColumnNos, Columns, Expr, Factors, Idents, KeyDef, KeyDefs, PartBy,
    PartDef, Parts, Row, TableDef, Terms, Tuples,
};
use pt_plain::Held;
use pt_value::{Bin, Value};
use std::alloc::{AllocError, Global};

impl Expr {
    /// An equal expression.
    pub fn copy(&self, alloc: Global) -> Result<Expr, AllocError>
        ensures { IfOk result (λ copied. copied ≡ self.now) }
    {
        match self {
            Expr::Number(n) => Ok(Expr::Number(*n)),
            Expr::Text(bytes) => Ok(Expr::Text(Bin::from_slice(alloc, bytes.items())?)),
            Expr::Hex(bytes) => Ok(Expr::Hex(Bin::from_slice(alloc, bytes.items())?)),
            Expr::Date(day) => Ok(Expr::Date(*day)),
            Expr::Null => Ok(Expr::Null),
            Expr::Column(name) => Ok(Expr::Column(*name)),
            Expr::Neg(part) => Ok(Expr::Neg(Held::new(alloc, part.get().copy(alloc)?)?)),
            Expr::Sum(parts) => {
                let mut copied = Terms::new(alloc);
                for (minus, part) in parts.items() {
                    copied.push((*minus, part.copy(alloc)?))?;
                }
                Ok(Expr::Sum(copied))
            }
            Expr::Product(first, parts) => {
                let first = Held::new(alloc, first.get().copy(alloc)?)?;
                let mut copied = Factors::new(alloc);
                for (op, part) in parts.items() {
                    copied.push((*op, part.copy(alloc)?))?;
                }
                Ok(Expr::Product(first, copied))
            }
            Expr::Call(func, part) => Ok(Expr::Call(
                *func,
                Held::new(alloc, part.get().copy(alloc)?)?,
            )),
        }
    }
}

impl Row {
    /// An equal row.
    pub fn copy(&self, alloc: Global) -> Result<Row, AllocError>
        ensures { IfOk result (λ copied. copied ≡ self.now) }
    {
        Ok(Row {
            serial: self.serial,
            cells: self.cells.copy(alloc)?,
        })
    }
}

impl TableDef {
    /// An equal definition.
    pub fn copy(&self, alloc: Global) -> Result<TableDef, AllocError>
        ensures { IfOk result (λ copied. copied ≡ self.now) }
    {
        // The parts come first: each `?` drops what stands so far, and to prove that of `by` and `sub` takes the longest.
        Ok(TableDef {
            parts: copy_parts(alloc, &self.parts)?,
            columns: copy_columns(alloc, &self.columns)?,
            keys: copy_keys(alloc, &self.keys)?,
            by: copy_by(alloc, &self.by)?,
            sub: copy_by(alloc, &self.sub)?,
        })
    }
}

fn copy_columns(alloc: Global, columns: &Columns) -> Result<Columns, AllocError>
    ensures { IfOk result (λ copied. copied ≡ columns.now) }
{
    let mut copied = Columns::new(alloc);
    for column in columns.items() {
        copied.push(copy_column(alloc, column)?)?;
    }
    Ok(copied)
}

fn copy_column(alloc: Global, column: &Column) -> Result<Column, AllocError>
    ensures { IfOk result (λ copied. copied ≡ column.now) }
{
    Ok(Column {
        name: column.name,
        kind: column.kind,
        not_null: column.not_null,
        default: copy_default(alloc, &column.default)?,
    })
}

fn copy_default(alloc: Global, default: &Option<Value>) -> Result<Option<Value>, AllocError>
    ensures { IfOk result (λ copied. copied ≡ default.now) }
{
    match default {
        Some(value) => Ok(Some(value.copy(alloc)?)),
        None => Ok(None),
    }
}

fn copy_keys(alloc: Global, keys: &KeyDefs) -> Result<KeyDefs, AllocError>
    ensures { IfOk result (λ copied. copied ≡ keys.now) }
{
    let mut copied = KeyDefs::new(alloc);
    for key in keys.items() {
        copied.push(copy_key(alloc, key)?)?;
    }
    Ok(copied)
}

fn copy_key(alloc: Global, key: &KeyDef) -> Result<KeyDef, AllocError>
    ensures { IfOk result (λ copied. copied ≡ key.now) }
{
    Ok(KeyDef {
        rank: key.rank,
        name: key.name,
        columns: copy_numbers(alloc, &key.columns)?,
    })
}

fn copy_numbers(alloc: Global, columns: &ColumnNos) -> Result<ColumnNos, AllocError>
    ensures { IfOk result (λ copied. copied ≡ columns.now) }
{
    ColumnNos::from_slice(alloc, columns.items())
}

fn copy_by(alloc: Global, by: &PartBy) -> Result<PartBy, AllocError>
    ensures { IfOk result (λ copied. copied ≡ by.now) }
{
    match by {
        PartBy::Whole => Ok(PartBy::Whole),
        PartBy::Range(expr) => Ok(PartBy::Range(expr.copy(alloc)?)),
        PartBy::List(expr) => Ok(PartBy::List(expr.copy(alloc)?)),
        PartBy::RangeColumns(columns) => Ok(PartBy::RangeColumns(copy_numbers(alloc, columns)?)),
        PartBy::ListColumns(columns) => Ok(PartBy::ListColumns(copy_numbers(alloc, columns)?)),
        PartBy::Hash(linear, expr) => Ok(PartBy::Hash(*linear, expr.copy(alloc)?)),
        PartBy::Key(linear, columns) => Ok(PartBy::Key(*linear, copy_numbers(alloc, columns)?)),
    }
}

fn copy_parts(alloc: Global, parts: &Parts) -> Result<Parts, AllocError>
    ensures { IfOk result (λ copied. copied ≡ parts.now) }
{
    let mut copied = Parts::new(alloc);
    for part in parts.items() {
        copied.push(copy_part(alloc, part)?)?;
    }
    Ok(copied)
}

fn copy_part(alloc: Global, part: &PartDef) -> Result<PartDef, AllocError>
    ensures { IfOk result (λ copied. copied ≡ part.now) }
{
    Ok(PartDef {
        name: part.name,
        bounds: copy_tuples(alloc, &part.bounds)?,
        subs: Idents::from_slice(alloc, part.subs.items())?,
    })
}

fn copy_tuples(alloc: Global, tuples: &Tuples) -> Result<Tuples, AllocError>
    ensures { IfOk result (λ copied. copied ≡ tuples.now) }
{
    let mut copied = Tuples::new(alloc);
    for tuple in tuples.items() {
        copied.push(copy_tuple(alloc, tuple)?)?;
    }
    Ok(copied)
}

fn copy_tuple(alloc: Global, tuple: &BoundTuple) -> Result<BoundTuple, AllocError>
    ensures { IfOk result (λ copied. copied ≡ tuple.now) }
{
    let mut copied = BoundTuple::new(alloc);
    for bound in tuple.items() {
        copied.push(copy_bound(alloc, bound)?)?;
    }
    Ok(copied)
}

fn copy_bound(alloc: Global, bound: &Bound) -> Result<Bound, AllocError>
    ensures { IfOk result (λ copied. copied ≡ bound.now) }
{
    match bound {
        Bound::Val(value) => Ok(Bound::Val(value.copy(alloc)?)),
        Bound::Max => Ok(Bound::Max),
    }
}
