//! The partitions that a condition reaches, by the kind of the partitioning.
ghost use Rattle.std.specs.Prelude.{◌≡◌, true, Some, IfOk, IfSome, IsOk};
ghost use Rattle.std.specs.Option.{option_copied};
ghost use Rattle.pt_ast.specs.StorableDef.{IsStorableDef};
ghost use Rattle.pt_ast.specs.declared.table.PartBy.TheVariants as by;
ghost use Rattle.pt_expr.specs.FoundCond.{checked_cond};
ghost use Rattle.pt_place.specs.Valid.{IsValid};
ghost use Rattle.pt_ast.specs.declared.tree.Expr.TheViews.{out-Expr};
ghost use Rattle.pt_reach.specs.Kept.{follows_all, is_name, level_column};
ghost use Rattle.pt_followed.specs.Marks.{AreReached};
ghost use Rattle.pt_followed.specs.Steps.{called};

use crate::functions::{list_marks_by, range_marks_by};
use crate::marking::{list_marks, range_marks};
use crate::sets::{own_set, set_of, sets_of};
use pt_ast::{ColumnNos, Cond, Expr, Func, PartBy, TableDef};
use std::alloc::{AllocError, Global};

/// A mark for each partition, which is set exactly where some row is placed there that the condition leaves. The partitioning has to be
/// one whose column's values are all followed, and `at` is the position of that column.
pub fn reached_parts(
    alloc: Global,
    def: &TableDef,
    at: usize,
    cond: &Option<Cond>,
) -> Result<Vec<bool>, AllocError>
    requires storable { IsStorableDef def.now }
    requires valid { IsValid def.now }
    requires checked { IfSome cond.now (λ own. IsOk (checked_cond def.now.columns own)) }
    requires followed { follows_all def.now.by ≡ true }
    requires column { level_column def.now.columns def.now.by ≡ Some at }
    ensures { IfOk result (λ marks. AreReached def.now at cond.now marks.items) }
{
    match &def.by {
        PartBy::Range(expr) => {
            let marks = by_range(alloc, def, expr, at, cond.as_ref())?;
            Ok(marks)
        }
        PartBy::List(expr) => {
            let marks = by_list(alloc, def, expr, at, cond.as_ref())?;
            Ok(marks)
        }
        PartBy::RangeColumns(numbers) => {
            let marks = by_range_columns(alloc, def, numbers, at, cond.as_ref())?;
            Ok(marks)
        }
        PartBy::ListColumns(numbers) => {
            let marks = by_list_columns(alloc, def, numbers, at, cond.as_ref())?;
            Ok(marks)
        }
        PartBy::Whole => unreachable!(),
        PartBy::Hash(_, _) => unreachable!(),
        PartBy::Key(_, _) => unreachable!(),
    }
}

fn by_range(
    alloc: Global,
    def: &TableDef,
    expr: &Expr,
    at: usize,
    cond: Option<&Cond>,
) -> Result<Vec<bool>, AllocError>
    requires valid { IsValid def.now }
    requires checked { IfSome (option_copied cond) (λ own. IsOk (checked_cond def.now.columns own)) }
    requires kind { def.now.by ≡ by.Range expr.now }
    requires followed { follows_all def.now.by ≡ true }
    requires column { level_column def.now.columns def.now.by ≡ Some at }
    ensures { IfOk result (λ marks. AreReached def.now at (option_copied cond.entry) marks.items) }
{
    match called(expr) {
        Some(func) => {
            let marks = by_called_range(alloc, def, expr, func, at, cond)?;
            Ok(marks)
        }
        None => {
            let marks = by_own_range(alloc, def, expr, at, cond)?;
            Ok(marks)
        }
    }
}

fn by_called_range(
    alloc: Global,
    def: &TableDef,
    expr: &Expr,
    func: Func,
    at: usize,
    cond: Option<&Cond>,
) -> Result<Vec<bool>, AllocError>
    requires valid { IsValid def.now }
    requires checked { IfSome (option_copied cond) (λ own. IsOk (checked_cond def.now.columns own)) }
    requires kind { def.now.by ≡ by.Range expr.now }
    requires called { called (out-Expr expr.now) ≡ Some func }
    requires followed { follows_all def.now.by ≡ true }
    requires column { level_column def.now.columns def.now.by ≡ Some at }
    ensures { IfOk result (λ marks. AreReached def.now at (option_copied cond.entry) marks.items) }
{
    let set = set_of(alloc, &def.columns, at, cond, at)?;
    let marks = range_marks_by(alloc, &set, func, def.parts.items())?;
    Ok(marks)
}

fn by_own_range(
    alloc: Global,
    def: &TableDef,
    expr: &Expr,
    at: usize,
    cond: Option<&Cond>,
) -> Result<Vec<bool>, AllocError>
    requires valid { IsValid def.now }
    requires checked { IfSome (option_copied cond) (λ own. IsOk (checked_cond def.now.columns own)) }
    requires kind { def.now.by ≡ by.Range expr.now }
    requires own { is_name (out-Expr expr.now) ≡ true }
    requires column { level_column def.now.columns def.now.by ≡ Some at }
    ensures { IfOk result (λ marks. AreReached def.now at (option_copied cond.entry) marks.items) }
{
    let sets = own_set(alloc, &def.columns, at, cond)?;
    let marks = range_marks(alloc, sets.as_slice(), def.parts.items())?;
    Ok(marks)
}

fn by_list(
    alloc: Global,
    def: &TableDef,
    expr: &Expr,
    at: usize,
    cond: Option<&Cond>,
) -> Result<Vec<bool>, AllocError>
    requires valid { IsValid def.now }
    requires checked { IfSome (option_copied cond) (λ own. IsOk (checked_cond def.now.columns own)) }
    requires kind { def.now.by ≡ by.List expr.now }
    requires followed { follows_all def.now.by ≡ true }
    requires column { level_column def.now.columns def.now.by ≡ Some at }
    ensures { IfOk result (λ marks. AreReached def.now at (option_copied cond.entry) marks.items) }
{
    match called(expr) {
        Some(func) => {
            let marks = by_called_list(alloc, def, expr, func, at, cond)?;
            Ok(marks)
        }
        None => {
            let marks = by_own_list(alloc, def, expr, at, cond)?;
            Ok(marks)
        }
    }
}

fn by_called_list(
    alloc: Global,
    def: &TableDef,
    expr: &Expr,
    func: Func,
    at: usize,
    cond: Option<&Cond>,
) -> Result<Vec<bool>, AllocError>
    requires valid { IsValid def.now }
    requires checked { IfSome (option_copied cond) (λ own. IsOk (checked_cond def.now.columns own)) }
    requires kind { def.now.by ≡ by.List expr.now }
    requires called { called (out-Expr expr.now) ≡ Some func }
    requires followed { follows_all def.now.by ≡ true }
    requires column { level_column def.now.columns def.now.by ≡ Some at }
    ensures { IfOk result (λ marks. AreReached def.now at (option_copied cond.entry) marks.items) }
{
    let set = set_of(alloc, &def.columns, at, cond, at)?;
    let marks = list_marks_by(alloc, &set, func, def.parts.items())?;
    Ok(marks)
}

fn by_own_list(
    alloc: Global,
    def: &TableDef,
    expr: &Expr,
    at: usize,
    cond: Option<&Cond>,
) -> Result<Vec<bool>, AllocError>
    requires valid { IsValid def.now }
    requires checked { IfSome (option_copied cond) (λ own. IsOk (checked_cond def.now.columns own)) }
    requires kind { def.now.by ≡ by.List expr.now }
    requires own { is_name (out-Expr expr.now) ≡ true }
    requires column { level_column def.now.columns def.now.by ≡ Some at }
    ensures { IfOk result (λ marks. AreReached def.now at (option_copied cond.entry) marks.items) }
{
    let sets = own_set(alloc, &def.columns, at, cond)?;
    let marks = list_marks(alloc, sets.as_slice(), def.parts.items())?;
    Ok(marks)
}

/// The function that an expression is a call of, if it is one.
fn called(expr: &Expr) -> Option<Func>
    ensures { result ≡ called (out-Expr expr.now) }
{
    match expr {
        Expr::Number(_) => None,
        Expr::Text(_) => None,
        Expr::Hex(_) => None,
        Expr::Date(_) => None,
        Expr::Null => None,
        Expr::Column(_) => None,
        Expr::Neg(_) => None,
        Expr::Sum(_) => None,
        Expr::Product(_, _) => None,
        Expr::Call(func, _) => Some(*func),
    }
}

fn by_range_columns(
    alloc: Global,
    def: &TableDef,
    numbers: &ColumnNos,
    at: usize,
    cond: Option<&Cond>,
) -> Result<Vec<bool>, AllocError>
    requires storable { IsStorableDef def.now }
    requires valid { IsValid def.now }
    requires checked { IfSome (option_copied cond) (λ own. IsOk (checked_cond def.now.columns own)) }
    requires kind { def.now.by ≡ by.RangeColumns numbers.now }
    requires column { level_column def.now.columns def.now.by ≡ Some at }
    ensures { IfOk result (λ marks. AreReached def.now at (option_copied cond.entry) marks.items) }
{
    let sets = sets_of(alloc, &def.columns, at, cond, numbers.items())?;
    let marks = range_marks(alloc, sets.as_slice(), def.parts.items())?;
    Ok(marks)
}

fn by_list_columns(
    alloc: Global,
    def: &TableDef,
    numbers: &ColumnNos,
    at: usize,
    cond: Option<&Cond>,
) -> Result<Vec<bool>, AllocError>
    requires storable { IsStorableDef def.now }
    requires valid { IsValid def.now }
    requires checked { IfSome (option_copied cond) (λ own. IsOk (checked_cond def.now.columns own)) }
    requires kind { def.now.by ≡ by.ListColumns numbers.now }
    requires column { level_column def.now.columns def.now.by ≡ Some at }
    ensures { IfOk result (λ marks. AreReached def.now at (option_copied cond.entry) marks.items) }
{
    let sets = sets_of(alloc, &def.columns, at, cond, numbers.items())?;
    let marks = list_marks(alloc, sets.as_slice(), def.parts.items())?;
    Ok(marks)
}
