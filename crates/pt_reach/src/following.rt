//! From a condition to the set of a column's values at which it may hold.
ghost use Rattle.std.specs.Prelude.{◌≡◌, ◌&&◌, ◌+ℤ◌, not, pos, true, map, IfOk, IfSome, IsOk};
ghost use Rattle.std.specs.Option.{option_copied};
ghost use Rattle.std.specs.Ordering.{int_cmp};
ghost use Rattle.pt_value.specs.declared.value.Value.{Value};
ghost use Rattle.pt_value.specs.declared.value.Value.TheVariants.{Null};
ghost use Rattle.pt_expr.specs.Columns.{AreFitting};
ghost use Rattle.pt_expr.specs.FoundCond.{checked_cond};
ghost use Rattle.pt_place.specs.Fitting.{kind_at};
ghost use Rattle.pt_interval.specs.Instances.{greatest_wide, is_int, least_wide};
ghost use Rattle.pt_interval.specs.Line.{at_most};
ghost use Rattle.pt_interval.specs.Spans.{IsSet, has};
ghost use Rattle.pt_reach.specs.Domains.{has_in, is_bytes, is_day, is_number, is_of_column};
ghost use Rattle.pt_reach.specs.May.{may_hold};
ghost use Rattle.pt_reach.specs.Reaching.{IsReach};
ghost use Rattle.pt_reach.specs.Scales.{has_bytes, has_days, has_numbers};
ghost use Rattle.pt_reach.specs.Steps.{kind_of};

use crate::Scale;
use crate::conditions::reach_of;
use crate::domain::Domain;
use crate::reach::{Reach, everywhere};
use pt_ast::{Cells, Columns, Cond};
use pt_interval::Spans;
use pt_value::{Bin, Kind, Value as Held};
use std::alloc::{AllocError, Global};

/// The values of the column at a position at which a condition may hold.
pub(crate) fn followed(
    alloc: Global,
    columns: &Columns,
    at: usize,
    cond: Option<&Cond>,
) -> Result<Domain, AllocError>
    requires checked { IfSome (option_copied cond) (λ own. IsOk (checked_cond columns.now own)) }
    ensures { IfOk result (λ domain. (v : Value) → has_in domain v ≡ (is_of_column columns.now at v && may_hold columns.now at (option_copied cond.entry) v)) }
{
    match kind_of(columns, at) {
        Some(Kind::Int) => {
            let domain = numbers(
                alloc,
                columns,
                at,
                cond,
                -2_147_483_648,
                2_147_483_647,
                2_147_483_648,
            )?;
            Ok(domain)
        }
        Some(Kind::BigInt) => {
            let domain = numbers(
                alloc,
                columns,
                at,
                cond,
                -9_223_372_036_854_775_808,
                9_223_372_036_854_775_807,
                9_223_372_036_854_775_808,
            )?;
            Ok(domain)
        }
        Some(Kind::Date) => {
            let domain = days(alloc, columns, at, cond)?;
            Ok(domain)
        }
        Some(Kind::Binary(_)) => {
            let domain = strings(alloc, columns, at, cond)?;
            Ok(domain)
        }
        None => {
            let domain = numbers(alloc, columns, at, cond, 1, 0, 1)?;
            Ok(domain)
        }
    }
}

/// The kind of the column at a position, if there is one.
fn kind_of(columns: &Columns, at: usize) -> Option<Kind>
    ensures { result ≡ kind_of columns.now at }
{
    match columns.items().get(at) {
        Some(column) => Some(column.kind),
        None => None,
    }
}

/// Of a column of numbers, those from one up to another, behind which is `end`.
fn numbers(
    alloc: Global,
    columns: &Columns,
    at: usize,
    cond: Option<&Cond>,
    low: i128,
    high: i128,
    end: i128,
) -> Result<Domain, AllocError>
    requires kind { has_numbers (kind_at columns.now at) ≡ true }
    requires checked { IfSome (option_copied cond) (λ own. IsOk (checked_cond columns.now own)) }
    requires low { is_int least_wide greatest_wide low ≡ true }
    requires high { is_int least_wide greatest_wide high ≡ true }
    requires end { end ≡ high +ℤ pos 1 }
    ensures { IfOk result (λ domain. (v : Value) → has_in domain v ≡ (is_number low high v && may_hold columns.now at (option_copied cond.entry) v)) }
{
    let reach: Reach<i128> = reach_at(alloc, columns, at, cond)?;
    let spans = cut(alloc, &reach.spans, low, end)?;
    Ok(Domain::Numbers(Reach {
        null: reach.null,
        spans,
    }))
}

/// The numbers of a set from one on and below another.
fn cut(alloc: Global, spans: &Spans<i128>, low: i128, end: i128) -> Result<Spans<i128>, AllocError>
    ensures { IfOk result (λ set. IsSet int_cmp (is_int least_wide greatest_wide) set (λ v. has int_cmp spans.now v && (at_most int_cmp low v && not (at_most int_cmp end v)))) }
{
    let within = Spans::between(alloc, low, Some(end))?;
    let set = spans.meet(alloc, &within)?;
    Ok(set)
}

fn days(
    alloc: Global,
    columns: &Columns,
    at: usize,
    cond: Option<&Cond>,
) -> Result<Domain, AllocError>
    requires kind { has_days (kind_at columns.now at) ≡ true }
    requires checked { IfSome (option_copied cond) (λ own. IsOk (checked_cond columns.now own)) }
    ensures { IfOk result (λ domain. (v : Value) → has_in domain v ≡ (is_day v && may_hold columns.now at (option_copied cond.entry) v)) }
{
    let reach: Reach<i32> = reach_at(alloc, columns, at, cond)?;
    Ok(Domain::Days(reach))
}

fn strings(
    alloc: Global,
    columns: &Columns,
    at: usize,
    cond: Option<&Cond>,
) -> Result<Domain, AllocError>
    requires kind { has_bytes (kind_at columns.now at) ≡ true }
    requires checked { IfSome (option_copied cond) (λ own. IsOk (checked_cond columns.now own)) }
    ensures { IfOk result (λ domain. (v : Value) → has_in domain v ≡ (is_bytes v && may_hold columns.now at (option_copied cond.entry) v)) }
{
    let reach: Reach<Bin> = reach_at(alloc, columns, at, cond)?;
    Ok(Domain::Strings(reach))
}

/// The values along the line of a column's kind at which a condition may hold.
fn reach_at<T: Scale>(
    alloc: Global,
    columns: &Columns,
    at: usize,
    cond: Option<&Cond>,
) -> Result<Reach<T>, AllocError>
    requires kind { T.has_kind (kind_at columns.now at) ≡ true }
    requires checked { IfSome (option_copied cond) (λ own. IsOk (checked_cond columns.now own)) }
    ensures { IfOk result (λ reach. IsReach T.cmp T.is_value T.value reach (may_hold columns.now at (option_copied cond.entry))) }
{
    match cond {
        Some(cond) => {
            let nulls = null_row(alloc, columns)?;
            let reach = reach_of(alloc, columns, at, &nulls, cond)?;
            Ok(reach)
        }
        None => {
            let reach = everywhere(alloc)?;
            Ok(reach)
        }
    }
}

/// A row of NULLs.
fn null_row(alloc: Global, columns: &Columns) -> Result<Cells, AllocError>
    ensures fitting { IfOk result (AreFitting columns.now) }
{
    let cells = null_cells(alloc, columns)?;
    Ok(cells)
}

fn null_cells(alloc: Global, columns: &Columns) -> Result<Cells, AllocError>
    ensures { IfOk result (λ cells. cells ≡ map (λ column. Null) columns.now) }
{
    let mut cells = Cells::new(alloc);
    for column in columns.items() {
        cells.push(Held::Null)?;
    }
    Ok(cells)
}
