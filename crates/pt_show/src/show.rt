//! The text of SHOW CREATE TABLE, each part behind what is there.
ghost use Rattle.std.specs.Prelude.{◌≡◌, ◌++◌, map, codes, IfOk, OnOk};
ghost use Rattle.pt_defs.specs.Reading.{name_of};
ghost use Rattle.pt_show.specs.Show.{all_keys, bound_shown, bounds_shown, by_shown, column_shown, columns_named, create_table, default_shown, entry_shown, gap, head_shown, joined, key_begun, key_line, keys_shown, kind_shown, linear_shown, list_columns, null_shown, part_lines, part_shown, partition_by, parts_shown, quoted, range_columns, shown_table, sub_line, sub_shown, subpartition, subpartition_by, subs_shown, tuple_shown};

use crate::show_expr::{show_constant, show_expr, show_name, show_number};
use pt_ast::{
    Bound, BoundTuple, Column, ColumnNos, Columns, Idents, KeyDef, KeyDefs, PartBy, PartDef, Parts,
    Rank, TableDef, Tuples,
};
use pt_bytes::put_bytes;
use pt_defs::rank_code;
use pt_value::{Bin, Ident, Kind, Value};
use std::alloc::{AllocError, Global};

/// The text of SHOW CREATE TABLE for a table of this name.
pub fn show_create(alloc: Global, table: &Ident, def: &TableDef) -> Result<Bin, AllocError>
    ensures { IfOk result (λ text. text ≡ shown_table table.now def.now) }
{
    let mut out = Vec::new(alloc);
    show_table(alloc, &mut out, table, def)?;
    Ok(Bin::of(out))
}

#[tactic(auto, unfolding(crate::specs::Show::shown_table))]
fn show_table(
    alloc: Global,
    out: &mut Vec<u8>,
    table: &Ident,
    def: &TableDef,
) -> Result<(), AllocError>
    ensures { OnOk result (out.new.items ≡ out.old.items ++ shown_table table.now def.now) }
{
    show_head(alloc, out, table, &def.columns)?;
    show_all_keys(out, &def.columns, &def.keys)?;
    put_bytes(out, b"\n)")?;
    show_parts(alloc, out, def)?;
    put_bytes(out, b";\n")
}

/// The text up to the last column.
#[tactic(auto, unfolding(crate::specs::Show::head_shown))]
fn show_head(
    alloc: Global,
    out: &mut Vec<u8>,
    table: &Ident,
    columns: &Columns,
) -> Result<(), AllocError>
    ensures { OnOk result (out.new.items ≡ out.old.items ++ head_shown table.now columns.now) }
{
    show_create_table(out)?;
    show_name(out, table.bytes())?;
    put_bytes(out, b" (\n  ")?;
    show_columns(alloc, out, columns)
}

/// The keys: the primary one, the unique ones, the plain ones.
#[tactic(auto, unfolding(crate::specs::Show::all_keys))]
fn show_all_keys(out: &mut Vec<u8>, columns: &Columns, keys: &KeyDefs) -> Result<(), AllocError>
    ensures { OnOk result (out.new.items ≡ out.old.items ++ all_keys columns.now keys.now) }
{
    show_keys(out, columns, Rank::Primary, keys)?;
    show_keys(out, columns, Rank::Unique, keys)?;
    show_keys(out, columns, Rank::Plain, keys)
}

/// What stands between the items of a list, before the one at `i`.
fn show_gap(out: &mut Vec<u8>, i: usize, between: &[u8]) -> Result<(), AllocError>
    ensures { OnOk result (out.new.items ≡ out.old.items ++ gap between.now i) }
{
    if i == 0 {
        return Ok(());
    }
    put_bytes(out, between)
}

/// The names of columns in parentheses.
#[tactic(auto, unfolding(crate::specs::Show::columns_named))]
fn show_named(out: &mut Vec<u8>, columns: &Columns, numbers: &ColumnNos) -> Result<(), AllocError>
    ensures { OnOk result (out.new.items ≡ out.old.items ++ columns_named columns.now numbers.now) }
{
    put_bytes(out, b"(")?;
    show_numbers(out, columns, numbers.items())?;
    put_bytes(out, b")")
}

fn show_numbers(out: &mut Vec<u8>, columns: &Columns, items: &[u32]) -> Result<(), AllocError>
    ensures { OnOk result (out.new.items ≡ out.old.items ++ joined (codes ",") (map (λ number. quoted (name_of columns.now number)) items.now)) }
{
    for (i, number) in items.iter().enumerate() {
        show_gap(out, i, b",")?;
        show_column_name(out, columns, *number)?;
    }
    Ok(())
}

/// The name of the column at a position.
fn show_column_name(out: &mut Vec<u8>, columns: &Columns, number: u32) -> Result<(), AllocError>
    ensures { OnOk result (out.new.items ≡ out.old.items ++ quoted (name_of columns.now number)) }
{
    match columns.items().get(number as usize) {
        Some(column) => show_name(out, column.name.bytes()),
        None => show_name(out, b""),
    }
}

fn show_columns(alloc: Global, out: &mut Vec<u8>, columns: &Columns) -> Result<(), AllocError>
    ensures { OnOk result (out.new.items ≡ out.old.items ++ joined (codes ",\n  ") (map column_shown columns.now)) }
{
    let items = columns.items();
    for (i, column) in items.iter().enumerate() {
        show_gap(out, i, b",\n  ")?;
        show_column(alloc, out, column)?;
    }
    Ok(())
}

/// A column.
#[tactic(auto, unfolding(crate::specs::Show::column_shown))]
fn show_column(alloc: Global, out: &mut Vec<u8>, column: &Column) -> Result<(), AllocError>
    ensures { OnOk result (out.new.items ≡ out.old.items ++ column_shown column.now) }
{
    show_name(out, column.name.bytes())?;
    put_bytes(out, b" ")?;
    show_kind(alloc, out, column.kind)?;
    show_null(out, column.not_null)?;
    show_default(alloc, out, column.not_null, &column.default)
}

#[tactic(auto, unfolding(crate::specs::Show::kind_shown))]
fn show_kind(alloc: Global, out: &mut Vec<u8>, kind: Kind) -> Result<(), AllocError>
    ensures { OnOk result (out.new.items ≡ out.old.items ++ kind_shown kind) }
{
    match kind {
        Kind::Int => put_bytes(out, b"int"),
        Kind::BigInt => put_bytes(out, b"bigint"),
        Kind::Date => put_bytes(out, b"date"),
        Kind::Binary(most) => {
            put_bytes(out, b"varbinary(")?;
            show_number(alloc, out, i128::from(most))?;
            put_bytes(out, b")")
        }
    }
}

#[tactic(auto, unfolding(crate::specs::Show::null_shown))]
fn show_null(out: &mut Vec<u8>, not_null: bool) -> Result<(), AllocError>
    ensures { OnOk result (out.new.items ≡ out.old.items ++ null_shown not_null) }
{
    if not_null {
        return put_bytes(out, b" NOT NULL");
    }
    Ok(())
}

/// A default: NULL where the column is nullable and has none.
#[tactic(auto, unfolding(crate::specs::Show::default_shown))]
fn show_default(
    alloc: Global,
    out: &mut Vec<u8>,
    not_null: bool,
    default: &Option<Value>,
) -> Result<(), AllocError>
    ensures { OnOk result (out.new.items ≡ out.old.items ++ default_shown not_null default.now) }
{
    match default {
        Some(cell) => {
            put_bytes(out, b" DEFAULT ")?;
            show_constant(alloc, out, cell)
        }
        None if not_null => Ok(()),
        None => put_bytes(out, b" DEFAULT NULL"),
    }
}

/// The lines of the keys of a rank.
#[tactic(auto, unfolding(crate::specs::Show::keys_shown))]
fn show_keys(
    out: &mut Vec<u8>,
    columns: &Columns,
    wanted: Rank,
    keys: &KeyDefs,
) -> Result<(), AllocError>
    ensures { OnOk result (out.new.items ≡ out.old.items ++ keys_shown columns.now wanted keys.now) }
{
    let items = keys.items();
    for key in items {
        show_key(out, columns, wanted, key)?;
    }
    Ok(())
}

#[tactic(auto, unfolding(crate::specs::Show::key_line))]
fn show_key(
    out: &mut Vec<u8>,
    columns: &Columns,
    wanted: Rank,
    key: &KeyDef,
) -> Result<(), AllocError>
    ensures { OnOk result (out.new.items ≡ out.old.items ++ key_line columns.now wanted key.now) }
{
    if rank_code(key.rank) != rank_code(wanted) {
        return Ok(());
    }
    put_bytes(out, b",\n  ")?;
    show_rank(out, key.rank, &key.name)?;
    show_named(out, columns, &key.columns)
}

#[tactic(auto, unfolding(crate::specs::Show::key_begun))]
fn show_rank(out: &mut Vec<u8>, rank: Rank, name: &Ident) -> Result<(), AllocError>
    ensures { OnOk result (out.new.items ≡ out.old.items ++ key_begun rank name.now) }
{
    match rank {
        Rank::Primary => put_bytes(out, b"PRIMARY KEY "),
        Rank::Unique => {
            put_bytes(out, b"UNIQUE KEY ")?;
            show_name(out, name.bytes())?;
            put_bytes(out, b" ")
        }
        Rank::Plain => {
            put_bytes(out, b"KEY ")?;
            show_name(out, name.bytes())?;
            put_bytes(out, b" ")
        }
    }
}

/// What rows are partitioned by.
#[tactic(auto, unfolding(crate::specs::Show::by_shown))]
fn show_by(
    alloc: Global,
    out: &mut Vec<u8>,
    columns: &Columns,
    by: &PartBy,
) -> Result<(), AllocError>
    ensures { OnOk result (out.new.items ≡ out.old.items ++ by_shown columns.now by.now) }
{
    match by {
        PartBy::Whole => Ok(()),
        PartBy::Range(expr) => {
            put_bytes(out, b"RANGE (")?;
            show_expr(alloc, out, expr)?;
            put_bytes(out, b")")
        }
        PartBy::List(expr) => {
            put_bytes(out, b"LIST (")?;
            show_expr(alloc, out, expr)?;
            put_bytes(out, b")")
        }
        PartBy::RangeColumns(numbers) => {
            show_range_columns(out)?;
            show_named(out, columns, numbers)
        }
        PartBy::ListColumns(numbers) => {
            show_list_columns(out)?;
            show_named(out, columns, numbers)
        }
        PartBy::Hash(is_linear, expr) => {
            show_linear(out, *is_linear)?;
            put_bytes(out, b"HASH (")?;
            show_expr(alloc, out, expr)?;
            put_bytes(out, b")")
        }
        PartBy::Key(is_linear, numbers) => {
            show_linear(out, *is_linear)?;
            put_bytes(out, b"KEY ")?;
            show_named(out, columns, numbers)
        }
    }
}

#[tactic(auto, unfolding(crate::specs::Show::linear_shown))]
fn show_linear(out: &mut Vec<u8>, is_linear: bool) -> Result<(), AllocError>
    ensures { OnOk result (out.new.items ≡ out.old.items ++ linear_shown is_linear) }
{
    if is_linear {
        return put_bytes(out, b"LINEAR ");
    }
    Ok(())
}

#[tactic(auto, unfolding(crate::specs::Show::bound_shown))]
fn show_bound(alloc: Global, out: &mut Vec<u8>, bound: &Bound) -> Result<(), AllocError>
    ensures { OnOk result (out.new.items ≡ out.old.items ++ bound_shown bound.now) }
{
    match bound {
        Bound::Val(cell) => show_constant(alloc, out, cell),
        Bound::Max => put_bytes(out, b"MAXVALUE"),
    }
}

/// A tuple.
#[tactic(auto, unfolding(crate::specs::Show::tuple_shown))]
fn show_tuple(alloc: Global, out: &mut Vec<u8>, tuple: &BoundTuple) -> Result<(), AllocError>
    ensures { OnOk result (out.new.items ≡ out.old.items ++ tuple_shown tuple.now) }
{
    show_bounds(alloc, out, tuple.items())
}

fn show_bounds(alloc: Global, out: &mut Vec<u8>, items: &[Bound]) -> Result<(), AllocError>
    ensures { OnOk result (out.new.items ≡ out.old.items ++ joined (codes ",") (map bound_shown items.now)) }
{
    for (i, bound) in items.iter().enumerate() {
        show_gap(out, i, b",")?;
        show_bound(alloc, out, bound)?;
    }
    Ok(())
}

/// An entry of a list: a tuple of several columns stands in parentheses.
#[tactic(auto, unfolding(crate::specs::Show::entry_shown, crate::specs::Show::operand))]
fn show_entry(alloc: Global, out: &mut Vec<u8>, tuple: &BoundTuple) -> Result<(), AllocError>
    ensures { OnOk result (out.new.items ≡ out.old.items ++ entry_shown tuple.now) }
{
    if tuple.items().len() <= 1 {
        return show_tuple(alloc, out, tuple);
    }
    put_bytes(out, b"(")?;
    show_tuple(alloc, out, tuple)?;
    put_bytes(out, b")")
}

fn show_tuples(alloc: Global, out: &mut Vec<u8>, tuples: &Tuples) -> Result<(), AllocError>
    ensures { OnOk result (out.new.items ≡ out.old.items ++ joined (codes ",") (map tuple_shown tuples.now)) }
{
    let items = tuples.items();
    for (i, tuple) in items.iter().enumerate() {
        show_gap(out, i, b",")?;
        show_tuple(alloc, out, tuple)?;
    }
    Ok(())
}

fn show_entries(alloc: Global, out: &mut Vec<u8>, tuples: &Tuples) -> Result<(), AllocError>
    ensures { OnOk result (out.new.items ≡ out.old.items ++ joined (codes ",") (map entry_shown tuples.now)) }
{
    let items = tuples.items();
    for (i, tuple) in items.iter().enumerate() {
        show_gap(out, i, b",")?;
        show_entry(alloc, out, tuple)?;
    }
    Ok(())
}

/// The bounds of a partition.
#[tactic(auto, unfolding(crate::specs::Show::bounds_shown))]
fn show_values(
    alloc: Global,
    out: &mut Vec<u8>,
    main: &PartBy,
    tuples: &Tuples,
) -> Result<(), AllocError>
    ensures { OnOk result (out.new.items ≡ out.old.items ++ bounds_shown main.now tuples.now) }
{
    match main {
        PartBy::Range(_) | PartBy::RangeColumns(_) => {
            put_bytes(out, b" VALUES LESS THAN (")?;
            show_tuples(alloc, out, tuples)?;
            put_bytes(out, b")")
        }
        PartBy::List(_) | PartBy::ListColumns(_) => {
            put_bytes(out, b" VALUES IN (")?;
            show_entries(alloc, out, tuples)?;
            put_bytes(out, b")")
        }
        PartBy::Whole | PartBy::Hash(_, _) | PartBy::Key(_, _) => Ok(()),
    }
}

/// Subpartitions, on lines of their own.
#[tactic(auto, unfolding(crate::specs::Show::subs_shown))]
fn show_subs(out: &mut Vec<u8>, names: &Idents) -> Result<(), AllocError>
    ensures { OnOk result (out.new.items ≡ out.old.items ++ subs_shown names.now) }
{
    let items = names.items();
    if items.is_empty() {
        return Ok(());
    }
    put_bytes(out, b"\n (")?;
    show_sub_lines(out, items)?;
    put_bytes(out, b")")
}

fn show_sub_lines(out: &mut Vec<u8>, items: &[Ident]) -> Result<(), AllocError>
    ensures { OnOk result (out.new.items ≡ out.old.items ++ joined (codes ",\n  ") (map sub_line items.now)) }
{
    for (i, name) in items.iter().enumerate() {
        show_gap(out, i, b",\n  ")?;
        show_sub_line(out, name)?;
    }
    Ok(())
}

#[tactic(auto, unfolding(crate::specs::Show::sub_line))]
fn show_sub_line(out: &mut Vec<u8>, name: &Ident) -> Result<(), AllocError>
    ensures { OnOk result (out.new.items ≡ out.old.items ++ sub_line name.now) }
{
    show_subpartition(out)?;
    show_name(out, name.bytes())
}

/// A partition.
#[tactic(auto, unfolding(crate::specs::Show::part_shown))]
fn show_part(
    alloc: Global,
    out: &mut Vec<u8>,
    main: &PartBy,
    part: &PartDef,
) -> Result<(), AllocError>
    ensures { OnOk result (out.new.items ≡ out.old.items ++ part_shown main.now part.now) }
{
    put_bytes(out, b"PARTITION ")?;
    show_name(out, part.name.bytes())?;
    show_values(alloc, out, main, &part.bounds)?;
    show_subs(out, &part.subs)
}

fn show_part_lines(
    alloc: Global,
    out: &mut Vec<u8>,
    main: &PartBy,
    parts: &Parts,
) -> Result<(), AllocError>
    ensures { OnOk result (out.new.items ≡ out.old.items ++ joined (codes ",\n ") (map (part_shown main.now) parts.now)) }
{
    let items = parts.items();
    for (i, part) in items.iter().enumerate() {
        show_gap(out, i, b",\n ")?;
        show_part(alloc, out, main, part)?;
    }
    Ok(())
}

/// All partitions, the first one behind a parenthesis.
#[tactic(auto, unfolding(crate::specs::Show::part_lines))]
fn show_lines(
    alloc: Global,
    out: &mut Vec<u8>,
    main: &PartBy,
    parts: &Parts,
) -> Result<(), AllocError>
    ensures { OnOk result (out.new.items ≡ out.old.items ++ part_lines main.now parts.now) }
{
    put_bytes(out, b"\n(")?;
    show_part_lines(alloc, out, main, parts)?;
    put_bytes(out, b")")
}

/// The line of the subpartitioning.
#[tactic(auto, unfolding(crate::specs::Show::sub_shown))]
fn show_sub(
    alloc: Global,
    out: &mut Vec<u8>,
    columns: &Columns,
    sub: &PartBy,
) -> Result<(), AllocError>
    ensures { OnOk result (out.new.items ≡ out.old.items ++ sub_shown columns.now sub.now) }
{
    match sub {
        PartBy::Whole => Ok(()),
        _ => {
            show_subpartition_by(out)?;
            show_by(alloc, out, columns, sub)
        }
    }
}

/// The partitioning and its partitions.
#[tactic(auto, unfolding(crate::specs::Show::parts_shown))]
fn show_parts(alloc: Global, out: &mut Vec<u8>, def: &TableDef) -> Result<(), AllocError>
    ensures { OnOk result (out.new.items ≡ out.old.items ++ parts_shown def.now def.now.by) }
{
    match &def.by {
        PartBy::Whole => Ok(()),
        _ => {
            show_partition_by(out)?;
            show_by(alloc, out, &def.columns, &def.by)?;
            show_sub(alloc, out, &def.columns, &def.sub)?;
            show_lines(alloc, out, &def.by, &def.parts)
        }
    }
}

#[tactic(auto, unfolding(crate::specs::Show::range_columns))]
fn show_range_columns(out: &mut Vec<u8>) -> Result<(), AllocError>
    ensures { OnOk result (out.new.items ≡ out.old.items ++ range_columns) }
{
    put_bytes(out, b"RANGE COLUMNS ")
}

#[tactic(auto, unfolding(crate::specs::Show::list_columns))]
fn show_list_columns(out: &mut Vec<u8>) -> Result<(), AllocError>
    ensures { OnOk result (out.new.items ≡ out.old.items ++ list_columns) }
{
    put_bytes(out, b"LIST COLUMNS ")
}

#[tactic(auto, unfolding(crate::specs::Show::subpartition_by))]
fn show_subpartition_by(out: &mut Vec<u8>) -> Result<(), AllocError>
    ensures { OnOk result (out.new.items ≡ out.old.items ++ subpartition_by) }
{
    put_bytes(out, b"\nSUBPARTITION BY ")
}

#[tactic(auto, unfolding(crate::specs::Show::subpartition))]
fn show_subpartition(out: &mut Vec<u8>) -> Result<(), AllocError>
    ensures { OnOk result (out.new.items ≡ out.old.items ++ subpartition) }
{
    put_bytes(out, b"SUBPARTITION ")
}

#[tactic(auto, unfolding(crate::specs::Show::partition_by))]
fn show_partition_by(out: &mut Vec<u8>) -> Result<(), AllocError>
    ensures { OnOk result (out.new.items ≡ out.old.items ++ partition_by) }
{
    put_bytes(out, b"\nPARTITION BY ")
}

#[tactic(auto, unfolding(crate::specs::Show::create_table))]
fn show_create_table(out: &mut Vec<u8>) -> Result<(), AllocError>
    ensures { OnOk result (out.new.items ≡ out.old.items ++ create_table) }
{
    put_bytes(out, b"CREATE TABLE ")
}
