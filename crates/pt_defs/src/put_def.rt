//! Writing partitions, and the whole definition.
ghost use Rattle.std.specs.Prelude.{◌≡◌, ◌++◌, IfOk, Ok, OnOk};
ghost use Rattle.std.specs.List.{flat_map};
ghost use Rattle.pt_ast.specs.StorableDef.{IsStorableDef};
ghost use Rattle.pt_defs.specs.Files.{IsFileOf};
ghost use Rattle.pt_defs.specs.Reading.{def_at};
ghost use Rattle.pt_defs.specs.Spelling.{behind_text, body_text, bound_text, bounds_text, by_text, column_text, key_text, list_text, name_text, part_text, subs_text, tuple_text};

use crate::fitting::def_fits;
use crate::put_expr::put_over;
use crate::put_item::{put_cell, put_column, put_count, put_key, put_name, put_positions};
use pt_ast::{Bound, BoundTuple, Columns, Idents, KeyDefs, PartBy, PartDef, TableDef, Tuples};
use pt_bytes::{put_bytes, put_u8, put_u64};
use std::alloc::{AllocError, Global};

/// What a definition begins with: `PTD`, 1.
pub(crate) const HEAD: [u8; 4] = [80, 84, 68, 1];

/// The bytes of a definition: its one spelling, which is read to it.
pub fn def_bytes(alloc: Global, def: &TableDef) -> Result<Vec<u8>, AllocError>
    requires { IsStorableDef def.now }
    ensures file { IfOk result (λ bytes. IsFileOf bytes.items def.now) }
    ensures reads_back { IfOk result (λ bytes. def_at bytes.items ≡ Ok def.now) }
{
    def_fits(def);
    let mut body = Vec::new(alloc);
    put_body(alloc, &mut body, def)?;
    let mut bytes = Vec::new(alloc);
    put_bytes(&mut bytes, &HEAD)?;
    put_u64(&mut bytes, body.len() as u64)?;
    put_bytes(&mut bytes, &body)?;
    Ok(bytes)
}

#[tactic(auto, unfolding(crate::specs::Spelling::body_text))]
fn put_body(alloc: Global, out: &mut Vec<u8>, def: &TableDef) -> Result<(), AllocError>
    ensures { OnOk result (out.new.items ≡ out.old.items ++ body_text def.now) }
{
    put_columns(out, &def.columns)?;
    put_keys(out, &def.keys)?;
    put_by(alloc, out, &def.columns, &def.by)?;
    put_behind(alloc, out, def)
}

fn put_columns(out: &mut Vec<u8>, columns: &Columns) -> Result<(), AllocError>
    ensures { OnOk result (out.new.items ≡ out.old.items ++ list_text column_text columns.now) }
{
    let items = columns.items();
    put_count(out, items.len())?;
    for column in items {
        put_column(out, column)?;
    }
    Ok(())
}

fn put_keys(out: &mut Vec<u8>, keys: &KeyDefs) -> Result<(), AllocError>
    ensures { OnOk result (out.new.items ≡ out.old.items ++ list_text key_text keys.now) }
{
    let items = keys.items();
    put_count(out, items.len())?;
    for key in items {
        put_key(out, key)?;
    }
    Ok(())
}

/// What the rows are partitioned by.
#[tactic(auto, unfolding(crate::specs::Spelling::by_text))]
fn put_by(
    alloc: Global,
    out: &mut Vec<u8>,
    columns: &Columns,
    by: &PartBy,
) -> Result<(), AllocError>
    ensures { OnOk result (out.new.items ≡ out.old.items ++ by_text columns.now by.now) }
{
    match by {
        PartBy::Whole => put_u8(out, 0),
        PartBy::Range(expr) => {
            put_u8(out, 1)?;
            put_over(alloc, out, columns, expr)
        }
        PartBy::List(expr) => {
            put_u8(out, 2)?;
            put_over(alloc, out, columns, expr)
        }
        PartBy::RangeColumns(numbers) => {
            put_u8(out, 3)?;
            put_positions(out, numbers)
        }
        PartBy::ListColumns(numbers) => {
            put_u8(out, 4)?;
            put_positions(out, numbers)
        }
        PartBy::Hash(is_linear, expr) => {
            put_u8(out, if *is_linear { 6 } else { 5 })?;
            put_over(alloc, out, columns, expr)
        }
        PartBy::Key(is_linear, numbers) => {
            put_u8(out, if *is_linear { 8 } else { 7 })?;
            put_positions(out, numbers)
        }
    }
}

/// What stands behind the partitioning: nothing where there is none.
#[tactic(auto, unfolding(crate::specs::Spelling::behind_text))]
fn put_behind(alloc: Global, out: &mut Vec<u8>, def: &TableDef) -> Result<(), AllocError>
    ensures { OnOk result (out.new.items ≡ out.old.items ++ behind_text def.now def.now.by) }
{
    match &def.by {
        PartBy::Whole => Ok(()),
        _ => {
            put_by(alloc, out, &def.columns, &def.sub)?;
            put_parts(out, def)
        }
    }
}

fn put_parts(out: &mut Vec<u8>, def: &TableDef) -> Result<(), AllocError>
    ensures { OnOk result (out.new.items ≡ out.old.items ++ list_text (part_text def.now.by def.now.sub) def.now.parts) }
{
    let items = def.parts.items();
    put_count(out, items.len())?;
    for part in items {
        put_part(out, &def.by, &def.sub, part)?;
    }
    Ok(())
}

/// A partition.
#[tactic(auto, unfolding(crate::specs::Spelling::part_text))]
fn put_part(
    out: &mut Vec<u8>,
    main: &PartBy,
    sub: &PartBy,
    part: &PartDef,
) -> Result<(), AllocError>
    ensures { OnOk result (out.new.items ≡ out.old.items ++ part_text main.now sub.now part.now) }
{
    put_name(out, &part.name)?;
    put_bounds(out, main, &part.bounds)?;
    put_subs(out, sub, &part.subs)
}

/// The bounds of a partition.
#[tactic(auto, unfolding(crate::specs::Spelling::bounds_text))]
fn put_bounds(out: &mut Vec<u8>, main: &PartBy, tuples: &Tuples) -> Result<(), AllocError>
    ensures { OnOk result (out.new.items ≡ out.old.items ++ bounds_text main.now tuples.now) }
{
    match main {
        PartBy::Range(_) | PartBy::RangeColumns(_) => put_tuples(out, tuples),
        PartBy::List(_) | PartBy::ListColumns(_) => put_tuple_list(out, tuples),
        PartBy::Whole | PartBy::Hash(_, _) | PartBy::Key(_, _) => Ok(()),
    }
}

#[tactic(auto, using(crate::proofs::Texts::behind_text), unfolding(crate::specs::Spelling::list_text))]
fn put_tuple_list(out: &mut Vec<u8>, tuples: &Tuples) -> Result<(), AllocError>
    ensures { OnOk result (out.new.items ≡ out.old.items ++ list_text tuple_text tuples.now) }
{
    put_count(out, tuples.items().len())?;
    put_tuples(out, tuples)
}

fn put_tuples(out: &mut Vec<u8>, tuples: &Tuples) -> Result<(), AllocError>
    ensures { OnOk result (out.new.items ≡ out.old.items ++ flat_map tuple_text tuples.now) }
{
    let items = tuples.items();
    for tuple in items {
        put_tuple(out, tuple)?;
    }
    Ok(())
}

fn put_tuple(out: &mut Vec<u8>, tuple: &BoundTuple) -> Result<(), AllocError>
    ensures { OnOk result (out.new.items ≡ out.old.items ++ tuple_text tuple.now) }
{
    let items = tuple.items();
    for bound in items {
        put_bound(out, bound)?;
    }
    Ok(())
}

#[tactic(auto, unfolding(crate::specs::Spelling::bound_text))]
fn put_bound(out: &mut Vec<u8>, bound: &Bound) -> Result<(), AllocError>
    ensures { OnOk result (out.new.items ≡ out.old.items ++ bound_text bound.now) }
{
    match bound {
        Bound::Val(cell) => put_cell(out, cell),
        Bound::Max => put_u8(out, 255),
    }
}

/// The names of subpartitions, where there are any.
#[tactic(auto, unfolding(crate::specs::Spelling::subs_text))]
fn put_subs(out: &mut Vec<u8>, sub: &PartBy, names: &Idents) -> Result<(), AllocError>
    ensures { OnOk result (out.new.items ≡ out.old.items ++ subs_text sub.now names.now) }
{
    match sub {
        PartBy::Whole => Ok(()),
        _ => put_names(out, names),
    }
}

fn put_names(out: &mut Vec<u8>, names: &Idents) -> Result<(), AllocError>
    ensures { OnOk result (out.new.items ≡ out.old.items ++ list_text name_text names.now) }
{
    let items = names.items();
    put_count(out, items.len())?;
    for name in items {
        put_name(out, name)?;
    }
    Ok(())
}
