ghost use Rattle.std.specs.Prelude.{◌≡◌, ◌++◌, false, IfOk, IfNone};
ghost use Rattle.pt_complete.specs.Making.{bad_item_beside, column_as, names_added, columns_added};
ghost use Rattle.pt_place.specs.Checks.{is_too_long};
ghost use Rattle.pt_place.specs.First.{in_turn};
ghost use Rattle.pt_written.specs.Complete.{bad_item, bad_written_column, refused_or};
ghost use Rattle.pt_written.specs.Written.{columns_of, is_not_null, kind_of, primary_names, primary_names_in};

use crate::defaults::default_of;
use pt_ast::{Arg, ColOption, Column, Columns, Item, KindSpec, Rank, Refusal};
use pt_distinct::Names;
use pt_value::{Ident, Kind};
use pt_written::{has_primary, is_constant_out, is_default_wrong, is_too_long, says_not_null};
use std::alloc::{AllocError, Global};

/// The columns, in the order of the text; or what is refused of them.
pub(crate) fn columns_of(
    alloc: Global,
    items: &[Item],
) -> Result<Result<Columns, Refusal>, AllocError>
    ensures { IfOk result (λ made. made ≡ refused_or (in_turn (bad_item (primary_names items.now)) items.now) (columns_of items.now)) }
{
    let primary = primary_names(alloc, items)?;
    let mut names = Names::new(alloc);
    let mut columns = Columns::new(alloc);
    for item in items {
        if let Some(refusal) = put_column(alloc, &primary, &mut names, &mut columns, item)? {
            return Ok(Err(refusal));
        }
    }
    Ok(Ok(columns))
}

/// A column, which is added to those before it; a key has its turn later.
fn put_column(
    alloc: Global,
    primary: &Names,
    names: &mut Names,
    columns: &mut Columns,
    item: &Item,
) -> Result<Option<Refusal>, AllocError>
    ensures refusal { IfOk result (λ refusal. refusal ≡ bad_item_beside primary.now names.old item.now) }
    ensures names { IfOk result (λ refusal. IfNone refusal (names.new ≡ names.old ++ names_added item.now)) }
    ensures columns { IfOk result (λ refusal. IfNone refusal (columns.new ≡ columns.old ++ columns_added primary.now item.now)) }
{
    match item {
        Item::Column(name, kind, options) => {
            match column(alloc, primary, names, name, *kind, options.items())? {
                Ok(column) => {
                    names.add(name)?;
                    columns.push(column)?;
                    Ok(None)
                }
                Err(refusal) => Ok(Some(refusal)),
            }
        }
        Item::Key(_, _, _) => Ok(None),
    }
}

/// A column beside the names of those before it, or what is refused of it.
fn column(
    alloc: Global,
    primary: &Names,
    before: &Names,
    name: &Ident,
    kind: KindSpec,
    options: &[ColOption],
) -> Result<Result<Column, Refusal>, AllocError>
    ensures { IfOk result (λ made. made ≡ refused_or (bad_written_column (kind_of kind) (is_not_null primary.now name.now options.now) options.now before.now name.now) (column_as primary.now name.now kind options.now)) }
{
    if before.has(name) {
        return Ok(Err(Refusal::DuplicateColumn(Arg::Name(*name))));
    }
    if is_too_long(kind) || is_constant_out(kind, options) {
        return Ok(Err(Refusal::OutOfRange(Arg::Name(*name))));
    }
    let not_null = is_not_null(primary, name, options);
    if is_default_wrong(kind, not_null, options) {
        return Ok(Err(Refusal::TypeMismatch(Arg::Name(*name))));
    }
    Ok(Ok(Column {
        name: *name,
        kind: kind_of(kind),
        not_null,
        default: default_of(alloc, kind, options)?,
    }))
}

/// What a column takes.
fn kind_of(kind: KindSpec) -> Kind
    requires { is_too_long (kind_of kind) ≡ false }
    ensures { result ≡ kind_of kind }
{
    match kind {
        KindSpec::Int => Kind::Int,
        KindSpec::BigInt => Kind::BigInt,
        KindSpec::Date => Kind::Date,
        KindSpec::Binary(most) => Kind::Binary(most.unsigned_abs() as u16),
    }
}

/// Whether a column is NOT NULL: by its options, or as one of the primary key.
fn is_not_null(primary: &Names, name: &Ident, options: &[ColOption]) -> bool
    ensures { result ≡ is_not_null primary.now name.now options.now }
{
    says_not_null(options) || has_primary(options) || primary.has(name)
}

/// The names that items of primary keys list.
fn primary_names(alloc: Global, items: &[Item]) -> Result<Names, AllocError>
    ensures { IfOk result (λ names. names ≡ primary_names items.now) }
{
    let mut names = Names::new(alloc);
    for item in items {
        put_primary(&mut names, item)?;
    }
    Ok(names)
}

fn put_primary(names: &mut Names, item: &Item) -> Result<(), AllocError>
    ensures { IfOk result (λ _. names.new ≡ names.old ++ primary_names_in item.now) }
{
    match item {
        Item::Key(Rank::Primary, _, listed) => put_names(names, listed.items()),
        _ => Ok(()),
    }
}

fn put_names(names: &mut Names, listed: &[Ident]) -> Result<(), AllocError>
    ensures { IfOk result (λ _. names.new ≡ names.old ++ listed.now) }
{
    for name in listed {
        names.add(name)?;
    }
    Ok(())
}
