ghost use Rattle.std.specs.Prelude.{◌≡◌, ◌≤◌, ◌<◌, ◌∷◌, ◌++◌, All, [], IfOk, length, map};
ghost use Rattle.std.specs.List.{filter_map};
ghost use Rattle.pt_ast.specs.Storable.{IsCounted};
ghost use Rattle.pt_ast.specs.StorableSpec.{IsStorableItem};
ghost use Rattle.pt_complete.specs.Making.{key_text};
ghost use Rattle.pt_written.specs.Written.{key_name, key_of, key_option, keys_in, keys_of, own_key};

use crate::made_names::primary;
use pt_ast::{ColOption, Columns, Item, KeyDef, KeyDefs, Rank};
use pt_place::is_primary;
use pt_value::Ident;
use pt_written::{own_name, places_of};
use std::alloc::{AllocError, Global};

/// No memory has room for so many keys.
const KEYS_END: usize = 1 << 32;

/// The keys, in the order of the text: fewer than 2^32.
pub(crate) fn keys_of(
    alloc: Global,
    columns: &Columns,
    items: &[Item],
) -> Result<KeyDefs, AllocError>
    requires columns { length columns.now ≤ 1_000_000 }
    requires items { All IsStorableItem items.now }
    ensures keys { IfOk result (λ keys. keys ≡ keys_of columns.now items.now) }
    ensures few { IfOk result IsCounted }
{
    let mut keys = KeyDefs::new(alloc);
    for item in items {
        put_keys(alloc, columns, item, &mut keys)?;
    }
    if keys.items().len() >= KEYS_END {
        return Err(AllocError);
    }
    Ok(keys)
}

/// The keys of an item.
fn put_keys(
    alloc: Global,
    columns: &Columns,
    item: &Item,
    keys: &mut KeyDefs,
) -> Result<(), AllocError>
    requires columns { length columns.now ≤ 1_000_000 }
    requires item { IsStorableItem item.now }
    ensures { IfOk result (λ _. keys.new ≡ keys.old ++ map (key_of columns.now) (keys_in item.now)) }
{
    match item {
        Item::Column(name, _, options) => put_own_keys(alloc, columns, name, options.items(), keys),
        Item::Key(rank, name, names) => {
            keys.push(key_of(alloc, columns, *rank, name, names.items())?)
        }
    }
}

/// The keys that a column's options make.
fn put_own_keys(
    alloc: Global,
    columns: &Columns,
    name: &Ident,
    options: &[ColOption],
    keys: &mut KeyDefs,
) -> Result<(), AllocError>
    requires { length columns.now ≤ 1_000_000 }
    ensures { IfOk result (λ _. keys.new ≡ keys.old ++ map (key_of columns.now) (filter_map (key_option name.now) options.now)) }
{
    for option in options {
        put_own_key(alloc, columns, name, option, keys)?;
    }
    Ok(())
}

fn put_own_key(
    alloc: Global,
    columns: &Columns,
    name: &Ident,
    option: &ColOption,
    keys: &mut KeyDefs,
) -> Result<(), AllocError>
    requires { length columns.now ≤ 1_000_000 }
    ensures { IfOk result (λ _. keys.new ≡ keys.old ++ map (key_of columns.now) (filter_map (key_option name.now) (option.now ∷ []))) }
{
    match option {
        ColOption::Primary => keys.push(own_key(alloc, columns, Rank::Primary, name)?),
        ColOption::Unique => keys.push(own_key(alloc, columns, Rank::Unique, name)?),
        ColOption::NotNull => Ok(()),
        ColOption::Null => Ok(()),
        ColOption::Default(_) => Ok(()),
    }
}

/// The key of one column that an option of it makes.
fn own_key(alloc: Global, columns: &Columns, rank: Rank, name: &Ident) -> Result<KeyDef, AllocError>
    requires { length columns.now ≤ 1_000_000 }
    ensures { IfOk result (λ key. key ≡ key_of columns.now (own_key rank name.now)) }
{
    key_of(alloc, columns, rank, &None, &[*name])
}

/// A key with its name and the positions of its columns.
fn key_of(
    alloc: Global,
    columns: &Columns,
    rank: Rank,
    name: &Option<Ident>,
    names: &[Ident],
) -> Result<KeyDef, AllocError>
    requires columns { length columns.now ≤ 1_000_000 }
    requires some { 0 < length names.now }
    ensures { IfOk result (λ key. key ≡ key_of columns.now (key_text rank name.now names.now)) }
{
    Ok(KeyDef {
        rank,
        name: key_name(columns, rank, name, names),
        columns: places_of(alloc, columns, names)?,
    })
}

/// A primary key is named PRIMARY, and a key without a name as its first column.
fn key_name(columns: &Columns, rank: Rank, name: &Option<Ident>, names: &[Ident]) -> Ident
    requires { 0 < length names.now }
    ensures { result ≡ key_name columns.now (key_text rank name.now names.now) }
{
    if is_primary(rank) {
        return primary();
    }
    match name {
        Some(name) => *name,
        None => own_name(columns, &names[0]),
    }
}
