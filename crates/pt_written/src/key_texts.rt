ghost use Rattle.std.specs.Prelude.{◌≡◌, ◌||◌, false, None};
ghost use Rattle.std.specs.List.{filter_map};
ghost use Rattle.std.specs.Option.{option_or, option_to_list};
ghost use Rattle.pt_written.specs.Complete.{bad_written_key};
ghost use Rattle.pt_place.specs.First.{in_turn};
ghost use Rattle.pt_written.specs.Reading.{bad_key_after, bad_keys_after, has_primary_text};
ghost use Rattle.pt_written.specs.Written.{key_option, keys_in, keys_written};

use crate::written_columns::{has_primary, is_primary_option};
use crate::written_keys::bad_list;
use pt_ast::{Arg, ColOption, Columns, Item, Rank, Refusal};
use pt_place::is_primary;
use pt_value::Ident;

/// What is refused of keys as written, in the order of the text. It takes no memory.
pub fn bad_keys(columns: &Columns, items: &[Item]) -> Option<Refusal>
    ensures { result ≡ in_turn (bad_written_key columns.now) (keys_written items.now) }
{
    bad_keys_after(columns, items)
}

fn bad_keys_after(columns: &Columns, items: &[Item]) -> Option<Refusal>
    ensures { result ≡ bad_keys_after columns.now false (keys_written items.now) }
{
    let mut seen = false;
    for item in items {
        if let Some(refusal) = bad_keys_in(columns, seen, item) {
            return Some(refusal);
        }
        seen = seen_after(seen, item);
    }
    None
}

/// The keys of an item, `seen` where a primary key stands before them.
fn bad_keys_in(columns: &Columns, seen: bool, item: &Item) -> Option<Refusal>
    ensures { result ≡ bad_keys_after columns.now seen (keys_in item.now) }
{
    match item {
        Item::Column(name, _, options) => bad_own_keys(columns, seen, name, options.items()),
        Item::Key(rank, _, names) => bad_key(columns, seen, *rank, names.items()),
    }
}

/// The keys that a column's options make.
fn bad_own_keys(
    columns: &Columns,
    before: bool,
    name: &Ident,
    options: &[ColOption],
) -> Option<Refusal>
    ensures { result ≡ bad_keys_after columns.now before (filter_map (key_option name.now) options.now) }
{
    let mut seen = before;
    for option in options {
        if let Some(refusal) = bad_own_key(columns, seen, name, option) {
            return Some(refusal);
        }
        seen = seen || is_primary_option(option);
    }
    None
}

fn bad_own_key(columns: &Columns, seen: bool, name: &Ident, option: &ColOption) -> Option<Refusal>
    ensures { result ≡ bad_keys_after columns.now seen (option_to_list (key_option name.now option.now)) }
{
    match option {
        ColOption::Primary => bad_key(columns, seen, Rank::Primary, &[*name]),
        ColOption::Unique => bad_key(columns, seen, Rank::Unique, &[*name]),
        ColOption::NotNull => None,
        ColOption::Null => None,
        ColOption::Default(_) => None,
    }
}

fn bad_key(columns: &Columns, seen: bool, rank: Rank, names: &[Ident]) -> Option<Refusal>
    ensures after { result ≡ bad_key_after columns.now seen rank names.now }
    ensures alone { result ≡ option_or (bad_key_after columns.now seen rank names.now) None }
{
    if let Some(refusal) = bad_list(columns, names) {
        return Some(refusal);
    }
    if is_primary(rank) && seen {
        return Some(Refusal::DuplicateColumn(Arg::Primary));
    }
    None
}

/// Whether a primary key stands before the keys behind this item.
fn seen_after(seen: bool, item: &Item) -> bool
    ensures { result ≡ (seen || has_primary_text (keys_in item.now)) }
{
    seen || has_primary_key(item)
}

fn has_primary_key(item: &Item) -> bool
    ensures { result ≡ has_primary_text (keys_in item.now) }
{
    match item {
        Item::Column(_, _, options) => has_primary(options.items()),
        Item::Key(rank, _, _) => is_primary(*rank),
    }
}
