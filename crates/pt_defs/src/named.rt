//! The columns of a table, by their names.
ghost use Rattle.std.specs.Prelude.{◌≡◌, ℕ, List, IfOk, OnOk};
ghost use Rattle.std.specs.BTreeMap as tree;
ghost use Rattle.std.specs.Cmp.Lexicographic.{slice_cmp};
ghost use Rattle.std.specs.Ordering.{nat_cmp};
ghost use Rattle.pt_defs.specs.Places.{ArePlaces, placed_at};
ghost use Rattle.pt_defs.specs.Spelling.{column_place};

use pt_ast::Column;
use pt_value::Ident;
use std::alloc::{AllocError, Global};
use std::collections::BTreeMap;
use std::marker::Model;

/// The position of the first column of each name.
type Places = BTreeMap<Ident, usize>;

/// Columns that are found by their names, without a walk over all of them. Contracts see the columns.
#[derive(Drop)]
pub(crate) struct NamedColumns<'a> {
    columns: &'a [Column],
    places: Places,
}

impl<'a> Model for NamedColumns<'a> {
    ghost use Rattle.std.specs.Prelude.{List as Listed};
    ghost use Rattle.std.specs.BTreeMap as tree;
    ghost use Rattle.std.specs.Coded.{coded_list};
    ghost use Rattle.std.specs.Cmp.Lexicographic.{slice_cmp};
    ghost use Rattle.std.specs.Ordering.{nat_cmp};
    ghost use Rattle.pt_ast.specs.declared.table.Column.{Column as TableColumn};
    ghost use Rattle.pt_ast.specs.contracts.table.Column as column;
    ghost use Rattle.pt_defs.specs.Places.{ArePlaces};

    ghost Value = { Listed TableColumn };

    ghost coded = { coded_list column.the_row.coded };

    ghost view = { λ named. named.columns.now };

    ghost invariant = { λ named. ArePlaces (λ name. tree.get (slice_cmp nat_cmp) named.places name) named.columns.now };
}

impl<'a> NamedColumns<'a> {
    /// These columns. It takes memory in proportion to how many they are.
    pub(crate) fn of(alloc: Global, columns: &'a [Column]) -> Result<NamedColumns<'a>, AllocError>
        ensures { IfOk result (λ named. named ≡ columns.now) }
    {
        let places = places_of(alloc, columns)?;
        Ok(NamedColumns { columns, places })
    }

    /// The columns, in their order. It takes no memory.
    pub(crate) fn items(&self) -> &'a [Column]
        ensures { result.now ≡ self.now }
    {
        self.columns
    }

    /// The position of the first column of a name, or how many columns there are where none has it. It takes no memory.
    pub(crate) fn place_of(&self, name: &Ident) -> usize
        ensures { result ≡ column_place name.now self.now }
    {
        place_in(self.columns, &self.places, name)
    }
}

/// The position of the first column of each name.
fn places_of(alloc: Global, columns: &[Column]) -> Result<Places, AllocError>
    ensures { IfOk result (λ places. ArePlaces (λ name. tree.get (slice_cmp nat_cmp) places name) columns.now) }
{
    let mut places = BTreeMap::new(alloc);
    for (place, column) in columns.iter().enumerate() {
        put_first(&mut places, &column.name, place)?;
    }
    Ok(places)
}

/// Puts a name at a place, unless it is at one.
fn put_first(places: &mut Places, name: &Ident, place: usize) -> Result<(), AllocError>
    ensures { OnOk result ((other : List ℕ) → tree.get (slice_cmp nat_cmp) places.new other ≡ placed_at (λ n. tree.get (slice_cmp nat_cmp) places.old n) name.now place other) }
{
    if places.contains_key(name) {
        return Ok(());
    }
    places.insert(*name, place)?;
    Ok(())
}

/// The place of a name, or how many columns there are where it has none.
fn place_in(columns: &[Column], places: &Places, name: &Ident) -> usize
    requires { ArePlaces (λ name. tree.get (slice_cmp nat_cmp) places.now name) columns.now }
    ensures { result ≡ column_place name.now columns.now }
{
    match places.get(name) {
        Some(place) => *place,
        None => columns.len(),
    }
}
