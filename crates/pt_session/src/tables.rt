//! The definitions of tables by name, which are kept in the order in which they came.
ghost use Rattle.std.specs.Prelude.{◌≡◌, nat_eq, IsTrue, Some, refl};
ghost use Rattle.std.specs.Cmp.{partial_equiv_from_equiv};
ghost use Rattle.std.specs.Cmp.Lexicographic.{pointwise, slice_cmp, nat_list_eq_equiv, nat_list_cmp_total, texts_po, texts_ties};
ghost use Rattle.std.specs.Ordering.{nat_cmp};
ghost use Rattle.std.specs.Hash as fed;
ghost use Rattle.pt_session.specs.Hashed.{alike_names};

use indexmap::IndexMap;
use pt_ast::TableDef;
use pt_value::Ident;
use std::cmp::Ordering;
use std::hash::{Hash, Hasher};
use std::marker::Model;

/// Definitions by the names of their tables.
pub(crate) type TableDefs = IndexMap<TableName, TableDef>;

/// The name of a table as a key: it is hashed, and ordered by its bytes.
#[derive(Drop)]
pub(crate) struct TableName {
    pub(crate) ident: Ident,
}

impl Model for TableName {
    ghost use Rattle.std.specs.Prelude.{List, ℕ};

    ghost Value = { List ℕ };

    ghost view = { λ name. name.ident };
}

impl PartialEq for TableName {
    ghost eq = { pointwise nat_eq };

    ghost laws = { partial_equiv_from_equiv nat_list_eq_equiv };

    fn eq(&self, other: &TableName) -> bool {
        self.ident == other.ident
    }
}

impl Eq for TableName {
    ghost laws = { nat_list_eq_equiv };
}

impl PartialOrd for TableName {
    ghost partial_cmp = { λ a b. Some (slice_cmp nat_cmp a b) };

    ghost laws = { texts_po };

    fn partial_cmp(&self, other: &TableName) -> Option<Ordering> {
        Some(self.cmp(other))
    }
}

impl Ord for TableName {
    ghost cmp = { slice_cmp nat_cmp };

    ghost total = { nat_list_cmp_total };

    ghost matches_partial_cmp = { λ a b. refl };

    ghost matches_eq = { texts_ties };

    fn cmp(&self, other: &TableName) -> Ordering {
        self.ident.cmp(&other.ident)
    }
}

impl Hash for TableName {
    ghost hash_input = { fed.slice fed.u8 };

    ghost respects_eq = { alike_names };

    fn hash<H: Hasher>(&self, state: &mut H) {
        self.ident.bytes().hash(state);
    }
}
