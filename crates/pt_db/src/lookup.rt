ghost use Rattle.std.specs.Prelude.{◌≡◌, length};
ghost use Rattle.std.specs.Cmp.Lexicographic.{slice_cmp};
ghost use Rattle.std.specs.List.Sorted.{IsBinarySearchResult, IsSearchInRange};
ghost use Rattle.std.specs.Option.{option_copied};
ghost use Rattle.std.specs.Ordering.{nat_cmp};
ghost use Rattle.std.specs.Result.{MatchResult};
ghost use Rattle.pt_ast.specs.Rising.{NamesRise};
ghost use Rattle.pt_db.specs.Lookup.{IsPlaceFor, IsPlaceOf, table_in};

use pt_ast::Table;
use pt_value::Ident;

/// The table of this name, byte by byte, sought by halves. It takes no memory.
pub fn find_table<'a>(tables: &'a [Table], name: &Ident) -> Option<&'a Table>
    requires { NamesRise tables.now }
    ensures { option_copied result ≡ table_in tables.now name.now }
{
    match table_place(tables, name) {
        Ok(place) => Some(&tables[place]),
        Err(_) => None,
    }
}

/// Where the table of this name stands, or else where it would stand. It takes no memory.
pub fn table_place(tables: &[Table], name: &Ident) -> Result<usize, usize>
    requires { NamesRise tables.now }
    ensures { MatchResult result (IsPlaceOf tables.now name.now) (IsPlaceFor tables.now name.now) }
{
    search(tables, name)
}

fn search(tables: &[Table], name: &Ident) -> Result<usize, usize>
    ensures bound { IsSearchInRange result (length tables.now) }
    ensures place { IsBinarySearchResult (λ table. slice_cmp nat_cmp table.name name.now) tables.now result }
{
    tables.binary_search_by_key(name, |table| table.name)
}
