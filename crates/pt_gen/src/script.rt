ghost use Rattle.std.specs.Prelude.{◌≡◌, ◌+◌, ◌<◌, ◌≤◌, length, IfOk};
ghost use Rattle.pt_gen.specs.Script.{gen_statement, script, last_four, selected};
ghost use Rattle.std.specs.Prelude.{slice_index_or};

use crate::names::gen_table;
use crate::rows::{deleted, inserted, selected};
use crate::table::created;
use pt_ast::Stmt;
use std::alloc::{AllocError, Global};

/// The most INSERTs that a script has.
pub const MOST: u64 = 1000;

/// How many statements the script of `n` INSERTs has. It takes no memory.
pub fn count(n: u64) -> u64
    requires { n ≤ MOST }
    ensures count { result ≡ n + 5 }
    ensures whole { result ≡ length (script n) }
{
    n + 5
}

/// The statement `i` of the script of `n` INSERTs, from 0. It fails only where memory is wanted.
pub fn statement(alloc: Global, n: u64, i: u64) -> Result<Stmt, AllocError>
    requires few { n ≤ MOST }
    requires within { i < n + 5 }
    ensures { IfOk result (λ statement. statement ≡ gen_statement n i) }
{
    if i == 0 {
        return created(alloc);
    }
    if i <= n {
        return inserted(alloc, i - 1);
    }
    last(alloc, i - n - 1)
}

/// The statement `at` of the last four.
fn last(alloc: Global, at: u64) -> Result<Stmt, AllocError>
    requires { at < 4 }
    ensures { IfOk result (λ statement. statement ≡ slice_index_or last_four at selected) }
{
    match at {
        0 => deleted(alloc),
        1 => Ok(Stmt::Coalesce(gen_table(), 1)),
        2 => Ok(Stmt::AddCount(gen_table(), 2)),
        _ => selected(alloc),
    }
}
