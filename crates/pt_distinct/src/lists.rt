ghost use Rattle.std.specs.Prelude.{◌≡◌, ◌++◌, List, false, IfOk};
ghost use Rattle.std.specs.BTreeSet as set;
ghost use Rattle.pt_ast.specs.Bounds.{tuple_cmp};
ghost use Rattle.pt_ast.specs.Lists.{list_fault, repeats};
ghost use Rattle.pt_ast.specs.declared.table.Bound.{Bound};
ghost use Rattle.pt_place.specs.Checks.{of_list_fault};
ghost use Rattle.pt_distinct.specs.Tuples.{AreTuples};

use crate::tuple::Tuple;
use pt_ast::{BoundTuple, PartDef, Refusal};
use std::alloc::{AllocError, Global};
use std::collections::BTreeSet;

/// The first partition with a value that stands already, in an earlier list or earlier in its own.
pub(crate) fn value_twice(alloc: Global, parts: &[PartDef]) -> Result<Option<Refusal>, AllocError>
    ensures { IfOk result (λ r. r ≡ of_list_fault parts.now (list_fault parts.now)) }
{
    let mut seen = BTreeSet::new(alloc);
    for at in 0..parts.len() {
        if repeats(&mut seen, parts[at].bounds.items())? {
            return Ok(Some(Refusal::ValueTwice(parts[at].name)));
        }
    }
    Ok(None)
}

/// Whether some tuple of a list is among those seen, or stands earlier in the list. It sees them all where none does.
fn repeats<'a>(seen: &mut BTreeSet<Tuple<'a>>, tuples: &'a [BoundTuple]) -> Result<bool, AllocError>
    ensures found { (before : List (List Bound)) → AreTuples (λ tuple. set.contains tuple_cmp seen.old tuple) before → IfOk result (λ r. r ≡ repeats before tuples.now) }
    ensures seen { (before : List (List Bound)) → AreTuples (λ tuple. set.contains tuple_cmp seen.old tuple) before → IfOk result (λ r. r ≡ false → AreTuples (λ tuple. set.contains tuple_cmp seen.new tuple) (before ++ tuples.now)) }
{
    for tuple in tuples {
        if !seen.insert(Tuple::of(tuple.items()))? {
            return Ok(true);
        }
    }
    Ok(false)
}
