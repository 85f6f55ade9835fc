ghost use Rattle.std.specs.Prelude.{◌≡◌, refl};
ghost use Rattle.std.specs.Cmp.{eq_by_cmp_equiv, partial_equiv_from_equiv, partial_order_from_total};
ghost use Rattle.std.specs.Ordering.{as_partial_cmp, eq_by_cmp};
ghost use Rattle.pt_ast.specs.Bounds.{bound_cmp, tuple_cmp};
ghost use Rattle.pt_bounds.proofs.Orders.{tuple_cmp_total};

use pt_ast::Bound;
use std::cmp::Ordering;
use std::marker::Model;

/// The bound of a range or an entry of a list, lent, in the order of tuples. Contracts see the list of its items.
#[derive(Drop)]
pub(crate) struct Tuple<'a> {
    bounds: &'a [Bound],
}

impl<'a> Model for Tuple<'a> {
    ghost use Rattle.std.specs.Prelude.{List as Listed};
    ghost use Rattle.std.specs.Coded.{coded_list};
    ghost use Rattle.pt_ast.specs.declared.table.Bound.{Bound as Item};
    ghost use Rattle.pt_ast.specs.contracts.table.Bound as item;

    ghost Value = { Listed Item };

    ghost coded = { coded_list item.the_row.coded };

    ghost view = { λ tuple. tuple.bounds.now };
}

impl<'a> Tuple<'a> {
    /// Of these items.
    pub(crate) fn of(bounds: &'a [Bound]) -> Tuple<'a>
        ensures { result ≡ bounds.now }
    {
        Tuple { bounds }
    }
}

impl<'a> PartialEq for Tuple<'a> {
    ghost eq = { eq_by_cmp tuple_cmp };

    ghost laws = { partial_equiv_from_equiv (eq_by_cmp_equiv tuple_cmp_total) };

    fn eq(&self, other: &Tuple<'a>) -> bool {
        self.cmp(other).is_eq()
    }
}

impl<'a> Eq for Tuple<'a> {
    ghost laws = { eq_by_cmp_equiv tuple_cmp_total };
}

impl<'a> PartialOrd for Tuple<'a> {
    ghost partial_cmp = { as_partial_cmp tuple_cmp };

    ghost laws = { partial_order_from_total tuple_cmp_total };

    fn partial_cmp(&self, other: &Tuple<'a>) -> Option<Ordering> {
        Some(self.cmp(other))
    }
}

/// At the first item in which they differ. It takes no memory.
impl<'a> Ord for Tuple<'a> {
    ghost cmp = { tuple_cmp };

    ghost total = { tuple_cmp_total };

    ghost matches_partial_cmp = { λ a b. refl };

    ghost matches_eq = { λ a b. refl };

    fn cmp(&self, other: &Tuple<'a>) -> Ordering {
        tuple_cmp(self.bounds, other.bounds)
    }
}

/// How a tuple compares with another.
pub(crate) fn tuple_cmp(tuple: &[Bound], other: &[Bound]) -> Ordering
    ensures { result ≡ tuple_cmp tuple.now other.now }
{
    for (at, bound) in tuple.iter().enumerate() {
        let Some(item) = other.get(at) else {
            return Ordering::Greater;
        };
        let order = bound_cmp(bound, item);
        if order.is_ne() {
            return order;
        }
    }
    match other.get(tuple.len()) {
        Some(_) => Ordering::Less,
        None => Ordering::Equal,
    }
}

fn bound_cmp(bound: &Bound, other: &Bound) -> Ordering
    ensures { result ≡ bound_cmp bound.now other.now }
{
    match (bound, other) {
        (Bound::Val(value), Bound::Val(other)) => value.cmp(other),
        (Bound::Val(_), Bound::Max) => Ordering::Less,
        (Bound::Max, Bound::Val(_)) => Ordering::Greater,
        (Bound::Max, Bound::Max) => Ordering::Equal,
    }
}
