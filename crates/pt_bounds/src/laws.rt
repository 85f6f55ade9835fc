ghost use Rattle.pt_bounds.specs.Laws.{OneList, OneTuple};

/// No two tuples tie, so a tuple stands in a list where it is equal to one of it.
pub fn one_tuple()
    ensures { OneTuple }
{}

/// Where no value stands twice, no two lists have the same tuple.
pub fn one_list()
    ensures { OneList }
{}
