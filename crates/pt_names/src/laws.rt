ghost use Rattle.pt_names.specs.Laws.{OneOwner};

/// Distinct tables and partitions have distinct names, and each name that was made is told as whose it is. It does nothing.
pub fn one_owner()
    ensures { OneOwner }
{}
