ghost use Rattle.pt_hash.specs.Laws.{GreatestPower, LeastPower, LinearSplit, Residue};

/// From n partitions to n + 1 only values of `split_source` move, and only to the new partition.
pub fn linear_split()
    ensures { LinearSplit }
{}

/// `least_power` and `greatest_power` are the powers of two that they are said to be.
pub fn one_power()
    ensures least { LeastPower }
    ensures greatest { GreatestPower }
{}

/// `residue` is what it is said to be.
pub fn one_residue()
    ensures { Residue }
{}
