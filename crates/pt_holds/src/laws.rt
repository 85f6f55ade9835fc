ghost use Rattle.pt_holds.specs.Laws.{EmptyHolds, HoldsAtMostOne, OneAlteration};

/// Files hold one database at most. It does nothing.
pub fn holds_at_most_one()
    ensures { HoldsAtMostOne }
{}

/// Where there is no file, or an empty counter alone, that is the empty database. It does nothing.
pub fn empty_holds()
    ensures { EmptyHolds }
{}

/// Another definition and the rows that are given for spots determine a sound table's rows. It does nothing.
pub fn one_alteration()
    ensures { OneAlteration }
{}
