ghost use Rattle.pt_place.specs.Laws.{OneSpot, StorableIsPlaced, TakenInSpot};

/// Each column number of a storable definition is below the number of columns, as `valid` asks.
pub fn storable_is_placed()
    ensures { StorableIsPlaced }
{}

/// Rows that agree on a unique key of a valid definition have the same place.
pub fn one_spot()
    ensures { OneSpot }
{}

/// Whether a row agrees with these cells is decided by the rows of their place alone.
pub fn taken_in_spot()
    ensures { TakenInSpot }
{}
