ghost use Rattle.pt_db.specs.Laws.{ChangesKeepSound, OneByNames, OneBySpots, PlacedInSpot};

/// The place of a row is one of its table's spots.
pub fn placed_in_spot()
    ensures { PlacedInSpot }
{}

/// The rows of a sound table are determined by those of its spots.
pub fn one_by_spots()
    ensures { OneBySpots }
{}

/// A sound database is determined by the table of each name and the next serial.
pub fn one_by_names()
    ensures { OneByNames }
{}

/// Each change keeps a database sound.
pub fn changes_keep_sound()
    ensures { ChangesKeepSound }
{}
