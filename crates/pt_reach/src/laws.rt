ghost use Rattle.pt_reach.specs.Laws.{PruningIsSound};

/// A row that stands in a named spot, and for which the condition is TRUE, stands in a spot that is kept.
pub fn pruning_is_sound()
    ensures { PruningIsSound }
{}
