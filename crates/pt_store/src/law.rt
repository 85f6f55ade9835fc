//! What a reshape makes of a map, as a law.
ghost use Rattle.pt_store.specs.Reshape.{EachName};

/// What the acts of a reshape make of a map, name by name. It does nothing.
pub fn reshapes_by_name()
    ensures { EachName }
{}
