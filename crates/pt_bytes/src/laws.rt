ghost use Rattle.pt_bytes.specs.Laws.{OneNumber};

/// Bytes are determined by how many they are and by their number. It does nothing.
pub fn one_number()
    ensures { OneNumber }
{}
