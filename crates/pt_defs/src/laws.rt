ghost use Rattle.pt_defs.specs.Laws.{OneSpelling};

/// Reading gives a definition exactly where the bytes spell it: a definition has one spelling, and bytes spell one definition.
pub fn one_spelling()
    ensures { OneSpelling }
{}
