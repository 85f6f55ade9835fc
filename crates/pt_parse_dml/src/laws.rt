ghost use Rattle.pt_parse_dml.specs.Spelling.{OneReading};

/// No symbols spell two statements: not two on rows, nor two definitions, nor one of each.
pub fn one_reading()
    ensures { OneReading }
{}
