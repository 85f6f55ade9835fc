ghost use Rattle.pt_parse_expr.specs.Spelling.{OneReading};

/// No symbols spell two expressions, and none two conditions.
pub fn one_reading()
    ensures { OneReading }
{}
