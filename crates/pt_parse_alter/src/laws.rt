ghost use Rattle.pt_parse_alter.specs.Spelling.{OneReading};

/// No symbols spell two statements: not two changes of tables, nor a change and a definition or a statement on rows.
pub fn one_reading()
    ensures { OneReading }
{}
