ghost use Rattle.pt_parse_ddl.specs.Spelling.{OneStatement};

/// No symbols spell two statements.
pub fn one_statement()
    ensures { OneStatement }
{}
