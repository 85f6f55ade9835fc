ghost use Rattle.pt_rowfile.specs.Laws.{Appended, OneFile, OneRecord};

/// No record begins another.
pub fn one_record()
    ensures { OneRecord }
{}

/// A proper record behind the bytes of a row file leaves what it makes of their rows.
pub fn appended()
    ensures { Appended }
{}

/// Bytes leave one list of rows at most, which is a function of them.
pub fn one_file()
    ensures { OneFile }
{}
