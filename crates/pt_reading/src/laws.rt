ghost use Rattle.pt_reading.specs.Blank.{TellsBlank};
ghost use Rattle.pt_reading.specs.Reading.{OneReading};
ghost use Rattle.pt_reading.specs.Script.{StatementsAreAll};

/// A piece has one reading at most.
pub fn one_reading()
    ensures { OneReading }
{}

/// The statements of a script within the limits are all its pieces but those of white space and comments alone.
pub fn all_statements()
    ensures blank { TellsBlank }
    ensures all { StatementsAreAll }
{}
