ghost use Rattle.pt_value.specs.Laws.{OneDate, OneSpelling, OneValue, SpelledDay};

/// A day has one date, and a date one day, by walking and by counting.
pub fn one_date()
    ensures { OneDate }
{}

/// Bytes spell one day at most.
pub fn one_spelling()
    ensures { OneSpelling }
{}

/// `day_of` gives a day exactly where bytes spell it.
pub fn spelled_day()
    ensures { SpelledDay }
{}

/// No two values tie.
pub fn one_value()
    ensures { OneValue }
{}
