//! Which theorems hold of what lines parse to?

ghost use Rattle.line_reading.specs.Laws.{EventsAreFor, ValuesOfText};

/// The value of a UTF-8 line is the JSON value of its text. The event of a line may be submitted for the trust domain that it
/// was parsed for. This function does nothing at run time: its contract is the theorem.
pub fn parsed_law()
    ensures values { ValuesOfText }
    ensures events { EventsAreFor }
{}
