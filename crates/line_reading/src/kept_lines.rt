//! Do the bytes that are kept of a line determine what it parses to?

ghost use Rattle.line_reading.specs.Kept.{KeptSpells, KeptSpellsEvent, KeptSpellsRecord};

/// The bytes kept of a line parse to the same request, event or record, or the same fault, as the whole line. This function
/// does nothing at run time: its contract is the theorem.
pub fn kept_law()
    ensures requests { KeptSpells }
    ensures events { KeptSpellsEvent }
    ensures records { KeptSpellsRecord }
{}
