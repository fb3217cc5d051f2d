//! What are the lines of bytes?

ghost use Rattle.line_devices.specs.Lines.{LinesJoin, LinesAreLines, OnlyLinesJoin};

/// The theorem about the lines of bytes: concatenated they are the bytes, each ends with its only LF,
/// except a last part without one, and no other list of lines is like this. The body is empty.
pub fn lines_law()
    ensures joined { LinesJoin }
    ensures lines { LinesAreLines }
    ensures only { OnlyLinesJoin }
{}
