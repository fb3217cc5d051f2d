//! What do bytes of a log begin with?

ghost use Rattle.std.specs.Prelude.{◌≡◌, ◌<◌, ◌≤◌, ◌↔◌, [], length, slice_index, take, IfNone, IfSome, IsTrue};
ghost use Rattle.line_log.specs.Lines.{IsLogLine, IsText, lines_in};
ghost use Rattle.line_log.specs.ReadingPrivate.{BeginsAs};

/// What bytes of a log begin with.
#[derive(Clone, Copy, Drop)]
pub(crate) enum FirstLine {
    /// A line of this length, and its LF.
    Whole(usize),
    /// A prefix of a line, and no more.
    Part,
    /// A prefix of a line, of this length, and a byte that neither continues nor ends it.
    Broken(usize),
}

/// Returns what the bytes begin with.
pub(crate) fn first_line(bytes: &[u8]) -> FirstLine
    ensures { BeginsAs bytes.now result }
{
    'bytes: for i in 0..bytes.len() {
        let byte = bytes[i];
        if i == 0 {
            if byte != b'{' {
                return FirstLine::Broken(0);
            }
        } else if byte == b'\n' {
            return FirstLine::Whole(i);
        } else if byte < b' ' {
            return FirstLine::Broken(i);
        }
    }
    FirstLine::Part
}

/// Returns the length of the whole line with which the bytes begin, if they do, without its LF.
pub(crate) fn line_len(bytes: &[u8]) -> Option<usize>
    ensures line { IfSome result (λ n. (n < length bytes.now) × IsLogLine (take n bytes.now) × (slice_index bytes.now n ≡ 10)) }
    ensures none { IfNone result (lines_in bytes.now ≡ []) }
{
    match first_line(bytes) {
        FirstLine::Whole(n) => Some(n),
        FirstLine::Part => None,
        FirstLine::Broken(_) => None,
    }
}

/// Returns whether a text has one line at most.
pub(crate) fn is_one_line(text: &[u8]) -> bool
    requires { IsText text.now }
    ensures { IsTrue result ↔ (length (lines_in text.now) ≤ 1) }
{
    match line_len(text) {
        Some(n) => n + 1 == text.len(),
        None => true,
    }
}

/// Returns whether the bytes are whole lines.
pub fn is_text(bytes: &[u8]) -> bool
    ensures { IsTrue result ↔ IsText bytes.now }
{
    let mut rest = bytes;
    'lines: while let Some(n) = line_len(rest) {
        rest = rest.split_at(n + 1).1;
    }
    rest.is_empty()
}
