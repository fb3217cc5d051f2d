//! How many bytes does a device move in a call?

ghost use Rattle.std.specs.Prelude.{◌≡◌, ◌≤◌, ℕ, length, take};

/// How many bytes a device moves in a call.
#[derive(Clone, Copy, Debug)]
pub enum Chunking {
    /// As many as the caller has room for or offers.
    All,
    /// At most one line, up to its LF.
    Line,
    /// At most one byte.
    Byte,
}

impl Chunking {
    /// Each of the three, for tests that run with all of them.
    pub const EACH: [Chunking; 3] = [Chunking::All, Chunking::Line, Chunking::Byte];

    /// Returns the prefix of the bytes that a call moves.
    pub(crate) fn front(self, bytes: &[u8]) -> &[u8]
        ensures { (k : ℕ) × (k ≤ length bytes.now) × (result.now ≡ take k bytes.now) }
    {
        let len = match self {
            Chunking::All => bytes.len(),
            Chunking::Line => match bytes.iter().position(|byte| *byte == b'\n') {
                Some(at) => at.saturating_add(1),
                None => bytes.len(),
            },
            Chunking::Byte => 1,
        };
        bytes.split_at(len.min(bytes.len())).0
    }
}
