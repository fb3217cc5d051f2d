//! Which bytes of a line are kept?

ghost use Rattle.std.specs.Prelude.{◌≡◌, take};

use crate::limits::KEPT_BYTES;
use std::alloc::{AllocError, Global};
use std::marker::Model;

/// The bytes that are kept of a line, with its LF if that is among them.
///
/// The memory is allocated when the line is made, and suffices for each line that is read into it.
#[derive(Drop)]
pub struct Line {
    bytes: Vec<u8>,
}

impl Model for Line {
    ghost use Rattle.std.specs.Prelude.{ℕ, List, ◌≤◌, length, vec_capacity};
    ghost use Rattle.line_devices.specs.Lines.{kept_bytes};

    ghost Value = { List ℕ };

    ghost view = { λ l. l.bytes.items };

    ghost invariant = { λ l. (length l.bytes.items ≤ kept_bytes) × (kept_bytes ≤ vec_capacity l.bytes) };
}

impl Line {
    ghost use Rattle.std.specs.Prelude.{◌≡◌, ◌↔◌, ◌++◌, [], IfOk, IsTrue};
    ghost use Rattle.line_devices.specs.Lines.{stored_part};

    /// Makes an empty line. The error is out of memory.
    #[tactic(auto, unfolding(crate::specs::Lines::kept_bytes))]
    pub fn new(alloc: Global) -> Result<Line, AllocError>
        ensures { IfOk result (λ line. line ≡ []) }
    {
        Ok(Line {
            bytes: Vec::with_capacity(alloc, KEPT_BYTES)?,
        })
    }

    /// Returns the kept bytes.
    pub fn as_bytes(&self) -> &[u8]
        ensures { result.now ≡ self.now }
    {
        self.bytes.as_slice()
    }

    /// Returns true if no byte is kept.
    pub fn is_empty(&self) -> bool
        ensures { IsTrue result ↔ (self.now ≡ []) }
    {
        self.bytes.is_empty()
    }

    /// Clears the line, and keeps its memory.
    pub(crate) fn clear(&mut self)
        ensures { self.new ≡ [] }
    {
        self.bytes.clear();
    }

    /// Appends the next part, as far as it is kept.
    #[tactic(auto, unfolding(crate::specs::Lines::kept_bytes))]
    pub(crate) fn keep(&mut self, part: &[u8])
        ensures { self.new ≡ stored_part (self.old ++ part.now) }
    {
        let room = KEPT_BYTES - self.bytes.len();
        let _ = self.bytes.extend_from_slice(first_bytes(part, room));
    }
}

/// Returns the first `most` bytes, or all if there are fewer.
fn first_bytes(bytes: &[u8], most: usize) -> &[u8]
    ensures { result.now ≡ take most bytes.now }
{
    bytes.split_at(most.min(bytes.len())).0
}
