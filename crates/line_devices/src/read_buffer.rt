//! Which bytes of a source are buffered, and do they contain a whole line?

ghost use Rattle.std.specs.Prelude.{◌≡◌, ◌==◌, position};

use crate::line::Line;
use crate::source::{Source, SourceFailed};
use std::marker::Model;

/// The size of the buffer, in bytes.
const ROOM: usize = 8192;

/// The bytes that were read from a source but not taken yet, with the index of the first LF among them. So each byte is
/// compared with LF once.
#[derive(Drop)]
pub(crate) struct ReadBuffer {
    buffer: [u8; ROOM],
    start: usize,
    end: usize,
    lf: Option<usize>,
}

impl Model for ReadBuffer {
    ghost use Rattle.std.specs.Prelude.{ℕ, List, ◌≡◌, ◌==◌, ◌≤◌, position, slice_range};
    ghost use Rattle.line_devices.specs.declared.read_buffer.TheConstants.{ROOM};

    ghost Value = { List ℕ };

    ghost view = { λ h. slice_range h.buffer h.start h.end };

    ghost invariant = { λ h. (h.start ≤ h.end) × (h.end ≤ ROOM) × (h.lf ≡ position (λ b. b == 10) (slice_range h.buffer h.start h.end)) };
}

/// Returns the index of the first LF.
fn lf_at(bytes: &[u8]) -> Option<usize>
    ensures { result ≡ position (λ b. b == 10) bytes.now }
{
    bytes.iter().position(|byte| *byte == b'\n')
}

impl ReadBuffer {
    ghost use Rattle.std.specs.Prelude.{◌≡◌, ◌+◌, ◌<◌, ◌≤◌, ◌^◌, [], false, length, take, MatchOption, OnOk, is_ok, if◌then◌else◌};
    ghost use Rattle.line_devices.specs.Lines.{has_lf, IsWholeLine};
    ghost use Rattle.line_devices.specs.StreamPrivate.{MovesLine};
    ghost use Rattle.line_devices.specs.StreamPrivate.{Fills};

    /// Makes an empty buffer.
    pub(crate) fn new() -> ReadBuffer
        ensures { result ≡ [] }
    {
        ReadBuffer {
            buffer: [0; ROOM],
            start: 0,
            end: 0,
            lf: None,
        }
    }

    /// Returns true if a whole line is buffered, with its LF.
    pub(crate) fn has_line(&self) -> bool
        ensures { result ≡ has_lf self.now }
    {
        self.lf.is_some()
    }

    /// Returns the length of the first line with its LF, if there is an LF.
    fn line_len(&self) -> Option<usize>
        ensures { MatchOption result (has_lf self.now ≡ false) (λ n. (n ≤ length self.now) × IsWholeLine (take n self.now)) }
    {
        match self.lf {
            Some(lf) => Some(lf + 1),
            None => None,
        }
    }

    /// Moves the bytes up to the first LF into the line, or all if there is no LF. Returns true if there
    /// was one.
    pub(crate) fn take_line(&mut self, line: &mut Line) -> bool
        ensures { MovesLine self.old self.new line.old line.new result }
    {
        match self.line_len() {
            Some(len) => {
                let bytes = &self.buffer[self.start..self.end];
                line.keep(bytes.split_at(len).0);
                self.start += len;
                self.lf = lf_at(&self.buffer[self.start..self.end]);
                true
            }
            None => {
                line.keep(&self.buffer[self.start..self.end]);
                self.start = self.end;
                false
            }
        }
    }

    /// Reads the next bytes. Returns false at the end.
    pub(crate) fn fill<S: Source>(&mut self, source: &mut S) -> Result<bool, SourceFailed>
        requires empty { self.old ≡ [] }
        requires countable { S.failures source.old + 1 < 2 ^ 64 }
        ensures bytes { Fills (S.left source.old) (S.left source.new) self.new result }
        ensures failed { S.failures source.new ≡ S.failures source.old + (if is_ok result then 0 else 1) }
        ensures ends { OnOk result (S.calls_left source.new < S.calls_left source.old) }
    {
        self.start = 0;
        self.end = 0;
        self.lf = None;
        self.end = source.read_some(&mut self.buffer)?;
        self.lf = lf_at(&self.buffer[..self.end]);
        Ok(self.end > 0)
    }
}
