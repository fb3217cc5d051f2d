//! What is the next line of a source, and is it buffered already?

use crate::line::Line;
use crate::read_buffer::ReadBuffer;
use crate::source::{Source, SourceFailed};
use std::marker::Model;

/// The lines of a source. It reads ahead, in blocks of at most 8,192 bytes, and takes no memory.
#[derive(Drop)]
pub struct Input<S: Source> {
    source: S,
    held: ReadBuffer,
}

impl<S: Source> Model for Input<S> {
    ghost use Rattle.std.specs.Io.KnownBytes.{prepend_known};
    ghost use Rattle.line_devices.specs.Lines.{has_lf};
    ghost use Rattle.line_devices.specs.Stream.{InputState};

    ghost Value = { InputState };

    ghost view = { λ i. record {
      left = prepend_known i.held (S.left i.source);
      has_line = has_lf i.held;
      failures = S.failures i.source;
      calls_left = S.calls_left i.source;
    } };
}

impl<S: Source> Input<S> {
    ghost use Rattle.std.specs.Prelude.{◌≡◌, false, IsTrue, IsOk, is_ok, if◌then◌else◌};
    ghost use Rattle.line_devices.specs.Lines.{GivesLine};

    /// Makes an input of all lines of the source.
    pub fn new(source: S) -> Input<S>
        ensures { result ≡ record { left = S.left source; has_line = false; failures = S.failures source; calls_left = S.calls_left source } }
    {
        Input {
            source,
            held: ReadBuffer::new(),
        }
    }

    /// Returns true if the next line is buffered whole, so that reading it makes no call and never waits.
    pub fn has_line(&self) -> bool
        ensures { result ≡ self.now.has_line }
    {
        self.held.has_line()
    }

    /// Reads the next line into the given line, and returns false at the end. If the line is longer than
    /// what is kept, the rest is skipped. An error may lose bytes of the line. If a whole line is buffered,
    /// the source isn't called.
    pub fn read_line(&mut self, line: &mut Line) -> Result<bool, SourceFailed>
        requires { self.old.failures ≡ 0 }
        ensures line { GivesLine self.old.left self.new.left line.new result }
        ensures failed { self.new.failures ≡ (if is_ok result then 0 else 1) }
        ensures held { IsTrue self.old.has_line → IsOk result × (self.new.calls_left ≡ self.old.calls_left) }
    {
        line.clear();
        while !self.held.take_line(line) {
            if !self.held.fill(&mut self.source)? {
                return Ok(!line.is_empty());
            }
        }
        Ok(true)
    }
}
