//! When are replies flushed?

ghost use Rattle.std.specs.Prelude.{◌≡◌, ◌⊎◌, [], IsTrue};
ghost use Rattle.line_devices.specs.Stream.{IsOut, Puts};

use crate::input::Input;
use crate::output::Output;
use crate::sink::Sink;
use crate::source::Source;

/// Flushes before a read that may wait, and only then. So a person at a terminal sees each reply before
/// entering the next line, while many lines of a large file are written in one call.
pub fn flush_before_waiting<R: Source, W: Sink>(input: &Input<R>, output: &mut Output<W>)
    ensures put { Puts output.old output.new [] }
    ensures ready { output.new.failures ≡ 0 → IsTrue input.now.has_line ⊎ IsOut output.new }
{
    if !input.has_line() {
        output.flush();
    }
}
