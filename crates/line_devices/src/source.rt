//! Where do bytes come from?

ghost use Rattle.std.specs.Prelude.{◌≡◌, ◌+◌, ◌<◌, ◌^◌, ℕ, List, Option, OnOk, is_ok, if◌then◌else◌};
ghost use Rattle.std.specs.Io.{ReadsAtMost};
ghost use Rattle.std.specs.Io.KnownBytes.{ReadConsumes};

/// A call of a source failed.
#[derive(Clone, Copy, Debug, PartialEq, Eq)]
pub struct SourceFailed;

/// A reader of bytes. It counts its calls that failed, and only finitely many calls can succeed.
pub trait Source {
    // The bytes that are left: known for memory, unknown for a device.
    ghost left: { Self → Option (List ℕ) };

    // The number of calls that have failed.
    ghost failures: { Self → ℕ };

    // A bound on the number of calls that can still succeed.
    ghost calls_left: { Self → ℕ };

    /// Reads bytes into the front of the buffer and returns their number: 0 only at the end, or if the
    /// buffer has no room. A failed call has read no byte.
    fn read_some(&mut self, buffer: &mut [u8]) -> Result<usize, SourceFailed>
        requires { failures self.old + 1 < 2 ^ 64 }
        ensures bound { ReadsAtMost result buffer.new }
        ensures bytes { ReadConsumes (left self.old) (left self.new) result buffer.new }
        ensures failed { failures self.new ≡ failures self.old + (if is_ok result then 0 else 1) }
        ensures ends { OnOk result (calls_left self.new < calls_left self.old) };
}
