//! Where do bytes go to?

ghost use Rattle.std.specs.Prelude.{◌≡◌, ◌+◌, ◌<◌, ◌≤◌, ◌^◌, ℕ, Bool, List, Option, IfOk, IsFalse, IsTrue, OnOk, is_ok, if◌then◌else◌, length};
ghost use Rattle.std.specs.Io.KnownBytes.{Keeps, WriteAppends};

/// A call of a sink failed.
#[derive(Clone, Copy, Debug, PartialEq, Eq)]
pub struct SinkFailed;

/// A writer of bytes. It counts its calls that failed.
pub trait Sink {
    // The bytes that it has: known for memory, unknown for a device.
    ghost written: { Self → Option (List ℕ) };

    // The number of calls that have failed.
    ghost failures: { Self → ℕ };

    // Whether it has passed on everything that was written: false after a write, until a flush has succeeded.
    ghost is_flushed: { Self → Bool };

    /// Writes a prefix of the bytes, at least one byte, and returns its length. A call that takes no byte
    /// has failed, and a failed call has taken none.
    fn write_some(&mut self, bytes: &[u8]) -> Result<usize, SinkFailed>
        requires some { 0 < length bytes.now }
        requires countable { failures self.old + 1 < 2 ^ 64 }
        ensures bound { IfOk result (λ n. (0 < n) × (n ≤ length bytes.now)) }
        ensures bytes { WriteAppends (written self.old) (written self.new) result bytes.now }
        ensures failed { failures self.new ≡ failures self.old + (if is_ok result then 0 else 1) }
        ensures unflushed { OnOk result (IsFalse (is_flushed self.new)) };

    /// Flushes what the device itself buffers.
    fn flush(&mut self) -> Result<(), SinkFailed>
        requires { failures self.old + 1 < 2 ^ 64 }
        ensures bytes { Keeps (written self.old) (written self.new) }
        ensures failed { failures self.new ≡ failures self.old + (if is_ok result then 0 else 1) }
        ensures flushed { OnOk result (IsTrue (is_flushed self.new)) };
}
