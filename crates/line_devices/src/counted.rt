//! How is a reader or a writer of std used as a source or a sink?

use crate::sink::{Sink, SinkFailed};
use crate::source::{Source, SourceFailed};
use std::io::{ErrorKind, Read, Write};

/// A reader or a writer of std as a source or a sink.
///
/// It repeats calls that the system interrupted. It makes at most 2^64 - 1 calls, so that each program terminates; any
/// further call fails.
#[derive(Drop)]
pub struct CountedDevice<D> {
    device: D,
    calls: u64,
    failures: u64,
    is_flushed: bool,
}

impl<D> CountedDevice<D> {
    ghost use Rattle.std.specs.Prelude.{◌≡◌, ◌-◌, ◌^◌, IsTrue};
    ghost use Rattle.line_devices.specs.CountedDevice.{calls_left_of, device_of, failures_of, is_flushed_of};

    /// Wraps a device; no call is counted yet.
    pub fn new(device: D) -> CountedDevice<D>
        ensures device { device_of result ≡ device }
        ensures fresh { failures_of result ≡ 0 }
        ensures calls { calls_left_of result ≡ 2 ^ 64 - 1 }
        ensures flushed { IsTrue (is_flushed_of result) }
    {
        CountedDevice {
            device,
            calls: 0,
            failures: 0,
            is_flushed: true,
        }
    }

    /// Returns the device.
    pub fn into_inner(self) -> D
        ensures { result ≡ device_of self }
    {
        let CountedDevice { device, .. } = self;
        device
    }
}

impl<R: Read> Source for CountedDevice<R> {
    ghost use Rattle.std.specs.Prelude.{◌≡◌, ◌+◌, ◌<◌, ◌^◌, OnOk, is_ok, if◌then◌else◌};
    ghost use Rattle.std.specs.Io.{ReadsAtMost};
    ghost use Rattle.std.specs.Io.KnownBytes.{ReadConsumes};
    ghost use Rattle.line_devices.specs.CountedDevice.{IsCalled, calls_left_of, device_of, failures_of};

    ghost left = { λ c. R.remaining (device_of c) };

    ghost failures = { failures_of };

    ghost calls_left = { calls_left_of };

    #[tactic(auto, using(crate::proofs::Known::keeping))]
    fn read_some(&mut self, buffer: &mut [u8]) -> Result<usize, SourceFailed>
        requires { failures_of self.old + 1 < 2 ^ 64 }
        ensures bound { ReadsAtMost result buffer.new }
        ensures bytes { ReadConsumes (R.remaining (device_of self.old)) (R.remaining (device_of self.new)) result buffer.new }
        ensures failed { failures_of self.new ≡ failures_of self.old + (if is_ok result then 0 else 1) }
        ensures ends { OnOk result (calls_left_of self.new < calls_left_of self.old) }
        ensures called { IsCalled self.old self.new result }
    {
        while self.calls < u64::MAX {
            self.calls += 1;
            match self.device.read(buffer) {
                Ok(count) => return Ok(count),
                Err(error) if error.kind() == ErrorKind::Interrupted => {}
                Err(_) => break,
            }
        }
        self.failures += 1;
        Err(SourceFailed)
    }
}

impl<W: Write> Sink for CountedDevice<W> {
    ghost use Rattle.std.specs.Prelude.{◌≡◌, ◌+◌, ◌<◌, ◌≤◌, ◌^◌, IfOk, IsFalse, IsTrue, OnOk, is_ok, if◌then◌else◌, length};
    ghost use Rattle.std.specs.Io.KnownBytes.{Keeps, WriteAppends};
    ghost use Rattle.line_devices.specs.CountedDevice.{IsCalled, device_of, failures_of, is_flushed_of};

    ghost written = { λ c. W.contents (device_of c) };

    ghost failures = { failures_of };

    ghost is_flushed = { is_flushed_of };

    #[tactic(auto, using(crate::proofs::Known::keeping))]
    fn write_some(&mut self, bytes: &[u8]) -> Result<usize, SinkFailed>
        requires some { 0 < length bytes.now }
        requires countable { failures_of self.old + 1 < 2 ^ 64 }
        ensures bound { IfOk result (λ n. (0 < n) × (n ≤ length bytes.now)) }
        ensures bytes { WriteAppends (W.contents (device_of self.old)) (W.contents (device_of self.new)) result bytes.now }
        ensures failed { failures_of self.new ≡ failures_of self.old + (if is_ok result then 0 else 1) }
        ensures unflushed { IsFalse (is_flushed_of self.new) }
        ensures called { IsCalled self.old self.new result }
    {
        self.is_flushed = false;
        while self.calls < u64::MAX {
            self.calls += 1;
            match self.device.write(bytes) {
                Ok(0) => break,
                Ok(count) => return Ok(count),
                Err(error) if error.kind() == ErrorKind::Interrupted => {}
                Err(_) => break,
            }
        }
        self.failures += 1;
        Err(SinkFailed)
    }

    #[tactic(auto, using(crate::proofs::Known::keeping))]
    fn flush(&mut self) -> Result<(), SinkFailed>
        requires { failures_of self.old + 1 < 2 ^ 64 }
        ensures bytes { Keeps (W.contents (device_of self.old)) (W.contents (device_of self.new)) }
        ensures failed { failures_of self.new ≡ failures_of self.old + (if is_ok result then 0 else 1) }
        ensures flushed { OnOk result (IsTrue (is_flushed_of self.new)) }
        ensures called { IsCalled self.old self.new result }
    {
        while self.calls < u64::MAX {
            self.calls += 1;
            match self.device.flush() {
                Ok(()) => {
                    self.is_flushed = true;
                    return Ok(());
                }
                Err(error) if error.kind() == ErrorKind::Interrupted => {}
                Err(_) => break,
            }
        }
        self.failures += 1;
        Err(SinkFailed)
    }
}
