//! Which bytes are buffered for a sink, and has a call of it failed?

ghost use Rattle.std.specs.Prelude.{◌≡◌, ◌+◌, ◌<◌, ◌^◌, is_ok, if◌then◌else◌};
ghost use Rattle.line_devices.specs.StreamPrivate.{SendsAll};

use crate::sink::{Sink, SinkFailed};
use std::marker::Model;

/// The size of the buffer in bytes.
const ROOM: usize = 65_536;

/// Writes all of the bytes, in as many calls as the sink needs. After a failed call, the sink has a
/// prefix of them.
fn send_all<S: Sink>(sink: &mut S, bytes: &[u8]) -> Result<(), SinkFailed>
    requires { S.failures sink.old + 1 < 2 ^ 64 }
    ensures bytes { SendsAll (S.written sink.old) (S.written sink.new) bytes.now result }
    ensures failed { S.failures sink.new ≡ S.failures sink.old + (if is_ok result then 0 else 1) }
{
    let mut rest = bytes;
    while !rest.is_empty() {
        let count = sink.write_some(rest)?;
        rest = rest.split_at(count).1;
    }
    Ok(())
}

/// Bytes for a sink, which are buffered until the buffer of 65,536 bytes is full, or until `flush`. It takes no memory.
///
/// After a call of the sink has failed, nothing more is written.
#[derive(Drop)]
pub struct Output<S: Sink> {
    sink: S,
    has_failed: bool,
    buffer: [u8; ROOM],
    len: usize,
}

impl<S: Sink> Model for Output<S> {
    ghost use Rattle.std.specs.Prelude.{◌≡◌, ◌≤◌, take, if◌then◌else◌};
    ghost use Rattle.line_devices.specs.declared.output.TheConstants.{ROOM};
    ghost use Rattle.line_devices.specs.Stream.{OutputState};

    ghost Value = { OutputState };

    ghost view = { λ o. record { written = S.written o.sink; held = take o.len o.buffer; failures = S.failures o.sink; is_flushed = S.is_flushed o.sink } };

    ghost invariant = { λ o. (S.failures o.sink ≡ (if o.has_failed then 1 else 0)) × (o.len ≤ ROOM) };
}

impl<S: Sink> Output<S> {
    ghost use Rattle.std.specs.Prelude.{◌≡◌, ◌+◌, ◌<◌, ◌≤◌, ◌↔◌, [], ◌++◌, length, IsTrue};
    ghost use Rattle.line_devices.specs.Stream.{IsOut, OutputState, Puts};

    /// Makes an output with an empty buffer.
    pub fn new(sink: S) -> Output<S>
        requires { S.failures sink ≡ 0 }
        ensures { result ≡ record { written = S.written sink; held = []; failures = 0; is_flushed = S.is_flushed sink } }
    {
        Output {
            sink,
            has_failed: false,
            buffer: [0; ROOM],
            len: 0,
        }
    }

    /// Returns the sink. Bytes that are still buffered are lost, so flush first.
    pub fn into_sink(self) -> S
        ensures written { S.written result ≡ self.written }
        ensures failed { S.failures result ≡ self.failures }
        ensures flushed { S.is_flushed result ≡ self.is_flushed }
    {
        let Output { sink, .. } = self;
        sink
    }

    /// Returns true if a call of the sink has failed.
    pub fn has_failed(&self) -> bool
        ensures { IsTrue result ↔ (0 < self.now.failures) }
    {
        self.has_failed
    }

    /// Appends the bytes to those that were put before.
    #[inline]
    pub fn put(&mut self, bytes: &[u8])
        ensures { Puts self.old self.new bytes.now }
    {
        if self.has_failed {
            return;
        }
        if bytes.len() <= ROOM - self.len {
            self.hold(bytes);
        } else {
            self.put_past(bytes);
        }
    }

    /// Writes all buffered bytes, and flushes the device.
    pub fn flush(&mut self)
        ensures put { Puts self.old self.new [] }
        ensures out { self.new.failures ≡ 0 → IsOut self.new }
    {
        if !self.has_failed {
            self.send_held();
            self.flush_sink();
        }
    }

    /// Appends the bytes to the buffer.
    fn hold(&mut self, bytes: &[u8])
        requires { length self.old.held + length bytes.now ≤ ROOM }
        ensures { self.new ≡ record self.old { held = self.old.held ++ bytes.now } }
    {
        let end = self.len + bytes.len();
        self.buffer[self.len..end].copy_from_slice(bytes);
        self.len = end;
    }

    /// Puts bytes for which the buffer has no room left.
    #[inline(never)]
    fn put_past(&mut self, bytes: &[u8])
        requires { self.old.failures ≡ 0 }
        ensures { Puts self.old self.new bytes.now }
    {
        self.send_held();
        if bytes.len() < ROOM {
            self.put_short(bytes);
        } else {
            self.put_long(bytes);
        }
    }

    /// Writes the buffered bytes.
    fn send_held(&mut self)
        requires { self.old.failures ≡ 0 }
        ensures put { Puts self.old self.new [] }
        ensures empty { self.new.held ≡ [] }
    {
        let sent = send_all(&mut self.sink, &self.buffer[..self.len]);
        self.len = 0;
        self.has_failed = sent.is_err();
    }

    /// Buffers the bytes, in an empty buffer.
    fn put_short(&mut self, bytes: &[u8])
        requires none { self.old.held ≡ [] }
        requires fits { length bytes.now ≤ ROOM }
        ensures { Puts self.old self.new bytes.now }
    {
        if !self.has_failed {
            self.hold(bytes);
        }
    }

    /// Writes the bytes, past an empty buffer.
    fn put_long(&mut self, bytes: &[u8])
        requires { self.old.held ≡ [] }
        ensures { Puts self.old self.new bytes.now }
    {
        if !self.has_failed {
            self.has_failed = send_all(&mut self.sink, bytes).is_err();
        }
    }

    /// Flushes the device.
    fn flush_sink(&mut self)
        ensures put { Puts self.old self.new [] }
        ensures held { self.new.held ≡ self.old.held }
        ensures flushed { self.new.failures ≡ 0 → IsTrue self.new.is_flushed }
    {
        if !self.has_failed {
            self.has_failed = self.sink.flush().is_err();
        }
    }
}
