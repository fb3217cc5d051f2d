//! How does a writer to memory take its bytes?

use crate::chunking::Chunking;
use crate::faults::Faults;
use std::alloc::Global;
use std::io;
use std::io::Write;

/// A writer to memory.
#[derive(Drop)]
pub struct FakeWriter {
    /// The bytes that it got, in order.
    pub bytes: Vec<u8>,
    /// The number of calls, including flushes.
    pub calls: u64,
    /// The number of flushes.
    pub flushes: u64,
    chunking: Chunking,
    faults: Faults,
}

impl FakeWriter {
    /// Makes a writer without bytes that hasn't been called yet.
    pub fn new(alloc: Global, chunking: Chunking, faults: Faults) -> FakeWriter {
        FakeWriter {
            bytes: Vec::new(alloc),
            calls: 0,
            flushes: 0,
            chunking,
            faults,
        }
    }
}

impl Write for FakeWriter {
    fn write(&mut self, bytes: &[u8]) -> io::Result<usize> {
        self.calls = self.calls.saturating_add(1);
        self.faults.meet(self.calls)?;
        let front = self.chunking.front(bytes);
        self.bytes.extend_from_slice(front)?;
        Ok(front.len())
    }

    fn flush(&mut self) -> io::Result<()> {
        self.calls = self.calls.saturating_add(1);
        self.flushes = self.flushes.saturating_add(1);
        self.faults.meet(self.calls)
    }
}
