//! How does a reader over memory give its bytes?

use crate::chunking::Chunking;
use crate::faults::Faults;
use std::io;
use std::io::Read;

/// A reader over memory.
#[derive(Drop)]
pub struct FakeReader<'a> {
    /// The bytes that it hasn't returned yet.
    pub rest: &'a [u8],
    /// The number of calls.
    pub calls: u64,
    /// Whether the last successful call returned 0 bytes.
    pub has_ended: bool,
    chunking: Chunking,
    faults: Faults,
}

impl<'a> FakeReader<'a> {
    /// Makes a reader of these bytes that hasn't been called yet.
    pub fn new(rest: &'a [u8], chunking: Chunking, faults: Faults) -> FakeReader<'a> {
        FakeReader {
            rest,
            calls: 0,
            has_ended: false,
            chunking,
            faults,
        }
    }
}

impl Read for FakeReader<'_> {
    fn read(&mut self, buffer: &mut [u8]) -> io::Result<usize> {
        self.calls = self.calls.saturating_add(1);
        self.faults.meet(self.calls)?;
        let len = self.chunking.front(self.rest).len().min(buffer.len());
        let (front, rest) = self.rest.split_at(len);
        buffer[..len].copy_from_slice(front);
        self.rest = rest;
        self.has_ended = len == 0;
        Ok(len)
    }
}
