//! Are the lines of bytes read, and bytes written, over memory and over devices that are interrupted or full?

ghost use Rattle.std.specs.Prelude.{◌<◌, ◌^◌};

use crate::engine::{Ended, number_lines, number_text};
use crate::wanted::holds_at;
use line_devices::{CountedDevice, Input, KEPT_BYTES, Line, Output};
use std::alloc::{AllocError, Global};
use std::process::Abort;
use std::test::Fail;
use test_devices::{Chunking, FakeReader, FakeWriter, Faults};

const TEXT: &[u8] = b"one\n\ntwo\r\nthree\nlast";

const NUMBERED: &[u8] = b"1:one\n2:\n3:two\r\n4:three\n5:last";

/// A writer with room for this many bytes, so that it never allocates: its user couldn't distinguish that failure from one of the
/// device.
fn roomy_writer(
    alloc: Global,
    room: usize,
    chunking: Chunking,
    faults: Faults,
) -> Result<FakeWriter, AllocError> {
    let mut fake_writer = FakeWriter::new(alloc, chunking, faults);
    fake_writer.bytes.reserve(room)?;
    Ok(fake_writer)
}

/// Returns true if the engine succeeds over these devices.
fn ends_well(
    fake_reader: &mut FakeReader<'_>,
    fake_writer: &mut FakeWriter,
    line: &mut Line,
    most: u32,
) -> bool {
    let mut input = Input::new(CountedDevice::new(fake_reader));
    let mut output = Output::new(CountedDevice::new(fake_writer));
    number_lines(&mut input, &mut output, line, u64::from(most)).is_ok()
}

#[test]
fn memory_never_fails(rt: HostRuntime) -> Result<(), Fail> {
    let mut line = Line::new(rt.alloc())?;
    match number_text(rt.alloc(), TEXT, &mut line, 100) {
        Ok(numbered) => holds_at(&rt, numbered.as_slice() == NUMBERED, "all lines", 100),
        // a vector of bytes fails only if it can't grow
        Err(Ended::Output) => return Err(Fail::from(AllocError)),
        Err(Ended::Input) => return Err(Fail::from("a failed input")),
    }
    Ok(())
}

#[test]
fn lines_after_the_last_one_are_left(rt: HostRuntime) -> Result<(), Fail> {
    let mut line = Line::new(rt.alloc())?;
    let mut fake_writer = roomy_writer(rt.alloc(), NUMBERED.len(), Chunking::All, Faults::NONE)?;
    let mut fake_reader = FakeReader::new(TEXT, Chunking::Byte, Faults::NONE);
    holds_at(
        &rt,
        ends_well(&mut fake_reader, &mut fake_writer, &mut line, 2),
        "ends well",
        2,
    );
    holds_at(
        &rt,
        fake_writer.bytes.as_slice() == b"1:one\n2:\n".as_slice(),
        "is written",
        2,
    );
    holds_at(
        &rt,
        fake_reader.rest == b"two\r\nthree\nlast".as_slice(),
        "is left",
        2,
    );
    Ok(())
}

/// Asserts that the lines are numbered although the call of this number is interrupted.
fn is_numbered(rt: &impl Abort, alloc: Global, line: &mut Line, call: u64) -> Result<(), Fail> {
    let faults = Faults::interrupted_at(call);
    let mut fake_writer = roomy_writer(alloc, NUMBERED.len(), Chunking::Byte, faults)?;
    let mut fake_reader = FakeReader::new(TEXT, Chunking::Byte, Faults::interrupted_at(call));
    holds_at(
        rt,
        ends_well(&mut fake_reader, &mut fake_writer, line, 100),
        "ends well",
        call,
    );
    holds_at(
        rt,
        fake_writer.bytes.as_slice() == NUMBERED,
        "is numbered",
        call,
    );
    Ok(())
}

#[test]
fn an_interrupted_call_is_made_again(rt: HostRuntime) -> Result<(), Fail> {
    let mut line = Line::new(rt.alloc())?;
    for call in 1..60u64 {
        is_numbered(&rt, rt.alloc(), &mut line, call)?;
    }
    Ok(())
}

#[test]
fn a_writer_that_takes_nothing_has_failed(rt: HostRuntime) -> Result<(), Fail> {
    let mut line = Line::new(rt.alloc())?;
    let mut full = [0u8; 5];
    let mut fake_reader = FakeReader::new(TEXT, Chunking::All, Faults::NONE);
    let mut input = Input::new(CountedDevice::new(&mut fake_reader));
    let mut output = Output::new(CountedDevice::new(full.as_mut_slice()));
    let ended = number_lines(&mut input, &mut output, &mut line, 100);
    holds_at(&rt, matches!(ended, Err(Ended::Output)), "a full writer", 5);
    drop(output);
    holds_at(&rt, full == *b"1:one", "what it took", 5);
    Ok(())
}

/// A line of the given number of letters, and a line after it.
fn long_text(alloc: Global, len: usize) -> Result<Vec<u8>, Fail>
    requires { len < 2 ^ 32 }
{
    let mut text = vec![in alloc; b'x'; len]?;
    text.extend_from_slice(b"\nnext")?;
    Ok(text)
}

/// The number of bytes that are kept of the first line of a text whose second line is `next`.
fn kept(text: &[u8], line: &mut Line) -> Option<usize> {
    let mut input = Input::new(CountedDevice::new(text));
    input.read_line(line).ok()?;
    let kept = line.as_bytes().len();
    input.read_line(line).ok()?;
    if line.as_bytes() != b"next".as_slice() {
        return None;
    }
    Some(kept)
}

/// Asserts the number of bytes that are kept of a line of the given number of letters.
fn keeps(rt: &impl Abort, alloc: Global, len: usize, expected: usize) -> Result<(), Fail>
    requires { len < 2 ^ 32 }
{
    let mut line = Line::new(alloc)?;
    let text = long_text(alloc, len)?;
    let kept = kept(&text, &mut line).ok_or("another second line")?;
    holds_at(rt, kept == expected, "kept of", len as u64);
    Ok(())
}

#[test]
fn of_a_long_line_the_front_is_kept_and_the_rest_passed_over(rt: HostRuntime) -> Result<(), Fail> {
    keeps(&rt, rt.alloc(), 1_048_575, 1_048_576)?;
    keeps(&rt, rt.alloc(), 1_048_576, KEPT_BYTES)?;
    keeps(&rt, rt.alloc(), 1_048_577, KEPT_BYTES)?;
    keeps(&rt, rt.alloc(), 1_100_000, KEPT_BYTES)
}

/// Many bytes, without a period that fits the size of a buffer.
fn many_bytes(alloc: Global) -> Result<Vec<u8>, Fail> {
    let mut bytes = Vec::new(alloc);
    for index in 0..200_000u32 {
        bytes.push((index % 251) as u8)?;
    }
    Ok(bytes)
}

/// Returns true if the bytes can be put into the writer, in pieces of this length.
fn puts(fake_writer: &mut FakeWriter, bytes: &[u8], len: usize) -> bool
    requires { 0 < len }
{
    let mut output = Output::new(CountedDevice::new(fake_writer));
    for piece in bytes.chunks(len) {
        output.put(piece);
    }
    output.flush();
    !output.has_failed()
}

/// Asserts that the bytes come out completely if they are put in pieces of this length.
fn comes_out(rt: &impl Abort, alloc: Global, bytes: &[u8], len: usize) -> Result<(), Fail>
    requires { 0 < len }
{
    let mut fake_writer = roomy_writer(alloc, bytes.len(), Chunking::All, Faults::NONE)?;
    holds_at(
        rt,
        puts(&mut fake_writer, bytes, len),
        "put in pieces of",
        len as u64,
    );
    holds_at(
        rt,
        fake_writer.bytes.as_slice() == bytes,
        "out in pieces of",
        len as u64,
    );
    Ok(())
}

#[test]
fn bytes_come_out_in_order_past_the_edge_of_the_buffer(rt: HostRuntime) -> Result<(), Fail> {
    let bytes = many_bytes(rt.alloc())?;
    for len in [1, 7, 30_000, 65_535, 65_536, 65_537, 200_000] {
        comes_out(&rt, rt.alloc(), bytes.as_slice(), len)?;
    }
    Ok(())
}

#[test]
fn a_flush_is_a_call_of_the_device(rt: HostRuntime) -> Result<(), Fail> {
    let mut fake_writer = roomy_writer(rt.alloc(), 6, Chunking::All, Faults::NONE)?;
    let mut output = Output::new(CountedDevice::new(&mut fake_writer));
    output.put(b"one");
    output.flush();
    output.put(b"two");
    output.flush();
    drop(output);
    // a write and a flush for each
    holds_at(&rt, fake_writer.calls == 4, "calls", fake_writer.calls);
    holds_at(
        &rt,
        fake_writer.flushes == 2,
        "flushes",
        fake_writer.flushes,
    );
    Ok(())
}
