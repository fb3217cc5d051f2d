//! Runs over a reader or a writer that fails, at each of its calls in turn.

use crate::engine::{Engine, Table, run};
use crate::wanted::holds_at;
use line_engines::RunFault;
use std::alloc::Global;
use std::process::Abort;
use std::sync::Wait;
use std::test::Fail;
use test_devices::{Chunking, FakeReader, FakeWriter, Faults};

/// Asserts that a run whose device was to fail at this call wrote a prefix of the text. If it made the call, it ended there, with
/// this fault; otherwise it succeeded, and wrote everything.
fn ends_at_a_failure(
    rt: &impl Abort,
    call: u64,
    calls: u64,
    ended: Result<(), RunFault>,
    fault: RunFault,
    written: &[u8],
    text: &str,
) {
    let is_beginning = text.as_bytes().starts_with(written);
    holds_at(rt, is_beginning, "a beginning is written at", call);
    if calls < call {
        holds_at(rt, ended.is_ok(), "ends well at", call);
        holds_at(rt, written.len() == text.len(), "all is written at", call);
    } else {
        holds_at(rt, ended == Err(fault), "ends with the fault at", call);
        holds_at(
            rt,
            calls == call,
            "no call comes behind the failure at",
            call,
        );
    }
}

/// The number of lines that these bytes end.
fn count_of_lines(bytes: &[u8]) -> u64 {
    let mut count = 0u64;
    for byte in bytes {
        if *byte == b'\n' {
            count = count.saturating_add(1);
        }
    }
    count
}

/// The number of lines that were read of these bytes: at their end, the last part is one, too.
fn lines_read(bytes: &[u8], fake_reader: &FakeReader<'_>) -> u64 {
    let read = bytes.len().saturating_sub(fake_reader.rest.len());
    let whole = count_of_lines(bytes.split_at(read.min(bytes.len())).0);
    if fake_reader.has_ended {
        return whole.saturating_add(1);
    }
    whole
}

/// The number of replies that are out when a read fails: one to each line so far. Records are all written at the end.
fn lines_due(engine: Engine, table: &Table, fake_reader: &FakeReader<'_>) -> u64 {
    match engine {
        Engine::Record => 0,
        _ => lines_read(&table.asked, fake_reader),
    }
}

/// Runs with this read failing. Returns true if there was such a read.
fn fails_at_read(
    rt: &(impl Abort + Wait),
    alloc: Global,
    engine: Engine,
    table: &Table,
    from: Chunking,
    call: u64,
) -> Result<bool, Fail> {
    let mut fake_writer = FakeWriter::new(alloc, Chunking::All, Faults::NONE);
    let mut fake_reader = FakeReader::new(&table.asked, from, Faults::failing_at(call));
    let ended = run(rt, alloc, engine, &mut fake_reader, &mut fake_writer)?;
    let written = fake_writer.bytes.as_slice();
    let expected = table.wanted.as_str();
    ends_at_a_failure(
        rt,
        call,
        fake_reader.calls,
        ended,
        RunFault::Input,
        written,
        expected,
    );
    if fake_reader.calls < call {
        return Ok(false);
    }
    let due = lines_due(engine, table, &fake_reader);
    holds_at(rt, count_of_lines(written) == due, "lines due at", call);
    let is_whole = written.is_empty() || written.ends_with(b"\n");
    holds_at(rt, is_whole, "whole lines at", call);
    Ok(true)
}

/// Runs with each read failing in turn, until the run makes no such read.
pub fn fail_each_read(
    rt: &(impl Abort + Wait),
    alloc: Global,
    engine: Engine,
    table: &Table,
    from: Chunking,
) -> Result<(), Fail> {
    for call in 1..5_000u64 {
        if !fails_at_read(rt, alloc, engine, table, from, call)? {
            return Ok(());
        }
    }
    Err(Fail::from("too many reads"))
}

/// Runs with this call of the writer failing. Returns true if there was such a call.
fn fails_at_write(
    rt: &(impl Abort + Wait),
    alloc: Global,
    engine: Engine,
    table: &Table,
    (from, to): (Chunking, Chunking),
    call: u64,
) -> Result<bool, Fail> {
    let mut fake_writer = FakeWriter::new(alloc, to, Faults::failing_at(call));
    let mut fake_reader = FakeReader::new(&table.asked, from, Faults::NONE);
    let ended = run(rt, alloc, engine, &mut fake_reader, &mut fake_writer)?;
    let written = fake_writer.bytes.as_slice();
    let expected = table.wanted.as_str();
    ends_at_a_failure(
        rt,
        call,
        fake_writer.calls,
        ended,
        RunFault::Output,
        written,
        expected,
    );
    Ok(fake_writer.calls >= call)
}

/// Runs with each call of the writer failing in turn, until the run makes no such call.
pub fn fail_each_write(
    rt: &(impl Abort + Wait),
    alloc: Global,
    engine: Engine,
    table: &Table,
    paces: (Chunking, Chunking),
) -> Result<(), Fail> {
    for call in 1..5_000u64 {
        if !fails_at_write(rt, alloc, engine, table, paces, call)? {
            return Ok(());
        }
    }
    Err(Fail::from("too many calls"))
}
