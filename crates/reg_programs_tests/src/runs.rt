//! Whole runs of the engine over memory, and over devices that are slow or fail.

use crate::engine::{Engine, Table, are_answered, is_written, run};
use crate::failing::{fail_each_read, fail_each_write};
use crate::wanted::holds;
use std::alloc::Global;
use std::process::Abort;
use std::sync::Wait;
use std::test::Fail;
use test_devices::{Chunking, FakeReader, FakeWriter, Faults};

/// A run that has every operation, with an id that is drawn.
const EVERY_OPERATION: &str = r#"
an agent, a bundle, and an entry without an id, which names the bundle
{"ops":[{"op":"set_agent","agent":"spiffe://ex.org/spire/agent/n1","selectors":["x:1"]},{"op":"set_bundle","domain":"b.org","text":"{}"},{"op":"create","parent":"spiffe://ex.org/spire/agent/n1","identity":"spiffe://ex.org/web","selectors":["u:1"],"domains":["b.org"]}]}
{"call":1,"place":1,"replies":[{"agent":{"id":"spiffe://ex.org/spire/agent/n1","selectors":["x:1"]}},{"bundle":{"domain":"b.org","sequence":0,"text":"{}"}},{"entry":{"domains":["b.org"],"expiry":0,"hint":"","id":"76b8e0ad-a0f1-4d90-805d-6ae55386bd28","identity":"spiffe://ex.org/web","parent":"spiffe://ex.org/spire/agent/n1","revision":0,"selectors":["u:1"]}}],"result":"committed"}
every question
{"ops":[{"op":"show","id":"76b8e0ad-a0f1-4d90-805d-6ae55386bd28"},{"op":"show_agent","agent":"spiffe://ex.org/spire/agent/n1"},{"op":"show_bundle","domain":"b.org"},{"op":"children","parent":"spiffe://ex.org/spire/agent/n1"},{"op":"page","size":1},{"op":"authorised","agent":"spiffe://ex.org/spire/agent/n1"},{"op":"trust","agent":"spiffe://ex.org/spire/agent/n1"}]}
{"call":2,"place":1,"replies":[{"entry":{"domains":["b.org"],"expiry":0,"hint":"","id":"76b8e0ad-a0f1-4d90-805d-6ae55386bd28","identity":"spiffe://ex.org/web","parent":"spiffe://ex.org/spire/agent/n1","revision":0,"selectors":["u:1"]}},{"agent":{"id":"spiffe://ex.org/spire/agent/n1","selectors":["x:1"]}},{"bundle":{"domain":"b.org","sequence":0,"text":"{}"}},{"entries":[{"domains":["b.org"],"expiry":0,"hint":"","id":"76b8e0ad-a0f1-4d90-805d-6ae55386bd28","identity":"spiffe://ex.org/web","parent":"spiffe://ex.org/spire/agent/n1","revision":0,"selectors":["u:1"]}]},{"entries":[{"domains":["b.org"],"expiry":0,"hint":"","id":"76b8e0ad-a0f1-4d90-805d-6ae55386bd28","identity":"spiffe://ex.org/web","parent":"spiffe://ex.org/spire/agent/n1","revision":0,"selectors":["u:1"]}],"next":null},{"entries":[{"domains":["b.org"],"expiry":0,"hint":"","id":"76b8e0ad-a0f1-4d90-805d-6ae55386bd28","identity":"spiffe://ex.org/web","parent":"spiffe://ex.org/spire/agent/n1","revision":0,"selectors":["u:1"]}]},{"bundles":[{"domain":"b.org","sequence":0,"text":"{}"}]}],"result":"answered"}
the entry is changed, and pruned
{"ops":[{"op":"update","id":"76b8e0ad-a0f1-4d90-805d-6ae55386bd28","parent":"spiffe://ex.org/spire/agent/n1","identity":"spiffe://ex.org/web","selectors":["u:1"],"expiry":5},{"op":"prune","before":9}]}
{"call":3,"place":2,"replies":[{"entry":{"domains":[],"expiry":5,"hint":"","id":"76b8e0ad-a0f1-4d90-805d-6ae55386bd28","identity":"spiffe://ex.org/web","parent":"spiffe://ex.org/spire/agent/n1","revision":1,"selectors":["u:1"]}},{"pruned":["76b8e0ad-a0f1-4d90-805d-6ae55386bd28"]}],"result":"committed"}
everything goes
{"ops":[{"op":"create","id":"00000000-0000-0000-0000-000000000001","parent":"spiffe://ex.org/spire/agent/n1","identity":"spiffe://ex.org/web","selectors":["u:1"]},{"op":"delete","id":"00000000-0000-0000-0000-000000000001"},{"op":"drop_bundle","domain":"b.org"},{"op":"drop_agent","agent":"spiffe://ex.org/spire/agent/n1"}]}
{"call":4,"place":3,"replies":[{"entry":{"domains":[],"expiry":0,"hint":"","id":"00000000-0000-0000-0000-000000000001","identity":"spiffe://ex.org/web","parent":"spiffe://ex.org/spire/agent/n1","revision":0,"selectors":["u:1"]}},{"entry":{"domains":[],"expiry":0,"hint":"","id":"00000000-0000-0000-0000-000000000001","identity":"spiffe://ex.org/web","parent":"spiffe://ex.org/spire/agent/n1","revision":0,"selectors":["u:1"]}},{"deleted":[],"dissociated":[]},{"agent":{"id":"spiffe://ex.org/spire/agent/n1","selectors":["x:1"]}}],"result":"committed"}
"#;

/// A short run.
const REFUSED_AND_ANSWERED: &str = r#"
{"ops":[]}
{"code":"B1","line":1}
{"ops":[{"op":"show","id":"00000000-0000-0000-0000-000000000001"}]}
{"call":1,"place":0,"replies":[{"entry":null}],"result":"answered"}
"#;

#[test]
fn every_operation_is_answered(rt: HostRuntime) -> Result<(), Fail> {
    are_answered(&rt, rt.alloc(), EVERY_OPERATION)
}

/// Asserts that the table's requests get their replies over a reader and a writer with these chunkings.
fn is_run(
    rt: &(impl Abort + Wait),
    alloc: Global,
    table: &Table,
    from: Chunking,
    to: Chunking,
) -> Result<(), Fail> {
    let mut fake_writer = FakeWriter::new(alloc, to, Faults::NONE);
    let mut fake_reader = FakeReader::new(&table.asked, from, Faults::NONE);
    let ended = run(rt, alloc, Engine::Plain, &mut fake_reader, &mut fake_writer)?;
    holds(rt, ended.is_ok(), "slow devices");
    is_written(rt, &fake_writer.bytes, table.wanted.as_str())
}

#[test]
fn slow_devices_change_nothing(rt: HostRuntime) -> Result<(), Fail> {
    let table = Table::of(rt.alloc(), EVERY_OPERATION)?;
    for from in Chunking::EACH {
        for to in Chunking::EACH {
            is_run(&rt, rt.alloc(), &table, from, to)?;
        }
    }
    Ok(())
}

/// A last part without LF, and its reply, after those to every operation.
const CUT: &str = r#"
{"ops":[]}«»
{"code":"L3","line":5}
"#;

/// At a failed read the reply to each line so far is out, and nothing else. The last part has no LF.
#[test]
fn each_failing_read_ends_the_run(rt: HostRuntime) -> Result<(), Fail> {
    let mut table = Table::of(rt.alloc(), EVERY_OPERATION)?;
    table.read(rt.alloc(), CUT)?;
    for from in Chunking::EACH {
        fail_each_read(&rt, rt.alloc(), Engine::Plain, &table, from)?;
    }
    Ok(())
}

#[test]
fn each_failing_write_ends_the_run(rt: HostRuntime) -> Result<(), Fail> {
    let long = Table::of(rt.alloc(), EVERY_OPERATION)?;
    let short = Table::of(rt.alloc(), REFUSED_AND_ANSWERED)?;
    for from in Chunking::EACH {
        fail_each_write(&rt, rt.alloc(), Engine::Plain, &long, (from, Chunking::All))?;
        fail_each_write(
            &rt,
            rt.alloc(),
            Engine::Plain,
            &long,
            (from, Chunking::Line),
        )?;
        fail_each_write(
            &rt,
            rt.alloc(),
            Engine::Plain,
            &short,
            (from, Chunking::Byte),
        )?;
    }
    Ok(())
}

/// Asserts how many reads a run of every operation by this engine makes over a reader with this chunking, how many calls of the
/// writer, and how many of these are flushes.
fn is_counted(
    rt: &(impl Abort + Wait),
    alloc: Global,
    engine: Engine,
    from: Chunking,
    (reads, calls, flushes): (u64, u64, u64),
) -> Result<(), Fail> {
    let table = Table::of(alloc, EVERY_OPERATION)?;
    let mut fake_writer = FakeWriter::new(alloc, Chunking::All, Faults::NONE);
    let mut fake_reader = FakeReader::new(&table.asked, from, Faults::NONE);
    let ended = run(rt, alloc, engine, &mut fake_reader, &mut fake_writer)?;
    holds(rt, ended.is_ok(), "a run");
    holds(rt, fake_reader.calls == reads, "reads");
    holds(rt, fake_writer.calls == calls, "calls of the writer");
    holds(rt, fake_writer.flushes == flushes, "flushes");
    Ok(())
}

#[test]
fn replies_are_out_before_the_next_read_and_not_line_by_line(rt: HostRuntime) -> Result<(), Fail> {
    for engine in [Engine::Plain, Engine::Session] {
        // a terminal gives a line at a time, and gets a flush before each read: there are four lines and the end
        is_counted(&rt, rt.alloc(), engine, Chunking::Line, (5, 10, 6))?;
        // a file gives all lines in one read, and gets their replies in one write
        is_counted(&rt, rt.alloc(), engine, Chunking::All, (2, 4, 3))?;
    }
    Ok(())
}
