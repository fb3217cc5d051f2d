//! The records that a schedule writes, and nothing else.

use crate::engine::{Engine, Table, lines_lost, program_writes};
use crate::failing::{fail_each_read, fail_each_write};
use crate::schedules::OUT_OF_TURN;
use crate::wanted::holds;
use line_engines::RunEnd;
use std::alloc::Global;
use std::process::Abort;
use std::test::Fail;
use test_devices::Chunking;

/// Asserts that one run of `regd schedule --record` for `ex.org` over these events writes these records.
fn are_recorded(rt: &impl Abort, alloc: Global, events: &[u8], records: &str) -> Result<(), Fail> {
    let line = "regd|schedule|--domain|ex.org|--record";
    program_writes(rt, alloc, line, RunEnd::Done, events, records)
}

/// Two calls would both add a row. The second one is a conflict, and isn't recorded; retried, it is refused.
const PHANTOM_EVENTS: &str =
    r#"{"batch":{"ops":[{"id":"00000000-0000-0000-0000-000000000001","identity":"spiffe://ex.org/web","op":"create","parent":"spiffe://ex.org/spire/agent/n1","selectors":["u:1"]}]},"call":1,"event":"invoke"}
{"batch":{"ops":[{"id":"00000000-0000-0000-0000-000000000002","identity":"spiffe://ex.org/web","op":"create","parent":"spiffe://ex.org/spire/agent/n1","selectors":["u:1"]}]},"call":2,"event":"invoke"}
{"call":1,"event":"begin"}
{"call":2,"event":"begin"}
{"call":1,"event":"step"}
{"call":1,"event":"step"}
{"call":2,"event":"step"}
{"call":2,"event":"step"}
{"call":1,"event":"commit"}
{"call":2,"event":"commit"}
{"batch":{"ops":[{"id":"00000000-0000-0000-0000-000000000002","identity":"spiffe://ex.org/web","op":"create","parent":"spiffe://ex.org/spire/agent/n1","selectors":["u:1"]}]},"call":3,"event":"invoke"}
{"call":3,"event":"begin"}
{"call":3,"event":"step"}
{"call":3,"event":"step"}
{"call":1,"event":"reply"}
{"call":2,"event":"reply"}
{"call":3,"event":"reply"}
"#;

pub const PHANTOM_RECORDS: &str =
    r#"{"batch":{"after":0,"ops":[{"domains":[],"expiry":0,"hint":"","id":"00000000-0000-0000-0000-000000000001","identity":"spiffe://ex.org/web","op":"create","parent":"spiffe://ex.org/spire/agent/n1","selectors":["u:1"]}]},"call":1,"invoked":1,"replied":15,"reply":{"call":1,"place":1,"replies":[{"entry":{"domains":[],"expiry":0,"hint":"","id":"00000000-0000-0000-0000-000000000001","identity":"spiffe://ex.org/web","parent":"spiffe://ex.org/spire/agent/n1","revision":0,"selectors":["u:1"]}}],"result":"committed"}}
{"batch":{"after":0,"ops":[{"domains":[],"expiry":0,"hint":"","id":"00000000-0000-0000-0000-000000000002","identity":"spiffe://ex.org/web","op":"create","parent":"spiffe://ex.org/spire/agent/n1","selectors":["u:1"]}]},"call":3,"invoked":11,"replied":17,"reply":{"call":3,"code":"O2","detail":"00000000-0000-0000-0000-000000000001","op":0,"place":1,"result":"refused"}}
"#;

#[test]
fn a_conflict_is_recorded_nowhere(rt: HostRuntime) -> Result<(), Fail> {
    are_recorded(&rt, rt.alloc(), PHANTOM_EVENTS.as_bytes(), PHANTOM_RECORDS)
}

/// A bundle is dropped and an entry that names it is created, concurrently. The call that commits first is recorded, regardless
/// of which was invoked first.
const WRITE_SKEW_EVENTS: &str =
    r#"{"batch":{"ops":[{"domain":"b.org","op":"set_bundle","text":"{}"}]},"call":1,"event":"invoke"}
{"call":1,"event":"begin"}
{"call":1,"event":"step"}
{"call":1,"event":"commit"}
{"call":1,"event":"reply"}
{"batch":{"ops":[{"domains":["b.org"],"id":"00000000-0000-0000-0000-000000000001","identity":"spiffe://ex.org/web","op":"create","parent":"spiffe://ex.org/spire/agent/n1","selectors":["u:1"]}]},"call":2,"event":"invoke"}
{"batch":{"ops":[{"domain":"b.org","mode":"restrict","op":"drop_bundle"}]},"call":3,"event":"invoke"}
{"call":2,"event":"begin"}
{"call":3,"event":"begin"}
{"call":2,"event":"step"}
{"call":2,"event":"step"}
{"call":2,"event":"step"}
{"call":3,"event":"step"}
{"call":3,"event":"step"}
{"call":3,"event":"commit"}
{"call":2,"event":"commit"}
{"call":3,"event":"reply"}
{"call":2,"event":"reply"}
"#;

pub const WRITE_SKEW_RECORDS: &str =
    r#"{"batch":{"after":0,"ops":[{"domain":"b.org","op":"set_bundle","text":"{}"}]},"call":1,"invoked":1,"replied":5,"reply":{"call":1,"place":1,"replies":[{"bundle":{"domain":"b.org","sequence":0,"text":"{}"}}],"result":"committed"}}
{"batch":{"after":0,"ops":[{"domain":"b.org","mode":"restrict","op":"drop_bundle"}]},"call":3,"invoked":7,"replied":17,"reply":{"call":3,"place":2,"replies":[{"deleted":[],"dissociated":[]}],"result":"committed"}}
"#;

#[test]
fn the_call_that_committed_is_recorded(rt: HostRuntime) -> Result<(), Fail> {
    are_recorded(
        &rt,
        rt.alloc(),
        WRITE_SKEW_EVENTS.as_bytes(),
        WRITE_SKEW_RECORDS,
    )
}

/// A query that began before a change, and replied after it, comes before it.
const EARLY_QUESTION_EVENTS: &str =
    r#"{"batch":{"ops":[{"id":"00000000-0000-0000-0000-000000000001","op":"show"}]},"call":1,"event":"invoke"}
{"call":1,"event":"begin"}
{"batch":{"ops":[{"id":"00000000-0000-0000-0000-000000000001","identity":"spiffe://ex.org/web","op":"create","parent":"spiffe://ex.org/spire/agent/n1","selectors":["u:1"]}]},"call":2,"event":"invoke"}
{"call":2,"event":"begin"}
{"call":2,"event":"step"}
{"call":2,"event":"step"}
{"call":2,"event":"commit"}
{"call":2,"event":"reply"}
{"call":1,"event":"step"}
{"call":1,"event":"reply"}
"#;

pub const EARLY_QUESTION_RECORDS: &str =
    r#"{"batch":{"after":0,"ops":[{"id":"00000000-0000-0000-0000-000000000001","op":"show"}]},"call":1,"invoked":1,"replied":10,"reply":{"call":1,"place":0,"replies":[{"entry":null}],"result":"answered"}}
{"batch":{"after":0,"ops":[{"domains":[],"expiry":0,"hint":"","id":"00000000-0000-0000-0000-000000000001","identity":"spiffe://ex.org/web","op":"create","parent":"spiffe://ex.org/spire/agent/n1","selectors":["u:1"]}]},"call":2,"invoked":3,"replied":8,"reply":{"call":2,"place":1,"replies":[{"entry":{"domains":[],"expiry":0,"hint":"","id":"00000000-0000-0000-0000-000000000001","identity":"spiffe://ex.org/web","parent":"spiffe://ex.org/spire/agent/n1","revision":0,"selectors":["u:1"]}}],"result":"committed"}}
"#;

#[test]
fn records_are_in_the_order_of_deciding_events(rt: HostRuntime) -> Result<(), Fail> {
    are_recorded(
        &rt,
        rt.alloc(),
        EARLY_QUESTION_EVENTS.as_bytes(),
        EARLY_QUESTION_RECORDS,
    )
}

/// Calls that were committed and haven't replied are recorded with the replies that they hold.
const UNREPLIED_EVENTS: &str =
    r#"{"batch":{"ops":[{"id":"00000000-0000-0000-0000-000000000001","identity":"spiffe://ex.org/web","op":"create","parent":"spiffe://ex.org/p1","selectors":["u:1"]}]},"call":1,"event":"invoke"}
{"batch":{"ops":[{"id":"00000000-0000-0000-0000-000000000002","identity":"spiffe://ex.org/web","op":"create","parent":"spiffe://ex.org/p2","selectors":["u:1"]}]},"call":2,"event":"invoke"}
{"call":1,"event":"begin"}
{"call":2,"event":"begin"}
{"call":1,"event":"step"}
{"call":1,"event":"step"}
{"call":2,"event":"step"}
{"call":2,"event":"step"}
{"call":1,"event":"commit"}
{"call":2,"event":"commit"}
"#;

pub const UNREPLIED_RECORDS: &str =
    r#"{"batch":{"after":0,"ops":[{"domains":[],"expiry":0,"hint":"","id":"00000000-0000-0000-0000-000000000001","identity":"spiffe://ex.org/web","op":"create","parent":"spiffe://ex.org/p1","selectors":["u:1"]}]},"call":1,"invoked":1,"replied":null,"reply":{"call":1,"place":1,"replies":[{"entry":{"domains":[],"expiry":0,"hint":"","id":"00000000-0000-0000-0000-000000000001","identity":"spiffe://ex.org/web","parent":"spiffe://ex.org/p1","revision":0,"selectors":["u:1"]}}],"result":"committed"}}
{"batch":{"after":0,"ops":[{"domains":[],"expiry":0,"hint":"","id":"00000000-0000-0000-0000-000000000002","identity":"spiffe://ex.org/web","op":"create","parent":"spiffe://ex.org/p2","selectors":["u:1"]}]},"call":2,"invoked":2,"replied":null,"reply":{"call":2,"place":2,"replies":[{"entry":{"domains":[],"expiry":0,"hint":"","id":"00000000-0000-0000-0000-000000000002","identity":"spiffe://ex.org/web","parent":"spiffe://ex.org/p2","revision":0,"selectors":["u:1"]}}],"result":"committed"}}
"#;

#[test]
fn a_committed_call_is_recorded_before_it_replies(rt: HostRuntime) -> Result<(), Fail> {
    are_recorded(
        &rt,
        rt.alloc(),
        UNREPLIED_EVENTS.as_bytes(),
        UNREPLIED_RECORDS,
    )
}

/// A batch with a token is sent twice.
const REPEAT_EVENTS: &str =
    r#"{"event":"invoke","call":1,"batch":{"ops":[{"op":"set_agent","agent":"spiffe://ex.org/spire/agent/n1","selectors":["x:1"]}],"token":"00000000-0000-0000-0000-000000000009"}}
{"event":"begin","call":1}
{"event":"step","call":1}
{"event":"step","call":1}
{"event":"commit","call":1}
{"event":"reply","call":1}
{"event":"invoke","call":2,"batch":{"ops":[{"op":"set_agent","agent":"spiffe://ex.org/spire/agent/n1","selectors":["x:1"]}],"token":"00000000-0000-0000-0000-000000000009"}}
{"event":"begin","call":2}
{"event":"step","call":2}
{"event":"reply","call":2}
"#;

pub const REPEAT_RECORDS: &str =
    r#"{"batch":{"after":0,"ops":[{"agent":"spiffe://ex.org/spire/agent/n1","op":"set_agent","selectors":["x:1"]}],"token":"00000000-0000-0000-0000-000000000009"},"call":1,"invoked":1,"replied":6,"reply":{"call":1,"place":1,"replies":[{"agent":{"id":"spiffe://ex.org/spire/agent/n1","selectors":["x:1"]}}],"result":"committed"}}
{"batch":{"after":0,"ops":[{"agent":"spiffe://ex.org/spire/agent/n1","op":"set_agent","selectors":["x:1"]}],"token":"00000000-0000-0000-0000-000000000009"},"call":2,"invoked":7,"replied":10,"reply":{"call":2,"place":1,"replies":[{"agent":{"id":"spiffe://ex.org/spire/agent/n1","selectors":["x:1"]}}],"result":"repeated"}}
"#;

#[test]
fn a_repeat_is_recorded_as_repeated(rt: HostRuntime) -> Result<(), Fail> {
    are_recorded(&rt, rt.alloc(), REPEAT_EVENTS.as_bytes(), REPEAT_RECORDS)
}

/// The records of the calls whose events were possible, among others that weren't.
pub const IN_TURN_RECORDS: &str =
    r#"{"batch":{"after":0,"ops":[{"agent":"spiffe://ex.org/spire/agent/n1","op":"set_agent","selectors":["x:1"]}]},"call":7,"invoked":1,"replied":null,"reply":{"call":7,"place":1,"replies":[{"agent":{"id":"spiffe://ex.org/spire/agent/n1","selectors":["x:1"]}}],"result":"committed"}}
{"batch":{"after":9,"ops":[{"agent":"spiffe://ex.org/spire/agent/n1","op":"show_agent"}]},"call":8,"invoked":5,"replied":7,"reply":{"call":8,"code":"W1","place":1,"result":"refused"}}
"#;

/// They aren't numbered among the accepted events, either.
#[test]
fn refused_events_and_lines_leave_no_record(rt: HostRuntime) -> Result<(), Fail> {
    let table = Table::of(rt.alloc(), OUT_OF_TURN)?;
    are_recorded(&rt, rt.alloc(), &table.asked, IN_TURN_RECORDS)
}

#[test]
fn no_events_leave_no_records(rt: HostRuntime) -> Result<(), Fail> {
    are_recorded(&rt, rt.alloc(), b"", "")
}

/// Asserts that the engine loses none of these lines.
fn none_is_lost(rt: &impl Abort, alloc: Global, asked: &[u8]) -> Result<(), Fail> {
    holds(rt, lines_lost(alloc, asked)? == 0, "no line is lost");
    Ok(())
}

/// A line that is refused for its contents isn't lost, and neither is an event that isn't possible in the call's state.
#[test]
fn no_line_is_lost_while_there_is_memory(rt: HostRuntime) -> Result<(), Fail> {
    let table = Table::of(rt.alloc(), OUT_OF_TURN)?;
    none_is_lost(&rt, rt.alloc(), b"\n{}\n{")?;
    none_is_lost(&rt, rt.alloc(), &table.asked)?;
    none_is_lost(&rt, rt.alloc(), PHANTOM_EVENTS.as_bytes())
}

/// At a failed read nothing was written, at a failed write a prefix of the records.
#[test]
fn each_failing_device_ends_a_recorded_schedule(rt: HostRuntime) -> Result<(), Fail> {
    let table = Table {
        asked: Vec::from_slice(rt.alloc(), UNREPLIED_EVENTS.as_bytes())?,
        wanted: String::from_str(rt.alloc(), UNREPLIED_RECORDS)?,
    };
    for chunking in [Chunking::All, Chunking::Line] {
        fail_each_read(&rt, rt.alloc(), Engine::Record, &table, chunking)?;
        fail_each_write(
            &rt,
            rt.alloc(),
            Engine::Record,
            &table,
            (Chunking::All, chunking),
        )?;
    }
    Ok(())
}
