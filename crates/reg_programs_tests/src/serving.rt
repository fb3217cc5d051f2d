//! What do the clients of a server get over TCP?

ghost use Rattle.std.specs.Prelude.{◌<◌};

use crate::hosting::{
    BehindASilentOne, Callers, InTurn, NextToASilentOne, Plan, TwoBehindASilentOne, host,
};
use crate::wanted::{holds, is_text};
use std::alloc::Global;
use std::net::{Net, TcpListener, TcpStream};
use std::process::Abort;
use std::sync::Wait;
use std::test::Fail;
use std::thread::Threads;
use std::time::Clock;

/// An agent, an entry under it, and the agent's authorised entries.
pub const FIRST_LINES: &str =
    r#"{"ops":[{"op":"set_agent","agent":"spiffe://ex.org/spire/agent/n1","selectors":["x:1"]}]}
{"ops":[{"op":"create","id":"00000000-0000-0000-0000-000000000001","parent":"spiffe://ex.org/spire/agent/n1","identity":"spiffe://ex.org/web","selectors":["unix:uid:1000"]}]}
{"ops":[{"op":"authorised","agent":"spiffe://ex.org/spire/agent/n1"}]}
"#;

pub const FIRST_ANSWERS: &str =
    r#"{"call":1,"place":1,"replies":[{"agent":{"id":"spiffe://ex.org/spire/agent/n1","selectors":["x:1"]}}],"result":"committed"}
{"call":2,"place":2,"replies":[{"entry":{"domains":[],"expiry":0,"hint":"","id":"00000000-0000-0000-0000-000000000001","identity":"spiffe://ex.org/web","parent":"spiffe://ex.org/spire/agent/n1","revision":0,"selectors":["unix:uid:1000"]}}],"result":"committed"}
{"call":3,"place":2,"replies":[{"entries":[{"domains":[],"expiry":0,"hint":"","id":"00000000-0000-0000-0000-000000000001","identity":"spiffe://ex.org/web","parent":"spiffe://ex.org/spire/agent/n1","revision":0,"selectors":["unix:uid:1000"]}]}],"result":"answered"}
"#;

/// A query, and its reply by a seat that made no call before, and by one that made three.
const QUESTION: &str = r#"{"ops":[{"op":"authorised","agent":"spiffe://ex.org/spire/agent/n1"}]}
"#;

const ANSWER: &str =
    r#"{"call":1,"place":2,"replies":[{"entries":[{"domains":[],"expiry":0,"hint":"","id":"00000000-0000-0000-0000-000000000001","identity":"spiffe://ex.org/web","parent":"spiffe://ex.org/spire/agent/n1","revision":0,"selectors":["unix:uid:1000"]}]}],"result":"answered"}
"#;

const FOURTH_ANSWER: &str =
    r#"{"call":4,"place":2,"replies":[{"entries":[{"domains":[],"expiry":0,"hint":"","id":"00000000-0000-0000-0000-000000000001","identity":"spiffe://ex.org/web","parent":"spiffe://ex.org/spire/agent/n1","revision":0,"selectors":["unix:uid:1000"]}]}],"result":"answered"}
"#;

/// A line that is truncated.
const CUT: &str = "{\"ops\":";

/// Creates without an id.
pub const TWO_CREATES: &str =
    r#"{"ops":[{"op":"create","parent":"spiffe://ex.org/spire/agent/n1","identity":"spiffe://ex.org/a","selectors":["u:1"]}]}
{"ops":[{"op":"create","parent":"spiffe://ex.org/spire/agent/n1","identity":"spiffe://ex.org/b","selectors":["u:1"]}]}
"#;

pub const ONE_CREATE: &str =
    r#"{"ops":[{"op":"create","parent":"spiffe://ex.org/spire/agent/n1","identity":"spiffe://ex.org/c","selectors":["u:1"]}]}
"#;

/// The ids are the first two of stream 0 and the first one of stream 1, by the definition of ChaCha20.
const CREATED: &str =
    r#"{"call":1,"place":1,"replies":[{"entry":{"domains":[],"expiry":0,"hint":"","id":"76b8e0ad-a0f1-4d90-805d-6ae55386bd28","identity":"spiffe://ex.org/a","parent":"spiffe://ex.org/spire/agent/n1","revision":0,"selectors":["u:1"]}}],"result":"committed"}
{"call":2,"place":2,"replies":[{"entry":{"domains":[],"expiry":0,"hint":"","id":"bdd219b8-a08d-4d1a-a836-efcc8b770dc7","identity":"spiffe://ex.org/b","parent":"spiffe://ex.org/spire/agent/n1","revision":0,"selectors":["u:1"]}}],"result":"committed"}
{"call":3,"place":3,"replies":[{"entry":{"domains":[],"expiry":0,"hint":"","id":"ef3fdfd6-c615-48fb-b5cf-35bd3dd33b80","identity":"spiffe://ex.org/c","parent":"spiffe://ex.org/spire/agent/n1","revision":0,"selectors":["u:1"]}}],"result":"committed"}
"#;

/// Asserts that a server with these numbers of workers and connections succeeds, and what its clients get. If `waits`, all
/// workers sleep before each connection is accepted.
fn are_answered<
    R: Abort + Threads + Wait + Clock + Net<Listener = TcpListener, Stream = TcpStream> + Sync,
    C: Callers + Sync,
>(
    rt: &R,
    alloc: Global,
    workers: usize,
    connections: u64,
    waits: bool,
    callers: &C,
    expected: &str,
) -> Result<(), Fail>
    requires workers { 0 < workers }
{
    let plan = Plan {
        workers,
        connections,
        errors: &[],
        waits,
        line_time: None,
    };
    let hosted = host(rt, alloc, plan, callers)?;
    holds(rt, hosted.ended.is_ok(), "the server ends well");
    is_text(rt, hosted.answers.as_str(), expected, "all answers");
    Ok(())
}

#[test]
fn a_second_connection_sees_what_the_first_one_made(rt: HostRuntime) -> Result<(), Fail> {
    let expected = format!(in rt.alloc(); "{FIRST_ANSWERS}{ANSWER}")?;
    let callers = InTurn(&[FIRST_LINES, QUESTION]);
    are_answered(&rt, rt.alloc(), 2, 2, false, &callers, expected.as_str())
}

#[test]
fn a_silent_connection_keeps_no_other_waiting(rt: HostRuntime) -> Result<(), Fail> {
    let callers = NextToASilentOne(FIRST_LINES);
    are_answered(&rt, rt.alloc(), 2, 2, false, &callers, FIRST_ANSWERS)
}

#[test]
fn a_connection_that_is_cut_inside_a_line_ends_none_but_itself(
    rt: HostRuntime,
) -> Result<(), Fail> {
    let expected = format!(in rt.alloc(); "{{\"code\":\"L3\",\"line\":1}}\n{FIRST_ANSWERS}")?;
    let callers = InTurn(&[CUT, FIRST_LINES]);
    are_answered(&rt, rt.alloc(), 1, 2, false, &callers, expected.as_str())
}

/// Both workers sleep when a connection is accepted. The end wakes the one that gets none.
#[test]
fn a_sleeping_worker_is_woken(rt: HostRuntime) -> Result<(), Fail> {
    let expected = format!(in rt.alloc(); "{FIRST_ANSWERS}{ANSWER}")?;
    let callers = InTurn(&[FIRST_LINES, QUESTION]);
    are_answered(&rt, rt.alloc(), 2, 2, true, &callers, expected.as_str())
}

/// A worker that is woken before its queue is closed mostly finds it closed all the same, so the server ends many times with many
/// sleeping workers.
#[test]
fn each_sleeping_worker_is_woken_by_the_end(rt: HostRuntime) -> Result<(), Fail> {
    let callers = InTurn(&[""]);
    for _ in 0..20 {
        are_answered(&rt, rt.alloc(), 16, 1, true, &callers, "")?;
    }
    Ok(())
}

#[test]
fn a_worker_keeps_its_seat(rt: HostRuntime) -> Result<(), Fail> {
    let expected = format!(in rt.alloc(); "{FIRST_ANSWERS}{FOURTH_ANSWER}")?;
    let callers = InTurn(&[FIRST_LINES, QUESTION]);
    are_answered(&rt, rt.alloc(), 1, 2, true, &callers, expected.as_str())
}

#[test]
fn a_queued_connection_is_served_after_its_queue_was_closed(rt: HostRuntime) -> Result<(), Fail> {
    let callers = BehindASilentOne(FIRST_LINES);
    are_answered(&rt, rt.alloc(), 1, 2, false, &callers, FIRST_ANSWERS)
}

/// The second one asks for what the first one has made.
#[test]
fn queued_connections_are_served_in_order_at_a_closed_port(rt: HostRuntime) -> Result<(), Fail> {
    let want = format!(in rt.alloc(); "{FIRST_ANSWERS}{FOURTH_ANSWER}")?;
    let callers = TwoBehindASilentOne(FIRST_LINES, QUESTION);
    are_answered(&rt, rt.alloc(), 1, 3, false, &callers, want.as_str())
}

#[test]
fn a_connection_draws_ids_from_its_own_stream(rt: HostRuntime) -> Result<(), Fail> {
    let callers = InTurn(&[TWO_CREATES, ONE_CREATE]);
    are_answered(&rt, rt.alloc(), 1, 2, false, &callers, CREATED)
}

/// Asserts what the seats of a server with these numbers of workers and connections have seen at its end.
fn have_seen<
    R: Abort + Threads + Wait + Clock + Net<Listener = TcpListener, Stream = TcpStream> + Sync,
    C: Callers + Sync,
>(
    rt: &R,
    alloc: Global,
    workers: usize,
    connections: u64,
    callers: &C,
    expected: &[u64],
) -> Result<(), Fail>
    requires workers { 0 < workers }
{
    let plan = Plan {
        workers,
        connections,
        errors: &[],
        waits: true,
        line_time: None,
    };
    let hosted = host(rt, alloc, plan, callers)?;
    holds(rt, hosted.ended.is_ok(), "the server ends well");
    holds(
        rt,
        hosted.places.as_slice() == expected,
        "what the seats have seen",
    );
    Ok(())
}

/// The worker of the second connection has seen both commits of the first one; the third worker has no connection.
#[test]
fn the_seats_come_back_with_what_they_have_seen(rt: HostRuntime) -> Result<(), Fail> {
    let callers = InTurn(&[FIRST_LINES, QUESTION]);
    have_seen(&rt, rt.alloc(), 3, 2, &callers, &[2, 2, 0])
}
