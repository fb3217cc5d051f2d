//! Event lines, their answers, and the order line after them.

use crate::engine::{Engine, Table, are_answered_by};
use crate::failing::{fail_each_read, fail_each_write};
use std::alloc::Global;
use std::process::Abort;
use std::test::Fail;
use test_devices::Chunking;

/// Asserts that the events of the table, in one run of `regd schedule` for `ex.org`, get their answers, and then the order line.
fn are_played(rt: &impl Abort, alloc: Global, text: &str) -> Result<(), Fail> {
    are_answered_by(rt, alloc, "regd|schedule|--domain|ex.org", text)
}

/// A query, from its invoke to its reply.
const QUESTION: &str = r#"
{"event":"invoke","call":1,"batch":{"ops":[{"op":"show","id":"00000000-0000-0000-0000-000000000001"}]}}
{"call":1,"state":"new"}
{"event":"begin","call":1}
{"call":1,"place":0,"state":"running"}
{"event":"step","call":1}
{"call":1,"read":"entry 00000000-0000-0000-0000-000000000001","state":"settled"}
{"event":"reply","call":1}
{"call":1,"place":0,"replies":[{"entry":null}],"result":"answered"}
{"order":[1]}
"#;

#[test]
fn a_question_is_invoked_begun_read_and_answered(rt: HostRuntime) -> Result<(), Fail> {
    are_played(&rt, rt.alloc(), QUESTION)
}

/// Two calls look for an entry that isn't there, and would both add it. The second one is a conflict, and retried it is refused
/// because of the first one's entry; a conflict is no part of the order.
const PHANTOM: &str = r#"
{"event":"invoke","call":1,"batch":{"ops":[{"op":"create","id":"00000000-0000-0000-0000-000000000001","parent":"spiffe://ex.org/spire/agent/n1","identity":"spiffe://ex.org/web","selectors":["unix:uid:1000"]}]}}
{"call":1,"state":"new"}
{"event":"invoke","call":2,"batch":{"ops":[{"op":"create","id":"00000000-0000-0000-0000-000000000002","parent":"spiffe://ex.org/spire/agent/n1","identity":"spiffe://ex.org/web","selectors":["unix:uid:1000"]}]}}
{"call":2,"state":"new"}
{"event":"begin","call":1}
{"call":1,"place":0,"state":"running"}
{"event":"begin","call":2}
{"call":2,"place":0,"state":"running"}
{"event":"step","call":1}
{"call":1,"read":"entry 00000000-0000-0000-0000-000000000001","state":"running"}
{"event":"step","call":2}
{"call":2,"read":"entry 00000000-0000-0000-0000-000000000002","state":"running"}
{"event":"step","call":1}
{"call":1,"read":"group spiffe://ex.org/spire/agent/n1 spiffe://ex.org/web","state":"ready"}
{"event":"step","call":2}
{"call":2,"read":"group spiffe://ex.org/spire/agent/n1 spiffe://ex.org/web","state":"ready"}
{"event":"commit","call":1}
{"call":1,"commit":"committed","place":1}
{"event":"commit","call":2}
{"call":2,"commit":"conflict","place":1}
{"event":"reply","call":2}
{"call":2,"place":1,"result":"conflict"}
{"event":"invoke","call":3,"batch":{"ops":[{"op":"create","id":"00000000-0000-0000-0000-000000000002","parent":"spiffe://ex.org/spire/agent/n1","identity":"spiffe://ex.org/web","selectors":["unix:uid:1000"]}]}}
{"call":3,"state":"new"}
{"event":"begin","call":3}
{"call":3,"place":1,"state":"running"}
{"event":"step","call":3}
{"call":3,"read":"entry 00000000-0000-0000-0000-000000000002","state":"running"}
{"event":"step","call":3}
{"call":3,"read":"group spiffe://ex.org/spire/agent/n1 spiffe://ex.org/web","state":"settled"}
{"event":"reply","call":3}
{"call":3,"code":"O2","detail":"00000000-0000-0000-0000-000000000001","op":0,"place":1,"result":"refused"}
{"order":[1,3]}
"#;

#[test]
fn of_two_calls_that_add_one_row_one_is_a_conflict(rt: HostRuntime) -> Result<(), Fail> {
    are_played(&rt, rt.alloc(), PHANTOM)
}

/// An entry that names a bundle is created, and the bundle is dropped if no entry names it: the call that commits second is a
/// conflict.
const WRITE_SKEW: &str = r#"
{"event":"invoke","call":1,"batch":{"ops":[{"op":"set_bundle","domain":"b.org","text":"{}"}]}}
{"call":1,"state":"new"}
{"event":"begin","call":1}
{"call":1,"place":0,"state":"running"}
{"event":"step","call":1}
{"call":1,"read":"bundle b.org","state":"ready"}
{"event":"commit","call":1}
{"call":1,"commit":"committed","place":1}
{"event":"reply","call":1}
{"call":1,"place":1,"replies":[{"bundle":{"domain":"b.org","sequence":0,"text":"{}"}}],"result":"committed"}
{"event":"invoke","call":2,"batch":{"ops":[{"op":"create","id":"00000000-0000-0000-0000-000000000001","parent":"spiffe://ex.org/spire/agent/n1","identity":"spiffe://ex.org/web","selectors":["u:1"],"domains":["b.org"]}]}}
{"call":2,"state":"new"}
{"event":"invoke","call":3,"batch":{"ops":[{"op":"drop_bundle","domain":"b.org"}]}}
{"call":3,"state":"new"}
{"event":"begin","call":2}
{"call":2,"place":1,"state":"running"}
{"event":"begin","call":3}
{"call":3,"place":1,"state":"running"}
{"event":"step","call":2}
{"call":2,"read":"entry 00000000-0000-0000-0000-000000000001","state":"running"}
{"event":"step","call":2}
{"call":2,"read":"group spiffe://ex.org/spire/agent/n1 spiffe://ex.org/web","state":"running"}
{"event":"step","call":2}
{"call":2,"read":"bundle b.org","state":"ready"}
{"event":"step","call":3}
{"call":3,"read":"bundle b.org","state":"running"}
{"event":"step","call":3}
{"call":3,"read":"users b.org","state":"ready"}
{"event":"commit","call":2}
{"call":2,"commit":"committed","place":2}
{"event":"commit","call":3}
{"call":3,"commit":"conflict","place":2}
{"event":"reply","call":2}
{"call":2,"place":2,"replies":[{"entry":{"domains":["b.org"],"expiry":0,"hint":"","id":"00000000-0000-0000-0000-000000000001","identity":"spiffe://ex.org/web","parent":"spiffe://ex.org/spire/agent/n1","revision":0,"selectors":["u:1"]}}],"result":"committed"}
{"event":"reply","call":3}
{"call":3,"place":2,"result":"conflict"}
{"order":[1,2]}
"#;

#[test]
fn of_two_calls_that_each_read_what_the_other_writes_one_is_a_conflict(
    rt: HostRuntime,
) -> Result<(), Fail> {
    are_played(&rt, rt.alloc(), WRITE_SKEW)
}

/// Two updates of what both have read. The second one is a conflict, and retried it is refused for its revision.
const LOST_UPDATE: &str = r#"
{"event":"invoke","call":1,"batch":{"ops":[{"op":"create","id":"00000000-0000-0000-0000-000000000001","parent":"spiffe://ex.org/spire/agent/n1","identity":"spiffe://ex.org/web","selectors":["u:1"]}]}}
{"call":1,"state":"new"}
{"event":"begin","call":1}
{"call":1,"place":0,"state":"running"}
{"event":"step","call":1}
{"call":1,"read":"entry 00000000-0000-0000-0000-000000000001","state":"running"}
{"event":"step","call":1}
{"call":1,"read":"group spiffe://ex.org/spire/agent/n1 spiffe://ex.org/web","state":"ready"}
{"event":"commit","call":1}
{"call":1,"commit":"committed","place":1}
{"event":"reply","call":1}
{"call":1,"place":1,"replies":[{"entry":{"domains":[],"expiry":0,"hint":"","id":"00000000-0000-0000-0000-000000000001","identity":"spiffe://ex.org/web","parent":"spiffe://ex.org/spire/agent/n1","revision":0,"selectors":["u:1"]}}],"result":"committed"}
{"event":"invoke","call":2,"batch":{"ops":[{"op":"update","id":"00000000-0000-0000-0000-000000000001","parent":"spiffe://ex.org/spire/agent/n1","identity":"spiffe://ex.org/web","selectors":["u:1"],"expiry":5,"revision":0}]}}
{"call":2,"state":"new"}
{"event":"invoke","call":3,"batch":{"ops":[{"op":"update","id":"00000000-0000-0000-0000-000000000001","parent":"spiffe://ex.org/spire/agent/n1","identity":"spiffe://ex.org/web","selectors":["u:1"],"expiry":7,"revision":0}]}}
{"call":3,"state":"new"}
{"event":"begin","call":2}
{"call":2,"place":1,"state":"running"}
{"event":"begin","call":3}
{"call":3,"place":1,"state":"running"}
{"event":"step","call":2}
{"call":2,"read":"entry 00000000-0000-0000-0000-000000000001","state":"running"}
{"event":"step","call":3}
{"call":3,"read":"entry 00000000-0000-0000-0000-000000000001","state":"running"}
{"event":"step","call":2}
{"call":2,"read":"group spiffe://ex.org/spire/agent/n1 spiffe://ex.org/web","state":"ready"}
{"event":"step","call":3}
{"call":3,"read":"group spiffe://ex.org/spire/agent/n1 spiffe://ex.org/web","state":"ready"}
{"event":"commit","call":3}
{"call":3,"commit":"committed","place":2}
{"event":"commit","call":2}
{"call":2,"commit":"conflict","place":2}
{"event":"reply","call":3}
{"call":3,"place":2,"replies":[{"entry":{"domains":[],"expiry":7,"hint":"","id":"00000000-0000-0000-0000-000000000001","identity":"spiffe://ex.org/web","parent":"spiffe://ex.org/spire/agent/n1","revision":1,"selectors":["u:1"]}}],"result":"committed"}
{"event":"reply","call":2}
{"call":2,"place":2,"result":"conflict"}
{"event":"invoke","call":4,"batch":{"ops":[{"op":"update","id":"00000000-0000-0000-0000-000000000001","parent":"spiffe://ex.org/spire/agent/n1","identity":"spiffe://ex.org/web","selectors":["u:1"],"expiry":5,"revision":0}]}}
{"call":4,"state":"new"}
{"event":"begin","call":4}
{"call":4,"place":2,"state":"running"}
{"event":"step","call":4}
{"call":4,"read":"entry 00000000-0000-0000-0000-000000000001","state":"settled"}
{"event":"reply","call":4}
{"call":4,"code":"O4","op":0,"place":2,"result":"refused"}
{"order":[1,3,4]}
"#;

#[test]
fn no_update_is_lost(rt: HostRuntime) -> Result<(), Fail> {
    are_played(&rt, rt.alloc(), LOST_UPDATE)
}

/// A query that is invoked after a reply sees what that reported; one that began before sees the book of its begin to its end.
const STALE_READ: &str = r#"
{"event":"invoke","call":1,"batch":{"ops":[{"op":"show","id":"00000000-0000-0000-0000-000000000001"},{"op":"show","id":"00000000-0000-0000-0000-000000000001"}]}}
{"call":1,"state":"new"}
{"event":"begin","call":1}
{"call":1,"place":0,"state":"running"}
{"event":"step","call":1}
{"call":1,"read":"entry 00000000-0000-0000-0000-000000000001","state":"running"}
{"event":"invoke","call":2,"batch":{"ops":[{"op":"create","id":"00000000-0000-0000-0000-000000000001","parent":"spiffe://ex.org/spire/agent/n1","identity":"spiffe://ex.org/web","selectors":["u:1"]}]}}
{"call":2,"state":"new"}
{"event":"begin","call":2}
{"call":2,"place":0,"state":"running"}
{"event":"step","call":2}
{"call":2,"read":"entry 00000000-0000-0000-0000-000000000001","state":"running"}
{"event":"step","call":2}
{"call":2,"read":"group spiffe://ex.org/spire/agent/n1 spiffe://ex.org/web","state":"ready"}
{"event":"commit","call":2}
{"call":2,"commit":"committed","place":1}
{"event":"reply","call":2}
{"call":2,"place":1,"replies":[{"entry":{"domains":[],"expiry":0,"hint":"","id":"00000000-0000-0000-0000-000000000001","identity":"spiffe://ex.org/web","parent":"spiffe://ex.org/spire/agent/n1","revision":0,"selectors":["u:1"]}}],"result":"committed"}
{"event":"invoke","call":3,"batch":{"ops":[{"op":"show","id":"00000000-0000-0000-0000-000000000001"}]}}
{"call":3,"state":"new"}
{"event":"begin","call":3}
{"call":3,"place":1,"state":"running"}
{"event":"step","call":3}
{"call":3,"read":"entry 00000000-0000-0000-0000-000000000001","state":"settled"}
{"event":"step","call":1}
{"call":1,"read":"entry 00000000-0000-0000-0000-000000000001","state":"settled"}
{"event":"reply","call":3}
{"call":3,"place":1,"replies":[{"entry":{"domains":[],"expiry":0,"hint":"","id":"00000000-0000-0000-0000-000000000001","identity":"spiffe://ex.org/web","parent":"spiffe://ex.org/spire/agent/n1","revision":0,"selectors":["u:1"]}}],"result":"answered"}
{"event":"reply","call":1}
{"call":1,"place":0,"replies":[{"entry":null},{"entry":null}],"result":"answered"}
{"order":[1,2,3]}
"#;

#[test]
fn a_question_after_an_answer_sees_what_it_reported(rt: HostRuntime) -> Result<(), Fail> {
    are_played(&rt, rt.alloc(), STALE_READ)
}

/// Only the call itself sees its uncommitted changes, and they are dropped if its commit is a conflict.
const DIRTY_READ: &str = r#"
{"event":"invoke","call":1,"batch":{"ops":[{"op":"create","id":"00000000-0000-0000-0000-000000000001","parent":"spiffe://ex.org/spire/agent/n1","identity":"spiffe://ex.org/web","selectors":["u:1"]},{"op":"show","id":"00000000-0000-0000-0000-000000000001"}]}}
{"call":1,"state":"new"}
{"event":"begin","call":1}
{"call":1,"place":0,"state":"running"}
{"event":"step","call":1}
{"call":1,"read":"entry 00000000-0000-0000-0000-000000000001","state":"running"}
{"event":"step","call":1}
{"call":1,"read":"group spiffe://ex.org/spire/agent/n1 spiffe://ex.org/web","state":"running"}
{"event":"step","call":1}
{"call":1,"read":"entry 00000000-0000-0000-0000-000000000001","state":"ready"}
{"event":"invoke","call":2,"batch":{"ops":[{"op":"show","id":"00000000-0000-0000-0000-000000000001"}]}}
{"call":2,"state":"new"}
{"event":"begin","call":2}
{"call":2,"place":0,"state":"running"}
{"event":"step","call":2}
{"call":2,"read":"entry 00000000-0000-0000-0000-000000000001","state":"settled"}
{"event":"reply","call":2}
{"call":2,"place":0,"replies":[{"entry":null}],"result":"answered"}
{"event":"invoke","call":3,"batch":{"ops":[{"op":"create","id":"00000000-0000-0000-0000-000000000001","parent":"spiffe://ex.org/spire/agent/n2","identity":"spiffe://ex.org/api","selectors":["u:2"]}]}}
{"call":3,"state":"new"}
{"event":"begin","call":3}
{"call":3,"place":0,"state":"running"}
{"event":"step","call":3}
{"call":3,"read":"entry 00000000-0000-0000-0000-000000000001","state":"running"}
{"event":"step","call":3}
{"call":3,"read":"group spiffe://ex.org/spire/agent/n2 spiffe://ex.org/api","state":"ready"}
{"event":"commit","call":3}
{"call":3,"commit":"committed","place":1}
{"event":"reply","call":3}
{"call":3,"place":1,"replies":[{"entry":{"domains":[],"expiry":0,"hint":"","id":"00000000-0000-0000-0000-000000000001","identity":"spiffe://ex.org/api","parent":"spiffe://ex.org/spire/agent/n2","revision":0,"selectors":["u:2"]}}],"result":"committed"}
{"event":"commit","call":1}
{"call":1,"commit":"conflict","place":1}
{"event":"invoke","call":4,"batch":{"ops":[{"op":"show","id":"00000000-0000-0000-0000-000000000001"}]}}
{"call":4,"state":"new"}
{"event":"begin","call":4}
{"call":4,"place":1,"state":"running"}
{"event":"step","call":4}
{"call":4,"read":"entry 00000000-0000-0000-0000-000000000001","state":"settled"}
{"event":"reply","call":4}
{"call":4,"place":1,"replies":[{"entry":{"domains":[],"expiry":0,"hint":"","id":"00000000-0000-0000-0000-000000000001","identity":"spiffe://ex.org/api","parent":"spiffe://ex.org/spire/agent/n2","revision":0,"selectors":["u:2"]}}],"result":"answered"}
{"event":"reply","call":1}
{"call":1,"place":1,"result":"conflict"}
{"order":[2,3,4]}
"#;

#[test]
fn no_question_sees_what_isnt_committed(rt: HostRuntime) -> Result<(), Fail> {
    are_played(&rt, rt.alloc(), DIRTY_READ)
}

/// Events that aren't possible, and lines that aren't events, are refused among others, and change nothing.
pub const OUT_OF_TURN: &str = r#"
{"event":"begin","call":7}
{"code":"E2","line":1}
{"event":"invoke","call":7,"batch":{"ops":[{"op":"set_agent","agent":"spiffe://ex.org/spire/agent/n1","selectors":["x:1"]}]}}
{"call":7,"state":"new"}
{"event":"invoke","call":7,"batch":{"ops":[{"op":"show_agent","agent":"spiffe://ex.org/spire/agent/n1"}]}}
{"code":"E1","line":3}
{"event":"step","call":7}
{"code":"E3","line":4}
{"event":"reply","call":7}
{"code":"E3","line":5}
{"event":"start","call":7}
{"code":"L5","field":"event","line":6}
{"event":"begin","call":7,"batch":{}}
{"code":"L5","field":"batch","line":7}
{"event":"begin","call":7}
{"call":7,"place":0,"state":"running"}
{"event":"begin","call":7}
{"code":"E3","line":9}
{"event":"commit","call":7}
{"code":"E3","line":10}
{"event":"step","call":7}
{"call":7,"read":"agent spiffe://ex.org/spire/agent/n1","state":"ready"}
{"event":"step","call":7}
{"code":"E3","line":12}
{"event":"commit","call":7}
{"call":7,"commit":"committed","place":1}
{"event":"invoke","call":8,"batch":{"ops":[{"op":"show_agent","agent":"spiffe://ex.org/spire/agent/n1"}],"after":9}}
{"call":8,"state":"new"}
{"event":"begin","call":8}
{"call":8,"place":1,"state":"settled"}
{"event":"commit","call":7}
{"code":"E3","line":16}
{"event":"reply","call":8}
{"call":8,"code":"W1","place":1,"result":"refused"}
{"event":"reply","call":8}
{"code":"E3","line":18}
{"order":[7,8]}
"#;

#[test]
fn events_out_of_turn_are_refused_and_change_nothing(rt: HostRuntime) -> Result<(), Fail> {
    are_played(&rt, rt.alloc(), OUT_OF_TURN)
}

/// No lines get the order of no calls.
#[test]
fn no_events_have_an_order_without_calls(rt: HostRuntime) -> Result<(), Fail> {
    are_played(&rt, rt.alloc(), "{\"order\":[]}\n")
}

#[test]
fn each_failing_device_ends_a_schedule(rt: HostRuntime) -> Result<(), Fail> {
    let table = Table::of(rt.alloc(), QUESTION)?;
    for chunking in Chunking::EACH {
        fail_each_read(&rt, rt.alloc(), Engine::Schedule, &table, chunking)?;
        fail_each_write(
            &rt,
            rt.alloc(),
            Engine::Schedule,
            &table,
            (Chunking::Line, chunking),
        )?;
    }
    Ok(())
}
