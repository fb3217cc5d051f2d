//! Request logs: the batches that a run committed, printed as request lines, give the same replies at the same places, and the
//! same book.

use crate::engine::{FIRST_SEED, Table, answers_with, are_answered, are_answered_with, is_written};
use crate::wanted::is_text;
use line_devices::{CountedDevice, Output};
use line_engines::{items_are_replayed, journals_are_replayed};
use line_reading::{Ids, read_request};
use reg_lines::{PrintJson, print_line};
use reg_programs::session_alone_law;
use spiffe_name::TrustDomain;
use std::alloc::Global;
use std::process::Abort;
use std::sync::Wait;
use std::test::Fail;

/// A run with four commits, among lines that commit nothing. The creates have no ids.
const RUN: &str = r#"
{"ops":[{"op":"set_agent","agent":"spiffe://ex.org/spire/agent/n1","selectors":["x:2","x:1"]},{"op":"create","parent":"spiffe://ex.org/spire/agent/n1","identity":"spiffe://ex.org/web","selectors":["u:1"]}]}
{"call":1,"place":1,"replies":[{"agent":{"id":"spiffe://ex.org/spire/agent/n1","selectors":["x:1","x:2"]}},{"entry":{"domains":[],"expiry":0,"hint":"","id":"76b8e0ad-a0f1-4d90-805d-6ae55386bd28","identity":"spiffe://ex.org/web","parent":"spiffe://ex.org/spire/agent/n1","revision":0,"selectors":["u:1"]}}],"result":"committed"}
a refused batch has drawn an id, a line that isn't a request has not
{"ops":[{"op":"create","parent":"spiffe://ex.org/spire/agent/n1","identity":"spiffe://ex.org/web","selectors":["u:1"]}]}
{"call":2,"code":"O2","detail":"76b8e0ad-a0f1-4d90-805d-6ae55386bd28","op":0,"place":1,"result":"refused"}
{"ops":[]}
{"code":"B1","line":3}
a batch with a token, and the same again
{"ops":[{"op":"set_bundle","domain":"b.org","text":"a\tb"}],"token":"00000000-0000-0000-0000-000000000009","tries":3}
{"call":3,"place":2,"replies":[{"bundle":{"domain":"b.org","sequence":0,"text":"a\tb"}}],"result":"committed"}
{"ops":[{"op":"set_bundle","domain":"b.org","text":"a\tb"}],"token":"00000000-0000-0000-0000-000000000009"}
{"call":4,"place":2,"replies":[{"bundle":{"domain":"b.org","sequence":0,"text":"a\tb"}}],"result":"repeated"}
too early, and in time
{"ops":[{"op":"prune","before":9}],"after":3}
{"call":5,"code":"W1","place":2,"result":"refused"}
{"after":2,"ops":[{"op":"create","parent":"spiffe://ex.org/spire/agent/n1","identity":"spiffe://ex.org/api","selectors":["u:1"],"domains":["b.org"],"jwt_svid_ttl":60}]}
{"call":6,"place":3,"replies":[{"entry":{"domains":["b.org"],"expiry":0,"hint":"","id":"da41597c-5157-488d-b724-e03fb8d84a37","identity":"spiffe://ex.org/api","jwt_svid_ttl":60,"parent":"spiffe://ex.org/spire/agent/n1","revision":0,"selectors":["u:1"]}}],"result":"committed"}
a commit that changes nothing but the revision
{"ops":[{"op":"update","id":"76b8e0ad-a0f1-4d90-805d-6ae55386bd28","parent":"spiffe://ex.org/spire/agent/n1","identity":"spiffe://ex.org/web","selectors":["u:1"],"revision":0}]}
{"call":7,"place":4,"replies":[{"entry":{"domains":[],"expiry":0,"hint":"","id":"76b8e0ad-a0f1-4d90-805d-6ae55386bd28","identity":"spiffe://ex.org/web","parent":"spiffe://ex.org/spire/agent/n1","revision":1,"selectors":["u:1"]}}],"result":"committed"}
"#;

/// The request log of the run, and its replies: those of the commits, under new call numbers.
const LOG: &str = r#"
{"after":0,"ops":[{"agent":"spiffe://ex.org/spire/agent/n1","op":"set_agent","selectors":["x:1","x:2"]},{"domains":[],"expiry":0,"hint":"","id":"76b8e0ad-a0f1-4d90-805d-6ae55386bd28","identity":"spiffe://ex.org/web","op":"create","parent":"spiffe://ex.org/spire/agent/n1","selectors":["u:1"]}]}
{"call":1,"place":1,"replies":[{"agent":{"id":"spiffe://ex.org/spire/agent/n1","selectors":["x:1","x:2"]}},{"entry":{"domains":[],"expiry":0,"hint":"","id":"76b8e0ad-a0f1-4d90-805d-6ae55386bd28","identity":"spiffe://ex.org/web","parent":"spiffe://ex.org/spire/agent/n1","revision":0,"selectors":["u:1"]}}],"result":"committed"}
{"after":0,"ops":[{"domain":"b.org","op":"set_bundle","text":"a\tb"}],"token":"00000000-0000-0000-0000-000000000009"}
{"call":2,"place":2,"replies":[{"bundle":{"domain":"b.org","sequence":0,"text":"a\tb"}}],"result":"committed"}
{"after":2,"ops":[{"domains":["b.org"],"expiry":0,"hint":"","id":"da41597c-5157-488d-b724-e03fb8d84a37","identity":"spiffe://ex.org/api","jwt_svid_ttl":60,"op":"create","parent":"spiffe://ex.org/spire/agent/n1","selectors":["u:1"]}]}
{"call":3,"place":3,"replies":[{"entry":{"domains":["b.org"],"expiry":0,"hint":"","id":"da41597c-5157-488d-b724-e03fb8d84a37","identity":"spiffe://ex.org/api","jwt_svid_ttl":60,"parent":"spiffe://ex.org/spire/agent/n1","revision":0,"selectors":["u:1"]}}],"result":"committed"}
{"after":0,"ops":[{"domains":[],"expiry":0,"hint":"","id":"76b8e0ad-a0f1-4d90-805d-6ae55386bd28","identity":"spiffe://ex.org/web","op":"update","parent":"spiffe://ex.org/spire/agent/n1","revision":0,"selectors":["u:1"]}]}
{"call":4,"place":4,"replies":[{"entry":{"domains":[],"expiry":0,"hint":"","id":"76b8e0ad-a0f1-4d90-805d-6ae55386bd28","identity":"spiffe://ex.org/web","parent":"spiffe://ex.org/spire/agent/n1","revision":1,"selectors":["u:1"]}}],"result":"committed"}
"#;

/// Lines that read every row: the newest book, an earlier one, and the token.
const READS: &str =
    r#"{"ops":[{"op":"show_agent","agent":"spiffe://ex.org/spire/agent/n1"},{"op":"show_bundle","domain":"b.org"},{"op":"page","size":9}]}
{"ops":[{"op":"page","size":9,"at":1}]}
{"ops":[{"op":"page","size":9,"at":0}]}
{"ops":[{"op":"set_bundle","domain":"b.org","text":"a\tb"}],"token":"00000000-0000-0000-0000-000000000009"}
{"ops":[{"op":"set_bundle","domain":"b.org","text":"c"}],"token":"00000000-0000-0000-0000-000000000009"}
"#;

/// Another seed than that of the run.
const OTHER_SEED: [u8; 32] = [7; 32];

/// Appends what is printed for a value as a line.
fn print<T: PrintJson>(value: &T, bytes: &mut Vec<u8>) -> Result<(), Fail> {
    let mut output = Output::new(CountedDevice::new(bytes));
    print_line(value, &mut output);
    output.flush();
    if output.has_failed() {
        return Err(Fail::from("no memory for the output"));
    }
    Ok(())
}

/// The request log of a run of `ex.org` with the first seed: the printed batches of the lines whose reply is a commit.
fn request_log(alloc: Global, run: &Table) -> Result<Vec<u8>, Fail> {
    let domain = TrustDomain::parse(alloc, "ex.org")?;
    let mut ids = Ids::of_seed(FIRST_SEED);
    let mut log = Vec::new(alloc);
    let lines = str::from_utf8(&run.asked)?;
    for (line, reply) in lines.lines().zip(run.wanted.as_str().lines()) {
        let line = format!(in alloc; "{line}\n")?;
        let request = read_request(alloc, &domain, &mut ids, line.as_bytes(), 1);
        if let Ok(request) = &request
            && reply.ends_with(",\"result\":\"committed\"}")
        {
            print(&request.batch, &mut log)?;
        }
    }
    Ok(log)
}

/// The replies to the lines of `READS` after these, without their call numbers. A session through a new seat gives the same ones.
fn replies_to_reads(
    rt: &(impl Abort + Wait),
    alloc: Global,
    lines: &[u8],
    seed: [u8; 32],
) -> Result<String, Fail> {
    let mut bytes = lines.to_vec(alloc)?;
    let before = answers_with(rt, alloc, ("ex.org", seed), &bytes)?;
    bytes.extend_from_slice(READS.as_bytes())?;
    let all = answers_with(rt, alloc, ("ex.org", seed), &bytes)?;
    let behind = str::from_utf8(&all)?
        .strip_prefix(str::from_utf8(&before)?)
        .ok_or("other replies before the reads")?;
    let mut replies = String::new(alloc);
    for line in behind.lines() {
        let (_, reply) = line.split_once(",").ok_or("no call number")?;
        replies.push_str(reply)?;
        replies.push_str("\n")?;
    }
    Ok(replies)
}

#[test]
fn the_printed_commits_of_a_run_are_its_request_log(rt: HostRuntime) -> Result<(), Fail> {
    are_answered(&rt, rt.alloc(), RUN)?;
    let log = request_log(rt.alloc(), &Table::of(rt.alloc(), RUN)?)?;
    let expected = Table::of(rt.alloc(), LOG)?;
    is_written(&rt, &log, str::from_utf8(&expected.asked)?)
}

#[test]
fn a_request_log_gives_the_same_replies_with_any_seed(rt: HostRuntime) -> Result<(), Fail> {
    are_answered(&rt, rt.alloc(), LOG)?;
    are_answered_with(&rt, rt.alloc(), ("ex.org", OTHER_SEED), LOG)
}

/// The rows of the newest book and of earlier ones, and the replies under the token.
const ROWS: &str =
    r#""place":4,"replies":[{"agent":{"id":"spiffe://ex.org/spire/agent/n1","selectors":["x:1","x:2"]}},{"bundle":{"domain":"b.org","sequence":0,"text":"a\tb"}},{"entries":[{"domains":[],"expiry":0,"hint":"","id":"76b8e0ad-a0f1-4d90-805d-6ae55386bd28","identity":"spiffe://ex.org/web","parent":"spiffe://ex.org/spire/agent/n1","revision":1,"selectors":["u:1"]},{"domains":["b.org"],"expiry":0,"hint":"","id":"da41597c-5157-488d-b724-e03fb8d84a37","identity":"spiffe://ex.org/api","jwt_svid_ttl":60,"parent":"spiffe://ex.org/spire/agent/n1","revision":0,"selectors":["u:1"]}],"next":null}],"result":"answered"}
"place":4,"replies":[{"entries":[{"domains":[],"expiry":0,"hint":"","id":"76b8e0ad-a0f1-4d90-805d-6ae55386bd28","identity":"spiffe://ex.org/web","parent":"spiffe://ex.org/spire/agent/n1","revision":0,"selectors":["u:1"]}],"next":null}],"result":"answered"}
"place":4,"replies":[{"entries":[],"next":null}],"result":"answered"}
"place":2,"replies":[{"bundle":{"domain":"b.org","sequence":0,"text":"a\tb"}}],"result":"repeated"}
"code":"O9","place":4,"result":"refused"}
"#;

#[test]
fn after_a_request_log_the_book_is_that_of_the_run(rt: HostRuntime) -> Result<(), Fail> {
    let run = Table::of(rt.alloc(), RUN)?;
    let log = Table::of(rt.alloc(), LOG)?;
    let first = replies_to_reads(&rt, rt.alloc(), &run.asked, FIRST_SEED)?;
    is_text(&rt, first.as_str(), ROWS, "the rows after the run");
    let again = replies_to_reads(&rt, rt.alloc(), &log.asked, OTHER_SEED)?;
    is_text(&rt, again.as_str(), ROWS, "the rows after the log");
    Ok(())
}

#[test]
fn the_laws_can_be_called() {
    journals_are_replayed();
    items_are_replayed(&[]);
    session_alone_law();
}
