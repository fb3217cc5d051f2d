//! Records, and the verdicts on them.

use crate::engine::program_writes;
use crate::lines::add_line_of;
use line_engines::RunEnd;
use std::alloc::Global;
use std::process::Abort;
use std::test::Fail;

/// Asserts the verdict of `regd audit` for `ex.org` on these lines, and its outcome.
fn is_audited(
    rt: &impl Abort,
    alloc: Global,
    lines: &[u8],
    outcome: RunEnd,
    expected: &str,
) -> Result<(), Fail> {
    program_writes(
        rt,
        alloc,
        "regd|audit|--domain|ex.org",
        outcome,
        lines,
        expected,
    )
}

/// Asserts that the verdict on these lines is this no.
pub fn is_denied(rt: &impl Abort, alloc: Global, lines: &[u8], verdict: &str) -> Result<(), Fail> {
    let expected = format!(in alloc; "{verdict}\n")?;
    is_audited(rt, alloc, lines, RunEnd::Denied, expected.as_str())
}

/// Each verdict line of the table is the expected verdict on the lines between the verdict before and this one, in the notation
/// of `lines`.
fn are_denied(rt: &impl Abort, alloc: Global, table: &str) -> Result<(), Fail> {
    let mut lines = Vec::new(alloc);
    for line in table.lines() {
        if line.starts_with("{\"audit\":") {
            is_denied(rt, alloc, &lines, line)?;
            lines.clear();
        } else if !line.is_empty() {
            add_line_of(alloc, &mut lines, line)?;
        }
    }
    Ok(())
}

/// Asserts that the records have no fault.
fn are_good(rt: &impl Abort, alloc: Global, lines: &str, expected: &str) -> Result<(), Fail> {
    is_audited(rt, alloc, lines.as_bytes(), RunEnd::Done, expected)
}

/// Two creates of the same group: the second one is refused with the first one's id.
const CREATED: &str =
    r#"{"batch":{"after":0,"ops":[{"domains":[],"expiry":0,"hint":"","id":"00000000-0000-0000-0000-000000000001","identity":"spiffe://ex.org/web","op":"create","parent":"spiffe://ex.org/spire/agent/n1","selectors":["u:1"]}]},"call":1,"invoked":1,"replied":15,"reply":{"call":1,"place":1,"replies":[{"entry":{"domains":[],"expiry":0,"hint":"","id":"00000000-0000-0000-0000-000000000001","identity":"spiffe://ex.org/web","parent":"spiffe://ex.org/spire/agent/n1","revision":0,"selectors":["u:1"]}}],"result":"committed"}}
{"batch":{"after":0,"ops":[{"domains":[],"expiry":0,"hint":"","id":"00000000-0000-0000-0000-000000000002","identity":"spiffe://ex.org/web","op":"create","parent":"spiffe://ex.org/spire/agent/n1","selectors":["u:1"]}]},"call":3,"invoked":11,"replied":17,"reply":{"call":3,"code":"O2","detail":"00000000-0000-0000-0000-000000000001","op":0,"place":1,"result":"refused"}}
"#;

#[test]
fn records_of_two_calls_are_audited_yes(rt: HostRuntime) -> Result<(), Fail> {
    are_good(
        &rt,
        rt.alloc(),
        CREATED,
        "{\"audit\":\"yes\",\"calls\":2}\n",
    )
}

#[test]
fn no_records_are_audited_yes(rt: HostRuntime) -> Result<(), Fail> {
    are_good(&rt, rt.alloc(), "", "{\"audit\":\"yes\",\"calls\":0}\n")
}

/// A committed call need not have replied, and the keys and escapes of a reply may differ from the printed ones.
const UNREPLIED: &str =
    r#"{"batch":{"after":0,"ops":[{"op":"drop_bundle","domain":"b.org"}]},"call":4,"invoked":3,"replied":9,"reply":{"result":"refused","code":"O5","op":0,"place":0,"detail":"b.\u006frg","call":4}}
{"batch":{"after":0,"ops":[{"op":"set_bundle","domain":"b.org","text":"t"}]},"call":2,"invoked":3,"replied":null,"reply":{"call":2,"place":1,"replies":[{"bundle":{"domain":"b.org","sequence":0,"text":"t"}}],"result":"committed"}}
"#;

#[test]
fn a_committed_call_may_not_have_replied(rt: HostRuntime) -> Result<(), Fail> {
    are_good(
        &rt,
        rt.alloc(),
        UNREPLIED,
        "{\"audit\":\"yes\",\"calls\":2}\n",
    )
}

/// For two records, each cause, and if several apply, the first one: the number of a call before its stamps, these before the
/// order, and that before the reply.
const BAD_SECOND: &str = r#"
{"batch":{"ops":[{"op":"show_bundle","domain":"b.org"}]},"call":1,"invoked":5,"replied":9,"reply":{"call":1,"place":0,"replies":[{"bundle":null}],"result":"answered"}}
{"batch":{"ops":[{"op":"show_bundle","domain":"b.org"}]},"call":1,"invoked":4,"replied":4,"reply":{}}
{"audit":"no","line":2,"why":"call"}
{"batch":{"ops":[{"op":"show_bundle","domain":"b.org"}]},"call":1,"invoked":5,"replied":9,"reply":{"call":1,"place":0,"replies":[{"bundle":null}],"result":"answered"}}
{"batch":{"ops":[{"op":"show_bundle","domain":"b.org"}]},"call":2,"invoked":4,"replied":4,"reply":{}}
{"audit":"no","line":2,"why":"stamps"}
{"batch":{"ops":[{"op":"show_bundle","domain":"b.org"}]},"call":1,"invoked":5,"replied":9,"reply":{"call":1,"place":0,"replies":[{"bundle":null}],"result":"answered"}}
{"batch":{"ops":[{"op":"show_bundle","domain":"b.org"}]},"call":2,"invoked":1,"replied":null,"reply":{"call":2,"place":0,"replies":[{"bundle":null}],"result":"answered"}}
{"audit":"no","line":2,"why":"stamps"}
{"batch":{"ops":[{"op":"show_bundle","domain":"b.org"}]},"call":1,"invoked":5,"replied":9,"reply":{"call":1,"place":0,"replies":[{"bundle":null}],"result":"answered"}}
{"batch":{"ops":[{"op":"show_bundle","domain":"b.org"}]},"call":2,"invoked":1,"replied":4,"reply":{}}
{"audit":"no","line":2,"why":"order"}
{"batch":{"ops":[{"op":"show_bundle","domain":"b.org"}]},"call":1,"invoked":5,"replied":9,"reply":{"call":1,"place":0,"replies":[{"bundle":null}],"result":"answered"}}
{"batch":{"ops":[{"op":"show_bundle","domain":"b.org"}]},"call":2,"invoked":1,"replied":5,"reply":{"call":1,"place":0,"replies":[{"bundle":null}],"result":"answered"}}
{"audit":"no","line":2,"why":"reply"}
{"batch":{"ops":[{"op":"show_bundle","domain":"b.org"}]},"call":1,"invoked":5,"replied":9,"reply":{"call":1,"place":0,"replies":[{"bundle":null}],"result":"answered"}}
{"batch":{"ops":[{"op":"show_bundle","domain":"b.org"}]},"call":2,"invoked":1,"replied":5,"reply":{"call":2,"place":0.0,"replies":[{"bundle":null}],"result":"answered"}}
{"audit":"no","line":2,"why":"reply"}
"#;

#[test]
fn the_first_cause_is_reported(rt: HostRuntime) -> Result<(), Fail> {
    are_denied(&rt, rt.alloc(), BAD_SECOND)
}

/// Lines that aren't records; a create must have its id.
const NO_RECORDS: &str = r#"
«0*»
{"audit":"no","line":1,"why":"L2"}
{}«»
{"audit":"no","line":1,"why":"L3"}
{"batch":{"ops":[]},"call":1,"invoked":5,"replied":9,"reply":{}}
{"audit":"no","line":1,"why":"B1"}
{"batch":{"ops":[{"op":"create","parent":"spiffe://ex.org/spire/agent/n1","identity":"spiffe://ex.org/web","selectors":["u:1"]}]},"call":1,"invoked":5,"replied":9,"reply":{}}
{"audit":"no","line":1,"why":"L5"}
"#;

#[test]
fn a_line_that_spells_no_record_is_reported_by_its_code(rt: HostRuntime) -> Result<(), Fail> {
    are_denied(&rt, rt.alloc(), NO_RECORDS)
}
