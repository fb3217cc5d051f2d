//! A book at its limits, filled by request lines.

use crate::engine::{Table, answers, is_written};
use std::alloc::Global;
use std::process::Abort;
use std::sync::Wait;
use std::test::Fail;

/// The operations that fill a book; `#` is replaced by consecutive numbers.
const ENTRY: &str =
    r#"{"op":"create","parent":"spiffe://ex.org/spire/agent/n1","identity":"spiffe://ex.org/#","selectors":["u:1"]}"#;

const AGENT: &str = r#"{"op":"set_agent","agent":"spiffe://ex.org/spire/agent/#","selectors":[]}"#;

const BUNDLE: &str = r#"{"op":"set_bundle","domain":"d#","text":""}"#;

/// Appends this operation with this number, after a text.
fn add_op(
    alloc: Global,
    asked: &mut String,
    before: &str,
    op: &str,
    number: u32,
) -> Result<(), Fail> {
    asked.push_str(before)?;
    let number = format!(in alloc; "{number}")?;
    asked.push_str(op.replace(alloc, "#", number.as_str())?.as_str())?;
    Ok(())
}

/// Appends the given number of lines, with 64 operations of this kind each.
fn fill(alloc: Global, asked: &mut String, op: &str, lines: u32) -> Result<(), Fail> {
    for number in 0..lines.saturating_mul(64) {
        let before = if number % 64 == 0 { "{\"ops\":[" } else { "," };
        add_op(alloc, asked, before, op, number)?;
        if number % 64 == 63 {
            asked.push_str("]}\n")?;
        }
    }
    Ok(())
}

const CHANGE: &str = "{\"ops\":[{\"op\":\"prune\",\"before\":0}]}\n";

/// The given number of lines, each with a change.
pub fn changes(alloc: Global, count: usize) -> Result<String, Fail> {
    Ok(CHANGE.repeat(alloc, count)?)
}

/// Asserts that the requests of a table, after these lines, get their replies.
fn end_with(rt: &(impl Abort + Wait), alloc: Global, lines: &str, table: &str) -> Result<(), Fail> {
    let table = Table::of(alloc, table)?;
    let mut asked = Vec::from_slice(alloc, lines.as_bytes())?;
    asked.extend_from_slice(&table.asked)?;
    let got = answers(rt, alloc, &asked)?;
    let from = got.len().saturating_sub(table.wanted.len());
    is_written(rt, got.as_slice().split_at(from).1, table.wanted.as_str())
}

/// The book has the maximum numbers of entries, agents and bundles.
const FULL: &str = r#"
one row more is refused, entries before agents and agents before bundles
{"ops":[{"op":"set_bundle","domain":"d1024","text":""},{"op":"set_agent","agent":"spiffe://ex.org/spire/agent/4096","selectors":[]},{"op":"create","parent":"spiffe://ex.org/spire/agent/n1","identity":"spiffe://ex.org/16384","selectors":["u:1"]}]}
{"call":337,"code":"W3","place":336,"result":"refused"}
{"ops":[{"op":"set_bundle","domain":"d1024","text":""},{"op":"set_agent","agent":"spiffe://ex.org/spire/agent/4096","selectors":[]}]}
{"call":338,"code":"W4","place":336,"result":"refused"}
{"ops":[{"op":"set_bundle","domain":"d1024","text":""}]}
{"call":339,"code":"W5","place":336,"result":"refused"}
a batch that takes one away too, or replaces one, isn't
{"ops":[{"op":"set_agent","agent":"spiffe://ex.org/spire/agent/4096","selectors":[]},{"op":"drop_agent","agent":"spiffe://ex.org/spire/agent/0"}]}
{"call":340,"place":337,"replies":[{"agent":{"id":"spiffe://ex.org/spire/agent/4096","selectors":[]}},{"agent":{"id":"spiffe://ex.org/spire/agent/0","selectors":[]}}],"result":"committed"}
{"ops":[{"op":"set_bundle","domain":"d0","text":""}]}
{"call":341,"place":338,"replies":[{"bundle":{"domain":"d0","sequence":1,"text":""}}],"result":"committed"}
{"ops":[{"op":"show_bundle","domain":"d1024"}]}
{"call":342,"place":338,"replies":[{"bundle":null}],"result":"answered"}
"#;

#[test]
fn full_book(rt: HostRuntime) -> Result<(), Fail> {
    let mut lines = String::new(rt.alloc());
    fill(rt.alloc(), &mut lines, ENTRY, 256)?;
    fill(rt.alloc(), &mut lines, AGENT, 64)?;
    fill(rt.alloc(), &mut lines, BUNDLE, 16)?;
    end_with(&rt, rt.alloc(), lines.as_str(), FULL)
}

/// A limit is checked on the book after all operations of a batch, and isn't the fault of a single one. A batch that is refused
/// for it has drawn its ids.
const ONE_MORE: &str = r#"
{"ops":[{"op":"create","parent":"spiffe://ex.org/spire/agent/n1","identity":"spiffe://ex.org/web","selectors":["u:1"]},{"op":"set_bundle","domain":"d1024","text":""}]}
{"call":17,"code":"W5","place":16,"result":"refused"}
{"ops":[{"op":"set_bundle","domain":"new","text":""},{"op":"drop_bundle","domain":"d0"},{"op":"show_bundle","domain":"d0"}]}
{"call":18,"place":17,"replies":[{"bundle":{"domain":"new","sequence":0,"text":""}},{"deleted":[],"dissociated":[]},{"bundle":null}],"result":"committed"}
{"ops":[{"op":"create","parent":"spiffe://ex.org/spire/agent/n1","identity":"spiffe://ex.org/web","selectors":["u:1"]}]}
{"call":19,"place":18,"replies":[{"entry":{"domains":[],"expiry":0,"hint":"","id":"bdd219b8-a08d-4d1a-a836-efcc8b770dc7","identity":"spiffe://ex.org/web","parent":"spiffe://ex.org/spire/agent/n1","revision":0,"selectors":["u:1"]}}],"result":"committed"}
"#;

#[test]
fn one_bundle_too_many(rt: HostRuntime) -> Result<(), Fail> {
    let mut lines = String::new(rt.alloc());
    fill(rt.alloc(), &mut lines, BUNDLE, 16)?;
    end_with(&rt, rt.alloc(), lines.as_str(), ONE_MORE)
}

/// After 65,537 committed batches the history goes on: a refused operation is refused for its own reason, and queries are
/// answered.
const GONE_ON: &str = r#"
{"ops":[{"op":"prune","before":0}]}
{"call":65537,"place":65537,"replies":[{"pruned":[]}],"result":"committed"}
{"ops":[{"op":"drop_agent","agent":"spiffe://ex.org/spire/agent/n1"}]}
{"call":65538,"code":"O7","op":0,"place":65537,"result":"refused"}
{"ops":[{"op":"show_bundle","domain":"d0"}]}
{"call":65539,"place":65537,"replies":[{"bundle":null}],"result":"answered"}
"#;

#[test]
fn long_history(rt: HostRuntime) -> Result<(), Fail> {
    let lines = changes(rt.alloc(), 65_536)?;
    end_with(&rt, rt.alloc(), lines.as_str(), GONE_ON)
}
