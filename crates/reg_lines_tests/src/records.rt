//! What is printed for the record of a call, and does it parse to the same record?

use crate::lines::line_of;
use crate::printed::add;
use crate::tables::{
    ReadAs, asserts_at, asserts_in_a_row, asserts_line, asserts_table, new_book, reply_of,
};
use crate::wanted::is_text;
use call_answers::KnownCall;
use entry_book::{Batch, CallAnswer};
use plain_book::PlainBook;
use reg_lines::CallRecord;
use std::alloc::Global;
use std::process::Abort;
use std::test::Fail;
use test_batches::batch;

/// The lines of one run, and the record of each call: each was invoked by the fifth event, and replied by the ninth.
const RECORDS: &str = r#"
# committed, answered, refused
{"ops":[{"op":"prune","before":7}]} => {"batch":{"after":0,"ops":[{"before":7,"op":"prune"}]},"call":1,"invoked":5,"replied":9,"reply":{"call":1,"place":1,"replies":[{"pruned":[]}],"result":"committed"}}
{"ops":[{"op":"show_bundle","domain":"b.org"}],"after":1} => {"batch":{"after":1,"ops":[{"domain":"b.org","op":"show_bundle"}]},"call":2,"invoked":5,"replied":9,"reply":{"call":2,"place":1,"replies":[{"bundle":null}],"result":"answered"}}
{"ops":[{"op":"drop_bundle","domain":"b.org"}]} => {"batch":{"after":0,"ops":[{"domain":"b.org","mode":"restrict","op":"drop_bundle"}]},"call":3,"invoked":5,"replied":9,"reply":{"call":3,"code":"O5","detail":"b.org","op":0,"place":1,"result":"refused"}}
{"ops":[{"op":"prune","before":7}],"after":2} => {"batch":{"after":2,"ops":[{"before":7,"op":"prune"}]},"call":4,"invoked":5,"replied":9,"reply":{"call":4,"code":"W1","place":1,"result":"refused"}}

# repeated: the batch's token stands there, and the reply is that of the first place
{"ops":[{"op":"set_agent","agent":"spiffe://ex.org/spire/agent/n1","selectors":["x:2","x:1"]}],"token":"00000000-0000-0000-0000-000000000009"} => {"batch":{"after":0,"ops":[{"agent":"spiffe://ex.org/spire/agent/n1","op":"set_agent","selectors":["x:1","x:2"]}],"token":"00000000-0000-0000-0000-000000000009"},"call":5,"invoked":5,"replied":9,"reply":{"call":5,"place":2,"replies":[{"agent":{"id":"spiffe://ex.org/spire/agent/n1","selectors":["x:1","x:2"]}}],"result":"committed"}}
{"ops":[{"op":"prune","before":0}]} => {"batch":{"after":0,"ops":[{"before":0,"op":"prune"}]},"call":6,"invoked":5,"replied":9,"reply":{"call":6,"place":3,"replies":[{"pruned":[]}],"result":"committed"}}
{"ops":[{"op":"set_agent","agent":"spiffe://ex.org/spire/agent/n1","selectors":["x:1","x:2"]}],"token":"00000000000000000000000000000009"} => {"batch":{"after":0,"ops":[{"agent":"spiffe://ex.org/spire/agent/n1","op":"set_agent","selectors":["x:1","x:2"]}],"token":"00000000-0000-0000-0000-000000000009"},"call":7,"invoked":5,"replied":9,"reply":{"call":7,"place":2,"replies":[{"agent":{"id":"spiffe://ex.org/spire/agent/n1","selectors":["x:1","x:2"]}}],"result":"repeated"}}

# what is left out of a line is printed of a create, but for lifetimes of 0, and of a page only how it compares selectors
{"ops":[{"op":"create","id":"00000000-0000-0000-0000-000000000001","parent":"spiffe://ex.org/a","identity":"spiffe://ex.org/b","selectors":["u:1"],"hint":"a\nb","jwt_svid_ttl":0,"x509_svid_ttl":60}]} => {"batch":{"after":0,"ops":[{"domains":[],"expiry":0,"hint":"a\nb","id":"00000000-0000-0000-0000-000000000001","identity":"spiffe://ex.org/b","op":"create","parent":"spiffe://ex.org/a","selectors":["u:1"],"x509_svid_ttl":60}]},"call":8,"invoked":5,"replied":9,"reply":{"call":8,"place":4,"replies":[{"entry":{"domains":[],"expiry":0,"hint":"a\nb","id":"00000000-0000-0000-0000-000000000001","identity":"spiffe://ex.org/b","parent":"spiffe://ex.org/a","revision":0,"selectors":["u:1"],"x509_svid_ttl":60}}],"result":"committed"}}
{"ops":[{"op":"page","size":1,"selectors":["u:2"],"from":null}]} => {"batch":{"after":0,"ops":[{"match":"superset","op":"page","selectors":["u:2"],"size":1}]},"call":9,"invoked":5,"replied":9,"reply":{"call":9,"place":4,"replies":[{"entries":[],"next":null}],"result":"answered"}}
{"ops":[{"op":"page","size":1,"at":0,"parent":"spiffe://ex.org/a"}]} => {"batch":{"after":0,"ops":[{"at":0,"op":"page","parent":"spiffe://ex.org/a","size":1}]},"call":10,"invoked":5,"replied":9,"reply":{"call":10,"place":4,"replies":[{"entries":[],"next":null}],"result":"answered"}}
"#;

/// Asserts that the record parses and prints as itself.
fn asserts_itself(rt: &impl Abort, alloc: Global, record: &str) -> Result<(), Fail> {
    let line = line_of(alloc, record)?;
    asserts_line(rt, alloc, ReadAs::Record, 1, &line, (record, record))
}

#[test]
fn a_record_is_printed_and_reads_as_itself(rt: HostRuntime) -> Result<(), Fail> {
    asserts_in_a_row(&rt, rt.alloc(), ReadAs::Call, RECORDS)?;
    for case in RECORDS.lines() {
        if let Some((_, record)) = case.split_once(" => ") {
            asserts_itself(&rt, rt.alloc(), record)?;
        }
    }
    Ok(())
}

/// Appends the record of the third call, which was invoked by the sixth event and hasn't replied, if it has one.
fn add_record(
    alloc: Global,
    text: &mut String,
    batch: &Batch,
    answer: Option<&CallAnswer>,
) -> Result<(), Fail> {
    let known = KnownCall {
        batch,
        invoked: 6,
        decided: None,
        replied: None,
        answer,
    };
    match CallRecord::of(3, &known) {
        Some(record) => add(alloc, text, "", &record),
        None => Ok(text.push_str(", none")?),
    }
}

/// Appends the records of a call with a reply, of one with no answer, and of one that was a conflict.
fn add_records(
    alloc: Global,
    text: &mut String,
    book: &mut PlainBook,
    batch: &Batch,
) -> Result<(), Fail> {
    let reply = CallAnswer::Replied(reply_of(book, batch)?);
    add_record(alloc, text, batch, Some(&reply))?;
    add_record(alloc, text, batch, None)?;
    add_record(alloc, text, batch, Some(&CallAnswer::Conflict(0)))
}

/// The same on an empty book.
fn add_first_records(alloc: Global, text: &mut String, batch: &Batch) -> Result<(), Fail> {
    let mut book = new_book(alloc)?;
    add_records(alloc, text, &mut book, batch)
}

const NOT_REPLIED: &str =
    r#"{"batch":{"after":0,"ops":[{"before":7,"op":"prune"}]},"call":3,"invoked":6,"replied":null,"reply":{"call":3,"place":1,"replies":[{"pruned":[]}],"result":"committed"}}"#;

#[test]
fn a_call_has_a_record_once_it_has_a_reply(rt: HostRuntime) -> Result<(), Fail> {
    let mut text = String::new(rt.alloc());
    add_first_records(rt.alloc(), &mut text, &batch(rt.alloc(), "prune 7")?)?;
    let first = text.as_str().strip_suffix(", none, none").unwrap_or("");
    is_text(&rt, first, NOT_REPLIED, text.as_str());
    asserts_itself(&rt, rt.alloc(), NOT_REPLIED)
}

/// Lines that aren't records, and the refusal of each.
const REFUSED: &str = r#"
[] => {"code":"L4","line":1}

# the top keys in their order: none can be left out, and a null stands at `replied` alone
{} => {"code":"L5","field":"batch","line":1}
{"batch":null,"call":1,"invoked":1,"replied":2,"reply":{}} => {"code":"L5","field":"batch","line":1}
{"batch":[],"call":-1,"invoked":1,"replied":2,"reply":{}} => {"code":"L5","field":"batch","line":1}
{"batch":{},"invoked":-1,"replied":2,"reply":{}} => {"code":"L5","field":"call","line":1}
{"batch":{},"call":1.0,"invoked":-1,"replied":2,"reply":{}} => {"code":"L5","field":"call","line":1}
{"batch":{},"call":1,"invoked":null,"replied":"x","reply":{}} => {"code":"L5","field":"invoked","line":1}
{"batch":{},"call":1,"invoked":18446744073709551616,"replied":"x","reply":{}} => {"code":"L5","field":"invoked","line":1}
{"batch":{},"call":1,"invoked":1,"reply":7} => {"code":"L5","field":"replied","line":1}
{"batch":{},"call":1,"invoked":1,"replied":1e2,"reply":7} => {"code":"L5","field":"replied","line":1}
{"batch":{},"call":1,"invoked":1,"replied":null,"zz":1} => {"code":"L5","field":"reply","line":1}
{"batch":{},"call":1,"invoked":1,"replied":null,"reply":null,"zz":1} => {"code":"L5","field":"reply","line":1}
{"batch":{},"call":1,"invoked":1,"replied":null,"reply":[],"zz":1} => {"code":"L5","field":"reply","line":1}
{"batch":{},"call":1,"invoked":1,"replied":null,"reply":{},"zz":1,"place":1} => {"code":"L5","field":"place","line":1}

# then the batch's keys, then its operations: each create has its id
{"batch":{"after":-1,"token":"x","zz":1},"call":1,"invoked":1,"replied":null,"reply":{}} => {"code":"L5","field":"ops","line":1}
{"batch":{"ops":[7],"after":-1,"token":"x","zz":1},"call":1,"invoked":1,"replied":null,"reply":{}} => {"code":"L5","field":"after","line":1}
{"batch":{"ops":[7],"token":"x","zz":1},"call":1,"invoked":1,"replied":null,"reply":{}} => {"code":"U1","field":"token","line":1}
{"batch":{"ops":[7],"tries":1},"call":1,"invoked":1,"replied":null,"reply":{}} => {"code":"L5","field":"tries","line":1}
{"batch":{"ops":[7]},"call":1,"invoked":1,"replied":null,"reply":{}} => {"code":"L5","field":"ops","line":1,"op":0}
{"batch":{"ops":[{"op":"create","parent":7}]},"call":1,"invoked":1,"replied":null,"reply":{}} => {"code":"L5","field":"id","line":1,"op":0}
{"batch":{"ops":[]},"call":1,"invoked":1,"replied":null,"reply":{}} => {"code":"B1","line":1}
"#;

/// A record without its LF, as the twelfth line.
const CUT: &str = r#"
{"batch":{"after":0,"ops":[{"before":7,"op":"prune"}]},"call":3,"invoked":6,"replied":null,"reply":{"call":3,"place":1,"replies":[{"pruned":[]}],"result":"committed"}}«» => {"code":"L3","line":12}
"#;

#[test]
fn a_line_that_is_no_record_is_refused(rt: HostRuntime) -> Result<(), Fail> {
    asserts_table(&rt, rt.alloc(), ReadAs::Record, REFUSED)?;
    asserts_at(&rt, rt.alloc(), ReadAs::Record, 12, CUT)
}

/// A record with its keys in another order, and without the optional keys of its batch.
const SHUFFLED: &str = r#"
 {"reply":{"b":[1,null],"a":{}}, "replied":18446744073709551615,"call":0, "batch":{"ops":[{"op":"show_bundle","domain":"b.org"}],"token":null},"invoked":0}  => {"batch":{"after":0,"ops":[{"domain":"b.org","op":"show_bundle"}]},"call":0,"invoked":0,"replied":18446744073709551615,"reply":{"a":{},"b":[1,null]}}
"#;

#[test]
fn a_record_is_read_in_any_order_of_its_keys(rt: HostRuntime) -> Result<(), Fail> {
    asserts_table(&rt, rt.alloc(), ReadAs::Record, SHUFFLED)
}
