//! What is printed for each reply and each refusal?

use crate::tables::{ReadAs, add_reply, asserts_at, asserts_in_a_row, asserts_table, new_book};
use crate::wanted::is_text;
use entry_book::Batch;
use std::alloc::Global;
use std::test::Fail;
use test_batches::batch;

/// The lines of one run, which has every operation, each with the reply line.
const RUN: &str = r#"
{"ops":[{"op":"set_agent","agent":"spiffe://ex.org/spire/agent/n1","selectors":["x:1"]}]} => {"call":1,"place":1,"replies":[{"agent":{"id":"spiffe://ex.org/spire/agent/n1","selectors":["x:1"]}}],"result":"committed"}
{"ops":[{"op":"create","id":"00000000-0000-0000-0000-000000000001","parent":"spiffe://ex.org/spire/agent/n1","identity":"spiffe://ex.org/web","selectors":["unix:uid:1000"]}]} => {"call":2,"place":2,"replies":[{"entry":{"domains":[],"expiry":0,"hint":"","id":"00000000-0000-0000-0000-000000000001","identity":"spiffe://ex.org/web","parent":"spiffe://ex.org/spire/agent/n1","revision":0,"selectors":["unix:uid:1000"]}}],"result":"committed"}
{"ops":[{"op":"authorised","agent":"spiffe://ex.org/spire/agent/n1"}]} => {"call":3,"place":2,"replies":[{"entries":[{"domains":[],"expiry":0,"hint":"","id":"00000000-0000-0000-0000-000000000001","identity":"spiffe://ex.org/web","parent":"spiffe://ex.org/spire/agent/n1","revision":0,"selectors":["unix:uid:1000"]}]}],"result":"answered"}
{"ops":[{"op":"set_bundle","domain":"b.org","text":"{}"}]} => {"call":4,"place":3,"replies":[{"bundle":{"domain":"b.org","sequence":0,"text":"{}"}}],"result":"committed"}
{"ops":[{"op":"update","id":"00000000-0000-0000-0000-000000000001","parent":"spiffe://ex.org/spire/agent/n1","identity":"spiffe://ex.org/web","selectors":["unix:uid:1000"],"hint":"www","domains":["b.org"],"expiry":1700000000,"revision":0}]} => {"call":5,"place":4,"replies":[{"entry":{"domains":["b.org"],"expiry":1700000000,"hint":"www","id":"00000000-0000-0000-0000-000000000001","identity":"spiffe://ex.org/web","parent":"spiffe://ex.org/spire/agent/n1","revision":1,"selectors":["unix:uid:1000"]}}],"result":"committed"}
{"ops":[{"op":"show","id":"00000000-0000-0000-0000-000000000001"}]} => {"call":6,"place":4,"replies":[{"entry":{"domains":["b.org"],"expiry":1700000000,"hint":"www","id":"00000000-0000-0000-0000-000000000001","identity":"spiffe://ex.org/web","parent":"spiffe://ex.org/spire/agent/n1","revision":1,"selectors":["unix:uid:1000"]}}],"result":"answered"}
{"ops":[{"op":"show_agent","agent":"spiffe://ex.org/spire/agent/n1"}]} => {"call":7,"place":4,"replies":[{"agent":{"id":"spiffe://ex.org/spire/agent/n1","selectors":["x:1"]}}],"result":"answered"}
{"ops":[{"op":"show_bundle","domain":"c.org"}]} => {"call":8,"place":4,"replies":[{"bundle":null}],"result":"answered"}
{"ops":[{"op":"children","parent":"spiffe://ex.org/spire/agent/n1"}]} => {"call":9,"place":4,"replies":[{"entries":[{"domains":["b.org"],"expiry":1700000000,"hint":"www","id":"00000000-0000-0000-0000-000000000001","identity":"spiffe://ex.org/web","parent":"spiffe://ex.org/spire/agent/n1","revision":1,"selectors":["unix:uid:1000"]}]}],"result":"answered"}
{"ops":[{"op":"trust","agent":"spiffe://ex.org/spire/agent/n1"}]} => {"call":10,"place":4,"replies":[{"bundles":[{"domain":"b.org","sequence":0,"text":"{}"}]}],"result":"answered"}
{"ops":[{"op":"drop_bundle","domain":"b.org"}]} => {"call":11,"code":"O6","op":0,"place":4,"result":"refused"}
{"ops":[{"op":"drop_bundle","domain":"b.org","mode":"dissociate"}]} => {"call":12,"place":5,"replies":[{"deleted":[],"dissociated":["00000000-0000-0000-0000-000000000001"]}],"result":"committed"}
{"ops":[{"op":"prune","before":1700000001}]} => {"call":13,"place":6,"replies":[{"pruned":["00000000-0000-0000-0000-000000000001"]}],"result":"committed"}
{"ops":[{"op":"create","parent":"spiffe://ex.org/spire/agent/n1","identity":"spiffe://ex.org/api","selectors":["unix:uid:1001"]}]} => {"call":14,"place":7,"replies":[{"entry":{"domains":[],"expiry":0,"hint":"","id":"76b8e0ad-a0f1-4d90-805d-6ae55386bd28","identity":"spiffe://ex.org/api","parent":"spiffe://ex.org/spire/agent/n1","revision":0,"selectors":["unix:uid:1001"]}}],"result":"committed"}
{"ops":[{"op":"create","parent":"spiffe://ex.org/spire/agent/n1","identity":"spiffe://ex.org/api","selectors":["unix:uid:1001"]}]} => {"call":15,"code":"O2","detail":"76b8e0ad-a0f1-4d90-805d-6ae55386bd28","op":0,"place":7,"result":"refused"}
{"ops":[{"op":"delete","id":"76b8e0ad-a0f1-4d90-805d-6ae55386bd28","revision":0}]} => {"call":16,"place":8,"replies":[{"entry":{"domains":[],"expiry":0,"hint":"","id":"76b8e0ad-a0f1-4d90-805d-6ae55386bd28","identity":"spiffe://ex.org/api","parent":"spiffe://ex.org/spire/agent/n1","revision":0,"selectors":["unix:uid:1001"]}}],"result":"committed"}
{"ops":[{"op":"drop_agent","agent":"spiffe://ex.org/spire/agent/n1"}]} => {"call":17,"place":9,"replies":[{"agent":{"id":"spiffe://ex.org/spire/agent/n1","selectors":["x:1"]}}],"result":"committed"}
"#;

/// Lines, each answered on an empty book: escapes, sets in their order, refusals of the book, lifetimes, and the largest numbers.
const ANSWERS: &str = r#"
{"ops":[{"op":"set_agent","agent":"spiffe:\/\/ex.org/spire/agent/\u006e1","selectors":["x:\u0041\"\\\/\b\f\n\r\t\u0001\u001F\u00e9\ud83d\ude00"]}]} => {"call":1,"place":1,"replies":[{"agent":{"id":"spiffe://ex.org/spire/agent/n1","selectors":["x:A\"\\/\b\f\n\r\t\u0001\u001fé😀"]}}],"result":"committed"}
{"ops":[{"op":"set_agent","agent":"spiffe://ex.org/spire/agent/n1","selectors":["u:2","a!:y","u:1","a:x","u:2"]}]} => {"call":1,"place":1,"replies":[{"agent":{"id":"spiffe://ex.org/spire/agent/n1","selectors":["a:x","a!:y","u:1","u:2"]}}],"result":"committed"}
{"ops":[{"op":"set_agent","agent":"spiffe://ex.org/spire/agent/n1","selectors":[]},{"op":"authorised","agent":"spiffe://ex.org/spire/agent/n1"}]} => {"call":1,"place":1,"replies":[{"agent":{"id":"spiffe://ex.org/spire/agent/n1","selectors":[]}},{"entries":[]}],"result":"committed"}
{"ops":[{"op":"authorised","agent":"spiffe://ex.org/spire/agent/n1"}]} => {"call":1,"code":"O7","op":0,"place":0,"result":"refused"}
{"ops":[{"op":"create","id":"00000000-0000-0000-0000-000000000001","parent":"spiffe://ex.org/a","identity":"spiffe://ex.org/b","selectors":["u:1"]},{"op":"create","id":"00000000000000000000000000000001","parent":"spiffe://ex.org/a","identity":"spiffe://ex.org/c","selectors":["u:1"]}]} => {"call":1,"code":"O1","op":1,"place":0,"result":"refused"}
{"ops":[{"op":"create","id":"0000000a-0000-0000-0000-000000000001","parent":"spiffe://ex.org/a","identity":"spiffe://ex.org/b","selectors":["u:1","u:2"]},{"op":"create","id":"00000000000000000000000000000002","parent":"spiffe://ex.org/a","identity":"spiffe://ex.org/b","selectors":["u:2","u:1"]}]} => {"call":1,"code":"O2","detail":"0000000a-0000-0000-0000-000000000001","op":1,"place":0,"result":"refused"}
{"ops":[{"op":"create","id":"00000000-0000-0000-0000-000000000001","parent":"spiffe://ex.org/spire/agent/n1","identity":"spiffe://ex.org/web","selectors":["u:1"],"x509_svid_ttl":3600}]} => {"call":1,"place":1,"replies":[{"entry":{"domains":[],"expiry":0,"hint":"","id":"00000000-0000-0000-0000-000000000001","identity":"spiffe://ex.org/web","parent":"spiffe://ex.org/spire/agent/n1","revision":0,"selectors":["u:1"],"x509_svid_ttl":3600}}],"result":"committed"}
{"ops":[{"op":"create","id":"00000000-0000-0000-0000-000000000001","parent":"spiffe://ex.org/spire/agent/n1","identity":"spiffe://ex.org/web","selectors":["u:1"],"jwt_svid_ttl":300}]} => {"call":1,"place":1,"replies":[{"entry":{"domains":[],"expiry":0,"hint":"","id":"00000000-0000-0000-0000-000000000001","identity":"spiffe://ex.org/web","jwt_svid_ttl":300,"parent":"spiffe://ex.org/spire/agent/n1","revision":0,"selectors":["u:1"]}}],"result":"committed"}
{"ops":[{"op":"create","id":"00000000-0000-0000-0000-000000000001","parent":"spiffe://ex.org/spire/agent/n1","identity":"spiffe://ex.org/web","selectors":["u:1"],"jwt_svid_ttl":300,"x509_svid_ttl":3600}]} => {"call":1,"place":1,"replies":[{"entry":{"domains":[],"expiry":0,"hint":"","id":"00000000-0000-0000-0000-000000000001","identity":"spiffe://ex.org/web","jwt_svid_ttl":300,"parent":"spiffe://ex.org/spire/agent/n1","revision":0,"selectors":["u:1"],"x509_svid_ttl":3600}}],"result":"committed"}
{"ops":[{"op":"create","id":"00000000-0000-0000-0000-000000000001","parent":"spiffe://ex.org/spire/agent/n1","identity":"spiffe://ex.org/web","selectors":["u:1"],"jwt_svid_ttl":0,"x509_svid_ttl":0}]} => {"call":1,"place":1,"replies":[{"entry":{"domains":[],"expiry":0,"hint":"","id":"00000000-0000-0000-0000-000000000001","identity":"spiffe://ex.org/web","parent":"spiffe://ex.org/spire/agent/n1","revision":0,"selectors":["u:1"]}}],"result":"committed"}
{"ops":[{"op":"create","id":"00000000-0000-0000-0000-000000000001","parent":"spiffe://ex.org/a","identity":"spiffe://ex.org/b","selectors":["u:1"],"hint":"a \"hint\"\n","expiry":18446744073709551615,"x509_svid_ttl":18446744073709551615,"jwt_svid_ttl":1}]} => {"call":1,"place":1,"replies":[{"entry":{"domains":[],"expiry":18446744073709551615,"hint":"a \"hint\"\n","id":"00000000-0000-0000-0000-000000000001","identity":"spiffe://ex.org/b","jwt_svid_ttl":1,"parent":"spiffe://ex.org/a","revision":0,"selectors":["u:1"],"x509_svid_ttl":18446744073709551615}}],"result":"committed"}
"#;

/// The lines of one run with tokens, places and earlier books, each with the reply line.
const PLACES: &str = r#"
{"ops":[{"op":"page","size":1,"at":0}],"after":0} => {"call":1,"place":0,"replies":[{"entries":[],"next":null}],"result":"answered"}
{"ops":[{"op":"page","size":1,"at":1}]} => {"call":2,"code":"O8","op":0,"place":0,"result":"refused"}
{"ops":[{"op":"set_agent","agent":"spiffe://ex.org/spire/agent/n1","selectors":["x:1"]}],"after":1,"token":"00000000-0000-0000-0000-000000000009"} => {"call":3,"code":"W1","place":0,"result":"refused"}
{"ops":[{"op":"set_agent","agent":"spiffe://ex.org/spire/agent/n1","selectors":["x:1"]}],"token":"00000000-0000-0000-0000-000000000009"} => {"call":4,"place":1,"replies":[{"agent":{"id":"spiffe://ex.org/spire/agent/n1","selectors":["x:1"]}}],"result":"committed"}
{"ops":[{"op":"prune","before":7}],"after":1} => {"call":5,"place":2,"replies":[{"pruned":[]}],"result":"committed"}
{"ops":[{"agent":"spiffe://ex.org/spire/agent/n1","op":"set_agent","selectors":["x:1","x:1"]}],"after":2,"token":"{00000000-0000-0000-0000-000000000009}"} => {"call":6,"place":1,"replies":[{"agent":{"id":"spiffe://ex.org/spire/agent/n1","selectors":["x:1"]}}],"result":"repeated"}
{"ops":[{"op":"set_agent","agent":"spiffe://ex.org/spire/agent/n1","selectors":["x:2"]}],"token":"00000000-0000-0000-0000-000000000009"} => {"call":7,"code":"O9","place":2,"result":"refused"}
{"ops":[{"op":"page","size":1,"at":2}],"after":2} => {"call":8,"place":2,"replies":[{"entries":[],"next":null}],"result":"answered"}
"#;

#[test]
fn batches_are_answered_by_the_book(rt: HostRuntime) -> Result<(), Fail> {
    asserts_in_a_row(&rt, rt.alloc(), ReadAs::Reply, RUN)?;
    asserts_in_a_row(&rt, rt.alloc(), ReadAs::Reply, PLACES)?;
    asserts_table(&rt, rt.alloc(), ReadAs::Reply, ANSWERS)
}

/// Creates whose ids are forms of one id, and invalid ids.
const FORMS: &str = r#"
{"ops":[{"op":"create","id":"0a0b0c0d-0000-4000-8000-0000000000ff","parent":"spiffe://ex.org/a","identity":"spiffe://ex.org/b","selectors":["u:1"]}]} => {"call":1,"place":1,"replies":[{"entry":{"domains":[],"expiry":0,"hint":"","id":"0a0b0c0d-0000-4000-8000-0000000000ff","identity":"spiffe://ex.org/b","parent":"spiffe://ex.org/a","revision":0,"selectors":["u:1"]}}],"result":"committed"}
{"ops":[{"op":"create","id":"0A0B0C0D-0000-4000-8000-0000000000FF","parent":"spiffe://ex.org/a","identity":"spiffe://ex.org/b","selectors":["u:1"]}]} => {"call":1,"place":1,"replies":[{"entry":{"domains":[],"expiry":0,"hint":"","id":"0a0b0c0d-0000-4000-8000-0000000000ff","identity":"spiffe://ex.org/b","parent":"spiffe://ex.org/a","revision":0,"selectors":["u:1"]}}],"result":"committed"}
{"ops":[{"op":"create","id":"0a0b0c0d0000400080000000000000ff","parent":"spiffe://ex.org/a","identity":"spiffe://ex.org/b","selectors":["u:1"]}]} => {"call":1,"place":1,"replies":[{"entry":{"domains":[],"expiry":0,"hint":"","id":"0a0b0c0d-0000-4000-8000-0000000000ff","identity":"spiffe://ex.org/b","parent":"spiffe://ex.org/a","revision":0,"selectors":["u:1"]}}],"result":"committed"}
{"ops":[{"op":"create","id":"{0a0b0c0d-0000-4000-8000-0000000000fF}","parent":"spiffe://ex.org/a","identity":"spiffe://ex.org/b","selectors":["u:1"]}]} => {"call":1,"place":1,"replies":[{"entry":{"domains":[],"expiry":0,"hint":"","id":"0a0b0c0d-0000-4000-8000-0000000000ff","identity":"spiffe://ex.org/b","parent":"spiffe://ex.org/a","revision":0,"selectors":["u:1"]}}],"result":"committed"}
{"ops":[{"op":"create","id":"urn:uuid:0a0b0c0d-0000-4000-8000-0000000000ff","parent":"spiffe://ex.org/a","identity":"spiffe://ex.org/b","selectors":["u:1"]}]} => {"call":1,"place":1,"replies":[{"entry":{"domains":[],"expiry":0,"hint":"","id":"0a0b0c0d-0000-4000-8000-0000000000ff","identity":"spiffe://ex.org/b","parent":"spiffe://ex.org/a","revision":0,"selectors":["u:1"]}}],"result":"committed"}
{"ops":[{"op":"create","id":"URN:uuid:0a0b0c0d-0000-4000-8000-0000000000ff","parent":"spiffe://ex.org/a","identity":"spiffe://ex.org/b","selectors":["u:1"]}]} => {"call":1,"place":1,"replies":[{"entry":{"domains":[],"expiry":0,"hint":"","id":"0a0b0c0d-0000-4000-8000-0000000000ff","identity":"spiffe://ex.org/b","parent":"spiffe://ex.org/a","revision":0,"selectors":["u:1"]}}],"result":"committed"}
{"ops":[{"op":"create","id":"","parent":"spiffe://ex.org/a","identity":"spiffe://ex.org/b","selectors":["u:1"]}]} => {"code":"U1","field":"id","line":1,"op":0}
{"ops":[{"op":"create","id":"0a0b0c0d-0000-4000-8000-0000000000f","parent":"spiffe://ex.org/a","identity":"spiffe://ex.org/b","selectors":["u:1"]}]} => {"code":"U1","field":"id","line":1,"op":0}
{"ops":[{"op":"create","id":"0a0b0c0d-0000-4000-8000-0000000000fg","parent":"spiffe://ex.org/a","identity":"spiffe://ex.org/b","selectors":["u:1"]}]} => {"code":"U1","field":"id","line":1,"op":0}
"#;

#[test]
fn an_id_is_read_in_each_of_its_forms(rt: HostRuntime) -> Result<(), Fail> {
    asserts_table(&rt, rt.alloc(), ReadAs::Reply, FORMS)
}

/// Batches of 64 and of 65 operations, each the ninth line.
const COUNTS: &str = r#"
{"ops":[«63*{"op":"authorised","agent":"spiffe://ex.org/spire/agent/n1"},»{"op":"authorised","agent":"spiffe://ex.org/spire/agent/n1"}]} => {"call":1,"code":"O7","op":0,"place":0,"result":"refused"}
{"ops":[«64*{"op":"authorised","agent":"spiffe://ex.org/spire/agent/n1"},»{"op":"authorised","agent":"spiffe://ex.org/spire/agent/n1"}]} => {"code":"B2","line":9}
{"ops":[«64*{"op":"authorised","agent":"spiffe://ex.org/spire/agent/n1"},»{"op":"mint"}]} => {"code":"L5","field":"op","line":9,"op":64}
{"ops":[«64*{"op":"authorised","agent":"spiffe://ex.org/spire/agent/n1"},»{"op":"authorised","agent":"spiffe://ex.org/n1/"}]} => {"code":"I6","field":"agent","line":9,"op":64}
"#;

#[test]
fn a_batch_has_at_most_64_operations(rt: HostRuntime) -> Result<(), Fail> {
    asserts_at(&rt, rt.alloc(), ReadAs::Reply, 9, COUNTS)
}

/// A selector of 512 bytes, written as escapes, and one of 514.
const ESCAPES: &str = r#"
{"ops":[{"op":"set_agent","agent":"spiffe://ex.org/spire/agent/n1","selectors":["x:«255*\u00e9»"]}]} => {"call":1,"place":1,"replies":[{"agent":{"id":"spiffe://ex.org/spire/agent/n1","selectors":["x:«255*é»"]}}],"result":"committed"}
{"ops":[{"op":"set_agent","agent":"spiffe://ex.org/spire/agent/n1","selectors":["x:«256*\u00e9»"]}]} => {"code":"S1","field":"selectors","line":1,"op":0}
"#;

#[test]
fn the_length_of_a_text_is_that_of_its_bytes_after_escapes(rt: HostRuntime) -> Result<(), Fail> {
    asserts_table(&rt, rt.alloc(), ReadAs::Reply, ESCAPES)
}

/// Appends the reply to a batch, on an empty book, as that to the call with the largest number.
fn add_last_reply(alloc: Global, text: &mut String, batch: &Batch) -> Result<(), Fail> {
    let mut book = new_book(alloc)?;
    add_reply(alloc, text, &mut book, batch, u64::MAX)
}

/// The latest expiry; the lifetimes are 60 and 5 times as large, reduced to 64 bits.
const CREATE: &str = "create 1 /a /b u:1 18446744073709551615";

const CREATED: &str =
    r#"{"call":18446744073709551615,"place":1,"replies":[{"entry":{"domains":[],"expiry":18446744073709551615,"hint":"/b","id":"00000000-0000-0000-0000-000000000001","identity":"spiffe://ex.org/b","jwt_svid_ttl":18446744073709551611,"parent":"spiffe://ex.org/a","revision":0,"selectors":["u:1"],"x509_svid_ttl":18446744073709551556}}],"result":"committed"}"#;

#[test]
fn a_reply_made_without_a_line_is_printed(rt: HostRuntime) -> Result<(), Fail> {
    let mut text = String::new(rt.alloc());
    add_last_reply(rt.alloc(), &mut text, &batch(rt.alloc(), CREATE)?)?;
    is_text(&rt, text.as_str(), CREATED, "a reply");
    Ok(())
}

const WITHOUT_BUNDLE: &str = r#"
refused 7 3 no-bundle 2 b.org => {"call":7,"code":"O5","detail":"b.org","op":2,"place":3,"result":"refused"}
"#;

#[test]
fn a_refusal_made_without_a_line_is_printed(rt: HostRuntime) -> Result<(), Fail> {
    asserts_table(&rt, rt.alloc(), ReadAs::Value, WITHOUT_BUNDLE)
}

const DOMAINS_AND_MEMORY: &str = r#"
domains b.org a.org b.org => ["a.org","b.org"]
no-memory 12 => {"code":"L6","line":12}
"#;

#[test]
fn domains_and_out_of_memory_are_printed(rt: HostRuntime) -> Result<(), Fail> {
    asserts_table(&rt, rt.alloc(), ReadAs::Value, DOMAINS_AND_MEMORY)
}

const OF_THE_WHOLE_BATCH: &str = r#"
refused 3 281474976710656 full history => {"call":3,"code":"W2","place":281474976710656,"result":"refused"}
refused 3 70000 full tokens => {"call":3,"code":"W6","place":70000,"result":"refused"}
refused 3 5 not-yet => {"call":3,"code":"W1","place":5,"result":"refused"}
refused 3 5 token-reused => {"call":3,"code":"O9","place":5,"result":"refused"}
"#;

#[test]
fn a_refusal_of_the_whole_batch_names_no_operation(rt: HostRuntime) -> Result<(), Fail> {
    asserts_table(&rt, rt.alloc(), ReadAs::Value, OF_THE_WHOLE_BATCH)
}

const VERSION_GONE: &str = r#"
refused 3 70 gone 0 => {"call":3,"code":"O8","op":0,"place":70,"result":"refused"}
"#;

#[test]
fn a_book_that_is_gone_is_reported_for_its_page(rt: HostRuntime) -> Result<(), Fail> {
    asserts_table(&rt, rt.alloc(), ReadAs::Value, VERSION_GONE)
}
