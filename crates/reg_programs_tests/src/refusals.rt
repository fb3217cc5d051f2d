//! Lines that are refused, and their effects: they take no call number, and the book stays the same.

use crate::engine::{FIRST_SEED, answers, are_answered, are_answered_with, is_written};
use std::alloc::Global;
use std::process::Abort;
use std::sync::Wait;
use std::test::Fail;

/// A number in a reply is that of its line, or of its call.
const REFUSED: &str = r#"
operations and keys that aren't there
{"ops":[{"op":"mint"}]}
{"code":"L5","field":"op","line":1,"op":0}
{"ops":[{"op":"pages","size":1}]}
{"code":"L5","field":"op","line":2,"op":0}
{"at":0,"ops":[{"op":"show","id":"00000000-0000-0000-0000-000000000001"}]}
{"code":"L5","field":"at","line":3}
{"ops":[{"op":"show","id":"00000000-0000-0000-0000-000000000001"}],"seat":1}
{"code":"L5","field":"seat","line":4}
{"ops":[{"op":"create","id":"00000000-0000-0000-0000-000000000001","parent":"spiffe://ex.org/spire/agent/n1","identity":"spiffe://ex.org/web","selectors":["u:1"],"downstream":true}]}
{"code":"L5","field":"downstream","line":5,"op":0}
tries is a whole number from 1 to 16
{"ops":[{"op":"show","id":"00000000-0000-0000-0000-000000000001"}],"tries":0}
{"code":"L5","field":"tries","line":6}
{"ops":[{"op":"show","id":"00000000-0000-0000-0000-000000000001"}],"tries":17}
{"code":"L5","field":"tries","line":7}
{"ops":[],"tries":"1"}
{"code":"L5","field":"tries","line":8}
{"ops":[{"op":"show","id":"00000000-0000-0000-0000-000000000001"}],"tries":16}
{"call":1,"place":0,"replies":[{"entry":null}],"result":"answered"}
{"ops":[{"op":"show","id":"00000000-0000-0000-0000-000000000001"}],"tries":null}
{"call":2,"place":0,"replies":[{"entry":null}],"result":"answered"}
a key of the wrong kind, and one that is none of its stated values
{"ops":[{"op":"drop_bundle","domain":"b.org","mode":"keep"}]}
{"code":"L5","field":"mode","line":11,"op":0}
{"ops":[{"op":"prune","before":1e2}]}
{"code":"L5","field":"before","line":12,"op":0}
{"ops":[{"op":"show","id":null}]}
{"code":"L5","field":"id","line":13,"op":0}
{"ops":[{"op":"set_bundle","domain":"b.org"}]}
{"code":"L5","field":"text","line":14,"op":0}
{"ops":[{"op":"set_bundle","domain":"B.org","text":7}]}
{"code":"I5","field":"domain","line":15,"op":0}
{"ops":[{"op":"create","id":"00000000-0000-0000-0000-000000000001","parent":"spiffe://ex.org/spire/agent/n1","identity":"spiffe://ex.org/web","selectors":["u:1"],"domains":["b.org","b/"]}]}
{"code":"I5","field":"domains","line":16,"op":0}
no operation, and none that is an object
{"ops":[]}
{"code":"B1","line":17}
{"ops":[7]}
{"code":"L5","field":"ops","line":18,"op":0}
operations that can stand in no batch of the trust domain
{"ops":[{"op":"children","parent":"spiffe://b.org/x"}]}
{"code":"B3","line":19,"op":0}
{"ops":[{"op":"show","id":"00000000-0000-0000-0000-000000000001"},{"op":"children","parent":"spiffe://ex.org"}]}
{"code":"B4","line":20,"op":1}
{"ops":[{"op":"create","id":"00000000-0000-0000-0000-000000000001","parent":"spiffe://ex.org/spire/agent/n1","identity":"spiffe://ex.org/spire/server","selectors":["u:1"]}]}
{"code":"B5","line":21,"op":0}
{"ops":[{"op":"create","id":"00000000-0000-0000-0000-000000000001","parent":"spiffe://ex.org/spire/agent/n1","identity":"spiffe://ex.org/web","selectors":["u:0","u:1","u:2","u:3","u:4","u:5","u:6","u:7","u:8","u:9","u:10","u:11","u:12","u:13","u:14","u:15","u:16"]}]}
{"code":"B6","line":22,"op":0}
{"ops":[{"op":"create","id":"00000000-0000-0000-0000-000000000001","parent":"spiffe://ex.org/spire/agent/n1","identity":"spiffe://ex.org/web","selectors":["u:1"],"domains":["d0","d1","d2","d3","d4","d5","d6","d7","d8"]}]}
{"code":"B7","line":23,"op":0}
{"ops":[{"op":"drop_agent","agent":"spiffe://ex.org/n1"}]}
{"code":"B10","line":24,"op":0}
{"ops":[{"op":"set_bundle","domain":"ex.org","text":""}]}
{"code":"B11","line":25,"op":0}
the least code first within an operation, then operation by operation
{"ops":[{"op":"create","id":"00000000-0000-0000-0000-000000000001","parent":"spiffe://b.org","identity":"spiffe://ex.org/web","selectors":[]}]}
{"code":"B3","line":26,"op":0}
{"ops":[{"op":"set_agent","agent":"spiffe://ex.org/n1","selectors":["x:0","x:1","x:2","x:3","x:4","x:5","x:6","x:7","x:8","x:9","x:10","x:11","x:12","x:13","x:14","x:15","x:16","x:17","x:18","x:19","x:20","x:21","x:22","x:23","x:24","x:25","x:26","x:27","x:28","x:29","x:30","x:31","x:32","x:33","x:34","x:35","x:36","x:37","x:38","x:39","x:40","x:41","x:42","x:43","x:44","x:45","x:46","x:47","x:48","x:49","x:50","x:51","x:52","x:53","x:54","x:55","x:56","x:57","x:58","x:59","x:60","x:61","x:62","x:63","x:64"]},{"op":"drop_agent","agent":"spiffe://b.org"}]}
{"code":"B6","line":27,"op":0}
of the keys of an operation that aren't known the first one in the order of their bytes
{"ops":[{"op":"show","id":"00000000-0000-0000-0000-000000000001"},{"op":"show","𐀀":1,"～":1,"id":"00000000-0000-0000-0000-000000000001"}]}
{"code":"L5","field":"～","line":28,"op":1}
"#;

#[test]
fn refused_lines_take_no_call_number(rt: HostRuntime) -> Result<(), Fail> {
    are_answered(&rt, rt.alloc(), REFUSED)
}

/// Valid and invalid selectors.
const SELECTORS: &str = r#"
{"ops":[{"agent":"spiffe://ex.org/spire/agent/n1","op":"set_agent","selectors":["unix:uid:1000"]}]}
{"call":1,"place":1,"replies":[{"agent":{"id":"spiffe://ex.org/spire/agent/n1","selectors":["unix:uid:1000"]}}],"result":"committed"}
{"ops":[{"agent":"spiffe://ex.org/spire/agent/n1","op":"set_agent","selectors":["unix:"]}]}
{"code":"S4","field":"selectors","line":2,"op":0}
{"ops":[{"agent":"spiffe://ex.org/spire/agent/n1","op":"set_agent","selectors":[":x"]}]}
{"code":"S3","field":"selectors","line":3,"op":0}
{"ops":[{"agent":"spiffe://ex.org/spire/agent/n1","op":"set_agent","selectors":[":"]}]}
{"code":"S3","field":"selectors","line":4,"op":0}
{"ops":[{"agent":"spiffe://ex.org/spire/agent/n1","op":"set_agent","selectors":["unix"]}]}
{"code":"S2","field":"selectors","line":5,"op":0}
{"ops":[{"agent":"spiffe://ex.org/spire/agent/n1","op":"set_agent","selectors":[""]}]}
{"code":"S2","field":"selectors","line":6,"op":0}
{"ops":[{"agent":"spiffe://ex.org/spire/agent/n1","op":"set_agent","selectors":["u:2","u:1","u:2"]}]}
{"call":2,"place":2,"replies":[{"agent":{"id":"spiffe://ex.org/spire/agent/n1","selectors":["u:1","u:2"]}}],"result":"committed"}
"#;

#[test]
fn selectors_and_texts_that_are_none(rt: HostRuntime) -> Result<(), Fail> {
    are_answered(&rt, rt.alloc(), SELECTORS)
}

/// A refusal names its key and its operation.
const SEGMENT: &str = r#"
{"ops":[{"id":"00000000-0000-0000-0000-000000000001","op":"show"}]}
{"call":1,"place":0,"replies":[{"entry":null}],"result":"answered"}
{"ops":[{"id":"00000000-0000-0000-0000-000000000001","op":"show"}]}
{"call":2,"place":0,"replies":[{"entry":null}],"result":"answered"}
{"ops":[{"id":"00000000-0000-0000-0000-000000000001","op":"show"}]}
{"call":3,"place":0,"replies":[{"entry":null}],"result":"answered"}
{"ops":[{"id":"00000000-0000-0000-0000-000000000001","op":"show"},{"id":"00000000-0000-0000-0000-000000000001","op":"show"},{"id":"00000000-0000-0000-0000-000000000001","identity":"spiffe://ex.org/web","op":"create","parent":"spiffe://ex.org/a//b","selectors":["u:1"]}]}
{"code":"I6","field":"parent","line":4,"op":2}
"#;

#[test]
fn empty_segment_in_the_third_operation(rt: HostRuntime) -> Result<(), Fail> {
    are_answered(&rt, rt.alloc(), SEGMENT)
}

/// Valid and invalid SPIFFE IDs of the trust domain `a`.
const IDS: &str = r#"
{"ops":[{"op":"children","parent":"spiffe://a"}]}
{"code":"B4","line":1,"op":0}
{"ops":[{"op":"children","parent":"spiffe://a/..."}]}
{"call":1,"place":0,"replies":[{"entries":[]}],"result":"answered"}
{"ops":[{"op":"children","parent":"spiffe://a/"}]}
{"code":"I6","field":"parent","line":3,"op":0}
{"ops":[{"op":"children","parent":"spiffe:///x"}]}
{"code":"I3","field":"parent","line":4,"op":0}
{"ops":[{"op":"children","parent":"spiffe://a:80/x"}]}
{"code":"I5","field":"parent","line":5,"op":0}
{"ops":[{"op":"children","parent":"spiffe://a?x"}]}
{"code":"I5","field":"parent","line":6,"op":0}
{"ops":[{"op":"children","parent":"spiffe://A/x"}]}
{"code":"I5","field":"parent","line":7,"op":0}
{"ops":[{"op":"children","parent":"SPIFFE://a/x"}]}
{"code":"I2","field":"parent","line":8,"op":0}
{"ops":[{"op":"children","parent":"spiffe://a/.."}]}
{"code":"I7","field":"parent","line":9,"op":0}
{"ops":[{"op":"children","parent":"spiffe://a/x?y"}]}
{"code":"I8","field":"parent","line":10,"op":0}
"#;

#[test]
fn ids_and_texts_that_are_none(rt: HostRuntime) -> Result<(), Fail> {
    are_answered_with(&rt, rt.alloc(), ("a", FIRST_SEED), IDS)
}

/// The last line has no LF.
const EMPTY_LONG_GOOD_AND_CUT: &str = r#"
«0*»
{"code":"L2","line":1}
«1048577* »
{"code":"L1","line":2}
{"ops":[{"id":"00000000-0000-0000-0000-000000000001","op":"show"}]}
{"call":1,"place":0,"replies":[{"entry":null}],"result":"answered"}
{"ops":«»
{"code":"L3","line":4}
"#;

#[test]
fn empty_long_good_and_cut_lines(rt: HostRuntime) -> Result<(), Fail> {
    are_answered(&rt, rt.alloc(), EMPTY_LONG_GOOD_AND_CUT)
}

/// The last line has no LF.
const NO_TEXTS: &str = r#"
{"ops":"«c3»
{"code":"L2","line":1}
{"ops":[{"id":"00000000-0000-0000-0000-000000000001","op":"show"}]}
{"call":1,"place":0,"replies":[{"entry":null}],"result":"answered"}
{"ops":"«c3»«»
{"code":"L3","line":3}
"#;

#[test]
fn bytes_that_are_no_text(rt: HostRuntime) -> Result<(), Fail> {
    are_answered(&rt, rt.alloc(), NO_TEXTS)
}

/// IDs of 2,048 bytes and of 2,049, and trust domains of 255 and of 256.
const LIMITS: &str = r#"
{"ops":[{"op":"children","parent":"spiffe://a/«2037*x»"}]}
{"call":1,"place":0,"replies":[{"entries":[]}],"result":"answered"}
{"ops":[{"op":"children","parent":"spiffe://a/«2038*x»"}]}
{"code":"I1","field":"parent","line":2,"op":0}
{"ops":[{"op":"children","parent":"spiffe://«255*a»"}]}
{"code":"B3","line":3,"op":0}
{"ops":[{"op":"children","parent":"spiffe://«256*a»"}]}
{"code":"I4","field":"parent","line":4,"op":0}
"#;

#[test]
fn ids_at_their_limits(rt: HostRuntime) -> Result<(), Fail> {
    are_answered_with(&rt, rt.alloc(), ("a", FIRST_SEED), LIMITS)
}

/// Nested lists, and lines up to the limit and past it.
const DEEP_AND_LONG: &str = r#"
«128*[»«128*]»
{"code":"L2","line":1}
«127*[»«127*]»
{"code":"L4","line":2}
{"ops":[{"id":"00000000-0000-0000-0000-000000000001","op":"show"}]}«1048509* »
{"call":1,"place":0,"replies":[{"entry":null}],"result":"answered"}
{"ops":[{"id":"00000000-0000-0000-0000-000000000001","op":"show"}]}«1048510* »
{"code":"L1","line":4}
"#;

/// Last lines without an LF: of the maximum length, and longer.
const LONG_AND_CUT: &str = r#"
{"ops":[{"id":"00000000-0000-0000-0000-000000000001","op":"show"}]}«1048509* »«»
{"code":"L3","line":1}
"#;

const LONGER_AND_CUT: &str = r#"
{"ops":[{"id":"00000000-0000-0000-0000-000000000001","op":"show"}]}«1048510* »«»
{"code":"L1","line":1}
"#;

#[test]
fn lists_too_deep_and_lines_too_long(rt: HostRuntime) -> Result<(), Fail> {
    are_answered(&rt, rt.alloc(), "")?;
    are_answered(&rt, rt.alloc(), DEEP_AND_LONG)?;
    are_answered(&rt, rt.alloc(), LONG_AND_CUT)?;
    are_answered(&rt, rt.alloc(), LONGER_AND_CUT)
}

/// Asserts that a prefix of a line is refused as truncated.
fn is_truncated(rt: &(impl Abort + Wait), alloc: Global, front: &[u8]) -> Result<(), Fail> {
    let got = answers(rt, alloc, front)?;
    is_written(rt, &got, "{\"code\":\"L3\",\"line\":1}\n")
}

const SHOW: &str = r#"{"ops":[{"id":"00000000-0000-0000-0000-000000000001","op":"show"}]}"#;

#[test]
fn each_beginning_of_a_line_is_refused_as_truncated(rt: HostRuntime) -> Result<(), Fail> {
    let bytes = SHOW.as_bytes();
    for len in 1..bytes.len().saturating_add(1) {
        is_truncated(&rt, rt.alloc(), bytes.split_at(len.min(bytes.len())).0)?;
    }
    Ok(())
}
