//! Which bytes are a line, and which lines are a valid JSON text?

use crate::tables::{ReadAs, asserts_at, asserts_line, asserts_table};
use std::test::Fail;

/// A batch without operations, ten bytes, and spaces up to the limit and past it; each is the second line.
const LENGTHS: &str = r#"
{"ops":[]}«1048566* » => {"code":"B1","line":2}
{"ops":[]}«1048567* » => {"code":"L1","line":2}
{"ops":[]}«1048565* »«0d» => {"code":"B1","line":2}
{"ops":[]}«1048566* »«0d» => {"code":"L1","line":2}
{"ops":[]}«1048566* »«» => {"code":"L3","line":2}
{"ops":[]}«1048567* »«» => {"code":"L1","line":2}
"#;

#[test]
fn the_limit_counts_the_bytes_before_the_lf(rt: HostRuntime) -> Result<(), Fail> {
    asserts_at(&rt, rt.alloc(), ReadAs::Reply, 2, LENGTHS)
}

const FIRST: &str =
    r#"{"ops":[{"op":"set_agent","agent":"spiffe://ex.org/spire/agent/n1","selectors":["x:1"]}]}"#;

const TRUNCATED: &str = r#"{"code":"L3","line":18446744073709551615}"#;

const WHOLE: &str = r#"
{"ops":[{"op":"set_agent","agent":"spiffe://ex.org/spire/agent/n1","selectors":["x:1"]}]} => {"call":1,"place":1,"replies":[{"agent":{"id":"spiffe://ex.org/spire/agent/n1","selectors":["x:1"]}}],"result":"committed"}
"#;

#[test]
fn each_beginning_of_a_line_is_truncated(rt: HostRuntime) -> Result<(), Fail> {
    let bytes = FIRST.as_bytes();
    for len in 1..bytes.len() + 1 {
        let front = bytes.split_at(len).0;
        asserts_line(
            &rt,
            rt.alloc(),
            ReadAs::Reply,
            u64::MAX,
            front,
            (FIRST, TRUNCATED),
        )?;
    }
    asserts_table(&rt, rt.alloc(), ReadAs::Reply, WHOLE)
}

/// Lines that aren't valid UTF-8 or JSON, and nested lists up to the limit and past it.
const TEXTS: &str = r#"
«ff» => {"code":"L2","line":1}
{"«c3»":1} => {"code":"L2","line":1}
{"ops":"«ed»«a0»«80»"} => {"code":"L2","line":1}
"«c0»«80»" => {"code":"L2","line":1}
«ef»«bb»«bf»{} => {"code":"L2","line":1}
«00» => {"code":"L2","line":1}
«20»«09»«0d» => {"code":"L2","line":1}
«127*[»«127*]» => {"code":"L4","line":1}
«128*[»«128*]» => {"code":"L2","line":1}
{"ops":[«125*[»«125*]»]} => {"code":"L5","field":"ops","line":1,"op":0}
{"ops":[«126*[»«126*]»]} => {"code":"L2","line":1}
"#;

#[test]
fn lines_are_utf8_and_not_too_deep(rt: HostRuntime) -> Result<(), Fail> {
    asserts_table(&rt, rt.alloc(), ReadAs::Reply, TEXTS)
}

/// A last part without LF is truncated, whatever it contains; a line of the same bytes isn't a JSON text.
const PARTS: &str = r#"
«ff»«» => {"code":"L3","line":1}
«ff» => {"code":"L2","line":1}
{"ops":"«c3»«» => {"code":"L3","line":1}
{"ops":"«c3» => {"code":"L2","line":1}
{"ops":[]}«f0»«9f»«» => {"code":"L3","line":1}
{"ops":[]}«f0»«9f» => {"code":"L2","line":1}
"#;

#[test]
fn a_last_part_that_is_no_text_is_truncated(rt: HostRuntime) -> Result<(), Fail> {
    asserts_table(&rt, rt.alloc(), ReadAs::Reply, PARTS)
}
