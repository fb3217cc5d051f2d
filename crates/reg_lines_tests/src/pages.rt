//! Which keys does a page have, what do they mean, and what is printed for its reply?

use crate::tables::{ReadAs, asserts_table};
use std::test::Fail;

/// Lines of pages, and the request of each.
const PAGES: &str = r#"
# the optional keys, and their defaults; null is as if the key were absent
{"ops":[{"op":"page","size":1}]} => 1; page 1 - - - - -
{"ops":[{"op":"page","size":500,"from":null,"parent":null,"identity":null,"domain":null,"selectors":null,"match":null}]} => 1; page 500 - - - - -
{"ops":[{"op":"page","size":2,"from":"00000000-0000-0000-0000-000000000002","parent":"spiffe://ex.org/a","identity":"spiffe://ex.org/b","domain":"b.org","selectors":["u:2","u:1","u:2"],"match":"exact"}]} => 1; page 2 "00000000-0000-0000-0000-000000000002" "spiffe://ex.org/a" "spiffe://ex.org/b" "b.org" ["u:1","u:2"] Exact
{"ops":[{"op":"page","match":"any","selectors":["u:1"],"size":2}]} => 1; page 2 - - - - ["u:1"] Any
{"ops":[{"op":"page","size":2,"selectors":["u:1"],"match":"subset"}]} => 1; page 2 - - - - ["u:1"] Subset
{"ops":[{"op":"page","size":2,"selectors":["u:1"],"match":"superset"}]} => 1; page 2 - - - - ["u:1"] Superset
{"ops":[{"op":"page","size":2,"selectors":["u:1"]}]} => 1; page 2 - - - - ["u:1"] Superset
{"ops":[{"op":"page","size":2,"selectors":["u:1"],"match":null}]} => 1; page 2 - - - - ["u:1"] Superset
{"ops":[{"op":"page","size":2,"from":"{00000000-0000-0000-0000-000000000002}"}]} => 1; page 2 "00000000-0000-0000-0000-000000000002" - - - -
{"ops":[{"op":"page","size":100,"from":"00000000-0000-0000-0000-000000000001","parent":"spiffe://ex.org/spire/agent/n1","identity":"spiffe://ex.org/web","domain":"b.org","selectors":["unix:uid:1000"],"match":"superset"}]} => 1; page 100 "00000000-0000-0000-0000-000000000001" "spiffe://ex.org/spire/agent/n1" "spiffe://ex.org/web" "b.org" ["unix:uid:1000"] Superset
# the number of the book that it asks for
{"ops":[{"op":"page","size":2,"at":1}]} => 1; page 2 at 1 - - - - -
{"ops":[{"op":"page","size":2,"at":0}]} => 1; page 2 at 0 - - - - -
{"ops":[{"op":"page","at":18446744073709551615,"size":2}]} => 1; page 2 at 18446744073709551615 - - - - -
{"ops":[{"op":"page","size":2,"at":null}]} => 1; page 2 - - - - -
{"ops":[{"op":"page","size":2,"at":1,"from":"00000000-0000-0000-0000-000000000002","parent":"spiffe://ex.org/a","selectors":["u:1"],"match":"any"}]} => 1; page 2 at 1 "00000000-0000-0000-0000-000000000002" "spiffe://ex.org/a" - - ["u:1"] Any
# the keys in their order
{"ops":[{"op":"page","size":"1","at":-1}]} => {"code":"L5","field":"size","line":1,"op":0}
{"ops":[{"op":"page","at":1}]} => {"code":"L5","field":"size","line":1,"op":0}
{"ops":[{"op":"page","size":1,"at":-1,"from":7}]} => {"code":"L5","field":"at","line":1,"op":0}
{"ops":[{"op":"page","size":1,"at":1.0,"from":7}]} => {"code":"L5","field":"at","line":1,"op":0}
{"ops":[{"op":"page","size":1,"at":"1","from":7}]} => {"code":"L5","field":"at","line":1,"op":0}
{"ops":[{"op":"page","size":1,"at":18446744073709551616,"from":7}]} => {"code":"L5","field":"at","line":1,"op":0}
{"ops":[{"op":"page","size":1,"at":[],"zz":1}]} => {"code":"L5","field":"at","line":1,"op":0}
{"ops":[{"op":"page","size":1,"at":1,"from":7,"parent":7}]} => {"code":"L5","field":"from","line":1,"op":0}
{"ops":[{"op":"page","from":7,"parent":7}]} => {"code":"L5","field":"size","line":1,"op":0}
{"ops":[{"op":"page","size":null,"from":7}]} => {"code":"L5","field":"size","line":1,"op":0}
{"ops":[{"op":"page","size":-1,"from":7}]} => {"code":"L5","field":"size","line":1,"op":0}
{"ops":[{"op":"page","size":1.0,"from":7}]} => {"code":"L5","field":"size","line":1,"op":0}
{"ops":[{"op":"page","size":"1","from":7}]} => {"code":"L5","field":"size","line":1,"op":0}
{"ops":[{"op":"page","size":1,"from":7,"parent":7}]} => {"code":"L5","field":"from","line":1,"op":0}
{"ops":[{"op":"page","size":1,"from":"","parent":7}]} => {"code":"U1","field":"from","line":1,"op":0}
{"ops":[{"op":"page","size":1,"parent":7,"identity":7}]} => {"code":"L5","field":"parent","line":1,"op":0}
{"ops":[{"op":"page","size":1,"parent":"spiffe://ex.org/","identity":7}]} => {"code":"I6","field":"parent","line":1,"op":0}
{"ops":[{"op":"page","size":1,"identity":7,"domain":7}]} => {"code":"L5","field":"identity","line":1,"op":0}
{"ops":[{"op":"page","size":1,"identity":"http://ex.org","domain":7}]} => {"code":"I2","field":"identity","line":1,"op":0}
{"ops":[{"op":"page","size":1,"domain":7,"selectors":7}]} => {"code":"L5","field":"domain","line":1,"op":0}
{"ops":[{"op":"page","size":1,"domain":"B.org","selectors":7}]} => {"code":"I5","field":"domain","line":1,"op":0}
{"ops":[{"op":"page","size":1,"selectors":7,"match":7}]} => {"code":"L5","field":"selectors","line":1,"op":0}
{"ops":[{"op":"page","size":1,"selectors":[7],"match":7}]} => {"code":"L5","field":"selectors","line":1,"op":0}
{"ops":[{"op":"page","size":1,"selectors":["unix"],"match":7}]} => {"code":"S2","field":"selectors","line":1,"op":0}
{"ops":[{"op":"page","size":1,"selectors":["u:1"],"match":7,"zz":1}]} => {"code":"L5","field":"match","line":1,"op":0}
{"ops":[{"op":"page","size":1,"selectors":["u:1"],"match":"Exact","zz":1}]} => {"code":"L5","field":"match","line":1,"op":0}
{"ops":[{"op":"page","size":1,"selectors":["u:1"],"match":"","zz":1}]} => {"code":"L5","field":"match","line":1,"op":0}
{"ops":[{"op":"page","size":1,"zz":1,"agent":1}]} => {"code":"L5","field":"agent","line":1,"op":0}
{"ops":[{"op":"page","size":1,"domains":["b.org"]}]} => {"code":"L5","field":"domains","line":1,"op":0}
# a way to match without selectors
{"ops":[{"op":"page","size":1,"match":"any"}]} => {"code":"L5","field":"match","line":1,"op":0}
{"ops":[{"op":"page","size":1,"selectors":null,"match":"any","zz":1}]} => {"code":"L5","field":"match","line":1,"op":0}
{"ops":[{"op":"page","size":1,"match":7}]} => {"code":"L5","field":"match","line":1,"op":0}
# a page of an earlier book stands alone; what is at fault with an operation comes first
{"ops":[{"op":"page","size":1,"at":0},{"op":"show","id":"00000000-0000-0000-0000-000000000001"}]} => {"code":"B13","line":1,"op":0}
{"ops":[{"op":"show","id":"00000000-0000-0000-0000-000000000001"},{"op":"page","size":1},{"op":"page","size":1,"at":3},{"op":"page","size":1,"at":3}]} => {"code":"B13","line":1,"op":2}
{"ops":[{"op":"page","size":1,"at":0},{"op":"page","size":0}]} => {"code":"B9","line":1,"op":1}
{"ops":[{"op":"page","size":1,"at":0},{"op":"prune","before":1}]} => {"code":"B13","line":1,"op":0}
{"ops":[{"op":"page","size":1},{"op":"page","size":1,"at":null}]} => 1; page 1 - - - - -; page 1 - - - - -
# pages that no batch can have
{"ops":[{"op":"page","size":0}]} => {"code":"B9","line":1,"op":0}
{"ops":[{"op":"page","size":501}]} => {"code":"B9","line":1,"op":0}
{"ops":[{"op":"page","size":18446744073709551615}]} => {"code":"B9","line":1,"op":0}
{"ops":[{"op":"page","size":1,"selectors":[]}]} => {"code":"B6","line":1,"op":0}
{"ops":[{"op":"page","size":0,"parent":"spiffe://b.org/a"}]} => {"code":"B3","line":1,"op":0}
{"ops":[{"op":"page","size":0,"identity":"spiffe://ex.org"}]} => {"code":"B4","line":1,"op":0}
"#;

#[test]
fn pages_are_read_key_by_key(rt: HostRuntime) -> Result<(), Fail> {
    asserts_table(&rt, rt.alloc(), ReadAs::Request, PAGES)
}

/// Pages of no entries, and of one entry each, on an empty book.
const PRINTED: &str = r#"
{"ops":[{"op":"page","size":1}]} => {"call":1,"place":0,"replies":[{"entries":[],"next":null}],"result":"answered"}
{"ops":[{"op":"create","id":"00000000-0000-0000-0000-000000000001","parent":"spiffe://ex.org/a","identity":"spiffe://ex.org/b","selectors":["u:1"]},{"op":"create","id":"00000000-0000-0000-0000-000000000002","parent":"spiffe://ex.org/a","identity":"spiffe://ex.org/c","selectors":["u:1"]},{"op":"page","size":1},{"op":"page","size":1,"from":"00000000-0000-0000-0000-000000000001"}]} => {"call":1,"place":1,"replies":[{"entry":{"domains":[],"expiry":0,"hint":"","id":"00000000-0000-0000-0000-000000000001","identity":"spiffe://ex.org/b","parent":"spiffe://ex.org/a","revision":0,"selectors":["u:1"]}},{"entry":{"domains":[],"expiry":0,"hint":"","id":"00000000-0000-0000-0000-000000000002","identity":"spiffe://ex.org/c","parent":"spiffe://ex.org/a","revision":0,"selectors":["u:1"]}},{"entries":[{"domains":[],"expiry":0,"hint":"","id":"00000000-0000-0000-0000-000000000001","identity":"spiffe://ex.org/b","parent":"spiffe://ex.org/a","revision":0,"selectors":["u:1"]}],"next":"00000000-0000-0000-0000-000000000001"},{"entries":[{"domains":[],"expiry":0,"hint":"","id":"00000000-0000-0000-0000-000000000002","identity":"spiffe://ex.org/c","parent":"spiffe://ex.org/a","revision":0,"selectors":["u:1"]}],"next":null}],"result":"committed"}
"#;

#[test]
fn the_id_after_which_the_next_page_begins_is_printed_or_null(rt: HostRuntime) -> Result<(), Fail> {
    asserts_table(&rt, rt.alloc(), ReadAs::Reply, PRINTED)
}
