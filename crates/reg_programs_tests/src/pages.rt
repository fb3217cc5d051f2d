//! Pages of entries, with their filters, among queries and among changes, of the last book and of earlier ones.

use crate::engine::{answers, are_answered, are_answered_by};
use crate::limits::changes;
use crate::wanted::is_text;
use std::alloc::Global;
use std::process::Abort;
use std::sync::Wait;
use std::test::Fail;

/// A page of an empty book.
const EMPTY: &str = r#"
{"ops":[{"op":"page","size":1}]}
{"call":1,"place":0,"replies":[{"entries":[],"next":null}],"result":"answered"}
{"ops":[{"op":"page","size":1,"at":0}]}
{"call":2,"place":0,"replies":[{"entries":[],"next":null}],"result":"answered"}
{"ops":[{"op":"page","size":1,"at":1}]}
{"call":3,"code":"O8","op":0,"place":0,"result":"refused"}
"#;

#[test]
fn a_page_of_an_empty_book(rt: HostRuntime) -> Result<(), Fail> {
    are_answered(&rt, rt.alloc(), EMPTY)
}

/// Five entries, page after page: pages of two, one page of all, and a page after the last entry.
const PAGE_AFTER_PAGE: &str = r#"
{"ops":[{"op":"set_bundle","domain":"b.org","text":"{}"},{"op":"set_bundle","domain":"c.org","text":"{}"},{"op":"create","id":"00000000-0000-0000-0000-000000000001","parent":"spiffe://ex.org/spire/agent/n1","identity":"spiffe://ex.org/web","selectors":["u:1"],"domains":["b.org"]},{"op":"create","id":"00000000-0000-0000-0000-000000000002","parent":"spiffe://ex.org/spire/agent/n1","identity":"spiffe://ex.org/api","selectors":["u:1","u:2"]},{"op":"create","id":"00000000-0000-0000-0000-000000000003","parent":"spiffe://ex.org/spire/agent/n2","identity":"spiffe://ex.org/web","selectors":["u:2"],"domains":["b.org","c.org"]},{"op":"create","id":"00000000-0000-0000-0000-000000000004","parent":"spiffe://ex.org/spire/agent/n1","identity":"spiffe://ex.org/db","selectors":["u:1","u:2","u:3"],"domains":["c.org"]},{"op":"create","id":"00000000-0000-0000-0000-000000000005","parent":"spiffe://ex.org/web","identity":"spiffe://ex.org/job","selectors":["u:4"]}]}
{"call":1,"place":1,"replies":[{"bundle":{"domain":"b.org","sequence":0,"text":"{}"}},{"bundle":{"domain":"c.org","sequence":0,"text":"{}"}},{"entry":{"domains":["b.org"],"expiry":0,"hint":"","id":"00000000-0000-0000-0000-000000000001","identity":"spiffe://ex.org/web","parent":"spiffe://ex.org/spire/agent/n1","revision":0,"selectors":["u:1"]}},{"entry":{"domains":[],"expiry":0,"hint":"","id":"00000000-0000-0000-0000-000000000002","identity":"spiffe://ex.org/api","parent":"spiffe://ex.org/spire/agent/n1","revision":0,"selectors":["u:1","u:2"]}},{"entry":{"domains":["b.org","c.org"],"expiry":0,"hint":"","id":"00000000-0000-0000-0000-000000000003","identity":"spiffe://ex.org/web","parent":"spiffe://ex.org/spire/agent/n2","revision":0,"selectors":["u:2"]}},{"entry":{"domains":["c.org"],"expiry":0,"hint":"","id":"00000000-0000-0000-0000-000000000004","identity":"spiffe://ex.org/db","parent":"spiffe://ex.org/spire/agent/n1","revision":0,"selectors":["u:1","u:2","u:3"]}},{"entry":{"domains":[],"expiry":0,"hint":"","id":"00000000-0000-0000-0000-000000000005","identity":"spiffe://ex.org/job","parent":"spiffe://ex.org/web","revision":0,"selectors":["u:4"]}}],"result":"committed"}
{"ops":[{"op":"page","size":2}]}
{"call":2,"place":1,"replies":[{"entries":[{"domains":["b.org"],"expiry":0,"hint":"","id":"00000000-0000-0000-0000-000000000001","identity":"spiffe://ex.org/web","parent":"spiffe://ex.org/spire/agent/n1","revision":0,"selectors":["u:1"]},{"domains":[],"expiry":0,"hint":"","id":"00000000-0000-0000-0000-000000000002","identity":"spiffe://ex.org/api","parent":"spiffe://ex.org/spire/agent/n1","revision":0,"selectors":["u:1","u:2"]}],"next":"00000000-0000-0000-0000-000000000002"}],"result":"answered"}
{"ops":[{"op":"page","size":2,"from":"00000000-0000-0000-0000-000000000002"}]}
{"call":3,"place":1,"replies":[{"entries":[{"domains":["b.org","c.org"],"expiry":0,"hint":"","id":"00000000-0000-0000-0000-000000000003","identity":"spiffe://ex.org/web","parent":"spiffe://ex.org/spire/agent/n2","revision":0,"selectors":["u:2"]},{"domains":["c.org"],"expiry":0,"hint":"","id":"00000000-0000-0000-0000-000000000004","identity":"spiffe://ex.org/db","parent":"spiffe://ex.org/spire/agent/n1","revision":0,"selectors":["u:1","u:2","u:3"]}],"next":"00000000-0000-0000-0000-000000000004"}],"result":"answered"}
{"ops":[{"op":"page","size":2,"from":"00000000-0000-0000-0000-000000000004"}]}
{"call":4,"place":1,"replies":[{"entries":[{"domains":[],"expiry":0,"hint":"","id":"00000000-0000-0000-0000-000000000005","identity":"spiffe://ex.org/job","parent":"spiffe://ex.org/web","revision":0,"selectors":["u:4"]}],"next":null}],"result":"answered"}
{"ops":[{"op":"page","size":5}]}
{"call":5,"place":1,"replies":[{"entries":[{"domains":["b.org"],"expiry":0,"hint":"","id":"00000000-0000-0000-0000-000000000001","identity":"spiffe://ex.org/web","parent":"spiffe://ex.org/spire/agent/n1","revision":0,"selectors":["u:1"]},{"domains":[],"expiry":0,"hint":"","id":"00000000-0000-0000-0000-000000000002","identity":"spiffe://ex.org/api","parent":"spiffe://ex.org/spire/agent/n1","revision":0,"selectors":["u:1","u:2"]},{"domains":["b.org","c.org"],"expiry":0,"hint":"","id":"00000000-0000-0000-0000-000000000003","identity":"spiffe://ex.org/web","parent":"spiffe://ex.org/spire/agent/n2","revision":0,"selectors":["u:2"]},{"domains":["c.org"],"expiry":0,"hint":"","id":"00000000-0000-0000-0000-000000000004","identity":"spiffe://ex.org/db","parent":"spiffe://ex.org/spire/agent/n1","revision":0,"selectors":["u:1","u:2","u:3"]},{"domains":[],"expiry":0,"hint":"","id":"00000000-0000-0000-0000-000000000005","identity":"spiffe://ex.org/job","parent":"spiffe://ex.org/web","revision":0,"selectors":["u:4"]}],"next":null}],"result":"answered"}
{"ops":[{"op":"page","size":4}]}
{"call":6,"place":1,"replies":[{"entries":[{"domains":["b.org"],"expiry":0,"hint":"","id":"00000000-0000-0000-0000-000000000001","identity":"spiffe://ex.org/web","parent":"spiffe://ex.org/spire/agent/n1","revision":0,"selectors":["u:1"]},{"domains":[],"expiry":0,"hint":"","id":"00000000-0000-0000-0000-000000000002","identity":"spiffe://ex.org/api","parent":"spiffe://ex.org/spire/agent/n1","revision":0,"selectors":["u:1","u:2"]},{"domains":["b.org","c.org"],"expiry":0,"hint":"","id":"00000000-0000-0000-0000-000000000003","identity":"spiffe://ex.org/web","parent":"spiffe://ex.org/spire/agent/n2","revision":0,"selectors":["u:2"]},{"domains":["c.org"],"expiry":0,"hint":"","id":"00000000-0000-0000-0000-000000000004","identity":"spiffe://ex.org/db","parent":"spiffe://ex.org/spire/agent/n1","revision":0,"selectors":["u:1","u:2","u:3"]}],"next":"00000000-0000-0000-0000-000000000004"}],"result":"answered"}
{"ops":[{"op":"page","size":6}]}
{"call":7,"place":1,"replies":[{"entries":[{"domains":["b.org"],"expiry":0,"hint":"","id":"00000000-0000-0000-0000-000000000001","identity":"spiffe://ex.org/web","parent":"spiffe://ex.org/spire/agent/n1","revision":0,"selectors":["u:1"]},{"domains":[],"expiry":0,"hint":"","id":"00000000-0000-0000-0000-000000000002","identity":"spiffe://ex.org/api","parent":"spiffe://ex.org/spire/agent/n1","revision":0,"selectors":["u:1","u:2"]},{"domains":["b.org","c.org"],"expiry":0,"hint":"","id":"00000000-0000-0000-0000-000000000003","identity":"spiffe://ex.org/web","parent":"spiffe://ex.org/spire/agent/n2","revision":0,"selectors":["u:2"]},{"domains":["c.org"],"expiry":0,"hint":"","id":"00000000-0000-0000-0000-000000000004","identity":"spiffe://ex.org/db","parent":"spiffe://ex.org/spire/agent/n1","revision":0,"selectors":["u:1","u:2","u:3"]},{"domains":[],"expiry":0,"hint":"","id":"00000000-0000-0000-0000-000000000005","identity":"spiffe://ex.org/job","parent":"spiffe://ex.org/web","revision":0,"selectors":["u:4"]}],"next":null}],"result":"answered"}
{"ops":[{"op":"page","size":500,"from":"00000000-0000-0000-0000-000000000005"}]}
{"call":8,"place":1,"replies":[{"entries":[],"next":null}],"result":"answered"}
{"ops":[{"op":"page","size":1,"from":"00000000-0000-0000-0000-000000000003"}]}
{"call":9,"place":1,"replies":[{"entries":[{"domains":["c.org"],"expiry":0,"hint":"","id":"00000000-0000-0000-0000-000000000004","identity":"spiffe://ex.org/db","parent":"spiffe://ex.org/spire/agent/n1","revision":0,"selectors":["u:1","u:2","u:3"]}],"next":"00000000-0000-0000-0000-000000000004"}],"result":"answered"}
"#;

#[test]
fn page_after_page(rt: HostRuntime) -> Result<(), Fail> {
    are_answered(&rt, rt.alloc(), PAGE_AFTER_PAGE)
}

/// Each part of a filter, and several.
const FILTERS: &str = r#"
{"ops":[{"op":"set_bundle","domain":"b.org","text":"{}"},{"op":"set_bundle","domain":"c.org","text":"{}"},{"op":"create","id":"00000000-0000-0000-0000-000000000001","parent":"spiffe://ex.org/spire/agent/n1","identity":"spiffe://ex.org/web","selectors":["u:1"],"domains":["b.org"]},{"op":"create","id":"00000000-0000-0000-0000-000000000002","parent":"spiffe://ex.org/spire/agent/n1","identity":"spiffe://ex.org/api","selectors":["u:1","u:2"]},{"op":"create","id":"00000000-0000-0000-0000-000000000003","parent":"spiffe://ex.org/spire/agent/n2","identity":"spiffe://ex.org/web","selectors":["u:2"],"domains":["b.org","c.org"]},{"op":"create","id":"00000000-0000-0000-0000-000000000004","parent":"spiffe://ex.org/spire/agent/n1","identity":"spiffe://ex.org/db","selectors":["u:1","u:2","u:3"],"domains":["c.org"]},{"op":"create","id":"00000000-0000-0000-0000-000000000005","parent":"spiffe://ex.org/web","identity":"spiffe://ex.org/job","selectors":["u:4"]}]}
{"call":1,"place":1,"replies":[{"bundle":{"domain":"b.org","sequence":0,"text":"{}"}},{"bundle":{"domain":"c.org","sequence":0,"text":"{}"}},{"entry":{"domains":["b.org"],"expiry":0,"hint":"","id":"00000000-0000-0000-0000-000000000001","identity":"spiffe://ex.org/web","parent":"spiffe://ex.org/spire/agent/n1","revision":0,"selectors":["u:1"]}},{"entry":{"domains":[],"expiry":0,"hint":"","id":"00000000-0000-0000-0000-000000000002","identity":"spiffe://ex.org/api","parent":"spiffe://ex.org/spire/agent/n1","revision":0,"selectors":["u:1","u:2"]}},{"entry":{"domains":["b.org","c.org"],"expiry":0,"hint":"","id":"00000000-0000-0000-0000-000000000003","identity":"spiffe://ex.org/web","parent":"spiffe://ex.org/spire/agent/n2","revision":0,"selectors":["u:2"]}},{"entry":{"domains":["c.org"],"expiry":0,"hint":"","id":"00000000-0000-0000-0000-000000000004","identity":"spiffe://ex.org/db","parent":"spiffe://ex.org/spire/agent/n1","revision":0,"selectors":["u:1","u:2","u:3"]}},{"entry":{"domains":[],"expiry":0,"hint":"","id":"00000000-0000-0000-0000-000000000005","identity":"spiffe://ex.org/job","parent":"spiffe://ex.org/web","revision":0,"selectors":["u:4"]}}],"result":"committed"}
{"ops":[{"op":"page","size":9,"selectors":["u:1","u:2"],"match":"exact"}]}
{"call":2,"place":1,"replies":[{"entries":[{"domains":[],"expiry":0,"hint":"","id":"00000000-0000-0000-0000-000000000002","identity":"spiffe://ex.org/api","parent":"spiffe://ex.org/spire/agent/n1","revision":0,"selectors":["u:1","u:2"]}],"next":null}],"result":"answered"}
{"ops":[{"op":"page","size":9,"selectors":["u:1","u:2"],"match":"any"}]}
{"call":3,"place":1,"replies":[{"entries":[{"domains":["b.org"],"expiry":0,"hint":"","id":"00000000-0000-0000-0000-000000000001","identity":"spiffe://ex.org/web","parent":"spiffe://ex.org/spire/agent/n1","revision":0,"selectors":["u:1"]},{"domains":[],"expiry":0,"hint":"","id":"00000000-0000-0000-0000-000000000002","identity":"spiffe://ex.org/api","parent":"spiffe://ex.org/spire/agent/n1","revision":0,"selectors":["u:1","u:2"]},{"domains":["b.org","c.org"],"expiry":0,"hint":"","id":"00000000-0000-0000-0000-000000000003","identity":"spiffe://ex.org/web","parent":"spiffe://ex.org/spire/agent/n2","revision":0,"selectors":["u:2"]},{"domains":["c.org"],"expiry":0,"hint":"","id":"00000000-0000-0000-0000-000000000004","identity":"spiffe://ex.org/db","parent":"spiffe://ex.org/spire/agent/n1","revision":0,"selectors":["u:1","u:2","u:3"]}],"next":null}],"result":"answered"}
{"ops":[{"op":"page","size":9,"selectors":["u:1","u:2"],"match":"superset"}]}
{"call":4,"place":1,"replies":[{"entries":[{"domains":[],"expiry":0,"hint":"","id":"00000000-0000-0000-0000-000000000002","identity":"spiffe://ex.org/api","parent":"spiffe://ex.org/spire/agent/n1","revision":0,"selectors":["u:1","u:2"]},{"domains":["c.org"],"expiry":0,"hint":"","id":"00000000-0000-0000-0000-000000000004","identity":"spiffe://ex.org/db","parent":"spiffe://ex.org/spire/agent/n1","revision":0,"selectors":["u:1","u:2","u:3"]}],"next":null}],"result":"answered"}
{"ops":[{"op":"page","size":9,"selectors":["u:1","u:2"],"match":"subset"}]}
{"call":5,"place":1,"replies":[{"entries":[{"domains":["b.org"],"expiry":0,"hint":"","id":"00000000-0000-0000-0000-000000000001","identity":"spiffe://ex.org/web","parent":"spiffe://ex.org/spire/agent/n1","revision":0,"selectors":["u:1"]},{"domains":[],"expiry":0,"hint":"","id":"00000000-0000-0000-0000-000000000002","identity":"spiffe://ex.org/api","parent":"spiffe://ex.org/spire/agent/n1","revision":0,"selectors":["u:1","u:2"]},{"domains":["b.org","c.org"],"expiry":0,"hint":"","id":"00000000-0000-0000-0000-000000000003","identity":"spiffe://ex.org/web","parent":"spiffe://ex.org/spire/agent/n2","revision":0,"selectors":["u:2"]}],"next":null}],"result":"answered"}
{"ops":[{"op":"page","size":9,"selectors":["u:1","u:2"]}]}
{"call":6,"place":1,"replies":[{"entries":[{"domains":[],"expiry":0,"hint":"","id":"00000000-0000-0000-0000-000000000002","identity":"spiffe://ex.org/api","parent":"spiffe://ex.org/spire/agent/n1","revision":0,"selectors":["u:1","u:2"]},{"domains":["c.org"],"expiry":0,"hint":"","id":"00000000-0000-0000-0000-000000000004","identity":"spiffe://ex.org/db","parent":"spiffe://ex.org/spire/agent/n1","revision":0,"selectors":["u:1","u:2","u:3"]}],"next":null}],"result":"answered"}
{"ops":[{"op":"page","size":1,"selectors":["u:1","u:2"],"match":"any"}]}
{"call":7,"place":1,"replies":[{"entries":[{"domains":["b.org"],"expiry":0,"hint":"","id":"00000000-0000-0000-0000-000000000001","identity":"spiffe://ex.org/web","parent":"spiffe://ex.org/spire/agent/n1","revision":0,"selectors":["u:1"]}],"next":"00000000-0000-0000-0000-000000000001"}],"result":"answered"}
{"ops":[{"op":"page","size":1,"from":"00000000-0000-0000-0000-000000000001","selectors":["u:1","u:2"],"match":"any"}]}
{"call":8,"place":1,"replies":[{"entries":[{"domains":[],"expiry":0,"hint":"","id":"00000000-0000-0000-0000-000000000002","identity":"spiffe://ex.org/api","parent":"spiffe://ex.org/spire/agent/n1","revision":0,"selectors":["u:1","u:2"]}],"next":"00000000-0000-0000-0000-000000000002"}],"result":"answered"}
{"ops":[{"op":"page","size":9,"parent":"spiffe://ex.org/spire/agent/n1"}]}
{"call":9,"place":1,"replies":[{"entries":[{"domains":["b.org"],"expiry":0,"hint":"","id":"00000000-0000-0000-0000-000000000001","identity":"spiffe://ex.org/web","parent":"spiffe://ex.org/spire/agent/n1","revision":0,"selectors":["u:1"]},{"domains":[],"expiry":0,"hint":"","id":"00000000-0000-0000-0000-000000000002","identity":"spiffe://ex.org/api","parent":"spiffe://ex.org/spire/agent/n1","revision":0,"selectors":["u:1","u:2"]},{"domains":["c.org"],"expiry":0,"hint":"","id":"00000000-0000-0000-0000-000000000004","identity":"spiffe://ex.org/db","parent":"spiffe://ex.org/spire/agent/n1","revision":0,"selectors":["u:1","u:2","u:3"]}],"next":null}],"result":"answered"}
{"ops":[{"op":"page","size":9,"identity":"spiffe://ex.org/web"}]}
{"call":10,"place":1,"replies":[{"entries":[{"domains":["b.org"],"expiry":0,"hint":"","id":"00000000-0000-0000-0000-000000000001","identity":"spiffe://ex.org/web","parent":"spiffe://ex.org/spire/agent/n1","revision":0,"selectors":["u:1"]},{"domains":["b.org","c.org"],"expiry":0,"hint":"","id":"00000000-0000-0000-0000-000000000003","identity":"spiffe://ex.org/web","parent":"spiffe://ex.org/spire/agent/n2","revision":0,"selectors":["u:2"]}],"next":null}],"result":"answered"}
{"ops":[{"op":"page","size":9,"domain":"b.org"}]}
{"call":11,"place":1,"replies":[{"entries":[{"domains":["b.org"],"expiry":0,"hint":"","id":"00000000-0000-0000-0000-000000000001","identity":"spiffe://ex.org/web","parent":"spiffe://ex.org/spire/agent/n1","revision":0,"selectors":["u:1"]},{"domains":["b.org","c.org"],"expiry":0,"hint":"","id":"00000000-0000-0000-0000-000000000003","identity":"spiffe://ex.org/web","parent":"spiffe://ex.org/spire/agent/n2","revision":0,"selectors":["u:2"]}],"next":null}],"result":"answered"}
{"ops":[{"op":"page","size":9,"domain":"d.org"}]}
{"call":12,"place":1,"replies":[{"entries":[],"next":null}],"result":"answered"}
{"ops":[{"op":"page","size":9,"parent":"spiffe://ex.org/spire/agent/n1","domain":"c.org"}]}
{"call":13,"place":1,"replies":[{"entries":[{"domains":["c.org"],"expiry":0,"hint":"","id":"00000000-0000-0000-0000-000000000004","identity":"spiffe://ex.org/db","parent":"spiffe://ex.org/spire/agent/n1","revision":0,"selectors":["u:1","u:2","u:3"]}],"next":null}],"result":"answered"}
{"ops":[{"op":"page","size":9,"parent":"spiffe://ex.org/spire/agent/n1","identity":"spiffe://ex.org/web","domain":"b.org","selectors":["u:1"],"match":"exact"}]}
{"call":14,"place":1,"replies":[{"entries":[{"domains":["b.org"],"expiry":0,"hint":"","id":"00000000-0000-0000-0000-000000000001","identity":"spiffe://ex.org/web","parent":"spiffe://ex.org/spire/agent/n1","revision":0,"selectors":["u:1"]}],"next":null}],"result":"answered"}
{"ops":[{"op":"page","size":9,"parent":"spiffe://ex.org/spire/agent/n2","identity":"spiffe://ex.org/web","domain":"b.org","selectors":["u:1"],"match":"exact"}]}
{"call":15,"place":1,"replies":[{"entries":[],"next":null}],"result":"answered"}
"#;

#[test]
fn filters_of_pages(rt: HostRuntime) -> Result<(), Fail> {
    are_answered(&rt, rt.alloc(), FILTERS)
}

/// Pages by identity, and by two selectors in each mode (exact, any, superset, subset), in one call of a schedule.
const FILTERS_OF_A_CALL: &str = r#"
{"event":"invoke","call":1,"batch":{"ops":[{"op":"create","id":"00000000-0000-0000-0000-000000000001","parent":"spiffe://ex.org/spire/agent/n1","identity":"spiffe://ex.org/web","selectors":["u:1"]},{"op":"create","id":"00000000-0000-0000-0000-000000000002","parent":"spiffe://ex.org/spire/agent/n1","identity":"spiffe://ex.org/api","selectors":["u:1","u:2"]},{"op":"create","id":"00000000-0000-0000-0000-000000000003","parent":"spiffe://ex.org/spire/agent/n1","identity":"spiffe://ex.org/api","selectors":["u:2","u:3"]}]}}
{"call":1,"state":"new"}
{"event":"begin","call":1}
{"call":1,"place":0,"state":"running"}
{"event":"step","call":1}
{"call":1,"read":"entry 00000000-0000-0000-0000-000000000001","state":"running"}
{"event":"step","call":1}
{"call":1,"read":"group spiffe://ex.org/spire/agent/n1 spiffe://ex.org/web","state":"running"}
{"event":"step","call":1}
{"call":1,"read":"entry 00000000-0000-0000-0000-000000000002","state":"running"}
{"event":"step","call":1}
{"call":1,"read":"group spiffe://ex.org/spire/agent/n1 spiffe://ex.org/api","state":"running"}
{"event":"step","call":1}
{"call":1,"read":"entry 00000000-0000-0000-0000-000000000003","state":"running"}
{"event":"step","call":1}
{"call":1,"read":"group spiffe://ex.org/spire/agent/n1 spiffe://ex.org/api","state":"ready"}
{"event":"commit","call":1}
{"call":1,"commit":"committed","place":1}
{"event":"reply","call":1}
{"call":1,"place":1,"replies":[{"entry":{"domains":[],"expiry":0,"hint":"","id":"00000000-0000-0000-0000-000000000001","identity":"spiffe://ex.org/web","parent":"spiffe://ex.org/spire/agent/n1","revision":0,"selectors":["u:1"]}},{"entry":{"domains":[],"expiry":0,"hint":"","id":"00000000-0000-0000-0000-000000000002","identity":"spiffe://ex.org/api","parent":"spiffe://ex.org/spire/agent/n1","revision":0,"selectors":["u:1","u:2"]}},{"entry":{"domains":[],"expiry":0,"hint":"","id":"00000000-0000-0000-0000-000000000003","identity":"spiffe://ex.org/api","parent":"spiffe://ex.org/spire/agent/n1","revision":0,"selectors":["u:2","u:3"]}}],"result":"committed"}
{"event":"invoke","call":2,"batch":{"ops":[{"op":"page","size":9,"identity":"spiffe://ex.org/api"},{"op":"page","size":9,"selectors":["u:1","u:2"],"match":"exact"},{"op":"page","size":9,"selectors":["u:1","u:2"],"match":"any"},{"op":"page","size":9,"selectors":["u:1","u:2"],"match":"superset"},{"op":"page","size":9,"selectors":["u:1","u:2"],"match":"subset"}]}}
{"call":2,"state":"new"}
{"event":"begin","call":2}
{"call":2,"place":1,"state":"running"}
{"event":"step","call":2}
{"call":2,"read":"all","state":"running"}
{"event":"step","call":2}
{"call":2,"read":"all","state":"running"}
{"event":"step","call":2}
{"call":2,"read":"all","state":"running"}
{"event":"step","call":2}
{"call":2,"read":"all","state":"running"}
{"event":"step","call":2}
{"call":2,"read":"all","state":"settled"}
{"event":"reply","call":2}
{"call":2,"place":1,"replies":[{"entries":[{"domains":[],"expiry":0,"hint":"","id":"00000000-0000-0000-0000-000000000002","identity":"spiffe://ex.org/api","parent":"spiffe://ex.org/spire/agent/n1","revision":0,"selectors":["u:1","u:2"]},{"domains":[],"expiry":0,"hint":"","id":"00000000-0000-0000-0000-000000000003","identity":"spiffe://ex.org/api","parent":"spiffe://ex.org/spire/agent/n1","revision":0,"selectors":["u:2","u:3"]}],"next":null},{"entries":[{"domains":[],"expiry":0,"hint":"","id":"00000000-0000-0000-0000-000000000002","identity":"spiffe://ex.org/api","parent":"spiffe://ex.org/spire/agent/n1","revision":0,"selectors":["u:1","u:2"]}],"next":null},{"entries":[{"domains":[],"expiry":0,"hint":"","id":"00000000-0000-0000-0000-000000000001","identity":"spiffe://ex.org/web","parent":"spiffe://ex.org/spire/agent/n1","revision":0,"selectors":["u:1"]},{"domains":[],"expiry":0,"hint":"","id":"00000000-0000-0000-0000-000000000002","identity":"spiffe://ex.org/api","parent":"spiffe://ex.org/spire/agent/n1","revision":0,"selectors":["u:1","u:2"]},{"domains":[],"expiry":0,"hint":"","id":"00000000-0000-0000-0000-000000000003","identity":"spiffe://ex.org/api","parent":"spiffe://ex.org/spire/agent/n1","revision":0,"selectors":["u:2","u:3"]}],"next":null},{"entries":[{"domains":[],"expiry":0,"hint":"","id":"00000000-0000-0000-0000-000000000002","identity":"spiffe://ex.org/api","parent":"spiffe://ex.org/spire/agent/n1","revision":0,"selectors":["u:1","u:2"]}],"next":null},{"entries":[{"domains":[],"expiry":0,"hint":"","id":"00000000-0000-0000-0000-000000000001","identity":"spiffe://ex.org/web","parent":"spiffe://ex.org/spire/agent/n1","revision":0,"selectors":["u:1"]},{"domains":[],"expiry":0,"hint":"","id":"00000000-0000-0000-0000-000000000002","identity":"spiffe://ex.org/api","parent":"spiffe://ex.org/spire/agent/n1","revision":0,"selectors":["u:1","u:2"]}],"next":null}],"result":"answered"}
{"order":[1,2]}
"#;

#[test]
fn filters_of_pages_in_a_schedule(rt: HostRuntime) -> Result<(), Fail> {
    let line = "regd|schedule|--domain|ex.org";
    are_answered_by(&rt, rt.alloc(), line, FILTERS_OF_A_CALL)
}

/// A page among the changes of a batch sees the effects of the earlier ones.
const AMONG_CHANGES: &str = r#"
{"ops":[{"op":"set_bundle","domain":"b.org","text":"{}"},{"op":"set_bundle","domain":"c.org","text":"{}"},{"op":"create","id":"00000000-0000-0000-0000-000000000001","parent":"spiffe://ex.org/spire/agent/n1","identity":"spiffe://ex.org/web","selectors":["u:1"],"domains":["b.org"]},{"op":"create","id":"00000000-0000-0000-0000-000000000002","parent":"spiffe://ex.org/spire/agent/n1","identity":"spiffe://ex.org/api","selectors":["u:1","u:2"]},{"op":"create","id":"00000000-0000-0000-0000-000000000003","parent":"spiffe://ex.org/spire/agent/n2","identity":"spiffe://ex.org/web","selectors":["u:2"],"domains":["b.org","c.org"]},{"op":"create","id":"00000000-0000-0000-0000-000000000004","parent":"spiffe://ex.org/spire/agent/n1","identity":"spiffe://ex.org/db","selectors":["u:1","u:2","u:3"],"domains":["c.org"]},{"op":"create","id":"00000000-0000-0000-0000-000000000005","parent":"spiffe://ex.org/web","identity":"spiffe://ex.org/job","selectors":["u:4"]}]}
{"call":1,"place":1,"replies":[{"bundle":{"domain":"b.org","sequence":0,"text":"{}"}},{"bundle":{"domain":"c.org","sequence":0,"text":"{}"}},{"entry":{"domains":["b.org"],"expiry":0,"hint":"","id":"00000000-0000-0000-0000-000000000001","identity":"spiffe://ex.org/web","parent":"spiffe://ex.org/spire/agent/n1","revision":0,"selectors":["u:1"]}},{"entry":{"domains":[],"expiry":0,"hint":"","id":"00000000-0000-0000-0000-000000000002","identity":"spiffe://ex.org/api","parent":"spiffe://ex.org/spire/agent/n1","revision":0,"selectors":["u:1","u:2"]}},{"entry":{"domains":["b.org","c.org"],"expiry":0,"hint":"","id":"00000000-0000-0000-0000-000000000003","identity":"spiffe://ex.org/web","parent":"spiffe://ex.org/spire/agent/n2","revision":0,"selectors":["u:2"]}},{"entry":{"domains":["c.org"],"expiry":0,"hint":"","id":"00000000-0000-0000-0000-000000000004","identity":"spiffe://ex.org/db","parent":"spiffe://ex.org/spire/agent/n1","revision":0,"selectors":["u:1","u:2","u:3"]}},{"entry":{"domains":[],"expiry":0,"hint":"","id":"00000000-0000-0000-0000-000000000005","identity":"spiffe://ex.org/job","parent":"spiffe://ex.org/web","revision":0,"selectors":["u:4"]}}],"result":"committed"}
{"ops":[{"op":"delete","id":"00000000-0000-0000-0000-000000000002"},{"op":"create","id":"00000000-0000-0000-0000-000000000006","parent":"spiffe://ex.org/spire/agent/n2","identity":"spiffe://ex.org/web","selectors":["u:9"]},{"op":"page","size":2,"from":"00000000-0000-0000-0000-000000000001"},{"op":"page","size":9,"identity":"spiffe://ex.org/web"}]}
{"call":2,"place":2,"replies":[{"entry":{"domains":[],"expiry":0,"hint":"","id":"00000000-0000-0000-0000-000000000002","identity":"spiffe://ex.org/api","parent":"spiffe://ex.org/spire/agent/n1","revision":0,"selectors":["u:1","u:2"]}},{"entry":{"domains":[],"expiry":0,"hint":"","id":"00000000-0000-0000-0000-000000000006","identity":"spiffe://ex.org/web","parent":"spiffe://ex.org/spire/agent/n2","revision":0,"selectors":["u:9"]}},{"entries":[{"domains":["b.org","c.org"],"expiry":0,"hint":"","id":"00000000-0000-0000-0000-000000000003","identity":"spiffe://ex.org/web","parent":"spiffe://ex.org/spire/agent/n2","revision":0,"selectors":["u:2"]},{"domains":["c.org"],"expiry":0,"hint":"","id":"00000000-0000-0000-0000-000000000004","identity":"spiffe://ex.org/db","parent":"spiffe://ex.org/spire/agent/n1","revision":0,"selectors":["u:1","u:2","u:3"]}],"next":"00000000-0000-0000-0000-000000000004"},{"entries":[{"domains":["b.org"],"expiry":0,"hint":"","id":"00000000-0000-0000-0000-000000000001","identity":"spiffe://ex.org/web","parent":"spiffe://ex.org/spire/agent/n1","revision":0,"selectors":["u:1"]},{"domains":["b.org","c.org"],"expiry":0,"hint":"","id":"00000000-0000-0000-0000-000000000003","identity":"spiffe://ex.org/web","parent":"spiffe://ex.org/spire/agent/n2","revision":0,"selectors":["u:2"]},{"domains":[],"expiry":0,"hint":"","id":"00000000-0000-0000-0000-000000000006","identity":"spiffe://ex.org/web","parent":"spiffe://ex.org/spire/agent/n2","revision":0,"selectors":["u:9"]}],"next":null}],"result":"committed"}
{"ops":[{"op":"page","size":9}]}
{"call":3,"place":2,"replies":[{"entries":[{"domains":["b.org"],"expiry":0,"hint":"","id":"00000000-0000-0000-0000-000000000001","identity":"spiffe://ex.org/web","parent":"spiffe://ex.org/spire/agent/n1","revision":0,"selectors":["u:1"]},{"domains":["b.org","c.org"],"expiry":0,"hint":"","id":"00000000-0000-0000-0000-000000000003","identity":"spiffe://ex.org/web","parent":"spiffe://ex.org/spire/agent/n2","revision":0,"selectors":["u:2"]},{"domains":["c.org"],"expiry":0,"hint":"","id":"00000000-0000-0000-0000-000000000004","identity":"spiffe://ex.org/db","parent":"spiffe://ex.org/spire/agent/n1","revision":0,"selectors":["u:1","u:2","u:3"]},{"domains":[],"expiry":0,"hint":"","id":"00000000-0000-0000-0000-000000000005","identity":"spiffe://ex.org/job","parent":"spiffe://ex.org/web","revision":0,"selectors":["u:4"]},{"domains":[],"expiry":0,"hint":"","id":"00000000-0000-0000-0000-000000000006","identity":"spiffe://ex.org/web","parent":"spiffe://ex.org/spire/agent/n2","revision":0,"selectors":["u:9"]}],"next":null}],"result":"answered"}
"#;

#[test]
fn a_page_sees_the_changes_before_it(rt: HostRuntime) -> Result<(), Fail> {
    are_answered(&rt, rt.alloc(), AMONG_CHANGES)
}

/// Pages of earlier books.
const EARLIER: &str = r#"
{"ops":[{"op":"create","id":"00000000-0000-0000-0000-000000000001","parent":"spiffe://ex.org/spire/agent/n1","identity":"spiffe://ex.org/e1","selectors":["u:1"]},{"op":"create","id":"00000000-0000-0000-0000-000000000002","parent":"spiffe://ex.org/spire/agent/n1","identity":"spiffe://ex.org/e2","selectors":["u:1"]},{"op":"create","id":"00000000-0000-0000-0000-000000000003","parent":"spiffe://ex.org/spire/agent/n1","identity":"spiffe://ex.org/e3","selectors":["u:1"]},{"op":"create","id":"00000000-0000-0000-0000-000000000004","parent":"spiffe://ex.org/spire/agent/n1","identity":"spiffe://ex.org/e4","selectors":["u:1"]},{"op":"create","id":"00000000-0000-0000-0000-000000000005","parent":"spiffe://ex.org/spire/agent/n1","identity":"spiffe://ex.org/e5","selectors":["u:1"]}]}
{"call":1,"place":1,"replies":[{"entry":{"domains":[],"expiry":0,"hint":"","id":"00000000-0000-0000-0000-000000000001","identity":"spiffe://ex.org/e1","parent":"spiffe://ex.org/spire/agent/n1","revision":0,"selectors":["u:1"]}},{"entry":{"domains":[],"expiry":0,"hint":"","id":"00000000-0000-0000-0000-000000000002","identity":"spiffe://ex.org/e2","parent":"spiffe://ex.org/spire/agent/n1","revision":0,"selectors":["u:1"]}},{"entry":{"domains":[],"expiry":0,"hint":"","id":"00000000-0000-0000-0000-000000000003","identity":"spiffe://ex.org/e3","parent":"spiffe://ex.org/spire/agent/n1","revision":0,"selectors":["u:1"]}},{"entry":{"domains":[],"expiry":0,"hint":"","id":"00000000-0000-0000-0000-000000000004","identity":"spiffe://ex.org/e4","parent":"spiffe://ex.org/spire/agent/n1","revision":0,"selectors":["u:1"]}},{"entry":{"domains":[],"expiry":0,"hint":"","id":"00000000-0000-0000-0000-000000000005","identity":"spiffe://ex.org/e5","parent":"spiffe://ex.org/spire/agent/n1","revision":0,"selectors":["u:1"]}}],"result":"committed"}
{"ops":[{"op":"page","size":2}]}
{"call":2,"place":1,"replies":[{"entries":[{"domains":[],"expiry":0,"hint":"","id":"00000000-0000-0000-0000-000000000001","identity":"spiffe://ex.org/e1","parent":"spiffe://ex.org/spire/agent/n1","revision":0,"selectors":["u:1"]},{"domains":[],"expiry":0,"hint":"","id":"00000000-0000-0000-0000-000000000002","identity":"spiffe://ex.org/e2","parent":"spiffe://ex.org/spire/agent/n1","revision":0,"selectors":["u:1"]}],"next":"00000000-0000-0000-0000-000000000002"}],"result":"answered"}
{"ops":[{"op":"delete","id":"00000000-0000-0000-0000-000000000004"}]}
{"call":3,"place":2,"replies":[{"entry":{"domains":[],"expiry":0,"hint":"","id":"00000000-0000-0000-0000-000000000004","identity":"spiffe://ex.org/e4","parent":"spiffe://ex.org/spire/agent/n1","revision":0,"selectors":["u:1"]}}],"result":"committed"}
the pages that follow read the book of the first one
{"ops":[{"op":"page","size":2,"at":1,"from":"00000000-0000-0000-0000-000000000002"}]}
{"call":4,"place":2,"replies":[{"entries":[{"domains":[],"expiry":0,"hint":"","id":"00000000-0000-0000-0000-000000000003","identity":"spiffe://ex.org/e3","parent":"spiffe://ex.org/spire/agent/n1","revision":0,"selectors":["u:1"]},{"domains":[],"expiry":0,"hint":"","id":"00000000-0000-0000-0000-000000000004","identity":"spiffe://ex.org/e4","parent":"spiffe://ex.org/spire/agent/n1","revision":0,"selectors":["u:1"]}],"next":"00000000-0000-0000-0000-000000000004"}],"result":"answered"}
{"ops":[{"op":"page","size":2,"at":1,"from":"00000000-0000-0000-0000-000000000004"}]}
{"call":5,"place":2,"replies":[{"entries":[{"domains":[],"expiry":0,"hint":"","id":"00000000-0000-0000-0000-000000000005","identity":"spiffe://ex.org/e5","parent":"spiffe://ex.org/spire/agent/n1","revision":0,"selectors":["u:1"]}],"next":null}],"result":"answered"}
without the number of a book, and with that of the last one, the entry is gone
{"ops":[{"op":"page","size":2,"from":"00000000-0000-0000-0000-000000000002"}]}
{"call":6,"place":2,"replies":[{"entries":[{"domains":[],"expiry":0,"hint":"","id":"00000000-0000-0000-0000-000000000003","identity":"spiffe://ex.org/e3","parent":"spiffe://ex.org/spire/agent/n1","revision":0,"selectors":["u:1"]},{"domains":[],"expiry":0,"hint":"","id":"00000000-0000-0000-0000-000000000005","identity":"spiffe://ex.org/e5","parent":"spiffe://ex.org/spire/agent/n1","revision":0,"selectors":["u:1"]}],"next":null}],"result":"answered"}
{"ops":[{"op":"page","size":2,"at":2,"from":"00000000-0000-0000-0000-000000000002"}]}
{"call":7,"place":2,"replies":[{"entries":[{"domains":[],"expiry":0,"hint":"","id":"00000000-0000-0000-0000-000000000003","identity":"spiffe://ex.org/e3","parent":"spiffe://ex.org/spire/agent/n1","revision":0,"selectors":["u:1"]},{"domains":[],"expiry":0,"hint":"","id":"00000000-0000-0000-0000-000000000005","identity":"spiffe://ex.org/e5","parent":"spiffe://ex.org/spire/agent/n1","revision":0,"selectors":["u:1"]}],"next":null}],"result":"answered"}
the first book of all, and one that isn't there yet
{"ops":[{"op":"page","size":2,"at":0}]}
{"call":8,"place":2,"replies":[{"entries":[],"next":null}],"result":"answered"}
{"ops":[{"op":"page","size":2,"at":3}]}
{"call":9,"code":"O8","op":0,"place":2,"result":"refused"}
{"ops":[{"op":"page","size":2,"at":18446744073709551615}]}
{"call":10,"code":"O8","op":0,"place":2,"result":"refused"}
filters of an earlier book
{"ops":[{"op":"page","size":9,"at":1,"identity":"spiffe://ex.org/e4","selectors":["u:1"],"match":"exact"}]}
{"call":11,"place":2,"replies":[{"entries":[{"domains":[],"expiry":0,"hint":"","id":"00000000-0000-0000-0000-000000000004","identity":"spiffe://ex.org/e4","parent":"spiffe://ex.org/spire/agent/n1","revision":0,"selectors":["u:1"]}],"next":null}],"result":"answered"}
{"ops":[{"op":"page","size":9,"at":2,"identity":"spiffe://ex.org/e4","selectors":["u:1"],"match":"exact"}]}
{"call":12,"place":2,"replies":[{"entries":[],"next":null}],"result":"answered"}
"#;

#[test]
fn a_page_of_an_earlier_book_reads_it_as_it_was(rt: HostRuntime) -> Result<(), Fail> {
    are_answered(&rt, rt.alloc(), EARLIER)
}

const CREATE: &str =
    r#"{"ops":[{"op":"create","id":"00000000-0000-0000-0000-000000000001","parent":"spiffe://ex.org/spire/agent/n1","identity":"spiffe://ex.org/e1","selectors":["u:1"]}]}
"#;

/// A create, then changes up to this place, each in a line, and then the page of the book that the create made.
fn asked_at(alloc: Global, place: usize) -> Result<String, Fail> {
    let changes = changes(alloc, place.saturating_sub(1))?;
    let changes = changes.as_str();
    Ok(format!(in alloc; "{CREATE}{changes}{PAGE}")?)
}

const PAGE: &str = r#"{"ops":[{"op":"page","size":2,"at":1}]}
"#;

/// Asserts the reply to the page, after changes up to this place.
fn last_is(
    rt: &(impl Abort + Wait),
    alloc: Global,
    place: usize,
    expected: &str,
) -> Result<(), Fail> {
    let asked = asked_at(alloc, place)?;
    let got = answers(rt, alloc, asked.as_bytes())?;
    let last = str::from_utf8(&got)?.lines().last();
    is_text(rt, last.unwrap_or(""), expected, "the last answer");
    Ok(())
}

#[test]
fn the_last_64_books_are_there(rt: HostRuntime) -> Result<(), Fail> {
    let alloc = rt.alloc();
    last_is(&rt, alloc, 1, AT_1)?;
    last_is(&rt, alloc, 64, AT_64)?;
    last_is(&rt, alloc, 65, AT_65)
}

const AT_1: &str =
    r#"{"call":2,"place":1,"replies":[{"entries":[{"domains":[],"expiry":0,"hint":"","id":"00000000-0000-0000-0000-000000000001","identity":"spiffe://ex.org/e1","parent":"spiffe://ex.org/spire/agent/n1","revision":0,"selectors":["u:1"]}],"next":null}],"result":"answered"}"#;

const AT_64: &str =
    r#"{"call":65,"place":64,"replies":[{"entries":[{"domains":[],"expiry":0,"hint":"","id":"00000000-0000-0000-0000-000000000001","identity":"spiffe://ex.org/e1","parent":"spiffe://ex.org/spire/agent/n1","revision":0,"selectors":["u:1"]}],"next":null}],"result":"answered"}"#;

const AT_65: &str = r#"{"call":66,"code":"O8","op":0,"place":65,"result":"refused"}"#;
