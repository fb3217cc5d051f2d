//! The replies to operations, on one book after another: each table is a run on a new book.

use crate::engine::are_answered;
use std::test::Fail;

/// An empty book.
const NOTHING: &str = r#"
{"ops":[{"agent":"spiffe://ex.org/spire/agent/n1","op":"authorised"}]}
{"call":1,"code":"O7","op":0,"place":0,"result":"refused"}
{"ops":[{"id":"00000000-0000-0000-0000-000000000001","op":"show"}]}
{"call":2,"place":0,"replies":[{"entry":null}],"result":"answered"}
{"ops":[{"domain":"b.org","op":"show_bundle"}]}
{"call":3,"place":0,"replies":[{"bundle":null}],"result":"answered"}
"#;

#[test]
fn empty_book_has_nothing(rt: HostRuntime) -> Result<(), Fail> {
    are_answered(&rt, rt.alloc(), NOTHING)
}

/// Each entry is authorised once.
const CYCLE: &str = r#"
{"ops":[{"agent":"spiffe://ex.org/spire/agent/n1","op":"set_agent","selectors":["x:1"]}]}
{"call":1,"place":1,"replies":[{"agent":{"id":"spiffe://ex.org/spire/agent/n1","selectors":["x:1"]}}],"result":"committed"}
{"ops":[{"id":"00000000-0000-0000-0000-000000000001","identity":"spiffe://ex.org/A","op":"create","parent":"spiffe://ex.org/spire/agent/n1","selectors":["u:1"]},{"id":"00000000-0000-0000-0000-000000000002","identity":"spiffe://ex.org/B","op":"create","parent":"spiffe://ex.org/A","selectors":["u:1"]},{"id":"00000000-0000-0000-0000-000000000003","identity":"spiffe://ex.org/A","op":"create","parent":"spiffe://ex.org/B","selectors":["u:1"]}]}
{"call":2,"place":2,"replies":[{"entry":{"domains":[],"expiry":0,"hint":"","id":"00000000-0000-0000-0000-000000000001","identity":"spiffe://ex.org/A","parent":"spiffe://ex.org/spire/agent/n1","revision":0,"selectors":["u:1"]}},{"entry":{"domains":[],"expiry":0,"hint":"","id":"00000000-0000-0000-0000-000000000002","identity":"spiffe://ex.org/B","parent":"spiffe://ex.org/A","revision":0,"selectors":["u:1"]}},{"entry":{"domains":[],"expiry":0,"hint":"","id":"00000000-0000-0000-0000-000000000003","identity":"spiffe://ex.org/A","parent":"spiffe://ex.org/B","revision":0,"selectors":["u:1"]}}],"result":"committed"}
{"ops":[{"agent":"spiffe://ex.org/spire/agent/n1","op":"authorised"}]}
{"call":3,"place":2,"replies":[{"entries":[{"domains":[],"expiry":0,"hint":"","id":"00000000-0000-0000-0000-000000000001","identity":"spiffe://ex.org/A","parent":"spiffe://ex.org/spire/agent/n1","revision":0,"selectors":["u:1"]},{"domains":[],"expiry":0,"hint":"","id":"00000000-0000-0000-0000-000000000002","identity":"spiffe://ex.org/B","parent":"spiffe://ex.org/A","revision":0,"selectors":["u:1"]},{"domains":[],"expiry":0,"hint":"","id":"00000000-0000-0000-0000-000000000003","identity":"spiffe://ex.org/A","parent":"spiffe://ex.org/B","revision":0,"selectors":["u:1"]}]}],"result":"answered"}
"#;

#[test]
fn cycle_of_parents(rt: HostRuntime) -> Result<(), Fail> {
    are_answered(&rt, rt.alloc(), CYCLE)
}

/// The agent's node has exactly the selectors of the alias, then one more, then one of them alone.
const ALIAS: &str = r#"
{"ops":[{"id":"00000000-0000-0000-0000-000000000001","identity":"spiffe://ex.org/alias","op":"create","parent":"spiffe://ex.org/spire/server","selectors":["x:1","x:2"]},{"id":"00000000-0000-0000-0000-000000000002","identity":"spiffe://ex.org/web","op":"create","parent":"spiffe://ex.org/alias","selectors":["u:1"]},{"id":"00000000-0000-0000-0000-000000000003","identity":"spiffe://ex.org/side","op":"create","parent":"spiffe://ex.org/web","selectors":["u:2"]}]}
{"call":1,"place":1,"replies":[{"entry":{"domains":[],"expiry":0,"hint":"","id":"00000000-0000-0000-0000-000000000001","identity":"spiffe://ex.org/alias","parent":"spiffe://ex.org/spire/server","revision":0,"selectors":["x:1","x:2"]}},{"entry":{"domains":[],"expiry":0,"hint":"","id":"00000000-0000-0000-0000-000000000002","identity":"spiffe://ex.org/web","parent":"spiffe://ex.org/alias","revision":0,"selectors":["u:1"]}},{"entry":{"domains":[],"expiry":0,"hint":"","id":"00000000-0000-0000-0000-000000000003","identity":"spiffe://ex.org/side","parent":"spiffe://ex.org/web","revision":0,"selectors":["u:2"]}}],"result":"committed"}
{"ops":[{"agent":"spiffe://ex.org/spire/agent/n1","op":"set_agent","selectors":["x:1","x:2"]}]}
{"call":2,"place":2,"replies":[{"agent":{"id":"spiffe://ex.org/spire/agent/n1","selectors":["x:1","x:2"]}}],"result":"committed"}
{"ops":[{"agent":"spiffe://ex.org/spire/agent/n1","op":"authorised"}]}
{"call":3,"place":2,"replies":[{"entries":[{"domains":[],"expiry":0,"hint":"","id":"00000000-0000-0000-0000-000000000001","identity":"spiffe://ex.org/alias","parent":"spiffe://ex.org/spire/server","revision":0,"selectors":["x:1","x:2"]},{"domains":[],"expiry":0,"hint":"","id":"00000000-0000-0000-0000-000000000002","identity":"spiffe://ex.org/web","parent":"spiffe://ex.org/alias","revision":0,"selectors":["u:1"]},{"domains":[],"expiry":0,"hint":"","id":"00000000-0000-0000-0000-000000000003","identity":"spiffe://ex.org/side","parent":"spiffe://ex.org/web","revision":0,"selectors":["u:2"]}]}],"result":"answered"}
{"ops":[{"agent":"spiffe://ex.org/spire/agent/n1","op":"set_agent","selectors":["x:1","x:2","x:3"]}]}
{"call":4,"place":3,"replies":[{"agent":{"id":"spiffe://ex.org/spire/agent/n1","selectors":["x:1","x:2","x:3"]}}],"result":"committed"}
{"ops":[{"agent":"spiffe://ex.org/spire/agent/n1","op":"authorised"}]}
{"call":5,"place":3,"replies":[{"entries":[{"domains":[],"expiry":0,"hint":"","id":"00000000-0000-0000-0000-000000000001","identity":"spiffe://ex.org/alias","parent":"spiffe://ex.org/spire/server","revision":0,"selectors":["x:1","x:2"]},{"domains":[],"expiry":0,"hint":"","id":"00000000-0000-0000-0000-000000000002","identity":"spiffe://ex.org/web","parent":"spiffe://ex.org/alias","revision":0,"selectors":["u:1"]},{"domains":[],"expiry":0,"hint":"","id":"00000000-0000-0000-0000-000000000003","identity":"spiffe://ex.org/side","parent":"spiffe://ex.org/web","revision":0,"selectors":["u:2"]}]}],"result":"answered"}
{"ops":[{"agent":"spiffe://ex.org/spire/agent/n1","op":"set_agent","selectors":["x:1"]}]}
{"call":6,"place":4,"replies":[{"agent":{"id":"spiffe://ex.org/spire/agent/n1","selectors":["x:1"]}}],"result":"committed"}
{"ops":[{"agent":"spiffe://ex.org/spire/agent/n1","op":"authorised"}]}
{"call":7,"place":4,"replies":[{"entries":[]}],"result":"answered"}
"#;

#[test]
fn alias_held_by_all_its_selectors(rt: HostRuntime) -> Result<(), Fail> {
    are_answered(&rt, rt.alloc(), ALIAS)
}

/// Each operation of a batch sees what the earlier ones left.
const DISSOCIATED: &str = r#"
{"ops":[{"domain":"b.org","op":"set_bundle","text":"{}"}]}
{"call":1,"place":1,"replies":[{"bundle":{"domain":"b.org","sequence":0,"text":"{}"}}],"result":"committed"}
{"ops":[{"domains":["b.org"],"id":"00000000-0000-0000-0000-000000000001","identity":"spiffe://ex.org/web","op":"create","parent":"spiffe://ex.org/spire/agent/n1","selectors":["u:1"]},{"domain":"b.org","mode":"dissociate","op":"drop_bundle"},{"id":"00000000-0000-0000-0000-000000000001","op":"show"}]}
{"call":2,"place":2,"replies":[{"entry":{"domains":["b.org"],"expiry":0,"hint":"","id":"00000000-0000-0000-0000-000000000001","identity":"spiffe://ex.org/web","parent":"spiffe://ex.org/spire/agent/n1","revision":0,"selectors":["u:1"]}},{"deleted":[],"dissociated":["00000000-0000-0000-0000-000000000001"]},{"entry":{"domains":[],"expiry":0,"hint":"","id":"00000000-0000-0000-0000-000000000001","identity":"spiffe://ex.org/web","parent":"spiffe://ex.org/spire/agent/n1","revision":1,"selectors":["u:1"]}}],"result":"committed"}
"#;

#[test]
fn dissociated_entry_shown_in_the_same_batch(rt: HostRuntime) -> Result<(), Fail> {
    are_answered(&rt, rt.alloc(), DISSOCIATED)
}

/// An entry keeps its lifetimes when it loses a domain; an update removes those that it leaves out.
const LIFETIMES: &str = r#"
{"ops":[{"op":"set_bundle","domain":"b.org","text":"{}"}]}
{"call":1,"place":1,"replies":[{"bundle":{"domain":"b.org","sequence":0,"text":"{}"}}],"result":"committed"}
{"ops":[{"op":"create","id":"00000000-0000-0000-0000-000000000001","parent":"spiffe://ex.org/spire/agent/n1","identity":"spiffe://ex.org/web","selectors":["u:1"],"domains":["b.org"],"jwt_svid_ttl":300,"x509_svid_ttl":3600}]}
{"call":2,"place":2,"replies":[{"entry":{"domains":["b.org"],"expiry":0,"hint":"","id":"00000000-0000-0000-0000-000000000001","identity":"spiffe://ex.org/web","jwt_svid_ttl":300,"parent":"spiffe://ex.org/spire/agent/n1","revision":0,"selectors":["u:1"],"x509_svid_ttl":3600}}],"result":"committed"}
{"ops":[{"op":"drop_bundle","domain":"b.org","mode":"dissociate"}]}
{"call":3,"place":3,"replies":[{"deleted":[],"dissociated":["00000000-0000-0000-0000-000000000001"]}],"result":"committed"}
{"ops":[{"op":"show","id":"00000000-0000-0000-0000-000000000001"}]}
{"call":4,"place":3,"replies":[{"entry":{"domains":[],"expiry":0,"hint":"","id":"00000000-0000-0000-0000-000000000001","identity":"spiffe://ex.org/web","jwt_svid_ttl":300,"parent":"spiffe://ex.org/spire/agent/n1","revision":1,"selectors":["u:1"],"x509_svid_ttl":3600}}],"result":"answered"}
{"ops":[{"op":"update","id":"00000000-0000-0000-0000-000000000001","parent":"spiffe://ex.org/spire/agent/n1","identity":"spiffe://ex.org/web","selectors":["u:1"],"jwt_svid_ttl":60}]}
{"call":5,"place":4,"replies":[{"entry":{"domains":[],"expiry":0,"hint":"","id":"00000000-0000-0000-0000-000000000001","identity":"spiffe://ex.org/web","jwt_svid_ttl":60,"parent":"spiffe://ex.org/spire/agent/n1","revision":2,"selectors":["u:1"]}}],"result":"committed"}
{"ops":[{"op":"update","id":"00000000-0000-0000-0000-000000000001","parent":"spiffe://ex.org/spire/agent/n1","identity":"spiffe://ex.org/web","selectors":["u:1"]}]}
{"call":6,"place":5,"replies":[{"entry":{"domains":[],"expiry":0,"hint":"","id":"00000000-0000-0000-0000-000000000001","identity":"spiffe://ex.org/web","parent":"spiffe://ex.org/spire/agent/n1","revision":3,"selectors":["u:1"]}}],"result":"committed"}
{"ops":[{"op":"show","id":"00000000-0000-0000-0000-000000000001"}]}
{"call":7,"place":5,"replies":[{"entry":{"domains":[],"expiry":0,"hint":"","id":"00000000-0000-0000-0000-000000000001","identity":"spiffe://ex.org/web","parent":"spiffe://ex.org/spire/agent/n1","revision":3,"selectors":["u:1"]}}],"result":"answered"}
"#;

#[test]
fn lifetimes_left_out_are_none(rt: HostRuntime) -> Result<(), Fail> {
    are_answered(&rt, rt.alloc(), LIFETIMES)
}

/// The last operation is refused, and nothing of its batch takes effect.
const STALE: &str = r#"
{"ops":[{"id":"00000000-0000-0000-0000-000000000001","identity":"spiffe://ex.org/web","op":"create","parent":"spiffe://ex.org/spire/agent/n1","selectors":["u:1"]}]}
{"call":1,"place":1,"replies":[{"entry":{"domains":[],"expiry":0,"hint":"","id":"00000000-0000-0000-0000-000000000001","identity":"spiffe://ex.org/web","parent":"spiffe://ex.org/spire/agent/n1","revision":0,"selectors":["u:1"]}}],"result":"committed"}
{"ops":[{"id":"00000000-0000-0000-0000-000000000002","identity":"spiffe://ex.org/api","op":"create","parent":"spiffe://ex.org/spire/agent/n1","selectors":["u:1"]},{"id":"00000000-0000-0000-0000-000000000001","identity":"spiffe://ex.org/web","op":"update","parent":"spiffe://ex.org/spire/agent/n1","revision":0,"selectors":["u:1"]},{"id":"00000000-0000-0000-0000-000000000001","op":"delete","revision":0}]}
{"call":2,"code":"O4","op":2,"place":1,"result":"refused"}
{"ops":[{"id":"00000000-0000-0000-0000-000000000001","op":"show"}]}
{"call":3,"place":1,"replies":[{"entry":{"domains":[],"expiry":0,"hint":"","id":"00000000-0000-0000-0000-000000000001","identity":"spiffe://ex.org/web","parent":"spiffe://ex.org/spire/agent/n1","revision":0,"selectors":["u:1"]}}],"result":"answered"}
{"ops":[{"id":"00000000-0000-0000-0000-000000000002","op":"show"}]}
{"call":4,"place":1,"replies":[{"entry":null}],"result":"answered"}
"#;

#[test]
fn stale_delete_keeps_nothing(rt: HostRuntime) -> Result<(), Fail> {
    are_answered(&rt, rt.alloc(), STALE)
}

/// An entry without expiry, one that expires before the moment, and one at it.
const PRUNED: &str = r#"
{"ops":[{"id":"00000000-0000-0000-0000-000000000001","identity":"spiffe://ex.org/e1","op":"create","parent":"spiffe://ex.org/spire/agent/n1","selectors":["u:1"]},{"expiry":99,"id":"00000000-0000-0000-0000-000000000002","identity":"spiffe://ex.org/e2","op":"create","parent":"spiffe://ex.org/spire/agent/n1","selectors":["u:1"]},{"expiry":100,"id":"00000000-0000-0000-0000-000000000003","identity":"spiffe://ex.org/e3","op":"create","parent":"spiffe://ex.org/spire/agent/n1","selectors":["u:1"]}]}
{"call":1,"place":1,"replies":[{"entry":{"domains":[],"expiry":0,"hint":"","id":"00000000-0000-0000-0000-000000000001","identity":"spiffe://ex.org/e1","parent":"spiffe://ex.org/spire/agent/n1","revision":0,"selectors":["u:1"]}},{"entry":{"domains":[],"expiry":99,"hint":"","id":"00000000-0000-0000-0000-000000000002","identity":"spiffe://ex.org/e2","parent":"spiffe://ex.org/spire/agent/n1","revision":0,"selectors":["u:1"]}},{"entry":{"domains":[],"expiry":100,"hint":"","id":"00000000-0000-0000-0000-000000000003","identity":"spiffe://ex.org/e3","parent":"spiffe://ex.org/spire/agent/n1","revision":0,"selectors":["u:1"]}}],"result":"committed"}
{"ops":[{"before":100,"op":"prune"}]}
{"call":2,"place":2,"replies":[{"pruned":["00000000-0000-0000-0000-000000000002"]}],"result":"committed"}
"#;

#[test]
fn pruned_before_a_moment(rt: HostRuntime) -> Result<(), Fail> {
    are_answered(&rt, rt.alloc(), PRUNED)
}

/// A bundle's sequence grows with each further set.
const TRUSTED: &str = r#"
{"ops":[{"domain":"b.org","op":"set_bundle","text":"{}"}]}
{"call":1,"place":1,"replies":[{"bundle":{"domain":"b.org","sequence":0,"text":"{}"}}],"result":"committed"}
{"ops":[{"domain":"b.org","op":"set_bundle","text":"{}"}]}
{"call":2,"place":2,"replies":[{"bundle":{"domain":"b.org","sequence":1,"text":"{}"}}],"result":"committed"}
{"ops":[{"agent":"spiffe://ex.org/spire/agent/n1","op":"set_agent","selectors":[]}]}
{"call":3,"place":3,"replies":[{"agent":{"id":"spiffe://ex.org/spire/agent/n1","selectors":[]}}],"result":"committed"}
{"ops":[{"domains":["b.org"],"id":"00000000-0000-0000-0000-000000000001","identity":"spiffe://ex.org/web","op":"create","parent":"spiffe://ex.org/spire/agent/n1","selectors":["u:1"]}]}
{"call":4,"place":4,"replies":[{"entry":{"domains":["b.org"],"expiry":0,"hint":"","id":"00000000-0000-0000-0000-000000000001","identity":"spiffe://ex.org/web","parent":"spiffe://ex.org/spire/agent/n1","revision":0,"selectors":["u:1"]}}],"result":"committed"}
{"ops":[{"agent":"spiffe://ex.org/spire/agent/n1","op":"trust"}]}
{"call":5,"place":4,"replies":[{"bundles":[{"domain":"b.org","sequence":1,"text":"{}"}]}],"result":"answered"}
"#;

#[test]
fn trusted_bundle_set_twice(rt: HostRuntime) -> Result<(), Fail> {
    are_answered(&rt, rt.alloc(), TRUSTED)
}

/// An update keeps only the id of the entry, and adds 1 to its revision.
const UPDATED: &str = r#"
{"ops":[{"op":"set_bundle","domain":"b.org","text":"{}"},{"op":"create","id":"00000000-0000-0000-0000-000000000001","parent":"spiffe://ex.org/spire/agent/n1","identity":"spiffe://ex.org/web","selectors":["u:1"],"hint":"h","domains":["b.org"],"expiry":7}]}
{"call":1,"place":1,"replies":[{"bundle":{"domain":"b.org","sequence":0,"text":"{}"}},{"entry":{"domains":["b.org"],"expiry":7,"hint":"h","id":"00000000-0000-0000-0000-000000000001","identity":"spiffe://ex.org/web","parent":"spiffe://ex.org/spire/agent/n1","revision":0,"selectors":["u:1"]}}],"result":"committed"}
{"ops":[{"op":"update","id":"00000000-0000-0000-0000-000000000001","parent":"spiffe://ex.org/spire/agent/n1","identity":"spiffe://ex.org/web","selectors":["u:1"]}]}
{"call":2,"place":2,"replies":[{"entry":{"domains":[],"expiry":0,"hint":"","id":"00000000-0000-0000-0000-000000000001","identity":"spiffe://ex.org/web","parent":"spiffe://ex.org/spire/agent/n1","revision":1,"selectors":["u:1"]}}],"result":"committed"}
{"ops":[{"op":"update","id":"00000000-0000-0000-0000-000000000001","parent":"spiffe://ex.org/spire/agent/n1","identity":"spiffe://ex.org/web","selectors":["u:1"],"revision":0}]}
{"call":3,"code":"O4","op":0,"place":2,"result":"refused"}
{"ops":[{"op":"update","id":"00000000-0000-0000-0000-000000000001","parent":"spiffe://ex.org/spire/agent/n1","identity":"spiffe://ex.org/api","selectors":["u:2"],"hint":null,"domains":null,"expiry":null,"revision":1}]}
{"call":4,"place":3,"replies":[{"entry":{"domains":[],"expiry":0,"hint":"","id":"00000000-0000-0000-0000-000000000001","identity":"spiffe://ex.org/api","parent":"spiffe://ex.org/spire/agent/n1","revision":2,"selectors":["u:2"]}}],"result":"committed"}
{"ops":[{"op":"update","id":"00000000-0000-0000-0000-000000000009","parent":"spiffe://ex.org/spire/agent/n1","identity":"spiffe://ex.org/web","selectors":["u:1"]}]}
{"call":5,"code":"O3","op":0,"place":3,"result":"refused"}
{"ops":[{"op":"create","id":"00000000-0000-0000-0000-000000000002","parent":"spiffe://ex.org/spire/agent/n1","identity":"spiffe://ex.org/web","selectors":["u:1"]},{"op":"update","id":"00000000-0000-0000-0000-000000000002","parent":"spiffe://ex.org/spire/agent/n1","identity":"spiffe://ex.org/api","selectors":["u:2"]}]}
{"call":6,"code":"O2","detail":"00000000-0000-0000-0000-000000000001","op":1,"place":3,"result":"refused"}
{"ops":[{"op":"update","id":"00000000-0000-0000-0000-000000000001","parent":"spiffe://ex.org/spire/agent/n1","identity":"spiffe://ex.org/api","selectors":["u:2"],"domains":["c.org","b.org","a.org"],"revision":2}]}
{"call":7,"code":"O5","detail":"a.org","op":0,"place":3,"result":"refused"}
{"ops":[{"op":"show","id":"00000000-0000-0000-0000-000000000001"}]}
{"call":8,"place":3,"replies":[{"entry":{"domains":[],"expiry":0,"hint":"","id":"00000000-0000-0000-0000-000000000001","identity":"spiffe://ex.org/api","parent":"spiffe://ex.org/spire/agent/n1","revision":2,"selectors":["u:2"]}}],"result":"answered"}
"#;

#[test]
fn update_sets_what_it_leaves_out(rt: HostRuntime) -> Result<(), Fail> {
    are_answered(&rt, rt.alloc(), UPDATED)
}

/// Entries that name the bundle make its drop fail, lose its domain, or are deleted with it.
const DROPPED: &str = r#"
{"ops":[{"op":"set_bundle","domain":"c.org","text":""},{"op":"set_bundle","domain":"b.org","text":"{}"}]}
{"call":1,"place":1,"replies":[{"bundle":{"domain":"c.org","sequence":0,"text":""}},{"bundle":{"domain":"b.org","sequence":0,"text":"{}"}}],"result":"committed"}
{"ops":[{"op":"create","id":"00000000-0000-0000-0000-000000000002","parent":"spiffe://ex.org/spire/agent/n1","identity":"spiffe://ex.org/api","selectors":["u:1"],"domains":["b.org"]},{"op":"create","id":"00000000-0000-0000-0000-000000000001","parent":"spiffe://ex.org/spire/agent/n1","identity":"spiffe://ex.org/web","selectors":["u:1"],"domains":["c.org","b.org","c.org"]}]}
{"call":2,"place":2,"replies":[{"entry":{"domains":["b.org"],"expiry":0,"hint":"","id":"00000000-0000-0000-0000-000000000002","identity":"spiffe://ex.org/api","parent":"spiffe://ex.org/spire/agent/n1","revision":0,"selectors":["u:1"]}},{"entry":{"domains":["b.org","c.org"],"expiry":0,"hint":"","id":"00000000-0000-0000-0000-000000000001","identity":"spiffe://ex.org/web","parent":"spiffe://ex.org/spire/agent/n1","revision":0,"selectors":["u:1"]}}],"result":"committed"}
{"ops":[{"op":"drop_bundle","domain":"b.org"}]}
{"call":3,"code":"O6","op":0,"place":2,"result":"refused"}
{"ops":[{"op":"drop_bundle","domain":"b.org","mode":"restrict"}]}
{"call":4,"code":"O6","op":0,"place":2,"result":"refused"}
{"ops":[{"op":"drop_bundle","domain":"b.org","mode":"dissociate"}]}
{"call":5,"place":3,"replies":[{"deleted":[],"dissociated":["00000000-0000-0000-0000-000000000001","00000000-0000-0000-0000-000000000002"]}],"result":"committed"}
{"ops":[{"op":"show","id":"00000000-0000-0000-0000-000000000001"},{"op":"show","id":"00000000-0000-0000-0000-000000000002"},{"op":"show_bundle","domain":"b.org"}]}
{"call":6,"place":3,"replies":[{"entry":{"domains":["c.org"],"expiry":0,"hint":"","id":"00000000-0000-0000-0000-000000000001","identity":"spiffe://ex.org/web","parent":"spiffe://ex.org/spire/agent/n1","revision":1,"selectors":["u:1"]}},{"entry":{"domains":[],"expiry":0,"hint":"","id":"00000000-0000-0000-0000-000000000002","identity":"spiffe://ex.org/api","parent":"spiffe://ex.org/spire/agent/n1","revision":1,"selectors":["u:1"]}},{"bundle":null}],"result":"answered"}
{"ops":[{"op":"drop_bundle","domain":"b.org","mode":null}]}
{"call":7,"code":"O5","detail":"b.org","op":0,"place":3,"result":"refused"}
{"ops":[{"op":"drop_bundle","domain":"c.org","mode":"delete"}]}
{"call":8,"place":4,"replies":[{"deleted":["00000000-0000-0000-0000-000000000001"],"dissociated":[]}],"result":"committed"}
{"ops":[{"op":"children","parent":"spiffe://ex.org/spire/agent/n1"}]}
{"call":9,"place":4,"replies":[{"entries":[{"domains":[],"expiry":0,"hint":"","id":"00000000-0000-0000-0000-000000000002","identity":"spiffe://ex.org/api","parent":"spiffe://ex.org/spire/agent/n1","revision":1,"selectors":["u:1"]}]}],"result":"answered"}
a bundle that was dropped begins again
{"ops":[{"op":"set_bundle","domain":"c.org","text":"{}"},{"op":"set_bundle","domain":"c.org","text":"a \"text\""}]}
{"call":10,"place":5,"replies":[{"bundle":{"domain":"c.org","sequence":0,"text":"{}"}},{"bundle":{"domain":"c.org","sequence":1,"text":"a \"text\""}}],"result":"committed"}
"#;

#[test]
fn bundle_dropped_in_each_mode(rt: HostRuntime) -> Result<(), Fail> {
    are_answered(&rt, rt.alloc(), DROPPED)
}

/// An agent is set again, shown and dropped.
const AGENTS: &str = r#"
{"ops":[{"op":"show_agent","agent":"spiffe://ex.org/spire/agent/n1"}]}
{"call":1,"place":0,"replies":[{"agent":null}],"result":"answered"}
{"ops":[{"op":"set_agent","agent":"spiffe://ex.org/spire/agent/n1","selectors":["x:1"]}]}
{"call":2,"place":1,"replies":[{"agent":{"id":"spiffe://ex.org/spire/agent/n1","selectors":["x:1"]}}],"result":"committed"}
{"ops":[{"op":"set_agent","agent":"spiffe://ex.org/spire/agent/n1","selectors":[]},{"op":"show_agent","agent":"spiffe://ex.org/spire/agent/n1"}]}
{"call":3,"place":2,"replies":[{"agent":{"id":"spiffe://ex.org/spire/agent/n1","selectors":[]}},{"agent":{"id":"spiffe://ex.org/spire/agent/n1","selectors":[]}}],"result":"committed"}
{"ops":[{"op":"drop_agent","agent":"spiffe://ex.org/spire/agent/n1"}]}
{"call":4,"place":3,"replies":[{"agent":{"id":"spiffe://ex.org/spire/agent/n1","selectors":[]}}],"result":"committed"}
{"ops":[{"op":"drop_agent","agent":"spiffe://ex.org/spire/agent/n1"}]}
{"call":5,"code":"O7","op":0,"place":3,"result":"refused"}
{"ops":[{"op":"show_agent","agent":"spiffe://ex.org/spire/agent/n1"},{"op":"trust","agent":"spiffe://ex.org/spire/agent/n1"}]}
{"call":6,"code":"O7","op":1,"place":3,"result":"refused"}
"#;

#[test]
fn agent_set_shown_and_dropped(rt: HostRuntime) -> Result<(), Fail> {
    are_answered(&rt, rt.alloc(), AGENTS)
}

/// The entries of a parent, in the order of ids.
const CHILDREN: &str = r#"
{"ops":[{"op":"create","id":"00000000-0000-0000-0000-000000000002","parent":"spiffe://ex.org/a","identity":"spiffe://ex.org/web","selectors":["u:1"]},{"op":"create","id":"00000000-0000-0000-0000-000000000001","parent":"spiffe://ex.org/a","identity":"spiffe://ex.org/api","selectors":["u:1"]},{"op":"create","id":"00000000-0000-0000-0000-000000000003","parent":"spiffe://ex.org/b","identity":"spiffe://ex.org/web","selectors":["u:1"]}]}
{"call":1,"place":1,"replies":[{"entry":{"domains":[],"expiry":0,"hint":"","id":"00000000-0000-0000-0000-000000000002","identity":"spiffe://ex.org/web","parent":"spiffe://ex.org/a","revision":0,"selectors":["u:1"]}},{"entry":{"domains":[],"expiry":0,"hint":"","id":"00000000-0000-0000-0000-000000000001","identity":"spiffe://ex.org/api","parent":"spiffe://ex.org/a","revision":0,"selectors":["u:1"]}},{"entry":{"domains":[],"expiry":0,"hint":"","id":"00000000-0000-0000-0000-000000000003","identity":"spiffe://ex.org/web","parent":"spiffe://ex.org/b","revision":0,"selectors":["u:1"]}}],"result":"committed"}
{"ops":[{"op":"children","parent":"spiffe://ex.org/a"}]}
{"call":2,"place":1,"replies":[{"entries":[{"domains":[],"expiry":0,"hint":"","id":"00000000-0000-0000-0000-000000000001","identity":"spiffe://ex.org/api","parent":"spiffe://ex.org/a","revision":0,"selectors":["u:1"]},{"domains":[],"expiry":0,"hint":"","id":"00000000-0000-0000-0000-000000000002","identity":"spiffe://ex.org/web","parent":"spiffe://ex.org/a","revision":0,"selectors":["u:1"]}]}],"result":"answered"}
{"ops":[{"op":"delete","id":"00000000-0000-0000-0000-000000000001","revision":null},{"op":"children","parent":"spiffe://ex.org/a"}]}
{"call":3,"place":2,"replies":[{"entry":{"domains":[],"expiry":0,"hint":"","id":"00000000-0000-0000-0000-000000000001","identity":"spiffe://ex.org/api","parent":"spiffe://ex.org/a","revision":0,"selectors":["u:1"]}},{"entries":[{"domains":[],"expiry":0,"hint":"","id":"00000000-0000-0000-0000-000000000002","identity":"spiffe://ex.org/web","parent":"spiffe://ex.org/a","revision":0,"selectors":["u:1"]}]}],"result":"committed"}
{"ops":[{"op":"delete","id":"00000000-0000-0000-0000-000000000001"}]}
{"call":4,"code":"O3","op":0,"place":2,"result":"refused"}
{"ops":[{"op":"children","parent":"spiffe://ex.org/c"}]}
{"call":5,"place":2,"replies":[{"entries":[]}],"result":"answered"}
"#;

#[test]
fn children_in_the_order_of_ids(rt: HostRuntime) -> Result<(), Fail> {
    are_answered(&rt, rt.alloc(), CHILDREN)
}

/// If two refusals of an operation apply, the reply is the first in its table.
const IN_TURN: &str = r#"
{"ops":[{"op":"create","id":"00000000-0000-0000-0000-000000000001","parent":"spiffe://ex.org/spire/agent/n1","identity":"spiffe://ex.org/web","selectors":["u:1"]}]}
{"call":1,"place":1,"replies":[{"entry":{"domains":[],"expiry":0,"hint":"","id":"00000000-0000-0000-0000-000000000001","identity":"spiffe://ex.org/web","parent":"spiffe://ex.org/spire/agent/n1","revision":0,"selectors":["u:1"]}}],"result":"committed"}
the id is taken, another entry is similar, and a domain has no bundle
{"ops":[{"op":"create","id":"00000000-0000-0000-0000-000000000001","parent":"spiffe://ex.org/spire/agent/n1","identity":"spiffe://ex.org/web","selectors":["u:1"],"domains":["z.org"]}]}
{"call":2,"code":"O1","op":0,"place":1,"result":"refused"}
{"ops":[{"op":"create","id":"00000000-0000-0000-0000-000000000002","parent":"spiffe://ex.org/spire/agent/n1","identity":"spiffe://ex.org/web","selectors":["u:1"],"domains":["z.org"]}]}
{"call":3,"code":"O2","detail":"00000000-0000-0000-0000-000000000001","op":0,"place":1,"result":"refused"}
{"ops":[{"op":"create","id":"00000000-0000-0000-0000-000000000002","parent":"spiffe://ex.org/spire/agent/n1","identity":"spiffe://ex.org/web","selectors":["u:2"],"domains":["z.org","c.org"]}]}
{"call":4,"code":"O5","detail":"c.org","op":0,"place":1,"result":"refused"}
the server's own domain never has a bundle
{"ops":[{"op":"show_bundle","domain":"ex.org"},{"op":"create","id":"00000000-0000-0000-0000-000000000002","parent":"spiffe://ex.org/spire/agent/n1","identity":"spiffe://ex.org/web","selectors":["u:2"],"domains":["ex.org"]}]}
{"call":5,"code":"O5","detail":"ex.org","op":1,"place":1,"result":"refused"}
no such entry, and a stale revision
{"ops":[{"op":"update","id":"00000000-0000-0000-0000-000000000009","parent":"spiffe://ex.org/spire/agent/n1","identity":"spiffe://ex.org/web","selectors":["u:1"],"revision":4,"domains":["z.org"]}]}
{"call":6,"code":"O3","op":0,"place":1,"result":"refused"}
{"ops":[{"op":"create","id":"00000000-0000-0000-0000-000000000002","parent":"spiffe://ex.org/spire/agent/n1","identity":"spiffe://ex.org/api","selectors":["u:1"]},{"op":"update","id":"00000000-0000-0000-0000-000000000002","parent":"spiffe://ex.org/spire/agent/n1","identity":"spiffe://ex.org/web","selectors":["u:1"],"revision":4,"domains":["z.org"]}]}
{"call":7,"code":"O4","op":1,"place":1,"result":"refused"}
{"ops":[{"op":"delete","id":"00000000-0000-0000-0000-000000000009","revision":4}]}
{"call":8,"code":"O3","op":0,"place":1,"result":"refused"}
the first operation that is refused refuses the batch
{"ops":[{"op":"show","id":"00000000-0000-0000-0000-000000000001"},{"op":"authorised","agent":"spiffe://ex.org/spire/agent/n1"},{"op":"create","id":"00000000-0000-0000-0000-000000000001","parent":"spiffe://ex.org/spire/agent/n1","identity":"spiffe://ex.org/web","selectors":["u:1"]}]}
{"call":9,"code":"O7","op":1,"place":1,"result":"refused"}
"#;

#[test]
fn refusals_of_an_operation_in_their_order(rt: HostRuntime) -> Result<(), Fail> {
    are_answered(&rt, rt.alloc(), IN_TURN)
}
