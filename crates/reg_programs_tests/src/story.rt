//! A run as an operator knows it: the lines of `examples/operator.jsonl`, each with its reply.

use crate::engine::are_answered;
use std::test::Fail;

/// Node aliases, a workload below two parents, a partner's bundle, and entries that expire.
const STORY: &str = r#"
two agents, with what their nodes have
{"ops":[{"op":"set_agent","agent":"spiffe://ex.org/spire/agent/a","selectors":["host:a","rack:1"]},{"op":"set_agent","agent":"spiffe://ex.org/spire/agent/b","selectors":["host:b","role:build"]}]}
{"call":1,"place":1,"replies":[{"agent":{"id":"spiffe://ex.org/spire/agent/a","selectors":["host:a","rack:1"]}},{"agent":{"id":"spiffe://ex.org/spire/agent/b","selectors":["host:b","role:build"]}}],"result":"committed"}
two node aliases: each agent holds the one whose selectors its node has
{"ops":[{"op":"create","parent":"spiffe://ex.org/spire/server","identity":"spiffe://ex.org/node/rack-1","selectors":["rack:1"]},{"op":"create","parent":"spiffe://ex.org/spire/server","identity":"spiffe://ex.org/node/build","selectors":["role:build"]}]}
{"call":2,"place":2,"replies":[{"entry":{"domains":[],"expiry":0,"hint":"","id":"76b8e0ad-a0f1-4d90-805d-6ae55386bd28","identity":"spiffe://ex.org/node/rack-1","parent":"spiffe://ex.org/spire/server","revision":0,"selectors":["rack:1"]}},{"entry":{"domains":[],"expiry":0,"hint":"","id":"bdd219b8-a08d-4d1a-a836-efcc8b770dc7","identity":"spiffe://ex.org/node/build","parent":"spiffe://ex.org/spire/server","revision":0,"selectors":["role:build"]}}],"result":"committed"}
a workload behind both aliases, and a workload behind it
{"ops":[{"op":"create","parent":"spiffe://ex.org/node/rack-1","identity":"spiffe://ex.org/web","selectors":["unix:uid:1000"]},{"op":"create","parent":"spiffe://ex.org/node/build","identity":"spiffe://ex.org/web","selectors":["unix:uid:1000"]},{"op":"create","parent":"spiffe://ex.org/web","identity":"spiffe://ex.org/web/log","selectors":["unix:path:/usr/bin/log"]}]}
{"call":3,"place":3,"replies":[{"entry":{"domains":[],"expiry":0,"hint":"","id":"da41597c-5157-488d-b724-e03fb8d84a37","identity":"spiffe://ex.org/web","parent":"spiffe://ex.org/node/rack-1","revision":0,"selectors":["unix:uid:1000"]}},{"entry":{"domains":[],"expiry":0,"hint":"","id":"6a43b8f4-1518-411c-8387-b669b2ee6586","identity":"spiffe://ex.org/web","parent":"spiffe://ex.org/node/build","revision":0,"selectors":["unix:uid:1000"]}},{"entry":{"domains":[],"expiry":0,"hint":"","id":"9f07e7be-5551-487a-98ba-977c732d080d","identity":"spiffe://ex.org/web/log","parent":"spiffe://ex.org/web","revision":0,"selectors":["unix:path:/usr/bin/log"]}}],"result":"committed"}
{"ops":[{"op":"authorised","agent":"spiffe://ex.org/spire/agent/a"}]}
{"call":4,"place":3,"replies":[{"entries":[{"domains":[],"expiry":0,"hint":"","id":"76b8e0ad-a0f1-4d90-805d-6ae55386bd28","identity":"spiffe://ex.org/node/rack-1","parent":"spiffe://ex.org/spire/server","revision":0,"selectors":["rack:1"]},{"domains":[],"expiry":0,"hint":"","id":"9f07e7be-5551-487a-98ba-977c732d080d","identity":"spiffe://ex.org/web/log","parent":"spiffe://ex.org/web","revision":0,"selectors":["unix:path:/usr/bin/log"]},{"domains":[],"expiry":0,"hint":"","id":"da41597c-5157-488d-b724-e03fb8d84a37","identity":"spiffe://ex.org/web","parent":"spiffe://ex.org/node/rack-1","revision":0,"selectors":["unix:uid:1000"]}]}],"result":"answered"}
{"ops":[{"op":"authorised","agent":"spiffe://ex.org/spire/agent/b"}]}
{"call":5,"place":3,"replies":[{"entries":[{"domains":[],"expiry":0,"hint":"","id":"6a43b8f4-1518-411c-8387-b669b2ee6586","identity":"spiffe://ex.org/web","parent":"spiffe://ex.org/node/build","revision":0,"selectors":["unix:uid:1000"]},{"domains":[],"expiry":0,"hint":"","id":"9f07e7be-5551-487a-98ba-977c732d080d","identity":"spiffe://ex.org/web/log","parent":"spiffe://ex.org/web","revision":0,"selectors":["unix:path:/usr/bin/log"]},{"domains":[],"expiry":0,"hint":"","id":"bdd219b8-a08d-4d1a-a836-efcc8b770dc7","identity":"spiffe://ex.org/node/build","parent":"spiffe://ex.org/spire/server","revision":0,"selectors":["role:build"]}]}],"result":"answered"}
a partner's bundle, and a workload that is given it
{"ops":[{"op":"set_bundle","domain":"partner.org","text":"{\"keys\":[]}"},{"op":"create","parent":"spiffe://ex.org/node/build","identity":"spiffe://ex.org/pay","selectors":["unix:uid:1001"],"domains":["partner.org"]}]}
{"call":6,"place":4,"replies":[{"bundle":{"domain":"partner.org","sequence":0,"text":"{\"keys\":[]}"}},{"entry":{"domains":["partner.org"],"expiry":0,"hint":"","id":"cb0f29a0-48e3-4569-92c6-533e32ee7aed","identity":"spiffe://ex.org/pay","parent":"spiffe://ex.org/node/build","revision":0,"selectors":["unix:uid:1001"]}}],"result":"committed"}
{"ops":[{"op":"trust","agent":"spiffe://ex.org/spire/agent/b"}]}
{"call":7,"place":4,"replies":[{"bundles":[{"domain":"partner.org","sequence":0,"text":"{\"keys\":[]}"}]}],"result":"answered"}
{"ops":[{"op":"trust","agent":"spiffe://ex.org/spire/agent/a"}]}
{"call":8,"place":4,"replies":[{"bundles":[]}],"result":"answered"}
the partner leaves: the bundle is in use, so its drop is refused, but it may take itself out of the entries
{"ops":[{"op":"drop_bundle","domain":"partner.org"}]}
{"call":9,"code":"O6","op":0,"place":4,"result":"refused"}
{"ops":[{"op":"drop_bundle","domain":"partner.org","mode":"dissociate"}]}
{"call":10,"place":5,"replies":[{"deleted":[],"dissociated":["cb0f29a0-48e3-4569-92c6-533e32ee7aed"]}],"result":"committed"}
{"ops":[{"op":"show","id":"cb0f29a0-48e3-4569-92c6-533e32ee7aed"},{"op":"trust","agent":"spiffe://ex.org/spire/agent/b"}]}
{"call":11,"place":5,"replies":[{"entry":{"domains":[],"expiry":0,"hint":"","id":"cb0f29a0-48e3-4569-92c6-533e32ee7aed","identity":"spiffe://ex.org/pay","parent":"spiffe://ex.org/node/build","revision":1,"selectors":["unix:uid:1001"]}},{"bundles":[]}],"result":"answered"}
two workloads for a time: each is pruned once it has expired
{"ops":[{"op":"create","parent":"spiffe://ex.org/node/rack-1","identity":"spiffe://ex.org/migrate","selectors":["unix:uid:1002"],"hint":"until the move is done","expiry":1700000000},{"op":"create","parent":"spiffe://ex.org/node/rack-1","identity":"spiffe://ex.org/audit","selectors":["unix:uid:1003"],"expiry":1700086400}]}
{"call":12,"place":6,"replies":[{"entry":{"domains":[],"expiry":1700000000,"hint":"until the move is done","id":"29b72176-9ce6-4e43-9571-33b074d839d5","identity":"spiffe://ex.org/migrate","parent":"spiffe://ex.org/node/rack-1","revision":0,"selectors":["unix:uid:1002"]}},{"entry":{"domains":[],"expiry":1700086400,"hint":"","id":"31ed1f28-510a-4b45-ace1-0a1f4b794d6f","identity":"spiffe://ex.org/audit","parent":"spiffe://ex.org/node/rack-1","revision":0,"selectors":["unix:uid:1003"]}}],"result":"committed"}
{"ops":[{"op":"prune","before":1700000000}]}
{"call":13,"place":7,"replies":[{"pruned":[]}],"result":"committed"}
{"ops":[{"op":"prune","before":1700000001}]}
{"call":14,"place":8,"replies":[{"pruned":["29b72176-9ce6-4e43-9571-33b074d839d5"]}],"result":"committed"}
{"ops":[{"op":"prune","before":1700086401}]}
{"call":15,"place":9,"replies":[{"pruned":["31ed1f28-510a-4b45-ace1-0a1f4b794d6f"]}],"result":"committed"}
{"ops":[{"op":"authorised","agent":"spiffe://ex.org/spire/agent/a"}]}
{"call":16,"place":9,"replies":[{"entries":[{"domains":[],"expiry":0,"hint":"","id":"76b8e0ad-a0f1-4d90-805d-6ae55386bd28","identity":"spiffe://ex.org/node/rack-1","parent":"spiffe://ex.org/spire/server","revision":0,"selectors":["rack:1"]},{"domains":[],"expiry":0,"hint":"","id":"9f07e7be-5551-487a-98ba-977c732d080d","identity":"spiffe://ex.org/web/log","parent":"spiffe://ex.org/web","revision":0,"selectors":["unix:path:/usr/bin/log"]},{"domains":[],"expiry":0,"hint":"","id":"da41597c-5157-488d-b724-e03fb8d84a37","identity":"spiffe://ex.org/web","parent":"spiffe://ex.org/node/rack-1","revision":0,"selectors":["unix:uid:1000"]}]}],"result":"answered"}
"#;

#[test]
fn day_of_an_operator(rt: HostRuntime) -> Result<(), Fail> {
    are_answered(&rt, rt.alloc(), STORY)
}
