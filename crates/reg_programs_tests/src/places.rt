//! Batches with a minimum place.

use crate::engine::are_answered;
use std::test::Fail;

/// Queries and changes, each with its minimum place.
const PLACES: &str = r#"
{"ops":[{"op":"show","id":"00000000-0000-0000-0000-000000000001"}],"after":1}
{"call":1,"code":"W1","place":0,"result":"refused"}
{"ops":[{"op":"show","id":"00000000-0000-0000-0000-000000000001"}],"after":0}
{"call":2,"place":0,"replies":[{"entry":null}],"result":"answered"}
the place is looked at before the operations
{"ops":[{"op":"drop_agent","agent":"spiffe://ex.org/spire/agent/n1"}],"after":1}
{"call":3,"code":"W1","place":0,"result":"refused"}
{"ops":[{"op":"page","size":1,"at":1}],"after":1}
{"call":4,"code":"W1","place":0,"result":"refused"}
a batch that is refused so has drawn the id of its create
{"ops":[{"op":"create","parent":"spiffe://ex.org/spire/agent/n1","identity":"spiffe://ex.org/web","selectors":["u:1"]}],"after":18446744073709551615}
{"call":5,"code":"W1","place":0,"result":"refused"}
{"ops":[{"op":"create","parent":"spiffe://ex.org/spire/agent/n1","identity":"spiffe://ex.org/web","selectors":["u:1"]}]}
{"call":6,"place":1,"replies":[{"entry":{"domains":[],"expiry":0,"hint":"","id":"bdd219b8-a08d-4d1a-a836-efcc8b770dc7","identity":"spiffe://ex.org/web","parent":"spiffe://ex.org/spire/agent/n1","revision":0,"selectors":["u:1"]}}],"result":"committed"}
at the place itself it runs
{"ops":[{"op":"prune","before":0}],"after":1}
{"call":7,"place":2,"replies":[{"pruned":[]}],"result":"committed"}
{"ops":[{"op":"prune","before":0}],"after":3}
{"call":8,"code":"W1","place":2,"result":"refused"}
{"ops":[{"op":"prune","before":0}],"after":1}
{"call":9,"place":3,"replies":[{"pruned":[]}],"result":"committed"}
a place of the wrong kind
{"ops":[{"op":"prune","before":0}],"after":-1}
{"code":"L5","field":"after","line":10}
{"ops":[{"op":"prune","before":0}],"after":"1"}
{"code":"L5","field":"after","line":11}
{"ops":[{"op":"prune","before":0}],"after":null}
{"call":10,"place":4,"replies":[{"pruned":[]}],"result":"committed"}
"#;

#[test]
fn a_batch_runs_at_no_place_before_its_own(rt: HostRuntime) -> Result<(), Fail> {
    are_answered(&rt, rt.alloc(), PLACES)
}
