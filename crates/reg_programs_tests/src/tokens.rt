//! Batches with a token: sent again, they aren't executed again.

use crate::engine::are_answered;
use std::test::Fail;

/// A batch, another one without a token, the first one again, and another one with its token.
const AGAIN: &str = r#"
{"ops":[{"op":"set_agent","agent":"spiffe://ex.org/spire/agent/n1","selectors":["x:1"]}],"token":"00000000-0000-0000-0000-000000000009"}
{"call":1,"place":1,"replies":[{"agent":{"id":"spiffe://ex.org/spire/agent/n1","selectors":["x:1"]}}],"result":"committed"}
{"ops":[{"op":"drop_agent","agent":"spiffe://ex.org/spire/agent/n1"}]}
{"call":2,"place":2,"replies":[{"agent":{"id":"spiffe://ex.org/spire/agent/n1","selectors":["x:1"]}}],"result":"committed"}
{"ops":[{"op":"set_agent","agent":"spiffe://ex.org/spire/agent/n1","selectors":["x:1"]}],"token":"00000000-0000-0000-0000-000000000009"}
{"call":3,"place":1,"replies":[{"agent":{"id":"spiffe://ex.org/spire/agent/n1","selectors":["x:1"]}}],"result":"repeated"}
{"ops":[{"op":"set_agent","agent":"spiffe://ex.org/spire/agent/n1","selectors":["x:2"]}],"token":"00000000-0000-0000-0000-000000000009"}
{"call":4,"code":"O9","place":2,"result":"refused"}
neither has brought the agent back
{"ops":[{"op":"show_agent","agent":"spiffe://ex.org/spire/agent/n1"}]}
{"call":5,"place":2,"replies":[{"agent":null}],"result":"answered"}
again and again
{"ops":[{"op":"set_agent","agent":"spiffe://ex.org/spire/agent/n1","selectors":["x:1"]}],"token":"00000000-0000-0000-0000-000000000009"}
{"call":6,"place":1,"replies":[{"agent":{"id":"spiffe://ex.org/spire/agent/n1","selectors":["x:1"]}}],"result":"repeated"}
without the token it is another batch
{"ops":[{"op":"set_agent","agent":"spiffe://ex.org/spire/agent/n1","selectors":["x:1"]}]}
{"call":7,"place":3,"replies":[{"agent":{"id":"spiffe://ex.org/spire/agent/n1","selectors":["x:1"]}}],"result":"committed"}
{"ops":[{"op":"set_agent","agent":"spiffe://ex.org/spire/agent/n1","selectors":["x:1"]}],"token":"00000000-0000-0000-0000-000000000009"}
{"call":8,"place":1,"replies":[{"agent":{"id":"spiffe://ex.org/spire/agent/n1","selectors":["x:1"]}}],"result":"repeated"}
"#;

#[test]
fn a_batch_with_a_token_is_committed_once(rt: HostRuntime) -> Result<(), Fail> {
    are_answered(&rt, rt.alloc(), AGAIN)
}

/// One batch in several spellings, and batches that aren't the same.
const SPELLINGS: &str = r#"
{"ops":[{"op":"create","id":"0a000000-0000-0000-0000-000000000001","parent":"spiffe://ex.org/spire/agent/n1","identity":"spiffe://ex.org/web","selectors":["u:1","u:2"]}],"token":"00000000-0000-0000-0000-000000000009"}
{"call":1,"place":1,"replies":[{"entry":{"domains":[],"expiry":0,"hint":"","id":"0a000000-0000-0000-0000-000000000001","identity":"spiffe://ex.org/web","parent":"spiffe://ex.org/spire/agent/n1","revision":0,"selectors":["u:1","u:2"]}}],"result":"committed"}
sets in another order, defaults written, another form of the ids, other keys beside the operations
{"tries":3,"after":1,"token":"00000000000000000000000000000009","ops":[{"jwt_svid_ttl":0,"expiry":0,"domains":[],"hint":"","selectors":["u:2","u:1","u:2"],"identity":"spiffe://ex.org/\u0077eb","parent":"spiffe://ex.org/spire/agent/n1","id":"{0A000000-0000-0000-0000-000000000001}","op":"create"}]}
{"call":2,"place":1,"replies":[{"entry":{"domains":[],"expiry":0,"hint":"","id":"0a000000-0000-0000-0000-000000000001","identity":"spiffe://ex.org/web","parent":"spiffe://ex.org/spire/agent/n1","revision":0,"selectors":["u:1","u:2"]}}],"result":"repeated"}
another hint, one operation more, no operation of this kind
{"ops":[{"op":"create","id":"0a000000-0000-0000-0000-000000000001","parent":"spiffe://ex.org/spire/agent/n1","identity":"spiffe://ex.org/web","selectors":["u:1","u:2"],"hint":"h"}],"token":"00000000-0000-0000-0000-000000000009"}
{"call":3,"code":"O9","place":1,"result":"refused"}
{"ops":[{"op":"create","id":"0a000000-0000-0000-0000-000000000001","parent":"spiffe://ex.org/spire/agent/n1","identity":"spiffe://ex.org/web","selectors":["u:1","u:2"]},{"op":"prune","before":0}],"token":"00000000-0000-0000-0000-000000000009"}
{"call":4,"code":"O9","place":1,"result":"refused"}
{"ops":[{"op":"prune","before":0}],"token":"00000000-0000-0000-0000-000000000009"}
{"call":5,"code":"O9","place":1,"result":"refused"}
a revision that is given isn't the same as none
{"ops":[{"op":"delete","id":"0a000000-0000-0000-0000-000000000001","revision":0}],"token":"00000000-0000-0000-0000-00000000000a"}
{"call":6,"place":2,"replies":[{"entry":{"domains":[],"expiry":0,"hint":"","id":"0a000000-0000-0000-0000-000000000001","identity":"spiffe://ex.org/web","parent":"spiffe://ex.org/spire/agent/n1","revision":0,"selectors":["u:1","u:2"]}}],"result":"committed"}
{"ops":[{"op":"delete","id":"0a000000-0000-0000-0000-000000000001"}],"token":"00000000-0000-0000-0000-00000000000a"}
{"call":7,"code":"O9","place":2,"result":"refused"}
{"ops":[{"op":"delete","id":"0a000000-0000-0000-0000-000000000001","revision":0}],"token":"00000000-0000-0000-0000-00000000000a"}
{"call":8,"place":2,"replies":[{"entry":{"domains":[],"expiry":0,"hint":"","id":"0a000000-0000-0000-0000-000000000001","identity":"spiffe://ex.org/web","parent":"spiffe://ex.org/spire/agent/n1","revision":0,"selectors":["u:1","u:2"]}}],"result":"repeated"}
"#;

#[test]
fn a_repeat_has_the_same_operations_in_any_spelling(rt: HostRuntime) -> Result<(), Fail> {
    are_answered(&rt, rt.alloc(), SPELLINGS)
}

/// Batches that aren't committed, each with a token that a later one has.
const NOT_KEPT: &str = r#"
refused for an operation
{"ops":[{"op":"drop_agent","agent":"spiffe://ex.org/spire/agent/n1"}],"token":"00000000-0000-0000-0000-000000000009"}
{"call":1,"code":"O7","op":0,"place":0,"result":"refused"}
refused for its place
{"ops":[{"op":"set_agent","agent":"spiffe://ex.org/spire/agent/n1","selectors":["x:1"]}],"after":1,"token":"00000000-0000-0000-0000-000000000009"}
{"call":2,"code":"W1","place":0,"result":"refused"}
a line that is refused: a question carries none, and a create has its id
{"ops":[{"op":"show","id":"00000000-0000-0000-0000-000000000001"}],"token":"00000000-0000-0000-0000-000000000009"}
{"code":"B14","line":3}
{"ops":[{"op":"create","parent":"spiffe://ex.org/spire/agent/n1","identity":"spiffe://ex.org/web","selectors":["u:1"]}],"token":"00000000-0000-0000-0000-000000000009"}
{"code":"L5","field":"id","line":4,"op":0}
{"ops":[{"op":"set_agent","agent":"spiffe://ex.org/spire/agent/n1","selectors":["x:1"]}],"token":"9"}
{"code":"U1","field":"token","line":5}
{"ops":[{"op":"set_agent","agent":"spiffe://ex.org/spire/agent/n1","selectors":["x:1"]}],"token":"00000000-0000-0000-0000-000000000009"}
{"call":3,"place":1,"replies":[{"agent":{"id":"spiffe://ex.org/spire/agent/n1","selectors":["x:1"]}}],"result":"committed"}
the place is looked at before the token
{"ops":[{"op":"set_agent","agent":"spiffe://ex.org/spire/agent/n1","selectors":["x:1"]}],"after":2,"token":"00000000-0000-0000-0000-000000000009"}
{"call":4,"code":"W1","place":1,"result":"refused"}
{"ops":[{"op":"set_agent","agent":"spiffe://ex.org/spire/agent/n1","selectors":["x:1"]}],"after":1,"token":"00000000-0000-0000-0000-000000000009"}
{"call":5,"place":1,"replies":[{"agent":{"id":"spiffe://ex.org/spire/agent/n1","selectors":["x:1"]}}],"result":"repeated"}
a token that was never committed, for a batch whose operations came before without one
{"ops":[{"op":"set_agent","agent":"spiffe://ex.org/spire/agent/n1","selectors":["x:1"]}],"token":"00000000-0000-0000-0000-00000000000a"}
{"call":6,"place":2,"replies":[{"agent":{"id":"spiffe://ex.org/spire/agent/n1","selectors":["x:1"]}}],"result":"committed"}
"#;

#[test]
fn only_a_commit_keeps_its_token(rt: HostRuntime) -> Result<(), Fail> {
    are_answered(&rt, rt.alloc(), NOT_KEPT)
}
