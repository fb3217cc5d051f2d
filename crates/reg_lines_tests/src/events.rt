//! Which events do lines represent?

use crate::tables::{ReadAs, asserts_at, asserts_in_a_row, asserts_table};
use std::test::Fail;

/// Lines, and the event of each.
const TABLE: &str = r#"
# each event
{"event":"invoke","call":1,"batch":{"ops":[{"op":"show","id":"00000000-0000-0000-0000-000000000001"}]}} => invoke 1; show "00000000-0000-0000-0000-000000000001"
{"event":"begin","call":1} => begin 1
{"event":"step","call":1} => step 1
{"event":"commit","call":1} => commit 1
{"event":"reply","call":1} => reply 1

# keys in any order, calls of any number, escapes
{"call":18446744073709551615,"event":"commit"} => commit 18446744073709551615
{"event":"step","call":0} => step 0
{"batch":{"ops":[{"agent":"spiffe://ex.org/spire/agent/n1","op":"authorised"}]},"call":7,"event":"invoke"} => invoke 7; authorised "spiffe://ex.org/spire/agent/n1"
{"\u0065vent":"\u0062egin","call":1} => begin 1
{"event":"begin","event":"step","call":"x","call":2} => step 2

# the batch's own keys
{"event":"invoke","call":1,"batch":{"ops":[{"op":"prune","before":7},{"op":"show","id":"00000000-0000-0000-0000-000000000001"}],"after":3,"token":"00000000-0000-0000-0000-000000000009"}} => invoke 1 after 3 token "00000000-0000-0000-0000-000000000009"; prune 7; show "00000000-0000-0000-0000-000000000001"
{"event":"invoke","call":1,"batch":{"after":null,"token":null,"ops":[{"op":"show","id":"00000000-0000-0000-0000-000000000001"}]}} => invoke 1; show "00000000-0000-0000-0000-000000000001"

# no JSON text, or no object
{"event":"begin","call":1 => {"code":"L2","line":1}
 => {"code":"L2","line":1}
["begin",1] => {"code":"L4","line":1}
"begin" => {"code":"L4","line":1}

# the event comes first
{} => {"code":"L5","field":"event","line":1}
{"call":1} => {"code":"L5","field":"event","line":1}
{"call":"x","zz":1} => {"code":"L5","field":"event","line":1}
{"event":null,"call":1} => {"code":"L5","field":"event","line":1}
{"event":7,"call":"x"} => {"code":"L5","field":"event","line":1}
{"event":["begin"],"call":"x"} => {"code":"L5","field":"event","line":1}
{"event":"Begin","call":"x"} => {"code":"L5","field":"event","line":1}
{"event":"end","call":null,"aa":1} => {"code":"L5","field":"event","line":1}
{"event":"","batch":7} => {"code":"L5","field":"event","line":1}
{"event":"invoked","call":1,"batch":{"ops":[{"op":"show","id":"00000000-0000-0000-0000-000000000001"}]}} => {"code":"L5","field":"event","line":1}

# then its call
{"event":"begin"} => {"code":"L5","field":"call","line":1}
{"event":"begin","call":null} => {"code":"L5","field":"call","line":1}
{"event":"begin","call":"1","aa":1} => {"code":"L5","field":"call","line":1}
{"event":"step","call":-1} => {"code":"L5","field":"call","line":1}
{"event":"step","call":-0} => {"code":"L5","field":"call","line":1}
{"event":"commit","call":1.0} => {"code":"L5","field":"call","line":1}
{"event":"commit","call":1e2} => {"code":"L5","field":"call","line":1}
{"event":"reply","call":18446744073709551616} => {"code":"L5","field":"call","line":1}
{"event":"reply","call":[1]} => {"code":"L5","field":"call","line":1}
{"event":"begin","batch":{},"aa":1} => {"code":"L5","field":"call","line":1}
{"event":"invoke","batch":{},"aa":1} => {"code":"L5","field":"call","line":1}
{"event":"invoke","call":true} => {"code":"L5","field":"call","line":1}

# then, where a call is handed in, its batch
{"event":"invoke","call":1} => {"code":"L5","field":"batch","line":1}
{"event":"invoke","call":1,"aa":1} => {"code":"L5","field":"batch","line":1}
{"event":"invoke","call":1,"batch":null} => {"code":"L5","field":"batch","line":1}
{"event":"invoke","call":1,"batch":7} => {"code":"L5","field":"batch","line":1}
{"event":"invoke","call":1,"batch":"x"} => {"code":"L5","field":"batch","line":1}
{"event":"invoke","call":1,"batch":[],"aa":1} => {"code":"L5","field":"batch","line":1}
{"event":"invoke","call":1,"batch":true} => {"code":"L5","field":"batch","line":1}

# which no other event has
{"event":"begin","call":1,"batch":{"ops":[{"op":"show","id":"00000000-0000-0000-0000-000000000001"}]}} => {"code":"L5","field":"batch","line":1}
{"event":"step","call":1,"batch":{"ops":[{"op":"show","id":"00000000-0000-0000-0000-000000000001"}]}} => {"code":"L5","field":"batch","line":1}
{"event":"commit","call":1,"batch":{"ops":[{"op":"show","id":"00000000-0000-0000-0000-000000000001"}]}} => {"code":"L5","field":"batch","line":1}
{"event":"reply","call":1,"batch":{"ops":[{"op":"show","id":"00000000-0000-0000-0000-000000000001"}]}} => {"code":"L5","field":"batch","line":1}
{"event":"reply","call":1,"batch":null} => {"code":"L5","field":"batch","line":1}
{"event":"begin","call":1,"batch":{},"zz":1} => {"code":"L5","field":"batch","line":1}
{"event":"begin","call":1,"batch":{},"aa":1} => {"code":"L5","field":"aa","line":1}

# keys that aren't known, in the order of their bytes
{"event":"begin","call":1,"aa":1,"Zz":null} => {"code":"L5","field":"Zz","line":1}
{"event":"step","call":1,"ops":[]} => {"code":"L5","field":"ops","line":1}
{"event":"commit","call":1,"tries":1} => {"code":"L5","field":"tries","line":1}
{"event":"reply","call":1,"":1} => {"code":"L5","field":"","line":1}

# they come before the batch's keys
{"event":"invoke","call":1,"batch":{},"zz":1} => {"code":"L5","field":"zz","line":1}
{"event":"invoke","call":1,"batch":{"ops":7,"aa":1},"zz":1} => {"code":"L5","field":"zz","line":1}
{"event":"invoke","call":1,"batch":{},"tries":1} => {"code":"L5","field":"tries","line":1}
{"event":"invoke","call":1,"batch":{"ops":[7]},"token":null,"after":0} => {"code":"L5","field":"after","line":1}

# the batch's keys in their order
{"event":"invoke","call":1,"batch":{}} => {"code":"L5","field":"ops","line":1}
{"event":"invoke","call":1,"batch":{"ops":null,"after":-1,"token":7,"aa":1}} => {"code":"L5","field":"ops","line":1}
{"event":"invoke","call":1,"batch":{"ops":{},"after":-1}} => {"code":"L5","field":"ops","line":1}
{"event":"invoke","call":1,"batch":{"ops":[7],"after":-1,"token":7,"aa":1}} => {"code":"L5","field":"after","line":1}
{"event":"invoke","call":1,"batch":{"ops":[7],"token":7,"aa":1}} => {"code":"L5","field":"token","line":1}
{"event":"invoke","call":1,"batch":{"ops":[7],"token":"x","aa":1}} => {"code":"U1","field":"token","line":1}
{"event":"invoke","call":1,"batch":{"ops":[7],"zz":1,"aa":1}} => {"code":"L5","field":"aa","line":1}
{"event":"invoke","call":1,"batch":{"ops":[{"op":"show","id":"00000000-0000-0000-0000-000000000001"}],"tries":1}} => {"code":"L5","field":"tries","line":1}
{"event":"invoke","call":1,"batch":{"ops":[7],"tries":null}} => {"code":"L5","field":"tries","line":1}
{"event":"invoke","call":1,"batch":{"ops":[7],"event":"invoke"}} => {"code":"L5","field":"event","line":1}
{"event":"invoke","call":1,"batch":{"ops":[7],"call":1}} => {"code":"L5","field":"call","line":1}
{"event":"invoke","call":1,"batch":{"ops":[7],"batch":{}}} => {"code":"L5","field":"batch","line":1}

# its operations, and what they are together
{"event":"invoke","call":1,"batch":{"ops":[7]}} => {"code":"L5","field":"ops","line":1,"op":0}
{"event":"invoke","call":1,"batch":{"ops":[{"op":"show","id":"00000000-0000-0000-0000-000000000001"},{"op":"mint"}]}} => {"code":"L5","field":"op","line":1,"op":1}
{"event":"invoke","call":1,"batch":{"ops":[{"op":"show","id":"x","zz":1}]}} => {"code":"U1","field":"id","line":1,"op":0}
{"event":"invoke","call":1,"batch":{"ops":[{"op":"children","parent":"spiffe://ex.org/a//b"}]}} => {"code":"I6","field":"parent","line":1,"op":0}
{"event":"invoke","call":1,"batch":{"ops":[{"op":"set_agent","agent":"spiffe://ex.org/spire/agent/n1","selectors":["unix",7]}]}} => {"code":"S2","field":"selectors","line":1,"op":0}
{"event":"invoke","call":1,"batch":{"ops":[]}} => {"code":"B1","line":1}
{"event":"invoke","call":1,"batch":{"ops":[{"op":"show","id":"00000000-0000-0000-0000-000000000001"},{"op":"authorised","agent":"spiffe://other.org/spire/agent/n1"}]}} => {"code":"B3","line":1,"op":1}
{"event":"invoke","call":1,"batch":{"ops":[{"op":"show","id":"00000000-0000-0000-0000-000000000001"}],"token":"00000000-0000-0000-0000-000000000009"}} => {"code":"B14","line":1}
"#;

#[test]
fn the_keys_of_events_are_read_in_their_turn(rt: HostRuntime) -> Result<(), Fail> {
    asserts_table(&rt, rt.alloc(), ReadAs::Event, TABLE)
}

/// Lines with the ids of the all-zero seed, and the event of each.
const DRAWN: &str = r#"
# the first ids of the seed of zeros
{"event":"invoke","call":1,"batch":{"ops":[{"op":"create","parent":"spiffe://ex.org/a","identity":"spiffe://ex.org/b","selectors":["u:1"]}]}} => invoke 1; create "76b8e0ad-a0f1-4d90-805d-6ae55386bd28" "spiffe://ex.org/a" "spiffe://ex.org/b" ["u:1"] "" [] 0
# a line that is refused draws none
{"event":"invoke","call":1,"batch":{"ops":[{"op":"create","parent":"spiffe://ex.org/a","identity":"spiffe://ex.org/b","selectors":["u:1"]},7]}} => {"code":"L5","field":"ops","line":2,"op":1}
{"event":"invoke","call":1,"batch":{"ops":[{"op":"create","parent":"spiffe://ex.org/a","identity":"spiffe://ex.org/b","selectors":["u:1"]},{"op":"create","parent":"spiffe://ex.org","identity":"spiffe://ex.org/b","selectors":["u:1"]}]}} => {"code":"B4","line":3,"op":1}
{"event":"invoke","call":1,"batch":{"ops":[{"op":"create","parent":"spiffe://ex.org/a","identity":"spiffe://ex.org/b","selectors":["u:1"]}]},"aa":1} => {"code":"L5","field":"aa","line":4}
{"event":"invoke","call":1,"batch":{"ops":[{"op":"create","parent":"spiffe://ex.org/a","identity":"spiffe://ex.org/b","selectors":["u:1"]}],"tries":1}} => {"code":"L5","field":"tries","line":5}
# beside a token each create has its id
{"event":"invoke","call":1,"batch":{"ops":[{"op":"create","parent":"spiffe://ex.org/a","identity":"spiffe://ex.org/b","selectors":["u:1"]}],"token":"00000000-0000-0000-0000-000000000009"}} => {"code":"L5","field":"id","line":6,"op":0}
# other events draw none
{"event":"begin","call":1} => begin 1
# the next ids, the same call or another
{"event":"invoke","call":1,"batch":{"ops":[{"op":"create","parent":"spiffe://ex.org/a","identity":"spiffe://ex.org/b","selectors":["u:1"]},{"op":"create","parent":"spiffe://ex.org/a","identity":"spiffe://ex.org/b","selectors":["u:1"]}]}} => invoke 1; create "bdd219b8-a08d-4d1a-a836-efcc8b770dc7" "spiffe://ex.org/a" "spiffe://ex.org/b" ["u:1"] "" [] 0; create "da41597c-5157-488d-b724-e03fb8d84a37" "spiffe://ex.org/a" "spiffe://ex.org/b" ["u:1"] "" [] 0
"#;

#[test]
fn only_batches_that_are_handed_in_draw_ids(rt: HostRuntime) -> Result<(), Fail> {
    asserts_in_a_row(&rt, rt.alloc(), ReadAs::Event, DRAWN)
}

/// Lines that aren't framed correctly, and lines of the maximum length and longer; each is the seventh line.
const FRAMES: &str = r#"
{"event":"begin","call":1}«» => {"code":"L3","line":7}
«ff» => {"code":"L2","line":7}
{"event":"begin","call":1}«0d» => begin 1
{"event":"reply","call":3}«1048550* » => reply 3
{"event":"reply","call":3}«1048551* » => {"code":"L1","line":7}
"#;

#[test]
fn an_event_is_framed_as_any_line(rt: HostRuntime) -> Result<(), Fail> {
    asserts_at(&rt, rt.alloc(), ReadAs::Event, 7, FRAMES)
}
