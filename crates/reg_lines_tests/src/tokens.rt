//! What do the keys `after` and `token` of a line mean, and what do they require of its operations?

use crate::tables::{ReadAs, asserts_in_a_row, asserts_table};
use std::test::Fail;

/// Lines, and the request of each.
const TABLE: &str = r#"
# the least place: 0 by default
{"ops":[{"op":"show","id":"00000000-0000-0000-0000-000000000001"}],"after":0} => 1; show "00000000-0000-0000-0000-000000000001"
{"ops":[{"op":"show","id":"00000000-0000-0000-0000-000000000001"}],"after":null} => 1; show "00000000-0000-0000-0000-000000000001"
{"ops":[{"op":"show","id":"00000000-0000-0000-0000-000000000001"}],"after":1} => 1 after 1; show "00000000-0000-0000-0000-000000000001"
{"after":18446744073709551615,"tries":2,"ops":[{"op":"show","id":"00000000-0000-0000-0000-000000000001"}]} => 2 after 18446744073709551615; show "00000000-0000-0000-0000-000000000001"
{"ops":[{"op":"prune","before":7}],"after":3,"token":"00000000-0000-0000-0000-000000000009"} => 1 after 3 token "00000000-0000-0000-0000-000000000009"; prune 7

# a token, in each form of a UUID
{"ops":[{"op":"prune","before":7}],"token":"00000000-0000-0000-0000-000000000009"} => 1 token "00000000-0000-0000-0000-000000000009"; prune 7
{"ops":[{"op":"prune","before":7}],"token":"0A0B0C0D0000400080000000000000FF"} => 1 token "0a0b0c0d-0000-4000-8000-0000000000ff"; prune 7
{"ops":[{"op":"prune","before":7}],"token":"{0a0b0c0d-0000-4000-8000-0000000000fF}"} => 1 token "0a0b0c0d-0000-4000-8000-0000000000ff"; prune 7
{"ops":[{"op":"prune","before":7}],"token":"URN:uuid:0a0b0c0d-0000-4000-8000-0000000000ff"} => 1 token "0a0b0c0d-0000-4000-8000-0000000000ff"; prune 7
{"ops":[{"op":"prune","before":7}],"token":null} => 1; prune 7
{"ops":[{"op":"prune","before":7}],"token":"x","token":null} => 1; prune 7
{"token":"00000000-0000-0000-0000-000000000009","tries":16,"ops":[{"op":"prune","before":7}]} => 16 token "00000000-0000-0000-0000-000000000009"; prune 7

# the top keys in their order: ops, after, token, tries, and then those that aren't known
{"after":-1,"token":7,"tries":0} => {"code":"L5","field":"ops","line":1}
{"ops":7,"after":-1,"token":7,"tries":0} => {"code":"L5","field":"ops","line":1}
{"ops":[7],"after":-1,"token":7,"tries":0,"aa":1} => {"code":"L5","field":"after","line":1}
{"ops":[7],"after":-1,"token":"x","tries":0,"aa":1} => {"code":"L5","field":"after","line":1}
{"ops":[7],"after":1.0,"token":"x"} => {"code":"L5","field":"after","line":1}
{"ops":[7],"after":1e2,"token":"x"} => {"code":"L5","field":"after","line":1}
{"ops":[7],"after":-0,"token":"x"} => {"code":"L5","field":"after","line":1}
{"ops":[7],"after":18446744073709551616,"token":"x"} => {"code":"L5","field":"after","line":1}
{"ops":[7],"after":"1","token":"x"} => {"code":"L5","field":"after","line":1}
{"ops":[7],"after":[],"token":"x"} => {"code":"L5","field":"after","line":1}
{"ops":[7],"after":1,"token":7,"tries":0,"aa":1} => {"code":"L5","field":"token","line":1}
{"ops":[7],"token":false,"tries":0,"aa":1} => {"code":"L5","field":"token","line":1}
{"ops":[7],"token":["00000000-0000-0000-0000-000000000009"],"tries":0,"aa":1} => {"code":"L5","field":"token","line":1}
{"ops":[7],"token":"x","tries":0,"aa":1} => {"code":"U1","field":"token","line":1}
{"ops":[7],"token":"","tries":0,"aa":1} => {"code":"U1","field":"token","line":1}
{"ops":[7],"token":"00000000-0000-0000-0000-000000000009 ","tries":0,"aa":1} => {"code":"U1","field":"token","line":1}
{"ops":[7],"token":"00000000-0000-0000-0000-000000000009","tries":0,"aa":1} => {"code":"L5","field":"tries","line":1}
{"ops":[7],"token":null,"tries":0,"aa":1} => {"code":"L5","field":"tries","line":1}
{"ops":[7],"after":1,"token":"00000000-0000-0000-0000-000000000009","zz":1,"aa":1} => {"code":"L5","field":"aa","line":1}
{"ops":[7],"after":1,"token":"00000000-0000-0000-0000-000000000009"} => {"code":"L5","field":"ops","line":1,"op":0}
{"ops":[],"after":1,"token":"00000000-0000-0000-0000-000000000009"} => {"code":"B1","line":1}

# beside a token each create has its id, which is looked at in its turn
{"ops":[{"op":"create","parent":"spiffe://ex.org/a","identity":"spiffe://ex.org/b","selectors":["u:1"]}],"token":"00000000-0000-0000-0000-000000000009"} => {"code":"L5","field":"id","line":1,"op":0}
{"ops":[{"op":"create","id":null,"parent":"spiffe://ex.org/a","identity":"spiffe://ex.org/b","selectors":["u:1"]}],"token":"00000000-0000-0000-0000-000000000009"} => {"code":"L5","field":"id","line":1,"op":0}
{"ops":[{"op":"create","parent":7,"zz":1}],"token":"00000000-0000-0000-0000-000000000009"} => {"code":"L5","field":"id","line":1,"op":0}
{"ops":[{"op":"create","id":7,"parent":7}],"token":"00000000-0000-0000-0000-000000000009"} => {"code":"L5","field":"id","line":1,"op":0}
{"ops":[{"op":"create","id":"x","parent":7}],"token":"00000000-0000-0000-0000-000000000009"} => {"code":"U1","field":"id","line":1,"op":0}
{"ops":[{"op":"create","id":"00000000-0000-0000-0000-000000000001","parent":7}],"token":"00000000-0000-0000-0000-000000000009"} => {"code":"L5","field":"parent","line":1,"op":0}
{"ops":[{"op":"create","id":"00000000-0000-0000-0000-000000000001","parent":"spiffe://ex.org/a","identity":"spiffe://ex.org/b","selectors":["u:1"]}],"token":"00000000-0000-0000-0000-000000000009"} => 1 token "00000000-0000-0000-0000-000000000009"; create "00000000-0000-0000-0000-000000000001" "spiffe://ex.org/a" "spiffe://ex.org/b" ["u:1"] "" [] 0
{"ops":[{"op":"create","id":"00000000-0000-0000-0000-000000000001","parent":"spiffe://ex.org/a","identity":"spiffe://ex.org/b","selectors":["u:1"]},{"op":"create","parent":"spiffe://ex.org/a","identity":"spiffe://ex.org/c","selectors":["u:1"]}],"token":"00000000-0000-0000-0000-000000000009"} => {"code":"L5","field":"id","line":1,"op":1}
{"ops":[{"op":"prune","before":""},{"op":"create"}],"token":"00000000-0000-0000-0000-000000000009"} => {"code":"L5","field":"before","line":1,"op":0}
{"ops":[{"op":"create","parent":"spiffe://ex.org/a","identity":"spiffe://ex.org/b","selectors":["u:1"]}],"token":null,"after":2} => 1 after 2; create "76b8e0ad-a0f1-4d90-805d-6ae55386bd28" "spiffe://ex.org/a" "spiffe://ex.org/b" ["u:1"] "" [] 0

# a batch that only asks carries no token; what is at fault with an operation, and a page that stands beside another
# operation, come first
{"ops":[{"op":"show","id":"00000000-0000-0000-0000-000000000001"}],"token":"00000000-0000-0000-0000-000000000009"} => {"code":"B14","line":1}
{"ops":[{"op":"page","size":1,"at":1}],"token":"00000000-0000-0000-0000-000000000009"} => {"code":"B14","line":1}
{"ops":[{"op":"page","size":0}],"token":"00000000-0000-0000-0000-000000000009"} => {"code":"B9","line":1,"op":0}
{"ops":[{"op":"page","size":1,"at":1},{"op":"page","size":1}],"token":"00000000-0000-0000-0000-000000000009"} => {"code":"B13","line":1,"op":0}
{"ops":[{"op":"show","id":"00000000-0000-0000-0000-000000000001"},{"op":"prune","before":7}],"token":"00000000-0000-0000-0000-000000000009"} => 1 token "00000000-0000-0000-0000-000000000009"; show "00000000-0000-0000-0000-000000000001"; prune 7
"#;

#[test]
fn the_least_place_and_the_token_are_read_in_their_turn(rt: HostRuntime) -> Result<(), Fail> {
    asserts_table(&rt, rt.alloc(), ReadAs::Request, TABLE)
}

/// Lines that are read one after another with the ids of the all-zero seed, and the request of each: the one with a token draws
/// no id.
const IN_A_ROW: &str = r#"
{"ops":[{"op":"create","parent":"spiffe://ex.org/a","identity":"spiffe://ex.org/b","selectors":["u:1"]}],"token":"00000000-0000-0000-0000-000000000009"} => {"code":"L5","field":"id","line":1,"op":0}
{"ops":[{"op":"create","id":"00000000-0000-0000-0000-000000000001","parent":"spiffe://ex.org/a","identity":"spiffe://ex.org/b","selectors":["u:1"]}],"token":"00000000-0000-0000-0000-000000000009"} => 1 token "00000000-0000-0000-0000-000000000009"; create "00000000-0000-0000-0000-000000000001" "spiffe://ex.org/a" "spiffe://ex.org/b" ["u:1"] "" [] 0
{"ops":[{"op":"create","parent":"spiffe://ex.org/a","identity":"spiffe://ex.org/b","selectors":["u:1"]}],"after":9} => 1 after 9; create "76b8e0ad-a0f1-4d90-805d-6ae55386bd28" "spiffe://ex.org/a" "spiffe://ex.org/b" ["u:1"] "" [] 0
"#;

#[test]
fn a_line_with_a_token_draws_no_id(rt: HostRuntime) -> Result<(), Fail> {
    asserts_in_a_row(&rt, rt.alloc(), ReadAs::Request, IN_A_ROW)
}
