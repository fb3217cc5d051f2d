//! Which lines draw an id, and which id do they get?

use crate::tables::{ReadAs, asserts_in_a_row, asserts_with};
use line_reading::{Ids, ids_law};
use std::test::Fail;

/// Lines that are read one after another with the ids of the all-zero seed, and the request of each.
const IN_A_ROW: &str = r#"
# the first ids of the seed of zeros
{"ops":[{"op":"create","parent":"spiffe://ex.org/a","identity":"spiffe://ex.org/b","selectors":["u:1"]}]} => 1; create "76b8e0ad-a0f1-4d90-805d-6ae55386bd28" "spiffe://ex.org/a" "spiffe://ex.org/b" ["u:1"] "" [] 0
{"ops":[{"op":"create","id":null,"parent":"spiffe://ex.org/a","identity":"spiffe://ex.org/b","selectors":["u:1"]}]} => 1; create "bdd219b8-a08d-4d1a-a836-efcc8b770dc7" "spiffe://ex.org/a" "spiffe://ex.org/b" ["u:1"] "" [] 0
# an id that is given draws none
{"ops":[{"op":"create","id":"00000000-0000-0000-0000-000000000001","parent":"spiffe://ex.org/a","identity":"spiffe://ex.org/b","selectors":["u:1"]}]} => 1; create "00000000-0000-0000-0000-000000000001" "spiffe://ex.org/a" "spiffe://ex.org/b" ["u:1"] "" [] 0
{"ops":[{"op":"create","id":"x","parent":"spiffe://ex.org/a","identity":"spiffe://ex.org/b","selectors":["u:1"]}]} => {"code":"U1","field":"id","line":4,"op":0}
{"ops":[{"op":"create","id":7,"parent":"spiffe://ex.org/a","identity":"spiffe://ex.org/b","selectors":["u:1"]}]} => {"code":"L5","field":"id","line":5,"op":0}
# creates in their order
{"ops":[{"op":"create","parent":"spiffe://ex.org/a","identity":"spiffe://ex.org/b","selectors":["u:1"]},{"op":"show","id":"00000000-0000-0000-0000-000000000001"},{"op":"create","id":"00000000-0000-0000-0000-000000000001","parent":"spiffe://ex.org/a","identity":"spiffe://ex.org/b","selectors":["u:1"]},{"op":"create","id":null,"parent":"spiffe://ex.org/a","identity":"spiffe://ex.org/b","selectors":["u:1"]}]} => 1; create "da41597c-5157-488d-b724-e03fb8d84a37" "spiffe://ex.org/a" "spiffe://ex.org/b" ["u:1"] "" [] 0; show "00000000-0000-0000-0000-000000000001"; create "00000000-0000-0000-0000-000000000001" "spiffe://ex.org/a" "spiffe://ex.org/b" ["u:1"] "" [] 0; create "6a43b8f4-1518-411c-8387-b669b2ee6586" "spiffe://ex.org/a" "spiffe://ex.org/b" ["u:1"] "" [] 0
# a line that is refused draws none
{"ops":[{"op":"create","parent":"spiffe://ex.org/a","identity":"spiffe://ex.org/b","selectors":["u:1"]},7]} => {"code":"L5","field":"ops","line":7,"op":1}
{"ops":[{"op":"create","parent":7,"identity":"spiffe://ex.org/b","selectors":["u:1"]}]} => {"code":"L5","field":"parent","line":8,"op":0}
{"ops":[{"op":"create","parent":"spiffe://ex.org/a","identity":"spiffe://ex.org/b","selectors":["u:1"],"zz":1}]} => {"code":"L5","field":"zz","line":9,"op":0}
{"ops":[{"op":"create","parent":"spiffe://ex.org/a","identity":"spiffe://ex.org/b","selectors":["u:1"]},{"op":"create","id":"x","parent":"spiffe://ex.org/a","identity":"spiffe://ex.org/b","selectors":["u:1"]}]} => {"code":"U1","field":"id","line":10,"op":1}
{"ops":[{"op":"create","parent":"spiffe://ex.org/a","identity":"spiffe://ex.org/b","selectors":["u:1"]},{"op":"create","parent":"spiffe://ex.org","identity":"spiffe://ex.org/b","selectors":["u:1"]}]} => {"code":"B4","line":11,"op":1}
{"ops":[{"op":"create","parent":"spiffe://ex.org/a","identity":"spiffe://ex.org/b","selectors":["u:1"]},{"op":"create","parent":"spiffe://ex.org/a","identity":"spiffe://ex.org/b","selectors":["u:1"]},{"op":"create","parent":"spiffe://ex.org/a","identity":"spiffe://ex.org/b","selectors":["u:1"]},{"op":"create","parent":"spiffe://ex.org/a","identity":"spiffe://ex.org/b","selectors":["u:1"]},{"op":"create","parent":"spiffe://ex.org/a","identity":"spiffe://ex.org/b","selectors":["u:1"]},{"op":"create","parent":"spiffe://ex.org/a","identity":"spiffe://ex.org/b","selectors":["u:1"]},{"op":"create","parent":"spiffe://ex.org/a","identity":"spiffe://ex.org/b","selectors":["u:1"]},{"op":"create","parent":"spiffe://ex.org/a","identity":"spiffe://ex.org/b","selectors":["u:1"]},{"op":"create","parent":"spiffe://ex.org/a","identity":"spiffe://ex.org/b","selectors":["u:1"]},{"op":"create","parent":"spiffe://ex.org/a","identity":"spiffe://ex.org/b","selectors":["u:1"]},{"op":"create","parent":"spiffe://ex.org/a","identity":"spiffe://ex.org/b","selectors":["u:1"]},{"op":"create","parent":"spiffe://ex.org/a","identity":"spiffe://ex.org/b","selectors":["u:1"]},{"op":"create","parent":"spiffe://ex.org/a","identity":"spiffe://ex.org/b","selectors":["u:1"]},{"op":"create","parent":"spiffe://ex.org/a","identity":"spiffe://ex.org/b","selectors":["u:1"]},{"op":"create","parent":"spiffe://ex.org/a","identity":"spiffe://ex.org/b","selectors":["u:1"]},{"op":"create","parent":"spiffe://ex.org/a","identity":"spiffe://ex.org/b","selectors":["u:1"]},{"op":"create","parent":"spiffe://ex.org/a","identity":"spiffe://ex.org/b","selectors":["u:1"]},{"op":"create","parent":"spiffe://ex.org/a","identity":"spiffe://ex.org/b","selectors":["u:1"]},{"op":"create","parent":"spiffe://ex.org/a","identity":"spiffe://ex.org/b","selectors":["u:1"]},{"op":"create","parent":"spiffe://ex.org/a","identity":"spiffe://ex.org/b","selectors":["u:1"]},{"op":"create","parent":"spiffe://ex.org/a","identity":"spiffe://ex.org/b","selectors":["u:1"]},{"op":"create","parent":"spiffe://ex.org/a","identity":"spiffe://ex.org/b","selectors":["u:1"]},{"op":"create","parent":"spiffe://ex.org/a","identity":"spiffe://ex.org/b","selectors":["u:1"]},{"op":"create","parent":"spiffe://ex.org/a","identity":"spiffe://ex.org/b","selectors":["u:1"]},{"op":"create","parent":"spiffe://ex.org/a","identity":"spiffe://ex.org/b","selectors":["u:1"]},{"op":"create","parent":"spiffe://ex.org/a","identity":"spiffe://ex.org/b","selectors":["u:1"]},{"op":"create","parent":"spiffe://ex.org/a","identity":"spiffe://ex.org/b","selectors":["u:1"]},{"op":"create","parent":"spiffe://ex.org/a","identity":"spiffe://ex.org/b","selectors":["u:1"]},{"op":"create","parent":"spiffe://ex.org/a","identity":"spiffe://ex.org/b","selectors":["u:1"]},{"op":"create","parent":"spiffe://ex.org/a","identity":"spiffe://ex.org/b","selectors":["u:1"]},{"op":"create","parent":"spiffe://ex.org/a","identity":"spiffe://ex.org/b","selectors":["u:1"]},{"op":"create","parent":"spiffe://ex.org/a","identity":"spiffe://ex.org/b","selectors":["u:1"]},{"op":"create","parent":"spiffe://ex.org/a","identity":"spiffe://ex.org/b","selectors":["u:1"]},{"op":"create","parent":"spiffe://ex.org/a","identity":"spiffe://ex.org/b","selectors":["u:1"]},{"op":"create","parent":"spiffe://ex.org/a","identity":"spiffe://ex.org/b","selectors":["u:1"]},{"op":"create","parent":"spiffe://ex.org/a","identity":"spiffe://ex.org/b","selectors":["u:1"]},{"op":"create","parent":"spiffe://ex.org/a","identity":"spiffe://ex.org/b","selectors":["u:1"]},{"op":"create","parent":"spiffe://ex.org/a","identity":"spiffe://ex.org/b","selectors":["u:1"]},{"op":"create","parent":"spiffe://ex.org/a","identity":"spiffe://ex.org/b","selectors":["u:1"]},{"op":"create","parent":"spiffe://ex.org/a","identity":"spiffe://ex.org/b","selectors":["u:1"]},{"op":"create","parent":"spiffe://ex.org/a","identity":"spiffe://ex.org/b","selectors":["u:1"]},{"op":"create","parent":"spiffe://ex.org/a","identity":"spiffe://ex.org/b","selectors":["u:1"]},{"op":"create","parent":"spiffe://ex.org/a","identity":"spiffe://ex.org/b","selectors":["u:1"]},{"op":"create","parent":"spiffe://ex.org/a","identity":"spiffe://ex.org/b","selectors":["u:1"]},{"op":"create","parent":"spiffe://ex.org/a","identity":"spiffe://ex.org/b","selectors":["u:1"]},{"op":"create","parent":"spiffe://ex.org/a","identity":"spiffe://ex.org/b","selectors":["u:1"]},{"op":"create","parent":"spiffe://ex.org/a","identity":"spiffe://ex.org/b","selectors":["u:1"]},{"op":"create","parent":"spiffe://ex.org/a","identity":"spiffe://ex.org/b","selectors":["u:1"]},{"op":"create","parent":"spiffe://ex.org/a","identity":"spiffe://ex.org/b","selectors":["u:1"]},{"op":"create","parent":"spiffe://ex.org/a","identity":"spiffe://ex.org/b","selectors":["u:1"]},{"op":"create","parent":"spiffe://ex.org/a","identity":"spiffe://ex.org/b","selectors":["u:1"]},{"op":"create","parent":"spiffe://ex.org/a","identity":"spiffe://ex.org/b","selectors":["u:1"]},{"op":"create","parent":"spiffe://ex.org/a","identity":"spiffe://ex.org/b","selectors":["u:1"]},{"op":"create","parent":"spiffe://ex.org/a","identity":"spiffe://ex.org/b","selectors":["u:1"]},{"op":"create","parent":"spiffe://ex.org/a","identity":"spiffe://ex.org/b","selectors":["u:1"]},{"op":"create","parent":"spiffe://ex.org/a","identity":"spiffe://ex.org/b","selectors":["u:1"]},{"op":"create","parent":"spiffe://ex.org/a","identity":"spiffe://ex.org/b","selectors":["u:1"]},{"op":"create","parent":"spiffe://ex.org/a","identity":"spiffe://ex.org/b","selectors":["u:1"]},{"op":"create","parent":"spiffe://ex.org/a","identity":"spiffe://ex.org/b","selectors":["u:1"]},{"op":"create","parent":"spiffe://ex.org/a","identity":"spiffe://ex.org/b","selectors":["u:1"]},{"op":"create","parent":"spiffe://ex.org/a","identity":"spiffe://ex.org/b","selectors":["u:1"]},{"op":"create","parent":"spiffe://ex.org/a","identity":"spiffe://ex.org/b","selectors":["u:1"]},{"op":"create","parent":"spiffe://ex.org/a","identity":"spiffe://ex.org/b","selectors":["u:1"]},{"op":"create","parent":"spiffe://ex.org/a","identity":"spiffe://ex.org/b","selectors":["u:1"]},{"op":"create","parent":"spiffe://ex.org/a","identity":"spiffe://ex.org/b","selectors":["u:1"]}]} => {"code":"B2","line":12}
{"tries":0,"ops":[{"op":"create","parent":"spiffe://ex.org/a","identity":"spiffe://ex.org/b","selectors":["u:1"]}]} => {"code":"L5","field":"tries","line":13}
{"ops":[{"op":"create","parent":"spiffe://ex.org/a","identity":"spiffe://ex.org/b","selectors":["u:1"]}] => {"code":"L2","line":14}
# the next ids
{"ops":[{"op":"create","parent":"spiffe://ex.org/a","identity":"spiffe://ex.org/b","selectors":["u:1"]},{"op":"create","parent":"spiffe://ex.org/a","identity":"spiffe://ex.org/b","selectors":["u:1"]},{"op":"create","parent":"spiffe://ex.org/a","identity":"spiffe://ex.org/b","selectors":["u:1"]}]} => 1; create "9f07e7be-5551-487a-98ba-977c732d080d" "spiffe://ex.org/a" "spiffe://ex.org/b" ["u:1"] "" [] 0; create "cb0f29a0-48e3-4569-92c6-533e32ee7aed" "spiffe://ex.org/a" "spiffe://ex.org/b" ["u:1"] "" [] 0; create "29b72176-9ce6-4e43-9571-33b074d839d5" "spiffe://ex.org/a" "spiffe://ex.org/b" ["u:1"] "" [] 0
{"tries":16,"ops":[{"op":"create","parent":"spiffe://ex.org/a","identity":"spiffe://ex.org/b","selectors":["u:1"]}]} => 16; create "31ed1f28-510a-4b45-ace1-0a1f4b794d6f" "spiffe://ex.org/a" "spiffe://ex.org/b" ["u:1"] "" [] 0
"#;

#[test]
fn only_creates_without_an_id_in_accepted_lines_draw_one(rt: HostRuntime) -> Result<(), Fail> {
    asserts_in_a_row(&rt, rt.alloc(), ReadAs::Request, IN_A_ROW)
}

/// A create without an id.
const CREATE: &str =
    r#"{"ops":[{"op":"create","parent":"spiffe://ex.org/a","identity":"spiffe://ex.org/b","selectors":["u:1"]}]}"#;

#[test]
fn another_seed_gives_other_ids(rt: HostRuntime) -> Result<(), Fail> {
    let mut seed = [0; 32];
    seed[31] = 1;
    let expected =
        r#"1; create "4540f05a-9f1f-4296-9773-6e7b208e3c96" "spiffe://ex.org/a" "spiffe://ex.org/b" ["u:1"] "" [] 0"#;
    asserts_with(
        &rt,
        rt.alloc(),
        ReadAs::Request,
        Ids::of_seed(seed),
        (CREATE, expected),
    )
}

/// The first bytes of the all-zero key in stream 1 are those that OpenSSL's `chacha20` gives.
#[test]
fn another_stream_gives_other_ids(rt: HostRuntime) -> Result<(), Fail> {
    ids_law();
    let expected =
        r#"1; create "76b8e0ad-a0f1-4d90-805d-6ae55386bd28" "spiffe://ex.org/a" "spiffe://ex.org/b" ["u:1"] "" [] 0"#;
    asserts_with(
        &rt,
        rt.alloc(),
        ReadAs::Request,
        Ids::of_stream([0; 32], 0),
        (CREATE, expected),
    )?;
    let expected =
        r#"1; create "ef3fdfd6-c615-48fb-b5cf-35bd3dd33b80" "spiffe://ex.org/a" "spiffe://ex.org/b" ["u:1"] "" [] 0"#;
    asserts_with(
        &rt,
        rt.alloc(),
        ReadAs::Request,
        Ids::of_stream([0; 32], 1),
        (CREATE, expected),
    )
}
