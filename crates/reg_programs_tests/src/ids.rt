//! Which ids are given: those of the words of ChaCha20's stream 0, which the cipher's published test vectors give for these
//! seeds.

use crate::engine::{FIRST_SEED, are_answered, are_answered_by, are_answered_with};
use std::test::Fail;

/// The first id of the all-zero seed; then the forms in which an id is accepted.
const FIRST_ID: &str = r#"
{"ops":[{"identity":"spiffe://ex.org/web","op":"create","parent":"spiffe://ex.org/spire/agent/n1","selectors":["u:1"]}]}
{"call":1,"place":1,"replies":[{"entry":{"domains":[],"expiry":0,"hint":"","id":"76b8e0ad-a0f1-4d90-805d-6ae55386bd28","identity":"spiffe://ex.org/web","parent":"spiffe://ex.org/spire/agent/n1","revision":0,"selectors":["u:1"]}}],"result":"committed"}
{"ops":[{"id":"0A1B2C3D-4E5F-6A7B-8C9D-0E1F2A3B4C5D","identity":"spiffe://ex.org/api","op":"create","parent":"spiffe://ex.org/spire/agent/n1","selectors":["u:1"]}]}
{"call":2,"place":2,"replies":[{"entry":{"domains":[],"expiry":0,"hint":"","id":"0a1b2c3d-4e5f-6a7b-8c9d-0e1f2a3b4c5d","identity":"spiffe://ex.org/api","parent":"spiffe://ex.org/spire/agent/n1","revision":0,"selectors":["u:1"]}}],"result":"committed"}
{"ops":[{"id":"{0a1b2c3d-4e5f-6a7b-8c9d-0e1f2a3b4c5d}","op":"show"}]}
{"call":3,"place":2,"replies":[{"entry":{"domains":[],"expiry":0,"hint":"","id":"0a1b2c3d-4e5f-6a7b-8c9d-0e1f2a3b4c5d","identity":"spiffe://ex.org/api","parent":"spiffe://ex.org/spire/agent/n1","revision":0,"selectors":["u:1"]}}],"result":"answered"}
{"ops":[{"id":"0a1b2c3d4e5f6a7b8c9d0e1f2a3b4c5d","op":"show"}]}
{"call":4,"place":2,"replies":[{"entry":{"domains":[],"expiry":0,"hint":"","id":"0a1b2c3d-4e5f-6a7b-8c9d-0e1f2a3b4c5d","identity":"spiffe://ex.org/api","parent":"spiffe://ex.org/spire/agent/n1","revision":0,"selectors":["u:1"]}}],"result":"answered"}
{"ops":[{"id":"urn:uuid:0a1b2c3d-4e5f-6a7b-8c9d-0e1f2a3b4c5d","op":"show"}]}
{"call":5,"place":2,"replies":[{"entry":{"domains":[],"expiry":0,"hint":"","id":"0a1b2c3d-4e5f-6a7b-8c9d-0e1f2a3b4c5d","identity":"spiffe://ex.org/api","parent":"spiffe://ex.org/spire/agent/n1","revision":0,"selectors":["u:1"]}}],"result":"answered"}
{"ops":[{"id":"0a1b2c3d-4e5f-6a7b-8c9d-0e1f2a3b4c5d","op":"show"}]}
{"call":6,"place":2,"replies":[{"entry":{"domains":[],"expiry":0,"hint":"","id":"0a1b2c3d-4e5f-6a7b-8c9d-0e1f2a3b4c5d","identity":"spiffe://ex.org/api","parent":"spiffe://ex.org/spire/agent/n1","revision":0,"selectors":["u:1"]}}],"result":"answered"}
"#;

#[test]
fn first_drawn_id(rt: HostRuntime) -> Result<(), Fail> {
    are_answered(&rt, rt.alloc(), FIRST_ID)
}

/// Which lines draw an id, and in which order.
const DRAWN: &str = r#"
a create without an id gets the first one
{"ops":[{"op":"create","parent":"spiffe://ex.org/spire/agent/n1","identity":"spiffe://ex.org/web","selectors":["u:1"]}]}
{"call":1,"place":1,"replies":[{"entry":{"domains":[],"expiry":0,"hint":"","id":"76b8e0ad-a0f1-4d90-805d-6ae55386bd28","identity":"spiffe://ex.org/web","parent":"spiffe://ex.org/spire/agent/n1","revision":0,"selectors":["u:1"]}}],"result":"committed"}
a create with an id draws none, also where its text is no UUID
{"ops":[{"op":"create","id":"00000000-0000-0000-0000-000000000001","parent":"spiffe://ex.org/spire/agent/n1","identity":"spiffe://ex.org/api","selectors":["u:1"]}]}
{"call":2,"place":2,"replies":[{"entry":{"domains":[],"expiry":0,"hint":"","id":"00000000-0000-0000-0000-000000000001","identity":"spiffe://ex.org/api","parent":"spiffe://ex.org/spire/agent/n1","revision":0,"selectors":["u:1"]}}],"result":"committed"}
{"ops":[{"op":"create","id":"1","parent":"spiffe://ex.org/spire/agent/n1","identity":"spiffe://ex.org/api","selectors":["u:1"]}]}
{"code":"U1","field":"id","line":3,"op":0}
a refused line draws none: no selectors, an unknown operation behind the create, an unknown key beside the operations
{"ops":[{"op":"create","parent":"spiffe://ex.org/spire/agent/n1","identity":"spiffe://ex.org/api","selectors":[]}]}
{"code":"B6","line":4,"op":0}
{"ops":[{"op":"create","parent":"spiffe://ex.org/spire/agent/n1","identity":"spiffe://ex.org/api","selectors":["u:1"]},{"op":"mint"}]}
{"code":"L5","field":"op","line":5,"op":1}
{"ops":[{"op":"create","parent":"spiffe://ex.org/spire/agent/n1","identity":"spiffe://ex.org/api","selectors":["u:1"]}],"zz":1}
{"code":"L5","field":"zz","line":6}
a batch that the book refuses has drawn the second
{"ops":[{"op":"create","parent":"spiffe://ex.org/spire/agent/n1","identity":"spiffe://ex.org/web","selectors":["u:1"]}]}
{"call":3,"code":"O2","detail":"76b8e0ad-a0f1-4d90-805d-6ae55386bd28","op":0,"place":2,"result":"refused"}
the ids of a batch are drawn in the order of its creates; null is no id
{"ops":[{"op":"create","parent":"spiffe://ex.org/spire/agent/n1","identity":"spiffe://ex.org/a","selectors":["u:1"]},{"op":"create","id":null,"parent":"spiffe://ex.org/spire/agent/n1","identity":"spiffe://ex.org/b","selectors":["u:1"]}]}
{"call":4,"place":3,"replies":[{"entry":{"domains":[],"expiry":0,"hint":"","id":"da41597c-5157-488d-b724-e03fb8d84a37","identity":"spiffe://ex.org/a","parent":"spiffe://ex.org/spire/agent/n1","revision":0,"selectors":["u:1"]}},{"entry":{"domains":[],"expiry":0,"hint":"","id":"6a43b8f4-1518-411c-8387-b669b2ee6586","identity":"spiffe://ex.org/b","parent":"spiffe://ex.org/spire/agent/n1","revision":0,"selectors":["u:1"]}}],"result":"committed"}
"#;

#[test]
fn ids_are_drawn_where_a_line_spells_a_batch(rt: HostRuntime) -> Result<(), Fail> {
    are_answered(&rt, rt.alloc(), DRAWN)
}

/// The first two ids of the seed whose last byte is 1.
const OF_ANOTHER_SEED: &str = r#"
{"ops":[{"op":"create","parent":"spiffe://ex.org/spire/agent/n1","identity":"spiffe://ex.org/web","selectors":["u:1"]},{"op":"create","parent":"spiffe://ex.org/spire/agent/n1","identity":"spiffe://ex.org/api","selectors":["u:1"]}]}
{"call":1,"place":1,"replies":[{"entry":{"domains":[],"expiry":0,"hint":"","id":"4540f05a-9f1f-4296-9773-6e7b208e3c96","identity":"spiffe://ex.org/web","parent":"spiffe://ex.org/spire/agent/n1","revision":0,"selectors":["u:1"]}},{"entry":{"domains":[],"expiry":0,"hint":"","id":"eb4fe183-4688-4260-8f45-0952ed432d41","identity":"spiffe://ex.org/api","parent":"spiffe://ex.org/spire/agent/n1","revision":0,"selectors":["u:1"]}}],"result":"committed"}
"#;

#[test]
fn ids_of_another_seed(rt: HostRuntime) -> Result<(), Fail> {
    let mut seed = FIRST_SEED;
    seed[31] = 1;
    are_answered_with(&rt, rt.alloc(), ("ex.org", seed), OF_ANOTHER_SEED)
}

/// The first id of that seed, in another trust domain.
const OF_WORDS: &str = r#"
{"ops":[{"op":"create","parent":"spiffe://b.org/spire/agent/n1","identity":"spiffe://b.org/web","selectors":["u:1"]}]}
{"call":1,"place":1,"replies":[{"entry":{"domains":[],"expiry":0,"hint":"","id":"4540f05a-9f1f-4296-9773-6e7b208e3c96","identity":"spiffe://b.org/web","parent":"spiffe://b.org/spire/agent/n1","revision":0,"selectors":["u:1"]}}],"result":"committed"}
"#;

const WORDS: &str =
    "regd|plain|--seed|0000000000000000000000000000000000000000000000000000000000000001|--domain|b.org";

#[test]
fn words_give_the_domain_and_the_seed_of_a_run(rt: HostRuntime) -> Result<(), Fail> {
    are_answered_by(&rt, rt.alloc(), WORDS, OF_WORDS)
}
