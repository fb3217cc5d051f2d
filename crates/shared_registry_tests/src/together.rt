//! What replies do eight threads get that commit concurrently?

use crate::plays::talks;
use crate::talks::Talk;
use std::test::Fail;

#[test]
fn creates_of_eight_threads_are_all_committed_and_seen(rt: HostRuntime) -> Result<(), Fail> {
    let counts = "committed 800; repeated 0; refused 0; conflict 0; answered 1600; begun 800";
    talks(&rt, rt.alloc(), Talk::Creates, counts)
}

/// All begin before one commits, so seven of them begin again.
#[test]
fn a_token_of_many_threads_commits_once(rt: HostRuntime) -> Result<(), Fail> {
    let counts = "committed 1; repeated 7; refused 0; conflict 0; answered 0; begun 15";
    talks(&rt, rt.alloc(), Talk::Token, counts)
}

/// Receipts go round a ring of eight threads.
#[test]
fn a_query_shows_all_that_receipts_pass_on(rt: HostRuntime) -> Result<(), Fail> {
    let counts = "committed 160; repeated 0; refused 0; conflict 0; answered 1056; begun 160";
    talks(&rt, rt.alloc(), Talk::Ring, counts)
}
