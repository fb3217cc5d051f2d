//! When is a limit passed?

use crate::wanted::holds;
use entry_book::{Limit, limit_passed};
use std::process::Abort;
use std::test::Fail;

/// The maximum number of committed batches.
const COMMITS: u64 = 1 << 48;

/// Asserts the limit that a book with these numbers of entries, agents, bundles and tokens passes after this place, if any.
fn passes(
    rt: &impl Abort,
    place: u64,
    (entries, agents, bundles, tokens): (usize, usize, usize, usize),
    limit: Option<Limit>,
    at: &str,
) {
    let passed = limit_passed(place, entries, agents, bundles, tokens);
    holds(rt, passed == limit, at);
}

#[test]
fn the_book_after_2_to_the_48_commits_is_the_last(rt: HostRuntime) -> Result<(), Fail> {
    passes(&rt, 0, (0, 0, 0, 0), None, "at the start");
    passes(&rt, 65_537, (0, 0, 0, 0), None, "after 65,537");
    let full = (16_384, 4_096, 1_024, 65_536);
    passes(&rt, COMMITS - 1, full, None, "a full book");
    let history = Some(Limit::History);
    passes(&rt, COMMITS, (0, 0, 0, 0), history, "the last place");
    passes(&rt, u64::MAX, (0, 0, 0, 0), history, "the last number");
    Ok(())
}

#[test]
fn the_first_limit_is_reported(rt: HostRuntime) -> Result<(), Fail> {
    let (history, entries) = (Some(Limit::History), Some(Limit::Entries));
    let (agents, bundles) = (Some(Limit::Agents), Some(Limit::Bundles));
    let too_many = (16_385, 4_097, 1_025, 65_537);
    passes(&rt, COMMITS, too_many, history, "history");
    passes(&rt, COMMITS - 1, too_many, entries, "entries");
    let too_many = (16_384, 4_097, 1_025, 65_537);
    passes(&rt, COMMITS - 1, too_many, agents, "agents");
    let too_many = (16_384, 4_096, 1_025, 65_537);
    passes(&rt, COMMITS - 1, too_many, bundles, "bundles");
    let too_many = (16_384, 4_096, 1_024, 65_537);
    passes(&rt, 0, too_many, Some(Limit::Tokens), "tokens");
    Ok(())
}
