//! A batch runs alike on two books that differ outside of what it reads.

use crate::details::run_text;
use crate::playing::{first_window, newest_number};
use crate::running::{commits, ended};
use crate::wanted::{holds, is_text};
use batch_work::{Window, Work};
use std::alloc::Global;
use std::process::Abort;
use std::test::Fail;
use test_batches::batch_text;
use version_book::{Changes, Mark};

/// How many pairs of books were found that differ outside of what a batch reads, and how many others on which the batch ran
/// differently.
#[derive(Drop)]
struct Pairs {
    alike: u64,
    different: u64,
}

/// Returns true if the run depends on the book alone, and not on the place, as a minimum place that isn't reached does, and
/// a page of an earlier book.
fn is_of_book(work: &Work, place: u64) -> bool {
    work.batch().past_place().is_none() && work.batch().after() <= place
}

/// Returns true if none of these marks is hit.
fn are_spared(marks: &[Mark], changes: &Changes) -> bool {
    for mark in marks {
        if changes.hits(mark) {
            return false;
        }
    }
    true
}

/// What the batch of a text reads on the window, and its outcome, without places.
fn text_on(alloc: Global, window: &Window, text: &str) -> Result<String, Fail> {
    let work = ended(alloc, window, text)?;
    let as_text = run_text(alloc, &work, 0);
    drop(work);
    as_text
}

/// Returns true if the other work, which began on the same version, hits nothing that this one read.
fn is_spared(work: &Work, other: &Work, place: u64) -> bool {
    is_of_book(work, place) && are_spared(work.marks(), other.changes())
}

/// Runs another batch on the version of a work, and commits it if it is ready. Returns true if it hits nothing that the
/// work read.
fn commits_elsewhere(
    alloc: Global,
    window: &mut Window,
    work: &Work,
    other: &str,
) -> Result<bool, Fail> {
    let other = ended(alloc, window, other)?;
    let hits_nothing = is_spared(work, &other, newest_number(window));
    let is_ready = commits(window, &other);
    drop(other);
    Ok(is_ready? && hits_nothing)
}

/// Compares the work of a batch with its run on the newest version.
fn compare(
    rt: &impl Abort,
    alloc: Global,
    window: &Window,
    work: &Work,
    text: &str,
    is_spared: bool,
    pairs: &mut Pairs,
) -> Result<(), Fail> {
    let old = run_text(alloc, work, 0)?;
    let new = text_on(alloc, window, text)?;
    if is_spared {
        is_text(rt, new.as_str(), old.as_str(), text);
        pairs.alike = pairs.alike.wrapping_add(1);
    } else if new != old {
        pairs.different = pairs.different.wrapping_add(1);
    }
    Ok(())
}

/// Compares the work of a batch with its run on the version after another batch.
fn compare_with_plain_book(
    rt: &impl Abort,
    alloc: Global,
    window: &mut Window,
    work: &Work,
    text: &str,
    other: &str,
    pairs: &mut Pairs,
) -> Result<(), Fail> {
    let is_spared = commits_elsewhere(alloc, window, work, other)?;
    compare(rt, alloc, window, work, text, is_spared, pairs)
}

/// Runs a batch on the newest version, and on the one after another batch.
fn pair(
    rt: &impl Abort,
    alloc: Global,
    window: &mut Window,
    text: &str,
    other: &str,
    pairs: &mut Pairs,
) -> Result<(), Fail> {
    let work = ended(alloc, window, text)?;
    let compared = compare_with_plain_book(rt, alloc, window, &work, text, other, pairs);
    drop(work);
    compared
}

/// Compares one pair of random batches.
fn random_pair(
    rt: &impl Abort,
    alloc: Global,
    window: &mut Window,
    state: &mut u64,
    pairs: &mut Pairs,
) -> Result<(), Fail> {
    let place = newest_number(window);
    let text = batch_text(alloc, state, place)?;
    let other = batch_text(alloc, state, place)?;
    pair(rt, alloc, window, text.as_str(), other.as_str(), pairs)
}

/// Compares 1,500 pairs, one after another.
fn random_pairs(rt: &impl Abort, alloc: Global, window: &mut Window) -> Result<Pairs, Fail> {
    let mut state = 11;
    let mut pairs = Pairs {
        alike: 0,
        different: 0,
    };
    for _ in 0..1500_u64 {
        random_pair(rt, alloc, window, &mut state, &mut pairs)?;
    }
    Ok(pairs)
}

#[test]
fn a_batch_runs_alike_on_books_that_differ_elsewhere(rt: HostRuntime) -> Result<(), Fail> {
    let mut window = first_window(rt.alloc())?;
    let pairs = random_pairs(&rt, rt.alloc(), &mut window);
    drop(window);
    let pairs = pairs?;
    holds(&rt, 100 <= pairs.alike, "pairs alike");
    holds(&rt, 30 <= pairs.different, "different pairs");
    Ok(())
}
