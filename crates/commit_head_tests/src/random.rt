//! Random batches, many of which are in flight together: what commits is what the plain book commits, and what is refused
//! was hit by a later commit.

ghost use Rattle.std.specs.Prelude.{◌≡◌};

use crate::playing::{begin, first_test_head};
use crate::test_head::TestHead;
use crate::wanted::{holds, is_number, is_text};
use batch_work::Work;
use commit_head::{Commit, Head, Item};
use entry_book::{Batch, Reply};
use plain_book::PlainBook;
use std::alloc::Global;
use std::process::Abort;
use std::test::Fail;
use test_batches::{accepted_text, batch_text, below, reply_text, trust_domain};
use version_book::Mark;

/// The numbers of works that were committed, and that were refused after up to 63 other commits, and after more.
#[derive(Drop)]
struct Counts {
    committed: u64,
    conflicts: u64,
    late_conflicts: u64,
}

fn no_counts() -> Counts {
    Counts {
        committed: 0,
        conflicts: 0,
        late_conflicts: 0,
    }
}

fn plain_book(alloc: Global) -> Result<PlainBook, Fail> {
    Ok(PlainBook::new(alloc, trust_domain(alloc, "ex.org")?)?)
}

/// The plain book's reply. A run that fails for lack of memory must have changed nothing, and is retried.
fn run(book: &mut PlainBook, batch: &Batch) -> Result<Reply, Fail>
    requires { batch.now.domain ≡ book.old.domain }
{
    let found = book.place();
    match book.run(batch) {
        Ok(reply) => Ok(reply),
        Err(_) if book.place() == found => Ok(book.run(batch)?),
        Err(_) => Err(Fail::from("changed without memory")),
    }
}

/// The plain book's reply, as text.
fn plain_text(alloc: Global, book: &mut PlainBook, batch: &Batch) -> Result<String, Fail> {
    if batch.domain() != book.domain() {
        return Err(Fail::from("another trust domain"));
    }
    let reply = run(book, batch)?;
    Ok(reply_text(alloc, &reply)?)
}

/// The item of this number, which must be in the journal.
fn kept_item<'a>(head: &'a Head, number: u64) -> Result<&'a Item, Fail> {
    match head.item(number) {
        Some(item) => Ok(item),
        None => Err(Fail::from("no such item")),
    }
}

/// Asserts that the plain book commits the batch of this number too, with the same replies.
fn matches_text(
    rt: &impl Abort,
    alloc: Global,
    head: &Head,
    book: &mut PlainBook,
    number: u64,
) -> Result<(), Fail> {
    let item = kept_item(head, number)?;
    let expected = plain_text(alloc, book, &item.batch)?;
    let got = accepted_text(alloc, "committed", number, item.replies.get().as_slice())?;
    is_text(rt, got.as_str(), expected.as_str(), "a committed batch");
    Ok(())
}

/// Returns true if a write of the item hits one of the marks.
fn hits_one(item: &Item, marks: &[Mark]) -> bool {
    for mark in marks {
        if item.changes.hits(mark) {
            return true;
        }
    }
    false
}

/// Returns true if a write of one of the items after the first number, up to the last one, hits one of the marks.
fn is_hit(head: &Head, first: u64, last: u64, marks: &[Mark]) -> Result<bool, Fail> {
    let mut hit = false;
    for number in first..last {
        let item = kept_item(head, number.wrapping_add(1))?;
        hit = hits_one(item, marks) || hit;
    }
    Ok(hit)
}

/// The number of the version on which the work began.
fn base_number(work: &Work) -> Result<u64, Fail> {
    match work.base() {
        Some(base) => Ok(base.number()),
        None => Err(Fail::from("not begun")),
    }
}

/// Returns true if at most 63 batches were committed between the work's begin and the book of this number. Then asserts
/// that it is a conflict exactly if one of them wrote what the work has read.
fn is_due(
    rt: &impl Abort,
    head: &Head,
    work: &Work,
    last: u64,
    conflict: bool,
) -> Result<bool, Fail> {
    let first = base_number(work)?;
    if last.wrapping_sub(first) > 63 {
        return Ok(false);
    }
    let is_hit = is_hit(head, first, last, work.marks())?;
    holds(rt, is_hit == conflict, "a write that hits");
    Ok(true)
}

/// Compares the result of a commit with the plain book, and with the commits since the work began.
fn compare(
    rt: &impl Abort,
    alloc: Global,
    head: &Head,
    book: &mut PlainBook,
    commit: &Commit,
    work: &Work,
    counts: &mut Counts,
) -> Result<(), Fail> {
    match commit {
        Commit::Committed(number) => {
            counts.committed = counts.committed.wrapping_add(1);
            is_due(rt, head, work, number.wrapping_sub(1), false)?;
            matches_text(rt, alloc, head, book, *number)
        }
        Commit::Conflict(place) => {
            is_number(rt, *place, head.place(), "the place of a conflict");
            let few = is_due(rt, head, work, *place, true)?;
            counts.conflicts = counts.conflicts.wrapping_add(u64::from(few));
            counts.late_conflicts = counts.late_conflicts.wrapping_add(u64::from(!few));
            Ok(())
        }
        _ => Err(Fail::from("neither committed nor a conflict")),
    }
}

/// Begins a work of a random batch; one that isn't ready for a commit is dropped.
fn begins_one(alloc: Global, test_head: &mut TestHead, state: &mut u64) -> Result<(), Fail> {
    let text = batch_text(alloc, state, test_head.head().place())?;
    begin(alloc, test_head, text.as_str())?;
    Ok(())
}

/// Commits one of the waiting works.
fn commits_one(
    rt: &impl Abort,
    alloc: Global,
    test_head: &mut TestHead,
    book: &mut PlainBook,
    index: usize,
    counts: &mut Counts,
) -> Result<(), Fail> {
    let (commit, work) = test_head.commit(index, 0, 0)?;
    let compared = compare(rt, alloc, test_head.head(), book, &commit, &work, counts);
    drop(work);
    compared
}

/// The index of one of `count` works. In three of four cases it is the one that began last, so that the others get old.
fn index_of_one(state: &mut u64, count: usize) -> usize {
    if count == 0 {
        return 0;
    }
    if below(state, 4) > 0 {
        return count - 1;
    }
    below(state, count as u64)
}

/// Makes 600 random steps, each a begin or a commit, with at most `most` waiting works. Then makes a checkpoint.
fn rounds(
    rt: &impl Abort,
    alloc: Global,
    test_head: &mut TestHead,
    book: &mut PlainBook,
    state: &mut u64,
    most: usize,
    counts: &mut Counts,
) -> Result<(), Fail> {
    for _ in 0..600_u64 {
        let waiting = test_head.waiting();
        let begins = waiting < most && below(state, 8) > 0;
        if begins || waiting == 0 {
            begins_one(alloc, test_head, state)?;
        } else {
            let index = index_of_one(state, waiting);
            commits_one(rt, alloc, test_head, book, index, counts)?;
        }
    }
    test_head.checkpoint();
    Ok(())
}

/// Rounds with few works in flight, and with many.
fn all_rounds(
    rt: &impl Abort,
    alloc: Global,
    test_head: &mut TestHead,
    book: &mut PlainBook,
    counts: &mut Counts,
) -> Result<(), Fail> {
    let mut state = 7;
    for most in [1_usize, 2, 4, 100, 100, 8, 100, 4, 3] {
        rounds(rt, alloc, test_head, book, &mut state, most, counts)?;
    }
    Ok(())
}

/// Rounds on a test head and on the plain book, which have the same place at the end.
fn play_both(
    rt: &impl Abort,
    alloc: Global,
    test_head: &mut TestHead,
    book: &mut PlainBook,
) -> Result<(), Fail> {
    let mut counts = no_counts();
    all_rounds(rt, alloc, test_head, book, &mut counts)?;
    is_number(rt, test_head.head().place(), book.place(), "place");
    is_number(rt, test_head.head().place(), counts.committed, "committed");
    holds(rt, counts.committed > 200, "more than 200 commits");
    holds(rt, counts.conflicts > 50, "more than 50 conflicts");
    holds(rt, counts.late_conflicts > 0, "late conflicts");
    Ok(())
}

fn play_with_the_plain_book(
    rt: &impl Abort,
    alloc: Global,
    test_head: &mut TestHead,
) -> Result<(), Fail> {
    let mut book = plain_book(alloc)?;
    play_both(rt, alloc, test_head, &mut book)
}

#[test]
fn works_that_began_at_once_commit_as_in_the_plain_book(rt: HostRuntime) -> Result<(), Fail> {
    let mut test_head = first_test_head(rt.alloc())?;
    play_with_the_plain_book(&rt, rt.alloc(), &mut test_head)
}
