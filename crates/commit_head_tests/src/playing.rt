//! Tables of histories on a test head, with the expected answers.

use crate::telling::{commit_text, item_text};
use crate::test_head::TestHead;
use crate::wanted::is_text;
use batch_work::Versioned;
use commit_head::{Commit, Item};
use std::alloc::{AllocError, Global};
use std::process::Abort;
use std::test::Fail;
use test_batches::{batch, number, trust_domain, word, words};

pub fn first_test_head(alloc: Global) -> Result<TestHead, Fail> {
    TestHead::new(alloc, trust_domain(alloc, "ex.org")?)
}

/// Begins a work of the batch of a text. Returns true if it is ready, and then waits.
pub fn begin(alloc: Global, test_head: &mut TestHead, text: &str) -> Result<bool, Fail> {
    let batch = batch(alloc, text)?;
    test_head.begin(alloc, batch)
}

/// The same for a batch that must be ready in the end.
fn begins(alloc: Global, test_head: &mut TestHead, text: &str) -> Result<(), Fail> {
    if !begin(alloc, test_head, text)? {
        return Err(Fail::from("not ready"));
    }
    Ok(())
}

/// Commits the work at an index.
fn commit_at(test_head: &mut TestHead, index: usize, seat: u32, call: u64) -> Result<Commit, Fail> {
    let (commit, work) = test_head.commit(index, seat, call)?;
    drop(work);
    Ok(commit)
}

/// Begins a batch and commits it immediately, which must succeed.
fn continues(alloc: Global, test_head: &mut TestHead, text: &str) -> Result<(), Fail> {
    begins(alloc, test_head, text)?;
    let last = test_head.waiting().wrapping_sub(1);
    match commit_at(test_head, last, 0, test_head.head().place())? {
        Commit::Committed(_) => Ok(()),
        Commit::NoMemory => Err(Fail::from(AllocError)),
        _ => Err(Fail::from("not committed")),
    }
}

/// Does the same for a batch this many times.
fn continues_often(
    alloc: Global,
    test_head: &mut TestHead,
    times: u64,
    text: &str,
) -> Result<(), Fail> {
    for _ in 0..times {
        continues(alloc, test_head, text)?;
    }
    Ok(())
}

/// The seat in the third word.
fn seat(words: &[&str]) -> Result<u32, Fail> {
    Ok(word(words, 2).parse::<u32>()?)
}

/// The result of committing the work at an index, for a seat and a call; these three are words.
fn commits(alloc: Global, test_head: &mut TestHead, words: &[&str]) -> Result<String, Fail> {
    let (index, seat, call) = (number(words, 1)?, seat(words)?, number(words, 3)?);
    let commit = commit_at(test_head, index as usize, seat, call)?;
    Ok(commit_text(alloc, &commit)?)
}

/// The result of a commit in two calls. The head must not change between these.
fn commit_in_two_text(alloc: Global, commit: &Commit, same: bool) -> Result<String, Fail> {
    if !same {
        return Err(Fail::from("prepare has changed the head"));
    }
    Ok(commit_text(alloc, commit)?)
}

/// The same as `commits`, in two calls.
fn commits_in_two(alloc: Global, test_head: &mut TestHead, words: &[&str]) -> Result<String, Fail> {
    let (index, seat, call) = (number(words, 1)?, seat(words)?, number(words, 3)?);
    let (commit, same) = test_head.commit_in_two(index as usize, seat, call)?;
    commit_in_two_text(alloc, &commit, same)
}

fn number_text(alloc: Global, number: u64) -> Result<String, Fail> {
    Ok(format!(in alloc; "{number}")?)
}

fn item(alloc: Global, test_head: &TestHead, number: u64) -> Result<String, Fail> {
    match test_head.head().item(number) {
        Some(item) => Ok(item_text(alloc, item)?),
        None => Ok(String::from_str(alloc, "none")?),
    }
}

/// The place, the number of stored items, and the number of the newest version.
fn state_text(alloc: Global, test_head: &TestHead) -> Result<String, Fail> {
    let (place, kept) = (test_head.head().place(), test_head.head().kept());
    let newest = test_head.head().window().newest().number();
    Ok(format!(in alloc; "place {place} kept {kept} newest {newest}")?)
}

/// The numbers of the calls of these items: the first one, the last one, and how many there are.
fn calls_text(alloc: Global, items: &[Item]) -> Result<String, Fail> {
    let count = items.len();
    match (items.first(), items.last()) {
        (Some(first), Some(last)) => {
            Ok(format!(in alloc; "calls {} to {}, {count} in all", first.call, last.call)?)
        }
        _ => Ok(String::from_str(alloc, "none")?),
    }
}

/// What a checkpoint moves to a list.
fn moved_text(alloc: Global, test_head: &mut TestHead) -> Result<String, Fail> {
    let mut older = Vec::with_capacity(alloc, 64)?;
    test_head.checkpoint_into(&mut older);
    calls_text(alloc, older.as_slice())
}

fn answer_to(alloc: Global, test_head: &mut TestHead, words: &[&str]) -> Result<String, Fail> {
    match word(words, 0) {
        "COMMIT" => commits(alloc, test_head, words),
        "COMMIT-IN-TWO" => commits_in_two(alloc, test_head, words),
        "ITEM" => item(alloc, test_head, number(words, 1)?),
        "HEAD" => state_text(alloc, test_head),
        "CHECKPOINT" => number_text(alloc, test_head.checkpoint()),
        "CHECKPOINT-INTO" => moved_text(alloc, test_head),
        _ => Err(Fail::from("no such question")),
    }
}

fn answer(alloc: Global, test_head: &mut TestHead, question: &str) -> Result<String, Fail> {
    let words = words(alloc, question)?;
    answer_to(alloc, test_head, words.as_slice())
}

/// A line without an answer: `BEGIN` and a batch, `AGAIN`, a number and a batch, or a batch alone.
fn runs(alloc: Global, test_head: &mut TestHead, line: &str) -> Result<(), Fail> {
    if let Some(text) = line.strip_prefix("BEGIN ") {
        return begins(alloc, test_head, text);
    }
    let Some(text) = line.strip_prefix("AGAIN ") else {
        return continues(alloc, test_head, line);
    };
    match text.split_once(" ") {
        Some((times, text)) => continues_often(alloc, test_head, times.parse::<u64>()?, text),
        None => Err(Fail::from("no such line")),
    }
}

/// Plays a line of a table.
fn plays_line(
    rt: &impl Abort,
    alloc: Global,
    test_head: &mut TestHead,
    line: &str,
) -> Result<(), Fail> {
    if let Some((question, expected)) = line.split_once(" => ") {
        let got = answer(alloc, test_head, question)?;
        is_text(rt, got.as_str(), expected, line);
    } else if !line.is_empty() {
        runs(alloc, test_head, line)?;
    }
    Ok(())
}

/// Plays a table, beginning with the empty book. `BEGIN` begins a work, which waits after the others. A line with a
/// question has ` => ` and the expected answer: `COMMIT` and `COMMIT-IN-TWO`, with an index from 0 among the waiting works,
/// a seat and a call, commit this work and remove it from the waiting ones; `ITEM` gives an item of the journal, `HEAD` the
/// place, the journal and the window, `CHECKPOINT` the number of dropped items, `CHECKPOINT-INTO` the calls of those moved
/// to a list. `AGAIN` and a number begin and commit a batch that many times. Any other line that isn't empty is a batch to
/// begin and commit immediately.
pub fn plays(rt: &impl Abort, alloc: Global, table: &str) -> Result<(), Fail> {
    let mut test_head = first_test_head(alloc)?;
    for line in table.lines() {
        plays_line(rt, alloc, &mut test_head, line)?;
    }
    Ok(())
}
