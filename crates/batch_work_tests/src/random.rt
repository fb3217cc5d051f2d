//! Random batches on random small books: a work has the outcome that the plain book gives.

ghost use Rattle.std.specs.Prelude.{◌≡◌};

use crate::details::{run_text, whole_text};
use crate::footprints::{PlainHistory, footprint, no_history};
use crate::playing::{first_window, newest_number};
use crate::running::{commits, ended};
use crate::wanted::{holds, is_number, is_text};
use batch_work::{Window, Work};
use entry_book::{Batch, Reply};
use plain_book::PlainBook;
use std::alloc::Global;
use std::process::Abort;
use std::test::Fail;
use test_batches::{batch_text, trust_domain};

/// What must occur in some reply, or after it in some footprint.
const COMING: &str = "\
committed at
answered at
repeated at
refused W1
refused O1
refused O2
refused O3
refused O4
refused O5
refused O6
refused O7
refused O8
refused O9
; pruned 1
; dropped /
; dropped 1
; dropped / 1
; entries 1.
; bundles bundle d1
; page 1.
 next 1
; none
 x:1 x:2 /web
 2 120 10 0
operation 0 by 1
operation 0 without d1
token 1
 | group n1 /
 | users d1
expiring 1
 | children /spire/server | children n1 | children /api | children n2 | children /web
 | children n2 | bundle d1 | bundle d2
";

fn plain_book(alloc: Global) -> Result<PlainBook, Fail> {
    Ok(PlainBook::new(alloc, trust_domain(alloc, "ex.org")?)?)
}

/// The plain book's place. It has no contract.
fn place_of_book(book: &PlainBook) -> u64 {
    book.place()
}

/// The plain book's reply. A run that fails for lack of memory must have changed nothing, and is retried.
fn run(book: &mut PlainBook, batch: &Batch) -> Result<Reply, Fail>
    requires { batch.now.domain ≡ book.old.domain }
{
    let found = place_of_book(book);
    match book.run(batch) {
        Ok(reply) => Ok(reply),
        Err(_) if place_of_book(book) == found => Ok(book.run(batch)?),
        Err(_) => Err(Fail::from("changed without memory")),
    }
}

/// The plain book's reply, as text.
fn plain_text(alloc: Global, book: &mut PlainBook, batch: &Batch) -> Result<String, Fail> {
    if batch.domain() != book.domain() {
        return Err(Fail::from("another trust domain"));
    }
    let reply = run(book, batch)?;
    let as_text = whole_text(alloc, reply.place, &reply.outcome);
    drop(reply);
    as_text
}

/// The expected reads of a batch, from its footprint, and its expected outcome, from the plain book.
fn wanted(
    alloc: Global,
    book: &mut PlainBook,
    history: &mut PlainHistory,
    batch: &Batch,
    text: &str,
) -> Result<String, Fail> {
    let mut expected = footprint(alloc, history, place_of_book(book), text)?;
    expected.push_str(" => ")?;
    expected.push_str(plain_text(alloc, book, batch)?.as_str())?;
    Ok(expected)
}

/// The place of the work's outcome: that of its reply, or this one if it is ready.
fn place_of(work: &Work, place: u64) -> u64 {
    match work.reply() {
        Some(reply) => reply.place,
        None => place,
    }
}

/// Asserts the reads and the outcome of the work, and appends them to the transcript.
fn is_as_wanted(
    rt: &impl Abort,
    alloc: Global,
    work: &Work,
    place: u64,
    expected: &str,
    as_text: &mut String,
) -> Result<(), Fail> {
    let got = run_text(alloc, work, place_of(work, place))?;
    is_text(rt, got.as_str(), expected, "a random batch");
    as_text.push_str(got.as_str())?;
    as_text.push_str("\n")?;
    Ok(())
}

/// Compares a work with both, and pushes the next version if the work is ready.
fn compare(
    rt: &impl Abort,
    alloc: Global,
    window: &mut Window,
    book: &mut PlainBook,
    history: &mut PlainHistory,
    work: &Work,
    text: &str,
    as_text: &mut String,
) -> Result<(), Fail> {
    let next = newest_number(window).wrapping_add(1);
    let expected = wanted(alloc, book, history, work.batch(), text)?;
    is_as_wanted(rt, alloc, work, next, expected.as_str(), as_text)?;
    commits(window, work)?;
    Ok(())
}

/// Runs a random batch on both.
fn round(
    rt: &impl Abort,
    alloc: Global,
    window: &mut Window,
    book: &mut PlainBook,
    history: &mut PlainHistory,
    state: &mut u64,
    as_text: &mut String,
) -> Result<(), Fail> {
    let text = batch_text(alloc, state, newest_number(window))?;
    let work = ended(alloc, window, text.as_str())?;
    let compared = compare(
        rt,
        alloc,
        window,
        book,
        history,
        &work,
        text.as_str(),
        as_text,
    );
    drop(work);
    compared
}

/// Runs random batches, one after another.
fn rounds(
    rt: &impl Abort,
    alloc: Global,
    window: &mut Window,
    book: &mut PlainBook,
    history: &mut PlainHistory,
    as_text: &mut String,
) -> Result<(), Fail> {
    let mut state = 7;
    for _ in 0..1200_u64 {
        round(rt, alloc, window, book, history, &mut state, as_text)?;
    }
    Ok(())
}

/// Asserts that each line of the list occurred.
fn all_came(rt: &impl Abort, as_text: &str) {
    for line in COMING.lines() {
        holds(rt, as_text.contains(line), line);
    }
}

/// Runs random batches on a window and on the plain book, which have the same place at the end.
fn plays_on_both(
    rt: &impl Abort,
    alloc: Global,
    window: &mut Window,
    book: &mut PlainBook,
) -> Result<(), Fail> {
    let mut as_text = String::new(alloc);
    let mut history = no_history(alloc);
    let played = rounds(rt, alloc, window, book, &mut history, &mut as_text);
    drop(history);
    played?;
    is_number(rt, newest_number(window), place_of_book(book), "place");
    all_came(rt, as_text.as_str());
    Ok(())
}

/// Runs random batches on a window, compared with the plain book.
fn plays_with_plain_book(rt: &impl Abort, alloc: Global, window: &mut Window) -> Result<(), Fail> {
    let mut book = plain_book(alloc)?;
    let played = plays_on_both(rt, alloc, window, &mut book);
    drop(book);
    played
}

#[test]
fn random_batches_come_to_what_the_plain_book_answers(rt: HostRuntime) -> Result<(), Fail> {
    let mut window = first_window(rt.alloc())?;
    let played = plays_with_plain_book(&rt, rt.alloc(), &mut window);
    drop(window);
    played
}
