//! Is there one list of committed batches that explains all replies to eight threads? The list is rebuilt from the places of the
//! replies, and each reply is compared with that of a plain book that runs the list.

use crate::calls::{Call, calls_of_all, is_of_batch};
use crate::failed::Failed;
use crate::plays::talks;
use crate::site::{Site, without_tries};
use crate::talks::{THREADS, Talk};
use crate::telling::{kind_of, place_of};
use crate::turnstile::Turnstile;
use crate::wanted::{holds, is_number, is_text};
use entry_book::{Batch, Reply};
use plain_book::PlainBook;
use shared_registry::{Point, RegistryId};
use std::alloc::Global;
use std::env;
use std::process::Abort;
use std::sync::Wait;
use std::test::Fail;
use std::thread::Threads;
use std::time::Clock;
use test_batches::{batch, reply_text, trust_domain};

/// The default number of random calls of each of the eight threads.
const CALLS: u64 = 500;

/// The possible outcomes of a batch.
const KINDS: &str = "committed repeated refused conflict answered";

/// The place of a call, whether it was not committed there, and its index.
type Turn = (u64, bool, usize);

/// The order in which the plain book runs the calls: by their places, and at each place first the one that was committed there.
fn in_order(alloc: Global, calls: &[Call]) -> Result<Vec<Turn>, Failed> {
    let mut order = Vec::new(alloc);
    for (index, call) in calls.iter().enumerate() {
        let as_text = call.reply.as_str();
        order.push((place_of(as_text)?, kind_of(as_text) != "committed", index))?;
    }
    order.sort()?;
    Ok(order)
}

/// The plain book's reply.
fn plain_reply(book: &mut PlainBook, batch: &Batch) -> Result<Reply, Failed> {
    if batch.domain() != book.domain() {
        return Err(Failed("a batch isn't for the plain book"));
    }
    Ok(book.run(batch)?)
}

fn text_by(alloc: Global, reply: Reply) -> Result<String, Failed> {
    Ok(reply_text(alloc, &reply)?)
}

/// The plain book's reply, as text.
fn plain_text(alloc: Global, book: &mut PlainBook, text: &str) -> Result<String, Failed> {
    let batch = batch(alloc, without_tries(text))?;
    let reply = plain_reply(book, &batch);
    drop(batch);
    text_by(alloc, reply?)
}

/// Asserts that the plain book gives the same reply as the call got; the book is at the call's place, or one before it. The plain
/// book has no conflicts.
fn check_call(
    rt: &impl Abort,
    alloc: Global,
    book: &mut PlainBook,
    call: &Call,
) -> Result<(), Failed> {
    let (text, as_text) = (call.text.as_str(), call.reply.as_str());
    if !is_of_batch(call) || kind_of(as_text) == "conflict" {
        return Ok(());
    }
    let expected = plain_text(alloc, book, text)?;
    is_text(rt, as_text, expected.as_str(), text);
    is_number(rt, book.place(), place_of(as_text)?, text);
    Ok(())
}

/// Compares all calls with one plain book, and asserts that it ends at this place.
fn check_calls(
    rt: &impl Abort,
    alloc: Global,
    calls: &[Call],
    order: &[Turn],
    place: u64,
) -> Result<(), Failed> {
    let mut book = PlainBook::new(alloc, trust_domain(alloc, "ex.org")?)?;
    for (_, _, index) in order {
        if let Some(call) = calls.get(*index) {
            check_call(rt, alloc, &mut book, call)?;
        }
    }
    is_number(rt, book.place(), place, "the last place");
    Ok(())
}

/// Asserts that exactly one batch was committed at each place up to this one.
fn check_places(rt: &impl Abort, order: &[Turn], place: u64) {
    let mut last: u64 = 0;
    for (place, is_later, _) in order {
        if !*is_later {
            last = last.wrapping_add(1);
            is_number(rt, *place, last, "a place");
        }
    }
    is_number(rt, last, place, "the last place");
}

/// The number of calls with this kind of reply.
fn count_of(calls: &[Call], kind: &str) -> u64 {
    let mut count: u64 = 0;
    for call in calls {
        count = count.wrapping_add((kind_of(call.reply.as_str()) == kind) as u64);
    }
    count
}

/// The number of calls with each kind of reply, and how often a batch of changes began.
fn counts_text(alloc: Global, calls: &[Call], begun: u64) -> Result<String, Failed> {
    let mut text = String::new(alloc);
    for kind in KINDS.split_whitespace() {
        let count = count_of(calls, kind);
        text.push_str(format!(in alloc; "{kind} {count}; ")?.as_str())?;
    }
    text.push_str(format!(in alloc; "begun {begun}")?.as_str())?;
    Ok(text)
}

/// Asserts these counts. If none are given, prints them and asserts that none is 0.
fn check_counts(rt: &(impl Abort + Print), counts: &str, expected: &str) -> Result<(), Failed> {
    if !expected.is_empty() {
        is_text(rt, counts, expected, "counts");
        return Ok(());
    }
    println!(rt; "{counts}")?;
    for count in counts.split("; ") {
        holds(rt, !count.ends_with(" 0"), count);
    }
    Ok(())
}

/// Asserts that exactly one batch was committed at each place up to this one. For tokens and random batches, also asserts that
/// the plain book that runs this list gives the same replies.
fn check_list(
    rt: &impl Abort,
    alloc: Global,
    talk: Talk,
    calls: &[Call],
    place: u64,
) -> Result<(), Failed> {
    let order = in_order(alloc, calls)?;
    check_places(rt, order.as_slice(), place);
    match talk {
        Talk::Creates | Talk::Ring => Ok(()),
        _ => check_calls(rt, alloc, calls, order.as_slice(), place),
    }
}

/// Runs a talk of eight threads, and asserts that one list of committed batches explains it, and the number of calls with each
/// kind of reply. All first batches begin before one of them goes on.
pub fn explains<J: RegistryId + Send + Sync, R: Threads + Wait + Clock + Abort + Print + Sync>(
    site: &Site<J, R>,
    talk: Talk,
    expected: &str,
) -> Result<(), Failed> {
    let gate = Turnstile::new(site.rt, Point::AfterBegin, 0, THREADS);
    let calls = calls_of_all(site, &gate, talk)?;
    let begun = gate.passes()?;
    let place = site.place()?;
    check_list(site.rt, site.alloc, talk, calls.as_slice(), place)?;
    let counts = counts_text(site.alloc, calls.as_slice(), begun)?;
    check_counts(site.rt, counts.as_str(), expected)
}

/// The word after the test's name, if the program gets one, is the number of calls.
#[test]
fn answers_of_eight_threads_are_those_of_one_list(rt: HostRuntime) -> Result<(), Fail> {
    let each = match env::args(&rt)?.nth(2) {
        Some(word) => word.parse::<u64>()?,
        None => CALLS,
    };
    talks(&rt, rt.alloc(), Talk::Draws(each), "")
}
