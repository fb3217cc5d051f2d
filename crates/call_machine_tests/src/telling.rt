//! Answers, and the states of calls, as text.

use batch_work::Status;
use call_answers::{Decision, Done, KnownCall};
use call_events::RefusedEvent;
use entry_book::CallAnswer;
use std::alloc::Global;
use test_batches::{Failed, kind_at_place, mark_words, reply_text};
use version_book::Mark;

fn conflict_text(alloc: Global, place: u64) -> Result<String, Failed> {
    kind_at_place(alloc, "conflict", place)
}

fn decided_text(alloc: Global, decision: &Decision, place: u64) -> Result<String, Failed> {
    match decision {
        Decision::Committed => kind_at_place(alloc, "committed", place),
        Decision::Conflict => conflict_text(alloc, place),
        Decision::Full(limit) => kind_at_place(alloc, limit.code(), place),
    }
}

pub fn answer_of_call(alloc: Global, answer: &CallAnswer) -> Result<String, Failed> {
    match answer {
        CallAnswer::Replied(reply) => reply_text(alloc, reply),
        CallAnswer::Conflict(place) => conflict_text(alloc, *place),
    }
}

fn status_word(status: &Status) -> &'static str {
    match status {
        Status::New => "new",
        Status::Running => "running",
        Status::Ready => "ready",
        Status::Settled => "settled",
    }
}

/// A text about a call, after its number.
fn of_call(alloc: Global, call: u64, text: &str) -> Result<String, Failed> {
    Ok(format!(in alloc; "{call} {text}")?)
}

fn begun_text(alloc: Global, call: u64, place: u64, status: &Status) -> Result<String, Failed> {
    let word = status_word(status);
    Ok(format!(in alloc; "{call} {word} at {place}")?)
}

fn stepped_text(alloc: Global, call: u64, mark: &Mark, status: &Status) -> Result<String, Failed> {
    let (read, word) = (mark_words(alloc, mark)?, status_word(status));
    Ok(format!(in alloc; "{call} {word} by {read}")?)
}

/// The answer to an event: the call's number, and the result.
pub fn done_text(alloc: Global, done: &Done) -> Result<String, Failed> {
    match done {
        Done::Invoked(call) => of_call(alloc, *call, "new"),
        Done::Begun(call, place, status) => begun_text(alloc, *call, *place, status),
        Done::Stepped(call, mark, status) => stepped_text(alloc, *call, mark, status),
        Done::Decided(call, decision, place) => {
            of_call(
                alloc,
                *call,
                decided_text(alloc, decision, *place)?.as_str(),
            )
        }
        Done::Answered(call, answer) => {
            of_call(alloc, *call, answer_of_call(alloc, answer)?.as_str())
        }
    }
}

/// The answer to an event, or the code of its refusal.
pub fn answer_text(alloc: Global, answer: &Result<Done, RefusedEvent>) -> Result<String, Failed> {
    match answer {
        Ok(done) => done_text(alloc, done),
        Err(refused) => Ok(String::from_str(alloc, refused.refusal.code())?),
    }
}

/// Numbers, with one space between them.
pub fn numbers_text(alloc: Global, numbers: &[u64]) -> Result<String, Failed> {
    let mut text = String::new(alloc);
    for number in numbers {
        let space = if text.is_empty() { "" } else { " " };
        text.push_str(format!(in alloc; "{space}{number}")?.as_str())?;
    }
    Ok(text)
}

fn stamp_text(alloc: Global, kind: &str, stamp: Option<u64>) -> Result<String, Failed> {
    match stamp {
        Some(number) => Ok(format!(in alloc; "; {kind} {number}")?),
        None => Ok(String::new(alloc)),
    }
}

/// A call's answer, or `no answer`.
fn call_answer_text(alloc: Global, answer: Option<&CallAnswer>) -> Result<String, Failed> {
    match answer {
        Some(answer) => answer_of_call(alloc, answer),
        None => Ok(String::from_str(alloc, "no answer")?),
    }
}

/// The event numbers of a call, as far as they exist.
fn stamps_text(
    alloc: Global,
    invoked: u64,
    decided: Option<u64>,
    replied: Option<u64>,
) -> Result<String, Failed> {
    let decided = stamp_text(alloc, "decided", decided)?;
    let replied = stamp_text(alloc, "replied", replied)?;
    Ok(format!(in alloc; "invoked {invoked}{decided}{replied}")?)
}

fn known_call_text(alloc: Global, call: KnownCall<'_>) -> Result<String, Failed> {
    let KnownCall {
        batch,
        invoked,
        decided,
        replied,
        answer,
    } = call;
    let answer = call_answer_text(alloc, answer)?;
    let stamps = stamps_text(alloc, invoked, decided, replied)?;
    let ops = batch.ops().len();
    Ok(format!(in alloc; "operations {ops}; {stamps}; {answer}")?)
}

/// The state of a call: its number of operations, its event numbers as far as they exist, and its answer.
pub fn known_text(alloc: Global, call: Option<KnownCall<'_>>) -> Result<String, Failed> {
    match call {
        Some(call) => known_call_text(alloc, call),
        None => Ok(String::from_str(alloc, "none")?),
    }
}
