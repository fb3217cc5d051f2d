//! A refused event is returned to the caller, and has changed nothing.

use crate::domain_machine::DomainMachine;
use crate::making::event;
use crate::telling::{answer_text, known_text, numbers_text};
use crate::wanted::{holds, is_text};
use call_answers::Done;
use call_events::{Event, RefusedEvent};
use entry_book::{Batch, KeptBatch, Sequence, Shared, both};
use std::alloc::Global;
use std::process::Abort;
use std::test::Fail;
use uuid::Uuid;

/// A stored batch without replies.
fn kept(alloc: Global, batch: &Batch) -> Result<KeptBatch, Fail> {
    let no_replies = Shared::of(alloc, Sequence::empty(alloc));
    let (ops, replies) = both(batch.shared_ops().clone(), no_replies)?;
    Ok(KeptBatch {
        token: Uuid::nil(),
        ops,
        place: 0,
        replies,
    })
}

fn has_same_ops(alloc: Global, first: &Batch, second: &Batch) -> Result<bool, Fail> {
    let kept = kept(alloc, first)?;
    let is_same = kept.has_ops(second.ops());
    drop(kept);
    Ok(is_same)
}

fn is_same_batch(alloc: Global, first: &Batch, second: &Batch) -> Result<bool, Fail> {
    let is_same = has_same_ops(alloc, first, second)?;
    Ok(is_same && first.after() == second.after() && first.token() == second.token())
}

fn is_same_event(alloc: Global, first: &Event, second: &Event) -> Result<bool, Fail> {
    match (first, second) {
        (Event::Invoke(one, batch), Event::Invoke(other, another)) => {
            Ok(one == other && is_same_batch(alloc, batch, another)?)
        }
        (Event::Begin(one), Event::Begin(other)) => Ok(one == other),
        (Event::Step(one), Event::Step(other)) => Ok(one == other),
        (Event::Commit(one), Event::Commit(other)) => Ok(one == other),
        (Event::Reply(one), Event::Reply(other)) => Ok(one == other),
        _ => Ok(false),
    }
}

/// Returns true if it is the event of a text.
fn is_event_of_text(alloc: Global, as_text: &str, refused: &Event) -> Result<bool, Fail> {
    let event = event(alloc, as_text)?;
    let is_same = is_same_event(alloc, &event, refused);
    drop(event);
    is_same
}

/// The machine's order, and its state of the calls up to this number.
fn machine_text(alloc: Global, machine: &DomainMachine, last: u64) -> Result<String, Fail> {
    let mut text = numbers_text(alloc, machine.order()?.as_slice())?;
    for number in 0..last {
        text.push_str(" | ")?;
        text.push_str(known_text(alloc, machine.call(number.wrapping_add(1)))?.as_str())?;
    }
    Ok(text)
}

/// Asserts that the event of a text is returned, and that the machine reports the same as before for the calls up to this number.
fn check_refused(
    rt: &impl Abort,
    alloc: Global,
    machine: &DomainMachine,
    as_text: &str,
    refused: &Event,
    (last, before): (u64, &str),
) -> Result<(), Fail> {
    holds(rt, is_event_of_text(alloc, as_text, refused)?, as_text);
    let after = machine_text(alloc, machine, last)?;
    is_text(rt, after.as_str(), before, as_text);
    Ok(())
}

/// The text of an answer to the event of a text. If it is refused, it is checked.
fn checked_text(
    rt: &impl Abort,
    alloc: Global,
    machine: &DomainMachine,
    as_text: &str,
    answer: &Result<Done, RefusedEvent>,
    before: (u64, &str),
) -> Result<String, Fail> {
    if let Err(refused) = answer {
        check_refused(rt, alloc, machine, as_text, &refused.event, before)?;
    }
    Ok(answer_text(alloc, answer)?)
}

/// The answer to the event of a text. If it is refused, asserts that the event is returned, and that the machine reports the same
/// as before for the calls up to this number.
pub fn answer(
    rt: &impl Abort,
    alloc: Global,
    machine: &mut DomainMachine,
    as_text: &str,
    last: u64,
) -> Result<String, Fail> {
    let before = machine_text(alloc, machine, last)?;
    let answer = machine.apply(event(alloc, as_text)?)?;
    let text = checked_text(
        rt,
        alloc,
        machine,
        as_text,
        &answer,
        (last, before.as_str()),
    );
    drop(answer);
    text
}
