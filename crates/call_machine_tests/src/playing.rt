//! Plays tables of schedules, which have the expected answers.

ghost use Rattle.std.specs.Prelude.{◌<◌};

use crate::domain_machine::{DomainMachine, lacks_memory, run_at_once};
use crate::making::{bundles, event};
use crate::refused::answer;
use crate::telling::{answer_text, known_text, numbers_text};
use crate::wanted::{holds, is_text};
use batch_work::Status;
use call_answers::Done;
use call_events::{Event, RefusedEvent};
use std::alloc::Global;
use std::process::Abort;
use std::test::Fail;
use test_batches::{batch, trust_domain};
use test_support::{had, if_done};

/// The calls up to this number are checked when an event is refused.
const LAST: u64 = 8;

fn first_machine(alloc: Global) -> Result<DomainMachine, Fail> {
    DomainMachine::new(alloc, trust_domain(alloc, "ex.org")?)
}

/// The answer to an event that must be accepted.
fn accepted(machine: &mut DomainMachine, event: Event) -> Result<Done, Fail> {
    had(machine.apply(event)?, "refused")
}

/// Submits an event that must be accepted.
fn does(machine: &mut DomainMachine, event: Event) -> Result<(), Fail> {
    drop(accepted(machine, event)?);
    Ok(())
}

/// What a call that has begun waits for.
fn status_begun(done: &Done) -> Option<Status> {
    match done {
        Done::Begun(_, _, status) => Some(*status),
        _ => None,
    }
}

/// What the call waits for after its begin.
fn begins(machine: &mut DomainMachine, call: u64) -> Result<Status, Fail> {
    let done = accepted(machine, Event::Begin(call))?;
    let status = status_begun(&done);
    drop(done);
    Ok(status.ok_or("not begun")?)
}

/// What a call that has made a step waits for.
fn status_stepped(done: &Done) -> Option<Status> {
    match done {
        Done::Stepped(_, _, status) => Some(*status),
        _ => None,
    }
}

/// What the call waits for after its next step.
fn steps(machine: &mut DomainMachine, call: u64) -> Result<Status, Fail> {
    let done = accepted(machine, Event::Step(call))?;
    let status = status_stepped(&done);
    drop(done);
    Ok(status.ok_or("no step")?)
}

/// Makes a call of the batch of a text, from its invoke to its reply.
fn runs(alloc: Global, machine: &mut DomainMachine, call: u64, text: &str) -> Result<(), Fail> {
    does(machine, Event::Invoke(call, batch(alloc, text)?))?;
    let mut status = begins(machine, call)?;
    for _ in 0..1_000_u64 {
        if status != Status::Running {
            break;
        }
        status = steps(machine, call)?;
    }
    if status == Status::Ready {
        does(machine, Event::Commit(call))?;
    }
    does(machine, Event::Reply(call))
}

/// Sets this many new bundles, 64 in each call, with consecutive numbers of calls.
fn fills(alloc: Global, machine: &mut DomainMachine, first: u64, count: u64) -> Result<(), Fail> {
    for index in 0..count.div_ceil(64) {
        let from = index.wrapping_mul(64);
        let text = bundles(alloc, from, count.wrapping_sub(from).min(64))?;
        runs(alloc, machine, first.wrapping_add(index), text.as_str())?;
    }
    Ok(())
}

/// Invokes all calls up to this number, each with the batch of a text.
fn hands_in(alloc: Global, machine: &mut DomainMachine, last: u64, text: &str) -> Result<(), Fail> {
    for call in 0..last {
        does(
            machine,
            Event::Invoke(call.wrapping_add(1), batch(alloc, text)?),
        )?;
    }
    Ok(())
}

/// A line without an answer: a word, a number, and what the word needs.
fn prepares(alloc: Global, machine: &mut DomainMachine, line: &str) -> Result<(), Fail> {
    let Some((word, rest)) = line.split_once(" ") else {
        return Err(Fail::from("no such line"));
    };
    let Some((number, text)) = rest.split_once(" ") else {
        return Err(Fail::from("no such line"));
    };
    let number = number.parse::<u64>()?;
    match word {
        "RUN" => runs(alloc, machine, number, text),
        "FILL" => fills(alloc, machine, number, text.parse::<u64>()?),
        "HAND-IN" => hands_in(alloc, machine, number, text),
        _ => Err(Fail::from("no such line")),
    }
}

fn reply_to(
    rt: &impl Abort,
    alloc: Global,
    machine: &mut DomainMachine,
    question: &str,
) -> Result<String, Fail> {
    if question == "ORDER" {
        return Ok(numbers_text(alloc, machine.order()?.as_slice())?);
    }
    match question.strip_prefix("CALL ") {
        Some(call) => Ok(known_text(alloc, machine.call(call.parse::<u64>()?))?),
        None => answer(rt, alloc, machine, question, LAST),
    }
}

/// Plays a line of a table.
fn plays_line(
    rt: &impl Abort,
    alloc: Global,
    machine: &mut DomainMachine,
    line: &str,
) -> Result<(), Fail> {
    if let Some((question, expected)) = line.split_once(" => ") {
        let got = reply_to(rt, alloc, machine, question)?;
        is_text(rt, got.as_str(), expected, line);
    } else if !line.is_empty() {
        prepares(alloc, machine, line)?;
    }
    Ok(())
}

fn plays_lines(
    rt: &impl Abort,
    alloc: Global,
    machine: &mut DomainMachine,
    table: &str,
) -> Result<(), Fail> {
    for line in table.lines() {
        plays_line(rt, alloc, machine, line)?;
    }
    Ok(())
}

/// Plays a table on a new machine. A line with a question has ` => ` and the expected answer: an event and its answer; `ORDER`
/// and the order of calls; `CALL` with a number, and the state of that call. For a refused event, checks what it returns to the
/// caller, and that nothing changed. Other lines that aren't empty are actions, whose events must all be accepted: `RUN` makes a
/// whole call of this number, from its invoke to its reply; `FILL` sets the given number of new bundles, by calls from this
/// number on; `HAND-IN` invokes all calls up to this number.
pub fn plays(rt: &impl Abort, alloc: Global, table: &str) -> Result<(), Fail> {
    let mut machine = first_machine(alloc)?;
    let played = plays_lines(rt, alloc, &mut machine, table);
    drop(machine);
    played
}

/// The event of a line and its answer, if it has one.
fn event_of(line: &str) -> Option<(&str, &str)> {
    let (question, expected) = line.split_once(" => ")?;
    if question == "ORDER" || question.starts_with("CALL ") {
        return None;
    }
    Some((question, expected))
}

fn add_event(alloc: Global, events: &mut Vec<Event>, as_text: &str) -> Result<(), Fail> {
    Ok(events.push(event(alloc, as_text)?)?)
}

fn add_events(alloc: Global, events: &mut Vec<Event>, table: &str) -> Result<(), Fail> {
    for line in table.lines() {
        if let Some((as_text, _)) = event_of(line) {
            add_event(alloc, events, as_text)?;
        }
    }
    Ok(())
}

/// The events of a table. Lines without an event are skipped.
fn events_of(alloc: Global, table: &str) -> Result<Vec<Event>, Fail> {
    let mut events = Vec::new(alloc);
    let added = add_events(alloc, &mut events, table);
    if_done(added, events)
}

/// The answer to an event of a list. Out of memory is an error, so that no table has to handle it.
fn listed_answer(
    alloc: Global,
    answer: Option<&Result<Done, RefusedEvent>>,
) -> Result<String, Fail> {
    match answer {
        Some(answer) if !lacks_memory(answer) => Ok(answer_text(alloc, answer)?),
        Some(_) => Err(Fail::from("no memory")),
        None => Ok(String::from_str(alloc, "no answer")?),
    }
}

/// Asserts that the answers are those of the table's events, one after another.
fn check_answers(
    rt: &impl Abort,
    alloc: Global,
    answers: &[Result<Done, RefusedEvent>],
    table: &str,
) -> Result<(), Fail> {
    let mut answers = answers.iter();
    for line in table.lines() {
        if let Some((as_text, expected)) = event_of(line) {
            let got = listed_answer(alloc, answers.next())?;
            is_text(rt, got.as_str(), expected, as_text);
        }
    }
    holds(rt, answers.next().is_none(), "an answer for each event");
    Ok(())
}

/// Submits all events of a table in one call.
pub fn plays_at_once(rt: &impl Abort, alloc: Global, table: &str) -> Result<(), Fail> {
    let domain = trust_domain(alloc, "ex.org")?;
    let answers = run_at_once(alloc, &domain, events_of(alloc, table)?)?;
    let checked = check_answers(rt, alloc, answers.as_slice(), table);
    drop(answers);
    checked
}
