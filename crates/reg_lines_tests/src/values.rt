//! Values from words, as they are printed.

use crate::printed::add;
use batch_work::Status;
use call_answers::{Decision, Done};
use call_events::EventRefusal;
use entry_book::{CallAnswer, DomainSet, Limit, OpRefusal, Refusal, Reply, ReplyOutcome, Shared};
use line_reading::LineRefusal;
use reg_lines::{AnsweredCall, CallOrder, CallReply, EventRefused, SeatRefusal, SeatRefused};
use spiffe_name::{Failure, SpiffeId, TrustDomain};
use std::alloc::Global;
use std::test::Fail;
use test_batches::{number, trust_domain, word, words};
use uuid::Uuid;
use version_book::Mark;

fn id(alloc: Global, word: &str) -> Result<Shared<SpiffeId>, Fail> {
    Ok(Shared::of(alloc, SpiffeId::parse(alloc, word)?)?)
}

fn domain(alloc: Global, word: &str) -> Result<Shared<TrustDomain>, Fail> {
    Ok(Shared::of(alloc, trust_domain(alloc, word)?)?)
}

/// The UUID whose last bytes are this number.
fn uuid(words: &[&str], index: usize) -> Result<Uuid, Fail> {
    Ok(Uuid::from_u128(u128::from(number(words, index)?)))
}

/// The mark of a group, a parent and an identity.
fn group(alloc: Global, parent: &str, identity: &str) -> Result<Mark, Fail> {
    let parent = id(alloc, parent)?;
    let identity = id(alloc, identity)?;
    Ok(Mark::group(&parent, &identity)?)
}

/// The mark of the words from this index on.
fn mark(alloc: Global, words: &[&str], index: usize) -> Result<Mark, Fail> {
    let next = index.saturating_add(1);
    let name = word(words, next);
    match word(words, index) {
        "entry" => Ok(Mark::entry(uuid(words, next)?)),
        "token" => Ok(Mark::token(uuid(words, next)?)),
        "expiring" => Ok(Mark::expiring(number(words, next)?)),
        "all" => Ok(Mark::all()),
        "group" => group(alloc, name, word(words, next.saturating_add(1))),
        "children" => Ok(Mark::children(&id(alloc, name)?)?),
        "agent" => Ok(Mark::agent(id(alloc, name)?)),
        "users" => Ok(Mark::users(&domain(alloc, name)?)?),
        "bundle" => Ok(Mark::bundle(domain(alloc, name)?)),
        _ => Err(Fail::from("no such mark")),
    }
}

fn status(word: &str) -> Result<Status, Fail> {
    match word {
        "new" => Ok(Status::New),
        "running" => Ok(Status::Running),
        "ready" => Ok(Status::Ready),
        "settled" => Ok(Status::Settled),
        _ => Err(Fail::from("no such status")),
    }
}

fn limit(word: &str) -> Result<Limit, Fail> {
    match word {
        "history" => Ok(Limit::History),
        "entries" => Ok(Limit::Entries),
        "agents" => Ok(Limit::Agents),
        "bundles" => Ok(Limit::Bundles),
        "tokens" => Ok(Limit::Tokens),
        _ => Err(Fail::from("no such limit")),
    }
}

/// The result of a commit: a limit, if it isn't accepted.
fn decision(word: &str) -> Result<Decision, Fail> {
    match word {
        "committed" => Ok(Decision::Committed),
        "conflict" => Ok(Decision::Conflict),
        _ => Ok(Decision::Full(limit(word)?)),
    }
}

/// The answer to an accepted event of a call.
fn done(alloc: Global, words: &[&str]) -> Result<Done, Fail> {
    let call = number(words, 1)?;
    match word(words, 0) {
        "invoked" => Ok(Done::Invoked(call)),
        "begun" => Ok(Done::Begun(call, number(words, 2)?, status(word(words, 3))?)),
        "stepped" => {
            let status = status(word(words, 2))?;
            Ok(Done::Stepped(call, mark(alloc, words, 3)?, status))
        }
        "decided" => Ok(Done::Decided(call, decision(word(words, 3))?, number(words, 2)?)),
        "conflicted" => Ok(Done::Answered(call, CallAnswer::Conflict(number(words, 2)?))),
        _ => Err(Fail::from("no such value")),
    }
}

fn refused_event(words: &[&str]) -> Result<EventRefused, Fail> {
    let refusal = match word(words, 2) {
        "taken" => EventRefusal::CallTaken,
        "unknown" => EventRefusal::UnknownCall,
        "not-now" => EventRefusal::NotNow,
        "too-many" => EventRefusal::TooManyCalls,
        "no-memory" => EventRefusal::NoMemory,
        _ => return Err(Fail::from("no such refusal")),
    };
    Ok(EventRefused {
        line: number(words, 1)?,
        refusal,
    })
}

fn refused_seat(words: &[&str]) -> Result<SeatRefused, Fail> {
    let refusal = match word(words, 2) {
        "spent" => SeatRefusal::Spent,
        _ => SeatRefusal::NoEntry,
    };
    Ok(SeatRefused {
        line: number(words, 1)?,
        refusal,
    })
}

/// Why a batch is refused, or its operation of this index.
fn refusal(alloc: Global, words: &[&str]) -> Result<Refusal, Fail> {
    match word(words, 3) {
        "not-yet" => Ok(Refusal::NotYet),
        "token-reused" => Ok(Refusal::TokenReused),
        "full" => Ok(Refusal::Full(limit(word(words, 4))?)),
        "gone" => Ok(Refusal::OfOp(word(words, 4).parse::<usize>()?, OpRefusal::VersionGone)),
        "no-bundle" => {
            let index = word(words, 4).parse::<usize>()?;
            let domain = domain(alloc, word(words, 5))?;
            Ok(Refusal::OfOp(index, OpRefusal::NoBundle(domain)))
        }
        _ => Err(Fail::from("no such refusal")),
    }
}

/// Appends the reply to a call that is refused at a place.
fn add_refused(alloc: Global, text: &mut String, words: &[&str]) -> Result<(), Fail> {
    let call = number(words, 1)?;
    let reply = Reply {
        place: number(words, 2)?,
        outcome: ReplyOutcome::Refused(refusal(alloc, words)?),
    };
    add(
        alloc,
        text,
        "",
        &CallReply {
            call,
            reply: &reply,
        },
    )
}

fn add_conflict(alloc: Global, text: &mut String, words: &[&str]) -> Result<(), Fail> {
    let call = number(words, 1)?;
    let answer = CallAnswer::Conflict(number(words, 2)?);
    let answered = AnsweredCall {
        call,
        answer: &answer,
    };
    add(alloc, text, "", &answered)
}

/// Appends a refusal because memory ran out.
fn add_no_memory(alloc: Global, text: &mut String, words: &[&str]) -> Result<(), Fail> {
    let refusal = LineRefusal {
        line: number(words, 1)?,
        failure: Failure::NoMemory,
    };
    add(alloc, text, "", &refusal)
}

/// The numbers from this word on.
fn numbers(alloc: Global, words: &[&str], first: usize) -> Result<Vec<u64>, Fail> {
    let mut numbers = Vec::new(alloc);
    for index in first..words.len() {
        numbers.push(number(words, index)?)?;
    }
    Ok(numbers)
}

fn add_order(alloc: Global, text: &mut String, words: &[&str]) -> Result<(), Fail> {
    let calls = numbers(alloc, words, 1)?;
    let order = CallOrder {
        calls: calls.as_slice(),
    };
    add(alloc, text, "", &order)
}

fn add_domains(alloc: Global, text: &mut String, words: &[&str]) -> Result<(), Fail> {
    let mut domains = Vec::new(alloc);
    for index in 1..words.len() {
        domains.push(trust_domain(alloc, word(words, index))?)?;
    }
    add(alloc, text, "", &DomainSet::of(alloc, domains)?)
}

/// Appends what is printed for the value of these words, by default the answer to an event.
fn add_of_words(alloc: Global, text: &mut String, words: &[&str]) -> Result<(), Fail> {
    match word(words, 0) {
        "number" => add(alloc, text, "", &number(words, 1)?),
        "some" => add(alloc, text, "", &Some(number(words, 1)?)),
        "none" => add(alloc, text, "", &None::<u64>),
        "refused" => add_refused(alloc, text, words),
        "no-memory" => add_no_memory(alloc, text, words),
        "refused-seat" => add(alloc, text, "", &refused_seat(words)?),
        "refused-event" => add(alloc, text, "", &refused_event(words)?),
        "conflict" => add_conflict(alloc, text, words),
        "domains" => add_domains(alloc, text, words),
        "order" => add_order(alloc, text, words),
        _ => add(alloc, text, "", &done(alloc, words)?),
    }
}

/// Appends the lists of numbers of these lines.
fn add_lists(alloc: Global, text: &mut String, lines: &str) -> Result<(), Fail> {
    let mut lists = Vec::new(alloc);
    for line in lines.lines() {
        lists.push(numbers(alloc, words(alloc, line)?.as_slice(), 0)?)?;
    }
    add(alloc, text, "", &lists)
}

/// Appends the list of the marks of these lines.
fn add_marks(alloc: Global, text: &mut String, lines: &str) -> Result<(), Fail> {
    let mut marks = Vec::new(alloc);
    for line in lines.lines() {
        marks.push(mark(alloc, words(alloc, line)?.as_slice(), 0)?)?;
    }
    add(alloc, text, "", &marks)
}

/// Appends what is printed for the value of a line. Semicolons separate nested lists, and marks.
pub(crate) fn add_value(alloc: Global, text: &mut String, line: &str) -> Result<(), Fail> {
    let line = line.strip_suffix("\n").unwrap_or(line);
    let (kind, as_text) = line.split_once(" ").unwrap_or((line, ""));
    match kind {
        "text" => add(alloc, text, "", &String::from_str(alloc, as_text)?),
        "lists" => add_lists(alloc, text, as_text.replace(alloc, "; ", "\n")?.as_str()),
        "marks" => add_marks(alloc, text, as_text.replace(alloc, "; ", "\n")?.as_str()),
        _ => add_of_words(alloc, text, words(alloc, line)?.as_slice()),
    }
}
