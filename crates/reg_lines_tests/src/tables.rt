//! What does each line of a table result in?
//!
//! A line of a table has an input, ` => `, and the result, both in the notation of `lines`. A line without ` => ` says what the
//! lines after it show.

use crate::lines::{line_of, unfolded};
use crate::printed::{add, add_refusal};
use crate::schedules::add_scheduled;
use crate::spelled::{add_event, add_record, add_request};
use crate::values::add_value;
use crate::wanted::is_text;
use entry_book::{Batch, Reply};
use line_reading::{Ids, read_event, read_record, read_request};
use plain_book::PlainBook;
use reg_lines::{CallRecord, CallReply};
use std::alloc::Global;
use std::process::Abort;
use std::test::Fail;
use test_batches::trust_domain;

/// What to check for a line.
#[derive(Clone, Copy)]
pub(crate) enum ReadAs {
    /// The request of the line.
    Request,
    /// The reply of a plain book to the request.
    Reply,
    /// The record of the call of the request: it was invoked by the fifth event, and replied by the ninth.
    Call,
    /// The contents of the record.
    Record,
    /// The event of the line.
    Event,
    /// The answer to the event in a small schedule.
    Scheduled,
    /// What is printed for a value.
    Value,
}

/// The state with which lines are read, in the trust domain `ex.org`.
#[derive(Drop)]
struct Reading {
    book: PlainBook,
    ids: Ids,
    /// The number of the line, and that of the call.
    line: u64,
    call: u64,
    /// The batch that an event of a schedule has invoked.
    handed_in: Option<Batch>,
}

/// An empty book of `ex.org`.
pub(crate) fn new_book(alloc: Global) -> Result<PlainBook, Fail> {
    Ok(PlainBook::new(alloc, trust_domain(alloc, "ex.org")?)?)
}

/// The ids of the all-zero seed.
fn first_ids() -> Ids {
    Ids::of_seed([0; 32])
}

impl Reading {
    /// The state for the first call, in a line of this number, on an empty book.
    fn new(alloc: Global, ids: Ids, line: u64) -> Result<Reading, Fail> {
        let book = new_book(alloc)?;
        Ok(Reading {
            book,
            ids,
            line,
            call: 1,
            handed_in: None,
        })
    }
}

/// The reply of a book to a batch of its trust domain.
pub(crate) fn reply_of(book: &mut PlainBook, batch: &Batch) -> Result<Reply, Fail> {
    if batch.domain() != book.domain() {
        return Err(Fail::from("a batch of another trust domain"));
    }
    Ok(book.run(batch)?)
}

/// Appends the line of the reply to a call.
pub(crate) fn add_reply(
    alloc: Global,
    text: &mut String,
    book: &mut PlainBook,
    batch: &Batch,
    call: u64,
) -> Result<(), Fail> {
    let reply = reply_of(book, batch)?;
    add(
        alloc,
        text,
        "",
        &CallReply {
            call,
            reply: &reply,
        },
    )
}

/// Appends the record of a call.
fn add_call(
    alloc: Global,
    text: &mut String,
    book: &mut PlainBook,
    batch: &Batch,
    call: u64,
) -> Result<(), Fail> {
    let reply = reply_of(book, batch)?;
    let record = CallRecord {
        batch,
        call,
        invoked: 5,
        replied: Some(9),
        reply: &reply,
    };
    add(alloc, text, "", &record)
}

/// Appends what is to be checked for a request line.
fn add_of_request(
    alloc: Global,
    text: &mut String,
    asked: ReadAs,
    reading: &mut Reading,
    line: &[u8],
) -> Result<(), Fail> {
    let Reading {
        book,
        ids,
        line: number,
        call,
        ..
    } = reading;
    match read_request(alloc, book.domain(), ids, line, *number) {
        Ok(request) => match asked {
            ReadAs::Reply => add_reply(alloc, text, book, &request.batch, *call),
            ReadAs::Call => add_call(alloc, text, book, &request.batch, *call),
            _ => add_request(alloc, text, &request),
        },
        Err(refusal) => add_refusal(alloc, text, &refusal),
    }
}

/// Appends what is to be checked for an event's line.
fn add_of_event(
    alloc: Global,
    text: &mut String,
    asked: ReadAs,
    reading: &mut Reading,
    line: &[u8],
) -> Result<(), Fail> {
    let Reading {
        book,
        ids,
        line: number,
        handed_in,
        ..
    } = reading;
    match read_event(alloc, book.domain(), ids, line, *number) {
        Ok(event) => match asked {
            ReadAs::Scheduled => add_scheduled(alloc, text, book, handed_in, event),
            _ => add_event(alloc, text, &event),
        },
        Err(refusal) => add_refusal(alloc, text, &refusal),
    }
}

fn add_of_record(
    alloc: Global,
    text: &mut String,
    reading: &Reading,
    line: &[u8],
) -> Result<(), Fail> {
    match read_record(alloc, reading.book.domain(), line, reading.line) {
        Ok(record) => add_record(alloc, text, &record),
        Err(refusal) => add_refusal(alloc, text, &refusal),
    }
}

/// Appends what is to be checked for a line.
fn add_answer(
    alloc: Global,
    text: &mut String,
    asked: ReadAs,
    reading: &mut Reading,
    line: &[u8],
) -> Result<(), Fail> {
    match asked {
        ReadAs::Request | ReadAs::Reply | ReadAs::Call => {
            add_of_request(alloc, text, asked, reading, line)
        }
        ReadAs::Event | ReadAs::Scheduled => add_of_event(alloc, text, asked, reading, line),
        ReadAs::Record => add_of_record(alloc, text, reading, line),
        ReadAs::Value => add_value(alloc, text, str::from_utf8(line)?),
    }
}

/// Asserts that the text is what this one means.
fn is_unfolded(
    rt: &impl Abort,
    alloc: Global,
    got: &str,
    expected: &str,
    at: &str,
) -> Result<(), Fail> {
    let expected = unfolded(alloc, expected)?;
    is_text(rt, got, str::from_utf8(&expected)?, at);
    Ok(())
}

/// Asserts the result of this line.
fn comes(
    rt: &impl Abort,
    alloc: Global,
    asked: ReadAs,
    reading: &mut Reading,
    line: &[u8],
    (text, expected): (&str, &str),
) -> Result<(), Fail> {
    let mut got = String::new(alloc);
    add_answer(alloc, &mut got, asked, reading, line)?;
    is_unfolded(rt, alloc, got.as_str(), expected, text)
}

/// The same with these ids, as the line of this number and the first call.
fn comes_first(
    rt: &impl Abort,
    alloc: Global,
    asked: ReadAs,
    (ids, number): (Ids, u64),
    line: &[u8],
    case: (&str, &str),
) -> Result<(), Fail> {
    let mut reading = Reading::new(alloc, ids, number)?;
    comes(rt, alloc, asked, &mut reading, line, case)
}

/// Asserts the result of this line, as the line of this number and the first call.
pub(crate) fn asserts_line(
    rt: &impl Abort,
    alloc: Global,
    asked: ReadAs,
    number: u64,
    line: &[u8],
    case: (&str, &str),
) -> Result<(), Fail> {
    comes_first(rt, alloc, asked, (first_ids(), number), line, case)
}

/// Asserts the result of the line of a text with these ids, as the first line.
pub(crate) fn asserts_with(
    rt: &impl Abort,
    alloc: Global,
    asked: ReadAs,
    ids: Ids,
    case: (&str, &str),
) -> Result<(), Fail> {
    let line = line_of(alloc, case.0)?;
    comes_first(rt, alloc, asked, (ids, 1), &line, case)
}

/// Asserts the result of each line of the table, as the line of this number and the first call, with the ids of the all-zero
/// seed.
pub(crate) fn asserts_at(
    rt: &impl Abort,
    alloc: Global,
    asked: ReadAs,
    number: u64,
    table: &str,
) -> Result<(), Fail> {
    for case in table.lines() {
        if let Some(case) = case.split_once(" => ") {
            let line = line_of(alloc, case.0)?;
            asserts_line(rt, alloc, asked, number, &line, case)?;
        }
    }
    Ok(())
}

/// Asserts the result of each line of the table, as the first line.
pub(crate) fn asserts_table(
    rt: &impl Abort,
    alloc: Global,
    asked: ReadAs,
    table: &str,
) -> Result<(), Fail> {
    asserts_at(rt, alloc, asked, 1, table)
}

/// Asserts the result of a line of the table, and advances to the next one.
fn asserts_next(
    rt: &impl Abort,
    alloc: Global,
    asked: ReadAs,
    reading: &mut Reading,
    case: (&str, &str),
) -> Result<(), Fail> {
    let line = line_of(alloc, case.0)?;
    comes(rt, alloc, asked, reading, &line, case)?;
    reading.line = reading.line.saturating_add(1);
    reading.call = reading.line;
    Ok(())
}

fn asserts_all(
    rt: &impl Abort,
    alloc: Global,
    asked: ReadAs,
    reading: &mut Reading,
    table: &str,
) -> Result<(), Fail> {
    for case in table.lines() {
        if let Some(case) = case.split_once(" => ") {
            asserts_next(rt, alloc, asked, reading, case)?;
        }
    }
    Ok(())
}

/// Asserts the results of the lines of the table, one after another: lines and calls are counted from 1.
pub(crate) fn asserts_in_a_row(
    rt: &impl Abort,
    alloc: Global,
    asked: ReadAs,
    table: &str,
) -> Result<(), Fail> {
    let mut reading = Reading::new(alloc, first_ids(), 1)?;
    asserts_all(rt, alloc, asked, &mut reading, table)
}
