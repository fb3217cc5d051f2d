//! Scripts of batches and the expected replies of a book.

ghost use Rattle.std.specs.Prelude.{◌≡◌};

use crate::making::batch;
use crate::wanted::is_text;
use entry_book::{Batch, Op, OpReply, Reply, ReplyOutcome};
use plain_book::PlainBook;
use std::alloc::Global;
use std::process::Abort;
use std::test::Fail;
use test_batches::{kind_at_place, reply_text, trust_domain};
use test_support::{if_done, pair_with};

pub fn first_book(alloc: Global) -> Result<PlainBook, Fail> {
    Ok(PlainBook::new(alloc, trust_domain(alloc, "ex.org")?)?)
}

/// The book's place. It has no contract.
fn place_of(book: &PlainBook) -> u64 {
    book.place()
}

/// The book's reply. A run that fails for lack of memory must have changed nothing, and is retried.
fn run(book: &mut PlainBook, batch: &Batch) -> Result<Reply, Fail>
    requires { batch.now.domain ≡ book.old.domain }
{
    let found = place_of(book);
    match book.run(batch) {
        Ok(reply) => Ok(reply),
        Err(_) if place_of(book) == found => Ok(book.run(batch)?),
        Err(_) => Err(Fail::from("changed without memory")),
    }
}

/// The book's reply to a batch of its trust domain.
fn reply_to(book: &mut PlainBook, batch: &Batch) -> Result<Reply, Fail> {
    if batch.domain() != book.domain() {
        return Err(Fail::from("another trust domain"));
    }
    run(book, batch)
}

/// A batch, and the book's reply to it.
#[derive(Drop)]
pub struct Answer {
    batch: Batch,
    reply: Reply,
}

impl Answer {
    /// The operations. The function has no contract.
    pub fn ops(&self) -> &[Op] {
        self.batch.shared_ops().get().as_slice()
    }

    pub fn outcome(&self) -> &ReplyOutcome {
        &self.reply.outcome
    }

    /// The replies to the operations; none if the batch is refused.
    pub fn replies(&self) -> &[OpReply] {
        match &self.reply.outcome {
            ReplyOutcome::Committed(replies)
            | ReplyOutcome::Answered(replies)
            | ReplyOutcome::Repeated(replies) => replies.get().as_slice(),
            ReplyOutcome::Refused(_) => &[],
        }
    }

    /// The reply, as text.
    pub fn text(&self, alloc: Global) -> Result<String, Fail> {
        Ok(reply_text(alloc, &self.reply)?)
    }

    /// Returns an error unless the batch is read-only and was answered.
    fn is_answered(&self) -> Result<(), Fail> {
        match &self.reply.outcome {
            ReplyOutcome::Answered(_) => Ok(()),
            _ => Err(Fail::from("a question isn't answered")),
        }
    }
}

/// Runs the batch of a text.
pub fn answer_to(alloc: Global, book: &mut PlainBook, text: &str) -> Result<Answer, Fail> {
    let batch = batch(alloc, text)?;
    let reply = reply_to(book, &batch);
    let (batch, reply) = pair_with(batch, reply)?;
    Ok(Answer { batch, reply })
}

/// Runs the batch of a text, which must be read-only and not refused.
pub fn asked(alloc: Global, book: &mut PlainBook, text: &str) -> Result<Answer, Fail> {
    let answer = answer_to(alloc, book, text)?;
    let answered = answer.is_answered();
    if_done(answered, answer)
}

/// The book's reply to the batch of a text, as text.
pub fn as_text(alloc: Global, book: &mut PlainBook, text: &str) -> Result<String, Fail> {
    let answer = answer_to(alloc, book, text)?;
    let as_text = answer.text(alloc);
    drop(answer);
    as_text
}

/// Asserts the book's reply to the batch of a text.
pub fn answers(
    rt: &impl Abort,
    alloc: Global,
    book: &mut PlainBook,
    text: &str,
    expected: &str,
) -> Result<(), Fail> {
    let got = as_text(alloc, book, text)?;
    is_text(rt, got.as_str(), expected, text);
    Ok(())
}

/// Runs prunes that remove nothing until the book is at this place.
fn goes_to(rt: &impl Abort, alloc: Global, book: &mut PlainBook, place: &str) -> Result<(), Fail> {
    for found in place_of(book)..place.parse::<u64>()? {
        let next = found.wrapping_add(1);
        let expected = format!(in alloc; "committed at {next}; pruned")?;
        answers(rt, alloc, book, "prune 0", expected.as_str())?;
    }
    Ok(())
}

/// Asserts the book's trust domain and place.
fn is_at(rt: &impl Abort, alloc: Global, book: &PlainBook, expected: &str) -> Result<(), Fail> {
    let got = kind_at_place(alloc, book.domain().as_str(), book.place())?;
    is_text(rt, got.as_str(), expected, "the domain and the place");
    Ok(())
}

/// Asserts the reply to a batch, or for `BOOK` the trust domain and the place.
fn plays_answer(
    rt: &impl Abort,
    alloc: Global,
    book: &mut PlainBook,
    text: &str,
    expected: &str,
) -> Result<(), Fail> {
    if text == "BOOK" {
        return is_at(rt, alloc, book, expected);
    }
    answers(rt, alloc, book, text, expected)
}

fn plays_line(
    rt: &impl Abort,
    alloc: Global,
    book: &mut PlainBook,
    line: &str,
) -> Result<(), Fail> {
    if let Some(place) = line.strip_prefix("UP TO ") {
        return goes_to(rt, alloc, book, place);
    }
    match line.split_once(" => ") {
        Some((text, expected)) => plays_answer(rt, alloc, book, text, expected),
        None => Err(Fail::from("no such line")),
    }
}

/// Plays a script. A line has a batch, ` => `, and the expected reply. `BOOK` in place of a batch means the book's trust domain
/// and place. `UP TO` and a place commits batches that change nothing until that place.
pub fn plays_on(
    rt: &impl Abort,
    alloc: Global,
    book: &mut PlainBook,
    script: &str,
) -> Result<(), Fail> {
    for line in script.lines() {
        plays_line(rt, alloc, book, line)?;
    }
    Ok(())
}

fn plays_all_on(
    rt: &impl Abort,
    alloc: Global,
    book: &mut PlainBook,
    scripts: &[&str],
) -> Result<(), Fail> {
    for script in scripts {
        plays_on(rt, alloc, book, script)?;
    }
    Ok(())
}

/// Plays scripts, one after another, beginning with the empty book.
pub fn plays_all(rt: &impl Abort, alloc: Global, scripts: &[&str]) -> Result<(), Fail> {
    let mut book = first_book(alloc)?;
    let played = plays_all_on(rt, alloc, &mut book, scripts);
    drop(book);
    played
}

/// Plays a script, beginning with the empty book.
pub fn plays(rt: &impl Abort, alloc: Global, script: &str) -> Result<(), Fail> {
    plays_all(rt, alloc, &[script])
}
