//! What is the outcome of a batch on the book that it reads?

ghost use Rattle.std.specs.Prelude.{◌≡◌, ◌+◌, ◌^◌, ◌≤◌, IfOk, Some};
ghost use Rattle.std.specs.Option.{option_copied};
ghost use Rattle.entry_book.specs.Batches.{is_query};
ghost use Rattle.entry_book.specs.History.{adds_within, kept_under, token_writes, verdict_again, verdict_on, verdict_over, verdict_run};
ghost use Rattle.entry_book.specs.Lawful.{Lawful};
ghost use Rattle.entry_book.specs.Limits.{limit_passed};
ghost use Rattle.entry_book.specs.SameOps.{ops_eq};
ghost use Rattle.entry_book.specs.Writes.{after};
ghost use Rattle.plain_book.specs.Performed.{verdict_model, verdict_accepted};

use crate::book::Book;
use crate::run::{BatchRun, run_ops};
use entry_book::{Batch, KeptBatch, OpReply, Refusal, Sequence, Shared, pair_with};
use std::alloc::{AllocError, Global};
use uuid::Uuid;

/// The outcome of a batch, with the replies to its operations, in order.
#[derive(Drop)]
pub(crate) enum Verdict {
    /// It is refused.
    Refuses(Refusal),
    /// It is a query, and has these replies.
    Answers(Shared<Sequence<OpReply>>),
    /// It is committed, and adds this book.
    Adds(Shared<Sequence<OpReply>>, Book),
    /// It was committed before, at this place.
    Repeats(u64, Shared<Sequence<OpReply>>),
}

/// Returns the outcome of a batch at this place, on the book that it reads. The error, here and below, is out of memory.
pub(crate) fn verdict_on(
    alloc: Global,
    batch: &Batch,
    place: u64,
    book: &Book,
) -> Result<Verdict, AllocError>
    requires room { place ≤ 2 ^ 48 }
    requires lawful { Lawful batch.now.domain (2 ^ 62) book.now }
    ensures { IfOk result (λ verdict. verdict_model verdict ≡ verdict_on batch.now place (Some book.now)) }
{
    match kept_under(batch.token(), book) {
        Some(kept) => verdict_again(batch, kept),
        None => verdict_run(alloc, batch, place, book),
    }
}

/// Returns the batch stored under the token; `None` if there is no token, or no batch under it.
fn kept_under(token: Option<Uuid>, book: &Book) -> Option<&KeptBatch>
    ensures { option_copied result ≡ kept_under token book.now }
{
    match token {
        Some(token) => book.kept(&token),
        None => None,
    }
}

/// Returns the outcome of a batch whose token is that of this committed one: repeated if the operations are equal, otherwise
/// refused.
fn verdict_again(batch: &Batch, kept: &KeptBatch) -> Result<Verdict, AllocError>
    ensures { IfOk result
        (λ verdict. verdict_model verdict ≡ verdict_again (ops_eq kept.now.ops batch.now.ops) kept.now) }
{
    if kept.has_ops(batch.ops()) {
        Ok(Verdict::Repeats(kept.place, kept.replies.clone()?))
    } else {
        Ok(Verdict::Refuses(Refusal::TokenReused))
    }
}

/// Returns the outcome of a batch with no token, or a new one: runs its operations.
fn verdict_run(alloc: Global, batch: &Batch, place: u64, book: &Book) -> Result<Verdict, AllocError>
    requires room { place ≤ 2 ^ 48 }
    requires lawful { Lawful batch.now.domain (2 ^ 62) book.now }
    ensures { IfOk result (λ verdict. verdict_model verdict ≡ verdict_run batch.now place book.now) }
{
    match run_ops(alloc, batch, book)? {
        BatchRun::RefusedAt(index, reason) => { Ok(Verdict::Refuses(Refusal::OfOp(index, reason))) }
        BatchRun::Accepted(replies, after) => verdict_accepted(alloc, batch, place, replies, after),
    }
}

/// Returns the outcome of a batch whose operations are accepted, with these replies and this book after them.
fn verdict_accepted(
    alloc: Global,
    batch: &Batch,
    place: u64,
    replies: Sequence<OpReply>,
    book: Book,
) -> Result<Verdict, AllocError>
    requires room { place ≤ 2 ^ 48 }
    ensures { IfOk result
        (λ verdict. verdict_model verdict ≡ verdict_accepted (is_query batch.now.ops) batch.now place replies book) }
{
    let replies = Shared::of(alloc, replies)?;
    if batch.is_query() {
        return Ok(Verdict::Answers(replies));
    }
    let book = with_batch(alloc, batch, place + 1, &replies, book)?;
    Ok(adds_within(place, replies, book))
}

/// Returns the book with the batch stored under its token, with this place and these replies; the same book if it has no
/// token.
fn with_batch(
    alloc: Global,
    batch: &Batch,
    place: u64,
    replies: &Shared<Sequence<OpReply>>,
    book: Book,
) -> Result<Book, AllocError>
    ensures { IfOk result
        (λ kept. kept ≡ after (token_writes batch.now.token batch.now.ops place replies.now) book) }
{
    let Some(token) = batch.token() else {
        return Ok(book);
    };
    let (book, kept) = pair_with(book, kept_batch(alloc, batch, token, place, replies))?;
    let after = book.with_token(alloc, kept);
    drop(book);
    after
}

/// Makes the row to be stored under the token of a batch.
fn kept_batch(
    alloc: Global,
    batch: &Batch,
    token: Uuid,
    place: u64,
    replies: &Shared<Sequence<OpReply>>,
) -> Result<Shared<KeptBatch>, AllocError>
    ensures { IfOk result (λ kept. kept ≡ record {
      token = token;
      ops = batch.now.ops;
      place = place;
      replies = replies.now;
    }) }
{
    let (ops, replies) = pair_with(batch.shared_ops().clone()?, replies.clone())?;
    let kept = KeptBatch {
        token,
        ops,
        place,
        replies,
    };
    Shared::of(alloc, kept)
}

/// Returns the outcome of a batch with changes: refused if the book exceeds a limit, otherwise committed.
fn adds_within(place: u64, replies: Shared<Sequence<OpReply>>, book: Book) -> Verdict
    ensures { verdict_model result ≡ adds_within (limit_passed place book) replies book }
{
    match book.limit_passed(place) {
        Some(limit) => Verdict::Refuses(Refusal::Full(limit)),
        None => Verdict::Adds(replies, book),
    }
}
