//! Evaluates read-only batches in one pass.
//!
//! Nothing commits on what such a batch reads. So it records no read set, makes no steps, and its rows are borrowed.

ghost use Rattle.std.specs.Prelude.{◌≡◌, IfOk, IfSome, true, ℕ};
ghost use Rattle.entry_book.specs.Batches.{Batch as BatchRow, is_query, is_question};
ghost use Rattle.entry_book.specs.History.{reply_with, verdict_run};
ghost use Rattle.entry_book.specs.Ops.{op_of};
ghost use Rattle.entry_book.specs.Pages.{listed, next_of};
ghost use Rattle.entry_book.specs.Runs.{run};
ghost use Rattle.batch_work.specs.BorrowedReplies.{outcome_of};
ghost use Rattle.batch_work.specs.Questions.{all_answered, answered};
ghost use Rattle.batch_work.specs.Windows.{book_in};
ghost use Rattle.batch_work.specs.Working.{MayBegin, base_in, reply_there};

mod authorised;
mod walk;

use crate::borrowed_reply::{
    BorrowedOpReply, BorrowedOutcome, BorrowedReply, BorrowedRows, borrowed,
};
use crate::read_only::authorised::{authorised_reply, trust_reply};
use crate::versioned::Versioned;
use crate::versions::Versions;
use entry_book::{Batch, Op, OpRefusal, PageQuery, Refusal, Sequence};
use std::alloc::{AllocError, Global};
use version_book::Version;

/// Returns a page of a version's entries. The error is out of memory.
fn page<'a>(version: &'a Version, query: &PageQuery) -> Result<BorrowedRows<'a>, AllocError>
    ensures { IfOk result (λ rows. rows ≡ BorrowedRows.Page (listed query.now (book_in version.now)) (next_of query.now (book_in version.now))) }
{
    let (entries, next) = version.page(query)?;
    Ok(BorrowedRows::Page(Sequence::of(entries), next))
}

/// Returns the reply to a read-only operation on a version, or why it is refused. The error is out of memory.
fn answer_op<'a>(
    alloc: Global,
    version: &'a Version,
    op: &Op,
) -> Result<Result<BorrowedOpReply<'a>, OpRefusal>, AllocError>
    requires question { is_question op.now ≡ true }
    ensures { IfOk result (λ answer. op_of version.now.domain op.now (book_in version.now) ≡ answered answer) }
{
    let rows = match op {
        Op::Show(id) => BorrowedRows::Entry(borrowed(version.entry(id))),
        Op::ShowAgent(agent) => BorrowedRows::Agent(borrowed(version.agent(agent))),
        Op::ShowBundle(domain) => BorrowedRows::Bundle(borrowed(version.bundle(domain))),
        Op::Children(parent) => BorrowedRows::Entries(Sequence::of(version.children(parent)?)),
        Op::Page(query) => page(version, query.get())?,
        Op::Authorised(agent) => return authorised_reply(alloc, version, agent),
        Op::Trust(agent) => return trust_reply(alloc, version, agent),
        Op::Create(_)
        | Op::Update(_, _)
        | Op::Delete(_, _)
        | Op::Prune(_)
        | Op::SetAgent(_)
        | Op::DropAgent(_)
        | Op::SetBundle(_, _)
        | Op::DropBundle(_, _) => unreachable!(),
    };
    Ok(Ok(BorrowedOpReply::of(rows)))
}

/// Returns the replies to read-only operations on a version, in order, or the index of the first that is refused, counted from
/// 0, and why. The error is out of memory.
fn answer_ops<'a>(
    alloc: Global,
    version: &'a Version,
    ops: &[Op],
) -> Result<Result<Sequence<BorrowedOpReply<'a>>, (usize, OpRefusal)>, AllocError>
    requires questions { is_query ops.now ≡ true }
    ensures { IfOk result (λ answers. run version.now.domain ops.now (book_in version.now) ≡ all_answered answers) }
{
    let mut replies = Sequence::empty(alloc);
    for (index, op) in ops.iter().enumerate() {
        match answer_op(alloc, version, op)? {
            Ok(reply) => replies.push(reply)?,
            Err(reason) => return Ok(Err((index, reason))),
        }
    }
    Ok(Ok(replies))
}

/// Returns the outcome of a read-only batch on the version that it reads. The error is out of memory.
fn outcome_on<'a>(
    alloc: Global,
    version: &'a Version,
    ops: &[Op],
) -> Result<BorrowedOutcome<'a>, AllocError>
    requires questions { is_query ops.now ≡ true }
    ensures { IfOk result (λ outcome. (batch : BatchRow) (place : ℕ) → batch.ops ≡ ops.now → batch.domain ≡ version.now.domain
        → reply_with place (verdict_run batch place (book_in version.now)) ≡ record { place = place; outcome = outcome_of outcome }) }
{
    match answer_ops(alloc, version, ops)? {
        Ok(replies) => Ok(Ok(replies)),
        Err((index, reason)) => Ok(Err(Refusal::OfOp(index, reason))),
    }
}

/// Returns the outcome of a read-only batch on the versions that it may read. The error is out of memory.
fn outcome_in<'a>(
    alloc: Global,
    batch: &Batch,
    versions: &Versions<'a>,
) -> Result<BorrowedOutcome<'a>, AllocError>
    requires query { is_query batch.now.ops ≡ true }
    requires domain { batch.now.domain ≡ versions.now.newest.domain }
    requires earlier { IfSome versions.now.earlier (λ earlier. earlier.domain ≡ versions.now.newest.domain) }
    ensures { IfOk result (λ outcome. reply_there batch.now versions.now
        ≡ record { place = versions.now.newest.number; outcome = outcome_of outcome }) }
{
    let ops = batch.ops();
    match versions.version_for(batch) {
        Ok(version) => outcome_on(alloc, version, ops),
        Err(refusal) => Ok(Err(refusal)),
    }
}

/// Returns the reply to a read-only batch on the versions that it may read. The error is out of memory.
fn answer_in<'a>(
    alloc: Global,
    batch: &Batch,
    versions: &Versions<'a>,
) -> Result<BorrowedReply<'a>, AllocError>
    requires query { is_query batch.now.ops ≡ true }
    requires domain { batch.now.domain ≡ versions.now.newest.domain }
    requires earlier { IfSome versions.now.earlier (λ earlier. earlier.domain ≡ versions.now.newest.domain) }
    ensures { IfOk result (λ reply. reply ≡ reply_there batch.now versions.now) }
{
    let outcome = outcome_in(alloc, batch, versions)?;
    let place = versions.newest().number();
    Ok(BorrowedReply::of(place, outcome))
}

/// Returns the reply to a read-only batch: that of a work which begins on the window, once it is settled. Its rows are borrowed
/// from the window. The error is out of memory.
pub fn answer<'a, W: Versioned>(
    alloc: Global,
    batch: &Batch,
    window: &'a W,
) -> Result<BorrowedReply<'a>, AllocError>
    requires query { is_query batch.now.ops ≡ true }
    requires fits { MayBegin batch.now (W.window window.now) }
    ensures { IfOk result (λ reply. reply ≡ reply_there batch.now (base_in batch.now (W.window window.now))) }
{
    answer_in(alloc, batch, &Versions::of(batch, window))
}
