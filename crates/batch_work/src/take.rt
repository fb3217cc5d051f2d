//! What follows from a read that a work has made?

ghost use Rattle.std.specs.Prelude.{◌≡◌, ◌<◌, ◌+◌, ◌++◌, ◌∷◌, [], IfOk, IfErr, OnOk, OnErr};
ghost use Rattle.entry_book.specs.Batches.{is_query};
ghost use Rattle.entry_book.specs.History.{reply_with, token_writes, verdict_again};
ghost use Rattle.entry_book.specs.SameOps.{ops_eq};
ghost use Rattle.batch_work.specs.WorkInvariants.{IsStartOf, Looked, StageInvariant, FoundInvariant, base_of};

use crate::phase::{Next, Phase};
use crate::stage::{Begun, Found, Progress, Stage};
use crate::versions::version_gone;
use entry_book::{
    Batch, KeptBatch, OpRefusal, OpReply, Refusal, Reply, ReplyOutcome, Sequence, Shared,
};
use std::alloc::{AllocError, Global};
use version_book::{Changes, Mark};

/// Returns the stage of a work that is settled, with this outcome at this place.
pub(crate) fn settle(place: u64, outcome: ReplyOutcome) -> Stage
    ensures { result ≡ Stage.Settled (record { place = place; outcome = outcome }) }
{
    Stage::Settled(Reply { place, outcome })
}

/// Returns the stage of a work whose operation with this index, counted from 0, is refused.
fn refuse(begun: &Begun, index: usize, reason: OpRefusal) -> Stage
    ensures { result ≡ Stage.Settled (record {
      place = begun.now.newest.number;
      outcome = ReplyOutcome.Refused (Refusal.OfOp index reason);
    }) }
{
    let refusal = Refusal::OfOp(index, reason);
    settle(begun.newest.number(), ReplyOutcome::Refused(refusal))
}

/// Returns the stage of a work whose token is in use: its batch repeats the stored one, or reuses the token for other
/// operations.
fn repeat_or_refuse(begun: &Begun, batch: &Batch, kept: KeptBatch) -> Stage
    ensures { result ≡ Stage.Settled
        (reply_with begun.now.newest.number (verdict_again (ops_eq kept.ops batch.now.ops) kept)) }
{
    if kept.has_ops(batch.ops()) {
        settle(kept.place, ReplyOutcome::Repeated(kept.replies))
    } else {
        let place = begun.newest.number();
        settle(place, ReplyOutcome::Refused(Refusal::TokenReused))
    }
}

/// Returns the stage of a work whose page asks for a book that isn't there.
fn refuse_gone(begun: &Begun) -> Stage
    ensures { result ≡ Stage.Settled (record {
      place = begun.now.newest.number;
      outcome = ReplyOutcome.Refused (Refusal.OfOp 0 OpRefusal.VersionGone);
    }) }
{
    settle(begun.newest.number(), ReplyOutcome::Refused(version_gone()))
}

/// Appends a copy of these writes to the changes. The error is out of memory, and then nothing has changed.
fn append_copy(changes: &mut Changes, writes: &Changes) -> Result<(), AllocError>
    ensures changes { OnOk result (changes.new ≡ changes.old ++ writes.now) }
    ensures err { OnErr result (changes.new ≡ changes.old) }
{
    let writes = writes.clone()?;
    changes.append(writes)
}

/// Records the reply and the writes of an operation that isn't the last one. The error is out of memory, and then nothing has
/// changed.
fn end_op(progress: &mut Progress, reply: &OpReply, writes: &Changes) -> Result<(), AllocError>
    ensures changes { OnOk result (progress.new.changes ≡ progress.old.changes ++ writes.now) }
    ensures replies { OnOk result (progress.new.replies.items ≡ progress.old.replies.items ++ reply.now ∷ []) }
    ensures err { OnErr result ((progress.new.changes ≡ progress.old.changes) × (progress.new.replies.items ≡ progress.old.replies.items)) }
    ensures marks { progress.new.marks ≡ progress.old.marks }
{
    progress.replies.reserve(1)?;
    let reply = reply.clone()?;
    let Ok(()) = append_copy(&mut progress.changes, writes) else {
        drop(reply);
        return Err(AllocError);
    };
    let Ok(()) = progress.replies.push(reply) else {
        unreachable!()
    };
    Ok(())
}

/// Returns the replies to all operations: the earlier ones and the last one. The error is out of memory.
fn all_replies(
    alloc: Global,
    earlier: &Vec<OpReply>,
    last: &OpReply,
) -> Result<Shared<Sequence<OpReply>>, AllocError>
    ensures { IfOk result (λ all. all ≡ earlier.now.items ++ last.now ∷ []) }
{
    let mut all = earlier.clone()?;
    all.push(last.clone()?)?;
    Shared::of(alloc, Sequence::of(all))
}

/// Records the writes of the last operation, and that of the batch's token, if it has one. The error is out of memory, and then
/// nothing has changed.
fn end_changes(
    changes: &mut Changes,
    batch: &Batch,
    writes: &Changes,
    all: &Shared<Sequence<OpReply>>,
) -> Result<(), AllocError>
    ensures changes { OnOk result (changes.new ≡ changes.old ++ (writes.now ++ token_writes batch.now.token batch.now.ops 0 all.now)) }
    ensures err { OnErr result (changes.new ≡ changes.old) }
{
    let mut writes = writes.clone()?;
    if let Some(token) = batch.token() {
        writes.put_token(token, batch.shared_ops().clone()?, all.clone()?)?;
    }
    changes.append(writes)
}

/// Returns the stage after the last operation of a read-only batch. The error is out of memory.
fn end_query(
    alloc: Global,
    begun: &Begun,
    progress: &Progress,
    reply: &OpReply,
) -> Result<Stage, AllocError>
    ensures { IfOk result (λ stage. stage ≡ Stage.Settled (record {
      place = begun.now.newest.number;
      outcome = ReplyOutcome.Answered (progress.now.replies.items ++ reply.now ∷ []);
    })) }
{
    let all = all_replies(alloc, &progress.replies, reply)?;
    Ok(settle(begun.newest.number(), ReplyOutcome::Answered(all)))
}

/// Records the writes of the last operation of a batch of changes, and returns the stage after it. The error is out of memory,
/// and then nothing has changed.
fn end_changes_batch(
    alloc: Global,
    batch: &Batch,
    progress: &mut Progress,
    reply: &OpReply,
    writes: &Changes,
) -> Result<Stage, AllocError>
    ensures ready { IfOk result (λ stage. stage ≡ Stage.Ready (progress.old.replies.items ++ reply.now ∷ [])) }
    ensures changes { OnOk result (progress.new.changes ≡ progress.old.changes ++ (writes.now ++ token_writes batch.now.token batch.now.ops 0 (progress.old.replies.items ++ reply.now ∷ []))) }
    ensures err { OnErr result (progress.new.changes ≡ progress.old.changes) }
    ensures replies { progress.new.replies ≡ progress.old.replies }
    ensures marks { progress.new.marks ≡ progress.old.marks }
{
    let all = all_replies(alloc, &progress.replies, reply)?;
    end_changes(&mut progress.changes, batch, writes, &all)?;
    Ok(Stage::Ready(all))
}

/// Records an operation, counted from 0, that has ended, and returns the stage after it. The error is out of memory, and then
/// nothing has changed.
fn record_op(
    alloc: Global,
    begun: &Begun,
    batch: &Batch,
    progress: &mut Progress,
    mark: &Mark,
    index: usize,
    reply: &OpReply,
    writes: &Changes,
) -> Result<Stage, AllocError>
    requires began { IsStartOf batch.now begun.now }
    requires looked { Looked batch.now (base_of begun.now) progress.old.marks.items progress.old.changes progress.old.replies.items index mark.now (Next.Ends reply.now writes.now) }
    ensures holds_at_stage { IfOk result (λ stage. StageInvariant stage batch.now (base_of begun.now) (progress.old.marks.items ++ mark.now ∷ []) progress.new.changes progress.new.replies.items) }
    ensures err { OnErr result ((progress.new.changes ≡ progress.old.changes) × (progress.new.replies.items ≡ progress.old.replies.items)) }
    ensures marks { progress.new.marks ≡ progress.old.marks }
{
    if index + 1 < batch.ops().len() {
        end_op(progress, reply, writes)?;
        return Ok(Stage::At(index + 1, Phase::First));
    }
    if batch.is_query() {
        let stage = end_query(alloc, begun, progress, reply)?;
        Ok(stage)
    } else {
        let stage = end_changes_batch(alloc, batch, progress, reply, writes)?;
        Ok(stage)
    }
}

/// Records what a read of this mark has found, and returns the work's stage after it. If memory runs out, the error is what was
/// found, and nothing has changed.
pub(crate) fn take_down(
    alloc: Global,
    begun: &Begun,
    batch: &Batch,
    progress: &mut Progress,
    mark: &Mark,
    found: Found,
) -> Result<Stage, Found>
    requires began { IsStartOf batch.now begun.now }
    requires holds_at_stage { FoundInvariant mark.now found batch.now (base_of begun.now) progress.old.marks.items progress.old.changes progress.old.replies.items }
    ensures holds_at_stage { IfOk result (λ stage. StageInvariant stage batch.now (base_of begun.now) (progress.old.marks.items ++ mark.now ∷ []) progress.new.changes progress.new.replies.items) }
    ensures back { IfErr result (λ back. back ≡ found) }
    ensures err { OnErr result ((progress.new.changes ≡ progress.old.changes) × (progress.new.replies.items ≡ progress.old.replies.items)) }
    ensures marks { progress.new.marks ≡ progress.old.marks }
{
    match found {
        Found::Op(index, Next::Continues(phase)) => Ok(Stage::At(index, phase)),
        Found::Op(index, Next::Refused(reason)) => Ok(refuse(begun, index, reason)),
        Found::Op(index, Next::Ends(reply, writes)) => {
            match record_op(alloc, begun, batch, progress, mark, index, &reply, &writes) {
                Ok(stage) => {
                    drop(reply);
                    drop(writes);
                    Ok(stage)
                }
                Err(_) => Err(Found::Op(index, Next::Ends(reply, writes))),
            }
        }
        Found::Kept(Some(kept)) => Ok(repeat_or_refuse(begun, batch, kept)),
        Found::Kept(None) => Ok(Stage::At(0, Phase::First)),
        Found::Gone => Ok(refuse_gone(begun)),
    }
}
