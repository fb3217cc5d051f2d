//! What does the next read of a work find?

ghost use Rattle.std.specs.Prelude.{◌≡◌, IfOk, IfErr, Some, length, slice_get};
ghost use Rattle.entry_book.specs.Book.{token_at};
ghost use Rattle.entry_book.specs.History.{kept_under};
ghost use Rattle.entry_book.specs.Order.{first};
ghost use Rattle.batch_work.specs.WorkInvariants.{AtToken, IsStartOf, Going, IsRunning, Looked, StageInvariant, FoundInvariant, base_of};
ghost use Rattle.batch_work.specs.Windows.{book_in};
ghost use Rattle.batch_work.specs.Working.{footprint_there};

use crate::advance::{advance, mark_of};
use crate::phase::{Next, Phase};
use crate::stage::{Begun, Found, Progress, Stage};
use crate::versions::Versions;
use entry_book::{Batch, KeptBatch};
use std::alloc::{AllocError, Global};
use uuid::Uuid;
use version_book::{Mark, Version};

/// Returns a clone of the first of these, if there is one. The error is out of memory.
fn first_kept(tokens: &[KeptBatch]) -> Result<Option<KeptBatch>, AllocError>
    ensures { IfOk result (λ kept. kept ≡ first tokens.now) }
{
    match tokens {
        [kept, ..] => Ok(Some(kept.clone()?)),
        [] => Ok(None),
    }
}

/// Returns the batch that a version stores under a token, if there is one. The error is out of memory.
fn kept_under(version: &Version, token: Uuid) -> Result<Option<KeptBatch>, AllocError>
    ensures { IfOk result (λ kept. kept ≡ token_at token (book_in version.now)) }
{
    let mark = Mark::token(token);
    let reading = version.read(&mark);
    drop(mark);
    let reading = reading?;
    let kept = first_kept(reading.tokens());
    drop(reading);
    kept
}

/// Makes the next read of an operation, counted from 0, at its phase. Returns the mark, and what comes next. If memory runs
/// out, the error is the phase, unchanged.
fn look_op(
    alloc: Global,
    begun: &Begun,
    batch: &Batch,
    progress: &Progress,
    index: usize,
    phase: Phase,
) -> Result<(Mark, Next), Phase>
    requires began { IsStartOf batch.now begun.now }
    requires going { Going batch.now (base_of begun.now) progress.now.marks.items progress.now.changes progress.now.replies.items index phase }
    ensures looked { IfOk result (λ found. Looked batch.now (base_of begun.now) progress.now.marks.items progress.now.changes progress.now.replies.items index found.0 found.1) }
    ensures back { IfErr result (λ back. back ≡ phase) }
{
    let Some(version) = Versions::begun(begun).read(batch) else {
        unreachable!()
    };
    let op = &batch.ops()[index];
    let Ok(mark) = mark_of(&begun.server, op, &phase) else {
        return Err(phase);
    };
    let Ok(reading) = version.read_after(&mark, &progress.changes) else {
        drop(mark);
        return Err(phase);
    };
    match advance(alloc, &begun.server, op, phase, reading) {
        Ok(next) => Ok((mark, next)),
        Err(phase) => {
            drop(mark);
            Err(phase)
        }
    }
}

/// Reads the batch that is stored under the batch's token, if there is one. The error is out of memory.
fn look_token(begun: &Begun, batch: &Batch, token: Uuid) -> Result<Option<KeptBatch>, AllocError>
    requires at { AtToken batch.now (base_of begun.now) token }
    ensures { IfOk result (λ kept. (at_token : AtToken batch.now (base_of begun.now) token) → kept ≡ kept_under batch.now.token (book_in at_token.s)) }
{
    let Some(version) = Versions::begun(begun).read(batch) else {
        unreachable!()
    };
    kept_under(version, token)
}

/// Returns the mark of the next read of a running work. The error is out of memory.
pub(crate) fn next_mark(
    begun: &Begun,
    batch: &Batch,
    progress: &Progress,
    stage: &Stage,
) -> Result<Mark, AllocError>
    requires began { IsStartOf batch.now begun.now }
    requires holds_at_stage { StageInvariant stage.now batch.now (base_of begun.now) progress.now.marks.items progress.now.changes progress.now.replies.items }
    requires running { IsRunning stage.now }
    ensures { IfOk result (λ mark. slice_get (footprint_there batch.now (base_of begun.now)) (length progress.now.marks.items) ≡ Some mark) }
{
    // the progress occurs in the contract alone
    let _ = progress;
    match stage {
        Stage::Token(token) => Ok(Mark::token(*token)),
        Stage::Gone => Ok(Mark::all()),
        Stage::At(index, phase) => mark_of(&begun.server, &batch.ops()[*index], phase),
        Stage::Read(mark, _) => mark.clone(),
        Stage::New | Stage::Ready(_) | Stage::Settled(_) => unreachable!(),
    }
}

/// Makes the next read of a running work. Returns its mark, and what it found. A read that was made and isn't recorded yet
/// isn't made again. If memory runs out, the error is the stage, unchanged.
pub(crate) fn look(
    alloc: Global,
    begun: &Begun,
    batch: &Batch,
    progress: &Progress,
    stage: Stage,
) -> Result<(Mark, Found), Stage>
    requires began { IsStartOf batch.now begun.now }
    requires holds_at_stage { StageInvariant stage batch.now (base_of begun.now) progress.now.marks.items progress.now.changes progress.now.replies.items }
    requires running { IsRunning stage }
    ensures holds_at_stage { IfOk result (λ read. FoundInvariant read.0 read.1 batch.now (base_of begun.now) progress.now.marks.items progress.now.changes progress.now.replies.items) }
    ensures back { IfErr result (λ back. back ≡ stage) }
{
    match stage {
        Stage::Token(token) => match look_token(begun, batch, token) {
            Ok(kept) => Ok((Mark::token(token), Found::Kept(kept))),
            Err(_) => Err(Stage::Token(token)),
        },
        Stage::Gone => Ok((Mark::all(), Found::Gone)),
        Stage::At(index, phase) => {
            match look_op(alloc, begun, batch, progress, index, phase) {
                Ok((mark, next)) => Ok((mark, Found::Op(index, next))),
                Err(phase) => Err(Stage::At(index, phase)),
            }
        }
        Stage::Read(mark, found) => Ok((mark, found)),
        Stage::New | Stage::Ready(_) | Stage::Settled(_) => unreachable!(),
    }
}
