//! What is the outcome of a ready work on the newest version?

ghost use Rattle.std.specs.Prelude.{◌≡◌, ◌≤◌, ◌^◌, IfErr, IfOk};
ghost use Rattle.entry_book.specs.Limits.{limit_passed, IsWithinLimits};
ghost use Rattle.version_book.specs.CommittedRows.{book_of};
ghost use Rattle.batch_work.specs.Working.{status_of};
ghost use Rattle.commit_head.specs.CommitRefusals.{outcome_at};
ghost use Rattle.commit_head.specs.Heads.{BeganBefore, IsPreparedFor, IsItemOf, IsRefusal, ReadsAreUnchanged};

use crate::check::is_conflict;
use crate::commit::CommitRefusal;
use crate::item::Item;
use crate::prepared::Prepared;
use batch_work::{Status, Work};
use entry_book::{Batch, Limit, OpReply, Sequence, Shared, limit_passed};
use std::alloc::AllocError;
use version_book::{Changes, Version};

/// Returns the first limit that the book of a version passes, if any. `place` is that of the book before it.
fn limit_of(place: u64, version: &Version) -> Option<Limit>
    ensures { result ≡ limit_passed place (book_of version.now.rows) }
{
    let count = version.count();
    limit_passed(
        place,
        count.entries,
        count.agents,
        count.bundles,
        count.tokens,
    )
}

/// Makes the journal's item of a commit, which copies no text. The error is out of memory.
fn item_of(
    seat: u32,
    call: u64,
    batch: &Batch,
    replies: &Shared<Sequence<OpReply>>,
    changes: &Changes,
) -> Result<Item, AllocError>
    ensures { IfOk result (λ item. item ≡ record {
      seat = seat;
      call = call;
      batch = batch.now;
      replies = replies.now;
      changes = changes.now;
    }) }
{
    Ok(Item {
        seat,
        call,
        batch: batch.clone()?,
        replies: replies.clone()?,
        changes: changes.clone()?,
    })
}

/// Makes the prepared commit of a ready work on the newest version, or returns why it can't be committed. `kept` are the
/// retained items of the journal.
pub(crate) fn prepare_commit(
    seat: u32,
    call: u64,
    newest: &Version,
    kept: &[Item],
    work: &Work,
) -> Result<Prepared, CommitRefusal>
    requires ready { status_of work.now ≡ Status.Ready }
    requires domain { work.now.batch.domain ≡ newest.now.domain }
    requires began { BeganBefore work.now.base newest.now kept.now }
    requires within { IsWithinLimits (book_of newest.now.rows) }
    requires low { newest.now.number ≤ 2 ^ 48 }
    ensures validated { IfOk result (λ prepared. ReadsAreUnchanged work.now.base work.now.batch (book_of newest.now.rows)) }
    ensures goes { IfOk result (IsPreparedFor newest.now) }
    ensures of_work { IfOk result (λ prepared. IsItemOf seat call work.now prepared.item) }
    ensures refused { IfErr result (λ refusal. IsRefusal newest.now kept.now work.now (outcome_at newest.now.number refusal)) }
{
    // its contract says that the batch was made for its trust domain
    let _ = work.batch().ops();
    let place = newest.number();
    let Some(base) = work.base() else {
        unreachable!()
    };
    // its contract says that the version's book is lawful
    let _ = base.number();
    if is_conflict(kept, newest, base, work.marks()) {
        return Err(CommitRefusal::Conflict);
    }
    let changes = work.changes();
    let version = newest.apply(changes, place + 1)?;
    if let Some(limit) = limit_of(place, &version) {
        return Err(CommitRefusal::Full(limit));
    }
    let Some(replies) = work.replies() else {
        unreachable!()
    };
    let item = item_of(seat, call, work.batch(), replies, changes)?;
    Ok(Prepared { item, version })
}
