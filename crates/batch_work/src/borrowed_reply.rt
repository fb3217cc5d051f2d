//! What is the reply to a read-only batch, with rows that are borrowed from a version?

ghost use Rattle.std.specs.Prelude.{◌≡◌, IfOk};
ghost use Rattle.std.specs.Option.{option_copied};

use entry_book::{Agent, Bundle, Entry, OpReply, Refusal, Reply, ReplyOutcome, Sequence, Shared};
use std::alloc::{AllocError, Global};
use std::marker::Model;
use uuid::Uuid;
use version_book::{Borrowed, owned};

/// The rows that an operation returns.
#[derive(Drop)]
pub enum BorrowedRows<'a> {
    /// The requested entry, if there is one.
    Entry(Option<Borrowed<'a, Entry>>),
    /// The requested entries, in the order of their ids.
    Entries(Sequence<Borrowed<'a, Entry>>),
    /// The entries of a page, in the order of their ids, and the id after which the next page begins, if there is one.
    Page(Sequence<Borrowed<'a, Entry>>, Option<Uuid>),
    /// The requested agent, if there is one.
    Agent(Option<Borrowed<'a, Agent>>),
    /// The requested bundle, if there is one.
    Bundle(Option<Borrowed<'a, Bundle>>),
    /// The requested bundles, in the order of their domains.
    Bundles(Sequence<Borrowed<'a, Bundle>>),
}

/// The reply to a read-only operation. The model in contracts is the reply.
#[derive(Drop)]
pub struct BorrowedOpReply<'a> {
    rows: BorrowedRows<'a>,
}

impl<'a> Model for BorrowedOpReply<'a> {
    ghost use Rattle.entry_book.specs.declared.reply.OpReply.{OpReply};
    ghost use Rattle.batch_work.specs.BorrowedReplies.{op_reply_of};

    ghost Value = { OpReply };

    ghost view = { λ reply. op_reply_of reply.rows };
}

impl<'a> BorrowedOpReply<'a> {
    ghost use Rattle.std.specs.Prelude.{◌≡◌, IfOk};
    ghost use Rattle.batch_work.specs.BorrowedReplies.{op_reply_of};

    /// Makes the reply with these rows.
    pub(crate) fn of(rows: BorrowedRows<'a>) -> BorrowedOpReply<'a>
        ensures { result ≡ op_reply_of rows.entry }
    {
        BorrowedOpReply { rows }
    }

    /// Returns the rows.
    pub fn rows(&self) -> &BorrowedRows<'a>
        ensures { op_reply_of result.now ≡ self.now }
    {
        &self.rows
    }

    /// Returns the same reply with copies of the rows. The error is out of memory.
    fn to_owned(&self, alloc: Global) -> Result<OpReply, AllocError>
        ensures { IfOk result (λ reply. reply ≡ self.now) }
    {
        Ok(match &self.rows {
            BorrowedRows::Entry(entry) => OpReply::EntryShown(row_to_owned(entry)?),
            BorrowedRows::Entries(entries) => {
                OpReply::Entries(Sequence::of(owned(alloc, entries.as_slice())?))
            }
            BorrowedRows::Page(entries, next) => {
                OpReply::Page(Sequence::of(owned(alloc, entries.as_slice())?), *next)
            }
            BorrowedRows::Agent(agent) => OpReply::AgentShown(row_to_owned(agent)?),
            BorrowedRows::Bundle(bundle) => OpReply::BundleShown(row_to_owned(bundle)?),
            BorrowedRows::Bundles(bundles) => {
                OpReply::Bundles(Sequence::of(owned(alloc, bundles.as_slice())?))
            }
        })
    }
}

/// The replies to the operations of a read-only batch, or why it is refused.
pub type BorrowedOutcome<'a> = Result<Sequence<BorrowedOpReply<'a>>, Refusal>;

/// The reply to a read-only batch, with rows that are borrowed from the version that was read. The model in contracts is the
/// reply.
#[derive(Drop)]
pub struct BorrowedReply<'a> {
    place: u64,
    outcome: BorrowedOutcome<'a>,
}

impl<'a> Model for BorrowedReply<'a> {
    ghost use Rattle.entry_book.specs.declared.reply.Reply.{Reply};
    ghost use Rattle.batch_work.specs.BorrowedReplies.{outcome_of};

    ghost Value = { Reply };

    ghost view = { λ reply. record { place = reply.place; outcome = outcome_of reply.outcome } };
}

impl<'a> BorrowedReply<'a> {
    ghost use Rattle.std.specs.Prelude.{◌≡◌, IfOk};
    ghost use Rattle.batch_work.specs.BorrowedReplies.{outcome_of};

    /// Makes the reply at this place, with this outcome.
    pub(crate) fn of(place: u64, outcome: BorrowedOutcome<'a>) -> BorrowedReply<'a>
        ensures { result ≡ record { place = place; outcome = outcome_of outcome.entry } }
    {
        BorrowedReply { place, outcome }
    }

    /// Returns the place of the reply: the number of the last book.
    pub fn place(&self) -> u64
        ensures { result ≡ self.now.place }
    {
        self.place
    }

    /// Returns the replies to the operations, or why the batch is refused.
    pub fn outcome(&self) -> &BorrowedOutcome<'a>
        ensures { outcome_of result.now ≡ self.now.outcome }
    {
        &self.outcome
    }

    /// Returns the same reply with copies of the rows, so that it can outlive the version. The error is out of memory.
    pub fn to_owned(&self, alloc: Global) -> Result<Reply, AllocError>
        ensures { IfOk result (λ reply. reply ≡ self.now) }
    {
        let outcome = match &self.outcome {
            Ok(replies) => ReplyOutcome::Answered(Shared::of(
                alloc,
                replies_to_owned(alloc, replies.as_slice())?,
            )?),
            Err(refusal) => ReplyOutcome::Refused(refusal.clone()?),
        };
        let place = self.place;
        Ok(Reply { place, outcome })
    }
}

/// Returns the row, borrowed, if there is one.
pub(crate) fn borrowed<'a, T>(row: Option<&'a T>) -> Option<Borrowed<'a, T>>
    ensures { result ≡ option_copied row.entry }
{
    match row {
        Some(row) => Some(Borrowed::of(row)),
        None => None,
    }
}

/// Returns a copy of the row, if there is one. The error is a reference count at its maximum.
fn row_to_owned<T: Clone>(row: &Option<Borrowed<'_, T>>) -> Result<Option<T>, AllocError>
    requires clones { (one copy : T) → T.is_clone one copy → copy ≡ one }
    ensures { IfOk result (λ copy. copy ≡ row.now) }
{
    match row {
        Some(row) => Ok(Some(row.get().clone()?)),
        None => Ok(None),
    }
}

/// Returns the same replies with copies of the rows. The error is out of memory.
fn replies_to_owned(
    alloc: Global,
    replies: &[BorrowedOpReply<'_>],
) -> Result<Sequence<OpReply>, AllocError>
    ensures { IfOk result (λ owned. owned ≡ replies.now) }
{
    let mut owned = Sequence::empty(alloc);
    for reply in replies {
        owned.push(reply.to_owned(alloc)?)?;
    }
    Ok(owned)
}
