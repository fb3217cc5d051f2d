//! What does a book reply, and what is the answer to a call?

ghost use Rattle.std.specs.Prelude.{◌≡◌};
ghost use Rattle.entry_book.specs.Codes.{op_code, refusal_code, refusal_op};

use crate::agent::Agent;
use crate::bundle::Bundle;
use crate::entry::Entry;
use crate::limit::Limit;
use crate::sequence::Sequence;
use crate::shared::Shared;
use spiffe_name::TrustDomain;
use std::alloc::AllocError;
use uuid::Uuid;

/// The reply to one operation. A clone shares the rows' texts; if it has several rows, it allocates a vector for them.
#[derive(Drop)]
pub enum OpReply {
    /// The entry that was added or changed, as the operation left it, or the one that was removed.
    Entry(Entry),
    /// The entry that was queried, if there is one.
    EntryShown(Option<Entry>),
    /// The entries that were queried, in the order of their ids.
    Entries(Sequence<Entry>),
    /// The entries of a page, in the order of their ids, and the id after which the next page begins, if there is one.
    Page(Sequence<Entry>, Option<Uuid>),
    /// The agent that was set or removed.
    Agent(Agent),
    /// The agent that was queried, if there is one.
    AgentShown(Option<Agent>),
    /// The bundle that was set.
    Bundle(Bundle),
    /// The bundle that was queried, if there is one.
    BundleShown(Option<Bundle>),
    /// The bundles that were queried, in the order of their domains.
    Bundles(Sequence<Bundle>),
    /// The ids of the entries that were pruned, in order.
    Pruned(Sequence<Uuid>),
    /// A bundle was dropped: the ids of the entries that were deleted with it, and of those that were dissociated, each
    /// in order.
    Dropped(Sequence<Uuid>, Sequence<Uuid>),
}

impl Clone for OpReply {
    ghost is_clone = { λ original copy. copy ≡ original };

    fn clone(&self) -> Result<OpReply, AllocError> {
        Ok(match self {
            OpReply::Entry(entry) => OpReply::Entry(entry.clone()?),
            OpReply::EntryShown(shown) => OpReply::EntryShown(shown.clone()?),
            OpReply::Entries(entries) => OpReply::Entries(entries.clone()?),
            OpReply::Page(entries, next) => OpReply::Page(entries.clone()?, *next),
            OpReply::Agent(agent) => OpReply::Agent(agent.clone()?),
            OpReply::AgentShown(shown) => OpReply::AgentShown(shown.clone()?),
            OpReply::Bundle(bundle) => OpReply::Bundle(bundle.clone()?),
            OpReply::BundleShown(shown) => OpReply::BundleShown(shown.clone()?),
            OpReply::Bundles(bundles) => OpReply::Bundles(bundles.clone()?),
            OpReply::Pruned(ids) => OpReply::Pruned(ids.clone()?),
            OpReply::Dropped(deleted, dissociated) => {
                OpReply::Dropped(deleted.clone()?, dissociated.clone()?)
            }
        })
    }
}

/// Why the book refuses an operation. A clone shares its texts.
#[derive(Drop)]
pub enum OpRefusal {
    /// The book has an entry with this id.
    IdTaken,
    /// Another entry, with this id, has the same parent, identity and selectors.
    Similar(Uuid),
    /// The book has no entry with this id.
    NoEntry,
    /// The entry has another revision than the expected one.
    StaleRevision,
    /// The book has no bundle of this domain, which is the first such one of the operation.
    NoBundle(Shared<TrustDomain>),
    /// An entry names the bundle's domain.
    BundleInUse,
    /// The book has no such agent.
    NoAgent,
    /// The book that a page reads is not one of the last 64.
    VersionGone,
}

impl OpRefusal {
    /// Returns the code that is printed for the refusal. The id of `Similar` and the domain of `NoBundle` are printed with it.
    pub fn code(&self) -> &'static str
        ensures { result.now ≡ op_code self.now }
    {
        match self {
            OpRefusal::IdTaken => "O1",
            OpRefusal::Similar(_) => "O2",
            OpRefusal::NoEntry => "O3",
            OpRefusal::StaleRevision => "O4",
            OpRefusal::NoBundle(_) => "O5",
            OpRefusal::BundleInUse => "O6",
            OpRefusal::NoAgent => "O7",
            OpRefusal::VersionGone => "O8",
        }
    }
}

impl Clone for OpRefusal {
    ghost is_clone = { λ original copy. copy ≡ original };

    fn clone(&self) -> Result<OpRefusal, AllocError> {
        Ok(match self {
            OpRefusal::IdTaken => OpRefusal::IdTaken,
            OpRefusal::Similar(id) => OpRefusal::Similar(*id),
            OpRefusal::NoEntry => OpRefusal::NoEntry,
            OpRefusal::StaleRevision => OpRefusal::StaleRevision,
            OpRefusal::NoBundle(domain) => OpRefusal::NoBundle(domain.clone()?),
            OpRefusal::BundleInUse => OpRefusal::BundleInUse,
            OpRefusal::NoAgent => OpRefusal::NoAgent,
            OpRefusal::VersionGone => OpRefusal::VersionGone,
        })
    }
}

/// Why a batch is refused. A clone shares its texts.
#[derive(Drop)]
pub enum Refusal {
    /// The batch may run only at a later place.
    NotYet,
    /// A different batch was committed with its token.
    TokenReused,
    /// The operation at this index, from 0, is refused.
    OfOp(usize, OpRefusal),
    /// The batch's changes would pass this limit.
    Full(Limit),
}

impl Refusal {
    /// Returns the code that is printed for the refusal.
    pub fn code(&self) -> &'static str
        ensures { result.now ≡ refusal_code self.now }
    {
        match self {
            Refusal::NotYet => "W1",
            Refusal::TokenReused => "O9",
            Refusal::OfOp(_, reason) => reason.code(),
            Refusal::Full(limit) => limit.code(),
        }
    }

    /// Returns the index, from 0, of the refused operation, if it is a single one.
    pub fn op(&self) -> Option<usize>
        ensures { result ≡ refusal_op self.now }
    {
        match self {
            Refusal::OfOp(index, _) => Some(*index),
            Refusal::NotYet | Refusal::TokenReused | Refusal::Full(_) => None,
        }
    }
}

impl Clone for Refusal {
    ghost is_clone = { λ original copy. copy ≡ original };

    fn clone(&self) -> Result<Refusal, AllocError> {
        Ok(match self {
            Refusal::NotYet => Refusal::NotYet,
            Refusal::TokenReused => Refusal::TokenReused,
            Refusal::OfOp(index, reason) => Refusal::OfOp(*index, reason.clone()?),
            Refusal::Full(limit) => Refusal::Full(*limit),
        })
    }
}

/// The outcome of a batch. A clone shares the replies to the operations.
#[derive(Drop)]
pub enum ReplyOutcome {
    /// The changes were made; the replies to the operations, in order.
    Committed(Shared<Sequence<OpReply>>),
    /// The batch was read-only; the replies to the operations, in order.
    Answered(Shared<Sequence<OpReply>>),
    /// The batch was committed before, with its token; the replies that it got then.
    Repeated(Shared<Sequence<OpReply>>),
    /// Nothing was changed.
    Refused(Refusal),
}

impl Clone for ReplyOutcome {
    ghost is_clone = { λ original copy. copy ≡ original };

    fn clone(&self) -> Result<ReplyOutcome, AllocError> {
        Ok(match self {
            ReplyOutcome::Committed(replies) => ReplyOutcome::Committed(replies.clone()?),
            ReplyOutcome::Answered(replies) => ReplyOutcome::Answered(replies.clone()?),
            ReplyOutcome::Repeated(replies) => ReplyOutcome::Repeated(replies.clone()?),
            ReplyOutcome::Refused(refusal) => ReplyOutcome::Refused(refusal.clone()?),
        })
    }
}

/// The reply to a batch. A clone shares the replies to the operations: it increments their reference count, and copies
/// no row and no text.
#[derive(Drop)]
pub struct Reply {
    /// The new book's number if the batch was committed, the number of the book that it added if it was committed before,
    /// and otherwise the number of the last book.
    pub place: u64,
    /// The outcome of the batch.
    pub outcome: ReplyOutcome,
}

impl Clone for Reply {
    ghost is_clone = { λ original copy. copy ≡ original };

    fn clone(&self) -> Result<Reply, AllocError> {
        Ok(Reply {
            place: self.place,
            outcome: self.outcome.clone()?,
        })
    }
}

/// The answer to a call. A clone shares the replies to the operations.
#[derive(Drop)]
pub enum CallAnswer {
    /// The reply of the plain book (the reference implementation).
    Replied(Reply),
    /// The commit failed: a batch that was committed since the call began wrote what the call has read. The number is the place
    /// (number of commits) at which this was found.
    Conflict(u64),
}

impl Clone for CallAnswer {
    ghost is_clone = { λ original copy. copy ≡ original };

    fn clone(&self) -> Result<CallAnswer, AllocError> {
        Ok(match self {
            CallAnswer::Replied(reply) => CallAnswer::Replied(reply.clone()?),
            CallAnswer::Conflict(place) => CallAnswer::Conflict(*place),
        })
    }
}
