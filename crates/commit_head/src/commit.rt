//! What is the outcome of a commit?

use entry_book::{CallAnswer, Limit, OpReply, Refusal, Reply, ReplyOutcome, Sequence, Shared};
use std::alloc::AllocError;

/// The outcome of a commit. The number is that of the new book, or the head's place if there is none.
#[derive(Drop)]
pub enum Commit {
    /// The batch is committed, as the book with this number.
    Committed(u64),
    /// A batch that was committed since the work began wrote what the work has read.
    Conflict(u64),
    /// The book after the changes would pass this limit.
    Full(Limit, u64),
    /// Out of memory; the journal and the window are unchanged.
    NoMemory,
}

impl Commit {
    ghost use Rattle.std.specs.Prelude.{◌≡◌, IfOk, None, OnErr, Some};
    ghost use Rattle.commit_head.specs.Outcomes.{answer_to};

    /// Returns the answer to the call whose batch had this outcome; the replies are those to its operations. The error is out of
    /// memory.
    pub fn answer(self, replies: Shared<Sequence<OpReply>>) -> Result<CallAnswer, AllocError>
        ensures answer { IfOk result (λ answer. answer_to replies self ≡ Some answer) }
        ensures err { OnErr result (answer_to replies self ≡ None) }
    {
        let (place, outcome) = match self {
            Commit::Committed(place) => (place, ReplyOutcome::Committed(replies)),
            Commit::Full(limit, place) => (place, ReplyOutcome::Refused(Refusal::Full(limit))),
            Commit::Conflict(place) => return Ok(CallAnswer::Conflict(place)),
            Commit::NoMemory => return Err(AllocError),
        };
        Ok(CallAnswer::Replied(Reply { place, outcome }))
    }
}

/// Why a ready work isn't committed.
#[derive(Drop)]
pub(crate) enum CommitRefusal {
    /// A batch that was committed since the work began wrote what the work has read.
    Conflict,
    /// The book after the changes would pass this limit.
    Full(Limit),
    /// Out of memory.
    NoMemory,
}

impl CommitRefusal {
    ghost use Rattle.std.specs.Prelude.{◌≡◌};
    ghost use Rattle.commit_head.specs.CommitRefusals.{outcome_at};

    /// Returns the outcome of a commit that is refused at this place.
    pub(crate) fn outcome_at(self, place: u64) -> Commit
        ensures { result ≡ outcome_at place self }
    {
        match self {
            CommitRefusal::Conflict => Commit::Conflict(place),
            CommitRefusal::Full(limit) => Commit::Full(limit, place),
            CommitRefusal::NoMemory => Commit::NoMemory,
        }
    }
}

impl From<AllocError> for CommitRefusal {
    ghost use Rattle.std.specs.Prelude.{◌≡◌};
    ghost use Rattle.commit_head.specs.declared.commit.CommitRefusal.TheVariants.{NoMemory};

    ghost from_gives = { λ _ refusal. refusal ≡ NoMemory };

    fn from(_: AllocError) -> CommitRefusal {
        CommitRefusal::NoMemory
    }
}
