//! What is the outcome of a batch of changes?

use crate::seat::NoAnswer;
use entry_book::{CallAnswer, Reply, ReplyOutcome};

/// The outcome of a batch of changes. Unless it is `Committed`, no item that the seat has seen, or sees later, has the
/// seat's number and the number of this call. No clause says that no other call commits the same batch.
#[derive(Drop)]
pub enum Outcome {
    /// The batch was committed; the reply has its place and the replies to its operations.
    Committed(Reply),
    /// The batch was committed before, with its token; the reply has that place, and the replies of that time.
    Repeated(Reply),
    /// The batch was refused; the reply has the refusal and its place.
    Refused(Reply),
    /// In each try, a batch that was committed after its begin wrote what it had read. The place at the end of the last
    /// try.
    Conflict(u64),
    /// Memory ran out.
    NoMemory,
    /// The seat couldn't enter the registry, or the published state doesn't extend what the seat has seen and learnt, or the
    /// history has calls under the seat's number that are not the seat's own.
    NoEntry,
}

impl Outcome {
    ghost use Rattle.std.specs.Prelude.{◌≡◌};
    ghost use Rattle.shared_registry.specs.Outcomes.{answer_given};
    ghost use Rattle.shared_registry.specs.OutcomesPrivate.{outcome_with};

    /// Returns the outcome of a batch of changes that has this reply. No batch of changes has the reply of a query.
    pub(crate) fn of(reply: Reply) -> Outcome
        ensures { result ≡ outcome_with reply }
    {
        match &reply.outcome {
            ReplyOutcome::Committed(_) => Outcome::Committed(reply),
            ReplyOutcome::Repeated(_) => Outcome::Repeated(reply),
            ReplyOutcome::Refused(_) | ReplyOutcome::Answered(_) => Outcome::Refused(reply),
        }
    }

    /// Returns the answer to the call, or why it has none.
    pub fn answer(self) -> Result<CallAnswer, NoAnswer>
        ensures { result ≡ answer_given self }
    {
        match self {
            Outcome::Committed(reply) | Outcome::Repeated(reply) | Outcome::Refused(reply) => {
                Ok(CallAnswer::Replied(reply))
            }
            Outcome::Conflict(place) => Ok(CallAnswer::Conflict(place)),
            Outcome::NoMemory => Err(NoAnswer::NoMemory),
            Outcome::NoEntry => Err(NoAnswer::NoEntry),
        }
    }
}
