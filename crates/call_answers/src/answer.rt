//! Which answer does an event get?

use batch_work::Status;
use entry_book::{CallAnswer, Limit};
use version_book::Mark;

/// The result of a commit.
#[derive(Clone, Copy, Debug, PartialEq, Eq)]
pub enum Decision {
    /// The changes were made.
    Committed,
    /// A batch that was committed since the call began wrote what the call has read.
    Conflict,
    /// The changes would pass this limit.
    Full(Limit),
}

/// The answer to an accepted event. The first number is the call's.
#[derive(Drop)]
pub enum Done {
    /// The call was invoked, and waits for its begin.
    Invoked(u64),
    /// The call began at this place (number of commits), and then waits for this.
    Begun(u64, u64, Status),
    /// The call read what this mark names, and then waits for this.
    Stepped(u64, Mark, Status),
    /// The commit had this result. The last number is the place of the new book, or of the newest one if nothing was committed.
    Decided(u64, Decision, u64),
    /// The call's answer.
    Answered(u64, CallAnswer),
}
