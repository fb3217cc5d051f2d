//! Which theorems hold about what batches read?
//!
//! The bodies do nothing. Each contract is a theorem about the definitions, stated in `specs/Laws.antt`, `specs/Bounds.antt` or
//! `specs/Walked.antt`; a caller may rely on it after the call.

ghost use Rattle.batch_work.specs.Bounds.{BatchReadsBounded, KeptReadOnly, OpReadsBounded, ReadsAreFew, ReadsAreFewAnywhere, ReadsInOrder, TokenReadFirst};
ghost use Rattle.batch_work.specs.Laws.{AnswersDontCommit, AwaitsAsSaid, AwaitsInCase, BatchReadsDecide, CommitCheck, EndHasRead, OneListOfReplies, OthersDontCommit, ReadsDecide, ReadyHasRead, ReadyTurns, VerdictByCase, WindowBegins, WindowExtends, WindowLast, WindowRepresentsBooks};
ghost use Rattle.batch_work.specs.Walked.{AuthorisedReads, MissingReads, OneWalk, TrustReads, TrustedAsSaid, WalkAsSaid};

/// The specification's verdict on a batch is that of the case that the batch meets. In which cases it awaits its commit.
pub fn cases()
    ensures verdict { VerdictByCase }
    ensures waits { AwaitsInCase }
{}

/// What a batch reads decides its outcome.
pub fn reads_decide()
    ensures ops { ReadsDecide }
    ensures batch { BatchReadsDecide }
{}

/// The outcome of a batch at its commit, if what it read is unchanged. Which batches await a commit; no other one is committed.
pub fn commit_check()
    ensures check { CommitCheck }
    ensures awaits { AwaitsAsSaid }
    ensures others { OthersDontCommit }
    ensures answers { AnswersDontCommit }
{}

/// A work that begins on a window has the reads and the reply of its batch on the list of all books. It awaits a commit exactly
/// if the batch does. The window of a history's first version represents the list of its book. With each version that is
/// pushed, it represents the longer list.
pub fn windows()
    ensures represents { WindowRepresentsBooks }
    ensures begins { WindowBegins }
    ensures continues { WindowExtends }
    ensures last { WindowLast }
{}

/// A batch's reads are those of its operations in order, after that of its token if it has one. The number of reads is bounded
/// for each operation and for the batch, and never exceeds a fixed number.
pub fn bounds()
    ensures order { ReadsInOrder }
    ensures token { TokenReadFirst }
    ensures kept { KeptReadOnly }
    ensures operation { OpReadsBounded }
    ensures batch { BatchReadsBounded }
    ensures few { ReadsAreFew }
    ensures anywhere { ReadsAreFewAnywhere }
{}

/// Which identities are read for an agent's authorised entries, and in which order; the bundles of which domains are read; and
/// that these are the reads of `authorised` and `trust`.
pub fn walks()
    ensures walk { WalkAsSaid }
    ensures one { OneWalk }
    ensures trusted { TrustedAsSaid }
    ensures authorised { AuthorisedReads }
    ensures trust { TrustReads }
    ensures missing { MissingReads }
{}

/// What a work has read at its end, and what its changes make of the book on which it began. It has one list of replies.
pub fn works()
    ensures end { EndHasRead }
    ensures ready { ReadyHasRead }
    ensures turns { ReadyTurns }
    ensures one { OneListOfReplies }
{}
