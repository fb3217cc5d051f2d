//! Which theorems hold about marks and versions?
//!
//! The bodies do nothing. Each contract is a theorem about the definitions, stated in `specs/Laws.antt`; a caller may rely on
//! it after the call.

ghost use Rattle.version_book.specs.Laws.{AgreeAfter, BatchCommits, BookAfter, BookReads, BooksFollow, BooksJoin, CommitsJoin, CommitsReadLast, DomainIsUnchanged, FollowsJoined, HitsAtAnyPlace, HitsInBooks, LimitsFollow, PlacesPut, ReadsAfter, ReadsAgent, ReadsAll, ReadsBundle, ReadsChildren, ReadsEntry, ReadsExpiring, ReadsGroup, ReadsToken, ReadsUsers, RepliesFollow, RoomInRun, RunMayApply, Unhit, UnhitHistory, UnhitMarks, VerdictOnLast};

/// What each mark reads, in terms of the book's own lookups.
pub fn marks()
    ensures entry { ReadsEntry }
    ensures group { ReadsGroup }
    ensures children { ReadsChildren }
    ensures users { ReadsUsers }
    ensures expiring { ReadsExpiring }
    ensures all { ReadsAll }
    ensures agent { ReadsAgent }
    ensures bundle { ReadsBundle }
    ensures token { ReadsToken }
{}

/// What a mark reads after writes.
pub fn reads_after_writes()
    ensures seen { ReadsAfter }
    ensures agree { AgreeAfter }
    ensures unhit { Unhit }
{}

/// A batch's writes get the place of its stored batch when it commits. They then are its writes as that commit, and hit the
/// same marks as before.
pub fn places()
    ensures put { PlacesPut }
    ensures hits { HitsAtAnyPlace }
{}

/// How the rows of a version represent its book.
pub fn books()
    ensures after { BookAfter }
    ensures reads { BookReads }
{}

/// How versions follow one another, batch by batch. A batch that commits reads the newest book, and its verdict on the list of all
/// books is that on the newest version's book.
pub fn version_histories()
    ensures commits { BatchCommits }
    ensures joined { FollowsJoined }
    ensures books { BooksFollow }
    ensures domain { DomainIsUnchanged }
    ensures limits { LimitsFollow }
    ensures unhit { UnhitHistory }
    ensures unhit_marks { UnhitMarks }
    ensures newest { CommitsReadLast }
    ensures verdict { VerdictOnLast }
{}

/// There is room for the writes of a batch that runs on a lawful book within the limits.
pub fn room()
    ensures { RoomInRun }
{}

/// The writes of a batch that runs on a lawful version within the limits may be applied to it, if its token isn't in use.
pub fn applying()
    ensures { RunMayApply }
{}

/// Books, commits and replies for lists of batches, on versions and on the list of all books.
pub fn batches()
    ensures books { BooksJoin }
    ensures commits { CommitsJoin }
    ensures replies { RepliesFollow }
{}

/// Whether a batch of a history hits a mark, in terms of the list of all books.
pub fn writers()
    ensures hits { HitsInBooks }
{}
