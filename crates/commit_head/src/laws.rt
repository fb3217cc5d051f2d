//! Which theorems hold about journals and heads?
//!
//! The bodies do nothing. Each contract is a theorem about the definitions, stated in `specs/Laws.antt` or
//! `specs/Outcomes.antt`; a caller may rely on it after the call.

ghost use Rattle.commit_head.specs.Laws.{BatchesJoin, BeganExtends, BeganHere, BeganInside, BeganKept, BeganUnchanged, CountOfBatches, EmptyIsFirstVersion, EmptyPlace, ItemsFollow, JoinsOnBooks, JournalBegins, JournalBounded, JournalExtends, JournalIsLawful, JournalKept, JournalLast, JournalReadsFew, JournalStarts, JournalUnchanged, LeadsFurther, LeadsInParts, LeadsOnBooks, LeadsToOne};
ghost use Rattle.commit_head.specs.Outcomes.{CommitOnBooks, HitSinceEmpty, ReadyOnEmpty, UnchangedSinceEmpty};

/// What a head's journal implies for its versions and for the list of all books, which may begin with given books. Its items have one
/// batch each, in order; the version to which they lead has the last book after these batches. Its number counts them, from the place of
/// the first books on, and is at most 2^48.
pub fn journals()
    ensures follow { ItemsFollow }
    ensures parts { LeadsInParts }
    ensures one { LeadsToOne }
    ensures begins { JournalBegins }
    ensures remains { JournalKept }
    ensures extends { JournalExtends }
    ensures on_books { JoinsOnBooks }
    ensures is_unchanged { JournalUnchanged }
    ensures last { JournalLast }
    ensures lawful { JournalIsLawful }
    ensures few { JournalReadsFew }
    ensures further { LeadsFurther }
    ensures led { LeadsOnBooks }
    ensures count { CountOfBatches }
    ensures joined { BatchesJoin }
    ensures bounded { JournalBounded }
    ensures empty { EmptyIsFirstVersion }
    ensures place { EmptyPlace }
    ensures starts { JournalStarts }
{}

/// What the outcome of a commit means in terms of the specification.
pub fn commit_outcomes()
    ensures commit { CommitOnBooks }
    ensures empty { UnchangedSinceEmpty }
    ensures hit { HitSinceEmpty }
    ensures ready { ReadyOnEmpty }
{}

/// The version on which a work began remains one of a head's history.
pub fn begun()
    ensures here { BeganHere }
    ensures inside { BeganInside }
    ensures remains { BeganKept }
    ensures extends { BeganExtends }
    ensures is_unchanged { BeganUnchanged }
{}
