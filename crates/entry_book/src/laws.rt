//! Which theorems hold for the book?
//!
//! Each function has an empty body. Its contract is a theorem about the definitions, stated in `specs/Laws.antt` or
//! `specs/Visible.antt`; a caller may rely on the theorem after the call.

ghost use Rattle.entry_book.specs.Laws.{AcceptedAsSaid, AddedIsLast, AgentFaults, AliasIsHeld, AlikeAnswer, AllCommitted, AllLawful, AllWithinLimits, AuthorisedEffect, AuthorisedInOrder, BatchFits, BatchKeeps, BundleFaults, ChainBegins, ChainGoesOn, ChainIsShort, ChangesCommit, ChangesReadLast, ChangesVerdict, ChildIsAuthorised, ChildrenEffect, CommitAdds, CountOfBooks, CreateEffect, DeleteEffect, DropAgentEffect, DropBundleEffect, EarlyRefused, EmptyIsFirst, EndsOfChains, EntryFaults, ExactlyOnce, FirstFault, FirstLimit, FullRefused, GoneRefused, HeldIsAuthorised, HistoryBegins, HistoryBounded, HistoryExtends, HistoryIsFirst, KeptCommitted, KeptStays, LastIsThere, LastOfPage, LawfulHistory, LawfulWider, MatchesAsSaid, NoFault, NoOpsRefused, NoneIsPassed, OneDomainSet, OneList, OneMore, OneMoreCommits, OnePage, OpFaults, OpFits, OpKeeps, OpRefuses, OpsCompared, OthersDontMatter, OthersLeave, PageAsSaid, PageEffect, PageInTurn, PagesListAll, PagesListOnce, PassesAsSaid, PastAnswered, PastPageRefused, PruneEffect, QueriesAnswered, QueriesNeverCommit, QueryWrites, RefusedAsSaid, RepeatAnswered, ReuseRefused, RunFits, RunExtends, RunKeeps, RunOfNone, RunReplies, RunStops, SelectorsWithin, SetAgentEffect, SetBundleEffect, ShowAgentEffect, ShowBundleEffect, ShowEffect, StartIsFirst, StoredOnce, TokenRefused, TokensWritten, TooManyRefused, TrustEffect, UpdateEffect, VerdictCases, WithinIsContains, WritesJoined, WritesKeepOrder, WritesNamed, WritesOnce};
ghost use Rattle.entry_book.specs.Rows.{agent_key, bundle_key, entry_key};
ghost use Rattle.entry_book.specs.Tokens.{token_key};
ghost use Rattle.entry_book.specs.Visible.{AuthorisedBySeen, AuthorisedStays, SameAuthorised, SameTrust, TrustStays};
ghost use Rattle.entry_book.specs.Worked.{AliasHeld, AliasHeldWithMore, AliasNotHeld, AliasNotHeldWithNone, AliasOfAnother, CycleIsAuthorised, EarlierBooksRead, EmptyRefuses, FirstBatches, FreedInOneBatch, LargerShowsSame, LaterBatchWaits, LifetimesKept, NothingKept, PrunesBefore, WorkedQueriesAddNoBook, RefusedTokenFree, SequencesCount, StaleDelete, TokenKeepsReplies};

/// `Within` and `Contains` agree on lists of texts; lists of rows in order with the same members are equal, and so are sets of
/// domains; the test `is_within` compares the members of two lists of selectors.
pub fn membership()
    ensures contains { WithinIsContains }
    ensures entries { OneList entry_key }
    ensures agents { OneList agent_key }
    ensures bundles { OneList bundle_key }
    ensures tokens { OneList token_key }
    ensures domains { OneDomainSet }
    ensures selectors { SelectorsWithin }
{}

/// The authorised entries are the book's entries in which some chain for the agent ends, each once, in the order of
/// their ids. The test `ends_within`, by which they are computed, follows chains entry by entry, and needs no chain that is longer
/// than the list of entries.
pub fn authorised_entries()
    ensures ends { EndsOfChains }
    ensures order { AuthorisedInOrder }
    ensures held { HeldIsAuthorised }
    ensures child { ChildIsAuthorised }
    ensures alias { AliasIsHeld }
    ensures others { OthersDontMatter }
    ensures begins { ChainBegins }
    ensures goes_on { ChainGoesOn }
    ensures short { ChainIsShort }
{}

/// What an agent is answered depends on the rows that it may see, and on nothing else: on its own row, on the entries that it holds,
/// and on those below it and below its authorised entries; for `trust` also on the bundles that these name. So an answer stays as
/// long as no batch changes, adds or removes one of these rows.
pub fn agents_answers()
    ensures listed { AuthorisedBySeen }
    ensures authorised { SameAuthorised }
    ensures trust { SameTrust }
    ensures cached { AuthorisedStays }
    ensures cached_trust { TrustStays }
{}

/// When each operation is refused, what it replies, and which rows the book has afterwards, in direct words; these words
/// determine the result. An operation writes the rows that it names, each once, and no other.
pub fn effects()
    ensures create { CreateEffect }
    ensures update { UpdateEffect }
    ensures delete { DeleteEffect }
    ensures show { ShowEffect }
    ensures show_agent { ShowAgentEffect }
    ensures show_bundle { ShowBundleEffect }
    ensures children { ChildrenEffect }
    ensures page { PageEffect }
    ensures authorised { AuthorisedEffect }
    ensures trust { TrustEffect }
    ensures prune { PruneEffect }
    ensures set_agent { SetAgentEffect }
    ensures drop_agent { DropAgentEffect }
    ensures set_bundle { SetBundleEffect }
    ensures drop_bundle { DropBundleEffect }
    ensures accepted { AcceptedAsSaid }
    ensures refused { RefusedAsSaid }
    ensures once { WritesOnce }
    ensures named { WritesNamed }
{}

/// The book after a list of writes. Two lists joined are written one after the other. Writes that find the rows that they name
/// keep the rows in order, and the writes of an operation find them.
pub fn writes()
    ensures joined { WritesJoined }
    ensures order { WritesKeepOrder }
    ensures op { OpFits }
{}

/// What a page lists, in direct words; and that reading page after page lists every entry that passes the filter once, in
/// the order of ids, with any page size above 0.
pub fn pages()
    ensures matches { MatchesAsSaid }
    ensures passes { PassesAsSaid }
    ensures lists { PageAsSaid }
    ensures one { OnePage }
    ensures in_turn { PageInTurn }
    ensures last { LastOfPage }
    ensures all { PagesListAll }
    ensures once { PagesListOnce }
{}

/// The result of running a batch's operations.
pub fn batch_runs()
    ensures stops { RunStops }
    ensures extends { RunExtends }
    ensures none { RunOfNone }
    ensures replies { RunReplies }
    ensures queries { QueryWrites }
    ensures fits { RunFits }
    ensures keeps { RunKeeps }
{}

/// Which lists of operations are refused as a batch, and which have no fault.
pub fn faults()
    ensures no_ops { NoOpsRefused }
    ensures too_many { TooManyRefused }
    ensures first { FirstFault }
    ensures past_page { PastPageRefused }
    ensures token { TokenRefused }
    ensures none { NoFault }
    ensures entry { EntryFaults }
    ensures agent { AgentFaults }
    ensures bundle { BundleFaults }
    ensures op { OpFaults }
{}

/// How a batch's verdict arises: it is that of the run on the book that the batch reads, unless the batch is refused or repeated
/// before. A batch of changes reads the last book, and adds the book after its writes if that passes no limit.
pub fn verdicts()
    ensures cases { VerdictCases }
    ensures changes { ChangesVerdict }
    ensures newest { ChangesReadLast }
{}

/// How the list of all books grows with the list of batches. A history may begin with any books that satisfy `IsFirst`, the empty
/// book alone among them. Of the books so far, replies depend on their number and on the last 64.
pub fn histories()
    ensures adds { CommitAdds }
    ensures leaves { OthersLeave }
    ensures queries { QueriesNeverCommit }
    ensures early { EarlyRefused }
    ensures refused { OpRefuses }
    ensures answered { QueriesAnswered }
    ensures changes { ChangesCommit }
    ensures full { FullRefused }
    ensures past { PastAnswered }
    ensures gone { GoneRefused }
    ensures limits { NoneIsPassed }
    ensures first_limit { FirstLimit }
    ensures within { AllWithinLimits }
    ensures bounded { HistoryBounded }
    ensures one_more { OneMore }
    ensures one_more_commits { OneMoreCommits }
    ensures count { CountOfBooks }
    ensures extends { HistoryExtends }
    ensures begins { HistoryBegins }
    ensures last { AddedIsLast }
    ensures empty { EmptyIsFirst }
    ensures start { StartIsFirst }
    ensures again { HistoryIsFirst }
    ensures alike { AlikeAnswer }
    ensures there { LastIsThere }
{}

/// The outcome of batches with a token: of those with the same token, at most one is ever committed. A stored batch stays stored, and so
/// does one that the first books of a history store.
pub fn tokens()
    ensures same { OpsCompared }
    ensures written { TokensWritten }
    ensures committed { KeptCommitted }
    ensures all_committed { AllCommitted }
    ensures repeated { RepeatAnswered }
    ensures reused { ReuseRefused }
    ensures once { ExactlyOnce }
    ensures stays { KeptStays }
    ensures stored_once { StoredOnce }
{}

/// Every book of a history is lawful, and so is every book in a list that a plain book's state represents: an accepted
/// batch keeps a book lawful, and so does an accepted operation.
pub fn lawful_books()
    ensures history { LawfulHistory }
    ensures holds_always { AllLawful }
    ensures batch { BatchKeeps }
    ensures fits { BatchFits }
    ensures op { OpKeeps }
    ensures wider { LawfulWider }
{}

/// The worked books of `specs/Worked.antt`: a cycle of parents terminates, and an agent holds an alias if it has all of
/// its selectors, and only then. A book with one more entry and one more agent shows an agent the same rows.
pub fn worked_books()
    ensures cycle { CycleIsAuthorised }
    ensures held { AliasHeld }
    ensures held_with_more { AliasHeldWithMore }
    ensures not_held { AliasNotHeld }
    ensures not_held_with_none { AliasNotHeldWithNone }
    ensures of_another { AliasOfAnother }
    ensures shows_same { LargerShowsSame }
{}

/// The worked batches of `specs/Worked.antt`, with their replies, one after another.
pub fn worked_batches()
    ensures first { FirstBatches }
    ensures empty { EmptyRefuses }
    ensures nothing_kept { NothingKept }
    ensures sequences { SequencesCount }
    ensures freed { FreedInOneBatch }
    ensures prunes { PrunesBefore }
    ensures stale { StaleDelete }
    ensures earlier { EarlierBooksRead }
    ensures later { LaterBatchWaits }
    ensures token { TokenKeepsReplies }
    ensures token_free { RefusedTokenFree }
    ensures lifetimes { LifetimesKept }
    ensures questions { WorkedQueriesAddNoBook }
{}
