//! What do the threads of many callers share?

ghost use Rattle.std.specs.Prelude.{◌≡◌, ◌<◌, ◌≤◌, ◌^◌, [], length, IfOk, MatchResult, true, false};
ghost use mathlib.Core.List.{IsPrefix};
ghost use Rattle.entry_book.specs.Batches.{is_query};
ghost use Rattle.entry_book.specs.History.{books_from, first_books, reply_to};
ghost use Rattle.commit_head.specs.Journals.{IsLawfulJournal, batches_of, place_after};
ghost use Rattle.batch_work.specs.Working.{HasReplies, status_of};
ghost use Rattle.shared_registry.specs.Outcomes.{HasSeenLearnt, IsSubmitted, TookCommits};
ghost use Rattle.shared_registry.specs.OutcomesPrivate.{HandsOut, WasDecided, IsNotConflict, IsTry};
ghost use Rattle.shared_registry.specs.Seated.{AfterCall, CaughtUp, DuringCall, SawNothingNew};
ghost use Rattle.shared_registry.specs.SeatCalls.{AllBelow, calls_of};
ghost use Rattle.shared_registry.specs.Works.{IsRead};

use crate::closed::ClosedRegistry;
use crate::gate::{Gate, Point};
use crate::history::{HistoryName, NewHistory, RegistryId};
use crate::outcome::Outcome;
use crate::recent::Replaced;
use crate::run::discard;
use crate::seat::{Answer, NoAnswer, NoEntry, Receipt, Seat};
use crate::writer_state::{NoSeat, WriterState};
use batch_work::{Status, Work};
use commit_head::Commit;
use entry_book::{Batch, CallAnswer, OpReply, Sequence, Shared};
use spiffe_name::TrustDomain;
use std::alloc::{AllocError, Global};
use std::sync::{Mutex, MutexGuard, Wait};

// A registry has at most this number of seats.
const MOST_SEATS: usize = 32;

/// Returns the outcome of a batch of changes with nothing to commit: it is refused, or was committed before.
fn outcome_of_settled<J: RegistryId>(seat: &Seat<J>, work: Work) -> Outcome
    requires read { IsRead J.first J.domain seat.now.seen work.batch work }
    requires changes { is_query work.batch.ops ≡ false }
    requires unready { status_of work ≡ Status.Ready → ⊥ }
    ensures over { IsNotConflict result }
    ensures answer { IsSubmitted J.first seat.now seat.now work.batch 0 result }
{
    let _place = seat.place();
    let _made = work.batch().ops();
    let Some(reply) = work.into_reply() else {
        unreachable!()
    };
    Outcome::of(reply)
}

/// One registration book for many threads, shared by `&self`. Each caller has a seat, and all answers agree with one list
/// of committed batches.
///
/// A reader takes no lock: it looks once at the published state, and runs its batch on it. A writer takes the lock only for
/// its commit. A function with `rt` may wait, and no clause says that it returns.
pub struct Registry<J: RegistryId> {
    // its ghost field lets a struct of a caller, which has the registry, state facts about `J`
    name: HistoryName<J>,
    state: Mutex<WriterState<J>>,
}

impl<J: RegistryId> Registry<J> {
    ghost use Rattle.std.specs.Prelude.{◌≡◌, ◌<◌, ◌≤◌, ◌^◌, [], length, IfOk, MatchResult, true, false};

    /// Makes the registry of a history that was just opened, with the empty book of a trust domain and 32 seats. The error
    /// is out of memory.
    pub fn new(
        alloc: Global,
        new_history: NewHistory,
        domain: TrustDomain,
    ) -> Result<Registry<J>, AllocError>
        requires history { new_history.seen.book ≡ J.history }
        requires first { J.first ≡ first_books }
        requires domain { domain ≡ J.domain }
    {
        Registry::with_seats(alloc, new_history, domain, MOST_SEATS)
    }

    /// Makes the registry of a history that was just opened, with the empty book of a trust domain and this number of seats,
    /// at most 32. A commit makes a few steps for each seat, also for one that isn't given. The error is out of memory.
    pub fn with_seats(
        alloc: Global,
        new_history: NewHistory,
        domain: TrustDomain,
        seats: usize,
    ) -> Result<Registry<J>, AllocError>
        requires history { new_history.seen.book ≡ J.history }
        requires first { J.first ≡ first_books }
        requires domain { domain ≡ J.domain }
        requires seats { 0 < seats }
    {
        let Some(history) = new_history.into_history::<J>() else {
            return Err(AllocError);
        };
        let name = history.name();
        let state = WriterState::new(alloc, domain, history, seats.min(MOST_SEATS))?;
        Ok(Registry {
            name,
            state: Mutex::new(state),
        })
    }

    /// Returns a seat for one more caller, which has seen nothing and made no call. The error is that all seats are given, no
    /// reader is available, or a reference count can't grow. It waits for the lock, and no clause says when it gets it.
    pub fn seat<R: Wait>(&self, rt: &R) -> Result<Seat<J>, NoSeat>
        ensures { IfOk result (λ s. (s.seen ≡ []) × (s.learnt ≡ []) × (s.own ≡ []) × (s.calls ≡ 0)) }
    {
        let mut state = self.state.lock(rt);
        let seat = state.seat();
        MutexGuard::unlock(state);
        seat
    }

    /// Returns the answer to a query, on the books of what the seat has then seen. It waits for no other thread.
    pub fn query(&self, seat: &mut Seat<J>, batch: &Batch) -> Result<Answer, NoAnswer>
        requires has_calls { seat.old.calls < 2 ^ 48 }
        requires query { is_query batch.now.ops ≡ true }
        requires domain { batch.now.domain ≡ J.domain }
        ensures answer { IfOk result (λ reply. reply ≡ reply_to batch.now (books_from J.first (batches_of seat.new.seen))) }
        ensures place { IfOk result (λ reply. reply.place ≡ place_after J.first seat.new.seen) }
        ensures entered { MatchResult result (λ _. CaughtUp J.first J.domain seat.old seat.new) (λ _. SawNothingNew J.first J.domain seat.old seat.new) }
        ensures own { seat.new.own ≡ seat.old.own }
    {
        seat.query(batch)
    }

    /// Commits a batch of changes, or returns its other outcome. After a conflict the batch begins again, on the state
    /// published then, while tries are left. Each try passes the gate. The lock is held only for the commit; no clause says
    /// when it gets the lock.
    pub fn submit<R: Wait, G: Gate>(
        &self,
        rt: &R,
        seat: &mut Seat<J>,
        gate: &G,
        batch: Batch,
        tries: u32,
    ) -> Outcome
        requires has_calls { seat.old.calls < 2 ^ 48 }
        requires changes { is_query batch.ops ≡ false }
        requires domain { batch.domain ≡ J.domain }
        requires tries { 0 < tries }
        ensures after_call { AfterCall J.first J.domain seat.old seat.new }
        ensures seen_learnt { HasSeenLearnt seat.old seat.new result }
        ensures answer { IsSubmitted J.first seat.old seat.new batch tries result }
        ensures commits { TookCommits seat.old seat.new tries result }
    {
        seat.take_call();
        let mut place = seat.place();
        let mut batch = batch;
        for _ in 0..tries {
            match self.attempt(rt, seat, gate, batch) {
                Ok(outcome) => {
                    let _place = seat.place();
                    return outcome;
                }
                Err((end, back)) => {
                    place = end;
                    batch = back;
                }
            }
        }
        let _place = seat.place();
        Outcome::Conflict(place)
    }

    /// Makes one try of a batch of changes. The error is a conflict, found at this place, and hands the batch back.
    fn attempt<R: Wait, G: Gate>(
        &self,
        rt: &R,
        seat: &mut Seat<J>,
        gate: &G,
        batch: Batch,
    ) -> Result<Outcome, (u64, Batch)>
        requires below { AllBelow seat.old.calls seat.old.own }
        requires changes { is_query batch.ops ≡ false }
        requires domain { batch.domain ≡ J.domain }
        ensures during_call { DuringCall seat.old seat.new }
        ensures tried { IsTry J.first seat.old seat.new batch result }
    {
        let work = match seat.read(gate, batch) {
            Ok(work) => work,
            Err(NoAnswer::NoMemory) => return Ok(Outcome::NoMemory),
            Err(NoAnswer::NoEntry) => return Ok(Outcome::NoEntry),
        };
        let Some(replies) = work.replies() else {
            return Ok(outcome_of_settled(seat, work));
        };
        let Ok(replies) = replies.clone() else {
            discard(work);
            return Ok(Outcome::NoMemory);
        };
        self.commit(rt, seat, gate, work, replies)
    }

    /// Commits the work of one try, under the lock. The error is a conflict.
    fn commit<R: Wait, G: Gate>(
        &self,
        rt: &R,
        seat: &mut Seat<J>,
        gate: &G,
        work: Work,
        replies: Shared<Sequence<OpReply>>,
    ) -> Result<Outcome, (u64, Batch)>
        requires below { AllBelow seat.old.calls seat.old.own }
        requires ready { status_of work ≡ Status.Ready }
        requires read { IsRead J.first J.domain seat.old.seen work.batch work }
        requires replies { HasReplies work replies }
        requires seen_learnt { IsPrefix seat.old.learnt seat.old.seen }
        ensures during_call { DuringCall seat.old seat.new }
        ensures tried { IsTry J.first seat.old seat.new work.batch result }
    {
        let (number, call) = (seat.number(), seat.calls());
        let (decided, replaced) = self.commit_locked(rt, seat, gate, &work);
        drop(replaced);
        gate.pass(Point::AfterCommit, number, call);
        let batch = work.into_batch();
        let commit = match decided {
            Ok(commit) => commit,
            Err(NoEntry) => return Ok(Outcome::NoEntry),
        };
        match commit.answer(replies) {
            Ok(CallAnswer::Replied(reply)) => Ok(Outcome::of(reply)),
            Ok(CallAnswer::Conflict(place)) => Err((place, batch)),
            Err(AllocError) => Ok(Outcome::NoMemory),
        }
    }

    /// Commits the work of one try. It holds the lock for nothing else, and returns what the commit has replaced, to be dropped
    /// without the lock.
    fn commit_locked<R: Wait, G: Gate>(
        &self,
        rt: &R,
        seat: &mut Seat<J>,
        gate: &G,
        work: &Work,
    ) -> (Result<Commit, NoEntry>, Option<Replaced>)
        requires below { AllBelow seat.old.calls seat.old.own }
        requires ready { status_of work.now ≡ Status.Ready }
        requires read { IsRead J.first J.domain seat.old.seen work.now.batch work.now }
        ensures during_call { DuringCall seat.old seat.new }
        ensures decided { WasDecided J.first seat.old seat.new work.now result.0 }
        ensures handed_out { HandsOut result.0 result.1 }
    {
        let mut state = self.state.lock(rt);
        gate.pass(Point::BeforeCommit, seat.number(), seat.calls());
        let (decided, replaced) = state.commit(rt, seat, work);
        MutexGuard::unlock(state);
        (decided, replaced)
    }

    /// Lets the seat see every item so far, including those that it has learnt of, and returns the receipt of that. It
    /// waits for the lock, and no clause says when it gets it.
    pub fn news<R: Wait>(&self, rt: &R, seat: &mut Seat<J>) -> Result<Receipt<J>, NoEntry>
        ensures during_call { DuringCall seat.old seat.new }
        ensures lawful { IsLawfulJournal J.first J.domain seat.new.seen }
        ensures own { (seat.new.own ≡ seat.old.own) × (calls_of seat.new.number seat.new.seen ≡ seat.new.own) }
        ensures seen_learnt { IfOk result (λ _. IsPrefix seat.old.learnt seat.new.seen) }
        ensures receipt { MatchResult result (λ r. r ≡ seat.new.seen) (λ _. seat.new.seen ≡ seat.old.seen) }
    {
        let mut state = self.state.lock(rt);
        let receipt = state.news(seat);
        MutexGuard::unlock(state);
        let _place = seat.place();
        receipt
    }

    /// Returns the receipt of every item so far. The contract says of it that it begins with all that this seat has seen and learnt
    /// of. It is never refused. It waits for the lock, and no clause says when it gets it.
    pub fn receipt<R: Wait>(&self, rt: &R, seat: &Seat<J>) -> Receipt<J>
        ensures lawful { IsLawfulJournal J.first J.domain result }
        ensures seen { IsPrefix seat.now.seen result }
        ensures learnt { IsPrefix seat.now.learnt result }
    {
        let mut state = self.state.lock(rt);
        let receipt = state.receipt(seat);
        MutexGuard::unlock(state);
        receipt
    }

    /// Returns the number of stored items of the journal, at most 4,096. It waits for the lock, and no clause says when it
    /// gets it.
    pub fn kept<R: Wait>(&self, rt: &R) -> u64
        ensures { result ≤ 4096 }
    {
        let state = self.state.lock(rt);
        let kept = state.kept();
        MutexGuard::unlock(state);
        kept
    }

    /// Ends the registry, whose writer can't be dropped otherwise, and returns what was published last. It waits for the
    /// readers that are inside, and no clause says that it returns.
    pub fn close<R: Wait>(self, rt: &R) -> ClosedRegistry<J> {
        let Registry { name: _, state } = self;
        state.into_inner().close(rt)
    }
}
