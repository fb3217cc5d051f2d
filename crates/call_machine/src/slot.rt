//! What does a machine store of a call?

ghost use Rattle.std.specs.Prelude.{◌≡◌, ◌⊎◌, IfSome, None, false, true};
ghost use Rattle.entry_book.specs.History.{is_committed};
ghost use Rattle.batch_work.specs.Working.{status_of};
ghost use Rattle.commit_head.specs.Heads.{IsUnchangedHead};
ghost use Rattle.call_machine.specs.Kept.{AnsweredWhenSettled, IsDecided, IsOverSlot, IsSettledSlot, HasWholeJournal, RestsOn, decision_at, head_domain, stage_kept};
ghost use Rattle.call_machine.specs.declared.slot.SlotState.TheVariants as slot;

use batch_work::{Status, Work};
use call_answers::{Decision, KnownCall};
use call_events::EventRefusal;
use commit_head::{Commit, Head};
use entry_book::{Batch, CallAnswer, Reply, ReplyOutcome};
use std::alloc::{AllocError, Global};
use std::mem::replace;
use version_book::Mark;

/// The state of a call.
#[derive(Drop)]
pub(crate) enum SlotState {
    /// Its work has a copy of its batch. A call gets its answer as soon as its work is settled.
    Open(Work),
    /// Its work was settled, or its commit was decided. It keeps no version alive.
    Over(CallAnswer),
}

/// A call: its batch, its state, and the accepted numbers of its invoke, of its begin or commit (`turn`, 0 before), and of its
/// reply.
#[derive(Drop)]
pub(crate) struct Slot {
    batch: Batch,
    state: SlotState,
    invoked: u64,
    turn: u64,
    replied: Option<u64>,
}

impl Slot {
    ghost use Rattle.std.specs.Prelude.{◌≡◌, ℕ, IfOk, IfErr, List, OnErr, None, Some};
    ghost use Rattle.std.specs.Option.{option_copied};
    ghost use Rattle.entry_book.specs.Rows.{Bytes};
    ghost use Rattle.commit_head.specs.declared.item.Item.{Item};
    ghost use Rattle.commit_head.specs.Heads.{IsUnchangedHead};
    ghost use Rattle.call_machine.specs.Calls.{answer_of, status_at};
    ghost use Rattle.call_machine.specs.Known.{ReportsCall, decided_of};
    ghost use Rattle.call_machine.specs.Kept.{AnsweredWhenSettled, HasWholeJournal, SlotBegins, SlotDecides, SlotRefuses, SlotRests, SlotSteps, call_kept, head_domain, is_listed_slot, is_ready_slot, is_running_slot, is_waiting_slot, may_reply, new_slot, stage_of_slot};

    /// Makes the call that is invoked under this accepted number, with a copy of its batch for its work. Takes no memory.
    pub(crate) fn new(alloc: Global, batch: Batch, copy: Batch, invoked: u64) -> Slot
        requires copy { copy ≡ batch }
        ensures { result ≡ new_slot batch invoked }
    {
        Slot {
            batch,
            state: SlotState::Open(Work::new(alloc, copy)),
            invoked,
            turn: 0,
            replied: None,
        }
    }

    /// Returns the accepted number of its begin, or of its commit once that was decided.
    pub(crate) fn turn(&self) -> u64
        ensures { result ≡ self.now.turn }
    {
        self.turn
    }

    /// Returns what the call waits for.
    fn status(&self) -> Status
        ensures { result ≡ status_at (stage_of_slot self.now) }
    {
        match &self.state {
            SlotState::Open(work) => work.status(),
            SlotState::Over(_) => Status::Settled,
        }
    }

    /// Returns true if it is committed, or has replied with something other than a conflict.
    pub(crate) fn is_listed(&self) -> bool
        ensures { result ≡ is_listed_slot self.now }
    {
        match &self.state {
            SlotState::Over(CallAnswer::Replied(reply)) => {
                is_commit(reply) || self.replied.is_some()
            }
            SlotState::Over(CallAnswer::Conflict(_)) => false,
            SlotState::Open(_) => false,
        }
    }

    /// Returns the accepted number of the event that decided it. A conflict has none.
    fn decided(&self) -> Option<u64>
        requires answered { AnsweredWhenSettled self.now.state }
        ensures { result ≡ decided_of (stage_of_slot self.now) self.now.turn }
    {
        match &self.state {
            SlotState::Over(CallAnswer::Replied(_)) => Some(self.turn),
            SlotState::Over(CallAnswer::Conflict(_)) => None,
            SlotState::Open(_) => None,
        }
    }

    /// Returns what is known of the call.
    pub(crate) fn known(&self) -> KnownCall<'_>
        requires answered { AnsweredWhenSettled self.now.state }
        ensures { (n : ℕ) → ReportsCall (call_kept n self.now) result }
    {
        KnownCall {
            batch: &self.batch,
            invoked: self.invoked,
            decided: self.decided(),
            replied: self.replied,
            answer: self.answer(),
        }
    }

    /// Returns its answer, if it has one.
    fn answer(&self) -> Option<&CallAnswer>
        requires answered { AnsweredWhenSettled self.now.state }
        ensures { option_copied result ≡ answer_of (stage_of_slot self.now) }
    {
        match &self.state {
            SlotState::Open(_) => None,
            SlotState::Over(answer) => Some(answer),
        }
    }

    /// Begins on the head's window, under this accepted number.
    pub(crate) fn begin(&mut self, head: &Head, turn: u64) -> Result<Status, EventRefusal>
        requires whole { HasWholeJournal head.now }
        requires rests { SlotRests (head_domain head.now) head.now.kept self.old }
        ensures ok { IfOk result (λ status. SlotBegins head.now self.old turn status self.new) }
        ensures err { IfErr result (SlotRefuses (is_waiting_slot self.old)) }
        ensures is_unchanged { OnErr result (self.new ≡ self.old) }
    {
        let Status::New = self.status() else {
            return Err(EventRefusal::NotNow);
        };
        let SlotState::Open(work) = &mut self.state else {
            unreachable!()
        };
        let Ok(()) = work.begin(head.window()) else {
            return Err(EventRefusal::NoMemory);
        };
        discard(&mut self.state);
        self.turn = turn;
        Ok(self.status())
    }

    /// Makes the next read.
    pub(crate) fn step(&mut self) -> Result<(Mark, Status), EventRefusal>
        ensures ok { (own_domain : Bytes) (items : List Item) → SlotRests own_domain items self.old → IfOk result (λ read. SlotSteps own_domain items self.old read.0 read.1 self.new) }
        ensures err { IfErr result (SlotRefuses (is_running_slot self.old)) }
        ensures is_unchanged { OnErr result (self.new ≡ self.old) }
    {
        let Status::Running = self.status() else {
            return Err(EventRefusal::NotNow);
        };
        let SlotState::Open(work) = &mut self.state else {
            unreachable!()
        };
        let Ok(mark) = work.next_mark() else {
            return Err(EventRefusal::NoMemory);
        };
        let Ok(()) = work.step() else {
            return Err(EventRefusal::NoMemory);
        };
        discard(&mut self.state);
        Ok((mark, self.status()))
    }

    /// Commits its changes on the head, under the call's number; `turn` is the accepted number of its commit.
    pub(crate) fn commit(
        &mut self,
        head: &mut Head,
        number: u64,
        turn: u64,
    ) -> Result<(Decision, u64), EventRefusal>
        requires whole { HasWholeJournal head.old }
        requires rests { SlotRests (head_domain head.old) head.old.kept self.old }
        ensures ok { IfOk result (λ decided. SlotDecides head.old self.old turn decided.0 decided.1 self.new head.new) }
        ensures err { IfErr result (SlotRefuses (is_ready_slot self.old)) }
        ensures is_unchanged { OnErr result (self.new ≡ self.old) }
        ensures head_unchanged { OnErr result (IsUnchangedHead head.old head.new) }
    {
        let Status::Ready = self.status() else {
            return Err(EventRefusal::NotNow);
        };
        let SlotState::Open(work) = &self.state else {
            unreachable!()
        };
        let Some((answer, decision, place)) = decide(head, number, work) else {
            return Err(EventRefusal::NoMemory);
        };
        drop(replace(&mut self.state, SlotState::Over(answer)));
        self.turn = turn;
        Ok((decision, place))
    }

    /// Returns its answer, once, under this accepted number.
    pub(crate) fn reply(&mut self, number: u64) -> Result<CallAnswer, EventRefusal>
        requires answered { AnsweredWhenSettled self.old.state }
        ensures ok { IfOk result (λ answer. (self.old.replied ≡ None) × (answer_of (stage_of_slot self.old) ≡ Some answer) × (self.new ≡ record self.old { replied = Some number })) }
        ensures err { IfErr result (SlotRefuses (may_reply self.old)) }
        ensures is_unchanged { OnErr result (self.new ≡ self.old) }
    {
        if self.replied.is_some() {
            return Err(EventRefusal::NotNow);
        }
        let Some(answer) = self.answer() else {
            return Err(EventRefusal::NotNow);
        };
        let Ok(answer) = answer.clone() else {
            return Err(EventRefusal::NoMemory);
        };
        self.replied = Some(number);
        Ok(answer)
    }
}

/// Returns true if the call is open and its work is settled.
fn is_settled(state: &SlotState) -> bool
    ensures settled { result ≡ true → IsSettledSlot state.now }
    ensures answered { result ≡ false → AnsweredWhenSettled state.now }
{
    match state {
        SlotState::Open(work) => matches!(&work.status(), Status::Settled),
        SlotState::Over(_) => false,
    }
}

/// Returns the state of a call after its work was settled. Drops the work, except for its reply.
fn over(work: Work) -> SlotState
    requires settled { status_of work ≡ Status.Settled }
    ensures stage { stage_kept result ≡ stage_kept (slot.Open work) }
    ensures over { IsOverSlot result }
{
    let Some(reply) = work.into_reply() else {
        unreachable!()
    };
    SlotState::Over(CallAnswer::Replied(reply))
}

/// Replaces a settled work by its reply, which drops its versions.
fn discard(state: &mut SlotState)
    ensures stage { stage_kept state.new ≡ stage_kept state.old }
    ensures answered { AnsweredWhenSettled state.new }
    ensures kept { (state.new ≡ state.old) ⊎ IsOverSlot state.new }
{
    if !is_settled(state) {
        return;
    }
    // a placeholder, until the state with the reply takes its place
    let placeholder = SlotState::Over(CallAnswer::Conflict(0));
    let SlotState::Open(work) = replace(state, placeholder) else {
        unreachable!()
    };
    drop(replace(state, over(work)));
}

/// Returns true if the batch of this reply was committed by its call.
fn is_commit(reply: &Reply) -> bool
    ensures { result ≡ is_committed reply.now.outcome }
{
    match &reply.outcome {
        ReplyOutcome::Committed(_) => true,
        ReplyOutcome::Answered(_) | ReplyOutcome::Repeated(_) | ReplyOutcome::Refused(_) => false,
    }
}

/// Returns the decision of a commit, with the number of the new book, or of the newest one if nothing was committed. `None` is a
/// failed allocation.
fn decision_of(commit: &Commit) -> Option<(Decision, u64)>
    ensures { result ≡ decision_at commit.now }
{
    match commit {
        Commit::Committed(place) => Some((Decision::Committed, *place)),
        Commit::Conflict(place) => Some((Decision::Conflict, *place)),
        Commit::Full(limit, place) => Some((Decision::Full(*limit), *place)),
        Commit::NoMemory => None,
    }
}

/// Commits a ready work, under the call's number. Returns the call's answer, the decision, and the number of the new book, or of
/// the newest one if nothing was committed. `None` is a failed allocation, and no book has changed then.
fn decide(head: &mut Head, number: u64, work: &Work) -> Option<(CallAnswer, Decision, u64)>
    requires whole { HasWholeJournal head.old }
    requires rests { RestsOn (head_domain head.old) head.old.kept work.now }
    requires ready { status_of work.now ≡ Status.Ready }
    ensures none { result ≡ None → IsUnchangedHead head.old head.new }
    ensures some { IfSome result (λ done. IsDecided head.old work.now done.0 done.1 done.2 head.new) }
{
    let Some(replies) = work.replies() else {
        unreachable!()
    };
    let Ok(replies) = replies.clone() else {
        return None;
    };
    let outcome = head.commit(0, number, work);
    let (decision, place) = decision_of(&outcome)?;
    match outcome.answer(replies) {
        Ok(answer) => Some((answer, decision, place)),
        Err(AllocError) => None,
    }
}
