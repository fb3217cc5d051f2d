//! Which calls does a machine have, and what does an event do to them?

ghost use Rattle.std.specs.Prelude.{◌≡◌, ◌≤◌, IfOk, OnOk, filter, length, map, nat_lt, not};
ghost use Rattle.indexmap.specs.IndexMap.{spare};
ghost use Rattle.call_machine.specs.Kept.{is_listed_entry, turn_of_entry, with_event};
ghost use Rattle.call_machine.specs.Laws.{number_of_turn};

use crate::slot::Slot;
use call_answers::{Done, KnownCall};
use call_events::{Event, EventRefusal, RefusedEvent};
use commit_head::Head;
use entry_book::Batch;
use indexmap::IndexMap;
use spiffe_name::TrustDomain;
use std::alloc::{AllocError, Global};
use std::marker::Model;

/// The concurrent calls of many callers over one book, advanced by events, one at a time: any list of them, in any order.
/// An event out of turn is refused, handed back, and changes nothing. The model in contracts is a record: the trust domain,
/// the committed batches, the number of accepted events, and the calls in the order of their invokes.
///
/// A machine has at most 4,096 calls. It stores each call for its whole life, with its batch and reply, but no version for
/// a call that is over. As a batch makes at most 2^21 reads, a machine accepts fewer than 2^34 events in its life. An event
/// costs what its work or commit costs, and a hash lookup of the call.
#[derive(Drop)]
pub struct Machine {
    alloc: Global,
    head: Head,
    count: u64,
    calls: IndexMap<u64, Slot>,
}

impl Model for Machine {
    ghost use Rattle.call_machine.specs.Calls.{MachineState};
    ghost use Rattle.call_machine.specs.Kept.{MachineInvariant, state_of};

    ghost Value = { MachineState };

    ghost view = { λ machine. state_of machine.head machine.count machine.calls.entries };

    ghost invariant = { λ machine. MachineInvariant machine.head machine.count machine.calls.entries };
}

impl Machine {
    ghost use Rattle.std.specs.Prelude.{◌≡◌, ◌+◌, ◌⊎◌, List, IfOk, IfErr, OnOk, OnErr, MatchResult, Some};
    ghost use Rattle.entry_book.specs.Rows.{Bytes};
    ghost use Rattle.entry_book.specs.History.{first_books};
    ghost use Rattle.call_events.specs.declared.event.Event.{Event as AnEvent};
    ghost use Rattle.call_machine.specs.Schedules.{EventAnswer, accepted, Headline};
    ghost use Rattle.call_machine.specs.Calls.{call_at, first_machine};
    ghost use Rattle.call_machine.specs.Known.{Reports};
    ghost use Rattle.call_events.specs.declared.event.Event.TheVariants as event;
    ghost use Rattle.call_machine.specs.Kept.{IsRefusalOr};
    ghost use Rattle.call_events.specs.Events.{IsFor};
    ghost use Rattle.call_machine.specs.Machine.{Applies, AreFor, Begins, Commits, Invokes, Replies, Runs, Steps, refusal_of};
    ghost use Rattle.call_machine.specs.Laws.{HoldReplies, IsOrder};

    /// Makes the machine of a trust domain's server, with no calls and the empty book at place 0. The error is out of
    /// memory.
    pub fn new(alloc: Global, domain: TrustDomain) -> Result<Machine, AllocError>
        ensures { IfOk result (λ machine. machine ≡ first_machine domain) }
    {
        Ok(Machine {
            alloc,
            head: Head::new(alloc, domain)?,
            count: 0,
            calls: IndexMap::new(alloc),
        })
    }

    /// Applies one event. Returns its answer, or the event with the reason of its refusal; then nothing has changed. The
    /// batch of an invoke must be of the machine's trust domain.
    pub fn apply(&mut self, event: Event) -> Result<Done, RefusedEvent>
        requires domain { IsFor self.old.domain event }
        ensures { Applies self.old event result self.new }
    {
        match event {
            Event::Invoke(number, batch) => match self.invoke(number, batch) {
                Ok(done) => Ok(done),
                Err((refusal, batch)) => {
                    let event = Event::Invoke(number, batch);
                    Err(RefusedEvent { refusal, event })
                }
            },
            Event::Begin(number) => handed_back(self.begin(number), Event::Begin(number)),
            Event::Step(number) => handed_back(self.step(number), Event::Step(number)),
            Event::Commit(number) => handed_back(self.commit(number), Event::Commit(number)),
            Event::Reply(number) => handed_back(self.reply(number), Event::Reply(number)),
        }
    }

    /// Applies each event in turn, as `apply` does, and returns the answers. The error is out of memory for the list of
    /// answers, and then nothing has changed.
    pub fn run(&mut self, events: Vec<Event>) -> Result<Vec<Result<Done, RefusedEvent>>, AllocError>
        requires domain { AreFor self.old.domain events.items }
        ensures ran { IfOk result (λ answers. Runs self.old events.items answers.items self.new) }
        ensures err { OnErr result (self.new ≡ self.old) }
    {
        let mut answers = Vec::with_capacity(self.alloc, events.len())?;
        for event in events {
            let answer = self.apply(event);
            answers.push(answer).unwrap();
        }
        Ok(answers)
    }

    /// Returns the committed calls, and those that have replied with something other than a conflict, in the order of their
    /// deciding events. The deciding event is the commit for committed batches and refusals by a limit, and the begin for
    /// queries, repeats and other refusals. The error is out of memory.
    pub fn order(&self) -> Result<Vec<u64>, AllocError>
        ensures order { IfOk result (λ order. IsOrder self.now order.items) }
        ensures headline { IfOk result (λ order. (own_domain : Bytes) (events : List AnEvent) (answers : List EventAnswer)
            → Runs (first_machine own_domain) events answers self.now → Headline (accepted events answers) order.items) }
        ensures held { IfOk result (λ order. (own_domain : Bytes) (events : List AnEvent) (answers : List EventAnswer)
            → Runs (first_machine own_domain) events answers self.now → HoldReplies self.now.calls first_books order.items) }
    {
        let mut turns = turns_of(self.alloc, &self.calls)?;
        turns.sort_by_key(|turn| turn.0)?;
        numbers_of(self.alloc, &turns)
    }

    /// Returns what is known of a call; `None` for an unknown one.
    pub fn call(&self, number: u64) -> Option<KnownCall<'_>>
        ensures { Reports (call_at number self.now.calls) result }
    {
        match self.calls.get(&number) {
            Some(slot) => Some(slot.known()),
            None => None,
        }
    }

    /// Adds a call with its batch. If it is refused, the batch is handed back.
    fn invoke(&mut self, number: u64, batch: Batch) -> Result<Done, (EventRefusal, Batch)>
        requires domain { batch.domain ≡ self.old.domain }
        ensures ok { IfOk result (λ done. Invokes self.old number batch done self.new) }
        ensures err { IfErr result (λ r. (r.1 ≡ batch) × IsRefusalOr (refusal_of self.old (event.Invoke number batch)) r.0) }
        ensures is_unchanged { OnErr result (self.new ≡ self.old) }
    {
        // no effect at run time: it brings into the proof that the batch was made for its trust domain
        let _ = batch.ops();
        if self.calls.contains_key(&number) {
            return Err((EventRefusal::CallTaken, batch));
        }
        if is_full(&self.calls) {
            return Err((EventRefusal::TooManyCalls, batch));
        }
        let Ok(copy) = with_room(&mut self.calls, &batch) else {
            return Err((EventRefusal::NoMemory, batch));
        };
        let invoked = self.count + 1;
        let slot = Slot::new(self.alloc, batch, copy, invoked);
        drop(self.calls.insert(number, slot).unwrap());
        self.count = invoked;
        Ok(Done::Invoked(number))
    }

    /// Begins a call's work on the newest book.
    fn begin(&mut self, number: u64) -> Result<Done, EventRefusal>
        ensures ok { IfOk result (λ done. Begins self.old number done self.new) }
        ensures err { IfErr result (IsRefusalOr (refusal_of self.old (event.Begin number))) }
        ensures is_unchanged { OnErr result (self.new ≡ self.old) }
    {
        let turn = self.count + 1;
        let Some(slot) = self.calls.get_mut(&number) else {
            return Err(EventRefusal::UnknownCall);
        };
        let status = match slot.begin(&self.head, turn) {
            Ok(status) => status,
            Err(refusal) => return Err(refusal),
        };
        self.count = turn;
        Ok(Done::Begun(number, self.head.place(), status))
    }

    /// Makes the next read of a call's work.
    fn step(&mut self, number: u64) -> Result<Done, EventRefusal>
        ensures ok { IfOk result (λ done. Steps self.old number done self.new) }
        ensures err { IfErr result (IsRefusalOr (refusal_of self.old (event.Step number))) }
        ensures is_unchanged { OnErr result (self.new ≡ self.old) }
    {
        let Some(slot) = self.calls.get_mut(&number) else {
            return Err(EventRefusal::UnknownCall);
        };
        let (mark, status) = match slot.step() {
            Ok(read) => read,
            Err(refusal) => return Err(refusal),
        };
        self.count += 1;
        Ok(Done::Stepped(number, mark, status))
    }

    /// Commits a call's changes, or decides why not.
    fn commit(&mut self, number: u64) -> Result<Done, EventRefusal>
        ensures ok { IfOk result (λ done. Commits self.old number done self.new) }
        ensures err { IfErr result (IsRefusalOr (refusal_of self.old (event.Commit number))) }
        ensures is_unchanged { OnErr result (self.new ≡ self.old) }
    {
        let turn = self.count + 1;
        let Some(slot) = self.calls.get_mut(&number) else {
            return Err(EventRefusal::UnknownCall);
        };
        let (decision, place) = match slot.commit(&mut self.head, number, turn) {
            Ok(decided) => decided,
            Err(refusal) => return Err(refusal),
        };
        self.count = turn;
        Ok(Done::Decided(number, decision, place))
    }

    /// Returns a call's answer to the caller, once.
    fn reply(&mut self, number: u64) -> Result<Done, EventRefusal>
        ensures ok { IfOk result (λ done. Replies self.old number done self.new) }
        ensures err { IfErr result (IsRefusalOr (refusal_of self.old (event.Reply number))) }
        ensures is_unchanged { OnErr result (self.new ≡ self.old) }
    {
        let turn = self.count + 1;
        let Some(slot) = self.calls.get_mut(&number) else {
            return Err(EventRefusal::UnknownCall);
        };
        let answer = match slot.reply(turn) {
            Ok(answer) => answer,
            Err(refusal) => return Err(refusal),
        };
        self.count = turn;
        Ok(Done::Answered(number, answer))
    }
}

/// Returns true if a machine has as many calls as it may have.
fn is_full(calls: &IndexMap<u64, Slot>) -> bool
    ensures { nat_lt (length calls.now.entries) 4096 ≡ not result }
{
    calls.len() >= 4_096
}

/// Makes room for one more call, and a copy of its batch. The error is a failed allocation; no call has changed then.
fn with_room(calls: &mut IndexMap<u64, Slot>, batch: &Batch) -> Result<Batch, AllocError>
    ensures entries { calls.new.entries ≡ calls.old.entries }
    ensures room { OnOk result (1 ≤ spare calls.new) }
    ensures copy { IfOk result (λ copy. copy ≡ batch.now) }
{
    calls.reserve(1)?;
    batch.clone()
}

/// Returns the turn of each listed call, the number of its deciding event, with the call's number. The error is out of memory.
fn turns_of(alloc: Global, calls: &IndexMap<u64, Slot>) -> Result<Vec<(u64, u64)>, AllocError>
    ensures { IfOk result (λ turns. turns.items ≡ map turn_of_entry (filter is_listed_entry calls.now.entries)) }
{
    let mut turns = Vec::new(alloc);
    for (number, slot) in calls.iter() {
        if slot.is_listed() {
            turns.push((slot.turn(), *number))?;
        }
    }
    Ok(turns)
}

/// Returns the calls' numbers, in the order of this list. The error is out of memory.
fn numbers_of(alloc: Global, turns: &[(u64, u64)]) -> Result<Vec<u64>, AllocError>
    ensures { IfOk result (λ numbers. numbers.items ≡ map number_of_turn turns.now) }
{
    let mut numbers = Vec::new(alloc);
    for (_, number) in turns {
        numbers.push(*number)?;
    }
    Ok(numbers)
}

/// Adds the event to a refusal.
fn handed_back(answer: Result<Done, EventRefusal>, event: Event) -> Result<Done, RefusedEvent>
    ensures { result ≡ with_event answer event }
{
    match answer {
        Ok(done) => Ok(done),
        Err(refusal) => Err(RefusedEvent { refusal, event }),
    }
}
