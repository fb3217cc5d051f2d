//! What has one caller seen, and which answers does it get?

ghost use Rattle.std.specs.Prelude.{◌≡◌, ◌<◌, ◌+◌, ◌++◌, ◌∷◌, ◌^◌, [], length, IfOk, IsSome, MatchBool, MatchResult, true, ◌≢◌};
ghost use mathlib.Core.List.{IsPrefix};
ghost use Rattle.entry_book.specs.Batches.{is_query};
ghost use Rattle.entry_book.specs.History.{books_from, reply_to};
ghost use Rattle.commit_head.specs.Journals.{IsLawfulJournal, batches_of, place_after};
ghost use Rattle.shared_registry.specs.SeatCalls.{calls_of, AllBelow};
ghost use Rattle.shared_registry.specs.Seated.{CaughtUp, DuringCall, MaySeeFound, SawNothingNew};
ghost use Rattle.shared_registry.specs.ShownPrivate.{IsOf};

use crate::gate::{Gate, Point};
use crate::history::{HistoryPrefix, RegistryId};
use crate::published::PublishedValue;
use crate::reading::{SeatReader, SeatView, borrowed_answer};
use crate::run::{begin_work, run_work};
use batch_work::{BorrowedReply, Work};
use commit_head::Item;
use entry_book::{Batch, Reply};
use std::alloc::{AllocError, Global};
use std::marker::Model;
use std::mem::replace;

/// The reply to a query, which owns its rows.
pub type Answer = Reply;

/// Why a query or a batch of changes has no answer.
#[derive(Clone, Copy, Debug, PartialEq, Eq, Drop)]
pub enum NoAnswer {
    /// Memory ran out.
    NoMemory,
    /// The seat couldn't enter the registry, the published state doesn't extend what the seat has seen and learnt, or the history has
    /// calls under the seat's number that are not the seat's own.
    NoEntry,
}

/// The seat couldn't enter the registry, or the history has calls under the seat's number that are not the seat's own.
#[derive(Clone, Copy, Debug, PartialEq, Eq, Drop)]
pub struct NoEntry;

/// What a seat had seen when it asked for news, or all items when a receipt was asked for. The model in contracts is the list of
/// items.
#[derive(Drop)]
pub struct Receipt<J: RegistryId> {
    seen: HistoryPrefix<J>,
}

impl<J: RegistryId> Model for Receipt<J> {
    ghost use Rattle.std.specs.Prelude.{List};
    ghost use Rattle.commit_head.specs.declared.item.Item.{Item};

    ghost Value = { List Item };

    ghost view = { λ r. r.seen };
}

impl<J: RegistryId> Receipt<J> {
    ghost use Rattle.std.specs.Prelude.{◌≡◌, length};

    /// Makes the receipt of a prefix.
    pub(crate) fn of(seen: HistoryPrefix<J>) -> Receipt<J>
        ensures { result ≡ seen }
    {
        Receipt { seen }
    }

    /// Returns the prefix that was seen.
    pub(crate) fn prefix(&self) -> &HistoryPrefix<J>
        ensures { result.now ≡ self.now }
    {
        &self.seen
    }

    /// Returns the number of its items since the first books. If these are the empty book alone, it is the number of the last commit.
    pub fn place(&self) -> u64
        ensures place { result ≡ length self.now }
        ensures lawful { IsLawfulJournal J.first J.domain self.now }
    {
        self.seen.len()
    }
}

/// One caller of a registry: its number, the number of its calls, and what it has seen. The model in contracts has lists of
/// items, which are tokens of the history (see [`HistoryPrefix`]); at run time the seat has their lengths.
///
/// A seat keeps the snapshot that it last found published, or that its own commit published since then. It replaces the snapshot
/// only by one with another number of items.
#[derive(Drop)]
pub struct Seat<J: RegistryId> {
    alloc: Global,
    calls: u64,
    view: SeatView<J>,
}

impl<J: RegistryId> Model for Seat<J> {
    ghost use Rattle.std.specs.Prelude.{◌≡◌, ◌<◌, ◌+◌, length, IsSome};
    ghost use Rattle.shared_registry.specs.SeatCalls.{calls_of, AllBelow};
    ghost use Rattle.shared_registry.specs.Seated.{Seated};
    ghost use Rattle.shared_registry.specs.ShownPrivate.{IsOf};

    ghost Value = { Seated };

    ghost view = { λ s. record { number = s.view.number; calls = s.calls; seen = s.view.seen; learnt = s.view.learnt; own = calls_of s.view.number s.view.seen; found = s.view.snapshot.journal } };

    ghost invariant = { λ s. (s.view.number < 32) × (s.view.count ≡ length (calls_of s.view.number s.view.seen)) × AllBelow (s.calls + 1) (calls_of s.view.number s.view.seen) × IsSome s.view.reader × IsOf J.history J.first J.domain s.view.snapshot };
}

impl<J: RegistryId> Seat<J> {
    ghost use Rattle.std.specs.Prelude.{◌≡◌, ◌<◌, ◌^◌, ◌+◌, ◌++◌, ◌∷◌, [], length, nat_lt, IfOk, MatchResult, true};
    ghost use Rattle.shared_registry.specs.Works.{IsRead};

    /// Returns the number of items since the first books that it has seen. If these are the empty book alone, it is the number of
    /// the last commit that it has seen.
    pub fn place(&self) -> u64
        ensures place { result ≡ length self.now.seen }
        ensures lawful { IsLawfulJournal J.first J.domain self.now.seen }
        ensures own { calls_of self.now.number self.now.seen ≡ self.now.own }
        ensures below { AllBelow (self.now.calls + 1) self.now.own }
    {
        let _number = self.view.number;
        self.view.seen.len()
    }

    /// Returns the prefix that it has seen.
    pub(crate) fn prefix(&self) -> &HistoryPrefix<J>
        ensures { result.now ≡ self.now.seen }
    {
        &self.view.seen
    }

    /// Returns the longest prefix that it has learnt of.
    pub(crate) fn learnt(&self) -> &HistoryPrefix<J>
        ensures { result.now ≡ self.now.learnt }
    {
        &self.view.learnt
    }

    /// Returns its number, below 32.
    pub fn number(&self) -> u32
        ensures { (result ≡ self.now.number) × (result < 32) }
    {
        self.view.number as u32
    }

    /// Returns the number of its calls so far, which is the number of the last one.
    pub fn calls(&self) -> u64
        ensures { result ≡ self.now.calls }
    {
        self.calls
    }

    /// Returns true if it may make another call. A seat makes at most 2^48 calls.
    pub fn has_calls(&self) -> bool
        ensures { result ≡ nat_lt self.now.calls (2 ^ 48) }
    {
        self.calls < 1 << 48
    }

    /// Makes a seat that has seen nothing.
    pub(crate) fn new(
        alloc: Global,
        reader: SeatReader<J>,
        number: usize,
        start: &HistoryPrefix<J>,
        snapshot: PublishedValue,
    ) -> Seat<J>
        requires number { number < 32 }
        requires start { start.now ≡ [] }
        requires snapshot { IsOf J.history J.first J.domain snapshot }
        ensures { (result.seen ≡ []) × (result.learnt ≡ []) × (result.own ≡ []) × (result.calls ≡ 0) }
    {
        Seat {
            alloc,
            calls: 0,
            view: SeatView {
                reader: Some(reader),
                number,
                seen: start.again(),
                count: 0,
                learnt: start.again(),
                snapshot,
            },
        }
    }

    /// Returns the receipt of what it has seen.
    pub(crate) fn receipt(&self) -> Receipt<J>
        ensures { result ≡ self.now.seen }
    {
        Receipt {
            seen: self.view.seen.again(),
        }
    }

    /// Returns true if the published journal, which begins with what the seat has seen, has as many items under the seat's
    /// number as the seat has own calls. They are then the seat's own calls.
    pub(crate) fn has_own(&self, published: &PublishedValue) -> bool
        requires seen { IsPrefix self.now.seen published.now.journal }
        ensures { MatchBool result (calls_of self.now.number published.now.journal ≡ self.now.own) (calls_of self.now.number published.now.journal ≢ self.now.own) }
    {
        published.count(self.view.number) == self.view.count
    }

    /// Advances the seat to a longer journal that contains no further commits of this seat.
    pub(crate) fn see(&mut self, prefix: HistoryPrefix<J>)
        requires seen { IsPrefix self.old.seen prefix }
        requires own { calls_of self.old.number prefix ≡ self.old.own }
        ensures during_call { DuringCall self.old self.new }
        ensures own { self.new.own ≡ self.old.own }
        ensures seen { self.new.seen ≡ prefix }
    {
        self.view.seen = prefix;
    }

    /// Advances the seat to a journal with one more item, which is the seat's own.
    pub(crate) fn see_own(&mut self, prefix: HistoryPrefix<J>, item: &Item)
        requires seen { prefix ≡ self.old.seen ++ item.now ∷ [] }
        requires seat { item.now.seat ≡ self.old.number }
        requires call { item.now.call ≡ self.old.calls }
        ensures during_call { DuringCall self.old self.new }
        ensures own { self.new.own ≡ self.old.own ++ self.old.calls ∷ [] }
        ensures seen { self.new.seen ≡ prefix }
    {
        let _call = item.call;
        let _items = prefix.len();
        self.view.seen = prefix;
        self.view.count += 1;
    }

    /// Replaces the snapshot, and returns the one before.
    pub(crate) fn replace_snapshot(&mut self, snapshot: PublishedValue) -> PublishedValue
        requires snapshot { IsOf J.history J.first J.domain snapshot }
        ensures { self.new ≡ record self.old { found = snapshot.journal } }
    {
        replace(&mut self.view.snapshot, snapshot)
    }

    /// Takes the number of one more call.
    pub(crate) fn take_call(&mut self)
        requires has_calls { self.old.calls < 2 ^ 48 }
        ensures taken { self.new ≡ record self.old { calls = self.old.calls + 1 } }
        ensures below { AllBelow self.new.calls self.new.own }
    {
        self.calls += 1;
    }

    /// Begins a work of the batch on the published state, which the seat has then seen, and makes all its reads. It passes
    /// the gate after its begin. It waits for no other thread.
    pub(crate) fn read<G: Gate>(&mut self, gate: &G, batch: Batch) -> Result<Work, NoAnswer>
        requires domain { batch.domain ≡ J.domain }
        ensures during_call { DuringCall self.old self.new }
        ensures own { self.new.own ≡ self.old.own }
        ensures seen_learnt { IfOk result (λ _. IsPrefix self.old.learnt self.new.seen) }
        ensures read { IfOk result (IsRead J.first J.domain self.new.seen batch) }
    {
        let found = self.view.find();
        let prefix = match found {
            Ok(prefix) => prefix,
            Err(why) => {
                drop(batch);
                return Err(why);
            }
        };
        let _made = batch.ops();
        let _place = prefix.len();
        let _window = self.view.snapshot.window();
        let Ok(work) = begin_work(self.alloc, &self.view.snapshot, batch) else {
            return Err(NoAnswer::NoMemory);
        };
        self.view.seen = prefix;
        gate.pass(Point::AfterBegin, self.view.number as u32, self.calls);
        match run_work(&self.view.snapshot, work) {
            Ok(work) => Ok(work),
            Err(AllocError) => Err(NoAnswer::NoMemory),
        }
    }

    /// Looks at the published state, for a query, which counts as one call. The seat may then answer on what it has found,
    /// and see it. It waits for no other thread.
    pub fn look(&mut self) -> Result<(), NoAnswer>
        requires has_calls { self.old.calls < 2 ^ 48 }
        ensures found { IfOk result (λ _. MaySeeFound J.first J.domain self.new) }
        ensures is_unchanged { SawNothingNew J.first J.domain self.old self.new }
        ensures own { self.new.own ≡ self.old.own }
    {
        let _before = self.view.seen.len();
        self.calls += 1;
        let found = self.view.find();
        match found {
            Ok(prefix) => {
                let _after = prefix.len();
                Ok(())
            }
            Err(why) => Err(why),
        }
    }

    /// Returns the answer to a query, on the books of what the seat has found; the answer borrows its rows from the seat.
    /// The seat must have found it by a look or by its own commit. It waits for no other thread. The only error is a failed
    /// allocation.
    pub fn answer(&self, batch: &Batch) -> Result<BorrowedReply<'_>, AllocError>
        requires found { MaySeeFound J.first J.domain self.now }
        requires query { is_query batch.now.ops ≡ true }
        requires domain { batch.now.domain ≡ J.domain }
        ensures answer { IfOk result (λ reply. reply ≡ reply_to batch.now (books_from J.first (batches_of self.now.found))) }
        ensures place { IfOk result (λ reply. reply.place ≡ place_after J.first self.now.found) }
    {
        borrowed_answer::<J>(self.alloc, &self.view.snapshot, batch)
    }

    /// Lets the seat see what it has found. Takes no memory.
    pub fn see_found(&mut self)
        requires found { MaySeeFound J.first J.domain self.old }
        ensures { self.new ≡ record self.old { seen = self.old.found } }
    {
        self.view.seen = self.view.snapshot.prefix();
    }

    /// Returns the answer to a query, on the books of what is then seen. The answer owns its rows. It waits for no other
    /// thread.
    pub fn query(&mut self, batch: &Batch) -> Result<Answer, NoAnswer>
        requires has_calls { self.old.calls < 2 ^ 48 }
        requires query { is_query batch.now.ops ≡ true }
        requires domain { batch.now.domain ≡ J.domain }
        ensures answer { IfOk result (λ reply. reply ≡ reply_to batch.now (books_from J.first (batches_of self.new.seen))) }
        ensures place { IfOk result (λ reply. reply.place ≡ place_after J.first self.new.seen) }
        ensures entered { MatchResult result (λ _. CaughtUp J.first J.domain self.old self.new) (λ _. SawNothingNew J.first J.domain self.old self.new) }
        ensures own { self.new.own ≡ self.old.own }
    {
        self.look()?;
        match self.owned_answer(batch) {
            Ok(reply) => {
                self.see_found();
                Ok(reply)
            }
            Err(AllocError) => Err(NoAnswer::NoMemory),
        }
    }

    /// Returns the answer to a query, on the books of what the seat has found. The answer owns its rows. The only error is
    /// a failed allocation.
    fn owned_answer(&self, batch: &Batch) -> Result<Answer, AllocError>
        requires found { MaySeeFound J.first J.domain self.now }
        requires query { is_query batch.now.ops ≡ true }
        requires domain { batch.now.domain ≡ J.domain }
        ensures answer { IfOk result (λ reply. reply ≡ reply_to batch.now (books_from J.first (batches_of self.now.found))) }
        ensures place { IfOk result (λ reply. reply.place ≡ place_after J.first self.now.found) }
    {
        let borrowed = self.answer(batch)?;
        let reply = borrowed.to_owned(self.alloc);
        drop(borrowed);
        reply
    }

    /// Makes later queries and submits begin with what the receipt's seat had seen. It waits for no other thread and takes
    /// no memory.
    pub fn learn(&mut self, receipt: &Receipt<J>)
        ensures learnt { IsPrefix receipt.now self.new.learnt × IsPrefix self.old.learnt self.new.learnt }
        ensures seen { (self.new.seen ≡ self.old.seen) × (self.new.own ≡ self.old.own) × (self.new.number ≡ self.old.number) × (self.new.calls ≡ self.old.calls) × (self.new.found ≡ self.old.found) }
    {
        self.view.learnt = self.view.learnt.longer(&receipt.seen);
    }
}
