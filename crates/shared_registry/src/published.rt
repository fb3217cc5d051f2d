//! Which state is published to all readers?

ghost use Rattle.std.specs.Prelude.{◌≡◌, ◌+◌, ◌≤◌, ◌<◌, ◌^◌, ◌++◌, ◌∷◌, [], length, IfOk, IfSome};
ghost use Rattle.commit_head.specs.Heads.{IsJournal};
ghost use Rattle.shared_registry.specs.SeatCalls.{calls_of};
ghost use Rattle.entry_book.specs.History.{IsFirst};
ghost use Rattle.shared_registry.specs.ShownPrivate.{IsCounted, IsOf, ShowsJournal};

use crate::history::{HistoryPrefix, RegistryId, SeenEntries};
use batch_work::{SharedWindow, Versioned};
use commit_head::{Head, Item};
use entry_book::Shared;
use left_right::Absorb;
use std::alloc::{AllocError, Global};
use std::marker::Model;

/// The published state: the window on which works begin, and the number of commits of each seat.
#[derive(Drop)]
pub(crate) struct PublishedState {
    pub(crate) window: SharedWindow,
    pub(crate) counts: [u64; 32],
}

/// The published value, which the writer publishes and each reader sees: the journal, as a prefix of the history, with the
/// published state that shows it. The model in contracts is its history, its journal and its window. A copy increments one
/// reference count, and is all that a reader makes while it is inside.
#[derive(Drop)]
pub struct PublishedValue {
    items: u64,
    seen: SeenEntries,
    published_state: Shared<PublishedState>,
}

impl Model for PublishedValue {
    ghost use Rattle.std.specs.Prelude.{◌≡◌, length};
    ghost use Rattle.shared_registry.specs.Rules.{items_of};
    ghost use Rattle.shared_registry.specs.Shown.{Shown};
    ghost use Rattle.shared_registry.specs.ShownPrivate.{IsCounted, ShowsSome};

    ghost Value = { Shown };

    ghost view = { λ p. record { history = p.seen.book; journal = items_of p.seen.log; window = p.published_state.window } };

    ghost invariant = { λ p. (p.items ≡ length (items_of p.seen.log)) × ShowsSome (items_of p.seen.log) p.published_state.window × IsCounted p.published_state.counts (items_of p.seen.log) };
}

impl PublishedValue {
    ghost use Rattle.std.specs.Prelude.{◌≡◌, ◌≤◌, ◌^◌, length, IfOk, IfSome};
    ghost use Rattle.shared_registry.specs.ShownPrivate.{IsCounted, IsOf, ShowsJournal};

    /// Makes the published value of the prefix's journal, with the published state that shows it.
    pub(crate) fn of<J: RegistryId>(
        prefix: &HistoryPrefix<J>,
        published_state: Shared<PublishedState>,
    ) -> PublishedValue
        requires shows { ShowsJournal J.first J.domain prefix.now published_state.window }
        requires counted { IsCounted published_state.counts prefix.now }
        ensures of_it { IsOf J.history J.first J.domain result }
        ensures journal { result.journal ≡ prefix.now }
        ensures window { result.window ≡ published_state.window }
    {
        PublishedValue {
            items: prefix.len(),
            seen: prefix.token(),
            published_state,
        }
    }

    /// Returns the journal, as a prefix.
    pub(crate) fn prefix<J: RegistryId>(&self) -> HistoryPrefix<J>
        requires { IsOf J.history J.first J.domain self.now }
        ensures { result ≡ self.now.journal }
    {
        HistoryPrefix::of(self.items, self.seen.again())
    }

    /// Returns the window on which a work begins.
    pub(crate) fn window(&self) -> &SharedWindow
        ensures window { result.now ≡ self.now.window }
        ensures low { self.now.window.newest.number ≤ 2 ^ 48 }
    {
        &self.published_state.get().window
    }

    /// Returns the number of items of this seat in the journal.
    pub(crate) fn count(&self, seat: usize) -> u64
        requires { seat < 32 }
        ensures { result ≡ length (calls_of seat self.now.journal) }
    {
        self.published_state.get().counts[seat]
    }

    /// Returns the published state, with its reference count incremented. The error is that the count can't grow.
    pub(crate) fn published_state(&self) -> Result<Shared<PublishedState>, AllocError> {
        self.published_state.clone()
    }

    /// Returns the counts after one more item of this seat.
    pub(crate) fn counts_with(&self, seat: usize, item: &Item) -> [u64; 32]
        requires seat { (seat < 32) × (item.now.seat ≡ seat) }
        ensures { IsCounted result (self.now.journal ++ item.now ∷ []) }
    {
        let _call = item.call;
        let mut counts = self.published_state.get().counts;
        counts[seat] += 1;
        counts
    }

    /// Returns a clone, if it has another number of items than the older one. The error is that a reference count can't
    /// grow.
    pub(crate) fn newer(&self, older: &PublishedValue) -> Result<Option<PublishedValue>, AllocError>
        ensures { IfOk result (λ o. IfSome o (λ p. p ≡ self.now)) }
    {
        if self.items == older.items {
            return Ok(None);
        }
        Ok(Some(self.clone()?))
    }
}

/// A clone increments one reference count. The error is that this can't grow.
impl Clone for PublishedValue {
    ghost is_clone = { λ original copy. copy ≡ original };

    fn clone(&self) -> Result<PublishedValue, AllocError> {
        Ok(PublishedValue {
            items: self.items,
            seen: self.seen.again(),
            published_state: self.published_state.clone()?,
        })
    }
}

/// Returns the first published value: the head's window, and no item. The error is out of memory.
pub(crate) fn opening<J: RegistryId>(
    alloc: Global,
    prefix: &HistoryPrefix<J>,
    head: &Head,
) -> Result<PublishedValue, AllocError>
    requires prefix { prefix.now ≡ [] }
    requires first { IsFirst J.domain J.first }
    requires domain { head.now.window.newest.domain ≡ J.domain }
    requires head { IsJournal J.first [] head.now }
    requires alone { head.now.window.older ≡ [] }
    ensures { IfOk result (λ p. IsOf J.history J.first J.domain p × (p.journal ≡ [])) }
{
    let newest = head.window().newest().clone()?;
    let published_state = PublishedState {
        window: SharedWindow::of(alloc, newest)?,
        counts: [0; 32],
    };
    Ok(PublishedValue::of(prefix, Shared::of(alloc, published_state)?))
}

/// An operation of the writer replaces the whole value.
impl Absorb<PublishedValue> for PublishedValue {
    type State = PublishedValue;

    ghost state = { λ p. p };

    ghost applied = { λ x p. p };

    fn absorb_first(
        &mut self,
        next: &PublishedValue,
        _other: &PublishedValue,
    ) -> Result<(), AllocError> {
        *self = next.clone()?;
        Ok(())
    }

    fn absorb_second(
        &mut self,
        next: PublishedValue,
        _other: &PublishedValue,
    ) -> Result<(), PublishedValue> {
        *self = next;
        Ok(())
    }
}
