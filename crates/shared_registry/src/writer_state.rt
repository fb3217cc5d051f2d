//! Which state does the registry's writer lock guard?

ghost use Rattle.std.specs.Prelude.{◌≡◌, [], IfErr, IfOk, MatchResult};
ghost use mathlib.Core.List.{IsPrefix};
ghost use Rattle.batch_work.specs.Working.{status_of};
ghost use Rattle.entry_book.specs.History.{first_books};
ghost use Rattle.commit_head.specs.Journals.{IsLawfulJournal};
ghost use Rattle.shared_registry.specs.OutcomesPrivate.{HandsOut, IsCommitOutcome, IsMisnumbered};
ghost use Rattle.shared_registry.specs.Seated.{DuringCall};
ghost use Rattle.shared_registry.specs.SeatCalls.{AllBelow};
ghost use Rattle.shared_registry.specs.Works.{IsRead};

use crate::closed::ClosedRegistry;
use crate::commit::{checkpoint_if_full, decide};
use crate::history::{History, HistoryPrefix, RegistryId};
use crate::published::{PublishedValue, opening};
use crate::recent::{Recent, Replaced};
use crate::rule::{PublishedRule, View};
use crate::seat::{NoEntry, Receipt, Seat};
use batch_work::{Status, Work};
use commit_head::{Commit, Head, Item};
use left_right::writer::Writer;
use spiffe_name::TrustDomain;
use std::alloc::{AllocError, Global};
use std::marker::Model;
use std::mem::replace;
use std::sync::Wait;

/// The writer of the published value.
pub(crate) type PublishedWriter<J> = Writer<PublishedValue, PublishedValue, View, PublishedRule<J>>;

/// Why a caller got no seat: all seats of the registry are given, no reader is available, or a reference count can't grow.
#[derive(Clone, Copy, Debug, PartialEq, Eq, Drop)]
pub struct NoSeat;

/// State guarded by the registry's writer lock: the head, the writer, the published states of the last commits, the items of the
/// last checkpoint that are still to be dropped, the number of seats given, that of all seats, and the history with the right to
/// append to it. The model in contracts is the list of all items of the history. Whenever nobody holds the lock, all of them are
/// published.
pub(crate) struct WriterState<J: RegistryId> {
    alloc: Global,
    head: Head,
    writer: Option<PublishedWriter<J>>,
    recent: Recent,
    older: Vec<Item>,
    seats: usize,
    most: usize,
    start: HistoryPrefix<J>,
    history: History<J>,
}

impl<J: RegistryId> Model for WriterState<J> {
    ghost use Rattle.std.specs.Prelude.{◌≡◌, ◌≤◌, List, [], IsSome, IfSome, drop, vec_capacity};
    ghost use Rattle.commit_head.specs.declared.item.Item.{Item};
    ghost use Rattle.shared_registry.specs.WriterStates.{IsPublished, IsTied};

    ghost Value = { List Item };

    ghost view = { λ c. c.history };

    ghost invariant = { λ c. IsTied J.first J.domain c.history c.head × (64 ≤ vec_capacity c.older) × (c.most ≤ 32) × (c.start ≡ []) × IsSome c.writer × IfSome c.writer (λ w. IsPublished J.history J.first J.domain c.history w.desk.shown.value × (drop w.behind w.log.items ≡ [])) };
}

impl<J: RegistryId> WriterState<J> {
    ghost use Rattle.std.specs.Prelude.{◌≡◌, ◌≤◌, ◌<◌, [], IfOk};

    /// Makes the state of an empty book of the trust domain, with this number of seats. The error is out of memory.
    pub(crate) fn new(
        alloc: Global,
        domain: TrustDomain,
        history: History<J>,
        most: usize,
    ) -> Result<WriterState<J>, AllocError>
        requires history { history ≡ [] }
        requires first { J.first ≡ first_books }
        requires domain { domain ≡ J.domain }
        requires most { (0 < most) × (most ≤ 32) }
        ensures { IfOk result (λ c. c ≡ []) }
    {
        let head = Head::new(alloc, domain)?;
        let start = history.prefix();
        let first = opening(alloc, &start, &head)?;
        let second = first.clone()?;
        let recent = Recent::none(alloc)?;
        let older = Vec::with_capacity(alloc, 64)?;
        let writer = PublishedWriter::<J>::new(alloc, first, second, most)?;
        Ok(WriterState {
            alloc,
            head,
            writer: Some(writer),
            recent,
            older,
            seats: 0,
            most,
            start,
            history,
        })
    }

    /// Returns the next seat, which has seen nothing.
    pub(crate) fn seat(&mut self) -> Result<Seat<J>, NoSeat>
        ensures same { self.new ≡ self.old }
        ensures seat { IfOk result (λ s. (s.seen ≡ []) × (s.learnt ≡ []) × (s.own ≡ []) × (s.calls ≡ 0)) }
    {
        let Some(writer) = &self.writer else {
            unreachable!()
        };
        let number = self.seats;
        if number >= self.most {
            return Err(NoSeat);
        }
        let Ok(snapshot) = writer.published().clone() else {
            return Err(NoSeat);
        };
        let Ok(reader) = writer.factory().reader() else {
            return Err(NoSeat);
        };
        let seat = Seat::new(self.alloc, reader, number, &self.start, snapshot);
        self.seats = number + 1;
        Ok(seat)
    }

    /// Lets the seat see every item so far, and returns the receipt of that.
    pub(crate) fn news(&mut self, seat: &mut Seat<J>) -> Result<Receipt<J>, NoEntry>
        ensures same { self.new ≡ self.old }
        ensures during_call { DuringCall seat.old seat.new }
        ensures own { seat.new.own ≡ seat.old.own }
        ensures seen_learnt { IfOk result (λ _. IsPrefix seat.old.learnt seat.new.seen) }
        ensures seen { MatchResult result (λ r. (r ≡ seat.new.seen) × (r ≡ self.old)) (λ _. seat.new.seen ≡ seat.old.seen) }
        ensures no_entry { IfErr result (λ _. IsMisnumbered self.old seat.old) }
    {
        let Some(writer) = &self.writer else {
            unreachable!()
        };
        self.history.has_all(seat.prefix());
        self.history.has_all(seat.learnt());
        if !seat.has_own(writer.published()) {
            return Err(NoEntry);
        }
        seat.see(self.history.prefix());
        Ok(seat.receipt())
    }

    /// Returns the receipt of every item so far.
    pub(crate) fn receipt(&mut self, seat: &Seat<J>) -> Receipt<J>
        ensures same { self.new ≡ self.old }
        ensures all { result ≡ self.old }
        ensures lawful { IsLawfulJournal J.first J.domain result }
        ensures seen { IsPrefix seat.now.seen result }
        ensures learnt { IsPrefix seat.now.learnt result }
    {
        let seen = seat.prefix();
        self.history.has_all(seen);
        let learnt = seat.learnt();
        self.history.has_all(learnt);
        let prefix = self.history.prefix();
        let _place = prefix.len();
        Receipt::of(prefix)
    }

    /// Lets the seat see all items so far, and commits a ready work as the seat's call, or returns why not. What a commit
    /// has replaced is returned, to be dropped without the lock.
    pub(crate) fn commit<R: Wait>(
        &mut self,
        rt: &R,
        seat: &mut Seat<J>,
        work: &Work,
    ) -> (Result<Commit, NoEntry>, Option<Replaced>)
        requires call { AllBelow seat.old.calls seat.old.own }
        requires ready { status_of work.now ≡ Status.Ready }
        requires read { IsRead J.first J.domain seat.old.seen work.now.batch work.now }
        ensures during_call { DuringCall seat.old seat.new }
        ensures decided { IsCommitOutcome J.first self.old self.new seat.old seat.new work.now result.0 }
        ensures handed_out { HandsOut result.0 result.1 }
    {
        let Some(writer) = self.writer.take() else {
            unreachable!()
        };
        checkpoint_if_full(&mut self.head, &mut self.older);
        let (writer, decided, before) = decide(
            rt,
            self.alloc,
            &mut self.history,
            &mut self.head,
            writer,
            seat,
            work,
        );
        let replaced = self
            .recent
            .replace(writer.published(), before, &mut self.older);
        match replace(&mut self.writer, Some(writer)) {
            None => {}
            Some(_other) => unreachable!(),
        }
        (decided, replaced)
    }

    /// Returns the number of stored items of the journal, at most 4,096.
    pub(crate) fn kept(&self) -> u64
        ensures { result ≤ 4096 }
    {
        self.head.kept()
    }

    /// Ends the writer, and returns what was published last, with the history.
    pub(crate) fn close<R: Wait>(self, rt: &R) -> ClosedRegistry<J>
        ensures { result ≡ self }
    {
        let WriterState {
            alloc: _,
            head: _,
            writer,
            recent: _,
            older: _,
            seats: _,
            most: _,
            start: _,
            history,
        } = self;
        let Some(writer) = writer else { unreachable!() };
        ClosedRegistry::of(history, writer.take(rt))
    }
}
