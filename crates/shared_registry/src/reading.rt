//! How does a seat look at the published state, and answer a query on it?

ghost use Rattle.std.specs.Prelude.{◌≡◌, ◌<◌, length, unwrap_or, Err, IfErr, IfOk, IfSome, IsSome, IsTrue, Ok, true};
ghost use mathlib.Core.List.{IsPrefix};
ghost use Rattle.entry_book.specs.Batches.{is_query};
ghost use Rattle.entry_book.specs.History.{books_from, reply_to};
ghost use Rattle.commit_head.specs.Journals.{batches_of, place_after};
ghost use Rattle.shared_registry.specs.SeatCalls.{calls_of};
ghost use Rattle.shared_registry.specs.ShownPrivate.{IsOf};

use crate::history::{HistoryPrefix, RegistryId};
use crate::published::PublishedValue;
use crate::rule::{PublishedRule, Sees, View};
use crate::seat::{NoAnswer, NoEntry};
use batch_work::{BorrowedReply, answer};
use entry_book::Batch;
use left_right::reader::Reader;
use std::alloc::{AllocError, Global};
use std::mem::replace;

/// A reader of the published value.
pub(crate) type SeatReader<J> = Reader<PublishedValue, View, PublishedRule<J>>;

/// What a look has found: a copy of the published value, if that has another number of items than the snapshot. The inner error is
/// that a reference count can't grow, the outer one that the reader can't enter.
type Found = Result<Result<Option<PublishedValue>, AllocError>, NoEntry>;

/// Replaces the snapshot by the newer one, if a look has found one, and drops the one before. With an error, the snapshot is
/// unchanged.
fn replace_snapshot<J: RegistryId>(
    snapshot: &mut PublishedValue,
    found: Found,
) -> Result<(), NoAnswer>
    requires snapshot { IsOf J.history J.first J.domain snapshot.old }
    requires found { IfOk found (λ copied. IfOk copied (λ newer. IfSome newer (IsOf J.history J.first J.domain))) }
    ensures snapshot { IsOf J.history J.first J.domain snapshot.new }
    ensures replaced { IfOk found (λ copied. IfOk copied (λ newer. (result ≡ Ok tt) × (snapshot.new ≡ unwrap_or newer snapshot.old))) }
    ensures no_memory { IfOk found (λ copied. IfErr copied (λ _. (result ≡ Err NoAnswer.NoMemory) × (snapshot.new ≡ snapshot.old))) }
    ensures no_entry { IfErr found (λ _. (result ≡ Err NoAnswer.NoEntry) × (snapshot.new ≡ snapshot.old)) }
{
    match found {
        Ok(Ok(None)) => Ok(()),
        Ok(Ok(Some(newer))) => {
            drop(replace(snapshot, newer));
            Ok(())
        }
        Ok(Err(AllocError)) => Err(NoAnswer::NoMemory),
        Err(NoEntry) => Err(NoAnswer::NoEntry),
    }
}

/// Looks once at the published state, and copies it if it has another number of items than the snapshot.
fn look<J: RegistryId>(reader: SeatReader<J>, snapshot: &PublishedValue) -> (SeatReader<J>, Found)
    ensures { IfOk result.1 (λ copied. IfOk copied (λ newer. IfSome newer (IsOf J.history J.first J.domain))) }
{
    match reader.enter_as::<Sees<J>>() {
        Ok(reading) => {
            let newer = reading.get().newer(snapshot);
            (reading.leave(), Ok(newer))
        }
        Err(reader) => (reader, Err(NoEntry)),
    }
}

/// Returns true if the published journal continues what a seat has seen and what it has learnt, and has this many of its calls.
fn continues<J: RegistryId>(
    published: &PublishedValue,
    seen: &HistoryPrefix<J>,
    learnt: &HistoryPrefix<J>,
    number: usize,
    count: u64,
) -> bool
    requires number { number < 32 }
    requires snapshot { IsOf J.history J.first J.domain published.now }
    ensures seen { IsTrue result → IsPrefix seen.now published.now.journal }
    ensures learnt { IsTrue result → IsPrefix learnt.now published.now.journal }
    ensures count { IsTrue result → length (calls_of number published.now.journal) ≡ count }
{
    let prefix: HistoryPrefix<J> = published.prefix();
    published.count(number) == count && seen.begins(&prefix) && learnt.begins(&prefix)
}

/// What a seat looks with: its reader, which a look takes and puts back, its number, what it has seen, with the number of its own
/// calls among that, what it has learnt of, and the snapshot that it last found.
#[derive(Drop)]
pub(crate) struct SeatView<J: RegistryId> {
    pub(crate) reader: Option<SeatReader<J>>,
    pub(crate) number: usize,
    pub(crate) seen: HistoryPrefix<J>,
    pub(crate) count: u64,
    pub(crate) learnt: HistoryPrefix<J>,
    pub(crate) snapshot: PublishedValue,
}

impl<J: RegistryId> SeatView<J> {
    ghost use Rattle.std.specs.Prelude.{◌≡◌, ◌<◌, length, IfOk, IsSome};

    /// Looks, and returns the published journal. The error is `NoEntry` if the reader isn't let in, or if the journal doesn't begin with
    /// what the seat has seen and learnt of, or has another number of its calls; or memory ran out.
    pub(crate) fn find(&mut self) -> Result<HistoryPrefix<J>, NoAnswer>
        requires reader { IsSome self.old.reader }
        requires number { self.old.number < 32 }
        requires snapshot { IsOf J.history J.first J.domain self.old.snapshot }
        ensures reader { IsSome self.new.reader }
        ensures snapshot { IsOf J.history J.first J.domain self.new.snapshot }
        ensures same { self.new ≡ record self.old { reader = self.new.reader; snapshot = self.new.snapshot } }
        ensures found { IfOk result (λ prefix. prefix ≡ self.new.snapshot.journal) }
        ensures seen { IfOk result (λ prefix. IsPrefix self.old.seen prefix) }
        ensures learnt { IfOk result (λ prefix. IsPrefix self.old.learnt prefix) }
        ensures count { IfOk result (λ prefix. length (calls_of self.old.number prefix) ≡ self.old.count) }
    {
        let Some(entering) = self.reader.take() else {
            unreachable!()
        };
        let (left, found) = look(entering, &self.snapshot);
        self.reader = Some(left);
        replace_snapshot::<J>(&mut self.snapshot, found)?;
        if continues(
            &self.snapshot,
            &self.seen,
            &self.learnt,
            self.number,
            self.count,
        ) {
            Ok(self.snapshot.prefix())
        } else {
            Err(NoAnswer::NoEntry)
        }
    }
}

/// Returns the answer to a query on the published state, which borrows the rows. The error is out of memory.
pub(crate) fn borrowed_answer<'a, J: RegistryId>(
    alloc: Global,
    snapshot: &'a PublishedValue,
    batch: &Batch,
) -> Result<BorrowedReply<'a>, AllocError>
    requires query { is_query batch.now.ops ≡ true }
    requires domain { batch.now.domain ≡ J.domain }
    requires snapshot { IsOf J.history J.first J.domain snapshot.now }
    ensures answer { IfOk result (λ reply. reply ≡ reply_to batch.now (books_from J.first (batches_of snapshot.now.journal))) }
    ensures place { IfOk result (λ reply. reply.place ≡ place_after J.first snapshot.now.journal) }
{
    let _ = batch.ops();
    answer(alloc, batch, snapshot.window())
}
