//! What is left of a registry that was closed?

ghost use Rattle.std.specs.Prelude.{◌≡◌, IfOk, length, true};
ghost use mathlib.Core.List.{IsPrefix};
ghost use Rattle.commit_head.specs.Journals.{IsLawfulJournal, batches_of, place_after};
ghost use Rattle.entry_book.specs.Batches.{is_query};
ghost use Rattle.entry_book.specs.History.{books_from, reply_to};
ghost use Rattle.shared_registry.specs.WriterStates.{IsPublished};

use crate::history::{History, RegistryId};
use crate::published::PublishedValue;
use crate::reading::borrowed_answer;
use crate::seat::{Receipt, Seat};
use batch_work::BorrowedReply;
use entry_book::Batch;
use std::alloc::{AllocError, Global};
use std::marker::Model;

/// What is left of a registry that was closed: the value that was published last, and the history, of which it shows all items.
/// The model in contracts is the journal of that value. That it was published is no clause, but an invariant of the registry.
#[derive(Drop)]
pub struct ClosedRegistry<J: RegistryId> {
    history: History<J>,
    published: Box<PublishedValue>,
}

impl<J: RegistryId> Model for ClosedRegistry<J> {
    ghost use Rattle.std.specs.Prelude.{List};
    ghost use Rattle.commit_head.specs.declared.item.Item.{Item};
    ghost use Rattle.shared_registry.specs.WriterStates.{IsPublished};

    ghost Value = { List Item };

    ghost view = { λ c. c.published.value.journal };

    ghost invariant = { λ c. IsPublished J.history J.first J.domain c.history c.published.value };
}

impl<J: RegistryId> ClosedRegistry<J> {
    ghost use Rattle.std.specs.Prelude.{◌≡◌, IfOk, length, true};

    /// Makes it of the history and the value that was published last.
    pub(crate) fn of(history: History<J>, published: Box<PublishedValue>) -> ClosedRegistry<J>
        requires { IsPublished J.history J.first J.domain history published.value }
        ensures { result ≡ history }
    {
        ClosedRegistry { history, published }
    }

    /// Returns the number of its commits since the first books. If these are the empty book alone, it is the number of the last
    /// commit.
    pub fn place(&self) -> u64
        ensures place { result ≡ length self.now }
        ensures lawful { IsLawfulJournal J.first J.domain self.now }
    {
        self.published.prefix::<J>().len()
    }

    /// Returns the answer to a query on its books; the answer borrows its rows. The only error is a failed allocation.
    pub fn answer(&self, alloc: Global, batch: &Batch) -> Result<BorrowedReply<'_>, AllocError>
        requires query { is_query batch.now.ops ≡ true }
        requires domain { batch.now.domain ≡ J.domain }
        ensures answer { IfOk result (λ reply. reply ≡ reply_to batch.now (books_from J.first (batches_of self.now))) }
        ensures place { IfOk result (λ reply. reply.place ≡ place_after J.first self.now) }
    {
        borrowed_answer::<J>(alloc, &self.published, batch)
    }

    /// Whatever the seat has seen is a prefix of this journal. The contract is the theorem, and the call changes nothing.
    pub fn shows(&mut self, seat: &Seat<J>)
        ensures same { self.new ≡ self.old }
        ensures all { IsPrefix seat.now.seen self.old }
    {
        self.history.has_all(seat.prefix());
    }

    /// The same of a receipt.
    pub fn shows_receipt(&mut self, receipt: &Receipt<J>)
        ensures same { self.new ≡ self.old }
        ensures all { IsPrefix receipt.now self.old }
    {
        self.history.has_all(receipt.prefix());
    }
}
