//! What is the state of the walk to an agent's authorised entries, over entries that are borrowed from a version?

ghost use Rattle.std.specs.Prelude.{◌≡◌, OnOk};
ghost use Rattle.entry_book.specs.Order.{Ascending};
ghost use Rattle.batch_work.specs.Reads.{is_one_of};
ghost use Rattle.batch_work.specs.WalkStates.{met_when};

use crate::sorted::put;
use entry_book::{Agent, Entry, Shared};
use spiffe_name::SpiffeId;
use std::alloc::{AllocError, Global};
use std::marker::Model;
use version_book::Borrowed;

/// The number of entries and identities for which room is reserved at the start. Most agents have no more.
const FEW: usize = 16;

/// An identity of a borrowed entry.
type BorrowedId<'a> = Borrowed<'a, Shared<SpiffeId>>;

/// The walk of a read-only batch. It has the same states as that of a work, but borrows all of its rows, and so changes no
/// reference count.
#[derive(Drop)]
pub(crate) struct BorrowedWalk<'a> {
    agent: &'a Agent,
    /// The identities met, including the agent's own ID, in order.
    met: Vec<BorrowedId<'a>>,
    /// Those of them that are pending: their children are still to be read. They are in order.
    pending: Vec<BorrowedId<'a>>,
    /// The entries found, in the order of their ids.
    found: Vec<Borrowed<'a, Entry>>,
}

impl<'a> Model for BorrowedWalk<'a> {
    ghost use Rattle.entry_book.specs.Order.{Ascending};
    ghost use Rattle.entry_book.specs.Rows.{entry_key};
    ghost use Rattle.batch_work.specs.WalkStates.{WalkState};

    ghost Value = { WalkState };

    ghost view = { λ walk. record {
      agent = walk.agent.now;
      met = walk.met.items;
      pending = walk.pending.items;
      found = walk.found.items;
    } };

    ghost invariant = { λ walk.
        Ascending (λ id. id) walk.met.items
        × Ascending (λ id. id) walk.pending.items
        × Ascending entry_key walk.found.items };
}

impl<'a> BorrowedWalk<'a> {
    ghost use Rattle.std.specs.Prelude.{◌≡◌, [], ◌∷◌, IfOk, IfNone, IfSome, OnOk};
    ghost use Rattle.batch_work.specs.WalkStates.{first_walk, walked, with_found};

    /// Makes the walk before its first entry. The error is out of memory.
    pub(crate) fn new(alloc: Global, agent: &'a Agent) -> Result<BorrowedWalk<'a>, AllocError>
        ensures { IfOk result (λ walk. walk ≡ first_walk agent.now) }
    {
        let mut met = Vec::with_capacity(alloc, FEW)?;
        met.push(Borrowed::of(&agent.id))?;
        Ok(BorrowedWalk {
            agent,
            met,
            pending: Vec::with_capacity(alloc, FEW)?,
            found: Vec::with_capacity(alloc, FEW)?,
        })
    }

    /// Adds an entry. The error is out of memory; then nothing is guaranteed about the sets.
    fn takes_in(&mut self, entry: Borrowed<'a, Entry>) -> Result<(), AllocError>
        ensures { OnOk result (self.new ≡ with_found entry.entry self.old) }
    {
        put_met(&mut self.met, &mut self.pending, entry.get().identity())?;
        put(&mut self.found, entry)?;
        Ok(())
    }

    /// Adds the entries of a read, one after another. The error is out of memory; then nothing is guaranteed about the sets.
    pub(crate) fn continues(&mut self, entries: Vec<Borrowed<'a, Entry>>) -> Result<(), AllocError>
        ensures { OnOk result (self.new ≡ walked entries.entry.items self.old) }
    {
        for entry in entries {
            self.takes_in(entry)?;
        }
        Ok(())
    }

    /// Removes and returns the least pending identity, if there is one. Allocates no memory.
    pub(crate) fn take_least(&mut self) -> Option<BorrowedId<'a>>
        ensures none { IfNone result ((self.old.pending ≡ []) × (self.new ≡ self.old)) }
        ensures some { IfSome result (λ least.
            (self.old.pending ≡ least ∷ self.new.pending)
            × (self.new ≡ record self.old { pending = self.new.pending })) }
    {
        if self.pending.is_empty() {
            return None;
        }
        Some(self.pending.remove(0))
    }

    /// Returns the entries found, in the order of their ids. Allocates no memory.
    pub(crate) fn into_found(self) -> Vec<Borrowed<'a, Entry>>
        ensures { result.items ≡ self.entry.found }
    {
        self.found
    }
}

/// Adds the identity to those met and to the pending ones, if it wasn't met yet. The error is out of memory.
fn put_met<'a>(
    met: &mut Vec<BorrowedId<'a>>,
    pending: &mut Vec<BorrowedId<'a>>,
    identity: &'a Shared<SpiffeId>,
) -> Result<(), AllocError>
    requires met_order { Ascending (λ id. id) met.old.items }
    requires pending_order { Ascending (λ id. id) pending.old.items }
    ensures met { OnOk result (met.new.items ≡ met_when (is_one_of identity.now met.old.items) identity.now met.old.items) }
    ensures pending { OnOk result (pending.new.items ≡ met_when (is_one_of identity.now met.old.items) identity.now pending.old.items) }
    ensures order { Ascending (λ id. id) met.new.items × Ascending (λ id. id) pending.new.items }
{
    if put(met, Borrowed::of(identity))? {
        put(pending, Borrowed::of(identity))?;
    }
    Ok(())
}
