//! What is the state of the walk to an agent's authorised entries?

ghost use Rattle.std.specs.Prelude.{◌≡◌, ◌∷◌, [], IfOk};
ghost use Rattle.std.specs.List.{list_all};
ghost use Rattle.entry_book.specs.Order.{Ascending};
ghost use Rattle.entry_book.specs.Rows.{Entry as EntryRow};
ghost use Rattle.batch_work.specs.Reads.{is_one_of};

use crate::arrivals::{arrivals_of, put_arrivals};
use crate::sorted::has;
use entry_book::{Agent, Entry, Shared, both};
use spiffe_name::SpiffeId;
use std::alloc::{AllocError, Global};
use std::marker::Model;

/// The state of a walk.
#[derive(Drop)]
struct WalkParts {
    agent: Agent,
    /// The identities met, including the agent's own ID, in order.
    met: Vec<Shared<SpiffeId>>,
    /// Those of them that are pending: their children are still to be read. They are in order.
    pending: Vec<Shared<SpiffeId>>,
    /// The entries found, in the order of their ids.
    found: Vec<Entry>,
}

/// The walk to an agent's authorised entries. It begins with the aliases that the agent holds and the agent's own children. It
/// goes on to the children of each identity that it meets, each once, the least first. It is one word long, because each step
/// moves it.
#[derive(Drop)]
pub(crate) struct Walk {
    parts: Box<WalkParts>,
}

impl Model for Walk {
    ghost use Rattle.entry_book.specs.Order.{Ascending};
    ghost use Rattle.entry_book.specs.Rows.{entry_key};
    ghost use Rattle.batch_work.specs.WalkStates.{WalkState};

    ghost Value = { WalkState };

    ghost view = { λ walk. record {
      agent = walk.parts.value.agent;
      met = walk.parts.value.met.items;
      pending = walk.parts.value.pending.items;
      found = walk.parts.value.found.items;
    } };

    ghost invariant = { λ walk.
        Ascending (λ id. id) walk.parts.value.met.items
        × Ascending (λ id. id) walk.parts.value.pending.items
        × Ascending entry_key walk.parts.value.found.items };
}

impl Walk {
    ghost use Rattle.std.specs.Prelude.{◌≡◌, [], ◌∷◌, IfOk, IfNone, IfSome, OnOk, OnErr};
    ghost use Rattle.batch_work.specs.WalkStates.{first_walk, is_walk_over, walked};

    /// Makes the walk before its first entry. The error is out of memory.
    pub(crate) fn new(alloc: Global, agent: Agent) -> Result<Walk, AllocError>
        ensures { IfOk result (λ walk. walk ≡ first_walk agent) }
    {
        let met = only(alloc, &agent.id);
        let (agent, met) = both(Ok(agent), met)?;
        let parts = WalkParts {
            agent,
            met,
            pending: Vec::new(alloc),
            found: Vec::new(alloc),
        };
        Ok(Walk {
            parts: Box::new(alloc, parts)?,
        })
    }

    /// Adds the entries of a read, one after another. The error is out of memory, and then nothing has changed.
    pub(crate) fn continues(&mut self, alloc: Global, entries: Vec<Entry>) -> Result<(), AllocError>
        ensures ok { OnOk result (self.new ≡ walked entries.items self.old) }
        ensures err { OnErr result (self.new ≡ self.old) }
    {
        let arrivals = arrivals_of(alloc, entries)?;
        let parts = &mut *self.parts;
        parts.met.reserve(arrivals.len())?;
        parts.pending.reserve(arrivals.len())?;
        parts.found.reserve(arrivals.len())?;
        put_arrivals(
            &mut parts.met,
            &mut parts.pending,
            &mut parts.found,
            arrivals,
        );
        Ok(())
    }

    /// Returns true if adding these entries leaves no pending identity.
    pub(crate) fn ends_with(&self, entries: &[Entry]) -> bool
        ensures { result ≡ is_walk_over (walked entries.now self.now) }
    {
        let parts = &*self.parts;
        match parts.pending.as_slice() {
            [] => are_met(parts.met.as_slice(), entries),
            [_, ..] => false,
        }
    }

    /// Removes and returns the least pending identity, if there is one. Allocates no memory.
    pub(crate) fn take_least(&mut self) -> Option<Shared<SpiffeId>>
        ensures none { IfNone result ((self.old.pending ≡ []) × (self.new ≡ self.old)) }
        ensures some { IfSome result (λ least.
            (self.old.pending ≡ least ∷ self.new.pending)
            × (self.new ≡ record self.old { pending = self.new.pending })) }
    {
        if self.parts.pending.is_empty() {
            return None;
        }
        Some(self.parts.pending.remove(0))
    }

    /// Returns the agent whose entries are searched.
    pub(crate) fn agent(&self) -> &Agent
        ensures { result.now ≡ self.now.agent }
    {
        &self.parts.agent
    }

    /// Returns the entries found, in the order of their ids. Allocates no memory.
    pub(crate) fn into_found(self) -> Vec<Entry>
        ensures { result.items ≡ self.found }
    {
        let WalkParts { found, .. } = Box::into_inner(self.parts);
        found
    }
}

/// A clone copies no text. The error is out of memory.
impl Clone for Walk {
    ghost is_clone = { λ original copy. copy ≡ original };

    fn clone(&self) -> Result<Walk, AllocError> {
        let parts = WalkParts {
            agent: self.parts.agent.clone()?,
            met: self.parts.met.clone()?,
            pending: self.parts.pending.clone()?,
            found: self.parts.found.clone()?,
        };
        Ok(Walk {
            parts: Box::new(*Box::allocator(&self.parts), parts)?,
        })
    }
}

/// Returns a list of this identity alone. The error is out of memory.
fn only(alloc: Global, id: &Shared<SpiffeId>) -> Result<Vec<Shared<SpiffeId>>, AllocError>
    ensures { IfOk result (λ ids. ids.items ≡ id.now ∷ []) }
{
    let mut ids = Vec::new(alloc);
    ids.push(id.clone()?)?;
    Ok(ids)
}

/// Returns true if the identities of all these entries were met.
fn are_met(met: &[Shared<SpiffeId>], entries: &[Entry]) -> bool
    requires order { Ascending (λ id. id) met.now }
    ensures { result ≡ list_all (λ (entry : EntryRow). is_one_of entry.identity met.now) entries.now }
{
    for entry in entries {
        if !has(met, entry.identity()) {
            return false;
        }
    }
    true
}
