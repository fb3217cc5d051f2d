//! How are the entries of a read added to the sets of a walk?

ghost use Rattle.std.specs.Prelude.{◌≡◌, ◌≤◌, ◌<◌, ◌+◌, IfOk, Some, length, vec_len};
ghost use Rattle.std.specs.Vec.{vec_capacity};
ghost use Rattle.entry_book.specs.Order.{Ascending, with_row};
ghost use Rattle.entry_book.specs.Rows.{entry_key};
ghost use Rattle.entry_book.specs.declared.agent.Agent.{Agent as AgentRow};
ghost use Rattle.batch_work.specs.Reads.{is_one_of};
ghost use Rattle.batch_work.specs.WalkStates.{met_when, walked};

use crate::sorted::put_reserved;
use entry_book::{Entry, Shared, both};
use spiffe_name::SpiffeId;
use std::alloc::{AllocError, Global};
use std::marker::Model;

/// An entry that is to be added to a walk, with the two references to its identity that the sets of identities may need. The
/// model in contracts is the entry.
#[derive(Drop)]
pub(crate) struct Arrival {
    entry: Entry,
    met: Shared<SpiffeId>,
    pending: Shared<SpiffeId>,
}

impl Model for Arrival {
    ghost use Rattle.std.specs.Prelude.{◌≡◌};
    ghost use Rattle.entry_book.specs.Rows.{Entry};

    ghost Value = { Entry };

    ghost view = { λ arrival. arrival.entry };

    ghost invariant = { λ arrival. (arrival.met ≡ arrival.entry.identity) × (arrival.pending ≡ arrival.entry.identity) };
}

impl Arrival {
    ghost use Rattle.std.specs.Prelude.{◌≡◌, IfOk};

    /// Makes the arrival of an entry. The error is a reference count at its maximum.
    fn of(entry: Entry) -> Result<Arrival, AllocError>
        ensures { IfOk result (λ arrival. arrival ≡ entry) }
    {
        let met: Result<_, _> = entry.identity().clone();
        let pending: Result<_, _> = entry.identity().clone();
        let (entry, (met, pending)) = both(Ok(entry), both(met, pending))?;
        Ok(Arrival {
            entry,
            met,
            pending,
        })
    }
}

/// Makes the arrivals of the entries, in order. The error is out of memory.
pub(crate) fn arrivals_of(alloc: Global, entries: Vec<Entry>) -> Result<Vec<Arrival>, AllocError>
    ensures { IfOk result (λ arrivals. arrivals.items ≡ entries.items) }
{
    let mut arrivals = Vec::new(alloc);
    for entry in entries {
        arrivals.push(Arrival::of(entry)?)?;
    }
    Ok(arrivals)
}

/// Adds an entry to those found. If its identity wasn't met yet, adds it to those met and to the pending ones. The sets have
/// room. Allocates no memory.
fn put_arrival(
    met: &mut Vec<Shared<SpiffeId>>,
    pending: &mut Vec<Shared<SpiffeId>>,
    found: &mut Vec<Entry>,
    arrival: Arrival,
)
    requires met_order { Ascending (λ id. id) met.old.items }
    requires pending_order { Ascending (λ id. id) pending.old.items }
    requires found_order { Ascending entry_key found.old.items }
    requires met_room { vec_len met.old < vec_capacity met.old }
    requires pending_room { vec_len pending.old < vec_capacity pending.old }
    requires found_room { vec_len found.old < vec_capacity found.old }
    ensures met { met.new.items ≡ met_when (is_one_of arrival.identity met.old.items) arrival.identity met.old.items }
    ensures pending { pending.new.items ≡ met_when (is_one_of arrival.identity met.old.items) arrival.identity pending.old.items }
    ensures found { found.new.items ≡ with_row entry_key arrival.id (Some arrival) found.old.items }
    ensures met_len { (vec_len met.new ≤ vec_len met.old + 1) × (vec_capacity met.old ≤ vec_capacity met.new) }
    ensures pending_len { (vec_len pending.new ≤ vec_len pending.old + 1) × (vec_capacity pending.old ≤ vec_capacity pending.new) }
    ensures found_len { (vec_len found.new ≤ vec_len found.old + 1) × (vec_capacity found.old ≤ vec_capacity found.new) }
{
    let Arrival {
        entry,
        met: identity,
        pending: other,
    } = arrival;
    if put_reserved(met, identity) {
        put_reserved(pending, other);
    }
    put_reserved(found, entry);
}

/// Adds entries, one after another, to sets that have room for all of them. Allocates no memory.
pub(crate) fn put_arrivals(
    met: &mut Vec<Shared<SpiffeId>>,
    pending: &mut Vec<Shared<SpiffeId>>,
    found: &mut Vec<Entry>,
    arrivals: Vec<Arrival>,
)
    requires met_order { Ascending (λ id. id) met.old.items }
    requires pending_order { Ascending (λ id. id) pending.old.items }
    requires found_order { Ascending entry_key found.old.items }
    requires met_room { vec_len met.old + length arrivals.items ≤ vec_capacity met.old }
    requires pending_room { vec_len pending.old + length arrivals.items ≤ vec_capacity pending.old }
    requires found_room { vec_len found.old + length arrivals.items ≤ vec_capacity found.old }
    ensures order { Ascending (λ id. id) met.new.items × Ascending (λ id. id) pending.new.items × Ascending entry_key found.new.items }
    ensures walked { (agent : AgentRow) →
        record { agent = agent; met = met.new.items; pending = pending.new.items; found = found.new.items }
        ≡ walked arrivals.items (record { agent = agent; met = met.old.items; pending = pending.old.items; found = found.old.items }) }
{
    for arrival in arrivals {
        put_arrival(met, pending, found, arrival);
    }
}
