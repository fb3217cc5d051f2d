//! The outcomes of batches, and the state of a seat, as text; and parts of such texts.

use crate::failed::Failed;
use shared_registry::{Outcome, RegistryId, Seat};
use std::alloc::Global;
use test_batches::{kind_at_place, reply_text};

/// The outcome of a batch of changes, or `conflict`, each with its place. If memory ran out or the seat was not admitted, the
/// test can't continue.
pub fn outcome_text(alloc: Global, outcome: &Outcome) -> Result<String, Failed> {
    match outcome {
        Outcome::Committed(reply) | Outcome::Repeated(reply) | Outcome::Refused(reply) => {
            Ok(reply_text(alloc, reply)?)
        }
        Outcome::Conflict(place) => Ok(kind_at_place(alloc, "conflict", *place)?),
        Outcome::NoMemory => Err(Failed("no memory")),
        Outcome::NoEntry => Err(Failed("not let in")),
    }
}

/// A seat's number, the place up to which it has seen, and its number of calls; `at most` if it may make no more.
pub fn seat_text<J: RegistryId>(alloc: Global, seat: &Seat<J>) -> Result<String, Failed> {
    let (number, place, calls) = (seat.number(), seat.place(), seat.calls());
    let most = if seat.has_calls() { "" } else { " at most" };
    Ok(format!(in alloc; "number {number}; place {place}; calls {calls}{most}")?)
}

/// The first word of a reply.
pub fn kind_of(as_text: &str) -> &str {
    as_text.split_once(" ").unwrap_or((as_text, "")).0
}

/// The place of a reply.
pub fn place_of(as_text: &str) -> Result<u64, Failed> {
    let (head, _) = as_text.split_once("; ").unwrap_or((as_text, ""));
    let (_, place) = head.split_once(" at ").unwrap_or((head, ""));
    Ok(place.parse::<u64>()?)
}
