//! What does the machine know of a call?

use entry_book::{Batch, CallAnswer};

/// The state of a call: its batch, the numbers of its invoke, of the event that decided it and of its reply, if they were
/// accepted, and its answer.
#[derive(Drop)]
pub struct KnownCall<'a> {
    /// The batch that was submitted.
    pub batch: &'a Batch,
    /// The number of its invoke among the accepted events, counted from 1.
    pub invoked: u64,
    /// The number of its begin if the call settled, or of its commit if that was committed or full. A conflict has none.
    pub decided: Option<u64>,
    /// The number of its reply, if it has replied.
    pub replied: Option<u64>,
    /// Its answer, whether the call has replied or not; `None` before it has one.
    pub answer: Option<&'a CallAnswer>,
}
