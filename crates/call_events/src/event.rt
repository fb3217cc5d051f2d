//! What are the events of a call, and why is one refused?

use entry_book::Batch;

/// One event of a call. The number is the call's.
#[derive(Drop)]
pub enum Event {
    /// Submits the call's batch.
    Invoke(u64, Batch),
    /// Begins to execute the batch on the newest book.
    Begin(u64),
    /// Makes the next read.
    Step(u64),
    /// Tries to commit the call's changes.
    Commit(u64),
    /// Returns the call's answer.
    Reply(u64),
}

/// Why an event is refused.
#[derive(Clone, Copy, Debug, PartialEq, Eq)]
pub enum EventRefusal {
    /// The number is that of another call.
    CallTaken,
    /// No call has the number.
    UnknownCall,
    /// The event isn't possible in the call's state.
    NotNow,
    /// The machine has 4,096 calls, which is its maximum.
    TooManyCalls,
    /// Out of memory.
    NoMemory,
}

impl EventRefusal {
    ghost use Rattle.std.specs.Prelude.{◌≡◌};
    ghost use Rattle.call_events.specs.Events.{event_code};

    /// Returns the code that is printed for the refusal.
    pub fn code(self) -> &'static str
        ensures { result.now ≡ event_code self }
    {
        match self {
            EventRefusal::CallTaken => "E1",
            EventRefusal::UnknownCall => "E2",
            EventRefusal::NotNow => "E3",
            EventRefusal::TooManyCalls => "E4",
            EventRefusal::NoMemory => "E5",
        }
    }
}

/// An event that was refused, returned to the caller. Nothing has changed.
#[derive(Drop)]
pub struct RefusedEvent {
    /// Why it was refused.
    pub refusal: EventRefusal,
    /// The event.
    pub event: Event,
}
