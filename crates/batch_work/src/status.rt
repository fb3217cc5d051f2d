//! What does a work wait for?

/// What a work waits for.
#[derive(Clone, Copy, Debug, PartialEq, Eq, Drop)]
pub enum Status {
    /// To begin.
    New,
    /// The next step.
    Running,
    /// The commit of its changes.
    Ready,
    /// Nothing: a query is answered, a batch is refused, or it was committed before.
    Settled,
}
