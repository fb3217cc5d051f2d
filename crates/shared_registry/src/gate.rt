//! A test hook: where can a test stop a thread that runs a batch of changes?

/// A point in a try of a batch of changes.
#[derive(Clone, Copy, Debug, PartialEq, Eq, Drop)]
pub enum Point {
    /// The try has begun, and has read nothing yet. No lock is held.
    AfterBegin,
    /// It holds the lock, and its commit is not decided yet.
    BeforeCommit,
    /// It has released the lock.
    AfterCommit,
}

/// A test hook that each try of a batch of changes passes. A pass may take time, but it returns, and does nothing to the
/// registry.
pub trait Gate {
    /// Called at this point by the seat of this number, in the call of this number.
    fn pass(&self, point: Point, seat: u32, call: u64);
}

/// The gate that does nothing.
#[derive(Clone, Copy, Debug, Drop)]
pub struct OpenGate;

impl Gate for OpenGate {
    fn pass(&self, _point: Point, _seat: u32, _call: u64) {}
}
