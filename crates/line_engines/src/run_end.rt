//! What is the result of a run that came to its end?

/// The result of a run that came to its end.
#[derive(Clone, Copy, Debug, PartialEq, Eq, Drop)]
pub enum RunEnd {
    /// Everything was done; an audit found no fault.
    Done,
    /// An audit found a fault.
    Denied,
    /// A recorded schedule lost this many lines for lack of memory, at least one. The records of all others are written.
    Shortened(u64),
}
