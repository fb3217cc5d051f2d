//! Why does a line have no reply?

use crate::fault::Fault;
use spiffe_name::Failure;

/// Why a line has no reply, with the line's number.
#[derive(Drop)]
pub struct LineRefusal {
    /// The line's number, counted from 1.
    pub line: u64,
    /// The line's fault, or that memory ran out while the line was read, run or answered.
    pub failure: Failure<Fault>,
}
