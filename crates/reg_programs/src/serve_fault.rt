//! Why did a server end before its last connection did?

ghost use Rattle.std.specs.Prelude.{◌≡◌};

use std::alloc::AllocError;
use thiserror::Error;

/// Why a server ended before its last connection did.
#[derive(Clone, Copy, Debug, PartialEq, Eq, Drop, Error)]
pub enum ServeFault {
    /// It can't listen at the address.
    #[error("listen failed")]
    Listen,
    /// The address of the listener couldn't be written.
    #[error("output failed")]
    Output,
    /// No connection can be accepted any more.
    #[error("accept failed")]
    Accept,
    /// A worker got no seat.
    #[error("no seat")]
    NoSeat,
    /// An allocation failed before the first connection was accepted, or a worker's thread couldn't be started.
    #[error("out of memory")]
    NoMemory,
}

impl From<AllocError> for ServeFault {
    ghost use Rattle.reg_programs.specs.declared.serve_fault.ServeFault.TheVariants.{NoMemory as OutOfMemory};

    ghost from_gives = { λ _ fault. fault ≡ OutOfMemory };

    fn from(_: AllocError) -> ServeFault {
        ServeFault::NoMemory
    }
}
