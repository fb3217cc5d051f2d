//! Why did a run fail?

ghost use Rattle.std.specs.Prelude.{◌≡◌};

use std::alloc::AllocError;
use thiserror::Error;

/// Why a run failed.
#[derive(Clone, Copy, Debug, PartialEq, Eq, Drop, Error)]
pub enum RunFault {
    /// A read of the input failed.
    #[error("input failed")]
    Input,
    /// A write of the output failed, or a flush.
    #[error("output failed")]
    Output,
    /// An allocation failed before the first line was read, or for the text after the last reply; in an audit, for any line.
    #[error("out of memory")]
    NoMemory,
}

impl From<AllocError> for RunFault {
    ghost use Rattle.line_engines.specs.declared.fault.RunFault.TheVariants.{NoMemory as OutOfMemory};

    ghost from_gives = { λ _ fault. fault ≡ OutOfMemory };

    fn from(_: AllocError) -> RunFault {
        RunFault::NoMemory
    }
}
