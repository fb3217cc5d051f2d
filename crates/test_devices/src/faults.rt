//! Which call of a device fails?

use std::io;
use std::io::ErrorKind;

/// The fault of a device: the call with a given number, counted from 1, fails or is interrupted, or no call does.
#[derive(Clone, Copy, Debug)]
pub struct Faults {
    failing: u64,
    interrupted: u64,
}

impl Faults {
    /// No call fails.
    pub const NONE: Faults = Faults {
        failing: 0,
        interrupted: 0,
    };

    /// The call of this number fails.
    pub fn failing_at(call: u64) -> Faults {
        Faults {
            failing: call,
            interrupted: 0,
        }
    }

    /// The call of this number is interrupted.
    pub fn interrupted_at(call: u64) -> Faults {
        Faults {
            failing: 0,
            interrupted: call,
        }
    }

    /// Returns the error of the call of this number, if it has one.
    pub(crate) fn meet(self, call: u64) -> io::Result<()> {
        if call == self.failing {
            return Err(io::Error::from(ErrorKind::Other));
        }
        if call == self.interrupted {
            return Err(io::Error::from(ErrorKind::Interrupted));
        }
        Ok(())
    }
}
