//! Why can't a batch be made from a text, or a text from a reply?

use spiffe_name::Failure;
use std::alloc::{AllocError, AllocFailed};
use std::num::ParseIntError;

/// The error of this crate: an invalid text, or out of memory.
#[derive(Clone, Copy, Debug)]
pub enum Failed {
    /// Out of memory.
    NoMemory,
    /// The text is not a valid batch.
    NotRead,
}

impl From<AllocError> for Failed {
    fn from(_: AllocError) -> Failed {
        Failed::NoMemory
    }
}

impl<T: Drop> From<AllocFailed<T>> for Failed {
    fn from(_: AllocFailed<T>) -> Failed {
        Failed::NoMemory
    }
}

impl From<ParseIntError> for Failed {
    fn from(_: ParseIntError) -> Failed {
        Failed::NotRead
    }
}

impl<R: Drop> From<Failure<R>> for Failed {
    fn from(failure: Failure<R>) -> Failed {
        match failure {
            Failure::NoMemory => Failed::NoMemory,
            Failure::Refused(_) => Failed::NotRead,
        }
    }
}
