//! Why can't a test continue? Threads return this error, so it implements `Drop`.

use shared_registry::{NoAnswer, NoEntry, NoSeat};
use std::alloc::{AllocError, AllocFailed};
use std::io;
use std::num::ParseIntError;
use std::test::Fail;
use test_batches::Failed as NoText;

/// A test, or one of its threads, can't continue, for this reason.
#[derive(Drop)]
pub struct Failed(pub &'static str);

/// Converts the result to that of a test.
pub fn as_fail(done: Result<(), Failed>) -> Result<(), Fail> {
    match done {
        Ok(()) => Ok(()),
        Err(Failed(why)) => Err(Fail::new(why)),
    }
}

impl From<AllocError> for Failed {
    fn from(_: AllocError) -> Failed {
        Failed("no memory")
    }
}

impl<T: Drop> From<AllocFailed<T>> for Failed {
    fn from(_: AllocFailed<T>) -> Failed {
        Failed("no memory")
    }
}

impl From<ParseIntError> for Failed {
    fn from(_: ParseIntError) -> Failed {
        Failed("a word is no number")
    }
}

impl From<NoText> for Failed {
    fn from(failed: NoText) -> Failed {
        match failed {
            NoText::NoMemory => Failed("no memory"),
            NoText::NotRead => Failed("a text tells no batch"),
        }
    }
}

impl From<NoAnswer> for Failed {
    fn from(refusal: NoAnswer) -> Failed {
        match refusal {
            NoAnswer::NoMemory => Failed("no memory"),
            NoAnswer::NoEntry => Failed("not let in"),
        }
    }
}

impl From<NoEntry> for Failed {
    fn from(_: NoEntry) -> Failed {
        Failed("not let in")
    }
}

impl From<NoSeat> for Failed {
    fn from(_: NoSeat) -> Failed {
        Failed("no seat, or no memory for one")
    }
}

impl From<io::Error> for Failed {
    fn from(_: io::Error) -> Failed {
        Failed("not printed")
    }
}
