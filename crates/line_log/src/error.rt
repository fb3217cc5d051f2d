//! Why did a call of a log fail?

ghost use Rattle.std.specs.Prelude.{◌≡◌};
ghost use Rattle.line_log.specs.declared.error.LogError.TheVariants.{Disk, NoMemory};

use std::alloc::{AllocError, AllocFailed};
use std::io;

/// Why a call of a log failed. After `NoMemory`, `TextTooLong` and `FileTooLong` of [`crate::LineLog::append`] the log is as it was. After
/// `Disk` it isn't known whether the lines were added: drop the log with its disk, and open the file as at a start. A system that returns
/// the bytes of a failed sync as if they were on the disk must drop them first.
#[derive(Clone, Copy, Debug, Drop)]
pub enum LogError {
    /// Memory ran out.
    NoMemory,
    /// A call of the disk failed.
    Disk(io::Error),
    /// The file would be too long.
    FileTooLong,
    /// One call is to add several lines of more than 64 KiB with their hashes, or one of more than 8 MiB.
    TextTooLong,
    /// The line behind this number of lines doesn't end within 8 MiB.
    LineTooLong(usize),
    /// What follows this number of lines is no line with the right hash, and no end that a crash leaves.
    Damaged(usize),
    /// The file has lines that were not read.
    Unread,
}

impl From<io::Error> for LogError {
    ghost from_gives = { λ error fault. fault ≡ Disk error };

    fn from(error: io::Error) -> LogError {
        LogError::Disk(error)
    }
}

impl From<AllocError> for LogError {
    ghost from_gives = { λ _ fault. fault ≡ NoMemory };

    fn from(_: AllocError) -> LogError {
        LogError::NoMemory
    }
}
