//! Why is a command line invalid?

ghost use Rattle.std.specs.Prelude.{◌≡◌};
ghost use Rattle.command_line.specs.Conversions.{fault_of_domain, fault_of_refusal};
ghost use Rattle.command_line.specs.declared.fault.LineFault.TheVariants.{NoMemory};

use clap::error::ErrorKind;
use spiffe_name::{Failure, IdRefusal};
use std::alloc::AllocError;
use thiserror::Error;

/// Why a command line is invalid.
#[derive(Debug, Drop, Error)]
pub enum LineFault {
    /// The command-line parser refuses the words, or they ask for help. The text is the parser's.
    #[error(transparent)]
    Refused(clap::Error),
    /// The words ask for the version by `--version` or `-V`.
    #[error("version")]
    Version,
    /// The value of `--domain` is not a trust domain, for this reason.
    #[error("domain {}", .0.code())]
    Domain(IdRefusal),
    /// The value of `--seed` isn't 64 lower-case hexadecimal digits.
    #[error("seed")]
    Seed,
    /// The value of `--listen` isn't an IPv4 address with a port.
    #[error("listen")]
    Address,
    /// A number is out of its range. The command-line parser refuses it first.
    #[error("number")]
    Number,
    /// The word after `explain` isn't a code that `regd` prints.
    #[error("explain: no code has this name")]
    Code,
    /// A word isn't UTF-8.
    #[error("a word isn't UTF-8")]
    NotText,
    /// An allocation failed.
    #[error("out of memory")]
    NoMemory,
}

impl From<AllocError> for LineFault {
    ghost from_gives = { λ _ fault. fault ≡ NoMemory };

    fn from(_: AllocError) -> LineFault {
        LineFault::NoMemory
    }
}

impl From<clap::Error> for LineFault {
    ghost from_gives = { λ error fault. fault ≡ fault_of_refusal error };

    fn from(error: clap::Error) -> LineFault {
        match error.kind() {
            ErrorKind::OutOfMemory => LineFault::NoMemory,
            ErrorKind::DisplayVersion => LineFault::Version,
            _ => LineFault::Refused(error),
        }
    }
}

impl From<Failure<IdRefusal>> for LineFault {
    ghost from_gives = { λ failure fault. fault ≡ fault_of_domain failure };

    fn from(failure: Failure<IdRefusal>) -> LineFault {
        match failure {
            Failure::NoMemory => LineFault::NoMemory,
            Failure::Refused(refusal) => LineFault::Domain(refusal),
        }
    }
}
