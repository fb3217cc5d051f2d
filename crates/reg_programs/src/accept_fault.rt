//! What does an error of `accept` concern?

use std::io;

// the errors that accept(2) of Linux lists, as far as they don't concern the listener itself, by their numbers there
const EPERM: i32 = 1;

const ENOMEM: i32 = 12;

const ENFILE: i32 = 23;

const EMFILE: i32 = 24;

const ENOSR: i32 = 63;

const ENONET: i32 = 64;

const EPROTO: i32 = 71;

const ENOPROTOOPT: i32 = 92;

const EPROTONOSUPPORT: i32 = 93;

const ESOCKTNOSUPPORT: i32 = 94;

const EOPNOTSUPP: i32 = 95;

const ENETDOWN: i32 = 100;

const ENETUNREACH: i32 = 101;

const ECONNABORTED: i32 = 103;

const ENOBUFS: i32 = 105;

const ETIMEDOUT: i32 = 110;

const EHOSTDOWN: i32 = 112;

const EHOSTUNREACH: i32 = 113;

/// What an error of `accept` concerns.
#[derive(Clone, Copy, Debug, PartialEq, Eq, Drop)]
pub(crate) enum AcceptFault {
    /// One connection: it ended while it waited, or its network reported an error, which accept(2) returns in its place.
    Connection,
    /// The process or the system: it has no descriptor or no memory for a connection, or a rule forbids it (a firewall's, or that
    /// of a seccomp filter).
    Shortage,
    /// The listener: it accepts nothing any more.
    Listener,
}

impl AcceptFault {
    /// What this error concerns. An error that accept(2) doesn't list concerns the listener.
    pub(crate) fn of(error: &io::Error) -> AcceptFault {
        match error.raw_os_error() {
            Some(
                ECONNABORTED
                | ENONET
                | EPROTO
                | ENOPROTOOPT
                | EOPNOTSUPP
                | ENETDOWN
                | ENETUNREACH
                | EHOSTDOWN
                | EHOSTUNREACH
                | ETIMEDOUT
                | ENOSR
                | ESOCKTNOSUPPORT
                | EPROTONOSUPPORT,
            ) => AcceptFault::Connection,
            Some(EMFILE | ENFILE | ENOMEM | ENOBUFS | EPERM) => AcceptFault::Shortage,
            _ => AcceptFault::Listener,
        }
    }
}
