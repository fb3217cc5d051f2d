//! What has a server done so far, and when is a line about it due?

ghost use Rattle.std.specs.Prelude.{◌≡◌, ◌==◌, ◌%◌, ◌||◌};

use std::sync::{Condvar, CondvarTimeouts, Mutex, Wait};
use std::time::{Clock, Duration};

/// The numbers of a server without a last connection.
#[derive(Clone, Copy, Debug, PartialEq, Eq, Drop)]
pub struct Counts {
    /// Connections that were accepted.
    pub accepted: u64,
    /// Connections that a worker has begun to serve.
    pub begun: u64,
    /// Connections that have ended.
    pub ended: u64,
    /// Calls of `accept` that have failed since the last connection was accepted.
    pub failures: u64,
}

/// Why a line is due.
#[derive(Clone, Copy, Debug, PartialEq, Eq, Drop)]
pub enum Due {
    /// A time has passed since the line before.
    Time,
    /// `accept` fails again and again.
    Failures,
    /// The server has ended.
    End,
}

#[derive(Drop)]
struct Tally {
    counts: Counts,
    has_failed: bool,
    is_closed: bool,
}

/// The counts that the threads of a server share.
#[derive(Drop)]
pub struct ServerCounts {
    tally: Mutex<Tally>,
    changed: Condvar,
}

impl ServerCounts {
    /// Makes counts of zero. Takes no memory.
    pub fn new() -> ServerCounts {
        ServerCounts {
            tally: Mutex::new(Tally {
                counts: Counts {
                    accepted: 0,
                    begun: 0,
                    ended: 0,
                    failures: 0,
                },
                has_failed: false,
                is_closed: false,
            }),
            changed: Condvar::new(),
        }
    }

    /// Returns a snapshot. It waits for the lock alone.
    pub fn counts<R: Wait>(&self, rt: &R) -> Counts {
        self.tally.lock(rt).counts
    }

    /// Counts a connection that was accepted.
    pub(crate) fn count_accepted<R: Wait>(&self, rt: &R) {
        let mut tally = self.tally.lock(rt);
        tally.counts.accepted = tally.counts.accepted.saturating_add(1);
        tally.counts.failures = 0;
    }

    /// Counts a connection that a worker begins to serve.
    pub(crate) fn count_begun<R: Wait>(&self, rt: &R) {
        let mut tally = self.tally.lock(rt);
        tally.counts.begun = tally.counts.begun.saturating_add(1);
    }

    /// Counts a connection that has ended.
    pub(crate) fn count_ended<R: Wait>(&self, rt: &R) {
        let mut tally = self.tally.lock(rt);
        tally.counts.ended = tally.counts.ended.saturating_add(1);
    }

    /// Counts a failed call of `accept`. If a line on it is due, wakes the thread that writes it.
    pub(crate) fn count_failed<R: Wait>(&self, rt: &R) {
        let mut tally = self.tally.lock(rt);
        let failures = tally.counts.failures.saturating_add(1);
        tally.counts.failures = failures;
        if are_reported(failures) {
            tally.has_failed = true;
            drop(tally);
            self.changed.notify_all();
        }
    }

    /// Says that the server has ended.
    pub(crate) fn close<R: Wait>(&self, rt: &R) {
        self.tally.lock(rt).is_closed = true;
        self.changed.notify_all();
    }

    /// Waits until a line is due, at most for this time, and returns why and what it says.
    pub(crate) fn next<R: Wait + Clock>(&self, rt: &R, time: Duration) -> (Due, Counts) {
        let tally = self.tally.lock(rt);
        let (mut tally, _) = self
            .changed
            .wait_timeout_while(rt, tally, time, |t| !t.has_failed && !t.is_closed);
        let due = if tally.has_failed {
            Due::Failures
        } else if tally.is_closed {
            Due::End
        } else {
            Due::Time
        };
        tally.has_failed = false;
        (due, tally.counts)
    }
}

/// Returns true if a line is due after this many failures in a row, ten milliseconds apart: after a second, and then each minute.
fn are_reported(failures: u64) -> bool
    ensures { result ≡ ((failures == 100) || (failures % 6000 == 0)) }
{
    failures == 100 || failures % 6_000 == 0
}
