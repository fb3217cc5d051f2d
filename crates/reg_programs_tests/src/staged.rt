//! A listener and a runtime that a test controls.

use reg_programs::{Queue, QueueState};
use std::alloc::Global;
use std::fmt::Display;
use std::io::Eprint;
use std::net::{Net, OpenListener, SocketAddr, TcpListener, TcpStream};
use std::sync::atomic::{AtomicU64, Ordering};
use std::sync::{Mutex, Wait};
use std::thread::Threads;
use std::time::{Clock, Duration};
use std::{io, thread};

/// How often a test checks for an event, at intervals of a millisecond, before it gives up.
pub const TURNS: u32 = 10_000;

/// An error that ends a listener (EBADF).
const BAD_LISTENER: i32 = 9;

/// Returns true if the worker of a queue in this state sleeps.
fn is_asleep(state: QueueState) -> bool {
    state.has_worker && state.waiting == 0 && !state.is_closed
}

/// Returns true if the worker of each queue sleeps at this moment.
fn are_asleep<R: Wait>(rt: &R, queues: &[Queue]) -> bool {
    for queue in queues {
        if !is_asleep(queue.state(rt)) {
            return false;
        }
    }
    true
}

/// Waits until the worker of each queue sleeps. Returns false on a timeout.
fn fall_asleep<R: Wait + Clock>(rt: &R, queues: &[Queue]) -> bool {
    for _ in 0..TURNS {
        if are_asleep(rt, queues) {
            return true;
        }
        thread::sleep(rt, Duration::from_millis(1));
    }
    false
}

/// Returns true if each queue is in this state at this moment.
fn are_in<R: Wait>(rt: &R, queues: &[Queue], state: QueueState) -> bool {
    for queue in queues {
        if queue.state(rt) != state {
            return false;
        }
    }
    true
}

/// Waits until each queue is closed, its worker serves a connection, and this many connections wait behind that one. Returns false
/// on a timeout.
pub fn become_closed<R: Wait + Clock>(rt: &R, queues: &[Queue], waiting: usize) -> bool {
    let state = QueueState {
        waiting,
        has_worker: false,
        is_closed: true,
    };
    for _ in 0..TURNS {
        if are_in(rt, queues, state) {
            return true;
        }
        thread::sleep(rt, Duration::from_millis(1));
    }
    false
}

/// A listener with scripted errors of `accept`.
#[derive(Drop)]
pub struct Staged<'a, R: Wait + Clock> {
    pub rt: &'a R,
    pub real: TcpListener,
    pub queues: &'a [Queue],
    /// The numbers of the errors that the calls return in turn, 0 for a connection. All later calls return connections.
    pub errors: &'a [i32],
    /// Whether all workers sleep before each call returns.
    pub waits: bool,
    /// The number of calls.
    pub calls: &'a AtomicU64,
}

impl<R: Wait + Clock> OpenListener for Staged<'_, R> {
    type Stream = TcpStream;

    fn accept(&self) -> io::Result<(TcpStream, SocketAddr)> {
        let call = self.calls.fetch_add(1, Ordering::SeqCst);
        if self.waits && !fall_asleep(self.rt, self.queues) {
            return Err(io::Error::from_raw_os_error(BAD_LISTENER));
        }
        let error = self.errors.get(call as usize).copied().unwrap_or(0);
        if error != 0 {
            return Err(io::Error::from_raw_os_error(error));
        }
        self.real.accept()
    }
}

/// A runtime that counts pauses of ten milliseconds and makes none. It stores what is printed, what is written to standard error, and the address of the listener
/// that was made last. If it is full, it can't print.
#[derive(Drop)]
pub struct Watched<'a, R> {
    rt: &'a R,
    alloc: Global,
    is_full: bool,
    pauses: AtomicU64,
    printed: Mutex<String>,
    logged: Mutex<String>,
    bound: Mutex<Option<SocketAddr>>,
}

impl<'a, R> Watched<'a, R> {
    pub fn new(rt: &'a R, alloc: Global, is_full: bool) -> Watched<'a, R> {
        Watched {
            rt,
            alloc,
            is_full,
            pauses: AtomicU64::new(0),
            printed: Mutex::new(String::new(alloc)),
            logged: Mutex::new(String::new(alloc)),
            bound: Mutex::new(None),
        }
    }

    /// The number of pauses of ten milliseconds that were requested.
    pub fn pauses(&self) -> u64 {
        self.pauses.load(Ordering::SeqCst)
    }

    /// What was printed, at the end.
    pub fn into_printed(self) -> String {
        self.printed.into_inner()
    }

    /// What was written to standard error, at the end.
    pub fn into_logged(self) -> String {
        self.logged.into_inner()
    }
}

impl<R: Wait> Watched<'_, R> {
    /// The address of the listener that was made last.
    pub fn bound(&self) -> Option<SocketAddr> {
        *self.bound.lock(self.rt)
    }

    /// Returns true if something was printed.
    pub fn has_printed(&self) -> bool {
        !self.printed.lock(self.rt).is_empty()
    }

    /// Returns true if something was written to standard error.
    pub fn has_logged(&self) -> bool {
        !self.logged.lock(self.rt).is_empty()
    }

    /// Appends a text and an end to what is written to standard error.
    fn log(&self, text: &str, end: &str) -> io::Result<()> {
        let mut logged = self.logged.lock(self.rt);
        logged.push_str(text)?;
        logged.push_str(end)?;
        Ok(())
    }

    /// Appends a text and an end to what is printed.
    fn add(&self, text: &str, end: &str) -> io::Result<()> {
        if self.is_full {
            return Err(io::Error::from(io::ErrorKind::WriteZero));
        }
        let mut printed = self.printed.lock(self.rt);
        printed.push_str(text)?;
        printed.push_str(end)?;
        Ok(())
    }
}

impl<R: Wait> Wait for Watched<'_, R> {}

impl<R: Threads> Threads for Watched<'_, R> {}

impl<R: Clock> Clock for Watched<'_, R> {
    fn monotonic(&self) -> io::Result<Duration> {
        self.rt.monotonic()
    }

    fn since_1970(&self) -> io::Result<Duration> {
        self.rt.since_1970()
    }

    fn sleep(&self, duration: Duration) {
        if duration == Duration::from_millis(10) {
            self.pauses.fetch_add(1, Ordering::SeqCst);
        }
    }
}

impl<R: Wait> Print for Watched<'_, R> {
    fn print<D: Display + Drop>(&self, value: D) -> io::Result<()> {
        self.add(value.to_string(self.alloc)?.as_str(), "")
    }

    fn println<D: Display + Drop>(&self, value: D) -> io::Result<()> {
        self.add(value.to_string(self.alloc)?.as_str(), "\n")
    }

    fn write_all(&self, _bytes: &[u8]) -> io::Result<()> {
        Err(io::Error::from(io::ErrorKind::Unsupported))
    }
}

impl<R: Wait> Eprint for Watched<'_, R> {
    fn eprint<D: Display + Drop>(&self, value: D) -> io::Result<()> {
        self.log(value.to_string(self.alloc)?.as_str(), "")
    }

    fn eprintln<D: Display + Drop>(&self, value: D) -> io::Result<()> {
        self.log(value.to_string(self.alloc)?.as_str(), "\n")
    }
}

impl<R: Wait + Net<Listener = TcpListener, Stream = TcpStream>> Net for Watched<'_, R> {
    type Stream = TcpStream;

    type Listener = TcpListener;

    fn bind(&self, address: SocketAddr) -> io::Result<TcpListener> {
        let listener = self.rt.bind(address)?;
        *self.bound.lock(self.rt) = Some(listener.local_addr()?);
        Ok(listener)
    }

    fn connect(&self, address: SocketAddr) -> io::Result<TcpStream> {
        self.rt.connect(address)
    }
}
