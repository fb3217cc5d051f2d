//! How do connections get from the thread that accepts them to a worker?

ghost use Rattle.std.specs.Prelude.{◌≡◌, IfOk, vec_len};

use line_reading::Ids;
use std::alloc::{AllocError, Global};
use std::collections::VecDeque;
use std::net::TcpStream;
use std::sync::{Condvar, Mutex, Wait};

/// A connection, and its number among all of them, counted from 0.
#[derive(Drop)]
pub(crate) struct Connection {
    pub number: u64,
    pub stream: TcpStream,
}

impl Connection {
    ghost use Rattle.std.specs.Prelude.{◌≡◌};
    ghost use Rattle.line_reading.specs.Ids.{stream_ids};

    /// Returns the ids for its creates: those of its own stream of the seed.
    pub(crate) fn ids(&self, seed: [u8; 32]) -> Ids
        ensures { result ≡ stream_ids seed self.now.number }
    {
        Ids::of_stream(seed, self.number)
    }
}

/// A snapshot of a queue.
#[derive(Clone, Copy, Debug, PartialEq, Eq, Drop)]
pub struct QueueState {
    /// The number of waiting connections.
    pub waiting: usize,
    /// The worker has asked for its next connection. It sleeps if none waits and the queue is open.
    pub has_worker: bool,
    /// The queue is closed: no more connections come.
    pub is_closed: bool,
}

#[derive(Drop)]
struct Waiting {
    connections: VecDeque<Connection>,
    has_worker: bool,
    is_closed: bool,
}

/// The connections that wait for one worker, the oldest first.
#[derive(Drop)]
pub struct Queue {
    waiting: Mutex<Waiting>,
    changed: Condvar,
}

impl Queue {
    /// Makes an open queue without connections.
    pub(crate) fn new(alloc: Global) -> Queue {
        Queue {
            waiting: Mutex::new(Waiting {
                connections: VecDeque::new(alloc),
                has_worker: false,
                is_closed: false,
            }),
            changed: Condvar::new(),
        }
    }

    /// Returns a snapshot. It waits for the lock alone.
    pub fn state<R: Wait>(&self, rt: &R) -> QueueState {
        let waiting = self.waiting.lock(rt);
        QueueState {
            waiting: waiting.connections.len(),
            has_worker: waiting.has_worker,
            is_closed: waiting.is_closed,
        }
    }

    /// Appends a connection. The error is a failed allocation; the connection is then closed.
    pub(crate) fn put<R: Wait>(&self, rt: &R, connection: Connection) -> Result<(), AllocError> {
        let mut waiting = self.waiting.lock(rt);
        let put = waiting.connections.push_back(connection);
        drop(waiting);
        self.changed.notify_one();
        match put {
            Ok(()) => Ok(()),
            Err(_) => Err(AllocError),
        }
    }

    /// Closes the queue: no more connections come.
    pub(crate) fn close<R: Wait>(&self, rt: &R) {
        self.waiting.lock(rt).is_closed = true;
        self.changed.notify_all();
    }

    /// Waits for the next connection. Returns `None` once the queue is closed and empty.
    pub(crate) fn take<R: Wait>(&self, rt: &R) -> Option<Connection> {
        let mut waiting = self.waiting.lock(rt);
        waiting.has_worker = true;
        let mut waiting = self.changed.wait_while(rt, waiting, |w| {
            w.connections.is_empty() && !w.is_closed
        });
        waiting.has_worker = false;
        waiting.connections.pop_front()
    }
}

/// Makes a queue for each of the workers. The error is a failed allocation.
pub fn queues_of(alloc: Global, workers: usize) -> Result<Vec<Queue>, AllocError>
    ensures { IfOk result (λ queues. vec_len queues ≡ workers) }
{
    let mut queues = Vec::new(alloc);
    for _ in 0..workers {
        queues.push(Queue::new(alloc))?;
    }
    Ok(queues)
}

/// Closes all queues.
pub(crate) fn close_all<R: Wait>(rt: &R, queues: &[Queue]) {
    for queue in queues {
        queue.close(rt);
    }
}
