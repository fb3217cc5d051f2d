//! A server over TCP and its clients, in one process.

ghost use Rattle.std.specs.Prelude.{◌≡◌, ◌<◌, length, vec_len};
ghost use Rattle.entry_book.specs.History.{first_books};

use crate::staged::{Staged, TURNS, Watched, become_closed};
use reg_programs::{
    Counts, Queue, ServeFault, ServerContext, ServerCounts, queues_of, seats_of, serve_connections,
    write_lines,
};
use shared_registry::{NewHistory, Registry, RegistryId, Seat};
use spiffe_name::TrustDomain;
use std::alloc::Global;
use std::io::{Eprint, Read, Write};
use std::marker::Brand;
use std::net::{Ipv4Addr, Net, Shutdown, SocketAddr, SocketAddrV4, TcpListener, TcpStream};
use std::sync::Wait;
use std::sync::atomic::{AtomicU64, Ordering};
use std::test::Fail;
use std::thread::Threads;
use std::time::{Clock, Duration};
use std::{io, thread};

/// How a server is run.
#[derive(Clone, Copy)]
pub struct Plan<'a> {
    pub workers: usize,
    pub connections: u64,
    /// What the calls of `accept` return in turn, as [`Staged`] says.
    pub errors: &'a [i32],
    /// Whether all workers sleep before each call of `accept` returns.
    pub waits: bool,
    /// The time after which a line is written to standard error, if lines are written.
    pub line_time: Option<Duration>,
}

/// The result of a server.
#[derive(Drop)]
pub struct Hosted {
    pub ended: Result<(), ServeFault>,
    /// The replies to its clients, one after another.
    pub answers: String,
    /// The number of calls of `accept`.
    pub accepts: u64,
    /// The number of pauses.
    pub pauses: u64,
    /// The commit number that each seat has seen at the end, in the order of the workers.
    pub places: Vec<u64>,
    /// What the server has done.
    pub counts: Counts,
    /// What was written to standard error.
    pub logged: String,
}

/// The clients of a server.
pub trait Callers {
    /// Calls the server, and appends its replies.
    fn call<R: Wait + Clock + Net<Listener = TcpListener, Stream = TcpStream>>(
        &self,
        rt: &R,
        address: SocketAddr,
        queues: &[Queue],
        answers: &mut String,
    ) -> io::Result<()>;
}

/// Each sends a text and reads to the end, one after another.
#[derive(Drop)]
pub struct InTurn(pub &'static [&'static str]);

/// The second client sends a text and reads to the end, while the first one is silent.
#[derive(Drop)]
pub struct NextToASilentOne(pub &'static str);

/// The second client waits for the first one until all queues are closed. Then the first one, which was silent, disconnects.
#[derive(Drop)]
pub struct BehindASilentOne(pub &'static str);

/// The same with two clients that wait. When all queues are closed, the port is closed too.
#[derive(Drop)]
pub struct TwoBehindASilentOne(pub &'static str, pub &'static str);

impl Callers for InTurn {
    fn call<R: Wait + Clock + Net<Listener = TcpListener, Stream = TcpStream>>(
        &self,
        rt: &R,
        address: SocketAddr,
        _queues: &[Queue],
        answers: &mut String,
    ) -> io::Result<()> {
        for text in self.0 {
            exchange(&TcpStream::connect(rt, address)?, text, answers)?;
        }
        Ok(())
    }
}

impl Callers for NextToASilentOne {
    fn call<R: Wait + Clock + Net<Listener = TcpListener, Stream = TcpStream>>(
        &self,
        rt: &R,
        address: SocketAddr,
        _queues: &[Queue],
        answers: &mut String,
    ) -> io::Result<()> {
        let _silent = TcpStream::connect(rt, address)?;
        exchange(&TcpStream::connect(rt, address)?, self.0, answers)
    }
}

impl Callers for BehindASilentOne {
    fn call<R: Wait + Clock + Net<Listener = TcpListener, Stream = TcpStream>>(
        &self,
        rt: &R,
        address: SocketAddr,
        queues: &[Queue],
        answers: &mut String,
    ) -> io::Result<()> {
        let silent = TcpStream::connect(rt, address)?;
        let waiting = TcpStream::connect(rt, address)?;
        send(&waiting, self.0)?;
        if !become_closed(rt, queues, 1) {
            return Err(io::Error::from(io::ErrorKind::TimedOut));
        }
        drop(silent);
        receive(&waiting, answers)
    }
}

impl Callers for TwoBehindASilentOne {
    fn call<R: Wait + Clock + Net<Listener = TcpListener, Stream = TcpStream>>(
        &self,
        rt: &R,
        address: SocketAddr,
        queues: &[Queue],
        answers: &mut String,
    ) -> io::Result<()> {
        let silent = TcpStream::connect(rt, address)?;
        let first = TcpStream::connect(rt, address)?;
        let second = TcpStream::connect(rt, address)?;
        send(&first, self.0)?;
        send(&second, self.1)?;
        if !become_closed(rt, queues, 2) {
            return Err(io::Error::from(io::ErrorKind::TimedOut));
        }
        if TcpStream::connect(rt, address).is_ok() {
            return Err(io::Error::from(io::ErrorKind::AddrInUse));
        }
        drop(silent);
        receive(&first, answers)?;
        receive(&second, answers)
    }
}

/// Sends a text, and shuts down the sending side.
fn send(mut stream: &TcpStream, text: &str) -> io::Result<()> {
    stream.write_all(text.as_bytes())?;
    stream.shutdown(Shutdown::Write)
}

/// Reads to the end, for at most ten seconds.
fn receive(mut stream: &TcpStream, answers: &mut String) -> io::Result<()> {
    stream.set_read_timeout(Some(Duration::from_millis(1)))?;
    let mut part = [0; 4096];
    for _ in 0..TURNS {
        match stream.read(&mut part) {
            Ok(0) => return Ok(()),
            Ok(count) => answers.push_str(str::from_utf8(&part[..count]).unwrap_or("?"))?,
            Err(error) if error.kind() == io::ErrorKind::WouldBlock => {}
            Err(error) => return Err(error),
        }
    }
    Err(io::Error::from(io::ErrorKind::TimedOut))
}

/// Sends a text, shuts down the sending side, and reads the reply.
pub fn exchange(stream: &TcpStream, text: &str, answers: &mut String) -> io::Result<()> {
    send(stream, text)?;
    receive(stream, answers)
}

/// The replies to the clients.
fn answers_of<R: Wait + Clock + Net<Listener = TcpListener, Stream = TcpStream>, C: Callers>(
    rt: &R,
    alloc: Global,
    address: SocketAddr,
    queues: &[Queue],
    callers: &C,
) -> io::Result<String> {
    let mut answers = String::new(alloc);
    callers.call(rt, address, queues, &mut answers)?;
    Ok(answers)
}

/// Runs a server with a book of its own, and its clients.
pub fn host<
    R: Threads + Wait + Clock + Net<Listener = TcpListener, Stream = TcpStream> + Sync,
    C: Callers + Sync,
>(rt: &R, alloc: Global, plan: Plan<'_>, callers: &C) -> Result<Hosted, Fail>
    requires workers { 0 < plan.workers }
{
    let domain = TrustDomain::parse(alloc, "ex.org")?;
    let kept = domain.clone()?;
    host_by::<Brand, _, _>(rt, alloc, NewHistory::new(), kept, &domain, plan, callers)
}

fn host_by<
    J: RegistryId + Send + Sync,
    R: Threads + Wait + Clock + Net<Listener = TcpListener, Stream = TcpStream> + Sync,
    C: Callers + Sync,
>(
    rt: &R,
    alloc: Global,
    new_history: NewHistory,
    kept: TrustDomain,
    domain: &TrustDomain,
    plan: Plan<'_>,
    callers: &C,
) -> Result<Hosted, Fail>
    requires history { new_history.seen.book ≡ J.history }
    requires first { J.first ≡ first_books }
    requires kept { kept ≡ J.domain }
    requires domain { domain.now ≡ J.domain }
    requires workers { 0 < plan.workers }
{
    let registry = Registry::<J>::new(alloc, new_history, kept)?;
    let hosted = on_a_port(rt, alloc, &registry, domain, plan, callers);
    registry.close(rt);
    hosted
}

fn on_a_port<
    'x,
    J: RegistryId + Send + Sync,
    R: Threads + Wait + Clock + Net<Listener = TcpListener, Stream = TcpStream> + Sync,
    C: Callers + Sync,
>(
    rt: &R,
    alloc: Global,
    registry: &'x Registry<J>,
    domain: &'x TrustDomain,
    plan: Plan<'_>,
    callers: &C,
) -> Result<Hosted, Fail>
    requires domain { domain.now ≡ J.domain }
    requires workers { 0 < plan.workers }
{
    let listener = TcpListener::bind(rt, SocketAddrV4::new(Ipv4Addr::LOCALHOST, 0))?;
    let queues = queues_of(alloc, plan.workers)?;
    let Ok(seats) = seats_of(rt, alloc, registry, plan.workers) else {
        return Err(Fail::from("no seats"));
    };
    both(
        rt,
        alloc,
        registry,
        domain,
        seats,
        queues.as_slice(),
        listener,
        plan,
        callers,
    )
}

/// Writes the lines of a server to standard error, if lines are written.
fn log_of<J: RegistryId, R: Wait + Clock + Eprint>(
    context: &ServerContext<'_, J, R>,
    time: Option<Duration>,
) {
    if let Some(time) = time {
        write_lines(context.rt, context.counts, time);
    }
}

/// Runs the server and its clients concurrently.
fn both<
    'x,
    J: RegistryId + Send + Sync,
    R: Threads + Wait + Clock + Net<Listener = TcpListener, Stream = TcpStream> + Sync,
    C: Callers + Sync,
>(
    rt: &'x R,
    alloc: Global,
    registry: &'x Registry<J>,
    domain: &'x TrustDomain,
    seats: Vec<Seat<J>>,
    queues: &'x [Queue],
    real: TcpListener,
    plan: Plan<'x>,
    callers: &'x C,
) -> Result<Hosted, Fail>
    requires domain { domain.now ≡ J.domain }
    requires workers { 0 < length queues.now }
    requires seats { vec_len seats ≡ length queues.now }
{
    let address = real.local_addr()?;
    let watched = Watched::new(rt, alloc, false);
    let counts = ServerCounts::new();
    let context = ServerContext {
        rt: &watched,
        alloc,
        registry,
        domain,
        seed: [0; 32],
        counts: &counts,
    };
    let shared = &context;
    let calls = AtomicU64::new(0);
    let listener = Staged {
        rt,
        real,
        queues,
        errors: plan.errors,
        waits: plan.waits,
        calls: &calls,
    };
    let connections = plan.connections;
    let line_time = plan.line_time;
    let ((seats, ended), (answers, ())) = thread::join(
        rt,
        ||
            requires workers { 0 < length queues.now }
            requires seats { vec_len seats ≡ length queues.now }
        { serve_connections(shared, seats, queues, listener, connections) },
        || {
            thread::join(
                rt,
                || answers_of(rt, alloc, address, queues, callers),
                || log_of(shared, line_time),
            )
        },
    );
    let mut places = Vec::new(alloc);
    for seat in &seats {
        places.push(seat.place())?;
    }
    Ok(Hosted {
        ended,
        answers: answers?,
        accepts: calls.load(Ordering::SeqCst),
        pauses: watched.pauses(),
        places,
        counts: counts.counts(rt),
        logged: watched.into_logged(),
    })
}
