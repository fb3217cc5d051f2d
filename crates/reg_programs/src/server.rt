//! How are the connections of a server answered by several workers?

ghost use Rattle.std.specs.Prelude.{◌≡◌, ◌<◌, ◌≤◌, ◌⊎◌, [], Err, IfOk, get_or, length, vec_capacity, vec_items, vec_len, ℕ};
ghost use Rattle.entry_book.specs.History.{first_books};
ghost use Rattle.shared_registry.specs.OneList.{AreOneList};
ghost use Rattle.shared_registry.specs.Seated.{Seated};
ghost use Rattle.reg_programs.specs.Served.{EachGrew, HaveSeenOneList};
ghost use Rattle.reg_programs.specs.Sessions.{Grew};
ghost use Rattle.reg_programs.specs.declared.serve_fault.ServeFault.TheVariants.{NoMemory as OutOfMemory};

use crate::acceptor::accept_all;
use crate::queue::{Connection, Queue, close_all, queues_of};
use crate::serve_fault::ServeFault;
use crate::server_counts::ServerCounts;
use crate::server_log::{write_lines, write_start};
use crate::session_engine::session;
use command_line::ServerPlan;
use line_devices::{CountedDevice, Input, Output};
use shared_registry::{NewHistory, Registry, RegistryId, Seat, one_list};
use spiffe_name::TrustDomain;
use std::alloc::Global;
use std::io::Eprint;
use std::marker::Brand;
use std::net::{Net, OpenListener, SocketAddr, TcpListener, TcpStream};
use std::snapshot::Snapshot;
use std::sync::Wait;
use std::thread::{Promise, PromisedHandle, Threads};
use std::time::{Clock, Duration};
use std::{io, thread};

/// The longest time between two lines of a server without a last connection, in seconds: an hour.
const LINE_SECONDS: u64 = 3_600;

/// The parameters of a server.
#[derive(Clone, Copy)]
pub struct Server<'a> {
    /// The trust domain of its book.
    pub domain: &'a TrustDomain,
    /// The seed of the ids of creates that come without one. Those of connection j, counted from 0, get the ids of its stream j.
    pub seed: [u8; 32],
    /// Where it listens, how many workers it has, and how many connections it serves, if it has a last one.
    pub plan: ServerPlan,
}

/// What the workers of a server share: the registry, and how their sessions are run.
#[derive(Drop)]
pub struct ServerContext<'a, J: RegistryId, R> {
    /// The runtime, which lets workers wait.
    pub rt: &'a R,
    /// The allocator of the sessions.
    pub alloc: Global,
    /// The registry through which every session answers.
    pub registry: &'a Registry<J>,
    /// The registry's trust domain.
    pub domain: &'a TrustDomain,
    /// The seed of the ids, as in [`Server`].
    pub seed: [u8; 32],
    /// What the server has done so far.
    pub counts: &'a ServerCounts,
    pub ghost own_domain: { domain.now ≡ J.domain },
}

/// Listens, prints the address of the listener, serves the planned number of connections through a shared registry with an empty
/// book, and returns when the last one has ended. Connection j, counted from 0, goes to worker j mod N of N. A worker has one
/// seat, and serves its connections one after another.
///
/// Without a planned number there is no last connection. Then it writes to standard error a line at the start, one with counts
/// each hour, one while `accept` fails, and one at the end.
///
/// The contract says nothing about the bytes of a connection; `session` has a contract over devices with known bytes. The
/// function waits for connections and for their bytes, and isn't guaranteed to return. The error is why the server ended before
/// its last connection did.
pub fn serve<
    R: Threads
        + Wait
        + Clock
        + Print
        + Eprint
        + Net<Listener = TcpListener, Stream = TcpStream>
        + Sync,
>(rt: &R, alloc: Global, server: Server<'_>) -> Result<(), ServeFault>
    requires { 0 < server.plan.workers }
{
    let registry_domain = server.domain.clone()?;
    serve_registry::<Brand, _>(rt, alloc, NewHistory::new(), registry_domain, server)
}

/// Serves the connections through a registry of this history. `registry_domain` is a copy of the trust domain, which the registry owns.
fn serve_registry<
    J: RegistryId + Send + Sync,
    R: Threads
        + Wait
        + Clock
        + Print
        + Eprint
        + Net<Listener = TcpListener, Stream = TcpStream>
        + Sync,
>(
    rt: &R,
    alloc: Global,
    new_history: NewHistory,
    registry_domain: TrustDomain,
    server: Server<'_>,
) -> Result<(), ServeFault>
    requires history { new_history.seen.book ≡ J.history }
    requires first { J.first ≡ first_books }
    requires registry_domain { registry_domain ≡ J.domain }
    requires domain { server.domain.now ≡ J.domain }
    requires workers { 0 < server.plan.workers }
{
    let Server { domain, seed, plan } = server;
    let registry = Registry::<J>::with_seats(
        alloc,
        new_history,
        registry_domain,
        plan.workers as usize,
    )?;
    let counts = ServerCounts::new();
    let context = ServerContext {
        rt,
        alloc,
        registry: &registry,
        domain,
        seed,
        counts: &counts,
    };
    let served = listen(&context, plan);
    registry.close(rt);
    served
}

/// Serves the connections to the address of the plan.
fn listen<
    J: RegistryId + Send + Sync,
    R: Threads
        + Wait
        + Clock
        + Print
        + Eprint
        + Net<Listener = TcpListener, Stream = TcpStream>
        + Sync,
>(context: &ServerContext<'_, J, R>, plan: ServerPlan) -> Result<(), ServeFault>
    requires { 0 < plan.workers }
{
    let (rt, alloc) = (context.rt, context.alloc);
    let workers = plan.workers as usize;
    let seats = seats_of(rt, alloc, context.registry, workers)?;
    let queues = queues_of(alloc, workers)?;
    let Ok(listener) = TcpListener::bind(rt, plan.listen) else {
        return Err(ServeFault::Listen);
    };
    let Ok(address) = listener.local_addr() else {
        return Err(ServeFault::Listen);
    };
    if announce(rt, address).is_err() {
        return Err(ServeFault::Output);
    }
    match plan.connections {
        Some(connections) => {
            let connections = connections as u64;
            serve_connections(context, seats, queues.as_slice(), listener, connections).1
        }
        None => serve_on(context, seats, queues.as_slice(), listener, address),
    }
}

/// Serves connections without a last one, and writes to standard error what happens. (After 2^64 - 1 connections it would end.)
fn serve_on<
    J: RegistryId + Send + Sync,
    R: Threads + Wait + Clock + Eprint + Sync,
    L: OpenListener<Stream = TcpStream> + Drop,
>(
    context: &ServerContext<'_, J, R>,
    seats: Vec<Seat<J>>,
    queues: &[Queue],
    listener: L,
    address: SocketAddr,
) -> Result<(), ServeFault>
    requires workers { 0 < length queues.now }
    requires seats { vec_len seats ≡ length queues.now }
{
    let (rt, counts) = (context.rt, context.counts);
    // if standard error fails, there is no way left to report it
    let _ = write_start(rt, context.domain, address, queues.len());
    // if there is no further thread, the lines are written last
    thread::join(
        rt,
        || write_lines(rt, counts, Duration::from_secs(LINE_SECONDS)),
        ||
            requires workers { 0 < length queues.now }
            requires seats { vec_len seats ≡ length queues.now }
        { serve_connections(context, seats, queues, listener, u64::MAX).1 },
    )
    .1
}

/// Makes a seat for each of the workers. It waits for the registry's lock. The error is `NoSeat`, or `NoMemory`.
pub fn seats_of<J: RegistryId, R: Wait>(
    rt: &R,
    alloc: Global,
    registry: &Registry<J>,
    workers: usize,
) -> Result<Vec<Seat<J>>, ServeFault>
    ensures { IfOk result (λ seats. vec_len seats ≡ workers) }
{
    let mut seats = Vec::new(alloc);
    for _ in 0..workers {
        let Ok(seat) = registry.seat(rt) else {
            return Err(ServeFault::NoSeat);
        };
        if seats.push(seat).is_err() {
            return Err(ServeFault::NoMemory);
        }
    }
    Ok(seats)
}

/// Prints the address of the listener, as a line.
fn announce<R: Print>(rt: &R, address: SocketAddr) -> io::Result<()> {
    println!(rt; "{{\"listening\":\"{address}\"}}")
}

/// Starts a worker with each of the seats, the one with seat j at queue j, accepts the connections, and returns the seats when all
/// workers have ended, in the same order. The listener is closed after the last connection, so that later clients are refused
/// immediately and don't wait. If memory runs out or a worker's thread can't be started, the result is [`ServeFault::NoMemory`], no
/// connection is accepted, and seats may be missing. The function waits for connections and for their bytes, and isn't guaranteed
/// to return.
///
/// A worker answers all its connections through its seat, which has seen more with each of them. So what any two connections were
/// told stands in one list of commits: a commit number of one is that of the same commit for the other, after the same commits.
pub fn serve_connections<
    J: RegistryId + Send + Sync,
    R: Threads + Wait + Clock + Sync,
    L: OpenListener<Stream = TcpStream> + Drop,
>(
    context: &ServerContext<'_, J, R>,
    seats: Vec<Seat<J>>,
    queues: &[Queue],
    listener: L,
    connections: u64,
) -> (Vec<Seat<J>>, Result<(), ServeFault>)
    requires workers { 0 < length queues.now }
    requires seats { vec_len seats ≡ length queues.now }
    ensures grew { (result.1 ≡ Err OutOfMemory) ⊎ EachGrew J.first J.domain (vec_items seats) (vec_items result.0) }
    ensures one_list { HaveSeenOneList (vec_items result.0) }
{
    let (seats, served) = serve_by_workers(context, seats, queues, listener, connections);
    context.counts.close(context.rt);
    all_agree(seats.as_slice());
    (seats, served)
}

/// The same, without the contract on any two seats.
fn serve_by_workers<
    J: RegistryId + Send + Sync,
    R: Threads + Wait + Clock + Sync,
    L: OpenListener<Stream = TcpStream> + Drop,
>(
    context: &ServerContext<'_, J, R>,
    seats: Vec<Seat<J>>,
    queues: &[Queue],
    listener: L,
    connections: u64,
) -> (Vec<Seat<J>>, Result<(), ServeFault>)
    requires workers { 0 < length queues.now }
    requires seats { vec_len seats ≡ length queues.now }
    ensures { (result.1 ≡ Err OutOfMemory) ⊎ EachGrew J.first J.domain (vec_items seats) (vec_items result.0) }
{
    let (rt, alloc) = (context.rt, context.alloc);
    let Ok(left) = Vec::with_capacity(alloc, queues.len()) else {
        return (Vec::new(alloc), Err(ServeFault::NoMemory));
    };
    let Ok(mut workers) = Vec::with_capacity(alloc, queues.len()) else {
        return (left, Err(ServeFault::NoMemory));
    };
    thread::scope(
        thread::scope_env(),
        rt,
        |scope| -> (Vec<Seat<J>>, Result<(), ServeFault>)
            requires workers { 0 < length queues.now }
            requires seats { vec_len seats ≡ length queues.now }
            requires none { vec_items workers ≡ [] }
            requires room { length queues.now ≤ vec_capacity workers }
            requires empty { vec_items left ≡ [] }
            requires space { length queues.now ≤ vec_capacity left }
            ensures { (result.1 ≡ Err OutOfMemory) ⊎ EachGrew J.first J.domain (vec_items seats) (vec_items result.0) }
        {
            for seat in seats {
                let queue = &queues[workers.len()];
                let promise = GrownFrom(Snapshot::of(&seat));
                let Ok(worker) = scope.spawn_with(promise, move || work(context, seat, queue))
                else {
                    close_all(rt, queues);
                    return (left, Err(ServeFault::NoMemory));
                };
                let Ok(()) = workers.push(worker) else {
                    unreachable!()
                };
            }
            let accepted = accept_all(rt, listener, queues, connections, context.counts);
            close_all(rt, queues);
            (seats_at_end(rt, workers, left), accepted)
        },
    )
}

/// What a worker promises: it returns the seat that it was started with, after its sessions.
#[derive(Drop)]
struct GrownFrom<J: RegistryId>(Snapshot<Seat<J>>);

impl<J: RegistryId> Promise<Seat<J>> for GrownFrom<J> {
    ghost use Rattle.reg_programs.specs.Sessions.{Grew};

    ghost kept_by = { λ promise seat. Grew J.first J.domain promise.0.value seat };
}

/// Waits until each worker has ended, and appends its seat to `seats`, which is empty and has room for all of them.
fn seats_at_end<J: RegistryId, R: Threads>(
    rt: &R,
    workers: Vec<PromisedHandle<Seat<J>, GrownFrom<J>>>,
    mut seats: Vec<Seat<J>>,
) -> Vec<Seat<J>>
    requires empty { vec_items seats ≡ [] }
    requires room { vec_len workers ≤ vec_capacity seats }
    ensures count { vec_len result ≡ vec_len workers }
    ensures grew { (i : ℕ) (w : _) (s : Seated) → i < vec_len workers → Grew J.first J.domain (get_or (vec_items workers) i w).promise.0.value (get_or (vec_items result) i s) }
{
    for worker in workers {
        let Ok(()) = seats.push(worker.join(rt)) else {
            unreachable!()
        };
    }
    seats
}

/// Does nothing but bring the law on any two seats into the proof, for all of them.
fn all_agree<J: RegistryId>(seats: &[Seat<J>])
    ensures { HaveSeenOneList seats.now }
{
    for seat in seats {
        agrees_with_all(seat, seats);
    }
}

/// The same for one of the seats.
fn agrees_with_all<J: RegistryId>(seat: &Seat<J>, seats: &[Seat<J>])
    ensures { (i : ℕ) (s : Seated) → i < length seats.now → AreOneList seat.now.seen (get_or seats.now i s).seen }
{
    for other in seats {
        one_list(seat, other);
    }
}

/// Runs one worker with its seat, and returns the seat: it serves the connections of its queue, one after another.
fn work<J: RegistryId, R: Wait>(
    context: &ServerContext<'_, J, R>,
    mut seat: Seat<J>,
    queue: &Queue,
) -> Seat<J>
    ensures { Grew J.first J.domain seat result }
{
    for _ in context.rt.forever() {
        let Some(connection) = queue.take(context.rt) else {
            break
        };
        context.counts.count_begun(context.rt);
        seat = attend(context, seat, &connection);
        drop(connection);
        context.counts.count_ended(context.rt);
    }
    seat
}

/// Serves one connection, closes it in any case, and returns the seat.
fn attend<J: RegistryId, R: Wait>(
    context: &ServerContext<'_, J, R>,
    seat: Seat<J>,
    connection: &Connection,
) -> Seat<J>
    ensures { Grew J.first J.domain seat result }
{
    // so a reply is sent without delay; if the option can't be set, replies are sent all the same
    let _ = connection.stream.set_nodelay(true);
    let mut input = Input::new(CountedDevice::new(&connection.stream));
    let mut output = Output::new(CountedDevice::new(&connection.stream));
    let (seat, _) = session(
        context.rt,
        context.alloc,
        context.registry,
        context.domain,
        seat,
        connection.ids(context.seed),
        &mut input,
        &mut output,
    );
    seat
}
