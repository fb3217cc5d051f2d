//! Which connection goes to which worker, and what happens after an error of `accept`?

ghost use Rattle.std.specs.Prelude.{◌≡◌, ◌<◌, ◌≤◌, ◌+◌, ◌%◌, Ok, Err, false, length, true};
ghost use Rattle.reg_programs.specs.declared.accept_fault.AcceptFault.TheVariants.{Connection as OfConnection, Shortage as OfShortage, Listener as OfListener};
ghost use Rattle.reg_programs.specs.declared.serve_fault.ServeFault.TheVariants.{Accept};

use crate::accept_fault::AcceptFault;
use crate::queue::{Connection, Queue};
use crate::serve_fault::ServeFault;
use crate::server_counts::ServerCounts;
use std::net::{OpenListener, TcpStream};
use std::sync::Wait;
use std::thread;
use std::time::{Clock, Duration};

/// The number of shortages in a row that end a server that has accepted no connection yet.
const MOST_SHORTAGES: u32 = 1_000;

/// Accepts this many connections, in order, and puts connection j, counted from 0, into queue j mod N of N. If an allocation
/// fails when one is put, that one is closed, and the others go on. At the end the listener is closed.
///
/// After an error of one connection it tries again, ten milliseconds later. It does the same after a shortage: once a connection
/// was accepted, without a limit, because an end would lose the book; before that, at most 999 times in a row. Any other error
/// ends it. `counts` has each connection and each error.
pub(crate) fn accept_all<R: Wait + Clock, L: OpenListener<Stream = TcpStream> + Drop>(
    rt: &R,
    listener: L,
    queues: &[Queue],
    connections: u64,
    counts: &ServerCounts,
) -> Result<(), ServeFault>
    requires { 0 < length queues.now }
{
    for number in 0..connections {
        let stream = next_stream(rt, &listener, number > 0, counts)?;
        counts.count_accepted(rt);
        let queue = &queues[worker_of(number, queues.len())];
        let _ = queue.put(rt, Connection { number, stream });
    }
    Ok(())
}

/// Returns the worker of the connection with this number.
fn worker_of(number: u64, workers: usize) -> usize
    requires { 0 < workers }
    ensures worker { result ≡ number % workers }
    ensures below { result < workers }
{
    (number % workers as u64) as usize
}

/// Returns the next connection. `has_accepted` says whether one was accepted before.
fn next_stream<R: Wait + Clock, L: OpenListener<Stream = TcpStream>>(
    rt: &R,
    listener: &L,
    has_accepted: bool,
    counts: &ServerCounts,
) -> Result<TcpStream, ServeFault> {
    let mut shortages = 0;
    for _ in rt.forever() {
        let error = match listener.accept() {
            Ok((stream, _)) => return Ok(stream),
            Err(error) => error,
        };
        counts.count_failed(rt);
        shortages = shortages_after(AcceptFault::of(&error), shortages, has_accepted)?;
        thread::sleep(rt, Duration::from_millis(10));
    }
    unreachable!()
}

/// Returns the number of shortages in a row after this error, or an error if `accept` isn't to be tried again. Shortages aren't
/// counted once a connection was accepted.
fn shortages_after(
    fault: AcceptFault,
    shortages: u32,
    has_accepted: bool,
) -> Result<u32, ServeFault>
    ensures connection { fault ≡ OfConnection → result ≡ Ok 0 }
    ensures accepted { fault ≡ OfShortage → has_accepted ≡ true → result ≡ Ok 0 }
    ensures borne { fault ≡ OfShortage → has_accepted ≡ false → shortages + 1 < 1000 → result ≡ Ok (shortages + 1) }
    ensures last { fault ≡ OfShortage → has_accepted ≡ false → 1000 ≤ shortages + 1 → result ≡ Err Accept }
    ensures listener { fault ≡ OfListener → result ≡ Err Accept }
{
    match fault {
        AcceptFault::Connection => Ok(0),
        AcceptFault::Shortage if has_accepted => Ok(0),
        AcceptFault::Shortage if shortages < MOST_SHORTAGES - 1 => Ok(shortages + 1),
        AcceptFault::Shortage | AcceptFault::Listener => Err(ServeFault::Accept),
    }
}
