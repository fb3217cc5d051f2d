//! Which address does a server print, and does it follow its plan?

ghost use Rattle.std.specs.Prelude.{◌<◌};

use crate::hosting::exchange;
use crate::serving::{ONE_CREATE, TWO_CREATES};
use crate::staged::{TURNS, Watched};
use crate::wanted::{holds, is_text};
use command_line::ServerPlan;
use reg_programs::{ServeFault, Server, serve};
use spiffe_name::TrustDomain;
use std::alloc::Global;
use std::io::Eprint;
use std::net::{Ipv4Addr, Net, SocketAddr, SocketAddrV4, TcpListener, TcpStream};
use std::process::Abort;
use std::sync::Wait;
use std::test::Fail;
use std::thread::Threads;
use std::time::{Clock, Duration};
use std::{io, thread};

const QUESTION: &str = r#"{"ops":[{"op":"authorised","agent":"spiffe://ex.org/spire/agent/n1"}]}
"#;

/// The agent isn't in the empty book.
const ANSWER: &str = r#"{"call":1,"code":"O7","op":0,"place":0,"result":"refused"}
"#;

/// The ids are the first two of stream 1 and the first one of stream 2 of a seed of ones, by the definition of ChaCha20. The last
/// client is served by another worker.
const CREATED: &str =
    r#"{"call":1,"place":1,"replies":[{"entry":{"domains":[],"expiry":0,"hint":"","id":"90837ae0-515e-4718-8893-1b329d5dd3cc","identity":"spiffe://ex.org/a","parent":"spiffe://ex.org/spire/agent/n1","revision":0,"selectors":["u:1"]}}],"result":"committed"}
{"call":2,"place":2,"replies":[{"entry":{"domains":[],"expiry":0,"hint":"","id":"254c5c66-908c-4065-9c53-dec55c9d8437","identity":"spiffe://ex.org/b","parent":"spiffe://ex.org/spire/agent/n1","revision":0,"selectors":["u:1"]}}],"result":"committed"}
{"call":1,"place":3,"replies":[{"entry":{"domains":[],"expiry":0,"hint":"","id":"0761b95f-956a-44d7-978f-3fcd59609b15","identity":"spiffe://ex.org/c","parent":"spiffe://ex.org/spire/agent/n1","revision":0,"selectors":["u:1"]}}],"result":"committed"}
"#;

/// The clients of a server.
#[derive(Clone, Copy)]
enum Clients {
    /// One, with a query.
    One,
    /// The first one is silent until the second one has its replies. Then the third one connects. These two create entries.
    Three,
}

/// A plan at a port that the system chooses.
fn plan_of(workers: u16, connections: u16) -> ServerPlan
    requires { 0 < workers }
    ensures { 0 < result.workers }
{
    ServerPlan {
        listen: SocketAddrV4::new(Ipv4Addr::LOCALHOST, 0),
        workers,
        connections: Some(connections),
    }
}

/// Waits until something is printed, and returns the address of the listener.
fn printed_address<R: Wait + Clock>(rt: &R, watched: &Watched<'_, R>) -> io::Result<SocketAddr> {
    for _ in 0..TURNS {
        if watched.has_printed() {
            if let Some(address) = watched.bound() {
                return Ok(address);
            }
        }
        thread::sleep(rt, Duration::from_millis(1));
    }
    Err(io::Error::from(io::ErrorKind::TimedOut))
}

/// Calls the server at the address of its listener, and returns the replies.
fn answers_of<R: Wait + Clock + Net<Listener = TcpListener, Stream = TcpStream>>(
    rt: &R,
    alloc: Global,
    watched: &Watched<'_, R>,
    clients: Clients,
) -> io::Result<String> {
    let address = printed_address(rt, watched)?;
    let mut answers = String::new(alloc);
    match clients {
        Clients::One => exchange(&TcpStream::connect(rt, address)?, QUESTION, &mut answers)?,
        Clients::Three => {
            let silent = TcpStream::connect(rt, address)?;
            exchange(&TcpStream::connect(rt, address)?, TWO_CREATES, &mut answers)?;
            drop(silent);
            exchange(&TcpStream::connect(rt, address)?, ONE_CREATE, &mut answers)?;
        }
    }
    Ok(answers)
}

/// Runs a server with this plan, and a seed of ones.
fn serve_by<
    R: Threads
        + Wait
        + Clock
        + Print
        + Eprint
        + Net<Listener = TcpListener, Stream = TcpStream>
        + Sync,
>(rt: &R, alloc: Global, plan: ServerPlan) -> Result<Result<(), ServeFault>, Fail>
    requires { 0 < plan.workers }
{
    let domain = TrustDomain::parse(alloc, "ex.org")?;
    let server = Server {
        domain: &domain,
        seed: [1; 32],
        plan,
    };
    Ok(serve(rt, alloc, server))
}

/// Asserts that a server with this plan prints the address of its listener and nothing on standard error, and what its clients get.
fn is_announced<
    R: Abort + Threads + Wait + Clock + Net<Listener = TcpListener, Stream = TcpStream> + Sync,
>(rt: &R, alloc: Global, plan: ServerPlan, clients: Clients, answer: &str) -> Result<(), Fail>
    requires workers { 0 < plan.workers }
{
    let watched = Watched::new(rt, alloc, false);
    let runtime = &watched;
    let (answers, served) = thread::join(
        rt,
        || answers_of(rt, alloc, runtime, clients),
        ||
            requires workers { 0 < plan.workers }
        { serve_by(runtime, alloc, plan) },
    );
    holds(rt, served?.is_ok(), "the server ends well");
    is_text(rt, answers?.as_str(), answer, "the answers");
    let Some(address) = watched.bound() else {
        return Err(Fail::from("no listener"));
    };
    holds(rt, address.port() != 0, "a port was chosen");
    holds(rt, !watched.has_logged(), "nothing on standard error");
    let expected = format!(in alloc; "{{\"listening\":\"{address}\"}}\n")?;
    let printed = watched.into_printed();
    is_text(rt, printed.as_str(), expected.as_str(), "what is printed");
    Ok(())
}

#[test]
fn the_address_that_the_listener_got_is_printed(rt: HostRuntime) -> Result<(), Fail> {
    is_announced(&rt, rt.alloc(), plan_of(1, 1), Clients::One, ANSWER)
}

#[test]
fn a_server_has_the_workers_the_connections_and_the_seed_of_its_plan(
    rt: HostRuntime,
) -> Result<(), Fail> {
    is_announced(&rt, rt.alloc(), plan_of(2, 3), Clients::Three, CREATED)
}

#[test]
fn a_server_whose_port_is_in_use_ends(rt: HostRuntime) -> Result<(), Fail> {
    let taken = TcpListener::bind(&rt, SocketAddrV4::new(Ipv4Addr::LOCALHOST, 0))?;
    let SocketAddr::V4(listen) = taken.local_addr()? else {
        return Err(Fail::from("no address of IPv4"));
    };
    let plan = ServerPlan {
        listen,
        workers: 1,
        connections: Some(1),
    };
    let served = serve_by(&rt, rt.alloc(), plan)?;
    holds(&rt, served == Err(ServeFault::Listen), "it can't listen");
    Ok(())
}

#[test]
fn a_server_that_can_t_print_its_address_ends(rt: HostRuntime) -> Result<(), Fail> {
    let watched = Watched::new(&rt, rt.alloc(), true);
    let served = serve_by(&watched, rt.alloc(), plan_of(1, 1))?;
    holds(&rt, served == Err(ServeFault::Output), "it can't print");
    Ok(())
}
