//! Sessions over memory, and over devices that fail: a seat that is alone on a registry replies what a plain book replies.

ghost use Rattle.std.specs.Prelude.{◌≡◌};
ghost use Rattle.entry_book.specs.History.{first_books};

use crate::engine::{Engine, Table};
use crate::failing::{fail_each_read, fail_each_write};
use line_devices::{CountedDevice, Input, Output};
use line_engines::RunFault;
use line_reading::Ids;
use reg_programs::session;
use shared_registry::{NewHistory, Registry, RegistryId, Seat};
use spiffe_name::TrustDomain;
use std::alloc::Global;
use std::marker::Brand;
use std::sync::Wait;
use std::test::Fail;
use test_devices::{Chunking, FakeReader, FakeWriter};

/// Runs the session of this seat over these devices.
fn session_of_seat<J: RegistryId, R: Wait>(
    rt: &R,
    alloc: Global,
    registry: &Registry<J>,
    seat: Seat<J>,
    domain: &TrustDomain,
    seed: [u8; 32],
    fake_reader: &mut FakeReader<'_>,
    fake_writer: &mut FakeWriter,
) -> Result<(), RunFault>
    requires domain { domain.now ≡ J.domain }
{
    let mut input = Input::new(CountedDevice::new(fake_reader));
    let mut output = Output::new(CountedDevice::new(fake_writer));
    let ids = Ids::of_seed(seed);
    let (_, ran) = session(
        rt,
        alloc,
        registry,
        domain,
        seat,
        ids,
        &mut input,
        &mut output,
    );
    ran
}

/// Runs a session over these devices, through a seat that is alone on a registry with an empty book.
fn session_of<J: RegistryId, R: Wait>(
    rt: &R,
    alloc: Global,
    new_history: NewHistory,
    kept: TrustDomain,
    domain: &TrustDomain,
    seed: [u8; 32],
    fake_reader: &mut FakeReader<'_>,
    fake_writer: &mut FakeWriter,
) -> Result<Result<(), RunFault>, Fail>
    requires history { new_history.seen.book ≡ J.history }
    requires first { J.first ≡ first_books }
    requires kept { kept ≡ J.domain }
    requires domain { domain.now ≡ J.domain }
{
    let registry = Registry::<J>::new(alloc, new_history, kept)?;
    let ran = match registry.seat(rt) {
        Ok(seat) => Ok(session_of_seat(
            rt,
            alloc,
            &registry,
            seat,
            domain,
            seed,
            fake_reader,
            fake_writer,
        )),
        Err(_) => Err(Fail::from("no seat")),
    };
    registry.close(rt);
    ran
}

/// The same, with a registry of its own.
pub fn run_alone<R: Wait>(
    rt: &R,
    alloc: Global,
    domain: TrustDomain,
    seed: [u8; 32],
    fake_reader: &mut FakeReader<'_>,
    fake_writer: &mut FakeWriter,
) -> Result<Result<(), RunFault>, Fail> {
    let kept = domain.clone()?;
    session_of::<Brand, _>(
        rt,
        alloc,
        NewHistory::new(),
        kept,
        &domain,
        seed,
        fake_reader,
        fake_writer,
    )
}

/// An agent, an entry under it, and the agent's authorised entries.
const FIRST_LINES: &str = r#"
{"ops":[{"op":"set_agent","agent":"spiffe://ex.org/spire/agent/n1","selectors":["x:1"]}]}
{"call":1,"place":1,"replies":[{"agent":{"id":"spiffe://ex.org/spire/agent/n1","selectors":["x:1"]}}],"result":"committed"}
{"ops":[{"op":"create","id":"00000000-0000-0000-0000-000000000001","parent":"spiffe://ex.org/spire/agent/n1","identity":"spiffe://ex.org/web","selectors":["unix:uid:1000"]}]}
{"call":2,"place":2,"replies":[{"entry":{"domains":[],"expiry":0,"hint":"","id":"00000000-0000-0000-0000-000000000001","identity":"spiffe://ex.org/web","parent":"spiffe://ex.org/spire/agent/n1","revision":0,"selectors":["unix:uid:1000"]}}],"result":"committed"}
{"ops":[{"op":"authorised","agent":"spiffe://ex.org/spire/agent/n1"}]}
{"call":3,"place":2,"replies":[{"entries":[{"domains":[],"expiry":0,"hint":"","id":"00000000-0000-0000-0000-000000000001","identity":"spiffe://ex.org/web","parent":"spiffe://ex.org/spire/agent/n1","revision":0,"selectors":["unix:uid:1000"]}]}],"result":"answered"}
"#;

/// At a failed read the reply to each line so far is out.
#[test]
fn each_failing_read_ends_the_session(rt: HostRuntime) -> Result<(), Fail> {
    let table = Table::of(rt.alloc(), FIRST_LINES)?;
    fail_each_read(&rt, rt.alloc(), Engine::Session, &table, Chunking::Line)
}

#[test]
fn each_failing_write_ends_the_session(rt: HostRuntime) -> Result<(), Fail> {
    let table = Table::of(rt.alloc(), FIRST_LINES)?;
    for to in [Chunking::All, Chunking::Byte] {
        fail_each_write(
            &rt,
            rt.alloc(),
            Engine::Session,
            &table,
            (Chunking::All, to),
        )?;
    }
    Ok(())
}
