//! The engines over memory: what a run replies, and tables of the expected replies.

ghost use Rattle.std.specs.Prelude.{◌≡◌, IfOk, None};

use crate::command_lines::words_of;
use crate::lines::add_line_of;
use crate::sessions::run_alone;
use crate::wanted::{holds, is_text};
use command_line::Settings;
use line_devices::{CountedDevice, Input, Output};
use line_engines::{RunEnd, RunFault, plain, record_schedule, schedule};
use reg_programs::run_settings;
use serde_json::Value;
use spiffe_name::TrustDomain;
use std::alloc::Global;
use std::process::Abort;
use std::sync::Wait;
use std::test::Fail;
use test_devices::{Chunking, FakeReader, FakeWriter, Faults};

/// Asserts that the bytes are those of this text.
pub fn is_written(rt: &impl Abort, got: &[u8], expected: &str) -> Result<(), Fail> {
    is_text(rt, str::from_utf8(got)?, expected, "what is written");
    Ok(())
}

/// The default seed.
pub const FIRST_SEED: [u8; 32] = [0; 32];

/// An engine.
#[derive(Clone, Copy)]
pub enum Engine {
    Plain,
    /// A seat that is alone on a registry with an empty book.
    Session,
    Schedule,
    /// A schedule that writes records.
    Record,
}

/// Runs an engine other than a session over these devices.
fn run_over(
    alloc: Global,
    engine: Engine,
    domain: TrustDomain,
    seed: [u8; 32],
    fake_reader: &mut FakeReader<'_>,
    fake_writer: &mut FakeWriter,
) -> Result<(), RunFault> {
    let mut input = Input::new(CountedDevice::new(fake_reader));
    let mut output = Output::new(CountedDevice::new(fake_writer));
    match engine {
        Engine::Plain | Engine::Session => plain(alloc, domain, seed, &mut input, &mut output),
        Engine::Schedule => schedule(alloc, domain, seed, &mut input, &mut output),
        Engine::Record => {
            match record_schedule(alloc, domain, seed, &mut input, &mut output) {
                Ok(_) => Ok(()),
                Err(fault) => Err(fault),
            }
        }
    }
}

/// The number of these lines that the engine that records a schedule of `ex.org` loses.
pub fn lines_lost(alloc: Global, bytes: &[u8]) -> Result<u64, Fail> {
    let domain = TrustDomain::parse(alloc, "ex.org")?;
    let mut fake_reader = FakeReader::new(bytes, Chunking::All, Faults::NONE);
    let mut fake_writer = FakeWriter::new(alloc, Chunking::All, Faults::NONE);
    let mut input = Input::new(CountedDevice::new(&mut fake_reader));
    let mut output = Output::new(CountedDevice::new(&mut fake_writer));
    match record_schedule(alloc, domain, FIRST_SEED, &mut input, &mut output) {
        Ok(lost) => Ok(lost),
        Err(_) => Err(Fail::from("the run failed")),
    }
}

/// Runs an engine over these devices.
fn run_with(
    rt: &(impl Abort + Wait),
    alloc: Global,
    engine: Engine,
    (domain, seed): (&str, [u8; 32]),
    fake_reader: &mut FakeReader<'_>,
    fake_writer: &mut FakeWriter,
) -> Result<Result<(), RunFault>, Fail> {
    let domain = TrustDomain::parse(alloc, domain)?;
    match engine {
        Engine::Session => run_alone(rt, alloc, domain, seed, fake_reader, fake_writer),
        _ => Ok(run_over(alloc, engine, domain, seed, fake_reader, fake_writer)),
    }
}

/// Runs the engine of `ex.org` with the first seed over these devices.
pub fn run(
    rt: &(impl Abort + Wait),
    alloc: Global,
    engine: Engine,
    fake_reader: &mut FakeReader<'_>,
    fake_writer: &mut FakeWriter,
) -> Result<Result<(), RunFault>, Fail> {
    run_with(
        rt,
        alloc,
        engine,
        ("ex.org", FIRST_SEED),
        fake_reader,
        fake_writer,
    )
}

/// The replies of an engine to these bytes.
fn answers_of(
    rt: &(impl Abort + Wait),
    alloc: Global,
    engine: Engine,
    (domain, seed): (&str, [u8; 32]),
    bytes: &[u8],
) -> Result<Vec<u8>, Fail> {
    let mut fake_reader = FakeReader::new(bytes, Chunking::All, Faults::NONE);
    let mut fake_writer = FakeWriter::new(alloc, Chunking::All, Faults::NONE);
    match run_with(
        rt,
        alloc,
        engine,
        (domain, seed),
        &mut fake_reader,
        &mut fake_writer,
    )? {
        Ok(()) => Ok(fake_writer.bytes),
        Err(_) => Err(Fail::from("the run failed")),
    }
}

/// The replies of `regd plain` with this trust domain and seed to these bytes, after asserting that they are compact and a
/// session's too.
pub fn answers_with(
    rt: &(impl Abort + Wait),
    alloc: Global,
    (domain, seed): (&str, [u8; 32]),
    bytes: &[u8],
) -> Result<Vec<u8>, Fail> {
    let answers = answers_of(rt, alloc, Engine::Plain, (domain, seed), bytes)?;
    are_compact(rt, alloc, &answers)?;
    let alone = answers_of(rt, alloc, Engine::Session, (domain, seed), bytes)?;
    is_written(rt, &alone, str::from_utf8(&answers)?)?;
    Ok(answers)
}

/// The same for `ex.org` with the first seed.
pub fn answers(rt: &(impl Abort + Wait), alloc: Global, bytes: &[u8]) -> Result<Vec<u8>, Fail> {
    answers_with(rt, alloc, ("ex.org", FIRST_SEED), bytes)
}

/// The settings of these words, which request no server.
fn settings_of_words(alloc: Global, words: &[&str]) -> Result<Settings, Fail>
    ensures { IfOk result (λ settings. settings.server ≡ None) }
{
    let settings = Settings::from_words(alloc, words)
        .ok()
        .ok_or("no settings")?;
    match settings.server() {
        None => Ok(settings),
        Some(_) => Err(Fail::from("a server is asked for")),
    }
}

/// Runs the program that settings request over these devices.
fn run_program(
    alloc: Global,
    settings: Settings,
    fake_reader: &mut FakeReader<'_>,
    fake_writer: &mut FakeWriter,
) -> Result<RunEnd, RunFault>
    requires { settings.server ≡ None }
{
    let mut input = Input::new(CountedDevice::new(fake_reader));
    let mut output = Output::new(CountedDevice::new(fake_writer));
    run_settings(alloc, settings, &mut input, &mut output)
}

/// The replies of the program of a command line to these bytes, after asserting that they are compact, and the outcome of the
/// run.
pub fn answers_of_words(
    rt: &impl Abort,
    alloc: Global,
    line: &str,
    outcome: RunEnd,
    bytes: &[u8],
) -> Result<Vec<u8>, Fail> {
    let settings = settings_of_words(alloc, &words_of(alloc, line)?)?;
    let mut fake_reader = FakeReader::new(bytes, Chunking::All, Faults::NONE);
    let mut fake_writer = FakeWriter::new(alloc, Chunking::All, Faults::NONE);
    let ended = run_program(alloc, settings, &mut fake_reader, &mut fake_writer);
    holds(rt, ended == Ok(outcome), "how the run ends");
    are_compact(rt, alloc, &fake_writer.bytes)?;
    Ok(fake_writer.bytes)
}

/// Asserts the outcome of the program of a command line over these bytes, and what it writes.
pub fn program_writes(
    rt: &impl Abort,
    alloc: Global,
    line: &str,
    outcome: RunEnd,
    bytes: &[u8],
    expected: &str,
) -> Result<(), Fail> {
    let got = answers_of_words(rt, alloc, line, outcome, bytes)?;
    is_written(rt, &got, expected)
}

/// A run's input, and its expected output.
#[derive(Drop)]
pub struct Table {
    pub asked: Vec<u8>,
    pub wanted: String,
}

impl Table {
    /// The lines of a table that begin with `{` or `«` are alternately requests and their replies, followed by an order line; its
    /// other lines say what is shown. Requests are in the notation of `lines`.
    pub fn of(alloc: Global, text: &str) -> Result<Table, Fail> {
        let mut table = Table {
            asked: Vec::new(alloc),
            wanted: String::new(alloc),
        };
        table.read(alloc, text)?;
        Ok(table)
    }

    /// Appends the lines of another table.
    pub fn read(&mut self, alloc: Global, text: &str) -> Result<(), Fail> {
        let mut is_answer = false;
        for line in text.lines() {
            if line.starts_with("{") || line.starts_with("«") {
                self.add(alloc, line, is_answer)?;
                is_answer = !is_answer;
            }
        }
        Ok(())
    }

    fn add(&mut self, alloc: Global, line: &str, is_answer: bool) -> Result<(), Fail> {
        if is_answer || line.starts_with("{\"order\":") {
            self.wanted.push_str(line)?;
            self.wanted.push_str("\n")?;
            return Ok(());
        }
        add_line_of(alloc, &mut self.asked, line)
    }
}

/// Asserts that the requests of the table, in one run of the engine of `ex.org` with the first seed, get their replies.
pub fn are_answered(rt: &(impl Abort + Wait), alloc: Global, text: &str) -> Result<(), Fail> {
    are_answered_with(rt, alloc, ("ex.org", FIRST_SEED), text)
}

/// The same for an engine of another trust domain, or with another seed.
pub fn are_answered_with(
    rt: &(impl Abort + Wait),
    alloc: Global,
    domain_and_seed: (&str, [u8; 32]),
    text: &str,
) -> Result<(), Fail> {
    let table = Table::of(alloc, text)?;
    let got = answers_with(rt, alloc, domain_and_seed, &table.asked)?;
    is_written(rt, &got, table.wanted.as_str())
}

/// Asserts that the lines of the table, in one run of the program of a command line, get their replies, and then the order line.
pub fn are_answered_by(rt: &impl Abort, alloc: Global, line: &str, text: &str) -> Result<(), Fail> {
    let table = Table::of(alloc, text)?;
    let expected = table.wanted.as_str();
    program_writes(rt, alloc, line, RunEnd::Done, &table.asked, expected)
}

/// Asserts that `serde_json` writes the same text for the value that it parses from the line.
fn is_compact(rt: &impl Abort, alloc: Global, line: &str) -> Result<(), Fail> {
    let value = Value::from_str(alloc, line)?;
    let again = value.to_string(alloc)?;
    is_text(rt, again.as_str(), line, "compact");
    Ok(())
}

fn are_compact(rt: &impl Abort, alloc: Global, lines: &[u8]) -> Result<(), Fail> {
    for line in str::from_utf8(lines)?.lines() {
        is_compact(rt, alloc, line)?;
    }
    Ok(())
}
