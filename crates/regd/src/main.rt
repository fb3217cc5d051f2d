//! `regd`, a workload registration server.
//!
//! The process parses its words, runs the requested program over standard input and output or the network, and reports its end by
//! a text on a standard stream and the exit status. The programs are in `reg_programs`.
//!
//! `docs/GLOSSARY.md` explains the terms.
#![tactic(auto)]

ghost use Rattle.std.specs.Prelude.{◌≡◌, ◌<◌, None, Some, true};
ghost use Rattle.command_line.specs.CommandLine.{has_book};

use command_line::{LineFault, ServerPlan, Settings};
use line_devices::{CountedDevice, Input, Output};
use line_engines::{RunEnd, RunFault};
use reg_programs::{Ended, Server, Stream, run_settings, serve, status, told};
use std::io::Eprint;
use std::net::{Net, TcpListener, TcpStream};
use std::process::ExitCode;
use std::rt::Env;
use std::sync::Wait;
use std::thread::Threads;
use std::time::Clock;
use std::{env, io};

fn main(rt: HostRuntime) -> ExitCode {
    let ended = match settings_of_process(&rt) {
        Ok(settings) => run(&rt, settings),
        Err(fault) => Ended::of(Err(fault)),
    };
    ExitCode::from(report(&rt, ended))
}

/// Runs the requested program, and returns how it ended.
fn run<
    R: Threads
        + Wait
        + Clock
        + io::Input
        + Print
        + Eprint
        + Net<Listener = TcpListener, Stream = TcpStream>
        + AllocGlobal
        + Sync,
>(rt: &R, settings: Settings) -> Ended {
    if !settings.program().has_book() {
        return told(rt.alloc(), settings);
    }
    match settings.server() {
        Some(plan) => serve_settings(rt, settings, plan),
        None => Ended::of(Ok(run_lines_of(rt, settings))),
    }
}

/// Writes the text of the end to its stream, and returns the exit status. If a text that was asked for can't be written, that is
/// the end.
fn report<R: Print + Eprint>(rt: &R, ended: Ended) -> u8 {
    let code = status(&ended);
    match ended.stream() {
        Stream::Output => {
            if rt.print(ended.exit_message()).is_ok() {
                return code;
            }
            report_error(rt, Ended::Output)
        }
        Stream::Error => report_error(rt, ended),
    }
}

/// Writes the text of the end to standard error, and returns the exit status.
fn report_error<R: Eprint>(rt: &R, ended: Ended) -> u8 {
    let code = status(&ended);
    // if standard error fails, there is no way left to report it
    let _ = rt.eprint(ended.exit_message());
    code
}

/// Runs the requested program over standard input and output, to the end of the input, and returns the result.
fn run_lines_of<R: io::Input + Print + AllocGlobal>(
    rt: &R,
    settings: Settings,
) -> Result<RunEnd, RunFault>
    requires { settings.server ≡ None }
{
    let mut input = Input::new(CountedDevice::new(rt.reader()));
    let mut output = Output::new(CountedDevice::new(io::writer(rt)));
    run_settings(rt.alloc(), settings, &mut input, &mut output)
}

/// Runs the requested server to the end of its last connection, and returns how it ended.
fn serve_settings<
    R: Threads
        + Wait
        + Clock
        + Print
        + Eprint
        + Net<Listener = TcpListener, Stream = TcpStream>
        + AllocGlobal
        + Sync,
>(rt: &R, settings: Settings, plan: ServerPlan) -> Ended
    requires book { has_book settings.program ≡ true }
    requires workers { 0 < plan.workers }
{
    let Some(domain) = settings.domain() else {
        unreachable!()
    };
    let server = Server {
        domain,
        seed: settings.seed(),
        plan,
    };
    Ended::of_server(serve(rt, rt.alloc(), server))
}

/// Returns the settings that the words of the process request.
fn settings_of_process<R: Env + AllocGlobal>(rt: &R) -> Result<Settings, LineFault> {
    let words = words_of_process(rt)?;
    let texts: Vec<&str> = words.iter().map(String::as_str).collect(rt.alloc())?;
    Settings::from_words(rt.alloc(), &texts)
}

/// Returns the words of the process, its own name first.
fn words_of_process<R: Env + AllocGlobal>(rt: &R) -> Result<Vec<String>, LineFault> {
    match env::args(rt) {
        Ok(words) => Ok(words.collect(rt.alloc())?),
        Err(error) if error.kind() == io::ErrorKind::OutOfMemory => Err(LineFault::NoMemory),
        Err(_) => Err(LineFault::NotText),
    }
}
