//! What does each program do?

ghost use Rattle.std.specs.Prelude.{◌≡◌, [], None, Ok, Some, false, true};
ghost use Rattle.command_line.specs.CommandLine.{has_book};
ghost use Rattle.line_engines.specs.declared.run_end.RunEnd.TheVariants.{Done as IsDone};
ghost use Rattle.reg_programs.specs.Programs.{RunsAs, run_end_of_recording, run_end_of_result, runs_lines};

use command_line::{Program, Settings};
use line_devices::{Input, Output, Sink, Source};
use line_engines::{RunEnd, RunFault, audit, plain, record_schedule, schedule};
use spiffe_name::TrustDomain;
use std::alloc::Global;

/// Runs the program that the settings request, which is not a server, with their trust domain and seed: it answers each line of
/// the input, in order. A recorded schedule that lost lines for lack of memory returns how many. A program without a book reads
/// and writes no lines.
pub fn run_settings<S: Source, K: Sink>(
    alloc: Global,
    settings: Settings,
    input: &mut Input<S>,
    output: &mut Output<K>,
) -> Result<RunEnd, RunFault>
    requires lines { settings.server ≡ None }
    requires input { input.old.failures ≡ 0 }
    requires output { output.old.failures ≡ 0 }
    requires none_held { output.old.held ≡ [] }
    ensures runs { has_book settings.program ≡ true → (domain : _) × (settings.domain ≡ Some domain) × RunsAs settings.program domain settings.seed input.old input.new output.old output.new result }
    ensures no_lines { has_book settings.program ≡ false → (result ≡ Ok IsDone) × (input.new ≡ input.old) × (output.new ≡ output.old) }
{
    let program = settings.program();
    if !program.has_book() {
        return Ok(RunEnd::Done);
    }
    let seed = settings.seed();
    let _server = settings.server();
    let Some(domain) = settings.into_domain() else {
        unreachable!()
    };
    run_program(alloc, program, domain, seed, input, output)
}

/// The same for a program with this trust domain and seed.
fn run_program<S: Source, K: Sink>(
    alloc: Global,
    program: Program,
    domain: TrustDomain,
    seed: [u8; 32],
    input: &mut Input<S>,
    output: &mut Output<K>,
) -> Result<RunEnd, RunFault>
    requires lines { runs_lines program ≡ true }
    requires input { input.old.failures ≡ 0 }
    requires output { output.old.failures ≡ 0 }
    requires none_held { output.old.held ≡ [] }
    ensures { RunsAs program domain seed input.old input.new output.old output.new result }
{
    match program {
        Program::Plain => done(plain(alloc, domain, seed, input, output)),
        Program::Schedule => done(schedule(alloc, domain, seed, input, output)),
        Program::Record => recorded(record_schedule(alloc, domain, seed, input, output)),
        Program::Audit => audit(alloc, domain, input, output),
        Program::Serve | Program::Explain | Program::Version | Program::Help => unreachable!(),
    }
}

/// Returns the outcome of a run that answers each line.
fn done(ran: Result<(), RunFault>) -> Result<RunEnd, RunFault>
    ensures { result ≡ run_end_of_result ran }
{
    match ran {
        Ok(()) => Ok(RunEnd::Done),
        Err(fault) => Err(fault),
    }
}

/// Returns the outcome of a recorded schedule, from the number of the lines that it lost.
fn recorded(ran: Result<u64, RunFault>) -> Result<RunEnd, RunFault>
    ensures { result ≡ run_end_of_recording ran }
{
    match ran {
        Ok(0) => Ok(RunEnd::Done),
        Ok(lost) => Ok(RunEnd::Shortened(lost)),
        Err(fault) => Err(fault),
    }
}
