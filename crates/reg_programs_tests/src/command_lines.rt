//! Command lines and what `regd` writes about them, word for word.

use crate::wanted::{holds, is_text};
use command_line::{
    LineFault, Program, ServerPlan, Settings, a_line_gives_its_domain, a_line_without_a_book,
};
use line_engines::{RunEnd, RunFault};
use reg_programs::{Ended, ServeFault, Stream, status, told};
use spiffe_name::IdRefusal;
use std::alloc::Global;
use std::fmt::Display;
use std::process::Abort;
use std::test::Fail;

/// The words of a command line, which bars separate.
pub fn words_of<'a>(alloc: Global, line: &'a str) -> Result<Vec<&'a str>, Fail> {
    let mut words = Vec::new(alloc);
    for word in line.split('|') {
        words.push(word)?;
    }
    Ok(words)
}

/// The status of an end, and its text with `$` for each line feed, after a `>` if it goes to standard output.
fn exit_message_of(alloc: Global, ended: Ended) -> Result<String, Fail> {
    let code = status(&ended);
    let stream = match ended.stream() {
        Stream::Output => ">",
        Stream::Error => "",
    };
    let text = ended.exit_message().to_string(alloc)?;
    let text = text.replace(alloc, "\n", "$")?;
    Ok(format!(in alloc; "{code} {stream}{text}")?)
}

/// A program, and the word for it on a command line.
fn program_text(alloc: Global, program: Program) -> Result<String, Fail> {
    let name = program.name();
    let program = match program {
        Program::Plain => "plain",
        Program::Schedule => "schedule",
        Program::Record => "record",
        Program::Audit => "audit",
        Program::Serve => "serve",
        Program::Explain => "explain",
        Program::Version => "version",
        Program::Help => "help",
    };
    Ok(format!(in alloc; "{program} by {name}")?)
}

/// What settings request: the program, the domain and the last byte of the seed; for a server its address, its workers and its
/// connections.
fn settings_text(alloc: Global, settings: &Settings) -> Result<String, Fail> {
    if let Some(plan) = settings.server() {
        let ServerPlan {
            listen,
            workers,
            connections,
        } = plan;
        return match connections {
            Some(connections) => Ok(format!(in alloc; "{listen} {workers} {connections}")?),
            None => Ok(format!(in alloc; "{listen} {workers} and no last one")?),
        };
    }
    let [.., last] = settings.seed();
    let program = program_text(alloc, settings.program())?;
    match settings.domain() {
        Some(domain) => Ok(format!(in alloc; "{program} {domain} {last}")?),
        None => Ok(program),
    }
}

/// The settings of a command line, or what `regd` writes about it.
fn exit_message(alloc: Global, words: &[&str]) -> Result<String, Fail> {
    match Settings::from_words(alloc, words) {
        Ok(settings) => settings_text(alloc, &settings),
        Err(LineFault::NoMemory) => Err(Fail::from("no memory")),
        Err(fault) => exit_message_of(alloc, Ended::of(Err(fault))),
    }
}

/// Asserts that the text is this one, or begins with the text before a `*`.
fn is_or_begins(rt: &impl Abort, got: &str, expected: &str) {
    match expected.strip_suffix('*') {
        Some(start) => holds(rt, got.starts_with(start), got),
        None => is_text(rt, got, expected, expected),
    }
}

/// Asserts the settings of a command line, or what `regd` writes about it.
fn has_exit_message(
    rt: &impl Abort,
    alloc: Global,
    line: &str,
    expected: &str,
) -> Result<(), Fail> {
    let words = words_of(alloc, line)?;
    let exit_message = exit_message(alloc, &words)?;
    is_or_begins(rt, exit_message.as_str(), expected);
    Ok(())
}

/// Each line of the table is a command line and the result of `exit_message`: all of it, or the text before a `*`.
fn have_exit_messages(rt: &impl Abort, alloc: Global, table: &str) -> Result<(), Fail> {
    for case in table.lines() {
        if let Some((line, expected)) = case.split_once(" => ") {
            has_exit_message(rt, alloc, line, expected)?;
        }
    }
    Ok(())
}

/// A domain in each form of its option, and after any name of the program.
const DOMAINS: &str = "
regd|plain|--domain|ex.org => plain by plain ex.org 0
./out/regd|plain|--domain=ex.org => plain by plain ex.org 0
|plain|--domain|ex.org|-- => plain by plain ex.org 0
";

#[test]
fn settings_have_the_domain_that_was_given(rt: HostRuntime) -> Result<(), Fail> {
    a_line_gives_its_domain();
    have_exit_messages(&rt, rt.alloc(), DOMAINS)
}

const RECORDS: &str = "
regd|plain|--domain|ex.org => plain by plain ex.org 0
regd|schedule|--domain|ex.org => schedule by schedule ex.org 0
regd|schedule|--domain|ex.org|--record => record by schedule ex.org 0
regd|schedule|--record|--domain=ex.org => record by schedule ex.org 0
regd|plain|--domain|ex.org|--record => 2 error: unexpected argument '--record' found$*
";

#[test]
fn records_are_asked_for_by_a_word_of_their_own(rt: HostRuntime) -> Result<(), Fail> {
    have_exit_messages(&rt, rt.alloc(), RECORDS)
}

/// The seed is all zeros except for its last byte, which its last two digits give.
const SEEDS: &str = "
regd|plain|--domain|ex.org|--seed|00000000000000000000000000000000000000000000000000000000000000ab => plain by plain ex.org 171
regd|plain|--domain|ex.org|--seed|00000000000000000000000000000000000000000000000000000000000000aB => 2 regd: seed$
regd|plain|--domain|ex.org|--seed|00000000000000000000000000000000000000000000000000000000000000ag => 2 regd: seed$
regd|plain|--domain|ex.org|--seed|00000000000000000000000000000000000000000000000000000000000000a => 2 regd: seed$
regd|plain|--domain|ex.org|--seed|00000000000000000000000000000000000000000000000000000000000000ab0 => 2 regd: seed$
regd|plain|--domain|ex.org|--seed|000000000000000000000000000000000000000000000000000000000000ab => 2 regd: seed$
regd|plain|--seed||--domain|ex.org => 2 regd: seed$
";

#[test]
fn a_seed_is_64_lower_case_hexadecimal_digits(rt: HostRuntime) -> Result<(), Fail> {
    have_exit_messages(&rt, rt.alloc(), SEEDS)
}

const NO_DOMAINS: &str = "
regd|plain|--seed|x|--domain|a/b => 2 regd: domain I5$
regd|plain|--domain|Ex.org => 2 regd: domain I5$
regd|plain|--domain| => 2 regd: domain I3$
regd|plain|--domain=a/b => 2 regd: domain I5$
";

#[test]
fn a_domain_that_is_none_is_refused_with_its_code(rt: HostRuntime) -> Result<(), Fail> {
    have_exit_messages(&rt, rt.alloc(), NO_DOMAINS)
}

/// The parser's refusals come before that of the domain, which is invalid in each of these lines.
const OTHER_WORDS: &str = "
regd => 2 error: 'regd' requires a subcommand but one was not provided$*
regd|session|--domain|A => 2 error: unrecognized subcommand 'session'$*
regd|plain => 2 error: the following required arguments were not provided:$  --domain <D>$*
regd|plain|--domain => 2 error: a value is required for '--domain <D>' but none was supplied$*
regd|plain|--domain|A|--nope => 2 error: unexpected argument '--nope' found$*
regd|--help => 2 A workload registration server$$Usage: regd <COMMAND>$*
regd|plain|--domain|A|-h => 2 Answers request lines by the reference implementation*
regd|serve|--help => 2 Answers request lines over TCP, by several workers at a time, and ends when its last connection has ended$*
";

#[test]
fn the_parser_refuses_every_other_word(rt: HostRuntime) -> Result<(), Fail> {
    let exit_message = exit_message(rt.alloc(), &[])?;
    let expected = "2 error: 'regd' requires a subcommand but one was not provided$*";
    is_or_begins(&rt, exit_message.as_str(), expected);
    have_exit_messages(&rt, rt.alloc(), OTHER_WORDS)
}

const SERVERS: &str = "
regd|serve|--domain|ex.org|--listen|127.0.0.1:0|--workers|2 => 127.0.0.1:0 2 and no last one
regd|serve|--domain|ex.org|--connections|1|--listen|127.0.0.1:0|--workers|1 => 127.0.0.1:0 1 1
regd|serve|--domain|ex.org|--connections|65535|--listen|0.0.0.0:65535|--workers|32 => 0.0.0.0:65535 32 65535
regd|serve|--domain|ex.org|--connections|1|--listen|localhost:80|--workers|1 => 2 regd: listen$
regd|serve|--domain|ex.org|--connections|1|--listen|[::1]:80|--workers|1 => 2 regd: listen$
regd|serve|--domain|ex.org|--connections|1|--listen|127.0.0.1|--workers|1 => 2 regd: listen$
regd|serve|--domain|ex.org|--connections|1|--listen|127.0.0.1:65536|--workers|1 => 2 regd: listen$
";

#[test]
fn a_server_is_asked_for_by_its_address_and_its_numbers(rt: HostRuntime) -> Result<(), Fail> {
    have_exit_messages(&rt, rt.alloc(), SERVERS)
}

/// The parser's refusals come first, and then the domain, the seed and the address.
const FAULTS_OF_SERVERS: &str = "
regd|serve|--domain|A|--seed|x|--listen|here|--workers|0|--connections|1 => 2 error: invalid value '0' for '--workers <N>'*
regd|serve|--domain|A|--seed|x|--listen|here|--workers|33|--connections|1 => 2 error: invalid value '33' for '--workers <N>'*
regd|serve|--domain|A|--seed|x|--listen|here|--workers|two|--connections|1 => 2 error: invalid value 'two' for '--workers <N>'*
regd|serve|--domain|A|--seed|x|--listen|here|--workers|1|--connections|0 => 2 error: invalid value '0' for '--connections <C>'*
regd|serve|--domain|A|--seed|x|--listen|here|--workers|1|--connections|65536 => 2 error: invalid value '65536' for '--connections <C>'*
regd|serve|--domain|A|--seed|x|--listen|here|--workers|1|--connections|1 => 2 regd: domain I5$
regd|serve|--domain|ex.org|--seed|x|--listen|here|--workers|1|--connections|1 => 2 regd: seed$
regd|serve|--domain|ex.org|--seed|0000000000000000000000000000000000000000000000000000000000000000|--listen|here|--workers|1|--connections|1 => 2 regd: listen$
";

#[test]
fn the_first_fault_of_a_server_is_reported(rt: HostRuntime) -> Result<(), Fail> {
    have_exit_messages(&rt, rt.alloc(), FAULTS_OF_SERVERS)
}

/// The programs without a book, and words that look like theirs.
const WITHOUT_A_BOOK: &str = "
regd|explain|L5 => explain by explain
regd|explain|L5|expiry => explain by explain
regd|version => version by version
regd|help => help by help
regd|--version => 0 >regd 1.0+unreleased$logic *
regd|-V => 0 >regd 1.0+unreleased$logic *
regd|explain => 2 error: the following required arguments were not provided:$  <CODE>$*
regd|explain|l5 => 2 regd: explain: no code has this name$
regd|explain|L9 => 2 regd: explain: no code has this name$
regd|explain|L5|expiry|op => 2 error: unexpected argument 'op' found$*
regd|version|--domain|ex.org => 2 error: unexpected argument '--domain' found$*
regd|help|plain => 2 error: unexpected argument 'plain' found$*
regd|plain|--version => 2 error: unexpected argument '--version' found$*
";

#[test]
fn a_program_without_a_book_takes_no_domain(rt: HostRuntime) -> Result<(), Fail> {
    a_line_without_a_book();
    have_exit_messages(&rt, rt.alloc(), WITHOUT_A_BOOK)
}

/// The end of a program without a book.
fn told_by(alloc: Global, line: &str) -> Result<String, Fail> {
    let words = words_of(alloc, line)?;
    let Ok(settings) = Settings::from_words(alloc, &words) else {
        return Err(Fail::from("no settings"));
    };
    if settings.program().has_book() {
        return Err(Fail::from("a book"));
    }
    exit_message_of(alloc, told(alloc, settings))
}

/// Asserts, for each line of the table, the status and the text of the program: all of it, or the text before a `*`.
fn are_told(rt: &impl Abort, alloc: Global, table: &str) -> Result<(), Fail> {
    for case in table.lines() {
        if let Some((line, expected)) = case.split_once(" => ") {
            let text = told_by(alloc, line)?;
            is_or_begins(rt, text.as_str(), expected);
        }
    }
    Ok(())
}

const TOLD: &str = "
regd|version => 0 >regd 1.0+unreleased$logic *
regd|help => 0 >A workload registration server$$Usage: regd <COMMAND>$*
regd|explain|L4 => 0 >L4: the line is JSON, but not an object$Likely cause: *
";

#[test]
fn a_program_without_a_book_prints_its_text(rt: HostRuntime) -> Result<(), Fail> {
    are_told(&rt, rt.alloc(), TOLD)
}

/// The end that this word names.
fn end(word: &str) -> Result<Ended, Fail> {
    match word {
        "done" => Ok(Ended::of(Ok(Ok(RunEnd::Done)))),
        "denied" => Ok(Ended::of(Ok(Ok(RunEnd::Denied)))),
        "shortened" => Ok(Ended::of(Ok(Ok(RunEnd::Shortened(1))))),
        "input" => Ok(Ended::of(Ok(Err(RunFault::Input)))),
        "output" => Ok(Ended::of(Ok(Err(RunFault::Output)))),
        "memory" => Ok(Ended::of(Ok(Err(RunFault::NoMemory)))),
        "domain" => Ok(Ended::of(Err(LineFault::Domain(IdRefusal::DomainTooLong)))),
        "seed" => Ok(Ended::of(Err(LineFault::Seed))),
        "address" => Ok(Ended::of(Err(LineFault::Address))),
        "version" => Ok(Ended::of(Err(LineFault::Version))),
        "code" => Ok(Ended::of(Err(LineFault::Code))),
        "not-text" => Ok(Ended::of(Err(LineFault::NotText))),
        "line-memory" => Ok(Ended::of(Err(LineFault::NoMemory))),
        _ => end_of_server(word),
    }
}

fn end_of_server(word: &str) -> Result<Ended, Fail> {
    match word {
        "served" => Ok(Ended::of_server(Ok(()))),
        "server-output" => Ok(Ended::of_server(Err(ServeFault::Output))),
        "server-memory" => Ok(Ended::of_server(Err(ServeFault::NoMemory))),
        "listen" => Ok(Ended::of_server(Err(ServeFault::Listen))),
        "accept" => Ok(Ended::of_server(Err(ServeFault::Accept))),
        "no-seat" => Ok(Ended::of_server(Err(ServeFault::NoSeat))),
        _ => Err(Fail::from("no such end")),
    }
}

/// Asserts, for each line of the table, the status and the text of the end that it names.
fn are_ends(rt: &impl Abort, alloc: Global, table: &str) -> Result<(), Fail> {
    for case in table.lines() {
        if let Some((word, expected)) = case.split_once(" => ") {
            let exit_message = exit_message_of(alloc, end(word)?)?;
            is_text(rt, exit_message.as_str(), expected, word);
        }
    }
    Ok(())
}

/// After the status of an end without a text there is a space.
const ENDS: &str = "
done => 0 \n
denied => 3 \n
shortened => 1 regd: out of memory$
input => 1 regd: input failed$
output => 1 regd: output failed$
memory => 1 regd: out of memory$
domain => 2 regd: domain I4$
seed => 2 regd: seed$
address => 2 regd: listen$
version => 0 >regd 1.0+unreleased$logic dac8208d650f15bf$
code => 2 regd: explain: no code has this name$
not-text => 2 regd: a word isn't UTF-8$
line-memory => 1 regd: out of memory$
";

#[test]
fn each_end_has_its_status_and_its_text(rt: HostRuntime) -> Result<(), Fail> {
    are_ends(&rt, rt.alloc(), ENDS)
}

const ENDS_OF_SERVERS: &str = "
served => 0 \n
server-output => 1 regd: output failed$
server-memory => 1 regd: out of memory$
listen => 1 regd: listen failed$
accept => 1 regd: accept failed$
no-seat => 1 regd: no seat$
";

#[test]
fn each_end_of_a_server_has_its_status_and_its_text(rt: HostRuntime) -> Result<(), Fail> {
    are_ends(&rt, rt.alloc(), ENDS_OF_SERVERS)
}

/// A fault's own text, as a line of the program with `$` for its end, after the status.
fn line_of<E: Display>(alloc: Global, code: u8, fault: &E) -> Result<String, Fail> {
    Ok(format!(in alloc; "{code} regd: {fault}$")?)
}

/// Asserts that the text for the fault of a command line is the fault's own text, in a line of the program.
fn line_has_its_message(
    rt: &impl Abort,
    alloc: Global,
    code: u8,
    fault: LineFault,
) -> Result<(), Fail> {
    let expected = line_of(alloc, code, &fault)?;
    let exit_message = exit_message_of(alloc, Ended::of(Err(fault)))?;
    is_text(
        rt,
        exit_message.as_str(),
        expected.as_str(),
        "the fault of a line",
    );
    Ok(())
}

fn run_has_its_message(rt: &impl Abort, alloc: Global, fault: RunFault) -> Result<(), Fail> {
    let expected = line_of(alloc, 1, &fault)?;
    let exit_message = exit_message_of(alloc, Ended::of(Ok(Err(fault))))?;
    is_text(
        rt,
        exit_message.as_str(),
        expected.as_str(),
        "the fault of a run",
    );
    Ok(())
}

fn server_has_its_message(rt: &impl Abort, alloc: Global, fault: ServeFault) -> Result<(), Fail> {
    let expected = line_of(alloc, 1, &fault)?;
    let exit_message = exit_message_of(alloc, Ended::of_server(Err(fault)))?;
    is_text(
        rt,
        exit_message.as_str(),
        expected.as_str(),
        "the fault of a server",
    );
    Ok(())
}

#[test]
fn a_fault_is_reported_by_its_own_text(rt: HostRuntime) -> Result<(), Fail> {
    let domain = LineFault::Domain(IdRefusal::NoDomain);
    line_has_its_message(&rt, rt.alloc(), 2, domain)?;
    line_has_its_message(&rt, rt.alloc(), 2, LineFault::Seed)?;
    line_has_its_message(&rt, rt.alloc(), 2, LineFault::Address)?;
    line_has_its_message(&rt, rt.alloc(), 2, LineFault::Number)?;
    line_has_its_message(&rt, rt.alloc(), 2, LineFault::Code)?;
    line_has_its_message(&rt, rt.alloc(), 2, LineFault::NotText)?;
    line_has_its_message(&rt, rt.alloc(), 1, LineFault::NoMemory)?;
    for fault in [RunFault::Input, RunFault::Output, RunFault::NoMemory] {
        run_has_its_message(&rt, rt.alloc(), fault)?;
    }
    for fault in [
        ServeFault::Listen,
        ServeFault::Output,
        ServeFault::Accept,
        ServeFault::NoSeat,
        ServeFault::NoMemory,
    ] {
        server_has_its_message(&rt, rt.alloc(), fault)?;
    }
    Ok(())
}

/// The text of the parser is unchanged.
#[test]
fn a_refusal_of_the_parser_is_reported_by_its_own_text(rt: HostRuntime) -> Result<(), Fail> {
    let words = words_of(rt.alloc(), "regd|plain")?;
    let Err(fault) = Settings::from_words(rt.alloc(), &words) else {
        return Err(Fail::from("no fault"));
    };
    let expected = fault.to_string(rt.alloc())?;
    let exit_message = Ended::of(Err(fault)).exit_message().to_string(rt.alloc())?;
    is_text(&rt, exit_message.as_str(), expected.as_str(), "a refusal");
    holds(&rt, expected.starts_with("error: "), expected.as_str());
    Ok(())
}
