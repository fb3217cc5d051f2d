//! What does a command line request?

use crate::fault::LineFault;
use crate::program::Program;
use crate::seed::{FIRST_SEED, seed_of};
use crate::version::VERSION;
use clap::error::ErrorKind;
use clap::{Arg, ArgAction, ArgMatches, Command};
use error_codes::ErrorCode;
use spiffe_name::TrustDomain;
use std::alloc::{AllocError, Global};
use std::marker::Model;
use std::net::SocketAddrV4;

/// The options of a server.
#[derive(Clone, Copy, Debug, Drop)]
pub struct ServerPlan {
    /// The address to listen on; for port 0 the system chooses a port.
    pub listen: SocketAddrV4,
    /// The number of workers, 1 to 32.
    pub workers: u16,
    /// The number of connections that it serves before it exits, 1 to 65,535; without it, there is no last connection.
    pub connections: Option<u16>,
}

/// What `explain` is asked about: a code, and the key that an answer names as `field`.
#[derive(Debug, Drop)]
pub struct Topic {
    /// The code.
    pub code: ErrorCode,
    /// The key, if one is given.
    pub field: Option<String>,
}

/// What `regd` is to do: `regd plain --domain D [--seed S]`, `regd schedule --domain D [--seed S] [--record]`,
/// `regd audit --domain D`, `regd serve --domain D --listen A --workers N [--connections C] [--seed S]`,
/// `regd explain CODE [FIELD]`, `regd version` or `regd help`. They have a domain where the program has a book.
#[derive(Debug, Drop)]
pub struct Settings {
    program: Program,
    domain: Option<TrustDomain>,
    seed: [u8; 32],
    server: Option<ServerPlan>,
    topic: Option<Topic>,
}

impl Model for Settings {
    ghost use Rattle.command_line.specs.ParsedCommands.{ParsedCommand};
    ghost use Rattle.command_line.specs.CommandLinePrivate.{HasDomain, HasServer, HasTopic};

    ghost Value = { ParsedCommand };

    ghost view = { λ settings. record { program = settings.program; domain = settings.domain; seed = settings.seed; server = settings.server; topic = settings.topic } };

    ghost invariant = { λ settings. HasDomain settings.program settings.domain × HasServer settings.program settings.server × HasTopic settings.program settings.topic };
}

impl Settings {
    ghost use Rattle.std.specs.Prelude.{◌≡◌, ◌<◌, IfErr, IfOk, IfSome, IsSome, [], option_map, true};
    ghost use Rattle.clap.specs.Walk.{texts};
    ghost use Rattle.hex.specs.Hex.{encode_lower};
    ghost use Rattle.clap.specs.Words.{subcommand_of};
    ghost use Rattle.command_line.specs.CommandLine.{AsksServer, AsksTopic, IsFaultOf, domain_word, has_book, line_faults, program_asked, regd_command, seed_text};

    /// Parses a command line, with the program's own name first: all words by the command-line parser, then the domain where
    /// the program has a book, then the seed, by default 64 zeros, then a server's address and numbers, and then a code to be
    /// explained. The error is one of the parser's faults if there are any, otherwise the first of the other faults in this
    /// order, or out of memory. A request for help is a refusal too, with the help as its text, and so is `--version`.
    pub fn from_words(alloc: Global, words: &[&str]) -> Result<Settings, LineFault>
        ensures taken { IfOk result (λ _. line_faults (texts words.now) ≡ []) }
        ensures program { IfOk result (λ settings. settings.program ≡ program_asked (texts words.now)) }
        ensures domain { IfOk result (λ settings. domain_word (texts words.now) ≡ settings.domain) }
        ensures seed { IfOk result (λ settings. encode_lower settings.seed ≡ seed_text (texts words.now)) }
        ensures server { IfOk result (λ settings. AsksServer (subcommand_of regd_command (texts words.now)) settings.program settings.server) }
        ensures topic { IfOk result (λ settings. AsksTopic (subcommand_of regd_command (texts words.now)) settings.program settings.topic) }
        ensures fault { IfErr result (IsFaultOf (texts words.now)) }
    {
        let matches = regd_command(alloc)?.try_get_matches_from(words)?;
        let program = program_of(&matches);
        let domain = domain_of(alloc, &matches, program)?;
        let text = option_word(&matches, program.name(), "seed").unwrap_or(FIRST_SEED);
        let Some(seed) = seed_of(text) else {
            return Err(LineFault::Seed);
        };
        let server = server_of(&matches, program)?;
        let topic = topic_of(alloc, &matches, program)?;
        Ok(Settings {
            program,
            domain,
            seed,
            server,
            topic,
        })
    }

    /// Returns the requested program.
    pub fn program(&self) -> Program
        ensures { result ≡ self.now.program }
    {
        self.program
    }

    /// Returns the server's own trust domain, if the program has a book.
    pub fn domain(&self) -> Option<&TrustDomain>
        ensures domain { option_map (λ domain. domain.now) result ≡ self.now.domain }
        ensures given { has_book self.now.program ≡ true → IsSome self.now.domain }
    {
        self.domain.as_ref()
    }

    /// Returns the seed of the ids that the server generates.
    pub fn seed(&self) -> [u8; 32]
        ensures { result ≡ self.now.seed }
    {
        self.seed
    }

    /// Returns the options of a server, if one is requested.
    pub fn server(&self) -> Option<ServerPlan>
        ensures server { result ≡ self.now.server }
        ensures workers { IfSome result (λ plan. 0 < plan.workers) }
        ensures given { self.now.program ≡ Program.Serve → IsSome self.now.server }
    {
        self.server
    }

    /// Returns the server's own trust domain, if the program has a book, and drops the rest.
    pub fn into_domain(self) -> Option<TrustDomain>
        ensures domain { result ≡ self.domain }
        ensures given { has_book self.program ≡ true → IsSome self.domain }
    {
        self.domain
    }

    /// Returns what `explain` is asked about, if that is the program, and drops the rest.
    pub fn into_topic(self) -> Option<Topic>
        ensures topic { result ≡ self.topic }
        ensures given { self.program ≡ Program.Explain → IsSome self.topic }
    {
        self.topic
    }
}

ghost use Rattle.std.specs.Prelude.{◌≡◌, ℕ, IfErr, IfNone, IfOk, IfSome, None, codes, false, option_map, string_bytes, true};
ghost use Rattle.clap.specs.Words.{app_of, kind_of, rule_of, subcommand_rows_of};
ghost use Rattle.clap.specs.declared.Command.TheViews.{out-Command};
ghost use Rattle.command_line.specs.CommandLinePrivate.{HasDomain, HasServer, HasTopic, IsDomainFault, IsServerFault, IsTopicFault};
ghost use Rattle.command_line.specs.CommandLine.{AsksServer, AsksTopic, IsNoCount, NamesTopic, ParsesNumber, ParsesOptional, ParsesServer, audit_command, book_commands, connections_option, program_domain, domain_option, domain_refusal_in, code_word, explain_command, field_word, help_command, names_program, is_recorded, line_commands, listen_command, listen_option, most_connections, most_workers, number_option, option_in, plain_command, program_in, program_without_book, record_option, regd_command, schedule_command, seed_option, serve_command, server_word, version_command};

fn domain_option<'a>(alloc: Global) -> Arg<'a>
    ensures rule { rule_of result ≡ domain_option }
    ensures local { result.global ≡ false }
{
    Arg::new(alloc, "domain")
        .long("domain")
        .value_name("D")
        .required(true)
        .help("The server's own trust domain, such as ex.org")
}

fn seed_option<'a>(alloc: Global) -> Arg<'a>
    ensures rule { rule_of result ≡ seed_option }
    ensures local { result.global ≡ false }
{
    Arg::new(alloc, "seed").long("seed").value_name("S").help(
        "The seed from which identifiers are generated, 64 lower-case hexadecimal digits; zeros by default",
    )
}

fn record_option<'a>(alloc: Global) -> Arg<'a>
    ensures rule { rule_of result ≡ record_option }
    ensures local { result.global ≡ false }
{
    Arg::new(alloc, "record")
        .long("record")
        .action(ArgAction::SetTrue)
        .help("Prints only an audit log, with a record of each call, at the end of the input")
}

fn plain_command<'a>(alloc: Global) -> Result<Command<'a>, AllocError>
    ensures app { IfOk result (λ command. app_of command ≡ plain_command) }
    ensures local { IfOk result (λ command. (out-Command command).has_globals ≡ false) }
{
    Command::new(alloc, "plain")
        .about(
            "Answers request lines by the reference implementation, on one thread: standard input to standard output",
        )
        .arg(domain_option(alloc))?
        .arg(seed_option(alloc))
}

fn schedule_command<'a>(alloc: Global) -> Result<Command<'a>, AllocError>
    ensures app { IfOk result (λ command. app_of command ≡ schedule_command) }
    ensures local { IfOk result (λ command. (out-Command command).has_globals ≡ false) }
{
    Command::new(alloc, "schedule")
        .about(
            "Replays an interleaving of concurrent calls and prints their serial order: standard input to standard output",
        )
        .arg(domain_option(alloc))?
        .arg(seed_option(alloc))?
        .arg(record_option(alloc))
}

fn audit_command<'a>(alloc: Global) -> Result<Command<'a>, AllocError>
    ensures app { IfOk result (λ command. app_of command ≡ audit_command) }
    ensures local { IfOk result (λ command. (out-Command command).has_globals ≡ false) }
{
    Command::new(alloc, "audit")
        .about(
            "Checks an audit log against the reference implementation: standard input to standard output",
        )
        .arg(domain_option(alloc))
}

fn listen_option<'a>(alloc: Global) -> Arg<'a>
    ensures rule { rule_of result ≡ listen_option }
    ensures local { result.global ≡ false }
{
    Arg::new(alloc, "listen")
        .long("listen")
        .value_name("A")
        .required(true)
        .help("Where to listen, an IPv4 address and a port, such as 127.0.0.1:8471")
}

fn workers_option<'a>(alloc: Global) -> Arg<'a>
    ensures rule { rule_of result ≡ number_option (codes "workers") most_workers }
    ensures local { result.global ≡ false }
{
    Arg::new(alloc, "workers")
        .long("workers")
        .value_name("N")
        .required(true)
        .value_parser(clap::value_parser!(u16).range(1..=32))
        .help("How many connections are served at a time, 1 to 32")
}

fn connections_option<'a>(alloc: Global) -> Arg<'a>
    ensures rule { rule_of result ≡ connections_option }
    ensures local { result.global ≡ false }
{
    Arg::new(alloc, "connections")
        .long("connections")
        .value_name("C")
        .value_parser(clap::value_parser!(u16).range(1..=65535))
        .help(
            "How many connections are served before it ends, 1 to 65535; without it, there is no last one, and it writes to standard error what happens",
        )
}

/// Describes the program `serve`, so far with its domain and its address.
fn listen_command<'a>(alloc: Global) -> Result<Command<'a>, AllocError>
    ensures app { IfOk result (λ command. app_of command ≡ listen_command) }
    ensures local { IfOk result (λ command. (out-Command command).has_globals ≡ false) }
{
    Command::new(alloc, "serve")
        .about(
            "Answers request lines over TCP, by several workers at a time, and ends when its last connection has ended",
        )
        .arg(domain_option(alloc))?
        .arg(listen_option(alloc))
}

fn serve_command<'a>(alloc: Global) -> Result<Command<'a>, AllocError>
    ensures app { IfOk result (λ command. app_of command ≡ serve_command) }
    ensures local { IfOk result (λ command. (out-Command command).has_globals ≡ false) }
{
    listen_command(alloc)?
        .arg(workers_option(alloc))?
        .arg(connections_option(alloc))?
        .arg(seed_option(alloc))
}

fn code_word<'a>(alloc: Global) -> Arg<'a>
    ensures rule { rule_of result ≡ code_word }
    ensures local { result.global ≡ false }
{
    Arg::new(alloc, "code")
        .value_name("CODE")
        .required(true)
        .help("The code of an answer, such as L5")
}

fn field_word<'a>(alloc: Global) -> Arg<'a>
    ensures rule { rule_of result ≡ field_word }
    ensures local { result.global ≡ false }
{
    Arg::new(alloc, "field")
        .value_name("FIELD")
        .help("The key that the answer has as \"field\", such as expiry")
}

fn explain_command<'a>(alloc: Global) -> Result<Command<'a>, AllocError>
    ensures app { IfOk result (λ command. app_of command ≡ explain_command) }
    ensures local { IfOk result (λ command. (out-Command command).has_globals ≡ false) }
{
    Command::new(alloc, "explain")
        .about("Prints what the code of an answer means, its likely cause and its cure")
        .arg(code_word(alloc))?
        .arg(field_word(alloc))
}

fn version_command<'a>(alloc: Global) -> Command<'a>
    ensures app { app_of result ≡ version_command }
    ensures local { (out-Command result).has_globals ≡ false }
{
    Command::new(alloc, "version").about("Prints the version")
}

fn help_command<'a>(alloc: Global) -> Command<'a>
    ensures app { app_of result ≡ help_command }
    ensures local { (out-Command result).has_globals ≡ false }
{
    Command::new(alloc, "help").about("Prints this help; each program has its own with --help")
}

/// Describes `regd`, so far with the programs `plain` and `schedule`.
fn book_commands<'a>(alloc: Global) -> Result<Command<'a>, AllocError>
    ensures { IfOk result (λ command. app_of command ≡ book_commands) }
{
    Command::new(alloc, "regd")
        .about("A workload registration server")
        .version(VERSION)
        .subcommand_required(true)
        .disable_help_subcommand(true)
        .subcommand(plain_command(alloc)?)?
        .subcommand(schedule_command(alloc)?)
}

/// The same with all programs that have a book.
fn line_commands<'a>(alloc: Global) -> Result<Command<'a>, AllocError>
    ensures { IfOk result (λ command. app_of command ≡ line_commands) }
{
    book_commands(alloc)?
        .subcommand(audit_command(alloc)?)?
        .subcommand(serve_command(alloc)?)
}

/// Describes `regd` to the command-line parser, with all its programs and their options.
pub(crate) fn regd_command<'a>(alloc: Global) -> Result<Command<'a>, AllocError>
    ensures { IfOk result (λ command. app_of command ≡ regd_command) }
{
    line_commands(alloc)?
        .subcommand(explain_command(alloc)?)?
        .subcommand(version_command(alloc))?
        .subcommand(help_command(alloc))
}

/// Returns the parser's text of `regd help`, as the refusal that it is for the parser. The only other error is a failed allocation.
pub fn help(alloc: Global) -> Result<clap::Error, AllocError>
    ensures { IfOk result (λ error. kind_of error ≡ ErrorKind.DisplayHelp) }
{
    let words = ["regd", "--help"];
    let command = regd_command(alloc)?;
    let error = match command.try_get_matches_from(words.as_slice()) {
        Err(error) => error,
        Ok(matches) => {
            drop(matches);
            return Err(AllocError);
        }
    };
    match error.kind() {
        ErrorKind::OutOfMemory => Err(AllocError),
        _ => Ok(error),
    }
}

/// Returns the program that the words request.
fn program_of(matches: &ArgMatches<'_>) -> Program
    ensures { result ≡ program_in (subcommand_rows_of matches.now) }
{
    if option_word(matches, "schedule", "domain").is_some() {
        return if is_recorded(matches) {
            Program::Record
        } else {
            Program::Schedule
        };
    }
    if option_word(matches, "audit", "domain").is_some() {
        return Program::Audit;
    }
    if option_word(matches, "serve", "domain").is_some() {
        return Program::Serve;
    }
    program_without_book(matches)
}

/// Returns the program that the words request, if it has no book; otherwise `plain`.
fn program_without_book(matches: &ArgMatches<'_>) -> Program
    ensures { result ≡ program_without_book (subcommand_rows_of matches.now) }
{
    if names_program(matches, "explain") {
        return Program::Explain;
    }
    if names_program(matches, "version") {
        return Program::Version;
    }
    if names_program(matches, "help") {
        return Program::Help;
    }
    Program::Plain
}

/// Returns true if the words name this program.
fn names_program(matches: &ArgMatches<'_>, program: &str) -> bool
    ensures { result ≡ names_program program.now (subcommand_rows_of matches.now) }
{
    match matches.subcommand_name() {
        Some(name) => name == program,
        None => false,
    }
}

/// Returns the trust domain that the words give, if the program has a book.
fn domain_of(
    alloc: Global,
    matches: &ArgMatches<'_>,
    program: Program,
) -> Result<Option<TrustDomain>, LineFault>
    ensures domain { IfOk result (λ domain. program_domain program (subcommand_rows_of matches.now) ≡ domain) }
    ensures valid { IfOk result (λ _. domain_refusal_in program (subcommand_rows_of matches.now) ≡ None) }
    ensures has { IfOk result (HasDomain program) }
    ensures fault { IfErr result (IsDomainFault (subcommand_rows_of matches.now) program) }
{
    if !program.has_book() {
        return Ok(None);
    }
    let word = option_word(matches, program.name(), "domain").unwrap_or("");
    Ok(Some(TrustDomain::parse(alloc, word)?))
}

/// Returns the options of a server, if the words request one.
fn server_of(matches: &ArgMatches<'_>, program: Program) -> Result<Option<ServerPlan>, LineFault>
    ensures server { IfOk result (AsksServer (subcommand_rows_of matches.now) program) }
    ensures has { IfOk result (HasServer program) }
    ensures fault { IfErr result (IsServerFault (subcommand_rows_of matches.now) program) }
{
    match program {
        Program::Serve => Ok(Some(plan_of(matches)?)),
        Program::Plain
        | Program::Schedule
        | Program::Record
        | Program::Audit
        | Program::Explain
        | Program::Version
        | Program::Help => Ok(None),
    }
}

/// Returns what is to be explained, if the words ask for that.
fn topic_of(
    alloc: Global,
    matches: &ArgMatches<'_>,
    program: Program,
) -> Result<Option<Topic>, LineFault>
    ensures topic { IfOk result (AsksTopic (subcommand_rows_of matches.now) program) }
    ensures has { IfOk result (HasTopic program) }
    ensures fault { IfErr result (IsTopicFault (subcommand_rows_of matches.now) program) }
{
    match program {
        Program::Explain => Ok(Some(named_topic(alloc, matches)?)),
        Program::Plain
        | Program::Schedule
        | Program::Record
        | Program::Audit
        | Program::Serve
        | Program::Version
        | Program::Help => Ok(None),
    }
}

/// Returns the code and the key that the words give to an explanation.
fn named_topic(alloc: Global, matches: &ArgMatches<'_>) -> Result<Topic, LineFault>
    ensures topic { IfOk result (NamesTopic (subcommand_rows_of matches.now)) }
    ensures fault { IfErr result (IsTopicFault (subcommand_rows_of matches.now) Program.Explain) }
{
    let word = option_word(matches, "explain", "code").unwrap_or("");
    let Some(code) = ErrorCode::of_name(word) else {
        return Err(LineFault::Code);
    };
    let field = field_of(alloc, matches)?;
    Ok(Topic { code, field })
}

/// Returns the key that the words give to an explanation, if they give one.
fn field_of(alloc: Global, matches: &ArgMatches<'_>) -> Result<Option<String>, AllocError>
    ensures { IfOk result (λ field. option_in (codes "explain") (codes "field") (subcommand_rows_of matches.now) ≡ option_map string_bytes field) }
{
    match option_word(matches, "explain", "field") {
        Some(field) => Ok(Some(String::from_str(alloc, field)?)),
        None => Ok(None),
    }
}

/// Returns the address and the numbers that the words give to a server.
fn plan_of(matches: &ArgMatches<'_>) -> Result<ServerPlan, LineFault>
    ensures server { IfOk result (ParsesServer (subcommand_rows_of matches.now)) }
    ensures fault { IfErr result (IsServerFault (subcommand_rows_of matches.now) Program.Serve) }
{
    let Ok(listen) = server_word(matches, "listen").parse() else {
        return Err(LineFault::Address);
    };
    let Some(workers) = number_of(server_word(matches, "workers"), 32) else {
        return Err(LineFault::Number);
    };
    let connections = connections_of(matches)?;
    Ok(ServerPlan {
        listen,
        workers,
        connections,
    })
}

/// Returns the number of connections that the words give to a server, if they give one.
fn connections_of(matches: &ArgMatches<'_>) -> Result<Option<u16>, LineFault>
    ensures given { IfOk result (ParsesOptional most_connections (option_in (codes "serve") (codes "connections") (subcommand_rows_of matches.now))) }
    ensures fault { IfErr result (λ fault. (fault ≡ LineFault.Number) × IsNoCount (option_in (codes "serve") (codes "connections") (subcommand_rows_of matches.now))) }
{
    let Some(word) = option_word(matches, "serve", "connections") else {
        return Ok(None);
    };
    let Some(connections) = number_of(word, 65535) else {
        return Err(LineFault::Number);
    };
    Ok(Some(connections))
}

/// Returns the text that the words give to the option `id` of a server, or the empty text.
fn server_word<'a>(matches: &ArgMatches<'a>, id: &str) -> &'a str
    ensures { result.now ≡ server_word id.now (subcommand_rows_of matches.now) }
{
    option_word(matches, "serve", id).unwrap_or("")
}

/// Returns the number of the text, if it is 1 to `most`.
fn number_of(text: &str, most: u16) -> Option<u16>
    ensures some { IfSome result (ParsesNumber most text.now) }
    ensures none { IfNone result ((n : ℕ) → ParsesNumber most text.now n → ⊥) }
{
    let number: u16 = text.parse().ok()?;
    if number >= 1 && number <= most {
        Some(number)
    } else {
        None
    }
}

/// Returns true if the words request records.
fn is_recorded(matches: &ArgMatches<'_>) -> bool
    ensures { result ≡ is_recorded (subcommand_rows_of matches.now) }
{
    match option_word(matches, "schedule", "record") {
        Some(word) => word == "true",
        None => false,
    }
}

/// Returns the text that the words give to the option `id` of `program`, if that is the program that they name.
fn option_word<'a>(matches: &ArgMatches<'a>, program: &str, id: &str) -> Option<&'a str>
    ensures { option_map (λ word. word.now) result ≡ option_in program.now id.now (subcommand_rows_of matches.now) }
{
    matches.subcommand_matches(program)?.get_str(id)
}
