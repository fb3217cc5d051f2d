//! Which programs does `regd` have?

/// A program of `regd`, which a command line requests.
#[derive(Clone, Copy, Debug, PartialEq, Eq, Drop)]
pub enum Program {
    /// Answers request lines on a plain book.
    Plain,
    /// Answers event lines with a machine of calls.
    Schedule,
    /// Applies event lines to a machine of calls, and records the calls: `schedule --record`.
    Record,
    /// Audits records of calls.
    Audit,
    /// Serves connections with a shared registry.
    Serve,
    /// Prints what a code means: `explain`.
    Explain,
    /// Prints the version: `version`.
    Version,
    /// Prints the help: `help`.
    Help,
}

impl Program {
    ghost use Rattle.std.specs.Prelude.{◌≡◌};
    ghost use Rattle.command_line.specs.CommandLine.{has_book, program_name};

    /// Returns the word for it on a command line. `Record` has that of `Schedule`.
    pub fn name(self) -> &'static str
        ensures { result.now ≡ program_name self }
    {
        match self {
            Program::Plain => "plain",
            Program::Schedule | Program::Record => "schedule",
            Program::Audit => "audit",
            Program::Serve => "serve",
            Program::Explain => "explain",
            Program::Version => "version",
            Program::Help => "help",
        }
    }

    /// Returns true if it has a book, and so requires a trust domain.
    pub fn has_book(self) -> bool
        ensures { result ≡ has_book self }
    {
        match self {
            Program::Plain
            | Program::Schedule
            | Program::Record
            | Program::Audit
            | Program::Serve => true,
            Program::Explain | Program::Version | Program::Help => false,
        }
    }
}
