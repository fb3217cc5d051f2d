//! What text is written at the end of a run?

ghost use Rattle.reg_programs.specs.Ends.{exit_message_text};

use command_line::version_text;
use error_codes::Explanation;
use spiffe_name::IdRefusal;
use std::fmt;
use std::fmt::Display;

/// Which standard stream gets the text at the end of a run.
#[derive(Clone, Copy, Debug, PartialEq, Eq, Drop)]
pub enum Stream {
    /// Standard output: a text that was asked for.
    Output,
    /// Standard error.
    Error,
}

/// What is written at the end: the text that this displays, with the line feed at its end.
#[derive(Debug, Drop)]
pub enum ExitMessage<E> {
    /// Nothing.
    Nothing,
    /// The command-line parser's own text.
    Parser(E),
    /// The version.
    Version,
    /// What a code means.
    Explanation(Explanation),
    /// A read of the input failed.
    Input,
    /// A write of the output failed, or a flush.
    Output,
    /// An allocation failed.
    NoMemory,
    /// The server can't listen at its address.
    Listen,
    /// The server can't accept connections any more.
    Accept,
    /// A worker of the server got no seat.
    NoSeat,
    /// The value of `--domain` is not a trust domain, for this reason.
    Domain(IdRefusal),
    /// The value of `--seed` isn't 64 lower-case hexadecimal digits.
    Seed,
    /// The value of `--listen` isn't an IPv4 address with a port.
    Address,
    /// A number is out of its range.
    Number,
    /// The word after `explain` isn't a code.
    Code,
    /// A word isn't UTF-8.
    NotText,
}

impl<E: Display> Display for ExitMessage<E> {
    ghost output = { exit_message_text E.output };

    fn fmt<W: fmt::Write>(&self, f: &mut fmt::Formatter<W>) -> fmt::Result {
        match self {
            ExitMessage::Nothing => Ok(()),
            ExitMessage::Parser(error) => error.fmt(f),
            ExitMessage::Version => f.write_str(version_text()),
            ExitMessage::Explanation(explanation) => explanation.fmt(f),
            ExitMessage::Input => f.write_str("regd: input failed\n"),
            ExitMessage::Output => f.write_str("regd: output failed\n"),
            ExitMessage::NoMemory => f.write_str("regd: out of memory\n"),
            ExitMessage::Listen => f.write_str("regd: listen failed\n"),
            ExitMessage::Accept => f.write_str("regd: accept failed\n"),
            ExitMessage::NoSeat => f.write_str("regd: no seat\n"),
            ExitMessage::Domain(refusal) => {
                f.write_str("regd: domain ")?;
                f.write_str(refusal.code())?;
                f.write_str("\n")
            }
            ExitMessage::Seed => f.write_str("regd: seed\n"),
            ExitMessage::Address => f.write_str("regd: listen\n"),
            ExitMessage::Number => f.write_str("regd: number\n"),
            ExitMessage::Code => f.write_str("regd: explain: no code has this name\n"),
            ExitMessage::NotText => f.write_str("regd: a word isn't UTF-8\n"),
        }
    }
}
