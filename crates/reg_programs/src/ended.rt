//! How did a run end, and which exit status and text report it?

ghost use Rattle.std.specs.Prelude.{◌≡◌};
ghost use Rattle.reg_programs.specs.Ends.{ended_of, ended_of_line, ended_of_server, exit_status_of, exit_message_of, exit_message_of_line, stream_of};

use crate::exit_message::{ExitMessage, Stream};
use crate::serve_fault::ServeFault;
use command_line::LineFault;
use error_codes::Explanation;
use line_engines::{RunEnd, RunFault};

/// The end of a run.
#[derive(Debug, Drop)]
pub enum Ended {
    /// Everything was done.
    Done,
    /// An audit found a fault.
    Denied,
    /// The command line is invalid, or memory ran out while it was read.
    Line(LineFault),
    /// A read of the input failed.
    Input,
    /// A write of the output failed, or a flush.
    Output,
    /// An allocation failed, or a worker's thread couldn't be started; or a recorded schedule lost lines for lack of memory.
    NoMemory,
    /// The server can't listen at its address.
    Listen,
    /// The server can't accept connections any more.
    Accept,
    /// A worker of the server got no seat.
    NoSeat,
    /// The version was asked for.
    Version,
    /// The help was asked for by the program `help`. The text is the parser's.
    Help(clap::Error),
    /// A code was to be explained.
    Explained(Explanation),
}

impl Ended {
    /// Returns the end of a run, from the fault of the command line or else the result of the run.
    pub fn of(answered: Result<Result<RunEnd, RunFault>, LineFault>) -> Ended
        ensures { result ≡ ended_of answered }
    {
        match answered {
            Ok(Ok(RunEnd::Done)) => Ended::Done,
            Ok(Ok(RunEnd::Denied)) => Ended::Denied,
            Ok(Ok(RunEnd::Shortened(_))) => Ended::NoMemory,
            Ok(Err(RunFault::Input)) => Ended::Input,
            Ok(Err(RunFault::Output)) => Ended::Output,
            Ok(Err(RunFault::NoMemory)) => Ended::NoMemory,
            Err(fault) => ended_of_line(fault),
        }
    }

    /// Returns the end of a server, from the reason for which it ended before its last connection did, if any.
    pub fn of_server(served: Result<(), ServeFault>) -> Ended
        ensures { result ≡ ended_of_server served }
    {
        match served {
            Ok(()) => Ended::Done,
            Err(ServeFault::Listen) => Ended::Listen,
            Err(ServeFault::Output) => Ended::Output,
            Err(ServeFault::Accept) => Ended::Accept,
            Err(ServeFault::NoSeat) => Ended::NoSeat,
            Err(ServeFault::NoMemory) => Ended::NoMemory,
        }
    }

    /// Returns the stream that gets the text.
    pub fn stream(&self) -> Stream
        ensures { result ≡ stream_of self.now }
    {
        match self {
            Ended::Version | Ended::Help(_) | Ended::Explained(_) => Stream::Output,
            Ended::Done
            | Ended::Denied
            | Ended::Line(_)
            | Ended::Input
            | Ended::Output
            | Ended::NoMemory
            | Ended::Listen
            | Ended::Accept
            | Ended::NoSeat => Stream::Error,
        }
    }

    /// Returns the text.
    pub fn exit_message(self) -> ExitMessage<clap::Error>
        ensures { result ≡ exit_message_of self }
    {
        match self {
            Ended::Done | Ended::Denied => ExitMessage::Nothing,
            Ended::Line(fault) => exit_message_of_fault(fault),
            Ended::Input => ExitMessage::Input,
            Ended::Output => ExitMessage::Output,
            Ended::NoMemory => ExitMessage::NoMemory,
            Ended::Listen => ExitMessage::Listen,
            Ended::Accept => ExitMessage::Accept,
            Ended::NoSeat => ExitMessage::NoSeat,
            Ended::Version => ExitMessage::Version,
            Ended::Help(error) => ExitMessage::Parser(error),
            Ended::Explained(explanation) => ExitMessage::Explanation(explanation),
        }
    }
}

/// Returns the end after an invalid command line, or one that asks for the version.
fn ended_of_line(fault: LineFault) -> Ended
    ensures { result ≡ ended_of_line fault }
{
    match fault {
        LineFault::Version => Ended::Version,
        fault => Ended::Line(fault),
    }
}

/// Returns the text for standard error after an invalid command line.
fn exit_message_of_fault(fault: LineFault) -> ExitMessage<clap::Error>
    ensures { result ≡ exit_message_of_line fault }
{
    match fault {
        LineFault::Refused(error) => ExitMessage::Parser(error),
        LineFault::Version => ExitMessage::Version,
        LineFault::Domain(refusal) => ExitMessage::Domain(refusal),
        LineFault::Seed => ExitMessage::Seed,
        LineFault::Address => ExitMessage::Address,
        LineFault::Number => ExitMessage::Number,
        LineFault::Code => ExitMessage::Code,
        LineFault::NotText => ExitMessage::NotText,
        LineFault::NoMemory => ExitMessage::NoMemory,
    }
}

/// Returns the exit status: 0 if everything was done or a text was asked for, 3 if an audit found a fault, 2 for an invalid command line, 1 for any other
/// end.
pub fn status(ended: &Ended) -> u8
    ensures { result ≡ exit_status_of ended.now }
{
    match ended {
        Ended::Done | Ended::Version | Ended::Help(_) | Ended::Explained(_) => 0,
        Ended::Denied => 3,
        Ended::Line(LineFault::NoMemory) => 1,
        Ended::Line(_) => 2,
        Ended::Input
        | Ended::Output
        | Ended::NoMemory
        | Ended::Listen
        | Ended::Accept
        | Ended::NoSeat => 1,
    }
}
