//! What do the programs without a book print?

ghost use Rattle.std.specs.Prelude.{◌≡◌, false};
ghost use Rattle.command_line.specs.CommandLine.{has_book};
ghost use Rattle.reg_programs.specs.Told.{IsTold};

use crate::ended::Ended;
use command_line::{Program, Settings, help};
use error_codes::Explanation;
use std::alloc::{AllocError, Global};

/// Returns the end of the program that the settings request, which has no book: the text that it asks for, or that memory ran
/// out.
pub fn told(alloc: Global, settings: Settings) -> Ended
    requires { has_book settings.program ≡ false }
    ensures { IsTold settings.program settings.topic result }
{
    match settings.program() {
        Program::Explain => {
            let Some(topic) = settings.into_topic() else {
                unreachable!()
            };
            Ended::Explained(Explanation::of(topic.code, topic.field))
        }
        Program::Version => Ended::Version,
        Program::Help => match help(alloc) {
            Ok(error) => Ended::Help(error),
            Err(AllocError) => Ended::NoMemory,
        },
        Program::Plain | Program::Schedule | Program::Record | Program::Audit | Program::Serve =>
            unreachable!(),
    }
}
