//! How did an audit end?

ghost use Rattle.std.specs.Prelude.{◌≡◌};
ghost use Rattle.call_audit.specs.Texts.{no_json, verdict_json, yes_json};
ghost use Rattle.line_devices.specs.Stream.{Puts};

use crate::cause::Cause;
use line_devices::{Output, Sink};
use reg_lines::{PrintJson, print_number, print_text};

/// The result of an audit. It is printed as an object with the key `audit`; printing needs no memory.
#[derive(Clone, Copy, Debug, PartialEq, Eq, Drop)]
pub enum AuditVerdict {
    /// No line has a fault; this many calls have a record.
    Yes(u64),
    /// The line with this number, counted from 1, is the first with a fault, for this cause.
    No(u64, Cause),
}

impl PrintJson for AuditVerdict {
    ghost text = { verdict_json };

    fn print_to<S: Sink>(&self, output: &mut Output<S>) {
        match self {
            AuditVerdict::Yes(calls) => print_yes(*calls, output),
            AuditVerdict::No(line, cause) => print_no(*line, *cause, output),
        }
    }
}

fn print_yes<S: Sink>(calls: u64, output: &mut Output<S>)
    ensures { Puts output.old output.new (yes_json calls) }
{
    output.put(b"{\"audit\":\"yes\",\"calls\":");
    print_number(calls, output);
    output.put(b"}");
}

fn print_no<S: Sink>(line: u64, cause: Cause, output: &mut Output<S>)
    ensures { Puts output.old output.new (no_json line cause) }
{
    output.put(b"{\"audit\":\"no\",\"line\":");
    print_number(line, output);
    output.put(b",\"why\":");
    print_text(cause.text(), output);
    output.put(b"}");
}
