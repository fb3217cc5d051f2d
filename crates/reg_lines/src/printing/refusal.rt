//! Which line reports that a line was refused?

ghost use Rattle.reg_lines.specs.Refusals.{fault_json, field_member, op_member, refusal_json, refused_line_json};
ghost use Rattle.line_devices.specs.Stream.{Puts};

use crate::printing::print_json::{PrintJson, print_number};
use crate::printing::text::print_text;
use line_devices::{Output, Sink};
use line_reading::{Fault, Field, LineRefusal};
use spiffe_name::Failure;

/// An object with the refusal's `code` and the `line`, and the `field` and the `op` if the fault has them. Out of memory
/// has the code L6. Printing takes no memory.
impl PrintJson for LineRefusal {
    ghost text = { refusal_json };

    fn print_to<S: Sink>(&self, output: &mut Output<S>) {
        match &self.failure {
            Failure::NoMemory => print_refused_line(self.line, "L6", output),
            Failure::Refused(fault) => print_fault(self.line, fault, output),
        }
    }
}

/// Prints a refusal that has only its code, with the number of its line.
pub(crate) fn print_refused_line<S: Sink>(line: u64, code: &str, output: &mut Output<S>)
    ensures { Puts output.old output.new (refused_line_json line code.now) }
{
    output.put(b"{\"code\":");
    print_text(code, output);
    output.put(b",\"line\":");
    print_number(line, output);
    output.put(b"}");
}

/// Prints a fault of a line: its code, the key and the operation, if it has them, and the number of the line.
fn print_fault<S: Sink>(line: u64, fault: &Fault, output: &mut Output<S>)
    ensures { Puts output.old output.new (fault_json line fault.now) }
{
    output.put(b"{\"code\":");
    print_text(fault.code.text(), output);
    put_field(&fault.field, output);
    output.put(b",\"line\":");
    print_number(line, output);
    put_op(fault.op, output);
    output.put(b"}");
}

/// Puts the key at which the fault is, if it is at a key.
fn put_field<S: Sink>(field: &Option<Field>, output: &mut Output<S>)
    ensures { Puts output.old output.new (field_member field.now) }
{
    match field {
        None => {}
        Some(field) => {
            output.put(b",\"field\":");
            print_text(field.name(), output);
        }
    }
}

/// Puts the operation's index, if there is one.
pub(crate) fn put_op<S: Sink>(op: Option<usize>, output: &mut Output<S>)
    ensures { Puts output.old output.new (op_member op) }
{
    match op {
        None => {}
        Some(index) => {
            output.put(b",\"op\":");
            print_number(index as u64, output);
        }
    }
}
