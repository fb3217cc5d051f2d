//! What is printed for a value?

use line_devices::{CountedDevice, Output};
use line_reading::LineRefusal;
use reg_lines::{PrintJson, print_line};
use serde_json::Value;
use spiffe_name::Failure;
use std::alloc::Global;
use std::test::Fail;

/// The line of a value.
fn print<T: PrintJson>(value: &T, bytes: &mut Vec<u8>) -> Result<(), Fail> {
    let mut output = Output::new(CountedDevice::new(bytes));
    print_line(value, &mut output);
    output.flush();
    if output.has_failed() {
        return Err(Fail::from("no memory for the output"));
    }
    Ok(())
}

/// What `serde_json` writes for the value that it parses from the text.
fn written_again(alloc: Global, text: &str) -> Result<String, Fail> {
    let value = Value::from_str(alloc, text)?;
    Ok(value.to_string(alloc)?)
}

/// Appends a printed line without its LF, after checking that `serde_json` writes the same text for its value.
fn add_line(alloc: Global, text: &mut String, line: &[u8]) -> Result<(), Fail> {
    let Some((b'\n', printed)) = line.split_last() else {
        return Err(Fail::from("no LF at the end"));
    };
    let printed = str::from_utf8(printed)?;
    text.push_str(printed)?;
    if written_again(alloc, printed)?.as_str() != printed {
        return Err(Fail::from("serde_json writes another text"));
    }
    Ok(())
}

/// Appends what is printed for a value, after this text.
pub(crate) fn add<T: PrintJson>(
    alloc: Global,
    text: &mut String,
    before: &str,
    value: &T,
) -> Result<(), Fail> {
    text.push_str(before)?;
    let mut line = Vec::new(alloc);
    print(value, &mut line)?;
    add_line(alloc, text, line.as_slice())
}

/// Appends why a line is refused. Out of memory is an error, so that no table has to handle it.
pub(crate) fn add_refusal(
    alloc: Global,
    text: &mut String,
    refusal: &LineRefusal,
) -> Result<(), Fail> {
    if let Failure::NoMemory = &refusal.failure {
        return Err(Fail::from("no memory"));
    }
    add(alloc, text, "", refusal)
}
