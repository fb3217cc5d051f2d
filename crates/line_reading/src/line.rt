//! Which JSON object does a line have?

ghost use Rattle.std.specs.Prelude.{◌≡◌, IfErr, IfOk, MatchResult, length};
ghost use Rattle.std.specs.Io.BufRead.{ends_with_byte, strip_last};
ghost use Rattle.std.specs.Str.{IsUtf8};
ghost use Rattle.serde_json.specs.Find.{as_object};
ghost use Rattle.serde_json.specs.View.{view};
ghost use Rattle.spiffe_name.specs.Failures.{IsNoMemory};
ghost use Rattle.line_reading.specs.Fields.{Fails};
ghost use Rattle.line_reading.specs.FieldsPrivate.{Gives, data_of, members_of, value_of_line};
ghost use Rattle.line_reading.specs.Requests.{NeedsMemory, framed, object_in, value_in};

use crate::fault::{Code, Fault};
use crate::fields::{Object, at_line, object_of};
use line_devices::KEPT_BYTES;
use serde_json::Value;
use spiffe_name::Failure;
use std::alloc::Global;

/// The maximum number of bytes before a line's LF. It is one less than the number of bytes that are kept of a line, so that these
/// show whether the line is too long.
const LINE_LIMIT: usize = KEPT_BYTES - 1;

fn ends_with_lf(line: &[u8]) -> bool
    ensures { result ≡ ends_with_byte 10 line.now }
{
    !line.is_empty() && line[line.len() - 1] == b'\n'
}

/// Returns the number of bytes before the LF.
fn len_before_lf(line: &[u8]) -> usize
    ensures { result ≡ length (strip_last 10 line.now) }
{
    if ends_with_lf(line) {
        line.len() - 1
    } else {
        line.len()
    }
}

/// Refuses a line that is too long or has no LF. This takes no memory.
#[tactic(auto, unfolding(crate::specs::Requests::framed, crate::specs::Requests::line_limit))]
fn check_frame(line: &[u8]) -> Result<(), Fault>
    ensures { result ≡ framed line.now }
{
    if len_before_lf(line) > LINE_LIMIT {
        return Err(at_line(Code::LineTooLong));
    }
    if !ends_with_lf(line) {
        return Err(at_line(Code::Truncated));
    }
    Ok(())
}

/// Returns the line's text; a line that isn't UTF-8 isn't JSON. This takes no memory.
fn text_in(line: &[u8]) -> Result<&str, Fault>
    ensures { MatchResult result
        (λ text. (text.now ≡ line.now) × IsUtf8 line.now)
        (λ fault. value_in line.now ≡ Err fault) }
{
    match str::from_utf8(line) {
        Ok(text) => Ok(text),
        Err(_) => Err(at_line(Code::NotJson)),
    }
}

/// Parses the text as a JSON value. No other function calls a parser of JSON, and a line is parsed once.
#[tactic(auto, unfolding(crate::specs::Requests::value_in))]
fn value_in(alloc: Global, text: &str) -> Result<Value, Failure<Fault>>
    ensures { Gives view result (value_in text.now) }
{
    match Value::from_str(alloc, text) {
        Ok(value) => Ok(value),
        Err(error) => Err(if error.is_memory() {
            Failure::NoMemory
        } else {
            Failure::Refused(at_line(Code::NotJson))
        }),
    }
}

/// Returns the JSON value of the line. The checks that take no memory come first.
pub(super) fn value_of_line(alloc: Global, line: &[u8]) -> Result<Value, Failure<Fault>>
    ensures value { MatchResult result
        (λ value. NeedsMemory line.now × (value_in line.now ≡ Ok (view value)))
        (λ failure. Fails failure (value_of_line line.now)) }
    ensures memory { IfErr result (λ failure. IsNoMemory failure → NeedsMemory line.now) }
{
    check_frame(line)?;
    let text = text_in(line)?;
    value_in(alloc, text)
}

/// Returns the object that is the value of a line.
pub(super) fn object_of_line(value: &Value) -> Result<Object<'_>, Failure<Fault>>
    ensures members { Gives members_of result (object_in (as_object (view value.now))) }
    ensures value { IfOk result (λ object. data_of object ≡ view value.now) }
{
    object_of(value).ok_or(Failure::Refused(at_line(Code::NotObject)))
}
