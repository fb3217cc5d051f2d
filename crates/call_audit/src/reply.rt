//! Is a record's reply the one that the book gives?

ghost use Rattle.std.specs.Prelude.{◌≡◌, IfOk};
ghost use Rattle.serde_json.specs.View.{items_view, members_view, view};
ghost use Rattle.serde_json.specs.Written.{has_float, items_have_float, members_have_float};
ghost use Rattle.reg_lines.specs.Replies.{reply_json};
ghost use Rattle.call_audit.specs.Audits.{is_text_of};

use entry_book::Reply;
use line_devices::{CountedDevice, Output};
use reg_lines::{CallReply, PrintJson};
use serde_json::{Map, Value};
use std::alloc::{AllocError, Global};

/// Returns true if the given value is that of the line which prints this reply to the call. It is never true if the value has
/// a floating-point number. The error is out of memory.
pub(crate) fn is_reply(
    alloc: Global,
    given: &Value,
    call: u64,
    reply: &Reply,
) -> Result<bool, AllocError>
    ensures { IfOk result (λ same. same ≡ is_text_of (view given.now) (reply_json call reply.now)) }
{
    if has_float(given) {
        return Ok(false);
    }
    let given = given.to_string(alloc)?;
    let expected = reply_text(alloc, call, reply)?;
    Ok(given.as_bytes() == expected.as_slice())
}

/// Returns the JSON text that is printed for a call's reply. The error is out of memory.
fn reply_text(alloc: Global, call: u64, reply: &Reply) -> Result<Vec<u8>, AllocError>
    ensures { IfOk result (λ text. text.items ≡ reply_json call reply.now) }
{
    let mut output = Output::new(CountedDevice::new(Vec::new(alloc)));
    CallReply { call, reply }.print_to(&mut output);
    output.flush();
    if output.has_failed() {
        return Err(AllocError);
    }
    Ok(output.into_sink().into_inner())
}

#[cycle(float)]
fn has_float(value: &Value) -> bool
    ensures { result ≡ has_float (view value.now) }
{
    match value {
        Value::Null => false,
        Value::Bool(_) => false,
        Value::Number(number) => number.is_f64(),
        Value::String(_) => false,
        Value::Array(items) => items_have_float(items),
        Value::Object(members) => members_have_float(members),
    }
}

#[cycle(float)]
fn items_have_float(items: &Vec<Value>) -> bool
    ensures { result ≡ items_have_float (items_view items.now.items) }
{
    for item in items {
        if has_float(item) {
            return true;
        }
    }
    false
}

#[cycle(float)]
fn members_have_float(members: &Map<String, Value>) -> bool
    ensures { result ≡ members_have_float (members_view members.now.entries) }
{
    for (_, member) in members.iter() {
        if has_float(member) {
            return true;
        }
    }
    false
}
