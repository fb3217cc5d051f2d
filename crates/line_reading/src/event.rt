//! Which event does a line parse to?

ghost use Rattle.std.specs.Prelude.{◌≡◌, IfErr, IfOk, MatchResult, OnErr};
ghost use Rattle.spiffe_name.specs.Failures.{IsNoMemory};
ghost use Rattle.call_events.specs.Events.{IsFor};
ghost use Rattle.line_reading.specs.Events.{event_alone_in, event_in, event_of, invoke_in, kind_at, kind_of, spelled_event};
ghost use Rattle.line_reading.specs.Fields.{Fails};
ghost use Rattle.line_reading.specs.FieldsPrivate.{Gives, data_of, members_of};
ghost use Rattle.line_reading.specs.Requests.{NeedsMemory};

use crate::batch::batch_alone_in;
use crate::fault::{Code, Fault, Key};
use crate::fields::{Object, at_key, object_in};
use crate::ids::Ids;
use crate::line::{object_of_line, value_of_line};
use crate::refusal::LineRefusal;
use call_events::Event;
use serde_json::Value;
use spiffe_name::{Failure, TrustDomain};
use std::alloc::Global;

const INVOKE: [Key; 3] = [Key::Event, Key::Call, Key::Batch];

/// The keys of every other event.
const OTHERS: [Key; 2] = [Key::Event, Key::Call];

/// The kind of an event of a call.
#[derive(Clone, Copy, Debug, PartialEq, Eq, Drop)]
pub(crate) enum EventKind {
    /// The call submits its batch.
    Invoke,
    /// The call begins to run its batch.
    Begin,
    /// The call makes its next read.
    Step,
    /// The call asks to commit its changes.
    Commit,
    /// The call's answer is returned.
    Reply,
}

/// Returns the kind of event with this name.
fn kind_of(word: &str) -> Option<EventKind>
    ensures { result ≡ kind_of word.now }
{
    match word {
        "invoke" => Some(EventKind::Invoke),
        "begin" => Some(EventKind::Begin),
        "step" => Some(EventKind::Step),
        "commit" => Some(EventKind::Commit),
        "reply" => Some(EventKind::Reply),
        _ => None,
    }
}

/// Reads the kind of event at the key.
#[tactic(auto, unfolding(crate::specs::Events::kind_at))]
fn kind_at(object: &Object<'_>, key: Key) -> Result<EventKind, Failure<Fault>>
    ensures { Gives (λ kind. kind) result (kind_at key (data_of object.now)) }
{
    object
        .value_at(key)
        .and_then(Value::as_str)
        .and_then(kind_of)
        .ok_or(at_key(Code::Field, key))
}

/// Reads an invoke of the call of this number. The keys of the line are checked before those of the batch.
#[tactic(auto, unfolding(crate::specs::Events::invoke_in))]
fn invoke_in(
    alloc: Global,
    domain: &TrustDomain,
    ids: &mut Ids,
    call: u64,
    object: &Object<'_>,
) -> Result<Event, Failure<Fault>>
    ensures { Gives (λ event. (event, ids.new)) result
        (invoke_in domain.now ids.old call (data_of object.now) (members_of object.now)) }
{
    let inner = object_in(object.required_at(Key::Batch)?, Key::Batch)?;
    object.no_others(&INVOKE)?;
    let batch = batch_alone_in(alloc, domain, ids, &inner)?;
    Ok(Event::Invoke(call, batch))
}

/// Returns the event, unless the line has keys other than `event` and `call`.
#[tactic(auto, unfolding(crate::specs::Events::event_alone_in))]
fn event_alone_in(event: Event, object: &Object<'_>) -> Result<Event, Failure<Fault>>
    ensures { Gives (λ e. e) result (event_alone_in event (members_of object.now)) }
{
    object.no_others(&OTHERS)?;
    Ok(event)
}

/// Reads the event of this kind, of the call of this number.
fn event_of(
    alloc: Global,
    domain: &TrustDomain,
    ids: &mut Ids,
    kind: EventKind,
    call: u64,
    object: &Object<'_>,
) -> Result<Event, Failure<Fault>>
    ensures { Gives (λ event. (event, ids.new)) result
        (event_of domain.now ids.old kind call (data_of object.now) (members_of object.now)) }
{
    match kind {
        EventKind::Invoke => invoke_in(alloc, domain, ids, call, object),
        EventKind::Begin => event_alone_in(Event::Begin(call), object),
        EventKind::Step => event_alone_in(Event::Step(call), object),
        EventKind::Commit => event_alone_in(Event::Commit(call), object),
        EventKind::Reply => event_alone_in(Event::Reply(call), object),
    }
}

/// Reads the event of an object.
#[tactic(auto, unfolding(crate::specs::Events::event_in))]
fn event_in(
    alloc: Global,
    domain: &TrustDomain,
    ids: &mut Ids,
    object: &Object<'_>,
) -> Result<Event, Failure<Fault>>
    ensures { Gives (λ event. (event, ids.new)) result
        (event_in domain.now ids.old (data_of object.now) (members_of object.now)) }
{
    let kind = kind_at(object, Key::Event)?;
    let call = object.number_at(Key::Call)?;
    event_of(alloc, domain, ids, kind, call, object)
}

/// Reads the event of the line. On an error the ids are unchanged.
#[tactic(auto, unfolding(crate::specs::Events::spelled_event))]
fn event_of_line(
    alloc: Global,
    domain: &TrustDomain,
    ids: &mut Ids,
    line: &[u8],
) -> Result<Event, Failure<Fault>>
    ensures spelled { Gives (λ event. (event, ids.new)) result (spelled_event domain.now ids.old line.now) }
    ensures kept { OnErr result (ids.new ≡ ids.old) }
    ensures memory { IfErr result (λ failure. IsNoMemory failure → NeedsMemory line.now) }
{
    let value = value_of_line(alloc, line)?;
    let object = object_of_line(&value)?;
    let mut after = ids.clone()?;
    let event = event_in(alloc, domain, &mut after, &object)?;
    *ids = after;
    Ok(event)
}

/// Reads an event's line: its bytes with its LF, if it has one, and its number, counted from 1. Of a line over the limit
/// the first 1,048,577 bytes are enough. Each entry of its batch without an id gets the next of the ids, as in
/// [`read_request`](crate::read_request). The error is the first fault found, or out of memory, with the line's number; the
/// ids are then unchanged. It isn't out of memory for a line that is too long, has no LF or isn't UTF-8.
pub fn read_event(
    alloc: Global,
    domain: &TrustDomain,
    ids: &mut Ids,
    line: &[u8],
    number: u64,
) -> Result<Event, LineRefusal>
    ensures spelled { MatchResult result
        (λ event. spelled_event domain.now ids.old line.now ≡ Ok (event, ids.new))
        (λ refusal. (refusal.line ≡ number) × Fails refusal.failure (spelled_event domain.now ids.old line.now)) }
    ensures kept { OnErr result (ids.new ≡ ids.old) }
    ensures memory { IfErr result (λ refusal. IsNoMemory refusal.failure → NeedsMemory line.now) }
    ensures domain { IfOk result (IsFor domain.now) }
{
    match event_of_line(alloc, domain, ids, line) {
        Ok(event) => Ok(event),
        Err(failure) => Err(LineRefusal {
            line: number,
            failure,
        }),
    }
}
