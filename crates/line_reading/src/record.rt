//! Which record of a call does a line parse to?

ghost use Rattle.std.specs.Prelude.{◌≡◌, IfErr, Ok, IfOk, MatchResult};
ghost use Rattle.serde_json.specs.View.{view};
ghost use Rattle.spiffe_name.specs.Failures.{IsNoMemory};
ghost use Rattle.line_reading.specs.Fields.{Fails};
ghost use Rattle.line_reading.specs.FieldsPrivate.{Gives, data_of, members_of};
ghost use Rattle.line_reading.specs.RecordViews.{recorded};
ghost use Rattle.line_reading.specs.Records.{number_or_null_at, object_at, record_in, recorded_batch_in, spelled_record};
ghost use Rattle.line_reading.specs.Requests.{NeedsMemory};

use crate::batch::{BATCH, batch_of, listed_in};
use crate::fault::{Code, Fault, Key};
use crate::fields::{Object, at_key, number_in, object_in};
use crate::ids::{Ids, MissingId};
use crate::line::{object_of_line, value_of_line};
use crate::ops::ops_in;
use crate::refusal::LineRefusal;
use entry_book::Batch;
use serde_json::Value;
use spiffe_name::{Failure, TrustDomain};
use std::alloc::Global;

const RECORD: [Key; 5] = [
    Key::Batch,
    Key::Call,
    Key::Invoked,
    Key::Replied,
    Key::Reply,
];

/// A call, as its record reports it.
#[derive(Drop)]
pub struct Record {
    /// The batch of the call.
    pub batch: Batch,
    /// The number of the call.
    pub call: u64,
    /// The number of its invoke among the accepted events.
    pub invoked: u64,
    /// The number of its reply; `None` if it hasn't replied.
    pub replied: Option<u64>,
    /// Its reply; a record with a reply that isn't an object is refused.
    pub reply: Value,
}

/// Reads the whole number at a key, or `None` if the value is null. The key must be there.
#[tactic(auto, unfolding(crate::specs::Records::number_or_null_at))]
fn number_or_null_at(object: &Object<'_>, key: Key) -> Result<Option<u64>, Failure<Fault>>
    ensures { Gives (λ n. n) result (number_or_null_at key (data_of object.now)) }
{
    let value = object.required_at(key)?;
    if value.is_null() {
        return Ok(None);
    }
    Ok(Some(number_in(value, key)?))
}

/// Reads the object at a key.
#[tactic(auto, unfolding(crate::specs::Records::object_at))]
fn object_at<'a>(object: &'a Object<'_>, key: Key) -> Result<&'a Value, Failure<Fault>>
    ensures { Gives (λ value. view value.now) result (object_at key (data_of object.now)) }
{
    let value = object.required_at(key)?;
    if !value.is_object() {
        return Err(at_key(Code::Field, key));
    }
    Ok(value)
}

/// Reads the batch of a record's object. Each of its creates must have an id.
#[tactic(auto, unfolding(crate::specs::Records::recorded_batch_in, crate::specs::Records::no_ids))]
fn recorded_batch_in(
    alloc: Global,
    domain: &TrustDomain,
    object: &Object<'_>,
) -> Result<Batch, Failure<Fault>>
    ensures { Gives (λ batch. batch) result
        (recorded_batch_in domain.now (data_of object.now) (members_of object.now)) }
{
    let listed = listed_in(object)?;
    object.no_others(&BATCH)?;
    let mut ids = Ids::of_seed([0; 32]);
    let ops = ops_in(alloc, MissingId::Refused, &mut ids, listed.items)?;
    batch_of(alloc, domain, ops, listed.after, listed.token)
}

/// Reads the record of an object.
#[tactic(auto, unfolding(crate::specs::Records::record_in))]
fn record_in(
    alloc: Global,
    domain: &TrustDomain,
    object: &Object<'_>,
) -> Result<Record, Failure<Fault>>
    ensures { Gives recorded result (record_in domain.now (data_of object.now) (members_of object.now)) }
{
    let inner = object_in(object.required_at(Key::Batch)?, Key::Batch)?;
    let call = object.number_at(Key::Call)?;
    let invoked = object.number_at(Key::Invoked)?;
    let replied = number_or_null_at(object, Key::Replied)?;
    let reply = object_at(object, Key::Reply)?;
    object.no_others(&RECORD)?;
    let batch = recorded_batch_in(alloc, domain, &inner)?;
    Ok(Record {
        batch,
        call,
        invoked,
        replied,
        reply: reply.clone()?,
    })
}

/// Reads the record of the line.
#[tactic(auto, unfolding(crate::specs::Records::spelled_record))]
fn spelled_record(
    alloc: Global,
    domain: &TrustDomain,
    line: &[u8],
) -> Result<Record, Failure<Fault>>
    ensures spelled { Gives recorded result (spelled_record domain.now line.now) }
    ensures memory { IfErr result (λ failure. IsNoMemory failure → NeedsMemory line.now) }
{
    let value = value_of_line(alloc, line)?;
    let object = object_of_line(&value)?;
    record_in(alloc, domain, &object)
}

/// Reads a record's line: its bytes with its LF, if it has one, and its number, counted from 1. Of a line over the limit
/// the first 1,048,577 bytes are enough. Each create of its batch must have an id. The error is the first fault found, or
/// out of memory, with the line's number. It isn't out of memory for a line that is too long, has no LF or isn't UTF-8.
pub fn read_record(
    alloc: Global,
    domain: &TrustDomain,
    line: &[u8],
    number: u64,
) -> Result<Record, LineRefusal>
    ensures spelled { MatchResult result
        (λ parsed. spelled_record domain.now line.now ≡ Ok (recorded parsed))
        (λ refusal. (refusal.line ≡ number) × Fails refusal.failure (spelled_record domain.now line.now)) }
    ensures memory { IfErr result (λ refusal. IsNoMemory refusal.failure → NeedsMemory line.now) }
    ensures domain { IfOk result (λ parsed. parsed.batch.domain ≡ domain.now) }
{
    match spelled_record(alloc, domain, line) {
        Ok(parsed) => Ok(parsed),
        Err(failure) => Err(LineRefusal {
            line: number,
            failure,
        }),
    }
}
