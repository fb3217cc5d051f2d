//! Which batch does an object parse to?
//!
//! An object that holds a batch has the batch's own keys, which [`listed_in`] reads; [`batch_in`] then reads the
//! operations. The reader of a line with further keys reads those in between. [`batch_alone_in`] reads an object that has
//! none.

ghost use Rattle.std.specs.Prelude.{◌≡◌};
ghost use Rattle.serde_json.specs.View.{items_view};
ghost use Rattle.line_reading.specs.Batches.{batch_alone_in, batch_in, batch_of, items_at, listed_in, missing_with_token};
ghost use Rattle.line_reading.specs.FieldsPrivate.{Gives, data_of, members_of};

use crate::fault::{Code, Fault, Key};
use crate::fields::{Object, at_key};
use crate::ids::{Ids, MissingId};
use crate::ops::ops_in;
use entry_book::{Batch, Op, Sequence};
use serde_json::Value;
use spiffe_name::{Failure, TrustDomain};
use std::alloc::Global;
use uuid::Uuid;

/// The keys of an object that has a batch alone.
pub(super) const BATCH: [Key; 3] = [Key::Ops, Key::After, Key::Token];

/// The values at a batch's own keys.
#[derive(Drop)]
pub(crate) struct Listed<'a> {
    /// The operations, not read yet, in the order of the list.
    pub(super) items: &'a [Value],
    /// The smallest place (commit number) at which the batch may run.
    pub(super) after: u64,
    /// The token under which its commit is stored, if it has one.
    pub(super) token: Option<Uuid>,
}

/// Returns the list of operations of an object.
#[tactic(auto, unfolding(crate::specs::Batches::items_at))]
fn items_at<'a>(object: &'a Object<'_>) -> Result<&'a [Value], Failure<Fault>>
    ensures { Gives (λ items. items_view items.now) result (items_at (data_of object.now)) }
{
    match object.value_at(Key::Ops).and_then(Value::as_array) {
        Some(items) => Ok(items),
        None => Err(at_key(Code::Field, Key::Ops)),
    }
}

/// Reads a batch's own keys of an object. Without `after` the batch may run at any place.
#[tactic(auto, unfolding(crate::specs::Batches::listed_in))]
pub(crate) fn listed_in<'a>(object: &'a Object<'_>) -> Result<Listed<'a>, Failure<Fault>>
    ensures { Gives (λ listed. record {
      items = items_view listed.items.now;
      after = listed.after;
      token = listed.token;
    }) result (listed_in (data_of object.now)) }
{
    let items = items_at(object)?;
    let after = object.optional_number_at(Key::After)?;
    let token = object.optional_uuid_at(Key::Token)?;
    Ok(Listed {
        items,
        after: after.unwrap_or(0),
        token,
    })
}

/// Makes the batch of these operations.
pub(super) fn batch_of(
    alloc: Global,
    domain: &TrustDomain,
    ops: Sequence<Op>,
    after: u64,
    token: Option<Uuid>,
) -> Result<Batch, Failure<Fault>>
    ensures { Gives (λ batch. batch) result (batch_of domain.now ops after token) }
{
    match Batch::new(alloc, domain, ops, after, token) {
        Ok(batch) => Ok(batch),
        Err(Failure::NoMemory) => Err(Failure::NoMemory),
        Err(Failure::Refused(refusal)) => Err(Failure::Refused(Fault {
            code: Code::Batch(refusal),
            field: None,
            op: refusal.op(),
        })),
    }
}

/// Returns whether a create without an id draws one or is refused, in a batch with this token, if any.
fn missing_with_token(token: &Option<Uuid>) -> MissingId
    ensures { result ≡ missing_with_token token.now }
{
    match token {
        None => MissingId::Drawn,
        Some(_) => MissingId::Refused,
    }
}

/// Reads the operations, and makes the batch for a trust domain.
#[tactic(auto, unfolding(crate::specs::Batches::batch_in))]
pub(crate) fn batch_in(
    alloc: Global,
    domain: &TrustDomain,
    ids: &mut Ids,
    listed: &Listed<'_>,
) -> Result<Batch, Failure<Fault>>
    ensures { Gives (λ batch. (batch, ids.new)) result
        (batch_in domain.now ids.old (record {
          items = items_view listed.now.items.now;
          after = listed.now.after;
          token = listed.now.token;
        })) }
{
    let missing = missing_with_token(&listed.token);
    let ops = ops_in(alloc, missing, ids, listed.items)?;
    batch_of(alloc, domain, ops, listed.after, listed.token)
}

/// Reads the batch of an object that has no further keys.
#[tactic(auto, unfolding(crate::specs::Batches::batch_alone_in))]
pub(crate) fn batch_alone_in(
    alloc: Global,
    domain: &TrustDomain,
    ids: &mut Ids,
    object: &Object<'_>,
) -> Result<Batch, Failure<Fault>>
    ensures { Gives (λ batch. (batch, ids.new)) result
        (batch_alone_in domain.now ids.old (data_of object.now) (members_of object.now)) }
{
    let listed = listed_in(object)?;
    object.no_others(&BATCH)?;
    batch_in(alloc, domain, ids, &listed)
}
