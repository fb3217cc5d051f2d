//! Which request does a line parse to?

ghost use Rattle.std.specs.Prelude.{◌≡◌, IfErr, IfOk, MatchResult, OnErr};
ghost use Rattle.spiffe_name.specs.Failures.{IsNoMemory};
ghost use Rattle.line_reading.specs.Fields.{Fails};
ghost use Rattle.line_reading.specs.FieldsPrivate.{Gives, data_of, members_of};
ghost use Rattle.line_reading.specs.Requests.{NeedsMemory, request_in, spelled};

use crate::batch::{batch_in, listed_in};
use crate::fault::{Fault, Key};
use crate::fields::Object;
use crate::ids::Ids;
use crate::line::{object_of_line, value_of_line};
use crate::refusal::LineRefusal;
use crate::tries::Tries;
use entry_book::Batch;
use spiffe_name::{Failure, TrustDomain};
use std::alloc::Global;

const REQUEST: [Key; 4] = [Key::Ops, Key::After, Key::Token, Key::Tries];

/// The content of a request line.
#[derive(Drop)]
pub struct Request {
    /// The batch to run.
    pub batch: Batch,
    /// How often it may be tried.
    pub tries: Tries,
}

/// Reads the request of an object.
#[tactic(auto, unfolding(crate::specs::Requests::request_in))]
fn request_in(
    alloc: Global,
    domain: &TrustDomain,
    ids: &mut Ids,
    object: &Object<'_>,
) -> Result<Request, Failure<Fault>>
    ensures { Gives (λ request. (request, ids.new)) result
        (request_in domain.now ids.old (data_of object.now) (members_of object.now)) }
{
    let listed = listed_in(object)?;
    let tries = object.tries_at(Key::Tries)?;
    object.no_others(&REQUEST)?;
    let batch = batch_in(alloc, domain, ids, &listed)?;
    Ok(Request { batch, tries })
}

/// Reads the request of the line. On an error the ids are unchanged.
#[tactic(auto, unfolding(crate::specs::Requests::spelled))]
fn request_of_line(
    alloc: Global,
    domain: &TrustDomain,
    ids: &mut Ids,
    line: &[u8],
) -> Result<Request, Failure<Fault>>
    ensures spelled { Gives (λ request. (request, ids.new)) result (spelled domain.now ids.old line.now) }
    ensures kept { OnErr result (ids.new ≡ ids.old) }
    ensures memory { IfErr result (λ failure. IsNoMemory failure → NeedsMemory line.now) }
{
    let value = value_of_line(alloc, line)?;
    let object = object_of_line(&value)?;
    let mut after = ids.clone()?;
    let request = request_in(alloc, domain, &mut after, &object)?;
    *ids = after;
    Ok(request)
}

/// Reads a request line: its bytes with its LF, if it has one, and its number, counted from 1. Of a line over the limit the
/// first 1,048,577 bytes are enough. Each entry without an id gets the next of the ids; if the batch has a token, such an
/// entry is refused. The error is the first fault found, or out of memory, with the line's number; the ids are then
/// unchanged. It isn't out of memory for a line that is too long, has no LF or isn't UTF-8.
pub fn read_request(
    alloc: Global,
    domain: &TrustDomain,
    ids: &mut Ids,
    line: &[u8],
    number: u64,
) -> Result<Request, LineRefusal>
    ensures spelled { MatchResult result
        (λ request. spelled domain.now ids.old line.now ≡ Ok (request, ids.new))
        (λ refusal. (refusal.line ≡ number) × Fails refusal.failure (spelled domain.now ids.old line.now)) }
    ensures kept { OnErr result (ids.new ≡ ids.old) }
    ensures memory { IfErr result (λ refusal. IsNoMemory refusal.failure → NeedsMemory line.now) }
    ensures domain { IfOk result (λ request. request.batch.domain ≡ domain.now) }
{
    match request_of_line(alloc, domain, ids, line) {
        Ok(request) => Ok(request),
        Err(failure) => Err(LineRefusal {
            line: number,
            failure,
        }),
    }
}
