//! SPIFFE IDs, trust domains and UUIDs.

ghost use Rattle.serde_json.specs.View.{view};
ghost use Rattle.line_reading.specs.Fields.{domain_or_fault, uuid_in, uuid_of};
ghost use Rattle.line_reading.specs.FieldsPrivate.{Gives, id_or_fault};
ghost use Rattle.uuid.specs.Text.{parsed};

use super::texts::text_in;
use super::{Object, at_key};
use crate::fault::{Code, Fault, Key};
use crate::ids::{Ids, MissingId};
use serde_json::Value;
use spiffe_name::{Failure, SpiffeId, TrustDomain};
use std::alloc::Global;
use uuid::Uuid;

/// Parses a text as a SPIFFE ID.
fn id_of(alloc: Global, text: &str, key: Key) -> Result<SpiffeId, Failure<Fault>>
    ensures { Gives (λ id. id) result (id_or_fault key text.now) }
{
    match SpiffeId::parse(alloc, text) {
        Ok(id) => Ok(id),
        Err(Failure::NoMemory) => Err(Failure::NoMemory),
        Err(Failure::Refused(refusal)) => Err(at_key(Code::Id(refusal), key)),
    }
}

/// Parses a text as a trust domain.
pub(super) fn domain_of(alloc: Global, text: &str, key: Key) -> Result<TrustDomain, Failure<Fault>>
    ensures { Gives (λ domain. domain) result (domain_or_fault key text.now) }
{
    match TrustDomain::parse(alloc, text) {
        Ok(domain) => Ok(domain),
        Err(Failure::NoMemory) => Err(Failure::NoMemory),
        Err(Failure::Refused(refusal)) => Err(at_key(Code::Id(refusal), key)),
    }
}

/// Parses a text as a UUID.
fn uuid_of(text: &str, key: Key) -> Result<Uuid, Failure<Fault>>
    ensures { Gives (λ id. id) result (uuid_of key (parsed text.now)) }
{
    match Uuid::parse_str(text) {
        Ok(id) => Ok(id),
        Err(_) => Err(at_key(Code::NotUuid, key)),
    }
}

/// Reads a value as a UUID.
#[tactic(auto, unfolding(crate::specs::Fields::uuid_in))]
fn uuid_in(value: &Value, key: Key) -> Result<Uuid, Failure<Fault>>
    ensures { Gives (λ id. id) result (uuid_in key (view value.now)) }
{
    let text = text_in(value, key)?;
    uuid_of(text, key)
}

impl Object<'_> {
    ghost use Rattle.line_reading.specs.Fields.{domain_at, id_at, new_uuid_at, optional_id_at, optional_uuid_at, uuid_at, uuid_or_drawn_at};
    ghost use Rattle.line_reading.specs.FieldsPrivate.{Gives, data_of};

    /// Reads the SPIFFE ID at the key.
    #[tactic(auto, unfolding(crate::specs::Fields::id_at))]
    pub(crate) fn id_at(&self, alloc: Global, key: Key) -> Result<SpiffeId, Failure<Fault>>
        ensures { Gives (λ id. id) result (id_at key (data_of self.now)) }
    {
        let text = self.text_at(key)?;
        id_of(alloc, text, key)
    }

    /// Reads the SPIFFE ID at an optional key.
    #[tactic(auto, unfolding(crate::specs::Fields::optional_id_at, crate::specs::Fields::id_in))]
    pub(crate) fn optional_id_at(
        &self,
        alloc: Global,
        key: Key,
    ) -> Result<Option<SpiffeId>, Failure<Fault>>
        ensures { Gives (λ id. id) result (optional_id_at key (data_of self.now)) }
    {
        let Some(value) = self.given_at(key) else {
            return Ok(None);
        };
        let text = text_in(value, key)?;
        Ok(Some(id_of(alloc, text, key)?))
    }

    /// Reads the trust domain at the key.
    #[tactic(auto, unfolding(crate::specs::Fields::domain_at))]
    pub(crate) fn domain_at(&self, alloc: Global, key: Key) -> Result<TrustDomain, Failure<Fault>>
        ensures { Gives (λ domain. domain) result (domain_at key (data_of self.now)) }
    {
        let text = self.text_at(key)?;
        domain_of(alloc, text, key)
    }

    /// Reads the UUID at the key.
    #[tactic(auto, unfolding(crate::specs::Fields::uuid_at))]
    pub(crate) fn uuid_at(&self, key: Key) -> Result<Uuid, Failure<Fault>>
        ensures { Gives (λ id. id) result (uuid_at key (data_of self.now)) }
    {
        let text = self.text_at(key)?;
        uuid_of(text, key)
    }

    /// Reads the UUID at an optional key.
    #[tactic(auto, unfolding(crate::specs::Fields::optional_uuid_at))]
    pub(crate) fn optional_uuid_at(&self, key: Key) -> Result<Option<Uuid>, Failure<Fault>>
        ensures { Gives (λ id. id) result (optional_uuid_at key (data_of self.now)) }
    {
        let Some(value) = self.given_at(key) else {
            return Ok(None);
        };
        Ok(Some(uuid_in(value, key)?))
    }

    /// Reads the UUID at an optional key, or draws one.
    #[tactic(auto, unfolding(crate::specs::Fields::uuid_or_drawn_at))]
    fn uuid_or_drawn_at(&self, ids: &mut Ids, key: Key) -> Result<Uuid, Failure<Fault>>
        ensures { Gives (λ id. (id, ids.new)) result (uuid_or_drawn_at ids.old key (data_of self.now)) }
    {
        match self.given_at(key) {
            Some(value) => Ok(uuid_in(value, key)?),
            None => Ok(ids.draw()),
        }
    }

    /// Reads the UUID at the key of a new entry. A missing one is drawn or refused.
    pub(crate) fn new_uuid_at(
        &self,
        missing: MissingId,
        ids: &mut Ids,
        key: Key,
    ) -> Result<Uuid, Failure<Fault>>
        ensures { Gives (λ id. (id, ids.new)) result (new_uuid_at missing ids.old key (data_of self.now)) }
    {
        match missing {
            MissingId::Drawn => self.uuid_or_drawn_at(ids, key),
            MissingId::Refused => self.uuid_at(key),
        }
    }
}
