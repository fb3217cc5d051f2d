//! Operations on entries.

ghost use Rattle.line_reading.specs.FieldsPrivate.{Gives, data_of, members_of};
ghost use Rattle.line_reading.specs.Operations.{children_in, create_in, delete_in, entry_in, prune_in, show_in, update_in};

use crate::fault::{Fault, Key};
use crate::fields::Object;
use crate::ids::{Ids, MissingId};
use entry_book::{DomainSet, NewEntry, Op, Shared, Text};
use spiffe_name::Failure;
use std::alloc::Global;
use uuid::Uuid;

const CREATE: [Key; 10] = [
    Key::Op,
    Key::Id,
    Key::Parent,
    Key::Identity,
    Key::Selectors,
    Key::Hint,
    Key::Domains,
    Key::Expiry,
    Key::X509SvidTtl,
    Key::JwtSvidTtl,
];

const UPDATE: [Key; 11] = [
    Key::Op,
    Key::Id,
    Key::Parent,
    Key::Identity,
    Key::Selectors,
    Key::Hint,
    Key::Domains,
    Key::Expiry,
    Key::X509SvidTtl,
    Key::JwtSvidTtl,
    Key::Revision,
];

const DELETE: [Key; 3] = [Key::Op, Key::Id, Key::Revision];

const SHOW: [Key; 2] = [Key::Op, Key::Id];

const CHILDREN: [Key; 2] = [Key::Op, Key::Parent];

const PRUNE: [Key; 2] = [Key::Op, Key::Before];

/// Reads the fields of the entry with this id. By default its hint and its set of domains are empty, and its expiry and
/// both lifetimes are 0.
#[tactic(auto, unfolding(crate::specs::Operations::entry_in))]
fn entry_in(alloc: Global, id: Uuid, object: &Object<'_>) -> Result<NewEntry, Failure<Fault>>
    ensures { Gives (λ entry. entry) result (entry_in id (data_of object.now)) }
{
    let parent = object.id_at(alloc, Key::Parent)?;
    let identity = object.id_at(alloc, Key::Identity)?;
    let selectors = object.selectors_at(alloc, Key::Selectors)?;
    let hint = object.optional_text_at(alloc, Key::Hint)?;
    let domains = object.optional_domains_at(alloc, Key::Domains)?;
    let expiry = object.optional_number_at(Key::Expiry)?;
    let x509_svid_ttl = object.optional_number_at(Key::X509SvidTtl)?;
    let jwt_svid_ttl = object.optional_number_at(Key::JwtSvidTtl)?;
    Ok(NewEntry {
        id,
        parent: Shared::of(alloc, parent)?,
        identity: Shared::of(alloc, identity)?,
        selectors: Shared::of(alloc, selectors)?,
        hint: Shared::of(alloc, hint.unwrap_or(Text::of(String::new(alloc))))?,
        domains: domains.unwrap_or(DomainSet::empty(alloc)),
        expiry: expiry.unwrap_or(0),
        x509_svid_ttl: x509_svid_ttl.unwrap_or(0),
        jwt_svid_ttl: jwt_svid_ttl.unwrap_or(0),
    })
}

/// Reads the create of an entry. If its id is missing, one is drawn, or the entry is refused.
#[tactic(auto, unfolding(crate::specs::Operations::create_in))]
pub(super) fn create_in(
    alloc: Global,
    missing: MissingId,
    ids: &mut Ids,
    object: &Object<'_>,
) -> Result<Op, Failure<Fault>>
    ensures { Gives (λ op. (op, ids.new)) result
        (create_in missing ids.old (data_of object.now) (members_of object.now)) }
{
    let id = object.new_uuid_at(missing, ids, Key::Id)?;
    let entry = entry_in(alloc, id, object)?;
    object.no_others(&CREATE)?;
    Ok(Op::Create(Shared::of(alloc, entry)?))
}

/// Reads the update of an entry, with its expected revision if given. The error is the first fault at a key, or out of memory.
#[tactic(auto, unfolding(crate::specs::Operations::update_in))]
pub(super) fn update_in(alloc: Global, object: &Object<'_>) -> Result<Op, Failure<Fault>>
    ensures { Gives (λ op. op) result (update_in (data_of object.now) (members_of object.now)) }
{
    let id = object.uuid_at(Key::Id)?;
    let entry = entry_in(alloc, id, object)?;
    let expected = object.optional_number_at(Key::Revision)?;
    object.no_others(&UPDATE)?;
    Ok(Op::Update(Shared::of(alloc, entry)?, expected))
}

/// Reads the delete of an entry, with its expected revision if given. The error is the first fault at a key.
#[tactic(auto, unfolding(crate::specs::Operations::delete_in))]
pub(super) fn delete_in(object: &Object<'_>) -> Result<Op, Failure<Fault>>
    ensures { Gives (λ op. op) result (delete_in (data_of object.now) (members_of object.now)) }
{
    let id = object.uuid_at(Key::Id)?;
    let expected = object.optional_number_at(Key::Revision)?;
    object.no_others(&DELETE)?;
    Ok(Op::Delete(id, expected))
}

/// Reads a query for an entry. The error is the first fault at a key.
#[tactic(auto, unfolding(crate::specs::Operations::show_in))]
pub(super) fn show_in(object: &Object<'_>) -> Result<Op, Failure<Fault>>
    ensures { Gives (λ op. op) result (show_in (data_of object.now) (members_of object.now)) }
{
    let id = object.uuid_at(Key::Id)?;
    object.no_others(&SHOW)?;
    Ok(Op::Show(id))
}

/// Reads a query for the entries of a parent. The error is the first fault at a key, or out of memory.
#[tactic(auto, unfolding(crate::specs::Operations::children_in))]
pub(super) fn children_in(alloc: Global, object: &Object<'_>) -> Result<Op, Failure<Fault>>
    ensures { Gives (λ op. op) result (children_in (data_of object.now) (members_of object.now)) }
{
    let parent = object.id_at(alloc, Key::Parent)?;
    object.no_others(&CHILDREN)?;
    Ok(Op::Children(Shared::of(alloc, parent)?))
}

/// Reads the prune of entries that expire before a moment. The error is the first fault at a key.
#[tactic(auto, unfolding(crate::specs::Operations::prune_in))]
pub(super) fn prune_in(object: &Object<'_>) -> Result<Op, Failure<Fault>>
    ensures { Gives (λ op. op) result (prune_in (data_of object.now) (members_of object.now)) }
{
    let moment = object.number_at(Key::Before)?;
    object.no_others(&PRUNE)?;
    Ok(Op::Prune(moment))
}
