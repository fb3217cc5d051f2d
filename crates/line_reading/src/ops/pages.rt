//! Pages of entries.

ghost use Rattle.std.specs.Prelude.{◌≡◌, IfOk};
ghost use Rattle.line_reading.specs.FieldsPrivate.{Gives, data_of, members_of};
ghost use Rattle.line_reading.specs.Operations.{filter_in, page_in, selector_match};

use crate::fault::{Code, Fault, Key};
use crate::fields::{Object, at_key};
use entry_book::{Filter, MatchMode, Op, PageQuery, SelectorMatch, Shared};
use spiffe_name::{Failure, SelectorSet, SpiffeId, TrustDomain};
use std::alloc::{AllocError, Global};

const PAGE: [Key; 9] = [
    Key::Op,
    Key::Size,
    Key::At,
    Key::From,
    Key::Parent,
    Key::Identity,
    Key::Domain,
    Key::Selectors,
    Key::Match,
];

/// Makes the ID, if there is one, a shared value. The error is out of memory.
fn shared_id(alloc: Global, given: Option<SpiffeId>) -> Result<Option<Shared<SpiffeId>>, AllocError>
    ensures { IfOk result (λ shared. shared ≡ given) }
{
    match given {
        Some(id) => Ok(Some(Shared::of(alloc, id)?)),
        None => Ok(None),
    }
}

/// Makes the trust domain, if there is one, a shared value. The error is out of memory.
fn shared_domain(
    alloc: Global,
    given: Option<TrustDomain>,
) -> Result<Option<Shared<TrustDomain>>, AllocError>
    ensures { IfOk result (λ shared. shared ≡ given) }
{
    match given {
        Some(domain) => Ok(Some(Shared::of(alloc, domain)?)),
        None => Ok(None),
    }
}

/// Returns the condition on selectors, if there is one. By default an entry's set must contain the given selectors. A match
/// mode without selectors is refused.
fn selector_match(
    alloc: Global,
    selectors: Option<SelectorSet>,
    mode: Option<MatchMode>,
) -> Result<Option<SelectorMatch>, Failure<Fault>>
    ensures { Gives (λ question. question) result (selector_match selectors mode) }
{
    match (selectors, mode) {
        (None, None) => Ok(None),
        (None, Some(_)) => Err(at_key(Code::Field, Key::Match)),
        (Some(selectors), mode) => Ok(Some(SelectorMatch {
            selectors: Shared::of(alloc, selectors)?,
            mode: mode.unwrap_or(MatchMode::Superset),
        })),
    }
}

/// Reads a page's filter, whose conditions are optional. The error is the first fault at a key, or out of memory.
#[tactic(auto, unfolding(crate::specs::Operations::filter_in))]
fn filter_in(alloc: Global, object: &Object<'_>) -> Result<Filter, Failure<Fault>>
    ensures { Gives (λ filter. filter) result (filter_in (data_of object.now)) }
{
    let parent = object.optional_id_at(alloc, Key::Parent)?;
    let identity = object.optional_id_at(alloc, Key::Identity)?;
    let domain = object.optional_domain_at(alloc, Key::Domain)?;
    let selectors = object.optional_selectors_at(alloc, Key::Selectors)?;
    let mode = object.optional_match_at(Key::Match)?;
    let question = selector_match(alloc, selectors, mode)?;
    Ok(Filter {
        parent: shared_id(alloc, parent)?,
        identity: shared_id(alloc, identity)?,
        domain: shared_domain(alloc, domain)?,
        selectors: question,
    })
}

/// Reads a query for a page of entries. The error is the first fault at a key, or out of memory.
#[tactic(auto, unfolding(crate::specs::Operations::page_in))]
pub(super) fn page_in(alloc: Global, object: &Object<'_>) -> Result<Op, Failure<Fault>>
    ensures { Gives (λ op. op) result (page_in (data_of object.now) (members_of object.now)) }
{
    let size = object.number_at(Key::Size)?;
    let at = object.optional_number_at(Key::At)?;
    let from = object.optional_uuid_at(Key::From)?;
    let filter = filter_in(alloc, object)?;
    object.no_others(&PAGE)?;
    Ok(Op::Page(Shared::of(
        alloc,
        PageQuery {
            size,
            at,
            from,
            filter,
        },
    )?))
}
