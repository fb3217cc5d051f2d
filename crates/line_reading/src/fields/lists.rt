//! Lists of names, read item by item.

ghost use Rattle.std.specs.Prelude.{◌≡◌, IfOk};
ghost use Rattle.serde_json.specs.View.{items_view, view};
ghost use Rattle.entry_book.specs.Rows.{domain_set};
ghost use Rattle.line_reading.specs.Fields.{domain_in, domain_set_in, domains_in, selector_in, selector_set_in, selectors_in};
ghost use Rattle.line_reading.specs.FieldsPrivate.{Gives};

use super::names::domain_of;
use super::texts::text_in;
use super::{Object, at_key};
use crate::fault::{Code, Fault, Key};
use entry_book::{DomainSet, Sequence};
use serde_json::Value;
use spiffe_name::{Failure, Selector, SelectorSet, TrustDomain};
use std::alloc::{AllocError, Global};

/// Reads an item of the key's list as a selector.
#[tactic(auto, unfolding(crate::specs::Fields::selector_in))]
fn selector_in(alloc: Global, item: &Value, key: Key) -> Result<Selector, Failure<Fault>>
    ensures { Gives (λ selector. selector) result (selector_in key (view item.now)) }
{
    let text = text_in(item, key)?;
    match Selector::parse(alloc, text) {
        Ok(selector) => Ok(selector),
        Err(Failure::NoMemory) => Err(Failure::NoMemory),
        Err(Failure::Refused(refusal)) => Err(at_key(Code::Selector(refusal), key)),
    }
}

/// Reads the items of the key's list as selectors.
fn selectors_in(
    alloc: Global,
    items: &[Value],
    key: Key,
) -> Result<Sequence<Selector>, Failure<Fault>>
    ensures { Gives (λ selectors. selectors) result (selectors_in key (items_view items.now)) }
{
    let mut selectors = Sequence::empty(alloc);
    for item in items {
        selectors.push(selector_in(alloc, item, key)?)?;
    }
    Ok(selectors)
}

/// Reads a value, the list of the key, as a set of selectors.
#[tactic(auto, unfolding(crate::specs::Fields::selector_set_in))]
fn selector_set_in(alloc: Global, value: &Value, key: Key) -> Result<SelectorSet, Failure<Fault>>
    ensures { Gives (λ set. set) result (selector_set_in key (view value.now)) }
{
    let items = value.as_array().ok_or(at_key(Code::Field, key))?;
    let selectors = selectors_in(alloc, items, key)?;
    Ok(SelectorSet::of(selectors.into_vec())?)
}

/// Reads an item of the key's list, or the key's value, as a trust domain.
#[tactic(auto, unfolding(crate::specs::Fields::domain_in))]
fn domain_in(alloc: Global, item: &Value, key: Key) -> Result<TrustDomain, Failure<Fault>>
    ensures { Gives (λ domain. domain) result (domain_in key (view item.now)) }
{
    let text = text_in(item, key)?;
    domain_of(alloc, text, key)
}

/// Reads the items of the key's list as trust domains.
fn domains_in(
    alloc: Global,
    items: &[Value],
    key: Key,
) -> Result<Sequence<TrustDomain>, Failure<Fault>>
    ensures { Gives (λ domains. domains) result (domains_in key (items_view items.now)) }
{
    let mut domains = Sequence::empty(alloc);
    for item in items {
        domains.push(domain_in(alloc, item, key)?)?;
    }
    Ok(domains)
}

/// Returns the set of these trust domains. The error is out of memory.
fn domain_set(alloc: Global, domains: Sequence<TrustDomain>) -> Result<DomainSet, AllocError>
    ensures { IfOk result (λ set. set ≡ domain_set domains) }
{
    Ok(DomainSet::of(alloc, domains.into_vec())?)
}

/// Reads a value, the list of the key, as a set of trust domains.
#[tactic(auto, unfolding(crate::specs::Fields::domain_set_in))]
fn domain_set_in(alloc: Global, value: &Value, key: Key) -> Result<DomainSet, Failure<Fault>>
    ensures { Gives (λ set. set) result (domain_set_in key (view value.now)) }
{
    let items = value.as_array().ok_or(at_key(Code::Field, key))?;
    let domains = domains_in(alloc, items, key)?;
    Ok(domain_set(alloc, domains)?)
}

impl Object<'_> {
    ghost use Rattle.line_reading.specs.Fields.{optional_domain_at, optional_domains_at, optional_selectors_at, selectors_at};
    ghost use Rattle.line_reading.specs.FieldsPrivate.{Gives, data_of};

    /// Reads the list at the key as a set of selectors.
    #[tactic(auto, unfolding(crate::specs::Fields::selectors_at, crate::specs::Fields::selector_set_in))]
    pub(crate) fn selectors_at(
        &self,
        alloc: Global,
        key: Key,
    ) -> Result<SelectorSet, Failure<Fault>>
        ensures { Gives (λ set. set) result (selectors_at key (data_of self.now)) }
    {
        match self.value_at(key) {
            Some(value) => selector_set_in(alloc, value, key),
            None => Err(at_key(Code::Field, key)),
        }
    }

    /// Reads the list at an optional key as a set of selectors.
    #[tactic(auto, unfolding(crate::specs::Fields::optional_selectors_at))]
    pub(crate) fn optional_selectors_at(
        &self,
        alloc: Global,
        key: Key,
    ) -> Result<Option<SelectorSet>, Failure<Fault>>
        ensures { Gives (λ set. set) result (optional_selectors_at key (data_of self.now)) }
    {
        let Some(value) = self.given_at(key) else {
            return Ok(None);
        };
        Ok(Some(selector_set_in(alloc, value, key)?))
    }

    /// Reads the trust domain at an optional key.
    #[tactic(auto, unfolding(crate::specs::Fields::optional_domain_at))]
    pub(crate) fn optional_domain_at(
        &self,
        alloc: Global,
        key: Key,
    ) -> Result<Option<TrustDomain>, Failure<Fault>>
        ensures { Gives (λ domain. domain) result (optional_domain_at key (data_of self.now)) }
    {
        let Some(value) = self.given_at(key) else {
            return Ok(None);
        };
        Ok(Some(domain_in(alloc, value, key)?))
    }

    /// Reads the list at an optional key as a set of trust domains.
    #[tactic(auto, unfolding(crate::specs::Fields::optional_domains_at))]
    pub(crate) fn optional_domains_at(
        &self,
        alloc: Global,
        key: Key,
    ) -> Result<Option<DomainSet>, Failure<Fault>>
        ensures { Gives (λ set. set) result (optional_domains_at key (data_of self.now)) }
    {
        let Some(value) = self.given_at(key) else {
            return Ok(None);
        };
        Ok(Some(domain_set_in(alloc, value, key)?))
    }
}
