//! Entries, and the parts of operations, made from a few words.

use entry_book::{Agent, DomainSet, NewEntry, Shared, Text};
use spiffe_name::{Selector, SelectorSet, SpiffeId, TrustDomain};
use std::alloc::Global;
use std::test::Fail;
use uuid::Uuid;

pub const N1: &str = "spiffe://ex.org/spire/agent/n1";

pub const SERVER: &str = "spiffe://ex.org/spire/server";

pub const WEB: &str = "spiffe://ex.org/web";

pub const FOREIGN: &str = "spiffe://b.org/spire/agent/n1";

pub const BARE: &str = "spiffe://ex.org";

/// The UUID whose last byte is 7, and whose other bytes are 0.
pub fn uuid() -> Uuid {
    Uuid::from_u64_pair(0, 7)
}

pub fn id(alloc: Global, text: &str) -> Result<Shared<SpiffeId>, Fail> {
    Ok(Shared::of(alloc, SpiffeId::parse(alloc, text)?)?)
}

pub fn domain(alloc: Global, text: &str) -> Result<Shared<TrustDomain>, Fail> {
    Ok(Shared::of(alloc, TrustDomain::parse(alloc, text)?)?)
}

fn numbered(alloc: Global, start: &str, number: u32) -> Result<String, Fail> {
    let shifted = number.wrapping_add(100);
    Ok(format!(in alloc; "{start}{shifted}")?)
}

/// The given number of selectors, each inserted twice.
pub fn selectors(alloc: Global, count: u32) -> Result<Shared<SelectorSet>, Fail> {
    let mut selectors = Vec::new(alloc);
    for n in 0..count {
        let text = numbered(alloc, "u:", n)?;
        selectors.push(Selector::parse(alloc, text.as_str())?)?;
        selectors.push(Selector::parse(alloc, text.as_str())?)?;
    }
    Ok(Shared::of(alloc, SelectorSet::of(selectors)?)?)
}

/// The given number of trust domains, in descending order down to `d100`, each inserted twice.
pub fn domains(alloc: Global, count: u32) -> Result<DomainSet, Fail> {
    let mut domains = Vec::new(alloc);
    for n in 0..count {
        let text = numbered(alloc, "d", count.wrapping_sub(n).wrapping_sub(1))?;
        domains.push(TrustDomain::parse(alloc, text.as_str())?)?;
        domains.push(TrustDomain::parse(alloc, text.as_str())?)?;
    }
    Ok(DomainSet::of(alloc, domains)?)
}

/// A text of the given number of bytes.
pub fn text(alloc: Global, length: usize) -> Result<Shared<Text>, Fail> {
    let mut text = String::new(alloc);
    for _ in 0..length {
        text.push_str("h")?;
    }
    Ok(Shared::of(alloc, Text::of(text))?)
}

/// An entry with one selector, no hint and no domains, which expires at 99 and has two lifetimes.
pub fn new_entry(alloc: Global, parent: &str, identity: &str) -> Result<NewEntry, Fail> {
    let parent = id(alloc, parent)?;
    let identity = id(alloc, identity)?;
    let selectors = selectors(alloc, 1)?;
    let hint = text(alloc, 0)?;
    Ok(NewEntry {
        id: uuid(),
        parent,
        identity,
        selectors,
        hint,
        domains: DomainSet::empty(alloc),
        expiry: 99,
        x509_svid_ttl: 3600,
        jwt_svid_ttl: 300,
    })
}

/// An agent with the given number of selectors.
pub fn agent(alloc: Global, text: &str, count: u32) -> Result<Agent, Fail> {
    let selectors = selectors(alloc, count)?;
    Ok(Agent {
        id: id(alloc, text)?,
        selectors,
    })
}
