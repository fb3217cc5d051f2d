//! What rows consist of, and what their methods return.

use crate::making::{N1, SERVER, WEB, domain, id};
use crate::ops_of_text::created;
use crate::wanted::{holds, is_number, is_text};
use entry_book::{DomainSet, Entry, Sequence, Text, is_server};
use spiffe_name::TrustDomain;
use std::alloc::Global;
use std::process::Abort;
use std::test::Fail;
use test_support::copy;

/// The entry that the operation of this text creates, at revision 3.
fn entry(alloc: Global, as_text: &str) -> Result<Entry, Fail> {
    let given = created(alloc, as_text)?;
    Ok(Entry::at_revision(&given, 3)?)
}

/// Asserts that the entry has two domains, `d100` and `d101`.
fn has_two_domains(rt: &impl Abort, domains: &DomainSet) {
    let listed = domains.as_slice();
    is_number(rt, listed.len() as u64, 2, "domains");
    if let [first, second] = listed {
        is_text(rt, first.get().as_str(), "d100", "the first domain");
        is_text(rt, second.get().as_str(), "d101", "the second domain");
        holds(rt, domains.contains(first.get()), "a domain is contained");
    }
    is_number(rt, domains.len() as u64, 2, "domains");
    holds(rt, !domains.is_empty(), "there are domains");
}

#[test]
fn the_parts_of_an_entry_are_those_that_were_given(rt: HostRuntime) -> Result<(), Fail> {
    let as_text = "create /spire/agent/n1 /web hint=2 domains=2";
    let entry = copy(entry(rt.alloc(), as_text)?)?;
    let last = entry.id().as_bytes()[15];
    is_number(&rt, u64::from(last), 7, "id");
    is_text(&rt, entry.parent().get().as_str(), N1, "parent");
    is_text(&rt, entry.identity().get().as_str(), WEB, "identity");
    is_number(&rt, entry.selectors().get().len() as u64, 1, "selectors");
    is_text(&rt, entry.hint().get().as_str(), "hh", "hint");
    is_number(&rt, entry.expiry(), 99, "expiry");
    is_number(&rt, entry.revision(), 3, "revision");
    is_number(&rt, entry.x509_svid_ttl(), 3600, "x509_svid_ttl");
    is_number(&rt, entry.jwt_svid_ttl(), 300, "jwt_svid_ttl");
    has_two_domains(&rt, entry.domains());
    Ok(())
}

/// Asserts that the entry names the domain, and no longer does so once it is dissociated, at the next revision.
fn is_dissociated(
    rt: &impl Abort,
    alloc: Global,
    entry: &Entry,
    named: &TrustDomain,
) -> Result<(), Fail> {
    holds(rt, entry.names(named), "the domain is named");
    if entry.revision() != 3 {
        return Err(Fail::from("another revision"));
    }
    let freed = entry.dissociated(alloc, named)?;
    holds(rt, !freed.names(named), "the domain is no longer named");
    is_number(rt, freed.revision(), 4, "revision");
    is_number(rt, freed.x509_svid_ttl(), 3600, "x509_svid_ttl");
    is_number(rt, freed.jwt_svid_ttl(), 300, "jwt_svid_ttl");
    Ok(())
}

#[test]
fn an_entry_says_what_it_is_asked(rt: HostRuntime) -> Result<(), Fail> {
    let as_text = "create /spire/agent/n1 /web domains=1";
    let entry = entry(rt.alloc(), as_text)?;
    holds(&rt, !entry.is_stale(None), "no revision");
    holds(&rt, !entry.is_stale(Some(3)), "revision 3");
    holds(&rt, entry.is_stale(Some(2)), "revision 2");
    holds(&rt, !entry.expires_before(0), "moment 0");
    holds(&rt, !entry.expires_before(99), "moment 99");
    holds(&rt, entry.expires_before(100), "moment 100");
    let named = domain(rt.alloc(), "d100")?;
    is_dissociated(&rt, rt.alloc(), &entry, named.get())
}

/// Asserts whether this is the ID of the server of the domain.
fn is_servers(
    rt: &impl Abort,
    alloc: Global,
    own_domain: &TrustDomain,
    text: &str,
    is_it: bool,
) -> Result<(), Fail> {
    let id = id(alloc, text)?;
    holds(rt, is_server(own_domain, id.get()) == is_it, text);
    Ok(())
}

#[test]
fn the_server_has_one_id(rt: HostRuntime) -> Result<(), Fail> {
    let alloc = rt.alloc();
    let own_domain = domain(alloc, "ex.org")?;
    is_servers(&rt, alloc, own_domain.get(), SERVER, true)?;
    is_servers(&rt, alloc, own_domain.get(), N1, false)?;
    let other = "spiffe://b.org/spire/server";
    is_servers(&rt, alloc, own_domain.get(), other, false)
}

#[test]
fn vectors_and_strings_come_back(rt: HostRuntime) -> Result<(), Fail> {
    let text = Text::of(String::from_str(rt.alloc(), "t")?);
    is_text(&rt, text.into_string().as_str(), "t", "text");
    let mut numbers = Sequence::of(Vec::new(rt.alloc()));
    numbers.push(5_u64)?;
    is_number(&rt, numbers.as_vec().len() as u64, 1, "numbers");
    let last = numbers.into_vec().pop();
    holds(&rt, last == Some(5), "the last number");
    let none = DomainSet::empty(rt.alloc());
    holds(&rt, none.is_empty(), "no domains");
    Ok(())
}
