//! What is a set of trust domains?

ghost use Rattle.std.specs.Prelude.{◌≡◌, bytes_eq, filter, not, IfOk};
ghost use Rattle.std.specs.Cmp.{partial_equiv_from_equiv};
ghost use Rattle.std.specs.Cmp.Lexicographic.{lists_equiv, nat_list_eq_equiv, pointwise};
ghost use Rattle.std.specs.List.{list_any};

use crate::shared::Shared;
use spiffe_name::TrustDomain;
use std::alloc::{AllocError, Global};
use std::marker::Model;

/// A finite set of trust domains, as a list without duplicates in the order of their bytes. Equal sets are equal lists.
/// The model in contracts is this list.
#[derive(Drop)]
pub struct DomainSet {
    domains: Vec<Shared<TrustDomain>>,
}

impl Model for DomainSet {
    ghost use Rattle.std.specs.Prelude.{List, ℕ};
    ghost use Rattle.entry_book.specs.Order.{Ascending};

    ghost Value = { List (List ℕ) };

    ghost view = { λ set. set.domains.items };

    ghost invariant = { λ set. Ascending (λ domain. domain) set.domains.items };
}

impl DomainSet {
    ghost use Rattle.std.specs.Prelude.{Contains, IfOk, List, [], bytes_eq, filter, length, not, ◌↔◌, ◌≡◌, ◌==◌, ℕ};
    ghost use Rattle.std.specs.List.{list_any};
    ghost use Rattle.entry_book.specs.Rows.{IsDomainSet, domain_set};

    /// Makes the set of these domains, without duplicates. The error is out of memory.
    pub fn of(alloc: Global, domains: Vec<TrustDomain>) -> Result<DomainSet, AllocError>
        ensures members { IfOk result (λ set. (domain : List ℕ) → Contains set domain ↔ Contains domains.items domain) }
        ensures ordered { IfOk result IsDomainSet }
        ensures computed { IfOk result (λ set. set ≡ domain_set domains.items) }
    {
        let mut domains = domains;
        domains.sort()?;
        domains.dedup();
        Ok(DomainSet {
            domains: shared(alloc, domains)?,
        })
    }

    /// Makes the empty set.
    pub fn empty(alloc: Global) -> DomainSet
        ensures { result ≡ [] }
    {
        DomainSet {
            domains: Vec::new(alloc),
        }
    }

    /// Returns the number of domains.
    pub fn len(&self) -> usize
        ensures { result ≡ length self.now }
    {
        self.domains.len()
    }

    /// Returns true if the set is empty.
    pub fn is_empty(&self) -> bool
        ensures { result ≡ (length self.now == 0) }
    {
        self.domains.is_empty()
    }

    /// Returns the domains in order.
    pub fn as_slice(&self) -> &[Shared<TrustDomain>]
        ensures items { result.now ≡ self.now }
        ensures set { IsDomainSet self.now }
    {
        self.domains.as_slice()
    }

    /// Returns true if the domain is in the set.
    pub fn contains(&self, domain: &TrustDomain) -> bool
        ensures { result ≡ list_any (λ other. bytes_eq other domain.now) self.now }
    {
        is_among(domain, self.as_slice())
    }

    /// Returns the set without this domain. The error is out of memory.
    pub(crate) fn without(
        &self,
        alloc: Global,
        domain: &TrustDomain,
    ) -> Result<DomainSet, AllocError>
        ensures { IfOk result (λ set. set ≡ filter (λ other. not (bytes_eq other domain.now)) self.now) }
    {
        Ok(DomainSet {
            domains: others(alloc, self.as_slice(), domain)?,
        })
    }
}

/// Two sets are equal if they have the same trust domains.
impl PartialEq for DomainSet {
    ghost eq = { pointwise bytes_eq };

    ghost laws = { partial_equiv_from_equiv (lists_equiv nat_list_eq_equiv) };

    fn eq(&self, other: &DomainSet) -> bool {
        self.domains == other.domains
    }
}

impl Eq for DomainSet {
    ghost laws = { lists_equiv nat_list_eq_equiv };
}

/// Returns true if the domain is one of these.
fn is_among(domain: &TrustDomain, domains: &[Shared<TrustDomain>]) -> bool
    ensures { result ≡ list_any (λ other. bytes_eq other domain.now) domains.now }
{
    for other in domains {
        if other.get() == domain {
            return true;
        }
    }
    false
}

/// Returns the other domains. The error is out of memory.
fn others(
    alloc: Global,
    domains: &[Shared<TrustDomain>],
    domain: &TrustDomain,
) -> Result<Vec<Shared<TrustDomain>>, AllocError>
    ensures { IfOk result
        (λ kept. kept.items ≡ filter (λ other. not (bytes_eq other domain.now)) domains.now) }
{
    let mut kept = Vec::new(alloc);
    for other in domains {
        if other.get() != domain {
            kept.push(other.clone()?)?;
        }
    }
    Ok(kept)
}

/// Returns the domains, each as a new shared value. The error is out of memory.
fn shared(alloc: Global, domains: Vec<TrustDomain>) -> Result<Vec<Shared<TrustDomain>>, AllocError>
    ensures { IfOk result (λ shared. shared.items ≡ domains.items) }
{
    let mut shared = Vec::new(alloc);
    for domain in domains {
        shared.push(Shared::of(alloc, domain)?)?;
    }
    Ok(shared)
}
