//! What is an entry of a book?

ghost use Rattle.std.specs.Prelude.{◌≡◌};

use crate::domains::DomainSet;
use crate::shared::Shared;
use crate::text::Text;
use spiffe_name::{SelectorSet, SpiffeId, TrustDomain};
use std::alloc::{AllocError, Global};
use std::marker::Model;
use uuid::Uuid;

/// What a caller gives for an entry: everything except its revision.
#[derive(Drop)]
pub struct NewEntry {
    /// The entry's key.
    pub id: Uuid,
    /// The ID of the agent, the server, or the workload under which this entry is registered.
    pub parent: Shared<SpiffeId>,
    /// The ID that the workload gets.
    pub identity: Shared<SpiffeId>,
    /// The selectors that the workload must have; for an alias, those that the agent's node must have.
    pub selectors: Shared<SelectorSet>,
    /// A text for the workload's own use.
    pub hint: Shared<Text>,
    /// The trust domains whose bundles the workload gets.
    pub domains: DomainSet,
    /// The expiry in seconds since the epoch, or 0 for none.
    pub expiry: u64,
    /// The lifetime of an X.509 SVID of this identity, in seconds; 0 for the server's default.
    pub x509_svid_ttl: u64,
    /// The lifetime of a JWT SVID of this identity, in seconds; 0 for the server's default.
    pub jwt_svid_ttl: u64,
}

impl NewEntry {
    ghost use Rattle.std.specs.Prelude.{◌≡◌, IfOk, bytes_eq, filter, not};

    /// Returns a copy without a trust domain. The error is out of memory.
    fn without(&self, alloc: Global, domain: &TrustDomain) -> Result<NewEntry, AllocError>
        ensures { IfOk result (λ rest. rest ≡ record self.now {
          domains = filter (λ other. not (bytes_eq other domain.now)) self.now.domains;
        }) }
    {
        let domains = self.domains.without(alloc, domain)?;
        Ok(NewEntry {
            id: self.id,
            parent: self.parent.clone()?,
            identity: self.identity.clone()?,
            selectors: self.selectors.clone()?,
            hint: self.hint.clone()?,
            domains,
            expiry: self.expiry,
            x509_svid_ttl: self.x509_svid_ttl,
            jwt_svid_ttl: self.jwt_svid_ttl,
        })
    }
}

/// An entry of the book: what the caller gave, and its revision. A clone shares what was given. The model in
/// contracts is a record of its ten fields.
#[derive(Drop)]
pub struct Entry {
    given: Shared<NewEntry>,
    revision: u64,
}

impl Model for Entry {
    ghost use Rattle.entry_book.specs.Rows.{Entry, at_revision};

    ghost Value = { Entry };

    ghost view = { λ entry. at_revision entry.revision entry.given };
}

impl Entry {
    ghost use Rattle.std.specs.Prelude.{◌≡◌, ◌≤◌, ◌^◌, IfOk};
    ghost use Rattle.entry_book.specs.Rows.{at_revision};
    ghost use Rattle.entry_book.specs.Book.{expires_before, names};
    ghost use Rattle.entry_book.specs.Ops.{dissociated, is_stale};

    /// Makes an entry from what was given, at this revision. The error is out of memory.
    pub fn at_revision(given: &Shared<NewEntry>, revision: u64) -> Result<Entry, AllocError>
        ensures { IfOk result (λ entry. entry ≡ at_revision revision given.now) }
    {
        Ok(Entry {
            given: given.clone()?,
            revision,
        })
    }

    /// Returns the entry's key.
    pub fn id(&self) -> &Uuid
        ensures { result.now ≡ self.now.id }
    {
        &self.given.get().id
    }

    /// Returns the ID under which the workload is registered.
    pub fn parent(&self) -> &Shared<SpiffeId>
        ensures { result.now ≡ self.now.parent }
    {
        &self.given.get().parent
    }

    /// Returns the ID that the workload gets.
    pub fn identity(&self) -> &Shared<SpiffeId>
        ensures { result.now ≡ self.now.identity }
    {
        &self.given.get().identity
    }

    /// Returns the selectors that the workload, or for an alias the agent's node, must have.
    pub fn selectors(&self) -> &Shared<SelectorSet>
        ensures { result.now ≡ self.now.selectors }
    {
        &self.given.get().selectors
    }

    /// Returns a text for the workload's own use.
    pub fn hint(&self) -> &Shared<Text>
        ensures { result.now ≡ self.now.hint }
    {
        &self.given.get().hint
    }

    /// Returns the trust domains whose bundles the workload gets, in order.
    pub fn domains(&self) -> &DomainSet
        ensures { result.now ≡ self.now.domains }
    {
        &self.given.get().domains
    }

    /// Returns the expiry in seconds since the epoch, or 0 for none.
    pub fn expiry(&self) -> u64
        ensures { result ≡ self.now.expiry }
    {
        self.given.get().expiry
    }

    /// Returns the lifetime of an X.509 SVID of this identity, in seconds; 0 for the server's default.
    pub fn x509_svid_ttl(&self) -> u64
        ensures { result ≡ self.now.x509_svid_ttl }
    {
        self.given.get().x509_svid_ttl
    }

    /// Returns the lifetime of a JWT SVID of this identity, in seconds; 0 for the server's default.
    pub fn jwt_svid_ttl(&self) -> u64
        ensures { result ≡ self.now.jwt_svid_ttl }
    {
        self.given.get().jwt_svid_ttl
    }

    /// Returns the number of changes since the entry was added.
    pub fn revision(&self) -> u64
        ensures { result ≡ self.now.revision }
    {
        self.revision
    }

    /// Returns true if a revision is expected that isn't the entry's.
    pub fn is_stale(&self, expected: Option<u64>) -> bool
        ensures { result ≡ is_stale expected self.now }
    {
        match expected {
            None => false,
            Some(revision) => revision != self.revision,
        }
    }

    /// Returns true if the entry expires before a moment, in seconds since the epoch.
    pub fn expires_before(&self, moment: u64) -> bool
        ensures { result ≡ expires_before moment self.now }
    {
        let expiry = self.expiry();
        0 < expiry && expiry < moment
    }

    /// Returns true if the entry names the trust domain.
    pub fn names(&self, domain: &TrustDomain) -> bool
        ensures { result ≡ names domain.now self.now }
    {
        self.domains().contains(domain)
    }

    /// Returns the entry without a trust domain, at its next revision. The error is out of memory.
    pub fn dissociated(&self, alloc: Global, domain: &TrustDomain) -> Result<Entry, AllocError>
        requires room { self.now.revision ≤ 2 ^ 63 }
        ensures { IfOk result (λ entry. entry ≡ dissociated domain.now self.now) }
    {
        let given = self.given.get().without(alloc, domain)?;
        Ok(Entry {
            given: Shared::of(alloc, given)?,
            revision: self.revision + 1,
        })
    }
}

impl Clone for Entry {
    ghost is_clone = { λ original copy. copy ≡ original };

    fn clone(&self) -> Result<Entry, AllocError> {
        Ok(Entry {
            given: self.given.clone()?,
            revision: self.revision,
        })
    }
}
