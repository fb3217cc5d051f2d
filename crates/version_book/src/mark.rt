//! What can a batch read?

ghost use Rattle.std.specs.Prelude.{◌≡◌};

use crate::key::{ExpiryKey, GroupKey, KeyPart, UserKey};
use entry_book::Shared;
use spiffe_name::{SpiffeId, TrustDomain};
use std::alloc::AllocError;
use std::marker::Model;
use uuid::Uuid;

/// Which rows of a book a mark names.
#[derive(Drop, PartialEq, Eq)]
pub enum MarkKind {
    /// The entry of an id, or its absence.
    Entry(Uuid),
    /// The entries of a parent (the first ID) and an identity (the second).
    Group(Shared<SpiffeId>, Shared<SpiffeId>),
    /// The entries of a parent.
    Children(Shared<SpiffeId>),
    /// The entries that name a trust domain.
    Users(Shared<TrustDomain>),
    /// The entries that expire before a moment, in seconds since the epoch; an expiry of 0 is none.
    Expiring(u64),
    /// All entries.
    All,
    /// The agent of an id, or its absence.
    Agent(Shared<SpiffeId>),
    /// The bundle of a trust domain, or its absence.
    Bundle(Shared<TrustDomain>),
    /// The batch stored under a token, or its absence.
    Token(Uuid),
}

/// Where the rows are that a mark names: the two bounds of a range of an index, or a single row.
#[derive(Drop)]
pub(crate) enum IndexRange {
    SingleRow,
    Groups(GroupKey, GroupKey),
    Users(UserKey, UserKey),
    Expiries(ExpiryKey, ExpiryKey),
}

/// An entry of a read set: one thing that a batch can read. It is made with the bounds of its range, so that `unchanged`
/// allocates no memory. The model in contracts is its kind alone: marks that name the same are equal.
#[derive(Drop)]
pub struct Mark {
    kind: MarkKind,
    index_range: IndexRange,
}

impl Model for Mark {
    ghost use Rattle.std.specs.Prelude.{◌≡◌};
    ghost use Rattle.version_book.specs.declared.mark.MarkKind.{MarkKind};
    ghost use Rattle.version_book.specs.Index.{index_range_of};

    ghost Value = { MarkKind };

    ghost view = { λ mark. mark.kind };

    ghost invariant = { λ mark. mark.index_range ≡ index_range_of mark.kind };
}

impl Mark {
    ghost use Rattle.std.specs.Prelude.{◌≡◌, IfOk};
    ghost use Rattle.version_book.specs.declared.mark.MarkKind.TheVariants as mark;
    ghost use Rattle.version_book.specs.Index.{index_range_of};

    /// Makes the mark of the entry of an id, or its absence.
    pub fn entry(id: Uuid) -> Mark
        ensures { result ≡ mark.Entry id }
    {
        Mark {
            kind: MarkKind::Entry(id),
            index_range: IndexRange::SingleRow,
        }
    }

    /// Makes the mark of the entries of a parent and an identity. The error is a reference count at its maximum.
    pub fn group(parent: &Shared<SpiffeId>, identity: &Shared<SpiffeId>) -> Result<Mark, AllocError>
        ensures { IfOk result (λ made. made ≡ mark.Group parent.now identity.now) }
    {
        let low = (
            KeyPart::At(parent.clone()?),
            KeyPart::At(identity.clone()?),
            KeyPart::Start,
        );
        let high = (
            KeyPart::At(parent.clone()?),
            KeyPart::At(identity.clone()?),
            KeyPart::End,
        );
        Ok(Mark {
            kind: MarkKind::Group(parent.clone()?, identity.clone()?),
            index_range: IndexRange::Groups(low, high),
        })
    }

    /// Makes the mark of the entries of a parent. The error is a reference count at its maximum.
    pub fn children(parent: &Shared<SpiffeId>) -> Result<Mark, AllocError>
        ensures { IfOk result (λ made. made ≡ mark.Children parent.now) }
    {
        let low = (KeyPart::At(parent.clone()?), KeyPart::Start, KeyPart::Start);
        let high = (KeyPart::At(parent.clone()?), KeyPart::End, KeyPart::End);
        Ok(Mark {
            kind: MarkKind::Children(parent.clone()?),
            index_range: IndexRange::Groups(low, high),
        })
    }

    /// Makes the mark of the entries that name a trust domain. The error is a reference count at its maximum.
    pub fn users(domain: &Shared<TrustDomain>) -> Result<Mark, AllocError>
        ensures { IfOk result (λ made. made ≡ mark.Users domain.now) }
    {
        let low = (domain.clone()?, KeyPart::Start);
        let high = (domain.clone()?, KeyPart::End);
        Ok(Mark {
            kind: MarkKind::Users(domain.clone()?),
            index_range: IndexRange::Users(low, high),
        })
    }

    /// Makes the mark of the entries that expire before a moment, in seconds since the epoch; an expiry of 0 is none.
    pub fn expiring(moment: u64) -> Mark
        ensures { result ≡ mark.Expiring moment }
    {
        Mark {
            kind: MarkKind::Expiring(moment),
            index_range: IndexRange::Expiries((0, KeyPart::Start), (moment, KeyPart::Start)),
        }
    }

    /// Makes the mark of all entries.
    pub fn all() -> Mark
        ensures { result ≡ mark.All }
    {
        let low = (KeyPart::Start, KeyPart::Start, KeyPart::Start);
        let high = (KeyPart::End, KeyPart::End, KeyPart::End);
        Mark {
            kind: MarkKind::All,
            index_range: IndexRange::Groups(low, high),
        }
    }

    /// Makes the mark of the agent of an id, or its absence.
    pub fn agent(id: Shared<SpiffeId>) -> Mark
        ensures { result ≡ mark.Agent id }
    {
        Mark {
            kind: MarkKind::Agent(id),
            index_range: IndexRange::SingleRow,
        }
    }

    /// Makes the mark of the bundle of a trust domain, or its absence.
    pub fn bundle(domain: Shared<TrustDomain>) -> Mark
        ensures { result ≡ mark.Bundle domain }
    {
        Mark {
            kind: MarkKind::Bundle(domain),
            index_range: IndexRange::SingleRow,
        }
    }

    /// Makes the mark of the batch stored under a token, or its absence.
    pub fn token(token: Uuid) -> Mark
        ensures { result ≡ mark.Token token }
    {
        Mark {
            kind: MarkKind::Token(token),
            index_range: IndexRange::SingleRow,
        }
    }

    /// Returns which rows the mark names.
    pub fn kind(&self) -> &MarkKind
        ensures { result.now ≡ self.now }
    {
        &self.kind
    }

    /// Returns where these rows are.
    pub(crate) fn index_range(&self) -> &IndexRange
        ensures { result.now ≡ index_range_of self.now }
    {
        &self.index_range
    }
}

/// A clone names the same rows. The error is a reference count at its maximum.
impl Clone for Mark {
    ghost is_clone = { λ original copy. copy ≡ original };

    fn clone(&self) -> Result<Mark, AllocError> {
        match &self.kind {
            MarkKind::Entry(id) => Ok(Mark::entry(*id)),
            MarkKind::Group(parent, identity) => Mark::group(parent, identity),
            MarkKind::Children(parent) => Mark::children(parent),
            MarkKind::Users(domain) => Mark::users(domain),
            MarkKind::Expiring(moment) => Ok(Mark::expiring(*moment)),
            MarkKind::All => Ok(Mark::all()),
            MarkKind::Agent(id) => Ok(Mark::agent(id.clone()?)),
            MarkKind::Bundle(domain) => Ok(Mark::bundle(domain.clone()?)),
            MarkKind::Token(token) => Ok(Mark::token(*token)),
        }
    }
}

impl Clone for MarkKind {
    ghost is_clone = { λ original copy. copy ≡ original };

    fn clone(&self) -> Result<MarkKind, AllocError> {
        Ok(match self {
            MarkKind::Entry(id) => MarkKind::Entry(*id),
            MarkKind::Group(parent, identity) => MarkKind::Group(
                parent.clone()?,
                identity.clone()?,
            ),
            MarkKind::Children(parent) => MarkKind::Children(parent.clone()?),
            MarkKind::Users(domain) => MarkKind::Users(domain.clone()?),
            MarkKind::Expiring(moment) => MarkKind::Expiring(*moment),
            MarkKind::All => MarkKind::All,
            MarkKind::Agent(id) => MarkKind::Agent(id.clone()?),
            MarkKind::Bundle(domain) => MarkKind::Bundle(domain.clone()?),
            MarkKind::Token(token) => MarkKind::Token(*token),
        })
    }
}
