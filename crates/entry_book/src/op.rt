//! What is an operation on a book?

ghost use Rattle.std.specs.Prelude.{◌≡◌};

use crate::agent::Agent;
use crate::entry::NewEntry;
use crate::mode::DropMode;
use crate::page::PageQuery;
use crate::shared::Shared;
use crate::text::Text;
use spiffe_name::{SpiffeId, TrustDomain};
use std::alloc::AllocError;
use uuid::Uuid;

/// One operation of a batch. A clone shares its texts.
#[derive(Drop)]
pub enum Op {
    /// Adds an entry, at revision 0. Refused `IdTaken`, `Similar` or `NoBundle`.
    Create(Shared<NewEntry>),
    /// Replaces all of an entry except its id, at its next revision; the number is the expected revision, if any.
    /// Refused `NoEntry`, `StaleRevision`, `Similar` or `NoBundle`.
    Update(Shared<NewEntry>, Option<u64>),
    /// Removes an entry; the number is the expected revision, if any. Refused `NoEntry` or `StaleRevision`.
    Delete(Uuid, Option<u64>),
    /// Reads an entry, which may be missing. Never refused.
    Show(Uuid),
    /// Reads an agent, which may be missing. Never refused.
    ShowAgent(Shared<SpiffeId>),
    /// Reads a bundle, which may be missing; the own domain never has one. Never refused.
    ShowBundle(Shared<TrustDomain>),
    /// Reads the entries of a parent. Never refused.
    Children(Shared<SpiffeId>),
    /// Reads a page of the entries. Refused `VersionGone` if it gives the number of a book that is not one of the last 64.
    Page(Shared<PageQuery>),
    /// Reads the authorised entries of an agent. Refused `NoAgent`.
    Authorised(Shared<SpiffeId>),
    /// Reads the bundles of the domains that the authorised entries of an agent name. Refused `NoAgent`.
    Trust(Shared<SpiffeId>),
    /// Removes the entries that expire before a moment, in seconds since the epoch; an expiry of 0 is none. Never
    /// refused.
    Prune(u64),
    /// Adds an agent, or replaces the one of its id. Never refused.
    SetAgent(Agent),
    /// Removes an agent. Refused `NoAgent`.
    DropAgent(Shared<SpiffeId>),
    /// Adds the bundle of a trust domain at sequence 0, or replaces its text and adds 1 to its sequence. Never refused.
    SetBundle(Shared<TrustDomain>, Shared<Text>),
    /// Removes the bundle of a trust domain. Refused `NoBundle` or `BundleInUse`.
    DropBundle(Shared<TrustDomain>, DropMode),
}

impl Op {
    ghost use Rattle.std.specs.Prelude.{◌≡◌};
    ghost use Rattle.entry_book.specs.Batches.{is_question, place_asked};

    /// Returns true if the operation is read-only.
    pub fn is_question(&self) -> bool
        ensures { result ≡ is_question self.now }
    {
        match self {
            Op::Show(_)
            | Op::ShowAgent(_)
            | Op::ShowBundle(_)
            | Op::Children(_)
            | Op::Page(_)
            | Op::Authorised(_)
            | Op::Trust(_) => true,
            Op::Create(_)
            | Op::Update(_, _)
            | Op::Delete(_, _)
            | Op::Prune(_)
            | Op::SetAgent(_)
            | Op::DropAgent(_)
            | Op::SetBundle(_, _)
            | Op::DropBundle(_, _) => false,
        }
    }

    /// Returns the number of a book, if the operation is a page that gives one.
    pub fn place_asked(&self) -> Option<u64>
        ensures { result ≡ place_asked self.now }
    {
        match self {
            Op::Page(query) => query.get().at,
            _ => None,
        }
    }
}

impl Clone for Op {
    ghost is_clone = { λ original copy. copy ≡ original };

    fn clone(&self) -> Result<Op, AllocError> {
        Ok(match self {
            Op::Create(new) => Op::Create(new.clone()?),
            Op::Update(new, expected) => Op::Update(new.clone()?, *expected),
            Op::Delete(id, expected) => Op::Delete(*id, *expected),
            Op::Show(id) => Op::Show(*id),
            Op::ShowAgent(agent) => Op::ShowAgent(agent.clone()?),
            Op::ShowBundle(domain) => Op::ShowBundle(domain.clone()?),
            Op::Children(parent) => Op::Children(parent.clone()?),
            Op::Page(query) => Op::Page(query.clone()?),
            Op::Authorised(agent) => Op::Authorised(agent.clone()?),
            Op::Trust(agent) => Op::Trust(agent.clone()?),
            Op::Prune(moment) => Op::Prune(*moment),
            Op::SetAgent(agent) => Op::SetAgent(agent.clone()?),
            Op::DropAgent(agent) => Op::DropAgent(agent.clone()?),
            Op::SetBundle(domain, text) => Op::SetBundle(domain.clone()?, text.clone()?),
            Op::DropBundle(domain, mode) => Op::DropBundle(domain.clone()?, *mode),
        })
    }
}
