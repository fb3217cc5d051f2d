//! What is a batch?

ghost use Rattle.std.specs.Prelude.{◌≡◌};

use crate::check::refusal_of;
use crate::fault::BatchRefusal;
use crate::invariants::{know_ops, know_token};
use crate::op::Op;
use crate::sequence::Sequence;
use crate::shared::Shared;
use spiffe_name::{Failure, TrustDomain};
use std::alloc::{AllocError, Global};
use std::marker::Model;
use uuid::Uuid;

/// A batch of operations for the book of one trust domain: 1 to 64 of them, none of which has a fault. The model in
/// contracts is the record of its trust domain, its operations, its minimum place, and its token. A clone shares the
/// operations.
#[derive(Drop)]
pub struct Batch {
    domain: TrustDomain,
    ops: Shared<Sequence<Op>>,
    after: u64,
    token: Option<Uuid>,
}

impl Model for Batch {
    ghost use Rattle.entry_book.specs.Batches.{Batch, IsMadeFor};

    ghost Value = { Batch };

    ghost view = { λ batch. record {
      domain = batch.domain;
      ops = batch.ops;
      after = batch.after;
      token = batch.token;
    } };

    ghost invariant = { λ batch. IsMadeFor batch.domain (record {
      domain = batch.domain;
      ops = batch.ops;
      after = batch.after;
      token = batch.token;
    }) };
}

impl Batch {
    ghost use Rattle.std.specs.Prelude.{◌≡◌, MatchResult, None};
    ghost use Rattle.spiffe_name.specs.Failures.{FailsBy};
    ghost use Rattle.entry_book.specs.Batches.{IsMadeFor, batch_refusal, is_query, past_place};

    /// Makes the batch of these operations for a trust domain. It may run at place `after` or later, and its commit is
    /// stored under the token, if it has one. The error is out of memory or the first refusal that applies: `NoOps`,
    /// `TooManyOps`, the least fault of the first operation with a fault, `PastPageNotAlone`, `TokenOnQuery`.
    pub fn new(
        alloc: Global,
        domain: &TrustDomain,
        ops: Sequence<Op>,
        after: u64,
        token: Option<Uuid>,
    ) -> Result<Batch, Failure<BatchRefusal>>
        ensures table { MatchResult result
            (λ batch. (batch ≡ record { domain = domain.now; ops = ops; after = after; token = token })
            × IsMadeFor domain.now batch)
            (FailsBy (batch_refusal domain.now ops token)) }
    {
        know_ops(ops.as_slice());
        know_token(&token);
        match refusal_of(domain, ops.as_slice(), &token) {
            Some(refusal) => Err(Failure::Refused(refusal)),
            None => Ok(Batch {
                domain: domain.clone()?,
                ops: Shared::of(alloc, ops)?,
                after,
                token,
            }),
        }
    }

    /// Returns the trust domain that the batch was made for.
    pub fn domain(&self) -> &TrustDomain
        ensures domain { result.now ≡ self.now.domain }
        ensures made { IsMadeFor self.now.domain self.now }
    {
        &self.domain
    }

    /// Returns the operations, in order.
    pub fn ops(&self) -> &[Op]
        ensures ops { result.now ≡ self.now.ops }
        ensures made { IsMadeFor self.now.domain self.now }
    {
        self.ops.get().as_slice()
    }

    /// Returns the operations, in order, as a shared value.
    pub fn shared_ops(&self) -> &Shared<Sequence<Op>>
        ensures { result.now ≡ self.now.ops }
    {
        &self.ops
    }

    /// Returns the minimum place at which the batch may run.
    pub fn after(&self) -> u64
        ensures { result ≡ self.now.after }
    {
        self.after
    }

    /// Returns the token under which its commit is stored, if it has one.
    pub fn token(&self) -> Option<Uuid>
        ensures { result ≡ self.now.token }
    {
        self.token
    }

    /// Returns true if the batch is read-only.
    pub fn is_query(&self) -> bool
        ensures query { result ≡ is_query self.now.ops }
        ensures made { IsMadeFor self.now.domain self.now }
    {
        self.ops().iter().all(|op| op.is_question())
    }

    /// Returns the number of the book that the batch reads, if it is a page that gives one. Every other batch runs on the
    /// last book.
    pub fn past_place(&self) -> Option<u64>
        ensures place { result ≡ past_place self.now.ops }
        ensures made { IsMadeFor self.now.domain self.now }
    {
        match self.ops().first() {
            Some(op) => op.place_asked(),
            None => None,
        }
    }
}

impl Clone for Batch {
    ghost is_clone = { λ original copy. copy ≡ original };

    fn clone(&self) -> Result<Batch, AllocError> {
        Ok(Batch {
            domain: self.domain.clone()?,
            ops: self.ops.clone()?,
            after: self.after,
            token: self.token,
        })
    }
}
