//! What comes after a read for an agent's authorised entries, and for their bundles?

ghost use Rattle.std.specs.Prelude.{◌≡◌, ◌<◌, ◌+◌, ◌^◌, ◌++◌, true, false, filter, slice_get, IfErr, IfOk, IfSome};
ghost use Rattle.entry_book.specs.Authorised.{holds};
ghost use Rattle.batch_work.specs.Steps.{next_trusted, trusted_next, walk_next};
ghost use Rattle.batch_work.specs.WalkStates.{first_walk, is_walk_over, walked};

use crate::advance::answered;
use crate::domains::domains_of;
use crate::phase::{Next, Phase, WalkFor};
use crate::rows::held_among;
use crate::walk::Walk;
use entry_book::{Agent, Bundle, Entry, OpReply, Sequence, Shared};
use spiffe_name::{SpiffeId, TrustDomain};
use std::alloc::{AllocError, Global};

/// The walk begins with the aliases that the agent holds. The next read is that of the agent's own children. The error is out
/// of memory.
pub(crate) fn held_next(
    alloc: Global,
    server: &SpiffeId,
    walk_for: WalkFor,
    agent: &Agent,
    entries: &[Entry],
) -> Result<Next, AllocError>
    ensures { IfOk result (λ next. next ≡ Next.Continues (Phase.OfAgent walk_for
        (walked (filter (holds server.now agent.now) entries.now) (first_walk agent.now)))) }
{
    let mut walk = Walk::new(alloc, agent.clone()?)?;
    walk.continues(alloc, held_among(alloc, server, agent, entries)?)?;
    Ok(Next::Continues(Phase::OfAgent(walk_for, walk)))
}

/// Returns what follows from the read of the agent's own children. If memory runs out, the error is the phase, unchanged.
pub(crate) fn own_next(
    alloc: Global,
    walk_for: WalkFor,
    walk: Walk,
    entries: Vec<Entry>,
) -> Result<Next, Phase>
    ensures next { IfOk result (λ next. next ≡ walk_next walk_for (walked entries.items walk)) }
    ensures back { IfErr result (λ back. back ≡ Phase.OfAgent walk_for walk) }
{
    match walk_next(alloc, walk_for, walk, entries) {
        Ok(next) => Ok(next),
        Err(walk) => Err(Phase::OfAgent(walk_for, walk)),
    }
}

/// Returns what follows from the read of the children of an identity. If memory runs out, the error is the phase, unchanged.
pub(crate) fn identity_next(
    alloc: Global,
    walk_for: WalkFor,
    walk: Walk,
    identity: Shared<SpiffeId>,
    entries: Vec<Entry>,
) -> Result<Next, Phase>
    ensures next { IfOk result (λ next. next ≡ walk_next walk_for (walked entries.items walk)) }
    ensures back { IfErr result (λ back. back ≡ Phase.Identity walk_for walk identity) }
{
    match walk_next(alloc, walk_for, walk, entries) {
        Ok(next) => Ok(next),
        Err(walk) => Err(Phase::Identity(walk_for, walk, identity)),
    }
}

/// Adds the entries of a read to the walk. The next read is that of the children of the least pending identity; if none is
/// pending, the walk is over. If memory runs out, the error is the walk, unchanged.
fn walk_next(
    alloc: Global,
    walk_for: WalkFor,
    walk: Walk,
    entries: Vec<Entry>,
) -> Result<Next, Walk>
    ensures next { IfOk result (λ next. next ≡ walk_next walk_for (walked entries.items walk)) }
    ensures back { IfErr result (λ back. back ≡ walk) }
{
    match walk_for {
        WalkFor::Entries => entries_next(alloc, walk, entries),
        WalkFor::Bundles => {
            if !walk.ends_with(entries.as_slice()) {
                return bundles_walk(alloc, walk, entries);
            }
            match bundles_end(alloc, &walk, entries) {
                Ok(next) => Ok(next),
                Err(AllocError) => Err(walk),
            }
        }
    }
}

/// Continues the walk of `authorised`, or ends the operation with the entries found. If memory runs out, the error is the walk,
/// unchanged.
fn entries_next(alloc: Global, walk: Walk, entries: Vec<Entry>) -> Result<Next, Walk>
    ensures next { IfOk result (λ next. next ≡ walk_next WalkFor.Entries (walked entries.items walk)) }
    ensures back { IfErr result (λ back. back ≡ walk) }
{
    let mut walk = walk;
    let Ok(()) = walk.continues(alloc, entries) else {
        return Err(walk);
    };
    match walk.take_least() {
        Some(least) => Ok(Next::Continues(Phase::Identity(WalkFor::Entries, walk, least))),
        None => {
            let found = Sequence::of(walk.into_found());
            Ok(answered(alloc, OpReply::Entries(found)))
        }
    }
}

/// Continues the walk of `trust`, which these entries don't complete. If memory runs out, the error is the walk, unchanged.
fn bundles_walk(alloc: Global, walk: Walk, entries: Vec<Entry>) -> Result<Next, Walk>
    requires continues { is_walk_over (walked entries.items walk) ≡ false }
    ensures next { IfOk result (λ next. next ≡ walk_next WalkFor.Bundles (walked entries.items walk)) }
    ensures back { IfErr result (λ back. back ≡ walk) }
{
    let mut walk = walk;
    let Ok(()) = walk.continues(alloc, entries) else {
        return Err(walk);
    };
    let Some(least) = walk.take_least() else {
        unreachable!();
    };
    Ok(Next::Continues(Phase::Identity(WalkFor::Bundles, walk, least)))
}

/// Completes the walk of `trust` with these entries. The next read is the bundle of the first domain that an entry found names;
/// if there is none, the operation ends. The given walk is unchanged, so that the step can be repeated. The error is out of
/// memory.
fn bundles_end(alloc: Global, walk: &Walk, entries: Vec<Entry>) -> Result<Next, AllocError>
    requires over { is_walk_over (walked entries.items walk.now) ≡ true }
    ensures { IfOk result (λ next. next ≡ walk_next WalkFor.Bundles (walked entries.items walk.now)) }
{
    let mut last = walk.clone()?;
    last.continues(alloc, entries)?;
    let domains = Sequence::of(domains_of(alloc, last.into_found().as_slice())?);
    let next = domain_at(&domains, 0)?;
    Ok(trusted_next(alloc, next, domains, 0, Sequence::empty(alloc)))
}

/// Returns the domain at the index, if there is one. The error is a reference count at its maximum.
fn domain_at(
    domains: &Sequence<Shared<TrustDomain>>,
    index: usize,
) -> Result<Option<Shared<TrustDomain>>, AllocError>
    ensures domain { IfOk result (λ next. next ≡ slice_get domains.now index) }
    ensures room { IfOk result (λ next. IfSome next (λ _. index + 1 < 2 ^ 64)) }
{
    match domains.as_slice().get(index) {
        Some(domain) => Ok(Some(domain.clone()?)),
        None => Ok(None),
    }
}

/// Returns the bundles found, followed by those that were read. If memory runs out, the error is the bundles found, unchanged.
fn with_read(
    found: Sequence<Bundle>,
    read: Vec<Bundle>,
) -> Result<Sequence<Bundle>, Sequence<Bundle>>
    ensures all { IfOk result (λ all. all ≡ found ++ read.items) }
    ensures back { IfErr result (λ back. back ≡ found) }
{
    let mut found = found.into_vec();
    let mut read = read;
    match found.append(&mut read) {
        Ok(()) => Ok(Sequence::of(found)),
        Err(AllocError) => Err(Sequence::of(found)),
    }
}

/// The next read is the bundle of the domain at the index; if there is none, the operation ends with the bundles found.
/// Allocates no memory.
fn trusted_next(
    alloc: Global,
    next: Option<Shared<TrustDomain>>,
    domains: Sequence<Shared<TrustDomain>>,
    index: usize,
    found: Sequence<Bundle>,
) -> Next
    requires room { IfSome next (λ _. index + 1 < 2 ^ 64) }
    ensures { result ≡ next_trusted next domains index found }
{
    match next {
        Some(domain) => Next::Continues(Phase::Trusted(domain, domains, index + 1, found)),
        None => answered(alloc, OpReply::Bundles(found)),
    }
}

/// Returns what follows from the read of the bundle of a domain that authorised entries name; `index` is that of the next
/// domain. If memory runs out, the error is the phase, unchanged.
pub(crate) fn trusted_turn(
    alloc: Global,
    domain: Shared<TrustDomain>,
    domains: Sequence<Shared<TrustDomain>>,
    index: usize,
    found: Sequence<Bundle>,
    read: Vec<Bundle>,
) -> Result<Next, Phase>
    ensures next { IfOk result (λ next. next ≡ trusted_next domains index (found ++ read.items)) }
    ensures back { IfErr result (λ back. back ≡ Phase.Trusted domain domains index found) }
{
    let Ok(next) = domain_at(&domains, index) else {
        return Err(Phase::Trusted(domain, domains, index, found));
    };
    match with_read(found, read) {
        Ok(found) => Ok(trusted_next(alloc, next, domains, index, found)),
        Err(found) => Err(Phase::Trusted(domain, domains, index, found)),
    }
}
