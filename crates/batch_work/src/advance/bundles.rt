//! What comes after the read of a bundle, and after that of its users?

ghost use Rattle.std.specs.Prelude.{◌≡◌, ◌≤◌, ◌^◌, ◌++◌, ◌∷◌, [], IfOk, map};
ghost use Rattle.entry_book.specs.Order.{Within, first};
ghost use Rattle.entry_book.specs.Ops.{bundle_removed, freed, next_sequence};
ghost use Rattle.entry_book.specs.Rows.{Entry as EntryRow};
ghost use Rattle.entry_book.specs.declared.bundle.Bundle.{Bundle as BundleRow};
ghost use Rattle.batch_work.specs.Steps.{bundle_put_next, drop_next, users_next};

use crate::advance::entries::{ids_of, removed};
use crate::phase::{Next, Phase};
use crate::rows::first_of;
use entry_book::{Bundle, DropMode, Entry, OpRefusal, OpReply, Sequence, Shared, Text, both};
use spiffe_name::TrustDomain;
use std::alloc::{AllocError, Global};
use version_book::Changes;

/// Returns the sequence after that of the bundle that was read, or 0 if there was none.
fn next_sequence(bundles: &[Bundle]) -> u64
    requires counts { (bundle : BundleRow) → Within bundles.now bundle → bundle.sequence ≤ 2 ^ 63 }
    ensures { result ≡ next_sequence (first bundles.now) }
{
    match bundles {
        [] => 0,
        [bundle, ..] => bundle.sequence + 1,
    }
}

/// The operation ends with the bundle in place of the one that was read. The error is out of memory.
pub(crate) fn set_bundle_next(
    alloc: Global,
    domain: &Shared<TrustDomain>,
    text: &Shared<Text>,
    bundles: Vec<Bundle>,
) -> Result<Next, AllocError>
    requires counts { (bundle : BundleRow) → Within bundles.items bundle → bundle.sequence ≤ 2 ^ 63 }
    ensures { IfOk result (λ next. next ≡ bundle_put_next domain.now text.now (first bundles.items)) }
{
    let bundle = Bundle {
        domain: domain.clone()?,
        text: text.clone()?,
        sequence: next_sequence(bundles.as_slice()),
    };
    let reply = OpReply::Bundle(bundle.clone()?);
    let mut changes = Changes::new(alloc);
    changes.put_bundle(domain.clone()?, first_of(bundles), Some(bundle))?;
    Ok(Next::Ends(reply, changes))
}

/// The next read is that of the bundle's users. The operation is refused if there is no bundle. The error is a reference count
/// at its maximum.
pub(crate) fn drop_next(
    domain: &Shared<TrustDomain>,
    mode: DropMode,
    bundles: &[Bundle],
) -> Result<Next, AllocError>
    ensures { IfOk result (λ next. next ≡ drop_next (first bundles.now) domain.now mode) }
{
    match bundles {
        [] => Ok(Next::Refused(OpRefusal::NoBundle(domain.clone()?))),
        [bundle, ..] => Ok(Next::Continues(Phase::Users(bundle.clone()?, mode))),
    }
}

/// Returns a write of each of these entries without the domain. The error is out of memory.
fn freed(alloc: Global, entries: &[Entry], domain: &TrustDomain) -> Result<Changes, AllocError>
    requires counts { (entry : EntryRow) → Within entries.now entry → entry.revision ≤ 2 ^ 63 }
    ensures { IfOk result (λ changes. changes ≡ map (freed domain.now) entries.now) }
{
    let mut changes = Changes::new(alloc);
    for entry in entries {
        let new = entry.dissociated(alloc, domain)?;
        changes.put_entry(*entry.id(), Some(entry.clone()?), Some(new))?;
    }
    Ok(changes)
}

/// Returns the changes followed by the removal of the bundle. The error is out of memory.
fn and_bundle(changes: Changes, bundle: &Bundle) -> Result<Changes, AllocError>
    ensures { IfOk result (λ all. all ≡ changes ++ bundle_removed bundle.now ∷ []) }
{
    let rows = both(bundle.domain.clone(), bundle.clone());
    let (mut changes, (domain, bundle)) = both(Ok(changes), rows)?;
    let put = changes.put_bundle(domain, Some(bundle), None);
    let ((), changes) = both(put, Ok(changes))?;
    Ok(changes)
}

/// The operation ends with the removal of the bundle. The mode decides what happens to its users, or that the operation is
/// refused if there are any. The error is out of memory.
pub(crate) fn users_next(
    alloc: Global,
    mode: DropMode,
    users: &[Entry],
    bundle: &Bundle,
) -> Result<Next, AllocError>
    requires counts { (entry : EntryRow) → Within users.now entry → entry.revision ≤ 2 ^ 63 }
    ensures { IfOk result (λ next. next ≡ users_next mode users.now bundle.now) }
{
    let none = Sequence::empty(alloc);
    match mode {
        DropMode::Restrict => match users {
            [] => {
                let changes = and_bundle(Changes::new(alloc), bundle)?;
                let reply = OpReply::Dropped(none, Sequence::empty(alloc));
                Ok(Next::Ends(reply, changes))
            }
            [_, ..] => Ok(Next::Refused(OpRefusal::BundleInUse)),
        },
        DropMode::Delete => {
            let changes = and_bundle(removed(alloc, users)?, bundle)?;
            let reply = OpReply::Dropped(ids_of(alloc, users)?, none);
            Ok(Next::Ends(reply, changes))
        }
        DropMode::Dissociate => {
            let changes = and_bundle(freed(alloc, users, bundle.domain.get())?, bundle)?;
            let reply = OpReply::Dropped(none, ids_of(alloc, users)?);
            Ok(Next::Ends(reply, changes))
        }
    }
}
