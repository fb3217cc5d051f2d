//! What comes after the read of an entry, of its group, and of its domains' bundles, and after that of several entries?

ghost use Rattle.std.specs.Prelude.{◌≡◌, ◌≤◌, ◌^◌, ◌∷◌, [], IfOk, is_some, map};
ghost use Rattle.entry_book.specs.Order.{Within, first};
ghost use Rattle.entry_book.specs.Ops.{put, removed};
ghost use Rattle.entry_book.specs.Pages.{listed, next_of};
ghost use Rattle.entry_book.specs.Rows.{Entry as EntryRow, entry_key};
ghost use Rattle.batch_work.specs.Steps.{unless_similar_next, bundle_next, bundles_next, create_next, delete_next, similar_in, update_next};

use crate::phase::{Next, Phase};
use crate::rows::similar_in;
use entry_book::{Bundle, Entry, NewEntry, OpRefusal, OpReply, PageQuery, Sequence, Shared, both};
use spiffe_name::TrustDomain;
use std::alloc::{AllocError, Global};
use uuid::Uuid;
use version_book::{Changes, RowsRead};

/// The next read is the group of the new entry. The operation is refused if its id is in use. The error is a reference count at
/// its maximum.
pub(crate) fn create_next(new: &Shared<NewEntry>, entries: &[Entry]) -> Result<Next, AllocError>
    ensures { IfOk result (λ next. next ≡ create_next (first entries.now) new.now) }
{
    match entries {
        [] => Ok(Next::Continues(Phase::Group(None, Entry::at_revision(new, 0)?))),
        [_, ..] => Ok(Next::Refused(OpRefusal::IdTaken)),
    }
}

/// The next read is the group of the new entry. The operation is refused if there is no old entry, or it isn't at the expected
/// revision. The error is a reference count at its maximum.
pub(crate) fn update_next(
    new: &Shared<NewEntry>,
    expected: Option<u64>,
    entries: &[Entry],
) -> Result<Next, AllocError>
    requires counts { (entry : EntryRow) → Within entries.now entry → entry.revision ≤ 2 ^ 63 }
    ensures { IfOk result (λ next. next ≡ update_next (first entries.now) new.now expected) }
{
    match entries {
        [] => Ok(Next::Refused(OpRefusal::NoEntry)),
        [old, ..] => {
            if old.is_stale(expected) {
                return Ok(Next::Refused(OpRefusal::StaleRevision));
            }
            let entry = Entry::at_revision(new, old.revision() + 1)?;
            Ok(Next::Continues(Phase::Group(Some(old.clone()?), entry)))
        }
    }
}

/// The operation ends with the removal of the entry. It is refused if there is none, or it isn't at the expected revision. The
/// error is out of memory.
pub(crate) fn delete_next(
    alloc: Global,
    expected: Option<u64>,
    entries: &[Entry],
) -> Result<Next, AllocError>
    ensures { IfOk result (λ next. next ≡ delete_next (first entries.now) expected) }
{
    match entries {
        [] => Ok(Next::Refused(OpRefusal::NoEntry)),
        [entry, ..] => {
            if entry.is_stale(expected) {
                return Ok(Next::Refused(OpRefusal::StaleRevision));
            }
            let mut changes = Changes::new(alloc);
            changes.put_entry(*entry.id(), Some(entry.clone()?), None)?;
            Ok(Next::Ends(OpReply::Entry(entry.clone()?), changes))
        }
    }
}

/// The next read is the bundle of the entry's first domain; if there is none, the operation ends with the entry put. It is
/// refused if an entry of the group is similar. The error is out of memory.
pub(crate) fn unless_similar_next(
    alloc: Global,
    old: &Option<Entry>,
    entry: &Entry,
    group: &[Entry],
) -> Result<Next, AllocError>
    ensures { IfOk result (λ next. next ≡ unless_similar_next (similar_in entry.now group.now) old.now entry.now) }
{
    match similar_in(group, entry) {
        Some(other) => Ok(Next::Refused(OpRefusal::Similar(*other.id()))),
        None => bundles_next(alloc, old, entry, 0),
    }
}

/// The next read is the bundle of the domain at the index; if there is none, the operation ends with the entry put. It is
/// refused if the domain before it has no bundle. The error is out of memory.
pub(crate) fn bundle_next(
    alloc: Global,
    old: &Option<Entry>,
    entry: &Entry,
    domain: &Shared<TrustDomain>,
    index: usize,
    bundles: &[Bundle],
) -> Result<Next, AllocError>
    ensures { IfOk result (λ next. next ≡ bundle_next (is_some (first bundles.now)) old.now entry.now domain.now index) }
{
    match bundles {
        [] => Ok(Next::Refused(OpRefusal::NoBundle(domain.clone()?))),
        [_, ..] => bundles_next(alloc, old, entry, index),
    }
}

/// The next read is the bundle of the domain at the index; if there is none, the operation ends with the entry put. The error
/// is out of memory.
fn bundles_next(
    alloc: Global,
    old: &Option<Entry>,
    entry: &Entry,
    index: usize,
) -> Result<Next, AllocError>
    ensures { IfOk result (λ next. next ≡ bundles_next old.now entry.now index) }
{
    match entry.domains().as_slice().get(index) {
        Some(domain) => {
            let rows = both(old.clone(), entry.clone());
            let ((old, entry), domain) = both(rows, domain.clone())?;
            Ok(Next::Continues(Phase::Bundle(old, entry, domain, index + 1)))
        }
        None => {
            let changes = entry_put(alloc, old, entry);
            let (changes, entry) = both(changes, entry.clone())?;
            Ok(Next::Ends(OpReply::Entry(entry), changes))
        }
    }
}

/// Returns the write of the entry in place of the old one. The error is out of memory.
fn entry_put(alloc: Global, old: &Option<Entry>, entry: &Entry) -> Result<Changes, AllocError>
    ensures { IfOk result (λ changes. changes ≡ put old.now entry.now ∷ []) }
{
    let (old, new) = both(old.clone(), entry.clone())?;
    let mut changes = Changes::new(alloc);
    let put = changes.put_entry(*entry.id(), old, Some(new));
    let ((), changes) = both(put, Ok(changes))?;
    Ok(changes)
}

/// The operation ends with the page of the entries that were read. The error is out of memory.
pub(crate) fn page_next(
    alloc: Global,
    query: &PageQuery,
    reading: &RowsRead,
) -> Result<Next, AllocError>
    ensures { IfOk result (λ next. next ≡ Next.Ends
        (OpReply.Page (listed query.now reading.now) (next_of query.now reading.now)) []) }
{
    let (listed, next) = query.page_of(alloc, reading.entries())?;
    let reply = OpReply::Page(Sequence::of(listed), next);
    Ok(Next::Ends(reply, Changes::new(alloc)))
}

/// The operation ends with the removal of these entries. The error is out of memory.
pub(crate) fn prune_next(alloc: Global, entries: &[Entry]) -> Result<Next, AllocError>
    ensures { IfOk result (λ next. next ≡ Next.Ends (OpReply.Pruned (map entry_key entries.now)) (map removed entries.now)) }
{
    let reply = OpReply::Pruned(ids_of(alloc, entries)?);
    Ok(Next::Ends(reply, removed(alloc, entries)?))
}

/// Returns the ids of these entries. The error is out of memory.
pub(crate) fn ids_of(alloc: Global, entries: &[Entry]) -> Result<Sequence<Uuid>, AllocError>
    ensures { IfOk result (λ ids. ids ≡ map entry_key entries.now) }
{
    let mut ids = Vec::new(alloc);
    for entry in entries {
        ids.push(*entry.id())?;
    }
    Ok(Sequence::of(ids))
}

/// Returns the removal of each of these entries. The error is out of memory.
pub(crate) fn removed(alloc: Global, entries: &[Entry]) -> Result<Changes, AllocError>
    ensures { IfOk result (λ changes. changes ≡ map removed entries.now) }
{
    let mut changes = Changes::new(alloc);
    for entry in entries {
        changes.put_entry(*entry.id(), Some(entry.clone()?), None)?;
    }
    Ok(changes)
}
