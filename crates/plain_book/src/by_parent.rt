//! How is the list of all parents changed?

ghost use Rattle.std.specs.Prelude.{◌≡◌, IfOk, None, Some};
ghost use Rattle.entry_book.specs.Order.{Ascending, with_row};
ghost use Rattle.entry_book.specs.Rows.{entry_key};
ghost use Rattle.plain_book.specs.Siblings.{ChangesAt, parent_key, siblings_at};

use crate::rows::Rows;
use crate::siblings::Siblings;
use entry_book::{Entry, Shared, pair_with};
use spiffe_name::SpiffeId;
use std::alloc::{AllocError, Global};

/// Returns the list with these entries for a parent; without a row for it if there are none. The error, here and below, is out of
/// memory.
fn with_siblings(
    alloc: Global,
    all: &Rows<Siblings>,
    parent: &Shared<SpiffeId>,
    entries: Rows<Entry>,
) -> Result<Rows<Siblings>, AllocError>
    requires order { Ascending parent_key all.now }
    ensures { IfOk result (λ new. ChangesAt parent.now entries all.now new) }
{
    if entries.len() == 0 {
        return all.without(alloc, parent.get().as_str().as_bytes());
    }
    let (entries, parent) = pair_with(entries, parent.clone())?;
    all.with(alloc, Siblings { parent, entries })
}

/// Returns the entries of this one's parent with this one, which replaces the one with its id, if there is one.
fn siblings_with(
    alloc: Global,
    all: &Rows<Siblings>,
    entry: &Entry,
) -> Result<Rows<Entry>, AllocError>
    requires order { Ascending parent_key all.now }
    requires entries { Ascending entry_key (siblings_at entry.now.parent all.now) }
    ensures { IfOk result (λ entries. entries
        ≡ with_row entry_key entry.now.id (Some entry.now) (siblings_at entry.now.parent all.now)) }
{
    let copy = entry.clone()?;
    match all.row(entry.parent().get().as_str().as_bytes()) {
        Some(siblings) => siblings.entries.with(alloc, copy),
        None => Rows::only(alloc, copy),
    }
}

/// Returns the list with this entry among those of its parent; it replaces the one with its id there, if there is one.
pub(crate) fn with_sibling(
    alloc: Global,
    all: &Rows<Siblings>,
    entry: &Entry,
) -> Result<Rows<Siblings>, AllocError>
    requires order { Ascending parent_key all.now }
    requires entries { Ascending entry_key (siblings_at entry.now.parent all.now) }
    ensures { IfOk result (λ new. ChangesAt entry.now.parent
        (with_row entry_key entry.now.id (Some entry.now) (siblings_at entry.now.parent all.now)) all.now new) }
{
    let entries = siblings_with(alloc, all, entry)?;
    with_siblings(alloc, all, entry.parent(), entries)
}

/// Returns the list in which the entries of this one's parent lack the one with its id.
pub(crate) fn without_sibling(
    alloc: Global,
    all: &Rows<Siblings>,
    entry: &Entry,
) -> Result<Rows<Siblings>, AllocError>
    requires order { Ascending parent_key all.now }
    requires entries { Ascending entry_key (siblings_at entry.now.parent all.now) }
    ensures { IfOk result (λ new. ChangesAt entry.now.parent
        (with_row entry_key entry.now.id None (siblings_at entry.now.parent all.now)) all.now new) }
{
    match all.row(entry.parent().get().as_str().as_bytes()) {
        Some(siblings) => {
            let entries = siblings
                .entries
                .without(alloc, entry.id().as_bytes().as_slice())?;
            with_siblings(alloc, all, entry.parent(), entries)
        }
        None => all.clone(),
    }
}
