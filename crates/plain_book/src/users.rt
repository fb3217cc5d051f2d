//! Which entries name a trust domain, and which bundles do entries name?

ghost use Rattle.std.specs.Prelude.{◌≡◌, filter, map, IfOk};
ghost use Rattle.std.specs.List.{list_any};
ghost use Rattle.std.specs.Option.{option_copied};
ghost use Rattle.entry_book.specs.Rows.{entry_key};
ghost use Rattle.entry_book.specs.Order.{first};
ghost use Rattle.entry_book.specs.Book.{names};
ghost use Rattle.entry_book.specs.Ops.{is_named};
ghost use Rattle.plain_book.specs.Blocks.{joined};

use crate::blocks::Block;
use entry_book::{Bundle, Entry};
use spiffe_name::TrustDomain;
use std::alloc::{AllocError, Global};
use uuid::Uuid;

/// Returns the first entry that names a domain, if there is one.
fn user_of<'a>(entries: &'a [Entry], domain: &TrustDomain) -> Option<&'a Entry>
    ensures { option_copied result ≡ first (filter (names domain.now) entries.now) }
{
    for entry in entries {
        if entry.names(domain) {
            return Some(entry);
        }
    }
    None
}

/// Returns the first entry of the blocks that names a domain, if there is one.
pub(crate) fn first_user<'a>(blocks: &'a [Block<Entry>], domain: &TrustDomain) -> Option<&'a Entry>
    ensures { option_copied result ≡ first (filter (names domain.now) (joined blocks.now)) }
{
    for block in blocks {
        match user_of(block.get().as_slice(), domain) {
            Some(user) => return Some(user),
            None => {}
        }
    }
    None
}

/// Returns the entries that name a domain. The error, here and below, is out of memory.
pub(crate) fn users_among(
    alloc: Global,
    entries: &[Entry],
    domain: &TrustDomain,
) -> Result<Vec<Entry>, AllocError>
    ensures { IfOk result (λ users. users.items ≡ filter (names domain.now) entries.now) }
{
    let mut users = Vec::new(alloc);
    for entry in entries {
        if entry.names(domain) {
            users.push(entry.clone()?)?;
        }
    }
    Ok(users)
}

/// Returns the ids of the entries.
pub(crate) fn ids_of(alloc: Global, entries: &[Entry]) -> Result<Vec<Uuid>, AllocError>
    ensures { IfOk result (λ ids. ids.items ≡ map entry_key entries.now) }
{
    let mut ids = Vec::with_capacity(alloc, entries.len())?;
    for entry in entries {
        ids.push(*entry.id())?;
    }
    Ok(ids)
}

/// Returns true if an entry names the domain.
pub(crate) fn is_named(entries: &[Entry], domain: &TrustDomain) -> bool
    ensures { result ≡ list_any (names domain.now) entries.now }
{
    for entry in entries {
        if entry.names(domain) {
            return true;
        }
    }
    false
}

/// Returns the bundles whose domain an entry names.
pub(crate) fn named_bundles(
    alloc: Global,
    bundles: &[Bundle],
    entries: &[Entry],
) -> Result<Vec<Bundle>, AllocError>
    ensures { IfOk result (λ named. named.items ≡ filter (is_named entries.now) bundles.now) }
{
    let mut named = Vec::new(alloc);
    for bundle in bundles {
        if is_named(entries, bundle.domain.get()) {
            named.push(bundle.clone()?)?;
        }
    }
    Ok(named)
}
