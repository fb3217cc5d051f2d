//! Which entries is an agent authorised for?
//!
//! Those reached from the agent: first the entries that start a chain, then, for each entry reached, the children of its
//! identity. An entry that was found before is not visited again, so the walk ends even if parents form a cycle. Let n be
//! the number of entries, and r the number reached. Each entry reached takes about log2 n comparisons to find its children, and
//! 2 log2 r for each child. Entries of the same identity find the same children again. Inserting an entry into the sorted vector
//! moves up to r others.

ghost use Rattle.std.specs.Prelude.{◌≡◌, ◌++◌, OnOk, IfOk, filter, length};
ghost use Rattle.spiffe_name.specs.Id.{server_text};
ghost use Rattle.spiffe_name.specs.SelectorSet.{is_within};
ghost use Rattle.entry_book.specs.Authorised.{ends_within};
ghost use Rattle.entry_book.specs.Order.{Ascending};
ghost use Rattle.entry_book.specs.Rows.{entry_key};
ghost use Rattle.plain_book.specs.Found.{is_missing, with_all};

use crate::entries::Entries;
use crate::row::{put_row, row_of};
use entry_book::{Agent, Entry};
use spiffe_name::{SpiffeId, TrustDomain};
use std::alloc::{AllocError, Global};

/// Returns the entries in which a chain for this agent ends, in order. The error, here and below, is out of memory.
pub(crate) fn authorised_of(
    alloc: Global,
    own_domain: &TrustDomain,
    agent: &Agent,
    entries: &Entries,
) -> Result<Vec<Entry>, AllocError>
    ensures { IfOk result (λ found. found.items
        ≡ filter (ends_within (server_text own_domain.now) agent.now entries.now (length entries.now)) entries.now) }
{
    let server = SpiffeId::server_of(alloc, own_domain)?;
    let aliases = entries.children(alloc, &server)?;
    let starts = held_among(alloc, agent, aliases.as_slice())?;
    let own_id = agent.id.get();
    let agent_children = entries.children(alloc, own_id)?;
    let mut found = Vec::new(alloc);
    let mut pending = Vec::new(alloc);
    reach(starts.as_slice(), &mut found, &mut pending)?;
    reach(agent_children.as_slice(), &mut found, &mut pending)?;
    while let Some(parent) = pending.pop() {
        let identity = parent.identity().get();
        let children = entries.children(alloc, identity)?;
        reach(children.as_slice(), &mut found, &mut pending)?;
    }
    Ok(found)
}

/// Returns the aliases whose selectors the agent has.
fn held_among(alloc: Global, agent: &Agent, aliases: &[Entry]) -> Result<Vec<Entry>, AllocError>
    ensures { IfOk result (λ held. held.items
        ≡ filter (λ entry. is_within entry.selectors agent.now.selectors) aliases.now) }
{
    let mut held = Vec::new(alloc);
    for entry in aliases {
        if entry.selectors().get().within(agent.selectors.get()) {
            held.push(entry.clone()?)?;
        }
    }
    Ok(held)
}

/// Puts the entries among those found. Appends those that weren't found before to `pending`: the walk has yet to read their
/// children.
fn reach(
    entries: &[Entry],
    found: &mut Vec<Entry>,
    pending: &mut Vec<Entry>,
) -> Result<(), AllocError>
    requires order { Ascending entry_key found.old.items }
    ensures found { OnOk result (found.new.items ≡ with_all entries.now found.old.items) }
    ensures order { OnOk result (Ascending entry_key found.new.items) }
    ensures pending { OnOk result (pending.new.items
        ≡ pending.old.items ++ filter (is_missing found.old.items) entries.now) }
{
    push_missing(found.as_slice(), entries, pending)?;
    put_all(entries, found)
}

/// Appends to `pending` the entries whose ids aren't among those found.
fn push_missing(
    found: &[Entry],
    entries: &[Entry],
    pending: &mut Vec<Entry>,
) -> Result<(), AllocError>
    requires order { Ascending entry_key found.now }
    ensures { OnOk result (pending.new.items
        ≡ pending.old.items ++ filter (is_missing found.now) entries.now) }
{
    for entry in entries {
        if row_of(found, entry.id().as_bytes().as_slice()).is_none() {
            pending.push(entry.clone()?)?;
        }
    }
    Ok(())
}

/// Puts the entries among those found, in order.
fn put_all(entries: &[Entry], found: &mut Vec<Entry>) -> Result<(), AllocError>
    requires order { Ascending entry_key found.old.items }
    ensures found { OnOk result (found.new.items ≡ with_all entries.now found.old.items) }
    ensures order { OnOk result (Ascending entry_key found.new.items) }
{
    for entry in entries {
        put_row(found, entry.clone()?)?;
    }
    Ok(())
}
