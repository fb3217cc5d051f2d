//! What do the rows that were read say?

ghost use Rattle.std.specs.Prelude.{◌≡◌, IfOk, filter};
ghost use Rattle.std.specs.Option.{option_copied};
ghost use Rattle.entry_book.specs.Authorised.{holds};
ghost use Rattle.entry_book.specs.Order.{first};
ghost use Rattle.batch_work.specs.Steps.{similar_in};

use entry_book::{Agent, Entry};
use spiffe_name::SpiffeId;
use std::alloc::{AllocError, Global};

/// Returns the first row, if there is one. Allocates no memory.
pub(crate) fn first_of<T: Drop>(rows: Vec<T>) -> Option<T>
    ensures { result ≡ first rows.items }
{
    rows.into_iter().next()
}

/// Returns another entry with the same selectors, among the entries of one parent and identity, if there is one.
pub(crate) fn similar_in<'a>(entries: &'a [Entry], new: &Entry) -> Option<&'a Entry>
    ensures { option_copied result ≡ similar_in new.now entries.now }
{
    for entry in entries {
        if entry.selectors().get() == new.selectors().get() && entry.id() != new.id() {
            return Some(entry);
        }
    }
    None
}

/// Returns true if the entry is an alias and the agent has all of its selectors.
pub(crate) fn holds(server: &SpiffeId, agent: &Agent, entry: &Entry) -> bool
    ensures { result ≡ holds server.now agent.now entry.now }
{
    entry.parent().get() == server && entry.selectors().get().within(agent.selectors.get())
}

/// Returns the aliases among these entries that the agent holds. The error is out of memory.
pub(crate) fn held_among(
    alloc: Global,
    server: &SpiffeId,
    agent: &Agent,
    entries: &[Entry],
) -> Result<Vec<Entry>, AllocError>
    ensures { IfOk result (λ found. found.items ≡ filter (holds server.now agent.now) entries.now) }
{
    let mut found = Vec::new(alloc);
    for entry in entries {
        if holds(server, agent, entry) {
            found.push(entry.clone()?)?;
        }
    }
    Ok(found)
}
