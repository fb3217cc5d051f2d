//! Finds an agent's authorised entries, and the bundles of the domains that they name, in one pass.

ghost use Rattle.std.specs.Prelude.{◌≡◌, ◌++◌, [], IfOk, OnOk, filter, option_to_list};
ghost use Rattle.std.specs.Option.{option_copied};
ghost use Rattle.spiffe_name.specs.Id.{server_text};
ghost use Rattle.entry_book.specs.Authorised.{authorised, holds};
ghost use Rattle.entry_book.specs.Book.{agent_at, children_of};
ghost use Rattle.entry_book.specs.Ops.{bundles_of, done, for_agent};
ghost use Rattle.entry_book.specs.declared.reply.OpReply.TheVariants as op_reply;
ghost use Rattle.batch_work.specs.Questions.{answered, bundles_at, walk_begun};
ghost use Rattle.batch_work.specs.WalkStates.{walked};
ghost use Rattle.batch_work.specs.Windows.{book_in};

use crate::borrowed_reply::{BorrowedOpReply, BorrowedRows};
use crate::domains::domains_of_borrowed;
use crate::read_only::walk::BorrowedWalk;
use crate::rows::holds;
use entry_book::{Agent, Bundle, Entry, OpRefusal, Sequence, Shared};
use spiffe_name::{SpiffeId, TrustDomain};
use std::alloc::{AllocError, Global};
use version_book::{Borrowed, Version};

/// Returns the aliases among these entries that the agent holds. The error is out of memory.
fn held_of<'a>(
    alloc: Global,
    server: &SpiffeId,
    agent: &Agent,
    entries: Vec<Borrowed<'a, Entry>>,
) -> Result<Vec<Borrowed<'a, Entry>>, AllocError>
    ensures { IfOk result (λ held. held.items ≡ filter (holds server.now agent.now) entries.entry.items) }
{
    let mut held = Vec::new(alloc);
    for entry in entries {
        if holds(server, agent, entry.get()) {
            held.push(entry)?;
        }
    }
    Ok(held)
}

/// Returns the aliases that the agent holds. The error is out of memory.
fn held_aliases<'a>(
    alloc: Global,
    version: &'a Version,
    agent: &Agent,
) -> Result<Vec<Borrowed<'a, Entry>>, AllocError>
    ensures { IfOk result (λ aliases. aliases.items
        ≡ filter (holds (server_text version.now.domain) agent.now) (children_of (server_text version.now.domain) (book_in version.now))) }
{
    let server = version.server();
    let aliases = version.children(server)?;
    held_of(alloc, server.get(), agent, aliases)
}

/// Begins the walk: it has found the aliases that the agent holds and the agent's own children. The next read is that of its
/// first identity. The error is out of memory.
fn begin_walk<'a>(
    alloc: Global,
    version: &'a Version,
    agent: &'a Agent,
) -> Result<BorrowedWalk<'a>, AllocError>
    ensures { IfOk result (λ walk. walk ≡ walk_begun (server_text version.now.domain) agent.now (book_in version.now)) }
{
    let mut walk = BorrowedWalk::new(alloc, agent)?;
    walk.continues(held_aliases(alloc, version, agent)?)?;
    walk.continues(version.children(&agent.id)?)?;
    Ok(walk)
}

/// Adds the children of an identity to the walk. The error is out of memory.
fn read_children<'a>(
    version: &'a Version,
    walk: &mut BorrowedWalk<'a>,
    identity: &Shared<SpiffeId>,
) -> Result<(), AllocError>
    ensures { OnOk result (walk.new ≡ walked (children_of identity.now (book_in version.now)) walk.old) }
{
    walk.continues(version.children(identity)?)
}

/// Completes a walk that has just begun: reads until no identity is pending. The error is out of memory.
fn to_end<'a>(
    version: &'a Version,
    agent: &Agent,
    walk: &mut BorrowedWalk<'a>,
) -> Result<(), AllocError>
    requires begun { walk.old ≡ walk_begun (server_text version.now.domain) agent.now (book_in version.now) }
    ensures { OnOk result (walk.new.found ≡ authorised (server_text version.now.domain) agent.now (book_in version.now)) }
{
    // the agent occurs in the contract alone; the contract of `number` says that the version's book is lawful
    let _ = agent;
    let _ = version.number();
    for _ in 0..version.count().entries {
        match walk.take_least() {
            None => return Ok(()),
            Some(identity) => read_children(version, walk, identity.get())?,
        }
    }
    Ok(())
}

/// Returns the agent's authorised entries. The error is out of memory.
fn authorised_of<'a>(
    alloc: Global,
    version: &'a Version,
    agent: &'a Agent,
) -> Result<Vec<Borrowed<'a, Entry>>, AllocError>
    ensures { IfOk result (λ found. found.items ≡ authorised (server_text version.now.domain) agent.now (book_in version.now)) }
{
    let mut walk = begin_walk(alloc, version, agent)?;
    to_end(version, agent, &mut walk)?;
    Ok(walk.into_found())
}

/// Appends the bundle, if there is one, to those found. The error is out of memory.
fn push_bundle<'a>(
    found: &mut Vec<Borrowed<'a, Bundle>>,
    bundle: Option<&'a Bundle>,
) -> Result<(), AllocError>
    ensures { OnOk result (found.new.items ≡ found.old.items ++ option_to_list (option_copied bundle.entry)) }
{
    if let Some(bundle) = bundle {
        found.push(Borrowed::of(bundle))?;
    }
    Ok(())
}

/// Appends the bundles of these domains to those found. The error is out of memory.
fn push_bundles<'a>(
    version: &'a Version,
    domains: &[Shared<TrustDomain>],
    found: &mut Vec<Borrowed<'a, Bundle>>,
) -> Result<(), AllocError>
    ensures { OnOk result (found.new.items ≡ found.old.items ++ bundles_at (book_in version.now) domains.now) }
{
    // its contract says that the version's book is lawful
    let _ = version.number();
    for domain in domains {
        push_bundle(found, version.bundle(domain))?;
    }
    Ok(())
}

/// Returns the bundles of the domains that these entries name. The error is out of memory.
fn bundles_of<'a>(
    alloc: Global,
    version: &'a Version,
    entries: &[Borrowed<'_, Entry>],
) -> Result<Vec<Borrowed<'a, Bundle>>, AllocError>
    ensures { IfOk result (λ found. found.items ≡ bundles_of entries.now (book_in version.now)) }
{
    // its contract says that the version's book is lawful
    let _ = version.number();
    let domains = domains_of_borrowed(alloc, entries)?;
    let mut found = Vec::new(alloc);
    push_bundles(version, domains.as_slice(), &mut found)?;
    Ok(found)
}

/// Returns the reply to a query for an agent's authorised entries, or the refusal that there is no such agent. The error is out
/// of memory.
pub(crate) fn authorised_reply<'a>(
    alloc: Global,
    version: &'a Version,
    agent: &Shared<SpiffeId>,
) -> Result<Result<BorrowedOpReply<'a>, OpRefusal>, AllocError>
    ensures { IfOk result (λ answer. for_agent (agent_at agent.now (book_in version.now))
        (λ found. done (op_reply.Entries (authorised (server_text version.now.domain) found (book_in version.now))) []) ≡ answered answer) }
{
    let Some(agent) = version.agent(agent) else {
        return Ok(Err(OpRefusal::NoAgent));
    };
    let found = authorised_of(alloc, version, agent)?;
    let rows = BorrowedRows::Entries(Sequence::of(found));
    Ok(Ok(BorrowedOpReply::of(rows)))
}

/// Returns the reply to a query for the bundles of an agent's authorised entries, or the refusal that there is no such agent.
/// The error is out of memory.
pub(crate) fn trust_reply<'a>(
    alloc: Global,
    version: &'a Version,
    agent: &Shared<SpiffeId>,
) -> Result<Result<BorrowedOpReply<'a>, OpRefusal>, AllocError>
    ensures { IfOk result (λ answer. for_agent (agent_at agent.now (book_in version.now))
        (λ found. done (op_reply.Bundles (bundles_of (authorised (server_text version.now.domain) found (book_in version.now)) (book_in version.now))) []) ≡ answered answer) }
{
    let Some(agent) = version.agent(agent) else {
        return Ok(Err(OpRefusal::NoAgent));
    };
    let found = authorised_of(alloc, version, agent)?;
    let bundles = bundles_of(alloc, version, found.as_slice());
    drop(found);
    let rows = BorrowedRows::Bundles(Sequence::of(bundles?));
    Ok(Ok(BorrowedOpReply::of(rows)))
}
