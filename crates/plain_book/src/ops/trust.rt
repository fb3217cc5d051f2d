//! `trust`: returns the bundles of the domains that the authorised entries of an agent name.

ghost use Rattle.std.specs.Prelude.{◌≡◌, IfOk, []};
ghost use Rattle.spiffe_name.specs.Id.{server_text};
ghost use Rattle.entry_book.specs.Book.{agent_at};
ghost use Rattle.entry_book.specs.Authorised.{authorised};
ghost use Rattle.entry_book.specs.Ops.{bundles_of, done, for_agent};
ghost use Rattle.plain_book.specs.Performed.{performed};

use crate::book::Book;
use entry_book::{OpRefusal, OpReply, pair_with};
use spiffe_name::{SpiffeId, TrustDomain};
use std::alloc::{AllocError, Global};

/// Refused if the agent isn't in the book.
pub(crate) fn trust(
    alloc: Global,
    own_domain: &TrustDomain,
    agent: &SpiffeId,
    book: &Book,
) -> Result<Result<(OpReply, Book), OpRefusal>, AllocError>
    ensures { IfOk result (λ answer. answer ≡ performed
        (for_agent (agent_at agent.now book.now)
        (λ found. done (OpReply.Bundles
        (bundles_of (authorised (server_text own_domain.now) found book.now) book.now)) [])) book.now) }
{
    let Some(found) = book.agent(agent) else {
        return Ok(Err(OpRefusal::NoAgent));
    };
    let entries = book.authorised(alloc, own_domain, found)?;
    let bundles = book.bundles_of(alloc, entries.as_slice());
    drop(entries);
    let bundles = bundles?;
    Ok(Ok(pair_with(OpReply::Bundles(bundles), book.clone())?))
}
