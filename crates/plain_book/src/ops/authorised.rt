//! `authorised`: returns the authorised entries of an agent.

ghost use Rattle.std.specs.Prelude.{◌≡◌, IfOk, []};
ghost use Rattle.spiffe_name.specs.Id.{server_text};
ghost use Rattle.entry_book.specs.Book.{agent_at};
ghost use Rattle.entry_book.specs.Authorised.{authorised};
ghost use Rattle.entry_book.specs.Ops.{done, for_agent};
ghost use Rattle.plain_book.specs.Performed.{performed};

use crate::book::Book;
use entry_book::{OpRefusal, OpReply, pair_with};
use spiffe_name::{SpiffeId, TrustDomain};
use std::alloc::{AllocError, Global};

/// Refused if the agent isn't in the book.
pub(crate) fn authorised(
    alloc: Global,
    own_domain: &TrustDomain,
    agent: &SpiffeId,
    book: &Book,
) -> Result<Result<(OpReply, Book), OpRefusal>, AllocError>
    ensures { IfOk result (λ answer. answer ≡ performed
        (for_agent (agent_at agent.now book.now)
        (λ found. done (OpReply.Entries (authorised (server_text own_domain.now) found book.now)) [])) book.now) }
{
    let Some(found) = book.agent(agent) else {
        return Ok(Err(OpRefusal::NoAgent));
    };
    let entries = book.authorised(alloc, own_domain, found)?;
    Ok(Ok(pair_with(OpReply::Entries(entries), book.clone())?))
}
