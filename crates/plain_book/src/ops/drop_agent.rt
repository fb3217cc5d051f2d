//! `drop_agent`: removes an agent.

ghost use Rattle.std.specs.Prelude.{◌≡◌, IfOk};
ghost use Rattle.entry_book.specs.Book.{agent_at};
ghost use Rattle.entry_book.specs.Ops.{agent_dropped, for_agent};
ghost use Rattle.plain_book.specs.Performed.{performed};

use crate::book::Book;
use entry_book::{OpRefusal, OpReply, pair_with};
use spiffe_name::SpiffeId;
use std::alloc::{AllocError, Global};

/// Refused if there is no such agent.
pub(crate) fn drop_agent(
    alloc: Global,
    id: &SpiffeId,
    book: &Book,
) -> Result<Result<(OpReply, Book), OpRefusal>, AllocError>
    ensures { IfOk result (λ answer. answer ≡ performed (for_agent (agent_at id.now book.now) agent_dropped) book.now) }
{
    let Some(agent) = book.agent(id) else {
        return Ok(Err(OpRefusal::NoAgent));
    };
    let reply = OpReply::Agent(agent.clone()?);
    Ok(Ok(pair_with(reply, book.without_agent(alloc, agent))?))
}
