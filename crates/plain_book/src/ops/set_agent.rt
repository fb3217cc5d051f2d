//! `set_agent`: adds an agent, or replaces the one with its id.

ghost use Rattle.std.specs.Prelude.{◌≡◌, IfOk};
ghost use Rattle.entry_book.specs.Ops.{agent_set};
ghost use Rattle.plain_book.specs.Performed.{performed};

use crate::book::Book;
use entry_book::{Agent, OpRefusal, OpReply, pair_with};
use std::alloc::{AllocError, Global};

/// Never refused.
pub(crate) fn set_agent(
    alloc: Global,
    agent: &Agent,
    book: &Book,
) -> Result<Result<(OpReply, Book), OpRefusal>, AllocError>
    ensures { IfOk result (λ answer. answer ≡ performed (agent_set agent.now book.now) book.now) }
{
    let (kept, replied) = pair_with(agent.clone()?, agent.clone())?;
    Ok(Ok(pair_with(OpReply::Agent(replied), book.with_agent(alloc, kept))?))
}
