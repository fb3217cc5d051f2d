//! `show_agent`: returns an agent, if the book has it.

ghost use Rattle.std.specs.Prelude.{◌≡◌, IfOk, []};
ghost use Rattle.entry_book.specs.Book.{agent_at};
ghost use Rattle.entry_book.specs.Ops.{done};
ghost use Rattle.plain_book.specs.Performed.{performed};

use crate::book::Book;
use entry_book::{OpRefusal, OpReply, pair_with};
use spiffe_name::SpiffeId;
use std::alloc::AllocError;

/// Never refused.
pub(crate) fn show_agent(
    id: &SpiffeId,
    book: &Book,
) -> Result<Result<(OpReply, Book), OpRefusal>, AllocError>
    ensures { IfOk result (λ answer. answer ≡ performed
        (done (OpReply.AgentShown (agent_at id.now book.now)) []) book.now) }
{
    let shown = match book.agent(id) {
        Some(row) => Some(row.clone()?),
        None => None,
    };
    Ok(Ok(pair_with(OpReply::AgentShown(shown), book.clone())?))
}
