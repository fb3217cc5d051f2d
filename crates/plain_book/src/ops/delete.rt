//! `delete`: removes an entry.

ghost use Rattle.std.specs.Prelude.{◌≡◌, IfOk};
ghost use Rattle.entry_book.specs.Book.{entry_at};
ghost use Rattle.entry_book.specs.Ops.{delete_over};
ghost use Rattle.plain_book.specs.Performed.{performed};

use crate::book::Book;
use entry_book::{OpRefusal, OpReply, pair_with};
use std::alloc::{AllocError, Global};
use uuid::Uuid;

/// Refused, in this order, if there is no such entry, or if another revision of it is expected.
pub(crate) fn delete(
    alloc: Global,
    id: &Uuid,
    expected: Option<u64>,
    book: &Book,
) -> Result<Result<(OpReply, Book), OpRefusal>, AllocError>
    ensures { IfOk result (λ answer. answer ≡ performed
        (delete_over (entry_at id.now book.now) expected) book.now) }
{
    let Some(entry) = book.entry(id) else {
        return Ok(Err(OpRefusal::NoEntry));
    };
    if entry.is_stale(expected) {
        return Ok(Err(OpRefusal::StaleRevision));
    }
    let reply = OpReply::Entry(entry.clone()?);
    Ok(Ok(pair_with(reply, book.without_entry(alloc, entry))?))
}
