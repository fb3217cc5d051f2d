//! `update`: replaces an entry by another with the same id, at its next revision.

ghost use Rattle.std.specs.Prelude.{◌≡◌, IfOk};
ghost use Rattle.entry_book.specs.Book.{entry_at};
ghost use Rattle.entry_book.specs.Lawful.{CanGrow};
ghost use Rattle.entry_book.specs.Ops.{update_over};
ghost use Rattle.plain_book.specs.Performed.{performed};

use crate::book::Book;
use crate::ops::put::put_unless_similar;
use entry_book::{NewEntry, OpRefusal, OpReply, Shared};
use std::alloc::{AllocError, Global};

/// Refused, in this order, if there is no such entry, or another revision of it is expected; then if another entry is
/// similar, or a domain has no bundle.
pub(crate) fn update(
    alloc: Global,
    new: &Shared<NewEntry>,
    expected: Option<u64>,
    book: &Book,
) -> Result<Result<(OpReply, Book), OpRefusal>, AllocError>
    requires counts { CanGrow book.now }
    ensures { IfOk result (λ answer. answer ≡ performed
        (update_over (entry_at new.now.id book.now) new.now expected book.now) book.now) }
{
    let Some(old) = book.entry(&new.get().id) else {
        return Ok(Err(OpRefusal::NoEntry));
    };
    if old.is_stale(expected) {
        return Ok(Err(OpRefusal::StaleRevision));
    }
    put_unless_similar(alloc, new, old.revision() + 1, book)
}
