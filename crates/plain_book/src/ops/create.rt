//! `create`: adds an entry, at revision 0.

ghost use Rattle.std.specs.Prelude.{◌≡◌, IfOk};
ghost use Rattle.entry_book.specs.Rows.{at_revision};
ghost use Rattle.entry_book.specs.Book.{entry_at};
ghost use Rattle.entry_book.specs.Ops.{create_over};
ghost use Rattle.plain_book.specs.Performed.{performed};

use crate::book::Book;
use crate::ops::put::put_unless_similar;
use entry_book::{NewEntry, OpRefusal, OpReply, Shared};
use std::alloc::{AllocError, Global};

/// Refused, in this order, if the id is taken, if another entry is similar, or if a domain has no bundle.
pub(crate) fn create(
    alloc: Global,
    new: &Shared<NewEntry>,
    book: &Book,
) -> Result<Result<(OpReply, Book), OpRefusal>, AllocError>
    ensures { IfOk result (λ answer. answer ≡ performed
        (create_over (entry_at new.now.id book.now) (at_revision 0 new.now) book.now) book.now) }
{
    if book.entry(&new.get().id).is_some() {
        return Ok(Err(OpRefusal::IdTaken));
    }
    put_unless_similar(alloc, new, 0, book)
}
