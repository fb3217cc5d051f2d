//! `show`: returns an entry, if the book has it.

ghost use Rattle.std.specs.Prelude.{◌≡◌, IfOk, []};
ghost use Rattle.entry_book.specs.Book.{entry_at};
ghost use Rattle.entry_book.specs.Ops.{done};
ghost use Rattle.plain_book.specs.Performed.{performed};

use crate::book::Book;
use entry_book::{OpRefusal, OpReply, pair_with};
use std::alloc::AllocError;
use uuid::Uuid;

/// Never refused.
pub(crate) fn show(id: &Uuid, book: &Book) -> Result<Result<(OpReply, Book), OpRefusal>, AllocError>
    ensures { IfOk result (λ answer. answer ≡ performed
        (done (OpReply.EntryShown (entry_at id.now book.now)) []) book.now) }
{
    let shown = match book.entry(id) {
        Some(row) => Some(row.clone()?),
        None => None,
    };
    Ok(Ok(pair_with(OpReply::EntryShown(shown), book.clone())?))
}
