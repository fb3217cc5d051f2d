//! `page`: returns a page of the entries.

ghost use Rattle.std.specs.Prelude.{◌≡◌, IfOk, []};
ghost use Rattle.entry_book.specs.Ops.{done};
ghost use Rattle.entry_book.specs.Pages.{listed, next_of};
ghost use Rattle.plain_book.specs.Performed.{performed};

use crate::book::Book;
use entry_book::{OpRefusal, OpReply, PageQuery, pair_with};
use std::alloc::{AllocError, Global};

/// Never refused. A page of a book that isn't stored is refused before, in `verdict_on`.
pub(crate) fn page(
    alloc: Global,
    query: &PageQuery,
    book: &Book,
) -> Result<Result<(OpReply, Book), OpRefusal>, AllocError>
    ensures { IfOk result (λ answer. answer ≡ performed
        (done (OpReply.Page (listed query.now book.now) (next_of query.now book.now)) []) book.now) }
{
    let (entries, next) = book.page(alloc, query)?;
    Ok(Ok(pair_with(OpReply::Page(entries, next), book.clone())?))
}
