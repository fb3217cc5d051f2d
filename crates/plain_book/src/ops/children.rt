//! `children`: returns the entries of a parent.

ghost use Rattle.std.specs.Prelude.{◌≡◌, IfOk, []};
ghost use Rattle.entry_book.specs.Book.{children_of};
ghost use Rattle.entry_book.specs.Ops.{done};
ghost use Rattle.plain_book.specs.Performed.{performed};

use crate::book::Book;
use entry_book::{OpRefusal, OpReply, pair_with};
use spiffe_name::SpiffeId;
use std::alloc::{AllocError, Global};

/// Never refused.
pub(crate) fn children(
    alloc: Global,
    parent: &SpiffeId,
    book: &Book,
) -> Result<Result<(OpReply, Book), OpRefusal>, AllocError>
    ensures { IfOk result (λ answer. answer ≡ performed
        (done (OpReply.Entries (children_of parent.now book.now)) []) book.now) }
{
    let entries = book.children(alloc, parent)?;
    Ok(Ok(pair_with(OpReply::Entries(entries), book.clone())?))
}
