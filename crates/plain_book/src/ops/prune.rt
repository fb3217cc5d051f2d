//! `prune`: removes the entries that expire before a moment, in seconds since the epoch.

ghost use Rattle.std.specs.Prelude.{◌≡◌, IfOk, map};
ghost use Rattle.entry_book.specs.Rows.{entry_key};
ghost use Rattle.entry_book.specs.Book.{expired_before};
ghost use Rattle.entry_book.specs.Ops.{done, removed};
ghost use Rattle.plain_book.specs.Performed.{performed};

use crate::book::Book;
use crate::users::ids_of;
use entry_book::{OpRefusal, OpReply, Sequence};
use std::alloc::{AllocError, Global};

/// Never refused.
pub(crate) fn prune(
    alloc: Global,
    moment: u64,
    book: &Book,
) -> Result<Result<(OpReply, Book), OpRefusal>, AllocError>
    ensures { IfOk result (λ answer. answer ≡ performed
        (done (OpReply.Pruned (map entry_key (expired_before moment book.now)))
        (map removed (expired_before moment book.now))) book.now) }
{
    let expired = book.expired(alloc, moment)?;
    let after = book.without_all(alloc, expired.as_slice())?;
    let ids = ids_of(alloc, expired.as_slice())?;
    Ok(Ok((OpReply::Pruned(Sequence::of(ids)), after)))
}
