//! Puts an entry into the book, for `create` and `update`.

ghost use Rattle.std.specs.Prelude.{◌≡◌, IfOk};
ghost use Rattle.entry_book.specs.Rows.{at_revision};
ghost use Rattle.entry_book.specs.Book.{entry_at};
ghost use Rattle.entry_book.specs.Ops.{put_unless_similar, similar};
ghost use Rattle.plain_book.specs.Performed.{performed};

use crate::book::Book;
use entry_book::{Entry, NewEntry, OpRefusal, OpReply, Shared, pair_with};
use std::alloc::{AllocError, Global};

/// Adds the entry at this revision, or replaces the one with its id. Refused, in this order, if another entry is similar, or
/// if a domain has no bundle.
pub(crate) fn put_unless_similar(
    alloc: Global,
    new: &Shared<NewEntry>,
    revision: u64,
    book: &Book,
) -> Result<Result<(OpReply, Book), OpRefusal>, AllocError>
    ensures { IfOk result (λ answer. answer ≡ performed
        (put_unless_similar (similar (at_revision revision new.now) book.now) (entry_at new.now.id book.now)
        (at_revision revision new.now) book.now) book.now) }
{
    let given = new.get();
    if let Some(other) = book.similar(given) {
        return Ok(Err(OpRefusal::Similar(*other.id())));
    }
    if let Some(domain) = book.lacking(&given.domains) {
        return Ok(Err(OpRefusal::NoBundle(domain.clone()?)));
    }
    let entry = Entry::at_revision(new, revision)?;
    let reply = OpReply::Entry(entry.clone()?);
    Ok(Ok(pair_with(reply, book.with_entry(alloc, entry))?))
}
