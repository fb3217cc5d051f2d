//! How does a batch run its operations on a book?

ghost use Rattle.std.specs.Prelude.{◌≡◌, ◌++◌, ◌∷◌, ◌^◌, [], IfOk};
ghost use Rattle.entry_book.specs.Lawful.{Lawful};
ghost use Rattle.entry_book.specs.Runs.{run};
ghost use Rattle.plain_book.specs.Performed.{ran};

use crate::book::Book;
use crate::ops::perform;
use entry_book::{Batch, OpRefusal, OpReply, Sequence, pair_with};
use std::alloc::{AllocError, Global};

/// The outcome of running the operations of a batch.
#[derive(Drop)]
pub(crate) enum BatchRun {
    /// All were accepted: the replies in order, and the book after them.
    Accepted(Sequence<OpReply>, Book),
    /// The operation at this index, counted from 0, was refused.
    RefusedAt(usize, OpRefusal),
}

/// Runs the operations of a batch in order, each on the book after the earlier ones, up to the first refusal. The
/// precondition ensures that revisions and sequences don't overflow. The error is out of memory.
pub(crate) fn run_ops(alloc: Global, batch: &Batch, book: &Book) -> Result<BatchRun, AllocError>
    requires lawful { Lawful batch.now.domain (2 ^ 62) book.now }
    ensures { IfOk result
        (λ outcome. outcome ≡ ran book.now (run batch.now.domain batch.now.ops book.now)) }
{
    let mut current = book.clone()?;
    let mut replies = Sequence::empty(alloc);
    for (index, op) in batch.ops().iter().enumerate() {
        let answer = perform(alloc, batch.domain(), op, &current);
        drop(current);
        let (replied, answer) = pair_with(replies, answer)?;
        match answer {
            Err(refusal) => {
                drop(replied);
                return Ok(BatchRun::RefusedAt(index, refusal));
            }
            Ok((reply, after)) => {
                let (next, more) = pair_with(after, with_item(replied, reply))?;
                current = next;
                replies = more;
            }
        }
    }
    Ok(BatchRun::Accepted(replies, current))
}

/// Appends an item. The error is out of memory.
fn with_item<T: Drop>(mut items: Sequence<T>, item: T) -> Result<Sequence<T>, AllocError>
    ensures { IfOk result (λ more. more ≡ items ++ item ∷ []) }
{
    items.push(item)?;
    Ok(items)
}
