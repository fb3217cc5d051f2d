//! What does a journal store of a commit?

use entry_book::{Batch, OpReply, Sequence, Shared};
use version_book::Changes;

/// A committed batch: who submitted it, the replies to its operations, and its writes.
#[derive(Drop)]
pub struct Item {
    /// The number of the seat that submitted it.
    pub seat: u32,
    /// The call number, which the seat gave it.
    pub call: u64,
    /// The batch.
    pub batch: Batch,
    /// The replies to its operations, in order.
    pub replies: Shared<Sequence<OpReply>>,
    /// Its writes, in order. The batch that they store under a token has the place 0.
    pub changes: Changes,
}
