//! What does a book store for a batch that was committed with a token?

ghost use Rattle.std.specs.Prelude.{◌≡◌};

use crate::op::Op;
use crate::reply::OpReply;
use crate::same::is_same_ops;
use crate::sequence::Sequence;
use crate::shared::Shared;
use std::alloc::AllocError;
use uuid::Uuid;

/// A batch that was committed with a token. A clone shares the operations and the replies.
#[derive(Drop)]
pub struct KeptBatch {
    /// The token, which is its key.
    pub token: Uuid,
    /// The batch's operations, in order.
    pub ops: Shared<Sequence<Op>>,
    /// The number of the book that the batch added.
    pub place: u64,
    /// The replies to the operations, in order.
    pub replies: Shared<Sequence<OpReply>>,
}

impl KeptBatch {
    ghost use Rattle.std.specs.Prelude.{◌≡◌};
    ghost use Rattle.entry_book.specs.SameOps.{ops_eq};

    /// Returns true if these are the batch's operations.
    pub fn has_ops(&self, ops: &[Op]) -> bool
        ensures { result ≡ ops_eq self.now.ops ops.now }
    {
        is_same_ops(self.ops.get().as_slice(), ops)
    }
}

impl Clone for KeptBatch {
    ghost is_clone = { λ original copy. copy ≡ original };

    fn clone(&self) -> Result<KeptBatch, AllocError> {
        Ok(KeptBatch {
            token: self.token,
            ops: self.ops.clone()?,
            place: self.place,
            replies: self.replies.clone()?,
        })
    }
}
