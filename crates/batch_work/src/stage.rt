//! What is the state of a work between two steps?

use crate::phase::{Next, Phase};
use entry_book::{KeptBatch, OpReply, Reply, Sequence, Shared};
use spiffe_name::SpiffeId;
use uuid::Uuid;
use version_book::{Changes, Mark, Version};

/// What a work began on: the newest version of its window, and the server's ID. If its batch asks for an earlier book that is
/// there, also the version of that book.
#[derive(Drop)]
pub(crate) struct Begun {
    pub(crate) newest: Version,
    pub(crate) earlier: Option<Version>,
    pub(crate) server: Shared<SpiffeId>,
}

/// What a work has recorded: the marks that it read, and the writes and the replies of the operations that have ended.
#[derive(Drop)]
pub(crate) struct Progress {
    pub(crate) marks: Vec<Mark>,
    pub(crate) changes: Changes,
    pub(crate) replies: Vec<OpReply>,
}

/// What a read has found.
#[derive(Drop)]
pub(crate) enum Found {
    /// What comes next in this operation, counted from 0.
    Op(usize, Next),
    /// The batch stored under the token, if there is one.
    Kept(Option<KeptBatch>),
    /// The book that a page asks for is gone, or not there yet.
    Gone,
}

/// The state of a work.
#[derive(Drop)]
pub(crate) enum Stage {
    New,
    /// The next read is the batch stored under the token.
    Token(Uuid),
    /// The next read is all entries of a book that isn't there.
    Gone,
    /// The next read is one of this operation, counted from 0.
    At(usize, Phase),
    /// A read was made, and is still to be recorded.
    Read(Mark, Found),
    /// The changes await their commit; these are the replies.
    Ready(Shared<Sequence<OpReply>>),
    /// Nothing is left to do; this is the reply.
    Settled(Reply),
}
