//! What does a batch write?

ghost use Rattle.std.specs.Prelude.{◌≡◌, IfOk};
ghost use Rattle.version_shelf.specs.Shelf.{ClonesEqual};

use entry_book::{Agent, Bundle, Entry, KeptBatch, Op, OpReply, Sequence, Shared};
use spiffe_name::{SpiffeId, TrustDomain};
use std::alloc::{AllocError, Global};
use std::marker::Model;
use uuid::Uuid;

/// The change of one row: its key, the row that was found there, and the row that is written. Either row may be absent.
#[derive(Drop)]
pub struct RowChange<K, T> {
    /// The row's key.
    pub key: K,
    /// The row that was found; `None` if there was none.
    pub old: Option<T>,
    /// The row that is written; `None` if it is removed.
    pub new: Option<T>,
}

/// Stores a batch under a token that wasn't in use. The place (commit number) is missing: other batches may commit first, so
/// the version that takes the write sets its own number.
#[derive(Drop)]
pub struct TokenWrite {
    /// The token, which is the key of the stored batch.
    pub token: Uuid,
    /// The batch's operations, in order.
    pub ops: Shared<Sequence<Op>>,
    /// The replies to the operations, in order.
    pub replies: Shared<Sequence<OpReply>>,
}

impl TokenWrite {
    ghost use Rattle.std.specs.Prelude.{◌≡◌, IfOk, None, Some};

    /// Returns the change of the stored batch, with this number as its place. The error is a reference count at its maximum.
    pub(crate) fn at_place(&self, place: u64) -> Result<RowChange<Uuid, KeptBatch>, AllocError>
        ensures { IfOk result (λ change. change ≡ record {
          key = self.now.token;
          old = None;
          new = Some (record { token = self.now.token; ops = self.now.ops; place = place; replies = self.now.replies });
        }) }
    {
        let kept = KeptBatch {
            token: self.token,
            ops: self.ops.clone()?,
            place,
            replies: self.replies.clone()?,
        };
        Ok(RowChange {
            key: self.token,
            old: None,
            new: Some(kept),
        })
    }
}

/// The write of one row, of any kind.
#[derive(Drop)]
pub enum RowWrite {
    /// The entry of an id.
    Entry(RowChange<Uuid, Entry>),
    /// The agent of an ID.
    Agent(RowChange<Shared<SpiffeId>, Agent>),
    /// The bundle of a trust domain.
    Bundle(RowChange<Shared<TrustDomain>, Bundle>),
    /// The batch stored under a token.
    Token(TokenWrite),
}

/// The writes of a batch, in order. Each has the row that it finds in the book that the earlier writes left, and the row that
/// it writes; either may be absent. `Version::apply` requires that the rows were found there. In the model, the write of a
/// token has the place 0, which no commit has.
#[derive(Drop)]
pub struct Changes {
    writes: Vec<RowWrite>,
}

impl Model for Changes {
    ghost use Rattle.std.specs.Prelude.{List, map};
    ghost use Rattle.entry_book.specs.Writes.{RowWrite};
    ghost use Rattle.version_book.specs.Written.{write_of};

    ghost Value = { List RowWrite };

    ghost view = { λ changes. map write_of changes.writes.items };
}

/// Clones the row, if there is one. The error is out of memory.
fn clone_row<T: Clone + Drop>(row: &Option<T>) -> Result<Option<T>, AllocError>
    requires clones { ClonesEqual T.is_clone }
    ensures { IfOk result (λ copy. copy ≡ row.now) }
{
    match row {
        Some(row) => Ok(Some(row.clone()?)),
        None => Ok(None),
    }
}

impl Clone for TokenWrite {
    ghost is_clone = { λ original copy. copy ≡ original };

    fn clone(&self) -> Result<TokenWrite, AllocError> {
        Ok(TokenWrite {
            token: self.token,
            ops: self.ops.clone()?,
            replies: self.replies.clone()?,
        })
    }
}

/// A clone of a write increments the reference counts of its parts, and copies no text. The error is a reference count at its
/// maximum.
impl Clone for RowWrite {
    ghost is_clone = { λ original copy. copy ≡ original };

    fn clone(&self) -> Result<RowWrite, AllocError> {
        Ok(match self {
            RowWrite::Entry(RowChange { key, old, new }) => {
                let (key, old, new) = (*key, clone_row(old)?, clone_row(new)?);
                RowWrite::Entry(RowChange { key, old, new })
            }
            RowWrite::Agent(RowChange { key, old, new }) => {
                let (key, old, new) = (key.clone()?, clone_row(old)?, clone_row(new)?);
                RowWrite::Agent(RowChange { key, old, new })
            }
            RowWrite::Bundle(RowChange { key, old, new }) => {
                let (key, old, new) = (key.clone()?, clone_row(old)?, clone_row(new)?);
                RowWrite::Bundle(RowChange { key, old, new })
            }
            RowWrite::Token(write) => RowWrite::Token(write.clone()?),
        })
    }
}

impl Changes {
    ghost use Rattle.std.specs.Prelude.{◌≡◌, ◌++◌, ◌∷◌, [], OnOk, OnErr, Some, map, length, ◌==◌};
    ghost use Rattle.entry_book.specs.History.{token_writes};
    ghost use Rattle.entry_book.specs.Writes.{wrote_agent, wrote_bundle, wrote_entry};
    ghost use Rattle.version_book.specs.Written.{write_of};

    /// Makes an empty list of writes. Allocates no memory.
    pub fn new(alloc: Global) -> Changes
        ensures { result ≡ [] }
    {
        Changes {
            writes: Vec::new(alloc),
        }
    }

    /// Returns the number of writes.
    pub fn len(&self) -> usize
        ensures { result ≡ length self.now }
    {
        self.writes.len()
    }

    /// Returns true if there are no writes.
    pub fn is_empty(&self) -> bool
        ensures { result ≡ (length self.now == 0) }
    {
        self.writes.is_empty()
    }

    /// Appends a write of the entry of an id. The error is out of memory, and then nothing has changed.
    pub fn put_entry(
        &mut self,
        id: Uuid,
        old: Option<Entry>,
        new: Option<Entry>,
    ) -> Result<(), AllocError>
        ensures put { OnOk result (self.new ≡ self.old ++ wrote_entry (record { key = id; old = old; new = new }) ∷ []) }
        ensures err { OnErr result (self.new ≡ self.old) }
    {
        let key = id;
        self.writes
            .push(RowWrite::Entry(RowChange { key, old, new }))?;
        Ok(())
    }

    /// Appends a write of the agent of an id. The error is out of memory, and then nothing has changed.
    pub fn put_agent(
        &mut self,
        id: Shared<SpiffeId>,
        old: Option<Agent>,
        new: Option<Agent>,
    ) -> Result<(), AllocError>
        ensures put { OnOk result (self.new ≡ self.old ++ wrote_agent (record { key = id; old = old; new = new }) ∷ []) }
        ensures err { OnErr result (self.new ≡ self.old) }
    {
        let key = id;
        self.writes
            .push(RowWrite::Agent(RowChange { key, old, new }))?;
        Ok(())
    }

    /// Appends a write of the bundle of a trust domain. The error is out of memory, and then nothing has changed.
    pub fn put_bundle(
        &mut self,
        domain: Shared<TrustDomain>,
        old: Option<Bundle>,
        new: Option<Bundle>,
    ) -> Result<(), AllocError>
        ensures put { OnOk result (self.new ≡ self.old ++ wrote_bundle (record { key = domain; old = old; new = new }) ∷ []) }
        ensures err { OnErr result (self.new ≡ self.old) }
    {
        let key = domain;
        self.writes
            .push(RowWrite::Bundle(RowChange { key, old, new }))?;
        Ok(())
    }

    /// Appends a write that stores a batch under its token, without a place. The error is out of memory, and then nothing has
    /// changed.
    pub fn put_token(
        &mut self,
        token: Uuid,
        ops: Shared<Sequence<Op>>,
        replies: Shared<Sequence<OpReply>>,
    ) -> Result<(), AllocError>
        ensures put { OnOk result (self.new ≡ self.old ++ token_writes (Some token) ops 0 replies) }
        ensures err { OnErr result (self.new ≡ self.old) }
    {
        let write = TokenWrite {
            token,
            ops,
            replies,
        };
        self.writes.push(RowWrite::Token(write))?;
        Ok(())
    }

    /// Appends other writes. The error is out of memory, and then nothing has changed.
    pub fn append(&mut self, others: Changes) -> Result<(), AllocError>
        ensures put { OnOk result (self.new ≡ self.old ++ others) }
        ensures err { OnErr result (self.new ≡ self.old) }
    {
        let Changes { mut writes } = others;
        self.writes.append(&mut writes)
    }

    /// Returns the writes, in order. Allocates no memory.
    pub fn writes(&self) -> &[RowWrite]
        ensures { map write_of result.now ≡ self.now }
    {
        self.writes.as_slice()
    }
}

/// A clone has the same writes. It shares their rows and copies no text. The error is out of memory.
impl Clone for Changes {
    ghost is_clone = { λ original copy. copy ≡ original };

    fn clone(&self) -> Result<Changes, AllocError> {
        Ok(Changes {
            writes: self.writes.clone()?,
        })
    }
}
