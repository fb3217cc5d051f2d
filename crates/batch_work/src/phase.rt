//! What is the state of an operation between two reads?

use crate::walk::Walk;
use entry_book::{Agent, Bundle, DropMode, Entry, OpRefusal, OpReply, Sequence, Shared};
use spiffe_name::{SpiffeId, TrustDomain};
use version_book::Changes;

/// What the operation returns: the authorised entries, or the bundles of the domains that they name.
#[derive(Clone, Copy, Drop)]
pub(crate) enum WalkFor {
    Entries,
    Bundles,
}

/// The next read of an operation, with what its earlier reads have found.
#[derive(Drop)]
pub(crate) enum Phase {
    /// The operation's first read.
    First,
    /// The group of an entry (the second) that is to be put in place of the old one, if there is one.
    Group(Option<Entry>, Entry),
    /// The bundle of a domain of this entry (the second); the number is the index of the domain after it.
    Bundle(Option<Entry>, Entry, Shared<TrustDomain>, usize),
    /// The users of this bundle, which is to be dropped.
    Users(Bundle, DropMode),
    /// The children of the server.
    Server(WalkFor, Agent),
    /// The agent's own children; the walk has found the aliases that the agent holds.
    OfAgent(WalkFor, Walk),
    /// The children of an identity, which is no longer pending.
    Identity(WalkFor, Walk, Shared<SpiffeId>),
    /// The bundle of a domain that authorised entries name; all these domains, the index of the one after it, and the bundles
    /// found.
    Trusted(Shared<TrustDomain>, Sequence<Shared<TrustDomain>>, usize, Sequence<Bundle>),
}

/// What comes after a read.
#[derive(Drop)]
pub(crate) enum Next {
    /// Another read.
    Continues(Phase),
    /// The operation has ended, with this reply and these writes.
    Ends(OpReply, Changes),
    /// The operation is refused.
    Refused(OpRefusal),
}
