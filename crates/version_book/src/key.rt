//! What are the keys of a version's indexes?
//!
//! An index has the rows of a read next to one another: those of a parent, of a parent and an identity, of a trust domain, or
//! those that expire before a moment. The range of all parents has all entries. The last part of each key is the entry's id.

use entry_book::Shared;
use spiffe_name::{SpiffeId, TrustDomain};
use uuid::Uuid;

/// A part of a key: a value, the start before all values, or the end after all values. Keys of rows have values only; starts
/// and ends are in the bounds of ranges.
#[derive(Clone, Drop, PartialEq, Eq, PartialOrd, Ord)]
pub(crate) enum KeyPart<T> {
    Start,
    At(T),
    End,
}

/// The parent, the identity and the id of an entry.
pub(crate) type GroupKey = (
    KeyPart<Shared<SpiffeId>>,
    KeyPart<Shared<SpiffeId>>,
    KeyPart<Uuid>,
);

/// A trust domain that an entry names, and the entry's id.
pub(crate) type UserKey = (Shared<TrustDomain>, KeyPart<Uuid>);

/// The expiry of an entry, in seconds since the epoch and above 0, and the entry's id.
pub(crate) type ExpiryKey = (u64, KeyPart<Uuid>);
