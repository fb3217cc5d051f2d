//! Where do the keys of a parent's entries begin, and where do they end?

use crate::key::{GroupKey, KeyPart};
use entry_book::Shared;
use spiffe_name::SpiffeId;
use std::cmp::Ordering;
use version_shelf::Bound;

/// The bound before the keys of a parent's entries. It borrows the parent's ID, so that no reference count is incremented for a
/// key.
#[derive(Drop)]
pub(crate) struct ParentStart<'a> {
    pub(crate) parent: &'a Shared<SpiffeId>,
}

/// The bound after the keys of a parent's entries.
#[derive(Drop)]
pub(crate) struct ParentEnd<'a> {
    pub(crate) parent: &'a Shared<SpiffeId>,
}

impl Bound<GroupKey> for ParentStart<'_> {
    ghost use Rattle.version_book.specs.declared.key.KeyPart.TheVariants.{Start, At};

    ghost position = { λ start. (At start.parent.now, Start, Start) };

    fn is_above(&self, key: &GroupKey) -> bool {
        match &key.0 {
            KeyPart::Start => true,
            KeyPart::At(parent) => parent.cmp(self.parent).is_lt(),
            KeyPart::End => false,
        }
    }
}

impl Bound<GroupKey> for ParentEnd<'_> {
    ghost use Rattle.version_book.specs.declared.key.KeyPart.TheVariants.{At, End};

    ghost position = { λ end. (At end.parent.now, End, End) };

    fn is_above(&self, key: &GroupKey) -> bool {
        match &key.0 {
            KeyPart::Start => true,
            KeyPart::At(parent) => match parent.cmp(self.parent) {
                Ordering::Less => true,
                Ordering::Equal => {
                    let identity = key.1.cmp(&KeyPart::End);
                    identity.then(key.2.cmp(&KeyPart::End)).is_lt()
                }
                Ordering::Greater => false,
            },
            KeyPart::End => false,
        }
    }
}
