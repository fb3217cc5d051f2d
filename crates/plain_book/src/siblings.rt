//! Which entries have the same parent?

ghost use Rattle.std.specs.Prelude.{◌≡◌};

use crate::row::BookRow;
use crate::rows::Rows;
use entry_book::{Entry, Shared};
use spiffe_name::SpiffeId;
use std::alloc::AllocError;

/// A parent and its entries: a row of the list of all parents.
#[derive(Drop)]
pub(crate) struct Siblings {
    pub(crate) parent: Shared<SpiffeId>,
    pub(crate) entries: Rows<Entry>,
}

impl BookRow for Siblings {
    ghost key = { λ siblings. siblings.parent };

    fn key(&self) -> &[u8] {
        self.parent.get().as_str().as_bytes()
    }

    fn duplicate(&self) -> Result<Self, AllocError> {
        Ok(Siblings {
            parent: self.parent.clone()?,
            entries: self.entries.clone()?,
        })
    }
}
