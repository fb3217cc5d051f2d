//! What is a prepared commit?

ghost use Rattle.std.specs.Prelude.{◌≡◌};

use crate::item::Item;
use std::marker::Model;
use version_book::Version;

/// A commit that has passed its checks and needs no more memory: the item for the journal, and the version after its batch.
/// Both can be borrowed; the head that prepared the commit finishes it.
#[derive(Drop)]
pub struct Prepared {
    pub(crate) item: Item,
    pub(crate) version: Version,
}

impl Model for Prepared {
    ghost use Rattle.commit_head.specs.Heads.{Prepared};

    ghost Value = { Prepared };

    ghost view = { λ prepared. record {
      item = prepared.item;
      version = prepared.version;
    } };
}

impl Prepared {
    ghost use Rattle.std.specs.Prelude.{◌≡◌};

    /// Returns the item for the journal.
    pub fn item(&self) -> &Item
        ensures { result.now ≡ self.now.item }
    {
        &self.item
    }

    /// Returns the version for the window.
    pub fn version(&self) -> &Version
        ensures { result.now ≡ self.now.version }
    {
        &self.version
    }
}
