//! On which versions can a work begin?

ghost use Rattle.std.specs.Prelude.{◌≡◌, ◌++◌, ◌∷◌, [], Some, map, slice_get};
ghost use Rattle.std.specs.Option.{option_copied};
ghost use Rattle.batch_work.specs.WindowSlots.{held};
ghost use Rattle.batch_work.specs.Windows.{ending};

use crate::versioned::Versioned;
use arrayvec::ArrayVec;
use std::alloc::AllocError;
use std::marker::Model;
use std::mem;
use version_book::Version;

/// Appends an item, and keeps only the last 63.
fn push_last<T: Default + Drop>(items: &mut ArrayVec<T, 63>, item: T)
    ensures { items.new.items ≡ ending 63 (items.old.items ++ item ∷ []) }
{
    if items.is_full() {
        items.remove(0);
    }
    items.push(item);
}

/// Returns the version in the slot with this index, if there is one.
pub(crate) fn version_in(slots: &[Option<Version>], index: usize) -> Option<&Version>
    requires held { slots.now ≡ map Some (held slots.now) }
    ensures { option_copied result ≡ slice_get (held slots.now) index }
{
    match slots.get(index) {
        Some(Some(version)) => Some(version),
        _ => None,
    }
}

/// The last versions of one history: the newest one, and up to 63 before it. The model in contracts is a record of the older
/// versions, oldest first, and the newest one.
///
/// A work begins on a window. Its batch reads the newest version, or, if its page names an earlier book, the version with that
/// number, if it is still here. The numbers of the versions are consecutive, so that a version is found by its number without a
/// search.
///
/// No call allocates memory: the window contains the slots for its versions, and moving it moves them all. Once there are 63
/// older versions, a push shifts them by one slot and drops the oldest one; it copies none. A clone increments the reference
/// count of each version, so that it stays the same while the owner of the original pushes.
#[derive(Drop)]
pub struct Window {
    // no slot in use is empty; `Option` supplies the default for the unused ones, because making a version allocates memory
    older: ArrayVec<Option<Version>, 63>,
    newest: Version,
}

impl Model for Window {
    ghost use Rattle.batch_work.specs.Windows.{Window};
    ghost use Rattle.batch_work.specs.WindowSlots.{AreKept, held};

    ghost Value = { Window };

    ghost view = { λ window. record {
      older = held window.older.items;
      newest = window.newest;
    } };

    ghost invariant = { λ window. AreKept window.older.items window.newest };
}

impl Window {
    ghost use Rattle.std.specs.Prelude.{◌≡◌, []};
    ghost use Rattle.batch_work.specs.Windows.{IsNextVersion, pushed};

    /// Makes the window with this version alone.
    pub fn of(version: Version) -> Window
        ensures { result ≡ record { older = []; newest = version } }
    {
        Window {
            older: ArrayVec::new(),
            newest: version,
        }
    }

    /// Adds the next version: that of the same trust domain with the next number. It drops the oldest one if there are 64.
    pub fn push(&mut self, version: Version)
        requires next { IsNextVersion self.old.newest version }
        ensures { self.new ≡ pushed version self.old }
    {
        let before = mem::replace(&mut self.newest, version);
        push_last(&mut self.older, Some(before));
    }
}

impl Versioned for Window {
    ghost window = { λ window. window };

    fn newest(&self) -> &Version {
        &self.newest
    }

    fn back(&self, steps: u64) -> Option<&Version> {
        let count = self.older.as_slice().len() as u64;
        if steps > count {
            return None;
        }
        version_in(self.older.as_slice(), (count - steps) as usize)
    }
}

/// A clone shares the versions and increments the reference count of each. The error is a reference count at its maximum.
impl Clone for Window {
    ghost is_clone = { λ original copy. copy ≡ original };

    fn clone(&self) -> Result<Window, AllocError> {
        Ok(Window {
            older: self.older.clone()?,
            newest: self.newest.clone()?,
        })
    }
}
