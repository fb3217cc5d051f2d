//! Where is an item in a sorted vector, and how is it put there?

ghost use Rattle.std.specs.Prelude.{◌≡◌, ◌≤◌, ◌<◌, ◌+◌, IfOk, IsOk, List, OnOk, Some, bytes_eq, not, vec_len, ℕ};
ghost use Rattle.std.specs.Cmp.Lexicographic.{slice_cmp};
ghost use Rattle.std.specs.List.{list_any};
ghost use Rattle.std.specs.Ordering.{nat_cmp};
ghost use Rattle.std.specs.Vec.{vec_capacity};
ghost use Rattle.entry_book.specs.Order.{Ascending, with_row};
ghost use Rattle.entry_book.specs.Rows.{entry_key};
ghost use Rattle.batch_work.specs.Ranks.{IsRank};

use entry_book::{Entry, Shared};
use spiffe_name::SpiffeId;
use std::alloc::AllocError;
use std::cmp::Ordering;
use version_book::Borrowed;

/// An item of a sorted set. It has a key, by whose bytes the set is ordered.
pub(crate) trait Keyed: Drop {
    ghost key: { Self → List ℕ };

    /// Compares its key with that of another item.
    fn compare(&self, other: &Self) -> Ordering
        ensures { result ≡ slice_cmp nat_cmp (key self.now) (key other.now) };
}

impl Keyed for Shared<SpiffeId> {
    ghost key = { λ id. id };

    fn compare(&self, other: &Shared<SpiffeId>) -> Ordering {
        self.cmp(other)
    }
}

impl Keyed for Entry {
    ghost key = { entry_key };

    fn compare(&self, other: &Entry) -> Ordering {
        self.id().cmp(other.id())
    }
}

/// A borrowed item has the key of the item.
impl<'a, T: Keyed + 'a> Keyed for Borrowed<'a, T> {
    ghost key = { T.key };

    fn compare(&self, other: &Borrowed<'a, T>) -> Ordering {
        self.get().compare(other.get())
    }
}

/// Returns the index of the item with this one's key, or as an error the index at which it belongs. It is a binary search.
fn rank_of<T: Keyed>(set: &[T], item: &T) -> Result<usize, usize>
    requires order { Ascending T.key set.now }
    ensures { IsRank T.key set.now (T.key item.now) result }
{
    set.binary_search_by(|other| other.compare(item))
}

/// Returns true if the set has an item with this one's key.
pub(crate) fn has<T: Keyed>(set: &[T], item: &T) -> bool
    requires order { Ascending T.key set.now }
    ensures { result ≡ list_any (λ other. bytes_eq (T.key other) (T.key item.now)) set.now }
{
    match rank_of(set, item) {
        Ok(_) => true,
        Err(_) => false,
    }
}

/// Puts the item into the set, in place of the one with its key. Returns true if there was none. The error is out of memory; it
/// can't occur if the set has room.
pub(crate) fn put<T: Keyed>(set: &mut Vec<T>, item: T) -> Result<bool, AllocError>
    requires order { Ascending T.key set.old.items }
    ensures is_new { IfOk result (λ is_new. is_new ≡ not (list_any (λ other. bytes_eq (T.key other) (T.key item)) set.old.items)) }
    ensures put { OnOk result (set.new.items ≡ with_row T.key (T.key item) (Some item) set.old.items) }
    ensures order { Ascending T.key set.new.items }
    ensures room { vec_len set.old < vec_capacity set.old → IsOk result }
    ensures len { vec_len set.new ≤ vec_len set.old + 1 }
    ensures capacity { vec_capacity set.old ≤ vec_capacity set.new }
{
    match rank_of(set.as_slice(), &item) {
        Ok(index) => {
            set[index] = item;
            Ok(false)
        }
        Err(index) => {
            set.insert(index, item)?;
            Ok(true)
        }
    }
}

/// Puts the item into the set, which has room for it, in place of the one with its key. Returns true if there was none.
/// Allocates no memory.
pub(crate) fn put_reserved<T: Keyed>(set: &mut Vec<T>, item: T) -> bool
    requires order { Ascending T.key set.old.items }
    requires room { vec_len set.old < vec_capacity set.old }
    ensures is_new { result ≡ not (list_any (λ other. bytes_eq (T.key other) (T.key item)) set.old.items) }
    ensures put { set.new.items ≡ with_row T.key (T.key item) (Some item) set.old.items }
    ensures len { vec_len set.new ≤ vec_len set.old + 1 }
    ensures capacity { vec_capacity set.old ≤ vec_capacity set.new }
{
    let Ok(is_new) = put(set, item) else {
        unreachable!()
    };
    is_new
}
