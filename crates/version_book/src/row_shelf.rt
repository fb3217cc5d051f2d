//! How is a set of rows stored that marks name only by their keys?

ghost use Rattle.std.specs.Prelude.{◌≡◌, ◌≤◌, ◌+◌, IfOk, IfSome, length, option_map};
ghost use Rattle.version_shelf.specs.Shelf.{ClonesEqual, with_key, without_key, most_rows};
ghost use Rattle.version_book.specs.CommittedRows.{numbered};
ghost use Rattle.version_book.specs.Stores.{shelf_after};

use crate::changes::RowChange;
use crate::committed_row::{CommittedRow, borrowed, is_same_row, row_alone};
use crate::mark::Mark;
use crate::row::KeyedRow;
use std::alloc::{AllocError, Global};
use std::marker::Model;
use version_shelf::Shelf;

/// The rows of a set, each under its own key. The model in contracts is the list of rows with their commit numbers, in the
/// order of their keys.
#[derive(Drop)]
pub(crate) struct RowShelf<K: Ord, T: KeyedRow<K>> {
    rows: Shelf<K, CommittedRow<T>>,
}

impl<K: Ord, T: KeyedRow<K>> Model for RowShelf<K, T> {
    ghost use Rattle.std.specs.Prelude.{List};
    ghost use Rattle.std.specs.Map.{values_of};
    ghost use Rattle.version_book.specs.declared.committed_row.CommittedRow.{CommittedRow as NumberedRow};
    ghost use Rattle.version_book.specs.Stores.{IsKeyed, by_bytes};

    ghost Value = { List (NumberedRow T) };

    ghost view = { λ shelf. values_of shelf.rows };

    ghost invariant = { λ shelf. IsKeyed T.key (by_bytes T.bytes shelf.rows) };
}

impl<K: Ord + Clone + Drop, T: KeyedRow<K> + Clone> RowShelf<K, T> {
    ghost use Rattle.std.specs.Prelude.{◌≡◌, ◌≤◌, [], IfOk, IfSome, IsTrue, bytes_eq, filter, length, map, option_map};
    ghost use Rattle.std.specs.Option.{option_copied};
    ghost use Rattle.entry_book.specs.Order.{Ascending, first, with_row};
    ghost use Rattle.version_book.specs.CommittedRows.{numbered, of_row, row_of};
    ghost use Rattle.version_book.specs.Stores.{IdentifyRows};
    ghost use Rattle.version_shelf.specs.Shelf.{ClonesEqual, most_rows};

    /// Makes an empty set. Allocates no memory.
    pub(crate) fn empty(alloc: Global) -> RowShelf<K, T>
        ensures { result ≡ [] }
    {
        RowShelf {
            rows: Shelf::new(alloc),
        }
    }

    /// Returns a clone of the set. The error is a reference count at its maximum.
    pub(crate) fn duplicate(&self) -> Result<RowShelf<K, T>, AllocError>
        ensures { IfOk result (λ shelf. shelf ≡ self.now) }
    {
        Ok(RowShelf {
            rows: self.rows.clone()?,
        })
    }

    /// Returns the number of rows.
    pub(crate) fn len(&self) -> usize
        ensures count { result ≡ length self.now }
        ensures order { Ascending (of_row T.key) self.now }
    {
        self.rows.len()
    }

    /// Returns the rows after a change of one of them by this commit. The error is out of memory.
    pub(crate) fn after(
        self,
        change: &RowChange<K, T>,
        commit: u64,
    ) -> Result<RowShelf<K, T>, AllocError>
        requires keys { ClonesEqual K.is_clone }
        requires rows { ClonesEqual T.is_clone }
        requires keyed { IfSome change.now.new (λ new. T.key new ≡ T.bytes change.now.key) }
        requires room { IfSome change.now.new (λ new. length (with_row T.key (T.bytes change.now.key) change.now.new (map row_of self)) ≤ most_rows) }
        ensures { IfOk result (λ shelf. shelf ≡ with_row (of_row T.key) (T.bytes change.now.key) (option_map (numbered commit) change.now.new) self) }
    {
        let RowShelf { rows } = self;
        let rows = after_change(rows, change, commit)?;
        Ok(RowShelf { rows })
    }

    /// Returns the row of a key, if there is one. Allocates no memory.
    pub(crate) fn get(&self, key: &K) -> Option<&T>
        ensures { option_copied result ≡ first (filter (λ row. bytes_eq (T.key row) (T.bytes key.now)) (map row_of self.now)) }
    {
        borrowed(self.rows.get(key))
    }

    /// Returns a list of the row that a mark names; it is empty if the mark names no row of this set. The error is out of
    /// memory.
    pub(crate) fn at(&self, alloc: Global, mark: &Mark) -> Result<Vec<T>, AllocError>
        requires { ClonesEqual T.is_clone }
        ensures { IfOk result (λ found. found.items ≡ filter (T.names mark.now) (map row_of self.now)) }
    {
        match T::key_in(mark) {
            Some(key) => row_alone(alloc, self.rows.get(key)),
            None => Ok(Vec::new(alloc)),
        }
    }

    /// Returns true if both sets have a row at a mark that was last written by the same commit, or neither has one. In one
    /// history, true implies that the rows are equal.
    pub(crate) fn is_same_at(&self, older: &RowShelf<K, T>, mark: &Mark) -> bool
        ensures same { filter (of_row (T.names mark.now)) older.now ≡ filter (of_row (T.names mark.now)) self.now → IsTrue result }
        ensures is_exact { IdentifyRows T.key older.now self.now → IsTrue result
            → filter (of_row (T.names mark.now)) older.now ≡ filter (of_row (T.names mark.now)) self.now }
    {
        match T::key_in(mark) {
            Some(key) => is_same_row(older.rows.get(key), self.rows.get(key)),
            None => true,
        }
    }
}

/// Returns the shelf with a row under a key, in place of the one that has this key. If the shelf is full, that one is removed
/// first, which makes room. The error is out of memory.
pub(crate) fn put_row<K: Ord + Clone + Drop, T: Clone + Drop>(
    shelf: Shelf<K, CommittedRow<T>>,
    key: K,
    row: CommittedRow<T>,
) -> Result<Shelf<K, CommittedRow<T>>, AllocError>
    requires keys { ClonesEqual K.is_clone }
    requires rows { ClonesEqual T.is_clone }
    requires room { length (without_key K.cmp shelf key) + 1 ≤ most_rows }
    ensures { IfOk result (λ more. more ≡ with_key K.cmp shelf key row) }
{
    if shelf.has_room() {
        return shelf.into_with(key, row);
    }
    shelf.into_without(&key)?.into_with(key, row)
}

/// Returns the shelf after a change of one row by this commit. The error is out of memory.
fn after_change<K: Ord + Clone + Drop, T: Clone + Drop>(
    shelf: Shelf<K, CommittedRow<T>>,
    change: &RowChange<K, T>,
    commit: u64,
) -> Result<Shelf<K, CommittedRow<T>>, AllocError>
    requires keys { ClonesEqual K.is_clone }
    requires rows { ClonesEqual T.is_clone }
    requires room { IfSome change.now.new (λ new. length (without_key K.cmp shelf change.now.key) + 1 ≤ most_rows) }
    ensures { IfOk result (λ after. after ≡ shelf_after K.cmp change.now.key (option_map (numbered commit) change.now.new) shelf) }
{
    match &change.new {
        Some(new) => {
            let row = new.clone()?;
            put_row(shelf, change.key.clone()?, CommittedRow { row, commit })
        }
        None => shelf.into_without(&change.key),
    }
}
