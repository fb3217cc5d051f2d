//! How is an index of entries searched and updated?
//!
//! An index is a shelf with an entry's row under each of its keys. The last part of a key is the entry's id.

ghost use Rattle.std.specs.Prelude.{◌≡◌, ◌+◌, ◌≤◌, ◌↔◌, Bool, List, None, Some, IfOk, IsTrue, filter, length, map};
ghost use Rattle.entry_book.specs.Order.{Ascending, Within, with_row};
ghost use Rattle.entry_book.specs.Rows.{Entry as EntryRow, entry_key};
ghost use Rattle.version_shelf.specs.Shelf.{ClonesEqual, IsInOrder, most_rows, rows_between};
ghost use Rattle.version_book.specs.declared.committed_row.CommittedRow.{CommittedRow as NumberedRow};
ghost use Rattle.version_book.specs.CommittedRows.{of_row, row_of};
ghost use Rattle.version_book.specs.Index.{AreThere, Covers, IsIndex, KeysIdentify, IsExactOrder};
ghost use Rattle.version_book.specs.Stores.{IsAbsent, stamps};

use crate::borrowed::{Borrowed, owned};
use crate::committed_row::CommittedRow;
use crate::row_shelf::put_row;
use entry_book::Entry;
use std::alloc::{AllocError, Global};
use version_shelf::{Bound, Shelf};

/// The capacity that is reserved for the entries of a range when the first one is found. Most parents have no more.
const FEW: usize = 16;

/// Returns the index without these keys, which must be those of a removed row. The error is out of memory.
pub(crate) fn without_keys<K: Ord + Clone + Drop>(
    index: Shelf<K, CommittedRow<Entry>>,
    keys: &[K],
) -> Result<Shelf<K, CommittedRow<Entry>>, AllocError>
    requires clones { ClonesEqual K.is_clone }
    requires is_exact { IsExactOrder K.cmp }
    ensures { IfOk result (λ rest. (keys_of : EntryRow → List K) (rows : List (NumberedRow EntryRow)) (old : NumberedRow EntryRow)
        → KeysIdentify keys_of → Ascending (of_row entry_key) rows → IsIndex keys_of rows index → Within rows old → keys.now ≡ keys_of old.row
        → IsIndex keys_of (with_row (of_row entry_key) old.row.id None rows) rest) }
{
    let mut rest = index;
    for key in keys {
        rest = rest.into_without(key)?;
    }
    Ok(rest)
}

/// Returns the index with a row under these keys, which must be those of the row. The error is out of memory.
pub(crate) fn with_keys<K: Ord + Clone + Drop>(
    index: Shelf<K, CommittedRow<Entry>>,
    keys: Vec<K>,
    row: &CommittedRow<Entry>,
) -> Result<Shelf<K, CommittedRow<Entry>>, AllocError>
    requires clones { ClonesEqual K.is_clone }
    requires is_exact { IsExactOrder K.cmp }
    requires room { IsInOrder K.cmp index → length index + length keys.items ≤ most_rows }
    ensures { IfOk result (λ more. (keys_of : EntryRow → List K) (rows : List (NumberedRow EntryRow))
        → KeysIdentify keys_of → IsAbsent entry_key row.now.row.id rows → IsIndex keys_of rows index → keys.items ≡ keys_of row.now.row
        → IsIndex keys_of (with_row (of_row entry_key) row.now.row.id (Some row.now) rows) more) }
{
    in_order(&index);
    let mut more = index;
    for key in keys {
        more = more.into_with(key, row.clone()?)?;
    }
    Ok(more)
}

/// Returns the index with a row under these keys, in place of the rows under them, which must be those of the old row with its
/// id. The error is out of memory.
pub(crate) fn replace_keys<K: Ord + Clone + Drop>(
    index: Shelf<K, CommittedRow<Entry>>,
    keys: Vec<K>,
    row: &CommittedRow<Entry>,
) -> Result<Shelf<K, CommittedRow<Entry>>, AllocError>
    requires clones { ClonesEqual K.is_clone }
    requires is_exact { IsExactOrder K.cmp }
    requires there { AreThere keys.items index }
    ensures { IfOk result (λ new. (keys_of : EntryRow → List K) (rows : List (NumberedRow EntryRow)) (old : NumberedRow EntryRow)
        → KeysIdentify keys_of → Ascending (of_row entry_key) rows → IsIndex keys_of rows index → Within rows old
        → old.row.id ≡ row.now.row.id → keys_of old.row ≡ keys_of row.now.row → keys.items ≡ keys_of row.now.row
        → IsIndex keys_of (with_row (of_row entry_key) row.now.row.id (Some row.now) rows) new) }
{
    let mut new = index;
    for key in keys {
        in_order(&new);
        new = put_row(new, key, row.clone()?)?;
    }
    Ok(new)
}

/// The rows of an index are in strictly ascending order of their keys, and fit in a shelf. The function only brings these facts
/// into a proof.
fn in_order<K: Ord + Clone>(index: &Shelf<K, CommittedRow<Entry>>)
    ensures order { IsInOrder K.cmp index.now }
    ensures most { length index.now ≤ most_rows }
{
    // its contract says that the rows are in order and fit in a shelf
    let _ = index.len();
}

/// Returns the entries with keys `lo <= key < hi`, borrowed, in the order of their ids. The error is out of memory.
pub(crate) fn borrowed_between<'a, K: Ord + Clone, L: Bound<K>, H: Bound<K>>(
    alloc: Global,
    index: &'a Shelf<K, CommittedRow<Entry>>,
    lo: &L,
    hi: &H,
) -> Result<Vec<Borrowed<'a, Entry>>, AllocError>
    ensures { IfOk result (λ found. (keys_of : EntryRow → List K) (rows : List (NumberedRow EntryRow)) (p : EntryRow → Bool)
        → IsIndex keys_of rows index.now → Covers K.cmp keys_of (L.position lo.now) (H.position hi.now) p → Ascending (of_row entry_key) rows
        → found.items ≡ filter p (map row_of rows)) }
{
    let mut found = Vec::new(alloc);
    for (_, row) in index.range(lo, hi) {
        if found.is_empty() {
            found.reserve(FEW)?;
        }
        found.push(Borrowed::of(&row.row))?;
    }
    found.sort_by_key(|entry| *entry.get().id())?;
    Ok(found)
}

/// Returns the entries with keys `lo <= key < hi`, in the order of their ids. The error is out of memory.
pub(crate) fn entries_between<K: Ord + Clone>(
    alloc: Global,
    index: &Shelf<K, CommittedRow<Entry>>,
    lo: &K,
    hi: &K,
) -> Result<Vec<Entry>, AllocError>
    ensures { IfOk result (λ found. (keys_of : EntryRow → List K) (rows : List (NumberedRow EntryRow)) (p : EntryRow → Bool)
        → IsIndex keys_of rows index.now → Covers K.cmp keys_of lo.now hi.now p → Ascending (of_row entry_key) rows
        → found.items ≡ filter p (map row_of rows)) }
{
    let found = borrowed_between(alloc, index, lo, hi)?;
    let entries = owned(alloc, found.as_slice());
    drop(found);
    entries
}

/// Returns true if both indexes have the same entry ids in the range `lo <= key < hi`, in the same order. Each entry must also
/// have been last written by the same commit in both.
pub(crate) fn same_between<K: Ord + Clone>(
    one: &Shelf<K, CommittedRow<Entry>>,
    other: &Shelf<K, CommittedRow<Entry>>,
    lo: &K,
    hi: &K,
) -> bool
    ensures same { IsTrue result ↔ (stamps (rows_between K.cmp one.now lo.now hi.now)
        ≡ stamps (rows_between K.cmp other.now lo.now hi.now)) }
    ensures order { IsInOrder K.cmp (rows_between K.cmp one.now lo.now hi.now)
        × IsInOrder K.cmp (rows_between K.cmp other.now lo.now hi.now) }
{
    let mut others = other.range(lo, hi);
    for (_, row) in one.range(lo, hi) {
        let Some((_, other)) = others.next() else {
            return false;
        };
        if !is_same(row, other) {
            return false;
        }
    }
    others.next().is_none()
}

/// Returns true if both rows have the same entry id and were last written by the same commit.
fn is_same(one: &CommittedRow<Entry>, other: &CommittedRow<Entry>) -> bool
    ensures { IsTrue result ↔ ((one.now.row.id ≡ other.now.row.id) × (one.now.commit ≡ other.now.commit)) }
{
    one.row.id() == other.row.id() && one.commit == other.commit
}
