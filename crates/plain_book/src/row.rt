//! What is a row of a book, and where in a sorted list of rows is it?

ghost use Rattle.std.specs.Prelude.{◌≡◌, ◌++◌, ◌∷◌, [], None, Some, OnOk, IfOk, List, ℕ, bytes_eq, filter};
ghost use Rattle.std.specs.Cmp.Lexicographic.{slice_cmp};
ghost use Rattle.std.specs.Option.{option_copied};
ghost use Rattle.std.specs.Ordering.{nat_cmp};
ghost use Rattle.entry_book.specs.Order.{Ascending, first, is_before, with_row};
ghost use Rattle.plain_book.specs.Ranks.{IsRank};

use entry_book::{Agent, Bundle, Entry, KeptBatch, Shared};
use std::alloc::{AllocError, Global};
use std::cmp::Ordering;

/// A row of a book. It has a key, and rows are ordered by the bytes of their keys.
pub(crate) trait BookRow: Drop {
    ghost key: { Self → List ℕ };

    /// Returns the bytes of the key.
    fn key(&self) -> &[u8]
        ensures { result.now ≡ key self.now };

    /// Returns a copy that shares the row's data by reference counts. The error is out of memory.
    fn duplicate(&self) -> Result<Self, AllocError>
        ensures { IfOk result (λ copy. copy ≡ self.now) };
}

impl BookRow for Entry {
    ghost key = { λ entry. entry.id };

    fn key(&self) -> &[u8] {
        self.id().as_bytes().as_slice()
    }

    fn duplicate(&self) -> Result<Self, AllocError> {
        self.clone()
    }
}

impl BookRow for Agent {
    ghost key = { λ agent. agent.id };

    fn key(&self) -> &[u8] {
        self.id.get().as_str().as_bytes()
    }

    fn duplicate(&self) -> Result<Self, AllocError> {
        self.clone()
    }
}

impl BookRow for Bundle {
    ghost key = { λ bundle. bundle.domain };

    fn key(&self) -> &[u8] {
        self.domain.get().as_str().as_bytes()
    }

    fn duplicate(&self) -> Result<Self, AllocError> {
        self.clone()
    }
}

impl BookRow for Shared<KeptBatch> {
    ghost key = { λ kept. kept.token };

    fn key(&self) -> &[u8] {
        self.get().token.as_bytes().as_slice()
    }

    fn duplicate(&self) -> Result<Self, AllocError> {
        self.clone()
    }
}

/// Compares the row's key with another.
fn compared<T: BookRow>(row: &T, key: &[u8]) -> Ordering
    ensures { result ≡ slice_cmp nat_cmp (T.key row.now) key.now }
{
    row.key().cmp(key)
}

/// Returns the index of the row with the key, or where it would be inserted, by binary search.
fn rank_of<T: BookRow>(rows: &[T], key: &[u8]) -> Result<usize, usize>
    requires order { Ascending T.key rows.now }
    ensures { IsRank T.key rows.now key.now result }
{
    rows.binary_search_by(|row| compared(row, key))
}

/// Returns the row with the key, if there is one, by binary search.
pub(crate) fn row_of<'a, T: BookRow>(rows: &'a [T], key: &[u8]) -> Option<&'a T>
    requires order { Ascending T.key rows.now }
    ensures { option_copied result ≡ first (filter (λ row. bytes_eq (T.key row) key.now) rows.now) }
{
    match rank_of(rows, key) {
        Ok(rank) => Some(&rows[rank]),
        Err(_) => None,
    }
}

/// Returns the rows before a key, and those after it.
fn around<'a, T: BookRow>(rows: &'a [T], key: &[u8]) -> (&'a [T], &'a [T])
    requires order { Ascending T.key rows.now }
    ensures before { result.0.now ≡ filter (λ row. is_before (T.key row) key.now) rows.now }
    ensures behind { result.1.now ≡ filter (λ row. is_before key.now (T.key row)) rows.now }
{
    match rank_of(rows, key) {
        Ok(rank) => (&rows[..rank], &rows[rank + 1..]),
        Err(rank) => (&rows[..rank], &rows[rank..]),
    }
}

/// Appends copies of the rows. The error is out of memory.
pub(crate) fn push_all<T: BookRow>(rows: &[T], out: &mut Vec<T>) -> Result<(), AllocError>
    ensures { OnOk result (out.new.items ≡ out.old.items ++ rows.now) }
{
    for row in rows {
        out.push(row.duplicate()?)?;
    }
    Ok(())
}

/// Returns the rows with this one, which replaces the one with its key, if there is one. The error is out of memory.
pub(crate) fn with_row<T: BookRow>(alloc: Global, rows: &[T], row: T) -> Result<Vec<T>, AllocError>
    requires order { Ascending T.key rows.now }
    ensures { IfOk result (λ new. new.items ≡ with_row T.key (T.key row) (Some row) rows.now) }
{
    let (before, behind) = around(rows, row.key());
    let mut out = Vec::with_capacity(alloc, rows.len().saturating_add(1))?;
    push_all(before, &mut out)?;
    out.push(row)?;
    push_all(behind, &mut out)?;
    Ok(out)
}

/// Returns the rows without the one with this key, if there is one. The error is out of memory.
#[tactic(auto, unfolding(entry_book::specs::Order::with_row))]
pub(crate) fn without_row<T: BookRow>(
    alloc: Global,
    rows: &[T],
    key: &[u8],
) -> Result<Vec<T>, AllocError>
    requires order { Ascending T.key rows.now }
    ensures { IfOk result (λ new. new.items ≡ with_row T.key key.now None rows.now) }
{
    let (before, behind) = around(rows, key);
    let mut out = Vec::with_capacity(alloc, rows.len())?;
    push_all(before, &mut out)?;
    push_all(behind, &mut out)?;
    Ok(out)
}

/// Replaces the row with the same key, or else inserts the row in order. The error is out of memory.
pub(crate) fn put_row<T: BookRow>(rows: &mut Vec<T>, row: T) -> Result<(), AllocError>
    requires order { Ascending T.key rows.old.items }
    ensures rows { OnOk result (rows.new.items ≡ with_row T.key (T.key row) (Some row) rows.old.items) }
    ensures order { OnOk result (Ascending T.key rows.new.items) }
{
    match rank_of(rows.as_slice(), row.key()) {
        Ok(rank) => {
            rows[rank] = row;
            Ok(())
        }
        Err(rank) => {
            rows.insert(rank, row)?;
            Ok(())
        }
    }
}
