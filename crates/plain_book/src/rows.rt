//! How are the rows of one kind stored?
//!
//! Finding a row among n takes about log2 n comparisons. A change copies the list of blocks and the block that it changes: it
//! increments the reference counts of these blocks and of at most 256 rows. A block is split when it has 257 rows, and is never
//! merged. So there are at most n / 128 blocks, or one, unless rows were removed.

ghost use Rattle.std.specs.Prelude.{◌≡◌, ◌≤◌, ◌+◌, ◌++◌, IfOk, length};
ghost use Rattle.std.specs.List.{AllByRecursion};
ghost use Rattle.plain_book.specs.Blocks.{IsBlock, joined};

use crate::blocks::{Block, Cut, cut_at, with_rows_at};
use crate::row::{BookRow, push_all, row_of, with_row, without_row};
use entry_book::{Sequence, Shared};
use std::alloc::{AllocError, Global};
use std::marker::Model;

/// A list of rows in blocks of 1 to 256; operations require the order of keys. Books share the list of blocks, and the
/// blocks. A clone increments one reference count. A contract sees the list of the rows.
#[derive(Drop)]
pub(crate) struct Rows<T> {
    blocks: Shared<Sequence<Block<T>>>,
    count: usize,
}

impl<T> Model for Rows<T> {
    ghost use Rattle.std.specs.Prelude.{List};
    ghost use Rattle.plain_book.specs.Blocks.{AreBlocks, joined};

    ghost Value = { List T };

    ghost view = { λ rows. joined rows.blocks };

    ghost invariant = { λ rows. AreBlocks rows.blocks rows.count };
}

impl<T> Rows<T> {
    ghost use Rattle.std.specs.Prelude.{◌≡◌, [], IfOk, length};
    ghost use Rattle.std.specs.List.{AllByRecursion};
    ghost use Rattle.plain_book.specs.Blocks.{IsBlock, joined};

    /// Returns an empty list. The error, here and below, is out of memory.
    pub(crate) fn empty(alloc: Global) -> Result<Rows<T>, AllocError>
    where
        T: Drop,
        ensures { IfOk result (λ rows. rows ≡ []) }
    {
        Ok(Rows {
            blocks: Shared::of(alloc, Sequence::empty(alloc))?,
            count: 0,
        })
    }

    /// Returns the blocks, in order.
    pub(crate) fn blocks(&self) -> &[Block<T>]
        ensures rows { joined result.now ≡ self.now }
        ensures filled { AllByRecursion IsBlock result.now }
    {
        self.blocks.get().as_slice()
    }

    /// Returns the number of rows.
    pub(crate) fn len(&self) -> usize
        ensures { result ≡ length self.now }
    {
        self.count
    }
}

impl<T: BookRow> Rows<T> {
    ghost use Rattle.std.specs.Prelude.{◌≡◌, ◌∷◌, [], IfOk, None, Some, bytes_eq, filter};
    ghost use Rattle.std.specs.Option.{option_copied};
    ghost use Rattle.entry_book.specs.Order.{Ascending, first, with_row};

    /// Returns a list of this row only.
    pub(crate) fn only(alloc: Global, row: T) -> Result<Rows<T>, AllocError>
        ensures { IfOk result (λ rows. rows ≡ row ∷ []) }
    {
        let none = Rows::empty(alloc)?;
        none.with(alloc, row)
    }

    /// Returns the row of a key, if there is one.
    pub(crate) fn row(&self, key: &[u8]) -> Option<&T>
        requires order { Ascending T.key self.now }
        ensures { option_copied result ≡ first (filter (λ row. bytes_eq (T.key row) key.now) self.now) }
    {
        let cut = cut_at(self.blocks(), key);
        row_of(cut.rows, key)
    }

    /// Returns the rows with this one, which replaces the one with its key, if there is one.
    pub(crate) fn with(&self, alloc: Global, row: T) -> Result<Rows<T>, AllocError>
        requires order { Ascending T.key self.now }
        ensures rows { IfOk result (λ new. new ≡ with_row T.key (T.key row) (Some row) self.now) }
        ensures order { IfOk result (λ new. Ascending T.key new) }
    {
        let cut = cut_at(self.blocks(), row.key());
        let rows = with_row(alloc, cut.rows, row)?;
        changed(alloc, self.len(), &cut, rows)
    }

    /// Returns the rows without the one with this key, if there is one.
    pub(crate) fn without(&self, alloc: Global, key: &[u8]) -> Result<Rows<T>, AllocError>
        requires order { Ascending T.key self.now }
        ensures rows { IfOk result (λ new. new ≡ with_row T.key key.now None self.now) }
        ensures order { IfOk result (λ new. Ascending T.key new) }
    {
        let cut = cut_at(self.blocks(), key);
        let rows = without_row(alloc, cut.rows, key)?;
        changed(alloc, self.len(), &cut, rows)
    }

    /// Returns a vector of all rows, and increments the reference counts of each.
    pub(crate) fn to_vec(&self, alloc: Global) -> Result<Vec<T>, AllocError>
        ensures { IfOk result (λ all. all.items ≡ self.now) }
    {
        all_of(alloc, self.blocks())
    }
}

/// Returns a vector of the rows of all blocks. The error is out of memory.
fn all_of<T: BookRow>(alloc: Global, blocks: &[Block<T>]) -> Result<Vec<T>, AllocError>
    ensures { IfOk result (λ all. all.items ≡ joined blocks.now) }
{
    let mut all = Vec::new(alloc);
    for block in blocks {
        push_all(block.get().as_slice(), &mut all)?;
    }
    Ok(all)
}

/// Returns the list in which these rows replace those at the cut. The list before has `count` rows. The error is out of
/// memory, or a number of rows above `usize::MAX`.
fn changed<T: Drop>(
    alloc: Global,
    count: usize,
    cut: &Cut<T>,
    rows: Vec<T>,
) -> Result<Rows<T>, AllocError>
    requires count { count ≡ length (joined cut.now.before.now ++ (cut.now.rows.now ++ joined cut.now.behind.now)) }
    requires size { length rows.items ≤ 257 }
    requires before { AllByRecursion IsBlock cut.now.before.now }
    requires behind { AllByRecursion IsBlock cut.now.behind.now }
    ensures { IfOk result (λ new. new ≡ joined cut.now.before.now ++ (rows.items ++ joined cut.now.behind.now)) }
{
    let Some(count) = (count - cut.rows.len()).checked_add(rows.len()) else {
        return Err(AllocError);
    };
    let blocks = with_rows_at(alloc, cut, rows)?;
    Ok(Rows {
        blocks: Shared::of(alloc, Sequence::of(blocks))?,
        count,
    })
}

impl<T: Drop> Clone for Rows<T> {
    ghost is_clone = { λ original copy. copy ≡ original };

    fn clone(&self) -> Result<Rows<T>, AllocError> {
        Ok(Rows {
            blocks: self.blocks.clone()?,
            count: self.count,
        })
    }
}
